//! What Sync has to cross in a network, and for how long a settled system waits for it at most.

ghost use Rattle.std.specs.Prelude.{◌≡◌, ◌<◌, ◌≤◌, ◌↔◌, IsTrue, length, slice_get};
ghost use Rattle.std.specs.List.{count_by, list_any};
ghost use Rattle.gptp_scenario.specs.InUse.{any_differ, far_clock, greatest_delay, leads_elsewhere, lives_between, neighbour, neighbours, path_systems, with_delay};
ghost use Rattle.gptp_scenario.specs.Params.{KeepParams};
ghost use Rattle.gptp_scenario.specs.SyncWait.{step_more, sync_wait};
ghost use Rattle.gptp_setup.specs.Intervals.{IsLog};
ghost use Rattle.gptp_setup.specs.SettlingParams.{lapse_span};

use crate::calm::{is_used, link_after, live_systems, system_after};
use crate::change::Timed;
use crate::network::{LinkSpec, SystemSpec};
use gptp_setup::{Params, interval_of, lapse_span};
use gptp_vector::ClockId;

/// What Sync has to cross in a network as it stands.
#[derive(Clone, Copy, Debug, PartialEq, Eq)]
pub struct SyncPaths {
    /// How many systems a path over the live systems and the links in use has at most.
    pub systems: usize,
    /// The greatest delay of a link in use, in ns, or 0.
    pub delay: u64,
}

/// The greatest delay of those of these links that are in use after these events, as they then stand, or 0.
#[tactic(auto, using(crate::proofs::InUseLemmas::delay_moves))]
pub(crate) fn greatest_delay(systems: &[SystemSpec], events: &[Timed], links: &[LinkSpec]) -> u64
    ensures { result ≡ greatest_delay systems.now events.now links.now }
{
    let mut greatest = 0;
    for wire in links {
        greatest = with_delay(systems, events, wire, greatest);
    }
    greatest
}

/// The greater of a delay and that of this link, where it is in use.
fn with_delay(systems: &[SystemSpec], events: &[Timed], wire: &LinkSpec, greatest: u64) -> u64
    ensures { result ≡ with_delay systems.now events.now wire.now greatest }
{
    let after = link_after(events, wire);
    if is_used(systems, events, &after) {
        after.bounds.max.max(greatest)
    } else {
        greatest
    }
}

/// The system that a link joins to the one with this clock.
fn far_clock(clock: ClockId, wire: &LinkSpec) -> Option<ClockId>
    ensures { result ≡ far_clock clock wire.now }
{
    if wire.a.clock == clock {
        Some(wire.b.clock)
    } else if wire.b.clock == clock {
        Some(wire.a.clock)
    } else {
        None
    }
}

/// The system that a link joins to the one with this clock, where the link is in use after these events.
fn neighbour(
    systems: &[SystemSpec],
    events: &[Timed],
    clock: ClockId,
    wire: &LinkSpec,
) -> Option<ClockId>
    ensures { result ≡ neighbour systems.now events.now clock wire.now }
{
    let far = far_clock(clock, wire)?;
    if is_used(systems, events, &link_after(events, wire)) {
        Some(far)
    } else {
        None
    }
}

/// The first system that a link in use joins to the one with this clock.
fn first_neighbour(
    systems: &[SystemSpec],
    links: &[LinkSpec],
    events: &[Timed],
    clock: ClockId,
) -> Option<ClockId>
    ensures { result ≡ slice_get (neighbours systems.now links.now events.now clock) 0 }
{
    for wire in links {
        let far = neighbour(systems, events, clock, wire);
        if far.is_some() {
            return far;
        }
    }
    None
}

/// Whether a link in use joins the system with this clock to another than the first.
fn leads_elsewhere(
    systems: &[SystemSpec],
    events: &[Timed],
    clock: ClockId,
    first: ClockId,
    wire: &LinkSpec,
) -> bool
    ensures { result ≡ leads_elsewhere systems.now events.now clock first wire.now }
{
    match neighbour(systems, events, clock, wire) {
        Some(far) => far != first,
        None => false,
    }
}

/// Whether one of these links does.
fn any_leads_elsewhere(
    systems: &[SystemSpec],
    links: &[LinkSpec],
    events: &[Timed],
    clock: ClockId,
    first: ClockId,
) -> bool
    ensures { result ≡ list_any (leads_elsewhere systems.now events.now clock first) links.now }
{
    links.iter().any(|wire| leads_elsewhere(systems, events, clock, first, wire))
}

/// Whether links in use join the system with this clock to two different systems.
#[tactic(auto, using(crate::proofs::InUseLemmas::several_by, crate::proofs::InUseLemmas::several_of_none))]
fn has_two_neighbours(
    systems: &[SystemSpec],
    links: &[LinkSpec],
    events: &[Timed],
    clock: ClockId,
) -> bool
    ensures { result ≡ any_differ (neighbours systems.now links.now events.now clock) }
{
    match first_neighbour(systems, links, events, clock) {
        Some(first) => any_leads_elsewhere(systems, links, events, clock, first),
        None => false,
    }
}

/// Whether a system lives and links in use join it to two different systems.
fn lives_between(
    systems: &[SystemSpec],
    links: &[LinkSpec],
    events: &[Timed],
    member: &SystemSpec,
) -> bool
    ensures { result ≡ lives_between systems.now links.now events.now member.now }
{
    system_after(events, member).live
        && has_two_neighbours(systems, links, events, member.identity.clock())
}

/// How many systems do.
fn live_between(systems: &[SystemSpec], links: &[LinkSpec], events: &[Timed]) -> u64
    ensures count { result ≡ count_by (lives_between systems.now links.now events.now) systems.now }
    ensures bound { result ≤ length systems.now }
{
    let mut count = 0;
    for member in systems {
        count += u64::from(lives_between(systems, links, events, member));
    }
    count
}

/// How many systems a path over the live systems and the links in use has at most.
#[tactic(auto, unfolding(crate::specs::InUse::path_systems))]
fn path_systems(systems: &[SystemSpec], links: &[LinkSpec], events: &[Timed]) -> usize
    requires few { length systems.now ≤ 512 }
    ensures is { result ≡ path_systems systems.now links.now events.now }
    ensures few { result ≤ 512 }
{
    (live_between(systems, links, events) + 2).min(live_systems(systems, events)) as usize
}

/// What Sync has to cross in a network of these after these events.
pub(crate) fn sync_paths(systems: &[SystemSpec], links: &[LinkSpec], events: &[Timed]) -> SyncPaths
    requires few { length systems.now ≤ 512 }
    ensures systems { result.systems ≡ path_systems systems.now links.now events.now }
    ensures delay { result.delay ≡ greatest_delay systems.now events.now links.now }
    ensures few { result.systems ≤ 512 }
{
    SyncPaths {
        systems: path_systems(systems, links, events),
        delay: greatest_delay(systems, events, links),
    }
}

/// For how long a settled system waits for Sync at most, in ns.
#[tactic(auto, using(crate::proofs::SyncWaitLemmas::short_way))]
pub(crate) fn sync_wait(params: &Params, paths: SyncPaths) -> u64
    requires params { KeepParams params.now }
    requires few { paths.systems ≤ 512 }
    requires short { paths.delay ≤ 160000000000 }
    ensures { result ≡ sync_wait params.now paths }
{
    let links = (paths.systems as u64).saturating_sub(1);
    interval_of(params.sync) + links * (params.residence + paths.delay)
}

/// Whether Sync comes within syncReceiptTimeout. No delay above the longest such timeout does.
pub(crate) fn comes_in_time(params: &Params, paths: SyncPaths) -> bool
    requires params { KeepParams params.now }
    requires few { paths.systems ≤ 512 }
    ensures { IsTrue result ↔ sync_wait params.now paths < lapse_span params.now }
{
    let counted = SyncPaths {
        systems: paths.systems,
        delay: paths.delay.min(160_000_000_000),
    };
    sync_wait(params, counted) < lapse_span(params)
}

/// What a step of distance from the best takes longer where something may lapse for want of Sync, in ns.
pub(crate) fn step_more(params: &Params, largest: i8, paths: SyncPaths) -> u64
    requires params { KeepParams params.now }
    requires largest { IsLog largest }
    requires few { paths.systems ≤ 512 }
    requires short { paths.delay ≤ 16000000000 }
    ensures is { result ≡ step_more (record { params = params.now; largest = largest }) paths }
    ensures bound { result ≤ 176000000000 }
{
    let wait = sync_wait(params, paths);
    if wait < lapse_span(params) {
        (wait + paths.delay).saturating_sub(interval_of(largest))
    } else {
        0
    }
}
