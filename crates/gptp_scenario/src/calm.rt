//! Whether a network is calm after changes.

ghost use Rattle.std.specs.Prelude.{◌≡◌, ◌↔◌, ◌≤◌, ◌+◌, ◌*◌, IsTrue, true, length};
ghost use Rattle.gptp_pdelay.specs.GoodLink.{IsGoodLink};
ghost use Rattle.gptp_setup.specs.Stamping.{blur_of};
ghost use Rattle.gptp_scenario.specs.Calm.{IsLive, IsUsed, IsQuiet, Rests, AllRest, SyncsComeInTime, IsCalm};
ghost use Rattle.gptp_scenario.specs.Change.{is_at, system_changed, link_changed, system_acted, link_acted, system_after, link_after, live_after, joined_after};
ghost use Rattle.gptp_scenario.specs.Params.{KeepParams};
ghost use Rattle.gptp_scenario.specs.InUse.{is_used, count_live, lives};
ghost use Rattle.gptp_scenario.specs.SyncWait.{sync_paths};

use crate::change::{Act, Change, Timed};
use crate::network::{LinkSpec, Network, SystemSpec};
use crate::sync_wait::{comes_in_time, sync_paths};
use gptp_links::Bounds;
use gptp_setup::{Params, blur_of};
use gptp_vector::{ClockId, Identity, PortId};

/// How a system stands: its identity, and whether it lives.
#[derive(Clone, Copy, Debug)]
pub(crate) struct Standing {
    pub identity: Identity,
    pub live: bool,
}

/// Does to the system with this clock what a change does.
fn change_system(change: &Change, own: ClockId, system: &mut Standing)
    ensures { system.new ≡ system_changed change.now own system.old }
{
    match *change {
        Change::Fail { clock } => {
            if clock == own {
                system.live = false;
            }
        }
        Change::Recover { clock } => {
            if clock == own {
                system.live = true;
            }
        }
        Change::Priority1 { clock, value } => {
            if clock == own {
                system.identity = system.identity.with_priority1(value);
            }
        }
        Change::LinkDown { clock: _, port: _ } => {}
        Change::LinkUp { clock: _, port: _ } => {}
        Change::LinkSet {
            clock: _,
            port: _,
            min: _,
            max: _,
            loss: _,
        } => {}
        Change::Inject {
            clock: _,
            port: _,
            octets: _,
        } => {}
    }
}

/// Whether a link is at this port.
fn is_at(clock: ClockId, port: u16, wire: &LinkSpec) -> bool
    ensures { result ≡ is_at clock port wire.now }
{
    let port = PortId { clock, port };
    wire.a == port || wire.b == port
}

/// Does to a link what a change does.
fn change_link(change: &Change, wire: &mut LinkSpec)
    ensures { wire.new ≡ link_changed change.now wire.old }
{
    match *change {
        Change::LinkDown { clock, port } => {
            if is_at(clock, port, wire) {
                wire.up = false;
            }
        }
        Change::LinkUp { clock, port } => {
            if is_at(clock, port, wire) {
                wire.up = true;
            }
        }
        Change::LinkSet {
            clock,
            port,
            min,
            max,
            loss,
        } => {
            if is_at(clock, port, wire) {
                wire.bounds.min = min;
                wire.bounds.max = max;
                wire.bounds.loss = loss;
            }
        }
        Change::Fail { clock: _ } => {}
        Change::Recover { clock: _ } => {}
        Change::Priority1 { clock: _, value: _ } => {}
        Change::Inject {
            clock: _,
            port: _,
            octets: _,
        } => {}
    }
}

/// Does to the system with this clock what an act does.
fn act_on_system(act: &Act, own: ClockId, system: &mut Standing)
    ensures { system.new ≡ system_acted act.now own system.old }
{
    match act {
        Act::Change(change) => change_system(change, own, system),
        Act::Deliver {
            link: _,
            direction: _,
        } => {}
        Act::Expire { clock: _, timer: _ } => {}
    }
}

/// Does to a link what an act does.
fn act_on_link(act: &Act, wire: &mut LinkSpec)
    ensures { wire.new ≡ link_acted act.now wire.old }
{
    match act {
        Act::Change(change) => change_link(change, wire),
        Act::Deliver {
            link: _,
            direction: _,
        } => {}
        Act::Expire { clock: _, timer: _ } => {}
    }
}

/// A system after these events.
pub(crate) fn system_after(events: &[Timed], member: &SystemSpec) -> Standing
    ensures { result ≡ system_after events.now member.now }
{
    let own = member.identity.clock();
    let mut system = Standing {
        identity: member.identity,
        live: true,
    };
    for event in events {
        act_on_system(&event.act, own, &mut system);
    }
    system
}

/// A link after these events.
pub(crate) fn link_after(events: &[Timed], wire: &LinkSpec) -> LinkSpec
    ensures { result ≡ link_after events.now wire.now }
{
    let mut after = *wire;
    for event in events {
        act_on_link(&event.act, &mut after);
    }
    after
}

/// A system that lives after these events: its identity then, and how many ports it has.
pub(crate) fn live_after(events: &[Timed], member: &SystemSpec) -> Option<(Identity, u8)>
    ensures { result ≡ live_after events.now member.now }
{
    let system = system_after(events, member);
    if system.live {
        Some((system.identity, member.ports))
    } else {
        None
    }
}

/// The ports of a link that is up after these events.
pub(crate) fn joined_after(events: &[Timed], wire: &LinkSpec) -> Option<(PortId, PortId)>
    ensures { result ≡ joined_after events.now wire.now }
{
    if link_after(events, wire).up {
        Some((wire.a, wire.b))
    } else {
        None
    }
}

/// Whether the system with this clock lives after these events.
fn is_live(systems: &[SystemSpec], events: &[Timed], clock: ClockId) -> bool
    ensures is { result ≡ lives systems.now events.now clock }
    ensures live { IsTrue result ↔ IsLive systems.now events.now clock }
{
    systems.iter().any(|member| member.identity.clock() == clock
        && system_after(events, member).live)
}

/// Whether a link is up and joins two live systems.
pub(crate) fn is_used(systems: &[SystemSpec], events: &[Timed], wire: &LinkSpec) -> bool
    ensures is { result ≡ is_used systems.now events.now wire.now }
    ensures used { IsTrue result ↔ IsUsed systems.now events.now wire.now }
{
    wire.up && is_live(systems, events, wire.a.clock) && is_live(systems, events, wire.b.clock)
}

/// Whether a link of this greatest delay is short enough for the threshold, also where time stamps are off.
fn is_good(params: &Params, max: u64) -> bool
    requires params { KeepParams params.now }
    requires max { max ≤ 1000000000 }
    ensures { IsTrue result ↔ IsGoodLink (max + blur_of params.now) params.now.turnaround params.now.threshold }
{
    let measured = max + blur_of(params);
    measured + (measured + 999) / 1000 + (params.turnaround + 1999) / 2000 + 2 <= params.threshold
}

/// Whether a link loses nothing, and is good.
fn is_quiet(params: &Params, wire: &LinkSpec) -> bool
    requires { KeepParams params.now }
    ensures { IsTrue result ↔ IsQuiet params.now wire.now }
{
    wire.bounds.loss == 0 && wire.bounds.max <= params.threshold && is_good(params, wire.bounds.max)
}

/// Whether a link that is up between two live systems after these events is quiet.
fn rests(params: &Params, systems: &[SystemSpec], events: &[Timed], wire: &LinkSpec) -> bool
    requires { KeepParams params.now }
    ensures { IsTrue result ↔ Rests params.now systems.now events.now wire.now }
{
    let after = link_after(events, wire);
    is_quiet(params, &after) || !is_used(systems, events, &after)
}

/// Whether each link rests after these events.
fn all_rest(params: &Params, systems: &[SystemSpec], links: &[LinkSpec], events: &[Timed]) -> bool
    requires { KeepParams params.now }
    ensures { IsTrue result ↔ AllRest params.now systems.now links.now events.now }
{
    links
        .iter()
        .all(|wire| rests(params, systems, events, wire))
}

/// Whether nothing lapses for want of Sync once a network of these has settled.
fn syncs_come_in_time(
    params: &Params,
    systems: &[SystemSpec],
    links: &[LinkSpec],
    events: &[Timed],
) -> bool
    requires params { KeepParams params.now }
    requires few { length systems.now ≤ 512 }
    ensures { IsTrue result ↔ SyncsComeInTime params.now
        (sync_paths (record { params = params.now; systems = systems.now; links = links.now; seed = 1 }) events.now) }
{
    params.sync_timeout == 0 || comes_in_time(params, sync_paths(systems, links, events))
}

/// Whether a network of these is calm after these events.
pub(crate) fn is_calm(
    params: &Params,
    systems: &[SystemSpec],
    links: &[LinkSpec],
    events: &[Timed],
) -> bool
    requires params { KeepParams params.now }
    requires few { length systems.now ≤ 512 }
    ensures { IsTrue result
        ↔ IsCalm (record { params = params.now; systems = systems.now; links = links.now; seed = 1 }) events.now }
{
    all_rest(params, systems, links, events) && syncs_come_in_time(params, systems, links, events)
}

/// How many systems live after these events.
pub(crate) fn live_systems(systems: &[SystemSpec], events: &[Timed]) -> u64
    ensures count { result ≡ count_live systems.now events.now }
    ensures bound { result ≤ length systems.now }
{
    let mut count = 0;
    for member in systems {
        count += u64::from(system_after(events, member).live);
    }
    count
}
