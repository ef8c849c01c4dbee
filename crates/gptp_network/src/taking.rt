//! Taking a snapshot: which systems live, and which links are up between two of them.

ghost use Rattle.std.specs.Prelude.{◌≡◌, ◌+◌, ◌++◌, ◌<◌, [], ◌∷◌, length, take, filter, flat_map, IfOk, OnOk};
ghost use Rattle.gptp_network.specs.Snapshot.{has_clock, joins_two, link_of, used_links};
ghost use Rattle.gptp_network.specs.SnapshotTables.{AreEnds, AreLive, AreSystems, RisesByClock, both_ends, seen_links, seen_systems};

use crate::snapshot::{LinkEnd, LiveSystem, UsedLink, place_among};
use gptp_scenario::{Network, Timed};
use gptp_vector::{ClockId, Identity, PortId};
use std::alloc::{AllocError, Global};

/// Puts a system, which has this identity and so many ports, after others.
fn push_system(systems: &mut Vec<LiveSystem>, live: (Identity, u8)) -> Result<(), AllocError>
    ensures { OnOk result (systems.new.items ≡ systems.old.items ++ record { identity = live.0; ports = live.1 } ∷ []) }
{
    systems.push(LiveSystem {
        identity: live.0,
        ports: live.1,
    })?;
    Ok(())
}

/// Puts the system at a place after those of the places before, where it lives after these events.
fn push_live(
    systems: &mut Vec<LiveSystem>,
    network: &Network,
    events: &[Timed],
    place: usize,
) -> Result<(), AllocError>
    requires place { place < length network.now.systems }
    requires before { AreLive (take place network.now.systems) events.now systems.old.items }
    ensures { OnOk result (AreLive (take (place + 1) network.now.systems) events.now systems.new.items) }
{
    match network.live_after(place, events) {
        Some(live) => push_system(systems, live),
        None => Ok(()),
    }
}

/// The systems that live after these events, in the order of the network.
fn live_systems(
    alloc: Global,
    network: &Network,
    events: &[Timed],
) -> Result<Vec<LiveSystem>, AllocError>
    ensures { IfOk result (λ systems. AreLive network.now.systems events.now systems.items) }
{
    let mut systems = Vec::new(alloc);
    for place in 0..network.systems() {
        push_live(&mut systems, network, events, place)?;
    }
    Ok(systems)
}

/// The systems that live after these events, by rising clock.
pub(crate) fn systems_by_clock(
    alloc: Global,
    network: &Network,
    events: &[Timed],
) -> Result<Vec<LiveSystem>, AllocError>
    ensures { IfOk result (λ systems. AreSystems network.now.systems events.now systems.items) }
{
    network.well_formed();
    let mut systems = live_systems(alloc, network, events)?;
    systems.sort_unstable_by_key(|system| system.identity.clock());
    Ok(systems)
}

/// Whether one of the systems, which stand by rising clock, has a clock.
fn has_clock(systems: &[LiveSystem], clock: ClockId) -> bool
    requires { RisesByClock systems.now }
    ensures { result ≡ has_clock (seen_systems systems.now) clock }
{
    place_among(systems, clock).is_some()
}

/// Puts a link after others, where both its ends are at systems, which stand by rising clock.
fn push_between(
    links: &mut Vec<UsedLink>,
    systems: &[LiveSystem],
    a: PortId,
    b: PortId,
) -> Result<(), AllocError>
    requires { RisesByClock systems.now }
    ensures { OnOk result (seen_links links.new.items ≡ seen_links links.old.items ++ filter (joins_two (seen_systems systems.now)) (link_of (a, b) ∷ [])) }
{
    if has_clock(systems, a.clock) && has_clock(systems, b.clock) {
        links.push(UsedLink { a, b })?;
    }
    Ok(())
}

/// Puts the link at a place after those of the places before, where it is up after these events between two of the
/// systems, which stand by rising clock.
fn push_used(
    links: &mut Vec<UsedLink>,
    network: &Network,
    events: &[Timed],
    systems: &[LiveSystem],
    place: usize,
) -> Result<(), AllocError>
    requires rising { RisesByClock systems.now }
    requires place { place < length network.now.links }
    requires before { seen_links links.old.items ≡ used_links (take place network.now.links) events.now (seen_systems systems.now) }
    ensures { OnOk result (seen_links links.new.items ≡ used_links (take (place + 1) network.now.links) events.now (seen_systems systems.now)) }
{
    match network.joined_after(place, events) {
        Some((a, b)) => push_between(links, systems, a, b),
        None => Ok(()),
    }
}

/// The links that are up after these events between two of the systems, which stand by rising clock.
pub(crate) fn links_between(
    alloc: Global,
    network: &Network,
    events: &[Timed],
    systems: &[LiveSystem],
) -> Result<Vec<UsedLink>, AllocError>
    requires { RisesByClock systems.now }
    ensures { IfOk result (λ links. seen_links links.items ≡ used_links network.now.links events.now (seen_systems systems.now)) }
{
    let mut links = Vec::new(alloc);
    for place in 0..network.links() {
        push_used(&mut links, network, events, systems, place)?;
    }
    Ok(links)
}

/// Puts an end of a link after others.
fn push_end(ends: &mut Vec<LinkEnd>, here: PortId, there: PortId) -> Result<(), AllocError>
    ensures { OnOk result (ends.new.items ≡ ends.old.items ++ record { here = here; there = there } ∷ []) }
{
    ends.push(LinkEnd { here, there })?;
    Ok(())
}

/// Puts both ends of a link after others.
fn push_ends(ends: &mut Vec<LinkEnd>, link: &UsedLink) -> Result<(), AllocError>
    ensures { OnOk result (ends.new.items ≡ ends.old.items ++ both_ends link.now) }
{
    push_end(ends, link.a, link.b)?;
    push_end(ends, link.b, link.a)
}

/// Both ends of each link, in the order of the links.
fn all_ends(alloc: Global, links: &[UsedLink]) -> Result<Vec<LinkEnd>, AllocError>
    ensures { IfOk result (λ ends. ends.items ≡ flat_map both_ends links.now) }
{
    let mut ends = Vec::new(alloc);
    for link in links {
        push_ends(&mut ends, link)?;
    }
    Ok(ends)
}

/// Both ends of each link, by rising port.
pub(crate) fn ends_by_port(alloc: Global, links: &[UsedLink]) -> Result<Vec<LinkEnd>, AllocError>
    ensures { IfOk result (λ ends. AreEnds (seen_links links.now) ends.items) }
{
    let mut ends = all_ends(alloc, links)?;
    ends.sort_unstable_by_key(|end| end.here);
    Ok(ends)
}
