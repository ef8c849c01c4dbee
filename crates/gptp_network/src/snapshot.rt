//! Snapshots: a network as it stands at a time.

ghost use Rattle.std.specs.Prelude.{◌≡◌, ℕ, IfNone, IfSome, None, Some, slice_get};
ghost use Rattle.gptp_lists.specs.Members.{In};
ghost use Rattle.gptp_network.specs.SnapshotTables.{HasClock, RisesByClock, RisesByPort, seen_systems};

use crate::taking::{ends_by_port, links_between, systems_by_clock};
use gptp_scenario::{Network, Timed};
use gptp_vector::{ClockId, Identity, PortId};
use std::alloc::{AllocError, Global};
use std::marker::Model;

/// A live system: its identity, and how many ports it has.
#[derive(Clone, Copy, Debug)]
pub(crate) struct LiveSystem {
    pub identity: Identity,
    pub ports: u8,
}

/// A link: the ports that it joins.
#[derive(Clone, Copy, Debug)]
pub(crate) struct UsedLink {
    pub a: PortId,
    pub b: PortId,
}

/// One end of a link, and the other.
#[derive(Clone, Copy, Debug)]
pub(crate) struct LinkEnd {
    pub here: PortId,
    pub there: PortId,
}

/// The network of a document as it stands at a time: its live systems by rising clock, and the links that are up
/// between two of them. It is seen as these two, as gptp_graph has them, and what holds of the snapshot of every
/// network holds of it.
#[derive(Drop)]
pub struct Snapshot {
    systems: Vec<LiveSystem>,
    links: Vec<UsedLink>,
    // Both ends of each link, by rising port.
    ends: Vec<LinkEnd>,
}

impl Model for Snapshot {
    ghost use Rattle.gptp_graph.specs.Snapshot.{Snapshot};

    ghost Value = { Snapshot };

    ghost use Rattle.gptp_network.specs.SnapshotTables.{seen, AreTables};

    ghost view = { λ s. seen s.systems.items s.links.items };

    ghost invariant = { λ s. AreTables s.systems.items s.links.items s.ends.items };
}

impl Snapshot {
    ghost use Rattle.std.specs.Prelude.{◌≡◌, ◌≤◌, length, option_map, slice_get, IfNone, IfOk, IfSome};
    ghost use Rattle.gptp_graph.specs.Order.{IsRising};
    ghost use Rattle.gptp_graph.specs.Snapshot.{IsLinked, IsWellFormed, Joins, clocks};
    ghost use Rattle.gptp_network.specs.Snapshot.{StandsAfter, link_of, port_identity, system_of};
    ghost use Rattle.gptp_network.specs.SnapshotTables.{HasClock};

    /// What of a network stands after these events.
    pub(crate) fn after(
        alloc: Global,
        network: &Network,
        events: &[Timed],
    ) -> Result<Self, AllocError>
        ensures { IfOk result (StandsAfter network.now events.now) }
    {
        network.well_formed();
        let systems = systems_by_clock(alloc, network, events)?;
        let links = links_between(alloc, network, events, &systems)?;
        let ends = ends_by_port(alloc, &links)?;
        Ok(Snapshot {
            systems,
            links,
            ends,
        })
    }

    /// How many live systems there are.
    pub fn systems(&self) -> usize
        ensures { result ≡ length self.now.systems }
    {
        self.systems.len()
    }

    /// A live system by its place from 0, by rising clock: its identity, and how many ports it has.
    pub fn system_at(&self, place: usize) -> Option<(Identity, u8)>
        ensures { option_map system_of result ≡ slice_get self.now.systems place }
    {
        let system = self.systems.as_slice().get(place)?;
        Some((system.identity, system.ports))
    }

    /// How many links are up between two live systems.
    pub fn links(&self) -> usize
        ensures { result ≡ length self.now.links }
    {
        self.links.len()
    }

    /// The ports that such a link joins, by its place from 0, in the order of the document.
    pub fn link_at(&self, place: usize) -> Option<(PortId, PortId)>
        ensures { option_map link_of result ≡ slice_get self.now.links place }
    {
        let link = self.links.as_slice().get(place)?;
        Some((link.a, link.b))
    }

    /// The place of the live system with a clock, if there is one.
    pub fn place_of(&self, clock: ClockId) -> Option<usize>
        ensures some { IfSome result (HasClock self.now.systems clock) }
        ensures only { (place : ℕ) → HasClock self.now.systems clock place → result ≡ Some place }
    {
        place_among(&self.systems, clock)
    }

    /// The port at the other end of the link at a port, if there is one.
    pub fn other_end(&self, port: PortId) -> Option<PortId>
        ensures some { IfSome result (λ other. Joins self.now (port_identity port) (port_identity other)) }
        ensures none { IfNone result (IsLinked self.now (port_identity port) → ⊥) }
    {
        end_among(&self.ends, port)
    }

    /// Clocks rise, each system's identity holds its clock, and a link joins ports of two of the systems, at which no
    /// other link is. There are 512 systems at most.
    pub fn well_formed(&self)
        ensures network { IsWellFormed self.now }
        ensures rising { IsRising (clocks self.now) }
        ensures few { length self.now.systems ≤ 512 }
    {
        let _ = &self.systems;
    }
}

/// The place of the system with a clock, where there is one, among systems by rising clock.
pub(crate) fn place_among(systems: &[LiveSystem], clock: ClockId) -> Option<usize>
    requires { RisesByClock systems.now }
    ensures some { IfSome result (HasClock (seen_systems systems.now) clock) }
    ensures only { (place : ℕ) → HasClock (seen_systems systems.now) clock place → result ≡ Some place }
{
    systems
        .binary_search_by_key(&clock, |system| system.identity.clock())
        .ok()
}

/// The other end at a port, where a link is at it, among ends by rising port.
fn end_among(ends: &[LinkEnd], port: PortId) -> Option<PortId>
    requires { RisesByPort ends.now }
    ensures some { IfSome result (λ other. In (record { here = port; there = other }) ends.now) }
    ensures none { IfNone result ((other : PortId) → In (record { here = port; there = other }) ends.now → ⊥) }
{
    match ends.binary_search_by_key(&port, |end| end.here) {
        Ok(place) => Some(ends[place].there),
        Err(_) => None,
    }
}
