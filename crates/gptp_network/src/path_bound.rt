//! How many systems a path of a snapshot has at most.

ghost use Rattle.std.specs.Prelude.{◌≡◌};
ghost use Rattle.gptp_network.specs.PathBound.{are_several, with_neighbour};

use crate::snapshot::Snapshot;
use gptp_vector::{ClockId, PortId};

/// What is known of the neighbours of a system: there is none, all are this one, or two differ.
#[derive(Clone, Copy, Debug)]
pub(crate) enum Neighbours {
    Nobody,
    One(ClockId),
    Several,
}

/// One neighbour more is known.
fn with_neighbour(known: Neighbours, clock: ClockId) -> Neighbours
    ensures { result ≡ with_neighbour known clock }
{
    match known {
        Neighbours::Nobody => Neighbours::One(clock),
        Neighbours::One(first) => {
            if first == clock {
                known
            } else {
                Neighbours::Several
            }
        }
        Neighbours::Several => known,
    }
}

/// Whether two of them differ.
fn are_several(known: Neighbours) -> bool
    ensures { result ≡ are_several known }
{
    match known {
        Neighbours::Several => true,
        Neighbours::Nobody => false,
        Neighbours::One(_) => false,
    }
}

impl Snapshot {
    ghost use Rattle.std.specs.Prelude.{◌≡◌, ◌<◌, ◌≤◌, ◌+◌, length, get_or};
    ghost use Rattle.gptp_graph.specs.PathBound.{BoundsPaths, has_two_neighbours, path_bound, with_two_neighbours};
    ghost use Rattle.gptp_graph.specs.Snapshot.{clocks};
    ghost use Rattle.gptp_network.specs.PathBound.{NeighboursAreKnown};

    /// What is known of the neighbours of a system with one port more.
    fn with_port(&self, known: Neighbours, port: PortId) -> Neighbours
        requires known { NeighboursAreKnown self.now port.clock port.port known }
        ensures { NeighboursAreKnown self.now port.clock (port.port + 1) result }
    {
        self.well_formed();
        match self.other_end(port) {
            Some(other) => with_neighbour(known, other.clock),
            None => known,
        }
    }

    /// What the first ports of a system, so many, lead to.
    fn neighbours(&self, clock: ClockId, ports: u8) -> Neighbours
        ensures { NeighboursAreKnown self.now clock (ports + 1) result }
    {
        self.well_formed();
        let mut known = Neighbours::Nobody;
        for place in 0..ports {
            known = self.with_port(
                known,
                PortId {
                    clock,
                    port: u16::from(place) + 1,
                },
            );
        }
        known
    }

    /// Whether links join the system at a place, from 0, to two different systems.
    fn has_two_neighbours(&self, place: usize) -> bool
        requires { place < length self.now.systems }
        ensures { result ≡ has_two_neighbours self.now (get_or (clocks self.now) place 0) }
    {
        self.well_formed();
        match self.system_at(place) {
            Some(system) => are_several(self.neighbours(system.0.clock(), system.1)),
            None => false,
        }
    }

    /// How many systems are joined to two different systems or more.
    #[tactic(auto, using(crate::proofs::PathBoundLemmas::counted, crate::proofs::PathBoundLemmas::all_counted))]
    fn with_two_neighbours(&self) -> usize
        ensures count { result ≡ with_two_neighbours self.now }
        ensures bound { result ≤ length self.now.systems }
    {
        let mut count = 0;
        for place in 0..self.systems() {
            count += usize::from(self.has_two_neighbours(place));
        }
        count
    }

    /// How many systems a path over the live systems and the links between them has at most: two more than are joined
    /// to two different systems or more, and no more than there are. (The first and the last of a path may have one
    /// neighbour; each other has the one before it and the one after.) So a network whose paths are short settles
    /// sooner than its number of systems says. Takes no memory.
    pub fn path_bound(&self) -> usize
        ensures bound { result ≡ path_bound self.now }
        ensures paths { BoundsPaths self.now result }
        ensures systems { result ≤ length self.now.systems }
        ensures few { result ≤ 512 }
    {
        self.well_formed();
        (self.with_two_neighbours() + 2).min(self.systems())
    }
}
