//! Distances of systems from the best of their component.

ghost use Rattle.std.specs.Prelude.{◌≡◌, IfNone, IfSome, slice_get};
ghost use Rattle.gptp_graph.specs.Snapshot.{clocks};
ghost use Rattle.gptp_lists.specs.Members.{In};
ghost use Rattle.gptp_components.specs.Distances.{AreDistances, IsDistanceOf};

use gptp_network::Snapshot;
use gptp_vector::{ClockId, Identity};

/// The best system of a live system's component, and how many links the system is from it.
#[derive(Clone, Copy, Debug, PartialEq, Eq)]
pub struct Distance {
    /// The best's identity.
    pub root: Identity,
    /// The least number of links on a path from the best to the system: 0 for the best itself, and at most 511.
    pub steps: u16,
}

/// The distance at a place, if there is one.
fn distance_at(distances: &[Distance], place: usize) -> Option<Distance>
    ensures { result ≡ slice_get distances.now place }
{
    distances.get(place).copied()
}

/// The distance of the live system with a clock, if there is one, by the distances of a snapshot. Takes no memory, and
/// logarithmic time.
pub fn distance_of(snapshot: &Snapshot, distances: &[Distance], clock: ClockId) -> Option<Distance>
    requires { AreDistances snapshot.now distances.now }
    ensures some { IfSome result (IsDistanceOf snapshot.now clock) }
    ensures none { IfNone result (In clock (clocks snapshot.now) → ⊥) }
{
    snapshot.well_formed();
    distance_at(distances, snapshot.place_of(clock)?)
}
