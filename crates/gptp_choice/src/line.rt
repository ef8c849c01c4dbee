//! The line of a system.

ghost use Rattle.std.specs.Prelude.{◌≡◌, ◌<◌, ◌≤◌, ℕ, IfOk};
ghost use Rattle.gptp_certificate_text.specs.Certificate.{line_of};
ghost use Rattle.gptp_components.specs.Distances.{AreDistances, IsDistanceOf};
ghost use Rattle.gptp_graph.specs.Snapshot.{System};
ghost use Rattle.gptp_lists.specs.Members.{In};
ghost use Rattle.gptp_choice.specs.Lines.{IsChosenLine};

use crate::parent::parent_of;
use crate::role::roles_of;
use gptp_certificate_text::SystemLine;
use gptp_components::Distance;
use gptp_network::Snapshot;
use gptp_vector::ClockId;
use std::alloc::{AllocError, Global};

/// From how many links on a system is too far from its best to follow it.
const FAR: u16 = 255;

/// The line of a system that is far.
fn far_line(alloc: Global, snapshot: &Snapshot, clock: ClockId, own: &Distance) -> SystemLine
    requires own { IsDistanceOf snapshot.now clock own.now }
    requires far { 255 ≤ own.now.steps }
    ensures { (ports : ℕ) → IsChosenLine snapshot.now clock ports (line_of result) }
{
    let _ = snapshot;
    SystemLine {
        clock,
        root: own.root,
        steps: own.steps,
        far: true,
        parent: None,
        ports: Vec::new(alloc),
    }
}

/// The line of a system that is near.
fn near_line(
    alloc: Global,
    snapshot: &Snapshot,
    distances: &[Distance],
    clock: ClockId,
    count: u8,
    own: &Distance,
) -> Result<SystemLine, AllocError>
    requires distances { AreDistances snapshot.now distances.now }
    requires ports { (s : System) → In s snapshot.now.systems → s.clock ≡ clock → s.ports ≡ count }
    requires own { IsDistanceOf snapshot.now clock own.now }
    requires near { own.now.steps < 255 }
    ensures { IfOk result (λ line. IsChosenLine snapshot.now clock count (line_of line)) }
{
    let parent = parent_of(snapshot, distances, clock, count, own.steps);
    let ports = roles_of(alloc, snapshot, distances, clock, count, own.steps, &parent)?;
    Ok(SystemLine {
        clock,
        root: own.root,
        steps: own.steps,
        far: false,
        parent,
        ports,
    })
}

/// The line of a system with so many ports.
pub(crate) fn line_of(
    alloc: Global,
    snapshot: &Snapshot,
    distances: &[Distance],
    clock: ClockId,
    ports: u8,
    own: &Distance,
) -> Result<SystemLine, AllocError>
    requires distances { AreDistances snapshot.now distances.now }
    requires ports { (s : System) → In s snapshot.now.systems → s.clock ≡ clock → s.ports ≡ ports }
    requires own { IsDistanceOf snapshot.now clock own.now }
    ensures { IfOk result (λ line. IsChosenLine snapshot.now clock ports (line_of line)) }
{
    if own.steps >= FAR {
        return Ok(far_line(alloc, snapshot, clock, own));
    }
    near_line(alloc, snapshot, distances, clock, ports, own)
}
