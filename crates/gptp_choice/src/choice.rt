//! The settled choice of a snapshot.

ghost use Rattle.std.specs.Prelude.{◌<◌, IfOk, OnOk, length, suc};
ghost use Rattle.gptp_certificate_text.specs.Certificate.{lines_of};
ghost use Rattle.gptp_components.specs.Distances.{AreDistances};
ghost use Rattle.gptp_choice.specs.Choice.{Found};
ghost use Rattle.gptp_choice.specs.Lines.{AreFirstLines};

use crate::line::line_of;
use gptp_certificate_text::{Certificate, SystemLine};
use gptp_components::{Distance, distances};
use gptp_network::Snapshot;
use std::alloc::{AllocError, Global};

/// Puts the line of the system at a place after those of the places before.
fn push_line(
    alloc: Global,
    lines: &mut Vec<SystemLine>,
    snapshot: &Snapshot,
    distances: &[Distance],
    place: usize,
) -> Result<(), AllocError>
    requires distances { AreDistances snapshot.now distances.now }
    requires place { place < length snapshot.now.systems }
    requires before { AreFirstLines snapshot.now place (lines_of lines.old.items) }
    ensures { OnOk result (AreFirstLines snapshot.now (suc place) (lines_of lines.new.items)) }
{
    snapshot.well_formed();
    let Some(system) = snapshot.system_at(place) else {
        return Ok(());
    };
    let (identity, ports) = system;
    let own = distances[place];
    let line = line_of(alloc, snapshot, distances, identity.clock(), ports, &own)?;
    lines.push(line)?;
    Ok(())
}

/// The lines of all live systems, by rising clock.
fn settled_lines(alloc: Global, snapshot: &Snapshot) -> Result<Vec<SystemLine>, AllocError>
    ensures { IfOk result (λ lines. AreFirstLines snapshot.now (length snapshot.now.systems) (lines_of lines.items)) }
{
    let distances = distances(alloc, snapshot)?;
    let mut lines = Vec::new(alloc);
    for place in 0..snapshot.systems() {
        push_line(alloc, &mut lines, snapshot, &distances, place)?;
    }
    Ok(lines)
}

/// The choice that the network of a snapshot settles at, as a certificate of version 2: which root each live system
/// follows, over how many steps and which port, and the role of each port; or that a system is too far from the best of
/// its component, by how many links, and which that is.
///
/// It takes a time about linear in systems and links. The only error is that memory ran out.
pub fn settled_choice(alloc: Global, snapshot: &Snapshot) -> Result<Certificate, AllocError>
    ensures { IfOk result (λ c. Found snapshot.now c) }
{
    snapshot.well_formed();
    let lines = settled_lines(alloc, snapshot)?;
    Ok(Certificate::of_lines(2, lines))
}
