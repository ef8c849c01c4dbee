//! What is told of one system.

ghost use Rattle.std.specs.Prelude.{◌≡◌, List, ℕ, IfNone, IfOk, IfSome, OnOk, string_bytes};
ghost use Rattle.gptp_certificate_text.specs.Certificate.{line_of};
ghost use Rattle.gptp_checker.specs.Places.{IsLineAt};
ghost use Rattle.gptp_graph.specs.SettledChoice.{IsSettledChoice};
ghost use Rattle.gptp_lists.specs.Members.{In};
ghost use Rattle.gptp_network.specs.Snapshot.{IsSnapshot, system_of};
ghost use Rattle.gptp_words.specs.Lines.{text_of};
ghost use Rattle.gptp_explain.specs.Explained.{Explains, ExplainsSystem, IsAbsent, ShowsWay};
ghost use Rattle.gptp_explain.specs.Writing.{AppendsLines};

use crate::path::write_path;
use crate::ports::write_ports;
use crate::ranks::write_ranks;
use crate::system_line::write_system;
use gptp_certificate_text::{Certificate, SystemLine};
use gptp_checker::line_of;
use gptp_choice::settled_choice;
use gptp_network::{Document, Snapshot};
use gptp_vector::{ClockId, Identity};
use std::alloc::{AllocError, Global};

/// Appends the path to a system, and its ports, unless it is far.
fn write_way(
    alloc: Global,
    text: &mut String,
    document: &Document,
    at: u64,
    snapshot: &Snapshot,
    choice: &Certificate,
    own: Identity,
    ports: u8,
    line: &SystemLine,
) -> Result<(), AllocError>
    requires stands { IsSnapshot document.now at snapshot.now }
    requires choice { IsSettledChoice snapshot.now choice.now.lines }
    requires live { In (system_of (own, ports)) snapshot.now.systems }
    requires stated { IsLineAt choice.now.lines (system_of (own, ports)).clock (line_of line.now) }
    ensures { OnOk result (AppendsLines (ShowsWay document.now at snapshot.now (system_of (own, ports)) line.now.steps)
        (string_bytes text.old) (string_bytes text.new)) }
{
    if line.far {
        return Ok(());
    }
    write_path(alloc, text, snapshot, choice, line.clock, line.steps)?;
    write_ports(text, document, at, snapshot, choice, line)
}

/// The text of a live system with this identity and so many ports.
fn write_all(
    alloc: Global,
    document: &Document,
    at: u64,
    snapshot: &Snapshot,
    choice: &Certificate,
    own: Identity,
    ports: u8,
    line: &SystemLine,
) -> Result<String, AllocError>
    requires stands { IsSnapshot document.now at snapshot.now }
    requires choice { IsSettledChoice snapshot.now choice.now.lines }
    requires live { In (system_of (own, ports)) snapshot.now.systems }
    requires stated { IsLineAt choice.now.lines (system_of (own, ports)).clock (line_of line.now) }
    ensures { IfOk result (λ text. (lines : List (List ℕ))
        × ExplainsSystem document.now at snapshot.now (system_of (own, ports)) lines × (string_bytes text ≡ text_of lines)) }
{
    let mut text = String::new(alloc);
    write_system(&mut text, own, line)?;
    write_way(
        alloc, &mut text, document, at, snapshot, choice, own, ports, line,
    )?;
    write_ranks(alloc, &mut text, snapshot, choice, own, line.root)?;
    Ok(text)
}

/// What the network of a document settles at for the live system with a clock, as the network stands at a time, in ns,
/// after all events with time up to it: which root it follows and why, over which systems, the role of each port and
/// why, and the systems of its component in their order. `None` where no live system has that clock then.
///
/// The only error is that memory ran out.
pub fn explain(
    alloc: Global,
    document: &Document,
    at: u64,
    clock: ClockId,
) -> Result<Option<String>, AllocError>
    ensures some { IfOk result (λ o. IfSome o (λ text. (lines : List (List ℕ)) × Explains document.now at clock lines
        × (string_bytes text ≡ text_of lines))) }
    ensures none { IfOk result (λ o. IfNone o (IsAbsent document.now at clock)) }
{
    let snapshot = document.snapshot(alloc, at)?;
    snapshot.well_formed();
    let Some(place) = snapshot.place_of(clock) else {
        return Ok(None);
    };
    let Some((own, ports)) = snapshot.system_at(place) else {
        return Ok(None);
    };
    let choice = settled_choice(alloc, &snapshot)?;
    let Some(line) = line_of(&snapshot, &choice, clock) else {
        return Ok(None);
    };
    Ok(Some(write_all(alloc, document, at, &snapshot, &choice, own, ports, line)?))
}
