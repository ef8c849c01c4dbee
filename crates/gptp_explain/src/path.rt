//! The line of the path from the root.

ghost use Rattle.std.specs.Prelude.{◌≡◌, ◌<◌, ◌∷◌, ◌++◌, [], List, ℕ, IfNone, IfOk, IfSome, OnOk, codes, string_bytes};
ghost use Rattle.std.specs.List.{flat_map};
ghost use Rattle.gptp_graph.specs.Distance.{IsDistance};
ghost use Rattle.gptp_graph.specs.Parent.{IsParent, ParentLink};
ghost use Rattle.gptp_graph.specs.SettledChoice.{IsSettledChoice};
ghost use Rattle.gptp_words.specs.Digits.{clock_text};
ghost use Rattle.gptp_explain.specs.Explained.{LeadsUp, path_line};

use gptp_certificate_text::Certificate;
use gptp_checker::line_of;
use gptp_network::Snapshot;
use gptp_vector::ClockId;
use gptp_words::ClockDigits;
use std::alloc::{AllocError, Global};

/// The clock of the parent of a system that isn't far, if it has one.
fn parent_of(
    snapshot: &Snapshot,
    choice: &Certificate,
    clock: ClockId,
    steps: u16,
) -> Option<ClockId>
    requires settled { IsSettledChoice snapshot.now choice.now.lines }
    requires distance { IsDistance snapshot.now clock steps }
    requires near { steps < 255 }
    ensures some { IfSome result (λ up. (l : ParentLink) × IsParent snapshot.now clock l × (l.clock ≡ up)) }
    ensures none { IfNone result ((l : ParentLink) → IsParent snapshot.now clock l → ⊥) }
{
    snapshot.well_formed();
    let (_, there) = line_of(snapshot, choice, clock)?.parent?;
    Some(there.clock)
}

/// A system that isn't far, and those that it follows, up to its root, which is so many links away.
fn way_up(
    alloc: Global,
    snapshot: &Snapshot,
    choice: &Certificate,
    clock: ClockId,
    steps: u16,
) -> Result<Vec<ClockId>, AllocError>
    requires settled { IsSettledChoice snapshot.now choice.now.lines }
    requires distance { IsDistance snapshot.now clock steps }
    requires near { steps < 255 }
    ensures { IfOk result (λ way. (above : List ℕ) × LeadsUp snapshot.now clock above × (way.items ≡ clock ∷ above)) }
{
    snapshot.well_formed();
    let mut way = Vec::new(alloc);
    way.push(clock)?;
    let mut last = clock;
    for step in 0..steps {
        let Some(parent) = parent_of(snapshot, choice, last, steps - step) else {
            return Ok(way);
        };
        way.push(parent)?;
        last = parent;
    }
    Ok(way)
}

/// Appends clocks, each after a space.
fn write_clocks(text: &mut String, clocks: &[ClockId]) -> Result<(), AllocError>
    ensures { OnOk result (string_bytes text.new
        ≡ string_bytes text.old ++ flat_map (λ clock. codes " " ++ clock_text clock) clocks.now) }
{
    for clock in clocks {
        write!(text, " {}", ClockDigits(*clock))?;
    }
    Ok(())
}

/// Appends the clocks from the root to a system that isn't far, so many links from it.
pub(crate) fn write_path(
    alloc: Global,
    text: &mut String,
    snapshot: &Snapshot,
    choice: &Certificate,
    clock: ClockId,
    steps: u16,
) -> Result<(), AllocError>
    requires settled { IsSettledChoice snapshot.now choice.now.lines }
    requires distance { IsDistance snapshot.now clock steps }
    requires near { steps < 255 }
    ensures { OnOk result ((above : List ℕ) × LeadsUp snapshot.now clock above
        × (string_bytes text.new ≡ string_bytes text.old ++ (path_line clock above ++ 10 ∷ []))) }
{
    let mut way = way_up(alloc, snapshot, choice, clock, steps)?;
    way.reverse();
    text.push_str("path")?;
    write_clocks(text, &way)?;
    text.push_str("\n")?;
    Ok(())
}
