//! The order of lines.

ghost use Rattle.std.specs.Prelude.{◌≡◌, ◌↔◌, ◌<◌, ◌⊎◌, ◌++◌, ◌∷◌, [], ℕ, Bool, true, false, None, Option, IfErr, IsTrue, OnOk, option_map};
ghost use Rattle.gptp_graph.specs.Labelling.{PortLine};
ghost use Rattle.gptp_graph.specs.Parent.{ParentLink};
ghost use Rattle.gptp_certificate_text.specs.Certificate.{line_of, lines_of, parent_of, port_line_of};
ghost use Rattle.gptp_certificate_text.specs.Entries as entries;
ghost use Rattle.gptp_certificate_text.specs.Entries.{CanFollow, StandInOrder, entry_clock, ends_far, entries_of, entries_of_line, is_far, entry_number};
ghost use Rattle.gptp_certificate_text.specs.Lines.{Appends, entry_of, last_entry, ReadsLine, RefusesLine, RefusesOrder};

use crate::certificate::SystemLine;
use crate::entry::{Entry, read_entry};
use crate::fault::CertificateFault;
use gptp_roles::Role;
use gptp_vector::{ClockId, Identity, PortId};
use std::alloc::Global;

/// The number of a system's last port, or 0 where it has none.
fn last_number(line: &SystemLine) -> u16
    ensures { result ≡ entry_number (last_entry (line_of line.now)) }
{
    match line.ports.as_slice().split_last() {
        None => 0,
        Some((last, _)) => last.0,
    }
}

/// Whether the line of a port can follow the last line of a system that isn't far.
fn can_follow(line: &SystemLine, clock: ClockId, number: u16) -> bool
    ensures { IsTrue result ↔
        ((entry_clock (last_entry (line_of line.now)) ≡ clock) × (entry_number (last_entry (line_of line.now)) < number)) }
{
    if line.clock != clock {
        return false;
    }
    last_number(line) < number
}

/// Appends a port to a system's line. The error is Order where its line can't follow, or OutOfMemory.
fn add_port(
    line: &mut SystemLine,
    clock: ClockId,
    number: u16,
    role: Role,
) -> Result<(), CertificateFault>
    requires near { is_far (last_entry (line_of line.old)) ≡ false }
    ensures appended { OnOk result (entries_of_line (line_of line.new)
        ≡ entries_of_line (line_of line.old) ++ entries.PortEntry clock (port_line_of (number, role)) ∷ []) }
    ensures follows { OnOk result
        (CanFollow (last_entry (line_of line.old)) (entries.PortEntry clock (port_line_of (number, role)))) }
    ensures refused { IfErr result (λ fault. (fault ≡ CertificateFault.OutOfMemory)
        ⊎ ((fault ≡ CertificateFault.Order)
        × (CanFollow (last_entry (line_of line.old)) (entries.PortEntry clock (port_line_of (number, role))) → ⊥))) }
{
    if !can_follow(line, clock, number) {
        return Err(CertificateFault::Order);
    }
    line.ports.push((number, role))?;
    Ok(())
}

/// Appends the line of a port.
fn append_port(
    lines: &mut [SystemLine],
    clock: ClockId,
    number: u16,
    role: Role,
) -> Result<(), CertificateFault>
    requires stand { StandInOrder (entries_of (lines_of lines.old)) }
    requires near { ends_far (entries_of (lines_of lines.old)) ≡ false }
    ensures appended { OnOk result
        (Appends (entries_of (lines_of lines.old)) (entries.PortEntry clock (port_line_of (number, role)))
        (entries_of (lines_of lines.new))) }
    ensures refused { IfErr result
        (RefusesOrder (entries_of (lines_of lines.old)) (entries.PortEntry clock (port_line_of (number, role)))) }
{
    match lines.last_mut() {
        None => Err(CertificateFault::Order),
        Some(last) => add_port(last, clock, number, role),
    }
}

/// Whether the line of a system with this clock can follow.
fn rises(lines: &[SystemLine], clock: ClockId) -> bool
    requires { StandInOrder (entries_of (lines_of lines.now)) }
    ensures yes { IsTrue result → (root steps : ℕ) (far : Bool) (parent : Option ParentLink)
        → StandInOrder (entries_of (lines_of lines.now) ++ entries.SystemEntry clock root steps far parent ∷ []) }
    ensures only { (root steps : ℕ) (far : Bool) (parent : Option ParentLink)
        → StandInOrder (entries_of (lines_of lines.now) ++ entries.SystemEntry clock root steps far parent ∷ [])
        → IsTrue result }
{
    match lines.split_last() {
        None => true,
        Some((last, _)) => last.clock < clock,
    }
}

/// Appends the line of a system.
fn append_system(
    alloc: Global,
    lines: &mut Vec<SystemLine>,
    clock: ClockId,
    root: Identity,
    steps: u16,
    far: bool,
    parent: Option<(u16, PortId)>,
) -> Result<(), CertificateFault>
    requires { StandInOrder (entries_of (lines_of lines.old.items)) }
    ensures appended { OnOk result (Appends (entries_of (lines_of lines.old.items))
        (entries.SystemEntry clock root steps far (option_map parent_of parent)) (entries_of (lines_of lines.new.items))) }
    ensures refused { IfErr result (RefusesOrder (entries_of (lines_of lines.old.items))
        (entries.SystemEntry clock root steps far (option_map parent_of parent))) }
{
    if !rises(lines.as_slice(), clock) {
        return Err(CertificateFault::Order);
    }
    lines.push(SystemLine {
        clock,
        root,
        steps,
        far,
        parent,
        ports: Vec::new(alloc),
    })?;
    Ok(())
}

/// Whether the last line is a far system's.
fn ends_far(lines: &[SystemLine]) -> bool
    ensures { result ≡ ends_far (entries_of (lines_of lines.now)) }
{
    match lines.split_last() {
        None => false,
        Some((last, _)) => last.far && last.ports.as_slice().is_empty(),
    }
}

/// Appends a line, which is no port's after a far system's. The error is Order where it can't follow those before, or
/// OutOfMemory.
fn append(alloc: Global, lines: &mut Vec<SystemLine>, entry: Entry) -> Result<(), CertificateFault>
    requires stand { StandInOrder (entries_of (lines_of lines.old.items)) }
    requires near { (clock : ℕ) (port : PortLine) → entry_of entry ≡ entries.PortEntry clock port
        → ends_far (entries_of (lines_of lines.old.items)) ≡ false }
    ensures appended { OnOk result
        (Appends (entries_of (lines_of lines.old.items)) (entry_of entry) (entries_of (lines_of lines.new.items))) }
    ensures refused { IfErr result (RefusesOrder (entries_of (lines_of lines.old.items)) (entry_of entry)) }
{
    match entry {
        Entry::System {
            clock,
            root,
            steps,
            parent,
        } => append_system(alloc, lines, clock, root, steps, false, parent),
        Entry::Far { clock, root, steps } => {
            append_system(alloc, lines, clock, root, steps, true, None)
        }
        Entry::Port {
            clock,
            number,
            role,
        } => append_port(lines.as_mut_slice(), clock, number, role),
    }
}

/// Reads a line of a text of this version and appends it. The error is the fault of the line, or OutOfMemory.
pub(crate) fn append_line(
    alloc: Global,
    lines: &mut Vec<SystemLine>,
    version: u8,
    line: &[u8],
) -> Result<(), CertificateFault>
    requires { StandInOrder (entries_of (lines_of lines.old.items)) }
    ensures read { OnOk result
        (ReadsLine version (entries_of (lines_of lines.old.items)) line.now (entries_of (lines_of lines.new.items))) }
    ensures refused { IfErr result (RefusesLine version (entries_of (lines_of lines.old.items)) line.now) }
{
    match read_entry(line, version, ends_far(lines.as_slice())) {
        Err(fault) => Err(fault),
        Ok(entry) => append(alloc, lines, entry),
    }
}
