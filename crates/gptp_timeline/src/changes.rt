//! The lines of what an act leaves another at a system.

ghost use Rattle.std.specs.Prelude.{◌≡◌, ◌<◌, ◌≤◌, ◌+◌, slice_get, ◌++◌, ◌∷◌, [], OnOk, Some, length, string_bytes};
ghost use Rattle.gptp_setup.specs.declared.limits.TheConstants.{MOST_PORTS};
ghost use Rattle.gptp_words.specs.Lines.{text_of};
ghost use Rattle.gptp_timeline.specs.Changes.{change_lines, changed_lines, changed_failed_line, is_same, known_text, new_lines, changed_port_line, port_lines, port_lines_if, same_line, changed_system_line, system_lines_if};

use crate::ports::{ShownPort, same_bool, same_port};
use crate::shown::{Shown, is_known, same_choice};
use gptp_vector::ClockId;
use gptp_words::{ClockDigits, IdentityDigits, OrNone, RoleWord, yes_or_no};
use std::alloc::AllocError;

/// The word for whether an offset is known.
fn known_word(known: bool) -> &'static str
    ensures { result.now ≡ known_text known }
{
    if known { "known" } else { "none" }
}

/// Appends the line of a live system.
fn write_system(text: &mut String, at: u64, clock: ClockId, shown: &Shown) -> Result<(), AllocError>
    ensures { OnOk result (string_bytes text.new
        ≡ string_bytes text.old ++ (changed_system_line at clock shown.now ++ 10 ∷ [])) }
{
    writeln!(
        text,
        "at {at} system {} root {} steps {} gm {} slave {} offset {}",
        ClockDigits(clock),
        IdentityDigits(shown.root),
        shown.steps,
        yes_or_no(shown.root.capable()),
        OrNone(shown.slave),
        known_word(shown.known)
    )
}

/// Appends the line of a port.
fn write_port(
    text: &mut String,
    at: u64,
    clock: ClockId,
    port: u8,
    shown: ShownPort,
) -> Result<(), AllocError>
    ensures { OnOk result (string_bytes text.new
        ≡ string_bytes text.old ++ (changed_port_line at clock port shown ++ 10 ∷ [])) }
{
    writeln!(
        text,
        "at {at} port {} {port} {} capable {}",
        ClockDigits(clock),
        RoleWord(shown.role),
        yes_or_no(shown.capable)
    )
}

/// Appends the line of a system that failed.
fn write_failed(text: &mut String, at: u64, clock: ClockId) -> Result<(), AllocError>
    ensures { OnOk result (string_bytes text.new ≡ string_bytes text.old ++ text_of (changed_failed_line at clock ∷ [])) }
{
    writeln!(text, "at {at} system {} failed", ClockDigits(clock))
}

/// Whether a port was there, and is the same.
fn is_same(before: Option<ShownPort>, shown: ShownPort) -> bool
    ensures { result ≡ is_same before shown }
{
    match before {
        Some(before) => same_port(before, shown),
        None => false,
    }
}

/// Appends the line of a port where it is another than before, or wasn't there.
fn write_port_if_changed(
    text: &mut String,
    at: u64,
    clock: ClockId,
    port: u8,
    before: Option<ShownPort>,
    shown: ShownPort,
) -> Result<(), AllocError>
    ensures { OnOk result (string_bytes text.new
        ≡ string_bytes text.old ++ text_of (port_lines_if at clock port before shown)) }
{
    match is_same(before, shown) {
        true => Ok(()),
        false => write_port(text, at, clock, port, shown),
    }
}

/// The port at a place.
fn port_at(ports: &[ShownPort], place: usize) -> ShownPort
    requires { place < length ports.now }
    ensures { slice_get ports.now place ≡ Some result }
{
    ports[place]
}

/// The port at a place before, if there was one.
fn port_before(before: &[ShownPort], place: usize) -> Option<ShownPort>
    ensures { result ≡ slice_get before.now place }
{
    before.get(place).copied()
}

/// The number of the port at a place.
fn number_at(place: usize) -> u8
    requires { place < MOST_PORTS }
    ensures { result ≡ place + 1 }
{
    place as u8 + 1
}

/// Appends the lines of the ports that are another than before, or weren't there.
fn write_ports(
    text: &mut String,
    at: u64,
    clock: ClockId,
    before: &[ShownPort],
    ports: &[ShownPort],
) -> Result<(), AllocError>
    requires { length ports.now ≤ MOST_PORTS }
    ensures { OnOk result (string_bytes text.new
        ≡ string_bytes text.old ++ text_of (port_lines at clock 1 before.now ports.now)) }
{
    for place in 0..ports.len() {
        let old = port_before(before, place);
        let shown = port_at(ports, place);
        write_port_if_changed(text, at, clock, number_at(place), old, shown)?;
    }
    Ok(())
}

/// Appends the lines of a live system that wasn't live before.
fn write_new(text: &mut String, at: u64, clock: ClockId, shown: &Shown) -> Result<(), AllocError>
    ensures { OnOk result (string_bytes text.new
        ≡ string_bytes text.old ++ text_of (new_lines at clock shown.now)) }
{
    write_system(text, at, clock, shown)?;
    write_ports(text, at, clock, &[], shown.ports.as_slice())
}

/// Appends the line of a system that isn't as before, where it says another.
fn write_system_if(
    text: &mut String,
    at: u64,
    clock: ClockId,
    same: bool,
    shown: &Shown,
) -> Result<(), AllocError>
    ensures { OnOk result (string_bytes text.new
        ≡ string_bytes text.old ++ text_of (system_lines_if same at clock shown.now)) }
{
    match same {
        true => Ok(()),
        false => write_system(text, at, clock, shown),
    }
}

/// Appends the lines of a live system that lived before.
fn write_changed(
    text: &mut String,
    at: u64,
    clock: ClockId,
    same: bool,
    old: &Shown,
    shown: &Shown,
) -> Result<(), AllocError>
    ensures { OnOk result (string_bytes text.new
        ≡ string_bytes text.old ++ text_of (changed_lines same at clock old.now shown.now)) }
{
    write_system_if(text, at, clock, same, shown)?;
    write_ports(
        text,
        at,
        clock,
        old.ports.as_slice(),
        shown.ports.as_slice(),
    )
}

/// Whether a system is as before as to what its line says.
fn same_line(before: &Option<Shown>, after: &Option<Shown>) -> bool
    ensures { result ≡ same_line before.now after.now }
{
    same_choice(before, after) && same_bool(is_known(before), is_known(after))
}

/// Appends the lines of a system that an act left as `after`, and found as `before`: its own where that says another
/// than before, then each port that is another; all of them where it had failed. The only error is that memory ran out;
/// what is appended then may be cut.
pub(crate) fn write_changes(
    text: &mut String,
    at: u64,
    clock: ClockId,
    before: &Option<Shown>,
    after: &Option<Shown>,
) -> Result<(), AllocError>
    ensures { OnOk result (string_bytes text.new
        ≡ string_bytes text.old ++ text_of (change_lines at clock before.now after.now)) }
{
    let same = same_line(before, after);
    match (before, after) {
        (None, None) => Ok(()),
        (Some(_), None) => write_failed(text, at, clock),
        (None, Some(shown)) => write_new(text, at, clock, shown),
        (Some(old), Some(shown)) => write_changed(text, at, clock, same, old, shown),
    }
}
