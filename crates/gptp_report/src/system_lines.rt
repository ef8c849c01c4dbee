//! The lines of one system.

ghost use Rattle.std.specs.Prelude.{◌≡◌, [], ◌∷◌, ◌++◌, length, map, OnOk, string_bytes};
ghost use Rattle.std.specs.List.{range_with_len};
ghost use Rattle.gptp_system.specs.Steps.{HasPortNumber};
ghost use Rattle.gptp_words.specs.Lines.{text_of};
ghost use Rattle.gptp_report.specs.SystemLines.{failed_line, is_grandmaster, live_line, live_lines, port_line};

use gptp_system::System;
use gptp_vector::{ClockId, Identity};
use gptp_words::{ClockDigits, IdentityDigits, OrNone, RoleWord, yes_or_no};
use std::alloc::AllocError;

/// Whether this root is a grandmaster's.
fn is_grandmaster(root: Identity) -> bool
    ensures { result ≡ is_grandmaster root }
{
    root.capable()
}

/// Appends the line of a live system.
fn write_live(text: &mut String, clock: ClockId, system: &System) -> Result<(), AllocError>
    ensures { OnOk result (string_bytes text.new
        ≡ string_bytes text.old ++ (live_line clock system.now ++ 10 ∷ [])) }
{
    let (root, steps, slave) = system.follows();
    writeln!(
        text,
        "system {} root {} steps {steps} gm {} slave {} offset {}",
        ClockDigits(clock),
        IdentityDigits(root),
        yes_or_no(is_grandmaster(root)),
        OrNone(slave),
        OrNone(system.offset())
    )
}

/// Appends the line of a port.
fn write_port(
    text: &mut String,
    clock: ClockId,
    system: &System,
    port: u8,
) -> Result<(), AllocError>
    requires { HasPortNumber system.now port }
    ensures { OnOk result (string_bytes text.new
        ≡ string_bytes text.old ++ (port_line clock system.now port ++ 10 ∷ [])) }
{
    writeln!(
        text,
        "port {} {port} {} capable {} delay {}",
        ClockDigits(clock),
        RoleWord(system.role(port)),
        yes_or_no(system.capable(port)),
        OrNone(system.delay(port))
    )
}

/// Appends the lines of all ports, by rising number.
fn write_ports(text: &mut String, clock: ClockId, system: &System) -> Result<(), AllocError>
    ensures { OnOk result (string_bytes text.new
        ≡ string_bytes text.old
        ++ text_of (map (port_line clock system.now) (range_with_len 1 (length system.now.ports)))) }
{
    for port in 1..=system.ports() {
        write_port(text, clock, system, port)?;
    }
    Ok(())
}

/// Appends the lines of a live system, named by its clock: what it follows, and then its ports by rising number. Its
/// offset and the delays are in units of 2^-16 ns. The only error is that memory ran out; what is appended then may be
/// cut.
pub fn write_system(text: &mut String, clock: ClockId, system: &System) -> Result<(), AllocError>
    ensures { OnOk result (string_bytes text.new ≡ string_bytes text.old ++ text_of (live_lines clock system.now)) }
{
    write_live(text, clock, system)?;
    write_ports(text, clock, system)
}

/// Appends the line of a system that has failed. The only error is that memory ran out; what is appended then may be
/// cut.
pub fn write_failed(text: &mut String, clock: ClockId) -> Result<(), AllocError>
    ensures { OnOk result (string_bytes text.new ≡ string_bytes text.old ++ text_of (failed_line clock ∷ [])) }
{
    writeln!(text, "system {} failed", ClockDigits(clock))
}
