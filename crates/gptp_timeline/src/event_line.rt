//! The line of an event that is made.

ghost use Rattle.std.specs.Prelude.{◌≡◌, ◌++◌, ◌∷◌, [], OnOk, string_bytes};
ghost use Rattle.gptp_timeline.specs.EventLine.{at_port, at_system, event_line, inject_words, priority_words, set_words, words_of};

use gptp_scenario::Change;
use gptp_vector::ClockId;
use gptp_words::{ClockDigits, OctetDigits};
use std::alloc::AllocError;

/// Appends the kind of an event that names a port, and that port.
fn write_at_port(text: &mut String, kind: &str, clock: ClockId, port: u16) -> Result<(), AllocError>
    ensures { OnOk result (string_bytes text.new ≡ string_bytes text.old ++ at_port kind.now clock port) }
{
    write!(text, "{kind} {} {port}", ClockDigits(clock))
}

/// Appends the kind of an event that names a system, and that system.
fn write_at_system(text: &mut String, kind: &str, clock: ClockId) -> Result<(), AllocError>
    ensures { OnOk result (string_bytes text.new ≡ string_bytes text.old ++ at_system kind.now clock) }
{
    write!(text, "{kind} {}", ClockDigits(clock))
}

/// Appends the bounds that a link is set to.
fn write_bounds(
    text: &mut String,
    clock: ClockId,
    port: u16,
    min: u64,
    max: u64,
    loss: u16,
) -> Result<(), AllocError>
    ensures { OnOk result (string_bytes text.new ≡ string_bytes text.old ++ set_words clock port min max loss) }
{
    write_at_port(text, "link_set", clock, port)?;
    write!(text, " {min} {max} {loss}")
}

/// Appends the priority1 that a system is given.
fn write_priority(text: &mut String, clock: ClockId, value: u8) -> Result<(), AllocError>
    ensures { OnOk result (string_bytes text.new ≡ string_bytes text.old ++ priority_words clock value) }
{
    write_at_system(text, "priority1", clock)?;
    write!(text, " {value}")
}

/// Appends the octets that enter a link.
fn write_octets(
    text: &mut String,
    clock: ClockId,
    port: u16,
    octets: &[u8],
) -> Result<(), AllocError>
    ensures { OnOk result (string_bytes text.new ≡ string_bytes text.old ++ inject_words clock port octets.now) }
{
    write_at_port(text, "inject", clock, port)?;
    write!(text, " {}", OctetDigits(octets))
}

/// Appends the kind of a change and the values of its keys.
fn write_words(text: &mut String, change: &Change) -> Result<(), AllocError>
    ensures { OnOk result (string_bytes text.new ≡ string_bytes text.old ++ words_of change.now) }
{
    match change {
        Change::LinkDown { clock, port } => write_at_port(text, "link_down", *clock, *port),
        Change::LinkUp { clock, port } => write_at_port(text, "link_up", *clock, *port),
        Change::LinkSet {
            clock,
            port,
            min,
            max,
            loss,
        } => write_bounds(text, *clock, *port, *min, *max, *loss),
        Change::Fail { clock } => write_at_system(text, "fail", *clock),
        Change::Recover { clock } => write_at_system(text, "recover", *clock),
        Change::Priority1 { clock, value } => write_priority(text, *clock, *value),
        Change::Inject {
            clock,
            port,
            octets,
        } => write_octets(text, *clock, *port, octets.as_slice()),
    }
}

/// Appends the line of a change that is made at a time, in ns: its kind and the values of its keys, in the order of the
/// document's format. The only error is that memory ran out; what is appended then may be cut.
pub(crate) fn write_event(text: &mut String, at: u64, change: &Change) -> Result<(), AllocError>
    ensures { OnOk result (string_bytes text.new
        ≡ string_bytes text.old ++ (event_line at change.now ++ 10 ∷ [])) }
{
    write!(text, "event {at} ")?;
    write_words(text, change)?;
    text.push_str("\n")
}
