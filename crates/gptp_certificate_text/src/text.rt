//! The text of a certificate.

ghost use Rattle.std.specs.Prelude.{◌≡◌, ◌<◌, ◌+◌, List, ℕ, [], ◌∷◌, ◌++◌, length, map, IfOk, OnOk, OnErr, Some, slice_get, string_bytes};
ghost use Rattle.gptp_words.specs.Lines.{text_of};
ghost use Rattle.gptp_certificate_text.specs.Certificate.{line_of, lines_of, parent_of, port_line_of};
ghost use Rattle.gptp_certificate_text.specs.CertificateText.{PrintsLine, certificate_lines, certificate_text, entry_text, parent_words};
ghost use Rattle.gptp_certificate_text.specs.Entries.{PortEntry, entries_of, entries_of_line, system_entry};

use crate::certificate::{Certificate, SystemLine};
use gptp_roles::Role;
use gptp_vector::{ClockId, PortId};
use gptp_words::{ClockDigits, IdentityDigits, RoleWord};
use std::alloc::AllocError;
use std::fmt;

/// A system's parent, shown in three words or as `none`.
#[derive(Clone, Copy)]
struct ParentDigits(Option<(u16, PortId)>);

impl fmt::Display for ParentDigits {
    ghost use Rattle.std.specs.Prelude.{Some};
    ghost use Rattle.std.specs.Option.{option_map};
    ghost use Rattle.gptp_certificate_text.specs.Certificate.{parent_of};
    ghost use Rattle.gptp_certificate_text.specs.CertificateText.{parent_words};
    ghost use Rattle.gptp_certificate_text.specs.Forms.{parent_text};

    ghost output = { λ parent. Some (parent_text (option_map parent_words (option_map parent_of parent.0))) };

    fn fmt<W: fmt::Write>(&self, f: &mut fmt::Formatter<W>) -> fmt::Result {
        match self.0 {
            None => f.write_str("none"),
            Some((own_port, there)) => {
                write!(f, "{own_port} {} {}", ClockDigits(there.clock), there.port)
            }
        }
    }
}

/// Appends the line of a system without its ports, or of a far system.
fn write_head(text: &mut String, line: &SystemLine) -> Result<(), AllocError>
    ensures { OnOk result (string_bytes text.new
        ≡ string_bytes text.old ++ (entry_text (system_entry (line_of line.now)) ++ 10 ∷ [])) }
{
    if line.far {
        return writeln!(
            text,
            "system {} far {} root {}",
            ClockDigits(line.clock),
            line.steps,
            IdentityDigits(line.root)
        );
    }
    writeln!(
        text,
        "system {} root {} steps {} parent {}",
        ClockDigits(line.clock),
        IdentityDigits(line.root),
        line.steps,
        ParentDigits(line.parent)
    )
}

/// Appends the line of a port.
fn write_port(text: &mut String, clock: ClockId, port: (u16, Role)) -> Result<(), AllocError>
    ensures { OnOk result (string_bytes text.new
        ≡ string_bytes text.old ++ (entry_text (PortEntry clock (port_line_of port)) ++ 10 ∷ [])) }
{
    let (number, role) = port;
    writeln!(
        text,
        "port {} {number} {}",
        ClockDigits(clock),
        RoleWord(role)
    )
}

/// Appends the lines of the ports of a system.
fn write_ports(text: &mut String, clock: ClockId, ports: &[(u16, Role)]) -> Result<(), AllocError>
    ensures { OnOk result (string_bytes text.new
        ≡ string_bytes text.old ++ text_of (map (λ port. entry_text (PortEntry clock (port_line_of port))) ports.now)) }
{
    for port in ports {
        write_port(text, clock, *port)?;
    }
    Ok(())
}

/// Appends the line of a system, and then those of its ports.
fn write_system(text: &mut String, line: &SystemLine) -> Result<(), AllocError>
    ensures { OnOk result (string_bytes text.new
        ≡ string_bytes text.old ++ text_of (map entry_text (entries_of_line (line_of line.now)))) }
{
    write_head(text, line)?;
    write_ports(text, line.clock, line.ports.as_slice())
}

/// Appends the lines of all systems.
fn write_systems(text: &mut String, lines: &[SystemLine]) -> Result<(), AllocError>
    ensures { OnOk result (string_bytes text.new
        ≡ string_bytes text.old ++ text_of (map entry_text (entries_of (lines_of lines.now)))) }
{
    for line in lines {
        write_system(text, line)?;
    }
    Ok(())
}

/// Appends the text of a certificate of this version with these lines, whether or not they can be those of one. The
/// only error is that memory ran out; what stands appended then isn't said.
pub fn print_lines(text: &mut String, version: u8, lines: &[SystemLine]) -> Result<(), AllocError>
    ensures { OnOk result (string_bytes text.new
        ≡ string_bytes text.old ++ certificate_text version (lines_of lines.now)) }
{
    writeln!(text, "gptp-certificate {version}")?;
    write_systems(text, lines)?;
    writeln!(text, "end")
}

/// Appends the text of a certificate. The only error is that memory ran out; nothing is appended then.
pub fn print(certificate: &Certificate, text: &mut Vec<u8>) -> Result<(), AllocError>
    ensures written { OnOk result
        (text.new.items ≡ text.old.items ++ certificate_text certificate.now.version certificate.now.lines) }
    ensures refused { OnErr result (text.new.items ≡ text.old.items) }
{
    let mut lines = String::new(*text.allocator());
    print_lines(
        &mut lines,
        certificate.version,
        certificate.lines.as_slice(),
    )?;
    text.extend_from_slice(lines.as_bytes())
}

/// Appends one of the lines of a system: its own is at place 0, and after it stand those of its ports.
fn write_entry(text: &mut String, line: &SystemLine, place: usize) -> Result<(), AllocError>
    requires { place < 1 + length line.now.ports.items }
    ensures { OnOk result ((entry : List ℕ)
        × (slice_get (map entry_text (entries_of_line (line_of line.now))) place ≡ Some entry)
        × (string_bytes text.new ≡ string_bytes text.old ++ (entry ++ 10 ∷ []))) }
{
    if place == 0 {
        return write_head(text, line);
    }
    write_port(text, line.clock, line.ports[place - 1])
}

/// Appends the line at a place of a certificate of this version with these lines, and answers whether there is one.
fn write_line(
    text: &mut String,
    version: u8,
    lines: &[SystemLine],
    place: usize,
) -> Result<bool, AllocError>
    ensures { IfOk result (λ more. PrintsLine (slice_get (certificate_lines version (lines_of lines.now)) place) more
        (string_bytes text.old) (string_bytes text.new)) }
{
    if place == 0 {
        writeln!(text, "gptp-certificate {version}")?;
        return Ok(true);
    }
    let mut left = place - 1;
    for line in lines {
        let count = 1 + line.ports.len();
        if left < count {
            write_entry(text, line, left)?;
            return Ok(true);
        }
        left -= count;
    }
    if left > 0 {
        return Ok(false);
    }
    text.push_str("end\n")?;
    Ok(true)
}

/// Appends the line at a place of the text of a certificate, counted from 0, with its line feed, and answers true; past
/// the last line it appends nothing and answers false. The only error is that memory ran out; nothing is appended then.
pub fn print_line(
    certificate: &Certificate,
    place: usize,
    text: &mut Vec<u8>,
) -> Result<bool, AllocError>
    ensures line { IfOk result (λ more.
        PrintsLine (slice_get (certificate_lines certificate.now.version certificate.now.lines) place) more
        text.old.items text.new.items) }
    ensures refused { OnErr result (text.new.items ≡ text.old.items) }
{
    let mut line = String::new(*text.allocator());
    let more = write_line(
        &mut line,
        certificate.version,
        certificate.lines.as_slice(),
        place,
    )?;
    text.extend_from_slice(line.as_bytes())?;
    Ok(more)
}
