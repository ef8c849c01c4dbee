//! Reading a certificate from its text.

ghost use Rattle.std.specs.Prelude.{◌≡◌, ◌⊎◌, List, ℕ, ◌≢◌, ◌<◌, ◌++◌, ◌∷◌, IfOk, IfErr, IfSome, IfNone};
ghost use Rattle.gptp_certificate_text.specs.Certificate.{lines_of, IsVersion};
ghost use Rattle.gptp_certificate_text.specs.CertificateText.{certificate_text, end_text, head_text};
ghost use Rattle.gptp_certificate_text.specs.Entries.{IsReadable, StandInOrder, entries_of};
ghost use Rattle.gptp_certificate_text.specs.Lines.{ReadsLine};
ghost use Rattle.gptp_certificate_text.specs.Words.{Lacks};
ghost use Rattle.gptp_certificate_text.specs.Parsing.{FailsToParse, FailsFrom, IsFailingPart, LacksHead, RestFails};

use crate::certificate::{Certificate, SystemLine};
use crate::fault::CertificateFault;
use crate::order::append_line;
use crate::words::{after, cut};
use std::alloc::Global;

/// The line before the first line feed, and what stands after it.
fn first_line(text: &[u8]) -> Result<(&[u8], &[u8]), CertificateFault>
    ensures found { IfOk result (λ parts. text.now ≡ parts.0.now ++ 10 ∷ parts.1.now) }
    ensures first { IfOk result (λ parts. Lacks 10 parts.0.now) }
    ensures absent { IfErr result (λ fault. (fault ≡ CertificateFault.Line) × Lacks 10 text.now) }
{
    match cut(b'\n', text) {
        None => Err(CertificateFault::Line),
        Some(parts) => Ok(parts),
    }
}

/// Reads the first line of a text: the version, and what stands after it.
fn read_head(text: &[u8]) -> Option<(u8, &[u8])>
    ensures version { IfSome result (λ parts. IsVersion parts.0) }
    ensures found { IfSome result (λ parts. text.now ≡ head_text parts.0 ++ 10 ∷ parts.1.now) }
    ensures absent { IfNone result (LacksHead text.now) }
{
    if let Some(rest) = after(b"gptp-certificate 1\n", text) {
        return Some((1, rest));
    }
    Some((2, after(b"gptp-certificate 2\n", text)?))
}

/// Reads the first line of the rest, and gives what stands after it.
fn read_line<'a>(
    alloc: Global,
    lines: &mut Vec<SystemLine>,
    version: u8,
    rest: &'a [u8],
) -> Result<&'a [u8], CertificateFault>
    requires stand { StandInOrder (entries_of (lines_of lines.old.items)) }
    requires goes_on { rest.now ≢ end_text }
    ensures read { IfOk result (λ more. (line : List ℕ)
        × ReadsLine version (entries_of (lines_of lines.old.items)) line (entries_of (lines_of lines.new.items))
        × (rest.now ≡ line ++ 10 ∷ more.now)) }
    ensures refused { IfErr result
        (λ fault. (fault ≡ CertificateFault.OutOfMemory)
        ⊎ RestFails version (entries_of (lines_of lines.old.items)) rest.now fault) }
{
    let (line, more) = first_line(rest)?;
    match append_line(alloc, lines, version, line) {
        Err(fault) => Err(fault),
        Ok(()) => Ok(more),
    }
}

/// What of a rest that fails does so: what comes after `end`, where the rest begins with that, else all of it.
fn failing_part(rest: &[u8]) -> &[u8]
    ensures { IsFailingPart rest.now result.now }
{
    match after(b"end\n", rest) {
        Some(more) => more,
        None => rest,
    }
}

/// As [`parse`], and with the fault the part of the text that begins with the line that has it: the whole text for
/// [`CertificateFault::Head`], and nothing where a line is missing.
pub fn parse_located(alloc: Global, text: &[u8]) -> Result<Certificate, (CertificateFault, &[u8])>
    ensures read { IfOk result (λ c. (text.now ≡ certificate_text c.version c.lines) × IsReadable c.version c.lines) }
    ensures refused { IfErr result (λ e. (e.0 ≡ CertificateFault.OutOfMemory) ⊎ FailsFrom text.now e.0 e.1.now) }
{
    let Some((version, mut rest)) = read_head(text) else {
        return Err((CertificateFault::Head, text));
    };
    let mut lines = Vec::new(alloc);
    while rest != b"end\n".as_slice() {
        match read_line(alloc, &mut lines, version, rest) {
            Ok(more) => rest = more,
            Err(fault) => return Err((fault, failing_part(rest))),
        }
    }
    Ok(Certificate::of_lines(version, lines))
}

/// The certificate that a text spells, as [`print`](crate::print) writes it (profile). The text is read line by line,
/// and the first line that fails tells the fault:
///
/// - [`CertificateFault::Head`]: the text doesn't begin with the first line of version 1 or 2, whole
/// - [`CertificateFault::Line`]: a line is missing or lacks its line feed, isn't one by its words, or comes after
///   `end`; or it is a far system's in version 1, or a port's right after a far system's
/// - [`CertificateFault::Spelling`]: a number or digits are spelled otherwise, or a number is out of its range: steps
///   are 0 to 65535, ports 1 to 65535
/// - [`CertificateFault::Order`]: a clock or a port number doesn't rise, or a port has another clock than the system
///   before it, or stands before any
///
/// [`CertificateFault::OutOfMemory`] can come at any point.
pub fn parse(alloc: Global, text: &[u8]) -> Result<Certificate, CertificateFault>
    ensures read { IfOk result (λ c. (text.now ≡ certificate_text c.version c.lines) × IsReadable c.version c.lines) }
    ensures refused { IfErr result (λ fault. (fault ≡ CertificateFault.OutOfMemory) ⊎ FailsToParse text.now fault) }
{
    match parse_located(alloc, text) {
        Ok(certificate) => Ok(certificate),
        Err((fault, _)) => Err(fault),
    }
}
