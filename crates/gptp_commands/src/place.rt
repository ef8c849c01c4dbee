//! Where a certificate that `check` doesn't accept first fails.

ghost use Rattle.std.specs.Prelude.{◌≡◌, ◌≢◌, ◌⊎◌, ◌++◌, [], List, ℕ, IfErr, IfOk, string_bytes};
ghost use Rattle.gptp_words.specs.Lines.{text_of};
ghost use Rattle.gptp_certificate_text.specs.Parsing.{FailsFrom};
ghost use Rattle.gptp_checker.specs.Faults.{IsFirstFault};
ghost use Rattle.gptp_commands.specs.WhereText.{BeginsInLine, IsAt, PlaceIsLine, LocatesAt, LocatesBoth, LocatesCertificate};
ghost use Rattle.gptp_commands.specs.WhereText.{LocatesDocument, LocatesFault, LocatesLimited, LocatesLine, line_behind, place_text};

use crate::check::moment_of;
use crate::documents::DOCUMENT_LIMIT;
use crate::failure::SimError;
use gptp_certificate_text::{CERTIFICATE_LIMIT, Certificate, CertificateFault, parse_located};
use gptp_checker::{Fault, Location, accepts, locate};
use gptp_network::{Document, DocumentFault, Snapshot};
use gptp_vector::PortId;
use gptp_words::ClockDigits;
use std::alloc::Global;
use std::fmt;

/// A port, shown by its clock and its number.
#[derive(Clone, Copy)]
struct PortDigits(PortId);

impl fmt::Display for PortDigits {
    ghost use Rattle.std.specs.Prelude.{Some};
    ghost use Rattle.gptp_commands.specs.WhereText.{where_port_text};

    ghost output = { λ port. Some (where_port_text port.0) };

    fn fmt<W: fmt::Write>(&self, f: &mut fmt::Formatter<W>) -> fmt::Result {
        let PortId { clock, port } = self.0;
        write!(f, "{} {port}", ClockDigits(clock))
    }
}

/// A place, shown by what it is and its clocks and ports.
#[derive(Clone, Copy)]
struct Place(Location);

impl fmt::Display for Place {
    ghost use Rattle.std.specs.Prelude.{Some};
    ghost use Rattle.gptp_commands.specs.WhereText.{place_text};

    ghost output = { λ place. Some (place_text place.0) };

    fn fmt<W: fmt::Write>(&self, f: &mut fmt::Formatter<W>) -> fmt::Result {
        match self.0 {
            Location::System(clock) => write!(f, "system {}", ClockDigits(clock)),
            Location::Link(own, other) => {
                write!(f, "link {} {}", PortDigits(own), PortDigits(other))
            }
            Location::Port(port) => write!(f, "port {}", PortDigits(port)),
        }
    }
}

/// The line that names a place.
fn at_place(alloc: Global, place: Location) -> Result<String, SimError>
    ensures says { IfOk result (λ text. (lines : List (List ℕ)) × IsAt (place_text place) lines × (string_bytes text ≡ text_of lines)) }
    ensures memory { IfErr result (λ e. e ≡ SimError.Memory) }
{
    let mut text = String::new(alloc);
    writeln!(text, "at {}", Place(place))?;
    Ok(text)
}

/// The line that names the place of the first fault.
fn place_of_fault(
    alloc: Global,
    snapshot: &Snapshot,
    certificate: &Certificate,
    fault: Fault,
) -> Result<String, SimError>
    requires { IsFirstFault certificate.now.version snapshot.now certificate.now.lines fault }
    ensures locates { IfOk result (λ text. (lines : List (List ℕ))
        × LocatesFault snapshot.now certificate.now lines × (string_bytes text ≡ text_of lines)) }
    ensures memory { IfErr result (λ e. e ≡ SimError.Memory) }
{
    match locate(snapshot, certificate, fault) {
        Some(place) => at_place(alloc, place),
        None => Ok(String::new(alloc)),
    }
}

/// The text that says where a certificate fails, for a network; none where it is accepted.
fn place_in(
    alloc: Global,
    snapshot: &Snapshot,
    certificate: &Certificate,
) -> Result<String, SimError>
    ensures locates { IfOk result (λ text. (lines : List (List ℕ))
        × LocatesFault snapshot.now certificate.now lines × (string_bytes text ≡ text_of lines)) }
    ensures memory { IfErr result (λ e. e ≡ SimError.Memory) }
{
    match accepts(snapshot, certificate) {
        Ok(()) => Ok(String::new(alloc)),
        Err(fault) => place_of_fault(alloc, snapshot, certificate, fault),
    }
}

/// The place at which a certificate fails for the network of a document.
fn place_at(
    alloc: Global,
    document: &Document,
    until: Option<u64>,
    certificate: &Certificate,
) -> Result<String, SimError>
    ensures locates { IfOk result (λ text. (lines : List (List ℕ))
        × LocatesAt document.now until certificate.now lines × (string_bytes text ≡ text_of lines)) }
    ensures memory { IfErr result (λ e. e ≡ SimError.Memory) }
{
    let at = moment_of(document, until);
    let snapshot = document.snapshot(alloc, at)?;
    place_in(alloc, &snapshot, certificate)
}

/// The line in which what comes after these octets begins, from 1.
fn line_behind(front: &[u8]) -> usize
    ensures { result ≡ line_behind front.now }
{
    front.iter().filter(|octet| **octet == b'\n').count() + 1
}

/// The line in which a part of a text begins, with which the text ends.
fn line_of_part(text: &[u8], part: &[u8]) -> usize
    requires { (front : List ℕ) × (text.now ≡ front ++ part.now) }
    ensures { BeginsInLine text.now part.now result }
{
    line_behind(&text[..text.len() - part.len()])
}

/// The text that names a line.
fn at_line(alloc: Global, line: usize) -> Result<String, SimError>
    ensures says { IfOk result (λ text. (lines : List (List ℕ)) × PlaceIsLine line lines × (string_bytes text ≡ text_of lines)) }
    ensures memory { IfErr result (λ e. e ≡ SimError.Memory) }
{
    let mut text = String::new(alloc);
    writeln!(text, "at line {line}")?;
    Ok(text)
}

/// The line that names where the text of a certificate fails.
fn place_of_failure(
    alloc: Global,
    input: &[u8],
    fault: CertificateFault,
    part: &[u8],
) -> Result<String, SimError>
    requires { (fault ≡ CertificateFault.OutOfMemory) ⊎ FailsFrom input.now fault part.now }
    ensures locates { IfOk result (λ text. (lines : List (List ℕ)) × LocatesLine input.now lines × (string_bytes text ≡ text_of lines)) }
    ensures memory { IfErr result (λ e. e ≡ SimError.Memory) }
{
    match fault {
        CertificateFault::OutOfMemory => Err(SimError::Memory),
        _ => at_line(alloc, line_of_part(input, part)),
    }
}

/// The text for a certificate within its size.
fn place_of_certificate(
    alloc: Global,
    document: &Document,
    until: Option<u64>,
    input: &[u8],
) -> Result<String, SimError>
    ensures locates { IfOk result (λ text. (lines : List (List ℕ))
        × LocatesCertificate document.now until input.now lines × (string_bytes text ≡ text_of lines)) }
    ensures memory { IfErr result (λ e. e ≡ SimError.Memory) }
{
    match parse_located(alloc, input) {
        Ok(certificate) => {
            certificate.well_formed();
            place_at(alloc, document, until, &certificate)
        }
        Err((fault, part)) => place_of_failure(alloc, input, fault, part),
    }
}

/// The text for a certificate.
fn place_within_limit(
    alloc: Global,
    document: &Document,
    until: Option<u64>,
    input: &[u8],
) -> Result<String, SimError>
    ensures locates { IfOk result (λ text. (lines : List (List ℕ))
        × LocatesLimited document.now until input.now lines × (string_bytes text ≡ text_of lines)) }
    ensures memory { IfErr result (λ e. e ≡ SimError.Memory) }
{
    if input.len() <= CERTIFICATE_LIMIT {
        return place_of_certificate(alloc, document, until, input);
    }
    at_line(alloc, line_behind(&input[..CERTIFICATE_LIMIT]))
}

/// The text where a document is refused: none.
fn place_without_document(alloc: Global, fault: DocumentFault) -> Result<String, SimError>
    ensures refused { IfOk result (λ text. fault ≢ DocumentFault.OutOfMemory) }
    ensures nothing { IfOk result (λ text. string_bytes text ≡ []) }
    ensures memory { IfErr result (λ e. e ≡ SimError.Memory) }
{
    match fault {
        DocumentFault::OutOfMemory => Err(SimError::Memory),
        _ => Ok(String::new(alloc)),
    }
}

/// The text for a document within its size, and a certificate.
fn place_for_document(
    alloc: Global,
    document: &[u8],
    until: Option<u64>,
    certificate: &[u8],
) -> Result<String, SimError>
    ensures locates { IfOk result (λ text. (lines : List (List ℕ))
        × LocatesDocument until certificate.now document.now lines × (string_bytes text ≡ text_of lines)) }
    ensures memory { IfErr result (λ e. e ≡ SimError.Memory) }
{
    match Document::read(alloc, document) {
        Ok(document) => place_within_limit(alloc, &document, until, certificate),
        Err(fault) => place_without_document(alloc, fault),
    }
}

/// The text for both inputs.
pub(crate) fn place_of_both(
    alloc: Global,
    document: &[u8],
    until: Option<u64>,
    certificate: &[u8],
) -> Result<String, SimError>
    ensures locates { IfOk result (λ text. (lines : List (List ℕ))
        × LocatesBoth until certificate.now document.now lines × (string_bytes text ≡ text_of lines)) }
    ensures memory { IfErr result (λ e. e ≡ SimError.Memory) }
{
    if document.len() <= DOCUMENT_LIMIT {
        return place_for_document(alloc, document, until, certificate);
    }
    Ok(String::new(alloc))
}
