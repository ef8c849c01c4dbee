//! The command `check`: whether a certificate is the choice that the network of a document settles at.

ghost use Rattle.std.specs.Prelude.{◌≡◌, ◌≢◌, ◌⊎◌, ◌+◌, List, ℕ, IfErr, IfOk, IfSome, OnOk, codes, ◌++◌};
ghost use Rattle.std.specs.Io.KnownBytes.{Keeps};
ghost use Rattle.gptp_words.specs.Lines.{text_of};
ghost use Rattle.gptp_checker.specs.Faults.{check_fault_text};
ghost use Rattle.gptp_commands.specs.CheckText.{moment_of, AnswersBoth, AnswersCertificate, CheckText, Judges, JudgesAt, RefusesCertificate, Says};
ghost use Rattle.gptp_certificate_text.specs.declared.fault.CertificateFault.TheVariants.{Line};
ghost use Rattle.gptp_commands.specs.declared.failure.Status.TheVariants.{Done, Refused};
ghost use Rattle.gptp_commands.specs.Limited.{Limited};
ghost use Rattle.gptp_commands.specs.Documents.{document_limit};
ghost use Rattle.gptp_commands.specs.Source.{ReadsWhole, TakesAtMost};
ghost use Rattle.gptp_commands.specs.WhereText.{WhereText};
ghost use Rattle.gptp_commands.specs.Written.{Writes, WritesFront};

use crate::documents::{DOCUMENT_LIMIT, refuse};
use crate::failure::{SimError, Status};
use crate::output::Output;
use crate::place::place_of_both;
use crate::reading::read_whole;
use crate::source::Source;
use gptp_certificate::{Certificate, CertificateFault, parse};
use gptp_certificate_text::CERTIFICATE_LIMIT;
use gptp_checker::{Fault, accepts};
use gptp_network::{Document, DocumentFault, Snapshot};
use gptp_report::sink::Sink;
use gptp_report::write_whole;
use std::alloc::Global;

/// The time of the network that is meant.
pub(crate) fn moment_of(document: &Document, until: Option<u64>) -> u64
    ensures { result ≡ moment_of until document.now }
{
    match until {
        Some(until) => until,
        None => document.last_change(),
    }
}

/// The line of a certificate that is accepted.
fn accept(alloc: Global) -> Result<Output, SimError>
    ensures says { IfOk result (λ o. (output : List (List ℕ)) × Says (codes "accepted") Done output o.status × (o.text.items ≡ text_of output)) }
    ensures memory { IfErr result (λ e. e ≡ SimError.Memory) }
{
    let mut text = String::new(alloc);
    writeln!(text, "accepted")?;
    Ok(Output::of(text, Status::Done))
}

/// The line of one that isn't.
pub(crate) fn reject(alloc: Global, fault: Fault) -> Result<Output, SimError>
    ensures says { IfOk result (λ o. (output : List (List ℕ)) × Says (codes "not accepted " ++ check_fault_text fault) Refused output o.status × (o.text.items ≡ text_of output)) }
    ensures memory { IfErr result (λ e. e ≡ SimError.Memory) }
{
    let mut text = String::new(alloc);
    writeln!(text, "not accepted {fault}")?;
    Ok(Output::of(text, Status::Refused))
}

/// The line of a certificate that is refused.
pub(crate) fn refuse_certificate(alloc: Global, fault: CertificateFault) -> Result<Output, SimError>
    ensures refuses { IfOk result (λ o. (output : List (List ℕ)) × RefusesCertificate fault output o.status × (o.text.items ≡ text_of output)) }
    ensures memory { IfErr result (λ e. e ≡ SimError.Memory) }
{
    let mut text = String::new(alloc);
    writeln!(text, "certificate refused {fault}")?;
    Ok(Output::of(text, Status::Refused))
}

/// The verdict on a certificate for a network.
fn judge(alloc: Global, snapshot: &Snapshot, certificate: &Certificate) -> Result<Output, SimError>
    ensures judges { IfOk result (λ o. (output : List (List ℕ)) × Judges snapshot.now certificate.now output o.status × (o.text.items ≡ text_of output)) }
    ensures memory { IfErr result (λ e. e ≡ SimError.Memory) }
{
    match accepts(snapshot, certificate) {
        Ok(()) => accept(alloc),
        Err(fault) => reject(alloc, fault),
    }
}

/// The verdict for the network of a document.
fn judge_at(
    alloc: Global,
    document: &Document,
    until: Option<u64>,
    certificate: &Certificate,
) -> Result<Output, SimError>
    ensures judges { IfOk result (λ o. (output : List (List ℕ)) × JudgesAt document.now until certificate.now output o.status × (o.text.items ≡ text_of output)) }
    ensures memory { IfErr result (λ e. e ≡ SimError.Memory) }
{
    let at = moment_of(document, until);
    let snapshot = document.snapshot(alloc, at)?;
    snapshot.well_formed();
    judge(alloc, &snapshot, certificate)
}

/// The text for a certificate within its size.
fn answer_certificate(
    alloc: Global,
    document: &Document,
    until: Option<u64>,
    input: &[u8],
) -> Result<Output, SimError>
    ensures answers { IfOk result (λ o. (output : List (List ℕ)) × AnswersCertificate document.now until input.now output o.status × (o.text.items ≡ text_of output)) }
    ensures memory { IfErr result (λ e. e ≡ SimError.Memory) }
{
    match parse(alloc, input) {
        Ok(certificate) => {
            certificate.well_formed();
            judge_at(alloc, document, until, &certificate)
        }
        Err(CertificateFault::OutOfMemory) => Err(SimError::Memory),
        Err(fault) => refuse_certificate(alloc, fault),
    }
}

/// The text for a certificate.
fn limit_certificate(
    alloc: Global,
    document: &Document,
    until: Option<u64>,
    input: &[u8],
) -> Result<Output, SimError>
    ensures answers { IfOk result (λ o. (output : List (List ℕ)) × Limited CERTIFICATE_LIMIT (AnswersCertificate document.now until) (RefusesCertificate Line) input.now output o.status × (o.text.items ≡ text_of output)) }
    ensures memory { IfErr result (λ e. e ≡ SimError.Memory) }
{
    if input.len() <= CERTIFICATE_LIMIT {
        return answer_certificate(alloc, document, until, input);
    }
    refuse_certificate(alloc, CertificateFault::Line)
}

/// The text for a document within its size, and a certificate.
fn answer_both(
    alloc: Global,
    document: &[u8],
    until: Option<u64>,
    certificate: &[u8],
) -> Result<Output, SimError>
    ensures answers { IfOk result (λ o. (output : List (List ℕ)) × AnswersBoth until certificate.now document.now output o.status × (o.text.items ≡ text_of output)) }
    ensures memory { IfErr result (λ e. e ≡ SimError.Memory) }
{
    match Document::read(alloc, document) {
        Ok(document) => limit_certificate(alloc, &document, until, certificate),
        Err(DocumentFault::OutOfMemory) => Err(SimError::Memory),
        Err(fault) => refuse(alloc, fault),
    }
}

/// What is written for both inputs. The only error is [`SimError::Memory`].
fn output_of(
    alloc: Global,
    document: &[u8],
    until: Option<u64>,
    certificate: &[u8],
) -> Result<Output, SimError>
    ensures text { IfOk result (λ o. (output : List (List ℕ)) × CheckText until certificate.now document.now output o.status × (o.text.items ≡ text_of output)) }
    ensures memory { IfErr result (λ e. e ≡ SimError.Memory) }
{
    if document.len() <= DOCUMENT_LIMIT {
        return answer_both(alloc, document, until, certificate);
    }
    refuse(alloc, DocumentFault::TooMany)
}

/// Reads a document and then a certificate, and writes whether the certificate is the choice that the document's
/// network settles at as it stands after all events with time up to `until`, in ns, or after all where none is given:
/// which root each live system follows, over how many steps and which port, and the role of each port.
///
/// It writes `accepted`, or `not accepted` with the number and name of the first [`Fault`]. A document that is refused
/// is the line `refused` with the number and name of [`gptp_network::DocumentFault`], else a certificate that is
/// refused the line `certificate refused` with those of [`CertificateFault`]. Of a document of more than 33,554,432
/// octets no more than one further octet is read, and it is `refused 11 TooMany`; so it is with a certificate of more
/// than 1,048,576 octets, which is `certificate refused 2 Line`. Both are read before any test.
///
/// The answer is [`Status::Done`] where the certificate is accepted. Errors: [`SimError::Read`] exactly where a read
/// failed, with nothing written; [`SimError::Memory`] with nothing written; [`SimError::Write`] exactly where a write
/// failed, with a front of the text written.
pub fn check<S: Source, C: Source, K: Sink>(
    alloc: Global,
    document: &mut S,
    certificate: &mut C,
    sink: &mut K,
    until: Option<u64>,
) -> Result<Status, SimError>
    ensures done { IfOk result (λ status. IfSome (C.left certificate.old) (λ octets. Writes (CheckText until octets) (S.left document.old) (K.written sink.old) (K.written sink.new) status)) }
    ensures whole { OnOk result ((octets : List ℕ) × ReadsWhole document_limit (S.left document.old) (S.left document.new) octets) }
    ensures certificate_whole { OnOk result ((octets : List ℕ) × ReadsWhole CERTIFICATE_LIMIT (C.left certificate.old) (C.left certificate.new) octets) }
    ensures no_further { TakesAtMost (document_limit + 1) (S.left document.old) (S.left document.new) }
    ensures certificate_no_further { TakesAtMost (CERTIFICATE_LIMIT + 1) (C.left certificate.old) (C.left certificate.new) }

    // every failure of a device is told as such, and none is made up
    ensures document_works { result ≢ Err SimError.Read → S.failures document.new ≡ S.failures document.old }
    ensures certificate_works { result ≢ Err SimError.Read → C.failures certificate.new ≡ C.failures certificate.old }
    ensures sink_works { result ≢ Err SimError.Write → K.failures sink.new ≡ K.failures sink.old }
    ensures read { result ≡ Err SimError.Read → (S.failures document.new ≢ S.failures document.old) ⊎ (C.failures certificate.new ≢ C.failures certificate.old) }
    ensures write { result ≡ Err SimError.Write → K.failures sink.new ≢ K.failures sink.old }

    // what stands written after an error
    ensures nothing { IfErr result (λ e. e ≢ SimError.Write → Keeps (K.written sink.old) (K.written sink.new)) }
    ensures front { result ≡ Err SimError.Write → IfSome (C.left certificate.old) (λ octets. WritesFront (CheckText until octets) (S.left document.old) (K.written sink.old) (K.written sink.new)) }
{
    let document_text = read_whole(alloc, document, DOCUMENT_LIMIT)?;
    let certificate_text = read_whole(alloc, certificate, CERTIFICATE_LIMIT)?;
    let output = output_of(alloc, &document_text, until, &certificate_text)?;
    write_whole(sink, &output.text)?;
    Ok(output.status)
}

/// What is written for both inputs, with the place at which the certificate first fails. The only error is
/// [`SimError::Memory`].
fn located_output_of(
    alloc: Global,
    document: &[u8],
    until: Option<u64>,
    certificate: &[u8],
) -> Result<Output, SimError>
    ensures text { IfOk result (λ o. (output : List (List ℕ)) × WhereText until certificate.now document.now output o.status × (o.text.items ≡ text_of output)) }
    ensures memory { IfErr result (λ e. e ≡ SimError.Memory) }
{
    let mut output = output_of(alloc, document, until, certificate)?;
    let place = place_of_both(alloc, document, until, certificate)?;
    output.text.extend_from_slice(place.as_bytes())?;
    Ok(output)
}

/// As [`check`], and after `not accepted` and `certificate refused` it writes a second line, `at` and the first place
/// that fails the named test: a system, a link with its own end first, or a port; or the number of a line of the
/// certificate's text, from 1.
pub fn check_where<S: Source, C: Source, K: Sink>(
    alloc: Global,
    document: &mut S,
    certificate: &mut C,
    sink: &mut K,
    until: Option<u64>,
) -> Result<Status, SimError>
    ensures done { IfOk result (λ status. IfSome (C.left certificate.old) (λ octets. Writes (WhereText until octets) (S.left document.old) (K.written sink.old) (K.written sink.new) status)) }
    ensures whole { OnOk result ((octets : List ℕ) × ReadsWhole document_limit (S.left document.old) (S.left document.new) octets) }
    ensures certificate_whole { OnOk result ((octets : List ℕ) × ReadsWhole CERTIFICATE_LIMIT (C.left certificate.old) (C.left certificate.new) octets) }
    ensures no_further { TakesAtMost (document_limit + 1) (S.left document.old) (S.left document.new) }
    ensures certificate_no_further { TakesAtMost (CERTIFICATE_LIMIT + 1) (C.left certificate.old) (C.left certificate.new) }

    // every failure of a device is told as such, and none is made up
    ensures document_works { result ≢ Err SimError.Read → S.failures document.new ≡ S.failures document.old }
    ensures certificate_works { result ≢ Err SimError.Read → C.failures certificate.new ≡ C.failures certificate.old }
    ensures sink_works { result ≢ Err SimError.Write → K.failures sink.new ≡ K.failures sink.old }
    ensures read { result ≡ Err SimError.Read → (S.failures document.new ≢ S.failures document.old) ⊎ (C.failures certificate.new ≢ C.failures certificate.old) }
    ensures write { result ≡ Err SimError.Write → K.failures sink.new ≢ K.failures sink.old }

    // what stands written after an error
    ensures nothing { IfErr result (λ e. e ≢ SimError.Write → Keeps (K.written sink.old) (K.written sink.new)) }
    ensures front { result ≡ Err SimError.Write → IfSome (C.left certificate.old) (λ octets. WritesFront (WhereText until octets) (S.left document.old) (K.written sink.old) (K.written sink.new)) }
{
    let document_text = read_whole(alloc, document, DOCUMENT_LIMIT)?;
    let certificate_text = read_whole(alloc, certificate, CERTIFICATE_LIMIT)?;
    let output = located_output_of(alloc, &document_text, until, &certificate_text)?;
    write_whole(sink, &output.text)?;
    Ok(output.status)
}
