//! The command `faults`: what becomes of the network of a document where a link or a system fails and comes back.

ghost use Rattle.std.specs.Prelude.{◌≡◌, ◌≢◌, ◌⊎◌, ◌+◌, Err, List, ℕ, IfErr, IfOk, OnOk};
ghost use Rattle.std.specs.Io.KnownBytes.{Keeps};
ghost use Rattle.gptp_faults.specs.Times.{AreOptions};
ghost use Rattle.gptp_commands.specs.FaultsText.{AnswersFaults, FaultsText, TellsFaults};
ghost use Rattle.gptp_commands.specs.Output.{IsOutput};
ghost use Rattle.gptp_commands.specs.Documents.{IsRead, document_limit};
ghost use Rattle.gptp_commands.specs.Source.{ReadsWhole, TakesAtMost};
ghost use Rattle.gptp_commands.specs.Written.{Writes, WritesFront};

use crate::documents::{DOCUMENT_LIMIT, refuse};
use crate::failure::{SimError, Status};
use crate::output::Output;
use crate::reading::read_whole;
use crate::source::Source;
use gptp_faults::{Answer, FaultsOptions, fail_each, follow_lines_settle, lines_settle_within};
use gptp_network::{Document, DocumentFault};
use gptp_report::sink::Sink;
use gptp_report::write_whole;
use std::alloc::Global;

/// The text for a document.
fn answer_document<P: Sink>(
    alloc: Global,
    document: &mut Document,
    options: &FaultsOptions,
    progress: &mut P,
) -> Result<Output, SimError>
    requires options { AreOptions options.now }
    requires read { IsRead document.old }
    ensures tells { IfOk result (IsOutput (TellsFaults document.old options.now)) }
    ensures no_read { result ≢ Err SimError.Read }
    ensures works { result ≢ Err SimError.Write → P.failures progress.new ≡ P.failures progress.old }
    ensures fails { result ≡ Err SimError.Write → P.failures progress.new ≢ P.failures progress.old }
{
    document.well_formed();
    document.network().well_formed();
    follow_lines_settle();
    lines_settle_within();
    match fail_each(alloc, document, options, progress) {
        Ok(Answer::Refused(fault)) => refuse(alloc, fault),
        Ok(Answer::Table { text, exceeded }) => {
            Ok(Output::of(text, Status::of_refusal(exceeded)))
        }
        Err(cut) => Err(SimError::from(cut)),
    }
}

/// The text for an input within its size.
fn answer_input<P: Sink>(
    alloc: Global,
    input: &[u8],
    options: &FaultsOptions,
    progress: &mut P,
) -> Result<Output, SimError>
    requires { AreOptions options.now }
    ensures answers { IfOk result (IsOutput (AnswersFaults options.now input.now)) }
    ensures no_read { result ≢ Err SimError.Read }
    ensures works { result ≢ Err SimError.Write → P.failures progress.new ≡ P.failures progress.old }
    ensures fails { result ≡ Err SimError.Write → P.failures progress.new ≢ P.failures progress.old }
{
    match Document::read(alloc, input) {
        Ok(mut document) => answer_document(alloc, &mut document, options, progress),
        Err(DocumentFault::OutOfMemory) => Err(SimError::Memory),
        Err(fault) => refuse(alloc, fault),
    }
}

/// What is written for an input.
fn output_of<P: Sink>(
    alloc: Global,
    input: &[u8],
    options: &FaultsOptions,
    progress: &mut P,
) -> Result<Output, SimError>
    requires { AreOptions options.now }
    ensures text { IfOk result (IsOutput (FaultsText options.now input.now)) }
    ensures no_read { result ≢ Err SimError.Read }
    ensures works { result ≢ Err SimError.Write → P.failures progress.new ≡ P.failures progress.old }
    ensures fails { result ≡ Err SimError.Write → P.failures progress.new ≢ P.failures progress.old }
{
    if input.len() <= DOCUMENT_LIMIT {
        return answer_input(alloc, input, options, progress);
    }
    refuse(alloc, DocumentFault::TooMany)
}

/// Reads a document, lets each link in use and each live system fail and come back, and writes what becomes of its
/// network, the worst case first. A line is written to `progress` before each case, where that is asked for.
///
/// Where the network without what fails in a case is calm, and the case stays down as long as that network takes at
/// most to settle, its `follow` lines are those of the settled choice of the network without it.
///
/// A document that is refused, also with the two events of some run, is the one line `refused` with the number and name
/// of [`gptp_network::DocumentFault`]. Of an input of more than 33,554,432 octets no more than one further octet is
/// read, and it is `refused 11 TooMany`. The whole text is held before its first octet is written.
///
/// The answer is [`Status::Refused`] where the document was refused, or where a limit is given that the worst of all
/// exceeds. Errors: [`SimError::Read`] exactly where a read failed, with nothing written; [`SimError::Memory`] with
/// nothing written; [`SimError::Write`] exactly where a write failed, with nothing or a front of the text written.
pub fn faults<S: Source, K: Sink, P: Sink>(
    alloc: Global,
    source: &mut S,
    sink: &mut K,
    progress: &mut P,
    options: &FaultsOptions,
) -> Result<Status, SimError>
    requires { AreOptions options.now }
    ensures done { IfOk result
        (Writes (FaultsText options.now) (S.left source.old) (K.written sink.old) (K.written sink.new)) }
    ensures whole { OnOk result ((octets : List ℕ)
        × ReadsWhole document_limit (S.left source.old) (S.left source.new) octets) }
    ensures no_further { TakesAtMost (document_limit + 1) (S.left source.old) (S.left source.new) }

    // every failure of a device is told as such, and none is made up
    ensures source_works { result ≢ Err SimError.Read → S.failures source.new ≡ S.failures source.old }
    ensures sink_works { result ≢ Err SimError.Write → K.failures sink.new ≡ K.failures sink.old }
    ensures progress_works { result ≢ Err SimError.Write → P.failures progress.new ≡ P.failures progress.old }
    ensures read { result ≡ Err SimError.Read → S.failures source.new ≢ S.failures source.old }
    ensures write { result ≡ Err SimError.Write
        → (K.failures sink.new ≢ K.failures sink.old) ⊎ (P.failures progress.new ≢ P.failures progress.old) }

    // what stands written after an error
    ensures nothing { IfErr result (λ e. e ≢ SimError.Write → Keeps (K.written sink.old) (K.written sink.new)) }
    ensures front { result ≡ Err SimError.Write → Keeps (K.written sink.old) (K.written sink.new)
        ⊎ WritesFront (FaultsText options.now) (S.left source.old) (K.written sink.old) (K.written sink.new) }
{
    let input = read_whole(alloc, source, DOCUMENT_LIMIT)?;
    let output = output_of(alloc, &input, options, progress)?;
    write_whole(sink, &output.text)?;
    Ok(output.status)
}
