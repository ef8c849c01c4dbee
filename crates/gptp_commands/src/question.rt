//! Questions about the network of a document that are answered without a run.

ghost use Rattle.std.specs.Prelude.{◌≡◌, ◌≢◌, ◌+◌, List, ℕ, IfErr, IfOk, OnOk};
ghost use Rattle.std.specs.Io.KnownBytes.{Keeps};
ghost use Rattle.gptp_commands.specs.Output.{IsOutput};
ghost use Rattle.gptp_commands.specs.QuestionText.{AnswersQuestion, AnswersQuestionInput, QuestionText, RefusesInput};
ghost use Rattle.gptp_commands.specs.Documents.{document_limit};
ghost use Rattle.gptp_commands.specs.Source.{ReadsWhole, TakesAtMost};
ghost use Rattle.gptp_commands.specs.Written.{Writes, WritesFront};

use crate::accuracy::tell_accuracy;
use crate::choice::choose_at;
use crate::documents::{DOCUMENT_LIMIT, refuse};
use crate::explain::explain_at;
use crate::failure::{SimError, Status};
use crate::lint::{refuse_at_place, tell_findings};
use crate::output::Output;
use crate::reading::read_whole;
use crate::source::Source;
use gptp_accuracy::AccuracyOptions;
use gptp_network::{Document, DocumentFault};
use gptp_report::sink::Sink;
use gptp_report::write_whole;
use gptp_vector::ClockId;
use std::alloc::Global;

/// What is asked of a document. Each has the time of the network that is meant, in ns, at most `LAST_MOMENT`: the
/// network as it stands after all events with time up to it, or after all where there is none.
#[derive(Clone, Copy, Debug, PartialEq, Eq)]
pub enum Question {
    /// `choice`: which choice the network settles at. The answer is its certificate, in version 2: which root each live
    /// system follows, over how many steps and which port, and the role of each port.
    Choice {
        until: Option<u64>,
    },
    /// `accuracy`: how exact the time is that each system gets, in ns; by its options, at most `LAST_MOMENT` each, also
    /// how exact what it reads is some time after it got that, or at every moment, and whether each is at most a
    /// greatest error.
    Accuracy {
        until: Option<u64>,
        options: AccuracyOptions,
    },
    /// `explain`: why the live system with a clock follows whom it follows at that choice, over which systems, why each
    /// of its ports has its role, and who would be next.
    Explain {
        clock: ClockId,
        until: Option<u64>,
    },
    /// `lint`: what isn't as it should be in the document: where and why it is refused, or what a planner may have
    /// overlooked. Where it is strict, the answer also says whether there is any of that.
    Lint {
        strict: bool,
    },
}

/// The text for a document.
fn answer_document(
    alloc: Global,
    document: &Document,
    input: &[u8],
    question: Question,
) -> Result<Output, SimError>
    ensures answers { IfOk result (IsOutput (AnswersQuestion question input.now document.now)) }
    ensures memory { IfErr result (λ e. e ≡ SimError.Memory) }
{
    match question {
        Question::Choice { until } => choose_at(alloc, document, until),
        Question::Accuracy { until, options } => tell_accuracy(alloc, document, until, options),
        Question::Explain { clock, until } => explain_at(alloc, document, until, clock),
        Question::Lint { strict } => tell_findings(alloc, document, input, strict),
    }
}

/// The line of an input within its size that is refused as a document.
fn refuse_document(
    alloc: Global,
    input: &[u8],
    question: Question,
    fault: DocumentFault,
) -> Result<Output, SimError>
    ensures refuses { IfOk result (IsOutput (RefusesInput question input.now fault)) }
    ensures memory { IfErr result (λ e. e ≡ SimError.Memory) }
{
    match question {
        Question::Lint { strict: _ } => refuse_at_place(alloc, input, fault),
        _ => refuse(alloc, fault),
    }
}

/// The text for an input within its size.
fn answer_input(alloc: Global, input: &[u8], question: Question) -> Result<Output, SimError>
    ensures answers { IfOk result (IsOutput (AnswersQuestionInput question input.now)) }
    ensures memory { IfErr result (λ e. e ≡ SimError.Memory) }
{
    match Document::read(alloc, input) {
        Ok(document) => answer_document(alloc, &document, input, question),
        Err(DocumentFault::OutOfMemory) => Err(SimError::Memory),
        Err(fault) => refuse_document(alloc, input, question, fault),
    }
}

/// What is written for an input. The only error is [`SimError::Memory`].
fn output_of(alloc: Global, input: &[u8], question: Question) -> Result<Output, SimError>
    ensures text { IfOk result (IsOutput (QuestionText question input.now)) }
    ensures memory { IfErr result (λ e. e ≡ SimError.Memory) }
{
    if input.len() <= DOCUMENT_LIMIT {
        return answer_input(alloc, input, question);
    }
    refuse(alloc, DocumentFault::TooMany)
}

/// Reads a document, and writes the answer to a question about its network, without a run.
///
/// A document that is refused is the one line `refused` with the number and name of [`gptp_network::DocumentFault`]. Of
/// an input of more than 33,554,432 octets no more than one further octet is read, and it is `refused 11 TooMany`. The
/// whole text is held before its first octet is written.
///
/// The answer is [`Status::Refused`] where the document was refused, or where the question's answer says so. Errors:
/// [`SimError::Read`] exactly where a read failed, with nothing written; [`SimError::Memory`] with nothing written;
/// [`SimError::Write`] exactly where a write failed, with a front of the text written.
pub fn answer_question<S: Source, K: Sink>(
    alloc: Global,
    source: &mut S,
    sink: &mut K,
    question: Question,
) -> Result<Status, SimError>
    ensures done { IfOk result
        (Writes (QuestionText question) (S.left source.old) (K.written sink.old) (K.written sink.new)) }
    ensures whole { OnOk result ((octets : List ℕ)
        × ReadsWhole document_limit (S.left source.old) (S.left source.new) octets) }
    ensures no_further { TakesAtMost (document_limit + 1) (S.left source.old) (S.left source.new) }

    // every failure of a device is told as such, and none is made up
    ensures source_works { result ≢ Err SimError.Read → S.failures source.new ≡ S.failures source.old }
    ensures sink_works { result ≢ Err SimError.Write → K.failures sink.new ≡ K.failures sink.old }
    ensures read { result ≡ Err SimError.Read → S.failures source.new ≢ S.failures source.old }
    ensures write { result ≡ Err SimError.Write → K.failures sink.new ≢ K.failures sink.old }

    // what stands written after an error
    ensures nothing { IfErr result (λ e. e ≢ SimError.Write → Keeps (K.written sink.old) (K.written sink.new)) }
    ensures front { result ≡ Err SimError.Write
        → WritesFront (QuestionText question) (S.left source.old) (K.written sink.old) (K.written sink.new) }
{
    let input = read_whole(alloc, source, DOCUMENT_LIMIT)?;
    let output = output_of(alloc, &input, question)?;
    write_whole(sink, &output.text)?;
    Ok(output.status)
}
