//! What every command that reads a document does with it, and what those do that tell of it line by line.

ghost use Rattle.std.specs.Prelude.{◌≡◌, ◌≢◌, ◌+◌, List, ℕ, IfErr, IfOk, OnErr, OnOk};
ghost use Rattle.std.specs.Io.KnownBytes.{Appends, Keeps};
ghost use Rattle.gptp_network.specs.Document.{DocumentState};
ghost use Rattle.gptp_sink.specs.Sink.{AppendsSome};
ghost use Rattle.gptp_words.specs.Lines.{text_of};
ghost use Rattle.gptp_commands.specs.Documents.{document_limit, Answers, AnswersInput, AnswersSoFar, BeginsInput, IsRead, RefusesFault, SomeOf};
ghost use Rattle.gptp_commands.specs.declared.failure.Status.{Status};
ghost use Rattle.gptp_commands.specs.Source.{ReadsWhole, TakesAtMost};
ghost use Rattle.gptp_commands.specs.Written.{Writes, WritesSome};

use crate::failure::{SimError, Status};
use crate::output::Output;
use crate::reading::read_whole;
use crate::source::Source;
use gptp_network::{Document, DocumentFault};
use gptp_report::sink::Sink;
use gptp_report::{Cut, write_whole};
use std::alloc::Global;

/// How many octets a document may have.
pub const DOCUMENT_LIMIT: usize = 33_554_432;

/// The line of a document that is refused.
pub fn refuse(alloc: Global, fault: DocumentFault) -> Result<Output, SimError>
    ensures refuses { IfOk result (λ o. (output : List (List ℕ)) × RefusesFault fault output o.status × (o.text.items ≡ text_of output)) }
    ensures memory { IfErr result (λ e. e ≡ SimError.Memory) }
{
    let mut text = String::new(alloc);
    writeln!(text, "refused {fault}")?;
    Ok(Output::of(text, Status::Refused))
}

/// Writes that line.
fn write_refusal<K: Sink>(alloc: Global, fault: DocumentFault, sink: &mut K) -> Result<Status, Cut>
    ensures some { (lines : List (List ℕ)) × RefusesFault fault lines Status.Refused
        × AppendsSome (K.written sink.old) (K.written sink.new) (text_of lines) }
    ensures whole { IfOk result (λ status. (lines : List (List ℕ)) × RefusesFault fault lines status
        × Appends (K.written sink.old) (K.written sink.new) (text_of lines)) }
    ensures works { result ≢ Err Cut.Write → K.failures sink.new ≡ K.failures sink.old }
    ensures fails { result ≡ Err Cut.Write → K.failures sink.new ≢ K.failures sink.old }
{
    let mut line = String::new(alloc);
    writeln!(line, "refused {fault}")?;
    write_whole(sink, line.as_bytes())?;
    Ok(Status::Refused)
}

/// What is asked of a document, and told line by line as it is known.
pub(crate) trait DocumentCommand {
    // whether it can be told
    ghost can_tell: { Self → Type 0 };

    // all that is told of a document, and the status; and the lines so far
    ghost tells: { Self → DocumentState → List (List ℕ) → Status → Type 0 };

    ghost tells_so_far: { Self → DocumentState → List (List ℕ) → Type 0 };

    /// Tells of a document, whose seed may be set for that.
    ///
    /// Errors: [`Cut::Write`] exactly where a write failed, and [`Cut::Memory`]. Then a front of the text stands
    /// written, as far as that had got.
    fn tell<K: Sink>(
        &self,
        alloc: Global,
        document: &mut Document,
        sink: &mut K,
    ) -> Result<Status, Cut>
        requires can { can_tell self.now }
        requires read { IsRead document.old }
        ensures some { OnErr result ((lines : List (List ℕ))
            × SomeOf (tells_so_far self.now document.old) (tells self.now document.old) lines
            × AppendsSome (K.written sink.old) (K.written sink.new) (text_of lines)) }
        ensures whole { IfOk result (λ status. (lines : List (List ℕ)) × tells self.now document.old lines status
            × Appends (K.written sink.old) (K.written sink.new) (text_of lines)) }
        ensures works { result ≢ Err Cut.Write → K.failures sink.new ≡ K.failures sink.old }
        ensures fails { result ≡ Err Cut.Write → K.failures sink.new ≢ K.failures sink.old };
}

/// Tells of the document that an input within its size is.
fn tell_document<C: DocumentCommand, K: Sink>(
    alloc: Global,
    input: &[u8],
    command: &C,
    sink: &mut K,
) -> Result<Status, Cut>
    requires { C.can_tell command.now }
    ensures some { OnErr result ((lines : List (List ℕ))
        × SomeOf (AnswersSoFar (C.tells_so_far command.now) input.now) (Answers (C.tells command.now) input.now) lines
        × AppendsSome (K.written sink.old) (K.written sink.new) (text_of lines)) }
    ensures whole { IfOk result (λ status. (lines : List (List ℕ)) × Answers (C.tells command.now) input.now lines status
        × Appends (K.written sink.old) (K.written sink.new) (text_of lines)) }
    ensures works { result ≢ Err Cut.Write → K.failures sink.new ≡ K.failures sink.old }
    ensures fails { result ≡ Err Cut.Write → K.failures sink.new ≢ K.failures sink.old }
{
    match Document::read(alloc, input) {
        Ok(mut document) => command.tell(alloc, &mut document, sink),
        Err(DocumentFault::OutOfMemory) => Err(Cut::Memory),
        Err(fault) => write_refusal(alloc, fault, sink),
    }
}

/// Writes the text for an input.
fn tell_input<C: DocumentCommand, K: Sink>(
    alloc: Global,
    input: &[u8],
    command: &C,
    sink: &mut K,
) -> Result<Status, Cut>
    requires { C.can_tell command.now }
    ensures some { OnErr result ((lines : List (List ℕ))
        × BeginsInput (C.tells command.now) (C.tells_so_far command.now) input.now lines
        × AppendsSome (K.written sink.old) (K.written sink.new) (text_of lines)) }
    ensures whole { IfOk result (λ status. (lines : List (List ℕ))
        × AnswersInput (C.tells command.now) input.now lines status
        × Appends (K.written sink.old) (K.written sink.new) (text_of lines)) }
    ensures works { result ≢ Err Cut.Write → K.failures sink.new ≡ K.failures sink.old }
    ensures fails { result ≡ Err Cut.Write → K.failures sink.new ≢ K.failures sink.old }
{
    if input.len() <= DOCUMENT_LIMIT {
        return tell_document(alloc, input, command, sink);
    }
    write_refusal(alloc, DocumentFault::TooMany, sink)
}

/// Reads a document, and tells of it line by line; or writes the line of a document that is refused.
///
/// Errors: [`SimError::Read`] exactly where a read failed, with nothing written; [`SimError::Memory`];
/// [`SimError::Write`] exactly where a write failed, after which nothing more is done. After these two a front of the
/// text stands written, as far as that had got.
pub(crate) fn tell_of_document<C: DocumentCommand, S: Source, K: Sink>(
    alloc: Global,
    source: &mut S,
    sink: &mut K,
    command: &C,
) -> Result<Status, SimError>
    requires { C.can_tell command.now }
    ensures done { IfOk result
        (Writes (AnswersInput (C.tells command.now)) (S.left source.old) (K.written sink.old) (K.written sink.new)) }
    ensures whole { OnOk result ((octets : List ℕ)
        × ReadsWhole document_limit (S.left source.old) (S.left source.new) octets) }
    ensures no_further { TakesAtMost (document_limit + 1) (S.left source.old) (S.left source.new) }

    // every failure of a device is told as such, and none is made up
    ensures source_works { result ≢ Err SimError.Read → S.failures source.new ≡ S.failures source.old }
    ensures sink_works { result ≢ Err SimError.Write → K.failures sink.new ≡ K.failures sink.old }
    ensures read { result ≡ Err SimError.Read → S.failures source.new ≢ S.failures source.old }
    ensures write { result ≡ Err SimError.Write → K.failures sink.new ≢ K.failures sink.old }

    // what stands written after an error
    ensures nothing { result ≡ Err SimError.Read → Keeps (K.written sink.old) (K.written sink.new) }
    ensures front { IfErr result (λ e. e ≢ SimError.Read
        → WritesSome (BeginsInput (C.tells command.now) (C.tells_so_far command.now)) (S.left source.old)
        (K.written sink.old) (K.written sink.new)) }
{
    let input = read_whole(alloc, source, DOCUMENT_LIMIT)?;
    match tell_input(alloc, &input, command, sink) {
        Ok(status) => Ok(status),
        Err(Cut::Memory) => Err(SimError::Memory),
        Err(Cut::Write) => Err(SimError::Write),
    }
}
