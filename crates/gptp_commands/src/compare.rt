//! The command `compare`: which of two announced vectors is better, line by line.

ghost use Rattle.std.specs.Prelude.{◌≡◌, ◌≢◌, ◌+◌, [], ◌∷◌, List, ℕ, IfOk, OnOk, IfErr, OnErr};
ghost use Rattle.std.specs.Io.KnownBytes.{Appends, Keeps};
ghost use Rattle.gptp_commands.specs.Source.{ReadsWhole, TakesAtMost};
ghost use Rattle.gptp_words.specs.Lines.{text_of};
ghost use Rattle.gptp_sink.specs.Sink.{AppendsSome};
ghost use Rattle.gptp_commands.specs.Answer.{answer_text};
ghost use Rattle.gptp_commands.specs.Written.{Writes, WritesSome};
ghost use Rattle.gptp_commands.specs.CompareText.{size_limit, AnswersLines, AnswersSome, BeginsCompare, CompareText};

use crate::answer::{Answer, answer_to};
use crate::failure::{SimError, Status};
use crate::lines::first_line;
use crate::reading::read_whole;
use crate::source::Source;
use gptp_report::sink::Sink;
use gptp_report::write_whole;
use std::alloc::Global;

/// How many octets an input may have.
const LIMIT: usize = 1_048_576;

/// Writes the line of an answer.
fn write_answer<K: Sink>(alloc: Global, sink: &mut K, answer: &Answer) -> Result<(), SimError>
    ensures some { AppendsSome (K.written sink.old) (K.written sink.new) (text_of (answer_text answer.now ∷ [])) }
    ensures whole { OnOk result
        (Appends (K.written sink.old) (K.written sink.new) (text_of (answer_text answer.now ∷ []))) }
    ensures no_read { result ≢ Err SimError.Read }
    ensures works { result ≢ Err SimError.Write → K.failures sink.new ≡ K.failures sink.old }
    ensures fails { result ≡ Err SimError.Write → K.failures sink.new ≢ K.failures sink.old }
{
    let mut line = String::new(alloc);
    writeln!(line, "{answer}")?;
    write_whole(sink, line.as_bytes())?;
    Ok(())
}

/// Writes the answers to the lines of an input, each as it is found.
fn answer_lines<K: Sink>(alloc: Global, input: &[u8], sink: &mut K) -> Result<Status, SimError>
    ensures answers { IfOk result (λ status. (output : List (List ℕ)) × AnswersLines input.now output status
        × Appends (K.written sink.old) (K.written sink.new) (text_of output)) }
    ensures some { OnErr result ((output : List (List ℕ)) × AnswersSome input.now output
        × AppendsSome (K.written sink.old) (K.written sink.new) (text_of output)) }
    ensures no_read { result ≢ Err SimError.Read }
    ensures works { result ≢ Err SimError.Write → K.failures sink.new ≡ K.failures sink.old }
    ensures fails { result ≡ Err SimError.Write → K.failures sink.new ≢ K.failures sink.old }
{
    let mut refused = false;
    let mut rest = input;
    while !rest.is_empty() {
        let (line, after) = first_line(rest);
        let answer = answer_to(alloc, line)?;
        write_answer(alloc, sink, &answer)?;
        refused |= answer.is_refusal();
        rest = after;
    }
    Ok(Status::of_refusal(refused))
}

/// Writes the text for an input.
fn answer_input<K: Sink>(alloc: Global, input: &[u8], sink: &mut K) -> Result<Status, SimError>
    ensures text { IfOk result (λ status. (output : List (List ℕ)) × CompareText input.now output status
        × Appends (K.written sink.old) (K.written sink.new) (text_of output)) }
    ensures begun { OnErr result ((output : List (List ℕ)) × BeginsCompare input.now output
        × AppendsSome (K.written sink.old) (K.written sink.new) (text_of output)) }
    ensures no_read { result ≢ Err SimError.Read }
    ensures works { result ≢ Err SimError.Write → K.failures sink.new ≡ K.failures sink.old }
    ensures fails { result ≡ Err SimError.Write → K.failures sink.new ≢ K.failures sink.old }
{
    if input.len() <= LIMIT {
        return answer_lines(alloc, input, sink);
    }
    write_whole(sink, b"refused size\n")?;
    Ok(Status::Refused)
}

/// Reads lines of two words of hexadecimal, two Announces, and writes which of them announces the
/// better priority vector (IEEE 802.1AS-2020, 10.3.4).
///
/// For each line it writes `first`, `second` or `equal` and the 28 digits of the better one's root;
/// `refused words` where the line hasn't two words; or `refused first` or `refused second` with `hex`
/// where that word isn't hexadecimal and the number and name of [`gptp_messages::Refused`] where its
/// octets are no Announce, a fault of the first word going before one of the second. Words are what
/// spaces and tabs separate. Of an input of more than 1,048,576 octets no more than one further octet is
/// read, and the one line `refused size` is written.
///
/// The input is read whole first; then each line is answered and written before the next is looked at. The
/// answer is [`Status::Refused`] where any line was refused, or the size. Errors: [`SimError::Read`] exactly
/// where a read failed, with nothing written; [`SimError::Memory`]; [`SimError::Write`] exactly where a write
/// failed, after which nothing more is done. After these two a front of the text stands written.
pub fn compare_lines<S: Source, K: Sink>(
    alloc: Global,
    source: &mut S,
    sink: &mut K,
) -> Result<Status, SimError>
    ensures done { IfOk result (Writes CompareText (S.left source.old) (K.written sink.old) (K.written sink.new)) }
    ensures whole { OnOk result ((octets : List ℕ) × ReadsWhole size_limit (S.left source.old) (S.left source.new) octets) }
    ensures no_further { TakesAtMost (size_limit + 1) (S.left source.old) (S.left source.new) }

    // every failure of a device is told as such, and none is made up
    ensures source_works { result ≢ Err SimError.Read → S.failures source.new ≡ S.failures source.old }
    ensures sink_works { result ≢ Err SimError.Write → K.failures sink.new ≡ K.failures sink.old }
    ensures read { result ≡ Err SimError.Read → S.failures source.new ≢ S.failures source.old }
    ensures write { result ≡ Err SimError.Write → K.failures sink.new ≢ K.failures sink.old }

    // what stands written after an error
    ensures nothing { result ≡ Err SimError.Read → Keeps (K.written sink.old) (K.written sink.new) }
    ensures front { IfErr result (λ e. e ≢ SimError.Read
        → WritesSome BeginsCompare (S.left source.old) (K.written sink.old) (K.written sink.new)) }
{
    let input = read_whole(alloc, source, LIMIT)?;
    answer_input(alloc, &input, sink)
}
