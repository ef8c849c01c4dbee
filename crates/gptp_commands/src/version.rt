//! `gptp_sim --version`: which version of the program this is.

ghost use Rattle.std.specs.Prelude.{◌≡◌, ◌≢◌, IfErr, IfOk, OnErr, OnOk, bytes_eq, codes, map, string_bytes, true};
ghost use Rattle.std.specs.Io.KnownBytes.{Appends};
ghost use Rattle.gptp_sink.specs.Sink.{AppendsFront};
ghost use Rattle.gptp_commands.specs.Version.{AsksVersion, version_text};

use crate::failure::{SimError, Status};
use gptp_report::sink::Sink;
use gptp_report::write_whole;

/// The line that says it. The first of its numbers changes where a text that a command writes, or a promise, is another
/// or gone; the second where one comes that wasn't there; the third where neither does.
const LINE: &str = "gptp_sim 4.11.0\n";

/// Whether a word is that which asks for it.
fn is_flag(word: &str) -> bool
    ensures { result ≡ bytes_eq word.now (codes "--version") }
{
    match word {
        "--version" => true,
        _ => false,
    }
}

/// Whether the words of a command line, the program's name first, ask for the version and nothing else.
pub(crate) fn is_version(words: &[String]) -> bool
    ensures asks { result ≡ true → AsksVersion (map string_bytes words.now) }
    ensures asked { AsksVersion (map string_bytes words.now) → result ≡ true }
{
    match words {
        [_, word] => is_flag(word.as_str()),
        _ => false,
    }
}

/// Writes the version. The only error is [`SimError::Write`], exactly where a write failed, with a front of the text
/// written.
pub fn tell_version<K: Sink>(sink: &mut K) -> Result<Status, SimError>
    ensures done { IfOk result (λ status. status ≡ Status.Done) }
    ensures whole { OnOk result (Appends (K.written sink.old) (K.written sink.new) version_text) }
    ensures write { IfErr result (λ e. e ≡ SimError.Write) }
    ensures front { OnErr result (AppendsFront (K.written sink.old) (K.written sink.new) version_text) }
    ensures works { OnOk result (K.failures sink.new ≡ K.failures sink.old) }
    ensures fails { OnErr result (K.failures sink.new ≢ K.failures sink.old) }
{
    write_whole(sink, LINE.as_bytes())?;
    Ok(Status::Done)
}
