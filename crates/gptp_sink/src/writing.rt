//! Writing a text whole.

ghost use Rattle.std.specs.Prelude.{◌≡◌, ◌≢◌, OnOk, OnErr};
ghost use Rattle.std.specs.Io.KnownBytes.{Appends};
ghost use Rattle.gptp_sink.specs.Sink.{AppendsFront};

use crate::sink::{Sink, WriteFailed};

/// Writes a text, by single writes one after the other.
///
/// [`WriteFailed`] is answered only where a write failed. Then some front of the text is written, which
/// isn't the whole of it.
pub fn write_whole<S: Sink>(sink: &mut S, text: &[u8]) -> Result<(), WriteFailed>
    ensures whole { OnOk result (Appends (S.written sink.old) (S.written sink.new) text.now) }
    ensures front { OnErr result (AppendsFront (S.written sink.old) (S.written sink.new) text.now) }
    ensures works { OnOk result (S.failures sink.new ≡ S.failures sink.old) }
    ensures fails { OnErr result (S.failures sink.new ≢ S.failures sink.old) }
{
    let mut start = 0;
    while start < text.len() {
        let (_, rest) = text.split_at(start);
        start += sink.write(rest)?;
    }
    Ok(())
}
