//! What commands write to: devices that tell the octets that were written and count their failures.

ghost use Rattle.std.specs.Prelude.{◌≡◌, ◌≢◌, ◌<◌, ◌≤◌, ℕ, List, Option, length, IfOk, OnOk, OnErr};
ghost use Rattle.std.specs.Io.KnownBytes.{WriteAppends};

use std::io::Write;

/// A write failed.
#[derive(Clone, Copy, Debug, PartialEq, Eq)]
pub struct WriteFailed;

/// A device that takes octets.
pub trait Sink {
    // the octets that were written, where they are known
    ghost written: { Self → Option (List ℕ) };

    // a count that every failed write changes
    ghost failures: { Self → ℕ };

    /// Writes some octets from the front of a text that isn't empty and answers how many, at least
    /// one. A write that fails writes none.
    fn write(&mut self, text: &[u8]) -> Result<usize, WriteFailed>
        requires { 0 < length text.now }
        ensures some { IfOk result (λ count. 0 < count) }
        ensures bound { IfOk result (λ count. count ≤ length text.now) }
        ensures octets { WriteAppends (written self.old) (written self.new) result text.now }
        ensures works { OnOk result (failures self.new ≡ failures self.old) }
        ensures fails { OnErr result (failures self.new ≢ failures self.old) };
}

/// A writer as a sink: every error that it answers is a failure, and so is a write that takes nothing.
#[derive(Drop)]
pub struct CountedWriter<W> {
    writer: W,
    failures: u64,
}

impl<W: Write> CountedWriter<W> {
    ghost use Rattle.gptp_sink.specs.Sink.{sink_of};

    /// The sink that writes to `writer`, with no failure so far.
    pub fn new(writer: W) -> Self
        ensures { result ≡ sink_of writer }
    {
        CountedWriter {
            writer,
            failures: 0,
        }
    }

    /// The writer.
    pub fn into_inner(self) -> W
        ensures { result ≡ self.writer }
    {
        let CountedWriter {
            writer,
            failures: _,
        } = self;
        writer
    }
}

impl<W: Write> Sink for CountedWriter<W> {
    ghost written = { λ sink. W.contents sink.writer };

    ghost failures = { λ sink. sink.failures };

    fn write(&mut self, text: &[u8]) -> Result<usize, WriteFailed> {
        match self.writer.write(text) {
            Ok(count) if count > 0 => Ok(count),
            _ => {
                self.failures = self.failures.wrapping_add(1);
                Err(WriteFailed)
            }
        }
    }
}
