//! A sink for what nobody reads.

use gptp_report::sink::{Sink, WriteFailed};

/// A sink that keeps nothing of what it takes.
#[derive(Clone, Copy, Debug)]
pub(crate) struct NullSink;

impl Sink for NullSink {
    ghost use Rattle.std.specs.Prelude.{None};

    ghost written = { λ _. None };

    ghost failures = { λ _. 0 };

    fn write(&mut self, text: &[u8]) -> Result<usize, WriteFailed> {
        Ok(text.len())
    }
}
