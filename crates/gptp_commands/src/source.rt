//! What commands read from: devices that tell the octets that are left and count their failures.

ghost use Rattle.std.specs.Prelude.{◌≡◌, ◌≢◌, ℕ, List, Option, OnOk, OnErr};
ghost use Rattle.std.specs.Io.{ReadsAtMost};
ghost use Rattle.std.specs.Io.KnownBytes.{ReadConsumes};

use std::io::Read;

/// A read failed.
#[derive(Clone, Copy, Debug, PartialEq, Eq)]
pub struct ReadFailed;

/// A device that gives octets.
pub trait Source {
    // the octets that are left, where they are known
    ghost left: { Self → Option (List ℕ) };

    // a count that every failed read changes
    ghost failures: { Self → ℕ };

    /// Reads some octets into the front of the buffer and answers how many: none only where none is
    /// left or the buffer is empty. A read that fails takes none.
    fn read(&mut self, buffer: &mut [u8]) -> Result<usize, ReadFailed>
        ensures bound { ReadsAtMost result buffer.new }
        ensures octets { ReadConsumes (left self.old) (left self.new) result buffer.new }
        ensures works { OnOk result (failures self.new ≡ failures self.old) }
        ensures fails { OnErr result (failures self.new ≢ failures self.old) };
}

/// A reader as a source: every error that it answers is a failure.
#[derive(Drop)]
pub struct CountedReader<R> {
    reader: R,
    failures: u64,
}

impl<R: Read> CountedReader<R> {
    ghost use Rattle.gptp_commands.specs.Source.{source_of};

    /// The source that reads from `reader`, with no failure so far.
    pub fn new(reader: R) -> Self
        ensures { result ≡ source_of reader }
    {
        CountedReader {
            reader,
            failures: 0,
        }
    }
}

impl<R: Read> Source for CountedReader<R> {
    ghost left = { λ source. R.remaining source.reader };

    ghost failures = { λ source. source.failures };

    fn read(&mut self, buffer: &mut [u8]) -> Result<usize, ReadFailed> {
        match self.reader.read(buffer) {
            Ok(count) => Ok(count),
            Err(_) => {
                self.failures = self.failures.wrapping_add(1);
                Err(ReadFailed)
            }
        }
    }
}

/// Memory as a source: the octets that are left of it. It never fails.
impl Source for &[u8] {
    ghost use Rattle.std.specs.Prelude.{Some};

    ghost left = { λ octets. Some octets.now };

    ghost failures = { λ octets. 0 };

    fn read(&mut self, buffer: &mut [u8]) -> Result<usize, ReadFailed> {
        Ok(Read::read(self, buffer).unwrap())
    }
}
