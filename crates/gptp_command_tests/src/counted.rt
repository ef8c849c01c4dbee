//! Devices that count their calls, of which one fails, and a sink that counts the lines of a call.

use crate::same::{same, same_at};
use gptp_commands::compare::compare_lines;
use gptp_commands::failure::{SimError, Status};
use gptp_commands::run::{RunOptions, run};
use gptp_commands::sink::{CountedWriter, Sink, WriteFailed};
use gptp_commands::source::CountedReader;
use gptp_samples::TWO;
use std::io::{self, Read, Write};
use std::test::Fail;

/// The first Announce of the system with clock 1, its own root, at port 1.
const ANNOUNCE: &str = "\
1b12004c00000008000000000000000000000000000000000000000100010000000000000000\
000000000000002500f6f8fe436af800000000000000010000a0000800080000000000000001";

/// A device of which one call fails. Every other call moves at most `most` octets.
#[derive(Drop)]
struct FailsOnce<D> {
    device: D,
    calls_before: u64,
    most: usize,
}

impl<D: Read> Read for FailsOnce<D> {
    fn read(&mut self, buffer: &mut [u8]) -> io::Result<usize> {
        if self.calls_before == 0 {
            return Err(io::Error::from(io::ErrorKind::Other));
        }
        self.calls_before -= 1;
        let length = self.most.min(buffer.len());
        self.device.read(&mut buffer[..length])
    }
}

impl<D: Write> Write for FailsOnce<D> {
    fn write(&mut self, text: &[u8]) -> io::Result<usize> {
        if self.calls_before == 0 {
            return Ok(0);
        }
        self.calls_before -= 1;
        let length = self.most.min(text.len());
        self.device.write(&text[..length])
    }

    fn flush(&mut self) -> io::Result<()> {
        self.device.flush()
    }
}

/// 306 octets by 20 take 16 reads, and one more finds the end.
const READS: u64 = 17;

#[test]
fn read_fails_with_nothing_written(rt: HostRuntime) -> Result<(), Fail> {
    let alloc = rt.alloc();
    let line = format!(in alloc; "{ANNOUNCE} {ANNOUNCE}\n")?;
    for calls_before in 0..=READS {
        let mut written = Vec::new(alloc);
        let device = FailsOnce {
            device: line.as_bytes(),
            calls_before,
            most: 20,
        };
        let mut source = CountedReader::new(device);
        let mut sink = CountedWriter::new(&mut written);
        let outcome = compare_lines(alloc, &mut source, &mut sink);
        let (want, length) = if calls_before < READS {
            (Err(SimError::Read), 0)
        } else {
            (Ok(Status::Done), 35)
        };
        same_at(&rt, &calls_before, outcome, want);
        same_at(&rt, &calls_before, written.len(), length);
    }
    Ok(())
}

/// How much of two lines, of 35 and of 14 octets, is written by so many calls of 10 octets.
const FRONTS: [(u64, usize); 7] = [(0, 0), (1, 10), (2, 20), (3, 30), (4, 35), (5, 45), (6, 49)];

#[test]
fn write_fails_with_a_front_written(rt: HostRuntime) -> Result<(), Fail> {
    let alloc = rt.alloc();
    let line = format!(in alloc; "{ANNOUNCE} {ANNOUNCE}\n\n")?;
    let text = b"equal f6f8fe436af80000000000000001\nrefused words\n";
    for (calls_before, length) in FRONTS {
        let mut written = Vec::new(alloc);
        let device = FailsOnce {
            device: &mut written,
            calls_before,
            most: 10,
        };
        let mut source = line.as_bytes();
        let mut sink = CountedWriter::new(device);
        let outcome = compare_lines(alloc, &mut source, &mut sink);
        let want = if length < text.len() {
            Err(SimError::Write)
        } else {
            Ok(Status::Refused)
        };
        same_at(&rt, &calls_before, outcome, want);
        same_at(
            &rt,
            &calls_before,
            Some(written.as_slice()),
            text.get(..length),
        );
    }
    Ok(())
}

/// A sink that keeps nothing but how many lines it was given, and the most by one call.
#[derive(Drop)]
struct Lines {
    all: usize,
    most: usize,
}

impl Sink for Lines {
    ghost use Rattle.std.specs.Prelude.{None};

    ghost written = { λ _. None };

    ghost failures = { λ _. 0 };

    fn write(&mut self, text: &[u8]) -> Result<usize, WriteFailed> {
        let lines = text.iter().filter(|octet| **octet == b'\n').count();
        self.all = self.all.saturating_add(lines);
        self.most = self.most.max(lines);
        Ok(text.len())
    }
}

/// Each line of a frame is written by a call of its own, and the six lines of the report by one: no text is held that
/// grows with the run.
#[test]
fn a_run_is_written_line_by_line(rt: HostRuntime) -> Result<(), Fail> {
    let options = RunOptions {
        until: Some(26_000_000_000),
        seed: 1,
        frames: true,
        certificate: false,
    };
    let mut source = TWO.as_bytes();
    let mut sink = Lines { all: 0, most: 0 };
    let status = run(rt.alloc(), &mut source, &mut sink, &options)?;
    same(&rt, (status, sink.most), (Status::Done, 6));
    assert!(rt; 500 < sink.all);
    Ok(())
}
