//! Devices of which each call fails in turn, for every command: a read that fails leaves nothing written, a write that
//! fails a front of the text.

use crate::run::TO_THE_END;
use crate::same::same_at;
use gptp_commands::check::check;
use gptp_commands::compare::compare_lines;
use gptp_commands::failure::{SimError, Status};
use gptp_commands::question::{Question, answer_question};
use gptp_commands::run::{RunOptions, run};
use gptp_commands::sink::{Sink, WriteFailed};
use gptp_commands::source::{ReadFailed, Source};
use gptp_commands::timeline::{TimelineOrder, timeline};
use gptp_samples::TWO;
use gptp_timeline::{Limits, TimelineOptions};
use gptp_vector::ClockId;
use std::alloc::Global;
use std::process::Abort;
use std::test::Fail;

/// How many octets a call moves at most.
const MOST: usize = 100;

/// A device over memory: so many calls pass, and every one after them fails.
#[derive(Drop)]
struct Failing<D> {
    device: D,
    calls: u64,
    failures: u64,
}

impl<D> Failing<D> {
    /// The device of which so many calls pass.
    fn after(calls: u64, device: D) -> Self {
        Failing {
            device,
            calls,
            failures: 0,
        }
    }
}

impl Source for Failing<&[u8]> {
    ghost use Rattle.std.specs.Prelude.{Some};

    ghost left = { λ source. Some source.device.now };

    ghost failures = { λ source. source.failures };

    fn read(&mut self, buffer: &mut [u8]) -> Result<usize, ReadFailed> {
        if self.calls == 0 {
            self.failures = self.failures.wrapping_add(1);
            return Err(ReadFailed);
        }
        self.calls -= 1;
        let count = MOST.min(buffer.len());
        self.device.read(&mut buffer[..count])
    }
}

impl Sink for Failing<Vec<u8>> {
    ghost use Rattle.std.specs.Prelude.{Some};

    ghost written = { λ sink. Some sink.device.items };

    ghost failures = { λ sink. sink.failures };

    fn write(&mut self, text: &[u8]) -> Result<usize, WriteFailed> {
        let count = MOST.min(text.len());
        if self.calls == 0 || self.device.extend_from_slice(&text[..count]).is_err() {
            self.failures = self.failures.wrapping_add(1);
            return Err(WriteFailed);
        }
        self.calls -= 1;
        Ok(count)
    }
}

/// Two Announces of one root, the first from the better port, and a line without words.
const ANNOUNCES: &str = "\
1b12004c00000008000000000000000000000000000000000000000100010000000000000000\
000000000000002500f6f8fe436af800000000000000010001a0000800080000000000000001 \
1b12004c00000008000000000000000000000000000000000000000100010000000000000000\
000000000000002500f6f8fe436af800000000000000010002a0000800080000000000000001

";

/// One system, which has no port.
const ONE: &str = "version = 1
[[system]]
clock = \"0000000000000001\"
ports = 0
";

/// Two systems, of which the second hears at 30.0000005 s of a better root that isn't there.
const FORGED: &str = "version = 1
[[system]]
clock = \"0000000000000001\"
[[system]]
clock = \"0000000000000002\"
phase = 1000000
[[link]]
a = \"0000000000000001\"
a_port = 1
b = \"0000000000000002\"
b_port = 1
min = 500
max = 500
[[event]]
kind = \"inject\"
at = 30000000000
clock = \"0000000000000001\"
port = 1
octets = \"1b12004000000008000000000000000000000000000000000000009900010000\
00000000000000000000000000250001f8fe436af800000000000000990000a0\"
";

/// What is asked of its run: lines of its frames until that is heard, and the certificate then.
const ALL_TOLD: RunOptions = RunOptions {
    until: Some(30_000_000_500),
    seed: 1,
    frames: true,
    certificate: true,
};

/// What is asked of the timeline: all lines up to some time, and a verdict.
const ORDER: TimelineOrder = TimelineOrder {
    until: Some(1_500_000_000),
    seed: 1,
    options: TimelineOptions {
        summary: false,
        offsets: true,
        times: true,
        limits: Limits {
            most: [
                Some(0),
                None,
                None,
                None,
                None,
                None,
                None,
                None,
                None,
                None,
                None,
                None,
                None,
            ],
        },
    },
};

/// What the two systems say once they have settled.
const CERTIFICATE: &str = "gptp-certificate 1
system 0000000000000001 root f6f8fe436af80000000000000001 steps 0 parent none
port 0000000000000001 1 master
system 0000000000000002 root f6f8fe436af80000000000000001 steps 1 parent 1 0000000000000001 1
port 0000000000000002 1 slave
end
";

/// A command, with its options.
#[derive(Clone, Copy, Debug)]
enum Command {
    Compare,
    Run,
    RunWithAll,
    Timeline,
    Check,
    Explain,
}

/// What each reads.
const COMMANDS: [(Command, &str); 7] = [
    (Command::Compare, ANNOUNCES),
    (Command::Run, ONE),
    (Command::Run, TWO),
    (Command::RunWithAll, FORGED),
    (Command::Timeline, TWO),
    (Command::Check, TWO),
    (Command::Explain, TWO),
];

/// How many calls pass: of the first source, of the second, and of the sink.
#[derive(Clone, Copy)]
struct Passing {
    reads: u64,
    others: u64,
    writes: u64,
}

/// No call fails.
const ALL: Passing = Passing {
    reads: u64::MAX,
    others: u64::MAX,
    writes: u64::MAX,
};

/// How a command ends, and what it has written then.
fn ended(
    alloc: Global,
    command: Command,
    input: &str,
    passing: Passing,
) -> (Result<Status, SimError>, Vec<u8>) {
    let mut source = Failing::after(passing.reads, input.as_bytes());
    let mut other = Failing::after(passing.others, CERTIFICATE.as_bytes());
    let mut sink = Failing::after(passing.writes, Vec::new(alloc));
    let outcome = match command {
        Command::Compare => compare_lines(alloc, &mut source, &mut sink),
        Command::Run => run(alloc, &mut source, &mut sink, &TO_THE_END),
        Command::RunWithAll => run(alloc, &mut source, &mut sink, &ALL_TOLD),
        Command::Timeline => timeline(alloc, &mut source, &mut sink, &ORDER),
        Command::Check => check(alloc, &mut source, &mut other, &mut sink, None),
        Command::Explain => {
            let question = Question::Explain {
                clock: ClockId::of_octets([0, 0, 0, 0, 0, 0, 0, 2]),
                until: None,
            };
            answer_question(alloc, &mut source, &mut sink, question)
        }
    };
    (outcome, sink.device)
}

/// The most calls that a command makes of a device.
const MOST_CALLS: u64 = 10_000;

/// Where a call fails.
#[derive(Clone, Copy, Debug)]
enum Device {
    Document,
    Certificate,
    Output,
}

/// How many calls pass where those of one device fail after some.
fn failing_at(device: Device, calls: u64) -> Passing {
    match device {
        Device::Document => Passing {
            reads: calls,
            ..ALL
        },
        Device::Certificate => Passing {
            others: calls,
            ..ALL
        },
        Device::Output => Passing {
            writes: calls,
            ..ALL
        },
    }
}

/// Whether a command makes calls of a device.
fn uses(command: Command, device: Device) -> bool {
    match (command, device) {
        (Command::Check, _) | (_, Device::Document | Device::Output) => true,
        (_, Device::Certificate) => false,
    }
}

/// Whether a text is a front of another, and not the whole.
fn is_front(text: &[u8], whole: &[u8]) -> bool {
    text.len() < whole.len() && whole.starts_with(text)
}

/// Expects what a command leaves where a call of a device fails.
fn expect(rt: &impl Abort, device: Device, error: SimError, text: &[u8], whole: &[u8]) {
    let (want, kept) = match device {
        Device::Document | Device::Certificate => (SimError::Read, text.is_empty()),
        Device::Output => (SimError::Write, is_front(text, whole)),
    };
    same_at(rt, &device, error, want);
    same_at(rt, &device, kept, true);
}

/// Each call of a device fails in turn, until none is left to fail: how many did.
fn fail_in_turn(
    rt: &impl Abort,
    alloc: Global,
    command: Command,
    input: &str,
    device: Device,
) -> u64 {
    let (status, whole) = ended(alloc, command, input, ALL);
    for calls in 0..MOST_CALLS {
        let (outcome, text) = ended(alloc, command, input, failing_at(device, calls));
        match outcome {
            Err(error) => expect(rt, device, error, text.as_slice(), whole.as_slice()),
            Ok(_) => {
                same_at(rt, &command, outcome, status);
                same_at(rt, &command, text.as_slice(), whole.as_slice());
                return calls;
            }
        }
    }
    MOST_CALLS
}

#[test]
fn a_failed_call_is_told_and_leaves_a_front(rt: HostRuntime) -> Result<(), Fail> {
    let alloc = rt.alloc();
    for (command, input) in COMMANDS {
        for device in [Device::Document, Device::Certificate, Device::Output] {
            let failed = fail_in_turn(&rt, alloc, command, input, device);
            assert!(rt; failed < MOST_CALLS);
            same_at(&rt, &(command, device), 0 < failed, uses(command, device));
        }
    }
    Ok(())
}
