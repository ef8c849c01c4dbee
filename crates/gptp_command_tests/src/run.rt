//! Runs over memory that are compared, or of which a part is looked for.

ghost use Rattle.std.specs.Prelude.{◌≢◌, IfSome};
ghost use Rattle.gptp_setup.specs.Intervals.{IsMoment};

use crate::same::{same, same_at};
use gptp_commands::failure::{SimError, Status};
use gptp_commands::run::{RunOptions, run};
use gptp_commands::sink::CountedWriter;
use gptp_samples::TWO;
use std::alloc::Global;
use std::test::Fail;

/// What is asked of most runs.
pub const TO_THE_END: RunOptions = RunOptions {
    until: None,
    seed: 1,
    frames: false,
    certificate: false,
};

/// What `run` writes for a document, and its status. No read of memory fails.
pub fn ran(
    alloc: Global,
    document: &[u8],
    options: &RunOptions,
) -> Result<(Vec<u8>, Status), SimError>
    requires { IfSome options.now.until (λ until. IsMoment until) }
    ensures { result ≢ Err SimError.Read }
{
    let mut written = Vec::new(alloc);
    let mut source = document;
    let mut sink = CountedWriter::new(&mut written);
    let status = run(alloc, &mut source, &mut sink, options)?;
    Ok((written, status))
}

/// Every frame is told, up to two seconds.
const ALL_FRAMES: RunOptions = RunOptions {
    until: Some(2_000_000_000),
    seed: 1,
    frames: true,
    certificate: false,
};

/// Two systems with a link between them. The port of the first announces each two seconds.
const SLOWER_FIRST: &str = "version = 2
[[system]]
clock = \"0000000000000001\"
announce = [1]
[[system]]
clock = \"0000000000000002\"
phase = 1000000
[[link]]
a = \"0000000000000001\"
a_port = 1
b = \"0000000000000002\"
b_port = 1
min = 500
max = 500
";

/// Whether a line of a run tells of an Announce with these octets.
fn tells_announce(text: &str, octets: &str) -> bool {
    let mut told = false;
    for line in text.lines() {
        told |= line.contains(" announce ") && line.contains(octets);
    }
    told
}

/// Source port, sequence and control of the first Announce of each system, with the logarithm of an interval after.
#[test]
fn announces_name_the_interval_of_their_port(rt: HostRuntime) -> Result<(), Fail> {
    let alloc = rt.alloc();
    let (text, _) = ran(alloc, SLOWER_FIRST.as_bytes(), &ALL_FRAMES)?;
    let text = str::from_utf8(text.as_slice())?;
    for (octets, is_told) in [
        ("0000000000000001000100000001", true),
        ("0000000000000001000100000000", false),
        ("0000000000000002000100000000", true),
    ] {
        same_at(&rt, &octets, tells_announce(text, octets), is_told);
    }
    Ok(())
}

/// A syncReceiptTimeout of none is that of a document that gives none.
#[test]
fn no_timeout_is_the_absent_key(rt: HostRuntime) -> Result<(), Fail> {
    let alloc = rt.alloc();
    let document = format!(in alloc; "{TWO}[network]\nsync_timeout = 0\n")?;
    let (absent, _) = ran(alloc, TWO.as_bytes(), &ALL_FRAMES)?;
    let (none, status) = ran(alloc, document.as_bytes(), &ALL_FRAMES)?;
    same(&rt, none.as_slice(), absent.as_slice());
    same(&rt, status, Status::Done);
    Ok(())
}
