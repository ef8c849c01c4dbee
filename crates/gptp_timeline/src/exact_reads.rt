//! What systems read from their first receipts on that count by themselves.

ghost use Rattle.std.specs.Prelude.{◌≡◌, map, option_map, unsigned_abs};
ghost use Rattle.gptp_timeline.specs.ExactReads.{counts_new, greater_of, later_of, reads_among, reads_ended, reads_jump, reads_next, without_reads};
ghost use Rattle.gptp_timeline.specs.TimeWatch.{ReadsRise};

use crate::readings::{Jump, NewReading};
use gptp_vector::ClockId;

/// What is kept of what a system reads from its first receipt on that counts by itself.
#[derive(Clone, Copy, Debug)]
pub struct ExactReads {
    /// When its last receipt was, in ns.
    pub last: u64,
    /// The longest time from one of them to the next, in ns.
    pub longest: u64,
    /// The greatest absolute error that was looked at, in units of 2^-16 ns.
    pub worst: Option<u128>,
}

/// That of the system with a clock; nothing before there was such a receipt.
#[derive(Clone, Copy, Debug)]
pub struct SystemReads {
    /// Its clock.
    pub clock: ClockId,
    /// What is kept.
    pub reads: Option<ExactReads>,
}

/// The greater of two amounts that may be absent.
fn greater_of(a: Option<u128>, b: Option<u128>) -> Option<u128>
    ensures { result ≡ greater_of a b }
{
    match (a, b) {
        (Some(a), Some(b)) if a < b => Some(b),
        (None, Some(b)) => Some(b),
        (a, _) => a,
    }
}

/// The greater of two times.
fn later_of(a: u64, b: u64) -> u64
    ensures { result ≡ later_of a b }
{
    if a < b { b } else { a }
}

/// An error without its sign.
pub(crate) fn amount_of(error: Option<i128>) -> Option<u128>
    ensures { result ≡ option_map unsigned_abs error }
{
    match error {
        Some(error) => Some(error.unsigned_abs()),
        None => None,
    }
}

/// What is kept after a reading that a system got at a time, with the errors by the one before and by the new one:
/// of a receipt that counts, or of another reading.
fn reads_next(
    counts: bool,
    at: u64,
    before: Option<u128>,
    after: Option<u128>,
    reads: Option<ExactReads>,
) -> Option<ExactReads>
    ensures { result ≡ reads_next counts at before after reads }
{
    match reads {
        None => match counts {
            true => Some(ExactReads {
                last: at,
                longest: 0,
                worst: after,
            }),
            false => None,
        },
        Some(reads) => {
            let worst = greater_of(greater_of(reads.worst, before), after);
            match counts {
                true => Some(ExactReads {
                    last: at,
                    longest: later_of(reads.longest, at.saturating_sub(reads.last)),
                    worst,
                }),
                false => Some(ExactReads {
                    last: reads.last,
                    longest: reads.longest,
                    worst,
                }),
            }
        }
    }
}

/// Whether a reading comes by a receipt that counts by itself.
fn counts_new(from: Option<u64>, at: u64, new: &NewReading) -> bool
    ensures { result ≡ counts_new from at new.now }
{
    match from {
        Some(from) => new.received && from <= at,
        None => false,
    }
}

/// What is kept of a system after a reading that it got, by its jump.
fn reads_after(
    from: Option<u64>,
    at: u64,
    new: &NewReading,
    jump: &Jump,
    reads: Option<ExactReads>,
) -> Option<ExactReads>
    ensures { result ≡ reads_next (counts_new from at new.now) at (option_map unsigned_abs jump.now.before)
        (option_map unsigned_abs jump.now.after) reads }
{
    reads_next(
        counts_new(from, at, new),
        at,
        amount_of(jump.before),
        amount_of(jump.after),
        reads,
    )
}

/// Takes up a reading that a system got, by its jump.
pub(crate) fn take_reads(
    systems: &mut Vec<SystemReads>,
    from: Option<u64>,
    at: u64,
    new: &NewReading,
    jump: &Jump,
)
    requires { ReadsRise systems.old.items }
    ensures { systems.new.items ≡ map (reads_jump from at new.now jump.now) systems.old.items }
{
    let clock = new.clock;
    match systems.binary_search_by_key(&clock, |system| system.clock) {
        Ok(place) => {
            let reads = systems[place].reads;
            systems[place].reads = reads_after(from, at, new, jump, reads);
        }
        Err(_) => {}
    }
}

/// Nothing is kept of any system.
pub(crate) fn clear_reads(systems: &mut Vec<SystemReads>)
    ensures { systems.new.items ≡ map without_reads systems.old.items }
{
    for place in 0..systems.len() {
        systems[place].reads = None;
    }
}

/// What is kept of the system with a clock.
pub(crate) fn reads_among(systems: &[SystemReads], clock: ClockId) -> Option<ExactReads>
    requires { ReadsRise systems.now }
    ensures { result ≡ reads_among systems.now clock }
{
    match systems.binary_search_by_key(&clock, |system| system.clock) {
        Ok(place) => systems[place].reads,
        Err(_) => None,
    }
}

/// What is kept where a stretch ends and the system is off by that.
pub(crate) fn reads_ended(to: u64, error: Option<u128>, reads: ExactReads) -> ExactReads
    ensures { result ≡ reads_ended to error reads }
{
    ExactReads {
        last: reads.last,
        longest: later_of(reads.longest, to.saturating_sub(reads.last)),
        worst: greater_of(reads.worst, error),
    }
}
