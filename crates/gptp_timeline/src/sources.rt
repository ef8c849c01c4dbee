//! Sources of what systems read, and how far their times differ.

ghost use Rattle.std.specs.Prelude.{◌≡◌, ◌≤◌, ◌<◌, ◌^◌, ◌-ℤ◌, List, None, Some, OnErr, OnOk, int_lt, unsigned_abs};
ghost use Rattle.gptp_setup.specs.Intervals.{IsMoment};
ghost use Rattle.gptp_timeline.specs.Looks.{listed};
ghost use Rattle.gptp_timeline.specs.Sources.{difference_of, ends_with, further_ahead, further_behind, time_of, told_difference, wider, widest_from};
ghost use Rattle.gptp_timeline.specs.ToldSources.{AreSources, ends_among, is_told, reads_from, source_of, with_source, without_untold};
ghost use Rattle.gptp_timeline.specs.declared.readings.SystemReading.{SystemReading};

use crate::readings::{SystemReading, TimeSource, clock_time, told_by};
use gptp_links::Fate;
use gptp_scaled::ScaledNs;
use gptp_vector::ClockId;
use gptp_world::World;
use std::alloc::AllocError;
use std::marker::Model;

/// A source that is told.
#[derive(Clone, Copy, Debug)]
pub struct SourceTime {
    /// The source.
    pub source: TimeSource,
    /// What its clock shows.
    pub shown: ScaledNs,
}

/// The sources whose times are the greatest and the least of several.
#[derive(Clone, Copy, Debug)]
pub struct Ends {
    /// That whose time is the greatest.
    pub ahead: SourceTime,
    /// That whose time is the least.
    pub behind: SourceTime,
}

/// How far the times of two sources differ.
#[derive(Clone, Copy, Debug)]
pub struct Difference {
    amount: u128,
    ahead: ClockId,
    behind: ClockId,
}

impl Model for Difference {
    ghost use Rattle.gptp_timeline.specs.Sources.{DifferenceState, IsSmallDifference};

    ghost Value = { DifferenceState };

    ghost view = { λ d. record { amount = d.amount; ahead = d.ahead; behind = d.behind } };

    ghost invariant = { λ d. IsSmallDifference
        (record { amount = d.amount; ahead = d.ahead; behind = d.behind }) };

    ghost inverse = { λ d. record { amount = d.amount; ahead = d.ahead; behind = d.behind } };
}

impl Difference {
    ghost use Rattle.std.specs.Prelude.{◌≡◌, ◌<◌, ◌^◌};

    /// By how much the times differ, in units of 2^-16 ns.
    pub fn amount(self) -> u128
        ensures is { result ≡ self.amount }
        ensures small { result ≤ 2 ^ 97 }
    {
        self.amount
    }

    /// The source whose time is the greater.
    pub fn ahead(self) -> ClockId
        ensures { result ≡ self.ahead }
    {
        self.ahead
    }

    /// The source whose time is the less.
    pub fn behind(self) -> ClockId
        ensures { result ≡ self.behind }
    {
        self.behind
    }
}

/// The time of a source, in units of 2^-16 ns.
fn time_of(one: &SourceTime) -> i128
    ensures is { result ≡ time_of one.now }
    ensures small { unsigned_abs result ≤ 2 ^ 96 }
{
    told_by(one.shown, one.source.base)
}

/// Whether the time of a source is the less.
fn is_less(a: &SourceTime, b: &SourceTime) -> bool
    ensures { result ≡ int_lt (time_of a.now) (time_of b.now) }
{
    time_of(a) < time_of(b)
}

/// Of two sources that whose time is the greater, of equal times that with the lower clock.
fn further_ahead(best: &SourceTime, one: &SourceTime) -> SourceTime
    ensures { result ≡ further_ahead best.now one.now }
{
    if is_less(best, one) {
        *one
    } else if is_less(one, best) {
        *best
    } else if one.source.clock < best.source.clock {
        *one
    } else {
        *best
    }
}

/// Of two sources that whose time is the less, of equal times that with the lower clock.
fn further_behind(best: &SourceTime, one: &SourceTime) -> SourceTime
    ensures { result ≡ further_behind best.now one.now }
{
    if is_less(one, best) {
        *one
    } else if is_less(best, one) {
        *best
    } else if one.source.clock < best.source.clock {
        *one
    } else {
        *best
    }
}

/// The ends with one source more, if it is there.
fn ends_with(ends: Option<Ends>, one: Option<SourceTime>) -> Option<Ends>
    ensures { result ≡ ends_with ends one }
{
    match one {
        Some(one) => match ends {
            Some(ends) => Some(Ends {
                ahead: further_ahead(&ends.ahead, &one),
                behind: further_behind(&ends.behind, &one),
            }),
            None => Some(Ends {
                ahead: one,
                behind: one,
            }),
        },
        None => ends,
    }
}

/// A source with its time, if it has one.
fn source_of<F: Fate + Drop>(world: &World<F>, at: u64, source: TimeSource) -> Option<SourceTime>
    requires { IsMoment at }
    ensures { result ≡ source_of at world.now.world_core source }
{
    match clock_time(world, source.clock, at) {
        Some(shown) => Some(SourceTime { source, shown }),
        None => None,
    }
}

/// The ends of several sources.
fn ends_of<F: Fate + Drop>(world: &World<F>, at: u64, sources: &[TimeSource]) -> Option<Ends>
    requires { IsMoment at }
    ensures { result ≡ ends_among at world.now.world_core None sources.now }
{
    let mut ends = None;
    for source in sources {
        ends = ends_with(ends, source_of(world, at, *source));
    }
    ends
}

/// How far two times differ, in units of 2^-16 ns.
fn apart(a: i128, b: i128) -> u128
    requires a { unsigned_abs a ≤ 2 ^ 96 }
    requires b { unsigned_abs b ≤ 2 ^ 96 }
    ensures is { result ≡ unsigned_abs (a -ℤ b) }
    ensures small { result ≤ 2 ^ 97 }
{
    a.abs_diff(b)
}

/// How far the ends differ; none where they don't.
fn difference_between(ends: &Ends) -> Option<Difference>
    ensures { result ≡ difference_of (Some ends.now) }
{
    let amount = apart(time_of(&ends.ahead), time_of(&ends.behind));
    if amount == 0 {
        return None;
    }
    Some(Difference {
        amount,
        ahead: ends.ahead.source.clock,
        behind: ends.behind.source.clock,
    })
}

/// How far the ends differ; none where there are none, or they don't.
fn difference_of(ends: Option<Ends>) -> Option<Difference>
    ensures { result ≡ difference_of ends }
{
    match ends {
        Some(ends) => difference_between(&ends),
        None => None,
    }
}

/// The greatest difference of the times of two of these sources, which are told at a time.
pub(crate) fn told_difference<F: Fate + Drop>(
    world: &World<F>,
    at: u64,
    sources: &[TimeSource],
) -> Option<Difference>
    requires { IsMoment at }
    ensures { (rs : List SystemReading) → AreSources sources.now rs
        → result ≡ told_difference at world.now.world_core rs }
{
    difference_of(ends_of(world, at, sources))
}

/// Whether a system reads from a source.
fn reads_from(system: &SystemReading, source: &TimeSource) -> bool
    ensures { result ≡ reads_from source.now system.now }
{
    match &system.reading {
        Some(kept) => kept.source == *source,
        None => false,
    }
}

/// Whether a source is told: whether some system reads from it.
fn is_told(systems: &[SystemReading], source: &TimeSource) -> bool
    ensures { result ≡ is_told source.now systems.now }
{
    for system in systems {
        if reads_from(system, source) {
            return true;
        }
    }
    false
}

/// A source is one of several from then on.
pub(crate) fn add_source(
    sources: &mut Vec<TimeSource>,
    source: TimeSource,
) -> Result<(), AllocError>
    ensures added { OnOk result (sources.new.items ≡ with_source source sources.old.items) }
    ensures same { OnErr result (sources.new.items ≡ sources.old.items) }
{
    if sources.contains(&source) {
        return Ok(());
    }
    sources.push(source)?;
    Ok(())
}

/// A source is one of several no more, unless it is told.
pub(crate) fn drop_untold(
    sources: &mut Vec<TimeSource>,
    systems: &[SystemReading],
    source: TimeSource,
)
    ensures { sources.new.items ≡ without_untold source systems.now sources.old.items }
{
    if is_told(systems, &source) {
        return;
    }
    sources.retain(|other| *other != source);
}

/// A difference, where it is greater than the greatest so far.
fn wider(best: Option<Difference>, one: Difference) -> Option<Difference>
    ensures { result ≡ wider best one }
{
    match best {
        Some(best) if one.amount() <= best.amount() => Some(best),
        _ => Some(one),
    }
}

/// The greatest so far and another, if there is another.
pub(crate) fn wider_if(best: Option<Difference>, one: Option<Difference>) -> Option<Difference>
    ensures { result ≡ widest_from best (listed one) }
{
    match one {
        Some(one) => wider(best, one),
        None => best,
    }
}
