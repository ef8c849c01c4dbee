//! The greatest of several stretches.

ghost use Rattle.std.specs.Prelude.{◌≡◌, ◌<◌, ◌^◌, IfSome, None, Some};
ghost use Rattle.std.specs.Option.{option_or};
ghost use Rattle.gptp_faults.specs.Extremes.{behind, bounds_of, changed_in, changed_since, counted_before, first_asked, further, greater_counts, greater_if, greatest_of_two, later_bounds, of_back, of_down, of_one, taken_as_one, times_by, times_measured, times_of_two, times_taken, with_parts};

use gptp_how_soon::Settling;
use gptp_timeline::{Counts, Difference, Greatest, Stretch, TimeMeasures, amount_of, better_if};

/// How far apart systems read in a stretch.
#[derive(Clone, Copy, Debug)]
pub(crate) struct Apart {
    /// How far, in units of 2^-16 ns.
    pub amount: u128,
    /// The two sources that were told at once whose times differ the most, where any do.
    pub sources: Option<Difference>,
}

/// The greatest of several stretches of what systems read, of each amount by itself.
#[derive(Clone, Copy, Debug)]
pub(crate) struct TimeExtremes {
    /// How far off a system reads, in units of 2^-16 ns.
    pub time: Option<Greatest>,
    /// How far apart two systems read.
    pub apart: Apart,
    /// By how much what a system reads jumps, in units of 2^-16 ns.
    pub step: Option<Greatest>,
    /// How long after its begin a system changed its source last, in ns.
    pub first: Option<Greatest>,
    /// What a limit asks of that, in ns: all of its length where a system is astray at its end.
    pub first_asked: Option<u128>,
}

/// How soon the choice and the roles stand at most.
#[derive(Clone, Copy, Debug)]
pub(crate) struct HowSoon {
    /// The choice, in ns after the begin of the stretch.
    pub choice: u128,
    /// The roles, in ns after that too.
    pub roles: u128,
}

/// The greatest of several stretches, of each amount by itself.
#[derive(Clone, Copy, Debug)]
pub(crate) struct Extremes {
    /// How long the choice took to stand, in ns.
    pub choice: Option<u128>,
    /// The longest wait, in ns.
    pub holdover: Option<Greatest>,
    /// The greatest absolute error, in units of 2^-16 ns.
    pub error: Option<Greatest>,
    /// What was counted where stretches ended.
    pub counts: Counts,
    /// How many systems were cut off.
    pub cut: u64,
    /// How many of the others were without the time that most of their part share, where stretches ended.
    pub astray: u64,
    /// How soon the choice and the roles stand at most; none where one has no such bounds.
    pub bounds: Option<HowSoon>,
    /// What systems read, where that is asked.
    pub times: TimeExtremes,
}

/// Nothing is read.
const NOTHING_READ: TimeExtremes = TimeExtremes {
    time: None,
    apart: Apart {
        amount: 0,
        sources: None,
    },
    step: None,
    first: None,
    first_asked: None,
};

/// Those of no stretch.
pub(crate) const OF_NONE: Extremes = Extremes {
    choice: None,
    holdover: None,
    error: None,
    counts: Counts {
        without: 0,
        roots: 0,
        alone: 0,
    },
    cut: 0,
    astray: 0,
    bounds: Some(HowSoon {
        choice: 0,
        roles: 0,
    }),
    times: NOTHING_READ,
};

/// How long after a time a system changed its source last.
fn changed_since(from: u64, changed: Option<Greatest>) -> Option<Greatest>
    ensures { result ≡ changed_since from changed }
{
    match changed {
        Some(changed) => Some(Greatest {
            amount: changed.amount.saturating_sub(u128::from(from)),
            clock: changed.clock,
        }),
        None => None,
    }
}

/// Those of a stretch of which this was measured.
fn times_measured(stretch: &Stretch, measures: &TimeMeasures) -> TimeExtremes
    ensures { result ≡ times_measured stretch.now measures.now }
{
    TimeExtremes {
        time: measures.time,
        apart: Apart {
            amount: measures.apart(),
            sources: measures.sources,
        },
        step: measures.step,
        first: changed_since(stretch.from, measures.changed),
        first_asked: None,
    }
}

/// Those of a stretch, where it was asked what systems read in it.
fn times_of(stretch: &Stretch) -> TimeExtremes
    ensures { result ≡ times_by stretch.now stretch.now.times }
{
    match stretch.times {
        Some(measures) => times_measured(stretch, &measures),
        None => NOTHING_READ,
    }
}

/// How soon the choice and the roles stand at most, of all that is told of a time.
fn bounds_of(settling: Option<Settling>) -> Option<HowSoon>
    ensures is { result ≡ bounds_of settling }
    ensures bound { IfSome result (λ b. (b.choice < 2 ^ 64) × (b.roles < 2 ^ 64)) }
{
    match settling {
        Some(settling) => Some(HowSoon {
            choice: u128::from(settling.choice),
            roles: u128::from(settling.roles),
        }),
        None => None,
    }
}

/// Those of one in which nobody is cut off or astray.
fn of_one(stretch: &Stretch) -> Extremes
    ensures { result ≡ of_one stretch.now }
{
    Extremes {
        choice: stretch.choice_after(),
        holdover: stretch.measures.holdover,
        error: stretch.measures.error,
        counts: stretch.counts,
        cut: 0,
        astray: 0,
        bounds: bounds_of(stretch.settling),
        times: times_of(stretch),
    }
}

/// The later of two times, if the second is there, and else the first.
fn last_of(first: Option<u64>, second: Option<u64>) -> Option<u64>
    ensures { result ≡ option_or second first }
{
    match second {
        Some(_) => second,
        None => first,
    }
}

/// How long a time is after another, in ns.
fn behind(from: u64, time: Option<u64>) -> Option<u128>
    ensures { result ≡ behind from time }
{
    match time {
        Some(time) => Some(u128::from(time.saturating_sub(from))),
        None => None,
    }
}

/// Bounds that count from so much earlier on.
fn counted_before(wait: u64, bounds: Option<HowSoon>) -> Option<HowSoon>
    requires { IfSome bounds (λ b. (b.choice < 2 ^ 64) × (b.roles < 2 ^ 64)) }
    ensures { result ≡ counted_before wait bounds }
{
    match bounds {
        Some(bounds) => Some(HowSoon {
            choice: u128::from(wait) + bounds.choice,
            roles: u128::from(wait) + bounds.roles,
        }),
        None => None,
    }
}

/// When a system changed its source last in a stretch, if it is asked what systems read.
fn changed_in(stretch: &Stretch) -> Option<Greatest>
    ensures { result ≡ changed_in stretch.now }
{
    match stretch.times {
        Some(measures) => measures.changed,
        None => None,
    }
}

/// What systems read in two stretches that are taken as one.
fn times_taken(first: &Stretch, second: &Stretch) -> TimeExtremes
    ensures { result ≡ times_taken first.now second.now }
{
    let a = times_of(first);
    let b = times_of(second);
    TimeExtremes {
        time: better_if(a.time, b.time),
        apart: further(a.apart, b.apart),
        step: better_if(a.step, b.step),
        first: changed_since(
            first.from,
            changed_or(changed_in(first), changed_in(second)),
        ),
        first_asked: None,
    }
}

/// The second, where it is there, and else the first.
fn changed_or(first: Option<Greatest>, second: Option<Greatest>) -> Option<Greatest>
    ensures { result ≡ option_or second first }
{
    match second {
        Some(_) => second,
        None => first,
    }
}

/// Those of two stretches that follow each other, taken as one in which nobody is cut off or astray.
fn taken_as_one(first: &Stretch, second: &Stretch) -> Extremes
    ensures { result ≡ taken_as_one first.now second.now }
{
    Extremes {
        choice: behind(
            first.from,
            last_of(first.measures.choice, second.measures.choice),
        ),
        holdover: better_if(first.measures.holdover, second.measures.holdover),
        error: better_if(first.measures.error, second.measures.error),
        counts: second.counts,
        cut: 0,
        astray: 0,
        bounds: counted_before(
            second.from.saturating_sub(first.from),
            bounds_of(second.settling),
        ),
        times: times_taken(first, second),
    }
}

/// What a limit asks of a change of source, where so many are astray where so long a stretch ends.
fn first_asked(astray: u64, length: u64, first: Option<Greatest>) -> Option<u128>
    ensures { result ≡ first_asked astray length first }
{
    if astray != 0 {
        return Some(u128::from(length));
    }
    amount_of(first)
}

/// Those where so many are cut off and astray where so long a stretch ends.
fn with_parts(extremes: Extremes, cut: u64, astray: u64, length: u64) -> Extremes
    ensures { result ≡ with_parts extremes cut astray length }
{
    let mut extremes = extremes;
    extremes.cut = cut;
    extremes.astray = astray;
    let mut times = extremes.times;
    times.first_asked = first_asked(astray, length, times.first);
    extremes.times = times;
    extremes
}

/// Those of a stretch in which a case is down, where so many are cut off, and so many of the others astray at its end.
pub(crate) fn of_down(down: &Stretch, cut: u64, astray: u64) -> Extremes
    ensures { result ≡ of_down None down.now cut astray }
{
    with_parts(of_one(down), cut, astray, down.to.saturating_sub(down.from))
}

/// Those of it and the stretch before, which ends where it is seen that the case failed.
pub(crate) fn of_down_seen(first: &Stretch, down: &Stretch, cut: u64, astray: u64) -> Extremes
    ensures { result ≡ of_down (Some first.now) down.now cut astray }
{
    with_parts(
        taken_as_one(first, down),
        cut,
        astray,
        down.to.saturating_sub(first.from),
    )
}

/// Those of a stretch in which a case is back, where so many are astray at its end.
pub(crate) fn of_back(back: &Stretch, astray: u64) -> Extremes
    ensures { result ≡ of_back back.now astray }
{
    with_parts(of_one(back), 0, astray, back.to.saturating_sub(back.from))
}

/// The greater of two, none being below every number.
fn greater_if(a: Option<u128>, b: Option<u128>) -> Option<u128>
    ensures { result ≡ greater_if a b }
{
    match (a, b) {
        (_, None) => a,
        (None, Some(_)) => b,
        (Some(x), Some(y)) => { if x < y { Some(y) } else { Some(x) } }
    }
}

/// The later of two, of the choice and of the roles; none is later than all.
fn later_bounds(a: Option<HowSoon>, b: Option<HowSoon>) -> Option<HowSoon>
    ensures { result ≡ later_bounds a b }
{
    match (a, b) {
        (Some(x), Some(y)) => Some(HowSoon {
            choice: x.choice.max(y.choice),
            roles: x.roles.max(y.roles),
        }),
        _ => None,
    }
}

/// The greater of each that is counted.
fn greater_counts(a: Counts, b: Counts) -> Counts
    ensures { result ≡ greater_counts a b }
{
    Counts {
        without: a.without.max(b.without),
        roots: a.roots.max(b.roots),
        alone: a.alone.max(b.alone),
    }
}

/// The further apart of two, of equals the first.
fn further(a: Apart, b: Apart) -> Apart
    ensures { result ≡ further a b }
{
    if a.amount < b.amount { b } else { a }
}

/// What systems read in two, of equals the first.
fn times_joined(a: &TimeExtremes, b: &TimeExtremes) -> TimeExtremes
    ensures { result ≡ times_of_two a.now b.now }
{
    TimeExtremes {
        time: better_if(a.time, b.time),
        apart: further(a.apart, b.apart),
        step: better_if(a.step, b.step),
        first: better_if(a.first, b.first),
        first_asked: greater_if(a.first_asked, b.first_asked),
    }
}

/// Those of two, of equals the first.
pub(crate) fn joined(a: &Extremes, b: &Extremes) -> Extremes
    ensures { result ≡ greatest_of_two a.now b.now }
{
    Extremes {
        choice: greater_if(a.choice, b.choice),
        holdover: better_if(a.holdover, b.holdover),
        error: better_if(a.error, b.error),
        counts: greater_counts(a.counts, b.counts),
        cut: a.cut.max(b.cut),
        astray: a.astray.max(b.astray),
        bounds: later_bounds(a.bounds, b.bounds),
        times: times_joined(&a.times, &b.times),
    }
}
