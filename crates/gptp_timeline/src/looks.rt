//! What is looked at of what systems read, and what is measured of it.

ghost use Rattle.std.specs.Prelude.{◌≡◌, ◌≤◌, ◌<◌, ◌^◌, IfSome, List, option_map, unsigned_abs};
ghost use Rattle.gptp_setup.specs.Intervals.{IsMoment};
ghost use Rattle.gptp_timeline.specs.Jumps.{IsSmallJump};
ghost use Rattle.gptp_timeline.specs.Looks.{apart, apart_errors, apart_sources, change_if, changed_after, error_in, listed, looked_all, looked_difference, looked_each, looked_error, looked_jump, looked_step, measured_with, told_if};
ghost use Rattle.gptp_timeline.specs.Measures.{one_at};
ghost use Rattle.gptp_timeline.specs.Readings.{changes_source};
ghost use Rattle.gptp_timeline.specs.ToldSources.{AreSources};
ghost use Rattle.gptp_timeline.specs.declared.readings.SystemReading.{SystemReading};

use crate::extremes::{Extremes, extremes_with};
use crate::measures::{Greatest, better, better_if};
use crate::readings::{Jump, NewReading, SystemReading, TimeSource, changes_source, reading_error};
use crate::sources::{Difference, told_difference, wider_if};
use gptp_links::Fate;
use gptp_vector::ClockId;
use gptp_world::World;

/// What is measured of what systems read in a stretch.
#[derive(Clone, Copy, Debug)]
pub struct TimeMeasures {
    /// The greatest absolute error that was looked at, in units of 2^-16 ns.
    pub time: Option<Greatest>,
    /// The least and the greatest error that were.
    pub errors: Option<Extremes>,
    /// The greatest difference of the times of two sources that were told at once.
    pub sources: Option<Difference>,
    /// The greatest step of what a system reads, in units of 2^-16 ns.
    pub step: Option<Greatest>,
    /// When a system changed its source last, in ns.
    pub changed: Option<Greatest>,
}

/// Those of a stretch in which nothing was looked at yet.
pub(crate) const NOTHING_READ: TimeMeasures = TimeMeasures {
    time: None,
    errors: None,
    sources: None,
    step: None,
    changed: None,
};

/// The amount of a difference, or 0.
fn apart_sources(difference: Option<Difference>) -> u128
    ensures is { result ≡ apart_sources difference }
    ensures small { result ≤ 2 ^ 97 }
{
    match difference {
        Some(difference) => difference.amount(),
        None => 0,
    }
}

/// How far errors are apart, or 0.
fn apart_errors(errors: Option<Extremes>) -> u128
    ensures is { result ≡ apart_errors errors }
    ensures small { result < 2 ^ 101 }
{
    match errors {
        Some(errors) => errors.range(),
        None => 0,
    }
}

impl TimeMeasures {
    ghost use Rattle.std.specs.Prelude.{◌≡◌};
    ghost use Rattle.gptp_timeline.specs.Looks.{apart, changed_after};

    /// How far apart two systems read at most, in units of 2^-16 ns: by their sources, and by their errors.
    pub fn apart(&self) -> u128
        ensures { result ≡ apart self.now }
    {
        apart_sources(self.sources) + apart_errors(self.errors)
    }

    /// How long after a time a system changed its source last, in ns.
    pub fn changed_after(&self, from: u64) -> Option<u128>
        ensures { result ≡ changed_after self.now from }
    {
        match self.changed {
            Some(changed) => Some(changed.amount.saturating_sub(u128::from(from))),
            None => None,
        }
    }
}

/// What is measured with an error more, if it is there.
fn with_look(measures: TimeMeasures, clock: ClockId, error: Option<i128>) -> TimeMeasures
    requires { IfSome error (λ e. unsigned_abs e < 2 ^ 100) }
    ensures { result ≡ measured_with (looked_error clock error) measures }
{
    match error {
        Some(error) => {
            let one = Greatest {
                amount: error.unsigned_abs(),
                clock,
            };
            TimeMeasures {
                time: better(measures.time, one),
                errors: Some(extremes_with(measures.errors, error)),
                sources: measures.sources,
                step: measures.step,
                changed: measures.changed,
            }
        }
        None => measures,
    }
}

/// What is measured with a difference more, if it is there.
fn with_difference(measures: TimeMeasures, difference: Option<Difference>) -> TimeMeasures
    ensures { result ≡ measured_with (looked_difference difference) measures }
{
    TimeMeasures {
        time: measures.time,
        errors: measures.errors,
        sources: wider_if(measures.sources, difference),
        step: measures.step,
        changed: measures.changed,
    }
}

/// How far a system is off at a time by what it reads, if it has time.
pub(crate) fn error_by<F: Fate + Drop>(
    world: &World<F>,
    at: u64,
    system: &SystemReading,
) -> Option<i128>
    requires { IsMoment at }
    ensures is { result ≡ error_in at world.now.world_core system.now }
    ensures small { IfSome result (λ e. unsigned_abs e < 2 ^ 100) }
{
    match &system.reading {
        Some(kept) => reading_error(world, at, system.clock, kept),
        None => None,
    }
}

/// The errors of all systems are looked at.
fn look_at_each<F: Fate + Drop>(
    measures: TimeMeasures,
    world: &World<F>,
    at: u64,
    systems: &[SystemReading],
) -> TimeMeasures
    requires { IsMoment at }
    ensures { result ≡ measured_with (looked_each at world.now.world_core systems.now) measures }
{
    let mut measures = measures;
    for system in systems {
        measures = with_look(measures, system.clock, error_by(world, at, system));
    }
    measures
}

/// All systems are looked at, and the sources that are told.
pub(crate) fn look_at_all<F: Fate + Drop>(
    measures: TimeMeasures,
    world: &World<F>,
    at: u64,
    systems: &[SystemReading],
    sources: &[TimeSource],
) -> TimeMeasures
    requires moment { IsMoment at }
    requires sources { AreSources sources.now systems.now }
    ensures { result ≡ measured_with (looked_all at world.now.world_core systems.now) measures }
{
    let errors = look_at_each(measures, world, at, systems);
    with_difference(errors, told_difference(world, at, sources))
}

/// How far the sources differ that are told at a time, where a source changes.
pub(crate) fn told_if<F: Fate + Drop>(
    changes: bool,
    world: &World<F>,
    at: u64,
    sources: &[TimeSource],
) -> Option<Difference>
    requires { IsMoment at }
    ensures { (rs : List SystemReading) → AreSources sources.now rs
        → result ≡ told_if changes at world.now.world_core rs }
{
    match changes {
        true => told_difference(world, at, sources),
        false => None,
    }
}

/// When a system changed its source, if it did.
fn change_of(new: &NewReading, at: u64) -> Option<Greatest>
    ensures { listed result ≡ change_if (changes_source new.now) new.now.clock at }
{
    match changes_source(new) {
        true => Some(Greatest {
            amount: u128::from(at),
            clock: new.clock,
        }),
        false => None,
    }
}

/// What is measured with a step and a change of source more, if they are there.
fn with_step(
    measures: TimeMeasures,
    step: Option<Greatest>,
    change: Option<Greatest>,
) -> TimeMeasures
    ensures { result ≡ measured_with (looked_step step change) measures }
{
    TimeMeasures {
        time: measures.time,
        errors: measures.errors,
        sources: measures.sources,
        step: better_if(measures.step, step),
        changed: better_if(measures.changed, change),
    }
}

/// A step without its sign, with its system.
fn step_in(clock: ClockId, step: Option<i128>) -> Option<Greatest>
    ensures { result ≡ option_map (λ z. one_at clock (unsigned_abs z)) step }
{
    match step {
        Some(step) => Some(Greatest {
            amount: step.unsigned_abs(),
            clock,
        }),
        None => None,
    }
}

/// A system that gets a reading is looked at, by its jump; these are the differences of told sources before that and
/// after it.
pub(crate) fn look_at_new(
    measures: TimeMeasures,
    at: u64,
    new: &NewReading,
    jump: &Jump,
    before: Option<Difference>,
    after: Option<Difference>,
) -> TimeMeasures
    requires { IsSmallJump jump.now }
    ensures { result ≡ measured_with (looked_jump at new.now jump.now before after) measures }
{
    let first = with_look(measures, new.clock, jump.before);
    let second = with_look(first, new.clock, jump.after);
    let third = with_difference(second, before);
    let fourth = with_difference(third, after);
    with_step(fourth, step_in(new.clock, jump.step), change_of(new, at))
}
