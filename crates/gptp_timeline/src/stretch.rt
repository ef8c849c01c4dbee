//! What became of a stretch: the line where it ends.

ghost use Rattle.std.specs.Prelude.{◌≡◌, ◌++◌, ◌∷◌, ◌-◌, [], IfOk, OnOk, Some, None, string_bytes};
ghost use Rattle.std.specs.List.{filter_map, flat_map};
ghost use Rattle.gptp_setup.specs.Intervals.{IsMoment};
ghost use Rattle.gptp_words.specs.Lines.{text_of};
ghost use Rattle.gptp_timeline.specs.Limits.{amount_of};
ghost use Rattle.gptp_timeline.specs.Measures.{greatest_from};
ghost use Rattle.gptp_timeline.specs.Timeline.{reads_kept};
ghost use Rattle.gptp_timeline.specs.Watch.{WatchedRise};
ghost use Rattle.gptp_timeline.specs.StretchText.{accuracy_line, after_line, behind, bound_words, changed_words, counted_words, ended_stretch, settling_words, error_among, exact_words, greatest_words, system_accuracy, wait_of};

use crate::amounts::{Near, NearOrNone, Up};
use crate::counts::{Counts, counts_of};
use crate::limits::Limit;
use crate::looks::TimeMeasures;
use crate::measures::{Greatest, Measures, better_if};
use crate::time_lines::write_reads;
use crate::time_watch::TimeWatch;
use crate::watched::Watched;
use gptp_accuracy::SystemError;
use gptp_how_soon::Settling;
use gptp_links::Fate;
use gptp_vector::ClockId;
use gptp_words::ClockDigits;
use gptp_world::World;
use std::alloc::{AllocError, Global};
use std::fmt;

/// What became of a stretch.
#[derive(Clone, Copy, Debug)]
pub struct Stretch {
    /// When it began, in ns.
    pub from: u64,
    /// When it ended, in ns.
    pub to: u64,
    /// Whether it began with an event.
    pub begins_with_event: bool,
    /// How soon the choice and the roles stand at most after its begin, and from when on offsets are exact; none where
    /// the network isn't calm then.
    pub settling: Option<Settling>,
    /// What was measured of its acts; the longest wait also of those that were under way where it ended.
    pub measures: Measures,
    /// What was counted where it ended.
    pub counts: Counts,
    /// What was measured of what systems read, where that is asked.
    pub times: Option<TimeMeasures>,
}

/// How long a time is after another, in ns.
fn behind(from: u64, time: Option<u64>) -> Option<u64>
    ensures { result ≡ behind from time }
{
    match time {
        Some(time) => Some(time.saturating_sub(from)),
        None => None,
    }
}

/// The amount of the greatest, if there is one.
pub fn amount_of(greatest: Option<Greatest>) -> Option<u128>
    ensures { result ≡ amount_of greatest }
{
    match greatest {
        Some(greatest) => Some(greatest.amount),
        None => None,
    }
}

impl Stretch {
    ghost use Rattle.std.specs.Prelude.{◌≡◌};
    ghost use Rattle.gptp_timeline.specs.Limits.{amount_in, amount_of, choice_after, choice_bound, first_amount, is_asked_of};

    /// How long the choice took to stand, in ns.
    pub fn choice_after(&self) -> Option<u128>
        ensures { result ≡ choice_after self.now }
    {
        match behind(self.from, self.measures.choice) {
            Some(time) => Some(u128::from(time)),
            None => None,
        }
    }

    /// How soon the choice stands at most, in ns; none where the network isn't calm where it begins.
    pub fn choice_bound(&self) -> Option<u128>
        ensures { result ≡ choice_bound self.now }
    {
        match self.settling {
            Some(settling) => Some(u128::from(settling.choice)),
            None => None,
        }
    }

    /// Whether a limit is asked of it.
    pub(crate) fn is_asked(&self, limit: Limit) -> bool
        ensures { result ≡ is_asked_of self.now limit }
    {
        match limit {
            Limit::Choice | Limit::Holdover | Limit::Bound => self.begins_with_event,
            _ => true,
        }
    }

    /// The amount that a limit asks for: times in ns, errors in units of 2^-16 ns.
    pub(crate) fn amount(&self, limit: Limit) -> Option<u128>
        ensures { result ≡ amount_in self.now limit }
    {
        match limit {
            Limit::Choice => self.choice_after(),
            Limit::Holdover => amount_of(self.measures.holdover),
            Limit::Error => amount_of(self.measures.error),
            Limit::Without => Some(u128::from(self.counts.without)),
            Limit::Roots => Some(u128::from(self.counts.roots)),
            Limit::Alone => Some(u128::from(self.counts.alone)),
            Limit::Cut | Limit::Astray => None,
            Limit::Bound => self.choice_bound(),
            Limit::Time => self.time(),
            Limit::Apart => self.apart(),
            Limit::Step => self.step(),
            Limit::First => self.first(),
        }
    }

    /// The greatest error of what a system reads, in units of 2^-16 ns.
    fn time(&self) -> Option<u128>
        ensures { result ≡ amount_in self.now Limit.Time }
    {
        match self.times {
            Some(times) => amount_of(times.time),
            None => None,
        }
    }

    /// How far apart two systems read, in units of 2^-16 ns.
    fn apart(&self) -> Option<u128>
        ensures { result ≡ amount_in self.now Limit.Apart }
    {
        match self.times {
            Some(times) => Some(times.apart()),
            None => None,
        }
    }

    /// The greatest step of what a system reads, in units of 2^-16 ns.
    fn step(&self) -> Option<u128>
        ensures { result ≡ amount_in self.now Limit.Step }
    {
        match self.times {
            Some(times) => amount_of(times.step),
            None => None,
        }
    }

    /// How long it took until a system changed its source last, in ns; the whole stretch where a live system has no
    /// time at its end.
    pub fn first(&self) -> Option<u128>
        ensures { result ≡ first_amount self.now }
    {
        if self.counts.without != 0 {
            return Some(u128::from(self.to.saturating_sub(self.from)));
        }
        match self.times {
            Some(times) => times.changed_after(self.from),
            None => None,
        }
    }
}

/// The wait of a system that is under way at a time, if there is one.
fn wait_at(to: u64, system: &Watched) -> Option<Greatest>
    ensures { result ≡ wait_of to system.now }
{
    match system.since {
        Some(since) => Some(Greatest {
            amount: u128::from(to.saturating_sub(since)),
            clock: system.clock,
        }),
        None => None,
    }
}

/// The longest wait, with those that are under way at a time.
fn with_waits(best: Option<Greatest>, to: u64, systems: &[Watched]) -> Option<Greatest>
    ensures { result ≡ greatest_from best (filter_map (wait_of to) systems.now) }
{
    let mut best = best;
    for system in systems {
        best = better_if(best, wait_at(to, system));
    }
    best
}

/// What became of a stretch, by what was measured and is kept of all systems where it ends.
pub(crate) fn ended(
    alloc: Global,
    from: u64,
    to: u64,
    begins_with_event: bool,
    settling: Option<Settling>,
    measures: Measures,
    systems: &[Watched],
    times: Option<TimeMeasures>,
) -> Result<Stretch, AllocError>
    ensures { IfOk result (λ s. s ≡ ended_stretch from to begins_with_event settling measures systems.now times) }
{
    let counts = counts_of(alloc, systems)?;
    let holdover = with_waits(measures.holdover, to, systems);
    Ok(Stretch {
        from,
        to,
        begins_with_event,
        settling,
        measures: Measures {
            choice: measures.choice,
            roles: measures.roles,
            offsets: measures.offsets,
            holdover,
            error: measures.error,
        },
        counts,
        times,
    })
}

/// A time that may be absent, in ns.
#[derive(Clone, Copy)]
struct TimeOrNone(Option<u64>);

impl fmt::Display for TimeOrNone {
    ghost use Rattle.std.specs.Prelude.{Some};
    ghost use Rattle.std.specs.Fmt.{decimal};
    ghost use Rattle.gptp_words.specs.Digits.{or_none};

    ghost output = { λ time. Some (or_none decimal time.0) };

    fn fmt<W: fmt::Write>(&self, f: &mut fmt::Formatter<W>) -> fmt::Result {
        match self.0 {
            Some(time) => write!(f, "{time}"),
            None => f.write_str("none"),
        }
    }
}

/// The longest wait, in ns, with its system.
#[derive(Clone, Copy)]
pub struct Longest(pub Option<Greatest>);

impl fmt::Display for Longest {
    ghost use Rattle.std.specs.Prelude.{Some};
    ghost use Rattle.gptp_timeline.specs.StretchText.{longest_text};

    ghost output = { λ longest. Some (longest_text longest.0) };

    fn fmt<W: fmt::Write>(&self, f: &mut fmt::Formatter<W>) -> fmt::Result {
        match self.0 {
            Some(longest) => write!(f, "{} {}", longest.amount, ClockDigits(longest.clock)),
            None => f.write_str("0 none"),
        }
    }
}

/// The greatest error, in ns, with its system.
#[derive(Clone, Copy)]
pub struct Worst(pub Option<Greatest>);

impl fmt::Display for Worst {
    ghost use Rattle.std.specs.Prelude.{Some};
    ghost use Rattle.gptp_timeline.specs.StretchText.{worst_text};

    ghost output = { λ worst. Some (worst_text worst.0) };

    fn fmt<W: fmt::Write>(&self, f: &mut fmt::Formatter<W>) -> fmt::Result {
        match self.0 {
            Some(worst) => write!(f, "{} {}", Near(worst.amount), ClockDigits(worst.clock)),
            None => f.write_str("0.000 none"),
        }
    }
}

/// Appends how long it took until the choice stood, the roles did, and the offsets.
fn write_changed(text: &mut String, stretch: &Stretch) -> Result<(), AllocError>
    ensures { OnOk result (string_bytes text.new ≡ string_bytes text.old ++ changed_words stretch.now) }
{
    let from = stretch.from;
    let measures = stretch.measures;
    write!(
        text,
        "after {from} to {} choice {} roles {} offsets {}",
        stretch.to,
        TimeOrNone(behind(from, measures.choice)),
        TimeOrNone(behind(from, measures.roles)),
        TimeOrNone(behind(from, measures.offsets))
    )
}

/// Appends the longest wait and the greatest error.
fn write_greatest(text: &mut String, measures: Measures) -> Result<(), AllocError>
    ensures { OnOk result (string_bytes text.new ≡ string_bytes text.old ++ greatest_words measures) }
{
    write!(
        text,
        " holdover {} error {}",
        Longest(measures.holdover),
        Worst(measures.error)
    )
}

/// Appends what was counted.
fn write_counts(text: &mut String, counts: Counts) -> Result<(), AllocError>
    ensures { OnOk result (string_bytes text.new ≡ string_bytes text.old ++ counted_words counts) }
{
    write!(
        text,
        " without {} roots {} alone {}",
        counts.without, counts.roots, counts.alone
    )
}

/// Appends how soon the choice and the roles stand at most.
fn write_settling(text: &mut String, settling: Option<Settling>) -> Result<(), AllocError>
    ensures { OnOk result (string_bytes text.new
        ≡ string_bytes text.old ++ (settling_words settling ++ 10 ∷ [])) }
{
    match settling {
        Some(settling) => writeln!(text, " bound {} {}", settling.choice, settling.roles),
        None => writeln!(text, " bound none none"),
    }
}

/// Appends the line of a stretch that ended.
pub(crate) fn write_after(text: &mut String, stretch: &Stretch) -> Result<(), AllocError>
    ensures { OnOk result (string_bytes text.new
        ≡ string_bytes text.old ++ (after_line stretch.now ++ 10 ∷ [])) }
{
    write_changed(text, stretch)?;
    write_greatest(text, stretch.measures)?;
    write_counts(text, stretch.counts)?;
    write_settling(text, stretch.settling)
}

/// The greatest error of the receipts of a system that count by themselves.
fn error_at(systems: &[Watched], clock: ClockId) -> Option<u128>
    requires { WatchedRise systems.now }
    ensures { result ≡ error_among systems.now clock }
{
    match systems.binary_search_by_key(&clock, |system| system.clock) {
        Ok(place) => systems[place].error,
        Err(_) => None,
    }
}

/// Appends how exact a system was.
fn write_error(text: &mut String, clock: ClockId, error: Option<u128>) -> Result<(), AllocError>
    ensures { OnOk result (string_bytes text.new ≡ string_bytes text.old ++ exact_words clock error) }
{
    write!(
        text,
        "accuracy {} error {}",
        ClockDigits(clock),
        NearOrNone(error)
    )
}

/// Appends how exact it is promised to be, and from when on.
fn write_bound(text: &mut String, from: u64, bound: u128) -> Result<(), AllocError>
    ensures { OnOk result (string_bytes text.new ≡ string_bytes text.old ++ bound_words from bound) }
{
    write!(text, " bound {} from {from}", Up(bound))
}

/// Appends what a system read, where that is asked of the account.
fn write_reads_kept<F: Fate + Drop>(
    text: &mut String,
    world: &World<F>,
    to: u64,
    system: &SystemError,
    times: &TimeWatch,
) -> Result<(), AllocError>
    requires { IsMoment to }
    ensures { OnOk result (string_bytes text.new
        ≡ string_bytes text.old ++ reads_kept to world.now.world_core (Some times.now) system.now) }
{
    match times.lines() {
        true => write_reads(text, system, times.reads_of(world, to, system.clock)),
        false => Ok(()),
    }
}

/// Appends that where there is an account.
fn write_reads_if<F: Fate + Drop>(
    text: &mut String,
    world: &World<F>,
    to: u64,
    system: &SystemError,
    times: &Option<TimeWatch>,
) -> Result<(), AllocError>
    requires { IsMoment to }
    ensures { OnOk result (string_bytes text.new
        ≡ string_bytes text.old ++ reads_kept to world.now.world_core times.now system.now) }
{
    match times {
        Some(times) => write_reads_kept(text, world, to, system, times),
        None => Ok(()),
    }
}

/// Ends a line.
fn end_line(text: &mut String) -> Result<(), AllocError>
    ensures { OnOk result (string_bytes text.new ≡ string_bytes text.old ++ 10 ∷ []) }
{
    writeln!(text, "")
}

/// Appends the line of a system that follows another, with the bound of its error, and how far off it reads where that
/// is asked.
#[tactic(auto, using(crate::proofs::LineLemmas::words_on))]
fn write_exact<F: Fate + Drop>(
    text: &mut String,
    world: &World<F>,
    from: u64,
    to: u64,
    system: &SystemError,
    error: Option<u128>,
    bound: u128,
    times: &Option<TimeWatch>,
) -> Result<(), AllocError>
    requires { IsMoment to }
    ensures { OnOk result (string_bytes text.new
        ≡ string_bytes text.old ++ (accuracy_line from system.now.clock error bound (reads_kept to world.now.world_core times.now system.now) ++ 10 ∷ [])) }
{
    write_error(text, system.clock, error)?;
    write_bound(text, from, bound)?;
    write_reads_if(text, world, to, system, times)?;
    end_line(text)
}

/// Appends the line on how exact a system is, where it has such a bound and isn't its own root.
fn write_exact_if<F: Fate + Drop>(
    text: &mut String,
    world: &World<F>,
    from: u64,
    to: u64,
    system: &SystemError,
    systems: &[Watched],
    times: &Option<TimeWatch>,
) -> Result<(), AllocError>
    requires moment { IsMoment to }
    requires rise { WatchedRise systems.now }
    ensures { OnOk result (string_bytes text.new
        ≡ string_bytes text.old ++ text_of (system_accuracy from (error_among systems.now) (reads_kept to world.now.world_core times.now) system.now)) }
{
    match system.error {
        Some(bound) if system.root.clock() != system.clock => write_exact(
            text,
            world,
            from,
            to,
            system,
            error_at(systems, system.clock),
            bound,
            times,
        ),
        _ => Ok(()),
    }
}

/// Appends the lines of all of them, by rising clock, where the stretch ends no sooner than the errors hold.
pub(crate) fn write_accuracies<F: Fate + Drop>(
    text: &mut String,
    world: &World<F>,
    from: u64,
    to: u64,
    errors: &[SystemError],
    systems: &[Watched],
    times: &Option<TimeWatch>,
) -> Result<(), AllocError>
    requires moment { IsMoment to }
    requires rise { WatchedRise systems.now }
    ensures { OnOk result (string_bytes text.new
        ≡ string_bytes text.old ++ text_of (flat_map (system_accuracy from (error_among systems.now) (reads_kept to world.now.world_core times.now)) errors.now)) }
{
    for error in errors {
        write_exact_if(text, world, from, to, error, systems, times)?;
    }
    Ok(())
}
