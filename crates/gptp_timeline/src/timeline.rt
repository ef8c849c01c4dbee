//! The timeline of a document.

ghost use Rattle.std.specs.Prelude.{◌≡◌, ◌≢◌, ◌≤◌, ◌++◌, List, [], ℕ, IfErr, IfOk, OnErr, OnOk, drop, length, string_bytes, take};
ghost use Rattle.std.specs.Io.KnownBytes.{Appends};
ghost use Rattle.gptp_setup.specs.Intervals.{IsMoment};
ghost use Rattle.gptp_model.specs.Course.{Begun};
ghost use Rattle.gptp_model.specs.Prompt.{AllDelaysFitIntervals};
ghost use Rattle.gptp_model.specs.Views.{rising_clocks};
ghost use Rattle.gptp_network.specs.Events.{AreInOrder};
ghost use Rattle.gptp_network.specs.Snapshot.{events_by};
ghost use Rattle.gptp_scenario.specs.Allowed.{AreAllowed};
ghost use Rattle.gptp_sink.specs.Sink.{AppendsSome};
ghost use Rattle.gptp_world.specs.Transitions.{ActTrace};
ghost use Rattle.gptp_words.specs.Lines.{text_of};
ghost use Rattle.gptp_accuracy.specs.Settlings.{AreTimesOf};
ghost use Rattle.gptp_timeline.specs.LastStretches.{EndsOf, all_kept, end_of, first_aside, kept_after, none_kept};
ghost use Rattle.gptp_timeline.specs.Limits.{is_exceeded, verdict_lines};
ghost use Rattle.gptp_timeline.specs.Passing.{AllAreSeen, EarlierAreSeen, MayPass, StopsBetween, StretchBreaksOff, StretchIsSeen, StopsSeen, aside_kept, first_time, standing, times_before, watch_at_start, watch_before};
ghost use Rattle.gptp_timeline.specs.RunSoFar.{summary_of};
ghost use Rattle.gptp_timeline.specs.Timeline.{AllPass, AreErrorsBy, AreErrorsIf, BeginsTimeline, IsTimelinePlan, StretchTrace, SomePass, TimelineOf, all_lines, asks_lines, end_lines, exact_time, is_begun, kept_accuracy, later_than, line_of_times, none_carried, now_of, reads_kept, times_ended, tracks};
ghost use Rattle.gptp_timeline.specs.Watch.{event_look, lines_all, see_all};

use crate::aside::SetAside;
use crate::counts::roots_of;
use crate::ends::{LastStretches, StretchEnd, StretchesSoFar, keep, none_kept};
use crate::keepers::keepers_of;
use crate::limits::{Limit, Limits, NO_LIMITS, write_verdict};
use crate::looks::TimeMeasures;
use crate::null_sink::NullSink;
use crate::stretch::{Stretch, ended, write_accuracies, write_after};
use crate::time_lines::write_times;
use crate::time_watch::TimeWatch;
use crate::watch::Watch;
use gptp_accuracy::{TimeErrors, exact_from, settling_of, time_errors_among};
use gptp_how_soon::{Settling, SettlingTime, settling_times};
use gptp_links::Fate;
use gptp_network::Document;
use gptp_report::sink::Sink;
use gptp_report::{Cut, begin, play, write_whole};
use gptp_world::{Timed, World};
use std::alloc::{AllocError, Global};

/// What is told of the run of a document.
#[derive(Clone, Copy, Debug, PartialEq, Eq)]
pub struct TimelineOptions {
    /// Whether events and changes are left out.
    pub summary: bool,
    /// Whether receipts of time are told.
    pub offsets: bool,
    /// Whether it is told what systems read.
    pub times: bool,
    /// What is asked of each stretch.
    pub limits: Limits,
}

/// A stretch that begins: what is known of it by the document alone.
#[derive(Drop)]
pub(crate) struct Plan {
    from: u64,
    to: u64,
    begins_with_event: bool,
    settling: Option<Settling>,
    errors: Option<TimeErrors>,
}

/// How many events come first that are at a time, or before it.
fn count_by(events: &[Timed], time: u64) -> usize
    requires { AreInOrder events.now }
    ensures now { take result events.now ≡ now_of time events.now }
    ensures later { drop result events.now ≡ later_than time events.now }
    ensures bound { result ≤ length events.now }
{
    events.partition_point(|event| event.at <= time)
}

/// The events with time up to a time.
pub(crate) fn events_by(events: &[Timed], until: u64) -> &[Timed]
    requires { AreInOrder events.now }
    ensures { result.now ≡ events_by until events.now }
{
    let count = count_by(events, until);
    &events[..count]
}

/// The events that come later than a time.
pub(crate) fn events_after(events: &[Timed], time: u64) -> &[Timed]
    requires { AreInOrder events.now }
    ensures { result.now ≡ later_than time events.now }
{
    let count = count_by(events, time);
    &events[count..]
}

/// When the first of these events comes that come later than a time.
pub(crate) fn next_time(events: &[Timed], time: u64) -> Option<u64>
    requires { AreInOrder events.now }
    ensures { result ≡ first_time (later_than time events.now) }
{
    match events_after(events, time).first() {
        Some(event) => Some(event.at),
        None => None,
    }
}

/// The time errors of a document, whose times these are, after its events up to a time, where they hold by another.
fn errors_by(
    alloc: Global,
    document: &Document,
    times: &[SettlingTime],
    from: u64,
    to: u64,
) -> Result<Option<TimeErrors>, Cut>
    requires { AreTimesOf document.now times.now }
    ensures errors { IfOk result (AreErrorsBy document.now from to) }
    ensures memory { IfErr result (λ e. e ≡ Cut.Memory) }
{
    match exact_from(document, times, from) {
        Some(exact) if exact <= to => Ok(Some(time_errors_among(alloc, document, times, from)?)),
        _ => Ok(None),
    }
}

/// The time errors where it is asked how exact systems are; otherwise none.
fn errors_asked(
    alloc: Global,
    document: &Document,
    times: &[SettlingTime],
    exact: bool,
    from: u64,
    to: u64,
) -> Result<Option<TimeErrors>, Cut>
    requires { AreTimesOf document.now times.now }
    ensures errors { IfOk result (AreErrorsIf exact document.now from to) }
    ensures memory { IfErr result (λ e. e ≡ Cut.Memory) }
{
    match exact {
        true => errors_by(alloc, document, times, from, to),
        false => Ok(None),
    }
}

/// What is known of a stretch by the document alone, whose times these are.
pub(crate) fn plan_of(
    alloc: Global,
    document: &Document,
    times: &[SettlingTime],
    exact: bool,
    from: u64,
    to: u64,
    begins_with_event: bool,
) -> Result<Plan, Cut>
    requires { AreTimesOf document.now times.now }
    ensures plan { IfOk result (IsTimelinePlan exact document.now from to begins_with_event) }
    ensures memory { IfErr result (λ e. e ≡ Cut.Memory) }
{
    let errors = errors_asked(alloc, document, times, exact, from, to)?;
    Ok(Plan {
        from,
        to,
        begins_with_event,
        settling: settling_of(times, from),
        errors,
    })
}

/// From when on the receipts of each system count by themselves.
fn exact_time(errors: &Option<TimeErrors>) -> Option<u64>
    ensures { result ≡ exact_time errors.now }
{
    match errors {
        Some(errors) => errors.from,
        None => None,
    }
}

/// Appends the lines of how exact systems were in a stretch that ends at a time, where they are known to be.
fn write_errors<F: Fate + Drop>(
    text: &mut String,
    world: &World<F>,
    to: u64,
    errors: &Option<TimeErrors>,
    watch: &Watch,
) -> Result<(), AllocError>
    requires { IsMoment to }
    ensures { OnOk result (string_bytes text.new
        ≡ string_bytes text.old ++ text_of (kept_accuracy (reads_kept to world.now.world_core watch.now.times) watch.now.systems errors.now)) }
{
    match errors {
        Some(errors) => match errors.from {
            Some(from) => write_accuracies(
                text,
                world,
                from,
                to,
                &errors.systems,
                watch.systems(),
                watch.times(),
            ),
            None => Ok(()),
        },
        None => Ok(()),
    }
}

/// What was measured of what systems read in a stretch that ends at a time, where that is asked.
fn times_ended<F: Fate + Drop>(
    world: &World<F>,
    to: u64,
    times: &Option<TimeWatch>,
) -> Option<TimeMeasures>
    requires { IsMoment to }
    ensures { result ≡ times_ended to world.now.world_core times.now }
{
    match times {
        Some(times) => Some(times.ended(world, to)),
        None => None,
    }
}

/// Whether the line of what systems read is asked for.
fn asks_lines(times: &Option<TimeWatch>) -> bool
    ensures { result ≡ asks_lines times.now }
{
    match times {
        Some(times) => times.lines(),
        None => false,
    }
}

/// Appends the line of what systems read, where it is asked for.
fn write_times_if(text: &mut String, asked: bool, stretch: &Stretch) -> Result<(), AllocError>
    ensures { OnOk result (string_bytes text.new
        ≡ string_bytes text.old ++ text_of (line_of_times asked stretch.now stretch.now.times)) }
{
    match &stretch.times {
        Some(measures) => match asked {
            true => write_times(text, stretch.from, stretch.to, measures),
            false => Ok(()),
        },
        None => Ok(()),
    }
}

/// What is kept of what systems read before they start, where that is asked, of which some are set aside.
fn times_before<F: Fate + Drop>(
    alloc: Global,
    world: &World<F>,
    options: &TimelineOptions,
    aside: SetAside,
) -> Result<Option<TimeWatch>, AllocError>
    ensures { IfOk result (λ times. times ≡ times_before options.now aside world.now.world_core) }
{
    match options.times || options.limits.asks_times() {
        true => {
            let told = options.times && options.offsets;
            Ok(Some(TimeWatch::new(alloc, world, options.times, told, aside)?))
        }
        false => Ok(None),
    }
}

/// An observer of a world whose systems start, before it has seen that, of which some are set aside.
pub(crate) fn watch_before<F: Fate + Drop>(
    alloc: Global,
    world: &World<F>,
    options: &TimelineOptions,
    aside: SetAside,
) -> Result<Watch, AllocError>
    ensures { IfOk result (λ watch. watch ≡ watch_before options.now aside world.now.world_core) }
{
    let times = times_before(alloc, world, options, aside)?;
    Watch::new(alloc, world, options.summary, options.offsets, times)
}

/// Writes the lines of a stretch that ended in a world, and answers how it did.
pub(crate) fn end_stretch<F: Fate + Drop, K: Sink>(
    alloc: Global,
    world: &World<F>,
    plan: &Plan,
    watch: &Watch,
    sink: &mut K,
) -> Result<StretchEnd, Cut>
    requires { IsMoment plan.now.to }
    ensures some { AppendsSome (K.written sink.old) (K.written sink.new) (text_of (end_lines plan.now world.now.world_core watch.now)) }
    ensures end { IfOk result (λ end. end ≡ end_of plan.now world.now.world_core watch.now) }
    ensures whole { OnOk result
        (Appends (K.written sink.old) (K.written sink.new) (text_of (end_lines plan.now world.now.world_core watch.now))) }
    ensures works { result ≢ Err Cut.Write → K.failures sink.new ≡ K.failures sink.old }
    ensures fails { result ≡ Err Cut.Write → K.failures sink.new ≢ K.failures sink.old }
{
    let stretch = ended(
        alloc,
        plan.from,
        plan.to,
        plan.begins_with_event,
        plan.settling,
        watch.measures(),
        watch.systems(),
        times_ended(world, plan.to, watch.times()),
    )?;
    let roots = roots_of(alloc, watch.systems())?;
    let keepers = keepers_of(alloc, watch.systems())?;
    let mut text = String::new(alloc);
    write_after(&mut text, &stretch)?;
    write_times_if(&mut text, asks_lines(watch.times()), &stretch)?;
    write_errors(&mut text, world, plan.to, &plan.errors, watch)?;
    write_whole(sink, text.as_bytes())?;
    Ok(StretchEnd::new(stretch, roots, keepers))
}

/// Lets a stretch pass with its events, writes its lines, and answers how it ended.
fn pass_stretch<F: Fate + Drop, K: Sink>(
    alloc: Global,
    world: &mut World<F>,
    plan: &Plan,
    events: &[Timed],
    watch: &mut Watch,
    sink: &mut K,
) -> Result<StretchEnd, Cut>
    requires allowed { AreAllowed events.now }
    requires prompt { AllDelaysFitIntervals world.old.world_core events.now }
    requires due { events_by plan.now.to events.now ≡ events.now }
    requires moment { IsMoment plan.now.to }
    ensures passed { IfOk result (λ end. (told : List (List ℕ))
        × StretchIsSeen F.answers plan.now events.now world.old.fate world.new.fate world.old.world_core world.new.world_core
        watch.old watch.new told
        × (end ≡ end_of plan.now world.new.world_core watch.new)
        × Appends (K.written sink.old) (K.written sink.new) (text_of (told ++ end_lines plan.now world.new.world_core watch.new))) }
    ensures broken { OnErr result ((lines : List (List ℕ))
        × StretchBreaksOff F.answers plan.now events.now world.old.fate world.old.world_core watch.old lines
        × AppendsSome (K.written sink.old) (K.written sink.new) (text_of lines)) }
    ensures works { result ≢ Err Cut.Write → K.failures sink.new ≡ K.failures sink.old }
    ensures fails { result ≡ Err Cut.Write → K.failures sink.new ≢ K.failures sink.old }
{
    watch.begin(plan.from, exact_time(&plan.errors), events.len());
    play(alloc, world, events, plan.to, watch, sink)?;
    end_stretch(alloc, world, plan, watch, sink)
}

/// Lets a stretch pass that begins at a time with its events, and answers what is kept of all until then.
pub(crate) fn next_stretch<F: Fate + Drop, K: Sink>(
    alloc: Global,
    document: &Document,
    times: &[SettlingTime],
    exact: bool,
    world: &mut World<F>,
    from: u64,
    to: u64,
    events: &[Timed],
    limits: &Limits,
    before: StretchesSoFar,
    watch: &mut Watch,
    sink: &mut K,
) -> Result<StretchesSoFar, Cut>
    requires allowed { AreAllowed events.now }
    requires prompt { AllDelaysFitIntervals world.old.world_core events.now }
    requires due { events_by to events.now ≡ events.now }
    requires moment { IsMoment to }
    requires times { AreTimesOf document.now times.now }
    ensures passed { IfOk result (λ kept. (plan : Plan) × (told : List (List ℕ))
        × IsTimelinePlan exact document.now from to (is_begun events.now) plan
        × StretchIsSeen F.answers plan events.now world.old.fate world.new.fate world.old.world_core world.new.world_core
        watch.old watch.new told
        × (kept ≡ kept_after limits.now (end_of plan world.new.world_core watch.new) before)
        × Appends (K.written sink.old) (K.written sink.new) (text_of (told ++ end_lines plan world.new.world_core watch.new))) }
    ensures broken { OnErr result ((lines : List (List ℕ))
        × StopsSeen F.answers exact document.now from to events.now world.old.fate world.old.world_core watch.old lines
        × AppendsSome (K.written sink.old) (K.written sink.new) (text_of lines)) }
    ensures works { result ≢ Err Cut.Write → K.failures sink.new ≡ K.failures sink.old }
    ensures fails { result ≡ Err Cut.Write → K.failures sink.new ≢ K.failures sink.old }
{
    let plan = plan_of(alloc, document, times, exact, from, to, !events.is_empty())?;
    let end = pass_stretch(alloc, world, &plan, events, watch, sink)?;
    Ok(keep(limits, end, before))
}

/// Where a stretch begins: when, in ns, the events that are left then, and what is kept of the stretches before.
#[derive(Drop)]
pub(crate) struct StretchBegins<'a> {
    pub(crate) from: u64,
    pub(crate) left: &'a [Timed],
    pub(crate) kept: StretchesSoFar,
}

/// Lets all stretches pass up to a time but the last, and answers where that begins.
pub(crate) fn earlier_stretches<'a, F: Fate + Drop, K: Sink>(
    alloc: Global,
    document: &Document,
    times: &[SettlingTime],
    exact: bool,
    world: &mut World<F>,
    until: u64,
    begins: StretchBegins<'a>,
    limits: &Limits,
    watch: &mut Watch,
    sink: &mut K,
) -> Result<StretchBegins<'a>, Cut>
    requires moment { IsMoment until }
    requires may { MayPass until begins.from begins.left.now world.old.world_core }
    requires times { AreTimesOf document.now times.now }
    ensures passed { IfOk result (λ last. (count : ℕ) × (lines : List (List ℕ))
        × EarlierAreSeen F.answers exact document.now limits.now count
        (standing begins.entry.from begins.entry.left.now world.old.fate world.old.world_core watch.old begins.entry.kept)
        (standing last.from last.left.now world.new.fate world.new.world_core watch.new last.kept) lines
        × Appends (K.written sink.old) (K.written sink.new) (text_of lines)) }
    ensures may { IfOk result (λ last. MayPass until last.from last.left.now world.new.world_core) }
    ensures last { IfOk result (λ last. later_than last.from last.left.now ≡ []) }
    ensures broken { OnErr result ((lines : List (List ℕ))
        × StopsBetween F.answers exact document.now limits.now until
        (standing begins.entry.from begins.entry.left.now world.old.fate world.old.world_core watch.old begins.entry.kept) lines
        × AppendsSome (K.written sink.old) (K.written sink.new) (text_of lines)) }
    ensures works { result ≢ Err Cut.Write → K.failures sink.new ≡ K.failures sink.old }
    ensures fails { result ≡ Err Cut.Write → K.failures sink.new ≢ K.failures sink.old }
{
    let StretchBegins {
        mut from,
        mut left,
        mut kept,
    } = begins;
    while let Some(to) = next_time(left, from) {
        world.well_formed();
        let now = events_by(left, from);
        kept = next_stretch(
            alloc, document, times, exact, world, from, to, now, limits, kept, watch, sink,
        )?;
        left = events_after(left, from);
        from = to;
    }
    Ok(StretchBegins { from, left, kept })
}

/// Lets all stretches pass up to a time, and answers what is kept of them.
pub(crate) fn stretches_from<'a, F: Fate + Drop, K: Sink>(
    alloc: Global,
    document: &Document,
    times: &[SettlingTime],
    exact: bool,
    world: &mut World<F>,
    until: u64,
    begins: StretchBegins<'a>,
    limits: &Limits,
    watch: &mut Watch,
    sink: &mut K,
) -> Result<StretchesSoFar, Cut>
    requires moment { IsMoment until }
    requires may { MayPass until begins.from begins.left.now world.old.world_core }
    requires times { AreTimesOf document.now times.now }
    ensures passed { IfOk result (λ kept. (lines : List (List ℕ))
        × AllAreSeen F.answers exact document.now limits.now
        (standing begins.entry.from begins.entry.left.now world.old.fate world.old.world_core watch.old begins.entry.kept)
        (standing until [] world.new.fate world.new.world_core watch.new kept) lines
        × Appends (K.written sink.old) (K.written sink.new) (text_of lines)) }
    ensures broken { OnErr result ((lines : List (List ℕ))
        × StopsBetween F.answers exact document.now limits.now until
        (standing begins.entry.from begins.entry.left.now world.old.fate world.old.world_core watch.old begins.entry.kept) lines
        × AppendsSome (K.written sink.old) (K.written sink.new) (text_of lines)) }
    ensures works { result ≢ Err Cut.Write → K.failures sink.new ≡ K.failures sink.old }
    ensures fails { result ≡ Err Cut.Write → K.failures sink.new ≢ K.failures sink.old }
{
    let last = earlier_stretches(
        alloc, document, times, exact, world, until, begins, limits, watch, sink,
    )?;
    next_stretch(
        alloc, document, times, exact, world, last.from, until, last.left, limits, last.kept,
        watch, sink,
    )
}

/// Lets all stretches pass of a world as it begins, and answers what is kept of them, where these are the times of the
/// document, and it is asked, or isn't, how exact systems are.
fn all_stretches<F: Fate + Drop, K: Sink>(
    alloc: Global,
    document: &Document,
    times: &[SettlingTime],
    exact: bool,
    world: &mut World<F>,
    until: u64,
    options: &TimelineOptions,
    watch: &mut Watch,
    sink: &mut K,
) -> Result<StretchesSoFar, Cut>
    requires moment { IsMoment until }
    requires begun { (fate : F) × Begun F.answers document.now.network fate world.old.fate world.old.world_core }
    requires prompt { AllDelaysFitIntervals world.old.world_core document.now.events }
    requires starts { watch.old ≡ watch_at_start options.now (aside_kept watch.old) world.old.world_core }
    requires times { AreTimesOf document.now times.now }
    ensures passed { IfOk result (λ kept. (passages : List StretchTrace)
        × AllPass F.answers exact document.now until 0 (events_by until document.now.events) world.old.fate world.new.fate
        world.old.world_core world.new.world_core passages
        × (kept ≡ all_kept options.now.limits (rising_clocks world.old.world_core)
        (first_aside (tracks options.now) (aside_kept watch.old) (rising_clocks world.old.world_core)) passages none_kept)
        × ((aside_kept watch.old).clocks ≡ [] → Appends (K.written sink.old) (K.written sink.new)
        (text_of (all_lines options.now (rising_clocks world.old.world_core)
        (none_carried (tracks options.now) (rising_clocks world.old.world_core)) passages [])))) }
    ensures broken { OnErr result ((passages : List StretchTrace) × (acts : List ActTrace)
        × SomePass F.answers exact document.now until 0 (events_by until document.now.events) world.old.fate world.old.world_core
        passages acts
        × ((aside_kept watch.old).clocks ≡ [] → AppendsSome (K.written sink.old) (K.written sink.new)
        (text_of (all_lines options.now (rising_clocks world.old.world_core)
        (none_carried (tracks options.now) (rising_clocks world.old.world_core)) passages acts)))) }
    ensures works { result ≢ Err Cut.Write → K.failures sink.new ≡ K.failures sink.old }
    ensures fails { result ≡ Err Cut.Write → K.failures sink.new ≢ K.failures sink.old }
{
    document.well_formed();
    world.well_formed();
    let begins = StretchBegins {
        from: 0,
        left: events_by(document.events(), until),
        kept: none_kept(),
    };
    stretches_from(
        alloc,
        document,
        times,
        exact,
        world,
        until,
        begins,
        &options.limits,
        watch,
        sink,
    )
}

/// Writes what the systems of a world are like as they start.
pub(crate) fn write_start<F: Fate + Drop, K: Sink>(
    alloc: Global,
    world: &World<F>,
    watch: &mut Watch,
    sink: &mut K,
) -> Result<(), Cut>
    ensures some { AppendsSome (K.written sink.old) (K.written sink.new)
        (text_of (lines_all (event_look 0) world.now.world_core watch.old)) }
    ensures sees { OnOk result (watch.new ≡ see_all (event_look 0) world.now.world_core watch.old) }
    ensures whole { OnOk result (Appends (K.written sink.old) (K.written sink.new)
        (text_of (lines_all (event_look 0) world.now.world_core watch.old))) }
    ensures works { result ≢ Err Cut.Write → K.failures sink.new ≡ K.failures sink.old }
    ensures fails { result ≡ Err Cut.Write → K.failures sink.new ≢ K.failures sink.old }
{
    let mut text = String::new(alloc);
    watch.see_start(&mut text, world)?;
    write_whole(sink, text.as_bytes())?;
    Ok(())
}

/// Writes whether a limit was exceeded, where one is given, and answers whether one was.
fn end_verdict<K: Sink>(
    alloc: Global,
    limits: &Limits,
    exceeded: Option<Limit>,
    sink: &mut K,
) -> Result<bool, Cut>
    ensures some { AppendsSome (K.written sink.old) (K.written sink.new) (text_of (verdict_lines limits.now exceeded)) }
    ensures is { IfOk result (λ is. is ≡ is_exceeded limits.now exceeded) }
    ensures whole { OnOk result
        (Appends (K.written sink.old) (K.written sink.new) (text_of (verdict_lines limits.now exceeded))) }
    ensures works { result ≢ Err Cut.Write → K.failures sink.new ≡ K.failures sink.old }
    ensures fails { result ≡ Err Cut.Write → K.failures sink.new ≢ K.failures sink.old }
{
    let mut text = String::new(alloc);
    let is_exceeded = write_verdict(&mut text, limits, exceeded)?;
    write_whole(sink, text.as_bytes())?;
    Ok(is_exceeded)
}

/// Lets the world of a document run up to a time, at most `LAST_MOMENT`, and writes what changes at which system when,
/// what became of each stretch between the times of events, and whether each keeps to the limits, where any is given;
/// answers whether one doesn't.
///
/// Errors: [`Cut::Write`] exactly where a write failed, after which nothing more happens; [`Cut::Memory`] where memory
/// ran out or an act was refused, which is meant to be for want of memory alone; that it is so isn't promised. What was
/// written until then stands.
pub fn write_timeline<F: Fate + Drop, K: Sink>(
    alloc: Global,
    document: &Document,
    fate: F,
    until: u64,
    options: &TimelineOptions,
    sink: &mut K,
) -> Result<bool, Cut>
    requires moment { IsMoment until }
    ensures whole { IfOk result (λ exceeded. (lines : List (List ℕ))
        × TimelineOf F.answers document.now until options.now fate lines exceeded
        × Appends (K.written sink.old) (K.written sink.new) (text_of lines)) }
    ensures some { OnErr result ((lines : List (List ℕ))
        × BeginsTimeline F.answers document.now until options.now fate lines
        × AppendsSome (K.written sink.old) (K.written sink.new) (text_of lines)) }
    ensures works { result ≢ Err Cut.Write → K.failures sink.new ≡ K.failures sink.old }
    ensures fails { result ≡ Err Cut.Write → K.failures sink.new ≢ K.failures sink.old }
{
    let settling = settling_times(alloc, document)?;
    let mut world = begin(alloc, document, fate)?;
    let mut watch = watch_before(alloc, &world, options, SetAside::nobody(alloc))?;
    write_start(alloc, &world, &mut watch, sink)?;
    let kept = all_stretches(
        alloc, document, &settling, true, &mut world, until, options, &mut watch, sink,
    )?;
    end_verdict(alloc, &options.limits, kept.exceeded, sink)
}

/// A summary, in which it is told what systems read, or isn't.
pub(crate) fn summary_with(times: bool) -> TimelineOptions
    ensures is { result ≡ summary_of times }
    ensures tracks { tracks result ≡ times }
{
    TimelineOptions {
        summary: true,
        offsets: false,
        times,
        limits: NO_LIMITS,
    }
}

/// Lets the world of a document run up to a time, at most `LAST_MOMENT`, and answers how the last stretches between the
/// times of events ended, three where there are so many: also what systems read in them, where that is asked, of which
/// some are set aside. Nothing is written, and how exact systems are isn't asked. Refused for want of memory alone.
pub fn last_stretches<F: Fate + Drop>(
    alloc: Global,
    document: &Document,
    fate: F,
    until: u64,
    times: bool,
    aside: SetAside,
) -> Result<LastStretches, Cut>
    requires moment { IsMoment until }
    ensures ends { IfOk result (EndsOf F.answers times aside document.now until fate) }
    ensures memory { IfErr result (λ e. e ≡ Cut.Memory) }
{
    let mut sink = NullSink;
    let options = summary_with(times);
    let settling = settling_times(alloc, document)?;
    let mut world = begin(alloc, document, fate)?;
    let mut watch = watch_before(alloc, &world, &options, aside)?;
    write_start(alloc, &world, &mut watch, &mut sink)?;
    let kept = all_stretches(
        alloc, document, &settling, false, &mut world, until, &options, &mut watch, &mut sink,
    )?;
    Ok(kept.last)
}
