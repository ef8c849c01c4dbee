//! An observer that tells what changes at which system when.

ghost use Rattle.std.specs.Prelude.{◌≡◌, ◌<◌, ◌+◌, ◌++◌, true, IfOk, OnOk, length, map, option_map, string_bytes, take};
ghost use Rattle.gptp_setup.specs.Intervals.{IsMoment};
ghost use Rattle.gptp_model.specs.Views.{rising_clocks};
ghost use Rattle.gptp_words.specs.Lines.{text_of};
ghost use Rattle.gptp_timeline.specs.Leaving.{LeavesAll};
ghost use Rattle.gptp_timeline.specs.TimeWatch.{times_after, times_begun};
ghost use Rattle.gptp_timeline.specs.Watch.{GetsNone, times_aside, times_lines_if, unseen, without_error};

use crate::aside::SetAside;
use crate::leaving::{can_take_over, leaves_all};
use crate::measures::{Measures, NOTHING};
use crate::time_watch::TimeWatch;
use crate::watched::{Watched, copy_systems};
use gptp_hints::ClockHints;
use gptp_links::Fate;
use gptp_report::sink::Sink;
use gptp_report::{Cut, Observer, write_whole};
use gptp_vector::ClockId;
use gptp_world::{Act, Done, Timed, World};
use std::alloc::{AllocError, Global};
use std::marker::Model;

/// An observer that writes a line for each event, for each system and port that an act left another, and for each
/// receipt of time, where they are asked for, and measures what became of a stretch. It passes over acts that leave all
/// that is shown as it was, and by which no system gets a reading. It is seen as what it keeps.
#[derive(Drop)]
pub(crate) struct Watch {
    // Whether events and changes are left out.
    pub(crate) summary: bool,
    // Whether receipts are told.
    pub(crate) offsets: bool,
    // From when on the receipts of each system count by themselves, in ns, if they do.
    pub(crate) exact_from: Option<u64>,
    // What is kept of each system, by rising clock.
    pub(crate) systems: Vec<Watched>,
    // The place of each, which is tried before they are searched.
    hints: ClockHints,
    // What is measured in this stretch so far.
    pub(crate) measures: Measures,
    // What systems read, where that is asked.
    times: Option<TimeWatch>,
}

impl Model for Watch {
    ghost use Rattle.gptp_timeline.specs.Watch.{WatchState};

    ghost Value = { WatchState };

    ghost use Rattle.gptp_timeline.specs.Watch.{WatchedRise};

    ghost view = { λ w. record {
      summary = w.summary;
      offsets = w.offsets;
      exact_from = w.exact_from;
      systems = w.systems.items;
      measures = w.measures;
      times = w.times;
    } };

    ghost invariant = { λ w. WatchedRise w.systems.items };
}

/// What is kept of a system that hasn't started.
fn unseen(clock: ClockId) -> Watched
    ensures { result ≡ unseen clock }
{
    Watched {
        clock,
        shown: None,
        since: None,
        error: None,
    }
}

/// Puts the system at a place by rising clock after others.
fn push_unseen<F: Fate + Drop>(
    systems: &mut Vec<Watched>,
    world: &World<F>,
    place: usize,
) -> Result<(), AllocError>
    requires { systems.old.items ≡ map unseen (take place (rising_clocks world.now.world_core)) }
    ensures { OnOk result (systems.new.items ≡ map unseen (take (place + 1) (rising_clocks world.now.world_core))) }
{
    if let Some(clock) = world.clock_at(place) {
        systems.push(unseen(clock))?;
    }
    Ok(())
}

/// What is kept of all systems, by rising clock, before they start.
fn all_unseen<F: Fate + Drop>(alloc: Global, world: &World<F>) -> Result<Vec<Watched>, AllocError>
    ensures { IfOk result (λ v. v.items ≡ map unseen (rising_clocks world.now.world_core)) }
{
    let mut systems = Vec::new(alloc);
    for place in 0..world.count() {
        push_unseen(&mut systems, world, place)?;
    }
    Ok(systems)
}

/// The place of each of these systems, as a hint.
fn list_hints(alloc: Global, systems: &[Watched]) -> Result<ClockHints, AllocError> {
    let mut hints = ClockHints::new(alloc)?;
    let mut place = 0;
    for system in systems {
        hints.put(system.clock, place);
        place = place.wrapping_add(1);
    }
    Ok(hints)
}

/// No receipt of any system counts by itself so far.
fn clear_errors(systems: &mut Vec<Watched>)
    ensures { systems.new.items ≡ map without_error systems.old.items }
{
    for place in 0..systems.len() {
        systems[place].error = None;
    }
}

/// Whether no system gets a reading by an act that leaves all that is shown as it was, as far as there is an account.
fn gets_none<F: Fate + Drop>(
    times: &Option<TimeWatch>,
    world: &World<F>,
    act: &Act,
    done: &Done,
) -> bool
    requires { LeavesAll act.now done.now }
    ensures { result ≡ true → GetsNone act.now done.now world.now.world_core times.now }
{
    match times {
        Some(times) => !can_take_over(act) || times.gets_none(world, act, done),
        None => true,
    }
}

/// The same account, where there is one, of which these systems are set aside.
fn copy_times(
    alloc: Global,
    times: &Option<TimeWatch>,
    aside: SetAside,
) -> Result<Option<TimeWatch>, AllocError>
    ensures { IfOk result (λ copy. copy ≡ option_map (times_aside aside) times.now) }
{
    match times {
        Some(times) => Ok(Some(times.copy(alloc, aside)?)),
        None => Ok(None),
    }
}

/// A stretch begins in the account, where there is one.
fn begin_times(times: &mut Option<TimeWatch>, at: u64, exact_from: Option<u64>, events: usize)
    ensures { times.new ≡ option_map (times_begun at exact_from events) times.old }
{
    match times {
        Some(times) => times.begin(at, exact_from, events),
        None => {}
    }
}

/// The account sees an act that was done, where there is one.
fn see_times<F: Fate + Drop>(
    times: &mut Option<TimeWatch>,
    text: &mut String,
    world: &World<F>,
    timed: &Timed,
    done: &Done,
) -> Result<(), AllocError>
    requires { IsMoment timed.now.at }
    ensures sees { OnOk result (times.new
        ≡ option_map (times_after timed.now.at timed.now.act done.now world.now.world_core) times.old) }
    ensures tells { OnOk result (string_bytes text.new
        ≡ string_bytes text.old ++ text_of (times_lines_if timed.now.at timed.now.act done.now world.now.world_core times.old)) }
{
    match times {
        Some(times) => times.see(text, world, timed, done),
        None => Ok(()),
    }
}

impl Watch {
    ghost use Rattle.std.specs.Prelude.{◌≡◌, ◌<◌, ◌++◌, None, false, true, IfOk, IfSome, OnOk, length, map, slice_get, Some, string_bytes};
    ghost use Rattle.gptp_model.specs.Views.{rising_clocks};
    ghost use Rattle.gptp_words.specs.Lines.{text_of};
    ghost use Rattle.gptp_timeline.specs.Watch.{WatchedRise, watch_begun, nothing, PassesOver, place_of, see_times, times_lines_if, unseen, with_aside};
    ghost use Rattle.gptp_timeline.specs.declared.watched.Watched.{Watched};

    /// An observer of a world whose systems start, before it has seen that.
    pub(crate) fn new<F: Fate + Drop>(
        alloc: Global,
        world: &World<F>,
        summary: bool,
        offsets: bool,
        times: Option<TimeWatch>,
    ) -> Result<Self, AllocError>
        ensures { IfOk result (λ w. w ≡ record {
          summary = summary;
          offsets = offsets;
          exact_from = None;
          systems = map unseen (rising_clocks world.now.world_core);
          measures = nothing;
          times = times;
        }) }
    {
        world.well_formed();
        let systems = all_unseen(alloc, world)?;
        let hints = list_hints(alloc, &systems)?;
        Ok(Watch {
            summary,
            offsets,
            exact_from: None,
            systems,
            hints,
            measures: NOTHING,
            times,
        })
    }

    /// The same observer, with these systems set aside. Refused for want of memory alone.
    pub(crate) fn copy(&self, alloc: Global, aside: SetAside) -> Result<Self, AllocError>
        ensures { IfOk result (λ w. w ≡ with_aside aside self.now) }
    {
        let systems = copy_systems(alloc, &self.systems)?;
        let hints = list_hints(alloc, &systems)?;
        Ok(Watch {
            summary: self.summary,
            offsets: self.offsets,
            exact_from: self.exact_from,
            systems,
            hints,
            measures: self.measures,
            times: copy_times(alloc, &self.times, aside)?,
        })
    }

    /// What is kept of each system, by rising clock.
    pub(crate) fn systems(&self) -> &[Watched]
        ensures are { result.now ≡ self.now.systems }
        ensures rises { WatchedRise result.now }
    {
        &self.systems
    }

    /// What is measured in this stretch so far.
    pub(crate) fn measures(&self) -> Measures
        ensures { result ≡ self.now.measures }
    {
        self.measures
    }

    /// A stretch begins at a time, in which the receipts of each system count by themselves from another on.
    pub(crate) fn begin(&mut self, at: u64, exact_from: Option<u64>, events: usize)
        ensures { self.new ≡ watch_begun at exact_from events self.old }
    {
        self.exact_from = exact_from;
        self.measures = NOTHING;
        clear_errors(&mut self.systems);
        begin_times(&mut self.times, at, exact_from, events);
    }

    /// What systems read, where that is asked.
    pub(crate) fn times(&self) -> &Option<TimeWatch>
        ensures { result.now ≡ self.now.times }
    {
        &self.times
    }

    /// Whether an act is passed over: it leaves all that is shown as it was, and no system gets a reading by it.
    fn passes_over<F: Fate + Drop>(&self, world: &World<F>, act: &Act, done: &Done) -> bool
        ensures { result ≡ true → PassesOver act.now done.now world.now.world_core self.now }
    {
        leaves_all(act, done) && gets_none(&self.times, world, act, done)
    }

    /// Sees what an act does to what systems read.
    fn see_times<F: Fate + Drop>(
        &mut self,
        text: &mut String,
        world: &World<F>,
        timed: &Timed,
        done: &Done,
    ) -> Result<(), AllocError>
        requires { IsMoment timed.now.at }
        ensures sees { OnOk result (self.new ≡ see_times timed.now.at timed.now.act done.now world.now.world_core self.old) }
        ensures tells { OnOk result (string_bytes text.new
            ≡ string_bytes text.old ++ text_of (times_lines_if timed.now.at timed.now.act done.now world.now.world_core self.old.times)) }
    {
        see_times(&mut self.times, text, world, timed, done)
    }

    /// How many systems there are.
    pub(crate) fn count(&self) -> usize
        ensures { result ≡ length self.now.systems }
    {
        self.systems.len()
    }

    /// The place of a system, by a search for its clock.
    fn search_place(&self, clock: ClockId) -> Option<usize>
        ensures is { result ≡ place_of clock self.now }
        ensures within { IfSome result (λ place. place < length self.now.systems) }
        ensures named { IfSome result (λ place. (x : Watched) → slice_get self.now.systems place ≡ Some x → x.clock ≡ clock) }
    {
        self.systems
            .binary_search_by_key(&clock, |system| system.clock)
            .ok()
    }

    /// Whether the system with a clock stands at a place.
    fn stands_at(&self, clock: ClockId, place: usize) -> bool
        ensures within { result ≡ true → place < length self.now.systems }
        ensures named { result ≡ true → (x : Watched) → slice_get self.now.systems place ≡ Some x → x.clock ≡ clock }
    {
        place < self.count() && self.clock_at(place) == clock
    }

    /// The place of a system, by its clock.
    pub(crate) fn place_of(&self, clock: ClockId) -> Option<usize>
        ensures is { result ≡ place_of clock self.now }
        ensures within { IfSome result (λ place. place < length self.now.systems) }
        ensures named { IfSome result (λ place. (x : Watched) → slice_get self.now.systems place ≡ Some x → x.clock ≡ clock) }
    {
        let place = self.hints.place(clock);
        match self.stands_at(clock, place) {
            true => Some(place),
            false => self.search_place(clock),
        }
    }

    /// The clock of the system at a place.
    pub(crate) fn clock_at(&self, place: usize) -> ClockId
        requires { place < length self.now.systems }
        ensures { (x : Watched) → slice_get self.now.systems place ≡ Some x → result ≡ x.clock }
    {
        self.systems[place].clock
    }
}

impl Observer for Watch {
    ghost use Rattle.gptp_timeline.specs.Watch.{tells_changes};

    ghost tells = { tells_changes };

    fn wants(&self) -> bool {
        true
    }

    fn observe<F: Fate + Drop, K: Sink>(
        &mut self,
        alloc: Global,
        world: &World<F>,
        timed: &Timed,
        done: &Done,
        sink: &mut K,
    ) -> Result<(), Cut> {
        if self.passes_over(world, &timed.act, done) {
            return Ok(());
        }
        let mut text = String::new(alloc);
        self.see(&mut text, world, timed, done)?;
        self.see_times(&mut text, world, timed, done)?;
        write_whole(sink, text.as_bytes())?;
        Ok(())
    }
}
