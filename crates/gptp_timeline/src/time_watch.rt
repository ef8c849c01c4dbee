//! An observer's account of what systems read of time.

ghost use Rattle.std.specs.Prelude.{◌≡◌, ◌+◌, ◌==◌, ◌&&◌, IfOk, OnOk, map, take};
ghost use Rattle.gptp_setup.specs.Intervals.{IsMoment};
ghost use Rattle.gptp_model.specs.Views.{rising_clocks};
ghost use Rattle.gptp_timeline.specs.ExactReads.{unread};
ghost use Rattle.gptp_timeline.specs.Readings.{no_reading};
ghost use Rattle.gptp_timeline.specs.Aside.{readings_begun, without_readings};
ghost use Rattle.gptp_timeline.specs.Stretch.{is_change};

use crate::all_readings::AllReadings;
use crate::aside::SetAside;
use crate::exact_reads::{
    ExactReads, SystemReads, amount_of, clear_reads, reads_among, reads_ended, take_reads,
};
use crate::looks::{NOTHING_READ, TimeMeasures, look_at_all, look_at_new, told_if};
use crate::readings::{
    Jump, NewReading, SystemReading, can_give_reading, changes_source, failed_by, jump_of,
    new_reading, reading_error,
};
use crate::time_lines::write_reading;
use gptp_links::Fate;
use gptp_vector::ClockId;
use gptp_world::{Act, Done, Timed, World};
use std::alloc::{AllocError, Global};
use std::marker::Model;

/// What is kept of what all systems read.
#[derive(Drop)]
pub(crate) struct TimeWatch {
    // Whether its lines are asked for where a stretch ends.
    lines: bool,
    // Whether each reading that a system gets is told.
    told: bool,
    // From when on the receipts of each system count by themselves, in ns, if they do.
    exact_from: Option<u64>,
    // How many events of this stretch are still to come.
    events_left: usize,
    // What each system reads by, by rising clock.
    systems: AllReadings,
    // What each read from its first receipt on that counts by itself, by rising clock.
    reads: Vec<SystemReads>,
    // What is measured in this stretch so far.
    measures: TimeMeasures,
    // Who is set aside.
    aside: SetAside,
}

impl Model for TimeWatch {
    ghost use Rattle.gptp_timeline.specs.TimeWatch.{ReadsRise, TimeState};

    ghost Value = { TimeState };

    ghost view = { λ w. record {
      lines = w.lines;
      told = w.told;
      exact_from = w.exact_from;
      events_left = w.events_left;
      systems = w.systems;
      reads = w.reads.items;
      measures = w.measures;
      aside = w.aside;
    } };

    ghost invariant = { λ w. ReadsRise w.reads.items };
}

/// Puts the system at a place by rising clock after others: it has no time.
fn push_no_reading<F: Fate + Drop>(
    systems: &mut Vec<SystemReading>,
    world: &World<F>,
    place: usize,
) -> Result<(), AllocError>
    requires { systems.old.items ≡ map no_reading (take place (rising_clocks world.now.world_core)) }
    ensures { OnOk result (systems.new.items ≡ map no_reading (take (place + 1) (rising_clocks world.now.world_core))) }
{
    if let Some(clock) = world.clock_at(place) {
        systems.push(SystemReading {
            clock,
            reading: None,
        })?;
    }
    Ok(())
}

/// No system has time.
fn no_readings<F: Fate + Drop>(
    alloc: Global,
    world: &World<F>,
) -> Result<Vec<SystemReading>, AllocError>
    ensures { IfOk result (λ v. v.items ≡ map no_reading (rising_clocks world.now.world_core)) }
{
    let mut systems = Vec::new(alloc);
    for place in 0..world.count() {
        push_no_reading(&mut systems, world, place)?;
    }
    Ok(systems)
}

/// Puts the system at a place by rising clock after others: nothing is kept of it.
fn push_unread<F: Fate + Drop>(
    systems: &mut Vec<SystemReads>,
    world: &World<F>,
    place: usize,
) -> Result<(), AllocError>
    requires { systems.old.items ≡ map unread (take place (rising_clocks world.now.world_core)) }
    ensures { OnOk result (systems.new.items ≡ map unread (take (place + 1) (rising_clocks world.now.world_core))) }
{
    if let Some(clock) = world.clock_at(place) {
        systems.push(SystemReads { clock, reads: None })?;
    }
    Ok(())
}

/// Nothing is kept of any system.
fn all_unread<F: Fate + Drop>(
    alloc: Global,
    world: &World<F>,
) -> Result<Vec<SystemReads>, AllocError>
    ensures { IfOk result (λ v. v.items ≡ map unread (rising_clocks world.now.world_core)) }
{
    let mut systems = Vec::new(alloc);
    for place in 0..world.count() {
        push_unread(&mut systems, world, place)?;
    }
    Ok(systems)
}

/// These systems have no time from now on.
fn lose_all(systems: &mut AllReadings, clocks: &[ClockId])
    ensures { systems.new ≡ without_readings clocks.now systems.old }
{
    for clock in clocks {
        systems.lose(*clock);
    }
}

/// Those that begin to be set aside have no time from now on.
fn set_aside(systems: &mut AllReadings, aside: &SetAside)
    ensures { systems.new ≡ readings_begun aside.now systems.old }
{
    if aside.begins() {
        lose_all(systems, aside.clocks());
    }
}

impl TimeWatch {
    ghost use Rattle.std.specs.Prelude.{◌≡◌, ◌++◌, None, Some, IfOk, OnOk, true, map, option_and_then, string_bytes};
    ghost use Rattle.gptp_model.specs.Views.{rising_clocks};
    ghost use Rattle.gptp_words.specs.Lines.{text_of};
    ghost use Rattle.gptp_timeline.specs.ExactReads.{ended_reads, unread};
    ghost use Rattle.gptp_timeline.specs.Looks.{left_after, looked_all, measured_with, nothing_read};
    ghost use Rattle.gptp_timeline.specs.Jumps.{IsSmallJump, jump_of};
    ghost use Rattle.gptp_timeline.specs.Readings.{new_reading, no_reading, reading_among, reading_error, without_failed};
    ghost use Rattle.gptp_timeline.specs.TimeWatch.{reading_lines, times_after, times_begun, times_lines, times_looked, times_with};

    /// An account of a world whose systems start, whose lines are asked for, and whose readings are told, or aren't.
    pub(crate) fn new<F: Fate + Drop>(
        alloc: Global,
        world: &World<F>,
        lines: bool,
        told: bool,
        aside: SetAside,
    ) -> Result<Self, AllocError>
        ensures { IfOk result (λ w. w ≡ record {
          lines = lines;
          told = told;
          exact_from = None;
          events_left = 0;
          systems = map no_reading (rising_clocks world.now.world_core);
          reads = map unread (rising_clocks world.now.world_core);
          measures = nothing_read;
          aside = aside;
        }) }
    {
        world.well_formed();
        let systems = no_readings(alloc, world)?;
        let reads = all_unread(alloc, world)?;
        Ok(TimeWatch {
            lines,
            told,
            exact_from: None,
            events_left: 0,
            systems: AllReadings::new(alloc, systems),
            reads,
            measures: NOTHING_READ,
            aside,
        })
    }

    /// The same account, of which these systems are set aside. Refused for want of memory alone.
    pub(crate) fn copy(&self, alloc: Global, aside: SetAside) -> Result<Self, AllocError>
        ensures { IfOk result (λ w. w ≡ record self.now { aside = aside }) }
    {
        Ok(TimeWatch {
            lines: self.lines,
            told: self.told,
            exact_from: self.exact_from,
            events_left: self.events_left,
            systems: self.systems.copy(alloc)?,
            reads: Vec::from_slice(alloc, &self.reads)?,
            measures: self.measures,
            aside,
        })
    }

    /// Whether its lines are asked for where a stretch ends.
    pub(crate) fn lines(&self) -> bool
        ensures { result ≡ self.now.lines }
    {
        self.lines
    }

    /// A stretch begins at a time with so many events, in which the receipts of each system count by themselves from
    /// another on. Who begins to be set aside has no time from now on.
    pub(crate) fn begin(&mut self, at: u64, exact_from: Option<u64>, events: usize)
        ensures { self.new ≡ times_begun at exact_from events self.old }
    {
        self.exact_from = exact_from;
        self.events_left = events;
        self.measures = NOTHING_READ;
        clear_reads(&mut self.reads);
        self.aside.begin(at);
        set_aside(&mut self.systems, &self.aside);
    }

    /// A system gets a reading at a time, with this jump.
    fn take_new<F: Fate + Drop>(
        &mut self,
        world: &World<F>,
        at: u64,
        act: &Act,
        new: &NewReading,
        jump: &Jump,
    ) -> Result<(), AllocError>
        requires moment { IsMoment at }
        requires before { new.now.before ≡ reading_among self.old.systems new.now.clock }
        requires jump { jump.now ≡ jump_of at world.now.world_core new.now }
        requires small { IsSmallJump jump.now }
        ensures { OnOk result (self.new ≡ times_with at world.now.world_core act.now (Some new.now) self.old) }
    {
        let changes = changes_source(new);
        let before = told_if(changes, world, at, self.systems.sources());
        self.systems.put(new.clock, &new.before, new.after)?;
        let after = told_if(changes, world, at, self.systems.sources());
        self.measures = look_at_new(self.measures, at, new, jump, before, after);
        take_reads(&mut self.reads, self.exact_from, at, new, jump);
        self.count_event(act);
        Ok(())
    }

    /// The system with a clock has failed, if one has.
    fn take_failed(&mut self, failed: Option<ClockId>)
        ensures { self.new ≡ record self.old { systems = without_failed failed self.old.systems } }
    {
        if let Some(clock) = failed {
            self.systems.lose(clock);
        }
    }

    /// One event of the stretch less is still to come, where an act is one.
    fn count_event(&mut self, act: &Act)
        ensures { self.new ≡ record self.old { events_left = left_after act.now self.old.events_left } }
    {
        if let Act::Change(_) = act {
            self.events_left = self.events_left.saturating_sub(1);
        }
    }

    /// No system gets a reading by an act.
    fn take_none<F: Fate + Drop>(&mut self, world: &World<F>, at: u64, act: &Act)
        requires { IsMoment at }
        ensures { self.new ≡ times_with at world.now.world_core act.now None self.old }
    {
        self.take_failed(failed_by(act));
        if is_last_event(act, self.events_left) {
            self.measures = look_at_all(
                self.measures,
                world,
                at,
                self.systems.systems(),
                self.systems.sources(),
            );
        }
        self.count_event(act);
    }

    /// Appends the line of a reading that a system got, where that is told.
    fn write_new<F: Fate + Drop>(
        &self,
        text: &mut String,
        world: &World<F>,
        at: u64,
        new: &NewReading,
    ) -> Result<(), AllocError>
        requires { IsMoment at }
        ensures { OnOk result (string_bytes text.new
            ≡ string_bytes text.old ++ text_of (reading_lines self.now.told at world.now.world_core (Some new.now))) }
    {
        match self.told {
            true => write_reading(text, world, at, new),
            false => Ok(()),
        }
    }

    /// Whether no system gets a reading by an act that was done.
    pub(crate) fn gets_none<F: Fate + Drop>(&self, world: &World<F>, act: &Act, done: &Done) -> bool
        ensures { result ≡ true → new_reading act.now done.now world.now.world_core self.now.systems ≡ None }
    {
        new_reading(world, self.systems.systems(), act, done).is_none()
    }

    /// Sees an act by which a system can get a reading.
    fn see_reading<F: Fate + Drop>(
        &mut self,
        text: &mut String,
        world: &World<F>,
        timed: &Timed,
        done: &Done,
    ) -> Result<(), AllocError>
        requires { IsMoment timed.now.at }
        ensures sees { OnOk result (self.new ≡ times_with timed.now.at world.now.world_core timed.now.act
            (new_reading timed.now.act done.now world.now.world_core self.old.systems) self.old) }
        ensures tells { OnOk result (string_bytes text.new
            ≡ string_bytes text.old ++ text_of (reading_lines self.old.told timed.now.at world.now.world_core
            (new_reading timed.now.act done.now world.now.world_core self.old.systems))) }
    {
        match new_reading(world, self.systems.systems(), &timed.act, done) {
            Some(new) => {
                self.write_new(text, world, timed.at, &new)?;
                let jump = jump_of(world, timed.at, &new);
                self.take_new(world, timed.at, &timed.act, &new, &jump)?;
            }
            None => self.take_none(world, timed.at, &timed.act),
        }
        Ok(())
    }

    /// Sees an act that is looked at.
    fn see_act<F: Fate + Drop>(
        &mut self,
        text: &mut String,
        world: &World<F>,
        timed: &Timed,
        done: &Done,
    ) -> Result<(), AllocError>
        requires { IsMoment timed.now.at }
        ensures sees { OnOk result (self.new ≡ times_with timed.now.at world.now.world_core timed.now.act
            (new_reading timed.now.act done.now world.now.world_core self.old.systems) self.old) }
        ensures tells { OnOk result (string_bytes text.new
            ≡ string_bytes text.old ++ text_of (reading_lines self.old.told timed.now.at world.now.world_core
            (new_reading timed.now.act done.now world.now.world_core self.old.systems))) }
    {
        match can_give_reading(&timed.act, done) {
            true => self.see_reading(text, world, timed, done),
            false => {
                self.take_none(world, timed.at, &timed.act);
                Ok(())
            }
        }
    }

    /// Sees an act, unless what it does to what systems read isn't looked at.
    fn see_looked<F: Fate + Drop>(
        &mut self,
        text: &mut String,
        world: &World<F>,
        timed: &Timed,
        done: &Done,
    ) -> Result<(), AllocError>
        requires { IsMoment timed.now.at }
        ensures sees { OnOk result (self.new ≡ times_looked timed.now.at timed.now.act done.now world.now.world_core self.old) }
        ensures tells { OnOk result (string_bytes text.new
            ≡ string_bytes text.old ++ text_of (times_lines timed.now.at timed.now.act done.now world.now.world_core self.old)) }
    {
        match self.aside.leaves_out(&timed.act, done) {
            true => Ok(()),
            false => self.see_act(text, world, timed, done),
        }
    }

    /// Sees an act that was done.
    pub(crate) fn see<F: Fate + Drop>(
        &mut self,
        text: &mut String,
        world: &World<F>,
        timed: &Timed,
        done: &Done,
    ) -> Result<(), AllocError>
        requires { IsMoment timed.now.at }
        ensures sees { OnOk result (self.new ≡ times_after timed.now.at timed.now.act done.now world.now.world_core self.old) }
        ensures tells { OnOk result (string_bytes text.new
            ≡ string_bytes text.old ++ text_of (times_lines timed.now.at timed.now.act done.now world.now.world_core self.old)) }
    {
        self.see_looked(text, world, timed, done)?;
        self.aside.release(&timed.act, done);
        Ok(())
    }

    /// What is measured of a stretch that ends at a time.
    pub(crate) fn ended<F: Fate + Drop>(&self, world: &World<F>, to: u64) -> TimeMeasures
        requires { IsMoment to }
        ensures { result ≡ measured_with (looked_all to world.now.world_core self.now.systems) self.now.measures }
    {
        look_at_all(
            self.measures,
            world,
            to,
            self.systems.systems(),
            self.systems.sources(),
        )
    }

    /// How far off the system with a clock is at a time by what it reads, if it has time.
    fn error_at<F: Fate + Drop>(&self, world: &World<F>, to: u64, clock: ClockId) -> Option<i128>
        requires { IsMoment to }
        ensures { result ≡ option_and_then (reading_error to world.now.world_core clock) (reading_among self.now.systems clock) }
    {
        match self.systems.of(clock) {
            Some(kept) => reading_error(world, to, clock, &kept),
            None => None,
        }
    }

    /// What the system with a clock read from its first receipt on that counts by itself, in a stretch that ends at a
    /// time; nothing where there was no such receipt.
    pub(crate) fn reads_of<F: Fate + Drop>(
        &self,
        world: &World<F>,
        to: u64,
        clock: ClockId,
    ) -> Option<ExactReads>
        requires { IsMoment to }
        ensures { result ≡ ended_reads to world.now.world_core self.now.systems self.now.reads clock }
    {
        let error = amount_of(self.error_at(world, to, clock));
        match reads_among(&self.reads, clock) {
            Some(reads) => Some(reads_ended(to, error, reads)),
            None => None,
        }
    }
}

/// Whether an act is the last event of the stretch, where so many are still to come.
fn is_last_event(act: &Act, left: usize) -> bool
    ensures { result ≡ (is_change act.now && (left == 1)) }
{
    match act {
        Act::Change(_) => left == 1,
        _ => false,
    }
}
