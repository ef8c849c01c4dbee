//! What is kept and told of systems after an act.

ghost use Rattle.std.specs.Prelude.{◌≡◌, option_map, unsigned_abs};
ghost use Rattle.gptp_setup.specs.declared.limits.TheConstants.{MOST_PORTS};
ghost use Rattle.gptp_setup.specs.Intervals.{IsMoment};
ghost use Rattle.gptp_timeline.specs.Measures.{one_at};
ghost use Rattle.gptp_timeline.specs.Watch.{counts_from};

use crate::changes::write_changes;
use crate::compared::{Compared, compared_by_expiry, compared_by_frame};
use crate::event_line::write_event;
use crate::measures::{Greatest, better_if};
use crate::receipts::{error_of, received_by, write_offset};
use crate::shown::{Shown, shown_of, shows_left};
use crate::watch::Watch;
use crate::watched::{
    ActView, Watched, error_after, measures_after, since_behind, wait_behind, waits_on,
};
use gptp_links::Fate;
use gptp_scaled::ScaledNs;
use gptp_scenario::Change;
use gptp_system::System;
use gptp_vector::ClockId;
use gptp_world::{Act, Done, Timed, World};
use std::alloc::AllocError;

/// An amount without its sign, with a clock.
fn amount_at(clock: ClockId, error: Option<i128>) -> Option<Greatest>
    ensures { result ≡ option_map (λ e. one_at clock (unsigned_abs e)) error }
{
    match error {
        Some(error) => Some(Greatest {
            amount: error.unsigned_abs(),
            clock,
        }),
        None => None,
    }
}

/// Whether a receipt at a time counts by itself.
fn counts_from(from: Option<u64>, at: u64) -> bool
    ensures { result ≡ counts_from from at }
{
    match from {
        Some(from) => from <= at,
        None => false,
    }
}

/// The absolute value of an error.
fn amount_of(error: Option<i128>) -> Option<u128>
    ensures { result ≡ option_map unsigned_abs error }
{
    match error {
        Some(error) => Some(error.unsigned_abs()),
        None => None,
    }
}

impl Watch {
    ghost use Rattle.std.specs.Prelude.{◌≡◌, ◌≤◌, ◌<◌, ◌++◌, ◌∷◌, [], None, false, true, not, if◌then◌else◌, OnOk, length, slice_get, Some, string_bytes};
    ghost use Rattle.gptp_words.specs.Lines.{text_of};
    ghost use Rattle.gptp_timeline.specs.Changes.{change_lines};
    ghost use Rattle.gptp_timeline.specs.EventLine.{event_line};
    ghost use Rattle.gptp_timeline.specs.Receipts.{offset_line};
    ghost use Rattle.gptp_timeline.specs.Compared.{left_by};
    ghost use Rattle.gptp_timeline.specs.Shown.{shown_of};
    ghost use Rattle.gptp_timeline.specs.Watch.{delivery_lines, event_look, lines_all, lines_at, placed_lines, receipt_lines_of, see_act, see_all, see_at, see_delivery, see_placed, see_receipt_of, see_system, seen_lines, watched_lines, take_error, taken, unless};
    ghost use Rattle.gptp_timeline.specs.declared.watched.Watched.{Watched};

    /// Appends the lines of a system that is left as `after`, where they are asked for.
    fn write_changes_at(
        &self,
        text: &mut String,
        at: u64,
        place: usize,
        after: &Option<Shown>,
    ) -> Result<(), AllocError>
        requires { place < length self.now.systems }
        ensures { OnOk result ((x : Watched) → slice_get self.now.systems place ≡ Some x → string_bytes text.new
            ≡ string_bytes text.old ++ text_of (unless self.now.summary (change_lines at x.clock x.shown after.now))) }
    {
        let system = &self.systems[place];
        match self.summary {
            true => Ok(()),
            false => write_changes(text, at, system.clock, &system.shown, after),
        }
    }

    /// The system at a place is left as `after` by an act.
    fn take(&mut self, look: ActView, place: usize, after: Option<Shown>)
        requires { place < length self.old.systems }
        ensures { (x : Watched) → slice_get self.old.systems place ≡ Some x → self.new ≡ taken look place x after self.old }
    {
        let system = &self.systems[place];
        let measures = measures_after(look, system, &after, self.measures);
        let since = since_behind(look, system, &after);
        let clock = system.clock;
        let error = system.error;
        self.measures = measures;
        self.systems[place] = Watched {
            clock,
            shown: after,
            since,
            error,
        };
    }

    /// Whether no wait of the system at a place begins or ends by an act that left what is shown of it as it was.
    fn waits_on_at(&self, look: ActView, place: usize) -> bool
        requires { place < length self.now.systems }
        ensures { result ≡ true → (x : Watched) → slice_get self.now.systems place ≡ Some x → taken look place x x.shown self.now ≡ self.now }
    {
        waits_on(look, &self.systems[place])
    }

    /// An act left what is shown of the system at a place as it was.
    fn take_same(&mut self, look: ActView, place: usize)
        requires { place < length self.old.systems }
        ensures { (x : Watched) → slice_get self.old.systems place ≡ Some x → self.new ≡ taken look place x x.shown self.old }
    {
        if !self.waits_on_at(look, place) {
            self.take_wait(look, place);
        }
    }

    /// What is kept of a wait of the system at a place, after an act that left what is shown of it as it was.
    fn take_wait(&mut self, look: ActView, place: usize)
        requires { place < length self.old.systems }
        ensures { (x : Watched) → slice_get self.old.systems place ≡ Some x → self.new ≡ taken look place x x.shown self.old }
    {
        let system = &self.systems[place];
        let wait = wait_behind(look, system, &system.shown);
        let since = since_behind(look, system, &system.shown);
        self.measures.holdover = better_if(self.measures.holdover, wait);
        self.systems[place].since = since;
    }

    /// Whether a live system shows what was last shown of the system at a place.
    fn shows_at(&self, compared: Compared, place: usize, system: &System) -> bool
        requires place { place < length self.now.systems }
        requires few { length system.now.ports ≤ MOST_PORTS }
        ensures same { result ≡ true → (x : Watched) → slice_get self.now.systems place ≡ Some x
            → left_by compared (Some system.now) x.shown ≡ x.shown }
        ensures other { result ≡ false → (x : Watched) → slice_get self.now.systems place ≡ Some x
            → left_by compared (Some system.now) x.shown ≡ Some (shown_of system.now) }
    {
        match &self.systems[place].shown {
            Some(last) => shows_left(compared, system, last),
            None => false,
        }
    }

    /// The system at a place is left as `after` by an act.
    fn see_left(
        &mut self,
        text: &mut String,
        look: ActView,
        place: usize,
        after: Option<Shown>,
    ) -> Result<(), AllocError>
        requires { place < length self.old.systems }
        ensures sees { OnOk result ((x : Watched) → slice_get self.old.systems place ≡ Some x
            → self.new ≡ taken look place x after self.old) }
        ensures tells { OnOk result ((x : Watched) → slice_get self.old.systems place ≡ Some x → string_bytes text.new
            ≡ string_bytes text.old ++ text_of (unless self.old.summary (change_lines look.at x.clock x.shown after))) }
    {
        self.write_changes_at(text, look.at, place, &after)?;
        self.take(look, place, after);
        Ok(())
    }

    /// The system at a place is live after an act.
    fn see_live(
        &mut self,
        text: &mut String,
        look: ActView,
        place: usize,
        system: &System,
    ) -> Result<(), AllocError>
        requires place { place < length self.old.systems }
        requires few { length system.now.ports ≤ MOST_PORTS }
        ensures sees { OnOk result ((x : Watched) → slice_get self.old.systems place ≡ Some x
            → self.new ≡ taken look place x (left_by look.compared (Some system.now) x.shown) self.old) }
        ensures tells { OnOk result ((x : Watched) → slice_get self.old.systems place ≡ Some x → string_bytes text.new
            ≡ string_bytes text.old ++ text_of (unless self.old.summary
            (change_lines look.at x.clock x.shown (left_by look.compared (Some system.now) x.shown)))) }
    {
        if self.shows_at(look.compared, place, system) {
            self.take_same(look, place);
            return Ok(());
        }
        self.see_left(text, look, place, Some(shown_of(system)))
    }

    /// Looks at the system at a place after an act.
    fn see_at<F: Fate + Drop>(
        &mut self,
        text: &mut String,
        world: &World<F>,
        look: ActView,
        place: usize,
    ) -> Result<(), AllocError>
        requires { place < length self.old.systems }
        ensures sees { OnOk result (self.new ≡ see_at look world.now.world_core place self.old) }
        ensures tells { OnOk result (string_bytes text.new
            ≡ string_bytes text.old ++ text_of (lines_at look world.now.world_core place self.old)) }
    {
        world.well_formed();
        match world.system(self.clock_at(place)) {
            Some(system) => self.see_live(text, look, place, system),
            None => self.see_left(text, look, place, None),
        }
    }

    /// Looks at all systems after an act.
    fn see_all<F: Fate + Drop>(
        &mut self,
        text: &mut String,
        world: &World<F>,
        look: ActView,
    ) -> Result<(), AllocError>
        ensures sees { OnOk result (self.new ≡ see_all look world.now.world_core self.old) }
        ensures tells { OnOk result (string_bytes text.new
            ≡ string_bytes text.old ++ text_of (lines_all look world.now.world_core self.old)) }
    {
        for place in 0..self.count() {
            self.see_at(text, world, look, place)?;
        }
        Ok(())
    }

    /// Sees the start of all systems, at time 0.
    pub(crate) fn see_start<F: Fate + Drop>(
        &mut self,
        text: &mut String,
        world: &World<F>,
    ) -> Result<(), AllocError>
        ensures sees { OnOk result (self.new ≡ see_all (event_look 0) world.now.world_core self.old) }
        ensures tells { OnOk result (string_bytes text.new
            ≡ string_bytes text.old ++ text_of (lines_all (event_look 0) world.now.world_core self.old)) }
    {
        let look = ActView {
            at: 0,
            by_event: true,
            received: false,
            compared: Compared::All,
        };
        self.see_all(text, world, look)
    }

    /// Appends the line of an event, where it is asked for.
    fn write_event_if(&self, text: &mut String, at: u64, change: &Change) -> Result<(), AllocError>
        ensures { OnOk result (string_bytes text.new
            ≡ string_bytes text.old ++ text_of (unless self.now.summary (event_line at change.now ∷ []))) }
    {
        match self.summary {
            true => Ok(()),
            false => write_event(text, at, change),
        }
    }

    /// Sees an event that was made.
    fn see_event<F: Fate + Drop>(
        &mut self,
        text: &mut String,
        world: &World<F>,
        at: u64,
        change: &Change,
    ) -> Result<(), AllocError>
        ensures sees { OnOk result (self.new ≡ see_all (event_look at) world.now.world_core self.old) }
        ensures tells { OnOk result (string_bytes text.new
            ≡ string_bytes text.old ++ text_of (unless self.old.summary (event_line at change.now ∷ [])
            ++ lines_all (event_look at) world.now.world_core self.old)) }
    {
        self.write_event_if(text, at, change)?;
        let look = ActView {
            at,
            by_event: true,
            received: false,
            compared: Compared::All,
        };
        self.see_all(text, world, look)
    }

    /// The receipt of the system at a place, with that error, is measured.
    fn take_error(&mut self, at: u64, place: usize, error: Option<i128>)
        requires { place < length self.old.systems }
        ensures { self.new ≡ take_error at place (slice_get self.old.systems place) error self.old }
    {
        let counts = counts_from(self.exact_from, at);
        let clock = self.systems[place].clock;
        self.measures.error = better_if(self.measures.error, amount_at(clock, error));
        let most = self.systems[place].error;
        self.systems[place].error = error_after(counts, most, amount_of(error));
    }

    /// Appends the line of a receipt with that offset and error, where it is asked for.
    fn write_offset_if(
        &self,
        text: &mut String,
        at: u64,
        clock: ClockId,
        offset: Option<ScaledNs>,
        error: Option<i128>,
    ) -> Result<(), AllocError>
        ensures { OnOk result (string_bytes text.new
            ≡ string_bytes text.old ++ text_of (unless (not self.now.offsets) (offset_line at clock offset error ∷ []))) }
    {
        match self.offsets {
            true => write_offset(text, at, clock, offset, error),
            false => Ok(()),
        }
    }

    /// Sees the receipt of time of a live system, which is that at a place.
    fn see_receipt<F: Fate + Drop>(
        &mut self,
        text: &mut String,
        world: &World<F>,
        at: u64,
        clock: ClockId,
        place: usize,
        system: &System,
    ) -> Result<(), AllocError>
        requires moment { IsMoment at }
        requires place { place < length self.old.systems }
        ensures sees { OnOk result (self.new ≡ see_receipt_of at world.now.world_core place (Some system.now) self.old) }
        ensures tells { OnOk result (string_bytes text.new
            ≡ string_bytes text.old ++ text_of (unless (not self.old.offsets)
            (receipt_lines_of at world.now.world_core clock (Some system.now)))) }
    {
        let error = error_of(at, system, world);
        self.write_offset_if(text, at, clock, system.offset(), error)?;
        self.take_error(at, place, error);
        Ok(())
    }

    /// Sees the receipt of time of a live system, which is that at a place, where time was received.
    fn see_receipt_if<F: Fate + Drop>(
        &mut self,
        text: &mut String,
        world: &World<F>,
        received: bool,
        at: u64,
        clock: ClockId,
        place: usize,
        system: &System,
    ) -> Result<(), AllocError>
        requires moment { IsMoment at }
        requires place { place < length self.old.systems }
        ensures sees { OnOk result (self.new
            ≡ (if received then see_receipt_of at world.now.world_core place (Some system.now) self.old else self.old)) }
        ensures tells { OnOk result (string_bytes text.new
            ≡ string_bytes text.old ++ text_of (if received then
            unless (not self.old.offsets) (receipt_lines_of at world.now.world_core clock (Some system.now)) else [])) }
    {
        match received {
            true => self.see_receipt(text, world, at, clock, place, system),
            false => Ok(()),
        }
    }

    /// Sees a delivery or an expiry at the system with a clock, which is that at a place.
    fn see_placed<F: Fate + Drop>(
        &mut self,
        text: &mut String,
        world: &World<F>,
        at: u64,
        clock: ClockId,
        received: bool,
        compared: Compared,
        place: usize,
    ) -> Result<(), AllocError>
        requires moment { IsMoment at }
        requires place { place < length self.old.systems }
        requires named { (x : Watched) → slice_get self.old.systems place ≡ Some x → x.clock ≡ clock }
        ensures sees { OnOk result (self.new ≡ see_placed at world.now.world_core clock received compared (Some place) self.old) }
        ensures tells { OnOk result (string_bytes text.new
            ≡ string_bytes text.old ++ text_of (placed_lines at world.now.world_core clock received compared (Some place) self.old)) }
    {
        let look = ActView {
            at,
            by_event: false,
            received,
            compared,
        };
        world.well_formed();
        match world.system(clock) {
            Some(system) => {
                self.see_live(text, look, place, system)?;
                self.see_receipt_if(text, world, received, at, clock, place, system)
            }
            None => self.see_left(text, look, place, None),
        }
    }

    /// Sees a delivery or an expiry at the system with a clock, by which it received time or didn't.
    fn see_system<F: Fate + Drop>(
        &mut self,
        text: &mut String,
        world: &World<F>,
        at: u64,
        clock: ClockId,
        received: bool,
        compared: Compared,
    ) -> Result<(), AllocError>
        requires { IsMoment at }
        ensures sees { OnOk result (self.new ≡ see_system at world.now.world_core clock received compared self.old) }
        ensures tells { OnOk result (string_bytes text.new
            ≡ string_bytes text.old ++ text_of (watched_lines at world.now.world_core clock received compared self.old)) }
    {
        match self.place_of(clock) {
            Some(place) => self.see_placed(text, world, at, clock, received, compared, place),
            None => Ok(()),
        }
    }

    /// Sees a delivery of which this is told.
    fn see_delivery<F: Fate + Drop>(
        &mut self,
        text: &mut String,
        world: &World<F>,
        at: u64,
        done: &Done,
    ) -> Result<(), AllocError>
        requires { IsMoment at }
        ensures sees { OnOk result (self.new ≡ see_delivery at world.now.world_core done.now self.old) }
        ensures tells { OnOk result (string_bytes text.new
            ≡ string_bytes text.old ++ text_of (delivery_lines at world.now.world_core done.now self.old)) }
    {
        let received = received_by(done).is_some();
        match done {
            Done::Quiet => Ok(()),
            Done::Heard {
                clock,
                port,
                frame,
                ..
            } => {
                let compared = compared_by_frame(*port, frame);
                self.see_system(text, world, at, *clock, received, compared)
            }
        }
    }

    /// Sees an act that was done.
    pub(crate) fn see<F: Fate + Drop>(
        &mut self,
        text: &mut String,
        world: &World<F>,
        timed: &Timed,
        done: &Done,
    ) -> Result<(), AllocError>
        requires { IsMoment timed.now.at }
        ensures sees { OnOk result (self.new ≡ see_act timed.now.at timed.now.act done.now world.now.world_core self.old) }
        ensures tells { OnOk result (string_bytes text.new
            ≡ string_bytes text.old ++ text_of (seen_lines timed.now.at timed.now.act done.now world.now.world_core self.old)) }
    {
        match &timed.act {
            Act::Change(change) => self.see_event(text, world, timed.at, change),
            Act::Expire { clock, timer } => {
                let compared = compared_by_expiry(*timer);
                self.see_system(text, world, timed.at, *clock, false, compared)
            }
            Act::Deliver { .. } => self.see_delivery(text, world, timed.at, done),
        }
    }
}
