//! What is pending of a system's timers.

ghost use Rattle.std.specs.Prelude.{◌≡◌};
ghost use Rattle.gptp_setup.specs.declared.limits.TheConstants.{MOST_PORTS};
ghost use Rattle.gptp_system.specs.Steps.{IsTimerOf};
ghost use Rattle.gptp_model.specs.World.{station_due};

use crate::net::Net;
use gptp_model::Station;
use gptp_system::{Timer, TimersChanged};

/// When a timer runs out, in ns, where it runs. None does where the system has failed.
fn due_of(station: &Station, timer: Timer) -> Option<u64>
    requires { IsTimerOf station.now.system timer }
    ensures { result ≡ station_due timer station.now }
{
    match station.live {
        true => station.system.due(timer),
        false => None,
    }
}

impl Net {
    ghost use Rattle.std.specs.Prelude.{◌≡◌, ◌≤◌, ◌<◌, ◌+◌, ◌*◌, ◌∷◌, [], length, true};
    ghost use Rattle.gptp_system.specs.Steps.{HasPortNumber, IsTimerOf};
    ghost use Rattle.gptp_setup.specs.declared.timer.Timer.TheVariants as timers;
    ghost use Rattle.gptp_model.specs.Item.{timer_port};
    ghost use Rattle.gptp_model.specs.Act.{set_timers};
    ghost use Rattle.gptp_world.specs.Net.{OnlyEntries};
    ghost use Rattle.gptp_system.specs.TimersChanged.{holds, IsTouchedOf};
    ghost use Rattle.gptp_world.specs.Timing.{selected_from, AreSetBut};
    ghost use Rattle.gptp_model.specs.World.{timers_from};

    /// A timer of the system at a place is pending when it is due, and isn't where it doesn't run. That takes room only
    /// where the system lives.
    fn set_timer(&mut self, place: usize, station: &Station, timer: Timer)
        requires place { place < self.old.traffic.systems }
        requires room { station.now.live ≡ true → 1 ≤ self.old.traffic.room }
        requires timer { IsTimerOf station.now.system timer }
        requires port { timer_port timer ≤ MOST_PORTS }
        ensures entries { self.new.traffic.net.pending ≡ set_timers place station.now (timer ∷ []) self.old.traffic.net.pending }
        ensures only { OnlyEntries 1 self.old self.new }
    {
        self.traffic.set_due(place, timer, due_of(station, timer));
    }

    /// Makes the timers of a port pending when they are due. One that doesn't run isn't pending.
    fn set_port_timers(&mut self, place: usize, station: &Station, port: u8)
        requires place { place < self.old.traffic.systems }
        requires room { station.now.live ≡ true → 4 ≤ self.old.traffic.room }
        requires port { HasPortNumber station.now.system port }
        requires few { port ≤ MOST_PORTS }
        ensures entries { self.new.traffic.net.pending ≡ set_timers place station.now (timers.Pdelay port ∷ timers.Respond port ∷ timers.Announce port ∷ timers.Age port ∷ []) self.old.traffic.net.pending }
        ensures only { OnlyEntries 4 self.old self.new }
    {
        self.set_timer(place, station, Timer::Pdelay(port));
        self.set_timer(place, station, Timer::Respond(port));
        self.set_timer(place, station, Timer::Announce(port));
        self.set_timer(place, station, Timer::Age(port));
    }

    /// Makes the Relay and the Lapse timer pending when they are due. Time that comes over the Slave port changes
    /// these.
    fn set_of_time(&mut self, place: usize, station: &Station)
        requires place { place < self.old.traffic.systems }
        requires room { station.now.live ≡ true → 2 ≤ self.old.traffic.room }
        ensures entries { self.new.traffic.net.pending ≡ set_timers place station.now (timers.Relay ∷ timers.Lapse ∷ []) self.old.traffic.net.pending }
        ensures only { OnlyEntries 2 self.old self.new }
    {
        self.set_timer(place, station, Timer::Relay);
        self.set_timer(place, station, Timer::Lapse);
    }

    /// Makes all timers of the system pending when they are due: those of each port, by rising port, and then those of
    /// the system.
    pub(crate) fn set_timers(&mut self, place: usize, station: &Station)
        requires place { place < self.old.traffic.systems }
        requires few { length station.now.system.ports ≤ MOST_PORTS }
        requires room { station.now.live ≡ true → 4 * length station.now.system.ports + 3 ≤ self.old.traffic.room }
        ensures entries { self.new.traffic.net.pending ≡ set_timers place station.now (timers_from 1 station.now.system.ports) self.old.traffic.net.pending }
        ensures only { OnlyEntries (4 * length station.now.system.ports + 3) self.old self.new }
    {
        let mut port = 0;
        while port < station.system.ports() {
            port += 1;
            self.set_port_timers(place, station, port);
        }
        self.set_timer(place, station, Timer::Sync);
        self.set_of_time(place, station);
    }

    /// Makes the timers of a port that selection can change pending when they are due.
    fn set_selected_at(&mut self, place: usize, station: &Station, port: u8)
        requires place { place < self.old.traffic.systems }
        requires room { 2 ≤ self.old.traffic.room }
        requires port { HasPortNumber station.now.system port }
        requires few { port ≤ MOST_PORTS }
        ensures entries { self.new.traffic.net.pending ≡ set_timers place station.now (timers.Announce port ∷ timers.Age port ∷ []) self.old.traffic.net.pending }
        ensures only { OnlyEntries 2 self.old self.new }
    {
        self.set_timer(place, station, Timer::Announce(port));
        self.set_timer(place, station, Timer::Age(port));
    }

    /// Makes all timers of the system that selection can change pending when they are due: those of each port, by
    /// rising port, and then its own.
    fn set_selected(&mut self, place: usize, station: &Station)
        requires place { place < self.old.traffic.systems }
        requires few { length station.now.system.ports ≤ MOST_PORTS }
        requires room { 2 * length station.now.system.ports + 2 ≤ self.old.traffic.room }
        ensures entries { self.new.traffic.net.pending ≡ set_timers place station.now (selected_from 1 station.now.system.ports) self.old.traffic.net.pending }
        ensures only { OnlyEntries (2 * length station.now.system.ports + 2) self.old self.new }
    {
        let mut port = 0;
        while port < station.system.ports() {
            port += 1;
            self.set_selected_at(place, station, port);
        }
        self.set_of_time(place, station);
    }

    /// Makes all timers of the system pending when they are due, where all but the touched ones are so already.
    pub(crate) fn set_touched(&mut self, place: usize, station: &Station, touched: TimersChanged)
        requires place { place < self.old.traffic.systems }
        requires few { length station.now.system.ports ≤ MOST_PORTS }
        requires room { 4 * length station.now.system.ports + 3 ≤ self.old.traffic.room }
        requires own { IsTouchedOf station.now.system touched }
        requires set { AreSetBut (holds touched) place station.now self.old.traffic.net.pending }
        ensures entries { self.new.traffic.net.pending ≡ set_timers place station.now (timers_from 1 station.now.system.ports) self.old.traffic.net.pending }
        ensures only { OnlyEntries (4 * length station.now.system.ports + 3) self.old self.new }
    {
        match touched {
            TimersChanged::Nothing => {}
            TimersChanged::One(timer) => self.set_timer(place, station, timer),
            TimersChanged::Time => self.set_of_time(place, station),
            TimersChanged::Selected => self.set_selected(place, station),
            TimersChanged::All => self.set_timers(place, station),
        }
    }
}
