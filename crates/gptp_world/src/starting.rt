//! Systems of a world that start, fail, or get another priority1.

use crate::world_parts::WorldParts;
use gptp_links::Fate;
use gptp_system::Input;

impl WorldParts {
    ghost use Rattle.std.specs.Prelude.{◌≡◌, ◌<◌, [], ◌∷◌, Some, false, length, slice_get};
    ghost use Rattle.std.specs.List.{range_with_len};
    ghost use Rattle.gptp_setup.specs.Intervals.{IsMoment};
    ghost use Rattle.gptp_model.specs.declared.station.Station.{Station};
    ghost use Rattle.gptp_model.specs.Changing.{failed, fresh, with_setup};
    ghost use Rattle.gptp_world.specs.WorldParts.{world_of, CallUses, HasRoomToCall, IsLiveAt, IsPortAt, IsWorldParts};
    ghost use Rattle.gptp_world.specs.Starting.{CameUp, CanSetTimers, CanStart, HasRoomForPorts, HasRoomToStart, HasSetTimers, Prioritized, StandsReplaced, Started};

    /// What is pending of the timers of the system at a place follows from its state.
    fn set_timers(&mut self, place: usize)
        requires { CanSetTimers place self.old }
        ensures { HasSetTimers place self.old self.new }
    {
        let station = &self.stations[place];
        self.net.set_timers(place, station);
    }

    /// A port of the live system at a place comes up where its link is up.
    fn port_up_if_linked<F: Fate>(&mut self, place: usize, port: u8, fate: &mut F)
        requires parts { IsWorldParts self.old }
        requires live { IsLiveAt place self.old }
        requires port { IsPortAt place port self.old }
        requires room { HasRoomToCall place self.old }
        ensures parts { IsWorldParts self.new }
        ensures uses { CallUses place self.old self.new.net }
        ensures came { CameUp F.answers place (port ∷ []) fate.old fate.new self.old self.new }
    {
        if self.net.up_lane(place, port).is_some() {
            self.step_system(place, Input::PortUp(port), fate);
        }
    }

    /// The ports of the live system at a place come up, by rising number, each whose link is up.
    fn bring_ports_up<F: Fate>(&mut self, place: usize, fate: &mut F)
        requires parts { IsWorldParts self.old }
        requires live { IsLiveAt place self.old }
        requires room { HasRoomForPorts place self.old }
        ensures parts { IsWorldParts self.new }
        ensures came { (station : Station) → slice_get self.old.stations.items place ≡ Some station
            → CameUp F.answers place (range_with_len 1 (length station.system.ports)) fate.old fate.new self.old self.new }
    {
        let ports = self.stations[place].system.ports();
        let mut port = 0;
        while port < ports {
            port += 1;
            self.port_up_if_linked(place, port, fate);
        }
    }

    /// The system at a place is new, and live.
    fn restart(&mut self, place: usize)
        requires can { CanStart place self.old }
        requires moment { IsMoment self.old.now }
        ensures { (station : Station) → slice_get self.old.stations.items place ≡ Some station
            → StandsReplaced place (fresh self.old.now station) self.old self.new }
    {
        let now = self.now;
        let station = &mut self.stations[place];
        let setup = station.setup.copy();
        station.system.start_again(setup, now);
        station.live = true;
    }

    /// The system at a place starts: new, with its Sync timer, and then its ports come up, each whose link is up.
    pub(crate) fn start<F: Fate>(&mut self, place: usize, fate: &mut F)
        requires parts { IsWorldParts self.old }
        requires can { CanStart place self.old }
        requires room { HasRoomToStart place self.old }
        ensures parts { IsWorldParts self.new }
        ensures started { Started F.answers place fate.old fate.new self.old self.new }
    {
        self.restart(place);
        self.set_timers(place);
        self.bring_ports_up(place, fate);
    }

    /// The system at a place isn't live any more.
    fn mark_failed(&mut self, place: usize)
        requires { place < length self.old.stations.items }
        ensures { (station : Station) → slice_get self.old.stations.items place ≡ Some station
            → StandsReplaced place (record station { live = false }) self.old self.new }
    {
        self.stations[place].live = false;
    }

    /// The system at a place fails: all its timers stop.
    pub(crate) fn fail(&mut self, place: usize)
        requires parts { IsWorldParts self.old }
        requires place { place < length self.old.stations.items }
        ensures parts { IsWorldParts self.new }
        ensures failed { (station : Station) → slice_get self.old.stations.items place ≡ Some station
            → world_of self.new ≡ failed place station (world_of self.old) }
    {
        self.mark_failed(place);
        self.set_timers(place);
    }

    /// The system at a place starts with this priority1 from now on.
    fn prepare_priority1(&mut self, place: usize, value: u8)
        requires { place < length self.old.stations.items }
        ensures { (station : Station) → slice_get self.old.stations.items place ≡ Some station
            → StandsReplaced place (with_setup value station) self.old self.new }
    {
        let setup = &mut self.stations[place].setup;
        setup.identity = setup.identity.with_priority1(value);
    }

    /// The system at a place gets another priority1: it starts with it from now on, and where it is live it selects.
    pub(crate) fn set_priority1<F: Fate>(&mut self, place: usize, value: u8, fate: &mut F)
        requires parts { IsWorldParts self.old }
        requires room { HasRoomToCall place self.old }
        ensures parts { IsWorldParts self.new }
        ensures prioritized { Prioritized F.answers place value fate.old fate.new self.old self.new }
    {
        self.prepare_priority1(place, value);
        if self.stations[place].live {
            self.step_system(place, Input::Priority(value), fate);
        }
    }
}
