//! The systems of a world and what is between them.

use crate::net::Net;
use gptp_links::Fate;
use gptp_model::Station;
use gptp_system::{Answer, Input, Outbox, Stepped, TimersChanged};

/// All that acts change, but the fate: the time and that of the last change, in ns, the systems, what is between them,
/// and the outbox of the system that is called, which is empty between calls.
#[derive(Drop)]
pub(crate) struct WorldParts {
    pub now: u64,
    pub last_change: u64,
    pub stations: Vec<Station>,
    pub net: Net,
    pub outbox: Outbox,
}

impl WorldParts {
    ghost use Rattle.gptp_system.specs.declared.answer.Answer.{Answer};
    ghost use Rattle.gptp_system.specs.Input.{given, Input as Given};
    ghost use Rattle.gptp_world.specs.declared.world_parts.WorldParts.{WorldParts};
    ghost use Rattle.gptp_world.specs.WorldParts.{Called, CallUses, CarriesOut, HasRoomToCall, HasStepped, IsLiveAt, IsWorldParts, IsTimelyAt};
    ghost use Rattle.gptp_world.specs.Timing.{AreSetFor, HasTouched};

    /// What a step of the system at a place left is carried out: its timers follow, of which it touched no others than
    /// these, and then its sends go.
    fn carry_out<F: Fate>(&mut self, place: usize, touched: TimersChanged, fate: &mut F)
        requires carries { CarriesOut place self.old }
        requires touched { HasTouched touched place self.old }
        ensures parts { (before : WorldParts) (input : Given) (answer : Answer) → IsWorldParts before
            → HasStepped place input answer before self.old → IsWorldParts self.new }
        ensures called { (before : WorldParts) (input : Given) (answer : Answer) → HasStepped place input answer before self.old
            → Called F.answers place input answer fate.old fate.new before self.new }
        ensures uses { (before : WorldParts) (input : Given) (answer : Answer) → HasStepped place input answer before self.old
            → IsTimelyAt input place before → CallUses place before self.new.net }
    {
        let station = &self.stations[place];
        self.net.set_touched(place, station, touched);
        self.net.send_all(
            place,
            &station.system,
            self.outbox.as_slice(),
            self.now,
            fate,
        );
        self.outbox.clear();
    }

    /// The live system at a place is given an input, and what its step left is carried out: its timers follow, of which
    /// the step touched no others than it says, and then its sends go. What became of it.
    pub(crate) fn step_system<F: Fate>(
        &mut self,
        place: usize,
        input: Input<'_>,
        fate: &mut F,
    ) -> Answer
        requires parts { IsWorldParts self.old }
        requires live { IsLiveAt place self.old }
        requires timely { IsTimelyAt (given input) place self.old }
        requires set { AreSetFor (given input) place self.old }
        requires room { HasRoomToCall place self.old }
        ensures parts { IsWorldParts self.new }
        ensures called { Called F.answers place (given input.entry) result fate.old fate.new self.old self.new }
        ensures uses { CallUses place self.old self.new.net }
    {
        let system = &mut self.stations[place].system;
        let Stepped { answer, touched } = system.step(input, self.now, &mut self.outbox);
        self.carry_out(place, touched, fate);
        answer
    }
}
