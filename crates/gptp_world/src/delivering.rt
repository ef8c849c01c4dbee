//! Frames that reach a system.

ghost use Rattle.std.specs.Prelude.{◌≡◌, ◌≤◌};
ghost use Rattle.gptp_setup.specs.declared.limits.TheConstants.{MOST_PORTS};

use crate::world_parts::WorldParts;
use gptp_links::Fate;
use gptp_model::Carried;
use gptp_system::Answer;
use gptp_traffic::Lane;
use gptp_vector::PortId;
use std::alloc::AllocError;

/// A frame that reached a port, and what the system there answered; `None` where that has failed.
#[derive(Drop)]
pub(crate) struct Reached {
    pub at: PortId,
    pub answer: Option<Answer>,
    pub frame: Carried,
}

/// The number of a port in one octet.
pub(crate) fn narrowed(port: u16) -> u8
    requires { port ≤ MOST_PORTS }
    ensures { result ≡ port }
{
    port as u8
}

impl WorldParts {
    ghost use Rattle.std.specs.Prelude.{◌≡◌, length, ◌<◌, OnOk};
    ghost use Rattle.gptp_model.specs.Agrees.{Agrees};
    ghost use Rattle.gptp_system.specs.Input.{Frame};
    ghost use Rattle.gptp_model.specs.Acts.{AtPlace, IsOldestDue};
    ghost use Rattle.gptp_world.specs.WorldParts.{world_of, HasRoomToCall, IsWorldParts};
    ghost use Rattle.gptp_world.specs.Delivering.{Delivered, HasRoomToHear, HeardAt, IsHeardAt, MayHear};
    ghost use Rattle.gptp_world.specs.Timing.{AreSetFor};

    /// The system at a place hears a frame at a port, unless it has failed.
    fn hear_if_live<F: Fate>(
        &mut self,
        place: usize,
        port: u8,
        frame: &Carried,
        fate: &mut F,
    ) -> Option<Answer>
        requires parts { IsWorldParts self.old }
        requires place { place < length self.old.stations.items }
        requires heard { IsHeardAt place port self.old }
        requires set { AreSetFor (Frame port frame.now.items) place self.old }
        requires room { HasRoomToCall place self.old }
        ensures parts { IsWorldParts self.new }
        ensures heard { HeardAt F.answers place port frame.now.items result fate.old fate.new self.old self.new }
    {
        match self.stations[place].live {
            true => Some(self.step_system(place, frame.input(port), fate)),
            false => None,
        }
    }

    /// The oldest frame of a lane, which is due now, reaches the port at its end.
    pub(crate) fn deliver<F: Fate>(&mut self, lane: Lane, fate: &mut F) -> Reached
        requires parts { IsWorldParts self.old }
        requires due { AtPlace lane.link (world_of self.old).net (IsOldestDue lane.direction self.old.now) }
        requires hears { MayHear lane self.old }
        requires agrees { Agrees (world_of self.old) }
        requires room { HasRoomToHear lane self.old }
        ensures parts { IsWorldParts self.new }
        ensures delivered { Delivered F.answers lane result.at result.answer result.frame.items fate.old fate.new self.old self.new }
    {
        self.net.directory.well_formed();
        let frame = self.net.take_frame(lane);
        let place = self.net.directory.receiver(lane);
        let at = self.net.directory.port_at(lane);
        let answer = self.hear_if_live(place, narrowed(at.port), &frame, fate);
        Reached { at, answer, frame }
    }

    /// Makes room for whatever the system at the end of a lane can leave when it hears a frame. Refused where there is
    /// no memory for it. The state of the world doesn't change.
    pub(crate) fn make_room_to_hear(&mut self, lane: Lane) -> Result<(), AllocError>
        requires parts { IsWorldParts self.old }
        requires link { lane.link < length self.old.net.traffic.net.channels }
        ensures parts { IsWorldParts self.new }
        ensures world { world_of self.new ≡ world_of self.old }
        ensures room { OnOk result (HasRoomToHear lane self.new) }
    {
        self.net.directory.well_formed();
        let place = self.net.directory.receiver(lane);
        self.make_room(place)
    }
}
