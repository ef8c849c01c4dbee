//! Timers that expire.

use crate::net::Net;
use crate::world_parts::WorldParts;
use gptp_links::Fate;
use gptp_system::{Input, Timer};

impl Net {
    ghost use Rattle.std.specs.Prelude.{◌≡◌, length};
    ghost use Rattle.gptp_model.specs.declared.item.Item.TheVariants.{Expiry};
    ghost use Rattle.gptp_world.specs.Net.{between, IsNet};
    ghost use Rattle.gptp_model.specs.Pending.{without_first_entry, IsKnownItem};
    ghost use Rattle.gptp_world.specs.Room.{no_room, Uses};

    /// A timer of the system at a place, which expires, is no longer pending.
    fn take_timer(&mut self, place: usize, timer: Timer)
        requires net { IsNet self.old }
        requires known { IsKnownItem self.old.traffic.systems (length self.old.traffic.net.channels) (Expiry place timer) }
        ensures net { IsNet self.new }
        ensures uses { Uses no_room self.old self.new }
        ensures taken { between self.new ≡ record (between self.old) { pending = without_first_entry (Expiry place timer) (between self.old).pending } }
    {
        self.traffic.stop(place, timer);
    }
}

impl WorldParts {
    ghost use Rattle.gptp_model.specs.Agrees.{Agrees};
    ghost use Rattle.gptp_world.specs.ActTarget.{IsTimerDue};
    ghost use Rattle.gptp_world.specs.Performing.{Expired};
    ghost use Rattle.gptp_world.specs.WorldParts.{world_of, HasRoomToCall, IsWorldParts};

    /// A timer of the system at a place, which is due now, expires.
    pub(crate) fn run_out<F: Fate>(&mut self, place: usize, timer: Timer, fate: &mut F)
        requires parts { IsWorldParts self.old }
        requires due { IsTimerDue place timer self.old.now (world_of self.old) }
        requires agrees { Agrees (world_of self.old) }
        requires room { HasRoomToCall place self.old }
        ensures parts { IsWorldParts self.new }
        ensures expired { Expired F.answers place timer fate.old fate.new self.old self.new }
    {
        self.net.take_timer(place, timer);
        self.step_system(place, Input::Expires(timer), fate);
    }
}
