//! Links that change, and frames that arrive.

use crate::net::Net;
use gptp_links::Bounds;
use gptp_model::Carried;
use gptp_traffic::Lane;

impl Net {
    ghost use Rattle.std.specs.Prelude.{◌≡◌, ◌<◌, ℕ, length, Some, slice_get};
    ghost use Rattle.gptp_links.specs.Bounds.{Fit};
    ghost use Rattle.gptp_model.specs.Act.{TakesFrame};
    ghost use Rattle.gptp_model.specs.Acts.{AtPlace, IsOldestDue};
    ghost use Rattle.gptp_model.specs.Changing.{taken_down, brought_up, with_bounds};
    ghost use Rattle.gptp_model.specs.World.{Channel};
    ghost use Rattle.gptp_world.specs.Net.{between, IsNet};
    ghost use Rattle.gptp_world.specs.Room.{no_room, Uses};

    /// The link at a place goes down. All that is in flight on it is lost, and isn't pending any more.
    pub(crate) fn take_down(&mut self, link: usize)
        requires net { IsNet self.old }
        requires link { link < length self.old.traffic.net.channels }
        ensures net { IsNet self.new }
        ensures uses { Uses no_room self.old self.new }
        ensures down { (channel : Channel) → slice_get self.old.traffic.net.channels link ≡ Some channel → between self.new ≡ taken_down link channel (between self.old) }
    {
        self.traffic.take_down(link);
    }

    /// The link at a place comes up.
    pub(crate) fn bring_up(&mut self, link: usize)
        requires net { IsNet self.old }
        requires link { link < length self.old.traffic.net.channels }
        ensures net { IsNet self.new }
        ensures uses { Uses no_room self.old self.new }
        ensures up { (channel : Channel) → slice_get self.old.traffic.net.channels link ≡ Some channel → between self.new ≡ brought_up link channel (between self.old) }
    {
        self.traffic.bring_up(link);
    }

    /// The link at a place gets other bounds, for the frames that are sent from now on.
    pub(crate) fn set_bounds(&mut self, link: usize, bounds: Bounds)
        requires net { IsNet self.old }
        requires link { link < length self.old.traffic.net.channels }
        requires fit { Fit bounds }
        ensures net { IsNet self.new }
        ensures uses { Uses no_room self.old self.new }
        ensures bounds { (channel : Channel) → slice_get self.old.traffic.net.channels link ≡ Some channel → between self.new ≡ with_bounds bounds link channel (between self.old) }
    {
        self.traffic.set_bounds(link, bounds);
    }

    /// The oldest frame of a lane, which is due then, leaves its link, and is no longer pending.
    pub(crate) fn take_frame(&mut self, lane: Lane) -> Carried
        requires net { IsNet self.old }
        requires due { (now : ℕ) × AtPlace lane.link (between self.old) (IsOldestDue lane.direction now) }
        ensures net { IsNet self.new }
        ensures takes { (now : ℕ) (channel : Channel) → slice_get self.old.traffic.net.channels lane.link ≡ Some channel → IsOldestDue lane.direction now channel
            → TakesFrame lane.link lane.direction now result.items channel (between self.old) (between self.new) }
        ensures uses { Uses no_room self.old self.new }
    {
        self.traffic.take(lane)
    }
}
