//! Room is made before calls of systems, for all that they can leave.

use crate::net::Net;
use crate::world_parts::WorldParts;
use gptp_traffic::Lane;
use std::alloc::AllocError;

impl Net {
    ghost use Rattle.std.specs.Prelude.{◌≤◌, OnOk};
    ghost use Rattle.gptp_world.specs.Net.{IsNet};
    ghost use Rattle.gptp_world.specs.Room.{OnlyRoom};

    /// Makes room for so many more entries, and buffers until so many stand ready. Refused where there is no memory for
    /// them. Nothing changes but the room that there is.
    pub(crate) fn reserve(&mut self, entries: usize, buffers: usize) -> Result<(), AllocError>
        requires net { IsNet self.old }
        ensures net { IsNet self.new }
        ensures only { OnlyRoom self.old self.new }
        ensures entries { OnOk result (entries ≤ self.new.traffic.room) }
        ensures buffers { OnOk result (buffers ≤ self.new.buffers.ready) }
    {
        self.traffic.reserve(entries)?;
        self.buffers.reserve(buffers)
    }
}

impl WorldParts {
    ghost use Rattle.std.specs.Prelude.{◌≡◌, ◌<◌, length, true, false, IsOk, OnOk};
    ghost use Rattle.gptp_world.specs.Net.{LinkIs};
    ghost use Rattle.gptp_world.specs.Room.{for_frame, WorldHasRoom};
    ghost use Rattle.gptp_world.specs.WorldParts.{world_of, HasRoomToCall, HasRoomToCallBoth, IsWorldParts, SystemIs};
    ghost use Rattle.gptp_world.specs.Starting.{HasRoomToStart};

    /// Makes room for whatever a call of the system at a place can leave: each of its timers, and two frames at each
    /// port. Refused where there is no memory for it. The state of the world doesn't change.
    pub(crate) fn make_room(&mut self, place: usize) -> Result<(), AllocError>
        requires parts { IsWorldParts self.old }
        requires place { place < length self.old.stations.items }
        ensures parts { IsWorldParts self.new }
        ensures world { world_of self.new ≡ world_of self.old }
        ensures room { OnOk result (HasRoomToCall place self.new) }
    {
        let ports = self.stations[place].system.ports();
        let count = usize::from(ports);
        self.net.reserve(6 * count + 3, 2 * count)
    }

    /// Makes room for a start of the system at a place: each of its timers, and a call for each of its ports. Refused
    /// where there is no memory for it. The state of the world doesn't change.
    pub(crate) fn make_room_to_start(&mut self, place: usize) -> Result<(), AllocError>
        requires parts { IsWorldParts self.old }
        requires place { place < length self.old.stations.items }
        ensures parts { IsWorldParts self.new }
        ensures world { world_of self.new ≡ world_of self.old }
        ensures room { OnOk result (HasRoomToStart place self.new) }
    {
        let ports = self.stations[place].system.ports();
        let count = usize::from(ports);
        self.net.reserve(4 * count + 3 + count * (6 * count + 3), count * (2 * count))
    }

    /// Makes room for the system at a place to start again, where it has failed. Refused where there is no memory for
    /// it. The state of the world doesn't change.
    pub(crate) fn make_room_to_recover(&mut self, place: usize) -> Result<(), AllocError>
        requires parts { IsWorldParts self.old }
        requires place { place < length self.old.stations.items }
        ensures parts { IsWorldParts self.new }
        ensures world { world_of self.new ≡ world_of self.old }
        ensures room { OnOk result (SystemIs false place self.new → HasRoomToStart place self.new) }
        ensures free { SystemIs true place self.old → IsOk result }
    {
        match self.stations[place].live {
            true => Ok(()),
            false => self.make_room_to_start(place),
        }
    }

    /// Makes room for one call of each of two systems. Refused where there is no memory for it. The state of the world
    /// doesn't change.
    pub(crate) fn make_room_for_both(
        &mut self,
        first: usize,
        second: usize,
    ) -> Result<(), AllocError>
        requires parts { IsWorldParts self.old }
        requires first { first < length self.old.stations.items }
        requires second { second < length self.old.stations.items }
        ensures parts { IsWorldParts self.new }
        ensures world { world_of self.new ≡ world_of self.old }
        ensures room { OnOk result (HasRoomToCallBoth first second self.new) }
    {
        let near = self.stations[first].system.ports();
        let far = self.stations[second].system.ports();
        let count = usize::from(near) + usize::from(far);
        self.net.reserve(6 * count + 6, 2 * count)
    }

    /// Makes room for a frame that is injected on a lane, where its link is up: an entry and a buffer. Refused where
    /// there is no memory for it. The state of the world doesn't change.
    pub(crate) fn make_room_to_inject(&mut self, lane: Lane) -> Result<(), AllocError>
        requires parts { IsWorldParts self.old }
        requires link { lane.link < length self.old.net.traffic.net.channels }
        ensures parts { IsWorldParts self.new }
        ensures world { world_of self.new ≡ world_of self.old }
        ensures room { OnOk result (LinkIs true lane.link self.new.net → WorldHasRoom for_frame self.new.net) }
        ensures free { LinkIs false lane.link self.old.net → IsOk result }
    {
        match self.net.is_up(lane.link) {
            true => self.net.reserve(1, 1),
            false => Ok(()),
        }
    }
}
