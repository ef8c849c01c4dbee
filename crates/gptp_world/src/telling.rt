//! Links of a world that go down or come up.

ghost use Rattle.std.specs.Prelude.{◌≡◌, ◌<◌, length, Some, slice_get};
ghost use Rattle.gptp_world.specs.Directory.{direction_end, Join};
ghost use Rattle.gptp_system.specs.Input.{given};
ghost use Rattle.gptp_world.specs.Telling.{link_input, AreEndsOf, IsEndAt};

use crate::directory::Directory;
use crate::world_parts::WorldParts;
use gptp_links::{Direction, Fate};
use gptp_system::Input;
use gptp_traffic::Lane;
use std::alloc::AllocError;

/// An end of a link: a port of the system at a place.
#[derive(Clone, Copy, Debug)]
struct End {
    place: usize,
    port: u8,
}

/// The port at which a lane ends. The lane is of a link that is there.
fn end_at(directory: &Directory, lane: Lane) -> End
    requires { lane.link < length directory.now.joins }
    ensures { (join : Join) → slice_get directory.now.joins lane.link ≡ Some join → IsEndAt (direction_end lane.direction join) result directory.now }
{
    directory.well_formed();
    End {
        place: directory.receiver(lane),
        port: directory.port_at(lane).port as u8,
    }
}

/// The ends of a link, its end a first.
fn ends_of(directory: &Directory, link: usize) -> (End, End)
    requires { link < length directory.now.joins }
    ensures { AreEndsOf link result.0 result.1 directory.now }
{
    directory.well_formed();
    let a = end_at(
        directory,
        Lane {
            link,
            direction: Direction::FromB,
        },
    );
    let b = end_at(
        directory,
        Lane {
            link,
            direction: Direction::FromA,
        },
    );
    (a, b)
}

/// What a system is told at a port whose link comes up, or goes down.
fn link_input<'a>(port: u8, up: bool) -> Input<'a>
    ensures { given result ≡ link_input up port }
{
    match up {
        true => Input::PortUp(port),
        false => Input::PortDown(port),
    }
}

impl WorldParts {
    ghost use Rattle.std.specs.Prelude.{◌≡◌, ◌<◌, length, true, false, IsOk, OnOk};
    ghost use Rattle.gptp_world.specs.Net.{LinkIs};
    ghost use Rattle.gptp_world.specs.WorldParts.{world_of, CallUses, HasRoomToCall, IsPortAt, IsWorldParts};
    ghost use Rattle.gptp_world.specs.Telling.{link_input, ComeUp, GoneDown, HasRoomAtEnds, WasTold};

    /// The system at a place is told that the link of a port comes up, or goes down; one that has failed isn't.
    fn tell<F: Fate>(&mut self, place: usize, port: u8, up: bool, fate: &mut F)
        requires parts { IsWorldParts self.old }
        requires port { IsPortAt place port self.old }
        requires room { HasRoomToCall place self.old }
        ensures parts { IsWorldParts self.new }
        ensures told { WasTold F.answers place (link_input up port) fate.old fate.new self.old self.new }
        ensures uses { CallUses place self.old self.new.net }
    {
        if self.stations[place].live {
            self.step_system(place, link_input(port, up), fate);
        }
    }

    /// The link at a place, which is up, goes down: what is in flight on it is lost, and then its ends are told, its
    /// end a first.
    pub(crate) fn link_down<F: Fate>(&mut self, link: usize, fate: &mut F)
        requires parts { IsWorldParts self.old }
        requires link { link < length self.old.net.traffic.net.channels }
        requires room { HasRoomAtEnds link self.old }
        ensures parts { IsWorldParts self.new }
        ensures down { GoneDown F.answers link fate.old fate.new self.old self.new }
    {
        self.net.directory.well_formed();
        let (a, b) = ends_of(&self.net.directory, link);
        self.net.take_down(link);
        self.tell(a.place, a.port, false, fate);
        self.tell(b.place, b.port, false, fate);
    }

    /// The link at a place, which is down, comes up, and then its ends are told, its end a first.
    pub(crate) fn link_up<F: Fate>(&mut self, link: usize, fate: &mut F)
        requires parts { IsWorldParts self.old }
        requires link { link < length self.old.net.traffic.net.channels }
        requires room { HasRoomAtEnds link self.old }
        ensures parts { IsWorldParts self.new }
        ensures up { ComeUp F.answers link fate.old fate.new self.old self.new }
    {
        self.net.directory.well_formed();
        let (a, b) = ends_of(&self.net.directory, link);
        self.net.bring_up(link);
        self.tell(a.place, a.port, true, fate);
        self.tell(b.place, b.port, true, fate);
    }

    /// Makes room for one call of each of the systems at the ends of a link. Refused where there is no memory for it.
    /// The state of the world doesn't change.
    fn make_room_at_ends(&mut self, link: usize) -> Result<(), AllocError>
        requires parts { IsWorldParts self.old }
        requires link { link < length self.old.net.traffic.net.channels }
        ensures parts { IsWorldParts self.new }
        ensures world { world_of self.new ≡ world_of self.old }
        ensures room { OnOk result (HasRoomAtEnds link self.new) }
    {
        let (a, b) = ends_of(&self.net.directory, link);
        self.make_room_for_both(a.place, b.place)
    }

    /// Makes room for one call of each of the systems at the ends of a link that goes down, where it is up. Refused
    /// where there is no memory for it. The state of the world doesn't change.
    pub(crate) fn make_room_to_take_down(&mut self, link: usize) -> Result<(), AllocError>
        requires parts { IsWorldParts self.old }
        requires link { link < length self.old.net.traffic.net.channels }
        ensures parts { IsWorldParts self.new }
        ensures world { world_of self.new ≡ world_of self.old }
        ensures room { OnOk result (LinkIs true link self.new.net → HasRoomAtEnds link self.new) }
        ensures free { LinkIs false link self.old.net → IsOk result }
    {
        match self.net.is_up(link) {
            true => self.make_room_at_ends(link),
            false => Ok(()),
        }
    }

    /// Makes room for one call of each of the systems at the ends of a link that comes up, where it is down. Refused
    /// where there is no memory for it. The state of the world doesn't change.
    pub(crate) fn make_room_to_bring_up(&mut self, link: usize) -> Result<(), AllocError>
        requires parts { IsWorldParts self.old }
        requires link { link < length self.old.net.traffic.net.channels }
        ensures parts { IsWorldParts self.new }
        ensures world { world_of self.new ≡ world_of self.old }
        ensures room { OnOk result (LinkIs false link self.new.net → HasRoomAtEnds link self.new) }
        ensures free { LinkIs true link self.old.net → IsOk result }
    {
        match self.net.is_up(link) {
            true => Ok(()),
            false => self.make_room_at_ends(link),
        }
    }
}
