//! What is between the systems: the links, and what is pending.

use crate::buffers::Buffers;
use crate::directory::Directory;
use crate::octets::{carried, write_octets};
use gptp_links::Fate;
use gptp_model::Carried;
use gptp_system::{Sending, System};
use gptp_traffic::{Lane, Traffic};

/// What is between the systems, with the buffers that octets are written into.
#[derive(Drop)]
pub(crate) struct Net {
    pub directory: Directory,
    pub traffic: Traffic,
    pub buffers: Buffers,
}

impl Net {
    ghost use Rattle.std.specs.Prelude.{◌≡◌, ℕ, ◌<◌, ◌≤◌, [], ◌∷◌, length, Some, slice_get, IfSome, IfNone, true};
    ghost use Rattle.gptp_setup.specs.Intervals.{IsMoment};
    ghost use Rattle.gptp_system.specs.State.{clock, own};
    ghost use Rattle.gptp_model.specs.Sends.{written, IsUnlinkedPort};
    ghost use Rattle.gptp_model.specs.World.{port_id, sender, Channel};
    ghost use Rattle.gptp_traffic.specs.Traffic.{SentOne};
    ghost use Rattle.gptp_world.specs.Net.{between, IsNet, IsUpLane, SentAll, SentNext};
    ghost use Rattle.gptp_world.specs.Room.{for_frame, for_sends, WorldHasRoom, Uses};

    /// The lane that begins at a port of the system at a place, where that link is up.
    pub(crate) fn up_lane(&self, place: usize, port: u8) -> Option<Lane>
        requires net { IsNet self.now }
        requires place { place < length self.now.directory.clocks }
        ensures some { (clock : ℕ) → slice_get self.now.directory.clocks place ≡ Some clock → IfSome result (IsUpLane self.now (port_id clock port)) }
        ensures none { (clock : ℕ) → slice_get self.now.directory.clocks place ≡ Some clock → IfNone result (IsUnlinkedPort (between self.now) (port_id clock port)) }
    {
        let lane = self.directory.lane_from(place, port)?;
        match self.is_up(lane.link) {
            true => Some(lane),
            false => None,
        }
    }

    /// Whether a link is up.
    pub(crate) fn is_up(&self, link: usize) -> bool
        requires { link < length self.now.traffic.net.channels }
        ensures { (channel : Channel) → slice_get self.now.traffic.net.channels link ≡ Some channel → result ≡ channel.up }
    {
        self.traffic.is_up(link)
    }

    /// A frame with these octets goes onto a lane whose link is up, as if the port at its beginning had sent it.
    pub(crate) fn inject<F: Fate>(&mut self, lane: Lane, octets: &[u8], now: u64, fate: &mut F)
        requires net { IsNet self.old }
        requires early { IsMoment now }
        requires few { length octets.now ≤ 2116 }
        requires link { lane.link < length self.old.traffic.net.channels }
        requires room { WorldHasRoom for_frame self.old }
        requires up { (channel : Channel) → slice_get self.old.traffic.net.channels lane.link ≡ Some channel → channel.up ≡ true }
        ensures net { IsNet self.new }
        ensures directory { self.new.directory ≡ self.old.directory }
        ensures systems { self.new.traffic.systems ≡ self.old.traffic.systems }
        ensures sent { (channel : Channel) → slice_get self.old.traffic.net.channels lane.link ≡ Some channel → SentOne F.answers now (sender lane.direction channel) octets.now fate.old fate.new (between self.old) (between self.new) }
    {
        let mut buffer = self.buffers.take();
        write_octets(octets, &mut buffer);
        self.traffic
            .send(lane, Carried::of_octets(buffer), now, fate);
    }

    /// One send of the system at a place goes onto its link, where that is up.
    fn send_next<F: Fate>(
        &mut self,
        place: usize,
        system: &System,
        send: &Sending,
        now: u64,
        fate: &mut F,
    )
        requires net { IsNet self.old }
        requires place { slice_get self.old.directory.clocks place ≡ Some (clock system.now) }
        requires early { IsMoment now }
        requires room { WorldHasRoom (for_sends (send.now ∷ [])) self.old }
        ensures net { IsNet self.new }
        ensures uses { Uses (for_sends (send.now ∷ [])) self.old self.new }
        ensures sent { SentNext F.answers now (own system.now send.now.port) (written system.now send.now) fate.old fate.new (between self.old) (between self.new) }
    {
        if let Some(lane) = self.up_lane(place, send.port) {
            let frame = carried(system, send, &mut self.buffers);
            self.traffic.send(lane, frame, now, fate);
        }
    }

    /// The sends of the system at a place go onto their links, one after another.
    pub(crate) fn send_all<F: Fate>(
        &mut self,
        place: usize,
        system: &System,
        sends: &[Sending],
        now: u64,
        fate: &mut F,
    )
        requires net { IsNet self.old }
        requires place { slice_get self.old.directory.clocks place ≡ Some (clock system.now) }
        requires early { IsMoment now }
        requires room { WorldHasRoom (for_sends sends.now) self.old }
        ensures net { IsNet self.new }
        ensures uses { Uses (for_sends sends.now) self.old self.new }
        ensures sent { SentAll F.answers now system.now sends.now fate.old fate.new (between self.old) (between self.new) }
    {
        for send in sends {
            self.send_next(place, system, send, now, fate);
        }
    }
}
