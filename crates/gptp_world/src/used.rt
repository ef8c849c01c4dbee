//! The links of a world's snapshot: those that are up between two live systems.

ghost use Rattle.std.specs.Prelude.{◌≡◌, ◌<◌, ◌++◌, length, map, option_map, slice_get, IfOk, OnOk, Some};
ghost use Rattle.gptp_invariants.specs.WorldStanding.{snapshot_of};

use crate::world_core::WorldCore;
use crate::world_parts::WorldParts;
use gptp_links::Direction;
use gptp_traffic::Lane;
use gptp_vector::PortId;
use std::alloc::{AllocError, Global};

impl WorldParts {
    ghost use Rattle.std.specs.Prelude.{◌≡◌, ◌<◌, ◌++◌, ◌&&◌, length, map, option_map, slice_get, IfOk, OnOk, Some};
    ghost use Rattle.gptp_model.specs.World.{receiver, Channel};
    ghost use Rattle.gptp_invariants.specs.WorldStanding.{stations_have_clock, channel_is_used, live_stations};
    ghost use Rattle.gptp_world.specs.WorldCore.{IsFounded};
    ghost use Rattle.gptp_world.specs.Used.{snapshot_link, used, used_if, used_in};

    /// Whether the system lives at which a lane ends.
    fn lives_behind(&self, lane: Lane) -> bool
        requires founded { IsFounded self.now }
        requires lane { lane.link < length self.now.net.traffic.net.channels }
        ensures { (channel : Channel) → slice_get self.entry.now.net.traffic.net.channels lane.link ≡ Some channel
            → result ≡ stations_have_clock (live_stations self.entry.now.stations.items) (receiver lane.direction channel).clock }
    {
        self.stations[self.net.directory.receiver(lane)].live
    }

    /// Whether both systems that a link joins live.
    fn joins_live(&self, link: usize) -> bool
        requires founded { IsFounded self.now }
        requires link { link < length self.now.net.traffic.net.channels }
        ensures { (channel : Channel) → slice_get self.entry.now.net.traffic.net.channels link ≡ Some channel
            → result ≡ (stations_have_clock (live_stations self.entry.now.stations.items) channel.a.clock
            && stations_have_clock (live_stations self.entry.now.stations.items) channel.b.clock) }
    {
        let direction = Direction::FromB;
        if !self.lives_behind(Lane { link, direction }) {
            return false;
        }
        let direction = Direction::FromA;
        self.lives_behind(Lane { link, direction })
    }

    /// Whether a link is up between two live systems.
    fn is_in_use(&self, link: usize) -> bool
        requires founded { IsFounded self.now }
        requires link { link < length self.now.net.traffic.net.channels }
        ensures { (channel : Channel) → slice_get self.entry.now.net.traffic.net.channels link ≡ Some channel
            → result ≡ channel_is_used (live_stations self.entry.now.stations.items) channel }
    {
        if !self.net.is_up(link) {
            return false;
        }
        self.joins_live(link)
    }

    /// The two ports of a link that is up between two live systems; none of another.
    fn used_link(&self, link: usize) -> Option<(PortId, PortId)>
        requires founded { IsFounded self.now }
        requires link { link < length self.now.net.traffic.net.channels }
        ensures { (channel : Channel) → slice_get self.entry.now.net.traffic.net.channels link ≡ Some channel
            → option_map snapshot_link result ≡ used (live_stations self.entry.now.stations.items) channel }
    {
        if !self.is_in_use(link) {
            return None;
        }
        let join = self.net.traffic.join(link);
        Some((join.a, join.b))
    }

    /// How many such links there are.
    fn count_used(&self) -> usize
        requires { IsFounded self.now }
        ensures { result ≡ length (used_in self.entry.now) }
    {
        let mut count = 0;
        for link in 0..self.net.traffic.links() {
            if self.is_in_use(link) {
                count += 1;
            }
        }
        count
    }

    /// The one at a place among them.
    fn used_at(&self, place: usize) -> Option<(PortId, PortId)>
        requires { IsFounded self.now }
        ensures { option_map snapshot_link result ≡ slice_get (used_in self.entry.now) place }
    {
        let mut before = 0;
        for link in 0..self.net.traffic.links() {
            if self.is_in_use(link) {
                if before == place {
                    return self.used_link(link);
                }
                before += 1;
            }
        }
        None
    }

    /// Puts a link after others, where it is up between two live systems.
    fn push_used(&self, link: usize, links: &mut Vec<(PortId, PortId)>) -> Result<(), AllocError>
        requires founded { IsFounded self.now }
        requires link { link < length self.now.net.traffic.net.channels }
        ensures { (channel : Channel) → slice_get self.entry.now.net.traffic.net.channels link ≡ Some channel
            → OnOk result (map snapshot_link links.new.items ≡ map snapshot_link links.old.items
            ++ used_if (live_stations self.entry.now.stations.items) channel) }
    {
        match self.used_link(link) {
            Some(ports) => Ok(links.push(ports)?),
            None => Ok(()),
        }
    }

    /// All of them.
    fn list_used(&self, alloc: Global) -> Result<Vec<(PortId, PortId)>, AllocError>
        requires { IsFounded self.now }
        ensures { IfOk result (λ links. map snapshot_link links.items ≡ used_in self.entry.now) }
    {
        let mut links = Vec::new(alloc);
        for link in 0..self.net.traffic.links() {
            self.push_used(link, &mut links)?;
        }
        Ok(links)
    }
}

impl WorldCore {
    ghost use Rattle.std.specs.Prelude.{◌≡◌, length, map, option_map, slice_get, IfOk};
    ghost use Rattle.gptp_invariants.specs.WorldStanding.{snapshot_of};
    ghost use Rattle.gptp_world.specs.Used.{snapshot_link};

    /// How many links are up between two live systems.
    pub(crate) fn links(&self) -> usize
        ensures { result ≡ length (snapshot_of self.now).links }
    {
        self.parts.count_used()
    }

    /// The ports of the one at a place among them, in order of the links. Past the last there is none.
    pub(crate) fn link_at(&self, place: usize) -> Option<(PortId, PortId)>
        ensures { option_map snapshot_link result ≡ slice_get (snapshot_of self.now).links place }
    {
        self.parts.used_at(place)
    }

    /// Those of all of them, in order of the links. Refused for want of memory alone.
    pub(crate) fn list_links(&self, alloc: Global) -> Result<Vec<(PortId, PortId)>, AllocError>
        ensures { IfOk result (λ links. map snapshot_link links.items ≡ (snapshot_of self.now).links) }
    {
        self.parts.list_used(alloc)
    }
}
