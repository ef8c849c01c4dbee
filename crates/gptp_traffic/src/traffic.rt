//! Links, the frames in flight on them, and what is pending.

ghost use Rattle.std.specs.Prelude.{◌≡◌, ℕ, ◌+◌, ◌<◌, ◌≤◌, [], length, map, true, Option, Some, slice_get, IsOk, IfOk, OnOk, IfSome, IfNone};
ghost use Rattle.std.specs.List.{AllByRecursion};
ghost use Rattle.std.specs.Option.{option_map};
ghost use Rattle.gptp_links.specs.Bounds.{Fit};
ghost use Rattle.gptp_links.specs.Queue.{first_frame};
ghost use Rattle.gptp_setup.specs.Intervals.{IsMoment};
ghost use Rattle.gptp_model.specs.Act.{TakesFrame};
ghost use Rattle.gptp_model.specs.Acts.{AtPlace, IsOldestDue};
ghost use Rattle.gptp_model.specs.Changing.{brought_up, taken_down, with_bounds};
ghost use Rattle.gptp_model.specs.Pending.{set_due, timer_time, times_of_item, without_first_entry, IsKnownItem, IsNext};
ghost use Rattle.gptp_model.specs.World.{sender, world_queue, Channel};
ghost use Rattle.gptp_model.specs.declared.item.Item.TheVariants.{Expiry};
ghost use Rattle.gptp_traffic.specs.declared.joined_link.JoinedLink.{JoinedLink};
ghost use Rattle.gptp_traffic.specs.Traffic.{idle_channel, join_of, SentOne};

use crate::joined_link::{Join, JoinedLink, Lane};
use crate::pending::Pending;
use gptp_links::{Bounds, Fate};
use gptp_model::{Carried, Item};
use gptp_system::Timer;
use std::alloc::{AllocError, Global};
use std::marker::Model;

/// What is between the systems of a world: links between two ports each, with the frames in flight on them, and what is
/// pending: the arrivals of those frames, and timers, each at most once. Systems and links are named by their places,
/// from 0. A link is first in, first out in each direction: a frame that is sent at a time with a delay is due after
/// that delay, but not before the last frame that is in flight there (profile).
///
/// It is seen as how many systems there are, the links and what is pending, both as gptp_model has them, and how many
/// more entries can be put without being refused: each frame that is sent is one, and each timer that is set.
#[derive(Drop)]
pub struct Traffic {
    links: Vec<JoinedLink>,
    pending: Pending,
}

impl Model for Traffic {
    ghost use Rattle.gptp_traffic.specs.Traffic.{TrafficState};

    ghost Value = { TrafficState };

    ghost use Rattle.gptp_traffic.specs.Traffic.{net_of, IsTraffic};

    ghost view = { λ t. record {
      systems = t.pending.systems;
      net = net_of t.links.items t.pending;
      room = t.pending.room;
    } };

    ghost invariant = { λ t. IsTraffic t.links.items t.pending };
}

impl Traffic {
    /// These links, up to 2,048, with nothing in flight, and nothing pending of so many systems, up to 512. Refused for
    /// want of memory alone.
    pub fn new(alloc: Global, systems: usize, links: Vec<JoinedLink>) -> Result<Self, AllocError>
        requires systems { systems ≤ 512 }
        requires links { length links.items ≤ 2048 }
        requires fit { (place : ℕ) (link : JoinedLink) → slice_get links.items place ≡ Some link → Fit link.bounds }
        ensures systems { IfOk result (λ traffic. traffic.systems ≡ systems) }
        ensures channels { IfOk result (λ traffic. traffic.net.channels ≡ map idle_channel links.items) }
        ensures pending { IfOk result (λ traffic. traffic.net.pending ≡ []) }
    {
        let pending = Pending::new(alloc, systems, links.len())?;
        Ok(Traffic { links, pending })
    }

    /// The same; room for more has to be made. Refused for want of memory alone.
    pub fn copy(&self, alloc: Global) -> Result<Self, AllocError>
        ensures { IfOk result (λ traffic. traffic ≡ record self.now { room = 0 }) }
    {
        Ok(Traffic {
            links: Vec::from_slice(alloc, &self.links)?,
            pending: self.pending.copy(alloc)?,
        })
    }

    /// Makes room for so many more entries: after `Ok` the next so many find it. Refused where there is no memory for
    /// them, or where the numbers below 2^64 - 1 don't suffice. Nothing else changes.
    pub fn reserve(&mut self, additional: usize) -> Result<(), AllocError>
        ensures kept { self.new ≡ record self.old { room = self.new.room } }
        ensures room { self.old.room ≤ self.new.room }
        ensures ok { OnOk result (additional ≤ self.new.room) }
        ensures succeeds { additional ≤ self.old.room → IsOk result }
    {
        self.pending.reserve(additional)
    }
}

/// Links.
impl Traffic {
    /// How many links there are.
    pub fn links(&self) -> usize
        ensures { result ≡ length self.now.net.channels }
    {
        self.links.len()
    }

    /// The ports that the link at a place joins.
    pub fn join(&self, link: usize) -> Join
        requires { link < length self.now.net.channels }
        ensures { (channel : Channel) → slice_get self.now.net.channels link ≡ Some channel → result ≡ join_of channel }
    {
        self.links[link].join
    }

    /// Whether the link at a place is up.
    pub fn is_up(&self, link: usize) -> bool
        requires { link < length self.now.net.channels }
        ensures { (channel : Channel) → slice_get self.now.net.channels link ≡ Some channel → result ≡ channel.up }
    {
        self.links[link].up
    }

    /// The bounds of what is sent on the link at a place.
    pub fn bounds(&self, link: usize) -> Bounds
        requires { link < length self.now.net.channels }
        ensures { (channel : Channel) → slice_get self.now.net.channels link ≡ Some channel → result ≡ channel.bounds }
    {
        self.links[link].bounds
    }

    /// The link at a place goes down. All that is in flight on it is lost, and isn't pending any more.
    pub fn take_down(&mut self, link: usize)
        requires { link < length self.old.net.channels }
        ensures down { (channel : Channel) → slice_get self.old.net.channels link ≡ Some channel → self.new.net ≡ taken_down link channel self.old.net }
        ensures systems { self.new.systems ≡ self.old.systems }
        ensures room { self.old.room ≤ self.new.room }
        ensures joins { map join_of self.new.net.channels ≡ map join_of self.old.net.channels }
    {
        self.pending.lanes_are_listed();
        self.links[link].up = false;
        self.pending.cancel_arrivals(link);
    }

    /// The link at a place comes up.
    pub fn bring_up(&mut self, link: usize)
        requires { link < length self.old.net.channels }
        ensures up { (channel : Channel) → slice_get self.old.net.channels link ≡ Some channel → self.new ≡ record self.old { net = brought_up link channel self.old.net } }
        ensures joins { map join_of self.new.net.channels ≡ map join_of self.old.net.channels }
    {
        self.links[link].up = true;
    }

    /// The link at a place gets other bounds, for the frames that are sent from now on.
    pub fn set_bounds(&mut self, link: usize, bounds: Bounds)
        requires link { link < length self.old.net.channels }
        requires fit { Fit bounds }
        ensures bounds { (channel : Channel) → slice_get self.old.net.channels link ≡ Some channel → self.new ≡ record self.old { net = with_bounds bounds link channel self.old.net } }
        ensures joins { map join_of self.new.net.channels ≡ map join_of self.old.net.channels }
    {
        self.links[link].bounds = bounds;
    }
}

/// Frames.
impl Traffic {
    /// A frame goes onto a lane whose link is up, at the time `now`, in ns: unless the fate draws that it is lost it is
    /// in flight, and its arrival pending. Takes no memory.
    pub fn send<F: Fate>(&mut self, lane: Lane, carried: Carried, now: u64, fate: &mut F)
        requires early { IsMoment now }
        requires link { lane.link < length self.old.net.channels }
        requires room { 0 < self.old.room }
        requires up { (channel : Channel) → slice_get self.old.net.channels lane.link ≡ Some channel → channel.up ≡ true }
        ensures sent { (channel : Channel) → slice_get self.old.net.channels lane.link ≡ Some channel → SentOne F.answers now (sender lane.direction channel) carried.items fate.old fate.new self.old.net self.new.net }
        ensures systems { self.new.systems ≡ self.old.systems }
        ensures room { self.old.room ≤ self.new.room + 1 }
        ensures joins { map join_of self.new.net.channels ≡ map join_of self.old.net.channels }
    {
        self.pending.lanes_are_listed();
        if let Some(delay) = fate.fate(&self.links[lane.link].bounds, now) {
            let due = (now + delay).max(self.pending.newest_due(lane.link, lane.direction));
            self.pending
                .put_arrival(lane.link, lane.direction, due, carried);
        }
    }

    /// The oldest frame of a lane, which is due at some time, leaves its link whole, and is no longer pending.
    pub fn take(&mut self, lane: Lane) -> Carried
        requires { (now : ℕ) × AtPlace lane.link self.old.net (IsOldestDue lane.direction now) }
        ensures takes { (now : ℕ) (channel : Channel) → slice_get self.old.net.channels lane.link ≡ Some channel → IsOldestDue lane.direction now channel
            → TakesFrame lane.link lane.direction now result.items channel self.old.net self.new.net }
        ensures systems { self.new.systems ≡ self.old.systems }
        ensures room { self.old.room ≤ self.new.room }
        ensures joins { map join_of self.new.net.channels ≡ map join_of self.old.net.channels }
    {
        self.pending.lanes_are_listed();
        self.pending
            .take_arrival(lane.link, lane.direction)
            .unwrap()
    }

    /// When the oldest frame of a lane is due, in ns, if any is in flight there.
    pub fn next_due(&self, lane: Lane) -> Option<u64>
        requires { lane.link < length self.now.net.channels }
        ensures { (channel : Channel) → slice_get self.now.net.channels lane.link ≡ Some channel → result ≡ option_map (λ f. f.due) (first_frame (world_queue lane.direction channel)) }
    {
        self.pending.next_due(lane.link, lane.direction)
    }
}

/// What is pending.
impl Traffic {
    /// When a timer of a system is due, in ns, where it runs.
    pub fn due(&self, place: usize, timer: Timer) -> Option<u64>
        requires { IsKnownItem self.now.systems (length self.now.net.channels) (Expiry place timer) }
        ensures { times_of_item (Expiry place timer) self.now.net.pending ≡ timer_time result }
    {
        self.pending.due(place, timer)
    }

    /// A timer of a system is to run out at this time, in ns, or doesn't run: where it is pending so, its entry stays;
    /// otherwise that is cancelled, and a new one put. Takes no memory.
    pub fn set_due(&mut self, place: usize, timer: Timer, due: Option<u64>)
        requires known { IsKnownItem self.old.systems (length self.old.net.channels) (Expiry place timer) }
        requires room { IfSome due (λ _. 0 < self.old.room) }
        ensures kept { self.new ≡ record self.old { net = record self.old.net { pending = set_due (Expiry place timer) due self.old.net.pending }; room = self.new.room } }
        ensures room { self.old.room ≤ self.new.room + 1 }
    {
        self.pending.set_due(place, timer, due);
    }

    /// Cancels a timer, where it runs.
    pub fn stop(&mut self, place: usize, timer: Timer)
        requires { IsKnownItem self.old.systems (length self.old.net.channels) (Expiry place timer) }
        ensures kept { self.new ≡ record self.old { net = record self.old.net { pending = without_first_entry (Expiry place timer) self.old.net.pending }; room = self.new.room } }
        ensures room { self.old.room ≤ self.new.room }
        ensures once { length (times_of_item (Expiry place timer) self.old.net.pending) ≤ 1 }
    {
        self.pending.stop(place, timer);
    }

    /// The next that is pending, and its time, in ns: of all entries one of least time, and of those the first that was
    /// put.
    pub fn next(&self) -> Option<(u64, Item)>
        ensures next { IfSome result (λ due. IsNext self.now.net.pending due.0 due.1) }
        ensures known { IfSome result (λ due. IsKnownItem self.now.systems (length self.now.net.channels) due.1) }
        ensures empty { IfNone result (self.now.net.pending ≡ []) }
    {
        self.pending.next()
    }

    /// Each timer is pending at most once.
    pub fn timers_run_once(&self)
        ensures { (place : ℕ) (timer : Timer) → IsKnownItem self.now.systems (length self.now.net.channels) (Expiry place timer) → length (times_of_item (Expiry place timer) self.now.net.pending) ≤ 1 }
    {
        self.pending.timers_run_once();
    }

    /// All that is pending is of the systems and links that there are.
    pub fn items_are_known(&self)
        ensures { AllByRecursion (λ e. IsKnownItem self.now.systems (length self.now.net.channels) e.item) self.now.net.pending }
    {
        self.pending.items_are_known();
    }
}
