//! Acts that are carried out.

ghost use Rattle.std.specs.Prelude.{◌≡◌, ◌≤◌, length};
ghost use Rattle.gptp_world.specs.Performing.{octets_of};

use crate::act_target::ActTarget;
use crate::delivering::Reached;
use crate::world_parts::WorldParts;
use gptp_links::{Bounds, Fate};
use gptp_model::{Act, Change, Done, Item};
use gptp_traffic::Lane;
use std::alloc::AllocError;

/// What an act injects; no other injects anything.
fn octets_of(act: &Act) -> &[u8]
    ensures is { result.now ≡ octets_of act.now }
    ensures few { length result.now ≤ 2116 }
{
    match act {
        Act::Change(
            Change::Inject {
                clock: _,
                port: _,
                octets,
            },
        ) => octets.as_slice(),
        _ => &[],
    }
}

impl WorldParts {
    ghost use Rattle.std.specs.Prelude.{◌≡◌, ◌<◌, ◌≤◌, [], length, true, false};
    ghost use Rattle.gptp_links.specs.Bounds.{Fit};
    ghost use Rattle.gptp_world.specs.declared.act_target.ActTarget.TheVariants.{LinkDown, LinkUp, LinkSet, Fail, Recover};
    ghost use Rattle.gptp_scenario.specs.declared.change.Act.TheVariants.{Deliver};
    ghost use Rattle.gptp_model.specs.Acts.{AtPlace, IsOldestDue};
    ghost use Rattle.gptp_model.specs.Agrees.{Agrees};
    ghost use Rattle.gptp_world.specs.Delivering.{HasRoomToHear};
    ghost use Rattle.gptp_world.specs.Net.{LinkIs};
    ghost use Rattle.gptp_world.specs.Performing.{ActIsDone, CanChange, HasRoomForTarget, Injected, IsDone, Turned, TurnsOver};
    ghost use Rattle.gptp_model.specs.Sound.{IsWired};
    ghost use Rattle.gptp_world.specs.Room.{for_frame, WorldHasRoom};
    ghost use Rattle.gptp_world.specs.WorldParts.{world_of, IsWorldParts, SystemIs};
    ghost use Rattle.gptp_world.specs.Starting.{CanStart, HasRoomToStart};
    ghost use Rattle.gptp_world.specs.Telling.{HasRoomAtEnds};

    /// The oldest frame of a lane, which is due now, arrives.
    fn arrive<F: Fate>(&mut self, lane: Lane, fate: &mut F) -> Done
        requires parts { IsWorldParts self.old }
        requires wired { IsWired (world_of self.old) }
        requires agrees { Agrees (world_of self.old) }
        requires due { AtPlace lane.link (world_of self.old).net (IsOldestDue lane.direction self.old.now) }
        requires room { HasRoomToHear lane self.old }
        ensures parts { IsWorldParts self.new }
        ensures arrived { ActIsDone F.answers (Deliver lane.link lane.direction) result fate.old fate.new self.old self.new }
    {
        let Reached { at, answer, frame } = self.deliver(lane, fate);
        Done::Heard {
            clock: at.clock,
            port: at.port,
            answer,
            frame,
        }
    }

    /// The oldest frame of a lane, which is due now, arrives, and nothing is told of it. Its buffer, where its octets
    /// stand in one, stands ready for another.
    fn arrive_unseen<F: Fate>(&mut self, lane: Lane, fate: &mut F)
        requires parts { IsWorldParts self.old }
        requires wired { IsWired (world_of self.old) }
        requires agrees { Agrees (world_of self.old) }
        requires due { AtPlace lane.link (world_of self.old).net (IsOldestDue lane.direction self.old.now) }
        requires room { HasRoomToHear lane self.old }
        ensures parts { IsWorldParts self.new }
        ensures arrived { IsDone F.answers (Deliver lane.link lane.direction) fate.old fate.new self.old self.new }
    {
        let reached = self.deliver(lane, fate);
        self.net.buffers.put_back_of(reached.frame);
    }

    /// A link goes down, where it is up.
    fn take_link_down<F: Fate>(&mut self, link: usize, fate: &mut F)
        requires parts { IsWorldParts self.old }
        requires link { link < length self.old.net.traffic.net.channels }
        requires room { LinkIs true link self.old.net → HasRoomAtEnds link self.old }
        ensures parts { IsWorldParts self.new }
        ensures down { Turned F.answers (LinkDown link) fate.old fate.new self.old self.new }
    {
        if self.net.is_up(link) {
            self.link_down(link, fate);
        }
    }

    /// A link comes up, where it is down.
    fn bring_link_up<F: Fate>(&mut self, link: usize, fate: &mut F)
        requires parts { IsWorldParts self.old }
        requires link { link < length self.old.net.traffic.net.channels }
        requires room { LinkIs false link self.old.net → HasRoomAtEnds link self.old }
        ensures parts { IsWorldParts self.new }
        ensures up { Turned F.answers (LinkUp link) fate.old fate.new self.old self.new }
    {
        if !self.net.is_up(link) {
            self.link_up(link, fate);
        }
    }

    /// A link gets other bounds.
    fn set_link(&mut self, link: usize, bounds: Bounds)
        requires parts { IsWorldParts self.old }
        requires link { link < length self.old.net.traffic.net.channels }
        requires fit { Fit bounds }
        ensures parts { IsWorldParts self.new }
        ensures set { TurnsOver (LinkSet link bounds) (world_of self.old) [] (world_of self.new) }
    {
        self.net.set_bounds(link, bounds);
    }

    /// A system fails, where it is live.
    fn fail_if_live(&mut self, place: usize)
        requires parts { IsWorldParts self.old }
        requires place { place < length self.old.stations.items }
        ensures parts { IsWorldParts self.new }
        ensures failed { TurnsOver (Fail place) (world_of self.old) [] (world_of self.new) }
    {
        if self.stations[place].live {
            self.fail(place);
        }
    }

    /// A system starts again, where it has failed.
    fn recover<F: Fate>(&mut self, place: usize, fate: &mut F)
        requires parts { IsWorldParts self.old }
        requires can { CanStart place self.old }
        requires room { SystemIs false place self.old → HasRoomToStart place self.old }
        ensures parts { IsWorldParts self.new }
        ensures recovered { Turned F.answers (Recover place) fate.old fate.new self.old self.new }
    {
        if !self.stations[place].live {
            self.start(place, fate);
        }
    }

    /// A frame with these octets goes onto a lane, where its link is up, as if the system at its beginning had sent it.
    fn inject<F: Fate>(&mut self, lane: Lane, octets: &[u8], fate: &mut F)
        requires parts { IsWorldParts self.old }
        requires link { lane.link < length self.old.net.traffic.net.channels }
        requires few { length octets.now ≤ 2116 }
        requires room { LinkIs true lane.link self.old.net → WorldHasRoom for_frame self.old.net }
        ensures parts { IsWorldParts self.new }
        ensures injected { Injected F.answers lane octets.now fate.old fate.new self.old self.new }
    {
        if self.net.is_up(lane.link) {
            self.net.inject(lane, octets, self.now, fate);
        }
    }

    /// What a change is about is changed.
    fn change<F: Fate>(&mut self, target: ActTarget, fate: &mut F)
        requires parts { IsWorldParts self.old }
        requires can { CanChange target self.old }
        requires room { HasRoomForTarget target self.old }
        ensures parts { IsWorldParts self.new }
        ensures changed { Turned F.answers target fate.old fate.new self.old self.new }
    {
        match target {
            ActTarget::LinkDown(link) => self.take_link_down(link, fate),
            ActTarget::LinkUp(link) => self.bring_link_up(link, fate),
            ActTarget::LinkSet { link, bounds } => self.set_link(link, bounds),
            ActTarget::Fail(place) => self.fail_if_live(place),
            ActTarget::Recover(place) => self.recover(place, fate),
            ActTarget::Priority1 { place, value } => self.set_priority1(place, value, fate),
            ActTarget::Arrival(_) => {}
            ActTarget::Timer { place: _, timer: _ } => {}
            ActTarget::Inject(_) => {}
        }
    }
}

impl WorldParts {
    ghost use Rattle.std.specs.Prelude.{◌≡◌, IsOk, OnOk};
    ghost use Rattle.gptp_model.specs.Acts.{IsDueThen};
    ghost use Rattle.gptp_scenario.specs.Allowed.{IsFitAct};
    ghost use Rattle.gptp_world.specs.ActTarget.{IsTargetOf};
    ghost use Rattle.gptp_world.specs.Memory.{AsksForNoMemory};
    ghost use Rattle.gptp_world.specs.Performing.{ActIsDone, HasRoomForTarget};
    ghost use Rattle.gptp_model.specs.Sound.{IsSound};
    ghost use Rattle.gptp_world.specs.WorldParts.{world_of, IsWorldParts};

    /// Makes room for whatever an act can leave: none for a failure, or where nothing will change. Refused where there
    /// is no memory for it. The state of the world doesn't change.
    pub(crate) fn make_room_for(&mut self, act: &Act, target: ActTarget) -> Result<(), AllocError>
        requires parts { IsWorldParts self.old }
        requires target { IsTargetOf act.now (world_of self.old) target }
        ensures parts { IsWorldParts self.new }
        ensures world { world_of self.new ≡ world_of self.old }
        ensures room { OnOk result (HasRoomForTarget target self.new) }
        ensures free { AsksForNoMemory act.now (world_of self.old) → IsOk result }
    {
        match target {
            ActTarget::LinkDown(link) => self.make_room_to_take_down(link),
            ActTarget::LinkUp(link) => self.make_room_to_bring_up(link),
            ActTarget::LinkSet { link: _, bounds: _ } => Ok(()),
            ActTarget::Fail(_) => Ok(()),
            ActTarget::Recover(place) => self.make_room_to_recover(place),
            ActTarget::Priority1 { place, value: _ } => self.make_room(place),
            ActTarget::Inject(lane) => self.make_room_to_inject(lane),
            ActTarget::Arrival(lane) => self.make_room_to_hear(lane),
            ActTarget::Timer { place, timer: _ } => self.make_room(place),
        }
    }

    /// An act that is there, and due now, is carried out.
    pub(crate) fn perform<F: Fate>(&mut self, act: &Act, target: ActTarget, fate: &mut F) -> Done
        requires parts { IsWorldParts self.old }
        requires sound { IsSound (world_of self.old) }
        requires target { IsTargetOf act.now (world_of self.old) target }
        requires due { IsDueThen act.now self.old.now (world_of self.old) }
        requires fit { IsFitAct act.now }
        requires room { HasRoomForTarget target self.old }
        ensures parts { IsWorldParts self.new }
        ensures acted { ActIsDone F.answers act.now result fate.old fate.new self.old self.new }
    {
        match target {
            ActTarget::Arrival(lane) => self.arrive(lane, fate),
            ActTarget::Timer { place, timer } => {
                self.run_out(place, timer, fate);
                Done::Quiet
            }
            ActTarget::Inject(lane) => {
                self.last_change = self.now;
                self.inject(lane, octets_of(act), fate);
                Done::Quiet
            }
            _ => {
                self.last_change = self.now;
                self.change(target, fate);
                Done::Quiet
            }
        }
    }
}

impl WorldParts {
    ghost use Rattle.std.specs.Prelude.{◌≡◌, ℕ, OnOk};
    ghost use Rattle.gptp_scenario.specs.declared.change.Act.{Act};
    ghost use Rattle.gptp_model.specs.Pending.{IsNext};
    ghost use Rattle.gptp_model.specs.Sound.{IsSound};
    ghost use Rattle.gptp_model.specs.Views.{IsActOf};
    ghost use Rattle.gptp_world.specs.ActTarget.{aim_of};
    ghost use Rattle.gptp_world.specs.Performing.{HasRoomForTarget, IsDone};
    ghost use Rattle.gptp_world.specs.WorldParts.{world_of, IsWorldParts};

    /// Makes room for whatever can be left where what is next happens. Refused where there is no memory for it. The
    /// state of the world doesn't change.
    pub(crate) fn make_room_to_pass(&mut self, item: Item) -> Result<(), AllocError>
        requires parts { IsWorldParts self.old }
        requires sound { IsSound (world_of self.old) }
        requires next { (time : ℕ) × IsNext (world_of self.old).net.pending time item }
        ensures parts { IsWorldParts self.new }
        ensures world { world_of self.new ≡ world_of self.old }
        ensures room { OnOk result (HasRoomForTarget (aim_of item) self.new) }
    {
        match item {
            Item::Expiry { place, timer: _ } => self.make_room(usize::from(place)),
            Item::Arrival { link, direction } => self.make_room_to_hear(Lane {
                link: usize::from(link),
                direction,
            }),
        }
    }

    /// What is next, which is due now, happens, and nothing is told of it.
    pub(crate) fn pass<F: Fate>(&mut self, item: Item, fate: &mut F)
        requires parts { IsWorldParts self.old }
        requires sound { IsSound (world_of self.old) }
        requires next { IsNext (world_of self.old).net.pending self.old.now item }
        requires room { HasRoomForTarget (aim_of item) self.old }
        ensures parts { IsWorldParts self.new }
        ensures done { (act : Act) → IsActOf item (world_of self.old) act
            → IsDone F.answers act fate.old fate.new self.old self.new }
    {
        match item {
            Item::Expiry { place, timer } => self.run_out(usize::from(place), timer, fate),
            Item::Arrival { link, direction } => {
                let lane = Lane {
                    link: usize::from(link),
                    direction,
                };
                self.arrive_unseen(lane, fate);
            }
        }
    }
}
