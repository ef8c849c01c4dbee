//! What a world shows.

ghost use Rattle.std.specs.Prelude.{◌≡◌, IfNone, IfSome};
ghost use Rattle.gptp_system.specs.Start.{role_at};
ghost use Rattle.gptp_system.specs.Steps.{HasPortNumber};
ghost use Rattle.gptp_scenario.specs.Allowed.{IsFitAct};
ghost use Rattle.gptp_world.specs.WorldParts.{world_of, IsWorldParts};
ghost use Rattle.gptp_world.specs.WorldParts.{IsPlacedItem};
ghost use Rattle.gptp_model.specs.Views.{IsActOf};

use crate::world_core::WorldCore;
use crate::world_parts::WorldParts;
use gptp_model::{Act, Item, Timed};
use gptp_roles::Role;
use gptp_scaled::ScaledNs;
use gptp_system::System;
use gptp_vector::{ClockId, Identity};
use std::alloc::Global;

impl WorldCore {
    ghost use Rattle.std.specs.Prelude.{◌≡◌, ◌≤◌, ◌↔◌, [], ℤ, IfNone, IfSome, IsTrue, length, slice_get, true};
    ghost use Rattle.gptp_setup.specs.Intervals.{IsMoment};
    ghost use Rattle.gptp_model.specs.Acts.{AtSystem};
    ghost use Rattle.gptp_scenario.specs.Allowed.{IsFitAct};
    ghost use Rattle.gptp_model.specs.Prompt.{DelaysFitIntervals};
    ghost use Rattle.gptp_model.specs.Sound.{IsSound};
    ghost use Rattle.gptp_model.specs.Views.{FollowsRoot, HasBase, HasPort, HasRole, IsLiveSystem, IsNextAct, ShowsLive, ShowsTime, rising_clocks};
    ghost use Rattle.gptp_invariants.specs.WorldSettlingInvariant.{SettlingInvariant};
    ghost use Rattle.gptp_invariants.specs.WorldShown.{FollowsAtOnce, FollowsByDistance, FollowsByPaths, FollowsInTime};
    ghost use Rattle.gptp_invariants.specs.WorldShown.{IsCapableInTime, IsEnabledInTime};
    ghost use Rattle.gptp_invariants.specs.WorldShown.{PlaysAtOnce, PlaysByDistance, PlaysByPaths, PlaysInTime};
    ghost use Rattle.gptp_invariants.specs.SyncTimedClaim.{WorldInvariant};
    ghost use Rattle.gptp_invariants.specs.ChoiceTraces.{AreHeldCleanInTime, AreHeldWholeInTime, AreHeldWholeSooner, IsCleanInTime};

    /// The time, in ns.
    pub(crate) fn now(&self) -> u64
        ensures { result ≡ self.now.time }
    {
        self.parts.now
    }

    /// The time of the last change, in ns.
    pub(crate) fn last_change(&self) -> u64
        ensures { result ≡ self.now.last_change }
    {
        self.parts.last_change
    }

    /// Where the world gets its memory.
    pub(crate) fn alloc(&self) -> Global {
        self.parts.net.buffers.alloc()
    }

    /// How many systems there are, live or not.
    pub(crate) fn count(&self) -> usize
        ensures count { result ≡ length self.now.stations }
        ensures few { result ≤ 512 }
    {
        self.parts.net.directory.well_formed();
        self.parts.stations.len()
    }

    /// The clock of a system by its rank: the least has place 0. Past the last there is none.
    pub(crate) fn clock_at(&self, place: usize) -> Option<ClockId>
        ensures { result ≡ slice_get (rising_clocks self.now) place }
    {
        self.parts.net.directory.clock_at(place)
    }

    /// The next that is due: of all that is pending one of least time, and of those the first that was put.
    pub(crate) fn next(&self) -> Option<Timed>
        ensures next { IfSome result (IsNextAct self.now) }
        ensures fit { IfSome result (λ timed. IsFitAct timed.act) }
        ensures prompt { IfSome result (λ timed. DelaysFitIntervals self.now timed.act) }
        ensures none { IfNone result (self.now.net.pending ≡ []) }
    {
        match self.parts.net.traffic.next() {
            Some((at, item)) => {
                let act = act_of(&self.parts, item);
                Some(Timed { at, act })
            }
            None => None,
        }
    }

    /// The live system with a clock, if there is one. In time its ports are capable where they can be, and traces
    /// clean.
    pub(crate) fn system(&self, clock: ClockId) -> Option<&System>
        ensures some { IfSome result (λ system. ShowsLive clock self.now system.now) }
        ensures none { IfNone result (AtSystem clock self.now IsLiveSystem → ⊥) }
        ensures capable { IfSome result (λ system. IsCapableInTime self.now system.now) }
        ensures clean { IfSome result (λ system. IsCleanInTime self.now system.now) }
        ensures held { IfSome result (λ system. AreHeldCleanInTime self.now system.now) }
        ensures whole { IfSome result (λ system. AreHeldWholeInTime self.now system.now) }
        ensures sooner { IfSome result (λ system. AreHeldWholeSooner self.now system.now) }
    {
        self.well_formed();
        self.live_system(clock)
    }

    /// The live system with a clock, if there is one.
    fn live_system(&self, clock: ClockId) -> Option<&System>
        ensures some { IfSome result (λ system. ShowsLive clock self.now system.now) }
        ensures none { IfNone result (AtSystem clock self.now IsLiveSystem → ⊥) }
    {
        match self.parts.net.directory.place_of(clock) {
            Some(place) => {
                let station = &self.parts.stations[place];
                match station.live {
                    true => Some(&station.system),
                    false => None,
                }
            }
            None => None,
        }
    }

    /// What the clock of a system, live or not, shows at a time; `None` where there is no such system.
    pub(crate) fn local(&self, clock: ClockId, t: u64) -> Option<ScaledNs>
        requires { IsMoment t }
        ensures some { IfSome result (λ shown. AtSystem clock self.now (ShowsTime t shown)) }
        ensures none { IfNone result ((shown : ℤ) → AtSystem clock self.now (ShowsTime t shown) → ⊥) }
    {
        match self.parts.net.directory.place_of(clock) {
            Some(place) => Some(self.parts.stations[place].system.local(t)),
            None => None,
        }
    }

    /// The base of a system, live or not; `None` where there is no such system.
    pub(crate) fn base(&self, clock: ClockId) -> Option<ScaledNs>
        ensures some { IfSome result (λ base. AtSystem clock self.now (HasBase base)) }
        ensures none { IfNone result ((base : ℤ) → AtSystem clock self.now (HasBase base) → ⊥) }
    {
        match self.parts.net.directory.place_of(clock) {
            Some(place) => Some(self.parts.stations[place].system.base()),
            None => None,
        }
    }

    /// Whether there is a live system with a clock.
    pub(crate) fn live(&self, clock: ClockId) -> bool
        ensures { IsTrue result ↔ AtSystem clock self.now IsLiveSystem }
    {
        match self.live_system(clock) {
            Some(_) => true,
            None => false,
        }
    }

    /// The root that the live system with a clock follows, how many steps away that is, and the number of its Slave
    /// port. In time these are the settled choice.
    pub(crate) fn follows(&self, clock: ClockId) -> Option<(Identity, u16, Option<u8>)>
        ensures some { IfSome result (λ f. AtSystem clock self.now (FollowsRoot f.0 f.1 f.2)) }
        ensures none { IfNone result (AtSystem clock self.now IsLiveSystem → ⊥) }
        ensures settled { IfSome result (λ f. FollowsInTime clock self.now f.0 f.1 f.2) }
        ensures by_paths { IfSome result (λ f. FollowsByPaths clock self.now f.0 f.1 f.2) }
        ensures at_once { IfSome result (λ f. FollowsAtOnce clock self.now f.0 f.1 f.2) }
        ensures by_distance { IfSome result (λ f. FollowsByDistance clock self.now f.0 f.1 f.2) }
    {
        self.well_formed();
        match self.live_system(clock) {
            Some(system) => Some(system.follows()),
            None => None,
        }
    }

    /// What is pending agrees with the state, nothing is due before now, and the rest of what is true of every world,
    /// from which it follows that it settles and how exact its offsets are.
    pub(crate) fn well_formed(&self)
        ensures sound { IsSound self.now }
        ensures claimed { SettlingInvariant self.now }
        ensures timed { WorldInvariant self.now }
    {
        let _ = &self.parts;
    }

    /// The role of a port of the live system with a clock. In time it is Disabled where no link is at it, and settled.
    pub(crate) fn role(&self, clock: ClockId, port: u16) -> Option<Role>
        ensures some { IfSome result (λ role. AtSystem clock self.now (HasRole port role)) }
        ensures none { IfNone result (AtSystem clock self.now (HasPort port) → ⊥) }
        ensures enabled { IfSome result (λ role. IsEnabledInTime clock port self.now role) }
        ensures settled { IfSome result (λ role. PlaysInTime clock port self.now role) }
        ensures by_paths { IfSome result (λ role. PlaysByPaths clock port self.now role) }
        ensures at_once { IfSome result (λ role. PlaysAtOnce clock port self.now role) }
        ensures by_distance { IfSome result (λ role. PlaysByDistance clock port self.now role) }
    {
        self.well_formed();
        match self.live_system(clock) {
            Some(system) => role_of(system, port),
            None => None,
        }
    }
}

/// The role of a port of a system, where it has that port.
fn role_of(system: &System, port: u16) -> Option<Role>
    ensures some { IfSome result (λ role. HasPortNumber system.now port × (role ≡ role_at system.now port)) }
    ensures none { IfNone result (HasPortNumber system.now port → ⊥) }
{
    if port == 0 || u16::from(system.ports()) < port {
        return None;
    }
    Some(system.role(port as u8))
}

/// The act that an item is.
pub(crate) fn act_of(parts: &WorldParts, item: Item) -> Act
    requires parts { IsWorldParts parts.now }
    requires placed { IsPlacedItem item parts.now }
    ensures act { IsActOf item (world_of parts.entry.now) result }
    ensures fit { IsFitAct result }
{
    match item {
        Item::Expiry { place, timer } => Act::Expire {
            clock: parts.net.directory.clock_in(usize::from(place)),
            timer,
        },
        Item::Arrival { link, direction } => Act::Deliver {
            link: usize::from(link),
            direction,
        },
    }
}
