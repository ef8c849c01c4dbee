//! Simulated worlds.

use crate::no_observer::{NoObserver, NullSink};
use crate::world_core::WorldCore;
use gptp_links::Fate;
use gptp_model::{Done, Network, Refused, Timed};
use gptp_roles::Role;
use gptp_scaled::ScaledNs;
use gptp_system::System;
use gptp_vector::{ClockId, Identity, PortId};
use std::alloc::{AllocError, Global};

/// A simulated world: the systems of a network, what is between them, and the fate that draws for each frame that is
/// sent. Contracts see the two apart: `world_core` is the state of the world, and `fate` that of the fate.
#[derive(Drop)]
pub struct World<F> {
    pub(crate) world_core: WorldCore,
    pub(crate) fate: F,
}

impl<F: Fate + Drop> World<F> {
    ghost use Rattle.std.specs.Prelude.{◌≡◌, ◌≢◌, ◌≤◌, ◌↔◌, IsTrue, IfErr, IfNone, IfOk, IfSome, List, OnErr, OnOk, length, map, option_map, slice_get, [], ℤ};
    ghost use Rattle.gptp_setup.specs.Intervals.{IsMoment};
    ghost use Rattle.gptp_model.specs.Acts.{AtSystem, Refuses};
    ghost use Rattle.gptp_model.specs.declared.done.Refused.TheVariants.{OutOfMemory};
    ghost use Rattle.gptp_scenario.specs.Allowed.{IsFitAct};
    ghost use Rattle.gptp_scenario.specs.Allowed.{AreAllowed, IsAllowed};
    ghost use Rattle.gptp_model.specs.Playing.{IsPlayed, Plays, StopsAt};
    ghost use Rattle.gptp_model.specs.Prompt.{AllDelaysFitIntervals, DelaysFitIntervals};
    ghost use Rattle.gptp_model.specs.Advancing.{Advanced, StopsShort, Told};
    ghost use Rattle.gptp_model.specs.Course.{Begun, WasDone};
    ghost use Rattle.gptp_scenario.specs.Network.{seeded};
    ghost use Rattle.gptp_model.specs.Sound.{IsSound};
    ghost use Rattle.gptp_invariants.specs.WorldSettlingInvariant.{SettlingInvariant};
    ghost use Rattle.gptp_invariants.specs.WorldStanding.{snapshot_of};
    ghost use Rattle.gptp_invariants.specs.WorldShown.{FollowsAtOnce, FollowsByDistance, FollowsByPaths, FollowsInTime};
    ghost use Rattle.gptp_invariants.specs.WorldShown.{IsCapableInTime, IsEnabledInTime};
    ghost use Rattle.gptp_invariants.specs.WorldShown.{PlaysAtOnce, PlaysByDistance, PlaysByPaths, PlaysInTime};
    ghost use Rattle.gptp_invariants.specs.SyncExact.{IsHeardExact};
    ghost use Rattle.gptp_invariants.specs.SyncTimedClaim.{WorldInvariant};
    ghost use Rattle.gptp_invariants.specs.ChoiceTraces.{AreHeldCleanInTime, AreHeldWholeInTime, AreHeldWholeSooner, IsCleanInTime, IsHeardClean};
    ghost use Rattle.gptp_model.specs.Views.{FollowsRoot, HasBase, HasPort, HasRole, IsLiveSystem, IsNextAct, ShowsLive, ShowsTime, rising_clocks};
    ghost use Rattle.gptp_world.specs.Memory.{AsksForNoMemory};
    ghost use Rattle.gptp_world.specs.Used.{snapshot_link};

    /// The world of a network at time 0: all its systems have started, in their order, and their first frames are in
    /// flight. They draw the noise of their time stamps from the seed of the network. Refused for want of memory alone;
    /// then the fate is dropped.
    pub fn new(alloc: Global, network: &Network, fate: F) -> Result<Self, AllocError>
        ensures { IfOk result (λ world. Begun F.answers network.now fate world.fate world.world_core) }
    {
        World::seeded(alloc, network, network.seed(), fate)
    }

    /// The world of a network as by [`World::new`], whose systems draw the noise of their time stamps from this seed.
    pub fn seeded(alloc: Global, network: &Network, seed: u64, fate: F) -> Result<Self, AllocError>
        ensures { IfOk result (λ world. Begun F.answers (seeded seed network.now) fate world.fate world.world_core) }
    {
        let mut fate = fate;
        let world_core = WorldCore::new(alloc, network, seed, &mut fate)?;
        Ok(World { world_core, fate })
    }

    /// An act is done at its time: a frame that is due is delivered, a timer that is due expires, or the network is
    /// changed. Times are at most `LAST_MOMENT`; the bounds that a link is set to keep their ranges, and its greatest
    /// delay is at most the announce interval.
    ///
    /// Refused, in this order, with `InThePast` where its time has passed, `Untimely` where something is due earlier,
    /// `NoSuch` where there is no such link or system, no such port of a timer, or no link at the port of a change,
    /// `NotDue`, and `OutOfMemory`. Then nothing changes. A frame that is due is delivered to a failed system too, and
    /// dropped there.
    ///
    /// Where a Follow_Up is delivered and a near system uses it, the offset that it leaves is within the time error of
    /// the system's way of its clock less what its root tells, once the world has been calm for the settling span and
    /// for as long as a Sync takes down that way at most.
    ///
    /// A failure and other bounds of a link ask for no memory, nor does a change that finds its link or system as it
    /// should become, or an injection where the link is down: these are never refused with `OutOfMemory`.
    pub fn act(&mut self, timed: Timed) -> Result<Done, Refused>
        requires moment { IsMoment timed.at }
        requires fit { IsFitAct timed.act }
        requires prompt { DelaysFitIntervals self.old.world_core timed.act }
        ensures done { IfOk result (WasDone F.answers timed self.old.fate self.new.fate self.old.world_core self.new.world_core) }
        ensures clean { IfOk result (IsHeardClean self.old.world_core timed.at) }
        ensures exact { IfOk result (IsHeardExact self.old.world_core timed.at self.new.world_core) }
        ensures refused { IfErr result (Refuses timed.act timed.at self.old.world_core) }
        ensures free { AsksForNoMemory timed.act self.old.world_core → IfErr result (λ refused. refused ≢ OutOfMemory) }
        ensures kept { OnErr result (self.new ≡ self.old) }
    {
        self.carry_out(&timed)
    }

    /// An act that is lent is done at its time, or refused, as by [`act`](Self::act), and within its limits.
    pub fn carry_out(&mut self, timed: &Timed) -> Result<Done, Refused>
        requires moment { IsMoment timed.now.at }
        requires fit { IsFitAct timed.now.act }
        requires prompt { DelaysFitIntervals self.old.world_core timed.now.act }
        ensures done { IfOk result (WasDone F.answers timed.now self.old.fate self.new.fate self.old.world_core self.new.world_core) }
        ensures clean { IfOk result (IsHeardClean self.old.world_core timed.now.at) }
        ensures exact { IfOk result (IsHeardExact self.old.world_core timed.now.at self.new.world_core) }
        ensures refused { IfErr result (Refuses timed.now.act timed.now.at self.old.world_core) }
        ensures free { AsksForNoMemory timed.now.act self.old.world_core → IfErr result (λ refused. refused ≢ OutOfMemory) }
        ensures kept { OnErr result (self.new ≡ self.old) }
    {
        self.world_core.act(timed, &mut self.fate)
    }

    /// The acts of a list are done, one after another, up to the first that is refused: answered with its place, from
    /// 0, and why. Those before it stand. Each keeps the limits that [`act`](Self::act) asks for: times are at most
    /// `LAST_MOMENT`, the bounds that a link is set to keep their ranges, and its greatest delay is at most the
    /// announce interval.
    pub fn play(&mut self, acts: &[Timed]) -> Result<(), (usize, Refused)>
        requires allowed { AreAllowed acts.now }
        requires prompt { AllDelaysFitIntervals self.old.world_core acts.now }
        ensures ok { OnOk result (Plays F.answers acts.now self.old.fate self.new.fate self.old.world_core self.new.world_core) }
        ensures err { IfErr result (λ e. StopsAt F.answers acts.now e.0 e.1 self.old.fate self.new.fate self.old.world_core self.new.world_core) }
    {
        for place in 0..acts.len() {
            self.well_formed();
            self.play_next(place, &acts[place])?;
        }
        Ok(())
    }

    /// The act at a place of a list is done, or refused with its place.
    fn play_next(&mut self, place: usize, timed: &Timed) -> Result<(), (usize, Refused)>
        requires allowed { IsAllowed timed.now }
        requires prompt { DelaysFitIntervals self.old.world_core timed.now.act }
        ensures played { OnOk result (IsPlayed F.answers timed.now self.old.fate self.new.fate self.old.world_core self.new.world_core) }
        ensures place { IfErr result (λ e. e.0 ≡ place) }
        ensures refused { IfErr result (λ e. Refuses timed.now.act timed.now.at self.old.world_core e.1) }
        ensures kept { OnErr result (self.new ≡ self.old) }
    {
        match self.carry_out(timed) {
            Ok(_) => Ok(()),
            Err(refused) => Err((place, refused)),
        }
    }

    /// It goes on up to a time, at most `LAST_MOMENT`: what is pending happens, one act after another, each of them the
    /// next that is due then. After `Ok` that is its time, and nothing that is due by then is left.
    ///
    /// Refused with `InThePast` where that time has passed, and then nothing changes. Refused with `OutOfMemory` where
    /// there is no memory for the next act, and then it has gone on up to there, by whole acts.
    pub fn advance(&mut self, until: u64) -> Result<(), Refused>
        requires moment { IsMoment until }
        ensures advanced { OnOk result ((told : List Told) × Advanced F.answers until told self.old.fate self.new.fate self.old.world_core self.new.world_core) }
        ensures refused { IfErr result (StopsShort F.answers until self.old.fate self.new.fate self.old.world_core self.new.world_core) }
    {
        if until < self.world_core.now() {
            return Err(Refused::InThePast);
        }
        let alloc = self.world_core.alloc();
        match self.go_on(alloc, until, &mut NoObserver, &mut NullSink) {
            Ok(()) => Ok(()),
            Err(_) => Err(Refused::OutOfMemory),
        }
    }

    /// The time, in ns.
    pub fn now(&self) -> u64
        ensures { result ≡ self.now.world_core.time }
    {
        self.world_core.now()
    }

    /// The time of the last change, in ns; 0 before the first.
    pub fn last_change(&self) -> u64
        ensures { result ≡ self.now.world_core.last_change }
    {
        self.world_core.last_change()
    }

    /// How many systems there are, live or not: at most 512.
    pub fn count(&self) -> usize
        ensures count { result ≡ length self.now.world_core.stations }
        ensures few { result ≤ 512 }
    {
        self.world_core.count()
    }

    /// The clock of a system, live or not, by its rank: the least clock has place 0. `None` past the last. Takes no
    /// memory.
    pub fn clock_at(&self, place: usize) -> Option<ClockId>
        ensures { result ≡ slice_get (rising_clocks self.now.world_core) place }
    {
        self.world_core.clock_at(place)
    }

    /// How many links are up between two live systems. Takes no memory.
    pub fn links(&self) -> usize
        ensures { result ≡ length (snapshot_of self.now.world_core).links }
    {
        self.world_core.links()
    }

    /// The two ports of the link at a place, from 0, among those that are up between two live systems, in the order in
    /// which the network took them: that of its end a first. `None` past the last. Takes no memory, and counts from the
    /// first of all links on; [`list_links`](Self::list_links) gives all of them in one pass.
    pub fn link_at(&self, place: usize) -> Option<(PortId, PortId)>
        ensures { option_map snapshot_link result ≡ slice_get (snapshot_of self.now.world_core).links place }
    {
        self.world_core.link_at(place)
    }

    /// The two ports of each of these links, in that order. Refused for want of memory alone.
    pub fn list_links(&self, alloc: Global) -> Result<Vec<(PortId, PortId)>, AllocError>
        ensures { IfOk result (λ links. map snapshot_link links.items ≡ (snapshot_of self.now.world_core).links) }
    {
        self.world_core.list_links(alloc)
    }

    /// The next act that is due: of all that is pending one of least time, and of those the first that was put. `None`
    /// where nothing is pending. It is never a change, so [`act`](Self::act) asks nothing of it but its time.
    pub fn next(&self) -> Option<Timed>
        ensures next { IfSome result (IsNextAct self.now.world_core) }
        ensures fit { IfSome result (λ timed. IsFitAct timed.act) }
        ensures prompt { IfSome result (λ timed. DelaysFitIntervals self.now.world_core timed.act) }
        ensures none { IfNone result (self.now.world_core.net.pending ≡ []) }
    {
        self.world_core.next()
    }

    /// The live system with a clock; `None` where there is none.
    ///
    /// A world is calm where each link that is up between two live systems loses nothing and is good. Once it has been
    /// calm for L + 5 announce intervals since the last change, L being how many requests may be lost, a port of the
    /// system is capable exactly where such a link is at it. From then on traces become clean, by one member in each
    /// turn of k + 1 announce intervals, k being the announce receipt timeout: after c turns the last c + 1 members of
    /// the trace that the system announces, and of each that its ports hold and that was sent from then on, are
    /// different live systems, each linked with the next; or the trace is so as a whole, from the root that it names.
    /// No such trace that a port holds names the system itself. After m turns, where no path over live systems and the
    /// links between them has more than m systems, each trace that is held, whenever it was sent, is so as a whole, and
    /// has as many links as its steps say. That is so already once two announce intervals have passed, and k of them
    /// and the greatest delay of such a link for each of m systems.
    pub fn system(&self, clock: ClockId) -> Option<&System>
        ensures some { IfSome result (λ system. ShowsLive clock self.now.world_core system.now) }
        ensures none { IfNone result (AtSystem clock self.now.world_core IsLiveSystem → ⊥) }
        ensures capable { IfSome result (λ system. IsCapableInTime self.now.world_core system.now) }
        ensures clean { IfSome result (λ system. IsCleanInTime self.now.world_core system.now) }
        ensures held { IfSome result (λ system. AreHeldCleanInTime self.now.world_core system.now) }
        ensures whole { IfSome result (λ system. AreHeldWholeInTime self.now.world_core system.now) }
        ensures sooner { IfSome result (λ system. AreHeldWholeSooner self.now.world_core system.now) }
    {
        self.world_core.system(clock)
    }

    /// What is true of every world: what is pending agrees with the state, nothing is due before now, each system is at
    /// rest and keeps its setup, and each port of a live system at a link that is up measures that link. From what more
    /// every world keeps, whatever happened in it, it follows that it settles, and how exact its offsets are then.
    pub fn well_formed(&self)
        ensures sound { IsSound self.now.world_core }
        ensures claimed { SettlingInvariant self.now.world_core }
        ensures timed { WorldInvariant self.now.world_core }
    {
        self.world_core.well_formed();
    }

    /// What the clock of a system, live or not, shows at the time `t`, in ns; `None` where there is no such system. A
    /// system that has failed counts on.
    pub fn local(&self, clock: ClockId, t: u64) -> Option<ScaledNs>
        requires { IsMoment t }
        ensures some { IfSome result (λ shown. AtSystem clock self.now.world_core (ShowsTime t shown)) }
        ensures none { IfNone result ((shown : ℤ) → AtSystem clock self.now.world_core (ShowsTime t shown) → ⊥) }
    {
        self.world_core.local(clock, t)
    }

    /// By how much the time that a system tells, live or not, is ahead of its clock, in 2^-16 ns; `None` where there is
    /// no such system. A system that has failed keeps it until it starts again.
    pub fn base(&self, clock: ClockId) -> Option<ScaledNs>
        ensures some { IfSome result (λ base. AtSystem clock self.now.world_core (HasBase base)) }
        ensures none { IfNone result ((base : ℤ) → AtSystem clock self.now.world_core (HasBase base) → ⊥) }
    {
        self.world_core.base(clock)
    }

    /// Whether there is a live system with a clock.
    pub fn live(&self, clock: ClockId) -> bool
        ensures { IsTrue result ↔ AtSystem clock self.now.world_core IsLiveSystem }
    {
        self.world_core.live(clock)
    }

    /// The root that the live system with a clock follows, how many steps away that is, and the number of its Slave
    /// port, if it has one (IEEE 802.1AS-2020, 10.3.5); `None` where there is no such system.
    ///
    /// Once the world has been calm for (k+3)n + L + 5 announce intervals since the last change, with n systems that
    /// live, these are the identity of the best system of its component, the least number of steps to that, and the own
    /// port of the parent, where the system is near: fewer than 255 steps away. The best has no Slave port. So they are
    /// after (k+3)m + L + 5 intervals already, where no path over live systems and the links between them has more than
    /// m; and at a distance of d steps after (k+1)m + 2d + L + 5. Where the network has no syncReceiptTimeout, with M
    /// the greatest delay of these links they are so after the longer of L + 5 intervals and of 2 and k and M for each
    /// of m systems, one interval more, and M for each of m but one.
    pub fn follows(&self, clock: ClockId) -> Option<(Identity, u16, Option<u8>)>
        ensures some { IfSome result (λ f. AtSystem clock self.now.world_core (FollowsRoot f.0 f.1 f.2)) }
        ensures none { IfNone result (AtSystem clock self.now.world_core IsLiveSystem → ⊥) }
        ensures settled { IfSome result (λ f. FollowsInTime clock self.now.world_core f.0 f.1 f.2) }
        ensures by_paths { IfSome result (λ f. FollowsByPaths clock self.now.world_core f.0 f.1 f.2) }
        ensures at_once { IfSome result (λ f. FollowsAtOnce clock self.now.world_core f.0 f.1 f.2) }
        ensures by_distance { IfSome result (λ f. FollowsByDistance clock self.now.world_core f.0 f.1 f.2) }
    {
        self.world_core.follows(clock)
    }

    /// The role of a port, from 1, of the live system with a clock (IEEE 802.1AS-2020, 10.3.6); `None` where there is
    /// no such system or port.
    ///
    /// Once the world has been calm for L + 5 announce intervals since the last change, the port is Disabled exactly
    /// where no link that is up leads from it to a live system; and once it has been for (k+3)n + L + 5, each port of a
    /// near system has the role that the tree of fewest steps to the best gives it. So it has after (k+3)m + L + 5
    /// already, where no path has more than m systems; and at a distance of d steps after (k+1)m + 2(d+1) + L + 5.
    /// Where the network has no syncReceiptTimeout, so it has as soon as the system follows.
    pub fn role(&self, clock: ClockId, port: u16) -> Option<Role>
        ensures some { IfSome result (λ role. AtSystem clock self.now.world_core (HasRole port role)) }
        ensures none { IfNone result (AtSystem clock self.now.world_core (HasPort port) → ⊥) }
        ensures enabled { IfSome result (λ role. IsEnabledInTime clock port self.now.world_core role) }
        ensures settled { IfSome result (λ role. PlaysInTime clock port self.now.world_core role) }
        ensures by_paths { IfSome result (λ role. PlaysByPaths clock port self.now.world_core role) }
        ensures at_once { IfSome result (λ role. PlaysAtOnce clock port self.now.world_core role) }
        ensures by_distance { IfSome result (λ role. PlaysByDistance clock port self.now.world_core role) }
    {
        self.world_core.role(clock, port)
    }
}
