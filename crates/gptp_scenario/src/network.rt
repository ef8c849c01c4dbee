//! Networks.

ghost use Rattle.std.specs.Prelude.{◌≡◌, ◌↔◌, ◌≤◌, ◌≤ℤ◌, ℤ, IsTrue, ◌&&◌, ◌||◌, true, false, length, OnOk, OnErr, IfOk, slice_get, None, Some, IfErr};
ghost use Rattle.std.specs.List.{All, list_all, list_any};
ghost use Rattle.std.specs.Option.{option_and_then, option_map};
ghost use Rattle.gptp_lists.specs.Members.{In};
ghost use Rattle.gptp_scenario.specs.Faults.{IsRefusal};
ghost use Rattle.gptp_scenario.specs.Params.{is_log, params_fault};
ghost use Rattle.gptp_scenario.specs.Network.{member, wire, without_members, with_system, with_link, logs_of, smallest_of, largest_of, is_member_in_range, is_member_timed, is_any_slower, is_wire_in_range, are_bounds_in_range, members_have_clock, has_port, is_taken, system_fault, link_fault, IsNetwork, IsMember, IsMemberTimed, IsPort, IsFree, IsNewClock, CanAddSystem, CanAddLink, seeded};
ghost use Rattle.gptp_links.specs.Bounds.{Fit};
ghost use Rattle.gptp_scenario.specs.Calm.{IsCalm};
ghost use Rattle.gptp_scenario.specs.Change.{joined_after, live_after};
ghost use Rattle.gptp_scenario.specs.Allowed.{AreAllowed};
ghost use Rattle.gptp_scenario.specs.InUse.{greatest_delay, count_live};
ghost use Rattle.gptp_scenario.specs.SyncWait.{sync_paths};
ghost use Rattle.gptp_setup.specs.Intervals.{interval_of, IsLog};

use crate::calm::{is_calm, joined_after, live_after, live_systems};
use crate::change::Timed;
use crate::fault::NetworkFault;
use crate::logs::{copy_intervals, largest_with, smallest_with};
use crate::params::{is_between, is_log, params_fault};
use crate::sync_wait::{SyncPaths, greatest_delay, sync_paths};
use arrayvec::ArrayVec;
use gptp_links::Bounds;
use gptp_setup::{MOST_PORTS, Params, interval_of};
use gptp_vector::{ClockId, Identity, PortId};
use std::alloc::Global;
use std::marker::Model;

/// A system of a network, with the announce intervals of its ports.
#[derive(Debug, Drop)]
pub(crate) struct SystemSpec {
    pub identity: Identity,
    pub ports: u8,
    pub phase: u64,
    pub drift: i32,
    pub continues: bool,
    pub intervals: ArrayVec<i8, MOST_PORTS>,
}

/// A link of a network: its ends, its bounds, and whether it is up at first.
#[derive(Clone, Copy, Debug)]
pub(crate) struct LinkSpec {
    pub a: PortId,
    pub b: PortId,
    pub bounds: Bounds,
    pub up: bool,
}

/// A network: what is the same for all its systems, its systems, and the links that join two of their ports. It is seen
/// as these, systems and links in the order in which they were added, and the seed from which the systems draw the noise
/// of their time stamps.
#[derive(Drop)]
pub struct Network {
    params: Params,
    systems: Vec<SystemSpec>,
    links: Vec<LinkSpec>,
    seed: u64,
    // The smallest and the largest announce interval of its ports, where it has any.
    smallest: Option<i8>,
    largest: Option<i8>,
}

impl Model for Network {
    ghost use Rattle.gptp_scenario.specs.Network.{NetworkState};

    ghost Value = { NetworkState };

    ghost use Rattle.gptp_scenario.specs.Network.{IsKeptNetwork};

    ghost view = { λ n. record { params = n.params; systems = n.systems.items; links = n.links.items; seed = n.seed } };

    ghost invariant = { λ n. IsKeptNetwork (record { params = n.params; systems = n.systems.items; links = n.links.items; seed = n.seed }) n.smallest n.largest };
}

impl Network {
    /// A network with no system, whose seed is 1. Takes no memory.
    ///
    /// Refused with `OutOfRange` where a value lies outside of its range, and with `Timing` where the intervals don't
    /// go together: twice the threshold and the turnaround are less than the interval of requests, that is at most the
    /// announce interval, and the residence is less than the sync interval.
    pub fn new(alloc: Global, params: Params) -> Result<Self, NetworkFault>
        ensures passed { OnOk result (params_fault params ≡ None) }
        ensures network { IfOk result (λ n. n ≡ without_members params) }
        ensures refused { IfErr result (λ e. params_fault params ≡ Some e) }
    {
        match params_fault(&params) {
            Some(fault) => Err(fault),
            None => Ok(Network {
                params,
                systems: Vec::new(alloc),
                links: Vec::new(alloc),
                seed: 1,
                smallest: None,
                largest: None,
            }),
        }
    }

    /// The seed from which the systems of the network draw the noise of their time stamps.
    pub fn seed(&self) -> u64
        ensures { result ≡ self.now.seed }
    {
        self.seed
    }

    /// The systems of the network draw the noise of their time stamps from this seed.
    pub fn set_seed(&mut self, seed: u64)
        ensures { self.new ≡ seeded seed self.old }
    {
        self.seed = seed;
    }

    /// Adds a system with that identity and so many ports, 0 to [`MOST_PORTS`], whose local clock is that phase ahead
    /// at time 0, 0 to 10^18 ns, and runs faster by that drift, -219,902,325 to 219,902,325 in units of 2^-41. It goes
    /// on with the time that it read where it becomes grandmaster, or doesn't. Its ports announce at these intervals,
    /// one for each in their order, as logarithms to base 2 of seconds, -4 to 4.
    ///
    /// Refused, in this order, with `TooMany` where there are 512 systems, `OutOfRange` also where the intervals aren't
    /// as many as the ports, `Timing` where the interval of requests is above one of them, `DuplicateClock` where
    /// another system has that clock, `DelayTooLong` where a link's greatest delay is above one of them, and
    /// `OutOfMemory`. Then nothing changes.
    pub fn add_system(
        &mut self,
        identity: Identity,
        ports: u8,
        phase: u64,
        drift: i32,
        continues: bool,
        intervals: ArrayVec<i8, MOST_PORTS>,
    ) -> Result<(), NetworkFault>
        ensures passed { OnOk result
            (system_fault self.old (member identity ports phase drift continues intervals) ≡ None) }
        ensures refused { IfErr result
            (IsRefusal (system_fault self.old (member identity ports phase drift continues intervals))) }
        ensures added { OnOk result
            (self.new ≡ with_system (member identity ports phase drift continues intervals) self.old) }
        ensures kept { OnErr result (self.new ≡ self.old) }
    {
        let member = SystemSpec {
            identity,
            ports,
            phase,
            drift,
            continues,
            intervals,
        };
        match self.system_fault(&member) {
            Some(fault) => Err(fault),
            None => self.push_system(member),
        }
    }

    /// Adds a link that joins two ports, 1 to [`MOST_PORTS`] each: the delays of its frames lie between `min` and
    /// `max`, 1 to 16 * 10^9 ns each, and of a thousand frames so many are lost, 0 to 1000. It is up or down at first.
    ///
    /// Refused, in this order, with `TooMany` where there are 2,048 links, `OutOfRange` also where `min` is above
    /// `max`, `SelfLink` where both ports are of one clock, `NoSuchPort` where no system has one of them, `PortTaken`
    /// where another link is at one of them, `DelayTooLong` where `max` is above the announce interval of a port of the
    /// network, and `OutOfMemory`. Then nothing changes.
    pub fn add_link(
        &mut self,
        a: PortId,
        b: PortId,
        min: u64,
        max: u64,
        loss: u16,
        up: bool,
    ) -> Result<(), NetworkFault>
        ensures passed { OnOk result (link_fault self.old (wire (length self.old.links) a b min max loss up) ≡ None) }
        ensures refused { IfErr result
            (IsRefusal (link_fault self.old (wire (length self.old.links) a b min max loss up))) }
        ensures added { OnOk result (self.new ≡ with_link (wire (length self.old.links) a b min max loss up) self.old) }
        ensures kept { OnErr result (self.new ≡ self.old) }
    {
        let link = self.links.len();
        let wire = LinkSpec {
            a,
            b,
            bounds: Bounds {
                link,
                min,
                max,
                loss,
            },
            up,
        };
        match self.link_fault(&wire) {
            Some(fault) => Err(fault),
            None => self.push_link(wire),
        }
    }

    /// What is the same for all systems.
    pub fn params(&self) -> Params
        ensures { result ≡ self.now.params }
    {
        self.params
    }

    /// How many systems there are.
    pub fn systems(&self) -> usize
        ensures { result ≡ length self.now.systems }
    {
        self.systems.len()
    }

    /// How many links there are.
    pub fn links(&self) -> usize
        ensures { result ≡ length self.now.links }
    {
        self.links.len()
    }

    /// A system by its place from 0: its identity, ports, phase, drift and the intervals of its ports, as they were
    /// given.
    pub fn system_at(
        &self,
        place: usize,
    ) -> Option<(Identity, u8, u64, i32, ArrayVec<i8, MOST_PORTS>)>
        ensures { result ≡ option_map (λ m. (m.identity, m.ports, m.phase, m.drift, m.intervals))
            (slice_get self.now.systems place) }
    {
        match self.systems.as_slice().get(place) {
            Some(member) => {
                let intervals = copy_intervals(member.intervals.as_slice());
                Some((
                    member.identity,
                    member.ports,
                    member.phase,
                    member.drift,
                    intervals,
                ))
            }
            None => None,
        }
    }

    /// Whether the system at a place, from 0, goes on with the time that it read where it becomes grandmaster, as it
    /// was given.
    pub fn continues_at(&self, place: usize) -> Option<bool>
        ensures { result ≡ option_map (λ m. m.continues) (slice_get self.now.systems place) }
    {
        match self.systems.as_slice().get(place) {
            Some(member) => Some(member.continues),
            None => None,
        }
    }

    /// A link by its place from 0: its ends, its bounds, in which its number is that place, and whether it is up at
    /// first, as they were given.
    pub fn link_at(&self, place: usize) -> Option<(PortId, PortId, Bounds, bool)>
        ensures { result ≡ option_map (λ w. (w.a, w.b, w.bounds, w.up)) (slice_get self.now.links place) }
    {
        match self.links.as_slice().get(place) {
            Some(wire) => Some((wire.a, wire.b, wire.bounds, wire.up)),
            None => None,
        }
    }

    /// Whether a system has this clock.
    pub fn has_clock(&self, clock: ClockId) -> bool
        ensures { result ≡ members_have_clock self.now.systems clock }
    {
        has_clock(&self.systems, clock)
    }

    /// Whether a link is at this port.
    pub fn has_link(&self, port: PortId) -> bool
        ensures { result ≡ is_taken self.now.links port }
    {
        is_taken(&self.links, port)
    }

    /// The smallest announce interval of any port, in ns; that of the parameters where there is no port. No frame takes
    /// longer.
    pub fn least_interval(&self) -> u64
        ensures is { result ≡ interval_of (smallest_of self.now) }
        ensures least { (log : ℤ) → In log (logs_of self.now) → result ≤ interval_of log }
        ensures bound { result ≤ 16000000000 }
    {
        interval_of(self.smallest())
    }

    /// The largest announce interval of any port, as a logarithm to base 2 of seconds, -4 to 4; that of the parameters
    /// where there is no port. By it settling is counted.
    #[tactic(auto, unfolding(crate::specs::Network::largest_of))]
    pub fn largest(&self) -> i8
        ensures is { result ≡ largest_of self.now }
        ensures greatest { (log : ℤ) → In log (logs_of self.now) → log ≤ℤ result }
        ensures range { IsLog result }
    {
        self.largest.unwrap_or(self.params.announce)
    }

    /// The system at a place, from 0, where it lives after these events: its identity then, and how many ports it has.
    pub fn live_after(&self, place: usize, events: &[Timed]) -> Option<(Identity, u8)>
        ensures { result ≡ option_and_then (live_after events.now) (slice_get self.now.systems place) }
    {
        live_after(events, self.systems.as_slice().get(place)?)
    }

    /// The ports that the link at a place, from 0, joins, where it is up after these events.
    pub fn joined_after(&self, place: usize, events: &[Timed]) -> Option<(PortId, PortId)>
        ensures { result ≡ option_and_then (joined_after events.now) (slice_get self.now.links place) }
    {
        joined_after(events, self.links.as_slice().get(place)?)
    }

    /// Whether the network is calm after these events: each link that then is up between two live systems loses
    /// nothing, and its greatest delay is short enough for the threshold; and nothing lapses for want of Sync:
    /// syncReceiptTimeout is off, or longer than a settled system waits for Sync.
    pub fn is_calm(&self, events: &[Timed]) -> bool
        ensures { IsTrue result ↔ IsCalm self.now events.now }
    {
        is_calm(&self.params, &self.systems, &self.links, events)
    }

    /// What Sync has to cross in the network after these events.
    #[tactic(auto, using(crate::proofs::InUseLemmas::short_delay))]
    pub fn sync_paths(&self, events: &[Timed]) -> SyncPaths
        ensures is { result ≡ sync_paths self.now events.now }
        ensures few { result.systems ≤ 512 }
        ensures short { AreAllowed events.now → result.delay ≤ 16000000000 }
    {
        self.well_formed();
        sync_paths(&self.systems, &self.links, events)
    }

    /// The greatest delay of the links in use after these events, as they then stand, in ns, or 0.
    #[tactic(auto, using(crate::proofs::InUseLemmas::short_delay))]
    pub(crate) fn greatest_delay(&self, events: &[Timed]) -> u64
        ensures is { result ≡ greatest_delay self.now.systems events.now self.now.links }
        ensures short { AreAllowed events.now → result ≤ 16000000000 }
    {
        self.well_formed();
        greatest_delay(&self.systems, events, &self.links)
    }

    /// How many systems live after these events.
    pub(crate) fn live_systems(&self, events: &[Timed]) -> u64
        ensures count { result ≡ count_live self.now.systems events.now }
        ensures few { result ≤ 512 }
    {
        self.well_formed();
        live_systems(&self.systems, events)
    }

    /// Every network is within its limits, its clocks differ, its intervals go together, its links join ports of two
    /// systems, and a port has one link at most.
    pub fn well_formed(&self)
        ensures { IsNetwork self.now }
    {
        let _ = &self.params;
    }

    /// The smallest announce interval of any port, as a logarithm to base 2 of seconds.
    #[tactic(auto, unfolding(crate::specs::Network::smallest_of))]
    fn smallest(&self) -> i8
        ensures is { result ≡ smallest_of self.now }
        ensures least { (log : ℤ) → In log (logs_of self.now) → result ≤ℤ log }
        ensures range { IsLog result }
    {
        self.smallest.unwrap_or(self.params.announce)
    }

    /// The first test that one more system fails.
    #[tactic(auto, using(crate::proofs::LogLemmas::all_prompt))]
    fn system_fault(&self, member: &SystemSpec) -> Option<NetworkFault>
        ensures is { result ≡ system_fault self.now member.now }
        ensures fits { result ≡ None → CanAddSystem self.now member.now }
    {
        if 512 <= self.systems.len() {
            Some(NetworkFault::TooMany)
        } else if !is_member_in_range(member) {
            Some(NetworkFault::OutOfRange)
        } else if !is_member_timed(&self.params, member) {
            Some(NetworkFault::Timing)
        } else if has_clock(&self.systems, member.identity.clock()) {
            Some(NetworkFault::DuplicateClock)
        } else if are_any_slower(&self.links, member.intervals.as_slice()) {
            Some(NetworkFault::DelayTooLong)
        } else {
            None
        }
    }

    /// The first test that one more link fails.
    fn link_fault(&self, wire: &LinkSpec) -> Option<NetworkFault>
        requires { wire.now.bounds.link ≡ length self.now.links }
        ensures is { result ≡ link_fault self.now wire.now }
        ensures fits { result ≡ None → CanAddLink self.now wire.now }
    {
        if 2048 <= self.links.len() {
            Some(NetworkFault::TooMany)
        } else if !is_wire_in_range(wire) {
            Some(NetworkFault::OutOfRange)
        } else if wire.a.clock == wire.b.clock {
            Some(NetworkFault::SelfLink)
        } else if !have_ports(&self.systems, wire) {
            Some(NetworkFault::NoSuchPort)
        } else if are_taken(&self.links, wire) {
            Some(NetworkFault::PortTaken)
        } else if self.least_interval() < wire.bounds.max {
            Some(NetworkFault::DelayTooLong)
        } else {
            None
        }
    }

    /// Puts a system after the others.
    fn push_system(&mut self, member: SystemSpec) -> Result<(), NetworkFault>
        requires { CanAddSystem self.old member }
        ensures added { OnOk result (self.new ≡ with_system member self.old) }
        ensures kept { OnErr result (self.new ≡ self.old) }
        ensures memory { IfErr result (λ e. e ≡ NetworkFault.OutOfMemory) }
    {
        let smallest = smallest_with(self.smallest, member.intervals.as_slice());
        let largest = largest_with(self.largest, member.intervals.as_slice());
        self.systems.push(member)?;
        self.smallest = smallest;
        self.largest = largest;
        Ok(())
    }

    /// Puts a link after the others.
    fn push_link(&mut self, wire: LinkSpec) -> Result<(), NetworkFault>
        requires { CanAddLink self.old wire }
        ensures added { OnOk result (self.new ≡ with_link wire self.old) }
        ensures kept { OnErr result (self.new ≡ self.old) }
        ensures memory { IfErr result (λ e. e ≡ NetworkFault.OutOfMemory) }
    {
        self.links.push(wire)?;
        Ok(())
    }
}

/// Whether each value of a system lies in its range.
fn is_member_in_range(member: &SystemSpec) -> bool
    ensures is { result ≡ is_member_in_range member.now }
    ensures limits { result ≡ true → IsMember member.now }
{
    usize::from(member.ports) <= MOST_PORTS
        && member.phase <= 1_000_000_000_000_000_000
        && member.drift.unsigned_abs() <= 219_902_325
        && member.intervals.len() == usize::from(member.ports)
        && are_logs(member.intervals.as_slice())
}

/// Whether each is the logarithm of an interval that a network can have.
fn are_logs(intervals: &[i8]) -> bool
    ensures is { result ≡ list_all is_log intervals.now }
    ensures logs { result ≡ true → All IsLog intervals.now }
{
    intervals.iter().all(|interval| is_log(*interval))
}

/// Whether requests are no rarer than the announcements of any port of a system.
fn is_member_timed(params: &Params, member: &SystemSpec) -> bool
    ensures is { result ≡ is_member_timed params.now member.now }
    ensures timed { result ≡ true → IsMemberTimed params.now member.now }
{
    member
        .intervals
        .as_slice()
        .iter()
        .all(|interval| params.pdelay <= *interval)
}

/// Whether the greatest delay of one of these links is above an interval.
fn is_any_slower(links: &[LinkSpec], interval: i8) -> bool
    requires { IsLog interval }
    ensures { result ≡ is_any_slower links.now interval }
{
    let longest = interval_of(interval);
    links.iter().any(|wire| longest < wire.bounds.max)
}

/// Whether the greatest delay of one of these links is above one of these intervals.
fn are_any_slower(links: &[LinkSpec], intervals: &[i8]) -> bool
    requires { All IsLog intervals.now }
    ensures { result ≡ list_any (is_any_slower links.now) intervals.now }
{
    for interval in intervals {
        if is_any_slower(links, *interval) {
            return true;
        }
    }
    false
}

/// Whether each value of a link lies in its range.
fn is_wire_in_range(wire: &LinkSpec) -> bool
    ensures is { result ≡ is_wire_in_range wire.now }
    ensures a { result ≡ true → 1 ≤ wire.now.a.port }
    ensures b { result ≡ true → 1 ≤ wire.now.b.port }
    ensures fit { result ≡ true → Fit wire.now.bounds }
{
    is_between(1, MOST_PORTS as u64, u64::from(wire.a.port))
        && is_between(1, MOST_PORTS as u64, u64::from(wire.b.port))
        && are_bounds_in_range(&wire.bounds)
}

/// Whether the delays and the loss lie in their ranges.
fn are_bounds_in_range(bounds: &Bounds) -> bool
    ensures is { result ≡ are_bounds_in_range bounds.now }
    ensures fit { result ≡ true → Fit bounds.now }
{
    is_between(1, 16_000_000_000, bounds.min)
        && is_between(1, 16_000_000_000, bounds.max)
        && bounds.loss <= 1000
        && bounds.min <= bounds.max
}

/// Whether a system has this clock.
fn has_clock(systems: &[SystemSpec], clock: ClockId) -> bool
    ensures is { result ≡ members_have_clock systems.now clock }
    ensures fresh { result ≡ false → IsNewClock systems.now clock }
{
    systems
        .iter()
        .any(|member| member.identity.clock() == clock)
}

/// Whether the system with the clock of this port has so many ports.
fn has_port(systems: &[SystemSpec], port: PortId) -> bool
    ensures is { result ≡ has_port systems.now port }
    ensures port { result ≡ true → 1 ≤ port.port → IsPort systems.now port }
{
    systems.iter().any(|member| member.identity.clock() == port.clock
        && port.port <= u16::from(member.ports))
}

/// Whether there are the ports of this link.
fn have_ports(systems: &[SystemSpec], wire: &LinkSpec) -> bool
    ensures is { result ≡ (has_port systems.now wire.now.a && has_port systems.now wire.now.b) }
    ensures a { result ≡ true → 1 ≤ wire.now.a.port → IsPort systems.now wire.now.a }
    ensures b { result ≡ true → 1 ≤ wire.now.b.port → IsPort systems.now wire.now.b }
{
    has_port(systems, wire.a) && has_port(systems, wire.b)
}

/// Whether a link is at one of the ports of this one.
fn are_taken(links: &[LinkSpec], wire: &LinkSpec) -> bool
    ensures is { result ≡ (is_taken links.now wire.now.a || is_taken links.now wire.now.b) }
    ensures free_a { result ≡ false → IsFree links.now wire.now.a }
    ensures free_b { result ≡ false → IsFree links.now wire.now.b }
{
    is_taken(links, wire.a) || is_taken(links, wire.b)
}

/// Whether a link is at this port.
fn is_taken(links: &[LinkSpec], port: PortId) -> bool
    ensures is { result ≡ is_taken links.now port }
    ensures free { result ≡ false → IsFree links.now port }
{
    links.iter().any(|wire| wire.a == port || wire.b == port)
}
