//! How a system starts.

ghost use Rattle.std.specs.Prelude.{◌≡◌, ◌≤◌, length, IfOk, IsOk};
ghost use Rattle.gptp_setup.specs.Intervals.{AreParams};
ghost use Rattle.gptp_system.specs.Facts.{MeasuresOver};
ghost use Rattle.gptp_system.specs.Start.{all_disabled, new_port, new_ports};

use crate::port::Port;
use crate::state::State;
use arrayvec::ArrayVec;
use gptp_correction::SyncIn;
use gptp_pdelay::Peer;
use gptp_receipt::Held;
use gptp_scaled::ScaledNs;
use gptp_setup::{MOST_PORTS, Params, Setup, interval_of};
use gptp_vector::{ClockId, PortId};
use std::alloc::{AllocError, Global};
use std::mem;

/// A port that announces at this interval, has measured and sent nothing, and whose link is down. Refused for want of
/// memory alone.
fn new_port(
    alloc: Global,
    own: PortId,
    params: &Params,
    log_interval: i8,
) -> Result<Port, AllocError>
    requires { AreParams params.now }
    ensures new { IfOk result (λ q. q ≡ new_port own params.now log_interval) }
    ensures free { params.now.window ≡ 1 → IsOk result }
{
    let peer = Peer::new(alloc, own, params.threshold, params.lost, params.window)?;
    Ok(Port {
        log_interval,
        peer,
        pdelay: None,
        respond: None,
        announce: 0,
        announces: 0,
        syncs: 0,
    })
}

/// The ports of a new system, which announce at these intervals. Refused for want of memory alone.
fn new_ports(
    alloc: Global,
    clock: ClockId,
    params: &Params,
    intervals: &[i8],
) -> Result<ArrayVec<Port, MOST_PORTS>, AllocError>
    requires few { length intervals.now ≤ MOST_PORTS }
    requires params { AreParams params.now }
    ensures new { IfOk result (λ ports. ports.items ≡ new_ports clock params.now 1 intervals.now) }
    ensures free { params.now.window ≡ 1 → IsOk result }
{
    let mut ports = ArrayVec::new();
    for log_interval in intervals {
        let own = PortId {
            clock,
            port: ports.len() as u16 + 1,
        };
        ports.push(new_port(alloc, own, params, *log_interval)?);
    }
    Ok(ports)
}

/// A new port in place of one that measures over as many exchanges.
fn renew_port(port: &mut Port, own: PortId, params: &Params, log_interval: i8)
    requires { port.old.peer.window ≡ params.now.window }
    ensures { port.new ≡ new_port own params.now log_interval }
{
    port.log_interval = log_interval;
    port.peer.renew(own, params.threshold, params.lost);
    port.pdelay = None;
    port.respond = None;
    port.announce = 0;
    port.announces = 0;
    port.syncs = 0;
}

/// The ports of a new system, which announce at these intervals, in place of as many that measure over as many
/// exchanges.
fn renew_ports(ports: &mut [Port], clock: ClockId, params: &Params, intervals: &[i8])
    requires few { length intervals.now ≤ MOST_PORTS }
    requires places { length ports.old ≡ length intervals.now }
    requires windows { MeasuresOver params.now.window ports.old }
    ensures { ports.new ≡ new_ports clock params.now 1 intervals.now }
{
    let mut number = 0;
    for log_interval in intervals {
        let own = PortId {
            clock,
            port: number + 1,
        };
        renew_port(&mut ports[usize::from(number)], own, params, *log_interval);
        number += 1;
    }
}

/// What that many ports of a new system hold.
fn all_disabled(count: usize) -> ArrayVec<Held, MOST_PORTS>
    requires { count ≤ MOST_PORTS }
    ensures { result.items ≡ all_disabled count }
{
    let mut held = ArrayVec::new();
    for _ in 0..count {
        held.push(Held::Disabled);
    }
    held
}

impl State {
    ghost use Rattle.std.specs.Prelude.{◌≡◌, ◌≤◌, length, IfOk, IsOk};
    ghost use Rattle.gptp_pdelay.specs.Clock.{IsDrift};
    ghost use Rattle.gptp_roles.specs.Selection.{clock_of};
    ghost use Rattle.gptp_setup.specs.declared.limits.TheConstants.{MOST_PORTS};
    ghost use Rattle.gptp_setup.specs.Intervals.{AreIntervals, AreParams, IsMoment};
    ghost use Rattle.gptp_system.specs.Ready.{IsReady, state_of};
    ghost use Rattle.gptp_system.specs.Facts.{MeasuresOver};
    ghost use Rattle.gptp_system.specs.Start.{new_ports, started};

    /// A system as it starts at `now` with these ports: its own root, with all of them Disabled.
    fn with_ports(setup: Setup, now: u64, ports: ArrayVec<Port, MOST_PORTS>) -> State
        requires few { setup.ports ≤ MOST_PORTS }
        requires params { AreParams setup.params }
        requires intervals { AreIntervals setup }
        requires phase { setup.phase ≤ 1000000000000000000 }
        requires drift { IsDrift setup.drift }
        requires moment { IsMoment now }
        requires ports { ports.items ≡ new_ports (clock_of setup.identity) setup.params 1 setup.intervals.items }
        ensures started { state_of result ≡ started setup now }
        ensures ready { IsReady (state_of result) }
    {
        let held = all_disabled(setup.intervals.len());
        State {
            params: setup.params,
            largest: setup.largest,
            phase: setup.phase,
            drift: setup.drift,
            continues: setup.continues,
            seed: setup.seed,
            identity: setup.identity,
            root: setup.identity,
            steps: 0,
            slave: None,
            sync_in: SyncIn::new(),
            known: None,
            offset: None,
            reads: None,
            base: ScaledNs::default(),
            sync: now + interval_of(setup.params.sync),
            relay: None,
            lapse: None,
            ports,
            held,
        }
    }

    /// A system as it starts at `now`. Refused for want of memory alone.
    pub(crate) fn new(alloc: Global, setup: Setup, now: u64) -> Result<State, AllocError>
        requires ports { setup.ports ≤ MOST_PORTS }
        requires params { AreParams setup.params }
        requires intervals { AreIntervals setup }
        requires phase { setup.phase ≤ 1000000000000000000 }
        requires drift { IsDrift setup.drift }
        requires moment { IsMoment now }
        ensures started { IfOk result (λ s. state_of s ≡ started setup now) }
        ensures ready { IfOk result (λ s. IsReady (state_of s)) }
        ensures free { setup.params.window ≡ 1 → IsOk result }
    {
        let intervals = setup.intervals.as_slice();
        let ports = new_ports(alloc, setup.identity.clock(), &setup.params, intervals)?;
        Ok(State::with_ports(setup, now, ports))
    }

    /// A system starts at `now` in place of one whose ports were as many and measured over as many exchanges.
    pub(crate) fn start_again(&mut self, setup: Setup, now: u64)
        requires ports { setup.ports ≤ MOST_PORTS }
        requires params { AreParams setup.params }
        requires intervals { AreIntervals setup }
        requires phase { setup.phase ≤ 1000000000000000000 }
        requires drift { IsDrift setup.drift }
        requires moment { IsMoment now }
        requires places { length (state_of self.old).ports ≡ setup.ports }
        requires windows { MeasuresOver setup.params.window (state_of self.old).ports }
        ensures started { state_of self.new ≡ started setup now }
        ensures ready { IsReady (state_of self.new) }
    {
        let mut ports = mem::replace(&mut self.ports, ArrayVec::new());
        let intervals = setup.intervals.as_slice();
        renew_ports(
            ports.as_mut_slice(),
            setup.identity.clock(),
            &setup.params,
            intervals,
        );
        *self = State::with_ports(setup, now, ports);
    }
}
