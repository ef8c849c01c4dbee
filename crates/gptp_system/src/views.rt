//! What a system is asked.

ghost use Rattle.std.specs.Prelude.{◌≡◌, ◌≤◌, ◌==◌, false, length};
ghost use Rattle.std.specs.List.{AllByRecursion};
ghost use Rattle.std.specs.Option.{option_and_then, option_map_or};
ghost use Rattle.gptp_setup.specs.Intervals.{AreParams, IsLog};
ghost use Rattle.gptp_system.specs.Ready.{IsRecent};
ghost use Rattle.gptp_system.specs.Start.{role_by};
ghost use Rattle.gptp_system.specs.State.{age_due, announce_due, number, held_source};

use crate::port::Port;
use crate::state::State;
use gptp_receipt::{Held, due, span_of};
use gptp_roles::{Role, path_of_slave, slave_trace};
use gptp_scaled::ScaledNs;
use gptp_setup::{Params, Timer};
use gptp_vector::{ClockId, PortId, Trace};

/// The role of a port that holds this, in a system at rest.
fn role_by(is_slave: bool, held: &Held) -> Role
    ensures { result ≡ role_by is_slave held.now }
{
    match held {
        Held::Disabled => Role::Disabled,
        Held::Aged | Held::Mine { .. } => Role::Master,
        Held::Received(_) => match is_slave {
            true => Role::Slave,
            false => Role::Passive,
        },
    }
}

/// When a port announces next, if it does.
fn announce_due(port: &Port, held: &Held) -> Option<u64>
    ensures { result ≡ announce_due port.now held.now }
{
    match held {
        Held::Mine { .. } => Some(port.announce),
        _ => None,
    }
}

/// When what a port received is too old, if it received anything, by the interval that was heard.
fn age_due(params: &Params, largest: i8, held: &Held) -> Option<u64>
    requires params { AreParams params.now }
    requires largest { IsLog largest }
    requires recent { IsRecent held.now }
    ensures { result ≡ age_due params.now largest held.now }
{
    let span = span_of(held, params.timeout, largest)?;
    due(held, span)
}

/// Whether the Slave port, if there is one, is this.
fn is_port(slave: Option<u8>, port: u8) -> bool
    ensures { result ≡ option_map_or (λ q. q == port) slave false }
{
    match slave {
        Some(number) => number == port,
        None => false,
    }
}

/// When one of the ports announces next, if it does.
fn announce_at(ports: &[Port], held: &[Held], port: u8) -> Option<u64>
    requires least { 1 ≤ port }
    requires most { port ≤ length ports.now }
    requires places { length held.now ≡ length ports.now }
    ensures { result ≡ option_and_then
        (λ q. announce_due q (option_map_or (λ h. h) (number held.now port) Held.Disabled)) (number ports.now port) }
{
    let place = usize::from(port) - 1;
    announce_due(&ports[place], &held[place])
}

/// When what one of the ports received is too old, if it received anything.
fn age_at(params: &Params, largest: i8, held: &[Held], port: u8) -> Option<u64>
    requires params { AreParams params.now }
    requires largest { IsLog largest }
    requires least { 1 ≤ port }
    requires most { port ≤ length held.now }
    requires recent { AllByRecursion IsRecent held.now }
    ensures { result ≡ age_due params.now largest (option_map_or (λ h. h) (number held.now port) Held.Disabled) }
{
    age_due(params, largest, &held[usize::from(port) - 1])
}

/// The port that what is held came from.
fn source_of(held: &Held) -> Option<PortId>
    ensures { result ≡ held_source held.now }
{
    match held {
        Held::Received(reception) => Some(reception.vector.source),
        Held::Disabled | Held::Aged | Held::Mine { .. } => None,
    }
}

impl State {
    ghost use Rattle.std.specs.Prelude.{◌≡◌, ◌≤◌, ◌++◌, ◌∷◌, [], length};
    ghost use Rattle.gptp_roles.specs.SystemTrace.{SlaveReceived};
    ghost use Rattle.gptp_pdelay.specs.Peer.{delay_of};
    ghost use Rattle.gptp_system.specs.Ready.{IsReady, state_of};
    ghost use Rattle.gptp_system.specs.Start.{role_at};
    ghost use Rattle.std.specs.Option.{option_and_then};
    ghost use Rattle.gptp_system.specs.State.{due, number, parent, trace};
    ghost use Rattle.gptp_system.specs.Steps.{IsTimerOf};

    /// The path trace that the system announces.
    pub(crate) fn trace(&self) -> Trace
        requires { SlaveReceived (state_of self.now).held (state_of self.now).slave }
        ensures { result ≡ trace (state_of self.now) }
    {
        slave_trace(self.identity.clock(), self.held.as_slice(), self.slave)
    }

    /// The path trace that the system announces, in two parts: the path of the Slave port, and the own clock.
    pub(crate) fn trace_parts(&self) -> (&[ClockId], ClockId)
        requires { SlaveReceived (state_of self.now).held (state_of self.now).slave }
        ensures parts { trace (state_of self.now) ≡ result.0.now ++ result.1 ∷ [] }
        ensures few { length result.0.now ≤ 255 }
    {
        (
            path_of_slave(self.held.as_slice(), self.slave),
            self.identity.clock(),
        )
    }

    /// The number of the Slave port, and the port that it follows.
    pub(crate) fn parent(&self) -> Option<(u8, PortId)>
        requires { SlaveReceived (state_of self.now).held (state_of self.now).slave }
        ensures { result ≡ parent (state_of self.now) }
    {
        let slave = self.slave?;
        let source = source_of(&self.held[usize::from(slave) - 1])?;
        Some((slave, source))
    }

    /// How many ports the system has.
    pub(crate) fn ports(&self) -> u8
        requires { IsReady (state_of self.now) }
        ensures { result ≡ length (state_of self.now).ports }
    {
        self.ports.len() as u8
    }

    /// The role of a port, in a system at rest.
    pub(crate) fn role(&self, port: u8) -> Role
        requires least { 1 ≤ port }
        requires most { port ≤ length (state_of self.now).held }
        ensures { result ≡ role_at (state_of self.now) port }
    {
        role_by(is_port(self.slave, port), &self.held[usize::from(port) - 1])
    }

    /// The meanLinkDelay of a port, where it was measured.
    pub(crate) fn delay(&self, port: u8) -> Option<ScaledNs>
        requires least { 1 ≤ port }
        requires most { port ≤ length (state_of self.now).ports }
        ensures { result ≡ option_and_then (λ q. delay_of q.peer) (number (state_of self.now).ports port) }
    {
        self.ports[usize::from(port) - 1].peer.delay()
    }

    /// When a timer runs out, where it runs.
    pub(crate) fn due(&self, timer: Timer) -> Option<u64>
        requires ready { IsReady (state_of self.now) }
        requires timer { IsTimerOf (state_of self.now) timer }
        ensures { result ≡ due timer (state_of self.now) }
    {
        match timer {
            Timer::Announce(port) => announce_at(self.ports.as_slice(), self.held.as_slice(), port),
            Timer::Age(port) => age_at(&self.params, self.largest, self.held.as_slice(), port),
            Timer::Pdelay(port) => self.ports[usize::from(port) - 1].pdelay,
            Timer::Respond(port) => self.ports[usize::from(port) - 1].respond,
            Timer::Sync => Some(self.sync),
            Timer::Relay => self.relay,
            Timer::Lapse => self.lapse,
        }
    }
}
