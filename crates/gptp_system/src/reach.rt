//! How far a step of a system can reach, told before it is taken.

ghost use Rattle.std.specs.Prelude.{◌≡◌, ◌≤◌, Some, length};
ghost use Rattle.gptp_pdelay.specs.Peer.{after_interval};
ghost use Rattle.gptp_system.specs.Measuring.{is_turned};
ghost use Rattle.gptp_system.specs.Reach.{asking_reach, frame_reach, type_reach};
ghost use Rattle.gptp_system.specs.State.{number};

use crate::port::Port;
use crate::state::State;
use gptp_setup::Timer;

/// At which ports a step can send.
#[derive(Clone, Copy, Debug, PartialEq, Eq, Hash)]
pub enum Reach {
    /// It sends nothing.
    Nothing,
    /// It sends at this port alone, two messages at most.
    Port(u8),
    /// It can send at every port, two messages at most at each.
    All,
}

/// The reach of a frame with this messageType.
fn type_reach(message_type: u8) -> Reach
    ensures { result ≡ type_reach message_type }
{
    match message_type {
        0xA | 0xB => Reach::All,
        _ => Reach::Nothing,
    }
}

/// The reach of a frame, by its first octet.
pub(crate) fn frame_reach(frame: &[u8]) -> Reach
    ensures { result ≡ frame_reach frame.now }
{
    match frame.first() {
        Some(octet) => type_reach(octet % 16),
        None => Reach::Nothing,
    }
}

/// Whether the port stops being asCapable where its interval of requests ends.
fn stops(port: &Port) -> bool
    ensures { result ≡ is_turned after_interval (Some port.now) }
{
    port.peer.stops()
}

/// Whether one of the ports does.
fn stops_at(ports: &[Port], port: u8) -> bool
    requires least { 1 ≤ port }
    requires most { port ≤ length ports.now }
    ensures { result ≡ is_turned after_interval (number ports.now port) }
{
    stops(&ports[usize::from(port) - 1])
}

/// The reach of a port that asks its neighbour, and may stop being asCapable before that.
fn asking_reach(stops: bool, port: u8) -> Reach
    ensures { result ≡ asking_reach stops port }
{
    match stops {
        true => Reach::All,
        false => Reach::Port(port),
    }
}

impl State {
    ghost use Rattle.std.specs.Prelude.{◌≡◌};
    ghost use Rattle.gptp_system.specs.Reach.{timer_reach};
    ghost use Rattle.gptp_system.specs.Ready.{state_of};
    ghost use Rattle.gptp_system.specs.Steps.{IsTimerOf};

    /// The reach of a timer that runs out.
    pub(crate) fn timer_reach(&self, timer: Timer) -> Reach
        requires { IsTimerOf (state_of self.now) timer }
        ensures { result ≡ timer_reach timer (state_of self.now) }
    {
        match timer {
            Timer::Announce(port) | Timer::Respond(port) => Reach::Port(port),
            Timer::Pdelay(port) => asking_reach(stops_at(self.ports.as_slice(), port), port),
            Timer::Age(_) | Timer::Sync | Timer::Relay | Timer::Lapse => Reach::All,
        }
    }
}
