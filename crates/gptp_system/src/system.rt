//! One gPTP system, as it is seen from outside.

use crate::answer::Answer;
use crate::input::{Input, Stepped};
use crate::reach::{Reach, frame_reach};
use crate::reading::{Reading, TimeRead};
use crate::sending::Outbox;
use crate::state::State;
use gptp_roles::Role;
use gptp_scaled::ScaledNs;
use gptp_setup::{Setup, Timer};
use gptp_vector::{ClockId, Identity, PortId, Trace};
use std::alloc::{AllocError, Global};
use std::marker::Model;

/// One gPTP system in one domain: an end station or a time-aware bridge. Between its calls it is at rest: selecting
/// again changes nothing.
#[derive(Debug, Drop)]
pub struct System {
    state: State,
}

impl Model for System {
    ghost use Rattle.gptp_system.specs.State.{SystemState};

    ghost Value = { SystemState };

    ghost use Rattle.gptp_system.specs.Ready.{state_of};
    ghost use Rattle.gptp_system.specs.Facts.{IsSystem};

    ghost view = { λ s. state_of s.state };

    ghost invariant = { λ s. IsSystem (state_of s.state) };
}

impl System {
    ghost use Rattle.std.specs.Prelude.{◌≡◌, ◌≤◌, ◌<◌, ◌^◌, ◌++◌, ◌∷◌, [], length, IfOk, IfSome, IsOk, unsigned_abs};
    ghost use Rattle.gptp_pdelay.specs.Clock.{IsDrift};
    ghost use Rattle.gptp_system.specs.Announcing.{ChangesPriority};
    ghost use Rattle.gptp_system.specs.Facts.{MeasuresOver};
    ghost use Rattle.gptp_system.specs.Input.{given, IsTimely, Steps};
    ghost use Rattle.gptp_setup.specs.declared.limits.TheConstants.{MOST_PORTS};
    ghost use Rattle.gptp_setup.specs.Intervals.{AreIntervals, AreParams, IsMoment};
    ghost use Rattle.gptp_system.specs.Measuring.{ComesUp, GoesDown};
    ghost use Rattle.std.specs.Option.{option_and_then};
    ghost use Rattle.gptp_pdelay.specs.Peer.{delay_of};
    ghost use Rattle.gptp_system.specs.Reach.{frame_reach, timer_reach};
    ghost use Rattle.gptp_system.specs.Start.{role_at, started};
    ghost use Rattle.gptp_system.specs.State.{due, is_capable_at, local_time, number, parent, trace};
    ghost use Rattle.gptp_system.specs.Steps.{Expires, HearsFrame, IsDue, HasPortNumber, IsTimerOf, IsUp};
    ghost use Rattle.gptp_system.specs.Syncing.{held_reading};
    ghost use Rattle.gptp_system.specs.Takeover.{reading};
    ghost use Rattle.gptp_system.specs.TimersChanged.{Touches};

    /// A system as it starts at `now`, in ns: its own root, with all ports Disabled until their links come up, each of
    /// which announces at its own interval. The setup keeps its limits. Refused for want of memory alone, which its
    /// ports take where they measure rates over more than one exchange.
    pub fn new(alloc: Global, setup: Setup, now: u64) -> Result<System, AllocError>
        requires ports { setup.ports ≤ MOST_PORTS }
        requires params { AreParams setup.params }
        requires intervals { AreIntervals setup }
        requires phase { setup.phase ≤ 1000000000000000000 }
        requires drift { IsDrift setup.drift }
        requires moment { IsMoment now }
        ensures started { IfOk result (λ s. s ≡ started setup now) }
        ensures free { setup.params.window ≡ 1 → IsOk result }
    {
        let state = State::new(alloc, setup, now)?;
        Ok(System { state })
    }

    /// A copy of the system. Refused for want of memory alone, which its ports take where they measure rates over more
    /// than one exchange; it costs what the paths have that its ports hold.
    pub fn copy(&self, alloc: Global) -> Result<System, AllocError>
        ensures { IfOk result (λ s. s ≡ self.now) }
    {
        let state = self.state.copy(alloc)?;
        Ok(System { state })
    }

    /// The system starts at `now`, in ns, in place of the one that stood here, whose ports were as many and measured
    /// rates over as many exchanges. Takes no memory.
    pub fn start_again(&mut self, setup: Setup, now: u64)
        requires ports { setup.ports ≤ MOST_PORTS }
        requires params { AreParams setup.params }
        requires intervals { AreIntervals setup }
        requires phase { setup.phase ≤ 1000000000000000000 }
        requires drift { IsDrift setup.drift }
        requires moment { IsMoment now }
        requires places { length self.old.ports ≡ setup.ports }
        requires windows { MeasuresOver setup.params.window self.old.ports }
        ensures { self.new ≡ started setup now }
    {
        self.state.start_again(setup, now);
    }

    /// The system is given an input at `now`, in ns: what became of it, and which timers the step can have set or
    /// stopped. A port is one of the system; a frame, or a message that was sent, comes where the link is up, and a
    /// timer expires when it is due. The outbox is empty at entry of this and of every other call, and holds what the
    /// step sends.
    pub fn step(&mut self, input: Input<'_>, now: u64, outbox: &mut Outbox) -> Stepped
        requires moment { IsMoment now }
        requires timely { IsTimely self.old now (given input) }
        requires empty { outbox.old.items ≡ [] }
        ensures steps { Steps (given input.entry) now self.old self.new outbox.new.items result.answer }
        ensures touches { Touches (given input.entry) result.touched self.old self.new }
    {
        self.state.step(input, now, outbox)
    }

    /// A port hears a frame whose link is up, at `now`: what became of it.
    pub fn on_frame(&mut self, port: u8, frame: &[u8], now: u64, outbox: &mut Outbox) -> Answer
        requires moment { IsMoment now }
        requires up { IsUp self.old port }
        requires empty { outbox.old.items ≡ [] }
        ensures { HearsFrame port frame.now now self.old self.new outbox.new.items result }
    {
        let octets = frame;
        self.step(Input::Frame { port, octets }, now, outbox).answer
    }

    /// A timer that is due runs out.
    pub fn on_timer(&mut self, timer: Timer, now: u64, outbox: &mut Outbox)
        requires moment { IsMoment now }
        requires due { IsDue self.old timer now }
        requires empty { outbox.old.items ≡ [] }
        ensures { Expires timer now self.old self.new outbox.new.items }
    {
        self.step(Input::Expires(timer), now, outbox);
    }

    /// The link of a port comes up: the port measures it from the beginning, and asks at once.
    pub fn port_up(&mut self, port: u8, now: u64, outbox: &mut Outbox)
        requires moment { IsMoment now }
        requires port { HasPortNumber self.old port }
        requires empty { outbox.old.items ≡ [] }
        ensures { ComesUp port now self.old self.new outbox.new.items }
    {
        self.step(Input::PortUp(port), now, outbox);
    }

    /// The link of a port goes down: its timers stop, and it takes no part.
    pub fn port_down(&mut self, port: u8, now: u64, outbox: &mut Outbox)
        requires moment { IsMoment now }
        requires port { HasPortNumber self.old port }
        requires empty { outbox.old.items ≡ [] }
        ensures { GoesDown port now self.old self.new outbox.new.items }
    {
        self.step(Input::PortDown(port), now, outbox);
    }

    /// The priority1 of the system changes (IEEE 802.1AS-2020, 8.6.2.1).
    pub fn set_priority(&mut self, priority1: u8, now: u64, outbox: &mut Outbox)
        requires moment { IsMoment now }
        requires empty { outbox.old.items ≡ [] }
        ensures { ChangesPriority priority1 now self.old self.new outbox.new.items }
    {
        self.step(Input::Priority(priority1), now, outbox);
    }

    /// The root that the system follows, how many steps away that is, and the number of the Slave port, if it has one.
    pub fn follows(&self) -> (Identity, u16, Option<u8>)
        ensures root { result.0 ≡ self.now.root }
        ensures steps { result.1 ≡ self.now.steps }
        ensures slave { result.2 ≡ self.now.slave }
    {
        (self.state.root, self.state.steps, self.state.slave)
    }

    /// The number of the Slave port, if there is one, and the port at the other end that it follows
    /// (parentPortIdentity, IEEE 1588-2019, 8.2.3.2).
    pub fn parent(&self) -> Option<(u8, PortId)>
        ensures { result ≡ parent self.now }
    {
        self.state.parent()
    }

    /// How far its local clock is ahead of the grandmaster's, in 2^-16 ns, where time has come over its Slave port.
    pub fn offset(&self) -> Option<ScaledNs>
        ensures { result ≡ self.now.offset }
    {
        self.state.offset
    }

    /// What it reads of the root's time by the Follow_Up that it used last, where an offset is known. It is read so
    /// from that Follow_Up on until the next one is used.
    pub fn held_reading(&self) -> Option<Reading>
        ensures { result ≡ held_reading self.now }
    {
        self.state.held_reading()
    }

    /// What it reads time by: the Follow_Up that it used last, whatever became of its root since, or its own clock
    /// where it took over. None from each start to the first of both.
    pub fn reads(&self) -> Option<TimeRead>
        ensures { result ≡ self.now.reads }
    {
        self.state.reads
    }

    /// By how much the time that it tells is ahead of its own clock, in 2^-16 ns.
    pub fn base(&self) -> ScaledNs
        ensures { result ≡ self.now.base }
    {
        self.state.base
    }

    /// What it reads at the time `now`, in ns, by what it reads time by: in 2^-16 ns, where it has time.
    pub fn reading(&self, now: u64) -> Option<i128>
        requires { IsMoment now }
        ensures is { result ≡ reading self.now now }
        ensures small { IfSome result (λ time. unsigned_abs time < 2 ^ 99) }
    {
        self.state.reading(now)
    }

    /// The path trace that the system announces: the path of its Slave port with the own clock after it, or the own
    /// clock alone (IEEE 802.1AS-2020, 10.3.9.23).
    pub fn trace(&self) -> Trace
        ensures { result ≡ trace self.now }
    {
        self.state.trace()
    }

    /// The path trace that the system announces, in two parts: the path of its Slave port, at most 255 clocks and none
    /// where there is no such port, and the own clock. No clock is copied.
    pub fn trace_parts(&self) -> (&[ClockId], ClockId)
        ensures parts { trace self.now ≡ result.0.now ++ result.1 ∷ [] }
        ensures few { length result.0.now ≤ 255 }
    {
        self.state.trace_parts()
    }

    /// How many ports the system has, at most [`MOST_PORTS`](gptp_setup::MOST_PORTS).
    pub fn ports(&self) -> u8
        ensures { result ≡ length self.now.ports }
    {
        self.state.ports()
    }

    /// The role of a port (IEEE 802.1AS-2020, 10.3.6).
    pub fn role(&self, port: u8) -> Role
        requires { HasPortNumber self.now port }
        ensures { result ≡ role_at self.now port }
    {
        self.state.role(port)
    }

    /// Whether a port is asCapable (IEEE 802.1AS-2020, 11.2.2).
    pub fn capable(&self, port: u8) -> bool
        requires { HasPortNumber self.now port }
        ensures { result ≡ is_capable_at self.now port }
    {
        self.state.is_capable(port)
    }

    /// The meanLinkDelay of a port, in 2^-16 ns, where it was measured since its link came up or was lost.
    pub fn delay(&self, port: u8) -> Option<ScaledNs>
        requires { HasPortNumber self.now port }
        ensures { result ≡ option_and_then (λ q. delay_of q.peer) (number self.now.ports port) }
    {
        self.state.delay(port)
    }

    /// When a timer runs out, in ns, where it runs.
    pub fn due(&self, timer: Timer) -> Option<u64>
        requires { IsTimerOf self.now timer }
        ensures { result ≡ due timer self.now }
    {
        self.state.due(timer)
    }

    /// At which ports the system can send where a port hears this frame. The first octet tells, whether or not the
    /// frame reads as a message.
    pub fn frame_reach(&self, frame: &[u8]) -> Reach
        ensures { result ≡ frame_reach frame.now }
    {
        frame_reach(frame)
    }

    /// At which ports the system can send where this timer runs out.
    pub fn timer_reach(&self, timer: Timer) -> Reach
        requires { IsTimerOf self.now timer }
        ensures { result ≡ timer_reach timer self.now }
    {
        self.state.timer_reach(timer)
    }

    /// What its local clock shows at the time `t`, in ns.
    pub fn local(&self, t: u64) -> ScaledNs
        requires { IsMoment t }
        ensures { result ≡ local_time self.now t }
    {
        self.state.local_time(t)
    }
}
