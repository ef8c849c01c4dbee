//! The measuring of links.

ghost use Rattle.std.specs.Prelude.{◌≡◌, ◌≤◌};
ghost use Rattle.gptp_pdelay.specs.Clock.{IsTime};
ghost use Rattle.gptp_pdelay.specs.declared.answer.Answer.{Answer as Owed};
ghost use Rattle.gptp_pdelay.specs.Peer.{after_follow_up, after_interval, after_response, changes_capability, follow_up_step, reset_peer, response_step};
ghost use Rattle.gptp_scaled.specs.Stamp.{IsSplit};
ghost use Rattle.gptp_system.specs.Measuring.{measuring_answer, answering_done, asking, held_if, owing, silenced};
ghost use Rattle.gptp_system.specs.Sends.{pdelay_request, pdelay_response, response_follow_up};

use crate::answer::Answer;
use crate::port::Port;
use crate::sending::{Body, Outbox, Sending, insert, push};
use crate::state::State;
use gptp_messages::{Head, PdelayResp, PdelayRespFollowUp};
use gptp_pdelay::{Answer as Owed, Step};
use gptp_receipt::Held;
use gptp_scaled::{ScaledNs, Stamp};
use gptp_setup::interval_of;
use gptp_vector::PortId;

/// The logMessageInterval of a response, which has none (IEEE 1588-2019, table 42).
const NO_INTERVAL: i8 = 0x7F;

/// Its measuring begins anew: whether the port stops being asCapable by that.
fn reset(port: &mut Port) -> bool
    ensures changed { result ≡ changes_capability port.old.peer (reset_peer port.old.peer) }
    ensures port { port.new ≡ record port.old { peer = reset_peer port.old.peer } }
{
    let was_capable = port.peer.capable();
    port.peer.reset();
    was_capable
}

/// An interval ends: whether the port stops being asCapable by that.
fn end_interval(port: &mut Port) -> bool
    ensures changed { result ≡ changes_capability port.old.peer (after_interval port.old.peer) }
    ensures port { port.new ≡ record port.old { peer = after_interval port.old.peer } }
{
    port.peer.on_interval()
}

/// A follow-up comes: whether the port becomes asCapable by it, or stops being so, and what became of it.
fn follow_up(port: &mut Port, message: &PdelayRespFollowUp) -> (bool, Answer)
    ensures changed { result.0 ≡ changes_capability port.old.peer (after_follow_up message.now port.old.peer) }
    ensures answer { result.1 ≡ measuring_answer (follow_up_step message.now port.old.peer) }
    ensures port { port.new ≡ record port.old { peer = after_follow_up message.now port.old.peer } }
{
    match port.peer.on_follow_up(message) {
        Step::Ignored => (false, Answer::Ignored),
        Step::Recorded => (false, Answer::Used),
        Step::Exchange { changed } => (changed, Answer::Used),
    }
}

/// A response comes with this time stamp: what became of it.
fn response(port: &mut Port, message: &PdelayResp, t4: ScaledNs) -> Answer
    requires { IsTime t4 }
    ensures answer { result ≡ measuring_answer (response_step message.now t4 port.old.peer) }
    ensures port { port.new ≡ record port.old { peer = after_response message.now t4 port.old.peer } }
{
    match port.peer.on_response(message, t4) {
        Step::Ignored => Answer::Ignored,
        _ => Answer::Used,
    }
}

/// Its measuring is forgotten, and its timers stop.
fn silence(port: &mut Port)
    ensures { port.new ≡ silenced port.old }
{
    port.peer.reset();
    port.pdelay = None;
    port.respond = None;
}

/// It asks its neighbour: the sequence number of its request.
fn ask(port: &mut Port, t1: ScaledNs, due: u64) -> u16
    requires { IsTime t1 }
    ensures sequence { result ≡ port.old.peer.next }
    ensures port { port.new ≡ asking t1 due port.old }
{
    port.pdelay = Some(due);
    port.peer.request(t1)
}

/// It owes its neighbour an answer.
fn owe(port: &mut Port, owed: Owed, due: u64)
    ensures { port.new ≡ owing owed due port.old }
{
    port.respond = Some(due);
    port.peer.respond(owed.requester, owed.sequence, owed.t2);
}

/// What it owes is answered: what that was.
fn take_owed(port: &mut Port) -> Option<Owed>
    ensures owed { result ≡ port.old.peer.waiting }
    ensures port { port.new ≡ answering_done port.old }
{
    port.respond = None;
    port.peer.take_response()
}

/// A port has heard nothing where it is asCapable, and takes no part where it isn't.
fn hold(held: &mut Held, capable: bool)
    ensures { held.new ≡ held_if capable }
{
    match capable {
        true => *held = Held::Aged,
        false => *held = Held::Disabled,
    }
}

/// The Pdelay_Req of a port.
fn request(own: PortId, log_interval: i8, sequence: u16) -> Sending
    requires { own.port ≤ 255 }
    ensures { result ≡ pdelay_request own log_interval sequence }
{
    Sending {
        port: own.port as u8,
        head: Head {
            source: own,
            sequence,
            correction: 0,
            log_interval,
            two_step: false,
        },
        body: Body::PdelayReq,
    }
}

/// The Pdelay_Resp of a port: when the request came.
fn response_to(own: PortId, owed: &Owed, time: (Stamp, u16)) -> Sending
    requires { own.port ≤ 255 }
    ensures { result ≡ pdelay_response own owed.now time.0 time.1 }
{
    let (stamp, rest) = time;
    Sending {
        port: own.port as u8,
        head: Head {
            source: own,
            sequence: owed.sequence,
            correction: i64::from(rest),
            log_interval: NO_INTERVAL,
            two_step: true,
        },
        body: Body::PdelayResp {
            stamp,
            requester: owed.requester,
        },
    }
}

/// The Pdelay_Resp_Follow_Up of a port: when the response went.
fn follow_up_to(own: PortId, owed: &Owed, time: (Stamp, u16)) -> Sending
    requires { own.port ≤ 255 }
    ensures { result ≡ response_follow_up own owed.now time.0 time.1 }
{
    let (stamp, rest) = time;
    Sending {
        port: own.port as u8,
        head: Head {
            source: own,
            sequence: owed.sequence,
            correction: i64::from(rest),
            log_interval: NO_INTERVAL,
            two_step: false,
        },
        body: Body::PdelayRespFollowUp {
            stamp,
            requester: owed.requester,
        },
    }
}

/// A time as a stamp and the rest below a nanosecond.
fn split(time: ScaledNs) -> (Stamp, u16)
    requires { IsTime time }
    ensures { IsSplit time result.0 result.1 }
{
    time.split().unwrap()
}

impl State {
    ghost use Rattle.std.specs.Prelude.{◌≡◌, ◌≤◌, ◌<◌, length, []};
    ghost use Rattle.arrayvec.specs.ArrayVec.{array_vec_len};
    ghost use Rattle.gptp_setup.specs.declared.limits.TheConstants.{MOST_PORTS};
    ghost use Rattle.gptp_setup.specs.Intervals.{IsMoment};
    ghost use Rattle.gptp_system.specs.declared.sending.TheConstants.{MOST_SENDS};
    ghost use Rattle.gptp_system.specs.Measuring.{ComesUp, GoesDown, PdelayExpires, RespondExpires, Responds, HearsRequest, HearsResponse, HearsResponseFollowUp, SettlesIf, port_asks, is_turned, request_of};
    ghost use Rattle.gptp_system.specs.Reach.{stops_at};
    ghost use Rattle.gptp_system.specs.Ready.{IsReady, state_of};
    ghost use Rattle.gptp_system.specs.State.{number};
    ghost use Rattle.gptp_system.specs.Sends.{with_send};

    /// What a port holds follows from whether it is asCapable, and selection follows, where that has changed.
    fn settle(&mut self, port: u8, changed: bool, now: u64, outbox: &mut Outbox)
        requires ready { IsReady (state_of self.old) }
        requires moment { IsMoment now }
        requires least { 1 ≤ port }
        requires most { port ≤ length (state_of self.old).ports }
        requires empty { outbox.old.items ≡ [] }
        ensures settled { SettlesIf changed port now (state_of self.old) (state_of self.new) outbox.new.items }
        ensures few { array_vec_len outbox.new ≤ MOST_PORTS }
        ensures places { length (state_of self.new).ports ≡ length (state_of self.old).ports }
        ensures ready { IsReady (state_of self.new) }
    {
        match changed {
            true => {
                let place = usize::from(port) - 1;
                hold(&mut self.held[place], self.ports[place].peer.capable());
                self.select(now, outbox);
            }
            false => {}
        }
    }

    /// A port asks its neighbour, and again one interval later (IEEE 802.1AS-2020, 11.2.19). Its request goes after
    /// what this port and the lower ones send.
    fn send_request(&mut self, port: u8, now: u64, outbox: &mut Outbox)
        requires ready { IsReady (state_of self.old) }
        requires moment { IsMoment now }
        requires least { 1 ≤ port }
        requires most { port ≤ length (state_of self.old).ports }
        requires room { array_vec_len outbox.old < MOST_SENDS }
        ensures state { state_of self.new ≡ port_asks port now (state_of self.old) }
        ensures sends { outbox.new.items ≡ with_send (request_of port (state_of self.old)) outbox.old.items }
        ensures ready { IsReady (state_of self.new) }
    {
        let t1 = self.stamp_time(now);
        let due = now + interval_of(self.params.pdelay);
        let sequence = ask(&mut self.ports[usize::from(port) - 1], t1, due);
        insert(
            outbox,
            request(self.own(port), self.params.pdelay, sequence),
        );
    }

    /// The link of a port comes up: its measuring begins anew, and it asks its neighbour (IEEE 802.1AS-2020, 11.2.19).
    pub(crate) fn port_up(&mut self, port: u8, now: u64, outbox: &mut Outbox)
        requires ready { IsReady (state_of self.old) }
        requires moment { IsMoment now }
        requires least { 1 ≤ port }
        requires most { port ≤ length (state_of self.old).ports }
        requires empty { outbox.old.items ≡ [] }
        ensures step { ComesUp port now (state_of self.old) (state_of self.new) outbox.new.items }
        ensures ready { IsReady (state_of self.new) }
    {
        let changed = reset(&mut self.ports[usize::from(port) - 1]);
        self.settle(port, changed, now, outbox);
        self.send_request(port, now, outbox);
    }

    /// The link of a port goes down: its measuring is forgotten, its timers stop, and it takes no part.
    pub(crate) fn port_down(&mut self, port: u8, now: u64, outbox: &mut Outbox)
        requires ready { IsReady (state_of self.old) }
        requires moment { IsMoment now }
        requires least { 1 ≤ port }
        requires most { port ≤ length (state_of self.old).ports }
        requires empty { outbox.old.items ≡ [] }
        ensures step { GoesDown port now (state_of self.old) (state_of self.new) outbox.new.items }
        ensures ready { IsReady (state_of self.new) }
    {
        let place = usize::from(port) - 1;
        silence(&mut self.ports[place]);
        hold(&mut self.held[place], false);
        self.select(now, outbox);
    }

    /// The Pdelay timer of a port runs out: a request that is still open is lost, and the port asks again (IEEE
    /// 802.1AS-2020, 11.2.19). Whether the port stopped being asCapable by that.
    pub(crate) fn on_pdelay_timer(&mut self, port: u8, now: u64, outbox: &mut Outbox) -> bool
        requires ready { IsReady (state_of self.old) }
        requires moment { IsMoment now }
        requires least { 1 ≤ port }
        requires most { port ≤ length (state_of self.old).ports }
        requires empty { outbox.old.items ≡ [] }
        ensures step { PdelayExpires port now (state_of self.old) (state_of self.new) outbox.new.items }
        ensures stops { result ≡ stops_at port (state_of self.old) }
        ensures ready { IsReady (state_of self.new) }
    {
        let changed = end_interval(&mut self.ports[usize::from(port) - 1]);
        self.settle(port, changed, now, outbox);
        self.send_request(port, now, outbox);
        changed
    }

    /// The two responses to what a port owes: when the request came, and when they go.
    fn respond(&self, port: u8, owed: &Owed, now: u64, outbox: &mut Outbox)
        requires ready { IsReady (state_of self.now) }
        requires moment { IsMoment now }
        requires time { IsTime owed.now.t2 }
        requires empty { outbox.old.items ≡ [] }
        ensures { Responds port now (state_of self.now) owed.now outbox.new.items }
    {
        let came = split(owed.t2);
        push(outbox, response_to(self.own(port), owed, came));
        let went = split(self.stamp_time(now));
        push(outbox, follow_up_to(self.own(port), owed, went));
    }

    /// The Respond timer of a port runs out: the port answers what it owes (IEEE 802.1AS-2020, 11.2.20).
    pub(crate) fn on_respond_timer(&mut self, port: u8, now: u64, outbox: &mut Outbox)
        requires ready { IsReady (state_of self.old) }
        requires moment { IsMoment now }
        requires least { 1 ≤ port }
        requires most { port ≤ length (state_of self.old).ports }
        requires empty { outbox.old.items ≡ [] }
        ensures step { RespondExpires port now (state_of self.old) (state_of self.new) outbox.new.items }
        ensures ready { IsReady (state_of self.new) }
    {
        match take_owed(&mut self.ports[usize::from(port) - 1]) {
            Some(owed) => self.respond(port, &owed, now, outbox),
            None => {}
        }
    }

    /// A port hears a Pdelay_Req: it answers one turnaround later, in place of an older request (IEEE 802.1AS-2020,
    /// 11.2.20).
    pub(crate) fn hear_request(&mut self, port: u8, head: &Head, now: u64) -> Answer
        requires ready { IsReady (state_of self.old) }
        requires moment { IsMoment now }
        requires least { 1 ≤ port }
        requires most { port ≤ length (state_of self.old).ports }
        ensures step { HearsRequest port head.now now (state_of self.old) (state_of self.new) [] result }
        ensures ready { IsReady (state_of self.new) }
    {
        let owed = Owed {
            requester: head.source,
            sequence: head.sequence,
            t2: self.stamp_time(now),
        };
        owe(
            &mut self.ports[usize::from(port) - 1],
            owed,
            now + self.params.turnaround,
        );
        Answer::Used
    }

    /// A port hears a Pdelay_Resp: the one that its open request waits for is recorded (IEEE 802.1AS-2020, 11.2.19).
    pub(crate) fn hear_response(&mut self, port: u8, message: &PdelayResp, now: u64) -> Answer
        requires ready { IsReady (state_of self.old) }
        requires moment { IsMoment now }
        requires least { 1 ≤ port }
        requires most { port ≤ length (state_of self.old).ports }
        ensures step { HearsResponse port message.now now (state_of self.old) (state_of self.new) [] result }
        ensures ready { IsReady (state_of self.new) }
    {
        let t4 = self.stamp_time(now);
        response(&mut self.ports[usize::from(port) - 1], message, t4)
    }

    /// A port hears a Pdelay_Resp_Follow_Up: the one that its recorded response waits for completes the exchange (IEEE
    /// 802.1AS-2020, 11.2.19). What the port holds follows, and selection, where it becomes asCapable or stops being
    /// so: whether it does, and what became of the message.
    pub(crate) fn hear_response_follow_up(
        &mut self,
        port: u8,
        message: &PdelayRespFollowUp,
        now: u64,
        outbox: &mut Outbox,
    ) -> (bool, Answer)
        requires ready { IsReady (state_of self.old) }
        requires moment { IsMoment now }
        requires least { 1 ≤ port }
        requires most { port ≤ length (state_of self.old).ports }
        requires empty { outbox.old.items ≡ [] }
        ensures step { HearsResponseFollowUp port message.now now (state_of self.old)
            (state_of self.new) outbox.new.items result.1 }
        ensures turned { result.0 ≡ is_turned (after_follow_up message.now) (number (state_of self.old).ports port) }
        ensures ready { IsReady (state_of self.new) }
    {
        let (changed, answer) = follow_up(&mut self.ports[usize::from(port) - 1], message);
        self.settle(port, changed, now, outbox);
        (changed, answer)
    }
}
