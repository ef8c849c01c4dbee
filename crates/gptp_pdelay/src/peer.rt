//! A port that measures its link.

ghost use Rattle.std.specs.Prelude.{◌≡◌, ◌+◌, ◌≤◌, ◌≤ℤ◌, pos, [], IfSome, is_some, IfOk, IsOk};
ghost use Rattle.gptp_scaled.specs.Rate.{IsNeighborRate};
ghost use Rattle.gptp_pdelay.specs.Clock.{IsTime};
ghost use Rattle.gptp_pdelay.specs.Exchange.{IsCarriedTime, IsMeasured, measurement_of, oldest};
ghost use Rattle.gptp_pdelay.specs.Peer.{new_peer, reset_peer, requested, answering, answered};
ghost use Rattle.gptp_pdelay.specs.Peer.{after_response, response_step, completed, after_follow_up, follow_up_step};
ghost use Rattle.gptp_pdelay.specs.Peer.{after_interval, is_capable, changes_capability, delay_of, rate_of_peer};

use crate::answer::Answer;
use crate::earlier::Earlier;
use crate::exchange::{Measurement, Times, carried_time};
use crate::progress::{Progress, Request, Response};
use crate::step::Step;
use gptp_messages::{PdelayResp, PdelayRespFollowUp};
use gptp_scaled::{Rate, ScaledNs};
use gptp_vector::PortId;
use std::alloc::{AllocError, Global};
use std::marker::Model;

/// A port that measures the link at its end (MDPdelayReq and MDPdelayResp, IEEE 802.1AS-2020, 11.2.19 and 11.2.20).
///
/// It sends nothing and knows no timer: its owner sends what the calls say, and calls
/// [`on_interval`](Peer::on_interval) before each request.
#[derive(Debug, Drop)]
pub struct Peer {
    own: PortId,
    threshold: u64,
    allowed: u8,
    progress: Progress,
    last: Option<Measurement>,
    earlier: Earlier,
    lost: u8,
    next: u16,
    waiting: Option<Answer>,
}

impl Model for Peer {
    ghost use Rattle.gptp_pdelay.specs.Peer.{PeerState, IsPeerState};

    ghost Value = { PeerState };

    ghost use Rattle.gptp_pdelay.specs.PeerFields.{peer_state};

    ghost view = { peer_state };

    ghost invariant = { λ p. IsPeerState (peer_state p) };
}

impl Default for Peer {
    ghost use Rattle.std.specs.Prelude.{⊤};

    ghost is_default = { λ _. ⊤ };

    /// A port that is none: it fills the places of ports that a system doesn't have.
    fn default() -> Self {
        Peer::keeping(Earlier::none(), PortId::default(), 1, 1)
    }
}

impl Peer {
    /// The port `own`, which has measured nothing and keeps these exchanges.
    const fn keeping(earlier: Earlier, own: PortId, threshold: u64, lost: u8) -> Peer
        requires { earlier.times ≡ [] }
        ensures { result ≡ new_peer own threshold lost (earlier.most + 1) }
    {
        Peer {
            own,
            threshold,
            allowed: lost,
            progress: Progress::Closed,
            last: None,
            earlier,
            lost: 0,
            next: 0,
            waiting: None,
        }
    }

    /// The port `own`, which has measured nothing. A delay above `threshold`, in ns, or more than `lost` requests
    /// in a row without a full exchange mean that no neighbour is there (meanLinkDelayThresh and
    /// allowedLostResponses, 11.2.13). Rates are measured over `window` exchanges, 1 to 16. Refused for want of memory
    /// alone, and never with a window of 1.
    pub fn new(
        alloc: Global,
        own: PortId,
        threshold: u64,
        lost: u8,
        window: u8,
    ) -> Result<Peer, AllocError>
        requires least { 1 ≤ window }
        requires most { window ≤ 16 }
        ensures new { IfOk result (λ p. p ≡ new_peer own threshold lost window) }
        ensures free { window ≡ 1 → IsOk result }
    {
        let earlier = Earlier::new(alloc, window - 1)?;
        Ok(Peer::keeping(earlier, own, threshold, lost))
    }

    /// The same port. Refused for want of memory alone.
    pub fn copy(&self, alloc: Global) -> Result<Peer, AllocError>
        ensures { IfOk result (λ p. p ≡ self.now) }
    {
        Ok(Peer {
            own: self.own,
            threshold: self.threshold,
            allowed: self.allowed,
            progress: self.progress,
            last: self.last,
            earlier: self.earlier.copy(alloc)?,
            lost: self.lost,
            next: self.next,
            waiting: self.waiting,
        })
    }

    /// A new port in the place of this one, which measures over as many exchanges. Takes no memory.
    pub fn renew(&mut self, own: PortId, threshold: u64, lost: u8)
        ensures { self.new ≡ new_peer own threshold lost self.old.window }
    {
        self.reset();
        self.own = own;
        self.threshold = threshold;
        self.allowed = lost;
        self.next = 0;
        self.waiting = None;
    }

    /// Forgets what was measured, the open request and the lost ones, as when the link goes down or comes up. The
    /// sequence numbers go on, and an answer that waits stays.
    pub fn reset(&mut self)
        ensures { self.new ≡ reset_peer self.old }
    {
        self.progress = Progress::Closed;
        self.last = None;
        self.earlier.clear();
        self.lost = 0;
    }

    /// Opens a request that is sent at `t1`, in place of one that is open, and answers its sequenceId: 0 for the
    /// first, then one more each time, and 0 again after 65,535.
    pub fn request(&mut self, t1: ScaledNs) -> u16
        requires { IsTime t1 }
        ensures sequence { result ≡ self.old.next }
        ensures peer { self.new ≡ requested t1 self.old }
    {
        let sequence = self.next;
        self.progress = Progress::Sent(Request { sequence, t1 });
        self.next = sequence.wrapping_add(1);
        sequence
    }

    /// Keeps a request of the neighbour that came at `t2`, to be answered, in place of one that waits.
    pub fn respond(&mut self, source: PortId, sequence: u16, t2: ScaledNs)
        ensures { self.new ≡ answering (record { requester = source; sequence = sequence; t2 = t2 }) self.old }
    {
        self.waiting = Some(Answer {
            requester: source,
            sequence,
            t2,
        });
    }

    /// Takes what the last [`respond`](Peer::respond) kept. It is given once.
    pub fn take_response(&mut self) -> Option<Answer>
        ensures answer { result ≡ self.old.waiting }
        ensures peer { self.new ≡ answered self.old }
    {
        self.waiting.take()
    }

    /// Hears a Pdelay_Resp at `t4`. It is recorded where the open request waits for a response, and this one names
    /// the port and the request and comes from another clock (11.2.19; the test of the clock is the profile's).
    pub fn on_response(&mut self, response: &PdelayResp, t4: ScaledNs) -> Step
        requires { IsTime t4 }
        ensures step { result ≡ response_step response.now t4 self.old }
        ensures peer { self.new ≡ after_response response.now t4 self.old }
        ensures ignored { result ≡ Step.Ignored → self.new ≡ self.old }
    {
        let Progress::Sent(request) = self.progress else {
            return Step::Ignored;
        };
        if !request.is_answered_by(response, self.own) {
            return Step::Ignored;
        }
        self.progress = Progress::Answered(request, Response::of(response, t4));
        Step::Recorded
    }

    /// Hears a Pdelay_Resp_Follow_Up. It completes the exchange where a response is recorded, and this message
    /// names the port and the request and comes from the port that responded. The delay and the neighbour rate are
    /// then those of this exchange, also where the delay is above the threshold. The rate is that since the exchange
    /// `window` full exchanges before it, or since the first since the reset where there are fewer.
    pub fn on_follow_up(&mut self, follow_up: &PdelayRespFollowUp) -> Step
        ensures step { result ≡ follow_up_step follow_up.now self.old }
        ensures peer { self.new ≡ after_follow_up follow_up.now self.old }
        ensures ignored { result ≡ Step.Ignored → self.new ≡ self.old }
    {
        let Progress::Answered(request, response) = self.progress else {
            return Step::Ignored;
        };
        if !response.is_followed_by(follow_up, &request, self.own) {
            return Step::Ignored;
        }
        let t3 = carried_time(follow_up.stamp, follow_up.head.correction);
        Step::Exchange {
            changed: self.complete(&request, &response, t3),
        }
    }

    /// The exchange that the next rate is measured since: the oldest of the window.
    #[tactic(auto, using(crate::proofs::PastLemmas::oldest_of))]
    fn since(&self) -> Option<Times>
        ensures { result ≡ oldest self.now.past }
    {
        if let Some(oldest) = self.earlier.oldest() {
            return Some(oldest);
        }
        match self.last {
            Some(last) => Some(last.times()),
            None => None,
        }
    }

    /// A measurement becomes the last one.
    fn keep(&mut self, measurement: Measurement)
        requires { IsMeasured measurement }
        ensures { self.new ≡ completed measurement self.old }
    {
        self.earlier.follow(self.last);
        self.progress = Progress::Closed;
        self.last = Some(measurement);
        self.lost = 0;
    }

    /// Completes an exchange, and answers whether the port became capable by it, or stopped being so.
    fn complete(&mut self, request: &Request, response: &Response, t3: ScaledNs) -> bool
        requires t1 { IsTime request.now.t1 }
        requires t2 { IsCarriedTime response.now.t2 }
        requires t3 { IsCarriedTime t3 }
        requires t4 { IsTime response.now.t4 }
        ensures changed { result ≡ changes_capability self.old self.new }
        ensures peer { self.new ≡ completed (measurement_of (oldest self.old.past) (is_some self.old.last) request.now
            response.now t3) self.old }
    {
        let was_capable = self.capable();
        let again = self.last.is_some();
        self.keep(Measurement::of(self.since(), again, request, response, t3));
        self.capable() != was_capable
    }

    /// Ends an interval: a request that is still open is given up and counts as lost, and where that is more in a
    /// row than are allowed, the port is reset. Answers whether the port stopped being capable by it.
    pub fn on_interval(&mut self) -> bool
        ensures stopped { result ≡ changes_capability self.old self.new }
        ensures peer { self.new ≡ after_interval self.old }
    {
        if self.progress == Progress::Closed {
            return false;
        }
        if self.lost < self.allowed {
            self.progress = Progress::Closed;
            self.lost += 1;
            return false;
        }
        let was_capable = self.capable();
        self.reset();
        was_capable
    }

    /// Whether the port stops being capable where its interval ends now.
    pub fn stops(&self) -> bool
        ensures { result ≡ changes_capability self.now (after_interval self.now) }
    {
        self.progress != Progress::Closed && self.allowed <= self.lost && self.capable()
    }

    /// Whether the port is asCapable: at least two full exchanges have come since the last reset, and the delay of
    /// the last one is at most the threshold.
    pub fn capable(&self) -> bool
        ensures { result ≡ is_capable self.now }
    {
        self.last
            .is_some_and(|last| last.shows_neighbor(self.threshold))
    }

    /// The delay of the link by the last full exchange since the reset (meanLinkDelay, 11.2.19.3.4), at least 0.
    pub fn delay(&self) -> Option<ScaledNs>
        ensures delay { result ≡ delay_of self.now }
        ensures range { IfSome result (λ delay. pos 0 ≤ℤ delay) }
    {
        self.last.map(|last| last.delay)
    }

    /// The rate of the neighbour's clock against the own by the full exchanges of the window since the reset
    /// (neighborRateRatio, 11.2.19.3.3), within 200 parts in a million; 0 where there aren't two.
    pub fn rate(&self) -> Rate
        ensures rate { result ≡ rate_of_peer self.now }
        ensures within { IsNeighborRate result }
    {
        self.last.map_or(Rate::new(0), |last| last.rate)
    }
}
