//! How far a request has come.

ghost use Rattle.std.specs.Prelude.{◌≡◌};
ghost use Rattle.gptp_pdelay.specs.Progress.{is_follow_up_to, is_response_to, response_of};
ghost use Rattle.gptp_pdelay.specs.Exchange.{IsCarriedTime};

use crate::exchange::carried_time;
use gptp_messages::{PdelayResp, PdelayRespFollowUp};
use gptp_scaled::ScaledNs;
use gptp_vector::PortId;

/// A request that was sent.
#[derive(Clone, Copy, Debug, PartialEq, Eq, Hash)]
pub struct Request {
    pub sequence: u16,
    pub t1: ScaledNs,
}

/// The response to a request.
#[derive(Clone, Copy, Debug, PartialEq, Eq, Hash)]
pub struct Response {
    pub source: PortId,
    pub t2: ScaledNs,
    pub t4: ScaledNs,
}

/// How far the last request has come.
#[derive(Clone, Copy, Debug, PartialEq, Eq, Hash)]
pub enum Progress {
    /// None is open.
    Closed,
    /// It is open, and no response to it is recorded.
    Sent(Request),
    /// It is open, and this response to it is recorded.
    Answered(Request, Response),
}

impl Request {
    /// Whether a response that the port `own` hears is for this request.
    pub fn is_answered_by(&self, response: &PdelayResp, own: PortId) -> bool
        ensures { result ≡ is_response_to own self.now response.now }
    {
        response.requester == own
            && response.head.sequence == self.sequence
            && response.head.source.clock != own.clock
    }
}

impl Response {
    /// What is kept of a response that came at `t4`.
    pub fn of(response: &PdelayResp, t4: ScaledNs) -> Response
        ensures response { result ≡ response_of response.now t4 }
        ensures range { IsCarriedTime result.t2 }
    {
        Response {
            source: response.head.source,
            t2: carried_time(response.stamp, response.head.correction),
            t4,
        }
    }

    /// Whether a follow-up that the port `own` hears is for this response to its request.
    pub fn is_followed_by(
        &self,
        follow_up: &PdelayRespFollowUp,
        request: &Request,
        own: PortId,
    ) -> bool
        ensures { result ≡ is_follow_up_to own request.now self.now follow_up.now }
    {
        follow_up.requester == own
            && follow_up.head.sequence == request.sequence
            && follow_up.head.source == self.source
    }
}
