//! What a call of a system sends.

ghost use Rattle.std.specs.Prelude.{◌≡◌, ◌<◌, ◌++◌, ◌∷◌, [], nat_le};
ghost use Rattle.std.specs.List.{prefix_len};
ghost use Rattle.arrayvec.specs.ArrayVec.{array_vec_len};
ghost use Rattle.gptp_messages.specs.Frame.{PortFits};
ghost use Rattle.gptp_messages.specs.FollowUp.{FollowUpFits};
ghost use Rattle.gptp_messages.specs.Head.{HeadFits};
ghost use Rattle.gptp_messages.specs.PeerDelay.{ResponseFits};
ghost use Rattle.gptp_system.specs.declared.sending.Sending.{Sending};
ghost use Rattle.gptp_system.specs.Sends.{with_send};

use arrayvec::ArrayVec;
use gptp_messages::{AnnounceBody, FollowUp, Head, Message, PdelayResp, PdelayRespFollowUp};
use gptp_scaled::{Rate, Stamp};
use gptp_setup::MOST_PORTS;
use gptp_vector::PortId;

/// A message that a port sends: its header, and what comes after it.
#[derive(Clone, Copy, Debug, PartialEq, Eq, Default)]
pub struct Sending {
    /// The number of the port.
    pub port: u8,
    /// The common header.
    pub head: Head,
    /// The type of the message and the fields after the header.
    pub body: Body,
}

/// The fields of a message after its header. The path of an Announce is the trace of the system as the call leaves it.
#[derive(Clone, Copy, Debug, PartialEq, Eq, Default)]
pub enum Body {
    /// An Announce without its path.
    Announce(AnnounceBody),
    /// A Sync.
    Sync,
    /// A Follow_Up.
    FollowUp {
        /// The preciseOriginTimestamp.
        origin: Stamp,
        /// The cumulativeScaledRateOffset.
        rate: Rate,
    },
    /// A Pdelay_Req.
    #[default]
    PdelayReq,
    /// A Pdelay_Resp.
    PdelayResp {
        /// The requestReceiptTimestamp.
        stamp: Stamp,
        /// The requestingPortIdentity.
        requester: PortId,
    },
    /// A Pdelay_Resp_Follow_Up.
    PdelayRespFollowUp {
        /// The responseOriginTimestamp.
        stamp: Stamp,
        /// The requestingPortIdentity.
        requester: PortId,
    },
}

/// A message that was sent, as another port hears it without its octets: any but an Announce, whose path isn't part of
/// a send.
#[derive(Clone, Copy, Debug, PartialEq, Eq)]
pub enum Sent {
    /// A Sync.
    Sync {
        /// The common header.
        head: Head,
    },
    /// A Pdelay_Req.
    PdelayReq {
        /// The common header.
        head: Head,
    },
    /// A Pdelay_Resp.
    PdelayResp(PdelayResp),
    /// A Follow_Up.
    FollowUp(FollowUp),
    /// A Pdelay_Resp_Follow_Up.
    PdelayRespFollowUp(PdelayRespFollowUp),
}

/// Each field of the name of a port fits its octets.
fn port_fits(port: PortId)
    ensures { PortFits port }
{
    let _clock = u64::from(port.clock);
}

/// Each field of a header fits its octets.
fn head_fits(head: &Head)
    ensures { HeadFits head.now }
{
    port_fits(head.source);
    let _sequence = head.sequence;
    let _correction = head.correction;
    let _log_interval = head.log_interval;
}

/// Each field of either response fits its octets.
fn response_fits(head: &Head, stamp: Stamp, requester: PortId)
    ensures { ResponseFits head.now stamp requester }
{
    head_fits(head);
    let _seconds = stamp.seconds();
    port_fits(requester);
}

/// Each field of a Follow_Up fits its octets.
fn follow_up_fits(follow_up: &FollowUp)
    ensures { FollowUpFits follow_up.now }
{
    head_fits(&follow_up.head);
    let _seconds = follow_up.origin.seconds();
    let _q = follow_up.rate.q();
}

impl Sent {
    ghost use Rattle.std.specs.Prelude.{◌≡◌, ℕ, List, IfSome, IfNone};
    ghost use Rattle.gptp_messages.specs.Grammar.{MessageFits, Reads, Written};
    ghost use Rattle.gptp_system.specs.Reacts.{IsAnnounce};
    ghost use Rattle.gptp_system.specs.Sends.{message_sent, sent_message};

    /// What a port sent. `None` for an Announce.
    pub fn of(sending: &Sending) -> Option<Sent>
        ensures is { (path : List ℕ) → IfSome result
            (λ sent. message_sent sent ≡ sent_message path sending.now.head sending.now.body) }
        ensures none { IfNone result (IsAnnounce sending.now.body) }
    {
        let head = sending.head;
        match sending.body {
            Body::Announce(_) => None,
            Body::Sync => Some(Sent::Sync { head }),
            Body::FollowUp { origin, rate } => {
                Some(Sent::FollowUp(FollowUp { head, origin, rate }))
            }
            Body::PdelayReq => Some(Sent::PdelayReq { head }),
            Body::PdelayResp { stamp, requester } => Some(Sent::PdelayResp(PdelayResp {
                head,
                stamp,
                requester,
            })),
            Body::PdelayRespFollowUp { stamp, requester } => {
                Some(Sent::PdelayRespFollowUp(PdelayRespFollowUp {
                    head,
                    stamp,
                    requester,
                }))
            }
        }
    }

    /// The same as a message.
    fn as_message(&self) -> Message<'_>
        ensures { result ≡ message_sent self.now }
    {
        match self {
            Sent::Sync { head } => Message::Sync { head: *head },
            Sent::PdelayReq { head } => Message::PdelayReq { head: *head },
            Sent::PdelayResp(response) => Message::PdelayResp(*response),
            Sent::FollowUp(follow_up) => Message::FollowUp(*follow_up),
            Sent::PdelayRespFollowUp(response) => Message::PdelayRespFollowUp(*response),
        }
    }

    /// The message, which its octets read as.
    pub fn message(&self) -> Message<'_>
        ensures is { result ≡ message_sent self.now }
        ensures reads { Reads (Written (message_sent self.now)) result }
    {
        self.fits();
        self.as_message()
    }

    /// Each field fits its octets.
    pub(crate) fn fits(&self)
        ensures { MessageFits (message_sent self.now) }
    {
        match self {
            Sent::Sync { head } => head_fits(head),
            Sent::PdelayReq { head } => head_fits(head),
            Sent::PdelayResp(response) => {
                response_fits(&response.head, response.stamp, response.requester);
            }
            Sent::FollowUp(follow_up) => follow_up_fits(follow_up),
            Sent::PdelayRespFollowUp(response) => {
                response_fits(&response.head, response.stamp, response.requester);
            }
        }
    }
}

/// The most sends of one call: four for each port.
pub const MOST_SENDS: usize = 4 * MOST_PORTS;

/// What one call sends, by rising port: on one port an Announce first, each Sync directly before its Follow_Up, each
/// Pdelay_Resp directly before its Pdelay_Resp_Follow_Up, and a Pdelay_Req last.
pub type Outbox = ArrayVec<Sending, MOST_SENDS>;

/// Puts one more send after the others. (Its parts are named since the borrow checker finds the type of a body only
/// where a function names one.)
pub(crate) fn push(outbox: &mut Outbox, sending: Sending)
    requires { array_vec_len outbox.old < MOST_SENDS }
    ensures { outbox.new.items ≡ outbox.old.items ++ sending ∷ [] }
{
    let Sending { port, head, body } = sending;
    outbox.push(Sending { port, head, body });
}

/// How many sends in front are of ports up to this one.
fn sends_up_to(port: u8, sends: &[Sending]) -> usize
    ensures { result ≡ prefix_len (λ (one : Sending). nat_le one.port port) sends.now }
{
    sends.iter().take_while(|one| one.port <= port).count()
}

/// Puts one more send after those of its own port and the lower ones.
pub(crate) fn insert(outbox: &mut Outbox, sending: Sending)
    requires { array_vec_len outbox.old < MOST_SENDS }
    ensures { outbox.new.items ≡ with_send sending outbox.old.items }
{
    let place = sends_up_to(sending.port, outbox.as_slice());
    let Sending { port, head, body } = sending;
    outbox.insert(place, Sending { port, head, body });
}
