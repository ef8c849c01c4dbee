//! Reading a frame, and writing one.

ghost use Rattle.std.specs.Prelude.{◌≡◌, ◌+◌, ◌<◌, ◌++◌, length, vec_len, vec_capacity, IfOk, IfErr, OnOk, OnErr, MatchResult, Ok, Err, Some};
ghost use Rattle.gptp_messages.specs.Grammar.{Reads, RefusesFrame, PassesHeader, Written, PathHasRoom, header_fault};

use crate::announce::AnnounceView;
use crate::follow_up::{FollowUp, follow_up_octets};
use crate::frame::u16_at;
use crate::head::{HEADER_LENGTH, Head, put_message};
use crate::message_type::MessageType;
use crate::peer_delay::{PdelayResp, PdelayRespFollowUp, read_response, response_octets};
use crate::refused::Refused;
use std::alloc::AllocError;

/// A message as it stands in a frame.
#[derive(Debug, Drop)]
pub enum Message<'a> {
    /// A Follow_Up with the time of sending comes after it (IEEE 802.1AS-2020, 11.4.3).
    Sync {
        /// The common header. Its twoStepFlag tells a Sync of two steps, the only one that gPTP's rules use here.
        head: Head,
    },
    /// Asks the port at the other end of the link for its times (IEEE 802.1AS-2020, 11.4.5).
    PdelayReq {
        /// The common header.
        head: Head,
    },
    /// When a request came (IEEE 802.1AS-2020, 11.4.6).
    PdelayResp(PdelayResp),
    /// When the Sync before it was sent, and how time is to be carried on (IEEE 802.1AS-2020, 11.4.4).
    FollowUp(FollowUp),
    /// When a response was sent (IEEE 802.1AS-2020, 11.4.7).
    PdelayRespFollowUp(PdelayRespFollowUp),
    /// What the sender knows of the best system (IEEE 802.1AS-2020, 10.6.3).
    Announce(AnnounceView<'a>),
}

/// The type of the message in a frame whose header passes its tests; else the first refusal.
fn check_header(frame: &[u8]) -> Result<MessageType, Refused>
    ensures { MatchResult result (PassesHeader frame.now) (λ e. header_fault frame.now ≡ Some e) }
{
    if frame.len() < HEADER_LENGTH {
        return Err(Refused::Short);
    }
    if frame[0] / 16 != 1 || frame[5] != 0 {
        return Err(Refused::NotGptp);
    }
    if frame[1] % 16 != 2 {
        return Err(Refused::Version);
    }
    let Some(message_type) = MessageType::of_number(frame[0] % 16) else {
        return Err(Refused::UnknownType);
    };
    let length = u16_at(frame, 2);
    if length < message_type.least_length() {
        return Err(Refused::LengthField);
    }
    if frame.len() < usize::from(length) {
        return Err(Refused::Short);
    }
    if frame[4] != 0 {
        return Err(Refused::Domain);
    }
    Ok(message_type)
}

/// The message of this type in a frame whose header passed: its fields, and then its TLVs and its timestamp.
fn read_message(frame: &[u8], message_type: MessageType) -> Result<Message<'_>, Refused>
    requires { PassesHeader frame.now message_type }
    ensures read { IfOk result (Reads frame.now) }
    ensures refused { IfErr result (RefusesFrame frame.now) }
{
    match message_type {
        MessageType::Sync => Ok(Message::Sync {
            head: Head::read(frame),
        }),
        MessageType::PdelayReq => Ok(Message::PdelayReq {
            head: Head::read(frame),
        }),
        MessageType::PdelayResp => {
            let (stamp, requester) = read_response(frame)?;
            let head = Head::read(frame);
            Ok(Message::PdelayResp(PdelayResp {
                head,
                stamp,
                requester,
            }))
        }
        MessageType::FollowUp => Ok(Message::FollowUp(FollowUp::read(frame)?)),
        MessageType::PdelayRespFollowUp => {
            let (stamp, requester) = read_response(frame)?;
            let head = Head::read(frame);
            Ok(Message::PdelayRespFollowUp(PdelayRespFollowUp {
                head,
                stamp,
                requester,
            }))
        }
        MessageType::Announce => Ok(Message::Announce(AnnounceView::read(frame)?)),
    }
}

/// The message in a frame. What comes after messageLength is ignored, and so are reserved octets,
/// minorVersionPTP, messageTypeSpecific, controlField, the flags but twoStep, and TLVs but the first
/// path trace of an Announce and the first information TLV of a Follow_Up (IEEE 1588-2019, 13.3 and 14.1; IEEE
/// 802.1AS-2020, 10.6 and 11.4).
///
/// A frame that is none is refused by the first of its tests that fails: [`Refused::Short`] for fewer
/// than 34 octets, then [`Refused::NotGptp`], [`Refused::Version`], [`Refused::UnknownType`],
/// [`Refused::LengthField`], [`Refused::Short`] for fewer octets than messageLength says,
/// [`Refused::Domain`], [`Refused::Tlv`] and [`Refused::StampRange`].
pub fn decode(frame: &[u8]) -> Result<Message<'_>, Refused>
    ensures read { IfOk result (Reads frame.now) }
    ensures only { (m : Message) → Reads frame.now m → result ≡ Ok m }
    ensures refused { IfErr result (RefusesFrame frame.now) }
    ensures first { (e : Refused) → RefusesFrame frame.now e → result ≡ Err e }
{
    let message_type = check_header(frame)?;
    read_message(frame, message_type)
}

/// Appends one message in the one spelling that its fields have. A path has to fit a [`Trace`]. Refused
/// for want of memory alone, and only where the capacity doesn't suffice; nothing is appended then.
///
/// [`Trace`]: gptp_vector::Trace
pub fn encode(message: &Message<'_>, out: &mut Vec<u8>) -> Result<(), AllocError>
    requires { PathHasRoom message.now }
    ensures ok { OnOk result (out.new.items ≡ out.old.items ++ Written message.now) }
    ensures err { OnErr result (out.new.items ≡ out.old.items) }
    ensures full { OnErr result (vec_capacity out.old < vec_len out.old + length (Written message.now)) }
{
    match message {
        Message::Sync { head } => put_message(head, MessageType::Sync, &[0; 10], out),
        Message::PdelayReq { head } => put_message(head, MessageType::PdelayReq, &[0; 20], out),
        Message::PdelayResp(response) => {
            let behind = response_octets(response.stamp, response.requester);
            put_message(&response.head, MessageType::PdelayResp, &behind, out)
        }
        Message::FollowUp(follow_up) => {
            let behind = follow_up_octets(follow_up.origin, follow_up.rate);
            put_message(&follow_up.head, MessageType::FollowUp, &behind, out)
        }
        Message::PdelayRespFollowUp(response) => {
            let behind = response_octets(response.stamp, response.requester);
            put_message(
                &response.head,
                MessageType::PdelayRespFollowUp,
                &behind,
                out,
            )
        }
        Message::Announce(announce) => announce.encode(out),
    }
}
