//! The messages that measure a link (IEEE 802.1AS-2020, 11.4.5 to 11.4.7; IEEE 1588-2019, 13.9 to 13.11).

ghost use Rattle.std.specs.Prelude.{◌≡◌, ◌≤◌, length, IfOk, IfErr};
ghost use Rattle.gptp_messages.specs.Timestamp.{stamp_of, HasStamp};
ghost use Rattle.gptp_messages.specs.PeerDelay.{requester_of, written_response};

use crate::frame::{port_at, port_octets};
use crate::head::Head;
use crate::refused::Refused;
use crate::timestamp::{read_stamp, stamp_octets};
use gptp_scaled::Stamp;
use gptp_vector::PortId;

/// A Pdelay_Resp: a request was received.
#[derive(Clone, Copy, Debug, PartialEq, Eq)]
pub struct PdelayResp {
    /// The common header. Its correctionField is the part of the time below one nanosecond (profile).
    pub head: Head,
    /// The requestReceiptTimestamp: when the request came, on the clock of the sender of this message.
    pub stamp: Stamp,
    /// The requestingPortIdentity: the port that sent the request.
    pub requester: PortId,
}

/// A Pdelay_Resp_Follow_Up: a Pdelay_Resp was sent.
#[derive(Clone, Copy, Debug, PartialEq, Eq)]
pub struct PdelayRespFollowUp {
    /// The common header. Its correctionField is the part of the time below one nanosecond (profile).
    pub head: Head,
    /// The responseOriginTimestamp: when the Pdelay_Resp went, on the clock of its sender.
    pub stamp: Stamp,
    /// The requestingPortIdentity: the port that sent the request.
    pub requester: PortId,
}

/// What comes after the header of either response: the timestamp and the requester.
pub(crate) fn read_response(frame: &[u8]) -> Result<(Stamp, PortId), Refused>
    requires { 54 ≤ length frame.now }
    ensures stamp { IfOk result (λ r. (r.0 ≡ stamp_of frame.now) × HasStamp frame.now) }
    ensures requester { IfOk result (λ r. r.1 ≡ requester_of frame.now) }
    ensures refused { IfErr result (λ e. (e ≡ Refused.StampRange) × (HasStamp frame.now → ⊥)) }
{
    Ok((read_stamp(frame)?, port_at(frame, 44)))
}

/// The octets after the header of either response.
pub(crate) fn response_octets(stamp: Stamp, requester: PortId) -> [u8; 20]
    ensures { result ≡ written_response stamp requester }
{
    let mut octets = [0; 20];
    octets[..10].copy_from_slice(&stamp_octets(stamp));
    octets[10..].copy_from_slice(&port_octets(requester));
    octets
}
