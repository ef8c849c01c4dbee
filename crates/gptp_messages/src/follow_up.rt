//! The Follow_Up message.

ghost use Rattle.std.specs.Prelude.{◌≡◌, ℤ, IfOk, IfErr};
ghost use Rattle.gptp_messages.specs.FollowUp.{ReadsRate, written_follow_up};

use crate::frame::{u16_at, u32_at};
use crate::head::Head;
use crate::refused::Refused;
use crate::timestamp::{read_stamp, stamp_octets};
use crate::tlv::{INFORMATION, ORGANIZATION_EXTENSION, TlvKind, first_tlv};
use byteorder::{BigEndian, ByteOrder};
use gptp_scaled::{Rate, Stamp};

/// A Follow_Up: when the Sync before it was sent, and how time is to be carried on (IEEE 802.1AS-2020, 11.4.4; IEEE
/// 1588-2019, 13.7).
#[derive(Clone, Copy, Debug, PartialEq, Eq)]
pub struct FollowUp {
    /// The common header. Its correctionField is what is to be added to the origin.
    pub head: Head,
    /// The preciseOriginTimestamp: the clock of the grandmaster when it sent the Sync.
    pub origin: Stamp,
    /// The cumulativeScaledRateOffset: the rate of the grandmaster's clock against the sender's.
    pub rate: Rate,
}

/// The octets of an information TLV's value.
const INFORMATION_LENGTH: u16 = 28;

/// The rate in the information TLV among the TLVs of a Follow_Up.
fn read_rate(octets: &[u8]) -> Result<Rate, Refused>
    ensures read { IfOk result (ReadsRate octets.now) }
    ensures refused { IfErr result (λ e. (e ≡ Refused.Tlv) × ((rate : ℤ) → ReadsRate octets.now rate → ⊥)) }
{
    match first_tlv(octets, TlvKind::Information)? {
        None => Err(Refused::Tlv),
        Some(value) if value.len() == usize::from(INFORMATION_LENGTH) => {
            Ok(Rate::new(u32_at(value, 6).cast_signed()))
        }
        Some(_) => Err(Refused::Tlv),
    }
}

/// The octets after the header of a Follow_Up.
pub(crate) fn follow_up_octets(origin: Stamp, rate: Rate) -> [u8; 42]
    ensures { result ≡ written_follow_up origin rate }
{
    let mut octets = [0; 42];
    octets[..10].copy_from_slice(&stamp_octets(origin));
    BigEndian::write_u16(&mut octets[10..], ORGANIZATION_EXTENSION);
    BigEndian::write_u16(&mut octets[12..], INFORMATION_LENGTH);
    octets[14..20].copy_from_slice(&INFORMATION.to_be_bytes()[2..]);
    BigEndian::write_i32(&mut octets[20..], rate.q());
    octets
}

impl FollowUp {
    ghost use Rattle.std.specs.Prelude.{◌≡◌, ◌≤◌, length, IfOk, IfErr};
    ghost use Rattle.gptp_messages.specs.Head.{head_of, message_length};
    ghost use Rattle.gptp_messages.specs.Timestamp.{stamp_of, HasStamp};
    ghost use Rattle.gptp_messages.specs.FollowUp.{follow_up_tlvs, ReadsRate, RefusesFollowUp};

    /// The Follow_Up in a frame whose header passed.
    pub(crate) fn read(frame: &[u8]) -> Result<FollowUp, Refused>
        requires least { 76 ≤ message_length frame.now }
        requires whole { message_length frame.now ≤ length frame.now }
        ensures head { IfOk result (λ m. m.head ≡ head_of frame.now) }
        ensures origin { IfOk result (λ m. (m.origin ≡ stamp_of frame.now) × HasStamp frame.now) }
        ensures rate { IfOk result (λ m. ReadsRate (follow_up_tlvs frame.now) m.rate) }
        ensures refused { IfErr result (RefusesFollowUp frame.now) }
    {
        let length = usize::from(u16_at(frame, 2));
        let rate = read_rate(&frame[44..length])?;
        Ok(FollowUp {
            head: Head::read(frame),
            origin: read_stamp(frame)?,
            rate,
        })
    }
}
