//! Timestamps in a frame.

ghost use Rattle.std.specs.Prelude.{◌≡◌, ◌≤◌, length, IfOk, IfErr};
ghost use Rattle.gptp_messages.specs.Timestamp.{stamp_of, HasStamp, written_stamp};

use crate::frame::{u32_at, u48_at};
use crate::refused::Refused;
use byteorder::{BigEndian, ByteOrder};
use gptp_scaled::Stamp;

/// The timestamp after a header.
pub(crate) fn read_stamp(frame: &[u8]) -> Result<Stamp, Refused>
    requires { 44 ≤ length frame.now }
    ensures read { IfOk result (λ stamp. (stamp ≡ stamp_of frame.now) × HasStamp frame.now) }
    ensures refused { IfErr result (λ e. (e ≡ Refused.StampRange) × (HasStamp frame.now → ⊥)) }
{
    match Stamp::new(u48_at(frame, 34), u32_at(frame, 40)) {
        Ok(stamp) => Ok(stamp),
        Err(_) => Err(Refused::StampRange),
    }
}

/// The octets of a timestamp.
pub(crate) fn stamp_octets(stamp: Stamp) -> [u8; 10]
    ensures { result ≡ written_stamp stamp }
{
    let mut octets = [0; 10];
    octets[..6].copy_from_slice(&stamp.seconds().to_be_bytes()[2..]);
    BigEndian::write_u32(&mut octets[6..], stamp.nanos());
    octets
}
