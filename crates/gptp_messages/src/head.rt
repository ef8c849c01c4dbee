//! The common header of every message.

ghost use Rattle.std.specs.Prelude.{◌≡◌, ◌+◌, ◌≤◌, ◌<◌, ◌++◌, length, vec_len, vec_capacity, OnOk, OnErr};
ghost use Rattle.gptp_messages.specs.Head.{written_message};

use crate::frame::{port_at, port_octets, put, u16_at, u64_at};
use crate::message_type::MessageType;
use byteorder::{BigEndian, ByteOrder};
use gptp_vector::PortId;
use std::alloc::AllocError;

/// What the common header of a message says (IEEE 1588-2019, 13.3; IEEE 802.1AS-2020, 10.6.2 and
/// 11.4.2), but for what is the same in all messages of one type.
#[derive(Clone, Copy, Debug, PartialEq, Eq, Default)]
pub struct Head {
    /// The sourcePortIdentity.
    pub source: PortId,
    /// The sequenceId.
    pub sequence: u16,
    /// The correctionField, in units of 2^-16 ns.
    pub correction: i64,
    /// The logMessageInterval: the interval of the sender is 2 to this power, in seconds.
    pub log_interval: i8,
    /// The twoStepFlag.
    pub two_step: bool,
}

/// The octets of a common header.
pub(crate) const HEADER_LENGTH: usize = 34;

impl Head {
    ghost use Rattle.gptp_messages.specs.Head.{head_of, written_head};
    ghost use Rattle.gptp_messages.specs.declared.head.TheConstants.{HEADER_LENGTH};

    /// The header at the front of a frame.
    pub(crate) fn read(frame: &[u8]) -> Head
        requires { HEADER_LENGTH ≤ length frame.now }
        ensures { result ≡ head_of frame.now }
    {
        Head {
            source: port_at(frame, 20),
            sequence: u16_at(frame, 30),
            correction: u64_at(frame, 8).cast_signed(),
            log_interval: frame[33].cast_signed(),
            two_step: frame[6] / 2 % 2 == 1,
        }
    }

    /// The octets of the header of a message of this type and length.
    pub(crate) fn octets(&self, message_type: MessageType, length: u16) -> [u8; HEADER_LENGTH]
        ensures { result ≡ written_head message_type length self.now }
    {
        let mut octets = [0; HEADER_LENGTH];
        octets[0] = 0x10 + message_type as u8;
        octets[1] = 0x12;
        BigEndian::write_u16(&mut octets[2..], length);
        if self.two_step {
            octets[6] = 0x02;
        }
        octets[7] = 0x08;
        BigEndian::write_i64(&mut octets[8..], self.correction);
        octets[20..30].copy_from_slice(&port_octets(self.source));
        BigEndian::write_u16(&mut octets[30..], self.sequence);
        octets[33] = self.log_interval.cast_unsigned();
        octets
    }
}

/// Appends a message: its header, and the octets after it. Without memory nothing is appended.
#[inline(always)]
pub(crate) fn put_message(
    head: &Head,
    message_type: MessageType,
    behind: &[u8],
    out: &mut Vec<u8>,
) -> Result<(), AllocError>
    requires { length behind.now < 65000 }
    ensures ok { OnOk result (out.new.items ≡ out.old.items ++ written_message message_type head.now behind.now) }
    ensures err { OnErr result (out.new.items ≡ out.old.items) }
    ensures full { OnErr result (vec_capacity out.old < vec_len out.old + (34 + length behind.now)) }
{
    let length = HEADER_LENGTH + behind.len();
    out.reserve(length)?;
    put(out, &head.octets(message_type, length as u16));
    put(out, behind);
    Ok(())
}
