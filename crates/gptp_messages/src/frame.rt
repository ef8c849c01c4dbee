//! Numbers in a frame: unsigned and most significant octet first.

ghost use Rattle.std.specs.Prelude.{◌≡◌, ◌+◌, ◌≤◌, ◌<◌, ◌^◌, ◌++◌, length, vec_len, vec_capacity};
ghost use Rattle.gptp_messages.specs.Frame.{field, port_at, written_port};

use byteorder::{BigEndian, ByteOrder};
use gptp_vector::{ClockId, Identity, PortId};

/// The number in two octets.
#[tactic(auto, unfolding(crate::specs::Frame::field))]
pub(crate) fn u16_at(frame: &[u8], at: usize) -> u16
    requires { at + 2 ≤ length frame.now }
    ensures { result ≡ field 2 at frame.now }
{
    BigEndian::read_u16(&frame[at..])
}

/// The number in four octets.
#[tactic(auto, unfolding(crate::specs::Frame::field))]
pub(crate) fn u32_at(frame: &[u8], at: usize) -> u32
    requires { at + 4 ≤ length frame.now }
    ensures { result ≡ field 4 at frame.now }
{
    BigEndian::read_u32(&frame[at..])
}

/// The number in six octets.
#[tactic(auto, unfolding(crate::specs::Frame::field))]
pub(crate) fn u48_at(frame: &[u8], at: usize) -> u64
    requires { at + 6 ≤ length frame.now }
    ensures number { result ≡ field 6 at frame.now }
    ensures fits { result < 2 ^ 48 }
{
    BigEndian::read_u48(&frame[at..])
}

/// The number in eight octets.
#[tactic(auto, unfolding(crate::specs::Frame::field))]
pub(crate) fn u64_at(frame: &[u8], at: usize) -> u64
    requires { at + 8 ≤ length frame.now }
    ensures { result ≡ field 8 at frame.now }
{
    BigEndian::read_u64(&frame[at..])
}

/// The clockIdentity in eight octets.
pub(crate) fn clock_at(frame: &[u8], at: usize) -> ClockId
    requires { at + 8 ≤ length frame.now }
    ensures { result ≡ field 8 at frame.now }
{
    ClockId::from(u64_at(frame, at))
}

/// The portIdentity in ten octets.
pub(crate) fn port_at(frame: &[u8], at: usize) -> PortId
    requires { at + 10 ≤ length frame.now }
    ensures { result ≡ port_at at frame.now }
{
    PortId {
        clock: clock_at(frame, at),
        port: u16_at(frame, at + 8),
    }
}

/// The octets of a portIdentity.
pub(crate) fn port_octets(port: PortId) -> [u8; 10]
    ensures { result ≡ written_port port }
{
    let mut octets = [0; 10];
    octets[..8].copy_from_slice(&port.clock.octets());
    BigEndian::write_u16(&mut octets[8..], port.port);
    octets
}

/// The system identity in fourteen octets.
#[tactic(auto, unfolding(crate::specs::Frame::field))]
pub(crate) fn identity_at(frame: &[u8], at: usize) -> Identity
    requires { at + 14 ≤ length frame.now }
    ensures { result ≡ field 14 at frame.now }
{
    let mut octets = [0; 14];
    octets.copy_from_slice(&frame[at..at + 14]);
    Identity::of_octets(octets)
}

/// Appends octets for which there is room.
pub(crate) fn put(out: &mut Vec<u8>, octets: &[u8])
    requires { vec_len out.old + length octets.now ≤ vec_capacity out.old }
    ensures items { out.new.items ≡ out.old.items ++ octets.now }
    ensures len { vec_len out.new ≡ vec_len out.old + length octets.now }
    ensures capacity { vec_capacity out.old ≤ vec_capacity out.new }
{
    let _ = out.extend_from_slice(octets);
}
