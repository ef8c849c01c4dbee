//! The Announce message.

ghost use Rattle.std.specs.Prelude.{◌≡◌, ◌+◌, ◌*◌, ◌≤◌, ◌<◌, ◌++◌, ◌∷◌, [], ℕ, List, length, vec_len, vec_capacity, IfOk, IfErr, OnOk, OnErr};
ghost use Rattle.gptp_messages.specs.Announce.{announce_front, written_announce};
ghost use Rattle.gptp_messages.specs.Head.{message_length, written_message};
ghost use Rattle.gptp_messages.specs.declared.message_type.MessageType.TheVariants.{Announce};
ghost use Rattle.gptp_messages.specs.Path.{path_octets};

use crate::frame::{identity_at, put, u16_at};
use crate::head::Head;
use crate::message_type::MessageType;
use crate::path::PathView;
use crate::refused::Refused;
use crate::tlv::{PATH_TRACE, TlvKind, first_tlv};
use byteorder::{BigEndian, ByteOrder};
use gptp_vector::{ClockId, Identity, Trace};
use std::alloc::AllocError;

/// What an Announce says of the grandmaster and the way to it (IEEE 1588-2019, 13.5; IEEE
/// 802.1AS-2020, 10.6.3).
#[derive(Clone, Copy, Debug, PartialEq, Eq)]
pub struct AnnounceBody {
    /// currentUtcOffset, in seconds. No rule reads it.
    pub utc_offset: i16,
    /// The system identity of the grandmaster: grandmasterPriority1, grandmasterClockQuality,
    /// grandmasterPriority2 and grandmasterIdentity.
    pub root: Identity,
    /// stepsRemoved: how many links lie between the sender and the grandmaster.
    pub steps: u16,
    /// timeSource. No rule reads it.
    pub time_source: u8,
}

/// An Announce as it stands in a frame.
#[derive(Debug, Drop)]
pub struct AnnounceView<'a> {
    /// The common header.
    pub head: Head,
    /// The fixed part after the header.
    pub body: AnnounceBody,
    /// The path trace, lent out of the frame. Without a path trace TLV it is empty.
    pub path: PathView<'a>,
}

/// The octets of an Announce up to its TLVs.
const FIXED_LENGTH: usize = 64;

impl AnnounceBody {
    ghost use Rattle.gptp_messages.specs.Announce.{announce_body_of, written_body};

    /// The fixed part after the header of a frame.
    fn read(frame: &[u8]) -> AnnounceBody
        requires { 64 ≤ length frame.now }
        ensures { result ≡ announce_body_of frame.now }
    {
        AnnounceBody {
            utc_offset: u16_at(frame, 44).cast_signed(),
            root: identity_at(frame, 47),
            steps: u16_at(frame, 61),
            time_source: frame[63],
        }
    }

    /// The octets of the fixed part.
    fn octets(&self) -> [u8; 30]
        ensures { result ≡ written_body self.now }
    {
        let mut octets = [0; 30];
        BigEndian::write_i16(&mut octets[10..], self.utc_offset);
        octets[13..27].copy_from_slice(&self.root.octets());
        BigEndian::write_u16(&mut octets[27..], self.steps);
        octets[29] = self.time_source;
        octets
    }
}

impl<'a> PathView<'a> {
    ghost use Rattle.std.specs.Prelude.{◌≡◌, ℕ, List, IfOk, IfErr};
    ghost use Rattle.gptp_messages.specs.Announce.{ReadsPath};

    /// The path trace among the TLVs of an Announce.
    fn read(octets: &'a [u8]) -> Result<PathView<'a>, Refused>
        ensures read { IfOk result (λ path. ReadsPath octets.now path) }
        ensures refused { IfErr result (λ e. (e ≡ Refused.Tlv) × ((path : List ℕ) → ReadsPath octets.now path → ⊥)) }
    {
        match first_tlv(octets, TlvKind::PathTrace)? {
            None => Ok(PathView::empty()),
            Some(value) if value.len() % 8 == 0 => Ok(PathView::of_octets(value)),
            Some(_) => Err(Refused::Tlv),
        }
    }
}

impl<'a> AnnounceView<'a> {
    ghost use Rattle.gptp_messages.specs.Head.{head_of};
    ghost use Rattle.gptp_messages.specs.Announce.{announce_body_of, announce_tlvs, ReadsPath};

    /// The Announce in a frame whose header passed.
    pub(crate) fn read(frame: &'a [u8]) -> Result<AnnounceView<'a>, Refused>
        requires least { 64 ≤ message_length frame.now }
        requires whole { message_length frame.now ≤ length frame.now }
        ensures head { IfOk result (λ a. a.head ≡ head_of frame.now) }
        ensures body { IfOk result (λ a. a.body ≡ announce_body_of frame.now) }
        ensures path { IfOk result (λ a. ReadsPath (announce_tlvs frame.now) a.path) }
        ensures refused { IfErr result
            (λ e. (e ≡ Refused.Tlv) × ((path : List ℕ) → ReadsPath (announce_tlvs frame.now) path → ⊥)) }
    {
        let length = usize::from(u16_at(frame, 2));
        Ok(AnnounceView {
            head: Head::read(frame),
            body: AnnounceBody::read(frame),
            path: PathView::read(&frame[FIXED_LENGTH..length])?,
        })
    }
}

/// Makes room for an Announce, and appends all of it but the clocks of its path, of which there are
/// `count`. Without memory nothing is appended.
fn put_front(
    head: &Head,
    body: &AnnounceBody,
    count: usize,
    out: &mut Vec<u8>,
) -> Result<(), AllocError>
    requires { count ≤ 256 }
    ensures ok { OnOk result (out.new.items ≡ out.old.items ++ announce_front head.now body.now count) }
    ensures room { OnOk result (vec_len out.new + 8 * count ≤ vec_capacity out.new) }
    ensures err { OnErr result (out.new.items ≡ out.old.items) }
    ensures full { OnErr result (vec_capacity out.old < vec_len out.old + (68 + 8 * count)) }
{
    let length = 8 * count as u16;
    out.reserve(68 + usize::from(length))?;
    put(out, &head.octets(MessageType::Announce, 68 + length));
    put(out, &body.octets());
    put(out, &PATH_TRACE.to_be_bytes());
    put(out, &length.to_be_bytes());
    Ok(())
}

/// Appends one Announce with a path trace, as the one spelling that its fields have (IEEE 1588-2019,
/// 13.3, 13.5 and 16.2), 68 octets and 8 for each clock. Refused for want of memory alone, and only where the
/// capacity doesn't suffice; nothing is appended then.
pub fn encode_announce(
    head: &Head,
    body: &AnnounceBody,
    path: &Trace,
    out: &mut Vec<u8>,
) -> Result<(), AllocError>
    ensures ok { OnOk result (out.new.items ≡ out.old.items
        ++ written_message Announce head.now (written_announce body.now path.now)) }
    ensures err { OnErr result (out.new.items ≡ out.old.items) }
    ensures full { OnErr result (vec_capacity out.old < vec_len out.old + (68 + 8 * length path.now)) }
{
    put_front(head, body, path.len(), out)?;
    put_clocks(path.as_slice(), out);
    Ok(())
}

/// Appends one Announce, as [`encode_announce`] does, whose path is these clocks, at most 255, and one more after them:
/// that of the sender, as a system announces what it received (IEEE 802.1AS-2020, 10.3.9.23). No clock is copied but
/// into the octets.
pub fn encode_announce_behind(
    head: &Head,
    body: &AnnounceBody,
    path: &[ClockId],
    last: ClockId,
    out: &mut Vec<u8>,
) -> Result<(), AllocError>
    requires { length path.now ≤ 255 }
    ensures ok { OnOk result (out.new.items ≡ out.old.items
        ++ written_message Announce head.now (written_announce body.now (path.now ++ last ∷ []))) }
    ensures err { OnErr result (out.new.items ≡ out.old.items) }
    ensures full { OnErr result (vec_capacity out.old < vec_len out.old + (76 + 8 * length path.now)) }
{
    put_front(head, body, path.len() + 1, out)?;
    put_clocks(path, out);
    put_clocks(&[last], out);
    Ok(())
}

/// Appends the clocks of a path, for which there is room.
fn put_clocks(clocks: &[ClockId], out: &mut Vec<u8>)
    requires { vec_len out.old + 8 * length clocks.now ≤ vec_capacity out.old }
    ensures octets { out.new.items ≡ out.old.items ++ path_octets clocks.now }
    ensures capacity { vec_capacity out.old ≤ vec_capacity out.new }
{
    let start = out.len();
    let _ = out.resize(start + 8 * clocks.len(), 0);
    write_clocks(clocks, &mut out[start..]);
}

/// Writes the clocks of a path over octets, of which there are eight for each.
fn write_clocks(clocks: &[ClockId], octets: &mut [u8])
    requires { length octets.old ≡ 8 * length clocks.now }
    ensures { octets.new ≡ path_octets clocks.now }
{
    for place in 0..clocks.len() {
        octets[8 * place..8 * place + 8].copy_from_slice(&clocks[place].octets());
    }
}

impl AnnounceView<'_> {
    ghost use Rattle.gptp_messages.specs.Announce.{written_announce};
    ghost use Rattle.gptp_messages.specs.Head.{written_message};
    ghost use Rattle.gptp_messages.specs.declared.message_type.MessageType.TheVariants.{Announce};

    /// Appends the Announce in its one spelling.
    pub(crate) fn encode(&self, out: &mut Vec<u8>) -> Result<(), AllocError>
        requires { length self.now.path ≤ 256 }
        ensures ok { OnOk result (out.new.items ≡ out.old.items
            ++ written_message Announce self.now.head (written_announce self.now.body self.now.path)) }
        ensures err { OnErr result (out.new.items ≡ out.old.items) }
        ensures full { OnErr result (vec_capacity out.old < vec_len out.old + (68 + 8 * length self.now.path)) }
    {
        put_front(&self.head, &self.body, self.path.len(), out)?;
        put(out, self.path.octets());
        Ok(())
    }
}
