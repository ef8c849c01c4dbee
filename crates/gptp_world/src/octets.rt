//! What a link carries of what is sent.

ghost use Rattle.std.specs.Prelude.{◌≡◌, ◌<◌, ◌≤◌, ◌+◌, ◌++◌, ◌∷◌, [], length, vec_capacity};
ghost use Rattle.gptp_messages.specs.Grammar.{Written};
ghost use Rattle.gptp_model.specs.Sends.{written};
ghost use Rattle.gptp_system.specs.Reacts.{IsAnnounce};
ghost use Rattle.gptp_system.specs.Sends.{sent_message};

use crate::buffers::Buffers;
use gptp_messages::{AnnounceBody, Head, encode_announce_behind};
use gptp_model::Carried;
use gptp_system::{Body, Sending, Sent, System};
use gptp_vector::ClockId;

/// Writes an Announce whose path is these clocks and one after them into an empty buffer that has room for each
/// message.
fn write_path(head: &Head, body: &AnnounceBody, path: &[ClockId], last: ClockId, out: &mut Vec<u8>)
    requires few { length path.now ≤ 255 }
    requires empty { out.old.items ≡ [] }
    requires room { 2_116 ≤ vec_capacity out.old }
    ensures { out.new.items ≡ Written (sent_message (path.now ++ last ∷ []) head.now (Body.Announce body.now)) }
{
    let _ = encode_announce_behind(head, body, path, last, out);
}

/// Writes an Announce that a system sends into an empty buffer that has room for it, with the trace of the system
/// (IEEE 802.1AS-2020, 10.3.9.23).
fn write_announce(system: &System, send: &Sending, out: &mut Vec<u8>)
    requires announce { IsAnnounce send.now.body }
    requires empty { out.old.items ≡ [] }
    requires room { 2_116 ≤ vec_capacity out.old }
    ensures { out.new.items ≡ written system.now send.now }
{
    if let Body::Announce(body) = send.body {
        let (path, clock) = system.trace_parts();
        write_path(&send.head, &body, path, clock, out);
    }
}

/// Writes octets into an empty buffer that has room for them.
pub(crate) fn write_octets(octets: &[u8], out: &mut Vec<u8>)
    requires empty { out.old.items ≡ [] }
    requires room { length octets.now ≤ vec_capacity out.old }
    ensures { out.new.items ≡ octets.now }
{
    let _ = out.extend_from_slice(octets);
}

/// What a link carries of a send: the octets of an Announce, in a buffer of which one stands ready, and any other
/// message as it was sent.
pub(crate) fn carried(system: &System, send: &Sending, buffers: &mut Buffers) -> Carried
    requires { 0 < buffers.old.ready }
    ensures is { result.items ≡ written system.now send.now }
    ensures ready { buffers.old.ready ≤ buffers.new.ready + 1 }
{
    match Sent::of(send) {
        Some(sent) => Carried::of_sent(sent),
        None => {
            let mut octets = buffers.take();
            write_announce(system, send, &mut octets);
            Carried::of_octets(octets)
        }
    }
}
