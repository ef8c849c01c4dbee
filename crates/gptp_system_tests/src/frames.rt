//! Frames with other octets, and what they are written as again.

use gptp_messages::{AnnounceView, Message, decode, encode};
use std::alloc::{AllocError, Global};
use std::process::Abort;
use std::test::Fail;

/// A frame with other octets from a place on.
pub fn spoiled(
    rt: &impl Abort,
    alloc: Global,
    frame: &[u8],
    place: usize,
    octets: &[u8],
) -> Result<Vec<u8>, AllocError> {
    let mut frame = frame.to_vec(alloc)?;
    assert!(rt;
        place <= frame.len() && octets.len() <= frame.len() - place,
        "at {place}"
    );
    frame[place..place + octets.len()].copy_from_slice(octets);
    Ok(frame)
}

/// The front of a message with these octets after it, and a messageLength that counts them in.
pub fn lengthened(
    rt: &impl Abort,
    alloc: Global,
    front: &[u8],
    behind: &[u8],
) -> Result<Vec<u8>, Fail> {
    let mut frame = front.to_vec(alloc)?;
    frame.extend_from_slice(behind)?;
    let length = u16::try_from(frame.len())?;
    Ok(spoiled(rt, alloc, &frame, 2, &length.to_be_bytes())?)
}

/// Appends the message that a frame reads as.
pub fn written_again(rt: &impl Abort, frame: &[u8], text: &mut Vec<u8>) -> Result<(), AllocError> {
    let Ok(message) = decode(frame) else {
        panic!(rt; "no message");
    };
    if let Message::Announce(announce) = &message {
        assert!(rt; announce.path.len() <= 256);
    }
    encode(&message, text)
}

/// The octets that a message is written as.
pub fn written(
    rt: &impl Abort,
    alloc: Global,
    message: &Message<'_>,
) -> Result<Vec<u8>, AllocError> {
    if let Message::Announce(announce) = message {
        assert!(rt; announce.path.len() <= 256);
    }
    let mut text = Vec::new(alloc);
    encode(message, &mut text)?;
    Ok(text)
}

/// The Announce that a frame reads as.
pub fn read<'a>(rt: &impl Abort, frame: &'a [u8]) -> AnnounceView<'a> {
    let Ok(Message::Announce(announce)) = decode(frame) else {
        panic!(rt; "no Announce");
    };
    announce
}
