//! What a text is where memory for one more message is refused.

use crate::same::same;
use gptp_messages::{AnnounceBody, Head, Message, decode, encode, encode_announce};
use gptp_vector::{Identity, PortId, Trace};
use std::process::Abort;
use std::test::Fail;

/// An Announce all of whose fields are 0, with a path trace of no clock.
fn frame() -> [u8; 68] {
    let mut frame = [0; 68];
    frame[..8].copy_from_slice(&[0x1b, 0x12, 0x00, 0x44, 0x00, 0x00, 0x00, 0x08]);
    frame[65] = 0x08;
    frame
}

/// The text is 1, 2, 3 and so many times that Announce.
fn assert_announces(rt: &impl Abort, text: &[u8], count: usize) {
    same(rt, text.get(..3), Some([1, 2, 3].as_slice()));
    let announces = text.get(3..).unwrap_or_default();
    same(rt, announces.chunks(68).count(), count);
    for announce in announces.chunks(68) {
        same(rt, announce, frame().as_slice());
    }
}

#[test]
fn a_refused_allocation_leaves_the_text(rt: HostRuntime) -> Result<(), Fail> {
    let Ok(mut text) = [1, 2, 3].to_vec(rt.alloc()) else {
        println!(rt; "refused: to_vec")?;
        return Ok(());
    };
    let head = Head {
        source: PortId::default(),
        sequence: 0,
        correction: 0,
        log_interval: 0,
        two_step: false,
    };
    let body = AnnounceBody {
        utc_offset: 0,
        root: Identity::of_octets([0; 14]),
        steps: 0,
        time_source: 0,
    };
    let mut count = 0;
    match encode_announce(&head, &body, &Trace::empty(), &mut text) {
        Ok(()) => count += 1,
        Err(_) => println!(rt; "refused: encode_announce")?,
    }
    assert_announces(&rt, &text, count);

    let frame = frame();
    let message = decode(&frame)?;
    if let Message::Announce(announce) = &message {
        assert!(rt; announce.path.is_empty());
    }
    match encode(&message, &mut text) {
        Ok(()) => count += 1,
        Err(_) => println!(rt; "refused: encode")?,
    }
    assert_announces(&rt, &text, count);
    Ok(())
}
