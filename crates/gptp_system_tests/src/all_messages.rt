//! What holds for every message: the tests of its header and its timestamp, what is ignored, and room.

use crate::frames::{lengthened, spoiled, written_again};
use crate::messages::with_clocks_below;
use crate::same::{same, same_at};
use gptp_messages::{Refused, decode};
use gptp_samples::{FIRST_ANNOUNCE, FOLLOW_UP, REQUEST, RESPONSE, RESPONSE_FOLLOW_UP, SYNC};
use std::alloc::{AllocError, Global};
use std::process::Abort;
use std::test::Fail;

#[test]
fn other_types_are_unknown(rt: HostRuntime) -> Result<(), Fail> {
    for first in [0x11, 0x14, 0x15, 0x16, 0x17, 0x19, 0x1c, 0x1d, 0x1e, 0x1f] {
        let frame = spoiled(&rt, rt.alloc(), &FIRST_ANNOUNCE, 0, &[first])?;
        same_at(
            &rt,
            &first,
            decode(&frame).err(),
            Some(Refused::UnknownType),
        );
    }
    Ok(())
}

/// A frame with other octets from a place on is refused so.
fn assert_refused(
    rt: &impl Abort,
    alloc: Global,
    frame: &[u8],
    place: usize,
    octets: &[u8],
    want: Refused,
) -> Result<(), AllocError> {
    let other = spoiled(rt, alloc, frame, place, octets)?;
    same_at(
        rt,
        &(octets, place, frame),
        decode(&other).err(),
        Some(want),
    );
    Ok(())
}

#[test]
fn each_test_of_the_header_refuses_each_message(rt: HostRuntime) -> Result<(), Fail> {
    // the message, its type, a messageLength below the least, one more than there are, all octets but one
    let messages: [(&[u8], u8, u8, u8, usize); 6] = [
        (&SYNC, 0x0, 43, 45, 43),
        (&REQUEST, 0x2, 53, 55, 53),
        (&RESPONSE, 0x3, 53, 55, 53),
        (&FOLLOW_UP, 0x8, 75, 77, 75),
        (&RESPONSE_FOLLOW_UP, 0xa, 53, 55, 53),
        (&FIRST_ANNOUNCE, 0xb, 63, 77, 75),
    ];
    for (frame, number, below, above, cut) in messages {
        for length in [0, 33, 34, cut] {
            let short = frame.get(..length).ok_or("a front of the frame")?;
            same_at(
                &rt,
                &(length, frame),
                decode(short).err(),
                Some(Refused::Short),
            );
        }
        let cases: [(usize, &[u8], Refused); 13] = [
            (0, &[number], Refused::NotGptp),
            (0, &[0x20 | number], Refused::NotGptp),
            (5, &[0x01], Refused::NotGptp),
            (1, &[0x11], Refused::Version),
            (1, &[0x13], Refused::Version),
            (2, &[0x00, below], Refused::LengthField),
            (2, &[0x00, 0x00], Refused::LengthField),
            (2, &[0x00, above], Refused::Short),
            (2, &[0xff, 0xff], Refused::Short),
            (4, &[0x01], Refused::Domain),
            (4, &[0xff], Refused::Domain),
            // messageLength and domainNumber
            (2, &[0x00, below, 0x01], Refused::LengthField),
            (2, &[0x00, above, 0x01], Refused::Short),
        ];
        for (place, octets, want) in cases {
            assert_refused(&rt, rt.alloc(), frame, place, octets, want)?;
        }
    }
    Ok(())
}

#[test]
fn a_timestamp_has_less_than_a_second_of_nanoseconds(rt: HostRuntime) -> Result<(), Fail> {
    for frame in [FOLLOW_UP.as_slice(), &RESPONSE, &RESPONSE_FOLLOW_UP] {
        let late = spoiled(&rt, rt.alloc(), frame, 34, &[0xff; 6])?;
        let most = spoiled(&rt, rt.alloc(), &late, 40, &[0x3b, 0x9a, 0xc9, 0xff])?;
        let mut text = Vec::new(rt.alloc());
        written_again(&rt, &most, &mut text)?;
        same(&rt, text.as_slice(), most.as_slice());

        for nanos in [[0x3b, 0x9a, 0xca, 0x00], [0xff; 4]] {
            assert_refused(&rt, rt.alloc(), frame, 40, &nanos, Refused::StampRange)?;
            let domain = spoiled(&rt, rt.alloc(), frame, 4, &[0x01])?;
            assert_refused(&rt, rt.alloc(), &domain, 40, &nanos, Refused::Domain)?;
        }
    }
    Ok(())
}

#[test]
fn what_has_no_meaning_may_be_anything_and_is_written_0(rt: HostRuntime) -> Result<(), Fail> {
    let alloc = rt.alloc();
    // the message, all its flags of octet 6 but twoStep, and where its body has octets without a meaning
    let messages: [(&[u8], u8, usize, &[u8]); 5] = [
        (&SYNC, 0xff, 34, &[0xff; 10]),
        (&REQUEST, 0xfd, 34, &[0xff; 20]),
        (&RESPONSE, 0xff, 54, &[]),
        (&FOLLOW_UP, 0xfd, 58, &[0xff; 18]),
        (&RESPONSE_FOLLOW_UP, 0xfd, 54, &[]),
    ];
    for (frame, flags, place, reserved) in messages {
        let mut given = spoiled(&rt, alloc, frame, place, reserved)?;
        // minorVersionPTP, flags, messageTypeSpecific, controlField
        let header: [(usize, &[u8]); 4] = [
            (1, &[0xf2]),
            (6, &[flags, 0xff]),
            (16, &[0xff; 4]),
            (32, &[0xff]),
        ];
        for (place, octets) in header {
            given = spoiled(&rt, alloc, &given, place, octets)?;
        }
        let mut text = Vec::new(alloc);
        written_again(&rt, &given, &mut text)?;
        same_at(&rt, &given, text.as_slice(), frame);
    }
    Ok(())
}

#[test]
fn what_stands_behind_is_ignored(rt: HostRuntime) -> Result<(), Fail> {
    let alloc = rt.alloc();
    for frame in [SYNC.as_slice(), &REQUEST, &RESPONSE, &RESPONSE_FOLLOW_UP] {
        let longer = lengthened(&rt, alloc, frame, &[0xff; 6])?;
        let mut text = Vec::new(alloc);
        written_again(&rt, &longer, &mut text)?;
        same_at(&rt, &"counted in messageLength", text.as_slice(), frame);
    }
    for frame in [
        SYNC.as_slice(),
        &REQUEST,
        &RESPONSE,
        &FOLLOW_UP,
        &RESPONSE_FOLLOW_UP,
        &FIRST_ANNOUNCE,
    ] {
        let mut padded = frame.to_vec(alloc)?;
        padded.extend_from_slice(&[0xff; 6])?;
        let mut text = Vec::new(alloc);
        written_again(&rt, &padded, &mut text)?;
        same_at(&rt, &"padding", text.as_slice(), frame);
    }
    Ok(())
}

#[test]
fn a_message_is_written_where_there_is_room(rt: HostRuntime) -> Result<(), Fail> {
    let alloc = rt.alloc();
    let empty = with_clocks_below(&rt, alloc, 0)?;
    let full = with_clocks_below(&rt, alloc, 256)?;
    // the message, and its octets
    let messages: [(&[u8], usize); 7] = [
        (&SYNC, 44),
        (&REQUEST, 54),
        (&RESPONSE, 54),
        (&FOLLOW_UP, 76),
        (&RESPONSE_FOLLOW_UP, 54),
        (&empty, 68),
        (&full, 2_116),
    ];
    for (frame, length) in messages {
        let mut text = Vec::new(alloc);
        same_at(&rt, &length, written_again(&rt, frame, &mut text), Ok(()));
        same_at(&rt, &length, text.as_slice(), frame);

        let mut text = Vec::with_capacity(alloc, length)?;
        same_at(
            &rt,
            &("room for", length),
            written_again(&rt, frame, &mut text),
            Ok(()),
        );
        same_at(&rt, &("room for", length), text.as_slice(), frame);
        same_at(&rt, &("room for", length), text.capacity(), length);
    }
    Ok(())
}
