//! Sync and Follow_Up read, refused and written.

use crate::frames::{lengthened, spoiled, written};
use crate::same::same_at;
use gptp_messages::{FollowUp, Head, Message, Refused, decode};
use gptp_samples::{FOLLOW_UP, SYNC, port};
use gptp_scaled::{Rate, Stamp};
use std::alloc::Global;
use std::process::Abort;
use std::test::Fail;

/// The fields of the Follow_Up, but for its rate.
fn with_rate(q: i32) -> Result<FollowUp, Fail> {
    Ok(FollowUp {
        head: Head {
            source: port(0x1112_1314_1516_1718, 0x2122),
            sequence: 0x3132,
            correction: 360_448_000,
            log_interval: -3,
            two_step: false,
        },
        origin: Stamp::new(0x4142_4344_4546, 0x1b2c_3d4e)?,
        rate: Rate::new(q),
    })
}

/// The Follow_Up that a frame reads as.
fn follow_up(rt: &impl Abort, frame: &[u8], what: &str) -> FollowUp {
    let Ok(Message::FollowUp(follow_up)) = decode(frame) else {
        panic!(rt; "no Follow_Up: {what}");
    };
    follow_up
}

#[test]
fn a_sync_is_read_and_written(rt: HostRuntime) -> Result<(), Fail> {
    // octet 6, whether it says two steps, and what is written in its place
    let cases = [(0x02, true, 0x02), (0xff, true, 0x02), (0xfd, false, 0x00)];
    for (flags, two_step, written_flags) in cases {
        let want = Head {
            source: port(1, 1),
            sequence: 0,
            correction: 0,
            log_interval: -3,
            two_step,
        };
        let frame = spoiled(&rt, rt.alloc(), &SYNC, 6, &[flags])?;
        let Ok(Message::Sync { head }) = decode(&frame) else {
            panic!(rt; "no Sync: {flags}");
        };
        same_at(&rt, &flags, &head, &want);

        let text = written(&rt, rt.alloc(), &Message::Sync { head: want })?;
        let octets = spoiled(&rt, rt.alloc(), &SYNC, 6, &[written_flags])?;
        same_at(&rt, &flags, text.as_slice(), octets.as_slice());
    }
    Ok(())
}

#[test]
fn a_follow_up_is_read_and_written(rt: HostRuntime) -> Result<(), Fail> {
    let cases = [
        ("faster", 0x0102_0304, [0x01, 0x02, 0x03, 0x04]),
        ("slower", -3, [0xff, 0xff, 0xff, 0xfd]),
        ("much slower", -65_538, [0xff, 0xfe, 0xff, 0xfe]),
        ("as fast", 0, [0x00, 0x00, 0x00, 0x00]),
        ("fastest", i32::MAX, [0x7f, 0xff, 0xff, 0xff]),
        ("slowest", i32::MIN, [0x80, 0x00, 0x00, 0x00]),
    ];
    for (what, q, octets) in cases {
        let frame = spoiled(&rt, rt.alloc(), &FOLLOW_UP, 54, &octets)?;
        same_at(&rt, &what, follow_up(&rt, &frame, what), with_rate(q)?);

        let text = written(&rt, rt.alloc(), &Message::FollowUp(with_rate(q)?))?;
        same_at(&rt, &what, text.as_slice(), frame.as_slice());
    }
    Ok(())
}

/// An information TLV's octets after the lengthField, but for the last.
const INFORMATION: &str = "0080c2000001010203040000000000000000000000000000000000";

/// The Follow_Up with those octets in its TLVs, begun and ended so, between others.
fn with_information(
    rt: &impl Abort,
    alloc: Global,
    (before, behind): (&str, &str),
    (begin, end): (&str, &str),
) -> Result<Vec<u8>, Fail> {
    let digits = format!(in alloc; "{before}{begin}{INFORMATION}{end}{behind}")?;
    let tlvs = hex::decode(alloc, digits.as_str())?;
    lengthened(rt, alloc, &FOLLOW_UP[..44], &tlvs)
}

#[test]
fn the_first_information_tlv_counts(rt: HostRuntime) -> Result<(), Fail> {
    // the TLVs before that of the Follow_Up, and those after it
    let cases = [
        ("no other TLV", "", ""),
        ("a TLV of another type", "00090003aabbcc", ""),
        ("a TLV without a value", "00090000", ""),
        ("a path trace of seven octets", "000800070000000000000a", ""),
        (
            "a TLV of another type with the octets of an information TLV",
            "010300060080c2000001",
            "",
        ),
        (
            "a TLV of another organization",
            "0003000a0080c3000001aabbccdd",
            "",
        ),
        (
            "a TLV of another subtype",
            "0003000a0080c2000002aabbccdd",
            "",
        ),
        (
            "a TLV of another subtype that ends alike",
            "0003000a0080c2010001aabbccdd",
            "",
        ),
        ("a TLV of five octets", "000300050080c20000", ""),
        ("a TLV of an organization without a value", "00030000", ""),
        ("two TLVs of an organization", "00030001aa000300020080", ""),
        ("a TLV of another type behind", "", "00080003aabbcc"),
        (
            "an information TLV of another rate behind",
            "",
            "0003001c0080c200000100000005000000000000000000000000000000000000",
        ),
        (
            "an information TLV of six octets behind",
            "",
            "000300060080c2000001",
        ),
        (
            "an information TLV of 29 octets behind",
            "0003000100",
            "0003001d0080c20000010000000500000000000000000000000000000000000000",
        ),
    ];
    for (what, before, behind) in cases {
        let frame = with_information(&rt, rt.alloc(), (before, behind), ("0003001c", "00"))?;
        same_at(
            &rt,
            &what,
            follow_up(&rt, &frame, what),
            with_rate(0x0102_0304)?,
        );
    }
    Ok(())
}

#[test]
fn a_follow_up_without_its_rate_is_refused(rt: HostRuntime) -> Result<(), Fail> {
    // what begins with those octets, and what ends them
    let cases = [
        ("the one TLV is a path trace", "0008001c", "00"),
        ("the one TLV is of a type that ends alike", "0103001c", "00"),
        ("27 octets", "0003001b", "0009000100"),
        ("29 octets", "0003001d", "0000"),
        ("six octets", "000300060080c20000010009001b", ""),
        (
            "27 octets before 28",
            "0003001b",
            "0003001c0080c200000100000005000000000000000000000000000000000000",
        ),
        ("past the end", "000900000003001c", ""),
        ("the longest TLV", "0003ffff", "00"),
        ("one octet left over", "0003001c", "0000"),
        ("three octets left over", "0003001c", "00000900"),
        ("another TLV past the end behind", "0003001c", "0000090001"),
        (
            "an information TLV past the end behind",
            "0003001c",
            "000003001c0080c2000001",
        ),
        ("another TLV past the end before", "000900210003001c", "00"),
        ("inside of another TLV", "000900200003001c", "00"),
    ];
    for (what, begin, end) in cases {
        let frame = with_information(&rt, rt.alloc(), ("", ""), (begin, end))?;
        same_at(&rt, &what, decode(&frame).err(), Some(Refused::Tlv));
    }
    Ok(())
}

#[test]
fn tlvs_are_tested_behind_the_lengths_and_before_the_timestamp(
    rt: HostRuntime,
) -> Result<(), Fail> {
    let alloc = rt.alloc();
    let without = lengthened(&rt, alloc, &FOLLOW_UP[..44], &[])?;
    // the path trace ends where the message does, the information TLV stands in the padding
    let mut padded = spoiled(&rt, alloc, &FOLLOW_UP, 44, &[0x00, 0x08])?;
    padded.extend_from_slice(&FOLLOW_UP[44..])?;
    // how the frame is refused, and how with a second of nanoseconds in its timestamp
    let cases = [
        ("all there", FOLLOW_UP.as_slice(), None, Refused::StampRange),
        (
            "44 octets",
            without.as_slice(),
            Some(Refused::LengthField),
            Refused::LengthField,
        ),
        (
            "the rate in the padding",
            padded.as_slice(),
            Some(Refused::Tlv),
            Refused::Tlv,
        ),
    ];
    for (what, frame, want, late_want) in cases {
        let late = spoiled(&rt, alloc, frame, 40, &[0x3b, 0x9a, 0xca, 0x00])?;
        same_at(&rt, &what, decode(frame).err(), want);
        same_at(&rt, &what, decode(&late).err(), Some(late_want));
    }
    Ok(())
}
