//! Announce messages read, refused and written.

use crate::frames::{lengthened, read, spoiled, written_again};
use crate::same::{same, same_at};
use gptp_messages::{
    AnnounceBody, Head, PathView, Refused, decode, encode_announce, what_is_written_reads_back,
};
use gptp_samples::{FIRST_ANNOUNCE, body, frame, head, identity, port, trace};
use gptp_vector::{ClockId, Full, Identity, Trace};
use std::alloc::Global;
use std::process::Abort;
use std::test::Fail;

/// An Announce in which no two fields are alike, and all that is ignored is 1.
const DISTINCT: [u8; 76] = [
    0x1b, 0xf2, 0x00, 0x4c, 0x00, 0x00, 0xfd, 0xff, // minorVersionPTP, all flags but twoStep
    0xff, 0xff, 0xff, 0xff, 0xff, 0xfe, 0x80, 0x00, // correctionField
    0xff, 0xff, 0xff, 0xff, // messageTypeSpecific
    0x11, 0x12, 0x13, 0x14, 0x15, 0x16, 0x17, 0x18, 0x21, 0x22, // sourcePortIdentity
    0x31, 0x32, 0xff, 0x80, // sequenceId, controlField, logMessageInterval
    0xff, 0xff, 0xff, 0xff, 0xff, 0xff, 0xff, 0xff, 0xff, 0xff, // reserved
    0xff, 0xdb, 0xff, // currentUtcOffset, reserved
    0x41, 0x42, 0x43, 0x44, 0x45, 0x46, // priority1, clock quality, priority2
    0x51, 0x52, 0x53, 0x54, 0x55, 0x56, 0x57, 0x58, // grandmasterIdentity
    0x61, 0x62, 0x63, // stepsRemoved, timeSource
    0x00, 0x08, 0x00, 0x08, 0x71, 0x72, 0x73, 0x74, 0x75, 0x76, 0x77, 0x78, // path trace
];

/// The first Announce with these octets as its TLVs.
fn with_tlvs(rt: &impl Abort, alloc: Global, tlvs: &[u8]) -> Result<Vec<u8>, Fail> {
    lengthened(rt, alloc, &FIRST_ANNOUNCE[..64], tlvs)
}

/// The path has these clocks and no other.
fn assert_path(rt: &impl Abort, path: &PathView<'_>, want: &[u64], what: &str) {
    same_at(rt, &what, path.len(), want.len());
    same_at(rt, &what, path.is_empty(), want.is_empty());
    for (place, clock) in want.iter().enumerate() {
        let clock = ClockId::from(*clock);
        same_at(rt, &(what, place), path.get(place), Some(clock));
        assert!(rt; path.holds(clock), "{what}, at {place}");
    }
    same_at(rt, &what, path.get(want.len()), None);
    same_at(rt, &what, path.get(usize::MAX), None);
    assert!(rt; !path.holds(ClockId::from(999)), "{what}");
}

#[test]
fn the_first_announce_reads_as_its_fields(rt: HostRuntime) {
    let announce = read(&rt, &FIRST_ANNOUNCE);
    same(&rt, announce.head, head(port(1, 1)));
    same(&rt, announce.head.log_interval, 0);
    same(&rt, announce.body, body(identity(246, 1), 0));
    same(
        &rt,
        &announce.body.root.octets()[..],
        &FIRST_ANNOUNCE[47..61],
    );
    assert_path(&rt, &announce.path, &[1], "the path");
}

#[test]
fn each_field_stands_at_its_place(rt: HostRuntime) -> Result<(), Fail> {
    let announce = read(&rt, &DISTINCT);
    let want_head = Head {
        source: port(0x1112_1314_1516_1718, 0x2122),
        sequence: 0x3132,
        correction: -98_304,
        log_interval: -128,
        two_step: false,
    };
    same(&rt, announce.head, want_head);
    let root = [
        0x41, 0x42, 0x43, 0x44, 0x45, 0x46, 0x51, 0x52, 0x53, 0x54, 0x55, 0x56, 0x57, 0x58,
    ];
    let want_body = AnnounceBody {
        utc_offset: -37,
        root: Identity::of_octets(root),
        steps: 0x6162,
        time_source: 0x63,
    };
    same(&rt, announce.body, want_body);
    assert_path(&rt, &announce.path, &[0x7172_7374_7576_7778], "the path");

    let two_step = spoiled(&rt, rt.alloc(), &DISTINCT, 6, &[0x02])?;
    assert!(rt; read(&rt, &two_step).head.two_step);
    Ok(())
}

#[test]
fn octets_behind_the_message_are_ignored(rt: HostRuntime) -> Result<(), Fail> {
    let mut padded = FIRST_ANNOUNCE.to_vec(rt.alloc())?;
    padded.extend_from_slice(&[0xaa; 4])?;
    let announce = read(&rt, &padded);
    same(&rt, announce.head, head(port(1, 1)));
    same(&rt, announce.body, body(identity(246, 1), 0));
    assert_path(&rt, &announce.path, &[1], "padded");

    let cut = spoiled(&rt, rt.alloc(), &FIRST_ANNOUNCE, 2, &[0x00, 0x40])?;
    assert_path(
        &rt,
        &read(&rt, &cut).path,
        &[],
        "the message ends before the path trace",
    );
    Ok(())
}

#[test]
fn a_frame_is_refused_by_the_first_test_that_fails(rt: HostRuntime) -> Result<(), Fail> {
    // a place, what stands there, the octets in all
    let cases: [(usize, &[u8], usize, Refused); 24] = [
        (0, &[0x1b], 0, Refused::Short),
        (0, &[0x1b], 33, Refused::Short),
        (0, &[0x1b], 34, Refused::Short),
        (0, &[0x1b], 75, Refused::Short),
        (2, &[0x00, 0x4d], 76, Refused::Short),
        (2, &[0xff, 0xff], 76, Refused::Short),
        (0, &[0x0b], 76, Refused::NotGptp),
        (0, &[0x2b], 76, Refused::NotGptp),
        (5, &[0x01], 76, Refused::NotGptp),
        (1, &[0x11], 76, Refused::Version),
        (1, &[0x10], 76, Refused::Version),
        (0, &[0x1c], 76, Refused::UnknownType),
        (0, &[0x11], 76, Refused::UnknownType),
        (2, &[0x00, 0x3f], 76, Refused::LengthField),
        (2, &[0x00, 0x00], 76, Refused::LengthField),
        (4, &[0x01], 76, Refused::Domain),
        (66, &[0x00, 0x09], 76, Refused::Tlv),
        // two tests fail
        (0, &[0x0b, 0x11], 33, Refused::Short),
        (0, &[0x0b, 0x11], 76, Refused::NotGptp),
        (0, &[0x1c, 0x11], 76, Refused::Version),
        (0, &[0x1c, 0x12, 0x00, 0x3f], 76, Refused::UnknownType),
        (2, &[0x00, 0x3f, 0x01], 50, Refused::LengthField),
        (2, &[0x00, 0x4d, 0x01], 76, Refused::Short),
        (2, &[0x00, 0x4b, 0x01], 76, Refused::Domain),
    ];
    for (place, octets, length, want) in cases {
        let frame = spoiled(&rt, rt.alloc(), &FIRST_ANNOUNCE, place, octets)?;
        let given = frame.get(..length).ok_or("at most 76 octets")?;
        same_at(
            &rt,
            &(octets, place, length),
            decode(given).err(),
            Some(want),
        );
    }
    Ok(())
}

#[test]
fn the_first_path_trace_among_the_tlvs_counts(rt: HostRuntime) -> Result<(), Fail> {
    let cases: [(&str, &str, &[u64]); 11] = [
        ("no TLV", "", &[]),
        ("a path trace of no clock", "00080000", &[]),
        (
            "a path trace of one clock",
            "000800080000000000000001",
            &[1],
        ),
        (
            "a path trace of two clocks",
            "0008001000000000000000070000000000000003",
            &[7, 3],
        ),
        (
            "two path traces",
            "000800080000000000000001000800080000000000000002",
            &[1],
        ),
        (
            "a path trace before one of three octets",
            "00080008000000000000000100080003aabbcc",
            &[1],
        ),
        (
            "another TLV before the path trace",
            "00030002aabb000800080000000000000001",
            &[1],
        ),
        (
            "another TLV without a value before the path trace",
            "00090000000800080000000000000001",
            &[1],
        ),
        (
            "another TLV behind the path trace",
            "00080008000000000000000100030002aabb",
            &[1],
        ),
        ("another TLV alone", "00030003aabbcc", &[]),
        (
            "a TLV whose type ends like that of a path trace",
            "010800080000000000000001",
            &[],
        ),
    ];
    for (what, tlvs, want) in cases {
        let tlvs = hex::decode(rt.alloc(), tlvs)?;
        let frame = with_tlvs(&rt, rt.alloc(), &tlvs)?;
        assert_path(&rt, &read(&rt, &frame).path, want, what);
    }
    Ok(())
}

#[test]
fn octets_that_are_no_tlvs_are_refused(rt: HostRuntime) -> Result<(), Fail> {
    let cases = [
        ("a path trace past the end", "000800090000000000000001"),
        ("another TLV past the end", "00030001"),
        ("the longest TLV", "0003ffffaabb"),
        (
            "a TLV past the end behind a path trace",
            "00080008000000000000000100030003aabb",
        ),
        ("one octet left over", "00"),
        (
            "three octets left over behind a path trace",
            "000800080000000000000001000800",
        ),
        ("a path trace of seven octets", "0008000700000000000000"),
        ("a path trace of nine octets", "00080009000000000000000100"),
        (
            "a path trace of three octets before one of a clock",
            "00080003aabbcc000800080000000000000001",
        ),
    ];
    for (what, tlvs) in cases {
        let tlvs = hex::decode(rt.alloc(), tlvs)?;
        let frame = with_tlvs(&rt, rt.alloc(), &tlvs)?;
        same_at(&rt, &what, decode(&frame).err(), Some(Refused::Tlv));
    }
    Ok(())
}

/// The first Announce with the clocks below `count` as its path.
pub fn with_clocks_below(rt: &impl Abort, alloc: Global, count: u64) -> Result<Vec<u8>, Fail> {
    let mut clocks = Vec::new(alloc);
    for clock in 0..count {
        clocks.extend_from_slice(&clock.to_be_bytes())?;
    }
    let mut tlvs = [0x00, 0x08].to_vec(alloc)?;
    tlvs.extend_from_slice(&u16::try_from(clocks.len())?.to_be_bytes())?;
    tlvs.extend_from_slice(&clocks)?;
    with_tlvs(rt, alloc, &tlvs)
}

#[test]
fn a_path_of_256_clocks_is_copied_and_one_of_257_is_full(rt: HostRuntime) -> Result<(), Fail> {
    let mut copy = trace(&[7, 3])?;
    let frame = with_clocks_below(&rt, rt.alloc(), 257)?;
    let announce = read(&rt, &frame);
    same(&rt, announce.path.len(), 257);
    same(
        &rt,
        announce.path.copy_to(&mut copy),
        Err(Full::Full(ClockId::from(256))),
    );
    same(&rt, copy.as_slice(), trace(&[7, 3])?.as_slice());

    let frame = with_clocks_below(&rt, rt.alloc(), 256)?;
    same(&rt, read(&rt, &frame).path.copy_to(&mut copy), Ok(()));
    same(&rt, copy.len(), 256);
    for place in 0..256 {
        same_at(
            &rt,
            &place,
            copy.get(place),
            Some(ClockId::from(place as u64)),
        );
    }

    same(
        &rt,
        read(&rt, &FIRST_ANNOUNCE).path.copy_to(&mut copy),
        Ok(()),
    );
    same(&rt, copy.as_slice(), trace(&[1])?.as_slice());
    Ok(())
}

#[test]
fn the_fields_of_the_first_announce_are_written_as_its_octets(rt: HostRuntime) -> Result<(), Fail> {
    let first = frame(rt.alloc(), port(1, 1), identity(246, 1), 0, &trace(&[1])?)?;
    same(&rt, first.as_slice(), FIRST_ANNOUNCE.as_slice());

    let pathless = frame(rt.alloc(), port(1, 1), identity(246, 1), 0, &Trace::empty())?;
    let octets = with_tlvs(&rt, rt.alloc(), &[0x00, 0x08, 0x00, 0x00])?;
    same(&rt, pathless.len(), 68);
    same(&rt, pathless.as_slice(), octets.as_slice());

    let mut text = FIRST_ANNOUNCE[..3].to_vec(rt.alloc())?;
    encode_announce(
        &head(port(1, 1)),
        &body(identity(246, 1), 0),
        &trace(&[1])?,
        &mut text,
    )?;
    same(&rt, text.len(), 79);
    same(&rt, &text[..3], &FIRST_ANNOUNCE[..3]);
    same(&rt, &text[3..], &FIRST_ANNOUNCE[..]);
    Ok(())
}

#[test]
fn what_is_read_is_written_again(rt: HostRuntime) -> Result<(), Fail> {
    let mut text = Vec::new(rt.alloc());
    written_again(&rt, &FIRST_ANNOUNCE, &mut text)?;
    same(&rt, text.as_slice(), FIRST_ANNOUNCE.as_slice());

    let mut plain = DISTINCT;
    plain[1] = 0x12;
    plain[6..8].copy_from_slice(&[0x00, 0x08]);
    plain[16..20].copy_from_slice(&[0; 4]);
    plain[32] = 0;
    plain[34..44].copy_from_slice(&[0; 10]);
    plain[46] = 0;
    let mut both = FIRST_ANNOUNCE.to_vec(rt.alloc())?;
    both.extend_from_slice(&plain)?;
    written_again(&rt, &DISTINCT, &mut text)?;
    same_at(
        &rt,
        &"what is ignored is written as 0",
        text.as_slice(),
        both.as_slice(),
    );
    what_is_written_reads_back();
    Ok(())
}

#[test]
fn refusals_are_shown_by_number_and_name(rt: HostRuntime) -> Result<(), Fail> {
    let cases = [
        (Refused::Short, 1, "1 Short"),
        (Refused::NotGptp, 2, "2 NotGptp"),
        (Refused::Version, 3, "3 Version"),
        (Refused::UnknownType, 4, "4 UnknownType"),
        (Refused::LengthField, 5, "5 LengthField"),
        (Refused::Domain, 6, "6 Domain"),
        (Refused::Tlv, 7, "7 Tlv"),
        (Refused::StampRange, 8, "8 StampRange"),
    ];
    for (refused, number, text) in cases {
        same(&rt, refused as u8, number);
        same(&rt, refused.to_string(rt.alloc())?.as_str(), text);
    }
    Ok(())
}
