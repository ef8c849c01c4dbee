//! What a Sync and its Follow_Up say together, what a bridge sends on and what a slave reads, in units of
//! 2^-16 ns. Expected numbers were worked out apart from the code.

use crate::same::{same, same_at};
use gptp_correction::{Hop, SyncIn, SyncInfo, carry, laws, receipt_time, relay};
use gptp_messages::{FollowUp, Head, Message, encode};
use gptp_samples::{head, port};
use gptp_scaled::{Interval, OutOfRange, Rate, ScaledNs, Stamp};
use gptp_vector::PortId;
use std::test::*;

/// A nanosecond.
const NS: i128 = 65_536;

/// The first number past a time's range, 2^95.
const END: i128 = 39_614_081_257_132_168_796_771_975_168;

fn time(value: i128) -> Result<ScaledNs, Fail> {
    Ok(ScaledNs::new(value).ok().ok_or("the time fits")?)
}

fn origin() -> Result<Stamp, Fail> {
    Ok(Stamp::new(1, 0).ok().ok_or("the stamp fits")?)
}

fn number(answer: Result<ScaledNs, OutOfRange>) -> Option<i128> {
    answer.ok().map(|time| time.value())
}

/// The Follow_Up of a Sync with this source and number.
fn follow_up(source: PortId, sequence: u16) -> Result<FollowUp, Fail> {
    Ok(FollowUp {
        head: Head {
            sequence,
            correction: -5,
            ..head(source)
        },
        origin: origin()?,
        rate: Rate::new(7),
    })
}

/// A Sync that left at one second, with this correction and rate.
fn sync(correction: i64, rate: i32, ingress: i128) -> Result<SyncInfo, Fail> {
    Ok(SyncInfo {
        origin: origin()?,
        correction: Interval::new(correction),
        rate: Rate::new(rate),
        ingress: time(ingress)?,
    })
}

/// A hop with this delay, neighbour's rate, ingress and egress.
fn hop((delay, neighbour, ingress, egress): (i128, i32, i128, i128)) -> Result<Hop, Fail> {
    Ok(Hop {
        delay: time(delay)?,
        neighbour: Rate::new(neighbour),
        ingress: time(ingress)?,
        egress: time(egress)?,
    })
}

#[test]
fn a_follow_up_of_the_sync_is_read_with_it(rt: HostRuntime) -> Result<(), Fail> {
    let mut kept = SyncIn::new();
    kept.on_sync(port(1, 2), 3, time(40)?);
    for _ in 0..2 {
        let Some(known) = kept.on_follow_up(&follow_up(port(1, 2), 3)?) else {
            return Err(Fail::from("the Follow_Up is of the Sync"));
        };
        same(&rt, known, sync(-5, 7, 40)?);
    }
    kept.on_sync(port(1, 2), 4, time(50)?);
    same(&rt, kept.on_follow_up(&follow_up(port(1, 2), 3)?), None);
    same(
        &rt,
        kept.on_follow_up(&follow_up(port(1, 2), 4)?),
        Some(sync(-5, 7, 50)?),
    );
    Ok(())
}

#[test]
fn another_follow_up_is_not(rt: HostRuntime) -> Result<(), Fail> {
    same(&rt, SyncIn::new(), SyncIn::default());
    let mut kept = SyncIn::new();
    same(&rt, kept.on_follow_up(&follow_up(port(1, 2), 3)?), None);
    kept.on_sync(port(1, 2), 3, time(40)?);
    let before = kept;
    let others = [
        ("another number", port(1, 2), 4),
        ("another port", port(1, 1), 3),
        ("another clock", port(2, 2), 3),
    ];
    for (what, source, sequence) in others {
        same_at(
            &rt,
            &what,
            kept.on_follow_up(&follow_up(source, sequence)?),
            None,
        );
        same_at(&rt, &what, kept, before);
    }
    kept.clear();
    same(&rt, kept, SyncIn::new());
    same(&rt, kept.on_follow_up(&follow_up(port(1, 2), 3)?), None);
    Ok(())
}

#[test]
fn a_bridge_adds_its_link_and_its_residence(rt: HostRuntime) -> Result<(), Fail> {
    let cases = [
        (
            "nothing yet",
            0,
            0,
            (500 * NS, 0, 0, 5_000 * NS),
            360_448_000,
            0,
        ),
        (
            "rates of both signs",
            1_000_000,
            219_902_325,
            (
                500 * NS + 7,
                -439_804_651,
                7_000_000 * NS + 3,
                8_000_000 * NS + 3,
            ),
            65_563_217_683,
            -219_902_326,
        ),
        ("sent before it came", 3, 0, (0, 5, 7, 6), 1, 5),
        (
            "the last correction",
            i64::MAX - 1,
            0,
            (0, 0, 0, 1),
            i64::MAX,
            0,
        ),
    ];
    for (what, correction, rate, way, want, want_rate) in cases {
        let (sync, hop) = (sync(correction, rate, way.2)?, hop(way)?);
        let Ok(sent) = relay(&sync, hop.delay, hop.neighbour, hop.egress) else {
            return Err(Fail::from("every number fits"));
        };
        same_at(&rt, &what, sent.origin, sync.origin);
        same_at(&rt, &what, sent.correction.value(), want);
        same_at(&rt, &what, sent.rate.q(), want_rate);
    }
    Ok(())
}

#[test]
fn the_correction_stands_in_the_follow_up(rt: HostRuntime) -> Result<(), Fail> {
    let (sync, delay, egress) = (sync(0, 0, 0)?, time(500 * NS)?, time(5_000 * NS)?);
    let Ok(sent) = relay(&sync, delay, Rate::new(0), egress) else {
        return Err(Fail::from("every number fits"));
    };
    let follow_up = FollowUp {
        head: Head {
            correction: sent.correction.value(),
            ..head(port(2, 1))
        },
        origin: sent.origin,
        rate: sent.rate,
    };
    let mut frame = Vec::new(rt.alloc());
    encode(&Message::FollowUp(follow_up), &mut frame)?;
    let octets = [0x00, 0x00, 0x00, 0x00, 0x15, 0x7c, 0x00, 0x00];
    same(&rt, &frame[8..16], octets.as_slice());
    Ok(())
}

#[test]
fn a_bridge_refuses_what_does_not_fit(rt: HostRuntime) -> Result<(), Fail> {
    let cases = [
        ("time on the link", 0, 0, (END - 1, -1_000, 0, 0)),
        ("upstream time", 0, 0, (1, 0, -END, -END)),
        ("rate", 0, i32::MAX, (0, 1, 0, 0)),
        ("time from egress to egress", 0, 0, (0, 0, -1, END - 1)),
        ("that time scaled", 0, 1, (0, 0, 0, END - 1)),
        ("correction", i64::MAX, 0, (0, 0, 0, 1)),
        ("negative correction", i64::MIN, 0, (0, 0, 1, 0)),
    ];
    for (what, correction, rate, way) in cases {
        let (sync, hop) = (sync(correction, rate, way.2)?, hop(way)?);
        let sent = relay(&sync, hop.delay, hop.neighbour, hop.egress);
        same_at(&rt, &what, sent, Err(OutOfRange::OutOfRange));
    }
    Ok(())
}

#[test]
fn a_slave_adds_its_link(rt: HostRuntime) -> Result<(), Fail> {
    let second = 1_000_000_000 * NS;
    let cases = [
        ("no delay", 12_345, 9, 0, 0, Some(second + 12_345)),
        (
            "rates of both signs",
            12_345,
            219_902_325,
            1_000_000 * NS + 1,
            -439_804_651,
            Some(65_601_542_567_256),
        ),
        ("time on the link", 0, 0, END - 1, -1_000, None),
        ("rate", 0, i32::MIN, 0, -1, None),
        ("that time scaled", 0, 1, END - 1, 0, None),
        ("the last receipt", -1, 0, END - second, 0, Some(END - 1)),
        ("receipt", 0, 0, END - second, 0, None),
    ];
    for (what, correction, rate, delay, neighbour, want) in cases {
        let sync = sync(correction, rate, -END)?;
        let receipt = receipt_time(&sync, time(delay)?, Rate::new(neighbour));
        same_at(&rt, &what, number(receipt), want);
    }
    Ok(())
}

#[test]
fn time_is_carried_over_hops(rt: HostRuntime) -> Result<(), Fail> {
    let (none, far) = ((0, 0, 0, 0), 9_223_372_036_854_775_808);
    let cases = [
        (
            "a bridge and a slave",
            0,
            (500 * NS, 0, 1_500 * NS, 6_500 * NS),
            none,
            (300 * NS, 0, 0, 0),
            Some(380_108_800),
        ),
        (
            "another rate at each hop",
            1_700_000_000_000_000_000 * NS + 77,
            (
                1_000_000 * NS + 1,
                219_902_325,
                5_000_000_000 * NS,
                5_010_000_000 * NS + 9,
            ),
            (
                2_000_000 * NS + 3,
                -400_000_000,
                -7_000 * NS,
                30_000_000 * NS + 1,
            ),
            (3_000_000 * NS + 5, 439_804_651, 0, 0),
            Some(111_411_200_003_015_016_241_470),
        ),
        (
            "the slave's egress",
            1,
            none,
            none,
            (1, 0, -END, END - 1),
            Some(2),
        ),
        (
            "origin and correction past the range",
            END - 1,
            (0, 0, 0, 1),
            none,
            (-1, 0, 0, 0),
            Some(END - 1),
        ),
        (
            "a bridge's correction",
            0,
            (0, 0, 0, far),
            (0, 0, 1, 0),
            none,
            None,
        ),
        (
            "a bridge's rate",
            0,
            (0, i32::MAX, 0, 0),
            (0, 1, 0, 0),
            (0, -1, 0, 0),
            None,
        ),
        (
            "the slave's receipt",
            END - 1,
            (0, 0, 0, 1),
            none,
            none,
            None,
        ),
    ];
    for (what, origin, first, second, slave, want) in cases {
        let hops = [hop(first)?, hop(second)?, hop(slave)?];
        same_at(&rt, &what, number(carry(time(origin)?, &hops)), want);
    }
    let bridge = hop((500 * NS, 0, 1_500 * NS, 6_500 * NS))?;
    let slave = hop((300 * NS, 0, 0, 0))?;
    same(
        &rt,
        number(carry(time(0)?, &[bridge, slave])),
        Some(380_108_800),
    );
    same(&rt, number(carry(time(0)?, &[slave])), Some(300 * NS));
    same(&rt, number(carry(time(-7)?, &[])), Some(-7));
    Ok(())
}

#[test]
fn laws_can_be_called(_rt: HostRuntime) {
    laws::carry_goes_by_hops();
    laws::carry_keeps_time();
}
