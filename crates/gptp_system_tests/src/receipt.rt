//! What the port 1 of clock 9 makes of the Announces that it hears.

use crate::frames::read;
use crate::same::{same, same_at};
use gptp_receipt::{Heard, Held, Reception, Why, age, due, hear, qualify, span_of};
use gptp_samples::{FIRST_ANNOUNCE, frame, identity, port, trace};
use gptp_setup::LAST_MOMENT;
use gptp_vector::{ClockId, Full, Identity, PortId, Trace, Vector};
use std::process::Abort;
use std::test::Fail;

/// Three seconds, in ns.
const SPAN: u64 = 3_000_000_000;

/// The receiving port.
fn own() -> PortId {
    port(9, 1)
}

/// What the port holds, with its path as numbers of clocks.
fn assert_received(rt: &impl Abort, held: &Held, want: Vector, path: &Trace, received: u64) {
    let Held::Received(reception) = held else {
        panic!(rt; "nothing received: {held:?}");
    };
    same(rt, reception.vector, want);
    same(rt, reception.path.as_slice(), path.as_slice());
    same(rt, reception.at, received);
}

/// What an Announce in a frame is to the port.
fn heard(rt: &impl Abort, held: &mut Held, frame: &[u8], now: u64) -> Heard {
    let (own, announce) = (own(), read(rt, frame));
    assert!(rt; qualify(&announce, own.clock).is_ok());
    assert!(rt; !matches!(held, Held::Disabled));
    hear(held, own, &announce, now)
}

/// When what the port holds is too old.
fn end_of(rt: &impl Abort, held: &Held) -> Option<u64> {
    if let Held::Received(reception) = held {
        assert!(rt; reception.at <= LAST_MOMENT);
    }
    due(held, SPAN)
}

/// Whether what the port holds is dropped as too old.
fn drops(rt: &impl Abort, held: &mut Held, now: u64) -> bool {
    if let Held::Received(reception) = held {
        assert!(rt; reception.at <= LAST_MOMENT);
    }
    age(held, SPAN, now)
}

/// The vector of an Announce from port 1 of a clock.
fn vector(root: Identity, steps: u16, source: u64) -> Vector {
    Vector {
        root,
        steps,
        source: port(source, 1),
        receiver: 1,
    }
}

/// A trace of so many clocks, none of which is clock 9.
fn strangers(count: u64) -> Result<Trace, Full> {
    let mut trace = Trace::empty();
    for clock in 0..count {
        trace.append(ClockId::from(clock ^ 0x8000_0000_0000_0000))?;
    }
    Ok(trace)
}

#[test]
fn an_announce_is_refused_by_the_first_test_that_fails(rt: HostRuntime) -> Result<(), Fail> {
    let cases = [
        ("254 steps", 1, 254, trace(&[1])?, Ok(())),
        ("255 steps", 1, 255, trace(&[1])?, Err(Why::TooManySteps)),
        (
            "65,535 steps",
            1,
            65_535,
            trace(&[1])?,
            Err(Why::TooManySteps),
        ),
        ("no path", 1, 0, trace(&[])?, Ok(())),
        ("255 strangers", 1, 0, strangers(255)?, Ok(())),
        (
            "256 strangers",
            1,
            0,
            strangers(256)?,
            Err(Why::TraceTooLong),
        ),
        ("over the receiver", 1, 0, trace(&[1, 9])?, Err(Why::Loop)),
        (
            "first over the receiver",
            1,
            0,
            trace(&[9, 1])?,
            Err(Why::Loop),
        ),
        (
            "the receiver's own",
            9,
            255,
            trace(&[9])?,
            Err(Why::OwnMessage),
        ),
        (
            "too far over the receiver",
            1,
            255,
            trace(&[1, 9])?,
            Err(Why::TooManySteps),
        ),
    ];
    for (what, source, steps, path, want) in cases {
        let frame = frame(rt.alloc(), port(source, 1), identity(246, 1), steps, &path)?;
        same_at(
            &rt,
            &what,
            qualify(&read(&rt, &frame), ClockId::from(9)),
            want,
        );
    }
    Ok(())
}

#[test]
fn an_announce_is_held_until_it_is_too_old(rt: HostRuntime) -> Result<(), Fail> {
    let (first, path) = (vector(identity(246, 1), 0, 1), trace(&[1])?);
    let mut held = Held::Aged;
    same(&rt, end_of(&rt, &held), None);
    same(
        &rt,
        heard(&rt, &mut held, &FIRST_ANNOUNCE, 0),
        Heard::Superior,
    );
    assert_received(&rt, &held, first, &path, 0);
    same(
        &rt,
        heard(&rt, &mut held, &FIRST_ANNOUNCE, 1_000_000_000),
        Heard::Repeated,
    );
    assert_received(&rt, &held, first, &path, 1_000_000_000);

    same(&rt, end_of(&rt, &held), Some(4_000_000_000));
    assert!(rt; !drops(&rt, &mut held, 3_999_999_999));
    assert_received(&rt, &held, first, &path, 1_000_000_000);
    assert!(rt; drops(&rt, &mut held, 4_000_000_000));
    assert!(rt; matches!(held, Held::Aged));
    assert!(rt; !drops(&rt, &mut held, 4_000_000_000));
    assert!(rt; matches!(held, Held::Aged));
    Ok(())
}

#[test]
fn what_is_not_received_has_no_age(rt: HostRuntime) {
    let mine = Held::Mine {
        root: identity(246, 9),
        steps: 0,
    };
    for mut held in [Held::Disabled, Held::Aged, mine] {
        same(&rt, end_of(&rt, &held), None);
        assert!(rt; !drops(&rt, &mut held, u64::MAX));
        assert!(rt; !matches!(held, Held::Received(_)));
    }
}

/// The interval that was heard, if anything was.
fn interval_heard(held: &Held) -> Option<i8> {
    match held {
        Held::Received(reception) => Some(reception.interval),
        Held::Disabled | Held::Aged | Held::Mine { .. } => None,
    }
}

#[test]
fn what_is_received_stays_for_the_interval_that_was_heard(rt: HostRuntime) {
    let cases = [
        (0x00, 0, 3_000_000_000),
        (0x80, -128, 187_500_000),
        (0x7f, 127, 3_000_000_000),
    ];
    let mut held = Held::Aged;
    same(&rt, span_of(&held, 3, 0), None);
    for (octet, interval, span) in cases {
        let mut frame = FIRST_ANNOUNCE;
        frame[33] = octet;
        heard(&rt, &mut held, &frame, 1);
        same_at(&rt, &interval, interval_heard(&held), Some(interval));
        same_at(&rt, &interval, interval_heard(&held.copy()), Some(interval));
        same_at(&rt, &interval, span_of(&held, 3, 0), Some(span));
    }
}

#[test]
fn the_held_sender_is_heard_also_where_it_is_worse(rt: HostRuntime) -> Result<(), Fail> {
    let path = trace(&[1])?;
    let mut held = Held::Aged;
    heard(&rt, &mut held, &FIRST_ANNOUNCE, 0);

    let mut worse = FIRST_ANNOUNCE;
    worse[47] = 0xf7;
    same(&rt, heard(&rt, &mut held, &worse, 1), Heard::Repeated);
    assert_received(&rt, &held, vector(identity(247, 1), 0, 1), &path, 1);
    same(
        &rt,
        heard(&rt, &mut held, &FIRST_ANNOUNCE, 2),
        Heard::Repeated,
    );
    assert_received(&rt, &held, vector(identity(246, 1), 0, 1), &path, 2);
    Ok(())
}

#[test]
fn another_sender_is_heard_where_it_is_better(rt: HostRuntime) -> Result<(), Fail> {
    let (low, root, high) = (identity(245, 2), identity(246, 1), identity(247, 2));
    let cases = [
        ("a worse root", 0, high, 0, Heard::Inferior),
        ("a better root", 0, low, 0, Heard::Superior),
        ("a better root, farther away", 0, low, 254, Heard::Superior),
        ("the same root, as far away", 1, root, 1, Heard::Inferior),
        (
            "the same root, one step nearer",
            1,
            root,
            0,
            Heard::Superior,
        ),
        (
            "the same root, one step farther",
            1,
            root,
            2,
            Heard::Inferior,
        ),
    ];
    let path = trace(&[1, 2])?;
    for (what, steps_held, root_heard, steps_heard, want) in cases {
        let known = frame(rt.alloc(), port(1, 1), root, steps_held, &trace(&[1])?)?;
        let mut held = Held::Aged;
        same_at(
            &rt,
            &what,
            heard(&rt, &mut held, &known, 0),
            Heard::Superior,
        );

        let other = frame(rt.alloc(), port(2, 1), root_heard, steps_heard, &path)?;
        same_at(&rt, &what, heard(&rt, &mut held, &other, 5), want);
        if want == Heard::Superior {
            assert_received(&rt, &held, vector(root_heard, steps_heard, 2), &path, 5);
        } else {
            assert_received(&rt, &held, vector(root, steps_held, 1), &trace(&[1])?, 0);
        }
    }
    Ok(())
}

#[test]
fn a_master_hears_what_is_better_than_it_announces(rt: HostRuntime) -> Result<(), Fail> {
    let cases = [
        (
            "its own root is better",
            identity(245, 9),
            0,
            Heard::Inferior,
        ),
        (
            "its own root is worse",
            identity(247, 9),
            0,
            Heard::Superior,
        ),
        (
            "the same root, as far away, of a lower clock",
            identity(246, 1),
            0,
            Heard::Superior,
        ),
        (
            "the same root, one step nearer",
            identity(246, 1),
            1,
            Heard::Superior,
        ),
    ];
    for (what, root, steps, want) in cases {
        let mut held = Held::Mine { root, steps };
        same_at(&rt, &what, heard(&rt, &mut held, &FIRST_ANNOUNCE, 7), want);
        if want == Heard::Superior {
            assert_received(&rt, &held, vector(identity(246, 1), 0, 1), &trace(&[1])?, 7);
        } else {
            assert!(rt; is_mine(&held, root, steps), "{what}");
        }
    }
    Ok(())
}

fn is_mine(held: &Held, of_root: Identity, of_steps: u16) -> bool {
    match held {
        Held::Mine { root, steps } => *root == of_root && *steps == of_steps,
        _ => false,
    }
}

#[test]
fn copies_hold_the_same(rt: HostRuntime) -> Result<(), Fail> {
    let root = identity(246, 1);
    assert!(rt; matches!(Held::default(), Held::Disabled));
    assert!(rt; matches!(Held::Disabled.copy(), Held::Disabled));
    assert!(rt; matches!(Held::Aged.copy(), Held::Aged));
    assert!(rt; is_mine(&Held::Mine { root, steps: 3 }.copy(), root, 3));
    let received = Held::Received(Reception {
        vector: vector(root, 1, 2),
        path: trace(&[1, 2])?,
        interval: 0,
        at: 8,
    });
    assert_received(
        &rt,
        &received.copy(),
        vector(root, 1, 2),
        &trace(&[1, 2])?,
        8,
    );
    Ok(())
}

#[test]
fn reasons_have_their_numbers(rt: HostRuntime) {
    same(&rt, Why::OwnMessage as u8, 1);
    same(&rt, Why::TooManySteps as u8, 2);
    same(&rt, Why::Loop as u8, 3);
    same(&rt, Why::TraceTooLong as u8, 4);
}
