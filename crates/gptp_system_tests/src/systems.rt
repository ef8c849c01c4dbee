//! What a system makes of frames, timers and changes, and what two or three of them make of each other. Times are in
//! ns.

use crate::bench::Step::{Down, Expire, Hear, Priority, Up};
use crate::bench::{
    ANNOUNCES, ANSWERS, ASKS, Bench, End, NOTHING, Row, TELLS_TIME, due, has_port, hear, octets_of,
    play, started,
};
use crate::said::{SILENT, Said, all_of, measured, says, value};
use crate::same::{same, same_at};
use gptp_messages::{Head, Refused};
use gptp_roles::Role;
use gptp_samples::{
    FIRST_ANNOUNCE, FOLLOW_UP, REQUEST, RESPONSE, RESPONSE_FOLLOW_UP, SYNC, identity, port,
};
use gptp_scaled::{Rate, Stamp};
use gptp_system::Answer::{Inferior, Repeated, Superior, Used};
use gptp_system::Timer::{Pdelay, Respond};
use gptp_system::{Answer, Body, Outbox, Timer};
use gptp_vector::Identity;
use std::alloc::Global;
use std::process::Abort;
use std::test::Fail;

/// The place of clock 1.
const ONE: usize = 0;

/// The place of clock 2.
const TWO: usize = 1;

/// The place of clock 3.
const THREE: usize = 2;

#[test]
fn a_link_that_comes_up_is_measured_at_once(rt: HostRuntime) -> Result<(), Fail> {
    let mut bench = Bench::new(rt.alloc(), &[(1, 1, 0)], 9)?;
    let (_, outbox) = bench.act(rt.alloc(), 0, ONE, Up(1))?;
    let [request] = outbox.as_slice() else {
        return Err(Fail::from("not one send"));
    };
    let system = bench.at(ONE)?;
    same(&rt, request.port, 1);
    same(
        &rt,
        octets_of(rt.alloc(), system, request)?.as_slice(),
        REQUEST.as_slice(),
    );
    let want = Said {
        follows: (identity(246, 1), 0, None),
        offset: None,
        port: SILENT,
        timers: [
            None,
            None,
            Some(1_000_000_000),
            None,
            Some(125_000_000),
            None,
        ],
        trace: 1,
    };
    same(&rt, all_of(system)?, want);
    Ok(())
}

#[test]
fn what_is_not_for_the_port_changes_nothing(rt: HostRuntime) -> Result<(), Fail> {
    let rows: [(&[u8], Answer); 7] = [
        (&[], Answer::Refused(Refused::Short)),
        (&[0x1b], Answer::Refused(Refused::Short)),
        (&FIRST_ANNOUNCE, Answer::Disabled),
        (&SYNC, Answer::Disabled),
        (&FOLLOW_UP, Answer::Disabled),
        (&RESPONSE, Answer::Ignored),
        (&RESPONSE_FOLLOW_UP, Answer::Ignored),
    ];
    let mut system = started(rt.alloc(), 2, 1, 0, 9)?;
    let mut outbox = Outbox::new();
    if has_port(&system, 1) {
        system.port_up(1, 0, &mut outbox);
    }
    let before = all_of(&system)?;
    for (frame, want) in rows {
        let mut outbox = Outbox::new();
        let answer = hear(&mut system, 1, frame, 500, &mut outbox)?;
        same(&rt, answer, want);
        assert!(rt; outbox.is_empty(), "{want:?}");
        same_at(&rt, &want, all_of(&system)?, before);
    }
    Ok(())
}

/// Both ports of the link between clocks 1 and 2.
const LINK: [End; 2] = [(ONE, 1), (TWO, 1)];

/// All ports of the line of clocks 1, 2 and 3.
const LINE: [End; 4] = [(ONE, 1), (TWO, 1), (TWO, 2), (THREE, 1)];

/// How two systems come to know each other over a link of 500 ns.
const MEETING: [Row<'static>; 33] = [
    (0, ONE, Up(1), None, ASKS),
    (0, TWO, Up(1), None, ASKS),
    (500, ONE, Hear(1), Some(Used), NOTHING),
    (500, TWO, Hear(1), Some(Used), NOTHING),
    (1_500, ONE, Expire(Respond(1)), None, ANSWERS),
    (1_500, TWO, Expire(Respond(1)), None, ANSWERS),
    (2_000, ONE, Hear(1), Some(Used), NOTHING),
    (2_000, ONE, Hear(1), Some(Used), NOTHING),
    (2_000, TWO, Hear(1), Some(Used), NOTHING),
    (2_000, TWO, Hear(1), Some(Used), NOTHING),
    // no port is Master yet
    (125_000_000, ONE, Expire(Timer::Sync), None, NOTHING),
    (125_000_000, TWO, Expire(Timer::Sync), None, NOTHING),
    (1_000_000_000, ONE, Expire(Pdelay(1)), None, ASKS),
    (1_000_000_000, TWO, Expire(Pdelay(1)), None, ASKS),
    (1_000_000_500, ONE, Hear(1), Some(Used), NOTHING),
    (1_000_000_500, TWO, Hear(1), Some(Used), NOTHING),
    (1_000_001_500, ONE, Expire(Respond(1)), None, ANSWERS),
    (1_000_001_500, TWO, Expire(Respond(1)), None, ANSWERS),
    (1_000_002_000, ONE, Hear(1), Some(Used), NOTHING),
    (1_000_002_000, ONE, Hear(1), Some(Used), ANNOUNCES),
    (1_000_002_000, TWO, Hear(1), Some(Used), NOTHING),
    (1_000_002_000, TWO, Hear(1), Some(Used), ANNOUNCES),
    (1_000_002_500, ONE, Hear(1), Some(Inferior), NOTHING),
    (1_000_002_500, TWO, Hear(1), Some(Superior), NOTHING),
    // clock 1 leads
    (1_125_000_000, ONE, Expire(Timer::Sync), None, TELLS_TIME),
    (1_125_000_000, TWO, Expire(Timer::Sync), None, NOTHING),
    (1_125_000_500, TWO, Hear(1), Some(Used), NOTHING),
    (1_125_000_500, TWO, Hear(1), Some(Used), NOTHING),
    (1_125_001_500, TWO, Expire(Timer::Relay), None, NOTHING),
    (
        2_000_002_000,
        ONE,
        Expire(Timer::Announce(1)),
        None,
        ANNOUNCES,
    ),
    (2_000_002_500, TWO, Hear(1), Some(Repeated), NOTHING),
    (2_000_002_500, TWO, Expire(Pdelay(1)), None, ASKS),
    (2_000_003_000, ONE, Hear(1), Some(Used), NOTHING),
];

#[test]
fn two_systems_settle(rt: HostRuntime) -> Result<(), Fail> {
    let mut bench = Bench::new(rt.alloc(), &[(1, 1, 0), (2, 1, 1_000_000)], 9)?;
    play(&rt, rt.alloc(), &mut bench, &MEETING)?;
    let one = Said {
        follows: (identity(246, 1), 0, None),
        offset: None,
        port: measured(Role::Master),
        timers: [
            Some(3_000_002_000),
            None,
            Some(2_000_000_000),
            Some(2_000_004_000),
            Some(1_250_000_000),
            None,
        ],
        trace: 1,
    };
    same(&rt, all_of(bench.at(ONE)?)?, one);
    // its clock is 1 ms ahead
    let two = Said {
        follows: (identity(246, 1), 1, Some(1)),
        offset: Some(65_536_000_000),
        port: measured(Role::Slave),
        timers: [
            None,
            Some(5_000_002_500),
            Some(3_000_002_500),
            None,
            Some(1_250_000_000),
            None,
        ],
        trace: 2,
    };
    same(&rt, all_of(bench.at(TWO)?)?, two);
    Ok(())
}

/// Three systems in a line that follow clock 1; the clocks of the others are 1 ms and 3 ms ahead.
fn line(rt: &impl Abort, alloc: Global) -> Result<Bench, Fail> {
    let setups = [(1, 1, 0), (2, 2, 1_000_000), (3, 1, 3_000_000)];
    let mut bench = Bench::new(alloc, &setups, 9)?;
    bench.settle(alloc, &LINE)?;
    // clock 1 sends its time
    let rows: [Row<'_>; 3] = [
        (1_125_000_000, ONE, Expire(Timer::Sync), None, TELLS_TIME),
        (1_125_000_500, TWO, Hear(1), Some(Used), NOTHING),
        (1_125_000_500, TWO, Hear(1), Some(Used), NOTHING),
    ];
    play(rt, alloc, &mut bench, &rows)?;
    Ok(bench)
}

#[test]
fn a_bridge_sends_time_on(rt: HostRuntime) -> Result<(), Fail> {
    let mut bench = line(&rt, rt.alloc())?;
    let (_, outbox) = bench.act(rt.alloc(), 1_125_001_500, TWO, Expire(Timer::Relay))?;
    let [sync, follow_up] = outbox.as_slice() else {
        return Err(Fail::from("not two sends"));
    };
    let head = Head {
        source: port(2, 2),
        sequence: 0,
        correction: 0,
        log_interval: -3,
        two_step: true,
    };
    same(
        &rt,
        (sync.port, sync.head, sync.body),
        (2, head, Body::Sync),
    );
    // The Sync came 500 ns after it was sent, and goes on 1,000 ns later: 1,500 ns on the bridge's clock, which runs as
    // fast as the grandmaster's, in units of 2^-16 ns.
    let head = Head {
        correction: 98_304_000,
        two_step: false,
        ..head
    };
    let body = Body::FollowUp {
        origin: Stamp::new(1, 125_000_000)?,
        rate: Rate::new(0),
    };
    same(
        &rt,
        (follow_up.port, follow_up.head, follow_up.body),
        (2, head, body),
    );
    let rows: [Row<'_>; 2] = [
        (1_125_002_000, THREE, Hear(1), Some(Used), NOTHING),
        (1_125_002_000, THREE, Hear(1), Some(Used), NOTHING),
    ];
    play(&rt, rt.alloc(), &mut bench, &rows)?;
    same(&rt, value(bench.at(TWO)?.offset()), Some(65_536_000_000));
    same(&rt, value(bench.at(THREE)?.offset()), Some(196_608_000_000));
    same(
        &rt,
        bench.at(THREE)?.follows(),
        (identity(246, 1), 2, Some(1)),
    );
    Ok(())
}

#[test]
fn a_port_that_loses_too_many_requests_takes_no_part(rt: HostRuntime) -> Result<(), Fail> {
    let rows = [
        (1, ONE, identity(246, 1), Role::Master),
        (9, ONE, identity(246, 1), Role::Master),
        (255, ONE, identity(246, 1), Role::Master),
        (1, TWO, identity(246, 2), Role::Slave),
        (9, TWO, identity(246, 2), Role::Slave),
        (255, TWO, identity(246, 2), Role::Slave),
    ];
    for (lost, place, own, role) in rows {
        let mut bench = Bench::new(rt.alloc(), &[(1, 1, 0), (2, 1, 0)], lost)?;
        bench.settle(rt.alloc(), &LINK)?;
        // the first interval ends without an open request, each other one loses the one before
        for seconds in 0..=u64::from(lost) {
            let now = 2_000_000_000 + seconds * 1_000_000_000;
            let asks: Row<'_> = (now, place, Expire(Pdelay(1)), None, ASKS);
            play(&rt, rt.alloc(), &mut bench, &[asks])?;
            same_at(
                &rt,
                &("lost", seconds),
                says(bench.at(place)?, 1)?,
                measured(role),
            );
        }
        let now = 3_000_000_000 + u64::from(lost) * 1_000_000_000;
        let asks: Row<'_> = (now, place, Expire(Pdelay(1)), None, ASKS);
        play(&rt, rt.alloc(), &mut bench, &[asks])?;
        let system = bench.at(place)?;
        same_at(&rt, &("may be lost", lost), says(system, 1)?, SILENT);
        same_at(
            &rt,
            &("may be lost", lost),
            system.follows(),
            (own, 0, None),
        );
        same(&rt, due(system, Timer::Announce(1)), None);
        same(&rt, due(system, Timer::Age(1)), None);
        same(
            &rt,
            due(system, Timer::Pdelay(1)),
            Some(now + 1_000_000_000),
        );
    }
    Ok(())
}

#[test]
fn the_better_identity_becomes_root(rt: HostRuntime) -> Result<(), Fail> {
    let mut bench = Bench::new(rt.alloc(), &[(1, 1, 0), (2, 1, 0)], 9)?;
    bench.settle(rt.alloc(), &LINK)?;
    let (own, better, worse) = (identity(246, 1), identity(200, 2), identity(250, 2));
    let incapable = identity(255, 1);
    // one of the systems gets something, and follows this then
    let rows: [(Row<'_>, (Identity, u16, Option<u8>)); 8] = [
        (
            (2_000_000_000, TWO, Priority(200), None, ANNOUNCES),
            (better, 0, None),
        ),
        (
            (2_000_000_500, ONE, Hear(1), Some(Superior), NOTHING),
            (better, 1, Some(1)),
        ),
        (
            (3_000_000_000, TWO, Priority(250), None, ANNOUNCES),
            (worse, 0, None),
        ),
        (
            (3_000_000_500, ONE, Hear(1), Some(Repeated), ANNOUNCES),
            (own, 0, None),
        ),
        (
            (3_000_001_000, TWO, Hear(1), Some(Superior), NOTHING),
            (own, 1, Some(1)),
        ),
        (
            (4_000_000_000, ONE, Priority(255), None, ANNOUNCES),
            (incapable, 0, None),
        ),
        (
            (4_000_000_500, TWO, Hear(1), Some(Repeated), ANNOUNCES),
            (worse, 0, None),
        ),
        (
            (4_000_001_000, ONE, Hear(1), Some(Superior), NOTHING),
            (worse, 1, Some(1)),
        ),
    ];
    for (row, follows) in rows {
        play(&rt, rt.alloc(), &mut bench, &[row])?;
        let system = bench.at(row.1)?;
        same_at(&rt, &row.0, system.follows(), follows);
        let role = match follows.2 {
            Some(_) => Role::Slave,
            None => Role::Master,
        };
        same_at(&rt, &row.0, says(system, 1)?, measured(role));
    }
    Ok(())
}

#[test]
fn what_is_too_old_is_followed_no_more(rt: HostRuntime) -> Result<(), Fail> {
    let mut bench = Bench::new(rt.alloc(), &[(1, 1, 0), (2, 1, 0)], 9)?;
    bench.settle(rt.alloc(), &LINK)?;
    let age = Timer::Age(1);
    same(&rt, due(bench.at(TWO)?, age), Some(4_000_002_500));
    let row: Row<'_> = (4_000_002_500, TWO, Expire(age), None, ANNOUNCES);
    play(&rt, rt.alloc(), &mut bench, &[row])?;
    let system = bench.at(TWO)?;
    same(&rt, system.follows(), (identity(246, 2), 0, None));
    same(&rt, says(system, 1)?, measured(Role::Master));
    same(&rt, due(system, age), None);
    same(&rt, due(system, Timer::Announce(1)), Some(5_000_002_500));
    Ok(())
}

#[test]
fn a_system_without_its_slave_port_is_root_itself(rt: HostRuntime) -> Result<(), Fail> {
    let mut bench = line(&rt, rt.alloc())?;
    let bridge = bench.at(TWO)?;
    same(&rt, bridge.follows(), (identity(246, 1), 1, Some(1)));
    same(&rt, says(bridge, 1)?, measured(Role::Slave));
    same(&rt, says(bridge, 2)?, measured(Role::Master));
    same(&rt, value(bridge.offset()), Some(65_536_000_000));

    let rows: [Row<'_>; 1] = [(1_125_001_000, TWO, Down(1), None, ANNOUNCES)];
    play(&rt, rt.alloc(), &mut bench, &rows)?;
    let bridge = bench.at(TWO)?;
    let want = Said {
        follows: (identity(246, 2), 0, None),
        offset: None,
        port: SILENT,
        timers: [None, None, None, None, Some(125_000_000), None],
        trace: 1,
    };
    same(&rt, all_of(bridge)?, want);
    same(&rt, says(bridge, 2)?, measured(Role::Master));
    same(&rt, due(bridge, Timer::Announce(2)), Some(2_125_001_000));

    let rows: [Row<'_>; 1] = [(1_125_001_500, THREE, Hear(1), Some(Repeated), NOTHING)];
    play(&rt, rt.alloc(), &mut bench, &rows)?;
    same(
        &rt,
        bench.at(THREE)?.follows(),
        (identity(246, 2), 1, Some(1)),
    );
    Ok(())
}
