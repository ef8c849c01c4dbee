//! What port 1 of clock 1 measures with port 1 of clock 2. Times are in units of 2^-16 ns.

use crate::same::{same, same_at};
use gptp_messages::{Head, PdelayResp, PdelayRespFollowUp};
use gptp_pdelay::{Peer, Step, laws};
use gptp_samples::{head, port};
use gptp_scaled::{ScaledNs, Stamp};
use gptp_vector::PortId;
use std::alloc::Global;
use std::process::Abort;
use std::test::Fail;

/// One nanosecond.
const NS: i128 = 65_536;

/// A threshold, in ns.
const THRESHOLD: u64 = 800;

/// The delay that it is.
const LONGEST: u32 = 52_428_800;

/// The last time that a request or a response can have.
const LAST: i128 = 1_237_940_039_285_380_274_899_124_223;

/// The last time that a stamp with its fraction can have.
const LAST_STAMP: i128 = 18_446_744_073_709_551_615_999_999_999;

/// The first exchange was complete, and changed nothing.
const FIRST: Step = Step::Exchange { changed: false };

/// The port came to be capable, or stopped being so.
const CHANGED: Step = Step::Exchange { changed: true };

fn own() -> PortId {
    port(1, 1)
}

fn neighbor() -> PortId {
    port(2, 1)
}

fn time(value: i128) -> Result<ScaledNs, Fail> {
    Ok(ScaledNs::new(value).ok().ok_or("the time fits")?)
}

/// A message's header and timestamp that carry a time.
fn carrying(source: PortId, sequence: u16, value: i128) -> Result<(Head, Stamp), Fail> {
    let (stamp, rest) = time(value)?.split().ok().ok_or("the time has a stamp")?;
    let carrying = Head {
        sequence,
        correction: i64::from(rest),
        ..head(source)
    };
    Ok((carrying, stamp))
}

/// Whose answer it is, to which request, and to whom.
#[derive(Clone, Copy, Debug)]
struct Reply {
    from: PortId,
    sequence: u16,
    to: PortId,
}

/// The neighbour's answer to a request of the own port.
fn awaited(sequence: u16) -> Reply {
    Reply {
        from: neighbor(),
        sequence,
        to: own(),
    }
}

fn response(reply: Reply, t2: i128) -> Result<PdelayResp, Fail> {
    let (head, stamp) = carrying(reply.from, reply.sequence, t2)?;
    Ok(PdelayResp {
        head,
        stamp,
        requester: reply.to,
    })
}

fn follow_up(reply: Reply, t3: i128) -> Result<PdelayRespFollowUp, Fail> {
    let (head, stamp) = carrying(reply.from, reply.sequence, t3)?;
    Ok(PdelayRespFollowUp {
        head,
        stamp,
        requester: reply.to,
    })
}

fn requests(rt: &impl Abort, peer: &mut Peer, t1: i128) -> Result<u16, Fail> {
    let t1 = time(t1)?;
    assert!(rt; 0 <= t1.value() && t1.value() <= LAST);
    Ok(peer.request(t1))
}

fn hears(rt: &impl Abort, peer: &mut Peer, response: &PdelayResp, t4: i128) -> Result<Step, Fail> {
    let t4 = time(t4)?;
    assert!(rt; 0 <= t4.value() && t4.value() <= LAST);
    Ok(peer.on_response(response, t4))
}

/// What the port makes of a full exchange with these four times.
fn exchanges(rt: &impl Abort, peer: &mut Peer, times: [i128; 4]) -> Result<Step, Fail> {
    let [t1, t2, t3, t4] = times;
    let reply = awaited(requests(rt, peer, t1)?);
    let response = response(reply, t2)?;
    same(rt, hears(rt, peer, &response, t4)?, Step::Recorded);
    Ok(peer.on_follow_up(&follow_up(reply, t3)?))
}

/// The four times of an exchange that begins `begins` ns after 0 and measures this delay, both clocks being as fast.
fn measuring(delay: u32, begins: u32) -> [i128; 4] {
    let begins = i128::from(begins) * NS;
    let ends = begins + 2 * i128::from(delay);
    [begins, ends, ends, ends]
}

/// What the port says: its meanLinkDelay, the rate of its neighbour, and whether it is capable.
fn says(peer: &Peer) -> (Option<i128>, i32, bool) {
    let delay = peer.delay().map(|delay| delay.value());
    (delay, peer.rate().q(), peer.capable())
}

/// A port that may lose this many requests in a row, and measures rates over so many exchanges.
fn over(alloc: Global, lost: u8, window: u8) -> Result<Peer, Fail> {
    if window < 1 || 16 < window {
        return Err(Fail::from("no such window"));
    }
    Ok(Peer::new(alloc, own(), THRESHOLD, lost, window)?)
}

/// A port that may lose this many requests in a row, and measures rates over one exchange.
fn new(alloc: Global, lost: u8) -> Result<Peer, Fail> {
    over(alloc, lost, 1)
}

/// What the port does or gets, and what is wanted of it then.
#[derive(Clone, Copy, Debug)]
enum Event {
    /// It asks at t1: the number of its request.
    Asks(i128, u16),
    /// It hears a response, with its t2, at t4.
    Hears(Reply, i128, i128, Step),
    /// It hears what follows the response, with its t3.
    Follows(Reply, i128, Step),
    /// A full exchange begins so many ns after 0, and measures one ns.
    Exchanges(u32, Step),
    /// Its interval is over: whether it lost too many requests.
    Interval(bool),
    /// It starts anew.
    Reset,
    /// A request comes from a port, with its number, at t2.
    Asked(PortId, u16, i128),
    /// Whom it answers, which request, and its t2.
    Answers(Option<(PortId, u16, i128)>),
    /// What it says.
    Says(Option<i128>, i32, bool),
}

/// One event of a port.
fn take(rt: &impl Abort, what: &str, peer: &mut Peer, event: &Event) -> Result<(), Fail> {
    let row = (what, event);
    match *event {
        Event::Asks(t1, want) => same_at(rt, &row, requests(rt, peer, t1)?, want),
        Event::Hears(reply, t2, t4, want) => {
            let response = response(reply, t2)?;
            same_at(rt, &row, hears(rt, peer, &response, t4)?, want);
        }
        Event::Follows(reply, t3, want) => {
            let follow_up = follow_up(reply, t3)?;
            same_at(rt, &row, peer.on_follow_up(&follow_up), want);
        }
        Event::Exchanges(begins, want) => {
            let times = measuring(65_536, begins);
            same_at(rt, &row, exchanges(rt, peer, times)?, want);
        }
        Event::Interval(want) => same_at(rt, &row, peer.on_interval(), want),
        Event::Reset => peer.reset(),
        Event::Asked(from, sequence, t2) => peer.respond(from, sequence, time(t2)?),
        Event::Answers(want) => {
            let answer = peer.take_response();
            let answer = answer.map(|answer| (
                answer.requester,
                answer.sequence,
                answer.t2.value(),
            ));
            same_at(rt, &row, answer, want);
        }
        Event::Says(delay, rate, capable) => {
            same_at(rt, &row, says(peer), (delay, rate, capable));
        }
    }
    Ok(())
}

/// What a new port that may lose so many requests in a row does and gets, one after the other.
fn play(
    rt: &impl Abort,
    alloc: Global,
    what: &str,
    lost: u8,
    events: &[Event],
) -> Result<(), Fail> {
    let mut peer = new(alloc, lost)?;
    for event in events {
        take(rt, what, &mut peer, event)?;
    }
    Ok(())
}

#[test]
fn the_delay_is_half_of_what_is_left(rt: HostRuntime) -> Result<(), Fail> {
    let cases = [
        (
            "in nanoseconds",
            [1_000 * NS, 5_001_500 * NS, 5_011_500 * NS, 12_000 * NS],
            32_768_000,
        ),
        ("half is rounded down", [0, 0, 1_000, 2_001], 500),
        ("a negative delay is 0", [0, 0, 1_000, 999], 0),
        ("a little below 0 too", [0, 0, 1_001, 1_000], 0),
        ("fractions of t2 count", [0, 1, NS, NS + 1], 1),
        ("fractions of t3 count", [0, NS, 2 * NS - 1, NS + 1], 1),
        ("a response before its request", [0, 10, 0, 0], 5),
        ("a response long after", [0, 0, LAST_STAMP, LAST], 0),
        (
            "a response long before",
            [0, LAST_STAMP, 0, LAST],
            9_842_342_056_497_465_945_449_562_111,
        ),
        ("a clock that went back", [LAST, 0, 0, 0], 0),
    ];
    for (what, times, want) in cases {
        let mut peer = new(rt.alloc(), 9)?;
        same_at(&rt, &what, says(&peer), (None, 0, false));
        same_at(&rt, &what, exchanges(&rt, &mut peer, times)?, FIRST);
        same_at(&rt, &what, says(&peer), (Some(want), 0, false));
    }
    Ok(())
}

#[test]
fn the_rate_is_that_of_the_last_two_exchanges(rt: HostRuntime) -> Result<(), Fail> {
    let cases = [
        ("a faster clock", 10_001_i32, 10_000_i32, 219_902_325),
        ("much faster", 3, 2, 439_804_651),
        ("much slower", 1, 2, -439_804_651),
        ("no time passed", 5, 0, 0),
        ("time went back", 5, -1, 0),
    ];
    for (what, e3, e4, want) in cases {
        let mut peer = new(rt.alloc(), 9)?;
        let (t3, t4) = (100_000 + i128::from(e3), 100_000 + i128::from(e4));
        exchanges(&rt, &mut peer, [100_000, 100_000, 100_000, 100_000])?;
        exchanges(&rt, &mut peer, [100_000, 100_000, t3, t4])?;
        same_at(&rt, &what, peer.rate().q(), want);
    }
    Ok(())
}

#[test]
fn the_rate_is_that_over_the_window(rt: HostRuntime) -> Result<(), Fail> {
    let times = [
        (0, 0),
        (1_000_001, 1_000_000),
        (2_000_003, 2_000_000),
        (3_000_006, 3_000_000),
        (4_000_010, 4_000_000),
    ];
    let cases = [
        (1, [0, 2_199_023, 4_398_046, 6_597_069, 8_796_093]),
        (2, [0, 2_199_023, 3_298_534, 5_497_558, 7_696_581]),
        (3, [0, 2_199_023, 3_298_534, 4_398_046, 6_597_069]),
        (16, [0, 2_199_023, 3_298_534, 4_398_046, 5_497_558]),
    ];
    for (window, rates) in cases {
        let mut peer = over(rt.alloc(), 9, window)?;
        for _again in 0..2 {
            for ((t3, t4), want) in times.into_iter().zip(rates) {
                exchanges(&rt, &mut peer, [t4, t4, t3, t4])?;
                same_at(&rt, &(window, t4), peer.rate().q(), want);
            }
            peer.reset();
        }
    }
    Ok(())
}

#[test]
fn the_delay_counts_the_rate_with_its_own_exchange(rt: HostRuntime) -> Result<(), Fail> {
    let mut peer = new(rt.alloc(), 9)?;
    exchanges(&rt, &mut peer, [100_000, 100_000, 100_000, 100_000])?;
    exchanges(&rt, &mut peer, [90_000, 110_000, 110_001, 110_000])?;
    same(&rt, says(&peer), (Some(10_000), 219_902_325, true));
    Ok(())
}

#[test]
fn the_threshold_decides_from_the_second_exchange_on(rt: HostRuntime) -> Result<(), Fail> {
    let mut peer = new(rt.alloc(), 9)?;
    let cases = [
        ("the first", LONGEST, 0, FIRST, false),
        (
            "the second, at the threshold",
            LONGEST,
            2_000,
            CHANGED,
            true,
        ),
        ("another", LONGEST, 4_000, FIRST, true),
        ("one above it", LONGEST + 1, 6_000, CHANGED, false),
        ("another above it", LONGEST + 1, 8_000, FIRST, false),
        ("at the threshold again", LONGEST, 10_000, CHANGED, true),
    ];
    for (what, measured, begins, step, capable) in cases {
        let times = measuring(measured, begins);
        same_at(&rt, &what, exchanges(&rt, &mut peer, times)?, step);
        let delay = Some(i128::from(measured));
        same_at(&rt, &what, says(&peer), (delay, 0, capable));
    }
    Ok(())
}

#[test]
fn too_many_lost_requests_in_a_row_reset(rt: HostRuntime) -> Result<(), Fail> {
    let events = [
        Event::Exchanges(0, FIRST),
        Event::Exchanges(9, CHANGED),
        Event::Asks(50 * NS, 2),
        Event::Interval(false),
        Event::Says(Some(NS), 0, true),
        Event::Asks(60 * NS, 3),
        Event::Interval(true),
        Event::Says(None, 0, false),
        Event::Exchanges(70, FIRST),
        Event::Exchanges(80, CHANGED),
    ];
    play(&rt, rt.alloc(), "one may be lost", 1, &events)
}

#[test]
fn an_exchange_ends_the_row_of_lost_requests(rt: HostRuntime) -> Result<(), Fail> {
    let events = [
        Event::Exchanges(0, FIRST),
        Event::Exchanges(9, CHANGED),
        Event::Asks(40 * NS, 2),
        Event::Interval(false),
        Event::Exchanges(50, FIRST),
        Event::Interval(false),
        Event::Asks(60 * NS, 4),
        Event::Interval(false),
        Event::Exchanges(70, FIRST),
        Event::Interval(false),
        Event::Asks(80 * NS, 6),
        Event::Interval(false),
        Event::Exchanges(90, FIRST),
        Event::Interval(false),
        Event::Says(Some(NS), 0, true),
    ];
    play(&rt, rt.alloc(), "one may be lost", 1, &events)
}

#[test]
fn a_response_that_is_not_awaited_is_ignored(rt: HostRuntime) -> Result<(), Fail> {
    let others = [
        ("of the own clock", port(1, 2), 0, own()),
        ("to another request", neighbor(), 1, own()),
        ("to another port", neighbor(), 0, port(1, 2)),
        ("to another clock", neighbor(), 0, port(3, 1)),
    ];
    for (what, from, sequence, to) in others {
        let other = Reply { from, sequence, to };
        let events = [
            Event::Hears(awaited(0), 7, 9, Step::Ignored),
            Event::Asks(0, 0),
            Event::Hears(other, 7, 8, Step::Ignored),
            Event::Hears(awaited(0), 7, 9, Step::Recorded),
            Event::Hears(awaited(0), 1, 99, Step::Ignored),
            Event::Follows(awaited(0), 7, FIRST),
            Event::Says(Some(4), 0, false),
            Event::Hears(awaited(0), 7, 9, Step::Ignored),
        ];
        play(&rt, rt.alloc(), what, 9, &events)?;
    }
    Ok(())
}

#[test]
fn a_follow_up_that_is_not_awaited_is_ignored(rt: HostRuntime) -> Result<(), Fail> {
    let others = [
        ("of another port", port(2, 2), 0, own()),
        ("of another clock", port(3, 1), 0, own()),
        ("to another request", neighbor(), 1, own()),
        ("to another port", neighbor(), 0, port(1, 2)),
    ];
    for (what, from, sequence, to) in others {
        let other = Reply { from, sequence, to };
        let events = [
            Event::Asks(0, 0),
            Event::Follows(awaited(0), 7, Step::Ignored),
            Event::Hears(awaited(0), 7, 9, Step::Recorded),
            Event::Follows(other, 1, Step::Ignored),
            Event::Says(None, 0, false),
            Event::Follows(awaited(0), 7, FIRST),
            Event::Follows(awaited(0), 7, Step::Ignored),
        ];
        play(&rt, rt.alloc(), what, 9, &events)?;
    }
    Ok(())
}

#[test]
fn sequence_numbers_wrap(rt: HostRuntime) -> Result<(), Fail> {
    let mut peer = new(rt.alloc(), 9)?;
    for want in 0..=u16::MAX {
        same(&rt, requests(&rt, &mut peer, 0)?, want);
    }
    same(&rt, requests(&rt, &mut peer, 0)?, 0);
    Ok(())
}

#[test]
fn a_newer_request_replaces_one_that_is_open(rt: HostRuntime) -> Result<(), Fail> {
    let events = [
        Event::Exchanges(0, FIRST),
        Event::Exchanges(9, CHANGED),
        Event::Asks(50 * NS, 2),
        Event::Asks(60 * NS, 3),
        Event::Hears(awaited(2), 61 * NS, 62 * NS, Step::Ignored),
        Event::Hears(awaited(3), 61 * NS, 62 * NS, Step::Recorded),
        Event::Asks(70 * NS, 4),
        Event::Follows(awaited(3), 61 * NS, Step::Ignored),
        Event::Interval(false),
        Event::Says(Some(NS), 0, true),
    ];
    play(
        &rt,
        rt.alloc(),
        "the third asks before it is answered",
        1,
        &events,
    )
}

#[test]
fn a_reset_leaves_the_sequence_and_the_answer(rt: HostRuntime) -> Result<(), Fail> {
    let events = [
        Event::Exchanges(0, FIRST),
        Event::Exchanges(9, CHANGED),
        Event::Asked(neighbor(), 77, 5),
        Event::Asks(50 * NS, 2),
        Event::Reset,
        Event::Says(None, 0, false),
        Event::Interval(false),
        Event::Asks(60 * NS, 3),
        Event::Answers(Some((neighbor(), 77, 5))),
        Event::Answers(None),
    ];
    play(&rt, rt.alloc(), "a request is open", 1, &events)
}

#[test]
fn the_newest_request_is_answered_once(rt: HostRuntime) -> Result<(), Fail> {
    let events = [
        Event::Answers(None),
        Event::Asked(port(3, 4), 1, 5),
        Event::Asked(neighbor(), 2, -6),
        Event::Answers(Some((neighbor(), 2, -6))),
        Event::Answers(None),
    ];
    play(&rt, rt.alloc(), "two ask", 9, &events)
}

#[test]
fn laws_can_be_called(_rt: HostRuntime) {
    laws::clock_elapses();
    laws::clock_shows_time();
    laws::neighbor_rate_is_within();
    laws::good_link_by_elapsed();
    laws::good_link();
    laws::good_link_shows_neighbor();
    laws::capable_by_two_exchanges();
    laws::capability_turns();
}
