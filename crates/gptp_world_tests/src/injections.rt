//! Octets that are injected into a world. Times are in ns.

ghost use Rattle.gptp_setup.specs.Intervals.{IsMoment};

use crate::far::line;
use crate::same::{same, same_at};
use crate::world::{ARRIVAL, ARRIVAL_FROM_B, SPREAD, act, advance, begun, clock, octets_of, timed};
use gptp_links::{Fate, ListFate, PcgFate};
use gptp_messages::Refused as Unread;
use gptp_network::Document;
use gptp_samples::{FIRST_ANNOUNCE, TWO, frame, identity, port};
use gptp_system::Answer;
use gptp_vector::{ClockId, Trace};
use gptp_world::{Act, Change, Done, Octets, Refused, Timed, World};
use std::alloc::Global;
use std::test::Fail;

/// These octets are injected at a clock and port, at that time. Answers how that is refused, if it is.
fn inject<F: Fate + Drop>(
    world: &mut World<F>,
    alloc: Global,
    at: u64,
    place: (u64, u16),
    octets: &[u8],
) -> Result<Option<Refused>, Fail>
    requires moment { IsMoment at }
{
    let (number, port) = place;
    let octets = Octets::new(octets.to_vec(alloc)?).ok_or("too many octets")?;
    let change = Change::Inject {
        clock: clock(number),
        port,
        octets,
    };
    Ok(act(world, at, Act::Change(change)).err())
}

/// Whether an act told that port 1 of the system with this clock answered these octets so.
fn tells(
    alloc: Global,
    done: &Done,
    number: u64,
    answer: Option<Answer>,
    octets: &[u8],
) -> Result<bool, Fail> {
    match done {
        Done::Heard {
            clock: hearer,
            port,
            answer: told,
            frame,
        } => {
            let heard = octets_of(alloc, frame)?;
            let same = heard.as_slice() == octets;
            Ok(*hearer == clock(number) && *port == 1 && *told == answer && same)
        }
        Done::Quiet => Ok(false),
    }
}

#[test]
fn each_front_of_an_announce_is_short(rt: HostRuntime) -> Result<(), Fail> {
    let alloc = rt.alloc();
    let mut world = begun(alloc, TWO)?;
    for length in 1..76_u8 {
        let front = &FIRST_ANNOUNCE[..usize::from(length)];
        let at = 10_000 + 500 * u64::from(length);
        same_at(&rt, &length, advance(&mut world, at), Ok(()));
        let refused = inject(&mut world, alloc, at, (1, 1), front)?;
        same_at(&rt, &length, refused, None);
        same_at(&rt, &length, advance(&mut world, at + 499), Ok(()));
        let done = act(&mut world, at + 500, ARRIVAL)?;
        let short = tells(alloc, &done, 2, Some(Answer::Refused(Unread::Short)), front)?;
        same_at(&rt, &length, short, true);
    }
    Ok(())
}

#[test]
fn an_injection_is_refused_by_the_first_test(rt: HostRuntime) -> Result<(), Fail> {
    let alloc = rt.alloc();
    let mut world = begun(alloc, TWO)?;
    let untimely = inject(&mut world, alloc, 600, (1, 2), &[0])?;
    same(&rt, untimely, Some(Refused::Untimely));
    same(&rt, advance(&mut world, 1_000), Ok(()));
    let past = inject(&mut world, alloc, 500, (1, 2), &[0])?;
    same(&rt, past, Some(Refused::InThePast));
    for at in [(1, 0), (1, 2), (1, 17), (1, 65_535), (9, 1)] {
        let stray = inject(&mut world, alloc, 1_000, at, &[0])?;
        same_at(&rt, &at, stray, Some(Refused::NoSuch));
    }
    same(&rt, world.last_change(), 0);
    same(&rt, inject(&mut world, alloc, 1_000, (1, 1), &[0])?, None);
    same(&rt, world.last_change(), 1_000);
    Ok(())
}

#[test]
fn nothing_enters_a_link_that_is_down(rt: HostRuntime) -> Result<(), Fail> {
    let alloc = rt.alloc();
    let document = Document::read(alloc, SPREAD.as_bytes())?;
    // two requests, and the first of those after the link came up
    let fate = ListFate::new(vec![in alloc; Some(500), Some(500), Some(600)]?);
    let mut world = World::new(alloc, document.network(), fate)?;
    let down = Change::LinkDown {
        clock: clock(1),
        port: 1,
    };
    same(&rt, act(&mut world, 10, Act::Change(down)).err(), None);
    let next = world.next();
    same(&rt, inject(&mut world, alloc, 20, (1, 1), &[0])?, None);
    same(&rt, world.last_change(), 20);
    same(&rt, world.next(), next);
    let up = Change::LinkUp {
        clock: clock(1),
        port: 1,
    };
    same(&rt, act(&mut world, 30, Act::Change(up)).err(), None);
    same(&rt, world.next(), Some(timed(630, ARRIVAL)));
    Ok(())
}

#[test]
fn a_failed_system_stops_no_injection(rt: HostRuntime) -> Result<(), Fail> {
    let alloc = rt.alloc();
    let mut world = begun(alloc, TWO)?;
    same(&rt, advance(&mut world, 10_000), Ok(()));
    let failure = Change::Fail { clock: clock(1) };
    same(
        &rt,
        act(&mut world, 10_000, Act::Change(failure)).err(),
        None,
    );
    for number in [1, 2] {
        let refused = inject(&mut world, alloc, 10_000, (number, 1), &FIRST_ANNOUNCE)?;
        same_at(&rt, &number, refused, None);
    }
    let done = act(&mut world, 10_500, ARRIVAL)?;
    assert!(rt; tells(alloc, &done, 2, Some(Answer::Disabled), &FIRST_ANNOUNCE)?);
    let done = act(&mut world, 10_500, ARRIVAL_FROM_B)?;
    assert!(rt; tells(alloc, &done, 1, None, &FIRST_ANNOUNCE)?);
    Ok(())
}

/// When a line of three systems has settled.
const SETTLED: u64 = 32_000_000_000;

/// When all that comes of an injection then is over.
const END: u64 = SETTLED + 10_000;

/// How many acts happen by then, at most.
const ACTS: u32 = 1_000;

/// The number of the clock that heard a frame of so many octets, and what it answered; `None` where an act told of
/// none.
fn heard(alloc: Global, done: &Done, length: usize) -> Result<Option<(u64, Answer)>, Fail> {
    match done {
        Done::Heard {
            clock: hearer,
            answer: Some(answer),
            frame,
            ..
        } => {
            if octets_of(alloc, frame)?.len() == length {
                return Ok(Some((u64::from(*hearer), *answer)));
            }
            Ok(None)
        }
        _ => Ok(None),
    }
}

/// The number of the clock that hears the next frame of so many octets, by an act until [`END`], and what it answers;
/// `None` where no act tells of one.
fn next_of(
    alloc: Global,
    world: &mut World<PcgFate>,
    length: usize,
) -> Result<Option<(u64, Answer)>, Fail> {
    for _ in 0..ACTS {
        let Some(next) = world.next() else {
            return Ok(None);
        };
        if END < next.at {
            return Ok(None);
        }
        let done = world.act(next)?;
        let told = heard(alloc, &done, length)?;
        if told.is_some() {
            return Ok(told);
        }
    }
    Ok(None)
}

#[test]
fn a_trace_of_255_strangers_goes_one_hop(rt: HostRuntime) -> Result<(), Fail> {
    let alloc = rt.alloc();
    let mut path = Trace::empty();
    for stranger in 1_000..1_255_u64 {
        path.append(ClockId::from(stranger))?;
    }
    let forged = frame(alloc, port(99, 1), identity(1, 99), 0, &path)?;
    let network = line(alloc, 3)?;
    let mut world = World::new(alloc, &network, PcgFate::new(0))?;
    same(&rt, advance(&mut world, SETTLED), Ok(()));
    let refused = inject(&mut world, alloc, SETTLED, (1, 2), forged.as_slice())?;
    same(&rt, refused, None);
    // 68 octets, and 8 for each clock
    let near = next_of(alloc, &mut world, 2_108)?;
    same(&rt, near, Some((2, Answer::Superior)));
    let far = next_of(alloc, &mut world, 2_116)?;
    same(&rt, far, Some((3, Answer::Long)));
    let forged_root = Some((identity(1, 99), 1, Some(1)));
    same(&rt, world.follows(clock(2)), forged_root);
    let own_root = Some((identity(246, 1), 2, Some(1)));
    same(&rt, world.follows(clock(3)), own_root);
    Ok(())
}

#[test]
fn injections_of_one_moment_stay_in_order(rt: HostRuntime) -> Result<(), Fail> {
    let alloc = rt.alloc();
    let document = Document::read(alloc, SPREAD.as_bytes())?;
    // two requests, and two injections, of which the second would overtake the first
    let fate = ListFate::new(vec![in alloc; Some(500), Some(500), Some(800), Some(700)]?);
    let mut world = World::new(alloc, document.network(), fate)?;
    for octet in [1, 2] {
        let refused = inject(&mut world, alloc, 400, (1, 1), &[octet])?;
        same_at(&rt, &octet, refused, None);
    }
    same(&rt, advance(&mut world, 1_199), Ok(()));
    for octet in [1, 2] {
        let done = act(&mut world, 1_200, ARRIVAL)?;
        let short = tells(
            alloc,
            &done,
            2,
            Some(Answer::Refused(Unread::Short)),
            &[octet],
        )?;
        same_at(&rt, &octet, short, true);
    }
    Ok(())
}
