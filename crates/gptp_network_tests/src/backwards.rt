//! A world whose acts of one moment are done in the order that `next` would take last. Times are in ns.

ghost use Rattle.gptp_setup.specs.Intervals.{IsMoment};

use crate::ring::{
    FAILS, FOLLOWED_BEFORE, ROLES_BEFORE, SETTLED, begun, clock, document, fail, follow,
    is_settled, play,
};
use crate::same::same;
use gptp_links::{Direction, PcgFate};
use gptp_system::Timer;
use gptp_world::{Act, Done, Refused, Timed, World};
use std::test::Fail;

/// How many moments a run may have, and how many rounds a moment.
const MOMENTS: u32 = 100_000;

const ROUNDS: u32 = 100;

/// By when the choice and the roles stand after the start: two exchanges, the greatest delay for each system of a path
/// but one, and 1 ns. No announce interval has to pass, since delays don't vary.
const CHOSEN_BEFORE: u64 = 1_000_003_501;

/// By when they stand after the failure, by the span from any past.
const CHOSEN: u64 = 55_000_001_001;

/// Whether the choice and the roles stand at a time, where they should.
fn stands(world: &World<PcgFate>, at: u64) -> bool {
    if at < FAILS {
        return at < CHOSEN_BEFORE
            || (follow(world, &FOLLOWED_BEFORE) && play(world, &ROLES_BEFORE));
    }
    at < CHOSEN || is_settled(world)
}

/// What a round of acts came to.
#[derive(Drop)]
struct Round {
    /// Whether an act was done.
    any: bool,
    /// Whether the choice and the roles stood after each, where they should.
    stood: bool,
}

/// Whether an act that was tried was done; it may not be due, or not be there.
fn was_done(answer: Result<Done, Refused>) -> Result<bool, Refused> {
    match answer {
        Ok(_) => Ok(true),
        Err(Refused::NotDue) => Ok(false),
        Err(Refused::NoSuch) => Ok(false),
        Err(refused) => Err(refused),
    }
}

/// What came of an act that was tried at a time is noted.
fn note(
    world: &World<PcgFate>,
    round: &mut Round,
    at: u64,
    answer: Result<Done, Refused>,
) -> Result<(), Refused> {
    if was_done(answer)? {
        round.any = true;
        round.stood = round.stood && stands(world, at);
    }
    Ok(())
}

/// The oldest frame of a link and direction arrives, if it is due.
fn deliver(
    world: &mut World<PcgFate>,
    round: &mut Round,
    at: u64,
    link: usize,
    direction: Direction,
) -> Result<(), Refused>
    requires moment { IsMoment at }
{
    let answer = world.act(Timed {
        at,
        act: Act::Deliver { link, direction },
    });
    note(world, round, at, answer)
}

/// A timer of a system expires, if it is due.
fn expire(
    world: &mut World<PcgFate>,
    round: &mut Round,
    at: u64,
    number: u8,
    timer: Timer,
) -> Result<(), Refused>
    requires moment { IsMoment at }
{
    let answer = world.act(Timed {
        at,
        act: Act::Expire {
            clock: clock(number),
            timer,
        },
    });
    note(world, round, at, answer)
}

/// Of each link, the last first, a frame arrives each way, where one is due.
fn deliveries(world: &mut World<PcgFate>, round: &mut Round, at: u64) -> Result<(), Refused>
    requires moment { IsMoment at }
{
    for link in [3, 2, 1, 0] {
        for direction in [Direction::FromB, Direction::FromA] {
            deliver(world, round, at, link, direction)?;
        }
    }
    Ok(())
}

/// Of each system, the highest clock first, the timers expire that are due: those of the last port first, and then its
/// own.
fn expiries(world: &mut World<PcgFate>, round: &mut Round, at: u64) -> Result<(), Refused>
    requires moment { IsMoment at }
{
    for number in [4, 3, 2, 1] {
        for port in [3, 2, 1] {
            for timer in [
                Timer::Respond(port),
                Timer::Pdelay(port),
                Timer::Age(port),
                Timer::Announce(port),
            ] {
                expire(world, round, at, number, timer)?;
            }
        }
        for timer in [Timer::Lapse, Timer::Relay, Timer::Sync] {
            expire(world, round, at, number, timer)?;
        }
    }
    Ok(())
}

/// All that is due at a moment is done, over and over. Answers whether nothing is left, and all stood that should.
fn moment(world: &mut World<PcgFate>, at: u64) -> Result<bool, Refused>
    requires moment { IsMoment at }
{
    for _ in 0..ROUNDS {
        let mut round = Round {
            any: false,
            stood: true,
        };
        deliveries(world, &mut round, at)?;
        expiries(world, &mut round, at)?;
        if !round.stood {
            return Ok(false);
        }
        if !round.any {
            return Ok(true);
        }
    }
    Ok(false)
}

/// It goes on from moment to moment, before a time. Answers whether nothing is left that is due before it, and all
/// stood that should.
fn play_before(world: &mut World<PcgFate>, end: u64) -> Result<bool, Refused>
    requires moment { IsMoment end }
{
    for _ in 0..MOMENTS {
        let at = match world.next() {
            Some(timed) => timed.at,
            None => return Ok(true),
        };
        if end <= at {
            return Ok(true);
        }
        if !moment(world, at)? {
            return Ok(false);
        }
    }
    Ok(false)
}

/// It goes on until clock 1 fails. Answers whether all follow what they should by then.
fn comes_to_failure(world: &mut World<PcgFate>) -> Result<bool, Refused> {
    Ok(play_before(world, FAILS)? && follow(world, &FOLLOWED_BEFORE))
}

/// It goes on from the failure through the settling time, as what is due then belongs to it. Answers whether that
/// leaves nothing that is due by then.
fn comes_to_settle(world: &mut World<PcgFate>) -> Result<bool, Refused> {
    fail(world)?;
    Ok(world.last_change() == FAILS && play_before(world, SETTLED + 1)?)
}

/// Nothing is left to do up to the settling time. Answers whether it has settled then.
fn stands_settled(world: &mut World<PcgFate>) -> Result<bool, Refused> {
    world.advance(SETTLED)?;
    Ok(world.now() == SETTLED && is_settled(world))
}

/// Answers whether the world comes through all three.
fn settles(world: &mut World<PcgFate>) -> Result<bool, Refused> {
    Ok(comes_to_failure(world)? && comes_to_settle(world)? && stands_settled(world)?)
}

#[test]
fn ties_backwards(rt: HostRuntime) -> Result<(), Fail> {
    let mut world = begun(rt.alloc(), "min = 500\nmax = 500\n", 0)?;
    assert!(rt; settles(&mut world)?);
    Ok(())
}

#[test]
fn its_document_says_when_it_settles(rt: HostRuntime) -> Result<(), Fail> {
    let document = document(rt.alloc(), "min = 500\nmax = 500\n")?;
    same(&rt, document.settles(), SETTLED);
    Ok(())
}
