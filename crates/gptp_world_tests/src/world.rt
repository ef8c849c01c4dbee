//! A world that goes on by itself, or by one act after another. Times are in ns.

ghost use Rattle.std.specs.Prelude.{◌≡◌};
ghost use Rattle.gptp_setup.specs.Intervals.{IsMoment};
ghost use Rattle.gptp_model.specs.Prompt.{DelaysFitIntervals};
ghost use Rattle.gptp_scenario.specs.Allowed.{IsFitAct};

use crate::same::same;
use gptp_links::{Direction, Fate, ListFate, PcgFate};
use gptp_model::Carried;
use gptp_network::Document;
use gptp_samples::TWO;
use gptp_system::Timer;
use gptp_vector::ClockId;
use gptp_world::{Act, Done, Refused, Timed, World};
use std::alloc::Global;
use std::test::Fail;

/// The clock with this number.
pub(crate) fn clock(number: u64) -> ClockId {
    ClockId::of_octets(number.to_be_bytes())
}

/// Two systems, clocks 1 and 2, whose first ports a link joins; each frame takes 500 to 900 ns.
pub(crate) const SPREAD: &str =
    "version = 1\n[[system]]\nclock = \"0000000000000001\"\n[[system]]\nclock = \"0000000000000002\"\n[[link]]\na = \"0000000000000001\"\na_port = 1\nb = \"0000000000000002\"\nb_port = 1\nmin = 500\nmax = 900\n";

/// One system, with clock 5.
const ONE: &str = "version = 1\n[[system]]\nclock = \"0000000000000005\"\n";

/// Three systems, with clocks 9, 2 and 5.
const THREE: &str =
    "version = 1\n[[system]]\nclock = \"0000000000000009\"\n[[system]]\nclock = \"0000000000000002\"\n[[system]]\nclock = \"0000000000000005\"\n";

/// A frame from end a of link 0 arrives.
pub(crate) const ARRIVAL: Act = Act::Deliver {
    link: 0,
    direction: Direction::FromA,
};

/// The first request of port 1 of clock 1, in its 54 octets (IEEE 802.1AS-2020, 11.4.5).
const REQUEST: [u8; 54] = [
    0x12, 0x12, 0, 0x36, 0, 0, 0, 8, 0, 0, 0, 0, 0, 0, 0, 0, 0, 0, 0, 0, 0, 0, 0, 0, 0, 0, 0, 1, 0,
    1, 0, 0, 0, 0, 0, 0, 0, 0, 0, 0, 0, 0, 0, 0, 0, 0, 0, 0, 0, 0, 0, 0, 0, 0,
];

/// A frame from its end b arrives.
pub(crate) const ARRIVAL_FROM_B: Act = Act::Deliver {
    link: 0,
    direction: Direction::FromB,
};

/// A frame arrives over a link that isn't there.
const STRAY: Act = Act::Deliver {
    link: 9,
    direction: Direction::FromA,
};

/// The world of a document, as it begins.
pub(crate) fn begun(alloc: Global, document: &str) -> Result<World<PcgFate>, Fail> {
    let document = Document::read(alloc, document.as_bytes())?;
    Ok(World::new(alloc, document.network(), PcgFate::new(0))?)
}

/// What goes on by itself is done at that time, or refused.
pub(crate) fn act<F: Fate + Drop>(world: &mut World<F>, at: u64, act: Act) -> Result<Done, Refused>
    requires moment { IsMoment at }
    requires fit { IsFitAct act }
    requires prompt { DelaysFitIntervals world.old.world_core act }
{
    world.act(Timed { at, act })
}

/// It goes on up to a time, or that is refused.
pub(crate) fn advance<F: Fate + Drop>(world: &mut World<F>, until: u64) -> Result<(), Refused>
    requires { IsMoment until }
{
    world.advance(until)
}

/// When the next act is due.
fn next_at(world: &World<PcgFate>) -> Option<u64> {
    match world.next() {
        Some(next) => Some(next.at),
        None => None,
    }
}

/// The clocks of the systems, by rank.
fn ranked(world: &World<PcgFate>) -> [Option<ClockId>; 4] {
    [
        world.clock_at(0),
        world.clock_at(1),
        world.clock_at(2),
        world.clock_at(3),
    ]
}

/// The clock that the system with this number follows, how many steps away, and by which port.
fn followed(world: &World<PcgFate>, number: u64) -> Option<(ClockId, u16, Option<u8>)> {
    let (root, steps, slave) = world.system(clock(number))?.follows();
    Some((root.clock(), steps, slave))
}

/// How far ahead of that clock its own is, in units of 2^-16 ns.
fn offset(world: &World<PcgFate>, number: u64) -> Option<i128> {
    Some(world.system(clock(number))?.offset()?.value())
}

#[test]
fn a_world_goes_on_by_itself(rt: HostRuntime) -> Result<(), Fail> {
    let mut world = begun(rt.alloc(), TWO)?;
    same(&rt, advance(&mut world, 1_000), Ok(()));
    same(&rt, world.now(), 1_000);
    same(
        &rt,
        act(&mut world, 500, ARRIVAL).err(),
        Some(Refused::InThePast),
    );
    same(&rt, advance(&mut world, 500), Err(Refused::InThePast));
    same(&rt, world.now(), 1_000);
    same(&rt, advance(&mut world, 26_000_000_000), Ok(()));
    same(&rt, world.now(), 26_000_000_000);
    same(&rt, world.last_change(), 0);
    same(&rt, next_at(&world) > Some(26_000_000_000), true);
    same(&rt, followed(&world, 1), Some((clock(1), 0, None)));
    same(&rt, followed(&world, 2), Some((clock(1), 1, Some(1))));
    same(&rt, offset(&world, 2), Some(65_536_000_000));
    Ok(())
}

#[test]
fn clocks_stand_by_rank(rt: HostRuntime) -> Result<(), Fail> {
    let alloc = rt.alloc();
    let one = begun(alloc, ONE)?;
    same(&rt, ranked(&one), [Some(clock(5)), None, None, None]);
    let three = begun(alloc, THREE)?;
    let ranks = [Some(clock(2)), Some(clock(5)), Some(clock(9)), None];
    same(&rt, ranked(&three), ranks);
    same(&rt, three.clock_at(usize::MAX), None);
    Ok(())
}

/// The first port of the system with this clock answers a request.
fn answer(clock: ClockId) -> Act
    ensures { result ≡ Act.Expire clock (Timer.Respond 1) }
{
    Act::Expire {
        clock,
        timer: Timer::Respond(1),
    }
}

/// The act at that time.
pub(crate) fn timed(at: u64, act: Act) -> Timed
    ensures at { result.at ≡ at }
    ensures act { result.act ≡ act }
{
    Timed { at, act }
}

/// The octets of a frame.
pub(crate) fn octets_of(alloc: Global, frame: &Carried) -> Result<Vec<u8>, Fail> {
    let mut octets = Vec::new(alloc);
    frame.write(&mut octets)?;
    Ok(octets)
}

/// Whether an act told that port 1 of clock 2 heard that request.
fn tells_request(alloc: Global, done: &Done) -> Result<bool, Fail> {
    match done {
        Done::Heard {
            clock: hearer,
            port,
            frame,
            ..
        } => {
            let octets = octets_of(alloc, frame)?;
            Ok(*hearer == clock(2) && *port == 1 && octets.as_slice() == REQUEST.as_slice())
        }
        Done::Quiet => Ok(false),
    }
}

#[test]
fn an_act_is_refused_by_the_first_test(rt: HostRuntime) -> Result<(), Fail> {
    let mut world = begun(rt.alloc(), TWO)?;
    same(
        &rt,
        act(&mut world, 400, ARRIVAL).err(),
        Some(Refused::NotDue),
    );
    same(
        &rt,
        act(&mut world, 600, ARRIVAL).err(),
        Some(Refused::Untimely),
    );
    same(&rt, act(&mut world, 0, STRAY).err(), Some(Refused::NoSuch));
    same(&rt, world.now(), 0);
    let done = act(&mut world, 500, ARRIVAL)?;
    same(&rt, tells_request(rt.alloc(), &done)?, true);
    same(&rt, world.now(), 500);
    same(&rt, advance(&mut world, 1_000), Ok(()));
    same(
        &rt,
        act(&mut world, 500, STRAY).err(),
        Some(Refused::InThePast),
    );
    Ok(())
}

/// A frame that is due, and one that would have been due before.
const ONE_TOO_LATE: [Timed; 2] = [
    Timed {
        at: 500,
        act: ARRIVAL,
    },
    Timed {
        at: 400,
        act: ARRIVAL_FROM_B,
    },
];

#[test]
fn a_list_of_acts_stops_at_the_first_refusal(rt: HostRuntime) -> Result<(), Fail> {
    let mut world = begun(rt.alloc(), TWO)?;
    same(&rt, world.play(&ONE_TOO_LATE), Err((1, Refused::InThePast)));
    same(&rt, world.now(), 500);
    Ok(())
}

#[test]
fn acts_of_one_moment_go_in_any_order(rt: HostRuntime) -> Result<(), Fail> {
    let alloc = rt.alloc();
    let document = Document::read(alloc, SPREAD.as_bytes())?;
    // two requests, and the first answer; then every frame takes 900 ns
    let fate = ListFate::new(vec![in alloc; Some(500), Some(500), Some(600)]?);
    let mut world = World::new(alloc, document.network(), fate)?;
    same(&rt, world.next(), Some(timed(500, ARRIVAL)));
    same(&rt, act(&mut world, 500, ARRIVAL_FROM_B).err(), None);
    same(&rt, world.next(), Some(timed(500, ARRIVAL)));
    same(&rt, act(&mut world, 500, ARRIVAL).err(), None);
    // each answers 1,000 ns later: the one that heard first is next
    same(&rt, world.next(), Some(timed(1_500, answer(clock(1)))));
    same(&rt, act(&mut world, 1_500, answer(clock(2))).err(), None);
    same(&rt, world.next(), Some(timed(1_500, answer(clock(1)))));
    same(&rt, act(&mut world, 1_500, answer(clock(1))).err(), None);
    same(&rt, world.next(), Some(timed(2_100, ARRIVAL_FROM_B)));
    same(&rt, world.now(), 1_500);
    Ok(())
}
