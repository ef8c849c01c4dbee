//! What a world is where memory is refused. Times are in ns.

ghost use Rattle.gptp_setup.specs.Intervals.{IsMoment};
ghost use Rattle.gptp_model.specs.Prompt.{DelaysFitIntervals};
ghost use Rattle.gptp_scenario.specs.Allowed.{IsFitAct};

use crate::same::same;
use arrayvec::ArrayVec;
use gptp_links::{Direction, PcgFate};
use gptp_samples::{identity, port};
use gptp_setup::MOST_PORTS;
use gptp_vector::{ClockId, Identity};
use gptp_world::{Act, Change, Network, NetworkFault, Octets, Params, Timed, World};
use std::alloc::{AllocError, Global};
use std::process::Abort;
use std::test::Fail;

/// What both systems have: intervals of 1 s, and of 125 ms for time, and a window, for which a port takes memory.
const PARAMS: Params = Params {
    announce: 0,
    sync: -3,
    pdelay: 0,
    timeout: 3,
    lost: 9,
    threshold: 800,
    turnaround: 1_000,
    residence: 1_000,
    sync_timeout: 0,
    granularity: 0,
    noise: 0,
    window: 2,
};

/// The interval of a system's only port.
fn interval() -> ArrayVec<i8, MOST_PORTS> {
    let mut intervals = ArrayVec::new();
    let _ = intervals.try_push(PARAMS.announce);
    intervals
}

/// Just before both ports ask for the second time. So far nothing has asked for memory; for its window each does then.
const ASKED_AGAIN: u64 = 999_999_999;

/// When the second system follows the first.
const SETTLED: u64 = 10_000_000_000;

/// Two systems, whose first ports a link joins; each frame takes 500 ns.
fn two(alloc: Global) -> Result<Network, NetworkFault> {
    let mut network = Network::new(alloc, PARAMS)?;
    network.add_system(identity(246, 1), 1, 0, 0, false, interval())?;
    network.add_system(identity(246, 2), 1, 0, 0, false, interval())?;
    network.add_link(port(1, 1), port(2, 1), 500, 500, 0, true)?;
    Ok(network)
}

/// What a world shows: its time and that of the last change, what is next, and what its systems follow.
#[derive(Debug, Drop, PartialEq, Eq)]
struct Shown {
    now: u64,
    last_change: u64,
    next: Option<Timed>,
    first: Option<(Identity, u16, Option<u8>)>,
    second: Option<(Identity, u16, Option<u8>)>,
}

fn look_at(world: &World<PcgFate>) -> Shown {
    Shown {
        now: world.now(),
        last_change: world.last_change(),
        next: world.next(),
        first: world.follows(ClockId::from(1)),
        second: world.follows(ClockId::from(2)),
    }
}

/// Whether the next act could be done.
fn do_next(world: &mut World<PcgFate>) -> bool {
    match world.next() {
        Some(timed) => match timed.at <= SETTLED {
            true => world.act(timed).is_ok(),
            false => false,
        },
        None => false,
    }
}

/// How many frames are injected in a row: more than there is room for.
const INJECTIONS: u32 = 20;

/// A frame of one octet.
fn one_octet(alloc: Global) -> Result<Octets, AllocError> {
    Octets::new([0].to_vec(alloc)?).ok_or(AllocError)
}

/// Tells which call was refused.
fn tell(rt: &HostRuntime, call: &str) -> Result<(), Fail> {
    println!(rt; "refused: {call}")?;
    Ok(())
}

/// The network, asked for again where memory is refused.
fn build(rt: &HostRuntime) -> Result<Network, Fail> {
    if let Ok(network) = two(rt.alloc()) {
        return Ok(network);
    }
    tell(rt, "network")?;
    Ok(two(rt.alloc())?)
}

/// The world of the network as it begins, asked for again where memory is refused.
fn begin(rt: &HostRuntime, network: &Network) -> Result<World<PcgFate>, Fail> {
    if let Ok(world) = World::new(rt.alloc(), network, PcgFate::new(0)) {
        return Ok(world);
    }
    tell(rt, "new")?;
    Ok(World::new(rt.alloc(), network, PcgFate::new(0))?)
}

/// Does the next act, and again where memory is refused: whether it was done in the end, and a world in which it was
/// refused was as before.
fn act(rt: &HostRuntime, world: &mut World<PcgFate>) -> Result<bool, Fail> {
    let before = look_at(world);
    if do_next(world) {
        return Ok(true);
    }
    tell(rt, "act")?;
    let kept = look_at(world) == before;
    Ok(do_next(world) && kept)
}

/// Takes a world on to the time at which it has settled, and again where memory is refused: whether it got there, and
/// no further where it was refused.
fn settle(rt: &HostRuntime, world: &mut World<PcgFate>) -> Result<bool, Fail> {
    if world.advance(SETTLED).is_ok() {
        return Ok(true);
    }
    tell(rt, "advance")?;
    let short = world.now() <= SETTLED;
    Ok(world.advance(SETTLED).is_ok() && short)
}

/// The octets of a frame, asked for again where memory is refused.
fn frame(rt: &HostRuntime) -> Result<Octets, Fail> {
    if let Ok(octets) = one_octet(rt.alloc()) {
        return Ok(octets);
    }
    tell(rt, "octets")?;
    Ok(one_octet(rt.alloc())?)
}

/// Does an injection again that was refused: whether it is done now, and the world was as before.
fn inject_again(
    rt: &HostRuntime,
    world: &mut World<PcgFate>,
    injection: &Timed,
    before: &Shown,
) -> Result<bool, Fail>
    requires moment { IsMoment injection.now.at }
    requires fit { IsFitAct injection.now.act }
    requires prompt { DelaysFitIntervals world.old.world_core injection.now.act }
{
    tell(rt, "carry_out")?;
    let kept = look_at(world) == *before;
    Ok(world.carry_out(injection).is_ok() && kept)
}

/// Injects these octets several times in a row, each time again where memory is refused: whether all was done, and a
/// world in which one was refused was as before. After each injection it makes changes that change nothing.
fn inject_all(rt: &HostRuntime, world: &mut World<PcgFate>, octets: Octets) -> Result<bool, Fail> {
    let injection = Timed {
        at: SETTLED,
        act: Act::Change(Change::Inject {
            clock: ClockId::from(1),
            port: 1,
            octets,
        }),
    };
    let mut done = true;
    for _ in 0..INJECTIONS {
        let before = look_at(world);
        if world.carry_out(&injection).is_err() {
            done = inject_again(rt, world, &injection, &before)? && done;
        }
        done = change_nothing(world) && done;
    }
    Ok(done)
}

/// Whether a change is done, once the world has settled.
fn change(world: &mut World<PcgFate>, change: Change) -> bool
    requires fit { IsFitAct (Act.Change change) }
    requires prompt { DelaysFitIntervals world.old.world_core (Act.Change change) }
{
    let timed = Timed {
        at: SETTLED,
        act: Act::Change(change),
    };
    world.act(timed).is_ok()
}

/// Whether a link that is up comes up, and a system that lives starts again. Neither asks for memory.
fn change_nothing(world: &mut World<PcgFate>) -> bool {
    let up = Change::LinkUp {
        clock: ClockId::from(1),
        port: 1,
    };
    let live = Change::Recover {
        clock: ClockId::from(2),
    };
    change(world, up) && change(world, live)
}

/// Whether the link goes down, in the end.
fn take_down(rt: &HostRuntime, world: &mut World<PcgFate>) -> Result<bool, Fail> {
    let down = Change::LinkDown {
        clock: ClockId::from(1),
        port: 1,
    };
    if change(world, down) {
        return Ok(true);
    }
    tell(rt, "link_down")?;
    let again = Change::LinkDown {
        clock: ClockId::from(1),
        port: 1,
    };
    Ok(change(world, again))
}

/// Whether nothing comes of octets that are injected where the link is down, and of a link that goes down again.
/// Neither asks for memory.
fn change_nothing_below(world: &mut World<PcgFate>, octets: Octets) -> bool {
    let inject = Change::Inject {
        clock: ClockId::from(1),
        port: 1,
        octets,
    };
    let down = Change::LinkDown {
        clock: ClockId::from(2),
        port: 1,
    };
    change(world, inject) && change(world, down)
}

/// Whether the first system fails. That asks for no memory.
fn fail(world: &mut World<PcgFate>) -> bool {
    let failure = Change::Fail {
        clock: ClockId::from(1),
    };
    change(world, failure)
}

/// Expects what the world has come to.
fn expect_settled(rt: &impl Abort, world: &World<PcgFate>) {
    let after = look_at(world);
    same(rt, after.now, SETTLED);
    same(
        rt,
        after.next,
        Some(Timed {
            at: 10_000_000_500,
            act: Act::Deliver {
                link: 0,
                direction: Direction::FromA,
            },
        }),
    );
    same(rt, after.first, Some((identity(246, 1), 0, None)));
    same(rt, after.second, Some((identity(246, 1), 1, Some(1))));
}

#[test]
fn a_refused_allocation_leaves_the_world(rt: HostRuntime) -> Result<(), Fail> {
    let network = build(&rt)?;
    let mut world = begin(&rt, &network)?;
    assert!(rt; world.advance(ASKED_AGAIN).is_ok());
    for _ in 0..20 {
        assert!(rt; act(&rt, &mut world)?);
    }
    assert!(rt; settle(&rt, &mut world)?);
    expect_settled(&rt, &world);
    let octets = frame(&rt)?;
    assert!(rt; inject_all(&rt, &mut world, octets)?);
    same(&rt, world.last_change(), SETTLED);
    Ok(())
}

#[test]
fn a_failure_asks_for_no_memory(rt: HostRuntime) -> Result<(), Fail> {
    let network = build(&rt)?;
    let mut world = begin(&rt, &network)?;
    assert!(rt; settle(&rt, &mut world)?);
    let octets = frame(&rt)?;
    assert!(rt; take_down(&rt, &mut world)?);
    assert!(rt; change_nothing_below(&mut world, octets));
    assert!(rt; fail(&mut world));
    assert!(rt; fail(&mut world));
    same(&rt, world.live(ClockId::from(1)), false);
    Ok(())
}
