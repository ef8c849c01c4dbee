//! The links of a world that are up between two live systems. Times are in ns.

ghost use Rattle.std.specs.Prelude.{◌≡◌};
ghost use Rattle.gptp_setup.specs.Intervals.{IsMoment};
ghost use Rattle.gptp_model.specs.Prompt.{DelaysFitIntervals};
ghost use Rattle.gptp_scenario.specs.Allowed.{IsFitAct};

use crate::intervals::intervals;
use crate::same::{same, same_at};
use gptp_links::PcgFate;
use gptp_vector::{ClockId, Identity, PortId};
use gptp_world::{Act, Change, Network, NetworkFault, Params, Timed, World};
use std::alloc::Global;
use std::process::Abort;
use std::test::Fail;

/// Intervals of 1 s.
const PARAMS: Params = Params {
    announce: 0,
    sync: -3,
    pdelay: 0,
    timeout: 3,
    lost: 9,
    threshold: 800,
    turnaround: 1_000,
    residence: 1_000,
    sync_timeout: 0,
    granularity: 0,
    noise: 0,
    window: 1,
};

/// The clock with this number.
fn clock(number: u8) -> ClockId {
    ClockId::of_octets([0, 0, 0, 0, 0, 0, 0, number])
}

/// A port of the system with this clock.
fn port(number: u8, port: u16) -> PortId {
    PortId {
        clock: clock(number),
        port,
    }
}

/// Four systems in a line, the second link of which begins at its far end; the third is down at first.
fn line(alloc: Global) -> Result<Network, NetworkFault> {
    let mut network = Network::new(alloc, PARAMS)?;
    for number in 1..=4 {
        let identity = Identity::of_octets([
            246, 248, 254, 0x43, 0x6a, 248, 0, 0, 0, 0, 0, 0, 0, number,
        ]);
        network.add_system(identity, 2, 0, 0, false, intervals(&[0, 0]))?;
    }
    network.add_link(port(1, 2), port(2, 1), 500, 500, 0, true)?;
    network.add_link(port(3, 1), port(2, 2), 500, 500, 0, true)?;
    network.add_link(port(3, 2), port(4, 1), 500, 500, 0, false)?;
    Ok(network)
}

/// The ends of each of the three links.
fn ends(link: usize) -> Option<(PortId, PortId)> {
    match link {
        1 => Some((port(1, 2), port(2, 1))),
        2 => Some((port(3, 1), port(2, 2))),
        3 => Some((port(3, 2), port(4, 1))),
        _ => None,
    }
}

/// Expects these links in use, by their numbers, and none past them.
fn expect(
    rt: &impl Abort,
    alloc: Global,
    world: &World<PcgFate>,
    step: &str,
    wanted: &[usize],
) -> Result<(), Fail> {
    let links = world.list_links(alloc)?;
    same_at(
        rt,
        &step,
        (world.links(), links.len()),
        (wanted.len(), wanted.len()),
    );
    for place in 0..wanted.len() {
        same_at(rt, &step, world.link_at(place), ends(wanted[place]));
        same_at(
            rt,
            &step,
            links.as_slice().get(place).copied(),
            ends(wanted[place]),
        );
    }
    same_at(rt, &step, world.link_at(wanted.len()), None);
    Ok(())
}

/// That change at time 0.
fn at_first(change: Change) -> Timed
    ensures at { result.at ≡ 0 }
    ensures act { result.act ≡ Act.Change change }
{
    Timed {
        at: 0,
        act: Act::Change(change),
    }
}

/// Does an act, and expects these links in use after it.
fn follow(
    rt: &impl Abort,
    alloc: Global,
    world: &mut World<PcgFate>,
    step: &str,
    timed: Timed,
    wanted: &[usize],
) -> Result<(), Fail>
    requires moment { IsMoment timed.at }
    requires fit { IsFitAct timed.act }
    requires prompt { DelaysFitIntervals world.old.world_core timed.act }
{
    world.act(timed)?;
    expect(rt, alloc, world, step, wanted)
}

#[test]
fn links_in_use_are_up_between_live_systems(rt: HostRuntime) -> Result<(), Fail> {
    let alloc = rt.alloc();
    let mut world = World::new(alloc, &line(alloc)?, PcgFate::new(1))?;
    expect(&rt, alloc, &world, "at first", &[1, 2])?;
    let fail = at_first(Change::Fail { clock: clock(1) });
    follow(&rt, alloc, &mut world, "a system has failed", fail, &[2])?;
    let up = at_first(Change::LinkUp {
        clock: clock(3),
        port: 2,
    });
    follow(&rt, alloc, &mut world, "a link is up", up, &[2, 3])?;
    let down = at_first(Change::LinkDown {
        clock: clock(2),
        port: 2,
    });
    follow(&rt, alloc, &mut world, "another is down", down, &[3])?;
    same(&rt, world.link_at(usize::MAX), None);
    Ok(())
}
