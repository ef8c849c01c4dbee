//! A line of systems that is longer than an Announce is told. Times are in ns.

use crate::intervals::intervals;
use crate::same::{same, same_at};
use gptp_certificate::{SystemLine, write_certificate};
use gptp_links::PcgFate;
use gptp_vector::{ClockId, Identity, PortId};
use gptp_world::{Network, NetworkFault, Params, World};
use std::alloc::Global;
use std::process::Abort;
use std::test::Fail;

/// Intervals of 1 s; Syncs are rare.
const PARAMS: Params = Params {
    announce: 0,
    sync: 4,
    pdelay: 0,
    timeout: 3,
    lost: 9,
    threshold: 800,
    turnaround: 1_000,
    residence: 1_000,
    sync_timeout: 0,
    granularity: 0,
    noise: 0,
    window: 1,
};

/// The clock with this number.
fn clock(number: u16) -> ClockId {
    let [high, low] = number.to_be_bytes();
    ClockId::of_octets([0, 0, 0, 0, 0, 0, high, low])
}

/// The identity with this clock, and all defaults.
pub(crate) fn identity(number: u16) -> Identity {
    let [high, low] = number.to_be_bytes();
    Identity::of_octets([246, 248, 254, 0x43, 0x6a, 248, 0, 0, 0, 0, 0, 0, high, low])
}

/// A port of the system with this clock.
pub(crate) fn port(number: u16, port: u16) -> PortId {
    PortId {
        clock: clock(number),
        port,
    }
}

/// A line of so many systems, with clocks from 1, each with its second port linked to the first of the next. Frames
/// take 500 ns.
pub(crate) fn line(alloc: Global, systems: u16) -> Result<Network, NetworkFault> {
    let mut network = Network::new(alloc, PARAMS)?;
    for number in 1..=systems {
        network.add_system(identity(number), 2, 0, 0, false, intervals(&[0, 0]))?;
    }
    for number in 1..systems {
        network.add_link(port(number, 2), port(number + 1, 1), 500, 500, 0, true)?;
    }
    Ok(network)
}

/// What a line states of a system: whether it is far, whether it has a parent, and how many ports.
#[derive(Clone, Copy, Debug, PartialEq, Eq)]
struct Stated {
    clock: ClockId,
    root: Identity,
    steps: u16,
    far: bool,
    parent: bool,
    ports: usize,
}

fn told(line: Option<&SystemLine>) -> Option<Stated> {
    let line = line?;
    Some(Stated {
        clock: line.clock,
        root: line.root,
        steps: line.steps,
        far: line.far,
        parent: line.parent.is_some(),
        ports: line.ports.len(),
    })
}

/// What is stated of a system that follows the first over so many steps.
fn near(number: u16, steps: u16) -> Option<Stated> {
    Some(Stated {
        clock: clock(number),
        root: identity(1),
        steps,
        far: false,
        parent: steps > 0,
        ports: 2,
    })
}

/// What is stated of a system that is too far to follow the first.
fn too_far(number: u16, steps: u16) -> Option<Stated> {
    Some(Stated {
        clock: clock(number),
        root: identity(1),
        steps,
        far: true,
        parent: false,
        ports: 0,
    })
}

/// By when a network of 300 systems settles: 3 + 3 intervals for each, 9 and 5 more.
const SETTLED: u64 = 1_814_000_000_000;

/// Expects what systems of the settled line follow.
fn expect_followed(rt: &impl Abort, world: &World<PcgFate>) {
    for (number, root, steps, slave) in [
        (1, 1, 0, None),
        (2, 1, 1, Some(1)),
        (255, 1, 254, Some(1)),
        (256, 1, 255, Some(1)),
        (257, 257, 0, None),
        (258, 257, 1, Some(1)),
        (300, 257, 43, Some(1)),
    ] {
        same_at(
            rt,
            &number,
            world.follows(clock(number)),
            Some((identity(root), steps, slave)),
        );
    }
}

/// Expects what is certified of them.
fn expect_certified(rt: &impl Abort, alloc: Global, world: &World<PcgFate>) -> Result<(), Fail> {
    let certificate = write_certificate(alloc, world)?;
    same(rt, (certificate.version(), certificate.len()), (2, 300));
    for (place, wanted) in [
        (0, near(1, 0)),
        (254, near(255, 254)),
        (255, too_far(256, 255)),
        (256, too_far(257, 256)),
        (299, too_far(300, 299)),
    ] {
        same_at(rt, &place, told(certificate.line(place)), wanted);
    }
    Ok(())
}

#[test]
fn a_system_255_steps_away_is_no_longer_told(rt: HostRuntime) -> Result<(), Fail> {
    let alloc = rt.alloc();
    let network = line(alloc, 300)?;
    same(&rt, network.settling_span(&[]), SETTLED);
    let mut world = World::new(alloc, &network, PcgFate::new(1))?;
    same(&rt, world.advance(SETTLED), Ok(()));
    expect_followed(&rt, &world);
    expect_certified(&rt, alloc, &world)
}
