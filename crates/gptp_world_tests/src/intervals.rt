//! Networks whose ports announce at intervals of their own.

use crate::far::{identity, port};
use crate::same::{same, same_at};
use arrayvec::ArrayVec;
use gptp_setup::MOST_PORTS;
use gptp_world::{Network, NetworkFault, Params};
use std::test::Fail;

/// The intervals of a system's ports.
pub(crate) fn intervals(logs: &[i8]) -> ArrayVec<i8, MOST_PORTS> {
    let mut intervals = ArrayVec::new();
    let _ = intervals.try_extend_from_slice(logs);
    intervals
}

/// Requests each second, and announcements each two where a port has no interval of its own.
const PARAMS: Params = Params {
    announce: 1,
    sync: -3,
    pdelay: 0,
    timeout: 3,
    lost: 9,
    threshold: 800,
    turnaround: 1_000,
    residence: 1_000,
    sync_timeout: 0,
    granularity: 0,
    noise: 0,
    window: 1,
};

#[test]
fn a_system_is_refused_by_its_intervals(rt: HostRuntime) -> Result<(), Fail> {
    let mut network = Network::new(rt.alloc(), PARAMS)?;
    same(
        &rt,
        (network.least_interval(), network.largest()),
        (2_000_000_000, 1),
    );
    network.add_system(identity(1), 2, 0, 0, false, intervals(&[2, 2]))?;
    network.add_system(identity(2), 1, 0, 0, false, intervals(&[3]))?;
    same(
        &rt,
        (network.least_interval(), network.largest()),
        (4_000_000_000, 3),
    );
    network.add_link(port(1, 1), port(2, 1), 1, 1_500_000_000, 0, true)?;
    let rows: [(&str, u16, &[i8], NetworkFault); 6] = [
        ("fewer than ports", 3, &[2], NetworkFault::OutOfRange),
        ("past the range", 3, &[2, 5], NetworkFault::OutOfRange),
        ("rare requests", 3, &[2, -1], NetworkFault::Timing),
        (
            "rare requests, and the clock is there",
            1,
            &[-1, 0],
            NetworkFault::Timing,
        ),
        (
            "the clock is there, and a link is slow",
            2,
            &[0, 0],
            NetworkFault::DuplicateClock,
        ),
        ("a link is slow", 3, &[2, 0], NetworkFault::DelayTooLong),
    ];
    for (name, clock, logs, want) in rows {
        let added = network.add_system(identity(clock), 2, 0, 0, false, intervals(logs));
        same_at(&rt, &name, added, Err(want));
        same_at(&rt, &name, network.systems(), 2);
        same_at(&rt, &name, network.least_interval(), 4_000_000_000);
    }
    network.add_system(identity(3), 2, 0, 0, false, intervals(&[1, 4]))?;
    same(
        &rt,
        (network.least_interval(), network.largest()),
        (2_000_000_000, 4),
    );
    Ok(())
}
