//! What is proved of two systems at rest, seen.

use crate::ages::age_in_time;
use crate::drawn::{
    announce_at_rest, capable_in_time, certify_at_rest, enabled_in_time, exact_in_time,
    follow_at_rest, follow_by_distance, follow_by_paths, hear_in_time, play_at_rest, second_then,
    whole,
};
use crate::readings::read_in_time;
use crate::same::same;
use crate::soon::follow_soon;
use crate::stamps::stamped_in_time;
use gptp_links::PcgFate;
use gptp_roles::Role;
use gptp_vector::{ClockId, Identity, PortId, Trace};
use std::test::Fail;

/// The clocks of a trace of two.
fn clocks(trace: &Trace) -> (usize, Option<ClockId>, Option<ClockId>) {
    (trace.len(), trace.get(0), trace.get(1))
}

#[test]
fn two_systems_at_rest_are_as_proved(rt: HostRuntime) -> Result<(), Fail> {
    let first = Identity::of_octets([246, 248, 254, 0x43, 0x6a, 248, 0, 0, 0, 0, 0, 0, 0, 1]);
    same(
        &rt,
        follow_at_rest(rt.alloc(), PcgFate::new(1))?,
        Some((first, 1, Some(1))),
    );
    same(
        &rt,
        play_at_rest(rt.alloc(), PcgFate::new(1))?,
        (Some(Role::Master), Some(Role::Slave)),
    );
    let trace = announce_at_rest(rt.alloc(), PcgFate::new(1))?;
    same(
        &rt,
        trace.as_ref().map(clocks),
        Some((2, Some(ClockId::from(1)), Some(ClockId::from(2)))),
    );
    same(
        &rt,
        capable_in_time(rt.alloc(), PcgFate::new(1))?,
        Some(true),
    );
    same(
        &rt,
        enabled_in_time(rt.alloc(), PcgFate::new(1))?.is_some_and(|role| role != Role::Disabled),
        true,
    );
    let offset = exact_in_time(rt.alloc(), PcgFate::new(1))?;
    same(
        &rt,
        offset.is_some_and(|offset| offset.value().unsigned_abs() <= 19),
        true,
    );
    let stamped = stamped_in_time(rt.alloc(), PcgFate::new(1))?;
    same(
        &rt,
        stamped.is_some_and(|offset| offset.value().unsigned_abs() <= 2_097_811),
        true,
    );
    let read = read_in_time(rt.alloc(), PcgFate::new(1))?;
    same(
        &rt,
        read.is_some_and(|(read, at)| read.abs_diff(i128::from(at) << 16) <= 31),
        true,
    );
    let age = age_in_time(rt.alloc(), PcgFate::new(1))?;
    same(&rt, age.is_some_and(|age| age <= 125_001_500), true);
    Ok(())
}

#[test]
fn the_second_follows_by_its_distance_and_by_paths(rt: HostRuntime) -> Result<(), Fail> {
    let first = Identity::of_octets([246, 248, 254, 0x43, 0x6a, 248, 0, 0, 0, 0, 0, 0, 0, 1]);
    let followed = Some((first, 1, Some(1)));
    same(
        &rt,
        follow_by_distance(rt.alloc(), PcgFate::new(1))?,
        followed,
    );
    same(&rt, follow_by_paths(rt.alloc(), PcgFate::new(1))?, followed);
    Ok(())
}

#[test]
fn the_second_follows_soon(rt: HostRuntime) -> Result<(), Fail> {
    let first = Identity::of_octets([246, 248, 254, 0x43, 0x6a, 248, 0, 0, 0, 0, 0, 0, 0, 1]);
    same(
        &rt,
        follow_soon(rt.alloc(), PcgFate::new(1))?,
        Some((first, 1, Some(1))),
    );
    Ok(())
}

#[test]
fn both_are_certified(rt: HostRuntime) -> Result<(), Fail> {
    let certificate = certify_at_rest(rt.alloc(), PcgFate::new(1))?;
    same(&rt, certificate.len(), 2);
    Ok(())
}

/// The port of the first system.
fn first_port() -> PortId {
    PortId {
        clock: ClockId::from(1),
        port: 1,
    }
}

#[test]
fn what_the_second_holds_came_from_the_first(rt: HostRuntime) -> Result<(), Fail> {
    let world = whole(rt.alloc(), PcgFate::new(1))?;
    same(
        &rt,
        second_then(&world).and_then(|system| system.parent()),
        Some((1, first_port())),
    );
    Ok(())
}

#[test]
fn what_the_second_hears_comes_from_the_first(rt: HostRuntime) -> Result<(), Fail> {
    same(
        &rt,
        hear_in_time(rt.alloc(), PcgFate::new(1))?,
        Some(first_port()),
    );
    Ok(())
}
