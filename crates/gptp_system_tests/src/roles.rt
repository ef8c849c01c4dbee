//! What a system makes of what its ports hold.

ghost use Rattle.std.specs.Prelude.{◌≡◌, ◌<◌, ◌≤◌, length};
ghost use Rattle.std.specs.Option.{ForSome};
ghost use Rattle.gptp_receipt.specs.Held.{received};
ghost use Rattle.gptp_roles.specs.Choice.{IsPlaced};

use crate::same::same;
use gptp_receipt::{Held, Reception};
use gptp_roles::{
    Role, chosen_vector_is_one, one_slave_port, select, selection_is_at_rest, trace_of,
};
use gptp_samples::{identity, port};
use gptp_vector::{ClockId, Identity, Trace, Vector};
use std::process::Abort;
use std::test::Fail;

/// What a port holds that received a vector with this root and these steps, from a port of a clock that
/// is its path.
fn heard(receiver: u16, root: Identity, steps: u16, source: (u64, u16)) -> Held
    requires { steps < 255 }
    ensures { ForSome (received result) (IsPlaced receiver) }
{
    Held::Received(Reception {
        vector: Vector {
            root,
            steps,
            source: port(source.0, source.1),
            receiver,
        },
        path: path_of(source.0),
        interval: 0,
        at: 0,
    })
}

/// The trace of one clock.
fn path_of(clock: u64) -> Trace
    ensures { length result ≤ 255 }
{
    let mut path = Trace::empty();
    path.append(ClockId::from(clock)).unwrap();
    path
}

/// Whether a port holds its master vector with this root and these steps.
fn assert_mine(rt: &impl Abort, held: &Held, want_root: Identity, want_steps: u16) {
    let Held::Mine { root, steps } = held else {
        panic!(rt; "not Mine: {held:?}");
    };
    same(rt, *root, want_root);
    same(rt, *steps, want_steps);
}

#[test]
fn the_nearer_neighbour_is_followed(rt: HostRuntime) -> Result<(), Fail> {
    let (own, root) = (identity(246, 3), identity(246, 1));
    let mut held = [
        heard(1, root, 0, (1, 2)),
        heard(2, root, 1, (2, 2)),
        Held::Aged,
    ];
    let selected = select(&own, &mut held);
    same(&rt, selected.root, root);
    same(&rt, selected.steps, 1);
    same(&rt, selected.slave, Some(1));
    same(
        &rt,
        selected.roles.as_slice(),
        [Role::Slave, Role::Passive, Role::Master].as_slice(),
    );
    same(
        &rt,
        selected.fresh.as_slice(),
        [false, false, true].as_slice(),
    );
    assert_mine(&rt, &held[2], root, 1);
    assert!(rt; matches!(held[0], Held::Received(_)));
    assert!(rt; matches!(held[1], Held::Received(_)));
    let trace = trace_of(ClockId::from(3), &held, &selected);
    same(
        &rt,
        trace.as_slice(),
        [ClockId::from(1), ClockId::from(3)].as_slice(),
    );

    let again = select(&own, &mut held);
    same(&rt, again.slave, Some(1));
    same(&rt, again.roles.as_slice(), selected.roles.as_slice());
    same(
        &rt,
        again.fresh.as_slice(),
        [false, false, false].as_slice(),
    );
    Ok(())
}

#[test]
fn a_system_without_ports_follows_itself(rt: HostRuntime) -> Result<(), Fail> {
    let own = identity(246, 3);
    let selected = select(&own, &mut []);
    same(&rt, selected.root, own);
    same(&rt, selected.steps, 0);
    same(&rt, selected.slave, None);
    assert!(rt; selected.roles.is_empty());
    assert!(rt; selected.fresh.is_empty());
    let trace = trace_of(ClockId::from(3), &[], &selected);
    same(&rt, trace.as_slice(), [ClockId::from(3)].as_slice());
    Ok(())
}

#[test]
fn of_parallel_links_the_one_from_the_lower_port_is_followed(rt: HostRuntime) -> Result<(), Fail> {
    let (own, root) = (identity(246, 2), identity(246, 1));
    let mut straight = [heard(1, root, 0, (1, 1)), heard(2, root, 0, (1, 2))];
    let selected = select(&own, &mut straight);
    same(&rt, selected.slave, Some(1));
    same(
        &rt,
        selected.roles.as_slice(),
        [Role::Slave, Role::Passive].as_slice(),
    );

    let mut crossed = [heard(1, root, 0, (1, 2)), heard(2, root, 0, (1, 1))];
    let selected = select(&own, &mut crossed);
    same(&rt, selected.slave, Some(2));
    same(
        &rt,
        selected.roles.as_slice(),
        [Role::Passive, Role::Slave].as_slice(),
    );
    Ok(())
}

#[test]
fn a_lower_clock_goes_before_a_lower_port(rt: HostRuntime) -> Result<(), Fail> {
    let (own, root) = (identity(246, 4), identity(246, 1));
    let mut held = [heard(1, root, 1, (3, 1)), heard(2, root, 1, (2, 2))];
    let selected = select(&own, &mut held);
    same(&rt, selected.slave, Some(2));
    same(
        &rt,
        selected.roles.as_slice(),
        [Role::Passive, Role::Slave].as_slice(),
    );
    Ok(())
}

#[test]
fn what_is_worse_is_dropped_by_a_master_port(rt: HostRuntime) -> Result<(), Fail> {
    let own = identity(246, 1);
    let mut held = [heard(1, identity(246, 2), 0, (2, 1)), Held::Disabled];
    let selected = select(&own, &mut held);
    same(&rt, selected.root, own);
    same(&rt, selected.slave, None);
    same(
        &rt,
        selected.roles.as_slice(),
        [Role::Master, Role::Disabled].as_slice(),
    );
    same(&rt, selected.fresh.as_slice(), [true, false].as_slice());
    assert_mine(&rt, &held[0], own, 0);
    assert!(rt; matches!(held[1], Held::Disabled));
    Ok(())
}

#[test]
fn changed_steps_are_announced(rt: HostRuntime) -> Result<(), Fail> {
    let (own, root) = (identity(246, 3), identity(246, 1));
    let mut held = [heard(1, root, 4, (2, 1)), Held::Mine { root, steps: 1 }];
    let selected = select(&own, &mut held);
    same(&rt, selected.steps, 5);
    same(&rt, selected.fresh.as_slice(), [false, true].as_slice());
    assert_mine(&rt, &held[1], root, 5);
    Ok(())
}

#[test]
fn a_root_that_is_not_capable_is_followed_too(rt: HostRuntime) -> Result<(), Fail> {
    let (own, root) = (identity(255, 2), identity(255, 1));
    let mut held = [heard(1, root, 0, (1, 1))];
    let selected = select(&own, &mut held);
    same(&rt, selected.root, root);
    assert!(rt; !selected.root.capable());
    same(&rt, selected.roles.as_slice(), [Role::Slave].as_slice());
    Ok(())
}

#[test]
fn the_last_of_sixteen_ports_is_followed(rt: HostRuntime) -> Result<(), Fail> {
    let (own, root) = (identity(246, 3), identity(246, 1));
    let mut held = [
        Held::Aged,
        Held::Aged,
        Held::Aged,
        Held::Aged,
        Held::Aged,
        Held::Aged,
        Held::Aged,
        Held::Aged,
        Held::Aged,
        Held::Aged,
        Held::Aged,
        Held::Aged,
        Held::Aged,
        Held::Aged,
        Held::Aged,
        heard(16, root, 0, (1, 1)),
    ];
    let selected = select(&own, &mut held);
    same(&rt, selected.slave, Some(16));
    same(&rt, selected.roles.len(), 16);
    same(&rt, selected.roles[0], Role::Master);
    same(&rt, selected.roles[15], Role::Slave);
    assert_mine(&rt, &held[14], root, 1);
    Ok(())
}

#[test]
fn laws_run() {
    chosen_vector_is_one();
    selection_is_at_rest();
    one_slave_port();
}
