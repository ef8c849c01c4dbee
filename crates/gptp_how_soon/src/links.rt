//! Which links are new at a time, and which are lost; over which delays vary, and the greatest delay of links.

ghost use Rattle.std.specs.Prelude.{◌≡◌, ◌++◌, ◌&&◌, not, IfOk, OnOk, map};
ghost use Rattle.gptp_topology.specs.Course.{cable_is_used};
ghost use Rattle.gptp_how_soon.specs.Links.{delay_changed, delay_set, is_old_at, is_used_at, longest_among, lost_among, new_among, new_one, varies};

use gptp_scenario::{Act, Change};
use gptp_topology::{Cable, Standing, is_used};
use std::alloc::{AllocError, Global};

/// Whether the greatest delay of a link is twice the least or more.
pub(crate) fn varies(cable: &Cable) -> bool
    ensures { result ≡ varies cable.now }
{
    2 * u128::from(cable.bounds.min) <= u128::from(cable.bounds.max)
}

/// Writes which of these links are in use.
pub(crate) fn mark_used(used: &mut Vec<bool>, standings: &[Standing]) -> Result<(), AllocError>
    ensures { OnOk result (used.new.items ≡ map cable_is_used standings.now) }
{
    used.clear();
    for standing in standings {
        used.push(is_used(standing))?;
    }
    Ok(())
}

/// Whether the link at a place is among those in use.
pub(crate) fn is_used_at(used: &[bool], place: usize) -> bool
    ensures { result ≡ is_used_at used.now place }
{
    match used.get(place) {
        Some(used) => *used,
        None => false,
    }
}

/// Whether it was before a time that is the first or isn't.
fn is_old_at(first: bool, used_before: &[bool], place: usize) -> bool
    ensures { result ≡ is_old_at first used_before.now place }
{
    !first && is_used_at(used_before, place)
}

/// Puts a link after others, where it is in use and wasn't before.
fn push_new(new: &mut Vec<Cable>, standing: &Standing, used_before: bool) -> Result<(), AllocError>
    ensures { OnOk result (new.new.items ≡ new.old.items ++ new_one standing.now used_before) }
{
    if is_used(standing) && !used_before {
        new.push(standing.cable)?;
    }
    Ok(())
}

/// The links that are new at a time: in use, and not before; at 0 each in use.
pub(crate) fn new_links(
    alloc: Global,
    first: bool,
    standings: &[Standing],
    used_before: &[bool],
) -> Result<Vec<Cable>, AllocError>
    ensures { IfOk result (λ new. new.items ≡ new_among first standings.now used_before.now) }
{
    let mut new = Vec::new(alloc);
    for place in 0..standings.len() {
        push_new(
            &mut new,
            &standings[place],
            is_old_at(first, used_before, place),
        )?;
    }
    Ok(new)
}

/// Whether a link that was in use before, or wasn't, is lost.
fn is_gone(before: bool, now: bool) -> bool
    ensures { result ≡ (before && not now) }
{
    before && !now
}

/// Which links were in use before and aren't now.
pub(crate) fn lost_among(
    alloc: Global,
    used_before: &[bool],
    used: &[bool],
) -> Result<Vec<bool>, AllocError>
    ensures { IfOk result (λ lost. lost.items ≡ lost_among used_before.now used.now) }
{
    let mut lost = Vec::new(alloc);
    for place in 0..used_before.len() {
        lost.push(is_gone(used_before[place], is_used_at(used, place)))?;
    }
    Ok(lost)
}

/// The greatest delay of these links, in ns, or 0.
#[tactic(auto, using(gptp_topology::proofs::BoundLemmas::delay_moves))]
pub(crate) fn longest_among(cables: &[Cable]) -> u64
    ensures { result ≡ longest_among cables.now }
{
    let mut longest = 0;
    for cable in cables {
        longest = cable.bounds.max.max(longest);
    }
    longest
}

/// The delay, in ns, that a change lets a link have at most, or 0.
fn delay_changed(change: &Change) -> u64
    ensures { result ≡ delay_changed change.now }
{
    match *change {
        Change::LinkSet {
            clock: _,
            port: _,
            min: _,
            max,
            loss: _,
        } => max,
        Change::LinkDown { clock: _, port: _ } => 0,
        Change::LinkUp { clock: _, port: _ } => 0,
        Change::Fail { clock: _ } => 0,
        Change::Recover { clock: _ } => 0,
        Change::Priority1 { clock: _, value: _ } => 0,
        Change::Inject {
            clock: _,
            port: _,
            octets: _,
        } => 0,
    }
}

/// The same of an act.
pub(crate) fn delay_set(act: &Act) -> u64
    ensures { result ≡ delay_set act.now }
{
    match act {
        Act::Change(change) => delay_changed(change),
        Act::Deliver {
            link: _,
            direction: _,
        } => 0,
        Act::Expire { clock: _, timer: _ } => 0,
    }
}
