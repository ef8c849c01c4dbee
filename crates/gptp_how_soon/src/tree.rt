//! Whether a tree of systems falls back to a worse root: events cut it off, by one link that is lost, or its best gets
//! worse.

ghost use Rattle.std.specs.Prelude.{◌≡◌, length, slice_get};
ghost use Rattle.std.specs.List.{list_all, range_with_len};
ghost use Rattle.gptp_how_soon.specs.Tree.{chose_itself, cuts_below, cuts_tree, falls_below, has_better_root, has_no_more_steps, has_one_nearer, has_same_root, is_below, is_below_or_apart, is_one_apart, leads_one_on, worsens_best};

use crate::chosen::{Chosen, Ends, is_moved_at, place_of};
use crate::kinds::Told;
use crate::turned::leads_nearer;
use gptp_topology::System;

/// Whether the systems at two places have one root.
pub(crate) fn has_same_root(chosen: &[Chosen], one: usize, other: usize) -> bool
    ensures { result ≡ has_same_root (slice_get chosen.now one) (slice_get chosen.now other) }
{
    match chosen.get(one) {
        Some(one) => match chosen.get(other) {
            Some(other) => one.root == other.root,
            None => false,
        },
        None => false,
    }
}

/// Whether the system at a place had a better root than it has now.
pub(crate) fn had_better_root(before: &[Chosen], now: &[Chosen], place: usize) -> bool
    ensures { result ≡ has_better_root (slice_get before.now place) (slice_get now.now place) }
{
    match before.get(place) {
        Some(before) => match now.get(place) {
            Some(now) => before.root < now.root,
            None => false,
        },
        None => false,
    }
}

/// Whether the system at the one place has chosen no more steps than that at the other.
pub(crate) fn has_no_more_steps(chosen: &[Chosen], near: usize, far: usize) -> bool
    ensures { result ≡ has_no_more_steps (slice_get chosen.now near) (slice_get chosen.now far) }
{
    match chosen.get(near) {
        Some(near) => match chosen.get(far) {
            Some(far) => near.steps <= far.steps,
            None => false,
        },
        None => false,
    }
}

/// Whether the systems at two places are one step apart.
pub(crate) fn is_one_apart(chosen: &[Chosen], one: usize, other: usize) -> bool
    ensures { result ≡ is_one_apart (slice_get chosen.now one) (slice_get chosen.now other) }
{
    match chosen.get(one) {
        Some(one) => match chosen.get(other) {
            Some(other) => {
                one.steps.saturating_sub(other.steps) == 1
                    || other.steps.saturating_sub(one.steps) == 1
            }
            None => false,
        },
        None => false,
    }
}

/// Whether those at the ends of a link are so, if the system at a place is one of them.
fn leads_one_on(chosen: &[Chosen], place: usize, ends: &Ends) -> bool
    ensures { result ≡ leads_one_on chosen.now place ends.now }
{
    (ends.a != place || is_one_apart(chosen, place, ends.b))
        && (ends.b != place || is_one_apart(chosen, place, ends.a))
}

/// Whether at most one of these links leads from the system at a place to one that has chosen fewer steps.
fn has_one_nearer(chosen: &[Chosen], links: &[Ends], place: usize) -> bool
    ensures { result ≡ has_one_nearer chosen.now links.now place }
{
    links
        .iter()
        .filter(|ends| leads_nearer(chosen, place, ends))
        .count()
        <= 1
}

/// Whether each of these links leads one step on, if it leads from the system at a place.
fn all_lead_one_on(chosen: &[Chosen], links: &[Ends], place: usize) -> bool
    ensures { result ≡ list_all (leads_one_on chosen.now place) links.now }
{
    links.iter().all(|ends| leads_one_on(chosen, place, ends))
}

/// Whether the system at a place is one of a tree below the top.
pub(crate) fn is_below(
    links: &[Ends],
    before: &[Chosen],
    now: &[Chosen],
    top: usize,
    place: usize,
) -> bool
    ensures { result ≡ is_below links.now before.now now.now top place }
{
    has_same_root(before, top, place)
        && has_no_more_steps(before, top, place)
        && has_same_root(now, top, place)
        && has_one_nearer(before, links, place)
        && all_lead_one_on(before, links, place)
}

/// Whether it is so if it is moved, and has another root if not.
fn is_below_or_apart(
    systems: &[System],
    links: &[Ends],
    before: &[Chosen],
    now: &[Chosen],
    top: usize,
    place: usize,
) -> bool
    ensures { result ≡ is_below_or_apart systems.now links.now before.now now.now top place }
{
    if is_moved_at(systems, before, now, place) {
        is_below(links, before, now, top, place)
    } else {
        !has_same_root(now, top, place)
    }
}

/// Whether each system is so.
fn all_are_below_or_apart(
    systems: &[System],
    links: &[Ends],
    before: &[Chosen],
    now: &[Chosen],
    top: usize,
) -> bool
    ensures { result
        ≡ list_all (is_below_or_apart systems.now links.now before.now now.now top)
        (range_with_len 0 (length systems.now)) }
{
    (0..systems.len()).all(|place| is_below_or_apart(systems, links, before, now, top, place))
}

/// Whether the top has a worse root now, and so has each system below it.
fn falls_below(
    systems: &[System],
    links: &[Ends],
    before: &[Chosen],
    now: &[Chosen],
    top: usize,
) -> bool
    ensures { result ≡ falls_below systems.now links.now before.now now.now top }
{
    is_moved_at(systems, before, now, top)
        && had_better_root(before, now, top)
        && all_are_below_or_apart(systems, links, before, now, top)
}

/// Whether a tree below the top is cut off, as a link is lost from it to the other.
fn cuts_below(
    systems: &[System],
    links: &[Ends],
    before: &[Chosen],
    now: &[Chosen],
    top: usize,
    other: usize,
) -> bool
    ensures { result ≡ cuts_below systems.now links.now before.now now.now top other }
{
    falls_below(systems, links, before, now, top) && !is_moved_at(systems, before, now, other)
}

/// Whether a tree is cut off, as these links are lost.
pub(crate) fn cuts_tree(
    systems: &[System],
    lost: &[Ends],
    links: &[Ends],
    before: &[Chosen],
    now: &[Chosen],
) -> bool
    ensures { result ≡ cuts_tree systems.now lost.now links.now before.now now.now }
{
    match lost {
        [ends] => {
            cuts_below(systems, links, before, now, ends.a, ends.b)
                || cuts_below(systems, links, before, now, ends.b, ends.a)
        }
        _ => false,
    }
}

/// Whether the system at a place had chosen itself.
pub(crate) fn chose_itself(chosen: &[Chosen], place: usize) -> bool
    ensures { result ≡ chose_itself (slice_get chosen.now place) }
{
    match chosen.get(place) {
        Some(chosen) => chosen.steps == 0,
        None => false,
    }
}

/// Whether the system that the first of these events names was the best of a tree, which falls back.
pub(crate) fn worsens_best(
    systems: &[System],
    links: &[Ends],
    before: &[Chosen],
    now: &[Chosen],
    told: &[Told],
) -> bool
    ensures { result ≡ worsens_best systems.now links.now before.now now.now told.now }
{
    match told.first() {
        Some(first) => {
            let top = place_of(systems, first.clock);
            chose_itself(before, top) && falls_below(systems, links, before, now, top)
        }
        None => false,
    }
}
