//! Whether events move a tree of systems, by one link that is lost, which keep their root and get it by one other link.

ghost use Rattle.std.specs.Prelude.{◌≡◌, length};
ghost use Rattle.std.specs.List.{list_all, range_with_len};
ghost use Rattle.gptp_how_soon.specs.TurnedTree.{falls_at, is_in_part, is_turned_at, leads_nearer_within, leads_one_on_within, leads_out, leads_within, stays_or_is_in_part, stays_or_turns, tree_turns_at, turns_below, turns_from, turns_tree};

use crate::chosen::{Chosen, Ends, is_moved_at};
use crate::tree::{has_no_more_steps, has_same_root, is_one_apart};
use crate::turned::{goes_farther, has_fewer_steps, leads_nearer};
use gptp_topology::System;

/// Whether the system at a place is moved, keeps its root, and is farther from it.
pub(crate) fn is_turned_at(
    systems: &[System],
    before: &[Chosen],
    now: &[Chosen],
    place: usize,
) -> bool
    ensures { result ≡ is_turned_at systems.now before.now now.now place }
{
    is_moved_at(systems, before, now, place) && goes_farther(before, now, place)
}

/// Whether it is moved, and doesn't turn.
pub(crate) fn falls_at(systems: &[System], before: &[Chosen], now: &[Chosen], place: usize) -> bool
    ensures { result ≡ falls_at systems.now before.now now.now place }
{
    is_moved_at(systems, before, now, place) && !is_turned_at(systems, before, now, place)
}

/// Whether it turns, and has the name of the system at the top.
pub(crate) fn is_in_part(
    systems: &[System],
    before: &[Chosen],
    now: &[Chosen],
    names: &[Chosen],
    top: usize,
    place: usize,
) -> bool
    ensures { result ≡ is_in_part systems.now before.now now.now names.now top place }
{
    is_turned_at(systems, before, now, place) && has_same_root(names, top, place)
}

/// Whether it is so if it is moved.
fn stays_or_is_in_part(
    systems: &[System],
    before: &[Chosen],
    now: &[Chosen],
    names: &[Chosen],
    top: usize,
    place: usize,
) -> bool
    ensures { result ≡ stays_or_is_in_part systems.now before.now now.now names.now top place }
{
    !is_moved_at(systems, before, now, place) || is_in_part(systems, before, now, names, top, place)
}

/// Whether each system is so.
fn all_stay_or_are_in_part(
    systems: &[System],
    before: &[Chosen],
    now: &[Chosen],
    names: &[Chosen],
    top: usize,
) -> bool
    ensures { result
        ≡ list_all (stays_or_is_in_part systems.now before.now now.now names.now top)
        (range_with_len 0 (length systems.now)) }
{
    (0..systems.len()).all(|place| stays_or_is_in_part(systems, before, now, names, top, place))
}

/// Whether a link leads out of the part: one end of it is of the part, and the other isn't.
fn leads_out(
    systems: &[System],
    before: &[Chosen],
    now: &[Chosen],
    names: &[Chosen],
    top: usize,
    ends: &Ends,
) -> bool
    ensures { result ≡ leads_out (is_in_part systems.now before.now now.now names.now top) ends.now }
{
    let a = is_in_part(systems, before, now, names, top, ends.a);
    let b = is_in_part(systems, before, now, names, top, ends.b);
    (a && !b) || (b && !a)
}

/// Whether both ends of it are.
fn leads_within(
    systems: &[System],
    before: &[Chosen],
    now: &[Chosen],
    names: &[Chosen],
    top: usize,
    ends: &Ends,
) -> bool
    ensures { result ≡ leads_within (is_in_part systems.now before.now now.now names.now top) ends.now }
{
    is_in_part(systems, before, now, names, top, ends.a)
        && is_in_part(systems, before, now, names, top, ends.b)
}

/// Whether it leads one step on, if both are.
fn leads_one_on_within(
    systems: &[System],
    before: &[Chosen],
    now: &[Chosen],
    names: &[Chosen],
    top: usize,
    ends: &Ends,
) -> bool
    ensures { result
        ≡ leads_one_on_within (is_in_part systems.now before.now now.now names.now top) before.now ends.now }
{
    !leads_within(systems, before, now, names, top, ends) || is_one_apart(before, ends.a, ends.b)
}

/// Whether both are, and it leads from the system at a place to one that had fewer steps.
fn leads_nearer_within(
    systems: &[System],
    before: &[Chosen],
    now: &[Chosen],
    names: &[Chosen],
    top: usize,
    place: usize,
    ends: &Ends,
) -> bool
    ensures { result
        ≡ leads_nearer_within (is_in_part systems.now before.now now.now names.now top) before.now place ends.now }
{
    leads_within(systems, before, now, names, top, ends) && leads_nearer(before, place, ends)
}

/// Whether the system at a place turns below the top of a tree.
fn turns_below(
    systems: &[System],
    links: &[Ends],
    before: &[Chosen],
    now: &[Chosen],
    names: &[Chosen],
    top: usize,
    place: usize,
) -> bool
    ensures { result
        ≡ turns_below (is_in_part systems.now before.now now.now names.now top) links.now before.now top place }
{
    has_same_root(before, top, place)
        && has_no_more_steps(before, top, place)
        && links
            .iter()
            .filter(|ends| leads_nearer_within(systems, before, now, names, top, place, ends))
            .count()
            <= 1
}

/// Whether it does if it is of the part.
fn stays_or_turns(
    systems: &[System],
    links: &[Ends],
    before: &[Chosen],
    now: &[Chosen],
    names: &[Chosen],
    top: usize,
    place: usize,
) -> bool
    ensures { result
        ≡ stays_or_turns (is_in_part systems.now before.now now.now names.now top) links.now before.now top place }
{
    !is_in_part(systems, before, now, names, top, place)
        || turns_below(systems, links, before, now, names, top, place)
}

/// Whether each system does.
fn all_stay_or_turn(
    systems: &[System],
    links: &[Ends],
    before: &[Chosen],
    now: &[Chosen],
    names: &[Chosen],
    top: usize,
) -> bool
    ensures { result
        ≡ list_all (stays_or_turns (is_in_part systems.now before.now now.now names.now top) links.now before.now top)
        (range_with_len 0 (length systems.now)) }
{
    (0..systems.len()).all(|place| stays_or_turns(systems, links, before, now, names, top, place))
}

/// Whether each of these links leads one step on, if both its ends are of the part.
fn all_lead_one_on_within(
    systems: &[System],
    links: &[Ends],
    before: &[Chosen],
    now: &[Chosen],
    names: &[Chosen],
    top: usize,
) -> bool
    ensures { result
        ≡ list_all (leads_one_on_within (is_in_part systems.now before.now now.now names.now top) before.now)
        links.now }
{
    links.iter().all(|ends| leads_one_on_within(systems, before, now, names, top, ends))
}

/// Whether a tree turns below the top.
pub(crate) fn tree_turns_at(
    systems: &[System],
    links: &[Ends],
    before: &[Chosen],
    now: &[Chosen],
    names: &[Chosen],
    top: usize,
) -> bool
    ensures { result ≡ tree_turns_at systems.now links.now before.now now.now names.now top }
{
    is_in_part(systems, before, now, names, top, top)
        && all_stay_or_turn(systems, links, before, now, names, top)
        && all_lead_one_on_within(systems, links, before, now, names, top)
        && links
            .iter()
            .filter(|ends| leads_out(systems, before, now, names, top, ends))
            .count()
            == 1
}

/// Whether it does, and no other system is moved, as a link is lost from the top to the other.
fn turns_from(
    systems: &[System],
    links: &[Ends],
    before: &[Chosen],
    now: &[Chosen],
    top: usize,
    other: usize,
) -> bool
    ensures { result ≡ turns_from systems.now links.now before.now now.now top other }
{
    !is_moved_at(systems, before, now, other)
        && has_fewer_steps(before, other, top)
        && all_stay_or_are_in_part(systems, before, now, now, top)
        && tree_turns_at(systems, links, before, now, now, top)
}

/// Whether a tree turns, as these links are lost.
pub(crate) fn turns_tree(
    systems: &[System],
    lost: &[Ends],
    links: &[Ends],
    before: &[Chosen],
    now: &[Chosen],
) -> bool
    ensures { result ≡ turns_tree systems.now lost.now links.now before.now now.now }
{
    match lost {
        [ends] => {
            turns_from(systems, links, before, now, ends.a, ends.b)
                || turns_from(systems, links, before, now, ends.b, ends.a)
        }
        _ => false,
    }
}
