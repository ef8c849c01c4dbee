//! Whether events move trees of systems, each by links that its top loses, or its two tops: some are cut off, some
//! turn.

ghost use Rattle.std.specs.Prelude.{◌≡◌, IfOk, filter, length};
ghost use Rattle.std.specs.List.{list_all, list_any, range_with_len};
ghost use Rattle.gptp_how_soon.specs.MovedTrees.{agrees_with, are_tops, cuts_all, ends_are_tops, falls_below_one, falls_below_tops, far_end_moves, has_tops, is_below_or_apart, is_in_tree, is_moved_if_far, is_top_at, is_top_with, keeps_part, moves_trees, part_names, parts_turn, stays_or_gets_worse, stays_or_has_end, stays_or_tree_turns, tops_with, trees_turn_at, turns_with, turns_with_end};
ghost use Rattle.gptp_how_soon.specs.TurnedTree.{is_turned_at, leads_within};

use crate::chosen::{Chosen, Ends, choose, is_joined, is_moved_at};
use crate::silent::hears;
use crate::tree::{had_better_root, has_same_root, is_below};
use crate::turned::{both, push_if};
use crate::turned_tree::{falls_at, is_in_part, is_turned_at, tree_turns_at};
use crate::two_tops::{choose_from, falls_below_both};
use gptp_topology::System;
use std::alloc::{AllocError, Global};

/// Whether the system at a place falls, and lost a link: it is a top of a tree.
fn is_top_at(
    systems: &[System],
    lost: &[Ends],
    before: &[Chosen],
    now: &[Chosen],
    place: usize,
) -> bool
    ensures { result ≡ is_top_at systems.now lost.now before.now now.now place }
{
    // few are moved, and a link is searched only for these
    falls_at(systems, before, now, place) && is_joined(lost, place)
}

/// Whether the one system is a top, and has the root of that at a place.
fn is_top_with(
    systems: &[System],
    lost: &[Ends],
    before: &[Chosen],
    now: &[Chosen],
    place: usize,
    top: usize,
) -> bool
    ensures { result ≡ is_top_with systems.now lost.now before.now now.now place top }
{
    is_top_at(systems, lost, before, now, top) && has_same_root(now, place, top)
}

/// The places of all that are.
fn tops_with(
    alloc: Global,
    systems: &[System],
    lost: &[Ends],
    before: &[Chosen],
    now: &[Chosen],
    place: usize,
) -> Result<Vec<usize>, AllocError>
    ensures { IfOk result (λ tops. tops.items ≡ tops_with systems.now lost.now before.now now.now place) }
{
    let mut tops = Vec::new(alloc);
    for top in 0..systems.len() {
        push_if(
            &mut tops,
            top,
            is_top_with(systems, lost, before, now, place, top),
        )?;
    }
    Ok(tops)
}

/// Whether a system has another root than the top, or falls and is so below it.
fn is_below_or_apart(
    systems: &[System],
    links: &[Ends],
    before: &[Chosen],
    now: &[Chosen],
    top: usize,
    place: usize,
) -> bool
    ensures { result ≡ is_below_or_apart systems.now links.now before.now now.now top place }
{
    !has_same_root(now, top, place)
        || (falls_at(systems, before, now, place) && is_below(links, before, now, top, place))
}

/// Whether each system is so.
fn all_are_below_or_apart(
    systems: &[System],
    links: &[Ends],
    before: &[Chosen],
    now: &[Chosen],
    top: usize,
) -> bool
    ensures { result
        ≡ list_all (is_below_or_apart systems.now links.now before.now now.now top)
        (range_with_len 0 (length systems.now)) }
{
    (0..systems.len()).all(|place| is_below_or_apart(systems, links, before, now, top, place))
}

/// Whether it is the one top of a tree, which falls to a worse root.
fn falls_below_one(
    systems: &[System],
    links: &[Ends],
    before: &[Chosen],
    now: &[Chosen],
    top: usize,
) -> bool
    ensures { result ≡ falls_below_one systems.now links.now before.now now.now top }
{
    had_better_root(before, now, top) && all_are_below_or_apart(systems, links, before, now, top)
}

/// Whether these are the tops of such a tree.
fn falls_below_tops(
    alloc: Global,
    systems: &[System],
    links: &[Ends],
    before: &[Chosen],
    now: &[Chosen],
    tops: &[usize],
) -> Result<bool, AllocError>
    ensures { IfOk result (λ falls. falls ≡ falls_below_tops systems.now links.now before.now now.now tops.now) }
{
    match *tops {
        [top] => Ok(falls_below_one(systems, links, before, now, top)),
        [first, second] => {
            let by_first = choose_from(alloc, systems, links, first)?;
            let by_second = choose_from(alloc, systems, links, second)?;
            Ok(falls_below_both(
                systems, links, before, now, &by_first, &by_second, first, second,
            ))
        }
        _ => Ok(false),
    }
}

/// Whether there are tops.
fn has_tops(tops: &[usize]) -> bool
    ensures { result ≡ has_tops tops.now }
{
    !tops.is_empty()
}

/// Whether the system at a place, if it is a top, is one of such a tree, and if it falls, has tops.
fn is_in_tree(
    alloc: Global,
    systems: &[System],
    lost: &[Ends],
    links: &[Ends],
    before: &[Chosen],
    now: &[Chosen],
    place: usize,
) -> Result<bool, AllocError>
    ensures { IfOk result (λ is. is ≡ is_in_tree systems.now lost.now links.now before.now now.now place) }
{
    if is_top_at(systems, lost, before, now, place) {
        let tops = tops_with(alloc, systems, lost, before, now, place)?;
        return falls_below_tops(alloc, systems, links, before, now, &tops);
    }
    if falls_at(systems, before, now, place) {
        let tops = tops_with(alloc, systems, lost, before, now, place)?;
        return Ok(has_tops(&tops));
    }
    Ok(true)
}

/// Whether each system is so.
fn all_are_in_trees(
    alloc: Global,
    systems: &[System],
    lost: &[Ends],
    links: &[Ends],
    before: &[Chosen],
    now: &[Chosen],
) -> Result<bool, AllocError>
    ensures { IfOk result (λ all. all
        ≡ list_all (is_in_tree systems.now lost.now links.now before.now now.now)
        (range_with_len 0 (length systems.now))) }
{
    let mut all = true;
    for place in 0..systems.len() {
        let is = is_in_tree(alloc, systems, lost, links, before, now, place)?;
        all = both(all, is);
    }
    Ok(all)
}

/// Whether two systems had one root if they are moved, and are the same if both turn and are of one part.
fn are_tops(
    systems: &[System],
    before: &[Chosen],
    now: &[Chosen],
    names: &[Chosen],
    one: usize,
    other: usize,
) -> bool
    ensures { result ≡ are_tops systems.now before.now now.now names.now one other }
{
    !(is_moved_at(systems, before, now, one) && is_moved_at(systems, before, now, other))
        || (has_same_root(before, one, other)
            && (!(is_turned_at(systems, before, now, one)
                && is_in_part(systems, before, now, names, one, other))
                || one == other))
}

/// Whether so are the ends of two links.
fn ends_are_tops(
    systems: &[System],
    before: &[Chosen],
    now: &[Chosen],
    names: &[Chosen],
    ends: &Ends,
    others: &Ends,
) -> bool
    ensures { result ≡ ends_are_tops systems.now before.now now.now names.now ends.now others.now }
{
    are_tops(systems, before, now, names, ends.a, others.a)
        && are_tops(systems, before, now, names, ends.a, others.b)
        && are_tops(systems, before, now, names, ends.b, others.a)
        && are_tops(systems, before, now, names, ends.b, others.b)
}

/// Whether so are those of a link, and of each of these.
fn agrees_with(
    systems: &[System],
    lost: &[Ends],
    before: &[Chosen],
    now: &[Chosen],
    names: &[Chosen],
    ends: &Ends,
) -> bool
    ensures { result ≡ agrees_with systems.now lost.now before.now now.now names.now ends.now }
{
    lost.iter().all(|others| ends_are_tops(systems, before, now, names, ends, others))
}

/// Whether so are those of any two of these links.
fn all_agree(
    systems: &[System],
    lost: &[Ends],
    before: &[Chosen],
    now: &[Chosen],
    names: &[Chosen],
) -> bool
    ensures { result ≡ list_all (agrees_with systems.now lost.now before.now now.now names.now) lost.now }
{
    lost.iter().all(|ends| agrees_with(systems, lost, before, now, names, ends))
}

/// Whether both ends of a link turn.
fn both_turn(systems: &[System], before: &[Chosen], now: &[Chosen], ends: &Ends) -> bool
    ensures { result ≡ leads_within (is_turned_at systems.now before.now now.now) ends.now }
{
    is_turned_at(systems, before, now, ends.a) && is_turned_at(systems, before, now, ends.b)
}

/// The links of which both do.
fn links_within(
    alloc: Global,
    systems: &[System],
    links: &[Ends],
    before: &[Chosen],
    now: &[Chosen],
) -> Result<Vec<Ends>, AllocError>
    ensures { IfOk result (λ within. within.items
        ≡ filter (leads_within (is_turned_at systems.now before.now now.now)) links.now) }
{
    let mut within = Vec::new(alloc);
    for ends in links {
        if both_turn(systems, before, now, ends) {
            within.push(*ends)?;
        }
    }
    Ok(within)
}

/// What names the part that each system is of that turns.
fn part_names(
    alloc: Global,
    systems: &[System],
    links: &[Ends],
    before: &[Chosen],
    now: &[Chosen],
) -> Result<Vec<Chosen>, AllocError>
    ensures { IfOk result (λ names. names.items ≡ part_names systems.now links.now before.now now.now) }
{
    let within = links_within(alloc, systems, links, before, now)?;
    choose(alloc, systems, &within)
}

/// Whether a link doesn't lead from one part to another.
fn keeps_part(
    systems: &[System],
    before: &[Chosen],
    now: &[Chosen],
    names: &[Chosen],
    ends: &Ends,
) -> bool
    ensures { result ≡ keeps_part systems.now before.now now.now names.now ends.now }
{
    !both_turn(systems, before, now, ends) || has_same_root(names, ends.a, ends.b)
}

/// Whether each of these is so.
fn all_keep_part(
    systems: &[System],
    links: &[Ends],
    before: &[Chosen],
    now: &[Chosen],
    names: &[Chosen],
) -> bool
    ensures { result ≡ list_all (keeps_part systems.now before.now now.now names.now) links.now }
{
    links
        .iter()
        .all(|ends| keeps_part(systems, before, now, names, ends))
}

/// Whether the system at a place is the top of a tree that turns, if it turns.
fn stays_or_tree_turns(
    systems: &[System],
    links: &[Ends],
    before: &[Chosen],
    now: &[Chosen],
    names: &[Chosen],
    top: usize,
) -> bool
    ensures { result ≡ stays_or_tree_turns systems.now links.now before.now now.now names.now top }
{
    !is_turned_at(systems, before, now, top)
        || tree_turns_at(systems, links, before, now, names, top)
}

/// Whether it is so of both ends of a link.
fn trees_turn_at(
    systems: &[System],
    links: &[Ends],
    before: &[Chosen],
    now: &[Chosen],
    names: &[Chosen],
    ends: &Ends,
) -> bool
    ensures { result ≡ trees_turn_at systems.now links.now before.now now.now names.now ends.now }
{
    stays_or_tree_turns(systems, links, before, now, names, ends.a)
        && stays_or_tree_turns(systems, links, before, now, names, ends.b)
}

/// Whether it is so of those of each of these links.
fn all_trees_turn(
    systems: &[System],
    lost: &[Ends],
    links: &[Ends],
    before: &[Chosen],
    now: &[Chosen],
    names: &[Chosen],
) -> bool
    ensures { result ≡ list_all (trees_turn_at systems.now links.now before.now now.now names.now) lost.now }
{
    lost.iter().all(|ends| trees_turn_at(systems, links, before, now, names, ends))
}

/// Whether the system at a place is of the part of the one at the top, which turns.
fn turns_with(
    systems: &[System],
    before: &[Chosen],
    now: &[Chosen],
    names: &[Chosen],
    place: usize,
    top: usize,
) -> bool
    ensures { result ≡ turns_with systems.now before.now now.now names.now place top }
{
    is_turned_at(systems, before, now, top) && is_in_part(systems, before, now, names, top, place)
}

/// Whether it is of that of an end of a link.
fn turns_with_end(
    systems: &[System],
    before: &[Chosen],
    now: &[Chosen],
    names: &[Chosen],
    place: usize,
    ends: &Ends,
) -> bool
    ensures { result ≡ turns_with_end systems.now before.now now.now names.now place ends.now }
{
    turns_with(systems, before, now, names, place, ends.a)
        || turns_with(systems, before, now, names, place, ends.b)
}

/// Whether it is of that of an end of one of these links.
fn turns_with_any(
    systems: &[System],
    lost: &[Ends],
    before: &[Chosen],
    now: &[Chosen],
    names: &[Chosen],
    place: usize,
) -> bool
    ensures { result ≡ list_any (turns_with_end systems.now before.now now.now names.now place) lost.now }
{
    lost.iter().any(|ends| turns_with_end(systems, before, now, names, place, ends))
}

/// Whether it is, if it turns.
fn stays_or_has_end(
    systems: &[System],
    lost: &[Ends],
    before: &[Chosen],
    now: &[Chosen],
    names: &[Chosen],
    place: usize,
) -> bool
    ensures { result ≡ stays_or_has_end systems.now lost.now before.now now.now names.now place }
{
    !is_turned_at(systems, before, now, place)
        || turns_with_any(systems, lost, before, now, names, place)
}

/// Whether each system is so.
fn all_stay_or_have_end(
    systems: &[System],
    lost: &[Ends],
    before: &[Chosen],
    now: &[Chosen],
    names: &[Chosen],
) -> bool
    ensures { result
        ≡ list_all (stays_or_has_end systems.now lost.now before.now now.now names.now)
        (range_with_len 0 (length systems.now)) }
{
    (0..systems.len()).all(|place| stays_or_has_end(systems, lost, before, now, names, place))
}

/// Whether each system that turns is of a tree that does.
fn parts_turn(
    systems: &[System],
    lost: &[Ends],
    links: &[Ends],
    before: &[Chosen],
    now: &[Chosen],
    names: &[Chosen],
) -> bool
    ensures { result ≡ parts_turn systems.now lost.now links.now before.now now.now names.now }
{
    all_keep_part(systems, links, before, now, names)
        && all_trees_turn(systems, lost, links, before, now, names)
        && all_stay_or_have_end(systems, lost, before, now, names)
}

/// Whether each system that is moved is in a tree that is cut off or turns, as these links are lost.
#[tactic(auto, unfolding(crate::specs::MovedTrees::moves_trees))]
pub(crate) fn moves_trees(
    alloc: Global,
    systems: &[System],
    lost: &[Ends],
    links: &[Ends],
    before: &[Chosen],
    now: &[Chosen],
) -> Result<bool, AllocError>
    ensures { IfOk result (λ moves. moves ≡ moves_trees systems.now lost.now links.now before.now now.now) }
{
    let names = part_names(alloc, systems, links, before, now)?;
    if !all_agree(systems, lost, before, now, &names) {
        return Ok(false);
    }
    if !parts_turn(systems, lost, links, before, now, &names) {
        return Ok(false);
    }
    all_are_in_trees(alloc, systems, lost, links, before, now)
}

/// Whether the system at a place stays, or gets a worse root.
fn stays_or_gets_worse(systems: &[System], before: &[Chosen], now: &[Chosen], place: usize) -> bool
    ensures { result ≡ stays_or_gets_worse systems.now before.now now.now place }
{
    !is_moved_at(systems, before, now, place) || had_better_root(before, now, place)
}

/// Whether each system is so.
fn all_stay_or_get_worse(systems: &[System], before: &[Chosen], now: &[Chosen]) -> bool
    ensures { result
        ≡ list_all (stays_or_gets_worse systems.now before.now now.now) (range_with_len 0 (length systems.now)) }
{
    (0..systems.len()).all(|place| stays_or_gets_worse(systems, before, now, place))
}

/// Whether the one system is moved, if it lives and was the far end of a link with the other.
fn is_moved_if_far(
    systems: &[System],
    before: &[Chosen],
    now: &[Chosen],
    one: usize,
    other: usize,
) -> bool
    ensures { result ≡ is_moved_if_far systems.now before.now now.now one other }
{
    !hears(systems, before, one, other) || is_moved_at(systems, before, now, one)
}

/// Whether it is so of both ends of a link.
fn far_end_moves(systems: &[System], before: &[Chosen], now: &[Chosen], ends: &Ends) -> bool
    ensures { result ≡ far_end_moves systems.now before.now now.now ends.now }
{
    is_moved_if_far(systems, before, now, ends.a, ends.b)
        && is_moved_if_far(systems, before, now, ends.b, ends.a)
}

/// Whether it is so of each of these links.
pub(crate) fn all_far_ends_move(
    systems: &[System],
    lost: &[Ends],
    before: &[Chosen],
    now: &[Chosen],
) -> bool
    ensures { result ≡ list_all (far_end_moves systems.now before.now now.now) lost.now }
{
    lost.iter()
        .all(|ends| far_end_moves(systems, before, now, ends))
}

/// Whether each system that is moved gets a worse root, and each live far end of these links, which are lost, is moved.
pub(crate) fn cuts_all(systems: &[System], lost: &[Ends], before: &[Chosen], now: &[Chosen]) -> bool
    ensures { result ≡ cuts_all systems.now lost.now before.now now.now }
{
    all_stay_or_get_worse(systems, before, now) && all_far_ends_move(systems, lost, before, now)
}
