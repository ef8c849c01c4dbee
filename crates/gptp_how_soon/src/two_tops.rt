//! Whether two systems are the tops of a tree that events cut off: each lost a link.

ghost use Rattle.std.specs.Prelude.{◌≡◌, IfOk, Some, length, slice_get};
ghost use Rattle.std.specs.List.{list_all, range_with_len};
ghost use Rattle.gptp_how_soon.specs.TwoTops.{chosen_from, falls_below_both, is_below_both, is_both_or_apart, is_by_nearer, lowered};

use crate::chosen::{Chosen, Ends, choose};
use crate::tree::{chose_itself, had_better_root, has_same_root, is_below};
use crate::turned_tree::falls_at;
use gptp_topology::System;
use gptp_vector::Identity;
use std::alloc::{AllocError, Global};

/// The lowest identity.
fn lowest() -> Identity
    ensures { result ≡ 0 }
{
    Identity::of_octets([0; 14])
}

/// The same systems, but the one at a place is better than all.
fn lowered(alloc: Global, systems: &[System], place: usize) -> Result<Vec<System>, AllocError>
    ensures { IfOk result (λ all. all.items ≡ lowered systems.now place) }
{
    let mut all = systems.to_vec(alloc)?;
    if let Some(system) = all.get_mut(place) {
        system.identity = lowest();
    }
    Ok(all)
}

/// What each system would choose if that at a place were better than all: how far it is from it.
pub(crate) fn choose_from(
    alloc: Global,
    systems: &[System],
    links: &[Ends],
    place: usize,
) -> Result<Vec<Chosen>, AllocError>
    ensures { IfOk result (λ chosen. chosen.items ≡ chosen_from systems.now links.now place) }
{
    let lowered = lowered(alloc, systems, place)?;
    choose(alloc, &lowered, links)
}

/// Whether a system that chose so had as many steps as the nearer of two tops that chose so leads to it, and would be
/// near by way of either.
fn is_so_far(top: &Chosen, own: &Chosen, first: &Chosen, second: &Chosen) -> bool
    ensures { result ≡ is_by_nearer (Some top.now) (Some own.now) (Some first.now) (Some second.now) }
{
    own.steps >= top.steps
        && own.steps - top.steps == first.steps.min(second.steps)
        && top.steps.saturating_add(first.steps.max(second.steps)) < 255
}

/// Whether that at a place was, where these are the tops.
fn is_by_nearer(
    before: &[Chosen],
    by_first: &[Chosen],
    by_second: &[Chosen],
    first: usize,
    place: usize,
) -> bool
    ensures { result
        ≡ is_by_nearer (slice_get before.now first) (slice_get before.now place) (slice_get by_first.now place)
        (slice_get by_second.now place) }
{
    match before.get(first) {
        Some(top) => match before.get(place) {
            Some(own) => match by_first.get(place) {
                Some(first) => match by_second.get(place) {
                    Some(second) => is_so_far(top, own, first, second),
                    None => false,
                },
                None => false,
            },
            None => false,
        },
        None => false,
    }
}

/// Whether the system at a place is one of a tree below both tops.
fn is_below_both(
    links: &[Ends],
    before: &[Chosen],
    now: &[Chosen],
    by_first: &[Chosen],
    by_second: &[Chosen],
    first: usize,
    second: usize,
    place: usize,
) -> bool
    ensures { result
        ≡ is_below_both links.now before.now now.now by_first.now by_second.now first second place }
{
    is_below(links, by_first, now, first, place)
        && is_below(links, by_second, now, second, place)
        && has_same_root(before, first, place)
        && is_by_nearer(before, by_first, by_second, first, place)
}

/// Whether it has another root than the first top, or falls and is so below both.
fn is_both_or_apart(
    systems: &[System],
    links: &[Ends],
    before: &[Chosen],
    now: &[Chosen],
    by_first: &[Chosen],
    by_second: &[Chosen],
    first: usize,
    second: usize,
    place: usize,
) -> bool
    ensures { result
        ≡ is_both_or_apart systems.now links.now before.now now.now by_first.now by_second.now first second place }
{
    !has_same_root(now, first, place)
        || (falls_at(systems, before, now, place)
            && is_below_both(
                links, before, now, by_first, by_second, first, second, place,
            ))
}

/// Whether each system is so.
fn all_are_both_or_apart(
    systems: &[System],
    links: &[Ends],
    before: &[Chosen],
    now: &[Chosen],
    by_first: &[Chosen],
    by_second: &[Chosen],
    first: usize,
    second: usize,
) -> bool
    ensures { result
        ≡ list_all (is_both_or_apart systems.now links.now before.now now.now by_first.now by_second.now first second)
        (range_with_len 0 (length systems.now)) }
{
    (0..systems.len()).all(|place| {
        is_both_or_apart(
            systems, links, before, now, by_first, by_second, first, second, place,
        )
    })
}

/// Whether these two are the tops of a tree, which falls to a worse root.
pub(crate) fn falls_below_both(
    systems: &[System],
    links: &[Ends],
    before: &[Chosen],
    now: &[Chosen],
    by_first: &[Chosen],
    by_second: &[Chosen],
    first: usize,
    second: usize,
) -> bool
    ensures { result
        ≡ falls_below_both systems.now links.now before.now now.now by_first.now by_second.now first second }
{
    had_better_root(before, now, first)
        && chose_itself(by_first, first)
        && chose_itself(by_second, second)
        && all_are_both_or_apart(
            systems, links, before, now, by_first, by_second, first, second,
        )
}
