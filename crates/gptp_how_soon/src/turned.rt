//! Whether events move one system alone, which keeps its root and turns to others for it.

ghost use Rattle.std.specs.Prelude.{◌≡◌, ◌++◌, ◌∷◌, ◌&&◌, [], if◌then◌else◌, IfOk, OnOk, slice_get};
ghost use Rattle.std.specs.List.{list_all};
ghost use Rattle.gptp_how_soon.specs.Turned.{are_different, are_far_ends, goes_farther, goes_one_farther, has_fewer_steps, is_once, leads_nearer, moved_places, neighbour_places, other_end, turns_at, turns_one};

use crate::chosen::{Chosen, Ends, ends_at, is_moved_at};
use crate::far::is_far_end;
use gptp_topology::System;
use std::alloc::{AllocError, Global};

/// Whether two things are so, each of which is told.
pub(crate) fn both(one: bool, other: bool) -> bool
    ensures { result ≡ (one && other) }
{
    one && other
}

/// Puts a place after others, where it is wanted.
pub(crate) fn push_if(places: &mut Vec<usize>, place: usize, wanted: bool) -> Result<(), AllocError>
    ensures { OnOk result (places.new.items ≡ places.old.items ++ (if wanted then place ∷ [] else [])) }
{
    if wanted {
        places.push(place)?;
    }
    Ok(())
}

/// The places of the systems that live and have another choice.
fn moved_places(
    alloc: Global,
    systems: &[System],
    before: &[Chosen],
    now: &[Chosen],
) -> Result<Vec<usize>, AllocError>
    ensures { IfOk result (λ places. places.items ≡ moved_places systems.now before.now now.now) }
{
    let mut places = Vec::new(alloc);
    for place in 0..systems.len() {
        push_if(&mut places, place, is_moved_at(systems, before, now, place))?;
    }
    Ok(places)
}

/// Whether the system at a place keeps its root, and is farther from it than before.
pub(crate) fn goes_farther(before: &[Chosen], now: &[Chosen], place: usize) -> bool
    ensures { result ≡ goes_farther (slice_get before.now place) (slice_get now.now place) }
{
    match before.get(place) {
        Some(before) => match now.get(place) {
            Some(now) => before.root == now.root && before.steps < now.steps,
            None => false,
        },
        None => false,
    }
}

/// Whether it is farther by one step.
fn goes_one_farther(before: &[Chosen], now: &[Chosen], place: usize) -> bool
    ensures { result ≡ goes_one_farther (slice_get before.now place) (slice_get now.now place) }
{
    match before.get(place) {
        Some(before) => match now.get(place) {
            Some(now) => now.steps.saturating_sub(before.steps) == 1,
            None => false,
        },
        None => false,
    }
}

/// Whether the system at the one place has chosen fewer steps than that at the other.
pub(crate) fn has_fewer_steps(chosen: &[Chosen], near: usize, far: usize) -> bool
    ensures { result ≡ has_fewer_steps (slice_get chosen.now near) (slice_get chosen.now far) }
{
    match chosen.get(near) {
        Some(near) => match chosen.get(far) {
            Some(far) => near.steps < far.steps,
            None => false,
        },
        None => false,
    }
}

/// Whether a link leads from the system at a place to one that has chosen fewer steps.
pub(crate) fn leads_nearer(chosen: &[Chosen], place: usize, ends: &Ends) -> bool
    ensures { result ≡ leads_nearer chosen.now place ends.now }
{
    (ends.a == place && has_fewer_steps(chosen, ends.b, place))
        || (ends.b == place && has_fewer_steps(chosen, ends.a, place))
}

/// The place of the other end of a link.
fn other_end(place: usize, ends: &Ends) -> usize
    ensures { result ≡ other_end place ends.now }
{
    if ends.a == place { ends.b } else { ends.a }
}

/// The places of the neighbours of the system at a place over these links, one for each of its links.
fn neighbour_places(alloc: Global, links: &[Ends], place: usize) -> Result<Vec<usize>, AllocError>
    ensures { IfOk result (λ places. places.items ≡ neighbour_places links.now place) }
{
    let mut places = Vec::new(alloc);
    for ends in links {
        push_if(&mut places, other_end(place, ends), ends_at(place, ends))?;
    }
    Ok(places)
}

/// Whether a place is there once.
fn is_once(places: &[usize], place: usize) -> bool
    ensures { result ≡ is_once places.now place }
{
    places.iter().filter(|other| **other == place).count() == 1
}

/// Whether each of these places is there once.
fn are_different(places: &[usize]) -> bool
    ensures { result ≡ are_different places.now }
{
    // a system has few ports
    places.iter().all(|place| is_once(places, *place))
}

/// Whether the systems at these places are far ends of all their links.
fn are_far_ends(systems: &[System], chosen: &[Chosen], links: &[Ends], places: &[usize]) -> bool
    ensures { result ≡ are_far_ends systems.now chosen.now links.now places.now }
{
    places
        .iter()
        .all(|place| is_far_end(systems, chosen, links, *place))
}

/// Whether each of these links leads from the system at a place to one that has chosen fewer steps.
fn all_lead_nearer(chosen: &[Chosen], place: usize, links: &[Ends]) -> bool
    ensures { result ≡ list_all (leads_nearer chosen.now place) links.now }
{
    links.iter().all(|ends| leads_nearer(chosen, place, ends))
}

/// Whether the system at a place turns, as these links are lost.
fn turns_at(
    alloc: Global,
    systems: &[System],
    lost: &[Ends],
    links_before: &[Ends],
    links: &[Ends],
    before: &[Chosen],
    now: &[Chosen],
    place: usize,
) -> Result<bool, AllocError>
    ensures { IfOk result (λ turns. turns
        ≡ turns_at systems.now lost.now links_before.now links.now before.now now.now place) }
{
    let joined = neighbour_places(alloc, links, place)?;
    let joined = joined.as_slice();
    Ok(
        goes_farther(before, now, place)
            && all_lead_nearer(before, place, lost)
            && is_far_end(systems, now, links, place)
            && are_different(joined)
            && (goes_one_farther(before, now, place)
                || are_far_ends(systems, before, links_before, joined)),
    )
}

/// Whether one system is moved alone, and turns, as these links are lost.
pub(crate) fn turns_one(
    alloc: Global,
    systems: &[System],
    lost: &[Ends],
    links_before: &[Ends],
    links: &[Ends],
    before: &[Chosen],
    now: &[Chosen],
) -> Result<bool, AllocError>
    ensures { IfOk result (λ turns. turns
        ≡ turns_one systems.now lost.now links_before.now links.now before.now now.now) }
{
    let moved = moved_places(alloc, systems, before, now)?;
    match moved.as_slice() {
        [place] => turns_at(
            alloc,
            systems,
            lost,
            links_before,
            links,
            before,
            now,
            *place,
        ),
        _ => Ok(false),
    }
}
