//! Which root each system settles at, and how many steps it is away; whom events move.

ghost use Rattle.std.specs.Prelude.{◌≡◌, ◌<◌, ◌++◌, IfOk, IfSome, OnOk, map, slice_get};
ghost use Rattle.std.specs.List.{AllByRecursion};
ghost use Rattle.gptp_topology.specs.Tables.{systems_in};
ghost use Rattle.gptp_how_soon.specs.Chosen.{any_counted, any_joined_moved, any_moved, better, chosen_over, ends_among, ends_at, ends_in_use, hearing, is_better, is_joined, is_joined_moved_at, is_moved_at, differs, itself, passing, place_of, round, used_one};

use crate::links::is_used_at;
use gptp_topology::{Cable, Node, System};
use gptp_vector::{ClockId, Identity};
use std::alloc::{AllocError, Global};

/// What a system chooses: a root, by its identity, and how many steps it is away.
#[derive(Clone, Copy, PartialEq, Eq)]
pub struct Chosen {
    pub root: Identity,
    pub steps: usize,
}

/// The systems at the ends of a link, by their places.
#[derive(Clone, Copy)]
pub struct Ends {
    pub a: usize,
    pub b: usize,
}

/// Writes the systems as they stand at these nodes.
pub(crate) fn copy_systems(systems: &mut Vec<System>, nodes: &[Node]) -> Result<(), AllocError>
    ensures { OnOk result (systems.new.items ≡ systems_in nodes.now) }
{
    systems.clear();
    for node in nodes {
        systems.push(node.system)?;
    }
    Ok(())
}

/// The place of the system with a clock; how many there are if there is none.
pub(crate) fn place_of(systems: &[System], clock: ClockId) -> usize
    ensures { result ≡ place_of systems.now clock }
{
    let mut place = 0;
    for system in systems {
        if system.clock == clock {
            return place;
        }
        place += 1;
    }
    place
}

/// The places of the systems at the ends of these links.
pub(crate) fn ends_of(
    alloc: Global,
    systems: &[System],
    cables: &[Cable],
) -> Result<Vec<Ends>, AllocError>
    ensures { IfOk result (λ ends. ends.items ≡ map (ends_among systems.now) cables.now) }
{
    let mut ends = Vec::new(alloc);
    for cable in cables {
        ends.push(Ends {
            a: place_of(systems, cable.a.clock),
            b: place_of(systems, cable.b.clock),
        })?;
    }
    Ok(ends)
}

/// Puts a link after others, where it is in use.
fn push_used(links: &mut Vec<Ends>, ends: &Ends, used: bool) -> Result<(), AllocError>
    ensures { OnOk result (links.new.items ≡ links.old.items ++ used_one ends.now used) }
{
    if used {
        links.push(*ends)?;
    }
    Ok(())
}

/// Those of these links that are in use.
pub(crate) fn ends_in_use(
    alloc: Global,
    ends: &[Ends],
    used: &[bool],
) -> Result<Vec<Ends>, AllocError>
    ensures { IfOk result (λ links. links.items ≡ ends_in_use ends.now used.now) }
{
    let mut links = Vec::new(alloc);
    for place in 0..ends.len() {
        push_used(&mut links, &ends[place], is_used_at(used, place))?;
    }
    Ok(links)
}

/// Whether one is better than another: its root is, or it is the same in fewer steps.
fn is_better(one: &Chosen, other: &Chosen) -> bool
    ensures { result ≡ is_better one.now other.now }
{
    one.root < other.root || (one.root == other.root && one.steps < other.steps)
}

/// The better of two.
fn better(one: Chosen, other: Chosen) -> Chosen
    ensures { result ≡ better one other }
{
    if is_better(&one, &other) { one } else { other }
}

/// What the system at a place has chosen, if there is one.
fn chosen_at(chosen: &[Chosen], place: usize) -> Option<Chosen>
    ensures { result ≡ slice_get chosen.now place }
{
    chosen.get(place).copied()
}

/// Lets the system at a place hear of what another has chosen.
fn hear(chosen: &mut Vec<Chosen>, place: usize, heard: Option<Chosen>)
    requires { IfSome heard (λ c. c.steps < 18446744073709551615) }
    ensures { chosen.new.items ≡ hearing heard place chosen.old.items }
{
    if let Some(heard) = heard {
        let farther = Chosen {
            root: heard.root,
            steps: heard.steps + 1,
        };
        if let Some(own) = chosen.get_mut(place) {
            *own = better(farther, *own);
        }
    }
}

/// Lets each end of a link hear of what the other chose before.
fn pass(before: &[Chosen], after: &mut Vec<Chosen>, ends: &Ends)
    requires { AllByRecursion (λ (c : Chosen). c.steps < 18446744073709551615) before.now }
    ensures { after.new.items ≡ passing before.now after.old.items ends.now }
{
    hear(after, ends.b, chosen_at(before, ends.a));
    hear(after, ends.a, chosen_at(before, ends.b));
}

/// One round, in which each system hears over these links what its neighbours chose before.
fn round(alloc: Global, links: &[Ends], before: &[Chosen]) -> Result<Vec<Chosen>, AllocError>
    requires { AllByRecursion (λ (c : Chosen). c.steps < 18446744073709551615) before.now }
    ensures { IfOk result (λ after. after.items ≡ round links.now before.now) }
{
    let mut after = before.to_vec(alloc)?;
    for ends in links {
        pass(before, &mut after, ends);
    }
    Ok(after)
}

/// Each of these systems chooses itself.
fn choose_themselves(alloc: Global, systems: &[System]) -> Result<Vec<Chosen>, AllocError>
    ensures { IfOk result (λ chosen. chosen.items ≡ map itself systems.now) }
{
    let mut chosen = Vec::new(alloc);
    for system in systems {
        chosen.push(Chosen {
            root: system.identity,
            steps: 0,
        })?;
    }
    Ok(chosen)
}

/// What these systems choose over these links. It takes a time linear in the links for each step of the farthest.
pub(crate) fn choose(
    alloc: Global,
    systems: &[System],
    links: &[Ends],
) -> Result<Vec<Chosen>, AllocError>
    ensures { IfOk result (λ chosen. chosen.items ≡ chosen_over systems.now links.now) }
{
    let mut chosen = choose_themselves(alloc, systems)?;
    for turn in 0..systems.len() {
        let next = round(alloc, links, &chosen)?;
        if next.as_slice() == chosen.as_slice() {
            return Ok(chosen);
        }
        chosen = next;
    }
    Ok(chosen)
}

/// Whether a choice is another.
fn differs(before: &Chosen, now: &Chosen) -> bool
    ensures { result ≡ differs before.now now.now }
{
    !(before.root == now.root && before.steps == now.steps)
}

/// Whether the system at a place lives and has another choice.
pub(crate) fn is_moved_at(
    systems: &[System],
    before: &[Chosen],
    now: &[Chosen],
    place: usize,
) -> bool
    ensures { result ≡ is_moved_at systems.now before.now now.now place }
{
    match systems.get(place) {
        Some(system) => match before.get(place) {
            Some(before) => match now.get(place) {
                Some(now) => system.lives && differs(before, now),
                None => false,
            },
            None => false,
        },
        None => false,
    }
}

/// Whether one of these systems lives and has another choice.
pub(crate) fn any_moved(systems: &[System], before: &[Chosen], now: &[Chosen]) -> bool
    ensures { result ≡ any_moved systems.now before.now now.now }
{
    (0..systems.len()).any(|place| is_moved_at(systems, before, now, place))
}

/// Whether a link ends at a place.
pub(crate) fn ends_at(place: usize, ends: &Ends) -> bool
    ensures { result ≡ ends_at place ends.now }
{
    ends.a == place || ends.b == place
}

/// Whether one of these links ends at a place.
pub(crate) fn is_joined(links: &[Ends], place: usize) -> bool
    ensures { result ≡ is_joined links.now place }
{
    links.iter().any(|ends| ends_at(place, ends))
}

/// Whether one of these links ends at the place of a system that lives and has another choice.
pub(crate) fn is_joined_moved_at(
    systems: &[System],
    links: &[Ends],
    before: &[Chosen],
    now: &[Chosen],
    place: usize,
) -> bool
    ensures { result ≡ is_joined_moved_at systems.now links.now before.now now.now place }
{
    // few are moved, and a link is searched only for these
    is_moved_at(systems, before, now, place) && is_joined(links, place)
}

/// Whether one of these systems is so.
fn any_joined_moved(systems: &[System], links: &[Ends], before: &[Chosen], now: &[Chosen]) -> bool
    ensures { result ≡ any_joined_moved systems.now links.now before.now now.now }
{
    (0..systems.len()).any(|place| is_joined_moved_at(systems, links, before, now, place))
}

/// Whether one of these systems lives and has another choice, or of those alone at whose place one of these links ends.
pub(crate) fn any_counted(
    joined: bool,
    systems: &[System],
    links: &[Ends],
    before: &[Chosen],
    now: &[Chosen],
) -> bool
    ensures { result ≡ any_counted joined systems.now links.now before.now now.now }
{
    if joined {
        any_joined_moved(systems, links, before, now)
    } else {
        any_moved(systems, before, now)
    }
}
