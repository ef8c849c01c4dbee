//! The search: which system is the best of each component, and how far the others are from it.

ghost use Rattle.std.specs.Prelude.{◌≡◌, ◌<◌, ◌+◌, ◌++◌, [], ◌∷◌, ℕ, List, length, suc, map, take, IfNone, IfOk, IfSome, OnOk, Option, Some, slice_get};
ghost use Rattle.gptp_graph.specs.Snapshot.{System, clocks};
ghost use Rattle.gptp_lists.specs.Members.{In};
ghost use Rattle.gptp_components.specs.Distances.{AreDistances, AreFirstDistances};
ghost use Rattle.gptp_components.specs.Search.{AreAllFound, AreByRank, ComponentsAreFound, AtEdge, IsComponentFound, IsFound, IsNewRoot, IsPut, IsSpread, NothingFound};
ghost use Rattle.gptp_components.specs.declared.distance.Distance.{Distance};

use crate::distance::Distance;
use gptp_network::Snapshot;
use gptp_vector::{ClockId, Identity, PortId};
use std::alloc::{AllocError, Global};

/// What is found at a place.
fn found_at(found: &[Option<Distance>], place: usize) -> Option<Distance>
    ensures some { IfSome result (λ d. slice_get found.now place ≡ Some (Some d)) }
    ensures none { IfNone result ((d : Distance) → slice_get found.now place ≡ Some (Some d) → ⊥) }
{
    *found.get(place)?
}

/// What is found of the system with a clock.
fn found_of(snapshot: &Snapshot, found: &[Option<Distance>], clock: ClockId) -> Option<Distance>
    ensures some { IfSome result (IsFound snapshot.now found.now clock) }
    ensures none { IfNone result ((d : Distance) → IsFound snapshot.now found.now clock d → ⊥) }
{
    found_at(found, snapshot.place_of(clock)?)
}

/// Notes the distance of the system with a clock, of which nothing is found, and puts it among those that wait.
fn put_new(
    snapshot: &Snapshot,
    found: &mut Vec<Option<Distance>>,
    waiting: &mut Vec<ClockId>,
    clock: ClockId,
    distance: &Distance,
) -> Result<(), AllocError>
    requires as_many { length found.old.items ≡ length snapshot.now.systems }
    requires live { In clock (clocks snapshot.now) }
    requires unfound { (d : Distance) → IsFound snapshot.now found.old.items clock d → ⊥ }
    ensures { OnOk result (IsPut snapshot.now distance.now clock found.old.items waiting.old.items
        found.new.items waiting.new.items) }
{
    snapshot.well_formed();
    if let Some(place) = snapshot.place_of(clock) {
        found[place] = Some(*distance);
        waiting.push(clock)?;
    }
    Ok(())
}

/// Puts a system among those that wait, unless its distance is found.
fn put(
    snapshot: &Snapshot,
    found: &mut Vec<Option<Distance>>,
    waiting: &mut Vec<ClockId>,
    clock: ClockId,
    distance: &Distance,
) -> Result<(), AllocError>
    requires as_many { length found.old.items ≡ length snapshot.now.systems }
    requires live { In clock (clocks snapshot.now) }
    ensures { OnOk result (IsPut snapshot.now distance.now clock found.old.items waiting.old.items
        found.new.items waiting.new.items) }
{
    match found_of(snapshot, found, clock) {
        Some(_) => Ok(()),
        None => put_new(snapshot, found, waiting, clock, distance),
    }
}

/// Puts the system at the other end of a port's link among those that wait, if there is one.
fn put_over(
    snapshot: &Snapshot,
    found: &mut Vec<Option<Distance>>,
    waiting: &mut Vec<ClockId>,
    port: PortId,
    distance: &Distance,
) -> Result<(), AllocError>
    requires as_many { length found.old.items ≡ length snapshot.now.systems }
    requires edge { AtEdge snapshot.now distance.now port.clock }
    ensures as_many { OnOk result (length found.new.items ≡ length found.old.items) }
    ensures spread { OnOk result ((us : List ℕ) (k : ℕ) (before : List (Option Distance)) → port.port ≡ k + 1
        → IsSpread snapshot.now distance.now us port.clock k before found.old.items waiting.old.items
        → IsSpread snapshot.now distance.now us port.clock (k + 1) before found.new.items waiting.new.items) }
{
    snapshot.well_formed();
    match snapshot.other_end(port) {
        Some(there) => put(snapshot, found, waiting, there.clock, distance),
        None => Ok(()),
    }
}

/// How many ports the system with a clock has.
fn ports_of(snapshot: &Snapshot, clock: ClockId) -> u8
    ensures { (s : System) → In s snapshot.now.systems → s.clock ≡ clock → result ≡ s.ports }
{
    snapshot.well_formed();
    match snapshot.place_of(clock) {
        Some(place) => match snapshot.system_at(place) {
            Some((_, ports)) => ports,
            None => 0,
        },
        None => 0,
    }
}

/// Puts all neighbours of a system at the edge among those that wait.
fn put_neighbours(
    snapshot: &Snapshot,
    found: &mut Vec<Option<Distance>>,
    waiting: &mut Vec<ClockId>,
    clock: ClockId,
    distance: &Distance,
) -> Result<(), AllocError>
    requires as_many { length found.old.items ≡ length snapshot.now.systems }
    requires edge { AtEdge snapshot.now distance.now clock }
    ensures as_many { OnOk result (length found.new.items ≡ length found.old.items) }
    ensures spread { OnOk result ((us : List ℕ) (before : List (Option Distance))
        → IsSpread snapshot.now distance.now us 0 0 before found.old.items waiting.old.items
        → IsSpread snapshot.now distance.now (us ++ clock ∷ []) 0 0 before found.new.items waiting.new.items) }
{
    snapshot.well_formed();
    let ports = ports_of(snapshot, clock);
    for index in 0..ports {
        let port = u16::from(index) + 1;
        put_over(snapshot, found, waiting, PortId { clock, port }, distance)?;
    }
    Ok(())
}

/// Notes the distance of each system that is one step farther than those at the edge; answers these.
fn reach_next(
    alloc: Global,
    snapshot: &Snapshot,
    found: &mut Vec<Option<Distance>>,
    edge: &[ClockId],
    distance: &Distance,
) -> Result<Vec<ClockId>, AllocError>
    requires as_many { length found.old.items ≡ length snapshot.now.systems }
    requires edge { (u : ℕ) → In u edge.now → AtEdge snapshot.now distance.now u }
    ensures { IfOk result
        (λ waiting. IsSpread snapshot.now distance.now edge.now 0 0 found.old.items found.new.items waiting.items) }
{
    snapshot.well_formed();
    let mut waiting = Vec::new(alloc);
    for clock in edge {
        put_neighbours(snapshot, found, &mut waiting, *clock, distance)?;
    }
    Ok(waiting)
}

/// One step more.
fn farther(distance: &Distance) -> Distance
    requires { distance.now.steps < 65535 }
    ensures root { result.root ≡ distance.now.root }
    ensures steps { result.steps ≡ suc distance.now.steps }
{
    Distance {
        root: distance.root,
        steps: distance.steps + 1,
    }
}

/// Finds the distances of all systems of the component of which this is the best.
fn reach_component(
    alloc: Global,
    snapshot: &Snapshot,
    found: &mut Vec<Option<Distance>>,
    root: Identity,
) -> Result<(), AllocError>
    requires as_many { length found.old.items ≡ length snapshot.now.systems }
    requires best { IsNewRoot snapshot.now root found.old.items }
    ensures { OnOk result (IsComponentFound snapshot.now root found.old.items found.new.items) }
{
    snapshot.well_formed();
    let mut distance = Distance { root, steps: 0 };
    let mut edge = Vec::new(alloc);
    put(snapshot, found, &mut edge, root.clock(), &distance)?;
    let turns = snapshot.systems();
    for _turn in 0..turns {
        if edge.is_empty() {
            return Ok(());
        }
        distance = farther(&distance);
        edge = reach_next(alloc, snapshot, found, &edge, &distance)?;
    }
    Ok(())
}

/// Puts the identity of the live system at a place after those of the places before.
fn push_identity(
    ids: &mut Vec<Identity>,
    snapshot: &Snapshot,
    place: usize,
) -> Result<(), AllocError>
    requires place { place < length snapshot.now.systems }
    requires before { ids.old.items ≡ map (λ (s : System). s.identity) (take place snapshot.now.systems) }
    ensures { OnOk result (ids.new.items ≡ map (λ (s : System). s.identity) (take (place + 1) snapshot.now.systems)) }
{
    if let Some(system) = snapshot.system_at(place) {
        ids.push(system.0)?;
    }
    Ok(())
}

/// The identities of the live systems.
fn identities(alloc: Global, snapshot: &Snapshot) -> Result<Vec<Identity>, AllocError>
    ensures { IfOk result (λ ids. ids.items ≡ map (λ (s : System). s.identity) snapshot.now.systems) }
{
    let mut ids = Vec::new(alloc);
    for place in 0..snapshot.systems() {
        push_identity(&mut ids, snapshot, place)?;
    }
    Ok(ids)
}

/// The identities of all systems, the best first.
fn by_rank(alloc: Global, snapshot: &Snapshot) -> Result<Vec<Identity>, AllocError>
    ensures { IfOk result (λ ids. AreByRank snapshot.now ids.items) }
{
    let mut ids = identities(alloc, snapshot)?;
    ids.sort_unstable();
    Ok(ids)
}

/// Finds the component of the system of this rank, unless that was found with a better one.
fn reach_ranked(
    alloc: Global,
    snapshot: &Snapshot,
    found: &mut Vec<Option<Distance>>,
    ranked: &[Identity],
    rank: usize,
) -> Result<(), AllocError>
    requires ranked { AreByRank snapshot.now ranked.now }
    requires rank { rank < length ranked.now }
    requires before { ComponentsAreFound snapshot.now ranked.now rank found.old.items }
    ensures { OnOk result (ComponentsAreFound snapshot.now ranked.now (suc rank) found.new.items) }
{
    snapshot.well_formed();
    let root = ranked[rank];
    match found_of(snapshot, found, root.clock()) {
        Some(_) => Ok(()),
        None => reach_component(alloc, snapshot, found, root),
    }
}

/// Nothing, so many times.
fn nothing_found(alloc: Global, count: usize) -> Result<Vec<Option<Distance>>, AllocError>
    ensures as_many { IfOk result (λ found. length found.items ≡ count) }
    ensures nothing { IfOk result (λ found. NothingFound found.items) }
{
    let mut found = Vec::new(alloc);
    for _place in 0..count {
        found.push(None)?;
    }
    Ok(found)
}

/// Puts what is found at a place after what was found at those before.
fn push_found(
    distances: &mut Vec<Distance>,
    snapshot: &Snapshot,
    found: &[Option<Distance>],
    place: usize,
) -> Result<(), AllocError>
    requires found { AreAllFound snapshot.now found.now }
    requires place { place < length snapshot.now.systems }
    requires before { AreFirstDistances snapshot.now place distances.old.items }
    ensures { OnOk result (AreFirstDistances snapshot.now (suc place) distances.new.items) }
{
    let _ = snapshot;
    if let Some(distance) = found_at(found, place) {
        distances.push(distance)?;
    }
    Ok(())
}

/// What is found of all systems.
fn all_found(
    alloc: Global,
    snapshot: &Snapshot,
    found: &[Option<Distance>],
) -> Result<Vec<Distance>, AllocError>
    requires { AreAllFound snapshot.now found.now }
    ensures { IfOk result (λ distances. AreDistances snapshot.now distances.items) }
{
    let mut distances = Vec::new(alloc);
    for place in 0..snapshot.systems() {
        push_found(&mut distances, snapshot, found, place)?;
    }
    Ok(distances)
}

/// The distances of all live systems of a snapshot, by their places: of each the best system of its component, and how
/// many links it is from that. The search takes a time linear in systems and links, but for a factor logarithmic in
/// their number. The only error is that memory ran out.
pub fn distances(alloc: Global, snapshot: &Snapshot) -> Result<Vec<Distance>, AllocError>
    ensures { IfOk result (λ distances. AreDistances snapshot.now distances.items) }
{
    snapshot.well_formed();
    let mut found = nothing_found(alloc, snapshot.systems())?;
    let ranked = by_rank(alloc, snapshot)?;
    for rank in 0..ranked.len() {
        reach_ranked(alloc, snapshot, &mut found, &ranked, rank)?;
    }
    all_found(alloc, snapshot, &found)
}
