//! What a fault leaves of the components of a network: who is cut off, and the main parts.

ghost use Rattle.std.specs.Prelude.{◌≡◌, ◌≤◌, ◌*◌, ◌+◌, ◌++◌, ◌∷◌, [], if◌then◌else◌, IfErr, IfOk, OnOk, length};
ghost use Rattle.gptp_setup.specs.declared.limits.TheConstants.{LAST_MOMENT};
ghost use Rattle.gptp_network.specs.Snapshot.{IsSnapshot};
ghost use Rattle.gptp_scenario.specs.Calm.{last_change};
ghost use Rattle.gptp_faults.specs.Parts.{AreCaseParts, AreFew, ArePlaced, ArePlacedBy, AreWhole, IsLeft, IsPlaced, clock_in, clock_of_placed, cut_off, is_cut, is_heavier, is_kept, is_of, kept, leads, part_among, part_of, parts_of, placed_in, size_in, weighed};
ghost use Rattle.gptp_faults.specs.Stays.{failed_document};

use crate::case_events::CaseEvents;
use crate::stays::fail_at;
use gptp_components::{Distance, distance_of, distances};
use gptp_network::{Document, Snapshot};
use gptp_report::Cut;
use gptp_vector::{ClockId, Identity};
use std::alloc::{AllocError, Global};
use std::marker::Model;

/// The network of a document after all its events, with the best of each component. It is seen as that network.
#[derive(Drop)]
pub(crate) struct Components {
    snapshot: Snapshot,
    bests: Vec<Distance>,
}

impl Model for Components {
    ghost use Rattle.gptp_graph.specs.Snapshot.{Snapshot};
    ghost use Rattle.gptp_components.specs.Distances.{AreDistances};

    ghost Value = { Snapshot };

    ghost view = { λ c. c.snapshot };

    ghost invariant = { λ c. AreDistances c.snapshot c.bests.items };
}

/// A live system: the best of its component before a fault, and after it.
#[derive(Clone, Copy, Debug)]
pub(crate) struct Placed {
    pub clock: ClockId,
    pub component: Identity,
    pub part: Identity,
}

/// It, and how many systems its part has.
#[derive(Clone, Copy, Debug)]
pub(crate) struct Weighed {
    pub placed: Placed,
    pub size: usize,
}

/// The systems of a part, by rising clock. It is seen as these.
#[derive(Drop)]
pub(crate) struct Part {
    clocks: Vec<ClockId>,
}

impl Model for Part {
    ghost use Rattle.std.specs.Prelude.{ℕ, List};

    ghost Value = { List ℕ };

    ghost view = { λ p. p.clocks.items };
}

impl Part {
    ghost use Rattle.std.specs.Prelude.{◌≡◌};

    /// Its systems.
    pub(crate) fn clocks(&self) -> &[ClockId]
        ensures { result.now ≡ self.now }
    {
        &self.clocks
    }
}

/// What a fault leaves: who is cut off, and the main parts.
#[derive(Drop)]
pub(crate) struct CaseParts {
    /// Who is cut off.
    pub cut: Vec<ClockId>,
    /// The main parts.
    pub main: Vec<Part>,
}

impl Components {
    ghost use Rattle.std.specs.Prelude.{◌≡◌, IfOk, IfSome, slice_get};
    ghost use Rattle.gptp_graph.specs.SettledChoice.{IsBestIdentity};
    ghost use Rattle.gptp_graph.specs.Snapshot.{clocks};
    ghost use Rattle.gptp_network.specs.Snapshot.{IsSnapshot};
    ghost use Rattle.gptp_scenario.specs.Calm.{last_change};

    /// Those of a document.
    pub(crate) fn of(alloc: Global, document: &Document) -> Result<Self, AllocError>
        ensures { IfOk result (λ c. IsSnapshot document.now (last_change document.now.events) c) }
    {
        let snapshot = document.snapshot(alloc, document.last_change())?;
        let bests = distances(alloc, &snapshot)?;
        Ok(Components { snapshot, bests })
    }

    /// The network.
    fn snapshot(&self) -> &Snapshot
        ensures { result.now ≡ self.now }
    {
        &self.snapshot
    }

    /// The clock of the live system at a place, by rising clock.
    fn clock_at(&self, place: usize) -> Option<ClockId>
        ensures { result ≡ slice_get (clocks self.now) place }
    {
        let (identity, _) = self.snapshot.system_at(place)?;
        Some(identity.clock())
    }

    /// The best of the component of the live system with a clock.
    fn best_of(&self, clock: ClockId) -> Option<Identity>
        ensures { IfSome result (IsBestIdentity self.now clock) }
    {
        let distance = distance_of(&self.snapshot, &self.bests, clock)?;
        Some(distance.root)
    }
}

/// The live system with a clock, which was one before the fault.
fn place_system(before: &Components, after: &Components, clock: ClockId) -> Result<Placed, Cut>
    ensures placed { IfOk result (IsPlaced before.now after.now clock) }
    ensures memory { IfErr result (λ e. e ≡ Cut.Memory) }
{
    match (before.best_of(clock), after.best_of(clock)) {
        (Some(component), Some(part)) => Ok(Placed {
            clock,
            component,
            part,
        }),
        // who lives after a fault lived before it
        _ => Err(Cut::Memory),
    }
}

/// Puts a system after others.
fn push_placed(all: &mut Vec<Placed>, one: Placed) -> Result<(), AllocError>
    ensures { OnOk result (all.new.items ≡ all.old.items ++ one ∷ []) }
{
    all.push(one)?;
    Ok(())
}

/// Puts the live system at a place after those of the places before.
fn push_live(
    all: &mut Vec<Placed>,
    before: &Components,
    after: &Components,
    place: usize,
) -> Result<(), Cut>
    requires { ArePlacedBy before.now after.now place all.old.items }
    ensures placed { OnOk result (ArePlacedBy before.now after.now (place + 1) all.new.items) }
    ensures memory { IfErr result (λ e. e ≡ Cut.Memory) }
{
    if let Some(clock) = after.clock_at(place) {
        let one = place_system(before, after, clock)?;
        push_placed(all, one)?;
    }
    Ok(())
}

/// The live systems, by rising clock.
fn placed_all(alloc: Global, before: &Components, after: &Components) -> Result<Vec<Placed>, Cut>
    ensures placed { IfOk result (λ all. ArePlaced before.now after.now all.items) }
    ensures few { IfOk result (λ all. length all.items ≤ 512) }
    ensures memory { IfErr result (λ e. e ≡ Cut.Memory) }
{
    after.snapshot().well_formed();
    let mut all = Vec::new(alloc);
    for place in 0..after.snapshot().systems() {
        push_live(&mut all, before, after, place)?;
    }
    Ok(all)
}

/// How many systems a part has.
fn size_in(all: &[Placed], part: Identity) -> usize
    ensures is { result ≡ size_in all.now part }
    ensures bound { result ≤ length all.now }
{
    all.iter().filter(|one| one.part == part).count()
}

/// A system among these, with how many its part has.
fn weigh(all: &[Placed], placed: Placed) -> Weighed
    ensures { result ≡ record { placed = placed; size = size_in all.now placed.part } }
{
    Weighed {
        placed,
        size: size_in(all, placed.part),
    }
}

/// All systems so.
fn weigh_all(alloc: Global, all: &[Placed]) -> Result<Vec<Weighed>, AllocError>
    ensures { IfOk result (λ ws. ws.items ≡ weighed all.now) }
{
    let mut weights = Vec::new(alloc);
    for one in all {
        weights.push(weigh(all, *one))?;
    }
    Ok(weights)
}

/// Whether the part of a system is another part of the component of the other system, and has more systems than that of
/// the other, or as many and a better best.
fn is_heavier(one: &Weighed, other: &Weighed) -> bool
    ensures { result ≡ is_heavier one.now other.now }
{
    one.placed.component == other.placed.component
        && (other.size < one.size
            || (one.size == other.size && one.placed.part < other.placed.part))
}

/// Whether a system is cut off: another part of its component is heavier.
fn is_cut(all: &[Weighed], one: &Weighed) -> bool
    ensures { result ≡ is_cut all.now one.now }
{
    all.iter().any(|other| is_heavier(other, one))
}

/// Puts a system after others, where it is cut off.
fn push_cut(cut: &mut Vec<ClockId>, all: &[Weighed], one: &Weighed) -> Result<(), AllocError>
    ensures { OnOk result (cut.new.items ≡ cut.old.items ++ (if is_cut all.now one.now then clock_in one.now ∷ [] else [])) }
{
    match is_cut(all, one) {
        true => {
            cut.push(one.placed.clock)?;
            Ok(())
        }
        false => Ok(()),
    }
}

/// Who is cut off.
fn cut_off(alloc: Global, all: &[Weighed]) -> Result<Vec<ClockId>, AllocError>
    ensures { IfOk result (λ v. v.items ≡ cut_off all.now) }
{
    let mut cut = Vec::new(alloc);
    for one in all {
        push_cut(&mut cut, all, one)?;
    }
    Ok(cut)
}

/// Puts a system after others, where it isn't cut off.
fn push_kept(kept: &mut Vec<Placed>, all: &[Weighed], one: &Weighed) -> Result<(), AllocError>
    ensures { OnOk result (kept.new.items ≡ kept.old.items ++ (if is_kept all.now one.now then placed_in one.now ∷ [] else [])) }
{
    match is_cut(all, one) {
        true => Ok(()),
        false => {
            kept.push(one.placed)?;
            Ok(())
        }
    }
}

/// Who isn't.
fn kept(alloc: Global, all: &[Weighed]) -> Result<Vec<Placed>, AllocError>
    ensures { IfOk result (λ v. v.items ≡ kept all.now) }
{
    let mut kept = Vec::new(alloc);
    for one in all {
        push_kept(&mut kept, all, one)?;
    }
    Ok(kept)
}

/// Whether a system is the best of its part.
fn leads(one: &Placed) -> bool
    ensures { result ≡ leads one.now }
{
    one.part.clock() == one.clock
}

/// Puts a system after others, where it is of a part.
fn push_member(clocks: &mut Vec<ClockId>, part: Identity, one: &Placed) -> Result<(), AllocError>
    ensures { OnOk result (clocks.new.items ≡ clocks.old.items ++ (if is_of part one.now then clock_of_placed one.now ∷ [] else [])) }
{
    match one.part == part {
        true => {
            clocks.push(one.clock)?;
            Ok(())
        }
        false => Ok(()),
    }
}

/// The systems of a part among these.
fn members(alloc: Global, all: &[Placed], part: Identity) -> Result<Vec<ClockId>, AllocError>
    ensures { IfOk result (λ v. v.items ≡ part_among all.now part) }
{
    let mut clocks = Vec::new(alloc);
    for one in all {
        push_member(&mut clocks, part, one)?;
    }
    Ok(clocks)
}

/// Puts the part of a system after others, where the system is its best.
fn push_part(
    alloc: Global,
    parts: &mut Vec<Part>,
    all: &[Placed],
    one: &Placed,
) -> Result<(), AllocError>
    ensures { OnOk result (parts.new.items ≡ parts.old.items ++ (if leads one.now then part_of all.now one.now ∷ [] else [])) }
{
    match leads(one) {
        true => {
            let clocks = members(alloc, all, one.part)?;
            parts.push(Part { clocks })?;
            Ok(())
        }
        false => Ok(()),
    }
}

/// The parts of these systems.
fn parts_of(alloc: Global, all: &[Placed]) -> Result<Vec<Part>, AllocError>
    ensures { IfOk result (λ parts. parts.items ≡ parts_of all.now) }
{
    let mut parts = Vec::new(alloc);
    for one in all {
        push_part(alloc, &mut parts, all, one)?;
    }
    Ok(parts)
}

/// The components, each as a part.
pub(crate) fn whole_parts(alloc: Global, whole: &Components) -> Result<Vec<Part>, Cut>
    ensures parts { IfOk result (λ parts. AreWhole whole.now parts.items) }
    ensures few { IfOk result (λ parts. AreFew parts.items) }
    ensures memory { IfErr result (λ e. e ≡ Cut.Memory) }
{
    let all = placed_all(alloc, whole, whole)?;
    Ok(parts_of(alloc, &all)?)
}

/// What is left of components after a fault.
fn parts_after(alloc: Global, before: &Components, after: &Components) -> Result<CaseParts, Cut>
    ensures parts { IfOk result (λ p. IsLeft before.now after.now p.cut.items p.main.items) }
    ensures few { IfOk result (λ p. AreFew p.main.items) }
    ensures memory { IfErr result (λ e. e ≡ Cut.Memory) }
{
    let all = placed_all(alloc, before, after)?;
    let weights = weigh_all(alloc, &all)?;
    let cut = cut_off(alloc, &weights)?;
    let kept = kept(alloc, &weights)?;
    let main = parts_of(alloc, &kept)?;
    Ok(CaseParts { cut, main })
}

/// The network of a document after a case failed at a time.
fn failed(
    alloc: Global,
    document: &mut Document,
    events: &CaseEvents,
    at: u64,
) -> Result<Components, Cut>
    requires { at ≤ 2 * LAST_MOMENT }
    ensures failed { IfOk result (IsSnapshot (failed_document at events.now document.old) (last_change (failed_document at events.now document.old).events)) }
    ensures same { OnOk result (document.new ≡ document.old) }
    ensures memory { IfErr result (λ e. e ≡ Cut.Memory) }
{
    let count = document.events().len();
    fail_at(document, at, events)?;
    let after = Components::of(alloc, document)?;
    document.truncate(count);
    Ok(after)
}

/// What is left of the components of a document after a case failed at a time.
pub(crate) fn case_parts(
    alloc: Global,
    document: &mut Document,
    before: &Components,
    events: &CaseEvents,
    at: u64,
) -> Result<CaseParts, Cut>
    requires { at ≤ 2 * LAST_MOMENT }
    ensures parts { IfOk result (λ p. AreCaseParts document.old before.now events.now at p.cut.items p.main.items) }
    ensures few { IfOk result (λ p. AreFew p.main.items) }
    ensures same { OnOk result (document.new ≡ document.old) }
    ensures memory { IfErr result (λ e. e ≡ Cut.Memory) }
{
    let after = failed(alloc, document, events, at)?;
    parts_after(alloc, before, &after)
}
