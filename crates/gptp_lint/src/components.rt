//! What the components of a network show at its times: how many there are, and which systems are their best.

ghost use Rattle.std.specs.Prelude.{◌≡◌, ◌++◌, [], map, OnOk, IfOk};
ghost use Rattle.std.specs.List.{flat_map};
ghost use Rattle.gptp_topology.specs.Course.{cable_of};
ghost use Rattle.gptp_lint.specs.Components.{AreComponents, AreMoments, apart_at, apart_from, are_alike, decides_by_clock, can_be_grandmaster, is_told, nobody_at, nobody_from, nobody_if, was_best};
ghost use Rattle.gptp_lint.specs.Graph.{IsGraph, graph_seen};
ghost use Rattle.gptp_lint.specs.Moments.{AreChancesOf, IsMomentOf, MomentIsTold, chance_at};

use crate::graph::Graph;
use crate::labels::{Label, bests_of, labels_of, second_of};
use gptp_network::Document;
use gptp_topology::Cable;
use gptp_vector::Identity;
use std::alloc::{AllocError, Global};

/// A time after which the live systems are in several components.
#[derive(Clone, Copy)]
pub(crate) struct Apart {
    pub at: u64,
    pub components: usize,
}

/// A time after which the best of a component can't be grandmaster.
#[derive(Clone, Copy)]
pub(crate) struct Nobody {
    pub at: u64,
    pub best: Identity,
}

/// What the components of a network show at its times.
#[derive(Drop)]
pub(crate) struct Components {
    /// By time.
    pub apart: Vec<Apart>,
    /// The two best of a component after all events that differ in their clocks alone, by the first.
    pub chance: Vec<(Identity, Identity)>,
    /// By time, then rising identity.
    pub nobody: Vec<Nobody>,
}

/// A time of a document, and the bests of the components after it, by rising identity.
#[derive(Drop)]
pub(crate) struct Moment {
    pub at: u64,
    pub bests: Vec<Identity>,
}

/// The bests of the components of a network as it stands, at a time.
fn moment_of(alloc: Global, graph: &Graph, at: u64) -> Result<Moment, AllocError>
    ensures { IfOk result (IsMomentOf (graph_seen graph.now) at) }
{
    let labels = labels_of(alloc, graph)?;
    let bests = bests_of(alloc, &labels)?;
    Ok(Moment { at, bests })
}

/// Puts a moment after others, where the next time is another.
fn tell(
    alloc: Global,
    moments: &mut Vec<Moment>,
    graph: &Graph,
    at: u64,
    next: u64,
) -> Result<(), AllocError>
    ensures { OnOk result (MomentIsTold (graph_seen graph.now) at next moments.old.items moments.new.items) }
{
    if next != at {
        let moment = moment_of(alloc, graph, at)?;
        moments.push(moment)?;
    }
    Ok(())
}

/// The moments of a document, and how its network, which stands as at first, stands after all its events.
fn follow(alloc: Global, document: &Document, graph: &mut Graph) -> Result<Vec<Moment>, AllocError>
    requires { IsGraph document.now.network [] graph.old }
    ensures moments { IfOk result (λ moments. AreMoments document.now moments.items) }
    ensures graph { OnOk result (IsGraph document.now.network document.now.events graph.new) }
{
    document.network().well_formed();
    document.well_formed();
    let events = document.events();
    let mut moments = Vec::new(alloc);
    let mut at = 0;
    for event in events {
        tell(alloc, &mut moments, graph, at, event.at)?;
        at = event.at;
        graph.tables.act(&event.act);
    }
    let moment = moment_of(alloc, graph, at)?;
    moments.push(moment)?;
    Ok(moments)
}

/// Puts a moment after others, where there are several components then, and were not so many before.
fn push_apart(apart: &mut Vec<Apart>, before: usize, moment: &Moment) -> Result<(), AllocError>
    ensures { OnOk result (apart.new.items ≡ apart.old.items ++ apart_at before moment.now) }
{
    let components = moment.bests.len();
    if 1 < components && components != before {
        apart.push(Apart {
            at: moment.at,
            components,
        })?;
    }
    Ok(())
}

/// The moments at which there are several components, and were not so many before.
fn apart_of(alloc: Global, moments: &[Moment]) -> Result<Vec<Apart>, AllocError>
    ensures { IfOk result (λ apart. apart.items ≡ apart_from 0 moments.now) }
{
    let mut apart = Vec::new(alloc);
    let mut before = 0;
    for moment in moments {
        push_apart(&mut apart, before, moment)?;
        before = moment.bests.len();
    }
    Ok(apart)
}

/// Whether a system can be grandmaster.
fn is_capable(identity: Identity) -> bool
    ensures { result ≡ can_be_grandmaster identity }
{
    identity.capable()
}

/// Whether a system was a best before.
fn was_best(before: &[Identity], best: Identity) -> bool
    ensures { result ≡ was_best before.now best }
{
    before.iter().any(|other| *other == best)
}

/// Whether a best can't be grandmaster, and was no best before.
fn is_told(before: &[Identity], best: Identity) -> bool
    ensures { result ≡ is_told before.now best }
{
    !is_capable(best) && !was_best(before, best)
}

/// Puts a best after others, where it can't be grandmaster, and was no best before.
fn push_nobody(
    nobody: &mut Vec<Nobody>,
    before: &[Identity],
    at: u64,
    best: Identity,
) -> Result<(), AllocError>
    ensures { OnOk result (nobody.new.items ≡ nobody.old.items ++ nobody_if before.now at best) }
{
    if is_told(before, best) {
        nobody.push(Nobody { at, best })?;
    }
    Ok(())
}

/// Puts a finding for each best of a moment that can't be grandmaster.
fn push_nobodies(
    nobody: &mut Vec<Nobody>,
    before: &[Identity],
    moment: &Moment,
) -> Result<(), AllocError>
    ensures { OnOk result (nobody.new.items ≡ nobody.old.items ++ nobody_at before.now moment.now) }
{
    for best in &moment.bests {
        push_nobody(nobody, before, moment.at, *best)?;
    }
    Ok(())
}

/// The bests of moments that can't be grandmaster, and weren't bests before.
fn nobody_of(alloc: Global, moments: &[Moment]) -> Result<Vec<Nobody>, AllocError>
    ensures { IfOk result (λ nobody. nobody.items ≡ nobody_from [] moments.now) }
{
    let mut nobody = Vec::new(alloc);
    let mut before: &[Identity] = &[];
    for moment in moments {
        push_nobodies(&mut nobody, before, moment)?;
        before = &moment.bests;
    }
    Ok(nobody)
}

/// Whether two systems differ in nothing but their clocks.
fn are_alike(one: Identity, other: Identity) -> bool
    ensures { result ≡ are_alike one other }
{
    let here = one.octets();
    let there = other.octets();
    here[0] == there[0]
        && here[1] == there[1]
        && here[2] == there[2]
        && here[3] == there[3]
        && here[4] == there[4]
        && here[5] == there[5]
}

/// Whether two systems can be grandmaster, and differ in nothing but their clocks.
fn decides_by_clock(one: Identity, other: Identity) -> bool
    ensures { result ≡ decides_by_clock one other }
{
    is_capable(one) && is_capable(other) && are_alike(one, other)
}

/// Puts the two best of the component with this best after others, where a clock decides between them.
fn push_chance(
    chance: &mut Vec<(Identity, Identity)>,
    labels: &[Label],
    best: Identity,
) -> Result<(), AllocError>
    ensures { OnOk result (chance.new.items ≡ chance.old.items ++ chance_at labels.now best) }
{
    if let Some(second) = second_of(labels, best) {
        if decides_by_clock(best, second) {
            chance.push((best, second))?;
        }
    }
    Ok(())
}

/// The chances of the components of these bests.
fn chances_in(
    alloc: Global,
    labels: &[Label],
    bests: &[Identity],
) -> Result<Vec<(Identity, Identity)>, AllocError>
    ensures { IfOk result (λ chance. chance.items ≡ flat_map (chance_at labels.now) bests.now) }
{
    let mut chance = Vec::new(alloc);
    for best in bests {
        push_chance(&mut chance, labels, *best)?;
    }
    Ok(chance)
}

/// The two best of each component between which a clock decides, in a network as it stands.
fn chances_of(alloc: Global, graph: &Graph) -> Result<Vec<(Identity, Identity)>, AllocError>
    ensures { IfOk result (λ chance. AreChancesOf (graph_seen graph.now) chance.items) }
{
    let labels = labels_of(alloc, graph)?;
    let bests = bests_of(alloc, &labels)?;
    chances_in(alloc, &labels, &bests)
}

/// What the components of a network show at its times, where these are its links.
pub(crate) fn components_of(
    alloc: Global,
    document: &Document,
    cables: &[Cable],
) -> Result<Components, AllocError>
    requires { cables.now ≡ map cable_of document.now.network.links }
    ensures { IfOk result (AreComponents document.now) }
{
    document.network().well_formed();
    let mut graph = Graph::first(alloc, document.network(), cables)?;
    let moments = follow(alloc, document, &mut graph)?;
    let apart = apart_of(alloc, &moments)?;
    let nobody = nobody_of(alloc, &moments)?;
    let chance = chances_of(alloc, &graph)?;
    Ok(Components {
        apart,
        chance,
        nobody,
    })
}
