//! Which systems are of one component, and which of them is the best.

ghost use Rattle.std.specs.Prelude.{◌≡◌, ◌<◌, ◌+◌, ◌^◌, ◌++◌, drop, map, None, IfOk, OnOk};
ghost use Rattle.std.specs.List.Sorted.{IsPermutation, IsSorted};
ghost use Rattle.std.specs.Ordering.{nat_cmp};
ghost use Rattle.gptp_topology.specs.Tables.{systems_in};
ghost use Rattle.gptp_lint.specs.Graph.{HaveOctets, edges_in, graph_seen};
ghost use Rattle.gptp_lint.specs.Labels.{lone_label, best_at, bests_in, better_label, joined, joined_all, labels_in, live_best, relabelled, second_in, united, with_other};

use crate::graph::{Edge, Ends, Graph, edge_at};
use gptp_topology::{Node, Standing, System};
use gptp_vector::Identity;
use std::alloc::{AllocError, Global};

/// A system, and the best identity among those that it is known to be joined to.
#[derive(Clone, Copy)]
pub(crate) struct Label {
    pub identity: Identity,
    pub lives: bool,
    pub best: Identity,
}

/// The identity of a system.
fn identity_of(system: &System) -> Identity
    ensures { result ≡ system.now.identity }
{
    system.identity
}

/// A system that isn't joined to another.
fn alone(system: &System) -> Label
    ensures is { result ≡ lone_label system.now }
    ensures octets { result.identity < 2 ^ 112 }
{
    let identity = identity_of(system);
    Label {
        identity,
        lives: system.lives,
        best: identity,
    }
}

/// Systems none of which is joined to another.
fn all_alone(alloc: Global, nodes: &[Node]) -> Result<Vec<Label>, AllocError>
    ensures are { IfOk result (λ labels. labels.items ≡ map lone_label (systems_in nodes.now)) }
    ensures octets { IfOk result (λ labels. HaveOctets (systems_in nodes.now)) }
{
    let mut labels = Vec::new(alloc);
    for node in nodes {
        labels.push(alone(&node.system))?;
    }
    Ok(labels)
}

/// Puts another best for one.
fn relabel(label: &mut Label, old: Identity, new: Identity)
    ensures { label.new ≡ relabelled old new label.old }
{
    if label.best == old {
        label.best = new;
    }
}

/// Gives each system with this best another.
fn relabel_all(labels: &mut [Label], old: Identity, new: Identity)
    ensures { labels.new ≡ map (relabelled old new) labels.old }
{
    for label in labels.iter_mut() {
        relabel(label, old, new);
    }
}

/// Joins those that have these bests: they have the better one then.
fn unite(labels: &mut [Label], one: Identity, other: Identity)
    ensures { labels.new ≡ united one other labels.old }
{
    if one < other {
        relabel_all(labels, other, one);
    } else if other < one {
        relabel_all(labels, one, other);
    }
}

/// The best that the system at a place has, if it lives.
fn live_best(labels: &[Label], place: usize) -> Option<Identity>
    ensures { result ≡ live_best labels.now place }
{
    match labels.get(place) {
        Some(label) => { if label.lives { Some(label.best) } else { None } }
        None => None,
    }
}

/// Joins the systems at the ends of a link, where that is up and both live.
fn join(labels: &mut [Label], edge: &Edge)
    ensures { labels.new ≡ joined edge.now labels.old }
{
    if edge.up {
        if let Some(one) = live_best(labels, edge.from) {
            if let Some(other) = live_best(labels, edge.to) {
                unite(labels, one, other);
            }
        }
    }
}

/// Joins the systems at the ends of the link at a place, where links have these ends and stand so.
fn join_at(labels: &mut [Label], ends: &[Ends], standings: &[Standing], place: usize)
    ensures { joined_all (drop (place + 1) (edges_in ends.now standings.now)) labels.new
        ≡ joined_all (drop place (edges_in ends.now standings.now)) labels.old }
{
    match edge_at(ends, standings, place) {
        Some(edge) => join(labels, &edge),
        None => {}
    }
}

/// Joins the systems at the ends of each link, where links have these ends and stand so.
fn join_all(labels: &mut [Label], ends: &[Ends], standings: &[Standing])
    ensures { labels.new ≡ joined_all (edges_in ends.now standings.now) labels.old }
{
    for place in 0..ends.len() {
        join_at(labels, ends, standings, place);
    }
}

/// The systems, each with the best of its component, if it lives.
pub(crate) fn labels_of(alloc: Global, graph: &Graph) -> Result<Vec<Label>, AllocError>
    ensures are { IfOk result (λ labels. labels.items ≡ labels_in (graph_seen graph.now)) }
    ensures octets { IfOk result (λ labels. HaveOctets (graph_seen graph.now).systems) }
{
    let tables = &graph.tables;
    let mut labels = all_alone(alloc, &tables.nodes)?;
    join_all(labels.as_mut_slice(), &graph.ends, &tables.standings);
    Ok(labels)
}

/// Puts a system after others, where it is the best of its component.
fn push_best(bests: &mut Vec<Identity>, label: &Label) -> Result<(), AllocError>
    ensures { OnOk result (bests.new.items ≡ bests.old.items ++ best_at label.now) }
{
    if label.lives && label.best == label.identity {
        bests.push(label.identity)?;
    }
    Ok(())
}

/// The bests of the components, in the order of the network.
fn all_bests(alloc: Global, labels: &[Label]) -> Result<Vec<Identity>, AllocError>
    ensures { IfOk result (λ bests. bests.items ≡ bests_in labels.now) }
{
    let mut bests = Vec::new(alloc);
    for label in labels {
        push_best(&mut bests, label)?;
    }
    Ok(bests)
}

/// The bests of the components, by rising identity.
pub(crate) fn bests_of(alloc: Global, labels: &[Label]) -> Result<Vec<Identity>, AllocError>
    ensures all { IfOk result (λ bests. IsPermutation (bests_in labels.now) bests.items) }
    ensures sorted { IfOk result (λ bests. IsSorted nat_cmp bests.items) }
{
    let mut bests = all_bests(alloc, labels)?;
    bests.sort_unstable();
    Ok(bests)
}

/// The better of two identities.
fn better(identity: Identity, other: Option<Identity>) -> Identity
    ensures { result ≡ better_label identity other }
{
    match other {
        Some(other) => { if identity < other { identity } else { other } }
        None => identity,
    }
}

/// The best so far of the others of the component with this best, with one system more.
fn with_other(best: Identity, label: &Label, second: Option<Identity>) -> Option<Identity>
    ensures { result ≡ with_other best label.now second }
{
    if label.lives && label.best == best && label.identity != best {
        Some(better(label.identity, second))
    } else {
        second
    }
}

/// The best of the others of the component with this best.
pub(crate) fn second_of(labels: &[Label], best: Identity) -> Option<Identity>
    ensures { result ≡ second_in best None labels.now }
{
    let mut second = None;
    for label in labels {
        second = with_other(best, label, second);
    }
    second
}
