//! The systems of a network as they stand, with the links at each.

ghost use Rattle.std.specs.Prelude.{◌≡◌, ◌++◌, ◌∷◌, [], ◌<◌, ◌≤◌, ◌+◌, length, map, take, IfOk, OnOk};
ghost use Rattle.std.specs.List.{count_by, find};
ghost use Rattle.gptp_topology.specs.After.{node_after};
ghost use Rattle.gptp_topology.specs.Tables.{acted_system, changed_system, has_clock, led, neighbours_at, neighbours_of, node_acted, node_with, systems_in, tables_seen};

use crate::course::Cable;
use gptp_scenario::{Act, Change, Network};
use gptp_vector::{ClockId, Identity};
use std::alloc::{AllocError, Global};

/// A system: its clock, its identity, and whether it lives.
#[derive(Clone, Copy)]
pub struct System {
    pub clock: ClockId,
    pub identity: Identity,
    pub lives: bool,
}

/// A link at a system, by its place, and the system at its other end.
#[derive(Clone, Copy)]
pub struct Neighbour {
    pub link: usize,
    pub clock: ClockId,
}

/// A system, and the links at it.
#[derive(Drop)]
pub struct Node {
    pub system: System,
    pub neighbours: Vec<Neighbour>,
}

/// Puts a link after others, where it is at the system with this clock.
fn push_neighbour(
    neighbours: &mut Vec<Neighbour>,
    clock: ClockId,
    cable: &Cable,
) -> Result<(), AllocError>
    ensures { OnOk result (neighbours.new.items ≡ neighbours.old.items ++ led clock cable.now) }
{
    if cable.a.clock == clock {
        neighbours.push(Neighbour {
            link: cable.bounds.link,
            clock: cable.b.clock,
        })?;
    } else if cable.b.clock == clock {
        neighbours.push(Neighbour {
            link: cable.bounds.link,
            clock: cable.a.clock,
        })?;
    }
    Ok(())
}

/// The links at the system with this clock.
fn neighbours_of(
    alloc: Global,
    clock: ClockId,
    cables: &[Cable],
) -> Result<Vec<Neighbour>, AllocError>
    ensures { IfOk result (λ neighbours. neighbours.items ≡ neighbours_of clock cables.now) }
{
    let mut neighbours = Vec::new(alloc);
    for cable in cables {
        push_neighbour(&mut neighbours, clock, cable)?;
    }
    Ok(neighbours)
}

/// Puts a system after others, with those of these links that are at it.
fn push_node(
    alloc: Global,
    nodes: &mut Vec<Node>,
    system: System,
    cables: &[Cable],
) -> Result<(), AllocError>
    ensures { OnOk result (map tables_seen nodes.new.items
        ≡ map tables_seen nodes.old.items ++ node_with cables.now system ∷ []) }
{
    let neighbours = neighbours_of(alloc, system.clock, cables)?;
    nodes.push(Node { system, neighbours })?;
    Ok(())
}

/// Puts the system at a place, as it stands before all events, after those before.
fn push_node_at(
    alloc: Global,
    nodes: &mut Vec<Node>,
    network: &Network,
    cables: &[Cable],
    place: usize,
) -> Result<(), AllocError>
    requires place { place < length network.now.systems }
    requires before { map tables_seen nodes.old.items
        ≡ map (node_after cables.now []) (take place network.now.systems) }
    ensures { OnOk result (map tables_seen nodes.new.items
        ≡ map (node_after cables.now []) (take (place + 1) network.now.systems)) }
{
    match network.system_at(place) {
        Some(system) => push_node(
            alloc,
            nodes,
            System {
                clock: system.0.clock(),
                identity: system.0,
                lives: true,
            },
            cables,
        ),
        None => Ok(()),
    }
}

/// The systems of a network with these links, in its order, as they stand before all events.
pub(crate) fn nodes_of(
    alloc: Global,
    network: &Network,
    cables: &[Cable],
) -> Result<Vec<Node>, AllocError>
    ensures { IfOk result (λ nodes. map tables_seen nodes.items ≡ map (node_after cables.now []) network.now.systems) }
{
    let mut nodes = Vec::new(alloc);
    for place in 0..network.systems() {
        push_node_at(alloc, &mut nodes, network, cables, place)?;
    }
    Ok(nodes)
}

/// The links at the system with a clock.
pub(crate) fn neighbours_at(clock: ClockId, nodes: &[Node]) -> &[Neighbour]
    ensures { result.now ≡ neighbours_at clock nodes.now }
{
    for node in nodes {
        if node.system.clock == clock {
            return &node.neighbours;
        }
    }
    &[]
}

/// The system with a clock.
pub(crate) fn system_at(clock: ClockId, nodes: &[Node]) -> Option<System>
    ensures { result ≡ find (has_clock clock) (systems_in nodes.now) }
{
    for node in nodes {
        if node.system.clock == clock {
            return Some(node.system);
        }
    }
    None
}

/// Does to a system what a change does.
fn change_system(change: &Change, system: &mut System)
    ensures { system.new ≡ changed_system change.now system.old }
{
    match *change {
        Change::Fail { clock } => {
            if clock == system.clock {
                system.lives = false;
            }
        }
        Change::Recover { clock } => {
            if clock == system.clock {
                system.lives = true;
            }
        }
        Change::Priority1 { clock, value } => {
            if clock == system.clock {
                system.identity = system.identity.with_priority1(value);
            }
        }
        _ => {}
    }
}

/// Does to a system what an act does.
fn act_on_system(act: &Act, system: &mut System)
    ensures { system.new ≡ acted_system act.now system.old }
{
    match act {
        Act::Change(change) => change_system(change, system),
        _ => {}
    }
}

/// Does to each system what an act does.
pub(crate) fn act_on_nodes(nodes: &mut [Node], act: &Act)
    ensures { nodes.new ≡ map (node_acted act.now) nodes.old }
{
    for node in nodes.iter_mut() {
        act_on_system(act, &mut node.system);
    }
}

/// How many systems live.
pub(crate) fn live_nodes(nodes: &[Node]) -> usize
    ensures count { result ≡ count_by (λ (o : Node). o.system.lives) nodes.now }
    ensures bound { result ≤ length nodes.now }
{
    let mut count = 0;
    for node in nodes {
        count += usize::from(node.system.lives);
    }
    count
}
