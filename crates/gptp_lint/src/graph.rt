//! How the links of a network join its systems, by place, as its events come.

ghost use Rattle.std.specs.Prelude.{◌≡◌, [], map, slice_get, IfOk};
ghost use Rattle.gptp_topology.specs.Tables.{cables_of};
ghost use Rattle.gptp_lint.specs.Graph.{IsGraph, clocks_in, edge_by, edge_with, ends_of, place_in};

use gptp_scenario::Network;
use gptp_topology::{Cable, Node, Standing, Tables};
use gptp_vector::ClockId;
use std::alloc::{AllocError, Global};

/// The places of the systems at a link's ends.
#[derive(Clone, Copy)]
pub(crate) struct Ends {
    pub from: usize,
    pub to: usize,
}

/// A link as it stands: the places of the systems at its ends, and whether it is up.
#[derive(Clone, Copy)]
pub(crate) struct Edge {
    pub from: usize,
    pub to: usize,
    pub up: bool,
}

/// The systems and the links of a network as they stand, and the ends of each link.
#[derive(Drop)]
pub(crate) struct Graph {
    pub tables: Tables,
    pub ends: Vec<Ends>,
}

/// The place of the first system with a clock, or their number.
fn place_in(nodes: &[Node], clock: ClockId) -> usize
    ensures { result ≡ place_in clock (clocks_in nodes.now) }
{
    for (place, node) in nodes.iter().enumerate() {
        if node.system.clock == clock {
            return place;
        }
    }
    nodes.len()
}

/// The places of the systems at a link's ends.
fn ends_of(nodes: &[Node], cable: &Cable) -> Ends
    ensures { result ≡ ends_of (clocks_in nodes.now) cable.now }
{
    Ends {
        from: place_in(nodes, cable.a.clock),
        to: place_in(nodes, cable.b.clock),
    }
}

/// The ends of these links.
fn all_ends(alloc: Global, nodes: &[Node], cables: &[Cable]) -> Result<Vec<Ends>, AllocError>
    ensures { IfOk result (λ ends. ends.items ≡ map (ends_of (clocks_in nodes.now)) cables.now) }
{
    let mut ends = Vec::new(alloc);
    for cable in cables {
        ends.push(ends_of(nodes, cable))?;
    }
    Ok(ends)
}

/// A link with these ends, as it stands.
fn edge_with(ends: &Ends, standing: &Standing) -> Edge
    ensures { result ≡ edge_with ends.now standing.now }
{
    Edge {
        from: ends.from,
        to: ends.to,
        up: standing.cable.up,
    }
}

/// The link at a place, where links have these ends and stand so.
pub(crate) fn edge_at(ends: &[Ends], standings: &[Standing], place: usize) -> Option<Edge>
    ensures { result ≡ edge_by (slice_get ends.now place) (slice_get standings.now place) }
{
    match ends.get(place) {
        Some(ends) => match standings.get(place) {
            Some(standing) => Some(edge_with(ends, standing)),
            None => None,
        },
        None => None,
    }
}

impl Graph {
    /// A network with these links before all events.
    pub(crate) fn first(
        alloc: Global,
        network: &Network,
        cables: &[Cable],
    ) -> Result<Self, AllocError>
        requires { cables.now ≡ cables_of network.now }
        ensures { IfOk result (IsGraph network.now []) }
    {
        let tables = Tables::first(alloc, network)?;
        let ends = all_ends(alloc, &tables.nodes, cables)?;
        Ok(Graph { tables, ends })
    }
}
