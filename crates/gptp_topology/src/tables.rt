//! How the systems and the links of a network stand, by place, as its events come, and what bounds its settling then.

ghost use Rattle.std.specs.Prelude.{◌≡◌, ◌≤◌, ◌+◌, [], map, length, IfOk};
ghost use Rattle.std.specs.List.{count_by, find, list_any};
ghost use Rattle.gptp_topology.specs.After.{Stand};
ghost use Rattle.gptp_topology.specs.Course.{first, cable_wire, named};
ghost use Rattle.gptp_topology.specs.Tables.{TablesActed, AreMarked, acted_along, acted_at, are_calm, bound_of, delay_in_use, first_used, greatest_used, has_clock, late_of, link_named, marked_elsewhere, leads_to_two, marked_between, mark_of, may_lapse, marked_path_bound, marked_paths, named_there, neighbours_at, systems_in, used_at};

use crate::course::{Cable, Standing, act, cables_of, first, is_link_named, is_used, named};
use crate::nodes::{
    Neighbour, Node, System, act_on_nodes, live_nodes, neighbours_at, nodes_of, system_at,
};
use crate::trouble::is_troubled;
use gptp_scenario::{Act, Network, Params, SyncPaths, Timed};
use gptp_setup::lapse_span;
use gptp_vector::ClockId;
use std::alloc::{AllocError, Global};

/// Whether a link is in use, whether it then isn't good or loses frames, and its greatest delay then, in ns.
#[derive(Clone, Copy)]
pub struct Mark {
    pub used: bool,
    pub troubled: bool,
    pub delay: u64,
}

/// How the systems and the links of a network stand, by place.
#[derive(Drop)]
pub struct Tables {
    pub params: Params,
    pub nodes: Vec<Node>,
    pub standings: Vec<Standing>,
    // What is asked of the links at each time.
    pub marks: Vec<Mark>,
}

/// The greatest delay of a link in use, in ns, or 0.
fn delay_in_use(standing: &Standing) -> u64
    ensures { result ≡ delay_in_use standing.now }
{
    if is_used(standing) {
        standing.cable.bounds.max
    } else {
        0
    }
}

/// What is asked of a link at each time.
fn mark_of(params: &Params, standing: &Standing) -> Mark
    ensures { result ≡ mark_of params.now standing.now }
{
    Mark {
        used: is_used(standing),
        troubled: is_troubled(params, standing),
        delay: delay_in_use(standing),
    }
}

/// How links stand at first.
fn first_standings(alloc: Global, cables: &[Cable]) -> Result<Vec<Standing>, AllocError>
    ensures { IfOk result (λ standings. standings.items ≡ map (λ c. first (cable_wire c)) cables.now) }
{
    let mut standings = Vec::new(alloc);
    for cable in cables {
        standings.push(first(cable))?;
    }
    Ok(standings)
}

/// What is asked of each link.
fn marks_of(alloc: Global, params: &Params, standings: &[Standing]) -> Result<Vec<Mark>, AllocError>
    ensures { IfOk result (λ marks. marks.items ≡ map (mark_of params.now) standings.now) }
{
    let mut marks = Vec::new(alloc);
    for standing in standings {
        marks.push(mark_of(params, standing))?;
    }
    Ok(marks)
}

/// Whether the link at a place is in use.
fn used_at(marks: &[Mark], link: usize) -> bool
    ensures { result ≡ used_at marks.now link }
{
    match marks.get(link) {
        Some(mark) => mark.used,
        None => false,
    }
}

/// The system that the first of these links that is in use leads to.
fn first_used(marks: &[Mark], neighbours: &[Neighbour]) -> Option<ClockId>
    ensures { result ≡ first_used marks.now neighbours.now }
{
    for neighbour in neighbours {
        if used_at(marks, neighbour.link) {
            return Some(neighbour.clock);
        }
    }
    None
}

/// Whether one of these links in use leads to another system than this one.
fn leads_elsewhere(marks: &[Mark], clock: ClockId, neighbours: &[Neighbour]) -> bool
    ensures { result ≡ marked_elsewhere marks.now clock neighbours.now }
{
    neighbours.iter().any(|neighbour| neighbour.clock != clock && used_at(marks, neighbour.link))
}

/// Whether these links, where they are in use, lead to two different systems.
fn leads_to_two(marks: &[Mark], neighbours: &[Neighbour]) -> bool
    ensures { result ≡ leads_to_two marks.now neighbours.now }
{
    match first_used(marks, neighbours) {
        Some(clock) => leads_elsewhere(marks, clock, neighbours),
        None => false,
    }
}

/// Whether a system lives and links in use join it to two different ones.
fn lives_between(marks: &[Mark], node: &Node) -> bool
    ensures { result ≡ marked_between marks.now node.now }
{
    node.system.lives && leads_to_two(marks, &node.neighbours)
}

/// How many systems do.
fn live_between(marks: &[Mark], nodes: &[Node]) -> usize
    ensures count { result ≡ count_by (marked_between marks.now) nodes.now }
    ensures bound { result ≤ length nodes.now }
{
    let mut count = 0;
    for node in nodes {
        count += usize::from(lives_between(marks, node));
    }
    count
}

/// How many systems a path over live systems and links in use has at most.
fn path_bound(marks: &[Mark], nodes: &[Node]) -> usize
    requires { length nodes.now ≤ 512 }
    ensures is { result ≡ marked_path_bound marks.now nodes.now }
    ensures few { result ≤ 512 }
{
    (live_between(marks, nodes) + 2).min(live_nodes(nodes))
}

/// The greatest delay of the links in use, in ns, or 0.
#[tactic(auto, using(crate::proofs::BoundLemmas::delay_moves))]
fn greatest_used(marks: &[Mark]) -> u64
    ensures { result ≡ greatest_used marks.now }
{
    let mut greatest = 0;
    for mark in marks {
        greatest = mark.delay.max(greatest);
    }
    greatest
}

/// Whether some link in use isn't good, or loses frames.
fn any_troubled(marks: &[Mark]) -> bool
    ensures { result ≡ list_any (λ (m : Mark). m.troubled) marks.now }
{
    marks.iter().any(|mark| mark.troubled)
}

/// Whether something may lapse for want of Sync.
fn may_lapse(params: &Params) -> bool
    ensures { result ≡ may_lapse params.now }
{
    params.sync_timeout != 0
}

/// For how long at most a settled system waits for Sync, in ns, where it has these paths to cross and that isn't below
/// the timeout.
pub(crate) fn late_of(network: &Network, paths: SyncPaths) -> Option<u64>
    requires few { paths.systems ≤ 512 }
    requires short { paths.delay ≤ 16000000000 }
    ensures { result ≡ late_of network.now.params paths }
{
    network.well_formed();
    let params = network.params();
    let needs = network.sync_wait(paths);
    if may_lapse(&params) && lapse_span(&params) <= needs {
        Some(needs)
    } else {
        None
    }
}

/// Does to the link at a place what an act does.
fn act_at(
    params: &Params,
    standings: &mut Vec<Standing>,
    marks: &mut Vec<Mark>,
    link: usize,
    done: &Act,
)
    requires { marks.old.items ≡ map (mark_of params.now) standings.old.items }
    ensures standings { standings.new.items ≡ acted_at done.now link standings.old.items }
    ensures marks { marks.new.items ≡ map (mark_of params.now) standings.new.items }
{
    if link < standings.len() && link < marks.len() {
        let mut standing = standings[link];
        act(done, &mut standing);
        standings[link] = standing;
        marks[link] = mark_of(params, &standing);
    }
}

/// Does to these links what an act does.
fn act_along(
    params: &Params,
    standings: &mut Vec<Standing>,
    marks: &mut Vec<Mark>,
    neighbours: &[Neighbour],
    done: &Act,
)
    requires { marks.old.items ≡ map (mark_of params.now) standings.old.items }
    ensures standings { standings.new.items ≡ acted_along done.now neighbours.now standings.old.items }
    ensures marks { marks.new.items ≡ map (mark_of params.now) standings.new.items }
{
    for neighbour in neighbours {
        act_at(params, standings, marks, neighbour.link, done);
    }
}

/// How the link at a place stands, if an act names a port of it.
fn named_there(standings: &[Standing], done: &Act, link: usize) -> Option<Standing>
    ensures { result ≡ named_there standings.now done.now link }
{
    match standings.get(link) {
        Some(standing) => {
            if is_link_named(done, &standing.cable) {
                Some(*standing)
            } else {
                None
            }
        }
        None => None,
    }
}

/// How the first of these links stands of which an act names a port.
fn link_named(standings: &[Standing], done: &Act, neighbours: &[Neighbour]) -> Option<Standing>
    ensures { result ≡ link_named standings.now done.now neighbours.now }
{
    for neighbour in neighbours {
        let standing = named_there(standings, done, neighbour.link);
        if standing.is_some() {
            return standing;
        }
    }
    None
}

impl Tables {
    /// The tables of a network before all events. Refused for want of memory alone.
    pub fn first(alloc: Global, network: &Network) -> Result<Self, AllocError>
        ensures { IfOk result (Stand network.now []) }
    {
        network.well_formed();
        let params = network.params();
        let cables = cables_of(alloc, network)?;
        let cables = cables.as_slice();
        let nodes = nodes_of(alloc, network, cables)?;
        let standings = first_standings(alloc, cables)?;
        let marks = marks_of(alloc, &params, &standings)?;
        Ok(Tables {
            params,
            nodes,
            standings,
            marks,
        })
    }

    /// The tables of a network after these events. Refused for want of memory alone.
    pub fn after(alloc: Global, network: &Network, events: &[Timed]) -> Result<Self, AllocError>
        ensures { IfOk result (Stand network.now events.now) }
    {
        network.well_formed();
        let mut tables = Tables::first(alloc, network)?;
        for event in events {
            tables.act(&event.act);
        }
        Ok(tables)
    }

    /// Does what an act does.
    pub fn act(&mut self, done: &Act)
        requires { AreMarked self.old }
        ensures { TablesActed done.now self.old self.new }
    {
        act_along(
            &self.params,
            &mut self.standings,
            &mut self.marks,
            neighbours_at(named(done), &self.nodes),
            done,
        );
        act_on_nodes(self.nodes.as_mut_slice(), done);
    }

    /// How the link stands at the port that an act names, if it names one.
    pub fn link_named(&self, done: &Act) -> Option<Standing>
        ensures { result ≡ link_named self.now.standings.items done.now
            (neighbours_at (named done.now) self.now.nodes.items) }
    {
        link_named(
            &self.standings,
            done,
            neighbours_at(named(done), &self.nodes),
        )
    }

    /// The system that an act names.
    pub fn system_named(&self, done: &Act) -> Option<System>
        ensures { result ≡ find (has_clock (named done.now)) (systems_in self.now.nodes.items) }
    {
        system_at(named(done), &self.nodes)
    }

    /// How many systems a path has at most, and the greatest delay of a link in use.
    pub fn sync_paths(&self) -> SyncPaths
        requires { length self.now.nodes.items ≤ 512 }
        ensures is { result ≡ marked_paths self.now.marks.items self.now.nodes.items }
        ensures few { result.systems ≤ 512 }
    {
        SyncPaths {
            systems: path_bound(&self.marks, &self.nodes),
            delay: greatest_used(&self.marks),
        }
    }

    /// Whether the network is calm where Sync has these paths to cross: it isn't late, and no link in use is too long
    /// or loses frames.
    pub fn is_calm(&self, network: &Network, paths: SyncPaths) -> bool
        requires few { paths.systems ≤ 512 }
        requires short { paths.delay ≤ 16000000000 }
        ensures { result ≡ are_calm network.now.params paths self.now.marks.items }
    {
        late_of(network, paths).is_none() && !any_troubled(&self.marks)
    }

    /// How long the network takes at most to settle where Sync has these paths to cross, in ns, where it is calm then.
    pub(crate) fn bound(&self, network: &Network, paths: SyncPaths) -> Option<u64>
        requires few { paths.systems ≤ 512 }
        requires short { paths.delay ≤ 16000000000 }
        ensures { result ≡ bound_of network.now paths self.now.marks.items }
    {
        if self.is_calm(network, paths) {
            Some(network.settling_span_with(paths))
        } else {
            None
        }
    }
}
