//! Who is where.

ghost use Rattle.std.specs.Prelude.{◌≡◌, ℕ, ◌+◌, ◌*◌, ◌<◌, ◌≤◌, None, Some, true, IfOk, IfSome, IsSome, Contains, length, slice_get};
ghost use Rattle.std.specs.List.{All};
ghost use Rattle.std.specs.List.Sorted.{IsNonDecreasing};
ghost use Rattle.gptp_world.specs.Directory.{directory_clocks, joins_of, direction_end, lanes_entered, BeginsAt, IsPlan, IsDirectory, AreRising, ArePlacesOfClocks, AreEndPlaces, AreOuts, AreNamed};
ghost use Rattle.gptp_model.specs.Views.{rising};

use gptp_hints::ClockHints;
use gptp_links::Direction;
use gptp_model::Network;
use gptp_setup::MOST_PORTS;
use gptp_traffic::{Join, Lane};
use gptp_vector::{ClockId, PortId};
use std::alloc::{AllocError, Global};
use std::marker::Model;

/// The places of the systems at the two ends of a link.
#[derive(Clone, Copy, Debug)]
pub(crate) struct Ends {
    a: usize,
    b: usize,
}

/// How many places of a table belong to the ports of a system, which are numbered from 1 on.
pub(crate) const PORT_SPAN: usize = MOST_PORTS + 1;

/// Who is where: the clocks of systems and the ports of links by their places, from 0, in the order in which the
/// network took them. It doesn't change once it is made, and no call but [`new`](Self::new) takes memory.
///
/// It is seen as the list of clocks and that of the ports of links.
#[derive(Drop)]
pub(crate) struct Directory {
    clocks: Vec<ClockId>,
    joins: Vec<Join>,
    // The clocks in rising order, and the place of each.
    rising: Vec<ClockId>,
    ranked: Vec<usize>,
    // The rank of each clock, which is tried before they are searched.
    hints: ClockHints,
    // The lane that begins at each port, at PORT_SPAN * place + port.
    outs: Vec<Option<Lane>>,
    ends: Vec<Ends>,
}

impl Model for Directory {
    ghost use Rattle.gptp_world.specs.Directory.{DirectoryState};

    ghost Value = { DirectoryState };

    ghost use Rattle.gptp_world.specs.Directory.{AreDirectoryTables};

    ghost view = { λ d. record { clocks = d.clocks.items; joins = d.joins.items } };

    ghost invariant = { λ d. AreDirectoryTables (record { clocks = d.clocks.items; joins = d.joins.items }) d.rising.items d.ranked.items d.outs.items d.ends.items };
}

impl Directory {
    /// Where the systems and links of a network are. Refused for want of memory alone.
    pub(crate) fn new(alloc: Global, network: &Network) -> Result<Self, AllocError>
        ensures clocks { IfOk result (λ d. d.clocks ≡ directory_clocks network.now.systems) }
        ensures joins { IfOk result (λ d. d.joins ≡ joins_of network.now.links) }
    {
        network.well_formed();
        let clocks = list_clocks(alloc, network)?;
        let joins = list_joins(alloc, network)?;
        let rising = sorted(alloc, &clocks)?;
        let ranked = places_of(alloc, &clocks, &rising)?;
        let ends = list_ends(alloc, &clocks, &joins)?;
        let outs = list_outs(alloc, &clocks, &joins, &ends)?;
        let hints = list_hints(alloc, &rising)?;
        Ok(Directory {
            clocks,
            joins,
            rising,
            ranked,
            hints,
            outs,
            ends,
        })
    }

    /// An equal directory. Refused for want of memory alone.
    pub(crate) fn copy(&self, alloc: Global) -> Result<Self, AllocError>
        ensures { IfOk result (λ d. d ≡ self.now) }
    {
        Ok(Directory {
            clocks: Vec::from_slice(alloc, &self.clocks)?,
            joins: Vec::from_slice(alloc, &self.joins)?,
            rising: Vec::from_slice(alloc, &self.rising)?,
            ranked: Vec::from_slice(alloc, &self.ranked)?,
            hints: list_hints(alloc, &self.rising)?,
            outs: Vec::from_slice(alloc, &self.outs)?,
            ends: Vec::from_slice(alloc, &self.ends)?,
        })
    }

    /// How many systems there are.
    pub(crate) fn systems(&self) -> usize
        ensures { result ≡ length self.now.clocks }
    {
        self.clocks.len()
    }

    /// How many links there are.
    pub(crate) fn links(&self) -> usize
        ensures { result ≡ length self.now.joins }
    {
        self.joins.len()
    }

    /// Clocks differ, links join ports of two systems, and at a port at most one lane begins.
    pub(crate) fn well_formed(&self)
        ensures { IsDirectory self.now }
    {
        let _ = &self.clocks;
    }

    /// The place of the system with a clock, if there is one.
    pub(crate) fn place_of(&self, clock: ClockId) -> Option<usize>
        ensures some { IfSome result (λ place. slice_get self.now.clocks place ≡ Some clock) }
        ensures only { (place : ℕ) → slice_get self.now.clocks place ≡ Some clock → result ≡ Some place }
    {
        let rank = rank_of(&self.rising, &self.hints, clock)?;
        Some(self.ranked[rank])
    }

    /// The clock of the system at a place.
    pub(crate) fn clock_in(&self, place: usize) -> ClockId
        requires { place < length self.now.clocks }
        ensures { slice_get self.now.clocks place ≡ Some result }
    {
        self.clocks[place]
    }

    /// A clock by its rank: the least has the rank 0. Past the last there is none.
    pub(crate) fn clock_at(&self, rank: usize) -> Option<ClockId>
        ensures { result ≡ slice_get (rising self.now.clocks) rank }
    {
        clock_among(&self.rising, rank)
    }

    /// The lane that begins at a port of the system at a place, if there is one.
    pub(crate) fn lane_from(&self, place: usize, port: u8) -> Option<Lane>
        ensures some { (clock : ℕ) → slice_get self.now.clocks place ≡ Some clock → IfSome result (BeginsAt self.now.joins (record { clock = clock; port = port })) }
        ensures only { (clock : ℕ) (lane : Lane) → slice_get self.now.clocks place ≡ Some clock → BeginsAt self.now.joins (record { clock = clock; port = port }) lane → result ≡ Some lane }
        ensures nowhere { length self.now.clocks ≤ place → result ≡ None }
    {
        let port = usize::from(port);
        if self.clocks.len() <= place || PORT_SPAN <= port {
            return None;
        }
        self.outs[PORT_SPAN * place + port]
    }

    /// The place of the system at which a lane ends. The lane is of a link that is there.
    pub(crate) fn receiver(&self, lane: Lane) -> usize
        requires { lane.link < length self.now.joins }
        ensures { (join : Join) → slice_get self.now.joins lane.link ≡ Some join → slice_get self.now.clocks result ≡ Some (direction_end lane.direction join).clock }
    {
        let ends = self.ends[lane.link];
        match lane.direction {
            Direction::FromA => ends.b,
            Direction::FromB => ends.a,
        }
    }

    /// The port at which a lane ends. The lane is of a link that is there.
    pub(crate) fn port_at(&self, lane: Lane) -> PortId
        requires { lane.link < length self.now.joins }
        ensures { (join : Join) → slice_get self.now.joins lane.link ≡ Some join → result ≡ direction_end lane.direction join }
    {
        let join = self.joins[lane.link];
        match lane.direction {
            Direction::FromA => join.b,
            Direction::FromB => join.a,
        }
    }
}

/// The clock of each system of a network.
fn list_clocks(alloc: Global, network: &Network) -> Result<Vec<ClockId>, AllocError>
    ensures { IfOk result (λ v. v.items ≡ directory_clocks network.now.systems) }
{
    let mut clocks = Vec::new(alloc);
    for place in 0..network.systems() {
        clocks.push(clock_in(network, place))?;
    }
    Ok(clocks)
}

/// The clock of the system at a place of a network.
fn clock_in(network: &Network, place: usize) -> ClockId
    requires { place < length network.now.systems }
    ensures { slice_get (directory_clocks network.now.systems) place ≡ Some result }
{
    let (identity, _, _, _, _) = network.system_at(place).unwrap();
    identity.clock()
}

/// The ports of each link of a network.
fn list_joins(alloc: Global, network: &Network) -> Result<Vec<Join>, AllocError>
    ensures { IfOk result (λ v. v.items ≡ joins_of network.now.links) }
{
    let mut joins = Vec::new(alloc);
    for place in 0..network.links() {
        joins.push(join_in(network, place))?;
    }
    Ok(joins)
}

/// The ports of the link at a place of a network.
fn join_in(network: &Network, place: usize) -> Join
    requires { place < length network.now.links }
    ensures { slice_get (joins_of network.now.links) place ≡ Some result }
{
    let (a, b, _, _) = network.link_at(place).unwrap();
    Join { a, b }
}

/// Clocks in rising order.
fn sorted(alloc: Global, clocks: &[ClockId]) -> Result<Vec<ClockId>, AllocError>
    ensures { IfOk result (λ v. AreRising clocks.now v.items) }
{
    let mut rising = Vec::from_slice(alloc, clocks)?;
    rising.sort_unstable();
    Ok(rising)
}

/// The clock at a place of these, if there is one.
fn clock_among(clocks: &[ClockId], place: usize) -> Option<ClockId>
    ensures { result ≡ slice_get clocks.now place }
{
    clocks.get(place).copied()
}

/// The place of the first of these clocks that is this one, which is among them.
fn place_among(clocks: &[ClockId], clock: ClockId) -> usize
    requires { Contains clocks.now clock }
    ensures { slice_get clocks.now result ≡ Some clock }
{
    clocks.iter().position(|one| *one == clock).unwrap()
}

/// The place among clocks of each of these, which are all among them.
fn places_of(
    alloc: Global,
    clocks: &[ClockId],
    numbers: &[ClockId],
) -> Result<Vec<usize>, AllocError>
    requires { All (Contains clocks.now) numbers.now }
    ensures { IfOk result (λ v. ArePlacesOfClocks clocks.now numbers.now v.items) }
{
    let mut places = Vec::new(alloc);
    for number in numbers {
        places.push(place_among(clocks, *number))?;
    }
    Ok(places)
}

/// The rank of each of these clocks, as a hint.
fn list_hints(alloc: Global, rising: &[ClockId]) -> Result<ClockHints, AllocError> {
    let mut hints = ClockHints::new(alloc)?;
    let mut rank = 0;
    for clock in rising {
        hints.put(*clock, rank);
        rank = rank.wrapping_add(1);
    }
    Ok(hints)
}

/// Whether a clock has a rank among those in rising order.
fn has_rank(rising: &[ClockId], clock: ClockId, rank: usize) -> bool
    ensures { result ≡ true → slice_get rising.now rank ≡ Some clock }
{
    match rising.get(rank) {
        Some(here) => *here == clock,
        None => false,
    }
}

/// The rank of a clock among those in rising order, by a search.
fn search_rank(rising: &[ClockId], clock: ClockId) -> Option<usize>
    requires { IsNonDecreasing rising.now }
    ensures some { IfSome result (λ rank. slice_get rising.now rank ≡ Some clock) }
    ensures only { Contains rising.now clock → IsSome result }
{
    rising.binary_search(&clock).ok()
}

/// The rank of a clock among those in rising order.
fn rank_of(rising: &[ClockId], hints: &ClockHints, clock: ClockId) -> Option<usize>
    requires { IsNonDecreasing rising.now }
    ensures some { IfSome result (λ rank. slice_get rising.now rank ≡ Some clock) }
    ensures only { Contains rising.now clock → IsSome result }
{
    let rank = hints.place(clock);
    match has_rank(rising, clock, rank) {
        true => Some(rank),
        false => search_rank(rising, clock),
    }
}

/// The places of the systems at the ends of each link.
fn list_ends(alloc: Global, clocks: &[ClockId], joins: &[Join]) -> Result<Vec<Ends>, AllocError>
    requires { All (AreNamed clocks.now) joins.now }
    ensures { IfOk result (λ v. AreEndPlaces clocks.now joins.now v.items) }
{
    let mut ends = Vec::new(alloc);
    for join in joins {
        ends.push(ends_of(clocks, join))?;
    }
    Ok(ends)
}

/// The places of the systems at the ends of a link.
fn ends_of(clocks: &[ClockId], join: &Join) -> Ends
    requires { AreNamed clocks.now join.now }
    ensures a { slice_get clocks.now result.a ≡ Some join.now.a.clock }
    ensures b { slice_get clocks.now result.b ≡ Some join.now.b.clock }
{
    Ends {
        a: place_among(clocks, join.a.clock),
        b: place_among(clocks, join.b.clock),
    }
}

/// The lane that begins at each port.
fn list_outs(
    alloc: Global,
    clocks: &[ClockId],
    joins: &[Join],
    ends: &[Ends],
) -> Result<Vec<Option<Lane>>, AllocError>
    requires plan { IsPlan clocks.now joins.now }
    requires ends { AreEndPlaces clocks.now joins.now ends.now }
    ensures { IfOk result (λ v. AreOuts (2 * length joins.now) clocks.now joins.now v.items) }
{
    let mut outs = vec![in alloc; None; PORT_SPAN * clocks.len()]?;
    for link in 0..joins.len() {
        enter(&mut outs, link, &joins[link], &ends[link]);
    }
    Ok(outs)
}

/// Enters both lanes of a link.
fn enter(outs: &mut Vec<Option<Lane>>, link: usize, join: &Join, ends: &Ends)
    requires a { PORT_SPAN * ends.now.a + join.now.a.port < length outs.old.items }
    requires b { PORT_SPAN * ends.now.b + join.now.b.port < length outs.old.items }
    ensures { outs.new.items ≡ lanes_entered link join.now ends.now outs.old.items }
{
    outs[PORT_SPAN * ends.a + usize::from(join.a.port)] = Some(Lane {
        link,
        direction: Direction::FromA,
    });
    outs[PORT_SPAN * ends.b + usize::from(join.b.port)] = Some(Lane {
        link,
        direction: Direction::FromB,
    });
}
