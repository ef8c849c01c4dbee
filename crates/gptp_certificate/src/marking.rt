//! Far systems, told by what systems say and by the links between them alone.

ghost use Rattle.std.specs.Prelude.{◌≡◌, ◌↔◌, ◌<◌, ◌≤◌, ℕ, Contains, IfOk, IfSome, IsSome, IsTrue, OnOk, Some, length, map, slice_get};
ghost use Rattle.std.specs.List.{All};
ghost use Rattle.std.specs.List.Sorted.{IsNonDecreasing};
ghost use Rattle.gptp_graph.specs.Labelling.{line_clocks};
ghost use Rattle.gptp_graph.specs.Order.{IsRising};
ghost use Rattle.gptp_graph.specs.Snapshot.{clocks as all_clocks};
ghost use Rattle.gptp_lists.specs.Members.{In};
ghost use Rattle.gptp_invariants.specs.WorldStanding.{snapshot_of};
ghost use Rattle.gptp_certificate_text.specs.Certificate.{line_of, lines_of};
ghost use Rattle.gptp_certificate.specs.Marking.{AreAmong, LinesAreMarked, ArePairs, AreStarts, IsFarBy, IsStart, Marks, clocks_in, line_roots, port_clocks};
ghost use Rattle.gptp_certificate.specs.Rounds.{AreLeast, LinksAreWithin, value};
ghost use Rattle.gptp_certificate.specs.Stated.{States};
ghost use Rattle.gptp_certificate.specs.Stating.{AreSaid};

use crate::rounds::{settle_identities, settle_numbers};
use gptp_certificate_text::SystemLine;
use gptp_links::Fate;
use gptp_vector::{ClockId, Identity, PortId};
use gptp_world::World;
use std::alloc::{AllocError, Global};

/// More links than any way has, so many that 254 and these are the steps of a far system from which no way leads to one
/// that isn't far.
const NOWHERE: u16 = u16::MAX - 254;

/// The clock of each line.
fn list_clocks(alloc: Global, lines: &[SystemLine]) -> Result<Vec<ClockId>, AllocError>
    ensures { IfOk result (λ clocks. clocks.items ≡ line_clocks (lines_of lines.now)) }
{
    let mut clocks = Vec::new(alloc);
    for line in lines {
        clocks.push(line.clock)?;
    }
    Ok(clocks)
}

/// The root of each line.
fn list_roots(alloc: Global, lines: &[SystemLine]) -> Result<Vec<Identity>, AllocError>
    ensures { IfOk result (λ roots. roots.items ≡ line_roots (lines_of lines.now)) }
{
    let mut roots = Vec::new(alloc);
    for line in lines {
        roots.push(line.root)?;
    }
    Ok(roots)
}

/// The place of a clock among those in rising order, if it is among them.
fn place_of(clocks: &[ClockId], clock: ClockId) -> Option<usize>
    requires { IsNonDecreasing clocks.now }
    ensures some { IfSome result (λ place. slice_get clocks.now place ≡ Some clock) }
    ensures only { Contains clocks.now clock → IsSome result }
{
    clocks.binary_search(&clock).ok()
}

/// The places of the clocks of the two ports of a link, which are among these.
fn pair_of(clocks: &[ClockId], link: &(PortId, PortId)) -> (usize, usize)
    requires rising { IsNonDecreasing clocks.now }
    requires among { AreAmong clocks.now link.now }
    ensures { clocks_in clocks.now result ≡ port_clocks link.now }
{
    let first = place_of(clocks, link.0.clock).unwrap();
    let second = place_of(clocks, link.1.clock).unwrap();
    (first, second)
}

/// The places of the clocks at the ends of each link, which are all among these.
fn pairs_of(
    alloc: Global,
    clocks: &[ClockId],
    links: &[(PortId, PortId)],
) -> Result<Vec<(usize, usize)>, AllocError>
    requires rising { IsNonDecreasing clocks.now }
    requires among { All (AreAmong clocks.now) links.now }
    ensures { IfOk result (λ pairs. map (clocks_in clocks.now) pairs.items ≡ map port_clocks links.now) }
{
    let mut pairs = Vec::new(alloc);
    for link in links {
        pairs.push(pair_of(clocks, link))?;
    }
    Ok(pairs)
}

/// The links of a world by the places of the clocks at their ends among those of all live systems, which rise.
fn list_pairs<F: Fate + Drop>(
    alloc: Global,
    world: &World<F>,
    clocks: &[ClockId],
) -> Result<Vec<(usize, usize)>, AllocError>
    requires rising { IsRising clocks.now }
    requires all { (v : ℕ) → In v (all_clocks (snapshot_of world.now.world_core)) → In v clocks.now }
    ensures { IfOk result (λ pairs. ArePairs clocks.now (snapshot_of world.now.world_core).links pairs.items) }
{
    world.well_formed();
    let links = world.list_links(alloc)?;
    pairs_of(alloc, clocks, &links)
}

/// The lowest root that is stated in the component of each line.
fn lowest_roots(
    alloc: Global,
    lines: &[SystemLine],
    links: &[(usize, usize)],
    systems: usize,
) -> Result<Vec<Identity>, AllocError>
    requires { LinksAreWithin (length lines.now) links.now }
    ensures { IfOk result (λ lowest. AreLeast 0 links.now systems (line_roots (lines_of lines.now)) lowest.items) }
{
    let mut roots = list_roots(alloc, lines)?;
    settle_identities(&mut roots, links, systems);
    Ok(roots)
}

/// Whether a system is far, by the lowest root of its component.
fn is_far(line: &SystemLine, lowest: Identity) -> bool
    ensures { IsTrue result ↔ IsFarBy (line_of line.now) lowest }
{
    255 <= line.steps || lowest < line.root
}

/// By how many links a system is away from one that isn't far, as far as it tells itself.
fn start_of(line: &SystemLine, lowest: Identity) -> u16
    ensures { IsStart (line_of line.now) lowest result }
{
    match is_far(line, lowest) {
        true => NOWHERE,
        false => 0,
    }
}

/// For each system, by how many links it is away from one that isn't far, as far as it tells itself.
fn list_starts(
    alloc: Global,
    lines: &[SystemLine],
    lowest: &[Identity],
) -> Result<Vec<u16>, AllocError>
    requires { length lowest.now ≡ length lines.now }
    ensures { IfOk result (λ starts. AreStarts lowest.now (lines_of lines.now) starts.items) }
{
    let mut starts = Vec::new(alloc);
    for place in 0..lines.len() {
        starts.push(start_of(&lines[place], lowest[place]))?;
    }
    Ok(starts)
}

/// The line of a system that is far, by the lowest root of its component, becomes that of a far system, so many links
/// away from one that isn't.
fn mark(line: &mut SystemLine, lowest: Identity, links: u16)
    requires { links ≤ 65281 }
    ensures { Marks lowest links (line_of line.old) (line_of line.new) }
{
    if is_far(line, lowest) {
        line.root = lowest;
        line.steps = 254 + links;
        line.far = true;
        line.parent = None;
        line.ports.clear();
    }
}

/// The line of each system that is far, by the lowest root of its component, becomes that of a far system, so many
/// links away from one that isn't.
fn mark_each(lines: &mut Vec<SystemLine>, lowest: &[Identity], links: &[u16])
    requires lowest { length lowest.now ≡ length lines.old.items }
    requires links { length links.now ≡ length lines.old.items }
    requires few { (i : ℕ) → value links.now i ≤ 65281 }
    ensures { LinesAreMarked (length lines.old.items) lowest.now links.now (lines_of lines.old.items)
        (lines_of lines.new.items) }
{
    for place in 0..lines.len() {
        mark(&mut lines[place], lowest[place], links[place]);
    }
}

/// The lines of far systems among what the live systems of a world say become those of far systems: by what the systems
/// say and by the links between them alone. Refused for want of memory alone.
pub(crate) fn mark_far<F: Fate + Drop>(
    alloc: Global,
    world: &World<F>,
    lines: &mut Vec<SystemLine>,
) -> Result<(), AllocError>
    requires { AreSaid world.now.world_core (lines_of lines.old.items) }
    ensures { OnOk result (States world.now.world_core (lines_of lines.new.items)) }
{
    world.well_formed();
    let systems = world.count();
    let clocks = list_clocks(alloc, lines)?;
    let pairs = list_pairs(alloc, world, &clocks)?;
    let lowest = lowest_roots(alloc, lines, &pairs, systems)?;
    let mut links = list_starts(alloc, lines, &lowest)?;
    settle_numbers(&mut links, &pairs, systems);
    mark_each(lines, &lowest, &links);
    Ok(())
}
