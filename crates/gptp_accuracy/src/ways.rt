//! The ways to all systems, from the roots down.

ghost use Rattle.std.specs.Prelude.{◌≡◌, ◌≢◌, ◌+◌, ◌<◌, ℕ, true, false, length, IfOk, OnOk, Some, slice_get};
ghost use Rattle.gptp_lists.specs.Members.{In};
ghost use Rattle.gptp_graph.specs.Labelling.{IsBare};
ghost use Rattle.gptp_graph.specs.Labelling as graphs;
ghost use Rattle.gptp_graph.specs.SettledChoice.{IsSettledChoice, IsSettledLine};
ghost use Rattle.gptp_roles.specs.Selection.{clock_of};
ghost use Rattle.gptp_scenario.specs.Allowed.{AreAllowed};
ghost use Rattle.gptp_scenario.specs.Network.{IsEnd};
ghost use Rattle.gptp_scenario.specs.declared.network.SystemSpec.{SystemSpec};
ghost use Rattle.gptp_scenario.specs.declared.network.LinkSpec.{LinkSpec};
ghost use Rattle.gptp_network.specs.Snapshot.{StandsAfter};
ghost use Rattle.gptp_network.specs.SnapshotTables.{HasClock};
ghost use Rattle.gptp_topology.specs.After.{standings_after};
ghost use Rattle.gptp_certificate_text.specs.Certificate.{line_of};
ghost use Rattle.gptp_accuracy.specs.Passing.{AreBySteps, ArePlaces, IsDoneAt, IsParentDone, IsSummedUp};
ghost use Rattle.gptp_accuracy.specs.Ways.{HasDelays, HasDrift};

use crate::delays::delays_at;
use crate::drifts::drift_of;
use crate::sums::{Link, Sums};
use gptp_certificate_text::{Certificate, SystemLine};
use gptp_network::Snapshot;
use gptp_scenario::{Network, Timed};
use gptp_topology::Standing;
use gptp_vector::ClockId;
use std::alloc::{AllocError, Global};

/// Puts the place of a line after those of the lines before, with its steps.
fn push_place(
    places: &mut Vec<(u16, usize)>,
    certificate: &Certificate,
    place: usize,
) -> Result<(), AllocError>
    requires { ArePlaces certificate.now.lines place places.old.items }
    ensures { OnOk result (ArePlaces certificate.now.lines (place + 1) places.new.items) }
{
    if let Some(line) = certificate.line(place) {
        places.push((line.steps, place))?;
    }
    Ok(())
}

/// The places of the lines of a certificate, each with its steps.
fn places_of(alloc: Global, certificate: &Certificate) -> Result<Vec<(u16, usize)>, AllocError>
    ensures { IfOk result (λ v. ArePlaces certificate.now.lines (length certificate.now.lines) v.items) }
{
    let mut places = Vec::new(alloc);
    for place in 0..certificate.len() {
        push_place(&mut places, certificate, place)?;
    }
    Ok(places)
}

/// The lines of a certificate by their steps and places, none with more steps than one after it.
fn places_by_steps(
    alloc: Global,
    certificate: &Certificate,
) -> Result<Vec<(u16, usize)>, AllocError>
    ensures { IfOk result (λ v. AreBySteps certificate.now.lines v.items) }
{
    let mut places = places_of(alloc, certificate)?;
    places.sort_unstable_by_key(|place| place.0);
    Ok(places)
}

/// What was summed up on the way to the system with a clock.
fn sums_of(snapshot: &Snapshot, sums: &[Sums], clock: ClockId) -> Sums
    ensures { (place : ℕ) (to : Sums) → HasClock snapshot.now.systems clock place
        → slice_get sums.now place ≡ Some to → result ≡ to }
{
    match snapshot.place_of(clock) {
        Some(place) => sums.get(place).copied().unwrap_or(Sums::at_root(0)),
        None => Sums::at_root(0),
    }
}

/// The link of a way at a port of a system.
fn link_to(
    network: &Network,
    events: &[Timed],
    standings: &[Standing],
    clock: ClockId,
    port: u16,
) -> Link
    requires { standings.now ≡ standings_after network.now events.now }
    ensures delays { (w : LinkSpec) → In w network.now.links → IsEnd (record { clock = clock; port = port }) w
        → HasDelays network.now events.now clock port result.least result.most }
    ensures drift { (m : SystemSpec) → In m network.now.systems → clock_of m.identity ≡ clock
        → HasDrift network.now clock result.drift }
{
    let (least, most) = delays_at(network, events, standings, clock, port);
    Link {
        least,
        most,
        drift: drift_of(network, clock),
    }
}

/// What is summed up on the way to the system of a line, where that was done for its parent.
fn sums_to(
    network: &Network,
    events: &[Timed],
    standings: &[Standing],
    snapshot: &Snapshot,
    sums: &[Sums],
    line: &SystemLine,
) -> Sums
    requires links { standings.now ≡ standings_after network.now events.now }
    requires stands { StandsAfter network.now events.now snapshot.now }
    requires allowed { AreAllowed events.now }
    requires settled { IsSettledLine snapshot.now (line_of line.now) }
    requires bare { line.now.far ≡ true → IsBare (line_of line.now) }
    requires parent { IsParentDone network.now events.now snapshot.now sums.now (line_of line.now) }
    ensures { line.now.far ≡ false
        → IsSummedUp network.now events.now snapshot.now line.now.clock line.now.steps result }
{
    network.well_formed();
    snapshot.well_formed();
    match line.parent {
        Some((port, there)) => sums_of(snapshot, sums, there.clock).behind(
            &link_to(network, events, standings, line.clock, port),
            &network.params(),
        ),
        None => Sums::at_root(drift_of(network, line.clock)),
    }
}

/// Sums up the way to the system at a place, where that was done for its parent.
fn sum_up(
    sums: &mut Vec<Sums>,
    network: &Network,
    events: &[Timed],
    standings: &[Standing],
    snapshot: &Snapshot,
    certificate: &Certificate,
    place: usize,
)
    requires links { standings.now ≡ standings_after network.now events.now }
    requires stands { StandsAfter network.now events.now snapshot.now }
    requires allowed { AreAllowed events.now }
    requires choice { IsSettledChoice snapshot.now certificate.now.lines }
    requires all { length sums.old.items ≡ length certificate.now.lines }
    requires parent { (line : graphs.SystemLine) → slice_get certificate.now.lines place ≡ Some line
        → IsParentDone network.now events.now snapshot.now sums.old.items line }
    ensures all { length sums.new.items ≡ length sums.old.items }
    ensures done { IsDoneAt network.now events.now snapshot.now certificate.now.lines sums.new.items place }
    ensures others { (other : ℕ) → other ≢ place → slice_get sums.new.items other ≡ slice_get sums.old.items other }
{
    certificate.well_formed();
    if let Some(line) = certificate.line(place) {
        let to = sums_to(network, events, standings, snapshot, sums, line);
        sums[place] = to;
    }
}

/// A number of sums over no link.
fn no_sums(alloc: Global, count: usize) -> Result<Vec<Sums>, AllocError>
    ensures { IfOk result (λ v. length v.items ≡ count) }
{
    let mut sums = Vec::new(alloc);
    for _place in 0..count {
        sums.push(Sums::at_root(0))?;
    }
    Ok(sums)
}

/// What is summed up on the way to each system of a certificate, by its place, where the links of the network stand so
/// after these events. In one pass from the roots down: each way is that of the parent, and one link more.
pub(crate) fn sums_of_all(
    alloc: Global,
    network: &Network,
    events: &[Timed],
    standings: &[Standing],
    snapshot: &Snapshot,
    certificate: &Certificate,
) -> Result<Vec<Sums>, AllocError>
    requires links { standings.now ≡ standings_after network.now events.now }
    requires stands { StandsAfter network.now events.now snapshot.now }
    requires allowed { AreAllowed events.now }
    requires choice { IsSettledChoice snapshot.now certificate.now.lines }
    ensures all { IfOk result (λ v. length v.items ≡ length certificate.now.lines) }
    ensures done { IfOk result (λ v. (place : ℕ)
        → IsDoneAt network.now events.now snapshot.now certificate.now.lines v.items place) }
{
    snapshot.well_formed();
    certificate.well_formed();
    let mut sums = no_sums(alloc, certificate.len())?;
    let places = places_by_steps(alloc, certificate)?;
    for (_, place) in &places {
        sum_up(
            &mut sums,
            network,
            events,
            standings,
            snapshot,
            certificate,
            *place,
        );
    }
    Ok(sums)
}
