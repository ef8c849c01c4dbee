//! The time errors of all systems of a document.

ghost use Rattle.std.specs.Prelude.{◌≡◌, ◌+◌, ◌≤◌, ◌<◌, false, length, IfOk, OnOk};
ghost use Rattle.gptp_setup.specs.Intervals.{IsMoment};
ghost use Rattle.gptp_scenario.specs.Allowed.{AreAllowed};
ghost use Rattle.gptp_scenario.specs.Calm.{last_change};
ghost use Rattle.gptp_certificate_text.specs.Certificate.{line_of};
ghost use Rattle.gptp_accuracy.specs.Passing.{AreNearWithin};
ghost use Rattle.gptp_accuracy.specs.Settlings.{AreTimesOf};
ghost use Rattle.gptp_accuracy.specs.Sums.{SumsAreWithin, terms_of};
ghost use Rattle.gptp_accuracy.specs.TimeErrors.{AreEntries, AreTimeErrors, IsSystemOf, age_over, exact_from, if_promised};

use crate::reading::ReadingError;
use crate::settlings::settling_of;
use crate::sums::Sums;
use crate::ways::sums_of_all;
use gptp_certificate_text::{Certificate, SystemLine};
use gptp_choice::settled_choice;
use gptp_how_soon::{SettlingTime, settling_times};
use gptp_network::Document;
use gptp_scenario::{Network, SyncPaths, Timed};
use gptp_topology::Tables;
use gptp_vector::{ClockId, Identity};
use std::alloc::{AllocError, Global};

/// How exact the time is that a live system gets.
#[derive(Clone, Copy, Debug, PartialEq, Eq)]
pub struct SystemError {
    /// Its clock.
    pub clock: ClockId,
    /// The best system of its component: its root, where it isn't far.
    pub root: Identity,
    /// Its distance from that.
    pub steps: u16,
    /// Whether that is 255 or more, so that it can't follow it.
    pub far: bool,
    /// The time error, in units of 2^-16 ns; `None` where the network isn't calm, the system is far, or its root's
    /// priority1 is 255.
    pub error: Option<u128>,
    /// The error of what it reads between two receipts; `None` where there is no time error.
    pub reading: Option<ReadingError>,
}

impl SystemError {
    ghost use Rattle.std.specs.Prelude.{◌≡◌};
    ghost use Rattle.gptp_accuracy.specs.AccuracyText.{reading_at};

    /// The error of what the system reads `later` ns after its last receipt, in units of 2^-16 ns, rounded up; 0 at a
    /// root, and `None` where there is no time error.
    pub fn reading_error(&self, later: u64) -> Option<u128>
        ensures { result ≡ reading_at self.now later }
    {
        match self.reading {
            Some(reading) => Some(reading.after(later)),
            None => None,
        }
    }
}

/// How exact the time is that each live system of a document gets, from a time on.
#[derive(Debug, Drop)]
pub struct TimeErrors {
    /// The last time of the events that were made, in ns; 0 where there is none.
    pub time: u64,
    /// The time from which on the errors hold, in ns; `None` where the network isn't calm.
    pub from: Option<u64>,
    /// How old the last receipt of a system is at most, in ns, from so long after `from` on; `None` where the network
    /// isn't calm or `sync_timeout` is 0.
    pub age: Option<u64>,
    /// The live systems, by rising clock.
    pub systems: Vec<SystemError>,
}

/// The time of the last of these events, or 0.
#[tactic(auto, using(crate::proofs::EventLemmas::last_change_early, gptp_network::proofs::EventLemmas::last_from))]
fn last_change(events: &[Timed]) -> u64
    requires { AreAllowed events.now }
    ensures time { result ≡ last_change events.now }
    ensures early { IsMoment result }
{
    match events.last() {
        Some(event) => event.at,
        None => 0,
    }
}

/// From when on time errors hold of a document whose times these are, after all events with time up to `until`, in ns;
/// `None` where the network isn't calm then.
pub fn exact_from(document: &Document, times: &[SettlingTime], until: u64) -> Option<u64>
    requires { AreTimesOf document.now times.now }
    ensures { result ≡ exact_from document.now until }
{
    let events = document.events_by(until);
    match settling_of(times, last_change(events)) {
        Some(settling) => Some(settling.exact_from),
        None => None,
    }
}

/// How old the last receipt of a system is at most, once the network has settled, in ns, where Sync has these paths to
/// cross.
fn greatest_age(network: &Network, paths: SyncPaths, calm: bool) -> Option<u64>
    requires few { paths.systems ≤ 512 }
    requires short { paths.delay ≤ 16000000000 }
    ensures { result ≡ age_over network.now.params paths calm }
{
    if calm && network.params().sync_timeout != 0 {
        Some(network.sync_wait(paths))
    } else {
        None
    }
}

/// The time error of the system of a line, by what was summed up on the way to it.
fn error_of(calm: bool, line: &SystemLine, to: &Sums) -> Option<u128>
    ensures { result ≡ if_promised calm line.now.far line.now.root to.now.error }
{
    if calm && !line.far && line.root.capable() {
        Some(to.error)
    } else {
        None
    }
}

/// The error of what the system of a line reads, by what was summed up on the way to it.
fn reading_of(calm: bool, line: &SystemLine, to: &Sums) -> Option<ReadingError>
    requires { line.now.far ≡ false → SumsAreWithin 511 to.now }
    ensures { result ≡ if_promised calm line.now.far line.now.root (terms_of to.now) }
{
    if calm && !line.far && line.root.capable() {
        Some(ReadingError::of_sums(to))
    } else {
        None
    }
}

/// The system of a line, with its errors.
fn system_of(calm: bool, line: &SystemLine, to: &Sums, reading: Option<ReadingError>) -> SystemError
    requires { reading ≡ if_promised calm line.now.far line.now.root (terms_of to.now) }
    ensures { IsSystemOf calm (line_of line.now) to.now result }
{
    SystemError {
        clock: line.clock,
        root: line.root,
        steps: line.steps,
        far: line.far,
        error: error_of(calm, line, to),
        reading,
    }
}

/// Puts the system of a line after those of the lines before, with its errors.
fn push_system(
    systems: &mut Vec<SystemError>,
    calm: bool,
    certificate: &Certificate,
    sums: &[Sums],
    place: usize,
) -> Result<(), AllocError>
    requires place { place < length certificate.now.lines }
    requires sums { length sums.now ≡ length certificate.now.lines }
    requires within { AreNearWithin certificate.now.lines sums.now }
    requires before { AreEntries calm certificate.now.lines sums.now place systems.old.items }
    ensures { OnOk result (AreEntries calm certificate.now.lines sums.now (place + 1) systems.new.items) }
{
    if let Some(line) = certificate.line(place) {
        let to = &sums[place];
        let reading = reading_of(calm, line, to);
        systems.push(system_of(calm, line, to, reading))?;
    }
    Ok(())
}

/// The systems of a certificate, with their errors.
fn systems_of(
    alloc: Global,
    calm: bool,
    certificate: &Certificate,
    sums: &[Sums],
) -> Result<Vec<SystemError>, AllocError>
    requires sums { length sums.now ≡ length certificate.now.lines }
    requires within { AreNearWithin certificate.now.lines sums.now }
    ensures { IfOk result (λ v. AreEntries calm certificate.now.lines sums.now (length certificate.now.lines) v.items) }
{
    let mut systems = Vec::new(alloc);
    for place in 0..certificate.len() {
        push_system(&mut systems, calm, certificate, sums, place)?;
    }
    Ok(systems)
}

/// How exact the time is that each live system gets, of the network of a document, whose times these are, as it stands
/// after all events with time up to `until`, in ns. The only error is that memory ran out.
pub fn time_errors_among(
    alloc: Global,
    document: &Document,
    times: &[SettlingTime],
    until: u64,
) -> Result<TimeErrors, AllocError>
    requires { AreTimesOf document.now times.now }
    ensures { IfOk result (AreTimeErrors document.now until) }
{
    let network = document.network();
    network.well_formed();
    let events = document.events_by(until);
    let snapshot = document.snapshot(alloc, until)?;
    let certificate = settled_choice(alloc, &snapshot)?;
    snapshot.well_formed();
    certificate.well_formed();
    let tables = Tables::after(alloc, network, events)?;
    let paths = tables.sync_paths();
    let calm = tables.is_calm(network, paths);
    let standings = tables.standings.as_slice();
    let sums = sums_of_all(alloc, network, events, standings, &snapshot, &certificate)?;
    let systems = systems_of(alloc, calm, &certificate, &sums)?;
    let from = exact_from(document, times, until);
    Ok(TimeErrors {
        time: last_change(events),
        from,
        age: greatest_age(network, paths, from.is_some()),
        systems,
    })
}

/// How exact the time is that each live system gets, of the network of a document as it stands after all events with
/// time up to `until`, in ns. The only error is that memory ran out.
///
/// That the runs of a network keep to it is a law of gptp_reading: `RunsReadExactly` says that what a system reads so
/// long after a receipt is off by at most its reading error (`IsReadingErrorOf`, by `reading_error_at` of
/// gptp_error_laws), and `RunsReadLately` that its last receipt is no older than the greatest age. They hold from when
/// on a network is exact whatever came before, which is no sooner than what is said here.
pub fn time_errors(alloc: Global, document: &Document, until: u64) -> Result<TimeErrors, AllocError>
    ensures { IfOk result (AreTimeErrors document.now until) }
{
    let times = settling_times(alloc, document)?;
    time_errors_among(alloc, document, &times, until)
}
