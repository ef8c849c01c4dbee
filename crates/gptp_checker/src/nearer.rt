//! Whether a far system has a neighbour that is one step nearer.

ghost use Rattle.std.specs.Prelude.{◌≡◌, ◌↔◌, IsTrue, Some, slice_get};
ghost use Rattle.gptp_certificate_text.specs.Certificate.{line_of};
ghost use Rattle.gptp_graph.specs.LocalTests.{PassesSystems, StatesOneLess};
ghost use Rattle.gptp_graph.specs.Snapshot.{Link};
ghost use Rattle.gptp_checker.specs.LineTests.{HasNearer, LeadsFrom, EndLeadsNearer};

use crate::stated::steps_of;
use gptp_certificate_text::{Certificate, SystemLine};
use gptp_network::Snapshot;
use gptp_vector::ClockId;

/// Whether one step less is stated of a clock than in a line.
fn states_one_less(
    snapshot: &Snapshot,
    certificate: &Certificate,
    line: &SystemLine,
    clock: ClockId,
) -> bool
    requires { PassesSystems snapshot.now certificate.now.lines }
    ensures { IsTrue result ↔ StatesOneLess certificate.now.lines clock (line_of line.now) }
{
    match steps_of(snapshot, certificate, clock) {
        Some(there) => u32::from(there) + 1 == u32::from(line.steps),
        None => false,
    }
}

/// Whether a link, from this end, leads from the system of a line to one that states one step less.
fn leads_from(
    snapshot: &Snapshot,
    certificate: &Certificate,
    line: &SystemLine,
    here: ClockId,
    there: ClockId,
) -> bool
    requires { PassesSystems snapshot.now certificate.now.lines }
    ensures { IsTrue result ↔ LeadsFrom certificate.now.lines (line_of line.now) here there }
{
    if here != line.clock {
        return false;
    }
    states_one_less(snapshot, certificate, line, there)
}

/// Whether the link at a place leads from the system of a line to one that states one step less.
fn leads_nearer_at(
    snapshot: &Snapshot,
    certificate: &Certificate,
    line: &SystemLine,
    place: usize,
) -> bool
    requires { PassesSystems snapshot.now certificate.now.lines }
    ensures { IsTrue result ↔ ((link : Link) × (slice_get snapshot.now.links place ≡ Some link)
        × EndLeadsNearer certificate.now.lines (line_of line.now) link) }
{
    match snapshot.link_at(place) {
        Some((a, b)) => {
            leads_from(snapshot, certificate, line, a.clock, b.clock)
                || leads_from(snapshot, certificate, line, b.clock, a.clock)
        }
        None => false,
    }
}

/// Whether a link leads from the system of a line to one that states one step less.
pub(crate) fn has_nearer(snapshot: &Snapshot, certificate: &Certificate, line: &SystemLine) -> bool
    requires { PassesSystems snapshot.now certificate.now.lines }
    ensures { IsTrue result ↔ HasNearer snapshot.now certificate.now.lines (line_of line.now) }
{
    for place in 0..snapshot.links() {
        if leads_nearer_at(snapshot, certificate, line, place) {
            return true;
        }
    }
    false
}
