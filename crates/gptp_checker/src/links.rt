//! Whether a certificate agrees across links.

ghost use Rattle.std.specs.Prelude.{◌≡◌, ◌+◌, ◌↔◌, IfNone, IfSome, IsTrue, Some, slice_get};
ghost use Rattle.gptp_certificate_text.specs.Certificate.{line_of};
ghost use Rattle.gptp_graph.specs.LocalTests.{PassesLink, PassesSystems};
ghost use Rattle.gptp_graph.specs.Snapshot.{Link};
ghost use Rattle.gptp_checker.specs.LineTests.{AgreeAcross, AgreeOver};
ghost use Rattle.gptp_checker.specs.Located.{IsBefore, IsEarliest, IsFirstEnd, IsFirstUpTo};

use crate::stated::line_of;
use gptp_certificate_text::{Certificate, SystemLine};
use gptp_network::Snapshot;
use gptp_vector::{ClockId, PortId};

/// Whether the roots of two lines agree, and their steps differ by one at most.
fn agree_across(one: &SystemLine, other: &SystemLine) -> bool
    ensures { IsTrue result ↔ AgreeAcross (line_of one.now) (line_of other.now) }
{
    one.root == other.root && one.steps.abs_diff(other.steps) <= 1
}

/// Whether what is stated of two clocks agrees.
fn agree_over(snapshot: &Snapshot, certificate: &Certificate, one: ClockId, other: ClockId) -> bool
    requires { PassesSystems snapshot.now certificate.now.lines }
    ensures { IsTrue result ↔ AgreeOver certificate.now.lines one other }
{
    let Some(here) = line_of(snapshot, certificate, one) else {
        return true;
    };
    match line_of(snapshot, certificate, other) {
        Some(there) => agree_across(here, there),
        None => true,
    }
}

/// Whether what is stated agrees across the link at a place.
fn agree_at(snapshot: &Snapshot, certificate: &Certificate, place: usize) -> bool
    requires { PassesSystems snapshot.now certificate.now.lines }
    ensures { IsTrue result ↔ ((link : Link) → slice_get snapshot.now.links place ≡ Some link
        → AgreeOver certificate.now.lines link.a.clock link.b.clock) }
{
    match snapshot.link_at(place) {
        Some((a, b)) => agree_over(snapshot, certificate, a.clock, b.clock),
        None => true,
    }
}

/// Whether over each link the roots agree, and the steps differ by one at most.
pub(crate) fn passes_link(snapshot: &Snapshot, certificate: &Certificate) -> bool
    requires { PassesSystems snapshot.now certificate.now.lines }
    ensures { IsTrue result ↔ PassesLink snapshot.now certificate.now.lines }
{
    for place in 0..snapshot.links() {
        if !agree_at(snapshot, certificate, place) {
            return false;
        }
    }
    true
}

/// Whether a port goes before another: by its clock, then by its number.
fn goes_before(one: &PortId, other: &PortId) -> bool
    ensures { IsTrue result ↔ IsBefore one.now other.now }
{
    (one.clock, one.port) < (other.clock, other.port)
}

/// The earlier of two ends of links, each with the end beyond; the first may be absent.
fn earlier(first: Option<(PortId, PortId)>, second: (PortId, PortId)) -> (PortId, PortId)
    ensures { IsEarliest first second result }
{
    match first {
        Some(found) if !goes_before(&second.0, &found.0) => found,
        _ => second,
    }
}

/// A copy of the port.
fn same_port(port: &PortId) -> PortId
    ensures { result ≡ port.now }
{
    PortId {
        clock: port.clock,
        port: port.port,
    }
}

/// The ends of a link, the other first.
fn turned(ends: &(PortId, PortId)) -> (PortId, PortId)
    ensures { result ≡ (ends.now.1, ends.now.0) }
{
    (same_port(&ends.1), same_port(&ends.0))
}

/// The earliest of an end that may be absent and both ends of a link.
fn with_ends(first: Option<(PortId, PortId)>, ends: (PortId, PortId)) -> (PortId, PortId)
    ensures { (one : PortId × PortId) × IsEarliest first ends one × IsEarliest (Some one) (ends.1, ends.0) result }
{
    let back = turned(&ends);
    let one = earlier(first, ends);
    earlier(Some(one), back)
}

/// The earliest of an end that may be absent and both ends of the link at a place, where what is stated doesn't agree
/// across it.
fn with_link(
    snapshot: &Snapshot,
    certificate: &Certificate,
    first: Option<(PortId, PortId)>,
    place: usize,
) -> Option<(PortId, PortId)>
    requires systems { PassesSystems snapshot.now certificate.now.lines }
    requires first { IsFirstUpTo snapshot.now certificate.now.lines place first }
    ensures { IsFirstUpTo snapshot.now certificate.now.lines (place + 1) result }
{
    match snapshot.link_at(place) {
        Some((a, b)) => {
            if agree_over(snapshot, certificate, a.clock, b.clock) {
                return first;
            }
            Some(with_ends(first, (a, b)))
        }
        None => first,
    }
}

/// The first end of a link across which what is stated doesn't agree, and the other end, if there is such a link.
pub(crate) fn first_end(snapshot: &Snapshot, certificate: &Certificate) -> Option<(PortId, PortId)>
    requires { PassesSystems snapshot.now certificate.now.lines }
    ensures some { IfSome result (λ ends. IsFirstEnd snapshot.now certificate.now.lines ends.0 ends.1) }
    ensures none { IfNone result (PassesLink snapshot.now certificate.now.lines) }
{
    let mut first = None;
    for place in 0..snapshot.links() {
        first = with_link(snapshot, certificate, first, place);
    }
    first
}
