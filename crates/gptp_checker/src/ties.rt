//! Whether a parent is the first of those that are as near.

ghost use Rattle.std.specs.Prelude.{◌↔◌, [], ◌∷◌, IfNone, IfSome, IsTrue};
ghost use Rattle.gptp_certificate_text.specs.Certificate.{LinesAreInOrder, line_of, parent_of};
ghost use Rattle.gptp_lists.specs.Members.{In};
ghost use Rattle.gptp_graph.specs.LocalTests.{PassesSystems};
ghost use Rattle.gptp_graph.specs.Order.{IsLower};
ghost use Rattle.gptp_graph.specs.Parent.{key};
ghost use Rattle.gptp_checker.specs.LineTests.{AreNoLower, IsNoLower, PassesLine};
ghost use Rattle.gptp_checker.specs.Located.{IsFirstLower, IsLowerWay};
ghost use Rattle.gptp_checker.specs.declared.line_test.LineTest.TheVariants as tests;

use crate::stated::steps_of;
use gptp_certificate_text::{Certificate, SystemLine};
use gptp_network::Snapshot;
use gptp_vector::PortId;

/// Whether the link from an own port to another goes before the link of the parent: by the clock there, the port
/// there, and the own port.
fn is_lower(other: PortId, number: u16, parent: PortId, own_port: u16) -> bool
    ensures { IsTrue result
        ↔ IsLower (other.clock ∷ other.port ∷ number ∷ []) (key (parent_of (own_port, parent))) }
{
    (other, number) < (parent, own_port)
}

/// Whether the link at a port, if it leads to a system whose steps are one less, doesn't go before that of the parent.
fn is_no_lower(
    snapshot: &Snapshot,
    certificate: &Certificate,
    line: &SystemLine,
    own_port: u16,
    parent: &PortId,
    number: u16,
) -> bool
    requires { PassesSystems snapshot.now certificate.now.lines }
    ensures { IsTrue result
        ↔ IsNoLower snapshot.now certificate.now.lines (line_of line.now) (parent_of (own_port, parent.now)) number }
{
    snapshot.well_formed();
    let port = PortId {
        clock: line.clock,
        port: number,
    };
    let Some(other) = snapshot.other_end(port) else {
        return true;
    };
    let Some(steps) = steps_of(snapshot, certificate, other.clock) else {
        return true;
    };
    if u32::from(steps) + 1 != u32::from(line.steps) {
        return true;
    }
    !is_lower(other, number, *parent, own_port)
}

/// The number of the first port of a line whose link leads to a system whose steps are one less and goes before that of
/// the parent, if there is one.
fn first_lower(
    snapshot: &Snapshot,
    certificate: &Certificate,
    line: &SystemLine,
    own_port: u16,
    parent: PortId,
) -> Option<u16>
    requires systems { PassesSystems snapshot.now certificate.now.lines }
    requires order { LinesAreInOrder certificate.now.lines }
    requires stated { In (line_of line.now) certificate.now.lines }
    ensures some { IfSome result
        (IsFirstLower snapshot.now certificate.now.lines (line_of line.now) (parent_of (own_port, parent))) }
    ensures none { IfNone result
        (AreNoLower snapshot.now certificate.now.lines (line_of line.now) (parent_of (own_port, parent))) }
{
    for port in &line.ports {
        if !is_no_lower(snapshot, certificate, line, own_port, &parent, port.0) {
            return Some(port.0);
        }
    }
    None
}

/// The first link of a line that goes before that of its parent, if there is one: its own end and the other.
pub(crate) fn lower_way(
    snapshot: &Snapshot,
    certificate: &Certificate,
    line: &SystemLine,
) -> Option<(PortId, PortId)>
    requires systems { PassesSystems snapshot.now certificate.now.lines }
    requires order { LinesAreInOrder certificate.now.lines }
    requires stated { In (line_of line.now) certificate.now.lines }
    ensures some { IfSome result
        (λ way. IsLowerWay snapshot.now certificate.now.lines (line_of line.now) way.0 way.1) }
    ensures none { IfNone result (PassesLine tests.Tie snapshot.now certificate.now.lines (line_of line.now)) }
{
    snapshot.well_formed();
    let (own_port, parent) = line.parent?;
    let number = first_lower(snapshot, certificate, line, own_port, parent)?;
    let port = PortId {
        clock: line.clock,
        port: number,
    };
    Some((port, snapshot.other_end(port)?))
}
