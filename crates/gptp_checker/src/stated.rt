//! What is known of a clock: its identity, and what a certificate states of it.

ghost use Rattle.std.specs.Prelude.{◌≡◌, ◌↔◌, ℕ, IfNone, IfSome, IsTrue, Some};
ghost use Rattle.gptp_certificate_text.specs.Certificate.{line_of};
ghost use Rattle.gptp_graph.specs.Labelling as graphs;
ghost use Rattle.gptp_graph.specs.LocalTests.{PassesSystems, StatesSteps};
ghost use Rattle.gptp_graph.specs.Snapshot.{Joins, System};
ghost use Rattle.gptp_network.specs.Snapshot.{port_identity};
ghost use Rattle.gptp_checker.specs.Places.{IsIdentityOf, IsLineAt, IsSystemAt};

use gptp_certificate_text::{Certificate, SystemLine};
use gptp_network::Snapshot;
use gptp_vector::{ClockId, Identity, PortId};

/// The identity of the live system with a clock, if there is one.
pub(crate) fn identity_of(snapshot: &Snapshot, clock: ClockId) -> Option<Identity>
    ensures some { IfSome result (IsIdentityOf snapshot.now.systems clock) }
    ensures only { (s : System) → IsSystemAt snapshot.now.systems clock s → result ≡ Some s.identity }
{
    let (identity, _) = snapshot.system_at(snapshot.place_of(clock)?)?;
    Some(identity)
}

/// The line of a clock in a certificate that is of the systems of a snapshot, if there is one. Takes no memory, and
/// logarithmic time.
pub fn line_of<'a>(
    snapshot: &Snapshot,
    certificate: &'a Certificate,
    clock: ClockId,
) -> Option<&'a SystemLine>
    requires { PassesSystems snapshot.now certificate.now.lines }
    ensures some { IfSome result (λ line. IsLineAt certificate.now.lines clock (line_of line.now)) }
    ensures none { IfNone result ((line : graphs.SystemLine) → IsLineAt certificate.now.lines clock line → ⊥) }
{
    snapshot.well_formed();
    certificate.well_formed();
    certificate.line(snapshot.place_of(clock)?)
}

/// The steps that such a certificate states of a clock, if it has a line: in a far line too. Takes no memory, and
/// logarithmic time.
pub fn steps_of(snapshot: &Snapshot, certificate: &Certificate, clock: ClockId) -> Option<u16>
    requires { PassesSystems snapshot.now certificate.now.lines }
    ensures some { IfSome result (StatesSteps certificate.now.lines clock) }
    ensures only { (d : ℕ) → StatesSteps certificate.now.lines clock d → result ≡ Some d }
{
    Some(line_of(snapshot, certificate, clock)?.steps)
}

/// Whether a link joins two ports.
pub(crate) fn joins(snapshot: &Snapshot, one: PortId, other: PortId) -> bool
    ensures { IsTrue result ↔ Joins snapshot.now (port_identity one) (port_identity other) }
{
    snapshot.well_formed();
    match snapshot.other_end(one) {
        Some(end) => end == other,
        None => false,
    }
}
