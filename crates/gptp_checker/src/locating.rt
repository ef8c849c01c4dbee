//! The first place at which a certificate fails the test of its fault.

ghost use Rattle.std.specs.Prelude.{◌≢◌, IfNone, IfSome};
ghost use Rattle.gptp_graph.specs.LocalTests.{PassesSystems};
ghost use Rattle.gptp_certificate_text.specs.Certificate.{line_of};
ghost use Rattle.gptp_checker.specs.Faults.{test_of};
ghost use Rattle.gptp_checker.specs.LineTests.{PassesEachLine};
ghost use Rattle.gptp_checker.specs.Located.{IsAtLine, IsAtParent, IsLocation};
ghost use Rattle.gptp_checker.specs.declared.fault.Fault.TheVariants as faults;
ghost use Rattle.gptp_checker.specs.declared.line_test.LineTest.TheVariants as tests;

use crate::fault::Fault;
use crate::line_test::LineTest;
use crate::lines::first_failing;
use crate::links::first_end;
use crate::location::Location;
use crate::roles::wrong_role;
use crate::systems::least_difference;
use crate::ties::lower_way;
use gptp_certificate_text::{Certificate, SystemLine};
use gptp_network::Snapshot;
use gptp_vector::PortId;

/// The system of the first line that fails a test.
fn at_line(snapshot: &Snapshot, certificate: &Certificate, test: LineTest) -> Option<Location>
    requires { PassesSystems snapshot.now certificate.now.lines }
    ensures some { IfSome result (IsAtLine test snapshot.now certificate.now.lines) }
    ensures none { IfNone result (PassesEachLine test snapshot.now certificate.now.lines) }
{
    let line = first_failing(snapshot, certificate, test)?;
    Some(Location::System(line.clock))
}

/// The link to the parent that a line states, or its system where it states none.
fn at_parent(line: &SystemLine) -> Location
    ensures { IsAtParent (line_of line.now) result }
{
    match line.parent {
        Some((port, parent)) => Location::Link(
            PortId {
                clock: line.clock,
                port,
            },
            parent,
        ),
        None => Location::System(line.clock),
    }
}

/// The place of the fault Parent.
fn locate_parent(snapshot: &Snapshot, certificate: &Certificate) -> Option<Location>
    requires { PassesSystems snapshot.now certificate.now.lines }
    ensures some { IfSome result (IsLocation faults.Parent snapshot.now certificate.now.lines) }
    ensures none { IfNone result (PassesEachLine tests.Parent snapshot.now certificate.now.lines) }
{
    let line = first_failing(snapshot, certificate, LineTest::Parent)?;
    Some(at_parent(line))
}

/// The place of the fault Tie.
fn locate_tie(snapshot: &Snapshot, certificate: &Certificate) -> Option<Location>
    requires { PassesSystems snapshot.now certificate.now.lines }
    ensures some { IfSome result (IsLocation faults.Tie snapshot.now certificate.now.lines) }
    ensures none { IfNone result (PassesEachLine tests.Tie snapshot.now certificate.now.lines) }
{
    certificate.well_formed();
    let line = first_failing(snapshot, certificate, LineTest::Tie)?;
    let (own, other) = lower_way(snapshot, certificate, line)?;
    Some(Location::Link(own, other))
}

/// The place of the fault Role.
fn locate_role(snapshot: &Snapshot, certificate: &Certificate) -> Option<Location>
    requires { PassesSystems snapshot.now certificate.now.lines }
    ensures some { IfSome result (IsLocation faults.Role snapshot.now certificate.now.lines) }
    ensures none { IfNone result (PassesEachLine tests.Role snapshot.now certificate.now.lines) }
{
    certificate.well_formed();
    let line = first_failing(snapshot, certificate, LineTest::Role)?;
    let clock = line.clock;
    let port = wrong_role(snapshot, certificate, line)?;
    Some(Location::Port(PortId { clock, port }))
}

/// The place of the fault Link.
fn locate_link(snapshot: &Snapshot, certificate: &Certificate) -> Option<Location>
    requires { PassesSystems snapshot.now certificate.now.lines }
    ensures some { IfSome result (IsLocation faults.Link snapshot.now certificate.now.lines) }
    ensures none { IfNone result (test_of faults.Link certificate.now.version snapshot.now certificate.now.lines) }
{
    let (own, other) = first_end(snapshot, certificate)?;
    Some(Location::Link(own, other))
}

/// The place of the fault Systems.
fn locate_systems(snapshot: &Snapshot, certificate: &Certificate) -> Option<Location>
    ensures some { IfSome result (IsLocation faults.Systems snapshot.now certificate.now.lines) }
    ensures none { IfNone result (test_of faults.Systems certificate.now.version snapshot.now certificate.now.lines) }
{
    let clock = least_difference(snapshot, certificate)?;
    Some(Location::System(clock))
}

/// The first place at which a certificate fails the test of a fault, by rising clock and then by rising port; `None`
/// where it passes that. Other faults than [`Fault::Systems`] are looked for where the systems are right, as
/// [`accepts`](crate::accepts) does.
///
/// It is the system of the first line that fails; at [`Fault::Parent`] the link to the parent that this states, if it
/// does; at [`Fault::Link`] and [`Fault::Tie`] the link, its own end first; at [`Fault::Role`] the port. Takes no
/// memory.
pub fn locate(snapshot: &Snapshot, certificate: &Certificate, fault: Fault) -> Option<Location>
    requires { fault ≢ Fault.Systems → PassesSystems snapshot.now certificate.now.lines }
    ensures some { IfSome result (IsLocation fault snapshot.now certificate.now.lines) }
    ensures none { IfNone result (test_of fault certificate.now.version snapshot.now certificate.now.lines) }
{
    snapshot.well_formed();
    match fault {
        Fault::Systems => locate_systems(snapshot, certificate),
        Fault::TooFar => at_line(snapshot, certificate, LineTest::TooFar),
        Fault::Root => at_line(snapshot, certificate, LineTest::Root),
        Fault::Steps => at_line(snapshot, certificate, LineTest::Steps),
        Fault::Parent => locate_parent(snapshot, certificate),
        Fault::Link => locate_link(snapshot, certificate),
        Fault::Identity => at_line(snapshot, certificate, LineTest::Identity),
        Fault::Tie => locate_tie(snapshot, certificate),
        Fault::Role => locate_role(snapshot, certificate),
    }
}
