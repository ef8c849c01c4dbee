//! Whether a certificate is right.

ghost use Rattle.std.specs.Prelude.{◌≡◌, ◌↔◌, IfErr, IsTrue, Ok};
ghost use Rattle.gptp_graph.specs.LocalTests.{PassesSystems, PassesTooFar};
ghost use Rattle.gptp_checker.specs.Faults.{IsAccepted, IsFirstFault, test_of};

use crate::fault::Fault;
use crate::line_test::LineTest;
use crate::lines::every_line_passes;
use crate::links::passes_link;
use crate::systems::passes_systems;
use gptp_certificate_text::Certificate;
use gptp_network::Snapshot;

/// The faults that are looked for where the systems are right, in this order.
const LATER_FAULTS: [Fault; 8] = [
    Fault::TooFar,
    Fault::Root,
    Fault::Steps,
    Fault::Parent,
    Fault::Link,
    Fault::Identity,
    Fault::Tie,
    Fault::Role,
];

/// Whether the steps of a certificate are below 255, where it is of version 1.
fn passes_too_far(snapshot: &Snapshot, certificate: &Certificate) -> bool
    requires { PassesSystems snapshot.now certificate.now.lines }
    ensures { IsTrue result ↔ (certificate.now.version ≡ 1 → PassesTooFar certificate.now.lines) }
{
    certificate.well_formed();
    if certificate.version() == 2 {
        return true;
    }
    every_line_passes(snapshot, certificate, LineTest::TooFar)
}

/// Whether a certificate whose systems are right passes the test that finds a fault.
fn passes(snapshot: &Snapshot, certificate: &Certificate, fault: Fault) -> bool
    requires { PassesSystems snapshot.now certificate.now.lines }
    ensures { IsTrue result ↔ test_of fault certificate.now.version snapshot.now certificate.now.lines }
{
    snapshot.well_formed();
    let test = match fault {
        // As required.
        Fault::Systems => return true,
        Fault::Link => return passes_link(snapshot, certificate),
        Fault::TooFar => return passes_too_far(snapshot, certificate),
        Fault::Root => LineTest::Root,
        Fault::Steps => LineTest::Steps,
        Fault::Parent => LineTest::Parent,
        Fault::Identity => LineTest::Identity,
        Fault::Tie => LineTest::Tie,
        Fault::Role => LineTest::Role,
    };
    every_line_passes(snapshot, certificate, test)
}

/// Whether a certificate is the choice that the network of a snapshot settles at, in version 1 with all steps below
/// 255. Refused by the first fault, looked for over the whole certificate in this order:
///
/// - [`Fault::Systems`]: its systems aren't the live ones, the ports of one that isn't far aren't all its ports, or a
///   far one has some
/// - [`Fault::TooFar`]: in version 1, a system has 255 steps or more
/// - [`Fault::Root`]: a system that isn't far and has no parent states another root than itself
/// - [`Fault::Steps`]: a system that isn't far has steps and no parent, a parent and no steps, or 255 steps or more; or
///   a far one has fewer
/// - [`Fault::Parent`]: no link joins a system to its parent, or the parent isn't one step nearer; or no link leads
///   from a far system to one that is
/// - [`Fault::Link`]: over a link the roots differ, or the steps by more than one
/// - [`Fault::Identity`]: a system is better than the root that it states
/// - [`Fault::Tie`]: another link, to a system as near as the parent, goes first
/// - [`Fault::Role`]: a port's role isn't the one that links, parent and steps give it
///
/// Takes no memory. Each test looks at single systems or links, and finds the other end of a link and a system's line
/// in logarithmic time.
pub fn accepts(snapshot: &Snapshot, certificate: &Certificate) -> Result<(), Fault>
    ensures accepted { (result ≡ Ok tt) ↔ IsAccepted certificate.now.version snapshot.now certificate.now.lines }
    ensures refused { IfErr result (IsFirstFault certificate.now.version snapshot.now certificate.now.lines) }
{
    snapshot.well_formed();
    if !passes_systems(snapshot, certificate) {
        return Err(Fault::Systems);
    }
    for fault in &LATER_FAULTS {
        if !passes(snapshot, certificate, *fault) {
            return Err(*fault);
        }
    }
    Ok(())
}
