//! The tests that each line has to pass.

ghost use Rattle.std.specs.Prelude.{◌≡◌, ◌↔◌, true, IfNone, IfSome, IsTrue, Some, slice_get};
ghost use Rattle.gptp_certificate_text.specs.Certificate.{line_of, parent_of};
ghost use Rattle.gptp_graph.specs.LocalTests.{PassesSystems};
ghost use Rattle.gptp_graph.specs.Labelling as graphs;
ghost use Rattle.gptp_lists.specs.Members.{In};
ghost use Rattle.gptp_graph.specs.Parent.{ParentLink};
ghost use Rattle.gptp_graph.specs.Snapshot.{clocks};
ghost use Rattle.gptp_checker.specs.LineTests.{FitsSteps, FollowsParent, HasLowRoot, HasNearer, HasOwnRoot, PassesEachLine, PassesLine};
ghost use Rattle.gptp_checker.specs.Located.{IsFirstLine};
ghost use Rattle.gptp_checker.specs.declared.line_test.LineTest.TheVariants as tests;

use crate::line_test::LineTest;
use crate::nearer::has_nearer;
use crate::roles::wrong_role;
use crate::stated::{identity_of, joins, steps_of};
use crate::ties::lower_way;
use gptp_certificate_text::{Certificate, SystemLine};
use gptp_network::Snapshot;
use gptp_vector::PortId;

/// Whether a line with no parent, which isn't far, states the system's own identity as root.
fn has_own_root(snapshot: &Snapshot, line: &SystemLine) -> bool
    requires { In line.now.clock (clocks snapshot.now) }
    ensures { IsTrue result ↔ HasOwnRoot snapshot.now (line_of line.now) }
{
    if line.far {
        return true;
    }
    snapshot.well_formed();
    match identity_of(snapshot, line.clock) {
        Some(identity) => line.parent.is_some() || line.root == identity,
        None => false,
    }
}

/// Whether the root of a line isn't above the system's own identity.
fn has_low_root(snapshot: &Snapshot, line: &SystemLine) -> bool
    requires { In line.now.clock (clocks snapshot.now) }
    ensures { IsTrue result ↔ HasLowRoot snapshot.now (line_of line.now) }
{
    snapshot.well_formed();
    match identity_of(snapshot, line.clock) {
        Some(identity) => line.root <= identity,
        None => false,
    }
}

/// Whether the steps of a line are 0 exactly where it has no parent, and below 255; those of a far one are 255 or more.
fn fits_steps(line: &SystemLine) -> bool
    ensures { IsTrue result ↔ FitsSteps (line_of line.now) }
{
    match line.parent {
        Some(_) => line.steps > 0 && (line.steps < 255) != line.far,
        None => (line.far || line.steps == 0) && (line.steps < 255) != line.far,
    }
}

/// Whether a link joins an own port to the parent's port, and the parent's steps are one less than these.
fn follows(
    snapshot: &Snapshot,
    certificate: &Certificate,
    own: PortId,
    steps: u16,
    parent: PortId,
) -> bool
    requires { PassesSystems snapshot.now certificate.now.lines }
    ensures { IsTrue result
        ↔ FollowsParent snapshot.now certificate.now.lines own.clock steps (parent_of (own.port, parent)) }
{
    let clock = parent.clock;
    if !joins(snapshot, own, parent) {
        return false;
    }
    match steps_of(snapshot, certificate, clock) {
        Some(there) => u32::from(there) + 1 == u32::from(steps),
        None => false,
    }
}

/// Whether a line with a parent is linked with it, and one step farther.
fn follows_parent(snapshot: &Snapshot, certificate: &Certificate, line: &SystemLine) -> bool
    requires { PassesSystems snapshot.now certificate.now.lines }
    ensures { IsTrue result ↔ ((l : ParentLink) → (line_of line.now).parent ≡ Some l
        → FollowsParent snapshot.now certificate.now.lines line.now.clock line.now.steps l) }
{
    let clock = line.clock;
    let steps = line.steps;
    match line.parent {
        Some((port, parent)) => follows(
            snapshot,
            certificate,
            PortId { clock, port },
            steps,
            parent,
        ),
        None => true,
    }
}

/// Whether a line that is far has a neighbour one step nearer.
fn is_nearer_if_far(snapshot: &Snapshot, certificate: &Certificate, line: &SystemLine) -> bool
    requires { PassesSystems snapshot.now certificate.now.lines }
    ensures { IsTrue result
        ↔ (line.now.far ≡ true → HasNearer snapshot.now certificate.now.lines (line_of line.now)) }
{
    if line.far {
        return has_nearer(snapshot, certificate, line);
    }
    true
}

/// Whether a line follows its parent, if it has one, and has a neighbour one step nearer, if it is far.
fn follows_nearer(snapshot: &Snapshot, certificate: &Certificate, line: &SystemLine) -> bool
    requires { PassesSystems snapshot.now certificate.now.lines }
    ensures { IsTrue result ↔ PassesLine tests.Parent snapshot.now certificate.now.lines (line_of line.now) }
{
    if !follows_parent(snapshot, certificate, line) {
        return false;
    }
    is_nearer_if_far(snapshot, certificate, line)
}

/// Whether a line passes a test.
fn passes(snapshot: &Snapshot, certificate: &Certificate, line: &SystemLine, test: LineTest) -> bool
    requires systems { PassesSystems snapshot.now certificate.now.lines }
    requires stated { In (line_of line.now) certificate.now.lines }
    ensures { IsTrue result ↔ PassesLine test snapshot.now certificate.now.lines (line_of line.now) }
{
    certificate.well_formed();
    match test {
        LineTest::TooFar => line.steps < 255,
        LineTest::Root => has_own_root(snapshot, line),
        LineTest::Steps => fits_steps(line),
        LineTest::Parent => follows_nearer(snapshot, certificate, line),
        LineTest::Identity => has_low_root(snapshot, line),
        LineTest::Tie => lower_way(snapshot, certificate, line).is_none(),
        LineTest::Role => wrong_role(snapshot, certificate, line).is_none(),
    }
}

/// Whether the line at a place passes a test.
fn passes_at(snapshot: &Snapshot, certificate: &Certificate, place: usize, test: LineTest) -> bool
    requires { PassesSystems snapshot.now certificate.now.lines }
    ensures { IsTrue result ↔ ((line : graphs.SystemLine) → slice_get certificate.now.lines place ≡ Some line
        → PassesLine test snapshot.now certificate.now.lines line) }
{
    match certificate.line(place) {
        Some(line) => passes(snapshot, certificate, line, test),
        None => true,
    }
}

/// The first line that fails a test, if any does.
pub(crate) fn first_failing<'a>(
    snapshot: &Snapshot,
    certificate: &'a Certificate,
    test: LineTest,
) -> Option<&'a SystemLine>
    requires { PassesSystems snapshot.now certificate.now.lines }
    ensures some { IfSome result (λ line. IsFirstLine test snapshot.now certificate.now.lines (line_of line.now)) }
    ensures none { IfNone result (PassesEachLine test snapshot.now certificate.now.lines) }
{
    certificate.well_formed();
    for place in 0..certificate.len() {
        if !passes_at(snapshot, certificate, place, test) {
            return certificate.line(place);
        }
    }
    None
}

/// Whether every line passes a test.
pub(crate) fn every_line_passes(
    snapshot: &Snapshot,
    certificate: &Certificate,
    test: LineTest,
) -> bool
    requires { PassesSystems snapshot.now certificate.now.lines }
    ensures { IsTrue result ↔ PassesEachLine test snapshot.now certificate.now.lines }
{
    first_failing(snapshot, certificate, test).is_none()
}
