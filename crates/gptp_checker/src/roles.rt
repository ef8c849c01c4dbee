//! The tests of a line's ports.

ghost use Rattle.std.specs.Prelude.{◌≡◌, ◌⊎◌, ◌↔◌, ◌<◌, IfNone, IfSome, IsTrue};
ghost use Rattle.gptp_certificate_text.specs.Certificate.{LinesAreInOrder, line_of, role_of};
ghost use Rattle.gptp_lists.specs.Members.{In};
ghost use Rattle.gptp_graph.specs.LocalTests.{HasStatedRole, PassesSystems, StatesSlave};
ghost use Rattle.gptp_checker.specs.LineTests.{IsNearer, PassesLine};
ghost use Rattle.gptp_checker.specs.Located.{IsFirstRole};
ghost use Rattle.gptp_checker.specs.declared.line_test.LineTest.TheVariants as tests;

use crate::stated::steps_of;
use gptp_certificate_text::{Certificate, SystemLine};
use gptp_network::Snapshot;
use gptp_roles::Role;
use gptp_vector::{ClockId, PortId};

/// Whether a port is the own port of the line's parent.
fn is_slave(line: &SystemLine, number: u16) -> bool
    ensures { IsTrue result ↔ StatesSlave (line_of line.now) number }
{
    match line.parent {
        Some((own_port, _)) => own_port == number,
        None => false,
    }
}

/// Whether these steps are fewer than those there, or as many and this clock is lower.
fn goes_before(steps: u16, clock: ClockId, there: u16, other: ClockId) -> bool
    ensures { IsTrue result ↔ ((steps < there) ⊎ ((steps ≡ there) × (clock < other))) }
{
    (steps, clock) < (there, other)
}

/// Whether the line's system is nearer than the one with a clock, or as near with the lower clock.
fn is_nearer(
    snapshot: &Snapshot,
    certificate: &Certificate,
    line: &SystemLine,
    other: ClockId,
) -> bool
    requires { PassesSystems snapshot.now certificate.now.lines }
    ensures { IsTrue result ↔ IsNearer certificate.now.lines (line_of line.now) other }
{
    match steps_of(snapshot, certificate, other) {
        Some(there) => goes_before(line.steps, line.clock, there, other),
        None => false,
    }
}

/// The role that links, parent and steps give a port.
fn role_at(snapshot: &Snapshot, certificate: &Certificate, line: &SystemLine, number: u16) -> Role
    requires { PassesSystems snapshot.now certificate.now.lines }
    ensures { HasStatedRole snapshot.now certificate.now.lines (line_of line.now) number (role_of result) }
{
    snapshot.well_formed();
    let port = PortId {
        clock: line.clock,
        port: number,
    };
    let Some(other) = snapshot.other_end(port) else {
        return Role::Disabled;
    };
    if is_slave(line, number) {
        Role::Slave
    } else if is_nearer(snapshot, certificate, line, other.clock) {
        Role::Master
    } else {
        Role::Passive
    }
}

/// The number of the first port of a line that has another role than links, parent and steps give it, if there is one.
pub(crate) fn wrong_role(
    snapshot: &Snapshot,
    certificate: &Certificate,
    line: &SystemLine,
) -> Option<u16>
    requires systems { PassesSystems snapshot.now certificate.now.lines }
    requires order { LinesAreInOrder certificate.now.lines }
    requires stated { In (line_of line.now) certificate.now.lines }
    ensures some { IfSome result (IsFirstRole snapshot.now certificate.now.lines (line_of line.now)) }
    ensures none { IfNone result (PassesLine tests.Role snapshot.now certificate.now.lines (line_of line.now)) }
{
    for port in &line.ports {
        if role_at(snapshot, certificate, line, port.0) != port.1 {
            return Some(port.0);
        }
    }
    None
}
