//! The lines of a system's ports.

ghost use Rattle.std.specs.Prelude.{◌≡◌, ◌+◌, ℕ, IfNone, IfSome, OnOk, Some, string_bytes};
ghost use Rattle.gptp_certificate_text.specs.Certificate.{line_of, port_line_of, role_of};
ghost use Rattle.gptp_graph.specs.Distance.{IsDistance};
ghost use Rattle.gptp_graph.specs.Labelling.{port_numbers};
ghost use Rattle.gptp_graph.specs.SettledChoice.{IsSettledChoice};
ghost use Rattle.gptp_graph.specs.SettledRole as settled;
ghost use Rattle.gptp_graph.specs.Snapshot.{IsLinked, Joins};
ghost use Rattle.gptp_lists.specs.Members.{In};
ghost use Rattle.gptp_network.specs.Snapshot.{IsSnapshot, port_identity};
ghost use Rattle.gptp_explain.specs.Compared.{loss, win};
ghost use Rattle.gptp_explain.specs.Ports.{ArePortLines, HasWhy, IsPortLine, IsPortOfLine, LosesWay, OffersWay, WinsWay};
ghost use Rattle.gptp_explain.specs.Writing.{AppendsLine, AppendsLines};

use crate::compared::{loss, win};
use crate::disabled::why_disabled;
use crate::why::{PortDigits, Why};
use gptp_certificate_text::{Certificate, SystemLine};
use gptp_checker::steps_of;
use gptp_network::{Document, Snapshot};
use gptp_roles::Role;
use gptp_vector::{ClockId, PortId};
use gptp_words::RoleWord;
use std::alloc::AllocError;

/// The port at the other end of a port's link, and how many links its system is from the root.
fn way_at(snapshot: &Snapshot, choice: &Certificate, port: PortId) -> Option<(PortId, u16)>
    requires { IsSettledChoice snapshot.now choice.now.lines }
    ensures joins { IfSome result (λ way. Joins snapshot.now (port_identity port) (port_identity way.0)) }
    ensures distance { IfSome result (λ way. IsDistance snapshot.now way.0.clock way.1) }
    ensures none { IfNone result (IsLinked snapshot.now (port_identity port) → ⊥) }
{
    snapshot.well_formed();
    let there = snapshot.other_end(port)?;
    Some((there, steps_of(snapshot, choice, there.clock)?))
}

/// Why a Slave port has its role.
fn why_slave(snapshot: &Snapshot, line: &SystemLine, port: &PortId) -> Why
    requires { IsPortOfLine snapshot.now (line_of line.now) port.now settled.Slave }
    ensures { OffersWay snapshot.now port.now result }
{
    snapshot.well_formed();
    let _ = port;
    match line.parent {
        Some((_, parent)) => Why::Offers(parent, u32::from(line.steps)),
        // a Slave port is that of the parent
        None => Why::Unlinked,
    }
}

/// Why a Passive port has its role, whose link leads to this one, where the system there is so many links from the
/// root.
fn why_passive(line: &SystemLine, there: PortId, beyond: u16) -> Why
    ensures { (parent : ℕ × PortId) → line.now.parent ≡ Some parent
        → result ≡ Why.Loses there (beyond + 1) (loss line.now.steps parent.1 (beyond + 1) there) }
{
    let offers = u32::from(beyond) + 1;
    match line.parent {
        Some((_, parent)) => {
            let by = loss(u32::from(line.steps), &parent, offers, &there);
            Why::Loses(there, offers, by)
        }
        // a Passive port isn't of a root
        None => Why::Unlinked,
    }
}

/// Why a Master port of a clock has its role, whose link leads to this one, where both systems are so many links from
/// the root.
fn why_master(steps: u16, clock: ClockId, there: PortId, beyond: u16) -> Why
    ensures { result ≡ Why.Wins there (win steps clock beyond there.clock) }
{
    let by = win(steps, clock, beyond, there.clock);
    Why::Wins(there, by)
}

/// Why a Passive or Master port has its role.
fn why_beyond(
    snapshot: &Snapshot,
    choice: &Certificate,
    line: &SystemLine,
    port: &PortId,
    role: Role,
) -> Why
    requires choice { IsSettledChoice snapshot.now choice.now.lines }
    requires line { IsPortOfLine snapshot.now (line_of line.now) port.now (role_of role) }
    ensures passive { role ≡ Role.Passive → LosesWay snapshot.now port.now result }
    ensures master { role ≡ Role.Master → WinsWay snapshot.now port.now result }
{
    snapshot.well_formed();
    let Some((there, beyond)) = way_at(snapshot, choice, *port) else {
        // such a port is linked
        return Why::Unlinked;
    };
    match role {
        Role::Passive => why_passive(line, there, beyond),
        _ => why_master(line.steps, line.clock, there, beyond),
    }
}

/// Why a port of a system has its role.
fn why_of(
    document: &Document,
    at: u64,
    snapshot: &Snapshot,
    choice: &Certificate,
    line: &SystemLine,
    port: &PortId,
    role: Role,
) -> Why
    requires stands { IsSnapshot document.now at snapshot.now }
    requires choice { IsSettledChoice snapshot.now choice.now.lines }
    requires line { IsPortOfLine snapshot.now (line_of line.now) port.now (role_of role) }
    ensures { HasWhy document.now at snapshot.now port.now (role_of role) result }
{
    snapshot.well_formed();
    match role {
        Role::Disabled => why_disabled(document, at, snapshot, port),
        Role::Slave => why_slave(snapshot, line, port),
        _ => why_beyond(snapshot, choice, line, port, role),
    }
}

/// Appends the line of a port.
fn write_port(
    text: &mut String,
    document: &Document,
    at: u64,
    snapshot: &Snapshot,
    choice: &Certificate,
    line: &SystemLine,
    port: (u16, Role),
) -> Result<(), AllocError>
    requires stands { IsSnapshot document.now at snapshot.now }
    requires choice { IsSettledChoice snapshot.now choice.now.lines }
    requires stated { In (line_of line.now) choice.now.lines }
    requires port { In (port_line_of port) (line_of line.now).ports }
    ensures { OnOk result (AppendsLine
        (IsPortLine document.now at snapshot.now (record { clock = line.now.clock; port = port.0 }))
        (string_bytes text.old) (string_bytes text.new)) }
{
    let (number, role) = port;
    let own = PortId {
        clock: line.clock,
        port: number,
    };
    let why = why_of(document, at, snapshot, choice, line, &own, role);
    writeln!(text, "port {} {} {why}", PortDigits(own), RoleWord(role))
}

/// Appends the lines of all ports of a system that isn't far, by rising number.
pub(crate) fn write_ports(
    text: &mut String,
    document: &Document,
    at: u64,
    snapshot: &Snapshot,
    choice: &Certificate,
    line: &SystemLine,
) -> Result<(), AllocError>
    requires stands { IsSnapshot document.now at snapshot.now }
    requires choice { IsSettledChoice snapshot.now choice.now.lines }
    requires stated { In (line_of line.now) choice.now.lines }
    ensures { OnOk result (AppendsLines
        (ArePortLines document.now at snapshot.now line.now.clock (port_numbers (line_of line.now)))
        (string_bytes text.old) (string_bytes text.new)) }
{
    for port in &line.ports {
        write_port(text, document, at, snapshot, choice, line, *port)?;
    }
    Ok(())
}
