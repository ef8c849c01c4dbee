//! Whether a certificate is of the systems of a network.

ghost use Rattle.std.specs.Prelude.{◌≡◌, ◌↔◌, IfNone, IfSome, IsTrue, Some, slice_get};
ghost use Rattle.std.specs.List.{range_with_len};
ghost use Rattle.gptp_certificate_text.specs.Certificate.{line_of};
ghost use Rattle.gptp_graph.specs.Labelling.{IsBare, line_clocks};
ghost use Rattle.gptp_graph.specs.Labelling as graphs;
ghost use Rattle.gptp_graph.specs.Snapshot.{System};
ghost use Rattle.gptp_lists.specs.Members.{In};
ghost use Rattle.gptp_graph.specs.LocalTests.{PassesSystems};
ghost use Rattle.gptp_network.specs.Snapshot.{system_of};
ghost use Rattle.gptp_checker.specs.Places.{AgreeAt, HasRightPorts, IsLineFor, numbers_of};
ghost use Rattle.gptp_checker.specs.Located.{LinesAreKnown, AreStated, DiffersAt, HasAllPorts, IsKnownLine, IsLeastSuch, IsMissing, IsStrange};

use gptp_certificate_text::{Certificate, SystemLine};
use gptp_network::Snapshot;
use gptp_roles::Role;
use gptp_vector::{ClockId, Identity};

/// Whether these are all ports of a system with so many, by rising number.
fn are_all_ports(ports: &[(u16, Role)], count: u8) -> bool
    ensures { IsTrue result ↔ (numbers_of ports.now ≡ range_with_len 1 count) }
{
    if ports.len() != usize::from(count) {
        return false;
    }
    for (index, port) in ports.iter().enumerate() {
        if usize::from(port.0) != index + 1 {
            return false;
        }
    }
    true
}

/// Whether a line states no parent and no ports.
fn is_bare(line: &SystemLine) -> bool
    ensures { IsTrue result ↔ IsBare (line_of line.now) }
{
    line.parent.is_none() && line.ports.as_slice().is_empty()
}

/// Whether a line has all ports of a system with so many, or is bare where it is far.
fn has_right_ports(count: u8, line: &SystemLine) -> bool
    ensures { IsTrue result ↔ HasRightPorts count (line_of line.now) }
{
    if line.far {
        return is_bare(line);
    }
    are_all_ports(&line.ports, count)
}

/// Whether a line is that of a system by its clock, with all ports of the system, or bare where it is far.
fn is_line_for(identity: Identity, ports: u8, line: &SystemLine) -> bool
    ensures { IsTrue result ↔ IsLineFor (system_of (identity, ports)) (line_of line.now) }
{
    line.clock == identity.clock() && has_right_ports(ports, line)
}

/// Whether a system and its line stand at a place.
fn agree_at(snapshot: &Snapshot, certificate: &Certificate, place: usize) -> bool
    ensures { IsTrue result ↔ AgreeAt snapshot.now.systems certificate.now.lines place }
{
    let Some((identity, ports)) = snapshot.system_at(place) else {
        return false;
    };
    match certificate.line(place) {
        Some(line) => is_line_for(identity, ports, line),
        None => false,
    }
}

/// Whether a certificate has a line for each live system and no other, each with all ports of its system or bare where
/// it is far.
pub(crate) fn passes_systems(snapshot: &Snapshot, certificate: &Certificate) -> bool
    ensures { IsTrue result ↔ PassesSystems snapshot.now certificate.now.lines }
{
    snapshot.well_formed();
    certificate.well_formed();
    if snapshot.systems() != certificate.len() {
        return false;
    }
    for place in 0..certificate.len() {
        if !agree_at(snapshot, certificate, place) {
            return false;
        }
    }
    true
}

/// Whether a line has all ports of a system with so many, where it isn't far.
fn has_all_ports(count: u8, line: &SystemLine) -> bool
    ensures { IsTrue result ↔ HasAllPorts count (line_of line.now) }
{
    if line.far {
        return true;
    }
    are_all_ports(&line.ports, count)
}

/// Whether a system has the clock of a line, with all ports that it states where it isn't far.
fn is_known(snapshot: &Snapshot, line: &SystemLine) -> bool
    ensures { IsTrue result ↔ IsKnownLine snapshot.now (line_of line.now) }
{
    snapshot.well_formed();
    let Some(place) = snapshot.place_of(line.clock) else {
        return false;
    };
    match snapshot.system_at(place) {
        Some((_, ports)) => has_all_ports(ports, line),
        None => false,
    }
}

/// The clock of the line at a place, where no system has it or its ports aren't its own.
fn strange_at(snapshot: &Snapshot, certificate: &Certificate, place: usize) -> Option<ClockId>
    ensures some { IfSome result (λ v. (line : graphs.SystemLine)
        × (slice_get certificate.now.lines place ≡ Some line) × (line.clock ≡ v) × (IsKnownLine snapshot.now line → ⊥)) }
    ensures none { IfNone result ((line : graphs.SystemLine) → slice_get certificate.now.lines place ≡ Some line
        → IsKnownLine snapshot.now line) }
{
    let line = certificate.line(place)?;
    if is_known(snapshot, line) {
        return None;
    }
    Some(line.clock)
}

/// The least clock of a line that no system has, or whose ports aren't its own, if there is one.
fn least_strange(snapshot: &Snapshot, certificate: &Certificate) -> Option<ClockId>
    ensures some { IfSome result (IsLeastSuch (IsStrange snapshot.now certificate.now.lines)) }
    ensures none { IfNone result (LinesAreKnown snapshot.now certificate.now.lines) }
{
    certificate.well_formed();
    for place in 0..certificate.len() {
        if let Some(clock) = strange_at(snapshot, certificate, place) {
            return Some(clock);
        }
    }
    None
}

/// Whether the line at a place has a clock.
fn is_stated_at(certificate: &Certificate, clock: ClockId, place: usize) -> bool
    ensures { IsTrue result ↔ ((line : graphs.SystemLine) × (slice_get certificate.now.lines place ≡ Some line)
        × (line.clock ≡ clock)) }
{
    match certificate.line(place) {
        Some(line) => line.clock == clock,
        None => false,
    }
}

/// Whether a line has a clock.
fn is_stated(certificate: &Certificate, clock: ClockId) -> bool
    ensures { IsTrue result ↔ In clock (line_clocks certificate.now.lines) }
{
    for place in 0..certificate.len() {
        if is_stated_at(certificate, clock, place) {
            return true;
        }
    }
    false
}

/// The clock of the system at a place, where no line has it.
fn missing_at(snapshot: &Snapshot, certificate: &Certificate, place: usize) -> Option<ClockId>
    ensures some { IfSome result (λ v. (s : System) × (slice_get snapshot.now.systems place ≡ Some s)
        × (s.clock ≡ v) × (In s.clock (line_clocks certificate.now.lines) → ⊥)) }
    ensures none { IfNone result ((s : System) → slice_get snapshot.now.systems place ≡ Some s
        → In s.clock (line_clocks certificate.now.lines)) }
{
    let (identity, _) = snapshot.system_at(place)?;
    let clock = identity.clock();
    if is_stated(certificate, clock) {
        return None;
    }
    Some(clock)
}

/// The least clock of a system that no line has, if there is one.
fn least_missing(snapshot: &Snapshot, certificate: &Certificate) -> Option<ClockId>
    ensures some { IfSome result (IsLeastSuch (IsMissing snapshot.now certificate.now.lines)) }
    ensures none { IfNone result (AreStated snapshot.now certificate.now.lines) }
{
    snapshot.well_formed();
    for place in 0..snapshot.systems() {
        if let Some(clock) = missing_at(snapshot, certificate, place) {
            return Some(clock);
        }
    }
    None
}

/// The least clock at which the systems of a certificate and those of a network differ, if there is one.
pub(crate) fn least_difference(snapshot: &Snapshot, certificate: &Certificate) -> Option<ClockId>
    ensures some { IfSome result (IsLeastSuch (DiffersAt snapshot.now certificate.now.lines)) }
    ensures none { IfNone result (PassesSystems snapshot.now certificate.now.lines) }
{
    snapshot.well_formed();
    certificate.well_formed();
    let Some(strange) = least_strange(snapshot, certificate) else {
        return least_missing(snapshot, certificate);
    };
    match least_missing(snapshot, certificate) {
        Some(missing) if missing < strange => Some(missing),
        _ => Some(strange),
    }
}
