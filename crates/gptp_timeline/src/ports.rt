//! What is shown of the ports of a system.

ghost use Rattle.std.specs.Prelude.{◌≡◌, ◌≤◌, true, false, length};
ghost use Rattle.gptp_system.specs.State.{number};
ghost use Rattle.gptp_system.specs.Steps.{HasPortNumber};
ghost use Rattle.gptp_timeline.specs.Ports.{role_number, same_bool, shows_same_port, same_ports, shown_port, shown_ports};

use arrayvec::ArrayVec;
use gptp_roles::Role;
use gptp_setup::MOST_PORTS;
use gptp_system::System;
use std::marker::Model;

/// What is shown of a port.
#[derive(Clone, Copy, Debug, Default)]
pub(crate) struct ShownPort {
    /// Its role.
    pub role: Role,
    /// Whether it is asCapable.
    pub capable: bool,
}

/// The number of a role.
fn role_number(role: Role) -> u8
    ensures { result ≡ role_number role }
{
    role as u8
}

/// Whether both are so, or neither is.
pub(crate) fn same_bool(a: bool, b: bool) -> bool
    ensures { result ≡ same_bool a b }
{
    if a { b } else { !b }
}

/// Whether two ports are the same.
pub(crate) fn same_port(a: ShownPort, b: ShownPort) -> bool
    ensures { result ≡ shows_same_port a b }
{
    role_number(a.role) == role_number(b.role) && same_bool(a.capable, b.capable)
}

/// Whether there are as many ports, each the same.
pub(crate) fn same_ports(a: &[ShownPort], b: &[ShownPort]) -> bool
    ensures { result ≡ same_ports a.now b.now }
{
    if a.len() != b.len() {
        return false;
    }
    for place in 0..a.len() {
        if !same_port(a[place], b[place]) {
            return false;
        }
    }
    true
}

/// What is shown of the ports of a system, by rising number.
#[derive(Debug, Drop)]
pub(crate) struct Ports {
    ports: ArrayVec<ShownPort, MOST_PORTS>,
}

impl Model for Ports {
    ghost use Rattle.std.specs.Prelude.{◌≤◌, List, length};
    ghost use Rattle.gptp_setup.specs.declared.limits.TheConstants.{MOST_PORTS};
    ghost use Rattle.gptp_timeline.specs.declared.ports.ShownPort.{ShownPort};

    ghost Value = { List ShownPort };

    ghost view = { λ p. p.ports.items };

    ghost invariant = { λ p. length p.ports.items ≤ MOST_PORTS };
}

impl Ports {
    ghost use Rattle.std.specs.Prelude.{◌≡◌, ◌≤◌, length};
    ghost use Rattle.gptp_setup.specs.declared.limits.TheConstants.{MOST_PORTS};
    ghost use Rattle.gptp_system.specs.State.{number};

    /// Equal ports. Takes no memory.
    pub(crate) fn copy(&self) -> Self
        ensures { result ≡ self.now }
    {
        let mut ports = ArrayVec::new();
        let _ = ports.try_extend_from_slice(self.ports.as_slice());
        Ports { ports }
    }

    /// What is shown of the port with a number, if there is one.
    pub(crate) fn port(&self, port: u16) -> Option<ShownPort>
        ensures { result ≡ number self.now port }
    {
        let place = usize::from(port).checked_sub(1)?;
        self.ports.as_slice().get(place).copied()
    }

    /// What is shown of each port.
    pub(crate) fn as_slice(&self) -> &[ShownPort]
        ensures is { result.now ≡ self.now }
        ensures few { length self.now ≤ MOST_PORTS }
    {
        self.ports.as_slice()
    }
}

/// What is shown of a port of a system.
fn shown_port(system: &System, port: u8) -> ShownPort
    requires { HasPortNumber system.now port }
    ensures { result ≡ shown_port system.now port }
{
    ShownPort {
        role: system.role(port),
        capable: system.capable(port),
    }
}

/// Whether a system has a port with a number.
fn has_port(system: &System, port: u16) -> bool
    ensures yes { result ≡ true → HasPortNumber system.now port }
    ensures no { result ≡ false → HasPortNumber system.now port → ⊥ }
{
    port != 0 && port <= u16::from(system.ports())
}

/// What is shown of the port of a system with a number, if it has that.
pub(crate) fn port_of(system: &System, port: u16) -> Option<ShownPort>
    requires { length system.now.ports ≤ MOST_PORTS }
    ensures { result ≡ number (shown_ports system.now) port }
{
    match has_port(system, port) {
        true => Some(shown_port(system, port as u8)),
        false => None,
    }
}

/// What is shown of the ports of a system.
pub(crate) fn ports_of(system: &System) -> Ports
    requires { length system.now.ports ≤ MOST_PORTS }
    ensures { result ≡ shown_ports system.now }
{
    let mut ports = ArrayVec::new();
    for place in 0..system.ports() {
        ports.push(shown_port(system, place + 1));
    }
    Ports { ports }
}

/// Whether the ports of a system show this.
pub(crate) fn show_ports(system: &System, ports: &[ShownPort]) -> bool
    requires { length system.now.ports ≤ MOST_PORTS }
    ensures { result ≡ true → shown_ports system.now ≡ ports.now }
{
    if ports.len() != usize::from(system.ports()) {
        return false;
    }
    for place in 0..system.ports() {
        if !same_port(shown_port(system, place + 1), ports[usize::from(place)]) {
            return false;
        }
    }
    true
}
