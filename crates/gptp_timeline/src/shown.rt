//! What is shown of a system.

ghost use Rattle.std.specs.Prelude.{◌≡◌, ◌≤◌, true, false, Some, is_some, length};
ghost use Rattle.gptp_setup.specs.declared.limits.TheConstants.{MOST_PORTS};
ghost use Rattle.gptp_timeline.specs.Ports.{same_bool};
ghost use Rattle.gptp_timeline.specs.Compared.{left_by, same_port_at};
ghost use Rattle.gptp_timeline.specs.Shown.{is_expecting, is_known, same_choice, same_roles, same_slave, same_way, shown_of};

use crate::compared::Compared;
use crate::ports::{Ports, port_of, ports_of, same_bool, same_port, same_ports, show_ports};
use gptp_system::System;
use gptp_vector::Identity;

/// What is shown of a live system.
#[derive(Debug, Drop)]
pub(crate) struct Shown {
    /// The root that it follows.
    pub root: Identity,
    /// How many steps away that is.
    pub steps: u16,
    /// The number of its Slave port.
    pub slave: Option<u8>,
    /// Whether an offset is known.
    pub known: bool,
    /// Its ports, by rising number.
    pub ports: Ports,
}

impl Shown {
    ghost use Rattle.std.specs.Prelude.{◌≡◌};

    /// The same is shown. Takes no memory.
    fn copy(&self) -> Self
        ensures { result ≡ self.now }
    {
        Shown {
            root: self.root,
            steps: self.steps,
            slave: self.slave,
            known: self.known,
            ports: self.ports.copy(),
        }
    }
}

/// The same is shown of a system, or nothing.
pub(crate) fn copy_shown(shown: &Option<Shown>) -> Option<Shown>
    ensures { result ≡ shown.now }
{
    match shown {
        Some(shown) => Some(shown.copy()),
        None => None,
    }
}

/// What is shown of a live system.
pub(crate) fn shown_of(system: &System) -> Shown
    requires { length system.now.ports ≤ MOST_PORTS }
    ensures { result ≡ shown_of system.now }
{
    let (root, steps, slave) = system.follows();
    Shown {
        root,
        steps,
        slave,
        known: system.offset().is_some(),
        ports: ports_of(system),
    }
}

/// Whether two Slave ports are the same, or neither is there.
fn same_slave(a: Option<u8>, b: Option<u8>) -> bool
    ensures { result ≡ same_slave a b }
{
    match (a, b) {
        (Some(a), Some(b)) => a == b,
        (None, None) => true,
        _ => false,
    }
}

/// Whether two live systems follow the same root over as many steps and over the same Slave port.
fn same_way(a: &Shown, b: &Shown) -> bool
    ensures { result ≡ same_way a.now b.now }
{
    a.root == b.root && a.steps == b.steps && same_slave(a.slave, b.slave)
}

/// Whether a live system follows the root that was shown, over as many steps and over the same Slave port.
fn shows_way(system: &System, shown: &Shown) -> bool
    ensures { result ≡ same_way (shown_of system.now) shown.now }
{
    let (root, steps, slave) = system.follows();
    root == shown.root && steps == shown.steps && same_slave(slave, shown.slave)
}

/// Whether a live system shows this.
fn shows(system: &System, shown: &Shown) -> bool
    requires { length system.now.ports ≤ MOST_PORTS }
    ensures { result ≡ true → shown_of system.now ≡ shown.now }
{
    shows_way(system, shown)
        && system.offset().is_some() == shown.known
        && show_ports(system, shown.ports.as_slice())
}

/// Whether the offset of a system is known as before.
fn shows_known(system: &System, shown: &Shown) -> bool
    ensures { result ≡ same_bool (is_some system.now.offset) shown.now.known }
{
    same_bool(system.offset().is_some(), shown.known)
}

/// Whether the port of a system with a number is as it was shown. It isn't where either has no such port.
fn shows_port(system: &System, shown: &Shown, port: u16) -> bool
    requires { length system.now.ports ≤ MOST_PORTS }
    ensures { result ≡ same_port_at port system.now shown.now }
{
    match (port_of(system, port), shown.ports.port(port)) {
        (Some(now), Some(before)) => same_port(now, before),
        _ => false,
    }
}

/// Whether what is compared of a live system is as it was shown.
pub(crate) fn shows_left(compared: Compared, system: &System, shown: &Shown) -> bool
    requires { length system.now.ports ≤ MOST_PORTS }
    ensures same { result ≡ true → left_by compared (Some system.now) (Some shown.now) ≡ Some shown.now }
    ensures other { result ≡ false
        → left_by compared (Some system.now) (Some shown.now) ≡ Some (shown_of system.now) }
{
    match compared {
        Compared::All => shows(system, shown),
        Compared::Known => shows_known(system, shown),
        Compared::Port(port) => shows_port(system, shown, port),
        Compared::Choice(port) => shows_way(system, shown) && shows_port(system, shown, port),
    }
}

/// Whether a system is as before as to whether it lives, root, steps and Slave port.
pub(crate) fn same_choice(before: &Option<Shown>, after: &Option<Shown>) -> bool
    ensures { result ≡ same_choice before.now after.now }
{
    match (before, after) {
        (Some(a), Some(b)) => same_way(a, b),
        (None, None) => true,
        _ => false,
    }
}

/// Whether two looks show the same roots, steps, Slave ports and ports.
pub(crate) fn same_roles(before: &Option<Shown>, after: &Option<Shown>) -> bool
    ensures { result ≡ same_roles before.now after.now }
{
    match (before, after) {
        (Some(a), Some(b)) => same_way(a, b) && same_ports(a.ports.as_slice(), b.ports.as_slice()),
        (None, None) => true,
        _ => false,
    }
}

/// Whether a system lives and its offset is known.
pub(crate) fn is_known(shown: &Option<Shown>) -> bool
    ensures { result ≡ is_known shown.now }
{
    match shown {
        Some(shown) => shown.known,
        None => false,
    }
}

/// Whether a system lives and expects time: it has a Slave port, and its root can be a grandmaster.
pub(crate) fn is_expecting(shown: &Option<Shown>) -> bool
    ensures { result ≡ is_expecting shown.now }
{
    match shown {
        Some(shown) => shown.slave.is_some() && shown.root.capable(),
        None => false,
    }
}
