//! The roles of a system's ports.

ghost use Rattle.std.specs.Prelude.{◌≡◌, ◌↔◌, ◌⊎◌, ◌<◌, IfOk, IsTrue, map, option_map};
ghost use Rattle.gptp_certificate_text.specs.Certificate.{parent_of, port_line_of, role_of};
ghost use Rattle.gptp_components.specs.Distances.{AreDistances};
ghost use Rattle.gptp_graph.specs.Distance.{IsDistance};
ghost use Rattle.gptp_graph.specs.SettledChoice.{IsParentIfAny};
ghost use Rattle.gptp_graph.specs.SettledRole.{IsMasterPort, IsSettledRole, IsSlavePort};
ghost use Rattle.gptp_graph.specs.Snapshot.{Joins};
ghost use Rattle.gptp_network.specs.Snapshot.{port_identity};
ghost use Rattle.gptp_choice.specs.Lines.{AreRoles};

use gptp_components::{Distance, distance_of};
use gptp_network::Snapshot;
use gptp_roles::Role;
use gptp_vector::{ClockId, PortId};
use std::alloc::{AllocError, Global};

/// Whether a port is that of the link over which its system follows, if over any.
fn is_slave(snapshot: &Snapshot, own: &PortId, parent: &Option<(u16, PortId)>) -> bool
    requires { IsParentIfAny snapshot.now own.now.clock (option_map parent_of parent.now) }
    ensures { IsTrue result ↔ IsSlavePort snapshot.now (port_identity own.now) }
{
    let _ = snapshot;
    match parent {
        Some((own_port, _)) => *own_port == own.port,
        None => false,
    }
}

/// Whether these steps are fewer than those there, or as many and this clock is lower.
fn goes_before(steps: u16, clock: ClockId, there: u16, other: ClockId) -> bool
    ensures { IsTrue result ↔ ((steps < there) ⊎ ((steps ≡ there) × (clock < other))) }
{
    (steps, clock) < (there, other)
}

/// Whether a port of a system so many links from its best is a Master port, where its link leads to another.
fn is_master(
    snapshot: &Snapshot,
    distances: &[Distance],
    own: &PortId,
    steps: u16,
    there: &PortId,
) -> bool
    requires distances { AreDistances snapshot.now distances.now }
    requires steps { IsDistance snapshot.now own.now.clock steps }
    requires joins { Joins snapshot.now (port_identity own.now) (port_identity there.now) }
    ensures { IsTrue result ↔ IsMasterPort snapshot.now (port_identity own.now) }
{
    snapshot.well_formed();
    match distance_of(snapshot, distances, there.clock) {
        Some(beyond) => goes_before(steps, own.clock, beyond.steps, there.clock),
        None => false,
    }
}

/// The role of a port of a system so many links from its best, which follows over this link, if over any.
fn role_of(
    snapshot: &Snapshot,
    distances: &[Distance],
    own: &PortId,
    steps: u16,
    parent: &Option<(u16, PortId)>,
) -> Role
    requires distances { AreDistances snapshot.now distances.now }
    requires steps { IsDistance snapshot.now own.now.clock steps }
    requires parent { IsParentIfAny snapshot.now own.now.clock (option_map parent_of parent.now) }
    ensures { IsSettledRole snapshot.now (port_identity own.now) (role_of result) }
{
    snapshot.well_formed();
    let Some(there) = snapshot.other_end(*own) else {
        return Role::Disabled;
    };
    if is_slave(snapshot, own, parent) {
        return Role::Slave;
    }
    if is_master(snapshot, distances, own, steps, &there) {
        return Role::Master;
    }
    Role::Passive
}

/// The roles of all ports of a system, by rising number.
pub(crate) fn roles_of(
    alloc: Global,
    snapshot: &Snapshot,
    distances: &[Distance],
    clock: ClockId,
    count: u8,
    steps: u16,
    parent: &Option<(u16, PortId)>,
) -> Result<Vec<(u16, Role)>, AllocError>
    requires distances { AreDistances snapshot.now distances.now }
    requires steps { IsDistance snapshot.now clock steps }
    requires parent { IsParentIfAny snapshot.now clock (option_map parent_of parent.now) }
    ensures { IfOk result (λ ports. AreRoles snapshot.now clock count (map port_line_of ports.items)) }
{
    let mut ports = Vec::new(alloc);
    for index in 0..count {
        let port = u16::from(index) + 1;
        let own = PortId { clock, port };
        let role = role_of(snapshot, distances, &own, steps, parent);
        ports.push((port, role))?;
    }
    Ok(ports)
}
