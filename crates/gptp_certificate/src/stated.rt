//! What the systems of a world say.

ghost use Rattle.std.specs.Prelude.{◌≡◌, ◌∷◌, ◌++◌, [], ℕ, length, map, IfOk, OnOk, Some, slice_get};
ghost use Rattle.std.specs.List.{range_with_len};
ghost use Rattle.gptp_system.specs.State.{clock, parent};
ghost use Rattle.gptp_model.specs.Acts.{AnySystem, AtSystem};
ghost use Rattle.gptp_model.specs.Views.{rising_clocks};
ghost use Rattle.gptp_certificate_text.specs.Certificate.{line_of, lines_of, port_line_of};
ghost use Rattle.gptp_certificate.specs.Settled.{IsRightInTime};
ghost use Rattle.gptp_certificate.specs.Stated.{stated_line, stated_port, States};
ghost use Rattle.gptp_certificate.specs.Stating.{Adds, AreSaid};

use crate::marking::mark_far;
use gptp_certificate_text::{Certificate, SystemLine};
use gptp_links::Fate;
use gptp_roles::Role;
use gptp_system::System;
use gptp_vector::{ClockId, PortId};
use gptp_world::World;
use std::alloc::{AllocError, Global};

/// The role of each port of a system, by rising number.
fn list_ports(alloc: Global, system: &System) -> Result<Vec<(u16, Role)>, AllocError>
    ensures { IfOk result (λ ports. map port_line_of ports.items
        ≡ map (stated_port system.now) (range_with_len 1 (length system.now.ports))) }
{
    let mut ports = Vec::new(alloc);
    for place in 0..system.ports() {
        let port = place + 1;
        ports.push((u16::from(port), system.role(port)))?;
    }
    Ok(ports)
}

/// The Slave port of a system, and the port that it follows.
fn stated_parent(system: &System) -> Option<(u16, PortId)>
    ensures { result ≡ parent system.now }
{
    match system.parent() {
        Some((port, there)) => Some((u16::from(port), there)),
        None => None,
    }
}

/// What a system says, which has this clock.
fn stated_line(alloc: Global, own: ClockId, system: &System) -> Result<SystemLine, AllocError>
    requires { clock system.now ≡ own }
    ensures { IfOk result (λ line. line_of line ≡ stated_line system.now) }
{
    let (root, steps, _) = system.follows();
    let parent = stated_parent(system);
    let ports = list_ports(alloc, system)?;
    Ok(SystemLine {
        clock: own,
        root,
        steps,
        far: false,
        parent,
        ports,
    })
}

/// Puts the line of a system, which has this clock, after others.
fn push_line(
    alloc: Global,
    lines: &mut Vec<SystemLine>,
    own: ClockId,
    system: &System,
) -> Result<(), AllocError>
    requires { clock system.now ≡ own }
    ensures { OnOk result (lines_of lines.new.items ≡ lines_of lines.old.items ++ (stated_line system.now ∷ [])) }
{
    let line = stated_line(alloc, own, system)?;
    lines.push(line)?;
    Ok(())
}

/// Puts the line of the system with a clock after others, where it lives.
fn state_clock<F: Fate + Drop>(
    alloc: Global,
    world: &World<F>,
    own: ClockId,
    lines: &mut Vec<SystemLine>,
) -> Result<(), AllocError>
    requires { AtSystem own world.now.world_core AnySystem }
    ensures { OnOk result (Adds own world.now.world_core (lines_of lines.old.items) (lines_of lines.new.items)) }
{
    match world.system(own) {
        Some(system) => push_line(alloc, lines, own, system),
        None => Ok(()),
    }
}

/// Appends the line of the system at a place by rising clock.
fn state_at<F: Fate + Drop>(
    alloc: Global,
    world: &World<F>,
    place: usize,
    lines: &mut Vec<SystemLine>,
) -> Result<(), AllocError>
    ensures { OnOk result ((own : ℕ) → slice_get (rising_clocks world.now.world_core) place ≡ Some own
        → Adds own world.now.world_core (lines_of lines.old.items) (lines_of lines.new.items)) }
{
    match world.clock_at(place) {
        Some(own) => state_clock(alloc, world, own, lines),
        None => Ok(()),
    }
}

/// What all live systems say, by rising clock.
fn list_lines<F: Fate + Drop>(
    alloc: Global,
    world: &World<F>,
) -> Result<Vec<SystemLine>, AllocError>
    ensures { IfOk result (λ lines. AreSaid world.now.world_core (lines_of lines.items)) }
{
    world.well_formed();
    let mut lines = Vec::new(alloc);
    for place in 0..world.count() {
        state_at(alloc, world, place, &mut lines)?;
    }
    Ok(lines)
}

/// The certificate of a world as it stands, in version 2: a line of each live system, by rising clock. It is what the
/// system's own state says now, unless the system is far: where its own steps are 255 or more, or some system of its
/// component, over the links that are up between live systems, states a lower root than it. Then its root is the lowest
/// that is stated in its component, and its steps are 254 and the least number of links to a system that isn't far, or
/// 65535 where none leads to one. Once the world has been calm for its settling span since the last change, it is the
/// settled choice of the network. Refused for want of memory alone.
pub fn write_certificate<F: Fate + Drop>(
    alloc: Global,
    world: &World<F>,
) -> Result<Certificate, AllocError>
    ensures version { IfOk result (λ certificate. certificate.version ≡ 2) }
    ensures states { IfOk result (λ certificate. States world.now.world_core certificate.lines) }
    ensures right { IfOk result (λ certificate. IsRightInTime world.now.world_core certificate.lines) }
{
    world.well_formed();
    let mut lines = list_lines(alloc, world)?;
    mark_far(alloc, world, &mut lines)?;
    Ok(Certificate::of_lines(2, lines))
}
