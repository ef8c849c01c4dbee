//! Links as they stand after all events.

ghost use Rattle.std.specs.Prelude.{◌≡◌, ◌++◌, ◌∷◌, [], if◌then◌else◌, IfOk, OnOk};
ghost use Rattle.std.specs.List.{AllByRecursion};
ghost use Rattle.gptp_faults.specs.Cables.{HasBounds, bounds_at, cables_after, is_at_port, is_up_at, up_ports};

use gptp_links::Bounds;
use gptp_network::Document;
use gptp_setup::MOST_PORTS;
use gptp_topology::{Cable, Tables};
use gptp_vector::{ClockId, PortId};
use std::alloc::{AllocError, Global};

/// Whether a link is at a port.
fn is_at(cable: &Cable, port: PortId) -> bool
    ensures { result ≡ is_at_port cable.now port }
{
    cable.a == port || cable.b == port
}

/// All links after all events, in the order of the document.
pub(crate) fn cables_after(alloc: Global, document: &Document) -> Result<Vec<Cable>, AllocError>
    ensures are { IfOk result (λ cables. cables.items ≡ cables_after document.now) }
    ensures bounds { IfOk result (λ cables. AllByRecursion HasBounds cables.items) }
{
    document.well_formed();
    document.network().well_formed();
    let tables = Tables::after(alloc, document.network(), document.events())?;
    let mut cables = Vec::new(alloc);
    for standing in &tables.standings {
        cables.push(standing.cable)?;
    }
    Ok(cables)
}

/// The bounds of the link that has this port as its first end, if there is one.
pub(crate) fn bounds_at(cables: &[Cable], port: &PortId) -> Option<Bounds>
    ensures { result ≡ bounds_at cables.now port.now }
{
    for cable in cables {
        if cable.a == *port {
            return Some(cable.bounds);
        }
    }
    None
}

/// Whether a link that is up is at a port.
fn is_up_at(cables: &[Cable], port: &PortId) -> bool
    ensures { result ≡ is_up_at cables.now port.now }
{
    cables.iter().any(|cable| cable.up && is_at(cable, *port))
}

/// Puts a port after others, where a link that is up is at it.
fn push_up(ports: &mut Vec<PortId>, cables: &[Cable], port: PortId) -> Result<(), AllocError>
    ensures { OnOk result (ports.new.items ≡ ports.old.items ++ (if is_up_at cables.now port then port ∷ [] else [])) }
{
    match is_up_at(cables, &port) {
        true => {
            ports.push(port)?;
            Ok(())
        }
        false => Ok(()),
    }
}

/// The ports of a system at which a link is that is up, by rising number.
pub(crate) fn up_ports(
    alloc: Global,
    cables: &[Cable],
    clock: ClockId,
) -> Result<Vec<PortId>, AllocError>
    ensures { IfOk result (λ ports. ports.items ≡ up_ports cables.now clock) }
{
    let mut ports = Vec::new(alloc);
    for number in 0..MOST_PORTS as u16 {
        let port = PortId {
            clock,
            port: number + 1,
        };
        push_up(&mut ports, cables, port)?;
    }
    Ok(ports)
}
