//! Which members of a network have a clock or a port.

ghost use Rattle.std.specs.Prelude.{◌≡◌, slice_get};
ghost use Rattle.std.specs.Option.{option_and_then};
ghost use Rattle.gptp_network.specs.Found.{is_either, joins, link_from, ports_by, ports_if, system_from};

use gptp_scenario::Network;
use gptp_vector::{ClockId, Identity, PortId};

/// How many ports a system with this identity has, where it has this clock.
fn ports_by(identity: Identity, ports: u8, clock: ClockId) -> Option<u8>
    ensures { result ≡ ports_by clock identity ports }
{
    if identity.clock() == clock {
        Some(ports)
    } else {
        None
    }
}

/// How many ports the system at a place has, where it has this clock.
fn ports_at(network: &Network, place: usize, clock: ClockId) -> Option<u8>
    ensures { result ≡ option_and_then (ports_if clock) (slice_get network.now.systems place) }
{
    match network.system_at(place) {
        Some(system) => ports_by(system.0, system.1, clock),
        None => None,
    }
}

/// The number of the first system that has a clock, and of its ports.
#[tactic(auto, using(crate::proofs::FoundLemmas::system_here, crate::proofs::FoundLemmas::system_passed))]
pub(crate) fn system_with(network: &Network, clock: ClockId) -> Option<(usize, u8)>
    ensures { result ≡ system_from 0 network.now.systems clock }
{
    for place in 0..network.systems() {
        if let Some(ports) = ports_at(network, place, clock) {
            return Some((place, ports));
        }
    }
    None
}

/// Whether a port is one of these two.
fn is_either(a: &PortId, b: &PortId, port: &PortId) -> bool
    ensures { result ≡ is_either port.now a.now b.now }
{
    a == port || b == port
}

/// Whether the link at a place, if there is one, is at a port.
fn joins(network: &Network, place: usize, port: &PortId) -> bool
    ensures { result ≡ joins port.now (slice_get network.now.links place) }
{
    match network.link_at(place) {
        Some(link) => is_either(&link.0, &link.1, port),
        None => false,
    }
}

/// The number of the first link that is at a port.
#[tactic(auto, using(crate::proofs::FoundLemmas::link_here, crate::proofs::FoundLemmas::link_passed))]
pub(crate) fn link_with(network: &Network, port: &PortId) -> Option<usize>
    ensures { result ≡ link_from 0 network.now.links port.now }
{
    for place in 0..network.links() {
        if joins(network, place, port) {
            return Some(place);
        }
    }
    None
}
