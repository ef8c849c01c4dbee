//! Why a port is disabled.

ghost use Rattle.std.specs.Prelude.{◌≡◌, ◌⊎◌, IfNone, IfSome, Some, false, slice_get, true};
ghost use Rattle.gptp_graph.specs.Snapshot.{IsLinked, clocks};
ghost use Rattle.gptp_lists.specs.Members.{In};
ghost use Rattle.gptp_network.specs.Snapshot.{IsSnapshot, port_identity};
ghost use Rattle.gptp_scenario.specs.Change.{link_after};
ghost use Rattle.gptp_scenario.specs.declared.network.LinkSpec.{LinkSpec};
ghost use Rattle.gptp_explain.specs.Ports.{OtherEndHasFailed, IsKnownLink, JoinsPorts};

use crate::why::Why;
use gptp_network::{Document, Snapshot};
use gptp_scenario::{Network, Timed};
use gptp_vector::PortId;

/// The port at the other end of the link at a place, where the port is one of its ends.
fn beyond(network: &Network, place: usize, port: &PortId) -> Option<PortId>
    ensures some { IfSome result (λ there. (w : LinkSpec) × (slice_get network.now.links place ≡ Some w)
        × JoinsPorts w port.now there) }
    ensures none { IfNone result ((w : LinkSpec) (there : PortId) → slice_get network.now.links place ≡ Some w
        → JoinsPorts w port.now there → ⊥) }
{
    let (a, b, _, _) = network.link_at(place)?;
    if a == *port {
        Some(b)
    } else if b == *port {
        Some(a)
    } else {
        None
    }
}

/// What is known of the link at a place, which leads to this port, after these events: it is down, or up.
fn known_at(network: &Network, events: &[Timed], place: usize, there: PortId) -> Why
    ensures { (w : LinkSpec) → slice_get network.now.links place ≡ Some w
        → ((result ≡ Why.Down there) × ((link_after events.now w).up ≡ false))
        ⊎ ((result ≡ Why.Failed there) × ((link_after events.now w).up ≡ true)) }
{
    match network.joined_after(place, events) {
        Some(_) => Why::Failed(there),
        None => Why::Down(there),
    }
}

/// What is known of the link at a port at a time: there is none, or it is down, or up.
fn known_of(document: &Document, at: u64, port: &PortId) -> Why
    ensures { IsKnownLink document.now at port.now result }
{
    let network = document.network();
    let events = document.events_by(at);
    for place in 0..network.links() {
        if let Some(there) = beyond(network, place, port) {
            return known_at(network, events, place, there);
        }
    }
    Why::Unlinked
}

/// Why a port of a live system is disabled, as the network of a document stands at a time.
pub(crate) fn why_disabled(document: &Document, at: u64, snapshot: &Snapshot, port: &PortId) -> Why
    requires stands { IsSnapshot document.now at snapshot.now }
    requires live { In port.now.clock (clocks snapshot.now) }
    requires unlinked { IsLinked snapshot.now (port_identity port.now) → ⊥ }
    ensures known { IsKnownLink document.now at port.now result }
    ensures failed { OtherEndHasFailed snapshot.now result }
{
    let _ = snapshot;
    known_of(document, at, port)
}
