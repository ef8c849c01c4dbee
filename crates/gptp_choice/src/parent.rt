//! Whom a system follows.

ghost use Rattle.std.specs.Prelude.{◌≡◌, ◌↔◌, ◌<◌, ℕ, IfNone, IfSome, IsTrue, option_map, suc};
ghost use Rattle.gptp_certificate_text.specs.Certificate.{parent_of};
ghost use Rattle.gptp_components.specs.Distances.{AreDistances};
ghost use Rattle.gptp_graph.specs.Distance.{IsDistance};
ghost use Rattle.gptp_graph.specs.Order.{IsLower};
ghost use Rattle.gptp_graph.specs.Parent.{LeadsNearer, ParentLink, key};
ghost use Rattle.gptp_graph.specs.SettledChoice.{IsParentIfAny};
ghost use Rattle.gptp_graph.specs.Snapshot.{System};
ghost use Rattle.gptp_lists.specs.Members.{In};
ghost use Rattle.gptp_choice.specs.Lines.{IsFirstOf, IsFirstWay};

use gptp_components::{Distance, distance_of};
use gptp_network::Snapshot;
use gptp_vector::{ClockId, PortId};

/// The port at the other end of a port's link, where its system is one link nearer its best than so many.
fn nearer_end(
    snapshot: &Snapshot,
    distances: &[Distance],
    own: PortId,
    steps: u16,
) -> Option<PortId>
    requires distances { AreDistances snapshot.now distances.now }
    requires steps { IsDistance snapshot.now own.clock steps }
    ensures some { IfSome result (λ there. LeadsNearer snapshot.now own.clock (parent_of (own.port, there))) }
    ensures none { IfNone result ((l : ParentLink) → l.own_port ≡ own.port → LeadsNearer snapshot.now own.clock l → ⊥) }
{
    snapshot.well_formed();
    let there = snapshot.other_end(own)?;
    let beyond = distance_of(snapshot, distances, there.clock)?;
    if u32::from(beyond.steps) + 1 != u32::from(steps) {
        return None;
    }
    Some(there)
}

/// Whether one way goes before another: by the clock there, then by the port there, then by the own port.
fn is_lower(own_port: u16, there: &PortId, first_port: u16, first: &PortId) -> bool
    ensures { IsTrue result
        ↔ IsLower (key (parent_of (own_port, there.now))) (key (parent_of (first_port, first.now))) }
{
    (*there, own_port) < (*first, first_port)
}

/// The way that goes first, of one and the best before, if there is one.
fn first_of(best: Option<(u16, PortId)>, own_port: u16, there: PortId) -> (u16, PortId)
    ensures { IsFirstOf (option_map parent_of best) (parent_of (own_port, there)) (parent_of result) }
{
    match best {
        Some((first_port, first)) => {
            if is_lower(own_port, &there, first_port, &first) {
                (own_port, there)
            } else {
                (first_port, first)
            }
        }
        None => (own_port, there),
    }
}

/// The way that goes first, of those over the ports up to one.
fn first_up_to(
    snapshot: &Snapshot,
    distances: &[Distance],
    best: Option<(u16, PortId)>,
    own: PortId,
    steps: u16,
) -> Option<(u16, PortId)>
    requires distances { AreDistances snapshot.now distances.now }
    requires steps { IsDistance snapshot.now own.clock steps }
    ensures { (k : ℕ) → own.port ≡ suc k → IsFirstWay snapshot.now own.clock k (option_map parent_of best)
        → IsFirstWay snapshot.now own.clock (suc k) (option_map parent_of result) }
{
    snapshot.well_formed();
    let port = own.port;
    match nearer_end(snapshot, distances, own, steps) {
        Some(there) => Some(first_of(best, port, there)),
        None => best,
    }
}

/// The link over which a system that is so many links from its best follows, if over any: of those to systems one link
/// nearer the first.
pub(crate) fn parent_of(
    snapshot: &Snapshot,
    distances: &[Distance],
    clock: ClockId,
    ports: u8,
    steps: u16,
) -> Option<(u16, PortId)>
    requires distances { AreDistances snapshot.now distances.now }
    requires ports { (s : System) → In s snapshot.now.systems → s.clock ≡ clock → s.ports ≡ ports }
    requires steps { IsDistance snapshot.now clock steps }
    ensures { IsParentIfAny snapshot.now clock (option_map parent_of result) }
{
    snapshot.well_formed();
    let mut best = None;
    for index in 0..ports {
        let port = u16::from(index) + 1;
        best = first_up_to(snapshot, distances, best, PortId { clock, port }, steps);
    }
    best
}
