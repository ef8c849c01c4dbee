//! The delays of links, as they are in force after events.

ghost use Rattle.std.specs.Prelude.{◌≡◌, ◌⊎◌, ◌↔◌, IsTrue};
ghost use Rattle.gptp_lists.specs.Members.{In};
ghost use Rattle.gptp_scenario.specs.Network.{IsEnd};
ghost use Rattle.gptp_scenario.specs.declared.network.LinkSpec.{LinkSpec};
ghost use Rattle.gptp_topology.specs.After.{standings_after};
ghost use Rattle.gptp_accuracy.specs.Ways.{HasDelays};

use gptp_scenario::{Network, Timed};
use gptp_topology::{Cable, Standing};
use gptp_vector::{ClockId, PortId};

/// Whether a link is at a port.
fn is_at(cable: &Cable, port: &PortId) -> bool
    ensures { IsTrue result ↔ (cable.now.a ≡ port.now) ⊎ (cable.now.b ≡ port.now) }
{
    cable.a == *port || cable.b == *port
}

/// The least and the greatest delay of the link at a port, in ns, where the links of a network stand so after these
/// events; 0 and 0 where no link is there.
pub(crate) fn delays_at(
    network: &Network,
    events: &[Timed],
    standings: &[Standing],
    clock: ClockId,
    port: u16,
) -> (u64, u64)
    requires { standings.now ≡ standings_after network.now events.now }
    ensures { (w : LinkSpec) → In w network.now.links → IsEnd (record { clock = clock; port = port }) w
        → HasDelays network.now events.now clock port result.0 result.1 }
{
    let _ = network;
    let _ = events;
    let own = PortId { clock, port };
    for standing in standings {
        if is_at(&standing.cable, &own) {
            return (standing.cable.bounds.min, standing.cable.bounds.max);
        }
    }
    (0, 0)
}
