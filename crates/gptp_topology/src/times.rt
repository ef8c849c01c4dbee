//! Each time of a document, with how long its network then takes at most to settle.

ghost use Rattle.std.specs.Prelude.{◌≡◌, ◌≤◌, IfOk, OnOk, length};
ghost use Rattle.gptp_topology.specs.Tables.{greatest_used, time_of, told_times};
ghost use Rattle.gptp_topology.specs.Times.{AreCalmTimes};

use crate::tables::{Tables, late_of};
use gptp_network::Document;
use gptp_scenario::Network;
use std::alloc::{AllocError, Global};

/// A time of a document.
#[derive(Clone, Copy)]
pub struct CalmTime {
    /// In ns.
    pub at: u64,
    /// How long the network then takes at most to settle, in ns; none where it isn't calm.
    pub bound: Option<u64>,
    /// For how long at most a settled system then waits for Sync, in ns, where that isn't below `sync_timeout`.
    pub needs: Option<u64>,
}

/// A time, as the tables stand then.
fn time_of(tables: &Tables, network: &Network, at: u64) -> CalmTime
    requires few { length tables.now.nodes.items ≤ 512 }
    requires short { greatest_used tables.now.marks.items ≤ 16000000000 }
    ensures { result ≡ time_of network.now tables.now.marks.items tables.now.nodes.items at }
{
    let paths = tables.sync_paths();
    CalmTime {
        at,
        bound: tables.bound(network, paths),
        needs: late_of(network, paths),
    }
}

/// Puts a time after others, where the next is another.
fn tell(
    calm: &mut Vec<CalmTime>,
    tables: &Tables,
    network: &Network,
    at: u64,
    next: u64,
) -> Result<(), AllocError>
    requires few { length tables.now.nodes.items ≤ 512 }
    requires short { greatest_used tables.now.marks.items ≤ 16000000000 }
    ensures { OnOk result (calm.new.items
        ≡ told_times next (time_of network.now tables.now.marks.items tables.now.nodes.items at) calm.old.items) }
{
    if next != at {
        calm.push(time_of(tables, network, at))?;
    }
    Ok(())
}

/// Each time of a document: 0, and those of its events, each once, in their order. Refused for want of memory alone.
pub fn calm_times(alloc: Global, document: &Document) -> Result<Vec<CalmTime>, AllocError>
    ensures { IfOk result (λ times. AreCalmTimes document.now times.items) }
{
    document.network().well_formed();
    document.well_formed();
    let network = document.network();
    let events = document.events();
    let mut tables = Tables::first(alloc, network)?;
    let mut calm = Vec::new(alloc);
    let mut at = 0;
    for event in events {
        tell(&mut calm, &tables, network, at, event.at)?;
        at = event.at;
        tables.act(&event.act);
    }
    calm.push(time_of(&tables, network, at))?;
    Ok(calm)
}
