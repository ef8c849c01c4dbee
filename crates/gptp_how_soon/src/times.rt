//! The times of a document, with how soon the choice and the roles stand at each.

ghost use Rattle.std.specs.Prelude.{◌≡◌, ◌≤◌, IfOk, IfSome, OnOk, length};
ghost use Rattle.std.specs.List.{AllByRecursion, find};
ghost use Rattle.gptp_network.specs.declared.keys.TheConstants.{LATEST_EVENT};
ghost use Rattle.gptp_topology.specs.Tables.{greatest_used};
ghost use Rattle.gptp_how_soon.specs.Times.{AreRising, IsWatchedShortly, is_time_at, settling_times};
ghost use Rattle.gptp_how_soon.specs.Walk.{WalkTells};

use crate::bounds::SettlingTime;
use crate::walk::Walk;
use gptp_network::Document;
use gptp_scenario::Network;
use std::alloc::{AllocError, Global};

/// Where the next time is another, puts this one after others, and goes on.
fn tell(
    alloc: Global,
    times: &mut Vec<SettlingTime>,
    walk: &mut Walk,
    network: &Network,
    at: u64,
    next: u64,
) -> Result<(), AllocError>
    requires few { length walk.old.tables.nodes.items ≤ 512 }
    requires short { greatest_used walk.old.tables.marks.items ≤ 16000000000 }
    requires short_before { walk.old.paths_before.delay ≤ 16000000000 }
    requires early { at ≤ LATEST_EVENT }
    requires longest { walk.old.longest ≤ 16000000000 }
    requires set { IfSome walk.old.last_set (λ last. last ≤ at) }
    ensures { OnOk result (WalkTells network.now at next walk.old walk.new times.old.items times.new.items) }
{
    if next != at {
        let paths = walk.tables.sync_paths();
        let time = walk.settle(alloc, network, at, paths)?;
        times.push(time)?;
        walk.go_on(time, paths)?;
    }
    Ok(())
}

/// Each time of a document, 0 and those of its events, each once, in their order: how soon the choice and the roles
/// stand, and for how long to watch. Refused for want of memory alone.
pub fn settling_times(alloc: Global, document: &Document) -> Result<Vec<SettlingTime>, AllocError>
    ensures times { IfOk result (λ times. times.items ≡ settling_times document.now) }
    ensures rising { IfOk result (λ times. AreRising times.items) }
    ensures watched { IfOk result (λ times. AllByRecursion IsWatchedShortly times.items) }
{
    document.network().well_formed();
    document.well_formed();
    let network = document.network();
    let events = document.events();
    let mut walk = Walk::first(alloc, network)?;
    let mut times = Vec::new(alloc);
    let mut at = 0;
    for event in events {
        tell(alloc, &mut times, &mut walk, network, at, event.at)?;
        at = event.at;
        walk.pass(at, &event.act)?;
    }
    let paths = walk.tables.sync_paths();
    let time = walk.settle(alloc, network, at, paths)?;
    times.push(time)?;
    Ok(times)
}

/// The first of these times that is at a moment, if there is one.
fn first_at(times: &[SettlingTime], at: u64) -> Option<SettlingTime>
    ensures { result ≡ find (is_time_at at) times.now }
{
    for time in times {
        if time.at == at {
            return Some(*time);
        }
    }
    None
}

/// The time among these, which rise as those of a document, that is at a moment in ns, if there is one.
pub fn settling_at(times: &[SettlingTime], at: u64) -> Option<SettlingTime>
    requires { AreRising times.now }
    ensures { result ≡ find (is_time_at at) times.now }
{
    if let Ok(place) = times.binary_search_by_key(&at, |time| time.at) {
        let time = times[place];
        if time.at == at {
            return Some(time);
        }
    }
    first_at(times, at)
}
