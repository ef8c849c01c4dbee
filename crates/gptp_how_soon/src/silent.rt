//! How long it counts what came over links of which an end fails at a time.

ghost use Rattle.std.specs.Prelude.{◌≡◌, ◌≤◌, ◌*◌, ◌&&◌, IfOk, IfSome, slice_get};
ghost use Rattle.std.specs.Option.{option_and_then};
ghost use Rattle.gptp_setup.specs.Intervals.{IsLog, interval_of};
ghost use Rattle.gptp_setup.specs.SettlingParams.{longest_span};
ghost use Rattle.gptp_scenario.specs.Network.{pace_of};
ghost use Rattle.gptp_how_soon.specs.Silent.{any_silent, heard_links, hears, hears_over, held_among, held_at, held_end, held_from, held_one, held_over, hold_span, is_live, is_silent, is_silent_at, log_by, log_from, log_if, own_intervals};

use crate::bounds::{SettlingTime, announce_interval, silence_span};
use crate::chosen::{Chosen, Ends};
use crate::far::is_nearer_at;
use gptp_scenario::Network;
use gptp_setup::interval_of;
use gptp_topology::{Standing, System};
use gptp_vector::{Identity, PortId};
use std::alloc::{AllocError, Global};

/// The interval of a port, as a logarithm to base 2 of seconds, where a system with this identity has such a port, by
/// the intervals of its ports.
fn log_by(identity: Identity, logs: &[i8], port: &PortId) -> Option<i8>
    ensures { result ≡ log_by port.now identity logs.now }
{
    if identity.clock() == port.clock {
        logs.get(usize::from(port.port.saturating_sub(1))).copied()
    } else {
        None
    }
}

/// The same of the system at a place, if there is one.
fn log_at(network: &Network, place: usize, port: &PortId) -> Option<i8>
    ensures { result ≡ option_and_then (log_if port.now) (slice_get network.now.systems place) }
{
    match network.system_at(place) {
        Some(system) => log_by(system.0, system.4.as_slice(), port),
        None => None,
    }
}

/// The same of the first system that has such a port.
#[tactic(auto, using(crate::proofs::SilentLemmas::log_here, crate::proofs::SilentLemmas::log_passed))]
fn log_from(network: &Network, port: &PortId) -> Option<i8>
    ensures { result ≡ log_from port.now network.now.systems }
{
    for place in 0..network.systems() {
        if let Some(log) = log_at(network, place, port) {
            return Some(log);
        }
    }
    None
}

/// The same, between -4 and 4.
fn log_of(network: &Network, port: &PortId) -> Option<i8>
    ensures is { result ≡ log_from port.now network.now.systems }
    ensures range { IfSome result IsLog }
{
    network.well_formed();
    log_from(network, port)
}

/// Whether the intervals of ports count at a time, by the time before.
pub(crate) fn own_intervals(network: &Network, before: Option<SettlingTime>, at: u64) -> bool
    ensures { result ≡ own_intervals network.now before at }
{
    match before {
        Some(before) => {
            let past = announce_interval(network) + longest_span(network);
            u128::from(before.at) + u128::from(past) < u128::from(at)
        }
        None => false,
    }
}

/// A receipt timeout of so many intervals as the network has it, in ns.
#[tactic(auto, using(gptp_scenario::proofs::SpanLemmas::few_spans))]
fn timeout_by(network: &Network, log: i8) -> u64
    requires { IsLog log }
    ensures is { result ≡ network.now.params.timeout * interval_of log }
    ensures bound { result ≤ 160000000000 }
{
    network.well_formed();
    u64::from(network.params().timeout) * interval_of(log)
}

/// The longest receipt timeout, in ns.
fn longest_span(network: &Network) -> u64
    ensures is { result ≡ longest_span (pace_of network.now) }
    ensures bound { result ≤ 160000000000 }
{
    timeout_by(network, network.largest())
}

/// For how long it is held what a port told, in ns, where the intervals of ports count or don't.
fn hold_span(network: &Network, own: bool, port: &PortId) -> u64
    ensures is { result ≡ hold_span network.now own port.now }
    ensures bound { result ≤ 160000000000 }
{
    if own {
        match log_of(network, port) {
            Some(log) => timeout_by(network, log),
            None => longest_span(network),
        }
    } else {
        longest_span(network)
    }
}

/// For how long it counts what a port told over a link with this greatest delay, in ns.
fn held_from(network: &Network, own: bool, delay: u64, port: &PortId) -> u64
    ensures is { result ≡ held_from network.now own delay port.now }
    ensures bound { result ≤ 4112000000000 }
{
    let silence = silence_span(network);
    if delay < silence {
        (hold_span(network, own, port) + delay).min(silence)
    } else {
        silence
    }
}

/// The same where its system has failed; else 0.
fn held_end(network: &Network, own: bool, delay: u64, port: &PortId, lives: bool) -> u64
    ensures is { result ≡ held_end network.now own delay port.now lives }
    ensures bound { result ≤ 4112000000000 }
{
    if lives {
        0
    } else {
        held_from(network, own, delay, port)
    }
}

/// For how long it counts what came over a link of which an end has failed, in ns; 0 where both live.
fn held_over(network: &Network, own: bool, standing: &Standing) -> u64
    ensures is { result ≡ held_over network.now own standing.now }
    ensures bound { result ≤ 4112000000000 }
{
    let cable = &standing.cable;
    let delay = cable.bounds.max;
    let a = held_end(network, own, delay, &cable.a, standing.a_lives);
    let b = held_end(network, own, delay, &cable.b, standing.b_lives);
    a.max(b)
}

/// Whether the system at a place is there, and lives.
pub(crate) fn is_live(systems: &[System], place: usize) -> bool
    ensures { result ≡ is_live (slice_get systems.now place) }
{
    match systems.get(place) {
        Some(system) => system.lives,
        None => false,
    }
}

/// Whether the system at the one place lives, and was the far end of a link with that at the other.
pub(crate) fn hears(systems: &[System], before: &[Chosen], one: usize, other: usize) -> bool
    ensures { result ≡ hears systems.now before.now one other }
{
    is_live(systems, one) && is_nearer_at(systems, before, other, one)
}

/// Whether so it is of an end of the link at a place, if there is one.
fn hears_over(systems: &[System], before: &[Chosen], ends: &[Ends], place: usize) -> bool
    ensures { result ≡ hears_over systems.now before.now (slice_get ends.now place) }
{
    match ends.get(place) {
        Some(ends) => {
            hears(systems, before, ends.a, ends.b) || hears(systems, before, ends.b, ends.a)
        }
        None => false,
    }
}

/// Whether a link was in use before, and its far end hears it.
fn is_heard(used_before: bool, heard: bool) -> bool
    ensures { result ≡ (used_before && heard) }
{
    used_before && heard
}

/// Which links were in use before and have a far end that lives, where the systems had chosen so.
pub(crate) fn heard_links(
    alloc: Global,
    systems: &[System],
    before: &[Chosen],
    used_before: &[bool],
    ends: &[Ends],
) -> Result<Vec<bool>, AllocError>
    ensures { IfOk result (λ heard. heard.items
        ≡ heard_links systems.now before.now used_before.now ends.now) }
{
    let mut heard = Vec::new(alloc);
    for place in 0..used_before.len() {
        let hears = hears_over(systems, before, ends, place);
        heard.push(is_heard(used_before[place], hears))?;
    }
    Ok(heard)
}

/// Whether a link is silent, by whether it was in use before.
fn is_silent(used_before: bool, standing: &Standing) -> bool
    ensures { result ≡ is_silent used_before standing.now }
{
    let one_lives = (standing.a_lives && !standing.b_lives)
        || (standing.b_lives && !standing.a_lives);
    used_before && standing.cable.up && one_lives
}

/// Whether the link at a place is, if there is one.
fn is_silent_at(used_before: &[bool], standings: &[Standing], place: usize) -> bool
    ensures { result ≡ is_silent_at used_before.now standings.now place }
{
    match used_before.get(place) {
        Some(used_before) => match standings.get(place) {
            Some(standing) => is_silent(*used_before, standing),
            None => false,
        },
        None => false,
    }
}

/// Whether one of these links is silent, by which of them were in use before.
pub(crate) fn any_silent(used_before: &[bool], standings: &[Standing]) -> bool
    ensures { result ≡ any_silent used_before.now standings.now }
{
    (0..used_before.len()).any(|place| is_silent_at(used_before, standings, place))
}

/// The same where its far end hears it, and it is up; else 0.
fn held_one(network: &Network, own: bool, heard: bool, standing: &Standing) -> u64
    ensures is { result ≡ held_one network.now own heard standing.now }
    ensures bound { result ≤ 4112000000000 }
{
    if heard && standing.cable.up {
        held_over(network, own, standing)
    } else {
        0
    }
}

/// The same over the link at a place, if there is one.
fn held_at(network: &Network, own: bool, heard: bool, standings: &[Standing], place: usize) -> u64
    ensures is { result ≡ held_at network.now own heard (slice_get standings.now place) }
    ensures bound { result ≤ 4112000000000 }
{
    match standings.get(place) {
        Some(standing) => held_one(network, own, heard, standing),
        None => 0,
    }
}

/// The longest over these links, by which of them have a far end that lives, in ns; 0 where none of these is silent.
pub(crate) fn held_among(
    network: &Network,
    own: bool,
    heard: &[bool],
    standings: &[Standing],
) -> u64
    ensures is { result ≡ held_among network.now own heard.now standings.now }
    ensures bound { result ≤ 4112000000000 }
{
    let mut held = 0;
    for place in 0..heard.len() {
        held = held_at(network, own, heard[place], standings, place).max(held);
    }
    held
}
