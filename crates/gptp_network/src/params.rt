//! The section `[network]`.

ghost use Rattle.std.specs.Prelude.{◌≡◌, ◌≤ℤ◌, pos, neg_ℤ, Ok, IfOk};
ghost use Rattle.toml.specs.View.{table_view};
ghost use Rattle.gptp_network.specs.Reading.{whole_at};
ghost use Rattle.gptp_network.specs.ReadParams.{params_why, read_network, read_network_in, read_params, read_section};
ghost use Rattle.gptp_network.specs.Why.{Stops, StopsAt};

use crate::keys::{
    ANNOUNCE, GRANULARITY, LOST, NOISE, Name, PDELAY, RESIDENCE, SYNC, SYNC_TIMEOUT, THRESHOLD,
    TIMEOUT, TURNAROUND, WINDOW, Whole,
};
use crate::place::Place;
use crate::values::{natural, table_in, whole};
use crate::why::{Refusal, Why};
use gptp_scenario::{Network, NetworkFault, Params};
use std::alloc::Global;
use toml::Table;

/// The logarithm to base 2 of an interval.
fn log_interval(section: &Table, key: Whole) -> Result<i8, Why>
    requires least { neg_ℤ (pos 128) ≤ℤ key.1 }
    requires most { key.2 ≤ℤ pos 127 }
    requires low { key.1 ≤ℤ key.3 }
    requires high { key.3 ≤ℤ key.2 }
    ensures { result ≡ whole_at key (table_view section.now) }
{
    let number = whole(section, key)?;
    Ok(number as i8)
}

/// Its values.
#[tactic(auto, unfolding(crate::specs::ReadParams::read_params))]
fn params_of(section: &Table) -> Result<Params, Why>
    ensures { result ≡ read_params (table_view section.now) }
{
    let announce = log_interval(section, ANNOUNCE)?;
    let sync = log_interval(section, SYNC)?;
    let pdelay = log_interval(section, PDELAY)?;
    let timeout = natural(section, TIMEOUT)? as u8;
    let lost = natural(section, LOST)? as u8;
    let threshold = natural(section, THRESHOLD)?;
    let turnaround = natural(section, TURNAROUND)?;
    let residence = natural(section, RESIDENCE)?;
    let sync_timeout = natural(section, SYNC_TIMEOUT)? as u8;
    let granularity = natural(section, GRANULARITY)? as u16;
    let noise = natural(section, NOISE)? as u16;
    let window = natural(section, WINDOW)? as u8;
    Ok(Params {
        announce,
        sync,
        pdelay,
        timeout,
        lost,
        threshold,
        turnaround,
        residence,
        sync_timeout,
        granularity,
        noise,
        window,
    })
}

/// Why a network can't have these values.
fn params_why(params: Params, fault: NetworkFault) -> Why
    ensures { result ≡ params_why params fault }
{
    match fault {
        NetworkFault::Timing => Why::Timing {
            params,
            announce: params.announce,
        },
        _ => Why::Other { fault },
    }
}

/// The network with these values, with no member yet.
#[tactic(auto, unfolding(crate::specs::ReadParams::read_section))]
fn network_of_section(alloc: Global, section: &Table) -> Result<Network, Why>
    ensures network { IfOk result (λ n. read_section (table_view section.now) ≡ Ok n) }
    ensures refused { Stops (read_section (table_view section.now)) result }
{
    let params = params_of(section)?;
    match Network::new(alloc, params) {
        Ok(network) => Ok(network),
        Err(fault) => Err(params_why(params, fault)),
    }
}

/// The network with the values of its section, with no member yet. A refusal names that section as its place.
fn network_in(alloc: Global, section: &Table) -> Result<Network, Refusal>
    ensures network { IfOk result (λ n. read_network_in (table_view section.now) ≡ Ok n) }
    ensures refused { StopsAt (read_network_in (table_view section.now)) result }
{
    match network_of_section(alloc, section) {
        Ok(network) => Ok(network),
        Err(why) => Err(Refusal {
            place: Place::Network,
            why,
        }),
    }
}

/// The network that a document describes, with no member yet.
#[tactic(auto, unfolding(crate::specs::ReadParams::read_network))]
pub(crate) fn network_of(alloc: Global, document: &Table) -> Result<Network, Refusal>
    ensures network { IfOk result (λ n. read_network (table_view document.now) ≡ Ok n) }
    ensures refused { StopsAt (read_network (table_view document.now)) result }
{
    match table_in(document, Name::Network) {
        Ok(Some(section)) => network_in(alloc, section),
        Ok(None) => network_in(alloc, &Table::new(alloc)),
        Err(why) => Err(Refusal {
            place: Place::Top,
            why,
        }),
    }
}
