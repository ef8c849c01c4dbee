//! A world made of a network.

ghost use Rattle.std.specs.Prelude.{◌≡◌, ◌<◌, length, map, IfOk, Some, slice_get};
ghost use Rattle.gptp_model.specs.Initial.{channels_of, stations_of};
ghost use Rattle.gptp_scenario.specs.Network.{seeded};
ghost use Rattle.gptp_traffic.specs.Traffic.{idle_channel};

use crate::buffers::Buffers;
use crate::directory::Directory;
use crate::net::Net;
use crate::world_parts::WorldParts;
use gptp_model::{Network, Station};
use gptp_system::{Outbox, Setup, System};
use gptp_traffic::{Join, JoinedLink, Traffic};
use std::alloc::{AllocError, Global};

impl WorldParts {
    ghost use Rattle.std.specs.Prelude.{◌≡◌, IfOk};
    ghost use Rattle.gptp_model.specs.Initial.{initial};
    ghost use Rattle.gptp_world.specs.WorldParts.{world_of, IsWorldParts};

    /// The world of a network at time 0, before its systems start, which draw noise from this seed. Refused for want of
    /// memory alone.
    pub(crate) fn found(alloc: Global, network: &Network, seed: u64) -> Result<Self, AllocError>
        ensures parts { IfOk result IsWorldParts }
        ensures world { IfOk result (λ parts. world_of parts ≡ initial (seeded seed network.now)) }
    {
        network.well_formed();
        let stations = list_stations(alloc, network, seed)?;
        let net = Net::found(alloc, network)?;
        Ok(WorldParts {
            now: 0,
            last_change: 0,
            stations,
            net,
            outbox: Outbox::new(),
        })
    }
}

impl Net {
    ghost use Rattle.std.specs.Prelude.{◌≡◌, length, IfOk};
    ghost use Rattle.gptp_world.specs.Directory.{directory_clocks, joins_of};
    ghost use Rattle.gptp_model.specs.Initial.{idle};
    ghost use Rattle.gptp_world.specs.Net.{between, IsNet};

    /// The links of a network, with nothing in flight or pending. Refused for want of memory alone.
    fn found(alloc: Global, network: &Network) -> Result<Self, AllocError>
        ensures net { IfOk result IsNet }
        ensures between { IfOk result (λ net. between net ≡ idle network.now) }
        ensures clocks { IfOk result (λ net. net.directory.clocks ≡ directory_clocks network.now.systems) }
        ensures joins { IfOk result (λ net. net.directory.joins ≡ joins_of network.now.links) }
        ensures systems { IfOk result (λ net. net.traffic.systems ≡ length network.now.systems) }
    {
        network.well_formed();
        let directory = Directory::new(alloc, network)?;
        let links = list_links(alloc, network)?;
        let traffic = Traffic::new(alloc, network.systems(), links)?;
        Ok(Net {
            directory,
            traffic,
            buffers: Buffers::new(alloc),
        })
    }
}

/// The systems of a network, before they start, which draw noise from this seed.
fn list_stations(alloc: Global, network: &Network, seed: u64) -> Result<Vec<Station>, AllocError>
    ensures { IfOk result (λ v. v.items ≡ stations_of (seeded seed network.now)) }
{
    let mut stations = Vec::with_capacity(alloc, network.systems())?;
    for place in 0..network.systems() {
        stations.push(station_in(alloc, network, place, seed)?)?;
    }
    Ok(stations)
}

/// The system at a place of a network, before it starts, which draws noise from this seed. Refused for want of memory
/// alone.
fn station_in(
    alloc: Global,
    network: &Network,
    place: usize,
    seed: u64,
) -> Result<Station, AllocError>
    requires { place < length network.now.systems }
    ensures { IfOk result (λ s. slice_get (stations_of (seeded seed network.now)) place ≡ Some s) }
{
    network.well_formed();
    let (identity, ports, phase, drift, intervals) = network.system_at(place).unwrap();
    let continues = network.continues_at(place).unwrap();
    let largest = network.largest();
    let setup = Setup {
        identity,
        ports,
        phase,
        drift,
        continues,
        intervals,
        largest,
        seed,
        params: network.params(),
    };
    let system = System::new(alloc, setup.copy(), 0)?;
    Ok(Station {
        setup,
        system,
        live: false,
    })
}

/// The links of a network.
fn list_links(alloc: Global, network: &Network) -> Result<Vec<JoinedLink>, AllocError>
    ensures { IfOk result (λ v. map idle_channel v.items ≡ channels_of network.now) }
{
    let mut links = Vec::with_capacity(alloc, network.links())?;
    for place in 0..network.links() {
        links.push(link_in(network, place))?;
    }
    Ok(links)
}

/// The link at a place of a network.
fn link_in(network: &Network, place: usize) -> JoinedLink
    requires { place < length network.now.links }
    ensures { slice_get (channels_of network.now) place ≡ Some (idle_channel result) }
{
    let (a, b, bounds, up) = network.link_at(place).unwrap();
    JoinedLink {
        join: Join { a, b },
        bounds,
        up,
    }
}
