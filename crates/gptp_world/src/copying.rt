//! Equal worlds.

ghost use Rattle.std.specs.Prelude.{◌≡◌, ◌++◌, ◌∷◌, [], IfOk, OnOk};

use crate::buffers::Buffers;
use crate::net::Net;
use crate::world::World;
use crate::world_core::WorldCore;
use crate::world_parts::WorldParts;
use gptp_links::Fate;
use gptp_model::Station;
use gptp_system::Outbox;
use std::alloc::{AllocError, Global};

/// An equal station. Refused for want of memory alone.
fn copy_station(alloc: Global, station: &Station) -> Result<Station, AllocError>
    ensures { IfOk result (λ copy. copy ≡ station.now) }
{
    let system = station.system.copy(alloc)?;
    Ok(Station {
        setup: station.setup.copy(),
        system,
        live: station.live,
    })
}

/// Puts an equal station behind others.
fn push_station(
    alloc: Global,
    stations: &mut Vec<Station>,
    station: &Station,
) -> Result<(), AllocError>
    ensures { OnOk result (stations.new.items ≡ stations.old.items ++ station.now ∷ []) }
{
    stations.push(copy_station(alloc, station)?)?;
    Ok(())
}

/// Equal stations. Refused for want of memory alone.
fn copy_stations(alloc: Global, stations: &[Station]) -> Result<Vec<Station>, AllocError>
    ensures { IfOk result (λ copies. copies.items ≡ stations.now) }
{
    let mut copies = Vec::with_capacity(alloc, stations.len())?;
    for station in stations {
        push_station(alloc, &mut copies, station)?;
    }
    Ok(copies)
}

impl Net {
    ghost use Rattle.std.specs.Prelude.{◌≡◌, IfOk};

    /// The same is between the systems, but for the room that there is. Refused for want of memory alone.
    fn copy(&self, alloc: Global) -> Result<Self, AllocError>
        ensures directory { IfOk result (λ net. net.directory ≡ self.now.directory) }
        ensures traffic { IfOk result (λ net. net.traffic ≡ record self.now.traffic { room = 0 }) }
    {
        Ok(Net {
            directory: self.directory.copy(alloc)?,
            traffic: self.traffic.copy(alloc)?,
            buffers: Buffers::new(alloc),
        })
    }
}

impl WorldParts {
    ghost use Rattle.std.specs.Prelude.{◌≡◌, IfOk};
    ghost use Rattle.gptp_world.specs.WorldParts.{world_of, IsWorldParts};

    /// The same parts, but for the room that there is. Refused for want of memory alone.
    fn copy(&self, alloc: Global) -> Result<Self, AllocError>
        requires { IsWorldParts self.now }
        ensures parts { IfOk result IsWorldParts }
        ensures world { IfOk result (λ parts. world_of parts ≡ world_of self.entry.now) }
    {
        Ok(WorldParts {
            now: self.now,
            last_change: self.last_change,
            stations: copy_stations(alloc, &self.stations)?,
            net: self.net.copy(alloc)?,
            outbox: Outbox::new(),
        })
    }
}

impl WorldCore {
    ghost use Rattle.std.specs.Prelude.{◌≡◌, IfOk};

    /// An equal world. Refused for want of memory alone.
    fn copy(&self) -> Result<Self, AllocError>
        ensures { IfOk result (λ world_core. world_core ≡ self.now) }
    {
        let alloc = self.alloc();
        let parts = self.parts.copy(alloc)?;
        Ok(WorldCore { parts })
    }
}

impl<F: Fate + Clone + Drop> World<F> {
    ghost use Rattle.std.specs.Prelude.{◌≡◌, IfOk};

    /// An equal world, with a clone of the fate: whatever happens in one of the two, the other stays as it is. Refused
    /// for want of memory, or where the fate can't be cloned.
    pub fn copy(&self) -> Result<Self, AllocError>
        ensures world_core { IfOk result (λ world. world.world_core ≡ self.now.world_core) }
        ensures fate { IfOk result (λ world. F.is_clone self.now.fate world.fate) }
    {
        let fate = self.fate.clone()?;
        Ok(World {
            world_core: self.world_core.copy()?,
            fate,
        })
    }
}
