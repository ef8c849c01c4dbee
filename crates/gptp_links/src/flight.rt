//! Frames in flight, and what leads to one.

ghost use Rattle.std.specs.Prelude.{◌≡◌};
ghost use Rattle.std.specs.Option.{option_map};
ghost use Rattle.slab.specs.Slab.{get, Updates};
ghost use Rattle.gptp_links.specs.Flights.{due_at, with_next_flight, SameRoom};

use slab::Slab;
use std::alloc::AllocError;

/// Where a frame in flight stands among the others.
#[derive(Clone, Copy)]
pub(crate) struct Key {
    pub(crate) place: usize,
}

/// A frame in flight, when it is due, in ns, and the one that was sent next in its direction.
#[derive(Drop)]
pub(crate) struct Flight {
    pub(crate) due: u64,
    pub(crate) octets: Vec<u8>,
    // It leads anywhere where nothing was sent after this.
    pub(crate) next: Key,
}

impl Clone for Flight {
    ghost use Rattle.gptp_links.specs.Flights.{IsSameFlight};

    ghost is_clone = { IsSameFlight };

    fn clone(&self) -> Result<Self, AllocError> {
        Ok(Flight {
            due: self.due,
            octets: self.octets.clone()?,
            next: self.next,
        })
    }
}

/// When a frame is due.
pub(crate) fn due_at(flights: &Slab<Flight>, key: Key) -> u64
    ensures { result ≡ due_at (get flights.now) key.place }
{
    match flights.get(key.place) {
        Some(flight) => flight.due,
        None => 0,
    }
}

/// Makes a frame lead to another.
pub(crate) fn set_next(flights: &mut Slab<Flight>, key: Key, next: Key)
    ensures updates { Updates flights.old flights.new key.place
        (option_map (with_next_flight next) (get flights.old key.place)) }
    ensures room { SameRoom flights.old flights.new }
{
    if let Some(flight) = flights.get_mut(key.place) {
        flight.next = next;
    }
}
