//! Frames in flight.

use gptp_model::Carried;
use std::alloc::AllocError;
use std::marker::Model;

/// A frame in flight: its place in the queue, when it is due, in ns, and what the link carries.
#[derive(Drop)]
pub(crate) struct Flight {
    pub place: usize,
    pub due: u64,
    pub carried: Carried,
}

impl Model for Flight {
    ghost use Rattle.gptp_traffic.specs.Flight.{FlightState};

    ghost Value = { FlightState };

    ghost view = { λ f. record { place = f.place; due = f.due; octets = f.carried.items } };
}

impl Clone for Flight {
    ghost use Rattle.std.specs.Prelude.{◌≡◌};

    ghost is_clone = { λ flight copy. copy ≡ flight };

    fn clone(&self) -> Result<Self, AllocError> {
        Ok(Flight {
            place: self.place,
            due: self.due,
            carried: self.carried.clone()?,
        })
    }
}
