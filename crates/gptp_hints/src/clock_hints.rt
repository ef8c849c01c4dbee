//! Hints by clock.

use gptp_vector::ClockId;
use std::alloc::{AllocError, Global};

/// How many slots clocks have: few of 512 clocks share one.
const SLOTS: usize = 4096;

/// For each slot the place of a clock with that slot, if there is one.
#[derive(Drop)]
pub struct ClockHints {
    places: Vec<u16>,
}

impl ClockHints {
    /// Hints of no use yet. Refused for want of memory alone.
    pub fn new(alloc: Global) -> Result<Self, AllocError> {
        let places = vec![in alloc; 0; SLOTS]?;
        Ok(ClockHints { places })
    }

    /// A clock stands at this place from now on.
    pub fn put(&mut self, clock: ClockId, place: u16) {
        let slot = slot_of(clock);
        if slot < self.places.len() {
            self.places[slot] = place;
        }
    }

    /// The place that a clock was put at, unless one with the same slot was put after it. Nothing is promised of it:
    /// look whether the clock stands there.
    pub fn place(&self, clock: ClockId) -> usize {
        match self.places.get(slot_of(clock)) {
            Some(place) => usize::from(*place),
            None => 0,
        }
    }
}

/// The slot of a clock. Clocks at equal distances are spread evenly over the slots.
fn slot_of(clock: ClockId) -> usize {
    // 2^64 by the golden ratio
    (u64::from(clock).wrapping_mul(0x9E37_79B9_7F4A_7C15) >> 52) as usize
}
