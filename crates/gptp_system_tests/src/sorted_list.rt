//! A plain sorted list, which answers as an agenda has to, and a row of numbers that looks drawn.

use std::alloc::{AllocError, Global};

/// Entries by time and then by number, each with its item.
#[derive(Drop)]
pub struct SortedList {
    next: u64,
    entries: Vec<(u64, u64, u64)>,
}

impl SortedList {
    /// No entry.
    pub fn new(alloc: Global) -> Self {
        SortedList {
            next: 0,
            entries: Vec::new(alloc),
        }
    }

    /// The number that the next entry gets.
    pub fn next_number(&self) -> u64 {
        self.next
    }

    /// Puts an entry after all that are due no later.
    pub fn put(&mut self, time: u64, item: u64) -> Result<u64, AllocError> {
        let number = self.next;
        let place = self.entries.partition_point(|one| one.0 <= time);
        self.entries.insert(place, (time, number, item))?;
        self.next = number.wrapping_add(1);
        Ok(number)
    }

    /// The time and the number of the least entry.
    pub fn first(&self) -> Option<(u64, u64)> {
        let least = self.entries.first()?;
        Some((least.0, least.1))
    }

    /// Takes the least entry out, where it is due.
    pub fn take_due(&mut self, now: u64) -> Option<(u64, u64, u64)> {
        let least = *self.entries.first()?;
        if now < least.0 {
            return None;
        }
        self.entries.remove(0);
        Some(least)
    }

    /// Takes the entry of a number out.
    pub fn cancel(&mut self, number: u64) -> Option<u64> {
        let place = self.entries.iter().position(|one| one.1 == number)?;
        let entry = self.entries.remove(place);
        Some(entry.2)
    }
}

/// The next of a row of numbers that looks drawn.
pub fn draw(state: &mut u64) -> u64 {
    *state = state
        .wrapping_mul(6_364_136_223_846_793_005)
        .wrapping_add(1_442_695_040_888_963_407);
    *state >> 24
}
