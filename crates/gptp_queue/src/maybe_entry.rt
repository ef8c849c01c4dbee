//! An entry or none, in 24 octets.

ghost use Rattle.std.specs.Prelude.{◌≡◌, not, Option, Some, None, is_some};
ghost use Rattle.gptp_queue.specs.Order.{comes_first, precedes};

use crate::entry::Entry;
use std::marker::Model;

/// The number of no entry.
const NO_NUMBER: u64 = u64::MAX;

/// An entry, or none, which compares as later than any entry. It is seen as an option.
#[derive(Clone, Copy)]
pub(crate) struct MaybeEntry {
    time: u64,
    number: u64,
    place: usize,
}

impl Model for MaybeEntry {
    ghost use Rattle.std.specs.Prelude.{Option};
    ghost use Rattle.gptp_queue.specs.Entry.{Entry};
    ghost use Rattle.gptp_queue.specs.MaybeEntry.{fields_of, fields_back, entry_or_none, IsMaybeEntry};

    ghost Value = { Option Entry };

    ghost view = { λ h. entry_or_none h };

    ghost invariant = { λ h. IsMaybeEntry h };

    ghost inverse = { λ o. fields_of o };

    ghost inverse_ok = { λ h is. fields_back h is };
}

impl MaybeEntry {
    /// No entry.
    pub fn none() -> Self
        ensures { result ≡ None }
    {
        MaybeEntry {
            time: NO_NUMBER,
            number: NO_NUMBER,
            place: 0,
        }
    }

    /// This entry.
    pub fn of(entry: Entry) -> Self
        ensures { result ≡ Some entry }
    {
        MaybeEntry {
            time: entry.time,
            number: entry.number,
            place: entry.place,
        }
    }

    /// The entry, if there is one.
    pub fn get(&self) -> Option<Entry>
        ensures { result ≡ self.now }
    {
        if self.number == NO_NUMBER {
            return None;
        }
        Some(Entry {
            time: self.time,
            number: self.number,
            place: self.place,
        })
    }

    /// Whether there is none.
    pub fn is_none(&self) -> bool
        ensures { result ≡ not (is_some self.now) }
    {
        self.number == NO_NUMBER
    }

    /// Whether there is an entry, and it comes before another, or there is no other.
    pub fn comes_first(&self, other: &MaybeEntry) -> bool
        ensures { result ≡ comes_first self.now other.now }
    {
        self.time < other.time || (self.time == other.time && self.number < other.number)
    }

    /// Whether an entry comes before this, or there is none.
    pub fn follows(&self, entry: &Entry) -> bool
        ensures { result ≡ precedes entry.now self.now }
    {
        entry.time < self.time || (entry.time == self.time && entry.number < self.number)
    }
}
