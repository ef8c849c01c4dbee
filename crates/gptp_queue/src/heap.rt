//! Entries that were put in any order.

ghost use Rattle.std.specs.Prelude.{◌≡◌, ◌+◌, ◌<◌, ◌≤◌, [], IfOk, OnOk};
ghost use Rattle.gptp_queue.specs.Order.{among, first_of, Adds, IsLeastOf, IsSwept, Takes};

use crate::entry::Entry;
use crate::maybe_entry::MaybeEntry;
use crate::table::Table;
use std::alloc::{AllocError, Global};
use std::cmp::Reverse;
use std::collections::BinaryHeap;
use std::marker::Model;

/// Entries of which the least is first. It is seen as their list, and how many more can be put.
#[derive(Drop)]
pub(crate) struct Heap {
    entries: BinaryHeap<Reverse<Entry>>,
}

impl Model for Heap {
    ghost use Rattle.std.specs.Prelude.{◌-◌, map};
    ghost use Rattle.std.specs.BinaryHeap.{heap_items, heap_len, heap_capacity, IsHeap};
    ghost use Rattle.gptp_queue.specs.Order.{due_first, HeapState};

    ghost Value = { HeapState };

    ghost view = { λ h. record {
      entries = map (λ e. e.0) (heap_items h.entries);
      room = heap_capacity h.entries - heap_len h.entries;
    } };

    ghost invariant = { λ h. IsHeap due_first (heap_items h.entries) };
}

impl Heap {
    /// No entry. Takes no memory.
    pub fn new(alloc: Global) -> Self
        ensures { result.entries ≡ [] }
    {
        Heap {
            entries: BinaryHeap::new(alloc),
        }
    }

    /// A heap with the same entries. Refused for want of memory alone.
    pub fn copy(&self) -> Result<Self, AllocError>
        ensures { IfOk result (λ heap. heap.entries ≡ self.now.entries) }
    {
        Ok(Heap {
            entries: self.entries.clone()?,
        })
    }

    /// The first entry, if there is one: the least.
    pub fn first(&self) -> MaybeEntry
        ensures first { result ≡ first_of self.now.entries }
        ensures least { IsLeastOf (among self.now.entries) result }
    {
        match self.entries.peek() {
            Some(Reverse(entry)) => MaybeEntry::of(*entry),
            None => MaybeEntry::none(),
        }
    }

    /// How many more entries there is room for.
    pub fn room(&self) -> usize
        ensures { result ≡ self.now.room }
    {
        self.entries.capacity() - self.entries.len()
    }

    /// Puts an entry.
    pub fn put(&mut self, entry: Entry)
        requires { 0 < self.old.room }
        ensures put { Adds self.old.entries self.new.entries entry }
        ensures room { self.old.room ≤ self.new.room + 1 }
    {
        let _ = self.entries.push(Reverse(entry));
    }

    /// Takes the first entry out.
    pub fn take(&mut self)
        ensures taken { Takes self.old.entries self.new.entries (first_of self.old.entries) }
        ensures room { self.old.room ≤ self.new.room }
    {
        self.entries.pop();
    }

    /// Makes room for so many more entries. What the table no longer has is dropped before.
    pub fn reserve(&mut self, additional: usize, table: &Table) -> Result<(), AllocError>
        ensures swept { IsSwept table.now.entries self.old.entries self.new.entries }
        ensures room { self.old.room ≤ self.new.room }
        ensures ok { OnOk result (additional ≤ self.new.room) }
    {
        self.sweep(table);
        self.entries.reserve(additional)
    }

    /// Drops what the table no longer has.
    fn sweep(&mut self, table: &Table)
        ensures swept { IsSwept table.now.entries self.old.entries self.new.entries }
        ensures room { self.old.room ≤ self.new.room }
    {
        self.entries.retain(|Reverse(entry)| table.holds(entry));
    }
}
