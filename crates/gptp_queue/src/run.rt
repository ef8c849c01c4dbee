//! Entries that are due one after the other.

ghost use Rattle.std.specs.Prelude.{◌≡◌, [], ◌∷◌, ◌++◌, true, false, IfOk};
ghost use Rattle.gptp_queue.specs.Order.{first_of, rest_of, IsSwept, Rise};

use crate::before::is_before;
use crate::entry::Entry;
use crate::maybe_entry::MaybeEntry;
use crate::table::Table;
use std::alloc::{AllocError, Global};
use std::collections::VecDeque;
use std::marker::Model;

/// Entries none of which is before one that was put earlier. It is seen as their list.
#[derive(Drop)]
pub(crate) struct Run {
    // The first entry, and those behind it.
    first: MaybeEntry,
    rest: VecDeque<Entry>,
}

impl Model for Run {
    ghost use Rattle.std.specs.Prelude.{List};
    ghost use Rattle.gptp_queue.specs.Order.{first_and, IsRun};
    ghost use Rattle.gptp_queue.specs.Entry.{Entry};

    ghost Value = { List Entry };

    ghost view = { λ r. first_and r.first r.rest.items };

    ghost invariant = { λ r. IsRun r.first r.rest.items };
}

impl Run {
    /// No entry. Takes no memory.
    pub fn new(alloc: Global) -> Self
        ensures { result ≡ [] }
    {
        Run {
            first: MaybeEntry::none(),
            rest: VecDeque::new(alloc),
        }
    }

    /// An equal run. Refused for want of memory alone.
    pub fn copy(&self) -> Result<Self, AllocError>
        ensures { IfOk result (λ run. run ≡ self.now) }
    {
        Ok(Run {
            first: self.first,
            rest: self.rest.clone()?,
        })
    }

    /// The first entry, if there is one.
    pub fn first(&self) -> MaybeEntry
        ensures first { result ≡ first_of self.now }
        ensures rise { Rise self.now }
    {
        self.first
    }

    /// Puts an entry behind the others, and answers whether it belongs there and found room.
    pub fn push(&mut self, entry: Entry) -> bool
        ensures pushed { result ≡ true → self.new ≡ self.old ++ entry ∷ [] }
        ensures refused { result ≡ false → self.new ≡ self.old }
        ensures rise { Rise self.new }
    {
        if self.first.is_none() {
            self.first = MaybeEntry::of(entry);
            return true;
        }
        if self.rest.len() == self.rest.capacity() || self.is_before_last(&entry) {
            return false;
        }
        self.rest.push_back_reserved(entry);
        true
    }

    /// Whether an entry is before the last.
    fn is_before_last(&self, entry: &Entry) -> bool
        ensures { result ≡ false → Rise (self.now ++ entry.now ∷ []) }
    {
        match self.rest.back() {
            Some(last) => is_before(entry, last),
            None => self.first.follows(entry),
        }
    }

    /// Takes the first entry out.
    pub fn take(&mut self)
        ensures { self.new ≡ rest_of self.old }
    {
        self.first = match self.rest.pop_front() {
            Some(entry) => MaybeEntry::of(entry),
            None => MaybeEntry::none(),
        };
    }

    /// Makes room for as many entries more as there are, where there is less. What the table no longer has is dropped
    /// before.
    pub fn grow(&mut self, table: &Table) -> Result<(), AllocError>
        ensures { IsSwept table.now.entries self.old self.new }
    {
        if self.rest.capacity() / 2 <= self.rest.len() {
            self.sweep(table);
            self.rest.reserve(self.rest.len().saturating_add(32))?;
        }
        Ok(())
    }

    /// Drops what the table no longer has, but not the first.
    fn sweep(&mut self, table: &Table)
        ensures { IsSwept table.now.entries self.old self.new }
    {
        self.rest.retain(|entry| table.holds(entry));
    }
}
