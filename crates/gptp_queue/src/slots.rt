//! The slots of a ring, and which of them have an entry.

ghost use Rattle.std.specs.Prelude.{◌≡◌, ◌≢◌, ℕ, ◌-◌, ◌<◌, ◌≤◌, [], ◌∷◌, ◌++◌, length, slice_set, true, IfOk, IfSome, IfNone, OnOk};
ghost use Rattle.gptp_queue.specs.Order.{first_of, part_at, rest_of, Within};
ghost use Rattle.gptp_queue.specs.Slots.{IsFirstFrom};
ghost use Rattle.gptp_queue.specs.Entry.{Entry};

use crate::entry::Entry;
use crate::maybe_entry::MaybeEntry;
use gptp_chain::Queues;
use std::alloc::{AllocError, Global};
use std::marker::Model;

/// How many slots there are.
pub(crate) const SLOTS: usize = 2048;

/// The entries of each of 2,048 slots, in order of putting. It is seen as the list of them, and how many more can be
/// put.
#[derive(Drop)]
pub(crate) struct Slots {
    // Bit `slot % 64` of the word `slot / 64` says whether a slot has an entry.
    filled: [u64; 32],
    // The entries of each slot.
    entries: Queues<Entry>,
}

impl Model for Slots {
    ghost use Rattle.gptp_chain.specs.Queues.{QueuesState};
    ghost use Rattle.gptp_queue.specs.Entry.{Entry as Due};
    ghost use Rattle.gptp_queue.specs.Slots.{AreFilled};

    ghost Value = { QueuesState Due };

    ghost view = { λ s. s.entries };

    ghost invariant = { λ s. AreFilled s.filled s.entries.queues };
}

impl Slots {
    /// No entry.
    pub fn new(alloc: Global) -> Result<Self, AllocError>
        ensures none { IfOk result (λ slots. (e : Entry) → Within slots.queues e → ⊥) }
        ensures len { IfOk result (λ slots. length slots.queues ≡ 2048) }
    {
        let entries = Queues::new(alloc, SLOTS)?;
        Ok(Slots {
            filled: [0; 32],
            entries,
        })
    }

    /// Slots with the same entries. Refused for want of memory alone.
    pub fn copy(&self, alloc: Global) -> Result<Self, AllocError>
        ensures { IfOk result (λ slots. slots.queues ≡ self.now.queues) }
    {
        Ok(Slots {
            filled: self.filled,
            entries: self.entries.copy(alloc)?,
        })
    }

    /// How many more entries there is room for.
    pub fn room(&self) -> usize
        ensures { result ≡ self.now.room }
    {
        self.entries.room()
    }

    /// Whether there is no entry.
    pub fn is_empty(&self) -> bool
        ensures { result ≡ true → (e : Entry) → Within self.now.queues e → ⊥ }
    {
        self.entries.are_empty()
    }

    /// There are 2,048 slots.
    pub fn are_many(&self)
        ensures { length self.now.queues ≡ 2048 }
    {
        let _ = &self.entries;
    }

    /// Makes room for so many more entries.
    pub fn reserve(&mut self, additional: usize) -> Result<(), AllocError>
        ensures kept { self.new.queues ≡ self.old.queues }
        ensures room { self.old.room ≤ self.new.room }
        ensures ok { OnOk result (additional ≤ self.new.room) }
    {
        self.entries.reserve(additional)
    }

    /// Puts an entry behind the others of a slot.
    pub fn push(&mut self, slot: usize, entry: Entry)
        requires slot { slot < 2048 }
        requires room { 0 < self.old.room }
        ensures queues { self.new.queues ≡ slice_set self.old.queues slot (part_at self.old.queues slot ++ entry ∷ []) }
        ensures room { self.new.room ≡ self.old.room - 1 }
    {
        self.entries.push(slot, entry);
        self.filled[slot / 64] |= 1 << (slot % 64);
    }

    /// Takes the first entry of a slot out.
    pub fn pop(&mut self, slot: usize)
        requires slot { slot < 2048 }
        ensures queues { self.new.queues ≡ slice_set self.old.queues slot (rest_of (part_at self.old.queues slot)) }
        ensures room { self.old.room ≤ self.new.room }
    {
        self.entries.pop(slot);
        if self.entries.is_empty(slot) {
            self.filled[slot / 64] &= !(1 << (slot % 64));
        }
    }

    /// The first entry of a slot, if there is one.
    pub fn first(&self, slot: usize) -> MaybeEntry
        requires { slot < 2048 }
        ensures { result ≡ first_of (part_at self.now.queues slot) }
    {
        match self.entries.first(slot) {
            Some(entry) => MaybeEntry::of(*entry),
            None => MaybeEntry::none(),
        }
    }

    /// The first slot from one on that has an entry.
    pub fn first_from(&self, low: usize) -> Option<usize>
        requires { low < 2048 }
        ensures some { IfSome result (λ slot. IsFirstFrom self.now.queues low slot) }
        ensures none { IfNone result ((k : ℕ) → low ≤ k → k < 2048 → part_at self.now.queues k ≡ []) }
    {
        let ahead = self.filled[low / 64] >> (low % 64);
        if ahead != 0 {
            return Some(low + ahead.trailing_zeros() as usize);
        }
        for word in low / 64 + 1..32 {
            let filled = self.filled[word];
            if filled != 0 {
                return Some(word * 64 + filled.trailing_zeros() as usize);
            }
        }
        None
    }
}
