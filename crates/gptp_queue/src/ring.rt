//! Entries that are due soon.

ghost use Rattle.std.specs.Prelude.{◌≡◌, ◌%◌, ◌<◌, ◌≤◌, true, false, IsSome, IfOk, IfSome, None};
ghost use Rattle.gptp_queue.specs.Order.{AddsTo, IsLeastOf, IsOrdered, TakesLeast, Within};
ghost use Rattle.gptp_queue.specs.Slots.{slot_of, IsNear};
ghost use Rattle.gptp_queue.specs.Entry.{Entry};

use crate::entry::Entry;
use crate::maybe_entry::MaybeEntry;
use crate::slots::{SLOTS, Slots};
use std::alloc::{AllocError, Global};
use std::marker::Model;

/// Entries due less than 2,048 ns after a base, each in the slot of its time. It is seen as the list of the slots, the
/// least of all entries, and how many more can be put.
#[derive(Drop)]
pub(crate) struct Ring {
    base: u64,
    slots: Slots,
    first: MaybeEntry,
}

impl Model for Ring {
    ghost use Rattle.gptp_queue.specs.Order.{OrderState};
    ghost use Rattle.gptp_queue.specs.Slots.{IsRing};

    ghost Value = { OrderState };

    ghost view = { λ r. record { parts = r.slots.queues; first = r.first; room = r.slots.room } };

    ghost invariant = { λ r. IsRing r.base r.slots.queues r.first };
}

impl Ring {
    /// No entry, and base 0.
    pub fn new(alloc: Global) -> Result<Self, AllocError>
        ensures first { IfOk result (λ ring. ring.first ≡ None) }
        ensures none { IfOk result (λ ring. IsLeastOf (Within ring.parts) None) }
    {
        Ok(Ring {
            base: 0,
            slots: Slots::new(alloc)?,
            first: MaybeEntry::none(),
        })
    }

    /// A ring with the same entries. Refused for want of memory alone.
    pub fn copy(&self, alloc: Global) -> Result<Self, AllocError>
        ensures parts { IfOk result (λ ring. ring.parts ≡ self.now.parts) }
        ensures first { IfOk result (λ ring. ring.first ≡ self.now.first) }
    {
        Ok(Ring {
            base: self.base,
            slots: self.slots.copy(alloc)?,
            first: self.first,
        })
    }

    /// The least entry, if there is one.
    pub fn first(&self) -> MaybeEntry
        ensures first { result ≡ self.now.first }
        ensures least { IsLeastOf (Within self.now.parts) result }
    {
        self.first
    }

    /// Makes room for so many more entries. Nothing else changes.
    pub fn reserve(&mut self, additional: usize) -> Result<(), AllocError>
        ensures parts { self.new.parts ≡ self.old.parts }
        ensures first { self.new.first ≡ self.old.first }
    {
        self.slots.reserve(additional)
    }

    /// Puts an entry whose number is above all, and answers whether it is near enough and finds room.
    pub fn put(&mut self, entry: Entry) -> bool
        requires { (e : Entry) → Within self.old.parts e → e.number ≤ entry.number }
        ensures put { result ≡ true → AddsTo (Within self.old.parts) (Within self.new.parts) entry }
        ensures refused { result ≡ false → self.new ≡ self.old }
    {
        if entry.time < self.base
            || entry.time - self.base >= SLOTS as u64
            || self.slots.room() == 0
        {
            return false;
        }
        self.slots.push(slot_of(&entry), entry);
        if self.first.follows(&entry) {
            self.first = MaybeEntry::of(entry);
        }
        true
    }

    /// Takes the least entry out.
    pub fn take(&mut self)
        requires { IsSome self.old.first }
        ensures taken { IfSome self.old.first (λ d. TakesLeast self.old.parts self.new.parts d) }
    {
        let first = self.first.get().unwrap();
        self.slots.pop(slot_of(&first));
        self.first = least_of(&self.slots, first.time);
    }

    /// The ring begins at this time, before which no entry is due; not where its base is later.
    pub fn move_base(&mut self, time: u64)
        requires { (e : Entry) → Within self.old.parts e → time ≤ e.time }
        ensures { self.new ≡ self.old }
    {
        if self.base < time {
            self.base = time;
        }
    }
}

/// The slot of an entry's time.
fn slot_of(entry: &Entry) -> usize
    ensures { result ≡ entry.now.time % 2048 }
{
    (entry.time % SLOTS as u64) as usize
}

/// The least of all entries, none of which is due before this time, or 2,048 ns after it.
fn least_of(slots: &Slots, low: u64) -> MaybeEntry
    requires { IsNear low slots.now.queues }
    ensures { IsOrdered slots.now.queues result (slot_of result) }
{
    slots.are_many();
    if slots.is_empty() {
        return MaybeEntry::none();
    }
    let start = (low % SLOTS as u64) as usize;
    match slots.first_from(start) {
        Some(slot) => slots.first(slot),
        None => match slots.first_from(0) {
            Some(slot) => slots.first(slot),
            None => MaybeEntry::none(),
        },
    }
}
