//! Entries in order of time.

ghost use Rattle.std.specs.Prelude.{◌≡◌, ◌+◌, ◌<◌, ◌≤◌, true, false, IsSome, IfOk, IfSome, OnOk, None};
ghost use Rattle.gptp_queue.specs.Order.{first_of_both, AddsTo, IsLeastOf, Sweeps, TakesLeast, Within};
ghost use Rattle.gptp_queue.specs.Entry.{Entry};

use crate::entry::Entry;
use crate::far::Far;
use crate::maybe_entry::MaybeEntry;
use crate::ring::Ring;
use crate::table::Table;
use std::alloc::{AllocError, Global};
use std::marker::Model;

/// Entries in a ring, in runs and in a heap. It is seen as the list of these parts, the least of all entries, and how
/// many more can be put.
#[derive(Drop)]
pub(crate) struct Order {
    ring: Ring,
    far: Far,
}

impl Model for Order {
    ghost use Rattle.std.specs.Prelude.{◌++◌};
    ghost use Rattle.gptp_queue.specs.Order.{first_of_both, OrderState};

    ghost Value = { OrderState };

    ghost view = { λ o. record {
      parts = o.ring.parts ++ o.far.parts;
      first = first_of_both o.ring.first o.far.first;
      room = o.far.room;
    } };
}

impl Order {
    /// No entry, with a run for so many kinds.
    pub fn new(alloc: Global, kinds: usize) -> Result<Self, AllocError>
        ensures first { IfOk result (λ order. order.first ≡ None) }
        ensures none { IfOk result (λ order. IsLeastOf (Within order.parts) None) }
    {
        let ring = Ring::new(alloc)?;
        let far = Far::new(alloc, kinds)?;
        Ok(Order { ring, far })
    }

    /// The same entries, in the same parts. Refused for want of memory alone.
    pub fn copy(&self, alloc: Global) -> Result<Self, AllocError>
        ensures parts { IfOk result (λ order. order.parts ≡ self.now.parts) }
        ensures first { IfOk result (λ order. order.first ≡ self.now.first) }
    {
        Ok(Order {
            ring: self.ring.copy(alloc)?,
            far: self.far.copy(alloc)?,
        })
    }

    /// The least entry, if there is one.
    pub fn first(&self) -> MaybeEntry
        ensures first { result ≡ self.now.first }
        ensures least { IsLeastOf (Within self.now.parts) result }
    {
        let near = self.ring.first();
        let far = self.far.first();
        if near.comes_first(&far) { near } else { far }
    }

    /// How many more entries there is room for.
    pub fn room(&self) -> usize
        ensures { result ≡ self.now.room }
    {
        self.far.room()
    }

    /// Puts an entry whose number is above all. One whose kind has no run comes to the ring, where it is near enough.
    pub fn put(&mut self, kind: usize, entry: Entry)
        requires room { 0 < self.old.room }
        requires highest { (e : Entry) → Within self.old.parts e → e.number ≤ entry.number }
        ensures put { AddsTo (Within self.old.parts) (Within self.new.parts) entry }
        ensures room { self.old.room ≤ self.new.room + 1 }
    {
        if !self.put_near(kind, entry) {
            self.far.put(kind, entry);
        }
    }

    /// Puts an entry whose kind has no run into the ring, and answers whether it is near enough and found room.
    fn put_near(&mut self, kind: usize, entry: Entry) -> bool
        requires { (e : Entry) → Within self.old.parts e → e.number ≤ entry.number }
        ensures put { result ≡ true → AddsTo (Within self.old.parts) (Within self.new.parts) entry }
        ensures refused { result ≡ false → self.new ≡ self.old }
        ensures room { self.new.room ≡ self.old.room }
    {
        self.far.kinds() <= kind && self.ring.put(entry)
    }

    /// Takes the least entry out.
    #[inline(always)]
    pub fn take(&mut self)
        requires { IsSome self.old.first }
        ensures taken { IfSome self.old.first (λ d. TakesLeast self.old.parts self.new.parts d) }
        ensures room { self.old.room ≤ self.new.room }
    {
        if self.ring.first().comes_first(&self.far.first()) {
            self.ring.take();
        } else {
            self.far.take();
        }
    }

    /// The ring begins at this time, before which no entry is due.
    pub fn move_base(&mut self, time: u64)
        requires { (e : Entry) → Within self.old.parts e → time ≤ e.time }
        ensures { self.new ≡ self.old }
    {
        self.ring.move_base(time);
    }

    /// Makes room for so many more entries. What the table no longer has may be dropped.
    pub fn reserve(&mut self, additional: usize, table: &Table) -> Result<(), AllocError>
        ensures swept { Sweeps table.now.entries (Within self.old.parts) (Within self.new.parts) }
        ensures least { IsLeastOf (Within self.new.parts) self.new.first }
        ensures room { self.old.room ≤ self.new.room }
        ensures ok { OnOk result (additional ≤ self.new.room) }
    {
        let grown = grow(&mut self.ring, &mut self.far, additional, table);
        let _ = self.first();
        grown
    }
}

/// Makes room for so many more entries in both.
fn grow(ring: &mut Ring, far: &mut Far, additional: usize, table: &Table) -> Result<(), AllocError>
    ensures ring { ring.new.parts ≡ ring.old.parts }
    ensures first { ring.new.first ≡ ring.old.first }
    ensures swept { Sweeps table.now.entries (Within far.old.parts) (Within far.new.parts) }
    ensures room { far.old.room ≤ far.new.room }
    ensures ok { OnOk result (additional ≤ far.new.room) }
{
    ring.reserve(additional)?;
    far.reserve(additional, table)
}
