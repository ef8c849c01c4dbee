//! Entries of any time: a run for each kind, and a heap for those that are put out of order.

ghost use Rattle.std.specs.Prelude.{◌≡◌, ◌+◌, ◌<◌, ◌≤◌, ◌∷◌, ◌++◌, [], length, true, false, IsSome, IfOk, IfSome, OnOk, None, slice_set};
ghost use Rattle.gptp_queue.specs.Order.{first_of, part_at, AddsTo, IsLeastOf, Sweeps, Takes, TakesLeast, Within};

use crate::entry::Entry;
use crate::heap::Heap;
use crate::maybe_entry::MaybeEntry;
use crate::run::Run;
use crate::table::Table;
use std::alloc::{AllocError, Global};
use std::marker::Model;

/// Entries in a heap and in runs. It is seen as the list of these parts, the least of all entries, and how many more
/// can be put.
#[derive(Drop)]
pub(crate) struct Far {
    heap: Heap,
    runs: Vec<Run>,
    // The least of all, and which part it is the first of: 0 for the heap, and one more than its kind for a run.
    first: MaybeEntry,
    at: usize,
}

impl Model for Far {
    ghost use Rattle.std.specs.Prelude.{◌∷◌};
    ghost use Rattle.gptp_queue.specs.Order.{IsOrdered, OrderState};

    ghost Value = { OrderState };

    ghost view = { λ f. record {
      parts = f.heap.entries ∷ f.runs.items;
      first = f.first;
      room = f.heap.room;
    } };

    ghost invariant = { λ f. IsOrdered (f.heap.entries ∷ f.runs.items) f.first f.at };
}

impl Far {
    /// No entry, of so many kinds.
    pub fn new(alloc: Global, kinds: usize) -> Result<Self, AllocError>
        ensures first { IfOk result (λ far. far.first ≡ None) }
        ensures none { IfOk result (λ far. IsLeastOf (Within far.parts) None) }
    {
        let mut runs = Vec::new(alloc);
        for _kind in 0..kinds {
            runs.push(Run::new(alloc))?;
        }
        Ok(Far {
            heap: Heap::new(alloc),
            runs,
            first: MaybeEntry::none(),
            at: 0,
        })
    }

    /// The same entries, in the same parts. Refused for want of memory alone.
    pub fn copy(&self, alloc: Global) -> Result<Self, AllocError>
        ensures parts { IfOk result (λ far. far.parts ≡ self.now.parts) }
        ensures first { IfOk result (λ far. far.first ≡ self.now.first) }
    {
        Ok(Far {
            heap: self.heap.copy()?,
            runs: copy_runs(alloc, &self.runs)?,
            first: self.first,
            at: self.at,
        })
    }

    /// The least entry, if there is one.
    pub fn first(&self) -> MaybeEntry
        ensures first { result ≡ self.now.first }
        ensures least { IsLeastOf (Within self.now.parts) result }
    {
        self.first
    }

    /// How many more entries there is room for.
    pub fn room(&self) -> usize
        ensures { result ≡ self.now.room }
    {
        self.heap.room()
    }

    /// How many kinds have a run.
    pub fn kinds(&self) -> usize {
        self.runs.len()
    }

    /// Puts an entry of a kind: at the end of its run, or else into the heap.
    pub fn put(&mut self, kind: usize, entry: Entry)
        requires { 0 < self.old.room }
        ensures put { AddsTo (Within self.old.parts) (Within self.new.parts) entry }
        ensures room { self.old.room ≤ self.new.room + 1 }
    {
        if !self.push(kind, entry) {
            self.put_in_heap(entry);
        }
    }

    /// Puts an entry at the end of its run, and answers whether it belongs there and found room.
    fn push(&mut self, kind: usize, entry: Entry) -> bool
        ensures pushed { result ≡ true → AddsTo (Within self.old.parts) (Within self.new.parts) entry }
        ensures refused { result ≡ false → self.new ≡ self.old }
        ensures room { self.old.room ≤ self.new.room }
    {
        if self.runs.len() <= kind || !self.runs[kind].push(entry) {
            return false;
        }
        if self.first.follows(&entry) {
            self.first = MaybeEntry::of(entry);
            self.at = kind + 1;
        }
        true
    }

    /// Puts an entry into the heap.
    #[inline(never)]
    fn put_in_heap(&mut self, entry: Entry)
        requires { 0 < self.old.room }
        ensures put { AddsTo (Within self.old.parts) (Within self.new.parts) entry }
        ensures room { self.old.room ≤ self.new.room + 1 }
    {
        self.heap.put(entry);
        let top = self.heap.first();
        if self.at == 0 || top.comes_first(&self.first) {
            self.first = top;
            self.at = 0;
        }
    }

    /// Takes the least entry out.
    pub fn take(&mut self)
        requires { IsSome self.old.first }
        ensures taken { IfSome self.old.first (λ d. TakesLeast self.old.parts self.new.parts d) }
        ensures room { self.old.room ≤ self.new.room }
    {
        take_first(&mut self.heap, &mut self.runs, self.at);
        let (first, at) = least_of(&self.heap, &self.runs);
        self.first = first;
        self.at = at;
    }

    /// Makes room for so many more entries. What the table no longer has may be dropped.
    pub fn reserve(&mut self, additional: usize, table: &Table) -> Result<(), AllocError>
        ensures swept { Sweeps table.now.entries (Within self.old.parts) (Within self.new.parts) }
        ensures least { IsLeastOf (Within self.new.parts) self.new.first }
        ensures room { self.old.room ≤ self.new.room }
        ensures ok { OnOk result (additional ≤ self.new.room) }
    {
        let grown = grow(&mut self.heap, &mut self.runs, additional, table);
        let (first, at) = least_of(&self.heap, &self.runs);
        self.first = first;
        self.at = at;
        grown
    }
}

/// Equal runs. Refused for want of memory alone.
fn copy_runs(alloc: Global, runs: &[Run]) -> Result<Vec<Run>, AllocError>
    ensures { IfOk result (λ copies. copies.items ≡ runs.now) }
{
    let mut copies = Vec::with_capacity(alloc, runs.len())?;
    for run in runs {
        push_copy(&mut copies, run)?;
    }
    Ok(copies)
}

/// Puts an equal run behind others.
fn push_copy(copies: &mut Vec<Run>, run: &Run) -> Result<(), AllocError>
    ensures { OnOk result (copies.new.items ≡ copies.old.items ++ run.now ∷ []) }
{
    copies.push(run.copy()?)?;
    Ok(())
}

/// Takes the first entry of a part out.
fn take_first(heap: &mut Heap, runs: &mut Vec<Run>, at: usize)
    requires { at < length runs.old.items + 1 }
    ensures taken { Takes (part_at (heap.old.entries ∷ runs.old.items) at) (part_at (heap.new.entries ∷ runs.new.items) at) (first_of (part_at (heap.old.entries ∷ runs.old.items) at)) }
    ensures changed { heap.new.entries ∷ runs.new.items ≡ slice_set (heap.old.entries ∷ runs.old.items) at (part_at (heap.new.entries ∷ runs.new.items) at) }
    ensures room { heap.old.room ≤ heap.new.room }
{
    if at == 0 {
        heap.take();
    } else {
        runs[at - 1].take();
    }
}

/// The least of all entries, and which part it is the first of.
fn least_of(heap: &Heap, runs: &Vec<Run>) -> (MaybeEntry, usize)
    ensures there { result.1 < length runs.now.items + 1 }
    ensures first { result.0 ≡ first_of (part_at (heap.now.entries ∷ runs.now.items) result.1) }
    ensures least { IsLeastOf (Within (heap.now.entries ∷ runs.now.items)) result.0 }
{
    let mut first = heap.first();
    let mut at = 0;
    for (kind, run) in runs.iter().enumerate() {
        let head = run.first();
        if head.comes_first(&first) {
            first = head;
            at = kind + 1;
        }
    }
    (first, at)
}

/// Makes room for so many more entries in a heap, and for as many as there are in each run.
#[inline(never)]
fn grow(
    heap: &mut Heap,
    runs: &mut Vec<Run>,
    additional: usize,
    table: &Table,
) -> Result<(), AllocError>
    ensures swept { Sweeps table.now.entries (Within (heap.old.entries ∷ runs.old.items)) (Within (heap.new.entries ∷ runs.new.items)) }
    ensures room { heap.old.room ≤ heap.new.room }
    ensures ok { OnOk result (additional ≤ heap.new.room) }
{
    for kind in 0..runs.len() {
        runs[kind].grow(table)?;
    }
    heap.reserve(additional, table)
}
