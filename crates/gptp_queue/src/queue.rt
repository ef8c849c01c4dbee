//! A queue of what is due.

ghost use Rattle.std.specs.Prelude.{◌≡◌, ◌+◌, ◌^◌, ◌<◌, ◌≤◌, ◌≢◌, [], ◌∷◌, ◌++◌, max, IsOk, OnOk, OnErr, IfOk, IfSome, IfNone};
ghost use Rattle.std.specs.List.{AllByRecursion, Contains};
ghost use Rattle.gptp_queue.specs.Waiting.{entry, time_at, without_place, IsFirst, PlacesDiffer, RiseFrom};
ghost use Rattle.gptp_queue.specs.Order.{IsLeast, Within};
ghost use Rattle.gptp_queue.specs.Queue.{Holds, IsCurrentFirst, IsFirstAt};
ghost use Rattle.gptp_queue.specs.Entry.{Entry};

use crate::entry::Entry;
use crate::order::Order;
use crate::table::Table;
use std::alloc::{AllocError, Global};
use std::marker::Model;

/// What is due, each entry at a place and a time, in ns. A place has one entry at most. An entry gets a number when it
/// is put, rising from 0. The least entry is the first of least time.
///
/// It is seen as the number of the next entry, how many places there are, the list of the entries in order of putting,
/// and how many more can be put without being refused.
#[derive(Drop)]
pub struct Queue {
    // What is due at each place.
    table: Table,
    // The same entries in order of time, and others that were cancelled or replaced. The least is none of those.
    order: Order,
    // There is room and there are numbers for so many more, or for more than that.
    spare: usize,
}

impl Model for Queue {
    ghost use Rattle.gptp_queue.specs.Waiting.{WaitingState};
    ghost use Rattle.gptp_queue.specs.Order.{Within};
    ghost use Rattle.gptp_queue.specs.Queue.{IsQueue};

    ghost Value = { WaitingState };

    ghost view = { λ q. record {
      next = q.table.next;
      places = q.table.places;
      entries = q.table.entries;
      room = q.spare;
    } };

    ghost invariant = { λ q. IsQueue q.table.entries q.table.next q.order.parts q.order.first q.order.room q.spare };
}

impl Queue {
    /// A queue with no entry, whose first number is 0, with so many places, and a run for each of so many kinds of
    /// entries. Quickest are entries of a kind below `kinds` that are put in order of their times, and those of another
    /// kind that are due less than 2,048 ns after the last that was taken. Refused where there is no memory for it.
    pub fn new(alloc: Global, places: usize, kinds: usize) -> Result<Self, AllocError>
        ensures next { IfOk result (λ queue. queue.next ≡ 0) }
        ensures places { IfOk result (λ queue. queue.places ≡ places) }
        ensures entries { IfOk result (λ queue. queue.entries ≡ []) }
    {
        let table = Table::new(alloc, places)?;
        let order = Order::new(alloc, kinds)?;
        Ok(Queue {
            table,
            order,
            spare: 0,
        })
    }

    /// A queue with the same entries, under the same numbers, whose room has to be made. Refused for want of memory
    /// alone.
    pub fn copy(&self, alloc: Global) -> Result<Self, AllocError>
        ensures { IfOk result (λ queue. queue ≡ record self.now { room = 0 }) }
    {
        Ok(Queue {
            table: self.table.copy(alloc)?,
            order: self.order.copy(alloc)?,
            spare: 0,
        })
    }

    /// Makes places until there are so many. Refused where there is no memory for them; nothing changes then.
    pub fn make_places(&mut self, places: usize) -> Result<(), AllocError>
        ensures ok { OnOk result (self.new ≡ record self.old { places = max self.old.places places }) }
        ensures err { OnErr result (self.new ≡ self.old) }
        ensures succeeds { places ≤ self.old.places → IsOk result }
    {
        self.table.make_places(places)
    }

    /// Makes room for so many more entries: after `Ok` the next so many calls of [`put`](Self::put) aren't refused.
    /// Refused where there is no memory for them, or where the numbers below 2^64 - 1 don't suffice. No entry changes.
    pub fn reserve(&mut self, additional: usize) -> Result<(), AllocError>
        ensures kept { self.new ≡ record self.old { room = self.new.room } }
        ensures room { self.old.room ≤ self.new.room }
        ensures ok { OnOk result (additional ≤ self.new.room) }
        ensures numbers { OnOk result (self.old.next + additional < 2 ^ 64) }
        ensures succeeds { additional ≤ self.old.room → IsOk result }
    {
        if self.spare < additional {
            return self.make_room(additional);
        }
        Ok(())
    }

    /// Makes room for so many more entries, where there is less.
    #[cold]
    #[inline(never)]
    fn make_room(&mut self, additional: usize) -> Result<(), AllocError>
        ensures kept { self.new ≡ record self.old { room = self.new.room } }
        ensures room { self.old.room ≤ additional → self.old.room ≤ self.new.room }
        ensures ok { OnOk result (additional ≤ self.new.room) }
        ensures numbers { OnOk result (self.old.next + additional < 2 ^ 64) }
    {
        let numbers = self.table.numbers();
        if numbers < additional as u64 {
            return Err(AllocError);
        }
        self.order.reserve(additional.max(AT_ONCE), &self.table)?;
        self.spare = self.order.room().min(numbers as usize);
        Ok(())
    }

    /// Something of a kind is due at a place at this time, in ns, in place of what was due there. Answers the number of
    /// its entry. Refused where there is no memory for it, or no number below 2^64 - 1; no entry changes then.
    pub fn put(&mut self, kind: usize, place: usize, time: u64) -> Result<u64, AllocError>
        requires { place < self.old.places }
        ensures number { IfOk result (λ number. number ≡ self.old.next) }
        ensures next { OnOk result (self.new.next ≡ self.old.next + 1) }
        ensures entries { OnOk result (self.new.entries ≡ without_place place self.old.entries ++ entry time self.old.next place ∷ []) }
        ensures places { self.new.places ≡ self.old.places }
        ensures room { self.old.room ≤ self.new.room + 1 }
        ensures refused { OnErr result (self.new ≡ record self.old { room = self.new.room }) }
        ensures succeeds { 0 < self.old.room → IsOk result }
    {
        self.reserve(1)?;
        Ok(self.put_reserved(kind, place, time))
    }

    /// The same where room for it is reserved, so that it isn't refused.
    pub fn put_reserved(&mut self, kind: usize, place: usize, time: u64) -> u64
        requires place { place < self.old.places }
        requires room { 0 < self.old.room }
        ensures number { result ≡ self.old.next }
        ensures next { self.new.next ≡ self.old.next + 1 }
        ensures entries { self.new.entries ≡ without_place place self.old.entries ++ entry time self.old.next place ∷ [] }
        ensures places { self.new.places ≡ self.old.places }
        ensures room { self.old.room ≤ self.new.room + 1 }
    {
        let number = self.table.next();
        self.table.put(place, time);
        self.order.put(
            kind,
            Entry {
                time,
                number,
                place,
            },
        );
        drop_stale_at(&mut self.order, &self.table, place);
        self.spare -= 1;
        number
    }

    /// When something is due at a place, in ns, if anything is.
    pub fn time(&self, place: usize) -> Option<u64>
        requires { place < self.now.places }
        ensures { result ≡ time_at self.now.entries place }
    {
        self.table.time(place)
    }

    /// The least entry, if there is one.
    pub fn next(&self) -> Option<Entry>
        ensures first { IfSome result (λ due. IsFirst self.now.entries due) }
        ensures empty { IfNone result (self.now.entries ≡ []) }
    {
        self.order.first().get()
    }

    /// Nothing is due at a place any more, as what was due there has happened. Does what [`cancel`](Self::cancel) does.
    /// Where the least entry is at that place, the 2,048 ns in which entries are quick begin at its time.
    #[inline(always)]
    pub fn take(&mut self, place: usize)
        requires { place < self.old.places }
        ensures { self.new ≡ record self.old { entries = without_place place self.old.entries } }
    {
        match first_at(&self.order, place) {
            Some(time) => {
                self.order.move_base(time);
                self.table.clear(place);
                self.order.take();
                drop_stale(&mut self.order, &self.table);
            }
            None => self.cancel(place),
        }
    }

    /// Nothing is due at a place any more.
    pub fn cancel(&mut self, place: usize)
        requires { place < self.old.places }
        ensures { self.new ≡ record self.old { entries = without_place place self.old.entries } }
    {
        self.table.clear(place);
        drop_stale_at(&mut self.order, &self.table, place);
    }

    /// Numbers rise in order of putting, from 0 on, and all lie below the next.
    pub fn numbers_rise(&self)
        ensures { RiseFrom 0 self.now.entries self.now.next }
    {
        let _ = &self.order;
    }

    /// No two entries are at one place, and each place is known.
    pub fn places_differ(&self)
        ensures differ { PlacesDiffer self.now.entries }
        ensures known { AllByRecursion (λ e. e.place < self.now.places) self.now.entries }
    {
        self.table.places_are_known();
        self.table.places_differ();
    }
}

/// Room is made for so many entries at least.
const AT_ONCE: usize = 256;

/// When the least entry is due, in ns, where it is at this place.
fn first_at(order: &Order, place: usize) -> Option<u64>
    ensures { IfSome result (λ time. IsFirstAt order.now.first place time) }
{
    match order.first().get() {
        Some(first) if first.place == place => Some(first.time),
        _ => None,
    }
}

/// Drops what was cancelled from the front, where the least of all was put at a place.
fn drop_stale_at(order: &mut Order, table: &Table, place: usize)
    requires holds { Holds table.now.entries table.now.next (Within order.old.parts) }
    requires others { (d : Entry) → IsLeast (Within order.old.parts) d → d.place ≢ place → Contains table.now.entries d }
    ensures holds { Holds table.now.entries table.now.next (Within order.new.parts) }
    ensures first { IsCurrentFirst table.now.entries (Within order.new.parts) order.new.first }
    ensures room { order.old.room ≤ order.new.room }
{
    match order.first().get() {
        Some(first) if first.place != place => {}
        _ => drop_stale(order, table),
    }
}

/// Drops what was cancelled from the front, so that the least of all is an entry of the table.
fn drop_stale(order: &mut Order, table: &Table)
    requires { Holds table.now.entries table.now.next (Within order.old.parts) }
    ensures holds { Holds table.now.entries table.now.next (Within order.new.parts) }
    ensures first { IsCurrentFirst table.now.entries (Within order.new.parts) order.new.first }
    ensures room { order.old.room ≤ order.new.room }
{
    while let Some(first) = order.first().get() {
        if table.holds(&first) {
            break;
        }
        order.take();
    }
}
