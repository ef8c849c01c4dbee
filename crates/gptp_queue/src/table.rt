//! What is due at each place.

ghost use Rattle.std.specs.Prelude.{◌≡◌, ◌+◌, ◌^◌, ◌<◌, ◌≤◌, [], ◌∷◌, ◌++◌, max, IsOk, IfOk, OnOk, OnErr};
ghost use Rattle.std.specs.List.{AllByRecursion};
ghost use Rattle.gptp_queue.specs.Waiting.{entry, is_current, time_at, without_place, PlacesDiffer, RiseFrom};

use crate::entry::Entry;
use std::alloc::{AllocError, Global};
use std::marker::Model;

/// The number of a place at which nothing is due.
const FREE: u64 = u64::MAX;

/// When something is due, and the number of its entry; `FREE` where nothing is.
#[derive(Clone, Copy)]
pub(crate) struct Cell {
    time: u64,
    number: u64,
}

/// What is due at each place. It is seen as the number of the next entry, how many places there are, and the list of
/// the entries by rising number.
#[derive(Drop)]
pub(crate) struct Table {
    next: u64,
    cells: Vec<Cell>,
}

impl Model for Table {
    ghost use Rattle.std.specs.Prelude.{length};
    ghost use Rattle.gptp_queue.specs.Table.{entries_from, AreNumbered, TableState};

    ghost Value = { TableState };

    ghost view = { λ t. record {
      next = t.next;
      places = length t.cells.items;
      entries = entries_from 0 t.cells.items;
    } };

    ghost invariant = { λ t. AreNumbered t.next t.cells.items };
}

impl Table {
    /// Nothing due at any of so many places, and number 0 next.
    pub fn new(alloc: Global, places: usize) -> Result<Self, AllocError>
        ensures next { IfOk result (λ table. table.next ≡ 0) }
        ensures places { IfOk result (λ table. table.places ≡ places) }
        ensures entries { IfOk result (λ table. table.entries ≡ []) }
    {
        let free = Cell {
            time: 0,
            number: FREE,
        };
        Ok(Table {
            next: 0,
            cells: vec![in alloc; free; places]?,
        })
    }

    /// An equal table. Refused for want of memory alone.
    pub fn copy(&self, alloc: Global) -> Result<Self, AllocError>
        ensures { IfOk result (λ table. table ≡ self.now) }
    {
        Ok(Table {
            next: self.next,
            cells: Vec::from_slice(alloc, &self.cells)?,
        })
    }

    /// Makes places until there are so many. Refused where there is no memory for them; nothing changes then.
    pub fn make_places(&mut self, places: usize) -> Result<(), AllocError>
        ensures ok { OnOk result (self.new ≡ record self.old { places = max self.old.places places }) }
        ensures err { OnErr result (self.new ≡ self.old) }
        ensures succeeds { places ≤ self.old.places → IsOk result }
    {
        if self.cells.len() < places {
            self.cells.resize(
                places,
                Cell {
                    time: 0,
                    number: FREE,
                },
            )?;
        }
        Ok(())
    }

    /// The number of the next entry.
    pub fn next(&self) -> u64
        ensures { result ≡ self.now.next }
    {
        self.next
    }

    /// How many numbers can still be given.
    pub fn numbers(&self) -> u64
        ensures { self.now.next + result + 1 ≡ 2 ^ 64 }
    {
        FREE - self.next
    }

    /// Numbers rise in order of putting, and all lie below the next.
    pub fn numbers_rise(&self)
        ensures { RiseFrom 0 self.now.entries self.now.next }
    {
        let _ = &self.cells;
    }

    /// All places of entries are known.
    pub fn places_are_known(&self)
        ensures { AllByRecursion (λ e. e.place < self.now.places) self.now.entries }
    {
        let _ = &self.cells;
    }

    /// No two entries are at one place.
    pub fn places_differ(&self)
        ensures { PlacesDiffer self.now.entries }
    {
        let _ = &self.cells;
    }

    /// When something is due at a place, if anything is.
    pub fn time(&self, place: usize) -> Option<u64>
        requires { place < self.now.places }
        ensures { result ≡ time_at self.now.entries place }
    {
        let cell = self.cells[place];
        if cell.number == FREE {
            None
        } else {
            Some(cell.time)
        }
    }

    /// Whether the entry of this number is due at this place still.
    pub fn holds(&self, entry: &Entry) -> bool
        ensures { result ≡ is_current self.now.entries entry.now }
    {
        match self.cells.get(entry.place) {
            Some(cell) => cell.number == entry.number,
            None => false,
        }
    }

    /// Something is due at a place at this time, under the next number, in place of what was due there.
    pub fn put(&mut self, place: usize, time: u64)
        requires place { place < self.old.places }
        requires numbers { self.old.next + 1 < 2 ^ 64 }
        ensures { self.new ≡ record self.old { next = self.old.next + 1; entries = without_place place self.old.entries ++ entry time self.old.next place ∷ [] } }
    {
        self.cells[place] = Cell {
            time,
            number: self.next,
        };
        self.next += 1;
    }

    /// Nothing is due at a place any more.
    pub fn clear(&mut self, place: usize)
        requires { place < self.old.places }
        ensures { self.new ≡ record self.old { entries = without_place place self.old.entries } }
    {
        self.cells[place] = Cell {
            time: 0,
            number: FREE,
        };
    }
}
