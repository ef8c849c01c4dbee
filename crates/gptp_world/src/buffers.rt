//! Buffers for frames.

ghost use Rattle.std.specs.Prelude.{◌≡◌, ◌+◌, ◌≤◌, ◌<◌, [], max, OnOk, OnErr, vec_len, vec_capacity};
ghost use Rattle.std.specs.List.{AllByRecursion};
ghost use Rattle.gptp_world.specs.Buffers.{ready_with, IsBuffer};

use gptp_model::Carried;
use std::alloc::{AllocError, Global};
use std::marker::Model;

/// The octets of the longest message that a system sends: an Announce whose path has 256 clocks.
const LONGEST_FRAME: usize = 2_116;

/// Empty buffers, each with room for the longest message that a system sends. An Announce is written into one, and a
/// frame that is injected.
///
/// They are seen as how many stand ready, and for how many there are places.
#[derive(Drop)]
pub(crate) struct Buffers {
    alloc: Global,
    list: Vec<Vec<u8>>,
    // How many more came back than there were places for, since buffers were last made.
    unplaced: usize,
}

impl Model for Buffers {
    ghost use Rattle.std.specs.Prelude.{vec_len, vec_capacity};
    ghost use Rattle.std.specs.List.{AllByRecursion};
    ghost use Rattle.gptp_world.specs.Buffers.{BuffersState, IsBuffer};

    ghost Value = { BuffersState };

    ghost view = { λ b. record { ready = vec_len b.list; places = vec_capacity b.list } };

    ghost invariant = { λ b. AllByRecursion IsBuffer b.list.items };
}

impl Buffers {
    /// No buffer stands ready. Takes no memory.
    pub(crate) fn new(alloc: Global) -> Self
        ensures { result.ready ≡ 0 }
    {
        Buffers {
            alloc,
            list: Vec::new(alloc),
            unplaced: 0,
        }
    }

    /// Where it gets its memory.
    pub(crate) fn alloc(&self) -> Global {
        self.alloc
    }

    /// Makes buffers, until so many stand ready. Refused where there is no memory for them; those that were made by
    /// then stand ready too. Where enough stand ready already it takes no memory. Where it makes some it makes places
    /// as well for as many as found none, so that what is in flight at once comes to have places.
    pub(crate) fn reserve(&mut self, count: usize) -> Result<(), AllocError>
        ensures ok { OnOk result (self.new.ready ≡ max self.old.ready count) }
        ensures err { OnErr result (self.new.ready < count) }
        ensures kept { self.old.ready ≤ self.new.ready }
        ensures places { self.old.places ≤ self.new.places }
        ensures enough { count ≤ self.old.ready → self.new ≡ self.old }
    {
        if self.list.len() < count {
            let unplaced = self.unplaced;
            self.unplaced = 0;
            return fill(self.alloc, &mut self.list, count, unplaced);
        }
        Ok(())
    }

    /// Takes a buffer out, of which one stands ready. It is empty.
    pub(crate) fn take(&mut self) -> Vec<u8>
        requires { 0 < self.old.ready }
        ensures empty { result.items ≡ [] }
        ensures room { 2_116 ≤ vec_capacity result }
        ensures ready { self.new.ready + 1 ≡ self.old.ready }
        ensures places { self.new.places ≡ self.old.places }
    {
        self.list.pop().unwrap()
    }

    /// Puts a buffer back, emptied. It is dropped where it has no room for 2,116 octets, or there is no place for it.
    /// Takes no memory.
    pub(crate) fn put_back(&mut self, buffer: Vec<u8>)
        ensures ready { self.new.ready ≡ ready_with (vec_capacity buffer) self.old }
        ensures places { self.old.places ≤ self.new.places }
    {
        if LONGEST_FRAME <= buffer.capacity() {
            if self.list.len() < self.list.capacity() {
                push_empty(&mut self.list, buffer);
            } else {
                self.unplaced = self.unplaced.saturating_add(1);
            }
        }
    }
}

impl Buffers {
    ghost use Rattle.std.specs.Prelude.{◌≤◌};

    /// Puts the buffer of a frame back, where its octets stand in one. Takes no memory.
    pub(crate) fn put_back_of(&mut self, frame: Carried)
        ensures { self.old.ready ≤ self.new.ready }
    {
        if let Some(octets) = frame.into_octets() {
            self.put_back(octets);
        }
    }
}

/// Puts a buffer after the others, emptied; it has their room, and the list a place for it.
#[inline(always)]
fn push_empty(list: &mut Vec<Vec<u8>>, buffer: Vec<u8>)
    requires place { vec_len list.old < vec_capacity list.old }
    requires room { 2_116 ≤ vec_capacity buffer }
    requires buffers { AllByRecursion IsBuffer list.old.items }
    ensures buffers { AllByRecursion IsBuffer list.new.items }
    ensures len { vec_len list.new ≡ vec_len list.old + 1 }
    ensures capacity { vec_capacity list.old ≤ vec_capacity list.new }
{
    let mut buffer = buffer;
    buffer.clear();
    let _ = list.push(buffer);
}

/// Makes one more buffer. Refused where there is no memory for it.
fn add(alloc: Global, list: &mut Vec<Vec<u8>>) -> Result<(), AllocError>
    requires place { vec_len list.old < vec_capacity list.old }
    requires buffers { AllByRecursion IsBuffer list.old.items }
    ensures buffers { AllByRecursion IsBuffer list.new.items }
    ensures ok { OnOk result (vec_len list.new ≡ vec_len list.old + 1) }
    ensures err { OnErr result (vec_len list.new ≡ vec_len list.old) }
    ensures capacity { vec_capacity list.old ≤ vec_capacity list.new }
{
    push_empty(list, Vec::with_capacity(alloc, LONGEST_FRAME)?);
    Ok(())
}

/// Makes buffers until there are so many, of which there are fewer, and places for so many more.
#[cold]
#[inline(never)]
fn fill(
    alloc: Global,
    list: &mut Vec<Vec<u8>>,
    count: usize,
    places: usize,
) -> Result<(), AllocError>
    requires fewer { vec_len list.old < count }
    requires buffers { AllByRecursion IsBuffer list.old.items }
    ensures buffers { AllByRecursion IsBuffer list.new.items }
    ensures ok { OnOk result (vec_len list.new ≡ count) }
    ensures err { OnErr result (vec_len list.new < count) }
    ensures kept { vec_len list.old ≤ vec_len list.new }
    ensures capacity { vec_capacity list.old ≤ vec_capacity list.new }
{
    list.reserve((count - list.len()).saturating_add(places))?;
    for _i in list.len()..count {
        add(alloc, list)?;
    }
    Ok(())
}
