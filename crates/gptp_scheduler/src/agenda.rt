//! An agenda of what is to be done.

ghost use Rattle.std.specs.Prelude.{◌≡◌, ◌+◌, ◌^◌, ◌<◌, ◌≤◌, [], ◌∷◌, ◌++◌, IsOk, OnOk, OnErr, IfOk, IfSome, IfNone, option_copied, Some, is_some, max};
ghost use Rattle.std.specs.Option.{option_map};
ghost use Rattle.slab.specs.Slab.{get};
ghost use Rattle.gptp_scheduler.specs.Pending.{entry, entry_at, AgendaEntry, without_number, IsFirst, NothingDue, RiseFrom};
ghost use Rattle.gptp_scheduler.specs.Places.{IsPlace};

use crate::chains::time_at;
use crate::filed::{self, Filed, find, is_live};
use crate::key::{Key, Node};
use crate::slots::Slots;
use crate::wheel::{earlier_of, earliest, earliest_left, put, take, take_earliest};
use slab::Slab;
use std::alloc::{AllocError, Global};
use std::marker::Model;

/// What is to be done, each entry at a time of its own, in ns. An entry gets a number when it is put,
/// rising from 0. The least entry is the first of least time.
///
/// It is seen as the number of the next entry, the list of the entries in order of putting, how many more can be put
/// without being refused, and its base, in ns: the greatest time that [`take_due`](Self::take_due) has taken, at first
/// 0.
///
/// It is a timing wheel: eight levels of 256 slots, one octet of the time each, hold the entries as chains. Where an
/// entry stands depends on its time and on the base alone, and is told by [`place`](crate::place).
#[derive(Drop)]
pub struct Agenda<T> {
    // The greatest time taken so far, at first 0.
    base: u64,
    // The number of the next entry.
    next: u64,
    nodes: Slab<Node<T>>,
    slots: Slots,
    // Where the entry of each number stands, by rising number, and where some stood that are gone.
    filed: Vec<Filed>,
    // The least entry.
    first: Option<Key>,
    // The slab and the vector have room for so many more, or for more than that, and all chains are made where that is
    // above 0: whether there is room for a put is one comparison.
    spare: usize,
}

impl<T> Model for Agenda<T> {
    ghost use Rattle.gptp_scheduler.specs.Pending.{Pending, pending_code};

    ghost Value = { Pending T };

    ghost coded = { pending_code T.code };

    ghost use Rattle.std.specs.Prelude.{vec_capacity, vec_len};
    ghost use Rattle.slab.specs.Slab.{get};
    ghost use Rattle.gptp_scheduler.specs.Filed.{listed, HasSpare, IsAgenda};

    ghost view = { λ a. record {
      next = a.next;
      entries = listed (get a.nodes) a.filed.items;
      room = a.spare;
      base = a.base;
    } };

    ghost invariant = { λ a.
        IsAgenda (get a.nodes) a.base a.next a.slots a.filed.items a.first
        × HasSpare a.spare a.next (vec_len a.filed) (vec_capacity a.filed) a.nodes a.slots };
}

impl<T: Drop> Agenda<T> {
    /// An agenda with no entry, whose first number and whose base are 0. Takes no memory.
    pub fn new(alloc: Global) -> Self
        ensures next { result.next ≡ 0 }
        ensures entries { result.entries ≡ [] }
        ensures base { result.base ≡ 0 }
    {
        Agenda {
            base: 0,
            next: 0,
            nodes: Slab::new(alloc),
            slots: Slots::new(alloc),
            filed: Vec::new(alloc),
            first: None,
            spare: 0,
        }
    }

    /// Makes room for so many more entries: after `Ok` the next so many calls of [`put`](Self::put)
    /// aren't refused. Refused where there is no memory for them, or where the numbers below 2^64 - 1
    /// don't suffice. Neither entries nor the base change.
    pub fn reserve(&mut self, additional: usize) -> Result<(), AllocError>
        ensures kept { self.new ≡ record self.old { room = self.new.room } }
        ensures room { self.old.room ≤ self.new.room }
        ensures ok { OnOk result (additional ≤ self.new.room) }
        ensures numbers { OnOk result (self.old.next + additional < 2 ^ 64) }
        ensures succeeds { additional ≤ self.old.room → IsOk result }
    {
        if self.spare < additional {
            let numbers = u64::MAX - self.next;
            if numbers < additional as u64 {
                return Err(AllocError);
            }
            self.slots.grow()?;
            self.nodes.reserve(additional)?;
            filed::reserve(&mut self.filed, additional, &self.nodes)?;
            let nodes = self.nodes.capacity() - self.nodes.len();
            let filed = self.filed.capacity() - self.filed.len();
            self.spare = nodes.min(filed).min(numbers as usize);
        }
        Ok(())
    }

    /// Puts an entry, and answers its number. Refused where there is no memory for it, or no number
    /// below 2^64 - 1; the item is dropped then, and no entry changes.
    pub fn put(&mut self, time: u64, item: T) -> Result<u64, AllocError>
        ensures number { IfOk result (λ number. number ≡ self.old.next) }
        ensures numbers { OnOk result (self.new.next < 2 ^ 64) }
        ensures next { OnOk result (self.new.next ≡ self.old.next + 1) }
        ensures base { self.new.base ≡ self.old.base }
        ensures entries { OnOk result (self.new.entries ≡ self.old.entries ++ entry time self.old.next item ∷ []) }
        ensures room { self.old.room ≤ self.new.room + 1 }
        ensures refused { OnErr result (self.new ≡ record self.old { room = self.new.room }) }
        ensures succeeds { 0 < self.old.room → IsOk result }
    {
        self.reserve(1)?;
        let number = self.next;
        let key = put(
            &mut self.nodes,
            &mut self.slots,
            self.base,
            time,
            number,
            item,
        );
        self.filed.push_reserved(Filed { number, key });
        self.first = Some(earlier_of(&self.nodes, self.first, key));
        self.next += 1;
        self.spare -= 1;
        Ok(number)
    }

    /// The time and the number of the least entry, if there is one.
    pub fn next(&self) -> Option<(u64, u64)>
        ensures first { IfSome result (λ due. IsFirst self.now.entries due.0 due.1) }
        ensures empty { IfNone result (self.now.entries ≡ []) }
    {
        let (time, number, _) = self.least()?;
        Some((time, number))
    }

    /// The time, the number and the item of the least entry, if there is one. Nothing is looked for.
    pub fn least(&self) -> Option<(u64, u64, &T)>
        ensures first { IfSome result (λ due. IsFirst self.now.entries due.0 due.1) }
        ensures item { IfSome result (λ due. entry_at self.now.entries due.1 ≡ Some (entry due.0 due.1 due.2.now)) }
        ensures empty { IfNone result (self.now.entries ≡ []) }
    {
        let node = self.nodes.get(self.first?.place)?;
        Some((node.time, node.number, &node.item))
    }

    /// The item of the entry of a number, wherever it stands, if it is there. Takes no memory.
    pub fn item(&self, number: u64) -> Option<&T>
        ensures { option_copied result ≡ option_map (λ e. e.item) (entry_at self.now.entries number) }
    {
        let key = find(&self.filed, number)?;
        let node = self.nodes.get(key.place)?;
        if node.number == number {
            Some(&node.item)
        } else {
            None
        }
    }

    /// Takes the least entry out, where it is due: its time, its number and its item. The base is then the greater of
    /// its time and the base before. Where nothing is due nothing changes.
    pub fn take_due(&mut self, now: u64) -> Option<(u64, u64, T)>
        ensures first { IfSome result (λ due. IsFirst self.old.entries due.0 due.1) }
        ensures due { IfSome result (λ due. due.0 ≤ now) }
        ensures base { IfSome result (λ due. self.new.base ≡ max self.old.base due.0) }
        ensures item { IfSome result (λ due. entry_at self.old.entries due.1 ≡ Some (entry due.0 due.1 due.2)) }
        ensures taken { IfSome result (λ due. self.new.entries ≡ without_number due.1 self.old.entries) }
        ensures nothing { IfNone result (NothingDue self.old.entries now) }
        ensures kept { IfNone result (self.new ≡ self.old) }
        ensures next { self.new.next ≡ self.old.next }
        ensures room { self.old.room ≤ self.new.room }
    {
        let key = self.first?;
        if now < time_at(&self.nodes, key) {
            return None;
        }
        let node = take_earliest(&mut self.nodes, &mut self.slots, &mut self.base, key);
        self.first = earliest(&self.nodes, &mut self.slots);
        Some((node.time, node.number, node.item))
    }

    /// Takes the entry of a number out, wherever it stands, and answers its item, if it is there. The base stays.
    pub fn cancel(&mut self, number: u64) -> Option<T>
        ensures item { result ≡ option_map (λ e. e.item) (entry_at self.old.entries number) }
        ensures taken { self.new.entries ≡ without_number number self.old.entries }
        ensures base { self.new.base ≡ self.old.base }
        ensures next { self.new.next ≡ self.old.next }
        ensures room { self.old.room ≤ self.new.room }
    {
        let key = find(&self.filed, number)?;
        if !is_live(&self.nodes, Filed { number, key }) {
            return None;
        }
        let node = take(&mut self.nodes, &mut self.slots, key);
        self.first = earliest_left(&self.nodes, &mut self.slots, self.first, key);
        Some(node.item)
    }

    /// Numbers rise in order of putting, from 0 on, and all lie below the next.
    pub fn numbers_rise(&self)
        ensures { RiseFrom 0 self.now.entries self.now.next }
    {
        let _ = &self.filed;
    }

    /// The slot at which the entry of a number stands.
    pub(crate) fn slot(&self, number: u64) -> Option<usize>
        ensures there { is_some result ≡ is_some (entry_at self.now.entries number) }
        ensures within { IfSome result (λ slot. slot ≤ 2048) }
        ensures stands { IfSome result
            (λ slot. (e : AgendaEntry T) → entry_at self.now.entries number ≡ Some e → IsPlace self.now.base e.time slot) }
    {
        let key = find(&self.filed, number)?;
        let node = self.nodes.get(key.place)?;
        if node.number == number {
            Some(node.slot)
        } else {
            None
        }
    }
}
