//! The wheel: entries in chains by slot, and the least of them.

ghost use Rattle.std.specs.Prelude.{◌≡◌, ℕ, ◌+◌, ◌≤◌, ◌<◌, false, length, max};
ghost use Rattle.slab.specs.Slab.{get, slab_len, HasRoomFor};
ghost use Rattle.gptp_scheduler.specs.Pending.{entry};
ghost use Rattle.gptp_scheduler.specs.Chain.{leads, EntriesAreChained, LeastIn, SameEntryRoom, StandsIn};
ghost use Rattle.gptp_scheduler.specs.Wheel.{first_of, link_behind, AreBelow, Earliest, IsEarliestEntry, IsLeft, IsLowering, IsWheel, Puts, SameEntries, TakesEntry};

use crate::chains::{earlier, push_back, time_at, unlink};
use crate::key::{Key, Node, OUT};
use crate::places::{LEVEL_SLOTS, slot_of};
use crate::slots::{Ends, LEVELS_END, Slots};
use slab::Slab;

/// Puts an entry in, whose number is above all others. There is room for it, and the chains are made.
pub(crate) fn put<T>(
    nodes: &mut Slab<Node<T>>,
    slots: &mut Slots,
    base: u64,
    time: u64,
    number: u64,
    item: T,
) -> Key
    requires room { HasRoomFor nodes.old 1 }
    requires made { 2049 ≤ length slots.old }
    requires wheel { IsWheel (get nodes.old) base slots.old }
    requires above { AreBelow (get nodes.old) number }
    ensures wheel { IsWheel (get nodes.new) base slots.new }
    ensures puts { Puts (get nodes.old) (get nodes.new) result.place (entry time number item) }
    ensures len { slab_len nodes.new ≡ slab_len nodes.old + 1 }
    ensures capacity { nodes.new.capacity ≡ nodes.old.capacity }
    ensures chains { length slots.new ≡ length slots.old }
{
    let place = nodes.insert_reserved(Node {
        number,
        time,
        slot: OUT,
        before: None,
        after: None,
        item,
    });
    let key = Key { place };
    push_back(nodes, slots, slot_of(base, time), key);
    key
}

/// Takes an entry out, wherever it stands.
pub(crate) fn take<T>(nodes: &mut Slab<Node<T>>, slots: &mut Slots, key: Key) -> Node<T>
    requires chained { EntriesAreChained (get nodes.old) slots.old }
    requires stands { StandsIn (get nodes.old) slots.old key.place }
    ensures wheel { (base : ℕ) → IsWheel (get nodes.old) base slots.old → IsWheel (get nodes.new) base slots.new }
    ensures takes { TakesEntry (get nodes.old) (get nodes.new) key.place (entry result.time result.number result.item) }
    ensures len { slab_len nodes.new + 1 ≡ slab_len nodes.old }
    ensures capacity { nodes.new.capacity ≡ nodes.old.capacity }
    ensures chains { length slots.new ≡ length slots.old }
{
    unlink(nodes, slots, key);
    nodes.remove(key.place)
}

/// Takes the least entry of all out, and moves the base to its time, where it didn't stand below the base.
pub(crate) fn take_earliest<T>(
    nodes: &mut Slab<Node<T>>,
    slots: &mut Slots,
    base: &mut u64,
    key: Key,
) -> Node<T>
    requires wheel { IsWheel (get nodes.old) base.old slots.old }
    requires earliest { IsEarliestEntry (get nodes.old) key.place }
    ensures wheel { IsWheel (get nodes.new) base.new slots.new }
    ensures takes { TakesEntry (get nodes.old) (get nodes.new) key.place (entry result.time result.number result.item) }
    ensures base { base.new ≡ max base.old result.time }
    ensures len { slab_len nodes.new + 1 ≡ slab_len nodes.old }
    ensures capacity { nodes.new.capacity ≡ nodes.old.capacity }
    ensures chains { length slots.new ≡ length slots.old }
{
    let node = nodes.get(key.place).unwrap();
    let (time, slot) = (node.time, node.slot);
    let taken = take(nodes, slots, key);
    *base = move_base(nodes, slots, *base, time, slot);
    taken
}

/// The base after a time of a slot was taken, with the other entries of the slot brought to where they stand then.
fn move_base<T>(
    nodes: &mut Slab<Node<T>>,
    slots: &mut Slots,
    base: u64,
    time: u64,
    slot: usize,
) -> u64
    requires left { IsLeft (get nodes.old) base time slot slots.old }
    ensures wheel { IsWheel (get nodes.new) result slots.new }
    ensures base { result ≡ max base time }
    ensures same { SameEntries (get nodes.old) (get nodes.new) }
    ensures room { SameEntryRoom nodes.old nodes.new }
    ensures chains { length slots.new ≡ length slots.old }
{
    if slot >= LEVELS_END {
        return base;
    }
    if slot >= LEVEL_SLOTS {
        lower(nodes, slots, time, slot);
    }
    time
}

/// Brings all entries of a slot to lower ones, in their order.
fn lower<T>(nodes: &mut Slab<Node<T>>, slots: &mut Slots, base: u64, slot: usize)
    requires lowering { IsLowering (get nodes.old) base slot slots.old }
    ensures wheel { IsWheel (get nodes.new) base slots.new }
    ensures same { SameEntries (get nodes.old) (get nodes.new) }
    ensures room { SameEntryRoom nodes.old nodes.new }
    ensures chains { length slots.new ≡ length slots.old }
{
    while let Some(key) = slots.get(slot).first {
        let time = time_at(nodes, key);
        unlink(nodes, slots, key);
        push_back(nodes, slots, slot_of(base, time), key);
    }
}

/// The earlier of two entries, where the second has the higher number and the first may be none.
pub(crate) fn earlier_of<T>(nodes: &Slab<Node<T>>, one: Option<Key>, other: Key) -> Key
    ensures { result ≡ first_of (get nodes.now) one other }
{
    match one {
        Some(one) => earlier(nodes, one, other),
        None => other,
    }
}

/// The key of the entry after an entry in its chain.
fn behind<T>(nodes: &Slab<Node<T>>, key: Key) -> Option<Key>
    ensures { result ≡ link_behind (get nodes.now key.place) }
{
    match nodes.get(key.place) {
        Some(node) => node.after,
        None => None,
    }
}

/// The least entry of a slot, which all of its chain is gone through for.
fn search_least<T>(nodes: &Slab<Node<T>>, slots: &Slots, slot: usize) -> Option<Key>
    requires chained { EntriesAreChained (get nodes.now) slots.now }
    requires slot { slot < length slots.now }
    ensures least { LeastIn (get nodes.now) slot result }
{
    let mut least = None;
    let mut next = slots.get(slot).first;
    while let Some(key) = next {
        least = Some(earlier_of(nodes, least, key));
        next = behind(nodes, key);
    }
    least
}

/// The least entry of a slot. Where it wasn't known, it is looked for once, and known from then on.
fn least_in<T>(nodes: &Slab<Node<T>>, slots: &mut Slots, slot: usize) -> Option<Key>
    requires chained { EntriesAreChained (get nodes.now) slots.old }
    requires slot { slot < length slots.old }
    ensures least { LeastIn (get nodes.now) slot result }
    ensures chained { EntriesAreChained (get nodes.now) slots.new }
    ensures chains { length slots.new ≡ length slots.old }
{
    let ends = slots.get(slot);
    if ends.least.is_some() {
        return ends.least;
    }
    let least = search_least(nodes, slots, slot);
    slots.set(
        slot,
        Ends {
            first: ends.first,
            last: ends.last,
            least,
        },
    );
    least
}

/// The least entry of all: that of the chain below the base, or else of the first slot that has an entry.
pub(crate) fn earliest<T>(nodes: &Slab<Node<T>>, slots: &mut Slots) -> Option<Key>
    requires wheel { (base : ℕ) × IsWheel (get nodes.now) base slots.old }
    ensures wheel { (base : ℕ) → IsWheel (get nodes.now) base slots.old → IsWheel (get nodes.now) base slots.new }
    ensures earliest { Earliest (get nodes.now) result }
    ensures chains { length slots.new ≡ length slots.old }
{
    if slots.get(LEVELS_END).first.is_some() {
        return least_in(nodes, slots, LEVELS_END);
    }
    let slot = slots.first_filled()?;
    if slot < LEVEL_SLOTS {
        return slots.get(slot).first;
    }
    least_in(nodes, slots, slot)
}

/// The least entry of all after one was taken out, where the least before that is known.
pub(crate) fn earliest_left<T>(
    nodes: &Slab<Node<T>>,
    slots: &mut Slots,
    first: Option<Key>,
    gone: Key,
) -> Option<Key>
    requires wheel { (base : ℕ) × IsWheel (get nodes.now) base slots.old }
    requires first { leads first gone.place ≡ false → Earliest (get nodes.now) first }
    ensures wheel { (base : ℕ) → IsWheel (get nodes.now) base slots.old → IsWheel (get nodes.now) base slots.new }
    ensures earliest { Earliest (get nodes.now) result }
    ensures chains { length slots.new ≡ length slots.old }
{
    match first {
        Some(key) if key != gone => first,
        _ => earliest(nodes, slots),
    }
}
