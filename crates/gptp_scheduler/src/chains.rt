//! Chains through the entries, one for each slot, by rising number.

ghost use Rattle.std.specs.Prelude.{◌≡◌, ◌<◌, ◌==◌, length, Option, Some, None};
ghost use Rattle.std.specs.Option.{option_map};
ghost use Rattle.slab.specs.Slab.{get, Updates};
ghost use Rattle.gptp_scheduler.specs.Chain.{with_after, with_before, with_place, entry_joined_after, joined_before, ends_without, earlier_key, least_with, entry_time, SameEntryRoom, EntriesAreChained, StandsIn, IsAboveAll, Moves, Relinks, OUT as OUTSIDE};

use crate::key::{Key, Node, OUT};
use crate::slots::{Ends, Slots};
use slab::Slab;

/// Makes the link after an entry lead elsewhere.
fn set_after<T>(nodes: &mut Slab<Node<T>>, key: Key, after: Option<Key>)
    ensures updates { Updates nodes.old nodes.new key.place (option_map (with_after after) (get nodes.old key.place)) }
    ensures room { SameEntryRoom nodes.old nodes.new }
{
    if let Some(node) = nodes.get_mut(key.place) {
        node.after = after;
    }
}

/// Makes the link before an entry lead elsewhere.
fn set_before<T>(nodes: &mut Slab<Node<T>>, key: Key, before: Option<Key>)
    ensures updates { Updates nodes.old nodes.new key.place
        (option_map (with_before before) (get nodes.old key.place)) }
    ensures room { SameEntryRoom nodes.old nodes.new }
{
    if let Some(node) = nodes.get_mut(key.place) {
        node.before = before;
    }
}

/// Gives an entry a slot and both links.
fn set_place<T>(
    nodes: &mut Slab<Node<T>>,
    key: Key,
    slot: usize,
    before: Option<Key>,
    after: Option<Key>,
)
    ensures updates { Updates nodes.old nodes.new key.place
        (option_map (with_place slot before after) (get nodes.old key.place)) }
    ensures room { SameEntryRoom nodes.old nodes.new }
{
    if let Some(node) = nodes.get_mut(key.place) {
        node.slot = slot;
        node.before = before;
        node.after = after;
    }
}

/// Makes the link after an entry lead elsewhere, if there is such an entry.
fn join_after<T>(nodes: &mut Slab<Node<T>>, before: Option<Key>, after: Option<Key>)
    ensures joined { Relinks (get nodes.old) (get nodes.new) (entry_joined_after before after) }
    ensures room { SameEntryRoom nodes.old nodes.new }
{
    if let Some(key) = before {
        set_after(nodes, key, after);
    }
}

/// Makes the link before an entry lead elsewhere, if there is such an entry.
fn join_before<T>(nodes: &mut Slab<Node<T>>, before: Option<Key>, after: Option<Key>)
    ensures joined { Relinks (get nodes.old) (get nodes.new) (joined_before before after) }
    ensures room { SameEntryRoom nodes.old nodes.new }
{
    if let Some(key) = after {
        set_before(nodes, key, before);
    }
}

/// When an entry is due.
pub(crate) fn time_at<T>(nodes: &Slab<Node<T>>, key: Key) -> u64
    ensures { result ≡ entry_time (get nodes.now) key.place }
{
    match nodes.get(key.place) {
        Some(node) => node.time,
        None => 0,
    }
}

/// The earlier of two entries, where the second has the higher number.
pub(crate) fn earlier<T>(nodes: &Slab<Node<T>>, one: Key, other: Key) -> Key
    ensures { result ≡ earlier_key (get nodes.now) one other }
{
    if time_at(nodes, other) < time_at(nodes, one) {
        other
    } else {
        one
    }
}

/// The least of a chain with an entry more, where that is known.
fn least_with_entry<T>(nodes: &Slab<Node<T>>, ends: Ends, key: Key) -> Option<Key>
    ensures { result ≡ least_with (get nodes.now) ends.least ends.first key }
{
    match ends.least {
        Some(least) => Some(earlier(nodes, least, key)),
        None => match ends.first {
            Some(_) => None,
            None => Some(key),
        },
    }
}

/// The ends of a chain without an entry that stood between these two.
fn ends_without_entry(ends: Ends, key: Key, before: Option<Key>, after: Option<Key>) -> Ends
    ensures { result ≡ ends_without key.place before after ends }
{
    Ends {
        first: if before.is_none() { after } else { ends.first },
        last: if after.is_none() { before } else { ends.last },
        least: match ends.least {
            Some(least) if least == key => None,
            least => least,
        },
    }
}

/// Takes an entry out of its chain. It stands in none then.
pub(crate) fn unlink<T>(nodes: &mut Slab<Node<T>>, slots: &mut Slots, key: Key)
    requires chained { EntriesAreChained (get nodes.old) slots.old }
    requires stands { StandsIn (get nodes.old) slots.old key.place }
    ensures chained { EntriesAreChained (get nodes.new) slots.new }
    ensures moved { Moves (get nodes.old) (get nodes.new) key.place OUTSIDE }
    ensures room { SameEntryRoom nodes.old nodes.new }
    ensures len { length slots.new ≡ length slots.old }
{
    let node = nodes.get(key.place).unwrap();
    let (slot, before, after) = (node.slot, node.before, node.after);
    join_after(nodes, before, after);
    join_before(nodes, before, after);
    set_place(nodes, key, OUT, None, None);
    let ends = slots.get(slot);
    slots.set(slot, ends_without_entry(ends, key, before, after));
}

/// Puts an entry that stands in no chain, and whose number is above all of a slot, at the end of its chain.
pub(crate) fn push_back<T>(nodes: &mut Slab<Node<T>>, slots: &mut Slots, slot: usize, key: Key)
    requires chained { EntriesAreChained (get nodes.old) slots.old }
    requires slot { slot < length slots.old }
    requires next { IsAboveAll (get nodes.old) slot key.place }
    ensures chained { EntriesAreChained (get nodes.new) slots.new }
    ensures moved { Moves (get nodes.old) (get nodes.new) key.place slot }
    ensures room { SameEntryRoom nodes.old nodes.new }
    ensures len { length slots.new ≡ length slots.old }
{
    let ends = slots.get(slot);
    let least = least_with_entry(nodes, ends, key);
    join_after(nodes, ends.last, Some(key));
    set_place(nodes, key, slot, ends.last, None);
    let first = ends.first.or(Some(key));
    slots.set(
        slot,
        Ends {
            first,
            last: Some(key),
            least,
        },
    );
}
