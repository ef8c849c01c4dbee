//! Entries by number.

ghost use Rattle.std.specs.Prelude.{◌≡◌, ℕ, ◌-◌, ◌≤◌, OnOk, IfSome, IfNone, vec_capacity, vec_len};
ghost use Rattle.slab.specs.Slab.{get};
ghost use Rattle.gptp_scheduler.specs.Chain.{held};
ghost use Rattle.gptp_scheduler.specs.Filed.{filed_at, listed, entry_lives, AreFiled, IsInSlab, Rises};

use crate::key::{Key, Node};
use slab::Slab;
use std::alloc::AllocError;

/// A number, and the key at which its entry was put. It may be gone since, and another may stand there.
#[derive(Clone, Copy)]
pub(crate) struct Filed {
    pub(crate) number: u64,
    pub(crate) key: Key,
}

/// The key that a number was filed with.
pub(crate) fn find(filed: &[Filed], number: u64) -> Option<Key>
    requires rising { (next : ℕ) × Rises 0 filed.now next }
    ensures found { IfSome result (λ key. IsInSlab (filed_at number key.place) filed.now) }
    ensures nowhere { IfNone result ((place : ℕ) → IsInSlab (filed_at number place) filed.now → ⊥) }
{
    let place = filed.partition_point(|one| one.number < number);
    let one = filed.get(place)?;
    if one.number == number {
        Some(one.key)
    } else {
        None
    }
}

/// Whether the entry of a number is there still.
pub(crate) fn is_live<T>(nodes: &Slab<Node<T>>, filed: Filed) -> bool
    ensures { result ≡ entry_lives filed.number (held (get nodes.now) filed.key.place) }
{
    match nodes.get(filed.key.place) {
        Some(node) => node.number == filed.number,
        None => false,
    }
}

/// Drops the numbers whose entries are gone.
fn sweep<T>(filed: &mut Vec<Filed>, nodes: &Slab<Node<T>>)
    ensures listed { listed (get nodes.now) filed.new.items ≡ listed (get nodes.now) filed.old.items }
    ensures filed { (next : ℕ) → AreFiled (get nodes.now) filed.old.items next
        → AreFiled (get nodes.now) filed.new.items next }
    ensures len { vec_len filed.new ≤ vec_len filed.old }
    ensures capacity { vec_capacity filed.new ≡ vec_capacity filed.old }
{
    filed.retain(|one| is_live(nodes, *one));
}

/// Makes room for so many more numbers. Where there is none, those whose entries are gone are dropped first, and there
/// is room for as much again as is left, so that they are looked for seldom.
pub(crate) fn reserve<T>(
    filed: &mut Vec<Filed>,
    additional: usize,
    nodes: &Slab<Node<T>>,
) -> Result<(), AllocError>
    ensures listed { listed (get nodes.now) filed.new.items ≡ listed (get nodes.now) filed.old.items }
    ensures filed { (next : ℕ) → AreFiled (get nodes.now) filed.old.items next
        → AreFiled (get nodes.now) filed.new.items next }
    ensures room { vec_capacity filed.old - vec_len filed.old ≤ vec_capacity filed.new - vec_len filed.new }
    ensures ok { OnOk result (additional ≤ vec_capacity filed.new - vec_len filed.new) }
{
    if filed.capacity() - filed.len() < additional {
        sweep(filed, nodes);
        filed.reserve(filed.len().saturating_add(additional))?;
    }
    Ok(())
}
