//! Values in order of putting, chained through a slab.

ghost use Rattle.std.specs.Prelude.{◌≡◌, ◌+◌, ◌-◌, ◌^◌, ◌<◌, ◌≤◌, ◌==◌, [], ◌∷◌, ◌++◌, slice_get};
ghost use Rattle.std.specs.Option.{option_copied, option_map};
ghost use Rattle.slab.specs.Slab.{get, slab_len, HasRoomFor, Updates};
ghost use Rattle.gptp_chain.specs.Chain.{no_chain, chain_values, with_last, with_next, ChangesOne, IsChained, JoinsValue, SameNodeRoom};

use slab::Slab;
use std::alloc::AllocError;

/// A value, and the key of the one that was put next in its chain.
#[derive(Drop)]
pub(crate) struct Node<T> {
    value: T,
    // It leads anywhere where nothing was put after this.
    next: usize,
}

impl<T: Clone> Clone for Node<T> {
    ghost use Rattle.gptp_chain.specs.Chain.{IsNodeClone};

    ghost is_clone = { IsNodeClone T.is_clone };

    fn clone(&self) -> Result<Self, AllocError> {
        Ok(Node {
            value: self.value.clone()?,
            next: self.next,
        })
    }
}

/// Makes a value lead to another.
fn set_next<T>(nodes: &mut Slab<Node<T>>, key: usize, next: usize)
    ensures updates { Updates nodes.old nodes.new key (option_map (with_next next) (get nodes.old key)) }
    ensures room { SameNodeRoom nodes.old nodes.new }
{
    if let Some(node) = nodes.get_mut(key) {
        node.next = next;
    }
}

/// A slab holds no more than can be counted.
fn can_be_counted<T>(nodes: &Slab<Node<T>>)
    ensures { slab_len nodes.now < 2 ^ 64 }
{
    let _ = nodes.len();
}

/// Values in order of putting: a chain through a slab, which is lent to each call.
#[derive(Clone, Copy)]
pub(crate) struct Chain {
    // The keys of the first value and of the last, where there is one.
    head: usize,
    tail: usize,
    // How many there are.
    count: usize,
}

impl Chain {
    /// No value.
    pub(crate) fn new() -> Chain
        ensures { result ≡ no_chain }
    {
        Chain {
            head: 0,
            tail: 0,
            count: 0,
        }
    }

    /// Puts a value behind all others.
    pub(crate) fn push<T>(&mut self, nodes: &mut Slab<Node<T>>, value: T)
        requires chained { IsChained (get nodes.old) self.old }
        requires few { self.old.count ≤ slab_len nodes.old }
        requires room { HasRoomFor nodes.old 1 }
        ensures values { chain_values (get nodes.new) self.new ≡ chain_values (get nodes.old) self.old ++ value ∷ [] }
        ensures others { ChangesOne (get nodes.old) (get nodes.new) self.old self.new }
        ensures count { self.new.count ≡ self.old.count + 1 }
        ensures len { slab_len nodes.new ≡ slab_len nodes.old + 1 }
        ensures capacity { nodes.new.capacity ≡ nodes.old.capacity }
    {
        let key = nodes.insert_reserved(Node { value, next: 0 });
        self.join(nodes, key);
        can_be_counted(nodes);
        *self = self.with_last(key);
    }

    /// Makes the last value, if there is one, lead to another.
    fn join<T>(&self, nodes: &mut Slab<Node<T>>, key: usize)
        ensures joined { JoinsValue (get nodes.old) (get nodes.new) self.now key }
        ensures room { SameNodeRoom nodes.old nodes.new }
    {
        if self.count > 0 {
            set_next(nodes, self.tail, key);
        }
    }

    /// The chain with a value more, the last.
    fn with_last(self, key: usize) -> Chain
        requires { self.count + 1 < 2 ^ 64 }
        ensures { result ≡ with_last key self }
    {
        Chain {
            head: if self.count == 0 { key } else { self.head },
            tail: key,
            count: self.count + 1,
        }
    }

    /// Takes the first value out, of those that there are.
    pub(crate) fn pop<T>(&mut self, nodes: &mut Slab<Node<T>>) -> T
        requires chained { IsChained (get nodes.old) self.old }
        requires some { 0 < self.old.count }
        ensures values { chain_values (get nodes.old) self.old ≡ result ∷ chain_values (get nodes.new) self.new }
        ensures others { ChangesOne (get nodes.old) (get nodes.new) self.old self.new }
        ensures count { self.new.count + 1 ≡ self.old.count }
        ensures len { slab_len nodes.new + 1 ≡ slab_len nodes.old }
        ensures capacity { nodes.new.capacity ≡ nodes.old.capacity }
    {
        let Node { value, next } = nodes.remove(self.head);
        self.head = next;
        self.count -= 1;
        value
    }

    /// Whether there is no value.
    pub(crate) fn is_empty(&self) -> bool
        ensures { result ≡ (self.now.count == 0) }
    {
        self.count == 0
    }

    /// The first value, if there is one.
    pub(crate) fn first<'a, T>(&self, nodes: &'a Slab<Node<T>>) -> Option<&'a T>
        requires { IsChained (get nodes.now) self.now }
        ensures { option_copied result ≡ slice_get (chain_values (get nodes.now) self.now) 0 }
    {
        if self.count == 0 {
            return None;
        }
        match nodes.get(self.head) {
            Some(node) => Some(&node.value),
            None => None,
        }
    }

    /// The last value, if there is one.
    pub(crate) fn last<'a, T>(&self, nodes: &'a Slab<Node<T>>) -> Option<&'a T>
        requires { IsChained (get nodes.now) self.now }
        ensures { option_copied result ≡ slice_get (chain_values (get nodes.now) self.now) (self.now.count - 1) }
    {
        if self.count == 0 {
            return None;
        }
        match nodes.get(self.tail) {
            Some(node) => Some(&node.value),
            None => None,
        }
    }
}
