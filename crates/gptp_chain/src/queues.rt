//! Queues through one slab.

ghost use Rattle.std.specs.Prelude.{◌≡◌, ◌↔◌, ℕ, ◌+◌, ◌-◌, ◌<◌, ◌≤◌, [], ◌∷◌, ◌++◌, drop, length, slice_get, IfOk, IsOk, IsTrue, OnOk};
ghost use Rattle.std.specs.Option.{option_copied};
ghost use Rattle.gptp_chain.specs.Queues.{queue_at, with_queue_at};

use crate::chain::{Chain, Node};
use slab::Slab;
use std::alloc::{AllocError, Global};
use std::marker::Model;

/// Queues, each at a place, from 0. They are seen as the list of them, each a list of values in order of putting, and
/// how many more values can be put.
#[derive(Drop)]
pub struct Queues<T> {
    // The values of all queues.
    nodes: Slab<Node<T>>,
    chains: Vec<Chain>,
}

impl<T> Model for Queues<T> {
    ghost use Rattle.gptp_chain.specs.Queues.{queues_code, QueuesState};

    ghost Value = { QueuesState T };

    ghost coded = { queues_code T.code };

    ghost use Rattle.std.specs.Prelude.{◌-◌, map};
    ghost use Rattle.slab.specs.Slab.{get, slab_len};
    ghost use Rattle.gptp_chain.specs.Chain.{chain_values, AreChained};

    ghost view = { λ q. record {
      queues = map (chain_values (get q.nodes)) q.chains.items;
      room = q.nodes.capacity - slab_len q.nodes;
    } };

    ghost invariant = { λ q. AreChained q.nodes q.chains.items };
}

impl<T> Queues<T> {
    /// So many queues, with no value. Refused where there is no memory for them.
    pub fn new(alloc: Global, count: usize) -> Result<Self, AllocError>
        ensures len { IfOk result (λ queues. length queues.queues ≡ count) }
        ensures none { IfOk result (λ queues. (place : ℕ) → queue_at place queues ≡ []) }
    {
        let chains = vec![in alloc; Chain::new(); count]?;
        Ok(Queues {
            nodes: Slab::new(alloc),
            chains,
        })
    }

    /// How many more values there is room for.
    pub fn room(&self) -> usize
        ensures { result ≡ self.now.room }
    {
        self.nodes.capacity() - self.nodes.len()
    }

    /// Whether no queue has a value.
    pub fn are_empty(&self) -> bool
        ensures { IsTrue result ↔ ((place : ℕ) → queue_at place self.now ≡ []) }
    {
        self.nodes.is_empty()
    }

    /// Makes room for so many more values, wherever they are put. Refused where there is no memory for them.
    pub fn reserve(&mut self, additional: usize) -> Result<(), AllocError>
        ensures kept { self.new ≡ record self.old { room = self.new.room } }
        ensures room { self.old.room ≤ self.new.room }
        ensures ok { OnOk result (additional ≤ self.new.room) }
        ensures succeeds { additional ≤ self.old.room → IsOk result }
    {
        self.nodes.reserve(additional)
    }

    /// Puts a value behind the others at a place.
    pub fn push(&mut self, place: usize, value: T)
        requires place { place < length self.old.queues }
        requires room { 0 < self.old.room }
        ensures { self.new ≡ with_queue_at place (queue_at place self.old ++ value ∷ []) (self.old.room - 1) self.old }
    {
        self.chains[place].push(&mut self.nodes, value);
    }

    /// Takes the first value at a place out, if there is one.
    pub fn pop(&mut self, place: usize) -> Option<T>
        requires { place < length self.old.queues }
        ensures value { result ≡ slice_get (queue_at place self.old) 0 }
        ensures rest { self.new ≡ with_queue_at place (drop 1 (queue_at place self.old)) self.new.room self.old }
        ensures room { self.old.room ≤ self.new.room }
    {
        if self.chains[place].is_empty() {
            return None;
        }
        Some(self.chains[place].pop(&mut self.nodes))
    }

    /// Whether there is no value at a place.
    pub fn is_empty(&self, place: usize) -> bool
        requires { place < length self.now.queues }
        ensures { IsTrue result ↔ (queue_at place self.now ≡ []) }
    {
        self.chains[place].is_empty()
    }

    /// The first value at a place, if there is one.
    pub fn first(&self, place: usize) -> Option<&T>
        requires { place < length self.now.queues }
        ensures { option_copied result ≡ slice_get (queue_at place self.now) 0 }
    {
        self.chains[place].first(&self.nodes)
    }

    /// The last value at a place, if there is one.
    pub fn last(&self, place: usize) -> Option<&T>
        requires { place < length self.now.queues }
        ensures { option_copied result ≡ slice_get (queue_at place self.now) (length (queue_at place self.now) - 1) }
    {
        self.chains[place].last(&self.nodes)
    }
}

impl<T: Clone> Queues<T> {
    ghost use Rattle.std.specs.Prelude.{◌≡◌, ◌≤◌, IfOk};

    /// Queues with the same values, where a clone is the same, and with no less room. Refused where a value can't be
    /// cloned, or for want of memory.
    pub fn copy(&self, alloc: Global) -> Result<Self, AllocError>
        requires { (value copy : T) → T.is_clone value copy → copy ≡ value }
        ensures queues { IfOk result (λ queues. queues.queues ≡ self.now.queues) }
        ensures room { IfOk result (λ queues. self.now.room ≤ queues.room) }
    {
        let chains = Vec::from_slice(alloc, &self.chains)?;
        let mut nodes = self.nodes.clone()?;
        nodes.reserve(self.room())?;
        Ok(Queues { nodes, chains })
    }
}
