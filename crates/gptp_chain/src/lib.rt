//! Queues whose values one slab holds. A queue is a chain: each value leads to the one that was put next.
#![tactic(auto)]

mod chain;
mod queues;

pub use queues::Queues;
