//! A queue of what is due, at most one thing at each place, in order of time.
//!
//! It is seen as a plain list of its entries in order of putting, each with its time, its number and its place. The
//! next is the first of least time: no entry has an earlier time, and none of the same time a lower number.
#![tactic(auto)]

mod before;
mod entry;
mod far;
mod heap;
mod maybe_entry;
mod order;
mod queue;
mod ring;
mod run;
mod slots;
mod table;

pub use entry::Entry;
pub use queue::Queue;
