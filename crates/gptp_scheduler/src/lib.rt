//! What orders time: an agenda of what is to be done, each entry at its time and under the number that
//! it got when it was put.
//!
//! An agenda is seen as a plain list of its entries in order of putting, beside the number that the
//! next one gets, how many more can be put without being refused, and the greatest time taken so far.
//! The least of it is the first of least time: no entry has an earlier time, and none of the same time
//! a lower number.
#![tactic(auto)]

mod agenda;
mod chains;
mod filed;
mod key;
mod laws;
mod places;
mod slots;
mod wheel;

pub use agenda::Agenda;
pub use laws::place;
