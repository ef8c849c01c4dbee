//! How soon after each time of a document all systems follow the right clock, in one pass over its events (profile).
//!
//! At a time the network either comes from any past, and the general bound stands; or it rested until then, and what
//! its events do says how soon. [`settling_times`] tells both for all times, [`settling_at`] finds one of them.
#![tactic(auto)]

mod alone;
mod bounds;
mod chosen;
#[cfg(test)]
mod documents;
#[cfg(test)]
mod failure_tests;
mod far;
mod flight;
#[cfg(test)]
mod gain_tests;
mod gains;
mod kinds;
#[cfg(test)]
mod link_tests;
mod links;
mod losses;
mod moved_trees;
mod rest;
#[cfg(test)]
mod rest_tests;
mod silent;
mod times;
mod tree;
mod turned;
mod turned_tree;
mod two_tops;
mod walk;

pub use bounds::{Loss, Row, Settling, SettlingTime};
pub use chosen::{Chosen, Ends};
pub use kinds::{Kind, Told, What};
pub use rest::Moves;
pub use times::{settling_at, settling_times};
