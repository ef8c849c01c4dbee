//! The components of a network as it stands at a time: which system is the best of each, and how far the others are
//! from it (IEEE 802.1AS-2020, 10.3).
//!
//! [`distances`] searches breadth first, from the best system of each component over the links that are up between two
//! live systems, and answers of each live system which that best is and how many links away. What these are is said by
//! gptp_graph: `IsBest` and `IsDistance`. Two systems are of one component exactly where their bests are one
//! ([`laws::one_component`]).
#![tactic(auto)]

mod distance;
pub mod laws;
mod search;

pub use distance::{Distance, distance_of};
pub use search::distances;
