//! How exact the time is that a system computes, once the network has settled: a small machine, and its laws.
//!
//! The machine is one system that follows its parent, with the Sync that it keeps, what it knows and when it sends that
//! on, and the frames in flight from the parent. Its acts say of a step of the network only what the laws use (IEEE
//! 802.1AS-2020, 10.2.9, 11.2.14 and 11.2.15): a frame arrives, the parent sends Sync and Follow_Up, what is known is
//! sent on, and others send. What the octets of a frame mean, how long it takes between the least and the greatest
//! delay of its link, and what was in flight, kept or known as the network settled are free.
//!
//! The definitions stand in `specs/`. Each function of this crate is a law: it does nothing, and its contract is a
//! theorem about the definitions. What Syncs and Follow_Ups in flight bring, and what a bridge knows, is right within
//! the time error of gptp_error_laws; and so is the offset that a system computes at each Follow_Up that belongs to the
//! Sync that it keeps. Nothing says that a Sync comes. Lemmas for the crates above are in the public modules of
//! `proofs/`.
//!
//! What a world must show to be such a machine is said where it is defined. Nothing else is supposed. Each near live
//! system that isn't its own root is one machine from when the network is settled (`settled_worlds_follow` of
//! gptp_invariants). The invariant begins by itself, and every act that changes nothing of the network keeps it
//! (`carried_time_is_kept`). So it holds in every world wherever that is calm for long enough
//! (`carried_time_is_claimed`), and `offsets_are_exact` says what a Follow_Up that is used then leaves.
#![tactic(auto)]

mod coding;
mod examples;
mod follower;
mod right;
mod tree;

pub use coding::Coding;
pub use examples::sync_over_two_links;
pub use follower::{
    invariant_begins, invariant_holds_later, invariant_kept, offset_is_exact, parent_tells_right,
    parents_numbers_fit, root_tells, runs_keep_invariant,
};
pub use right::{
    bridge_numbers_fit, bridge_tells_right, corrections_are_small, exchanges_measure_right,
    held_is_right, offset_is_right, rates_are_held, right_stays, root_tells_right, ways_are_modest,
};
pub use tree::{
    parents_are_measured, parents_are_parents, way_ends_at_parent, way_exists, way_is_one,
    way_leads_to, ways_are_settings,
};
