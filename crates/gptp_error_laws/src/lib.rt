//! How exact the time is that gPTP carries to a system, by the links and clocks on the way to it.
//!
//! A way is what a planner knows of it: the least and the greatest delay of each link, the drifts of the clocks, what
//! their time stamps are off, the interval over which a rate is measured, the turnaround and the residence. Over it
//! stands one number, the time error, in units of 2^-16 ns: each link costs its jitter and what time stamps are off
//! twice, and each bridge its residence times the error of the rate so far, to which each link above adds as much over
//! the interval. Two limits of rates cut that error: a neighbour rate is held at
//! 200 parts in a million, and a rate that is told has 32 bits.
//!
//! The definitions stand in `specs/`, the time error in `TimeError`. Each function of this crate is a law: it does
//! nothing, and its contract is a theorem about the definitions. The time that is carried over the whole way is within
//! the time error of the root's clock, and so is the offset that a system computes. [`examples`] has ways whose time
//! error is worked out by hand. Lemmas for the crates above are in the public modules of `proofs/`.
#![tactic(auto)]

pub mod examples;
pub mod laws;
