//! Worked rows of networks and documents, as an outside caller sees them: also that whatever the order of acts and the
//! fate of frames, a calm network settles in time.
//!
//! What they expect was written down before the code. What is in `ages`, `bounds`, `drawn`, `readings`, `soon` and
//! `stamps` is no test: their contracts follow from those of the crates below.
#![tactic(auto)]

pub mod ages;
#[cfg(test)]
mod at_rest;
#[cfg(test)]
mod backwards;
pub mod bounds;
#[cfg(test)]
mod constants;
#[cfg(test)]
mod document;
pub mod drawn;
#[cfg(test)]
mod paths;
#[cfg(test)]
mod printed;
pub mod readings;
#[cfg(test)]
mod ring;
#[cfg(test)]
mod same;
pub mod soon;
pub mod stamps;
