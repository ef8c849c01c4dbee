//! Worked rows of worlds, as an outside caller sees them.
//!
//! What they expect was written down before the code.
#![tactic(auto)]

#[cfg(test)]
mod far;
#[cfg(test)]
mod injections;
#[cfg(test)]
mod intervals;
#[cfg(test)]
mod same;
#[cfg(test)]
mod used;
#[cfg(test)]
mod world;
