//! What isn't as it should be in the document of a network, without a run: where and why it is refused, or what a
//! planner may have overlooked.
#![tactic(auto)]

mod components;
mod ending;
mod escaped;
mod findings;
mod graph;
mod keys;
mod labels;
pub mod laws;
mod nearest;
mod outline;
mod place;
mod refusal;
mod source;
mod text;
mod trouble;
mod unknown;
mod unlinked;
mod why;

pub use findings::{Findings, find};
pub use refusal::write_refusal;
pub use text::write_findings;
pub use trouble::{Long, Lossy};
