//! What texts are written to.
//!
//! A [`Sink`] tells the octets that were written to it and counts the writes that failed. [`write_whole`] writes a
//! text, or a front of it; [`Cut`] says why a text ends before its end.
#![tactic(auto)]

mod cut;
pub mod sink;
mod writing;

pub use cut::Cut;
pub use writing::write_whole;
