//! How a port measures the link at its end, and learns whether a neighbour is there.
//!
//! A port asks its neighbour at regular intervals, and from the four times of a full exchange of messages it has
//! the delay of the link and the rate of the neighbour's clock (IEEE 802.1AS-2020, 11.2.19). It also answers the
//! neighbour's requests (11.2.20). From what it measured follows whether it is asCapable (11.2.2), by this
//! project's profile.
//!
//! Contracts see a [`Peer`] as a record of plain data, and say for each call which record is left, by a definition
//! in `specs/` that reads as the rule does. All numbers of the definitions are whole numbers without bound;
//! whatever the stamps of the messages that are heard, what is computed from them fits, and is exact. Laws stand in
//! [`laws`], among them the one that a link which is short enough for the threshold is never measured as longer.
#![tactic(auto)]

mod answer;
mod earlier;
mod exchange;
pub mod laws;
mod packed;
mod peer;
mod progress;
mod step;

pub use answer::Answer;
pub use peer::Peer;
pub use step::Step;
