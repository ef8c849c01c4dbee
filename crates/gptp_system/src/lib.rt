//! One gPTP system: an end station or a time-aware bridge, in one domain (IEEE 802.1AS-2020, clauses 10 and 11).
//!
//! A [`System`] is given one frame, one timer or one change at a time, and says what it sends then: what its ports hear
//! and hold, the best master clock algorithm, the measuring of its links, and the transport of time. A call sees the
//! system's own state and that one frame, and nothing else; the state after it, its answer and its sends are exactly
//! those that the definitions in `specs/` name. No call takes memory. A [`Reach`] tells before a step at which ports it
//! can send.
#![tactic(auto)]

mod announcing;
mod answer;
mod clock;
mod input;
mod lapse;
pub mod laws;
mod measuring;
mod port;
mod reach;
mod reading;
mod selection;
mod sending;
mod start;
mod state;
mod syncing;
mod system;
mod takeover;
mod timers_changed;
mod views;

pub use answer::Answer;
pub use gptp_setup::{Params, Setup, Timer};
pub use input::{Input, Stepped};
pub use reach::Reach;
pub use reading::{Reading, TimeRead};
pub use sending::{Body, MOST_SENDS, Outbox, Sending, Sent};
pub use system::System;
pub use timers_changed::TimersChanged;
