//! What a port holds of the announcements that it heard.
//!
//! IEEE 802.1AS-2020 keeps for each port the best information that it received, and lets it age
//! (10.3.10 to 10.3.12). This crate has the rules of this project's profile for it: when an Announce
//! is taken for heard at all, what it does to what the port holds, and when that is dropped.
//!
//! An Announce qualifies exactly where none of four tests fails, and is refused by the first that
//! does. What hearing and ageing leave is a function of what the port held, of the Announce and of the
//! time. What a port holds as received came less than 255 steps over at most 255 clocks, and not over
//! the port's own. How long it stays there follows from the interval that its Announce named.
#![tactic(auto)]

mod held;
mod qualification;
mod span;

pub use held::{Heard, Held, Reception, age, due, hear};
pub use qualification::{Why, qualify};
pub use span::span_of;
