//! How the time of the grandmaster travels from system to system (IEEE 802.1AS-2020, 10.2 and 11.2).
//!
//! A two-step Sync carries no time: a system notes when it came, and the Follow_Up after it says what the
//! grandmaster's clock showed when the Sync left it, what has been added to that since, and how fast that
//! clock runs against the sender's. A bridge adds the time from the sender's egress to its own, at the
//! grandmaster's rate, and a slave adds the delay of its link.
//!
//! [`SyncIn`] pairs a Follow_Up with its Sync, [`relay`] is what a bridge sends and [`receipt_time`] what
//! a slave reads. [`carry`] is the whole way: its contract is one sum over all hops, while it goes from
//! hop to hop as the systems do. Every result is exact, and is refused exactly where a number that the
//! standard's arithmetic names doesn't fit its type. Nothing here takes memory; the module [`laws`] holds
//! what follows from the definitions alone.
#![tactic(auto)]

mod correction;
mod hops;
pub mod laws;
mod sync_in;

pub use correction::{Hop, Relayed, receipt_time, relay};
pub use hops::carry;
pub use sync_in::{SyncIn, SyncInfo};
