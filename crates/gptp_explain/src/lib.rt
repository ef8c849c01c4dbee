//! Why the network of a document settles as it does, at one system (IEEE 802.1AS-2020, 10.3).
//!
//! [`explain`] tells of a live system what it follows at the settled choice and by which field of its identity the root
//! is better, over which systems, the role of each port and why it has that, and the systems of its component in their
//! order: who would be next. `specs/Explained.antt` says what each line means, over the network's graph alone.
#![tactic(auto)]

mod compared;
mod disabled;
mod explanation;
pub mod laws;
mod path;
mod ports;
mod ranks;
mod system_line;
mod why;

pub use explanation::explain;
