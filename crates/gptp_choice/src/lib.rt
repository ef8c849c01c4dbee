//! The choice that a network settles at, found from its snapshot and without a run (IEEE 802.1AS-2020, 10.3).
//!
//! [`settled_choice`] takes of each live system the best of its component and how many links it is from that
//! ([`gptp_components::distances`]), looks over which of its links it follows, and gives each port its role. That the
//! lines are the settled choice of gptp_graph is proved: each network has one, and so the only error is that memory ran
//! out.
#![tactic(auto)]

mod choice;
mod line;
mod parent;
mod role;

pub use choice::settled_choice;
