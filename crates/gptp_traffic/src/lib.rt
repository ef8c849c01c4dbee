//! What is between the systems of a world: links, with the frames in flight on them, and what is pending.
//!
//! A [`Traffic`] is seen as the plain list of its links and the plain list of what is pending, as gptp_model has both
//! (`specs/World.antt` there). A frame in flight is one entry: it stands in the chain of its lane, and at a place of the
//! queue that has all times in order.
#![tactic(auto)]

mod flight;
mod joined_link;
mod pending;
mod pending_index;
mod traffic;

pub use joined_link::{Join, JoinedLink, Lane};
pub use traffic::Traffic;
