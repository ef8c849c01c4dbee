//! What carries frames: links that join two ports, with their delays and losses.
//!
//! A link is first in, first out in each direction (profile). What becomes of a frame that is sent is
//! drawn from a [`Fate`]: a delay within the link's bounds, or its loss. Each fate names the relation
//! between its state before a draw, the answer and its state after; that a delay lies in the bounds and
//! that nothing is lost where the loss is 0 holds of every fate.
//!
//! A link is seen as its bounds, whether it is up, and for each direction the frames in flight, oldest
//! first, each with the time at which it is due, and how many more can be sent without being refused.
#![tactic(auto)]

mod bounds;
mod fate;
mod flight;
mod lane;
mod laws;
mod link;
mod list_fate;
mod pcg_fate;

pub use bounds::Bounds;
pub use fate::Fate;
pub use lane::NotDue;
pub use laws::draws_join;
pub use link::{Direction, Link};
pub use list_fate::ListFate;
pub use pcg_fate::PcgFate;
