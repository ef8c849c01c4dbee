//! The bounds that gptp_how_soon computes for the times of a document hold of every run.
//!
//! gptp_how_soon says for each time of a document by how much later the choice and the roles stand, and from when on
//! offsets are exact. What it says of the roles is a choice bound of gptp_settling_time, and of the choice one of the
//! choice alone (`specs/Choice.antt`). So by then each run has settled, until the next event (`specs/Settled.antt`),
//! and offsets are exact from the time that it tells (`specs/Exact.antt`).
//!
//! Each function of this crate is a law: it does nothing, and its contract is a theorem about the definitions.
#![tactic(auto)]

mod choice;
mod exact;
mod settled;

pub use choice::settlings_are_choice_bounds;
pub use exact::exact_soon;
pub use settled::{chooses_soon, ends_settled, settled_soon};
