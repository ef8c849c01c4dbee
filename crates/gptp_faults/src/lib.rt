//! What becomes of the network of a document where a link or a system fails and comes back (profile).
//!
//! [`fail_each`] lets each link in use go down and each live system hang or lose its power, at several moments, and
//! come back once the network has settled, and tells of each the worst of its runs: `specs/Faults.antt` says what, by
//! what the timelines of these runs say (`specs/LastStretches.antt` of gptp_timeline). One run after the other is made.
//! Two worlds at most are there at once: that of the run, and one from which runs go on.
#![tactic(auto)]

mod astray;
mod cables;
mod case_events;
mod cases;
mod extremes;
mod faults;
mod follows;
mod laws;
mod options;
mod outcome;
mod parts;
mod ranking;
mod refusals;
mod runs;
mod stays;
mod text;
mod time_text;
mod times;
mod whole;

pub use case_events::CaseChange;
pub use faults::{Answer, fail_each};
pub use laws::{follow_lines_settle, lines_settle_within};
pub use options::{FaultsOptions, Only};
