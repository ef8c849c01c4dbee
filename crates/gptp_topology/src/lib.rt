//! How the links and systems of a document stand at its times, in one pass over its events: which links are in use and
//! which of them aren't good or lose frames, whether the network is calm, and how long it then takes at most to settle
//! (profile).
#![tactic(auto)]

mod course;
mod nodes;
mod tables;
mod times;
mod trouble;

pub use course::{Cable, Standing, cables_of, course_of, is_used, named, names_of};
pub use nodes::{Neighbour, Node, System};
pub use tables::{Mark, Tables};
pub use times::{CalmTime, calm_times};
pub use trouble::{is_long, loss_in_use, needed};
