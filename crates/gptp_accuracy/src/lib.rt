//! How exact the time is that each system of a network gets, by its document alone and without a run.
//!
//! [`time_errors`] answers for the network of a document as it stands at a time: where it is calm then, each system
//! that follows a grandmaster and isn't too far from it has a time error, in units of 2^-16 ns, by the links and clocks
//! on the way from its root. The way goes along the parents of the settled choice, and the time error is that of
//! gptp_error_laws; `specs/` says what they are. [`write_accuracy`] writes them as text.
#![tactic(auto)]

mod delays;
mod drifts;
mod errors;
pub mod laws;
mod options;
mod reading;
mod settlings;
mod sums;
mod text;
mod ways;

pub use errors::{SystemError, TimeErrors, exact_from, time_errors, time_errors_among};
pub use options::AccuracyOptions;
pub use reading::ReadingError;
pub use settlings::settling_of;
pub use text::{Thousandths, write_accuracy};
