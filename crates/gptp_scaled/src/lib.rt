//! Exact times, intervals and rates of gPTP (IEEE 802.1AS-2020, 6.4.3 and 11.4.4.3.6): whole numbers in units of 2^-16
//! ns, and rates in units of 2^-41.
//!
//! Every result is the exact number that the standard's arithmetic names, rounded down where it names a fraction; no
//! sum, product or quotient wraps on the way. A call answers [`OutOfRange`] exactly where that number does not fit its
//! type, and [`Stamp::new`] refuses exactly what is no timestamp, by the first test that fails. Nothing here takes
//! memory, and no call has a condition; the module [`laws`] holds what follows from the definitions alone.
#![tactic(auto)]

mod interval;
pub mod laws;
mod out_of_range;
mod rate;
mod scaled_ns;
mod stamp;
mod time_stamp;

pub use interval::Interval;
pub use out_of_range::OutOfRange;
pub use rate::Rate;
pub use scaled_ns::ScaledNs;
pub use stamp::{Stamp, StampError};
pub use time_stamp::Stamping;
