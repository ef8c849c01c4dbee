//! What systems are set up with: the parameters that are the same for all systems of a network, what one system has of
//! its own, the names of its timers, how long intervals of messages are (IEEE 802.1AS-2020, 10.7 and 11.5.2), and how
//! exactly time is stamped. The limits of a simulation stand here as well.
#![tactic(auto)]

mod interval;
mod limits;
mod setup;
mod stamping;
mod timer;

pub use interval::{interval_of, lapse_span};
pub use limits::{LAST_MOMENT, MOST_PORTS};
pub use setup::{Params, Setup};
pub use stamping::{blur_of, rate_interval};
pub use timer::Timer;
