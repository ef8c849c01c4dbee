//! What an application reads of the time of its root at any moment, and how exact that is.
//!
//! The theorem of gptp_theorem bounds the offset that a Follow_Up leaves, at the instant at which it comes. Here it
//! is said of every later time what is read: between two Follow_Ups, in holdover, and while the network changes.
//! `specs/Reading.antt` defines what is read; its error is defined in gptp_error_laws. `specs/Readings.antt` is the
//! theorem on one page, and `specs/Age.antt` says how old what is known may be.
//!
//! Each function of this crate is a law: it does nothing, and its contract is a theorem about the definitions.
#![tactic(auto)]

mod age;
mod laws;
mod readings;

pub use age::{runs_hear_in_time, worlds_are_recent};
pub use laws::{held_is_read, reading_is_exact, reading_is_right, reading_is_within};
pub use readings::{runs_read_exactly, runs_read_in_time, worlds_leave_time, worlds_read_exactly};
