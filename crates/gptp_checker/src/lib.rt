//! Whether a certificate is right for a network, without its frames (profile).
//!
//! [`accepts`] tests what each system of a network says that it has chosen against a snapshot of the network, system by
//! system and link by link. All tests pass exactly where the certificate is the choice that the network settles at
//! (IEEE 802.1AS-2020, 10.3), in version 1 with no system too far from its root; else the first [`Fault`] is answered.
#![tactic(auto)]

mod acceptance;
mod fault;
pub mod laws;
mod line_test;
mod lines;
mod links;
mod locating;
mod location;
mod nearer;
mod roles;
mod stated;
mod systems;
mod ties;

pub use acceptance::accepts;
pub use fault::Fault;
pub use locating::locate;
pub use location::Location;
pub use stated::{line_of, steps_of};
