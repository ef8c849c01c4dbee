//! The world in which systems run: the state that gptp_model describes, kept so that an act costs its own work.
//!
//! A [`World`] begins with all systems of a [`Network`] started. An act that is timely, there and due is done whole, as
//! `specs/Acts.antt` of gptp_model says. Any other act is refused by the first test that it fails, and changes nothing.
//! Left to itself a world does what is next, up to a time; an [`Observer`] may see each act as it was done, and write
//! lines about it (`specs/Observing.antt`).
#![tactic(auto)]

mod act_target;
mod advancing;
mod buffers;
mod building;
mod changing;
mod checking;
mod copying;
mod delivering;
mod directory;
mod expiring;
mod net;
mod no_observer;
mod observer;
mod octets;
mod performing;
mod room;
mod starting;
mod telling;
mod timing;
mod used;
mod views;
mod world;
mod world_core;
mod world_parts;

pub use gptp_model::{Act, Change, Done, Network, NetworkFault, Octets, Params, Refused, Timed};
pub use observer::Observer;
pub use world::World;
