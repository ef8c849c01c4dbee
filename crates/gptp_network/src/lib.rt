//! Networks as documents: TOML text that names systems, links, and what is changed when.
//!
//! A [`Document`] is read from such a text exactly where no test fails (memory aside), and is refused by the first test
//! that does. It is the network and the events that the text means: `specs/` lists the keys of each section in their
//! order, with their ranges and defaults. The table of the text is read once, and where it is refused, a [`Refusal`]
//! says where, and what the test saw. A document tells whether the network is calm after its last event, and by when it
//! has settled then, and gives the network as it stands at a time, as a [`Snapshot`].
#![tactic(auto)]

mod document;
mod events;
mod fault;
mod found;
mod intervals;
mod keys;
pub mod laws;
mod links;
mod members;
mod params;
mod path_bound;
mod place;
mod snapshot;
mod span;
mod systems;
mod taking;
mod values;
mod why;

pub use document::Document;
pub use fault::DocumentFault;
pub use keys::{
    EVENT_KEYS, INJECT_KEYS, LATEST_EVENT, LINK_EVENT_KEYS, LINK_KEYS, LINK_SET_KEYS, NETWORK_KEYS,
    Name, PRIORITY1_KEYS, SYSTEM_EVENT_KEYS, SYSTEM_KEYS_1, SYSTEM_KEYS_2, TOP_KEYS,
};
pub use place::{Place, Section};
pub use snapshot::Snapshot;
pub use why::{Front, Refusal, Shape, Why};
