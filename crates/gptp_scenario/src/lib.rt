//! What is planned: a network, and what is to be done to it, as a document or a certificate knows it; no frames, no
//! timers that run, no state of a system.
//!
//! A [`Network`] is what a world starts from: systems, and links that join two of their ports, each within its limits
//! (profile). A [`Change`] is what can be done to it, and a [`Timed`] act is what happens at a moment: a frame is
//! delivered, a timer expires, or a change is made. `specs/Calm.antt` says when a network with such changes is calm,
//! `specs/SettlingTime.antt` by when it has settled, and `specs/SyncWait.antt` for how long Sync is waited for.
#![tactic(auto)]

mod calm;
mod change;
mod fault;
mod logs;
mod network;
mod octets;
mod params;
mod span;
mod sync_wait;

pub use change::{Act, Change, Timed};
pub use fault::NetworkFault;
pub use gptp_setup::Params;
pub use network::Network;
pub use octets::Octets;
pub use sync_wait::SyncPaths;
