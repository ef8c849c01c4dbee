//! What acts make of a world: the state of a world, what each act does to it, and what every act keeps.
//!
//! The state of a world stands in `specs/World.antt`, and what an act makes of it in `specs/Acts.antt`: the system that
//! is given a frame, a timer or a change takes its own step, its timers are pending as it says, its sends go onto their
//! links with one draw of the fate each, and every other system stays as it is. `specs/Sound.antt` says what is true of
//! every world, and `SoundLemmas` of `proofs/` that every act keeps it.
#![tactic(auto)]

mod carried;
mod done;
mod item;
mod station;

pub use carried::Carried;
pub use done::{Done, Refused};
pub use gptp_scenario::{Act, Change, Network, NetworkFault, Octets, Params, Timed};
pub use item::Item;
pub use station::Station;
