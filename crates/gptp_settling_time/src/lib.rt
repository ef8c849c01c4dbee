//! How soon and how exactly a network settles, sharply, where it is known what it came from: its start, or rest.
//!
//! The laws of gptp_theorem say how soon a world has settled after a start or a gain (its `specs/Soon.antt`). This
//! crate goes on from there. Offsets are exact as soon as a Sync has come down a way in a world that has so settled
//! (`specs/Exactly.antt`). And a document whose events take nothing away, since it began or since it had rested, is
//! settled that soon after its last event, and so is the world after each act of its run from then on
//! (`specs/Documents.antt`). `specs/Gains.antt` says what takes nothing away, when a network has rested, and from when
//! on ports are capable.
//!
//! A change that makes nothing of what stands leaves all that is claimed (`specs/Idle.antt`).
//!
//! Where the greatest delay of each new link is below twice its least no announce interval has to pass: after a start
//! (`specs/Starts.antt`), and event by event after links come up and a priority1 gets better. An event that changes
//! nothing asks for no time (`specs/Leads.antt`), nor does a priority1 by which no system is moved
//! (`specs/Losses.antt`). After a link goes down by which one system alone is moved, 1 ns and the greatest delay for
//! each system of a path but one have to pass. Once a document has settled no act leaves a system another
//! (`specs/Unchanged.antt`), and offsets are exact as soon as a Sync has come down a way (`specs/ExactInTurn.antt`). So
//! the choice stands by the bound that `specs/HowSoon.antt` has for each time of a document
//! (`specs/ChoiceBounds.antt`). After a system fails that is the far end of its links the choice stands though roles
//! change still (`specs/ChoiceAlone.antt`).
//!
//! Each function of this crate is a law: it does nothing, and its contract is a theorem about the definitions.
#![tactic(auto)]

mod choice_bounds;
mod documents;
mod exact_in_turn;
mod exactly;
mod idle;
mod in_turn;
mod starts;
mod unchanged;

pub use choice_bounds::{choice_alone_bounds_hold, choice_bounds_are_exact, choice_bounds_hold};
pub use documents::{documents_settle_soon, runs_are_exact_soon, runs_begin_so};
pub use exact_in_turn::documents_are_exact_in_turn;
pub use exactly::news_are_exact;
pub use idle::idle_changes_leave_settled;
pub use in_turn::{choice_stands_in_turn, documents_settle_in_turn};
pub use starts::starts_settle_at_once;
pub use unchanged::{acts_leave_choice, acts_leave_shown};
