//! A world that a network and its events lead to stands as they say.
//!
//! Promises on whole runs speak of a network and a list of events; the laws of settling speak of the state of a world.
//! This crate joins the two (`specs/Reached.antt`): the world has the systems and the links that the network has after
//! those events. So it begins, every delivery and every expiry leaves it so, and a change leads to the events with that
//! change after them.
//!
//! So the snapshot of the world is that of the network, but for the order of its systems (`specs/StandingLaws.antt`),
//! of which nothing depends that a network settles at (`specs/AlikeLaws.antt`); and it is as calm as the network is.
//! What the systems of a document's world say is then the settled choice of the document's snapshot
//! (`specs/SettleLaws.antt`), on which the command `run` stands.
//!
//! The settling theorem as a whole stands on one page, `specs/Headline.antt`: what it asks of a world, and what every
//! world then is. The module `headline` has its laws. How soon a network settles after a start or a gain stands on
//! another, `specs/Soon.antt`, with the module `soon`.
//!
//! Each function of this crate is a law: it does nothing, and its contract is a theorem about the definitions.
#![tactic(auto)]

mod headline;
mod laws;
mod soon;

pub use headline::{
    documents_lead_to_settled_worlds, documents_settle_at_once, runs_are_exact, worlds_are_exact,
    worlds_settle,
};
pub use laws::{
    calm_documents_rest, calm_is_kept, calm_stands, changes_stand, documents_are_calm,
    documents_are_playable, documents_keep, documents_settle, documents_stand, events_are_made,
    order_does_not_matter, played_documents_settle, snapshots_stand, worlds_begin_so,
    worlds_stay_so,
};
pub use soon::{gains_settle, starts_settle, worlds_stay_sound};
