//! What every world of a network keeps, that it settles, and how exact its offsets are then.
//!
//! The state of a world is that of `gptp_model`, and so are its acts. Each subject has its definitions in `specs/`, and
//! its laws in a module:
//!
//! - [`world_known`]: what is known of every item at every time, in lossy and changing networks too: when timers and
//!   frames are due, and which ports measure;
//! - [`choice_seen`]: a world as a state of the machine of `gptp_bmca_machine`, and its acts as the machine's;
//! - [`choice_calm`]: the snapshot of a world, and a calm world as a calm state of that machine;
//! - [`choice_settled`]: the claim of that machine on worlds, kept by every act;
//! - [`delay_link_acts`], [`delay_link_facts`], [`delay_link_watch`], [`delay_link_worlds`]: one link as the machine of
//!   `gptp_pdelay_machine`;
//! - [`failed_acts`], [`failed_silence`], [`failed_worlds`]: a port beside a failed system as such a machine;
//! - [`delay_capable`]: ports at links in use become capable;
//! - [`delay_measured_links`]: ports have measured the links in use;
//! - [`world_invariant`]: all this as one claim that begins with the world of every network and is kept by every act,
//!   that worlds settle, and what the calls of a world show then;
//! - [`world_bounded`]: what the systems of a world state of themselves then, far ones too;
//! - [`sync_acts`]: how systems tell time and hear it, as the machine of `gptp_bmca_machine` asks where something can
//!   lapse;
//! - [`sync_timed`]: the systems that follow a parent as the machine of `gptp_sync_machine`, and how exact their
//!   offsets are;
//! - [`sync_timed_claim`]: that this is so in every world, wherever it is calm for long enough, as part of all that is
//!   claimed;
//! - [`delay_elsewhere`]: what a link that an act leaves alone goes on knowing of itself, whatever changes elsewhere;
//! - [`delay_first_at`]: a link since its port has sent its first request, at a start or where it comes up;
//! - [`world_sound`]: worlds in which all that is held and in flight is sound, through acts and gains;
//! - [`world_news`]: worlds since a start, a link that comes up or another gain settle sooner;
//! - [`sync_exact`]: how exact the offsets are that acts of a world leave.
//!
//! Each port announces at an interval of its own. What is counted in announce intervals is counted in the largest of
//! them in the network.
//!
//! Each function of this crate is a law: it does nothing, and its contract is a theorem about the definitions.
#![tactic(auto)]

pub mod choice_calm;
pub mod choice_seen;
pub mod choice_settled;
pub mod delay_capable;
pub mod delay_elsewhere;
pub mod delay_first_at;
pub mod delay_link_acts;
pub mod delay_link_facts;
pub mod delay_link_watch;
pub mod delay_link_worlds;
pub mod delay_measured_links;
pub mod failed_acts;
pub mod failed_silence;
pub mod failed_worlds;
pub mod sync_acts;
pub mod sync_exact;
pub mod sync_timed;
pub mod sync_timed_claim;
pub mod world_bounded;
pub mod world_invariant;
pub mod world_known;
pub mod world_news;
pub mod world_sound;
