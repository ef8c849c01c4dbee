//! Why networks of gPTP settle: a machine of the settling theorem, and its laws.
//!
//! The machine has systems with what their ports hold, and a lane for each direction of each link with the frames in
//! flight on it. A step of it says of a real step no more than the argument needs: who may send what, what an
//! Announce does to what a port holds, that a lane is first in, first out. Octets are opaque, and which of them say
//! which Announce, Sync or Follow_Up is a parameter of every law. What is known of a state besides is a list of facts
//! of one item each, `Calm`; a world has a settling theorem once it is shown to be such a machine.
//!
//! The comments in `specs/` say of each of these facts why it is so of a simulated world, and by which law of
//! `gptp_invariants`. Its laws `claim_is_kept` and `worlds_settle` draw the conclusion act by act, of every world. The
//! one premise, that quiet links make ports capable (`AreCapableFrom`), is shown port by port by `gptp_pdelay_machine`,
//! and the module `world_invariant` joins them.
//!
//! Nothing else is required: no order of due times within a queue, no formula for them and no least delay. Of frames in
//! flight at the last change only when they are due matters, and of what was held then only how long it stays and that
//! it is no loop. Of a failed system only its clock and its place are used. No claim is carried through a change: a
//! change moves the time from which all must be sound, and before that time nothing is claimed.
//!
//! The definitions stand in `specs/`. Each function of this crate is a law: it does nothing, and its contract is a
//! theorem about the definitions. Once what was in flight at the last change is gone, traces become clean: a system
//! goes on what it received a turn ago at most, which is the longest span for which anything received stays and the
//! largest delay, and adds one member that is right, so that after as many turns as a path of the snapshot may have
//! systems no other member is left. Then all that is held is sound: it names a root worse than the best, or its trace
//! is a path of the snapshot from its root.
//!
//! From when that is so, and every port on a link of the snapshot is capable, the choice settles. Where nothing lapses
//! for want of Sync it takes the largest announce interval, in which each master port tells what its system has, and a
//! delay for each step of distance: who hears what is settled tells it at once. Where something may lapse, each system
//! first waits for a Sync of the best, then for the Announce of the one before it. In the words of `gptp_graph` each
//! near system then follows the best of its component over its parent, and each of its ports has its settled role.
//!
//! Where links come up, systems join or a priority gets better, what was wholly clean is sound, and stays so: no turn
//! has to pass. In a network at rest no announce interval has to pass either. After losses in a network at rest each
//! system that is as far as before from the same best keeps its root and its steps. `gptp_invariants` shows of worlds
//! that all stays sound after news, and that they settle by it; what is said of a network at rest and of losses is of
//! the machine alone. An example run shows that the laws are of something.
//!
//! Lemmas for the crates above, over any relation of octets and messages, are in the public modules of `proofs/`.
#![tactic(auto)]

mod coding;
mod held;
mod link;
mod loss;
mod network;
mod runs;
mod sound;
mod sound_everywhere;
mod syncs;
mod traces;

pub use coding::Coding;
pub use held::{no_loop_is_taken, ports_stay_selected};
pub use link::{link_becomes_settled, link_stays_at_a_stage};
pub use loss::{fits_stays, loss_fits, nothing_is_better, nothing_moved_settles, unmoved_keep};
pub use network::{
    invariant_is_kept, network_settles, networks_are_timed, ports_settle, system_settles,
    systems_are_bounded,
};
pub use runs::{example_run, run_settles};
pub use sound::{
    all_becomes_whole, news_are_sound, news_from_rest, news_settle, reaction_settles, rest_settles,
    settled_is_whole, sound_stays,
};
pub use sound_everywhere::{all_becomes_sound, sound_is_kept};
pub use syncs::{sync_run_settles, syncs_are_expected, syncs_come_in_time};
pub use traces::{clean_is_by_last_members, traces_become_clean, traces_stay_clean};
