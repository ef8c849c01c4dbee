//! Lists, as definitions and proofs of the crates above speak of them: what a member is, and lemmas on members. No code
//! that runs.
//!
//! The definitions stand in `specs/`. Membership is by recursion, so that it serves in proofs by induction. The
//! function of this crate is a law: it does nothing, and its contract is a theorem about the definitions.
#![tactic(auto)]

mod laws;

pub use laws::different_members_fit;
