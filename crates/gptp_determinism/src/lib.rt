//! Steps, acts and runs have exactly one outcome.
//!
//! What a system, a world and a run do is said by relations: this input makes of that state this one. The laws of this
//! crate say that such a relation has one answer, so that it is a function in all but name: what a step makes of a
//! system (`specs/StepLaws.antt`), what an act makes of a world (`specs/ActLaws.antt`), how a world goes on
//! (`specs/CourseLaws.antt`), and what a document leads to, with its lines (`specs/RunLaws.antt`). They hold in worlds
//! in which a name means one thing (`specs/Named.antt`), as in every world that a network leads to, and for fates that
//! answer in one way, as generators and lists do. So the lines of a run that stopped before its end are the first of
//! all its lines (`specs/SoFar.antt`).
//!
//! What a step makes of a system, and what happens in a world, doesn't depend on whether systems go on with the time
//! that they read, but for that time itself (`specs/ContinuesLaws.antt`, `specs/WorldsBesideLaws.antt`).
//!
//! That there is an answer is said too (`specs/ExistenceLaws.antt`), of systems and worlds that have what every call
//! keeps (`specs/GoingOn.antt`), and for fates that answer all that they are asked: each frame is judged, each step is
//! taken, each act that is ready is done, and each document is played to each time.
//!
//! Each function of this crate is a law: it does nothing, and its contract is a theorem about the definitions.
#![tactic(auto)]

mod laws;

pub use laws::{
    acts_exist, acts_have_one_outcome, continues_leaves_worlds_alike, continues_touches_time_alone,
    documents_begin_in_one_way, documents_have_one_outcome, documents_name_one_thing,
    documents_unfold, every_frame_is_judged, every_step_exists, names_mean_one_thing,
    one_act_is_next, steps_have_one_outcome, worlds_are_stated, worlds_are_told_in_one_way,
    worlds_go_on, worlds_go_on_in_one_way, worlds_unfold_in_one_way,
};
