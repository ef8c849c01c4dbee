//! What the lines of a timeline say of the time that systems read, at every moment of a run.
//!
//! A timeline looks at what systems read where a stretch begins and ends, and where a system gets another reading. The
//! laws of this crate say what follows of all moments between. `specs/Looks.antt` says why such looks suffice.
//! `specs/Moments.antt` is what the `times` line of a stretch says of each of its moments, and `specs/Exact.antt` what
//! `accuracy` lines say of what is read from a receipt on. `specs/Sources.antt` says from when on sources stand, and
//! that they are roots. `specs/Age.antt` says how old what is read may be. `specs/Apart.antt` says how far apart
//! systems do read. `specs/Right.antt` has all of it at once.
//!
//! `specs/Soon.antt` says by when a stretch has settled, as it is computed for the document, and `specs/ExactSoon.antt`
//! from when on what is received and read is exact.
//!
//! Each function of this crate is a law: it does nothing, and its contract is a theorem about the definitions.
#![tactic(auto)]

mod age;
mod apart;
mod exact;
mod exact_soon;
mod looks;
mod moments;
mod right;
mod soon;
mod sources;

pub use age::{
    timelines_always_have_time, timelines_are_always_exact, timelines_hear_again_in_time,
    timelines_hear_in_time,
};
pub use apart::timelines_read_apart;
pub use exact::{timelines_bound_receipts, timelines_read_exactly};
pub use exact_soon::{
    timelines_are_exact_soon, timelines_bound_receipts_soon, timelines_read_exactly_soon,
};
pub use looks::looks_suffice;
pub use moments::times_bound_moments;
pub use right::timelines_read_right;
pub use soon::{stretches_follow_soon, stretches_settle_soon};
pub use sources::{timelines_keep_sources, timelines_read_from_bests, timelines_read_from_roots};
