//! Where a clock may stand in a list: what is tried before the list is searched.
#![tactic(auto)]

mod clock_hints;

pub use clock_hints::ClockHints;
