//! What changes at which system when, while the network of a document runs, and how long time is missing meanwhile
//! (profile).
//!
//! [`write_timeline`] lets a document run and writes, act by act, the event that is made and what each act leaves
//! another of what its systems show; then, where a stretch between the times of events ends, how long the choice took
//! to stand, how long a system went without time, and how far the time that came was off. `specs/Timeline.antt` says
//! what is written, over the acts of the run (`Courses` of gptp_report). [`last_stretches`] lets it run so and answers
//! how the last stretches ended, by `specs/LastStretches.antt`, and writes nothing; it can set systems aside, whose
//! time isn't looked at (`specs/Aside.antt`).
#![tactic(auto)]

mod all_readings;
mod amounts;
mod aside;
mod changes;
mod compared;
mod counts;
mod end;
mod ends;
mod event_line;
mod exact_reads;
mod extremes;
mod keepers;
mod laws;
mod leaving;
mod limits;
mod looks;
mod measures;
mod null_sink;
mod ports;
mod readings;
mod receipts;
mod run_so_far;
mod seeing;
mod shown;
mod sources;
mod stretch;
mod time_lines;
mod time_watch;
mod timeline;
mod watch;
mod watched;

pub use amounts::Near;
pub use aside::SetAside;
pub use counts::{Counts, times};
pub use end::end_by_default;
pub use ends::{LastStretches, StretchEnd};
pub use exact_reads::{ExactReads, SystemReads};
pub use keepers::Keeper;
pub use laws::{
    errors_are_within, last_lines_tell, stretches_follow, stretches_settle, timelines_are_right,
    timelines_are_runs,
};
pub use limits::{Limit, Limits, write_first_exceeded};
pub use looks::TimeMeasures;
pub use measures::{Greatest, Measures, better_if};
pub use readings::{KeptReading, NewReading, SystemReading, TimeSource};
pub use run_so_far::RunSoFar;
pub use sources::{Difference, Ends, SourceTime};
pub use stretch::{Longest, Stretch, Worst, amount_of};
pub use time_lines::Sources;
pub use timeline::{TimelineOptions, last_stretches, write_timeline};
