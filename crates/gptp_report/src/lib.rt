//! What is written of a world: lines of frames and of systems, and the text of a run (profile).
//!
//! `specs/` says what stands in a line. It is ASCII and ends with a line feed; its words are separated by one space.
//! Numbers are decimal; clocks, identities and frames are hexadecimal, with lower-case letters; what is absent is
//! `none`. A call appends whole lines to a text.
//!
//! [`begin`] makes the world of a document, and [`play`] lets it go on with its events up to a time before an
//! [`Observer`], which sees each act as it was done and writes its lines (`specs/Transitions.antt`). [`run_document`]
//! is that with the lines of frames: `specs/Run.antt` says what it leads to. [`write_report`] tells of a world, by
//! `specs/Report.antt`.
#![tactic(auto)]

mod following;
mod frame_line;
mod frames;
mod report;
mod run;
mod system_lines;

pub use frame_line::{AnswerWord, FrameType, type_of, write_frame_line};
pub use gptp_sink::{Cut, sink, write_whole};
pub use gptp_world::Observer;
pub use report::write_report;
pub use run::{begin, play, run_document};
pub use system_lines::{write_failed, write_system};
