//! The commands of the simulator, over any devices that tell their octets and count their failures.
//!
//! [`run::run`] reads a document, a network and its events, lets them run, and writes which root each system follows,
//! and its ports. [`check::check`] reads a document and a certificate, what each system says it has chosen, and writes
//! whether that is the choice that the network settles at. [`question::answer_question`] reads a document and writes
//! what is asked of its network, as which choice that is. [`compare::compare_lines`] reads lines of two Announces in
//! hexadecimal and writes which of the two announces the better priority vector, by the order of IEEE 802.1AS-2020,
//! 10.3.4.
//!
//! Their contracts say that they write the text that is defined for the octets they read and nothing else, that no
//! failure of a device is passed over or made up, and what stands written after an error. [`command::run`] reads the
//! command line and runs the one that it names from standard input to standard output.
#![tactic(auto)]

mod accuracy;
mod announced;
mod answer;
pub mod check;
mod choice;
pub mod command;
pub mod compare;
mod dispatch;
mod documents;
mod explain;
pub mod failure;
pub mod faults;
mod grammar;
pub mod laws;
mod lines;
mod lint;
mod options;
mod output;
mod place;
pub mod question;
mod reading;
pub mod run;
pub mod source;
mod table;
pub mod timeline;
pub mod version;
mod words;

pub use gptp_report::sink;
