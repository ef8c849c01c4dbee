//! Certificates: what each system of a network says that it has chosen, and their text (profile).
//!
//! A [`Certificate`] has a line for each live system, by rising clock: the root that it follows, its steps, its parent,
//! and the role of each of its ports. `specs/CertificateText.antt` says how such lines are spelled. [`print`] writes
//! the text of a certificate, [`print_line`] one line of it, and [`parse`] reads it or names its first fault, as
//! `specs/Parsing.antt` says. A certificate is no proof by itself: whether it is the right choice for a network is for
//! a checker to say.
#![tactic(auto)]

mod certificate;
mod entry;
mod fault;
mod form;
pub mod laws;
mod order;
mod reading;
mod spelling;
mod text;
mod words;

pub use certificate::{CERTIFICATE_LIMIT, Certificate, SystemLine};
pub use fault::CertificateFault;
pub use reading::{parse, parse_located};
pub use text::{print, print_line, print_lines};
