//! How numbers, octets, clocks, identities and roles are spelled in every text (profile).
//!
//! Numbers are decimal; octets, clocks and identities are hexadecimal digits with lower-case letters; what is absent is
//! `none`. A text is a list of lines, each of which ends with a line feed (`specs/Lines.antt`). What is shown takes no
//! memory.
#![tactic(auto)]

mod digits;
mod words;

pub use digits::{ClockDigits, IdentityDigits, OctetDigits, OrNone};
pub use words::{RoleWord, yes_or_no};
