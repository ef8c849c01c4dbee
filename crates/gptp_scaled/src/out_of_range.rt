//! The refusal of a number that does not fit its type.

use std::error::Error;
use std::fmt;

/// The exact result does not fit the type that it is asked for in. Its number is 3.
#[derive(Clone, Copy, Debug, PartialEq, Eq, Hash)]
pub enum OutOfRange {
    /// The only case.
    OutOfRange = 3,
}

impl fmt::Display for OutOfRange {
    ghost use Rattle.std.specs.Prelude.{codes, Some};

    ghost output = { λ _. Some (codes "out of range") };

    fn fmt<W: fmt::Write>(&self, f: &mut fmt::Formatter<W>) -> fmt::Result {
        f.write_str("out of range")
    }
}

impl Error for OutOfRange {}
