//! The correctionField.

ghost use Rattle.std.specs.Prelude.{◌≡◌};
ghost use Rattle.gptp_scaled.specs.Interval.{FitsInterval};

use crate::ScaledNs;
use std::marker::Model;

/// An interval in units of 2^-16 ns, of 64 bits with its sign: a TimeInterval (IEEE 1588-2019, 5.3.2), as the
/// correctionField of a message holds it.
#[derive(Clone, Copy, Debug, PartialEq, Eq, PartialOrd, Ord, Hash, Default)]
pub struct Interval {
    value: i64,
}

impl Model for Interval {
    ghost use Rattle.std.specs.Prelude.{ℤ};

    ghost Value = { ℤ };

    ghost use Rattle.gptp_scaled.specs.Interval.{FitsInterval};

    ghost view = { λ i. i.value };

    ghost invariant = { λ i. FitsInterval i.value };

    ghost inverse = { λ z. record { value = z } };
}

impl Interval {
    /// The interval of `value` units of 2^-16 ns.
    pub const fn new(value: i64) -> Interval
        ensures { result ≡ value }
    {
        Interval { value }
    }

    /// The number of units of 2^-16 ns.
    pub const fn value(self) -> i64
        ensures value { result ≡ self }
        ensures fits { FitsInterval self }
    {
        self.value
    }

    /// The interval as one of the wider times.
    pub fn scaled(self) -> ScaledNs
        ensures { result ≡ self }
    {
        ScaledNs::of(i128::from(self.value))
    }
}
