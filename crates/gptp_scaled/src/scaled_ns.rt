//! Times and intervals in 2^-16 ns.

ghost use Rattle.std.specs.Prelude.{◌≡◌, ◌↔◌, ◌+ℤ◌, ◌-ℤ◌, pos, IsOk, IfOk, OkIff};
ghost use Rattle.gptp_scaled.specs.Floor.{floor_div};
ghost use Rattle.gptp_scaled.specs.ScaledNs.{FitsScaled};
ghost use Rattle.gptp_scaled.specs.Stamp.{FitsStamp, IsSplit};

use crate::{OutOfRange, Stamp};
use std::marker::Model;

/// The first value past the range, 2^95.
const END: i128 = 1 << 95;

/// A time or an interval in units of 2^-16 ns, of 96 bits with its sign (IEEE 802.1AS-2020, 6.4.3.1).
#[derive(Clone, Copy, Debug, PartialEq, Eq, PartialOrd, Ord, Hash, Default)]
pub struct ScaledNs {
    value: i128,
}

impl Model for ScaledNs {
    ghost use Rattle.std.specs.Prelude.{ℤ};

    ghost Value = { ℤ };

    ghost use Rattle.gptp_scaled.specs.ScaledNs.{FitsScaled};

    ghost view = { λ s. s.value };

    ghost invariant = { λ s. FitsScaled s.value };

    ghost inverse = { λ z. record { value = z } };
}

impl ScaledNs {
    /// The time of `value` units of 2^-16 ns; refused outside -2^95 to 2^95 - 1.
    pub const fn new(value: i128) -> Result<ScaledNs, OutOfRange>
        ensures { OkIff result (FitsScaled value) value }
    {
        if -END <= value && value < END {
            Ok(ScaledNs { value })
        } else {
            Err(OutOfRange::OutOfRange)
        }
    }

    // The time of a number that is known to fit.
    pub(crate) const fn of(value: i128) -> ScaledNs
        requires { FitsScaled value }
        ensures { result ≡ value }
    {
        ScaledNs { value }
    }

    /// The number of units of 2^-16 ns, from -2^95 to 2^95 - 1.
    pub const fn value(self) -> i128
        ensures value { result ≡ self }
        ensures fits { FitsScaled self }
    {
        self.value
    }

    /// The sum; refused where it does not fit.
    pub fn checked_add(self, other: ScaledNs) -> Result<ScaledNs, OutOfRange>
        ensures { OkIff result (FitsScaled (self +ℤ other)) (self +ℤ other) }
    {
        ScaledNs::new(self.value + other.value)
    }

    /// The difference; refused where it does not fit.
    pub fn checked_sub(self, other: ScaledNs) -> Result<ScaledNs, OutOfRange>
        ensures { OkIff result (FitsScaled (self -ℤ other)) (self -ℤ other) }
    {
        ScaledNs::new(self.value - other.value)
    }

    /// Half of it, rounded down (the propagation delay is half of a difference: IEEE 802.1AS-2020, 11.2.19.3.4; the
    /// rounding is of the profile).
    pub fn halve(self) -> ScaledNs
        ensures { result ≡ floor_div self (pos 2) }
    {
        ScaledNs {
            value: self.value >> 1,
        }
    }

    /// The whole nanoseconds as a stamp, and the rest in units of 2^-16 ns; refused where it is negative or its seconds
    /// pass 48 bits. A frame carries such a time as a timestamp and a correctionField (IEEE 802.1AS-2020, 11.4.4).
    pub fn split(self) -> Result<(Stamp, u16), OutOfRange>
        ensures range { IsOk result ↔ FitsStamp self }
        ensures parts { IfOk result (λ r. IsSplit self r.0 r.1) }
    {
        Stamp::split(self.value)
    }
}
