//! The least and the greatest of several errors.

ghost use Rattle.std.specs.Prelude.{◌≡◌, ◌<◌, ◌^◌, unsigned_abs};
ghost use Rattle.gptp_timeline.specs.Extremes.{extremes_with, greater, lesser};

use std::marker::Model;

/// The least and the greatest of several errors, with their signs, in units of 2^-16 ns.
#[derive(Clone, Copy, Debug)]
pub struct Extremes {
    least: i128,
    most: i128,
}

impl Model for Extremes {
    ghost use Rattle.gptp_timeline.specs.Extremes.{AreSmallErrors, ExtremesState};

    ghost Value = { ExtremesState };

    ghost view = { λ e. record { least = e.least; most = e.most } };

    ghost invariant = { λ e. AreSmallErrors (record { least = e.least; most = e.most }) };

    ghost inverse = { λ e. record { least = e.least; most = e.most } };
}

/// The lesser of two errors.
fn lesser(best: i128, error: i128) -> i128
    ensures { result ≡ lesser best error }
{
    if error < best { error } else { best }
}

/// The greater of two errors.
fn greater(best: i128, error: i128) -> i128
    ensures { result ≡ greater best error }
{
    if best < error { error } else { best }
}

impl Extremes {
    ghost use Rattle.std.specs.Prelude.{◌≡◌, ◌-ℤ◌, ◌<◌, ◌^◌, Some, unsigned_abs};
    ghost use Rattle.gptp_timeline.specs.Extremes.{extremes_with};

    /// Those of one error.
    fn of(error: i128) -> Self
        requires { unsigned_abs error < 2 ^ 100 }
        ensures { result ≡ record { least = error; most = error } }
    {
        Extremes {
            least: error,
            most: error,
        }
    }

    /// How far they are apart.
    pub(crate) fn range(self) -> u128
        ensures is { result ≡ unsigned_abs (self.most -ℤ self.least) }
        ensures small { result < 2 ^ 101 }
    {
        self.most.abs_diff(self.least)
    }

    /// Those with one error more.
    fn with(self, error: i128) -> Self
        requires { unsigned_abs error < 2 ^ 100 }
        ensures { result ≡ extremes_with (Some self) error }
    {
        Extremes {
            least: lesser(self.least, error),
            most: greater(self.most, error),
        }
    }
}

/// The extremes of several errors with one more.
pub(crate) fn extremes_with(extremes: Option<Extremes>, error: i128) -> Extremes
    requires { unsigned_abs error < 2 ^ 100 }
    ensures { result ≡ extremes_with extremes error }
{
    match extremes {
        Some(extremes) => extremes.with(error),
        None => Extremes::of(error),
    }
}
