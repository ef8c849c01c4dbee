//! The error of what a system reads between two receipts of time.

ghost use Rattle.std.specs.Prelude.{◌≡◌};
ghost use Rattle.gptp_accuracy.specs.Readings.{error_after};
ghost use Rattle.gptp_accuracy.specs.Sums.{SumsAreWithin, terms_of};

use crate::sums::Sums;
use std::marker::Model;

/// The error of what a system reads, by how long ago it received time: the error at the receipt, and what the error of
/// its rate makes of the time since the Sync came.
#[derive(Clone, Copy, Debug, PartialEq, Eq)]
pub struct ReadingError {
    /// The time error, in units of 2^-16 ns.
    error: u128,
    /// The jitter of the last link as it is measured, in ns: a Follow_Up may come so much later than its Sync, or the
    /// time stamp of that may be off.
    jitter: u64,
    /// The error of the rate, in units of 2^-41.
    rates_error: u128,
}

impl Model for ReadingError {
    ghost use Rattle.gptp_accuracy.specs.Readings.{ReadingTerms, AreTermsWithin};

    ghost Value = { ReadingTerms };

    ghost view = { λ r. record { error = r.error; jitter = r.jitter; rates_error = r.rates_error } };

    ghost invariant = { λ r. AreTermsWithin
        (record { error = r.error; jitter = r.jitter; rates_error = r.rates_error }) };

    ghost inverse = { λ t. record { error = t.error; jitter = t.jitter; rates_error = t.rates_error } };
}

impl ReadingError {
    /// That of the system at the end of a way, by what was summed up on it.
    pub(crate) fn of_sums(sums: &Sums) -> Self
        requires { SumsAreWithin 511 sums.now }
        ensures { result ≡ terms_of sums.now }
    {
        ReadingError {
            error: sums.error,
            jitter: sums.jitter,
            rates_error: sums.rates_error(),
        }
    }

    /// The error of what is read `later` ns after the last receipt, in units of 2^-16 ns, rounded up; 0 at a root.
    pub fn after(self, later: u64) -> u128
        ensures { result ≡ error_after self later }
    {
        let since_sync = u128::from(later) + u128::from(self.jitter);
        self.error + (since_sync * self.rates_error).div_ceil(33_550_000)
    }
}
