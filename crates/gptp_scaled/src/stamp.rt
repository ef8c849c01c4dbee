//! Timestamps.

ghost use Rattle.std.specs.Prelude.{◌≡◌, ◌≤◌, ◌<◌, ◌*◌, ◌^◌, ◌↔◌, IsOk, IfOk, IsErrOf};
ghost use Rattle.gptp_scaled.specs.Stamp.{Timestamp, IsTimestamp, FitsStamp, IsSplit, nanos_of, scaled_of};

use crate::{OutOfRange, ScaledNs};
use std::error::Error;
use std::fmt;
use std::marker::Model;

/// Nanoseconds of a second.
const SECOND: u32 = 1_000_000_000;

/// The first number of seconds past the range, 2^48.
const SECONDS_END: u64 = 1 << 48;

/// Why no stamp was made. The first test is that of the nanoseconds.
#[derive(Clone, Copy, Debug, PartialEq, Eq, Hash)]
pub enum StampError {
    /// The nanoseconds are 10^9 or more.
    NanosTooLarge = 1,
    /// The seconds are 2^48 or more.
    SecondsTooLarge = 2,
}

impl fmt::Display for StampError {
    ghost use Rattle.std.specs.Prelude.{Some};
    ghost use Rattle.gptp_scaled.specs.StampError.{stamp_error_text};

    ghost output = { λ e. Some (stamp_error_text e) };

    fn fmt<W: fmt::Write>(&self, f: &mut fmt::Formatter<W>) -> fmt::Result {
        f.write_str(match self {
            StampError::NanosTooLarge => "a second or more of nanoseconds",
            StampError::SecondsTooLarge => "seconds of more than 48 bits",
        })
    }
}

impl Error for StampError {}

/// A timestamp: seconds below 2^48 and nanoseconds below 10^9 (IEEE 1588-2019, 5.3.3; IEEE 802.1AS-2020, 6.4.3.4).
/// Stamps are ordered in time.
#[derive(Clone, Copy, Debug, PartialEq, Eq, PartialOrd, Ord, Hash, Default)]
pub struct Stamp {
    seconds: u64,
    nanos: u32,
}

impl Model for Stamp {
    ghost use Rattle.gptp_scaled.specs.Stamp.{Timestamp, IsTimestamp};

    ghost Value = { Timestamp };

    ghost view = { λ s. record { seconds = s.seconds; nanos = s.nanos } };

    ghost invariant = { λ s. IsTimestamp (record { seconds = s.seconds; nanos = s.nanos }) };

    ghost inverse = { λ t. record { seconds = t.seconds; nanos = t.nanos } };
}

impl Stamp {
    /// The stamp of these seconds and nanoseconds.
    ///
    /// Refused with `NanosTooLarge` where `nanos` is 10^9 or more, and else with `SecondsTooLarge` where `seconds` is
    /// 2^48 or more.
    pub const fn new(seconds: u64, nanos: u32) -> Result<Stamp, StampError>
        ensures made { IfOk result (λ s. (s.seconds ≡ seconds) × (s.nanos ≡ nanos)) }
        ensures nanos_too_large { IsErrOf result StampError.NanosTooLarge ↔ (1000000000 ≤ nanos) }
        ensures seconds_too_large { IsErrOf result StampError.SecondsTooLarge
            ↔ (nanos < 1000000000) × (2 ^ 48 ≤ seconds) }
    {
        if nanos >= SECOND {
            Err(StampError::NanosTooLarge)
        } else if seconds >= SECONDS_END {
            Err(StampError::SecondsTooLarge)
        } else {
            Ok(Stamp { seconds, nanos })
        }
    }

    /// The seconds, below 2^48.
    pub const fn seconds(self) -> u64
        ensures value { result ≡ self.seconds }
        ensures fits { IsTimestamp self }
    {
        self.seconds
    }

    /// The nanoseconds, below 10^9.
    pub const fn nanos(self) -> u32
        ensures value { result ≡ self.nanos }
        ensures fits { IsTimestamp self }
    {
        self.nanos
    }

    /// The time of the stamp in units of 2^-16 ns.
    pub fn scaled(self) -> ScaledNs
        ensures { result ≡ scaled_of self }
    {
        let nanos = i128::from(self.seconds) * i128::from(SECOND) + i128::from(self.nanos);
        ScaledNs::of(nanos << 16)
    }

    // The stamp that is so many nanoseconds after 0.
    fn of_nanos(nanos: u128) -> Stamp
        requires { nanos < 2 ^ 48 * 1000000000 }
        ensures whole { nanos_of result ≡ nanos }
        ensures fits { IsTimestamp result }
    {
        let second = u128::from(SECOND);
        Stamp {
            seconds: (nanos / second) as u64,
            nanos: (nanos % second) as u32,
        }
    }

    // The stamp and the rest of so many units of 2^-16 ns.
    pub(crate) fn split(value: i128) -> Result<(Stamp, u16), OutOfRange>
        ensures range { IsOk result ↔ FitsStamp value }
        ensures parts { IfOk result (λ r. IsSplit value r.0 r.1) }
    {
        let end = i128::from(SECONDS_END) * i128::from(SECOND) << 16;
        if 0 <= value && value < end {
            let parts = value as u128;
            Ok((Stamp::of_nanos(parts >> 16), (parts & 0xffff) as u16))
        } else {
            Err(OutOfRange::OutOfRange)
        }
    }
}
