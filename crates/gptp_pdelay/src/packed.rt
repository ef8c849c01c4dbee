//! The times of an exchange in fewer octets.

ghost use Rattle.std.specs.Prelude.{◌≡◌, ◌<◌, ◌^◌};
ghost use Rattle.gptp_pdelay.specs.PackedFields.{joined, time_of};

use crate::exchange::Times;
use gptp_scaled::ScaledNs;
use std::marker::Model;

/// How many numbers there are of eight octets, 2^64.
const UNIT: u128 = 1 << 64;

/// How far below 0 the least time is, 2^95.
const BELOW: i128 = 1 << 95;

/// A number of twelve octets by its lower eight and its upper four.
fn split(number: u128) -> (u64, u32)
    requires { number < 2 ^ 96 }
    ensures { joined result.0 result.1 ≡ number }
{
    ((number % UNIT) as u64, (number / UNIT) as u32)
}

/// The number of these octets.
fn join(low: u64, high: u32) -> u128
    ensures value { result ≡ joined low high }
    ensures small { result < 2 ^ 96 }
{
    u128::from(high) * UNIT + u128::from(low)
}

/// A time by its number from the least one.
fn pack(time: ScaledNs) -> (u64, u32)
    ensures { time_of result.0 result.1 ≡ time }
{
    split((time.value() + BELOW) as u128)
}

/// The time of that number.
fn unpack(low: u64, high: u32) -> ScaledNs
    ensures { result ≡ time_of low high }
{
    ScaledNs::new(join(low, high) as i128 - BELOW).unwrap()
}

/// The times of an exchange in 24 octets.
#[derive(Debug, Default, Drop)]
pub struct Packed {
    low3: u64,
    low4: u64,
    high3: u32,
    high4: u32,
}

impl Model for Packed {
    ghost use Rattle.gptp_pdelay.specs.declared.exchange.Times.{Times};

    ghost Value = { Times };

    ghost use Rattle.gptp_pdelay.specs.PackedFields.{packed_times};

    ghost view = { packed_times };
}

impl Packed {
    ghost use Rattle.std.specs.Prelude.{◌≡◌};

    /// These times.
    pub fn of(times: Times) -> Packed
        ensures { result ≡ times }
    {
        let (low3, high3) = pack(times.t3);
        let (low4, high4) = pack(times.t4);
        Packed {
            low3,
            low4,
            high3,
            high4,
        }
    }

    /// The same times.
    pub fn copy(&self) -> Packed
        ensures { result ≡ self.now }
    {
        Packed {
            low3: self.low3,
            low4: self.low4,
            high3: self.high3,
            high4: self.high4,
        }
    }

    /// The times that they are.
    pub fn times(&self) -> Times
        ensures { result ≡ self.now }
    {
        Times {
            t3: unpack(self.low3, self.high3),
            t4: unpack(self.low4, self.high4),
        }
    }
}
