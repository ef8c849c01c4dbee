//! Rates of clocks.

ghost use Rattle.std.specs.Prelude.{◌≡◌, ◌+ℤ◌, ◌-ℤ◌, ◌<ℤ◌, ◌<◌, ◌^◌, neg_ℤ, pos, unsigned_abs, OkIff};
ghost use Rattle.gptp_scaled.specs.Rate.{FitsRate, IsNeighborRate, scaled_by, unscaled_by, neighbor_rate_of, rate_of};
ghost use Rattle.gptp_scaled.specs.ScaledNs.{FitsScaled};

use crate::{OutOfRange, ScaledNs};
use std::marker::Model;

/// What stands for 1 in a rate, 2^41.
const UNIT: i128 = 1 << 41;

/// The largest neighbour rate, 200 parts in a million.
const LIMIT: i128 = 439_804_651;

/// A rate: the whole number q stands for 1 + q/2^41, as cumulativeScaledRateOffset does (IEEE 802.1AS-2020,
/// 11.4.4.3.6).
#[derive(Clone, Copy, Debug, PartialEq, Eq, PartialOrd, Ord, Hash, Default)]
pub struct Rate {
    q: i32,
}

impl Model for Rate {
    ghost use Rattle.std.specs.Prelude.{ℤ};

    ghost Value = { ℤ };

    ghost use Rattle.gptp_scaled.specs.Rate.{FitsRate};

    ghost view = { λ r. r.q };

    ghost invariant = { λ r. FitsRate r.q };

    ghost inverse = { λ z. record { q = z } };
}

impl Rate {
    /// The rate 1 + q/2^41.
    pub const fn new(q: i32) -> Rate
        ensures { result ≡ q }
    {
        Rate { q }
    }

    /// The q of the rate, from -2^31 to 2^31 - 1.
    pub const fn q(self) -> i32
        ensures value { result ≡ self }
        ensures fits { FitsRate self }
    {
        self.q
    }

    /// The rate of a neighbour's clock against one's own, from the time that passed on each between two exchanges:
    /// `responder` on the neighbour's, `requester` on one's own (neighborRateRatio, IEEE 802.1AS-2020, 11.2.19.3.3). It
    /// is rounded down and kept within 200 parts in a million, and is 0 where no time passed on one's own (profile).
    pub fn of_elapsed(responder: ScaledNs, requester: ScaledNs) -> Rate
        ensures rate { result ≡ rate_of responder requester }
        ensures within { IsNeighborRate result }
    {
        let elapsed = requester.value();
        if elapsed <= 0 {
            return Rate { q: 0 };
        }
        Rate {
            q: neighbor_rate(responder.value() - elapsed, elapsed),
        }
    }

    /// The time `time` times the rate, rounded down; refused where it does not fit.
    pub fn scale(self, time: ScaledNs) -> Result<ScaledNs, OutOfRange>
        ensures { OkIff result (FitsScaled (scaled_by self time)) (scaled_by self time) }
    {
        ScaledNs::new(scaled(self.q, time.value()))
    }

    /// What passes from one time to another, times the rate, rounded down, in units of 2^-16 ns: less than 2^97 either
    /// way.
    pub fn scale_between(self, from: ScaledNs, to: ScaledNs) -> i128
        ensures is { result ≡ scaled_by self (to -ℤ from) }
        ensures small { unsigned_abs result < 2 ^ 97 }
    {
        scaled(self.q, to.value() - from.value())
    }

    /// The time `time` divided by the rate, rounded down; refused where it does not fit.
    pub fn unscale(self, time: ScaledNs) -> Result<ScaledNs, OutOfRange>
        ensures { OkIff result (FitsScaled (unscaled_by self time)) (unscaled_by self time) }
    {
        ScaledNs::new(unscaled(self.q, time.value()))
    }

    /// The rate whose q is the sum of both, as a bridge adds the rate of its neighbour to that of the Sync (IEEE
    /// 802.1AS-2020, 10.2.8); refused where it does not fit.
    pub fn plus(self, other: Rate) -> Result<Rate, OutOfRange>
        ensures { OkIff result (FitsRate (self +ℤ other)) (self +ℤ other) }
    {
        match self.q.checked_add(other.q) {
            Some(q) => Ok(Rate { q }),
            None => Err(OutOfRange::OutOfRange),
        }
    }
}

// x (1 + q/2^41), rounded down: the product of 97 bits, which what passes between two times has, by 32 bits fits, and
// so the fraction is taken apart from x.
fn scaled(q: i32, x: i128) -> i128
    requires low { neg_ℤ (pos (2 ^ 96)) <ℤ x }
    requires high { x <ℤ pos (2 ^ 96) }
    ensures is { result ≡ scaled_by q x }
    ensures small { unsigned_abs result < 2 ^ 97 }
{
    x + (x * i128::from(q) >> 41)
}

// x / (1 + q/2^41), rounded down: x 2^41 / (2^41 + q) is x - x q / (2^41 + q), whose product fits.
fn unscaled(q: i32, x: i128) -> i128
    requires { FitsScaled x }
    ensures { result ≡ unscaled_by q x }
{
    let q = i128::from(q);
    x + (-(x * q)).div_euclid(UNIT + q)
}

// gain / elapsed in units of 2^-41, rounded down and kept within the limit. From 1/4096 on it is past the limit, and
// below that the product with 2^41 fits.
#[tactic(auto, using(crate::proofs::RateLemmas::past_high, crate::proofs::RateLemmas::past_low))]
fn neighbor_rate(gain: i128, elapsed: i128) -> i32
    requires positive { pos 0 <ℤ elapsed }
    requires fits { FitsScaled elapsed }
    requires gained { FitsScaled (gain +ℤ elapsed) }
    ensures { result ≡ neighbor_rate_of gain elapsed }
{
    if gain * 4096 >= elapsed {
        LIMIT as i32
    } else if gain * 4096 <= -elapsed {
        -LIMIT as i32
    } else {
        (gain * UNIT).div_euclid(elapsed).clamp(-LIMIT, LIMIT) as i32
    }
}
