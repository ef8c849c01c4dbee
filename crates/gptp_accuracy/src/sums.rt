//! What is summed up on the way from a root to a system.

ghost use Rattle.std.specs.Prelude.{◌≡◌, min, ◌+◌, ◌*◌, ◌-◌, ◌<◌, ◌≤◌, ℤ, pos, neg_ℤ, ◌-ℤ◌, ◌*ℤ◌, ◌≤ℤ◌};
ghost use Rattle.gptp_scaled.specs.Floor.{floor_div};
ghost use Rattle.gptp_scaled.specs.Rate.{IsNeighborRate, rate_of, unit};
ghost use Rattle.gptp_pdelay.specs.Clock.{IsDrift};
ghost use Rattle.gptp_pdelay.specs.GoodLink.{ceil_div};
ghost use Rattle.gptp_pdelay.specs.Measured.{clock_rate};
ghost use Rattle.gptp_error_laws.specs.TimeError.{hop_error};

use gptp_scaled::{Interval, Rate, ScaledNs};
use gptp_scenario::Params;
use gptp_setup::{blur_of, rate_interval};

/// What stands for 1 in a rate, 2^41.
const UNIT: i64 = 1 << 41;

/// The most that the jitter of a link makes of its neighbour rate, in units of 2^-41. The measured rate and the one
/// without jitter are both held at 200 parts in a million.
const MAX_RATE_ERROR: u128 = 879_609_302;

/// The most that a rate of 32 bits misses that of two clocks by, in units of 2^-41.
const MAX_RATES_ERROR: u128 = 2_587_332_284;

/// A link of a way: its least and its greatest delay, in ns, and the drift of the clock after it, in units of 2^-41.
#[derive(Clone, Copy, Debug)]
pub(crate) struct Link {
    pub least: u64,
    pub most: u64,
    pub drift: i32,
}

/// What is summed up on a way, from which the time error of a way that is one link longer follows.
#[derive(Clone, Copy, Debug)]
pub(crate) struct Sums {
    /// The drift of the root's clock, in units of 2^-41.
    pub root_drift: i32,
    /// The drift of the clock at the end of the way, in units of 2^-41.
    pub drift: i32,
    /// The jitter of the last link as it is measured, in ns; 0 at the root.
    pub jitter: u64,
    /// What the jitter of the links makes of their neighbour rates, in units of 2^-41.
    pub rate_error: u128,
    /// The neighbour rates that are measured on the links without jitter, in units of 2^-41.
    pub rate: i64,
    /// The time error, in units of 2^-16 ns.
    pub error: u128,
}

/// What a clock with this drift counts while 2^41 units of time pass.
#[tactic(auto, using(crate::proofs::SumLemmas::rate_is))]
fn count_of(drift: i32) -> i64
    requires { IsDrift drift }
    ensures { result ≡ pos (clock_rate drift) }
{
    UNIT + i64::from(drift)
}

/// The rate of a clock with this drift, as a time.
fn elapsed_of(drift: i32) -> ScaledNs
    requires { IsDrift drift }
    ensures { result ≡ pos (clock_rate drift) }
{
    Interval::new(count_of(drift)).scaled()
}

/// The neighbour rate that is measured of a clock by another, where there is no jitter, in units of 2^-41.
fn steady_rate(neighbour: i32, own: i32) -> i32
    requires neighbour { IsDrift neighbour }
    requires own { IsDrift own }
    ensures rate { result ≡ rate_of (pos (clock_rate neighbour)) (pos (clock_rate own)) }
    ensures within { IsNeighborRate result }
{
    Rate::of_elapsed(elapsed_of(neighbour), elapsed_of(own)).q()
}

/// The rate of a clock against another less 1, in units of 2^-41 and rounded down.
fn true_rate(clock: i32, own: i32) -> i128
    requires clock { IsDrift clock }
    requires own { IsDrift own }
    ensures rate { result ≡ floor_div ((pos (clock_rate clock) -ℤ pos (clock_rate own)) *ℤ unit)
        (pos (clock_rate own)) }
    ensures low { neg_ℤ (pos 450000000) ≤ℤ result }
    ensures high { result ≤ℤ pos 450000000 }
{
    let count = i128::from(count_of(own));
    let gain = i128::from(count_of(clock)) - count;
    (gain * i128::from(UNIT)).div_euclid(count)
}

/// What the jitter of a link makes of the neighbour rate that is measured there over an interval, in units of 2^-41.
fn rate_error(jitter: u64, interval: u64) -> u128
    requires jitter { jitter ≤ 16000006000 }
    requires interval { 62500000 ≤ interval }
    ensures error { result ≡ min (ceil_div (2202000000000 * jitter) interval) 879609302 + 4 }
    ensures bound { result ≤ 879609306 }
{
    let error = (2_202_000_000_000 * u128::from(jitter)).div_ceil(u128::from(interval));
    error.min(MAX_RATE_ERROR) + 4
}

/// What a link adds to the time error, in units of 2^-16 ns.
fn link_error(jitter: u64, most: u64, turnaround: u64) -> u128
    requires jitter { jitter ≤ 16000006000 }
    requires most { most ≤ 16000003000 }
    requires turnaround { turnaround ≤ 1000000000 }
    ensures error { result ≡ hop_error jitter most turnaround }
    ensures bound { result ≤ 2000000000000000 }
{
    65_556 * u128::from(jitter) + u128::from((20 * most + turnaround) / 1_500) + 12
}

/// What a time adds in which the rate has this error, in units of 2^-16 ns.
fn wait_error(time: u64, rates_error: u128) -> u128
    requires time { time ≤ 34000000000 }
    requires rates_error { rates_error ≤ 2587332284 }
    ensures error { result ≡ ceil_div (time * rates_error) 33550000 }
    ensures bound { result ≤ 3000000000000 }
{
    (u128::from(time) * rates_error).div_ceil(33_550_000)
}

impl Sums {
    ghost use Rattle.std.specs.Prelude.{◌≡◌, ◌≤◌, ℕ, suc};
    ghost use Rattle.gptp_pdelay.specs.Clock.{IsDrift};
    ghost use Rattle.gptp_setup.specs.Intervals.{AreParams};
    ghost use Rattle.gptp_setup.specs.declared.setup.Params.{Params as Settings};
    ghost use Rattle.gptp_error_laws.specs.TimeError.{Way};
    ghost use Rattle.gptp_error_laws.specs.WayLaws.{longer};
    ghost use Rattle.gptp_accuracy.specs.Sums.{AreSummed, SumsAreWithin, IsLinkWithin, way_link, rates_error_of};
    ghost use Rattle.gptp_accuracy.specs.Ways.{root_way};

    /// The sums at a root.
    pub fn at_root(drift: i32) -> Self
        ensures { (p : Settings) → IsDrift drift → AreSummed 0 p (root_way p drift) result }
    {
        Sums {
            root_drift: drift,
            drift,
            jitter: 0,
            rate_error: 0,
            rate: 0,
            error: 0,
        }
    }

    /// The error of the rate so far, in units of 2^-41.
    pub fn rates_error(&self) -> u128
        requires { SumsAreWithin 511 self.now }
        ensures error { result ≡ rates_error_of self.now }
        ensures bound { result ≤ 2587332284 }
    {
        let unlike = i128::from(self.rate) - true_rate(self.root_drift, self.drift);
        (self.rate_error + unlike.unsigned_abs()).min(MAX_RATES_ERROR)
    }

    /// The sums after one link more.
    pub fn behind(&self, link: &Link, params: &Params) -> Self
        requires params { AreParams params.now }
        requires sums { SumsAreWithin 511 self.now }
        requires link { IsLinkWithin (way_link link.now) }
        ensures { (w : Way) (links : ℕ) → AreSummed links params.now w self.now
            → AreSummed (suc links) params.now (longer w (way_link link.now)) result }
    {
        let blur = blur_of(params);
        let jitter = link.most - link.least + 2 * blur;
        let most = link.most + blur;
        let waited = params.residence + self.jitter + most;
        Sums {
            root_drift: self.root_drift,
            drift: link.drift,
            jitter,
            rate_error: self.rate_error + rate_error(jitter, rate_interval(params)),
            rate: self.rate + i64::from(steady_rate(self.drift, link.drift)),
            error: self.error
                + link_error(jitter, most, params.turnaround)
                + wait_error(waited, self.rates_error()),
        }
    }
}
