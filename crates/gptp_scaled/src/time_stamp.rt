//! Time stamps of a clock, of a granularity and with a noise.

ghost use Rattle.std.specs.Prelude.{◌≡◌, ◌<◌, ◌^◌, ◌*ℤ◌, pos, unsigned_abs, OkIff};
ghost use Rattle.gptp_scaled.specs.Floor.{floor_div};
ghost use Rattle.gptp_scaled.specs.ScaledNs.{FitsScaled};
ghost use Rattle.gptp_scaled.specs.TimeStamp.{drawn_noise, grain, mixed, noise_at, stamp_of, time_stamp};

use crate::{OutOfRange, ScaledNs};
use rand_core::SeedableRng;
use rand_core::utils::NextWord;
use rand_xoshiro::SplitMix64;

/// Units of 2^-16 ns in a nanosecond.
const NANOSECOND: i128 = 65_536;

/// How a system stamps time.
#[derive(Clone, Copy, Debug, PartialEq, Eq)]
pub struct Stamping {
    /// Of what a time stamp is a multiple, in ns; 0: of one unit of 2^-16 ns.
    pub granularity: u16,
    /// By how much a time stamp may be off besides, in ns.
    pub most_noise: u16,
    /// From what the noise is drawn, with the clock and the time.
    pub seed: u64,
    /// The clockIdentity of the system, as a number.
    pub clock: u64,
}

/// The word that SplitMix64 gives first, from this state.
fn mixed(state: u64) -> u64
    ensures { result ≡ mixed state }
{
    SplitMix64::seed_from_u64(state).next_word()
}

/// A time in units of 2^-16 ns, rounded down to a multiple of the granularity.
fn rounded(granularity: u16, time: i128) -> i128
    requires { unsigned_abs time < 2 ^ 97 }
    ensures rounded { result ≡ floor_div time (pos (grain granularity)) *ℤ pos (grain granularity) }
    ensures small { unsigned_abs result < 2 ^ 98 }
{
    if granularity == 0 {
        return time;
    }
    let grain = i128::from(granularity) * NANOSECOND;
    time.div_euclid(grain) * grain
}

/// What is shown, with this noise in ns, rounded down, and not below 0.
fn stamp_of(granularity: u16, noise: i32, shown: ScaledNs) -> i128
    ensures { result ≡ stamp_of granularity noise shown }
{
    rounded(granularity, shown.value() + NANOSECOND * i128::from(noise)).max(0)
}

/// The noise that a word is brought to, in ns.
fn drawn_noise(most_noise: u16, word: u64) -> i32
    ensures { result ≡ drawn_noise most_noise word }
{
    (word % (2 * u64::from(most_noise) + 1)) as i32 - i32::from(most_noise)
}

impl Stamping {
    /// The noise of what is stamped at a time, in ns: one number for each seed, clock and time.
    fn noise_at(&self, t: u64) -> i32
        ensures { result ≡ noise_at self.now t }
    {
        if self.most_noise == 0 {
            return 0;
        }
        let word = mixed(mixed(mixed(self.seed) ^ self.clock) ^ t);
        drawn_noise(self.most_noise, word)
    }

    /// The time stamp that is taken at `t`, in ns, of what is shown then; refused where it does not fit.
    pub fn time_stamp(&self, t: u64, shown: ScaledNs) -> Result<ScaledNs, OutOfRange>
        ensures { OkIff result (FitsScaled (time_stamp self.now t shown)) (time_stamp self.now t shown) }
    {
        ScaledNs::new(stamp_of(self.granularity, self.noise_at(t), shown))
    }
}
