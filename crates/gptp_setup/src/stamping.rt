//! How exactly the systems of a network stamp time, and over how long they measure a neighbour's rate.

ghost use Rattle.std.specs.Prelude.{◌≡◌, ◌≤◌};
ghost use Rattle.gptp_setup.specs.Intervals.{AreParams};
ghost use Rattle.gptp_setup.specs.Stamping.{blur_of, rate_interval};

use crate::interval::interval_of;
use crate::setup::Params;

/// By how much two time stamps of a clock differ at most from what passed on it, in ns: the granularity and twice the
/// noise, at most 3000 by parameters in their ranges.
pub fn blur_of(params: &Params) -> u64
    ensures blur { result ≡ blur_of params.now }
    ensures bound { result ≤ 196605 }
    ensures within { AreParams params.now → result ≤ 3000 }
{
    u64::from(params.granularity) + 2 * u64::from(params.noise)
}

/// Over how long a neighborRateRatio is measured, in ns: as many intervals of peer delay requests as the window has
/// exchanges, at most 256 * 10^9.
pub fn rate_interval(params: &Params) -> u64
    requires { AreParams params.now }
    ensures interval { result ≡ rate_interval params.now }
    ensures bound { result ≤ 256000000000 }
{
    u64::from(params.window) * interval_of(params.pdelay)
}
