//! The limits of what is the same for all systems.

ghost use Rattle.std.specs.Prelude.{◌≡◌, true, None};
ghost use Rattle.gptp_setup.specs.Intervals.{interval_of};
ghost use Rattle.gptp_scenario.specs.Params.{is_log, are_in_range, are_intervals_in_range, are_counts_in_range, are_stamps_in_range, are_times_in_range, is_between, is_timed, AreInRange, KeepParams, params_fault};

use crate::fault::NetworkFault;
use gptp_setup::{Params, interval_of};

/// Whether it is the logarithm of an interval that a network can have.
pub(crate) fn is_log(log_interval: i8) -> bool
    ensures { result ≡ is_log log_interval }
{
    -4 <= log_interval && log_interval <= 4
}

/// Whether a number lies between two others.
pub(crate) fn is_between(least: u64, greatest: u64, number: u64) -> bool
    ensures { result ≡ is_between least greatest number }
{
    least <= number && number <= greatest
}

/// Whether each interval lies in its range.
fn are_intervals_in_range(params: &Params) -> bool
    ensures { result ≡ are_intervals_in_range params.now }
{
    is_log(params.announce) && is_log(params.sync) && is_log(params.pdelay)
}

/// Whether each count lies in its range.
fn are_counts_in_range(params: &Params) -> bool
    ensures { result ≡ are_counts_in_range params.now }
{
    is_between(3, 10, u64::from(params.timeout))
        && is_between(1, 255, u64::from(params.lost))
        && params.sync_timeout <= 10
}

/// Whether each time lies in its range.
fn are_times_in_range(params: &Params) -> bool
    ensures { result ≡ are_times_in_range params.now }
{
    is_between(1, 1_000_000_000, params.threshold)
        && is_between(1, 1_000_000_000, params.turnaround)
        && is_between(1, 1_000_000_000, params.residence)
}

/// Whether the granularity and the noise of time stamps and the window of rates lie in their ranges.
fn are_stamps_in_range(params: &Params) -> bool
    ensures { result ≡ are_stamps_in_range params.now }
{
    is_between(0, 1000, u64::from(params.granularity))
        && is_between(0, 1000, u64::from(params.noise))
        && is_between(1, 16, u64::from(params.window))
}

/// Whether each value lies in its range.
fn are_in_range(params: &Params) -> bool
    ensures is { result ≡ are_in_range params.now }
    ensures ranges { result ≡ true → AreInRange params.now }
{
    are_intervals_in_range(params)
        && are_counts_in_range(params)
        && are_times_in_range(params)
        && are_stamps_in_range(params)
}

/// Whether the intervals go together.
fn is_timed(params: &Params) -> bool
    requires { AreInRange params.now }
    ensures is { result ≡ is_timed params.now }
    ensures kept { result ≡ true → KeepParams params.now }
{
    2 * params.threshold + params.turnaround < interval_of(params.pdelay)
        && interval_of(params.pdelay) <= interval_of(params.announce)
        && params.residence < interval_of(params.sync)
}

/// The first test that they fail.
pub(crate) fn params_fault(params: &Params) -> Option<NetworkFault>
    ensures is { result ≡ params_fault params.now }
    ensures kept { result ≡ None → KeepParams params.now }
{
    if !are_in_range(params) {
        Some(NetworkFault::OutOfRange)
    } else if !is_timed(params) {
        Some(NetworkFault::Timing)
    } else {
        None
    }
}
