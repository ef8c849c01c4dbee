//! Intervals of messages (IEEE 802.1AS-2020, 10.7.2 and 11.5.2).

ghost use Rattle.std.specs.Prelude.{◌≡◌, ◌≤◌};
ghost use Rattle.gptp_setup.specs.Intervals.{AreParams, IsLog, interval_of};
ghost use Rattle.gptp_setup.specs.SettlingParams.{lapse_span};

use crate::setup::Params;

/// The interval whose logarithm to base 2, in seconds, is this, -4 to 4: in ns, 62,500,000 to 16 * 10^9.
pub fn interval_of(log_interval: i8) -> u64
    requires { IsLog log_interval }
    ensures interval { result ≡ interval_of log_interval }
    ensures bound { result ≤ 16000000000 }
    ensures least { 1 ≤ result }
{
    match log_interval {
        -4 => 62_500_000,
        -3 => 125_000_000,
        -2 => 250_000_000,
        -1 => 500_000_000,
        0 => 1_000_000_000,
        1 => 2_000_000_000,
        2 => 4_000_000_000,
        3 => 8_000_000_000,
        _ => 16_000_000_000,
    }
}

/// How long the Slave port keeps what it received while no time comes, in ns: syncReceiptTimeout times the sync
/// interval, at most 160 * 10^9. 0 where there is no such timeout (IEEE 802.1AS-2020, 10.7.3.1).
pub fn lapse_span(params: &Params) -> u64
    requires { AreParams params.now }
    ensures span { result ≡ lapse_span params.now }
    ensures bound { result ≤ 160000000000 }
{
    u64::from(params.sync_timeout) * interval_of(params.sync)
}
