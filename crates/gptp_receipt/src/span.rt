//! How long what a port received stays there.

ghost use Rattle.std.specs.Prelude.{◌≡◌, ◌≤◌, IfSome};
ghost use Rattle.gptp_setup.specs.Intervals.{IsLog};
ghost use Rattle.gptp_setup.specs.SettlingParams.{kept_log};
ghost use Rattle.gptp_receipt.specs.Span.{span_of};

use crate::held::Held;
use gptp_setup::interval_of;

/// What counts of an interval that was heard: never below a sixteenth of a second, and never above the largest.
fn kept_log(interval: i8, largest: i8) -> i8
    requires { IsLog largest }
    ensures kept { result ≡ kept_log largest interval }
    ensures log { IsLog result }
{
    interval.clamp(-4, largest)
}

/// How long what the port received stays there, in ns, if it received anything: `timeout` (announceReceiptTimeout, 3 to
/// 10) times the interval that its Announce named, which counts as a sixteenth of a second where it is below that, and
/// as the largest of the network, -4 to 4, where it is above that (IEEE 802.1AS-2020, 10.7.3.2, and the profile).
pub fn span_of(held: &Held, timeout: u8, largest: i8) -> Option<u64>
    requires least { 3 ≤ timeout }
    requires most { timeout ≤ 10 }
    requires largest { IsLog largest }
    ensures span { result ≡ span_of held.now timeout largest }
    ensures positive { IfSome result (λ span. 1 ≤ span) }
    ensures short { IfSome result (λ span. span ≤ 160000000000) }
{
    match held {
        Held::Received(reception) => {
            Some(u64::from(timeout) * interval_of(kept_log(reception.interval, largest)))
        }
        Held::Disabled | Held::Aged | Held::Mine { .. } => None,
    }
}
