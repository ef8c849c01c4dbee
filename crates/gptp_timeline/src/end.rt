//! When the run of a document ends by default.

ghost use Rattle.std.specs.Prelude.{◌≡◌, IfOk};
ghost use Rattle.std.specs.List.{AllByRecursion};
ghost use Rattle.gptp_setup.specs.Intervals.{IsMoment};
ghost use Rattle.gptp_how_soon.specs.Times.{IsWatchedShortly};
ghost use Rattle.gptp_timeline.specs.End.{default_end, end_behind};

use gptp_how_soon::{SettlingTime, settling_times};
use gptp_network::Document;
use std::alloc::{AllocError, Global};

/// When the run of a document ends by default whose times these are, in ns.
#[tactic(auto, using(crate::proofs::DefaultEndLemmas::end_by_last, crate::proofs::DefaultEndLemmas::end_of_none, crate::proofs::DefaultEndLemmas::end_in_time))]
fn end_behind(times: &[SettlingTime]) -> u64
    requires { AllByRecursion IsWatchedShortly times.now }
    ensures is { result ≡ end_behind times.now }
    ensures bound { IsMoment result }
{
    match times.last() {
        Some(time) => time.at + time.watch,
        None => 0,
    }
}

/// When the run of a document ends by default, in ns, at most `LAST_MOMENT`: as much later than its last event as is
/// watched then. By then the network has come to rest, its offsets are exact, and eight Syncs more have been sent.
/// Refused for want of memory alone.
pub fn end_by_default(alloc: Global, document: &Document) -> Result<u64, AllocError>
    ensures end { IfOk result (λ until. until ≡ default_end document.now) }
    ensures bound { IfOk result (λ until. IsMoment until) }
{
    let times = settling_times(alloc, document)?;
    Ok(end_behind(&times))
}
