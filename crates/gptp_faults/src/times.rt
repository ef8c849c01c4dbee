//! When faults come.

ghost use Rattle.std.specs.Prelude.{◌≡◌, ◌≤◌, ◌*◌, ◌<◌, IfOk, IfSome, unwrap_or};
ghost use Rattle.gptp_setup.specs.declared.limits.TheConstants.{LAST_MOMENT};
ghost use Rattle.gptp_setup.specs.Intervals.{IsMoment};
ghost use Rattle.gptp_faults.specs.Times.{TimesAreBounded, AreOptions, AreTimes, last_moment, moment};

use crate::options::FaultsOptions;
use crate::stays::watch_at;
use gptp_network::Document;
use gptp_setup::interval_of;
use std::alloc::{AllocError, Global};

/// When faults come.
#[derive(Clone, Copy, Debug)]
pub(crate) struct Times {
    /// The first moment, in ns.
    pub from: u64,
    /// Within how long the moments lie, in ns.
    pub spread: u64,
    /// How many moments there are.
    pub moments: u64,
    /// How many seeds.
    pub seeds: u64,
}

/// What is asked, or a default.
fn asked_or(asked: Option<u64>, default: u64) -> u64
    requires asked { IfSome asked (λ time. IsMoment time) }
    requires default { IsMoment default }
    ensures is { result ≡ unwrap_or asked default }
    ensures bound { IsMoment result }
{
    match asked {
        Some(asked) => asked,
        None => default,
    }
}

/// When the faults of a document come.
#[tactic(auto, using(gptp_network::proofs::EventLemmas::early_from))]
pub(crate) fn times_of(
    alloc: Global,
    document: &Document,
    options: &FaultsOptions,
) -> Result<Times, AllocError>
    requires { AreOptions options.now }
    ensures times { IfOk result (AreTimes document.now options.now) }
    ensures bounded { IfOk result TimesAreBounded }
{
    document.well_formed();
    let network = document.network();
    network.well_formed();
    let last = document.last_change();
    let span = document.span_at(alloc, last)?;
    let watch = watch_at(alloc, document, last)?;
    Ok(Times {
        from: asked_or(options.at, last + span.max(watch)),
        spread: interval_of(network.largest()) + interval_of(network.params().sync),
        moments: options.moments,
        seeds: options.seeds,
    })
}

/// A moment by its number, in ns.
pub(crate) fn moment(times: &Times, number: u64) -> u64
    requires bounded { TimesAreBounded times.now }
    requires number { number < times.now.moments }
    ensures is { result ≡ moment times.now number }
    ensures last { result ≤ last_moment times.now }
    ensures bound { result ≤ 2 * LAST_MOMENT }
{
    times.from + number * times.spread / times.moments
}

/// The latest moment, in ns.
pub(crate) fn last_moment(times: &Times) -> u64
    requires { TimesAreBounded times.now }
    ensures is { result ≡ last_moment times.now }
    ensures bound { result ≤ 2 * LAST_MOMENT }
{
    moment(times, times.moments - 1)
}
