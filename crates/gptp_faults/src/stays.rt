//! How long faults stay, and how long runs go on after that.

ghost use Rattle.std.specs.Prelude.{◌≡◌, ◌≤◌, ◌*◌, IfErr, IfOk, IfSome, None, OnOk};
ghost use Rattle.std.specs.List.{AllByRecursion};
ghost use Rattle.gptp_setup.specs.declared.limits.TheConstants.{LAST_MOMENT};
ghost use Rattle.gptp_how_soon.specs.Times.{AreRising, IsWatchedShortly};
ghost use Rattle.gptp_faults.specs.CaseEvents.{with_changes};
ghost use Rattle.gptp_faults.specs.Stays.{back_at, behind_of, failed_document, hold_of, watch_among, watch_of};

use crate::case_events::{CaseEvents, add_all};
use gptp_how_soon::{SettlingTime, settling_at, settling_times};
use gptp_network::Document;
use gptp_report::Cut;
use std::alloc::{AllocError, Global};

/// For how long a network is watched from one of these times on, in ns; 0 from any other moment.
fn watch_among(times: &[SettlingTime], at: u64) -> u64
    requires rising { AreRising times.now }
    requires watched { AllByRecursion IsWatchedShortly times.now }
    ensures is { result ≡ watch_among times.now at }
    ensures bound { result ≤ 200000000000000 }
{
    match settling_at(times, at) {
        Some(time) => time.watch,
        None => 0,
    }
}

/// For how long the network of a document is watched from one of its times on, in ns.
pub(crate) fn watch_at(alloc: Global, document: &Document, at: u64) -> Result<u64, AllocError>
    ensures is { IfOk result (λ watch. watch ≡ watch_of document.now at) }
    ensures bound { IfOk result (λ watch. watch ≤ 200000000000000) }
{
    let times = settling_times(alloc, document)?;
    Ok(watch_among(&times, at))
}

/// Puts what happens in a case after the events of a document, where it fails at a moment and that is seen.
pub(crate) fn fail_at(document: &mut Document, at: u64, events: &CaseEvents) -> Result<(), Cut>
    requires { at ≤ 2 * LAST_MOMENT }
    ensures added { OnOk result (document.new ≡ failed_document at events.now document.old) }
    ensures memory { IfErr result (λ e. e ≡ Cut.Memory) }
{
    add_all(document, at, events.at())?;
    add_all(document, at + events.delay(), events.seen())
}

/// Puts its return after them, where it stays down so long.
pub(crate) fn return_after(
    document: &mut Document,
    at: u64,
    events: &CaseEvents,
    hold: u64,
) -> Result<(), Cut>
    requires at { at ≤ 2 * LAST_MOMENT }
    requires hold { hold ≤ LAST_MOMENT }
    ensures added { OnOk result (document.new ≡ with_changes (back_at at events.now hold) events.now.back document.old) }
    ensures memory { IfErr result (λ e. e ≡ Cut.Memory) }
{
    add_all(document, at + events.delay() + hold, events.back())
}

/// For how long the network is watched from then on when it is seen that a case failed at a moment, in ns.
fn watch_after_fault(
    alloc: Global,
    document: &mut Document,
    events: &CaseEvents,
    at: u64,
) -> Result<u64, Cut>
    requires { at ≤ 2 * LAST_MOMENT }
    ensures hold { IfOk result (λ hold. hold ≡ hold_of document.old None events.now at) }
    ensures bound { IfOk result (λ hold. hold ≤ 200000000000000) }
    ensures same { OnOk result (document.new ≡ document.old) }
    ensures memory { IfErr result (λ e. e ≡ Cut.Memory) }
{
    let count = document.events().len();
    fail_at(document, at, events)?;
    let hold = watch_at(alloc, document, at + events.delay())?;
    document.truncate(count);
    Ok(hold)
}

/// How long a case that fails at a moment stays down after that is seen, in ns: as long as that is asked, or as long as
/// the network is watched then.
pub(crate) fn hold_of(
    alloc: Global,
    document: &mut Document,
    asked: Option<u64>,
    events: &CaseEvents,
    at: u64,
) -> Result<u64, Cut>
    requires asked { IfSome asked (λ hold. hold ≤ LAST_MOMENT) }
    requires at { at ≤ 2 * LAST_MOMENT }
    ensures hold { IfOk result (λ hold. hold ≡ hold_of document.old asked events.now at) }
    ensures bound { IfOk result (λ hold. hold ≤ LAST_MOMENT) }
    ensures same { OnOk result (document.new ≡ document.old) }
    ensures memory { IfErr result (λ e. e ≡ Cut.Memory) }
{
    match asked {
        Some(hold) => Ok(hold),
        None => watch_after_fault(alloc, document, events, at),
    }
}

/// For how long the network is watched from the return of a case on that failed at a moment and stayed down so long, in
/// ns.
fn watch_after_return(
    alloc: Global,
    document: &mut Document,
    events: &CaseEvents,
    at: u64,
    hold: u64,
) -> Result<u64, Cut>
    requires at { at ≤ 2 * LAST_MOMENT }
    requires hold { hold ≤ LAST_MOMENT }
    ensures behind { IfOk result (λ behind. behind ≡ behind_of document.old None events.now at hold) }
    ensures bound { IfOk result (λ behind. behind ≤ 200000000000000) }
    ensures same { OnOk result (document.new ≡ document.old) }
    ensures memory { IfErr result (λ e. e ≡ Cut.Memory) }
{
    let count = document.events().len();
    fail_at(document, at, events)?;
    return_after(document, at, events, hold)?;
    let behind = watch_at(alloc, document, at + events.delay() + hold)?;
    document.truncate(count);
    Ok(behind)
}

/// How long a run goes on after the return of a case that failed at a moment and stayed down so long, in ns: as long as
/// that is asked, or as long as the network is watched then.
pub(crate) fn behind_of(
    alloc: Global,
    document: &mut Document,
    asked: Option<u64>,
    events: &CaseEvents,
    at: u64,
    hold: u64,
) -> Result<u64, Cut>
    requires asked { IfSome asked (λ behind. behind ≤ LAST_MOMENT) }
    requires at { at ≤ 2 * LAST_MOMENT }
    requires hold { hold ≤ LAST_MOMENT }
    ensures behind { IfOk result (λ behind. behind ≡ behind_of document.old asked events.now at hold) }
    ensures bound { IfOk result (λ behind. behind ≤ LAST_MOMENT) }
    ensures same { OnOk result (document.new ≡ document.old) }
    ensures memory { IfErr result (λ e. e ≡ Cut.Memory) }
{
    match asked {
        Some(behind) => Ok(behind),
        None => watch_after_return(alloc, document, events, at, hold),
    }
}
