//! Why no case is run.

ghost use Rattle.std.specs.Prelude.{◌≡◌, ◌≤◌, ◌*◌, IfErr, IfOk, IfSome, OnOk};
ghost use Rattle.std.specs.List.{AllByRecursion};
ghost use Rattle.gptp_faults.specs.Cables.{HasBounds, cables_after};
ghost use Rattle.gptp_faults.specs.Refusals.{any_late, fault_before, is_late, is_late_at, refusal_at, refusal_of};
ghost use Rattle.gptp_faults.specs.Times.{AreOptions, TimesAreBounded};

use crate::case_events::{CaseEvents, events_of};
use crate::cases::Case;
use crate::options::FaultsOptions;
use crate::stays::{behind_of, hold_of};
use crate::times::{Times, moment};
use gptp_network::{Document, DocumentFault, LATEST_EVENT};
use gptp_report::Cut;
use gptp_setup::LAST_MOMENT;
use gptp_topology::Cable;
use std::alloc::Global;

/// How many events a document may have.
const MOST_EVENTS: u128 = 4096;

/// The test that a document fails with a case that fails at a moment and comes back, if it fails one.
fn refusal_at(
    alloc: Global,
    document: &mut Document,
    asked: Option<u64>,
    events: &CaseEvents,
    at: u64,
) -> Result<Option<DocumentFault>, Cut>
    requires asked { IfSome asked (λ hold. hold ≤ LAST_MOMENT) }
    requires at { at ≤ 2 * LAST_MOMENT }
    ensures refusal { IfOk result (λ fault. fault ≡ refusal_at document.old asked events.now at) }
    ensures same { OnOk result (document.new ≡ document.old) }
    ensures memory { IfErr result (λ e. e ≡ Cut.Memory) }
{
    if LATEST_EVENT < at {
        return Ok(Some(DocumentFault::OutOfRange));
    }
    if at < document.last_change() {
        return Ok(Some(DocumentFault::EventOrder));
    }
    let hold = hold_of(alloc, document, asked, events, at)?;
    if LATEST_EVENT < at + events.delay() + hold {
        return Ok(Some(DocumentFault::OutOfRange));
    }
    Ok(None)
}

/// The test that a document fails with a case, if it fails one.
fn refusal_of(
    alloc: Global,
    document: &mut Document,
    asked: Option<u64>,
    times: &Times,
    events: &CaseEvents,
) -> Result<Option<DocumentFault>, Cut>
    requires asked { IfSome asked (λ hold. hold ≤ LAST_MOMENT) }
    requires times { TimesAreBounded times.now }
    ensures refusal { IfOk result (λ fault. fault ≡ refusal_of document.old asked times.now events.now) }
    ensures same { OnOk result (document.new ≡ document.old) }
    ensures memory { IfErr result (λ e. e ≡ Cut.Memory) }
{
    if MOST_EVENTS < document.events().len() as u128 + events.count() {
        return Ok(Some(DocumentFault::TooMany));
    }
    for number in 0..times.moments {
        let refusal = refusal_at(alloc, document, asked, events, moment(times, number))?;
        if refusal.is_some() {
            return Ok(refusal);
        }
    }
    Ok(None)
}

/// The test that a document fails with one of several cases, the least first, if it fails one.
pub(crate) fn fault_before(
    alloc: Global,
    document: &mut Document,
    cables: &[Cable],
    options: &FaultsOptions,
    times: &Times,
    cases: &[Case],
) -> Result<Option<DocumentFault>, Cut>
    requires cables { cables.now ≡ cables_after document.old }
    requires bounds { AllByRecursion HasBounds cables.now }
    requires options { AreOptions options.now }
    requires times { TimesAreBounded times.now }
    ensures refusal { IfOk result (λ fault. fault ≡ fault_before document.old options.now times.now cases.now) }
    ensures same { OnOk result (document.new ≡ document.old) }
    ensures memory { IfErr result (λ e. e ≡ Cut.Memory) }
{
    for failing in cases {
        let events = events_of(alloc, cables, options.detect, failing)?;
        let refusal = refusal_of(alloc, document, options.hold, times, &events)?;
        if refusal.is_some() {
            return Ok(refusal);
        }
    }
    Ok(None)
}

/// Whether the run of a case that fails at a moment would end later than one may.
fn is_late_at(
    alloc: Global,
    document: &mut Document,
    asked: Option<u64>,
    events: &CaseEvents,
    at: u64,
) -> Result<bool, Cut>
    requires asked { IfSome asked (λ hold. hold ≤ LAST_MOMENT) }
    requires at { at ≤ 2 * LAST_MOMENT }
    ensures late { IfOk result (λ late. late ≡ is_late_at document.old asked events.now at) }
    ensures same { OnOk result (document.new ≡ document.old) }
    ensures memory { IfErr result (λ e. e ≡ Cut.Memory) }
{
    let hold = hold_of(alloc, document, asked, events, at)?;
    let behind = behind_of(alloc, document, asked, events, at, hold)?;
    Ok(LAST_MOMENT < at + events.delay() + hold + behind)
}

/// Whether it would at one of its moments.
fn is_late(
    alloc: Global,
    document: &mut Document,
    asked: Option<u64>,
    times: &Times,
    events: &CaseEvents,
) -> Result<bool, Cut>
    requires asked { IfSome asked (λ hold. hold ≤ LAST_MOMENT) }
    requires times { TimesAreBounded times.now }
    ensures late { IfOk result (λ late. late ≡ is_late document.old asked times.now events.now) }
    ensures same { OnOk result (document.new ≡ document.old) }
    ensures memory { IfErr result (λ e. e ≡ Cut.Memory) }
{
    for number in 0..times.moments {
        if is_late_at(alloc, document, asked, events, moment(times, number))? {
            return Ok(true);
        }
    }
    Ok(false)
}

/// Whether that of one of several cases would.
pub(crate) fn any_late(
    alloc: Global,
    document: &mut Document,
    cables: &[Cable],
    options: &FaultsOptions,
    times: &Times,
    cases: &[Case],
) -> Result<bool, Cut>
    requires cables { cables.now ≡ cables_after document.old }
    requires bounds { AllByRecursion HasBounds cables.now }
    requires options { AreOptions options.now }
    requires times { TimesAreBounded times.now }
    ensures late { IfOk result (λ late. late ≡ any_late document.old options.now times.now cases.now) }
    ensures same { OnOk result (document.new ≡ document.old) }
    ensures memory { IfErr result (λ e. e ≡ Cut.Memory) }
{
    for failing in cases {
        let events = events_of(alloc, cables, options.detect, failing)?;
        if is_late(alloc, document, options.hold, times, &events)? {
            return Ok(true);
        }
    }
    Ok(false)
}
