//! The events of a case.

ghost use Rattle.std.specs.Prelude.{◌≡◌, ◌≤◌, ◌++◌, ◌∷◌, [], IfErr, IfOk, IfSome, OnOk, map};
ghost use Rattle.std.specs.List.{AllByRecursion};
ghost use Rattle.gptp_setup.specs.declared.limits.TheConstants.{LAST_MOMENT};
ghost use Rattle.gptp_network.specs.Adding.{with_event};
ghost use Rattle.gptp_network.specs.Events.{IsInRange};
ghost use Rattle.gptp_faults.specs.Cables.{HasBounds};
ghost use Rattle.gptp_faults.specs.CaseEvents.{IsChangeInRange, change_of, count_events, events_of, hang_events, link_events, lossy, plain_link, power_events, power_if, power_seen, seen_link, with_changes};

use crate::cables::{bounds_at, up_ports};
use crate::cases::Case;
use gptp_links::Bounds;
use gptp_network::Document;
use gptp_report::Cut;
use gptp_scenario::Change;
use gptp_topology::Cable;
use gptp_vector::{ClockId, PortId};
use std::alloc::{AllocError, Global};
use std::marker::Model;

/// What is done to a network in a case.
#[derive(Clone, Copy, Debug)]
pub enum CaseChange {
    /// The link at a port goes down.
    LinkDown(PortId),
    /// The link at a port comes up.
    LinkUp(PortId),
    /// The link at a port has these bounds.
    LinkSet(PortId, Bounds),
    /// A system falls silent.
    Fail(ClockId),
    /// A system starts again.
    Recover(ClockId),
}

/// It as a change.
pub(crate) fn change_of(change: &CaseChange) -> Change
    requires { IsChangeInRange change.now }
    ensures is { result ≡ change_of change.now }
    ensures range { IsInRange result }
{
    match *change {
        CaseChange::LinkDown(port) => Change::LinkDown {
            clock: port.clock,
            port: port.port,
        },
        CaseChange::LinkUp(port) => Change::LinkUp {
            clock: port.clock,
            port: port.port,
        },
        CaseChange::LinkSet(port, bounds) => Change::LinkSet {
            clock: port.clock,
            port: port.port,
            min: bounds.min,
            max: bounds.max,
            loss: bounds.loss,
        },
        CaseChange::Fail(clock) => Change::Fail { clock },
        CaseChange::Recover(clock) => Change::Recover { clock },
    }
}

/// The events of a case: at the moment at which it fails, when that is seen, and at the return.
#[derive(Drop)]
pub(crate) struct CaseEvents {
    // At the moment.
    at: Vec<CaseChange>,
    // When it is seen.
    seen: Vec<CaseChange>,
    // How much later than the moment that is, in ns; 0 where nothing is seen.
    delay: u64,
    // At the return.
    back: Vec<CaseChange>,
}

impl Model for CaseEvents {
    ghost use Rattle.gptp_faults.specs.CaseEvents.{AreEventsInRange, EventsState, events_record};

    ghost Value = { EventsState };

    ghost view = { λ e. events_record e.at.items e.seen.items e.delay e.back.items };

    ghost invariant = { λ e. AreEventsInRange (events_record e.at.items e.seen.items e.delay e.back.items) };
}

impl CaseEvents {
    ghost use Rattle.std.specs.Prelude.{◌≡◌, ◌≤◌, ◌<◌, ◌^◌};
    ghost use Rattle.std.specs.List.{AllByRecursion};
    ghost use Rattle.gptp_faults.specs.CaseEvents.{IsChangeInRange, count_events};

    /// What happens at the moment.
    pub(crate) fn at(&self) -> &[CaseChange]
        ensures is { result.now ≡ self.now.at }
        ensures range { AllByRecursion IsChangeInRange result.now }
    {
        &self.at
    }

    /// What happens when that is seen.
    pub(crate) fn seen(&self) -> &[CaseChange]
        ensures is { result.now ≡ self.now.seen }
        ensures range { AllByRecursion IsChangeInRange result.now }
    {
        &self.seen
    }

    /// How much later than the moment it is seen, in ns; 0 where nothing is.
    pub(crate) fn delay(&self) -> u64
        ensures is { result ≡ self.now.delay }
        ensures bound { result ≤ LAST_MOMENT }
    {
        self.delay
    }

    /// What happens at the return.
    pub(crate) fn back(&self) -> &[CaseChange]
        ensures is { result.now ≡ self.now.back }
        ensures range { AllByRecursion IsChangeInRange result.now }
    {
        &self.back
    }

    /// How many there are.
    pub(crate) fn count(&self) -> u128
        ensures is { result ≡ count_events self.now }
        ensures bound { result < 2 ^ 66 }
    {
        self.at.len() as u128 + self.seen.len() as u128 + self.back.len() as u128
    }
}

/// One change alone.
fn one(alloc: Global, change: CaseChange) -> Result<Vec<CaseChange>, AllocError>
    ensures { IfOk result (λ v. v.items ≡ change ∷ []) }
{
    let mut changes = Vec::new(alloc);
    changes.push(change)?;
    Ok(changes)
}

/// A link that goes down, and comes up again.
fn plain_link(alloc: Global, port: PortId) -> Result<CaseEvents, AllocError>
    ensures { IfOk result (λ e. e ≡ plain_link port) }
{
    Ok(CaseEvents {
        at: one(alloc, CaseChange::LinkDown(port))?,
        seen: Vec::new(alloc),
        delay: 0,
        back: one(alloc, CaseChange::LinkUp(port))?,
    })
}

/// The bounds of a link that loses every frame.
fn lossy(bounds: Bounds) -> Bounds
    ensures { result ≡ lossy bounds }
{
    Bounds {
        loss: 1000,
        ..bounds
    }
}

/// A link with these bounds that breaks, which is seen so much later, and comes up again.
fn seen_link(
    alloc: Global,
    port: PortId,
    bounds: Bounds,
    delay: u64,
) -> Result<CaseEvents, AllocError>
    requires delay { delay ≤ LAST_MOMENT }
    requires least { 1 ≤ bounds.min }
    requires share { bounds.loss ≤ 1000 }
    ensures { IfOk result (λ e. e ≡ seen_link port bounds delay) }
{
    let mut seen = one(alloc, CaseChange::LinkDown(port))?;
    seen.push(CaseChange::LinkSet(port, bounds))?;
    Ok(CaseEvents {
        at: one(alloc, CaseChange::LinkSet(port, lossy(bounds)))?,
        seen,
        delay,
        back: one(alloc, CaseChange::LinkUp(port))?,
    })
}

/// A link that breaks.
fn link_events(
    alloc: Global,
    cables: &[Cable],
    detect: Option<u64>,
    port: PortId,
) -> Result<CaseEvents, AllocError>
    requires bounds { AllByRecursion HasBounds cables.now }
    requires detect { IfSome detect (λ delay. delay ≤ LAST_MOMENT) }
    ensures { IfOk result (λ e. e ≡ link_events cables.now detect port) }
{
    match (detect, bounds_at(cables, &port)) {
        (Some(delay), Some(bounds)) => seen_link(alloc, port, bounds, delay),
        _ => plain_link(alloc, port),
    }
}

/// A system that hangs, and starts again.
fn hang_events(alloc: Global, clock: ClockId) -> Result<CaseEvents, AllocError>
    ensures { IfOk result (λ e. e ≡ hang_events clock) }
{
    Ok(CaseEvents {
        at: one(alloc, CaseChange::Fail(clock))?,
        seen: Vec::new(alloc),
        delay: 0,
        back: one(alloc, CaseChange::Recover(clock))?,
    })
}

/// Puts after others that the links at these ports go down.
fn push_downs(changes: &mut Vec<CaseChange>, ports: &[PortId]) -> Result<(), AllocError>
    ensures { OnOk result (changes.new.items ≡ changes.old.items ++ map CaseChange.LinkDown ports.now) }
{
    for port in ports {
        changes.push(CaseChange::LinkDown(*port))?;
    }
    Ok(())
}

/// Puts after others that the links at these ports come up.
fn push_ups(changes: &mut Vec<CaseChange>, ports: &[PortId]) -> Result<(), AllocError>
    ensures { OnOk result (changes.new.items ≡ changes.old.items ++ map CaseChange.LinkUp ports.now) }
{
    for port in ports {
        changes.push(CaseChange::LinkUp(*port))?;
    }
    Ok(())
}

/// A system that starts again, and then the links at these ports come up.
fn power_back(
    alloc: Global,
    clock: ClockId,
    ports: &[PortId],
) -> Result<Vec<CaseChange>, AllocError>
    ensures { IfOk result (λ back. back.items ≡ CaseChange.Recover clock ∷ map CaseChange.LinkUp ports.now) }
{
    let mut back = one(alloc, CaseChange::Recover(clock))?;
    push_ups(&mut back, ports)?;
    Ok(back)
}

/// A system with links at these ports that loses its power, where that is seen at once.
fn power_at_once(alloc: Global, clock: ClockId, ports: &[PortId]) -> Result<CaseEvents, AllocError>
    ensures { IfOk result (λ e. e ≡ power_events clock ports.now) }
{
    let mut at = one(alloc, CaseChange::Fail(clock))?;
    push_downs(&mut at, ports)?;
    Ok(CaseEvents {
        at,
        seen: Vec::new(alloc),
        delay: 0,
        back: power_back(alloc, clock, ports)?,
    })
}

/// A system with links at these ports that loses its power, where its neighbours see that so much later.
fn power_seen(
    alloc: Global,
    clock: ClockId,
    ports: &[PortId],
    delay: u64,
) -> Result<CaseEvents, AllocError>
    requires { delay ≤ LAST_MOMENT }
    ensures { IfOk result (λ e. e ≡ power_seen clock ports.now delay) }
{
    let mut seen = Vec::new(alloc);
    push_downs(&mut seen, ports)?;
    Ok(CaseEvents {
        at: one(alloc, CaseChange::Fail(clock))?,
        seen,
        delay: if ports.is_empty() { 0 } else { delay },
        back: power_back(alloc, clock, ports)?,
    })
}

/// A system that loses its power.
fn power_events(
    alloc: Global,
    detect: Option<u64>,
    clock: ClockId,
    ports: &[PortId],
) -> Result<CaseEvents, AllocError>
    requires { IfSome detect (λ delay. delay ≤ LAST_MOMENT) }
    ensures { IfOk result (λ e. e ≡ power_if detect clock ports.now) }
{
    match detect {
        Some(delay) => power_seen(alloc, clock, ports, delay),
        None => power_at_once(alloc, clock, ports),
    }
}

/// The events of a case, where the links stand so after all events.
pub(crate) fn events_of(
    alloc: Global,
    cables: &[Cable],
    detect: Option<u64>,
    failing: &Case,
) -> Result<CaseEvents, AllocError>
    requires bounds { AllByRecursion HasBounds cables.now }
    requires detect { IfSome detect (λ delay. delay ≤ LAST_MOMENT) }
    ensures { IfOk result (λ e. e ≡ events_of cables.now detect failing.now) }
{
    match *failing {
        Case::Link { a, b: _ } => link_events(alloc, cables, detect, a),
        Case::System { clock } => hang_events(alloc, clock),
        Case::Power { clock } => {
            let ports = up_ports(alloc, cables, clock)?;
            power_events(alloc, detect, clock, &ports)
        }
    }
}

/// Puts an event after the others. What it names is there, and it isn't late, so it is refused for want of memory.
fn add(document: &mut Document, at: u64, change: Change) -> Result<(), Cut>
    requires { IsInRange change }
    ensures added { OnOk result (document.new ≡ with_event at change document.old) }
    ensures memory { IfErr result (λ e. e ≡ Cut.Memory) }
{
    match document.add(at, change) {
        Ok(()) => Ok(()),
        Err(_) => Err(Cut::Memory),
    }
}

/// Puts events of a time after the others.
pub(crate) fn add_all(document: &mut Document, at: u64, changes: &[CaseChange]) -> Result<(), Cut>
    requires { AllByRecursion IsChangeInRange changes.now }
    ensures added { OnOk result (document.new ≡ with_changes at changes.now document.old) }
    ensures memory { IfErr result (λ e. e ≡ Cut.Memory) }
{
    for change in changes {
        add(document, at, change_of(change))?;
    }
    Ok(())
}
