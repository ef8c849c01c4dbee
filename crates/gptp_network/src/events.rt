//! The sections `[[event]]`.

ghost use Rattle.std.specs.Prelude.{◌≡◌, ◌≤◌, ◌++◌, ◌∷◌, [], Ok, Some, None, OnErr, OnOk, IfOk, IfErr};
ghost use Rattle.toml.specs.View.{view, items_view, table_view};
ghost use Rattle.gptp_scenario.specs.Calm.{last_change};
ghost use Rattle.gptp_network.specs.Events.{link_fault_at, system_fault_at, change_fault, timed, AreEvents, AreInOrder, IsInRange, IsPossibleChange};
ghost use Rattle.gptp_network.specs.Adding.{adding_fault};
ghost use Rattle.gptp_network.specs.ReadEvents.{bounds_why, change_why, clock_why, port_why, put_event, read_change, read_event, read_events, read_fail, read_inject, read_link_down, read_link_set, read_link_up, read_priority1, read_recover, read_with_event, unlinked};
ghost use Rattle.gptp_network.specs.ReadMembers.{read_each};
ghost use Rattle.gptp_network.specs.Snapshot.{events_by};
ghost use Rattle.gptp_network.specs.Why.{Stops, StopsAt};

use crate::fault::DocumentFault;
use crate::keys::{AT, LATEST_EVENT, MAX, MIN, Name, PORT, SET_LOSS, VALUE};
use crate::links::{is_there, no_port, port_number};
use crate::members::{limited_in, section_in};
use crate::place::{Place, Section};
use crate::values::{clock, natural, octets, text};
use crate::why::{Refusal, Why, misspelled, other_kind};
use gptp_scenario::{Act, Change, Network, NetworkFault, Timed};
use gptp_vector::{ClockId, PortId};
use std::alloc::Global;
use toml::{Table, Value};

/// An event as a document describes it.
#[derive(Debug, Drop)]
pub(crate) struct Event {
    pub at: u64,
    pub change: Change,
}

/// The values of a link that goes down.
#[tactic(auto, unfolding(crate::specs::ReadEvents::read_link_down))]
fn link_down_of(table: &Table) -> Result<Change, Why>
    ensures is { result ≡ read_link_down (table_view table.now) }
    ensures range { IfOk result IsInRange }
{
    let clock = clock(table, Name::Clock)?;
    let port = port_number(table, PORT)?;
    Ok(Change::LinkDown { clock, port })
}

/// The values of a link that comes up.
#[tactic(auto, unfolding(crate::specs::ReadEvents::read_link_up))]
fn link_up_of(table: &Table) -> Result<Change, Why>
    ensures is { result ≡ read_link_up (table_view table.now) }
    ensures range { IfOk result IsInRange }
{
    let clock = clock(table, Name::Clock)?;
    let port = port_number(table, PORT)?;
    Ok(Change::LinkUp { clock, port })
}

/// The values of a link that gets other bounds.
#[tactic(auto, unfolding(crate::specs::ReadEvents::read_link_set))]
fn link_set_of(table: &Table) -> Result<Change, Why>
    ensures is { result ≡ read_link_set (table_view table.now) }
    ensures range { IfOk result IsInRange }
{
    let clock = clock(table, Name::Clock)?;
    let port = port_number(table, PORT)?;
    let min = natural(table, MIN)?;
    let max = natural(table, MAX)?;
    let loss = natural(table, SET_LOSS)? as u16;
    Ok(Change::LinkSet {
        clock,
        port,
        min,
        max,
        loss,
    })
}

/// The values of a system that fails.
#[tactic(auto, unfolding(crate::specs::ReadEvents::read_fail))]
fn fail_of(table: &Table) -> Result<Change, Why>
    ensures is { result ≡ read_fail (table_view table.now) }
    ensures range { IfOk result IsInRange }
{
    let clock = clock(table, Name::Clock)?;
    Ok(Change::Fail { clock })
}

/// The values of a system that recovers.
#[tactic(auto, unfolding(crate::specs::ReadEvents::read_recover))]
fn recover_of(table: &Table) -> Result<Change, Why>
    ensures is { result ≡ read_recover (table_view table.now) }
    ensures range { IfOk result IsInRange }
{
    let clock = clock(table, Name::Clock)?;
    Ok(Change::Recover { clock })
}

/// The values of a system that gets another priority1.
#[tactic(auto, unfolding(crate::specs::ReadEvents::read_priority1))]
fn priority1_of(table: &Table) -> Result<Change, Why>
    ensures is { result ≡ read_priority1 (table_view table.now) }
    ensures range { IfOk result IsInRange }
{
    let clock = clock(table, Name::Clock)?;
    let value = natural(table, VALUE)? as u8;
    Ok(Change::Priority1 { clock, value })
}

/// The values of octets that enter a link.
#[tactic(auto, unfolding(crate::specs::ReadEvents::read_inject))]
fn inject_of(alloc: Global, table: &Table) -> Result<Change, Why>
    ensures change { IfOk result (λ c. read_inject (table_view table.now) ≡ Ok c) }
    ensures refused { Stops (read_inject (table_view table.now)) result }
    ensures range { IfOk result IsInRange }
{
    let clock = clock(table, Name::Clock)?;
    let port = port_number(table, PORT)?;
    let octets = octets(alloc, table, Name::Octets)?;
    Ok(Change::Inject {
        clock,
        port,
        octets,
    })
}

/// The values of an event of this kind.
#[tactic(auto, unfolding(crate::specs::ReadEvents::read_change))]
fn change_of(alloc: Global, kind: &str, table: &Table) -> Result<Change, Why>
    ensures change { IfOk result (λ c. read_change kind.now (table_view table.now) ≡ Ok c) }
    ensures refused { Stops (read_change kind.now (table_view table.now)) result }
    ensures range { IfOk result IsInRange }
{
    if kind == "link_down" {
        link_down_of(table)
    } else if kind == "link_up" {
        link_up_of(table)
    } else if kind == "link_set" {
        link_set_of(table)
    } else if kind == "fail" {
        fail_of(table)
    } else if kind == "recover" {
        recover_of(table)
    } else if kind == "priority1" {
        priority1_of(table)
    } else if kind == "inject" {
        inject_of(alloc, table)
    } else {
        Err(misspelled(Name::Kind, kind))
    }
}

/// The values of an event.
#[tactic(auto, unfolding(crate::specs::ReadEvents::read_event))]
fn event_of(alloc: Global, table: &Table) -> Result<Event, Why>
    ensures event { IfOk result (λ e. read_event (table_view table.now) ≡ Ok e) }
    ensures refused { Stops (read_event (table_view table.now)) result }
    ensures early { IfOk result (λ e. e.at ≤ LATEST_EVENT) }
    ensures range { IfOk result (λ e. IsInRange e.change) }
{
    let at = natural(table, AT)?;
    let kind = text(table, Name::Kind)?;
    let change = change_of(alloc, kind, table)?;
    Ok(Event { at, change })
}

/// The first test that a change of the link at a port fails.
fn link_fault_at(network: &Network, clock: ClockId, port: u16) -> Option<NetworkFault>
    ensures { result ≡ link_fault_at network.now clock port }
{
    if !network.has_link(PortId { clock, port }) {
        Some(NetworkFault::NoSuchPort)
    } else {
        None
    }
}

/// The first test that a change of a system fails.
fn system_fault_at(network: &Network, clock: ClockId) -> Option<NetworkFault>
    ensures { result ≡ system_fault_at network.now clock }
{
    if !network.has_clock(clock) {
        Some(NetworkFault::NoSuchPort)
    } else {
        None
    }
}

/// The first test that a change fails.
fn change_fault(network: &Network, change: &Change) -> Option<NetworkFault>
    ensures is { result ≡ change_fault network.now change.now }
    ensures fits { result ≡ None → IsInRange change.now → IsPossibleChange network.now change.now }
{
    match *change {
        Change::LinkDown { clock, port } => link_fault_at(network, clock, port),
        Change::LinkUp { clock, port } => link_fault_at(network, clock, port),
        Change::LinkSet {
            clock,
            port,
            min,
            max,
            loss: _,
        } => {
            if max < min {
                Some(NetworkFault::OutOfRange)
            } else if !network.has_link(PortId { clock, port }) {
                Some(NetworkFault::NoSuchPort)
            } else if network.least_interval() < max {
                Some(NetworkFault::DelayTooLong)
            } else {
                None
            }
        }
        Change::Fail { clock } => system_fault_at(network, clock),
        Change::Recover { clock } => system_fault_at(network, clock),
        Change::Priority1 { clock, value: _ } => system_fault_at(network, clock),
        Change::Inject {
            clock,
            port,
            octets: _,
        } => link_fault_at(network, clock, port),
    }
}

/// The first test that an event fails which is put after others.
pub(crate) fn adding_fault(
    network: &Network,
    events: &[Timed],
    at: u64,
    change: &Change,
) -> Option<DocumentFault>
    ensures is { result ≡ adding_fault (record { network = network.now; events = events.now }) at change.now }
    ensures later { result ≡ None → last_change events.now ≤ at }
    ensures early { result ≡ None → at ≤ LATEST_EVENT }
    ensures fits { result ≡ None → IsInRange change.now → IsPossibleChange network.now change.now }
{
    if 4096 <= events.len() {
        Some(DocumentFault::TooMany)
    } else if LATEST_EVENT < at {
        Some(DocumentFault::OutOfRange)
    } else if at < last_change(events) {
        Some(DocumentFault::EventOrder)
    } else {
        match change_fault(network, change) {
            Some(fault) => Some(DocumentFault::from(fault)),
            None => None,
        }
    }
}

/// The time of the last event, or 0.
#[tactic(auto, using(crate::proofs::EventLemmas::last_from))]
pub(crate) fn last_change(events: &[Timed]) -> u64
    ensures { result ≡ last_change events.now }
{
    match events.last() {
        Some(event) => event.at,
        None => 0,
    }
}

/// The events up to a time, of events in order.
pub(crate) fn events_by(events: &[Timed], until: u64) -> &[Timed]
    requires { AreInOrder events.now }
    ensures { result.now ≡ events_by until events.now }
{
    let count = events.partition_point(|event| event.at <= until);
    &events[..count]
}

/// Puts an event after the others.
#[tactic(auto, using(crate::proofs::EventLemmas::event_added))]
pub(crate) fn push_event(
    events: &mut Vec<Timed>,
    network: &Network,
    event: Event,
) -> Result<(), DocumentFault>
    requires are_events { AreEvents network.now events.old.items }
    requires later { last_change events.old.items ≤ event.at }
    requires early { event.at ≤ LATEST_EVENT }
    requires fits { IsPossibleChange network.now event.change }
    ensures are_events { OnOk result (AreEvents network.now events.new.items) }
    ensures events { OnOk result (events.new.items ≡ events.old.items ++ timed event ∷ []) }
    ensures memory { IfErr result (λ e. e ≡ DocumentFault.OutOfMemory) }
    ensures same { OnErr result (events.new.items ≡ events.old.items) }
{
    events.push(Timed {
        at: event.at,
        act: Act::Change(event.change),
    })?;
    Ok(())
}

/// Why no link is at a port: its system isn't there, or has fewer ports, or nothing is joined to it.
fn unlinked(network: &Network, port: &PortId) -> Why
    ensures { result ≡ unlinked network.now port.now }
{
    if is_there(network, port) {
        Why::Unlinked { port: *port }
    } else {
        no_port(network, port)
    }
}

/// Why a change can't be made that names this port.
fn port_why(network: &Network, port: &PortId, fault: NetworkFault) -> Why
    ensures { result ≡ port_why network.now port.now fault }
{
    match fault {
        NetworkFault::NoSuchPort => unlinked(network, port),
        NetworkFault::OutOfMemory => Why::Memory,
        _ => Why::Other { fault },
    }
}

/// Why a change can't be made that names this system.
fn clock_why(clock: ClockId, fault: NetworkFault) -> Why
    ensures { result ≡ clock_why clock fault }
{
    match fault {
        NetworkFault::NoSuchPort => Why::UnknownClock { clock },
        NetworkFault::OutOfMemory => Why::Memory,
        _ => Why::Other { fault },
    }
}

/// Why a change can't be made that sets these bounds of the link at this port.
fn bounds_why(network: &Network, port: &PortId, min: u64, max: u64, fault: NetworkFault) -> Why
    ensures { result ≡ bounds_why network.now port.now min max fault }
{
    match fault {
        NetworkFault::OutOfRange => Why::Above { min, max },
        NetworkFault::DelayTooLong => Why::TooLong {
            max,
            most: network.least_interval(),
        },
        NetworkFault::NoSuchPort => unlinked(network, port),
        NetworkFault::OutOfMemory => Why::Memory,
        _ => Why::Other { fault },
    }
}

/// Why a change can't be made.
fn change_why(network: &Network, change: &Change, fault: NetworkFault) -> Why
    ensures { result ≡ change_why network.now change.now fault }
{
    match *change {
        Change::LinkDown { clock, port } => port_why(network, &PortId { clock, port }, fault),
        Change::LinkUp { clock, port } => port_why(network, &PortId { clock, port }, fault),
        Change::LinkSet {
            clock,
            port,
            min,
            max,
            loss: _,
        } => bounds_why(network, &PortId { clock, port }, min, max, fault),
        Change::Fail { clock } => clock_why(clock, fault),
        Change::Recover { clock } => clock_why(clock, fault),
        Change::Priority1 { clock, value: _ } => clock_why(clock, fault),
        Change::Inject {
            clock,
            port,
            octets: _,
        } => port_why(network, &PortId { clock, port }, fault),
    }
}

/// Puts an event after the others, where it can be made.
fn put_event(events: &mut Vec<Timed>, network: &Network, event: Event) -> Result<(), Why>
    requires are_events { AreEvents network.now events.old.items }
    requires early { event.at ≤ LATEST_EVENT }
    requires range { IsInRange event.change }
    ensures are_events { OnOk result (AreEvents network.now events.new.items) }
    ensures events { OnOk result (put_event network.now event events.old.items ≡ Ok events.new.items) }
    ensures refused { Stops (put_event network.now event events.old.items) result }
{
    let before = last_change(events);
    if event.at < before {
        Err(Why::Before {
            at: event.at,
            before,
        })
    } else {
        match change_fault(network, &event.change) {
            Some(fault) => Err(change_why(network, &event.change, fault)),
            None => match push_event(events, network, event) {
                Ok(()) => Ok(()),
                Err(_) => Err(Why::Memory),
            },
        }
    }
}

/// Adds an event.
#[tactic(auto, unfolding(crate::specs::ReadEvents::read_with_event))]
fn add_event(
    alloc: Global,
    events: &mut Vec<Timed>,
    network: &Network,
    event: &Value,
) -> Result<(), Why>
    requires { AreEvents network.now events.old.items }
    ensures are_events { OnOk result (AreEvents network.now events.new.items) }
    ensures events { OnOk result (read_with_event network.now (view event.now) events.old.items ≡ Ok events.new.items) }
    ensures refused { Stops (read_with_event network.now (view event.now) events.old.items) result }
{
    match event.as_table() {
        None => Err(other_kind(Name::Event, event)),
        Some(table) => {
            let event = event_of(alloc, table)?;
            put_event(events, network, event)
        }
    }
}

/// Adds events, one after another.
fn add_each(
    alloc: Global,
    events: &mut Vec<Timed>,
    network: &Network,
    values: &[Value],
) -> Result<(), Refusal>
    requires { AreEvents network.now events.old.items }
    ensures are_events { OnOk result (AreEvents network.now events.new.items) }
    ensures events { OnOk result (read_each Section.Event (read_with_event network.now) 0 (items_view values.now) events.old.items ≡ Ok events.new.items) }
    ensures refused { StopsAt (read_each Section.Event (read_with_event network.now) 0 (items_view values.now) events.old.items) result }
{
    for (number, value) in values.iter().enumerate() {
        if let Err(why) = add_event(alloc, events, network, value) {
            return Err(Refusal {
                place: Place::Member(Section::Event, number),
                why,
            });
        }
    }
    Ok(())
}

/// The events of a document.
#[tactic(auto, unfolding(crate::specs::ReadEvents::read_events))]
pub(crate) fn events_of(
    alloc: Global,
    document: &Table,
    network: &Network,
) -> Result<Vec<Timed>, Refusal>
    ensures are_events { IfOk result (λ es. AreEvents network.now es.items) }
    ensures events { IfOk result (λ es. read_events (table_view document.now) network.now ≡ Ok es.items) }
    ensures refused { StopsAt (read_events (table_view document.now) network.now) result }
{
    let values = section_in(document, Section::Event)?;
    let values = limited_in(Section::Event, values)?;
    let mut events = Vec::new(alloc);
    match add_each(alloc, &mut events, network, values) {
        Ok(()) => Ok(events),
        Err(refusal) => Err(refusal),
    }
}
