//! The sections `[[system]]`.

ghost use Rattle.std.specs.Prelude.{◌≡◌, ◌≤ℤ◌, ◌≤◌, pos, neg_ℤ, Ok, None, OnErr, OnOk, IfErr, IfOk, IfSome};
ghost use Rattle.toml.specs.View.{view, items_view, table_view};
ghost use Rattle.gptp_roles.specs.Selection.{clock_of};
ghost use Rattle.gptp_network.specs.Found.{system_from};
ghost use Rattle.gptp_network.specs.ReadMembers.{read_each};
ghost use Rattle.gptp_network.specs.ReadSystems.{duplicate, first_shorter, put_system, read_system, read_with_system, read_with_systems, system_why};
ghost use Rattle.gptp_network.specs.Reading.{natural_at, whole_at};
ghost use Rattle.gptp_scenario.specs.Faults.{IsRefusal};
ghost use Rattle.gptp_scenario.specs.Network.{system_fault, with_system};
ghost use Rattle.gptp_network.specs.Systems.{identity_of, member_of};
ghost use Rattle.gptp_network.specs.Why.{Stops, StopsAt};

use crate::found::system_with;
use crate::intervals::intervals;
use crate::keys::{
    ACCURACY, CLASS, DRIFT, Name, Natural, PHASE, PORTS, PRIORITY1, PRIORITY2, VARIANCE, Whole,
};
use crate::members::{limited_in, needed_in, section_in};
use crate::place::{Place, Section};
use crate::values::{clock, flag, natural, whole};
use crate::why::{Refusal, Why, other_kind};
use arrayvec::ArrayVec;
use gptp_scenario::{Network, NetworkFault};
use gptp_setup::MOST_PORTS;
use gptp_vector::{ClockId, Identity};
use toml::{Table, Value};

/// A system as a document describes it.
#[derive(Debug, Drop)]
pub(crate) struct System {
    pub identity: Identity,
    pub ports: u8,
    pub phase: u64,
    pub drift: i32,
    pub continues: bool,
    pub intervals: ArrayVec<i8, MOST_PORTS>,
}

/// What is told of a system that can't be added: its clock, and what a port of it announces at.
#[derive(Clone, Copy)]
struct Newcomer {
    clock: ClockId,
    log: i8,
}

/// The identity of these parts.
fn identity_of(
    priority1: u8,
    class: u8,
    accuracy: u8,
    variance: u16,
    priority2: u8,
    clock: ClockId,
) -> Identity
    ensures { result ≡ identity_of priority1 class accuracy variance priority2 clock }
{
    let high = (variance / 256) as u8;
    let low = (variance % 256) as u8;
    let name = clock.octets();
    Identity::of_octets([
        priority1, class, accuracy, high, low, priority2, name[0], name[1], name[2], name[3],
        name[4], name[5], name[6], name[7],
    ])
}

/// An octet, or the default where the key is absent.
fn octet(table: &Table, key: Natural) -> Result<u8, Why>
    requires octet { key.2 ≤ 255 }
    requires low { IfSome key.3 (λ n. key.1 ≤ n) }
    requires high { IfSome key.3 (λ n. n ≤ key.2) }
    ensures is { result ≡ natural_at key (table_view table.now) }
    ensures bound { IfOk result (λ n. n ≤ key.2) }
{
    let number = natural(table, key)?;
    Ok(number as u8)
}

/// The drift of a clock.
fn drift(table: &Table, key: Whole) -> Result<i32, Why>
    requires least { neg_ℤ (pos 2147483648) ≤ℤ key.1 }
    requires most { key.2 ≤ℤ pos 2147483647 }
    requires low { key.1 ≤ℤ key.3 }
    requires high { key.3 ≤ℤ key.2 }
    ensures { result ≡ whole_at key (table_view table.now) }
{
    let number = whole(table, key)?;
    Ok(number as i32)
}

/// The values of a system of a document of this version, whose ports announce at this interval by default.
#[tactic(auto, unfolding(crate::specs::ReadSystems::read_system))]
fn system_of(version: u64, announce: i8, table: &Table) -> Result<System, Why>
    ensures { result ≡ read_system version announce (table_view table.now) }
{
    let name = clock(table, Name::Clock)?;
    let priority1 = octet(table, PRIORITY1)?;
    let class = octet(table, CLASS)?;
    let accuracy = octet(table, ACCURACY)?;
    let variance = natural(table, VARIANCE)? as u16;
    let priority2 = octet(table, PRIORITY2)?;
    let phase = natural(table, PHASE)?;
    let drift = drift(table, DRIFT)?;
    let continues = flag(table, Name::Continues, false)?;
    let ports = octet(table, PORTS)?;
    let intervals = intervals(version, ports, announce, table)?;
    let identity = identity_of(priority1, class, accuracy, variance, priority2, name);
    Ok(System {
        identity,
        ports,
        phase,
        drift,
        continues,
        intervals,
    })
}

/// The first of these intervals that is shorter than this one; the other where none is.
fn first_shorter(least: i8, intervals: &[i8], other: i8) -> i8
    ensures { result ≡ first_shorter least intervals.now other }
{
    for interval in intervals {
        if *interval < least {
            return *interval;
        }
    }
    other
}

/// An earlier system has the clock.
fn duplicate(network: &Network, clock: ClockId) -> Why
    ensures { result ≡ duplicate clock (system_from 0 network.now.systems clock) }
{
    match system_with(network, clock) {
        Some((system, _)) => Why::Duplicate { clock, system },
        None => Why::Other {
            fault: NetworkFault::DuplicateClock,
        },
    }
}

/// What is told of a system, of whose intervals the first that is shorter than that of requests counts.
fn told_of(network: &Network, system: &System) -> Newcomer
    ensures clock { result.clock ≡ clock_of system.now.identity }
    ensures log { result.log ≡ first_shorter network.now.params.pdelay system.now.intervals.items network.now.params.announce }
{
    let params = network.params();
    let clock = system.identity.clock();
    let log = first_shorter(params.pdelay, system.intervals.as_slice(), params.announce);
    Newcomer { clock, log }
}

/// Why a system can't be added.
fn system_why(network: &Network, newcomer: &Newcomer, fault: NetworkFault) -> Why
    ensures { result ≡ system_why network.now newcomer.now.clock newcomer.now.log fault }
{
    match fault {
        NetworkFault::Timing => Why::Timing {
            params: network.params(),
            announce: newcomer.log,
        },
        NetworkFault::DuplicateClock => duplicate(network, newcomer.clock),
        NetworkFault::OutOfMemory => Why::Memory,
        _ => Why::Other { fault },
    }
}

/// Adds a system as a member of the network.
fn add_member(network: &mut Network, system: System) -> Result<(), NetworkFault>
    ensures passed { OnOk result (system_fault network.old (member_of system) ≡ None) }
    ensures refused { IfErr result (IsRefusal (system_fault network.old (member_of system))) }
    ensures added { OnOk result (network.new ≡ with_system (member_of system) network.old) }
    ensures kept { OnErr result (network.new ≡ network.old) }
{
    network.add_system(
        system.identity,
        system.ports,
        system.phase,
        system.drift,
        system.continues,
        system.intervals,
    )
}

/// Puts a system after the others.
fn put_system(network: &mut Network, system: System) -> Result<(), Why>
    ensures network { OnOk result (put_system system network.old ≡ Ok network.new) }
    ensures refused { Stops (put_system system network.old) result }
{
    let newcomer = told_of(network, &system);
    match add_member(network, system) {
        Ok(()) => Ok(()),
        Err(fault) => Err(system_why(network, &newcomer, fault)),
    }
}

/// Adds a system.
#[tactic(auto, unfolding(crate::specs::ReadSystems::read_with_system))]
fn add_system(network: &mut Network, version: u64, system: &Value) -> Result<(), Why>
    ensures network { OnOk result (read_with_system version (view system.now) network.old ≡ Ok network.new) }
    ensures refused { Stops (read_with_system version (view system.now) network.old) result }
{
    match system.as_table() {
        None => Err(other_kind(Name::System, system)),
        Some(table) => {
            let system = system_of(version, network.params().announce, table)?;
            put_system(network, system)
        }
    }
}

/// Adds systems, one after another.
fn add_each(network: &mut Network, version: u64, systems: &[Value]) -> Result<(), Refusal>
    ensures network { OnOk result (read_each Section.System (read_with_system version) 0 (items_view systems.now) network.old ≡ Ok network.new) }
    ensures refused { StopsAt (read_each Section.System (read_with_system version) 0 (items_view systems.now) network.old) result }
{
    for (number, system) in systems.iter().enumerate() {
        if let Err(why) = add_system(network, version, system) {
            return Err(Refusal {
                place: Place::Member(Section::System, number),
                why,
            });
        }
    }
    Ok(())
}

/// Adds the systems of a document of this version.
#[tactic(auto, unfolding(crate::specs::ReadSystems::read_with_systems))]
pub(crate) fn add_systems(
    network: &mut Network,
    version: u64,
    document: &Table,
) -> Result<(), Refusal>
    ensures network { OnOk result (read_with_systems version (table_view document.now) network.old ≡ Ok network.new) }
    ensures refused { StopsAt (read_with_systems version (table_view document.now) network.old) result }
{
    let systems = section_in(document, Section::System)?;
    let systems = needed_in(systems)?;
    let systems = limited_in(Section::System, systems)?;
    add_each(network, version, systems)
}
