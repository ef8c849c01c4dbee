//! The sections `[[link]]`.

ghost use Rattle.std.specs.Prelude.{◌≡◌, ◌≤◌, Ok, OnOk, IfSome};
ghost use Rattle.toml.specs.View.{view, items_view, table_view};
ghost use Rattle.gptp_network.specs.Found.{link_from, system_from};
ghost use Rattle.gptp_network.specs.ReadLinks.{first_taken, first_without, is_there, link_why, no_port, put_link, read_link, read_with_link, read_with_links, taken};
ghost use Rattle.gptp_network.specs.ReadMembers.{read_each};
ghost use Rattle.gptp_network.specs.Reading.{natural_at};
ghost use Rattle.gptp_network.specs.Why.{Stops, StopsAt};

use crate::found::{link_with, system_with};
use crate::keys::{A_PORT, B_PORT, LOSS, MAX, MIN, Name, Natural};
use crate::members::{limited_in, section_in};
use crate::place::{Place, Section};
use crate::values::{clock, flag, natural};
use crate::why::{Refusal, Why, other_kind};
use gptp_scenario::{Network, NetworkFault};
use gptp_vector::PortId;
use toml::{Table, Value};

/// A link as a document describes it.
#[derive(Clone, Copy, Debug)]
pub(crate) struct Link {
    pub a: PortId,
    pub b: PortId,
    pub min: u64,
    pub max: u64,
    pub loss: u16,
    pub up: bool,
}

/// The number of a port.
pub(crate) fn port_number(table: &Table, key: Natural) -> Result<u16, Why>
    requires few { key.2 ≤ 65535 }
    requires low { IfSome key.3 (λ n. key.1 ≤ n) }
    requires high { IfSome key.3 (λ n. n ≤ key.2) }
    ensures { result ≡ natural_at key (table_view table.now) }
{
    let number = natural(table, key)?;
    Ok(number as u16)
}

/// The values of a link.
#[tactic(auto, unfolding(crate::specs::ReadLinks::read_link))]
fn link_of(table: &Table) -> Result<Link, Why>
    ensures { result ≡ read_link (table_view table.now) }
{
    let a = clock(table, Name::A)?;
    let a_port = port_number(table, A_PORT)?;
    let b = clock(table, Name::B)?;
    let b_port = port_number(table, B_PORT)?;
    let min = natural(table, MIN)?;
    let max = natural(table, MAX)?;
    let loss = natural(table, LOSS)? as u16;
    let up = flag(table, Name::Up, true)?;
    Ok(Link {
        a: PortId {
            clock: a,
            port: a_port,
        },
        b: PortId {
            clock: b,
            port: b_port,
        },
        min,
        max,
        loss,
        up,
    })
}

/// Why a network doesn't have a port: no system has its clock, or the system has fewer ports.
pub(crate) fn no_port(network: &Network, port: &PortId) -> Why
    ensures { result ≡ no_port port.now (system_from 0 network.now.systems port.now.clock) }
{
    match system_with(network, port.clock) {
        None => Why::UnknownClock { clock: port.clock },
        Some((_, ports)) => Why::Beyond { port: *port, ports },
    }
}

/// An earlier link is at the port.
fn taken(network: &Network, port: &PortId) -> Why
    ensures { result ≡ taken port.now (link_from 0 network.now.links port.now) }
{
    match link_with(network, port) {
        Some(link) => Why::Taken { port: *port, link },
        None => Why::Other {
            fault: NetworkFault::PortTaken,
        },
    }
}

/// Whether a port is one of its system.
pub(crate) fn is_there(network: &Network, port: &PortId) -> bool
    ensures { result ≡ is_there port.now (system_from 0 network.now.systems port.now.clock) }
{
    match system_with(network, port.clock) {
        None => false,
        Some((_, ports)) => port.port <= u16::from(ports),
    }
}

/// The first end of a link that is at no port.
fn first_without(network: &Network, link: &Link) -> PortId
    ensures { result ≡ first_without network.now.systems link.now }
{
    if is_there(network, &link.a) {
        link.b
    } else {
        link.a
    }
}

/// The first end of a link at which another link is.
fn first_taken(network: &Network, link: &Link) -> PortId
    ensures { result ≡ first_taken network.now.links link.now }
{
    if network.has_link(link.a) {
        link.a
    } else {
        link.b
    }
}

/// Why a link can't be added.
fn link_why(network: &Network, link: &Link, fault: NetworkFault) -> Why
    ensures { result ≡ link_why network.now link.now fault }
{
    match fault {
        NetworkFault::OutOfRange => Why::Above {
            min: link.min,
            max: link.max,
        },
        NetworkFault::SelfLink => Why::BothEnds {
            clock: link.a.clock,
        },
        NetworkFault::NoSuchPort => no_port(network, &first_without(network, link)),
        NetworkFault::PortTaken => taken(network, &first_taken(network, link)),
        NetworkFault::DelayTooLong => Why::TooLong {
            max: link.max,
            most: network.least_interval(),
        },
        NetworkFault::OutOfMemory => Why::Memory,
        _ => Why::Other { fault },
    }
}

/// Puts a link after the others.
fn put_link(network: &mut Network, link: &Link) -> Result<(), Why>
    ensures network { OnOk result (put_link link.now network.old ≡ Ok network.new) }
    ensures refused { Stops (put_link link.now network.old) result }
{
    match network.add_link(link.a, link.b, link.min, link.max, link.loss, link.up) {
        Ok(()) => Ok(()),
        Err(fault) => Err(link_why(network, link, fault)),
    }
}

/// Adds a link.
#[tactic(auto, unfolding(crate::specs::ReadLinks::read_with_link))]
fn add_link(network: &mut Network, link: &Value) -> Result<(), Why>
    ensures network { OnOk result (read_with_link (view link.now) network.old ≡ Ok network.new) }
    ensures refused { Stops (read_with_link (view link.now) network.old) result }
{
    match link.as_table() {
        None => Err(other_kind(Name::Link, link)),
        Some(table) => {
            let link = link_of(table)?;
            put_link(network, &link)
        }
    }
}

/// Adds links, one after another.
fn add_each(network: &mut Network, links: &[Value]) -> Result<(), Refusal>
    ensures network { OnOk result (read_each Section.Link read_with_link 0 (items_view links.now) network.old ≡ Ok network.new) }
    ensures refused { StopsAt (read_each Section.Link read_with_link 0 (items_view links.now) network.old) result }
{
    for (number, link) in links.iter().enumerate() {
        if let Err(why) = add_link(network, link) {
            return Err(Refusal {
                place: Place::Member(Section::Link, number),
                why,
            });
        }
    }
    Ok(())
}

/// Adds the links of a document.
#[tactic(auto, unfolding(crate::specs::ReadLinks::read_with_links))]
pub(crate) fn add_links(network: &mut Network, document: &Table) -> Result<(), Refusal>
    ensures network { OnOk result (read_with_links (table_view document.now) network.old ≡ Ok network.new) }
    ensures refused { StopsAt (read_with_links (table_view document.now) network.old) result }
{
    let links = section_in(document, Section::Link)?;
    let links = limited_in(Section::Link, links)?;
    add_each(network, links)
}
