//! What a document means: keys have defaults. Why one is refused is shown by the cases `document`.

use crate::same::same;
use gptp_network::Document;
use gptp_vector::{ClockId, PortId};
use gptp_world::{Act, Change, Params, Timed};
use std::alloc::Global;
use std::test::Fail;

/// Two systems, clocks 1 and 2, whose first ports a link joins, and an event.
const DOCUMENT: &str =
    "version = 1\n[[system]]\nclock = \"0000000000000001\"\n[[system]]\nclock = \"0000000000000002\"\n[[link]]\na = \"0000000000000001\"\na_port = 1\nb = \"0000000000000002\"\nb_port = 1\nmin = 500\nmax = 600\n[[event]]\nat = 7\nkind = \"priority1\"\nclock = \"0000000000000001\"\nvalue = 250\n";

/// What a network has by default.
const PARAMS: Params = Params {
    announce: 0,
    sync: -3,
    pdelay: 0,
    timeout: 3,
    lost: 9,
    threshold: 800,
    turnaround: 1000,
    residence: 1000,
    sync_timeout: 0,
    granularity: 0,
    noise: 0,
    window: 1,
};

/// What that document means.
fn read(alloc: Global) -> Result<Document, Fail> {
    Ok(Document::read(alloc, DOCUMENT.as_bytes())?)
}

#[test]
fn a_network_has_defaults(rt: HostRuntime) -> Result<(), Fail> {
    let document = read(rt.alloc())?;
    let network = document.network();
    same(&rt, network.params(), PARAMS);
    same(&rt, network.systems(), 2);
    same(&rt, network.links(), 1);
    assert!(rt; network.system_at(2).is_none());
    assert!(rt; network.link_at(1).is_none());
    Ok(())
}

#[test]
fn a_system_has_defaults(rt: HostRuntime) -> Result<(), Fail> {
    let document = read(rt.alloc())?;
    let system = document.network().system_at(0).ok_or("no system")?;
    let (identity, ports, phase, drift, intervals) = system;
    same(
        &rt,
        identity.octets(),
        [0xf6, 0xf8, 0xfe, 0x43, 0x6a, 0xf8, 0, 0, 0, 0, 0, 0, 0, 1],
    );
    same(&rt, (ports, phase, drift), (1, 0, 0));
    same(&rt, intervals.as_slice(), [0].as_slice());
    Ok(())
}

/// The first port of the system with this clock.
fn port(clock: u64) -> PortId {
    PortId {
        clock: ClockId::from(clock),
        port: 1,
    }
}

#[test]
fn a_link_has_defaults(rt: HostRuntime) -> Result<(), Fail> {
    let document = read(rt.alloc())?;
    let (a, b, bounds, up) = document.network().link_at(0).ok_or("no link")?;
    same(&rt, (a, b, up), (port(1), port(2), true));
    same(
        &rt,
        (bounds.link, bounds.min, bounds.max, bounds.loss),
        (0, 500, 600, 0),
    );
    Ok(())
}

/// The event.
fn change() -> Timed {
    let change = Change::Priority1 {
        clock: ClockId::from(1),
        value: 250,
    };
    Timed {
        at: 7,
        act: Act::Change(change),
    }
}

/// Two systems settle in 26 s.
#[test]
fn a_document_has_its_events(rt: HostRuntime) -> Result<(), Fail> {
    let document = read(rt.alloc())?;
    same(&rt, document.events(), [change()].as_slice());
    same(&rt, document.calm(), true);
    same(&rt, document.last_change(), 7);
    same(&rt, document.settles(), 26_000_000_007);
    Ok(())
}
