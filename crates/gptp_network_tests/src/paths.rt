//! How many systems paths have at most, and how long a network takes to settle by that. Times are in ns.

use crate::ring::{self, Followed};
use crate::same::{same, same_at};
use gptp_links::PcgFate;
use gptp_network::Document;
use gptp_world::World;
use std::alloc::{AllocError, Global};
use std::fmt::Write;
use std::test::Fail;

/// Clock 1 alone.
const ALONE: &str = "version = 1\n[[system]]\nclock = \"0000000000000001\"\n";

/// Clocks 1 and 2, and two links between them.
const PARALLEL: &str =
    "version = 1\n[[system]]\nclock = \"0000000000000001\"\nports = 2\n[[system]]\nclock = \"0000000000000002\"\nports = 2\n[[link]]\na = \"0000000000000001\"\na_port = 1\nb = \"0000000000000002\"\nb_port = 1\nmin = 500\nmax = 500\n[[link]]\na = \"0000000000000001\"\na_port = 2\nb = \"0000000000000002\"\nb_port = 2\nmin = 500\nmax = 500\n";

/// Clock 1 with four ports, each linked to one of clocks 2 to 5; it fails at 7.
const STAR: &str =
    "version = 1\n[[system]]\nclock = \"0000000000000001\"\nports = 4\n[[system]]\nclock = \"0000000000000002\"\n[[system]]\nclock = \"0000000000000003\"\n[[system]]\nclock = \"0000000000000004\"\n[[system]]\nclock = \"0000000000000005\"\n[[link]]\na = \"0000000000000001\"\na_port = 1\nb = \"0000000000000002\"\nb_port = 1\nmin = 500\nmax = 500\n[[link]]\na = \"0000000000000003\"\na_port = 1\nb = \"0000000000000001\"\nb_port = 2\nmin = 500\nmax = 500\n[[link]]\na = \"0000000000000001\"\na_port = 3\nb = \"0000000000000004\"\nb_port = 1\nmin = 500\nmax = 500\n[[link]]\na = \"0000000000000005\"\na_port = 1\nb = \"0000000000000001\"\nb_port = 4\nmin = 500\nmax = 500\n[[event]]\nat = 7\nkind = \"fail\"\nclock = \"0000000000000001\"\n";

/// How many systems a path of a document's snapshot at a time has at most.
fn path_bound(alloc: Global, document: &Document, at: u64) -> Result<usize, Fail> {
    Ok(document.snapshot(alloc, at)?.path_bound())
}

#[test]
fn paths_have_few_systems(rt: HostRuntime) -> Result<(), Fail> {
    let alloc = rt.alloc();
    for (name, text, at, most) in [
        ("alone", ALONE, 0, 1),
        ("two with two links", PARALLEL, 0, 2),
        ("a star of five", STAR, 0, 3),
        ("its four end stations", STAR, 7, 2),
    ] {
        let document = Document::read(alloc, text.as_bytes())?;
        same_at(&rt, &name, path_bound(alloc, &document, at)?, most);
    }
    let ring = ring::document(alloc, "min = 500\nmax = 500\n")?;
    same_at(&rt, &"a ring and one more", path_bound(alloc, &ring, 0)?, 4);
    same_at(&rt, &"the ring", path_bound(alloc, &ring, ring::FAILS)?, 3);
    Ok(())
}

#[test]
fn short_paths_settle_sooner(rt: HostRuntime) -> Result<(), Fail> {
    let alloc = rt.alloc();
    let document = Document::read(alloc, STAR.as_bytes())?;
    document.well_formed();
    let network = document.network();
    let events = document.events();
    for (systems, found, span) in [
        (3, network.settling_span_over(3, events), 32_000_000_000),
        (5, network.settling_span_over(5, events), 44_000_000_000),
        (14, network.settling_span_over(14, events), 98_000_000_000),
        (
            512,
            network.settling_span_over(512, events),
            3_086_000_000_000,
        ),
    ] {
        same_at(&rt, &systems, found, span);
    }
    Ok(())
}

/// A bridge of clock 0x20 = 32, which is worse than all end stations.
const BRIDGE: &str = "version = 1\n[[system]]\nclock = \"0000000000000020\"\nports = 8\n";

/// The document of that bridge and eight end stations, one at each of its ports.
fn hall(alloc: Global) -> Result<String, AllocError> {
    let mut text = String::new(alloc);
    text.push_str(BRIDGE)?;
    for number in 1..9 {
        write!(text, "[[system]]\nclock = \"000000000000000{number}\"\n")?;
    }
    for number in 1..9 {
        write!(
            text,
            "[[link]]\na = \"0000000000000020\"\na_port = {number}\n"
        )?;
        write!(
            text,
            "b = \"000000000000000{number}\"\nb_port = 1\nmin = 100\nmax = 500\n"
        )?;
    }
    Ok(text)
}

/// The first end station is best, and reaches all others over the bridge.
const HALL: [Followed; 9] = [
    (1, 1, 0, None),
    (2, 1, 2, Some(1)),
    (3, 1, 2, Some(1)),
    (4, 1, 2, Some(1)),
    (5, 1, 2, Some(1)),
    (6, 1, 2, Some(1)),
    (7, 1, 2, Some(1)),
    (8, 1, 2, Some(1)),
    (32, 1, 1, Some(1)),
];

#[test]
fn a_hall_settles_by_its_paths(rt: HostRuntime) -> Result<(), Fail> {
    let alloc = rt.alloc();
    let document = Document::read(alloc, hall(alloc)?.as_bytes())?;
    same(&rt, path_bound(alloc, &document, 0)?, 3);
    // by how many live it would be 68 s
    document.well_formed();
    same(
        &rt,
        document.network().settling_span_over(3, document.events()),
        32_000_000_000,
    );
    let mut world = World::new(alloc, document.network(), PcgFate::new(1))?;
    same(&rt, world.advance(32_000_000_000), Ok(()));
    same(&rt, ring::follow(&world, &HALL), true);
    Ok(())
}
