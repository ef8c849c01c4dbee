//! A network of three systems in a ring, with a fourth before them that fails; and what is to come of it. Times are in
//! ns.

use gptp_links::PcgFate;
use gptp_network::Document;
use gptp_roles::Role;
use gptp_vector::{ClockId, Identity};
use gptp_world::{Act, Change, Refused, Timed, World};
use std::alloc::{AllocError, Global};
use std::test::Fail;

/// Clocks 1 to 4, with as many ports as there are links at them. Some are as fast or as slow as they may be.
const SYSTEMS: &str =
    "version = 1\n[[system]]\nclock = \"0000000000000001\"\ndrift = 219902325\n[[system]]\nclock = \"0000000000000002\"\nports = 3\nphase = 1000000\ndrift = -219902325\n[[system]]\nclock = \"0000000000000003\"\nports = 2\nphase = 2000\ndrift = 219902325\n[[system]]\nclock = \"0000000000000004\"\nports = 2\ndrift = 43980465\n";

/// The systems of [`SYSTEMS`] in a document of version 2, where some of their ports announce each second and some each
/// two.
const MIXED_SYSTEMS: &str =
    "version = 2\n[[system]]\nclock = \"0000000000000001\"\nannounce = [1]\ndrift = 219902325\n[[system]]\nclock = \"0000000000000002\"\nports = 3\nannounce = [0, 1, 0]\nphase = 1000000\ndrift = -219902325\n[[system]]\nclock = \"0000000000000003\"\nports = 2\nannounce = [1, 0]\nphase = 2000\ndrift = 219902325\n[[system]]\nclock = \"0000000000000004\"\nports = 2\nannounce = [0, 1]\ndrift = 43980465\n";

/// What each link joins: clock 1 hangs on clock 2, and 2, 3 and 4 are a ring.
const LINKS: [&str; 4] = [
    "[[link]]\na = \"0000000000000001\"\na_port = 1\nb = \"0000000000000002\"\nb_port = 1\n",
    "[[link]]\na = \"0000000000000002\"\na_port = 2\nb = \"0000000000000003\"\nb_port = 1\n",
    "[[link]]\na = \"0000000000000002\"\na_port = 3\nb = \"0000000000000004\"\nb_port = 1\n",
    "[[link]]\na = \"0000000000000003\"\na_port = 2\nb = \"0000000000000004\"\nb_port = 2\n",
];

/// Clock 1 fails at 40 s.
const EVENT: &str = "[[event]]\nat = 40000000000\nkind = \"fail\"\nclock = \"0000000000000001\"\n";

/// When it fails.
pub(crate) const FAILS: u64 = 40_000_000_000;

/// By when everything has settled then: in (k + 3) n + L + 5 announce intervals of 1 s, n and k being 3, and L 9.
pub(crate) const SETTLED: u64 = 72_000_000_000;

/// The text of that network, with these systems and links of these bounds.
fn ring(alloc: Global, systems: &str, bounds: &str) -> Result<String, AllocError> {
    let mut text = String::new(alloc);
    text.push_str(systems)?;
    for link in LINKS {
        text.push_str(link)?;
        text.push_str(bounds)?;
    }
    text.push_str(EVENT)?;
    Ok(text)
}

/// The document of that text.
pub(crate) fn document(alloc: Global, bounds: &str) -> Result<Document, Fail> {
    let text = ring(alloc, SYSTEMS, bounds)?;
    Ok(Document::read(alloc, text.as_bytes())?)
}

/// The world of that document, at time 0, with the fate of a seed.
pub(crate) fn begun(alloc: Global, bounds: &str, seed: u64) -> Result<World<PcgFate>, Fail> {
    let document = document(alloc, bounds)?;
    Ok(World::new(alloc, document.network(), PcgFate::new(seed))?)
}

/// The world of that network with ports of both intervals, at time 0, with the fate of a seed.
pub(crate) fn mixed(alloc: Global, bounds: &str, seed: u64) -> Result<World<PcgFate>, Fail> {
    let text = ring(alloc, MIXED_SYSTEMS, bounds)?;
    let document = Document::read(alloc, text.as_bytes())?;
    Ok(World::new(alloc, document.network(), PcgFate::new(seed))?)
}

/// The clock with this number.
pub(crate) fn clock(number: u8) -> ClockId {
    ClockId::of_octets([0, 0, 0, 0, 0, 0, 0, number])
}

/// The identity of a system with this clock, and all defaults.
pub(crate) fn identity(clock: ClockId) -> Identity {
    let [a, b, c, d, e, f, g, h] = clock.octets();
    Identity::of_octets([246, 248, 254, 0x43, 0x6a, 248, a, b, c, d, e, f, g, h])
}

/// Clock 1 fails. Nothing is due before that any more.
pub(crate) fn fail(world: &mut World<PcgFate>) -> Result<(), Refused> {
    match world.act(Timed {
        at: FAILS,
        act: Act::Change(Change::Fail { clock: clock(1) }),
    }) {
        Ok(_) => Ok(()),
        Err(refused) => Err(refused),
    }
}

/// A clock, the clock of the root that it follows, how many steps away that is, and its Slave port.
pub(crate) type Followed = (u8, u8, u16, Option<u8>);

/// A clock, a port and the port's role.
pub(crate) type Played = (u8, u16, Role);

/// What all follow before clock 1 fails.
pub(crate) const FOLLOWED_BEFORE: [Followed; 4] = [
    (1, 1, 0, None),
    (2, 1, 1, Some(1)),
    (3, 1, 2, Some(1)),
    (4, 1, 2, Some(1)),
];

/// The roles of their ports before that.
pub(crate) const ROLES_BEFORE: [Played; 8] = [
    (1, 1, Role::Master),
    (2, 1, Role::Slave),
    (2, 2, Role::Master),
    (2, 3, Role::Master),
    (3, 1, Role::Slave),
    (3, 2, Role::Master),
    (4, 1, Role::Slave),
    (4, 2, Role::Passive),
];

/// What they follow once they have settled without it.
pub(crate) const FOLLOWED: [Followed; 3] = [
    (2, 2, 0, None),
    (3, 2, 1, Some(1)),
    (4, 2, 1, Some(1)),
];

/// The roles of their ports then.
pub(crate) const ROLES: [Played; 7] = [
    (2, 1, Role::Disabled),
    (2, 2, Role::Master),
    (2, 3, Role::Master),
    (3, 1, Role::Slave),
    (3, 2, Role::Master),
    (4, 1, Role::Slave),
    (4, 2, Role::Passive),
];

/// Whether each of these clocks follows what stands beside it.
pub(crate) fn follow(world: &World<PcgFate>, rows: &[Followed]) -> bool {
    for (number, root, steps, slave) in rows {
        if world.follows(clock(*number)) != Some((identity(clock(*root)), *steps, *slave)) {
            return false;
        }
    }
    true
}

/// Whether each of these ports has its role.
pub(crate) fn play(world: &World<PcgFate>, rows: &[Played]) -> bool {
    for (number, port, role) in rows {
        if world.role(clock(*number), *port) != Some(*role) {
            return false;
        }
    }
    true
}

/// Whether clock 1 is gone, and the others follow what they should, in their roles.
pub(crate) fn is_settled(world: &World<PcgFate>) -> bool {
    world.follows(clock(1)).is_none() && follow(world, &FOLLOWED) && play(world, &ROLES)
}
