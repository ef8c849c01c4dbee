//! Documents of tests, by their events, and what is told of their times.

ghost use Rattle.std.specs.Prelude.{IfOk};
ghost use Rattle.gptp_how_soon.specs.Times.{AreRising};

use crate::{Settling, SettlingTime, settling_at, settling_times};
use gptp_network::Document;
use std::alloc::Global;
use std::test::Fail;

/// Four systems in a ring, whose frames take 390 to 410 ns.
const RING: &str =
    "version = 1\n[[system]]\nclock = \"000000000000000a\"\npriority1 = 128\nports = 2\n[[system]]\nclock = \"000000000000000b\"\nports = 2\n[[system]]\nclock = \"000000000000000c\"\nports = 2\n[[system]]\nclock = \"000000000000000d\"\nports = 2\n[[link]]\na = \"000000000000000a\"\na_port = 1\nb = \"000000000000000b\"\nb_port = 1\nmin = 390\nmax = 410\n[[link]]\na = \"000000000000000b\"\na_port = 2\nb = \"000000000000000c\"\nb_port = 1\nmin = 390\nmax = 410\n[[link]]\na = \"000000000000000c\"\na_port = 2\nb = \"000000000000000d\"\nb_port = 1\nmin = 390\nmax = 410\n[[link]]\na = \"000000000000000d\"\na_port = 2\nb = \"000000000000000a\"\nb_port = 2\nmin = 390\nmax = 410\n";

/// A document of two end stations and the link between them, without its delays.
pub(crate) const PAIR: &str =
    "version = 1\n[[system]]\nclock = \"000000000000000a\"\n[[system]]\nclock = \"000000000000000b\"\n[[link]]\na = \"000000000000000a\"\na_port = 1\nb = \"000000000000000b\"\nb_port = 1\n";

/// The times of the ring with these events.
pub(crate) fn ring(alloc: Global, events: &str) -> Result<Vec<SettlingTime>, Fail>
    ensures { IfOk result (λ times. AreRising times.items) }
{
    let mut text = String::new(alloc);
    text.push_str(RING)?;
    text.push_str(events)?;
    times_of(alloc, text.as_str())
}

/// The one time of a document of two end stations with these delays and this section `[network]`.
pub(crate) fn pair(
    alloc: Global,
    delays: &str,
    network: &str,
) -> Result<Option<SettlingTime>, Fail> {
    let mut text = String::new(alloc);
    text.push_str(PAIR)?;
    text.push_str(delays)?;
    text.push_str(network)?;
    let times = times_of(alloc, text.as_str())?;
    Ok(settling_at(&times, 0))
}

/// The times of the document of a text.
pub(crate) fn times_of(alloc: Global, text: &str) -> Result<Vec<SettlingTime>, Fail>
    ensures { IfOk result (λ times. AreRising times.items) }
{
    let document = Document::read(alloc, text.as_bytes())?;
    Ok(settling_times(alloc, &document)?)
}

/// The times of systems with these links, each by the last digits of its clocks and its ports, and with these events.
pub(crate) fn joined(
    alloc: Global,
    clocks: &[&str],
    links: &[(&str, &str, &str, &str)],
    events: &str,
) -> Result<Vec<SettlingTime>, Fail>
    ensures { IfOk result (λ times. AreRising times.items) }
{
    let mut text = String::new(alloc);
    text.push_str("version = 1\n")?;
    for clock in clocks {
        writeln!(
            text,
            "[[system]]\nclock = \"000000000000000{clock}\"\nports = 4"
        )?;
    }
    for (a, a_port, b, b_port) in links {
        writeln!(
            text,
            "[[link]]\na = \"000000000000000{a}\"\na_port = {a_port}"
        )?;
        writeln!(
            text,
            "b = \"000000000000000{b}\"\nb_port = {b_port}\nmin = 390\nmax = 410"
        )?;
    }
    text.push_str(events)?;
    times_of(alloc, text.as_str())
}

/// The times of such systems where the first of the links goes down after 30 s.
pub(crate) fn cut(
    alloc: Global,
    clocks: &[&str],
    links: &[(&str, &str, &str, &str)],
) -> Result<Vec<SettlingTime>, Fail>
    ensures { IfOk result (λ times. AreRising times.items) }
{
    let mut event = String::new(alloc);
    event.push_str("[[event]]\nat = 30000000000\nkind = \"link_down\"\n")?;
    if let Some((clock, port, _, _)) = links.first() {
        writeln!(event, "clock = \"000000000000000{clock}\"\nport = {port}")?;
    }
    joined(alloc, clocks, links, event.as_str())
}

/// What is told of the start, with a bound of the choice and the roles.
pub(crate) fn start(choice: u64, rest: u64, exact_from: u64, watch: u64) -> Option<SettlingTime> {
    Some(SettlingTime {
        at: 0,
        settling: Some(Settling {
            choice,
            roles: choice,
            sound: choice,
            rest,
            exact_from,
        }),
        watch,
    })
}

/// By how much later the choice stands than a time, and from when on offsets are exact.
pub(crate) fn soon(times: &[SettlingTime], at: u64) -> Option<(u64, u64)>
    requires { AreRising times.now }
{
    let settling = settling_at(times, at)?.settling?;
    Some((settling.choice, settling.exact_from))
}

/// The bounds of the choice and of the roles at a time.
pub(crate) fn bounds(times: &[SettlingTime], at: u64) -> Option<(u64, u64)>
    requires { AreRising times.now }
{
    let settling = settling_at(times, at)?.settling?;
    Some((settling.choice, settling.roles))
}

/// How much later than a time the network rests, and by how much later than another the choice stands.
pub(crate) fn rests(times: &[SettlingTime], at: u64, next: u64) -> Option<(u64, u64)>
    requires { AreRising times.now }
{
    let settling = settling_at(times, at)?.settling?;
    Some((settling.rest, settling_at(times, next)?.settling?.choice))
}
