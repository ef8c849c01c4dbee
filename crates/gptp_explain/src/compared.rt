//! What decides between two systems or two ways.

ghost use Rattle.std.specs.Prelude.{◌≡◌};
ghost use Rattle.gptp_explain.specs.Compared.{difference, loss, variance, win};

use gptp_vector::{ClockId, Identity, PortId};
use gptp_words::ClockDigits;
use std::fmt;

/// The first in which two systems or two ways differ, with its value in both.
#[derive(Clone, Copy)]
pub(crate) enum Compared {
    Priority1(u8, u8),
    Class(u8, u8),
    Accuracy(u8, u8),
    Variance(u16, u16),
    Priority2(u8, u8),
    Clock(ClockId, ClockId),
    Steps(u32, u32),
    Source(ClockId, ClockId),
    SourcePort(u16, u16),
}

impl fmt::Display for Compared {
    ghost use Rattle.std.specs.Prelude.{Some};
    ghost use Rattle.gptp_explain.specs.Compared.{compared_text};

    ghost output = { λ compared. Some (compared_text compared) };

    fn fmt<W: fmt::Write>(&self, f: &mut fmt::Formatter<W>) -> fmt::Result {
        match *self {
            Compared::Priority1(one, other) => write!(f, "priority1 {one} {other}"),
            Compared::Class(one, other) => write!(f, "class {one} {other}"),
            Compared::Accuracy(one, other) => write!(f, "accuracy {one} {other}"),
            Compared::Variance(one, other) => write!(f, "variance {one} {other}"),
            Compared::Priority2(one, other) => write!(f, "priority2 {one} {other}"),
            Compared::Clock(one, other) => {
                write!(f, "clock {} {}", ClockDigits(one), ClockDigits(other))
            }
            Compared::Steps(one, other) => write!(f, "steps {one} {other}"),
            Compared::Source(one, other) => {
                write!(f, "source {} {}", ClockDigits(one), ClockDigits(other))
            }
            Compared::SourcePort(one, other) => write!(f, "source_port {one} {other}"),
        }
    }
}

/// The variance of an identity.
fn variance(identity: Identity) -> u16
    ensures { result ≡ variance identity }
{
    let octets = identity.octets();
    u16::from(octets[3]) * 256 + u16::from(octets[4])
}

/// The first field in which two identities differ: the clock where no other does.
pub(crate) fn difference(one: Identity, other: Identity) -> Compared
    ensures { result ≡ difference one other }
{
    let here = one.octets();
    let there = other.octets();
    if here[0] != there[0] {
        Compared::Priority1(here[0], there[0])
    } else if here[1] != there[1] {
        Compared::Class(here[1], there[1])
    } else if here[2] != there[2] {
        Compared::Accuracy(here[2], there[2])
    } else if variance(one) != variance(other) {
        Compared::Variance(variance(one), variance(other))
    } else if here[5] != there[5] {
        Compared::Priority2(here[5], there[5])
    } else {
        Compared::Clock(one.clock(), other.clock())
    }
}

/// What a Master port of a clock wins by against the other end, where both are so many links from their root.
pub(crate) fn win(steps: u16, clock: ClockId, there: u16, other: ClockId) -> Compared
    ensures { result ≡ win steps clock there other }
{
    if steps == there {
        Compared::Clock(clock, other)
    } else {
        Compared::Steps(u32::from(steps), u32::from(there))
    }
}

/// What a way loses by against the way over the Slave port: each by the steps that it offers and by the port at its
/// end.
pub(crate) fn loss(slave_offers: u32, parent: &PortId, offers: u32, there: &PortId) -> Compared
    ensures { result ≡ loss slave_offers parent.now offers there.now }
{
    if slave_offers != offers {
        Compared::Steps(slave_offers, offers)
    } else if parent.clock != there.clock {
        Compared::Source(parent.clock, there.clock)
    } else {
        Compared::SourcePort(parent.port, there.port)
    }
}
