//! Why a document is refused, and where.

ghost use Rattle.std.specs.Prelude.{◌≡◌, ◌≤◌, length, take};
ghost use Rattle.toml.specs.View.{view};
ghost use Rattle.gptp_network.specs.Why.{fault_of, front_of, shape_of};

use crate::fault::DocumentFault;
use crate::keys::Name;
use crate::place::Place;
use arrayvec::ArrayVec;
use gptp_scenario::{NetworkFault, Params};
use gptp_vector::{ClockId, PortId};
use toml::Value;

/// How many octets of a text are kept.
const SHOWN: usize = 64;

/// What a value is.
#[derive(Clone, Copy, Debug, PartialEq, Eq)]
pub enum Shape {
    Text,
    Whole,
    Float,
    Flag,
    Date,
    Array,
    Table,
}

/// The front of a text, 64 octets at most, and how many octets the text has.
#[derive(Debug, Drop)]
pub struct Front {
    pub octets: ArrayVec<u8, 64>,
    pub count: usize,
}

/// The test that fails, with what it saw.
#[derive(Debug, Drop)]
pub enum Why {
    /// A key is missing.
    Missing {
        key: Name,
    },
    /// What stands at a key is another kind of value: this one.
    Kind {
        key: Name,
        shape: Shape,
    },
    /// A number from 0 isn't in its range.
    Natural {
        key: Name,
        value: i64,
        least: u64,
        most: u64,
    },
    /// A number isn't in its range.
    Whole {
        key: Name,
        value: i64,
        least: i64,
        most: i64,
    },
    /// There are so many intervals, and so many ports.
    Intervals {
        count: usize,
        ports: u8,
    },
    /// A text doesn't spell what it should.
    Text {
        key: Name,
        front: Front,
    },
    /// The least delay is above the greatest.
    Above {
        min: u64,
        max: u64,
    },
    /// There are too many members.
    TooMany {
        count: usize,
        most: usize,
    },
    /// An earlier system has that clock.
    Duplicate {
        clock: ClockId,
        system: usize,
    },
    /// A link would join a system with itself.
    BothEnds {
        clock: ClockId,
    },
    /// No system has that clock.
    UnknownClock {
        clock: ClockId,
    },
    /// The system has only so many ports.
    Beyond {
        port: PortId,
        ports: u8,
    },
    /// No link is at that port.
    Unlinked {
        port: PortId,
    },
    /// An earlier link is at that port.
    Taken {
        port: PortId,
        link: usize,
    },
    /// The greatest delay is above the least announce interval, in ns.
    TooLong {
        max: u64,
        most: u64,
    },
    /// An event is earlier than the one before it.
    Before {
        at: u64,
        before: u64,
    },
    /// The intervals don't go together, of which that of announcements is this, as a logarithm to base 2 of seconds.
    Timing {
        params: Params,
        announce: i8,
    },
    /// Another test of the network. No document fails it: what it tests was tested before, or can't be so yet.
    Other {
        fault: NetworkFault,
    },
    /// There is no memory.
    Memory,
}

/// The first test that a document fails, and where. Where there is no memory, the place says nothing.
#[derive(Debug, Drop)]
pub struct Refusal {
    pub place: Place,
    pub why: Why,
}

/// What a value is.
fn shape_of(value: &Value) -> Shape
    ensures { result ≡ shape_of (view value.now) }
{
    match value {
        Value::String(_) => Shape::Text,
        Value::Integer(_) => Shape::Whole,
        Value::Float(_) => Shape::Float,
        Value::Boolean(_) => Shape::Flag,
        Value::Datetime(_) => Shape::Date,
        Value::Array(_) => Shape::Array,
        Value::Table(_) => Shape::Table,
    }
}

/// Octets of which there are 64 at most.
fn few_octets(octets: &[u8]) -> ArrayVec<u8, 64>
    requires { length octets.now ≤ 64 }
    ensures { result.items ≡ octets.now }
{
    let mut few = ArrayVec::new();
    let _ = few.try_extend_from_slice(octets);
    few
}

/// The first 64 octets of a text, or all where it has fewer.
fn front_octets(text: &[u8]) -> ArrayVec<u8, 64>
    ensures { result.items ≡ take 64 text.now }
{
    let (front, _) = text.split_at(SHOWN.min(text.len()));
    few_octets(front)
}

/// The front of a text.
fn front_of(text: &str) -> Front
    ensures { result ≡ front_of text.now }
{
    let octets = front_octets(text.as_bytes());
    Front {
        octets,
        count: text.len(),
    }
}

/// A value of another kind than its key asks for.
pub(crate) fn other_kind(key: Name, value: &Value) -> Why
    ensures { result ≡ Why.Kind key (shape_of (view value.now)) }
{
    let shape = shape_of(value);
    Why::Kind { key, shape }
}

/// A text that doesn't spell what it should.
pub(crate) fn misspelled(key: Name, text: &str) -> Why
    ensures { result ≡ Why.Text key (front_of text.now) }
{
    let front = front_of(text);
    Why::Text { key, front }
}

impl Why {
    /// The fault of the document, without what was seen.
    pub fn fault(&self) -> DocumentFault
        ensures { result ≡ fault_of self.now }
    {
        match self {
            Why::Missing { key: _ } => DocumentFault::MissingKey,
            Why::Kind { key: _, shape: _ } => DocumentFault::WrongKind,
            Why::Natural {
                key: _,
                value: _,
                least: _,
                most: _,
            } => DocumentFault::OutOfRange,
            Why::Whole {
                key: _,
                value: _,
                least: _,
                most: _,
            } => DocumentFault::OutOfRange,
            Why::Intervals { count: _, ports: _ } => DocumentFault::OutOfRange,
            Why::Text { key: _, front: _ } => DocumentFault::OutOfRange,
            Why::Above { min: _, max: _ } => DocumentFault::OutOfRange,
            Why::TooMany { count: _, most: _ } => DocumentFault::TooMany,
            Why::Duplicate {
                clock: _,
                system: _,
            } => DocumentFault::DuplicateClock,
            Why::BothEnds { clock: _ } => DocumentFault::SelfLink,
            Why::UnknownClock { clock: _ } => DocumentFault::NoSuchPort,
            Why::Beyond { port: _, ports: _ } => DocumentFault::NoSuchPort,
            Why::Unlinked { port: _ } => DocumentFault::NoSuchPort,
            Why::Taken { port: _, link: _ } => DocumentFault::PortTaken,
            Why::TooLong { max: _, most: _ } => DocumentFault::DelayTooLong,
            Why::Before { at: _, before: _ } => DocumentFault::EventOrder,
            Why::Timing {
                params: _,
                announce: _,
            } => DocumentFault::Timing,
            Why::Other { fault } => DocumentFault::from(*fault),
            Why::Memory => DocumentFault::OutOfMemory,
        }
    }
}
