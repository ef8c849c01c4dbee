//! The clocks that an announcement passed.

ghost use Rattle.std.specs.Prelude.{◌≡◌, ◌/◌, length};
ghost use Rattle.gptp_vector.specs.Trace.{clocks};

use crate::port::ClockId;
use byteorder::{BigEndian, ByteOrder};
use std::error::Error;
use std::fmt;
use std::marker::Model;

/// How many clocks a trace holds at the most.
pub const TRACE_CAPACITY: usize = 256;

/// A path trace as a value (IEEE 802.1AS-2020, 10.3.9.23): the clocks that an announcement passed, the
/// root first. It is seen as the list of their numbers, of which there are at most
/// [`TRACE_CAPACITY`], and takes no memory beyond itself.
#[derive(Debug, Drop)]
pub struct Trace {
    clocks: [ClockId; TRACE_CAPACITY],
    count: usize,
}

impl Model for Trace {
    ghost use Rattle.std.specs.Prelude.{◌≡◌, ◌≤◌, ℕ, List, length, take};

    ghost Value = { List ℕ };

    ghost view = { λ t. take t.count t.clocks };

    ghost invariant = { λ t. (t.count ≤ 256) × (length t.clocks ≡ 256) };
}

/// A trace has no room for one more clock: this one.
#[derive(Clone, Copy, Debug, PartialEq, Eq)]
pub enum Full {
    Full(ClockId),
}

impl fmt::Display for Full {
    ghost use Rattle.std.specs.Prelude.{Some, codes};

    ghost output = { λ _. Some (codes "1 Full") };

    fn fmt<W: fmt::Write>(&self, f: &mut fmt::Formatter<W>) -> fmt::Result {
        f.write_str("1 Full")
    }
}

impl Error for Full {}

impl Trace {
    ghost use Rattle.std.specs.Prelude.{◌≡◌, ◌<◌, ◌≤◌, ◌↔◌, ◌+◌, ◌-◌, ◌*◌, ◌/◌, ℕ, [], ◌∷◌, ◌++◌, length, slice_get, Contains, IsTrue, IsOk, IfErr, OnOk, OnErr};
    ghost use Rattle.gptp_vector.specs.Trace.{clock_left_out};

    /// The trace with no clock.
    pub fn empty() -> Self
        ensures { result ≡ [] }
    {
        Trace {
            clocks: [ClockId::default(); TRACE_CAPACITY],
            count: 0,
        }
    }

    /// How many clocks the trace has.
    pub fn len(&self) -> usize
        ensures count { result ≡ length self.now }
        ensures bound { length self.now ≤ 256 }
    {
        self.count
    }

    /// Whether the trace has no clock.
    pub fn is_empty(&self) -> bool
        ensures { IsTrue result ↔ (self.now ≡ []) }
    {
        self.count == 0
    }

    /// The clock at a place, counted from 0, or nothing past the end.
    pub fn get(&self, place: usize) -> Option<ClockId>
        ensures { result ≡ slice_get self.now place }
    {
        self.as_slice().get(place).copied()
    }

    /// The clocks, the root first.
    pub fn as_slice(&self) -> &[ClockId]
        ensures { result.now ≡ self.now }
    {
        &self.clocks[..self.count]
    }

    /// Whether the trace has this clock.
    pub fn holds(&self, clock: ClockId) -> bool
        ensures { IsTrue result ↔ Contains self.now clock }
    {
        self.as_slice().contains(&clock)
    }

    /// Adds a clock at the end. A trace of [`TRACE_CAPACITY`] clocks is [`Full`], with the clock
    /// inside, and unchanged.
    pub fn append(&mut self, clock: ClockId) -> Result<(), Full>
        ensures ok { OnOk result (self.new ≡ self.old ++ clock ∷ []) }
        ensures room { IsOk result ↔ (length self.old < 256) }
        ensures full { IfErr result (λ e. e ≡ Full.Full clock) }
        ensures err { OnErr result (self.new ≡ self.old) }
    {
        if self.count == TRACE_CAPACITY {
            return Err(Full::Full(clock));
        }
        self.clocks[self.count] = clock;
        self.count += 1;
        Ok(())
    }

    /// Adds clocks at the end, in their order, all of them or none. Where they don't all fit the trace
    /// is unchanged, and the first of them that finds no room is inside the [`Full`].
    pub fn extend(&mut self, clocks: &[ClockId]) -> Result<(), Full>
        ensures ok { OnOk result (self.new ≡ self.old ++ clocks.now) }
        ensures room { IsOk result ↔ (length self.old + length clocks.now ≤ 256) }
        ensures full { IfErr result (λ e. slice_get clocks.now (256 - length self.old) ≡ Some (clock_left_out e)) }
        ensures err { OnErr result (self.new ≡ self.old) }
    {
        if let Some(clock) = clocks.get(TRACE_CAPACITY - self.count) {
            return Err(Full::Full(*clock));
        }
        let start = self.count;
        let end = start + clocks.len();
        let all = &mut self.clocks[..];
        all[start..end].copy_from_slice(clocks);
        self.count = end;
        Ok(())
    }

    /// Puts the clocks that octets spell in place of its own: eight octets for each, the most significant first.
    pub fn read_octets(&mut self, octets: &[u8])
        requires { length octets.now / 8 ≤ 256 }
        ensures { self.new ≡ clocks octets.now }
    {
        self.count = octets.len() / 8;
        read_clocks(octets, &mut self.clocks[..self.count]);
    }

    /// Removes every clock.
    pub fn clear(&mut self)
        ensures { self.new ≡ [] }
    {
        self.count = 0;
    }

    /// Another trace of the same clocks. Costs what the trace has, not its capacity.
    pub fn copy(&self) -> Self
        ensures { result ≡ self.now }
    {
        let mut clocks = [ClockId::default(); TRACE_CAPACITY];
        clocks[..self.count].copy_from_slice(self.as_slice());
        Trace {
            clocks,
            count: self.count,
        }
    }
}

/// Writes the clocks that octets spell over these, of which there are as many.
fn read_clocks(octets: &[u8], trace: &mut [ClockId])
    requires { length trace.old ≡ length octets.now / 8 }
    ensures { trace.new ≡ clocks octets.now }
{
    for place in 0..trace.len() {
        trace[place] = ClockId::from(BigEndian::read_u64(&octets[8 * place..]));
    }
}
