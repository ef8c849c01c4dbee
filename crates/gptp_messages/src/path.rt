//! The path trace of an Announce, as it stands in the frame.

ghost use Rattle.std.specs.Prelude.{◌≡◌, ◌/◌, ◌%◌, ◌≤◌, ◌↔◌, IsTrue, Contains, length, slice_get};
ghost use Rattle.gptp_messages.specs.Path.{path_octets};
ghost use Rattle.gptp_vector.specs.Trace.{clocks};

use crate::frame::clock_at;
use gptp_vector::{ClockId, Full, TRACE_CAPACITY, Trace};
use std::marker::Model;

/// The pathSequence of an Announce (IEEE 802.1AS-2020, 10.6.3.3.8 and 10.3.9.23), lent out of the
/// frame: the clocks that the Announce passed, the root first. It is seen as the list of their numbers.
#[derive(Debug, Drop)]
pub struct PathView<'a> {
    octets: &'a [u8],
}

impl<'a> Model for PathView<'a> {
    ghost use Rattle.std.specs.Prelude.{◌≡◌, ◌%◌, ℕ, List, length};
    ghost use Rattle.gptp_vector.specs.Trace.{clocks};

    ghost Value = { List ℕ };

    ghost view = { λ p. clocks p.octets.now };

    ghost invariant = { λ p. length p.octets.now % 8 ≡ 0 };
}

impl<'a> PathView<'a> {
    ghost use Rattle.std.specs.Prelude.{◌≡◌, ◌%◌, ◌↔◌, IsTrue, Contains, [], length, slice_get};
    ghost use Rattle.std.specs.Prelude.{◌≤◌, IsOk, IfErr, OnOk, OnErr};
    ghost use Rattle.gptp_vector.specs.Trace.{clock_left_out as clock_inside};
    ghost use Rattle.gptp_messages.specs.Path.{path_octets};
    ghost use Rattle.gptp_vector.specs.Trace.{clocks};

    /// The path with no clock.
    #[tactic(auto, unfolding(gptp_vector::specs::Trace::clocks))]
    pub(crate) fn empty() -> PathView<'a>
        ensures { result ≡ [] }
    {
        PathView { octets: &[] }
    }

    /// The clocks that these octets spell, eight for each.
    pub(crate) fn of_octets(octets: &'a [u8]) -> PathView<'a>
        requires { length octets.now % 8 ≡ 0 }
        ensures { result ≡ clocks octets.now }
    {
        PathView { octets }
    }

    /// The octets that spell the path, eight for each clock.
    pub(crate) fn octets(&self) -> &'a [u8]
        ensures { result.now ≡ path_octets self.now }
    {
        as_spelled(self.octets)
    }

    /// Puts the path in place of a trace. A path of more than 256 clocks is [`Full`], with the first
    /// clock that finds no room inside, and leaves the trace as it was.
    pub fn copy_to(&self, trace: &mut Trace) -> Result<(), Full>
        ensures ok { OnOk result (trace.new ≡ self.now) }
        ensures room { IsOk result ↔ (length self.now ≤ 256) }
        ensures full { IfErr result (λ e. slice_get self.now 256 ≡ Some (clock_inside e)) }
        ensures err { OnErr result (trace.new ≡ trace.old) }
    {
        if let Some(clock) = clock_of(self.octets, TRACE_CAPACITY) {
            return Err(Full::Full(clock));
        }
        read_clocks(self.octets, trace);
        Ok(())
    }

    /// How many clocks the path has.
    pub fn len(&self) -> usize
        ensures { result ≡ length self.now }
    {
        count_of(self.octets)
    }

    /// Whether the path has no clock.
    pub fn is_empty(&self) -> bool
        ensures { IsTrue result ↔ (self.now ≡ []) }
    {
        count_of(self.octets) == 0
    }

    /// The clock at a place, counted from 0, or nothing past the end.
    pub fn get(&self, place: usize) -> Option<ClockId>
        ensures { result ≡ slice_get self.now place }
    {
        clock_of(self.octets, place)
    }

    /// Whether the path has this clock.
    pub fn holds(&self, clock: ClockId) -> bool
        ensures { IsTrue result ↔ Contains self.now clock }
    {
        has_clock(self.octets, clock)
    }
}

/// How many clocks the octets spell.
fn count_of(octets: &[u8]) -> usize
    ensures { result ≡ length (clocks octets.now) }
{
    octets.len() / 8
}

/// The clock at a place, where there is one.
fn clock_of(octets: &[u8], place: usize) -> Option<ClockId>
    ensures { result ≡ slice_get (clocks octets.now) place }
{
    if place < octets.len() / 8 {
        Some(clock_at(octets, 8 * place))
    } else {
        None
    }
}

/// Whether the octets spell this clock somewhere.
fn has_clock(octets: &[u8], clock: ClockId) -> bool
    ensures { IsTrue result ↔ Contains (clocks octets.now) clock }
{
    let mut found = false;
    for place in 0..octets.len() / 8 {
        found |= clock_at(octets, 8 * place) == clock;
    }
    found
}

/// The octets unchanged: they are the spelling of their clocks.
fn as_spelled(octets: &[u8]) -> &[u8]
    requires { length octets.now % 8 ≡ 0 }
    ensures { result.now ≡ path_octets (clocks octets.now) }
{
    octets
}

/// Puts the clocks that the octets spell, at most 256, in place of those of a trace.
fn read_clocks(octets: &[u8], trace: &mut Trace)
    requires { length octets.now / 8 ≤ 256 }
    ensures { trace.new ≡ clocks octets.now }
{
    trace.read_octets(octets);
}
