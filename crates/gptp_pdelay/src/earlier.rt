//! The exchanges before the last one that a rate may be measured since.

ghost use Rattle.std.specs.Prelude.{◌≡◌, ◌<◌, ◌≤◌, ◌-◌, [], ◌∷◌, length, take, IsOk, IfOk};
ghost use Rattle.gptp_pdelay.specs.Earlier.{past_of};
ghost use Rattle.gptp_pdelay.specs.Exchange.{oldest};

use crate::exchange::{Measurement, Times};
use crate::packed::Packed;
use arrayvec::ArrayVec;
use std::alloc::{AllocError, Global};
use std::marker::Model;

/// How many the longest window has before the last one.
const MOST_EARLIER: usize = 15;

/// Room for them, which is kept apart from the port.
#[derive(Debug, Drop)]
struct Room {
    times: ArrayVec<Packed, MOST_EARLIER>,
}

/// The times of the exchanges before the last one, the newest first, at most as many as are asked for.
#[derive(Debug, Drop)]
pub struct Earlier {
    most: u8,
    room: Option<Box<Room>>,
}

impl Model for Earlier {
    ghost use Rattle.gptp_pdelay.specs.Earlier.{EarlierTimes};

    ghost Value = { EarlierTimes };

    ghost use Rattle.std.specs.Prelude.{◌≡◌, ◌≤◌, ◌<◌, length, is_some, true};
    ghost use Rattle.gptp_pdelay.specs.EarlierFields.{earlier_times, times_in};

    ghost view = { earlier_times };

    ghost invariant = { λ e. (e.most ≤ 15) × (length (times_in e.room) ≤ e.most) × (0 < e.most → is_some e.room ≡ true) };
}

/// A newer one comes: the oldest goes, where there would be more than `most`.
fn put_first(room: &mut Room, times: Times, most: usize)
    requires some { 0 < most }
    requires room { most ≤ MOST_EARLIER }
    ensures { room.new.times.items ≡ take most (times ∷ room.old.times.items) }
{
    room.times.truncate(most - 1);
    room.times.insert(0, Packed::of(times));
}

/// The times of the same exchanges.
fn copy_times(times: &[Packed]) -> ArrayVec<Packed, MOST_EARLIER>
    requires { length times.now ≤ MOST_EARLIER }
    ensures { result.items ≡ times.now }
{
    let mut copies = ArrayVec::new();
    for one in times {
        copies.push(one.copy());
    }
    copies
}

/// Room for as many, with the same exchanges. Refused for want of memory alone.
fn copy_room(alloc: Global, room: &Room) -> Result<Box<Room>, AllocError>
    ensures { IfOk result (λ copy. copy.value.times.items ≡ room.now.times.items) }
{
    let times = copy_times(room.times.as_slice());
    Ok(Box::new(alloc, Room { times })?)
}

impl Earlier {
    /// None are kept. Takes no memory.
    pub const fn none() -> Earlier
        ensures { result ≡ record { most = 0; times = [] } }
    {
        Earlier {
            most: 0,
            room: None,
        }
    }

    /// At most `most` are kept. Refused for want of memory alone, and never where none are kept.
    pub fn new(alloc: Global, most: u8) -> Result<Earlier, AllocError>
        requires { most ≤ 15 }
        ensures new { IfOk result (λ e. e ≡ record { most = most; times = [] }) }
        ensures free { most ≡ 0 → IsOk result }
    {
        if most == 0 {
            return Ok(Earlier::none());
        }
        let room = Room {
            times: ArrayVec::new(),
        };
        Ok(Earlier {
            most,
            room: Some(Box::new(alloc, room)?),
        })
    }

    /// As many are kept at most, and the same ones. Refused for want of memory alone.
    pub fn copy(&self, alloc: Global) -> Result<Earlier, AllocError>
        ensures { IfOk result (λ e. e ≡ self.now) }
    {
        let room = match &self.room {
            Some(room) => Some(copy_room(alloc, room)?),
            None => None,
        };
        Ok(Earlier {
            most: self.most,
            room,
        })
    }

    /// They are forgotten.
    pub fn clear(&mut self)
        ensures { self.new ≡ record self.old { times = [] } }
    {
        if let Some(room) = &mut self.room {
            room.times.clear();
        }
    }

    /// A newer one comes: the oldest goes, where there would be too many.
    fn put(&mut self, times: Times)
        ensures { self.new ≡ record self.old { times = take self.old.most (times ∷ self.old.times) } }
    {
        if self.most == 0 {
            return;
        }
        if let Some(room) = &mut self.room {
            put_first(room, times, usize::from(self.most));
        }
    }

    /// Another exchange follows the last one, if there was one: that comes to these.
    pub fn follow(&mut self, last: Option<Measurement>)
        ensures { self.new ≡ record self.old { times = take self.old.most (past_of last self.old.times) } }
    {
        // This read of a field tells the prover that at most `most` are kept already.
        let _ = &self.most;
        if let Some(last) = last {
            self.put(last.times());
        }
    }

    /// The oldest that is kept.
    #[tactic(auto, using(crate::proofs::PastLemmas::oldest_at))]
    pub fn oldest(&self) -> Option<Times>
        ensures { result ≡ oldest self.now.times }
    {
        match &self.room {
            Some(room) => room.times.as_slice().last().map(Packed::times),
            None => None,
        }
    }
}
