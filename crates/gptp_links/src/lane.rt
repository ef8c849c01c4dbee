//! One direction of a link.

ghost use Rattle.std.specs.Prelude.{◌≡◌, ◌+◌, ◌-◌, ◌<◌, ◌≤◌, ◌↔◌, [], ◌∷◌, ◌++◌, IsOk, IfOk, OnErr, option_copied};
ghost use Rattle.std.specs.Option.{option_map};
ghost use Rattle.slab.specs.Slab.{get, HasRoomFor};
ghost use Rattle.gptp_setup.specs.Intervals.{IsMoment};
ghost use Rattle.gptp_links.specs.Bounds.{Fit};
ghost use Rattle.gptp_links.specs.Flights.{due_of_first, frames_in, no_flights, with_last_flight, with_limit, without_first_flight, ChangesOneDirection, DirectionIsChained, JoinsFlight, SameRoom};
ghost use Rattle.gptp_links.specs.Queue.{frame, first_frame, newest_due, FrameIsDue, IsSent, IsTaken};

use crate::bounds::Bounds;
use crate::fate::Fate;
use crate::flight::{Flight, Key, due_at, set_next};
use slab::Slab;
use std::alloc::AllocError;
use std::error::Error;
use std::fmt;

/// Nothing that is in flight is due yet.
#[derive(Clone, Copy, Debug, PartialEq, Eq)]
pub enum NotDue {
    NotDue = 1,
}

impl fmt::Display for NotDue {
    ghost use Rattle.std.specs.Prelude.{codes, Some};

    ghost output = { λ _. Some (codes "1 NotDue") };

    fn fmt<W: fmt::Write>(&self, f: &mut fmt::Formatter<W>) -> fmt::Result {
        f.write_str("1 NotDue")
    }
}

impl Error for NotDue {}

/// The frames in flight in one direction: a chain through the slab of their link, which lends it to each call.
#[derive(Clone, Copy)]
pub(crate) struct Lane {
    // The oldest frame, and the newest, where there is one.
    head: Key,
    tail: Key,
    // How many there are, and how many there can be without being refused.
    count: usize,
    pub(crate) limit: usize,
    // When the oldest is due, where there is one, and when the newest, or 0.
    first_due: u64,
    last_due: u64,
}

impl Lane {
    /// Nothing in flight, and room for so many frames.
    pub(crate) fn new(limit: usize) -> Lane
        ensures { result ≡ no_flights limit }
    {
        let nowhere = Key { place: 0 };
        Lane {
            head: nowhere,
            tail: nowhere,
            count: 0,
            limit,
            first_due: 0,
            last_due: 0,
        }
    }

    /// How many more frames can be sent without being refused.
    pub(crate) fn room(&self) -> usize
        requires few { self.now.count ≤ self.now.limit }
        ensures { result ≡ self.now.limit - self.now.count }
    {
        self.limit - self.count
    }

    /// The lane with its frames, and room for so many more. Refused where both together would be too many to count.
    pub(crate) fn with_room(self, room: usize) -> Result<Lane, AllocError>
        ensures { IfOk result (λ lane. lane ≡ with_limit (self.count + room) self) }
    {
        match self.count.checked_add(room) {
            Some(limit) => Ok(Lane { limit, ..self }),
            None => Err(AllocError),
        }
    }

    /// Sends a frame, for which there is room, and answers when it is due, or `None` where it is lost.
    pub(crate) fn send<F: Fate>(
        &mut self,
        flights: &mut Slab<Flight>,
        bounds: &Bounds,
        octets: Vec<u8>,
        now: u64,
        fate: &mut F,
    ) -> Option<u64>
        requires fit { Fit bounds.now }
        requires early { IsMoment now }
        requires chained { DirectionIsChained (get flights.old) self.old }
        requires few { self.old.count < self.old.limit }
        requires room { HasRoomFor flights.old 1 }
        ensures sent { IsSent F.answers bounds.now now fate.old fate.new
            (frames_in (get flights.old) self.old) octets.items (frames_in (get flights.new) self.new) result }
        ensures others { ChangesOneDirection flights.old flights.new self.old self.new }
        ensures count { self.new.count ≤ self.old.count + 1 }
        ensures few { self.new.count ≤ self.new.limit }
    {
        match fate.fate(bounds, now) {
            Some(delay) => {
                let due = (now + delay).max(self.last_due);
                self.put(flights, due, octets);
                Some(due)
            }
            None => None,
        }
    }

    /// Takes the oldest frame out, where it is due.
    pub(crate) fn deliver(
        &mut self,
        flights: &mut Slab<Flight>,
        now: u64,
    ) -> Result<Vec<u8>, NotDue>
        requires chained { DirectionIsChained (get flights.old) self.old }
        ensures due { IsOk result ↔ FrameIsDue (frames_in (get flights.old) self.old) now }
        ensures taken { IfOk result
            (λ octets. IsTaken (frames_in (get flights.old) self.old) octets.items
            (frames_in (get flights.new) self.new)) }
        ensures others { ChangesOneDirection flights.old flights.new self.old self.new }
        ensures count { self.new.count ≤ self.old.count }
        ensures kept_flights { OnErr result (flights.new ≡ flights.old) }
        ensures kept { OnErr result (self.new ≡ self.old) }
    {
        match self.next_due() {
            Some(due) if due <= now => Ok(self.take(flights)),
            _ => Err(NotDue::NotDue),
        }
    }

    /// When the oldest frame is due, if any is in flight.
    pub(crate) fn next_due(&self) -> Option<u64>
        ensures { result ≡ due_of_first self.now }
    {
        if self.count == 0 {
            None
        } else {
            Some(self.first_due)
        }
    }

    /// The oldest frame, if any is in flight.
    pub(crate) fn front<'a>(&self, flights: &'a Slab<Flight>) -> Option<&'a [u8]>
        requires chained { DirectionIsChained (get flights.now) self.now }
        ensures { option_copied result ≡ option_map (λ f. f.octets) (first_frame (frames_in (get flights.now) self.now)) }
    {
        if self.count == 0 {
            return None;
        }
        Some(flights.get(self.head.place).unwrap().octets.as_slice())
    }

    /// Puts a frame after all that are in flight.
    fn put(&mut self, flights: &mut Slab<Flight>, due: u64, octets: Vec<u8>)
        requires chained { DirectionIsChained (get flights.old) self.old }
        requires late { newest_due (frames_in (get flights.old) self.old) ≤ due }
        requires few { self.old.count < self.old.limit }
        requires room { HasRoomFor flights.old 1 }
        ensures frames { frames_in (get flights.new) self.new ≡ frames_in (get flights.old) self.old
            ++ frame due octets.items ∷ [] }
        ensures others { ChangesOneDirection flights.old flights.new self.old self.new }
        ensures count { self.new.count ≡ self.old.count + 1 }
    {
        let next = Key { place: 0 };
        let place = flights.insert_reserved(Flight { due, octets, next });
        let key = Key { place };
        self.join(flights, key);
        *self = self.with_last(key, due);
    }

    /// Makes the newest frame, if there is one, lead to another.
    fn join(&self, flights: &mut Slab<Flight>, key: Key)
        ensures joined { JoinsFlight (get flights.old) (get flights.new) self.now key }
        ensures room { SameRoom flights.old flights.new }
    {
        if self.count > 0 {
            set_next(flights, self.tail, key);
        }
    }

    /// What is in flight once a frame came after the others, that is due then.
    fn with_last(self, key: Key, due: u64) -> Lane
        requires few { self.count < self.limit }
        ensures { result ≡ with_last_flight key due self }
    {
        let alone = self.count == 0;
        Lane {
            head: if alone { key } else { self.head },
            tail: key,
            count: self.count + 1,
            limit: self.limit,
            first_due: if alone { due } else { self.first_due },
            last_due: due,
        }
    }

    /// Takes the oldest frame out, of those that there are.
    fn take(&mut self, flights: &mut Slab<Flight>) -> Vec<u8>
        requires chained { DirectionIsChained (get flights.old) self.old }
        requires some { 0 < self.old.count }
        ensures taken { frames_in (get flights.old) self.old
            ≡ frame self.old.first_due result.items ∷ frames_in (get flights.new) self.new }
        ensures others { ChangesOneDirection flights.old flights.new self.old self.new }
        ensures count { self.new.count + 1 ≡ self.old.count }
    {
        let flight = flights.remove(self.head.place);
        *self = self.without_first(flights, flight.next);
        flight.octets
    }

    /// What is in flight once the oldest frame is gone, that led to this one.
    fn without_first(self, flights: &Slab<Flight>, next: Key) -> Lane
        requires some { 0 < self.count }
        ensures { result ≡ without_first_flight (get flights.now) next self }
    {
        let alone = self.count == 1;
        Lane {
            head: next,
            count: self.count - 1,
            first_due: if alone { 0 } else { due_at(flights, next) },
            last_due: if alone { 0 } else { self.last_due },
            ..self
        }
    }
}
