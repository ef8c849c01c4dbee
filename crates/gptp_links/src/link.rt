//! Links that join two ports.

ghost use Rattle.std.specs.Prelude.{◌≡◌, ◌+◌, ◌<◌, ◌≤◌, ◌↔◌, [], Option, true, false, IsOk, IfOk, OnOk, OnErr, option_copied};
ghost use Rattle.std.specs.Option.{option_map};
ghost use Rattle.gptp_setup.specs.Intervals.{IsMoment};
ghost use Rattle.gptp_links.specs.Bounds.{Fit};
ghost use Rattle.gptp_links.specs.Queue.{first_frame, AreDueInOrder, FrameIsDue, IsSent, IsTaken};
ghost use Rattle.gptp_links.specs.State.{queue, ChangesOnly, HasRoom, KeepsRoom, SameFrames};

use crate::bounds::Bounds;
use crate::fate::Fate;
use crate::flight::Flight;
use crate::lane::{Lane, NotDue};
use slab::Slab;
use std::alloc::{AllocError, Global};
use std::marker::Model;

/// A direction of a link.
#[derive(Clone, Copy, Debug, PartialEq, Eq, Hash)]
pub enum Direction {
    /// From the link's end a to its end b.
    FromA,
    /// From the link's end b to its end a.
    FromB,
}

/// A link that joins two ports. It is first in, first out in each direction: a frame that is sent at a
/// time with a delay is due after that delay, but not before the last frame that is in flight there
/// (profile). A link is up when new.
///
/// It is seen as its bounds, whether it is up, and for each direction the frames in flight, oldest
/// first, each with the time at which it is due, and how many more can be sent without being refused.
#[derive(Drop)]
pub struct Link {
    bounds: Bounds,
    up: bool,
    // The frames in flight of both directions.
    flights: Slab<Flight>,
    from_a: Lane,
    from_b: Lane,
}

impl Model for Link {
    ghost use Rattle.gptp_links.specs.State.{LinkState};

    ghost Value = { LinkState };

    ghost use Rattle.slab.specs.Slab.{get};
    ghost use Rattle.gptp_links.specs.Bounds.{Fit};
    ghost use Rattle.gptp_links.specs.Flights.{queue_of, FlightsAreLinked};

    ghost view = { λ link. record {
      bounds = link.bounds;
      up = link.up;
      from_a = queue_of (get link.flights) link.from_a;
      from_b = queue_of (get link.flights) link.from_b;
    } };

    ghost invariant = { λ link. Fit link.bounds × FlightsAreLinked link.flights link.from_a link.from_b };
}

impl Link {
    /// A link that is up, with nothing in flight. Takes no memory.
    pub fn new(alloc: Global, bounds: Bounds) -> Self
        requires { Fit bounds }
        ensures bounds { result.bounds ≡ bounds }
        ensures up { result.up ≡ true }
        ensures from_a { result.from_a.frames ≡ [] }
        ensures from_b { result.from_b.frames ≡ [] }
    {
        Link {
            bounds,
            up: true,
            flights: Slab::new(alloc),
            from_a: Lane::new(0),
            from_b: Lane::new(0),
        }
    }

    /// An equal link. Refused for want of memory alone.
    pub fn copy(&self) -> Result<Self, AllocError>
        ensures { IfOk result (λ link. link ≡ self.now) }
    {
        let mut flights = self.flights.clone()?;
        flights.reserve(self.flights.capacity() - self.flights.len())?;
        Ok(Link {
            bounds: self.bounds,
            up: self.up,
            flights,
            from_a: self.from_a,
            from_b: self.from_b,
        })
    }

    /// Makes room for so many more frames in each direction: after `Ok` the next so many calls of
    /// [`send`](Self::send) in each aren't refused. Refused where there is no memory for them. No frame
    /// changes.
    pub fn reserve(&mut self, additional: usize) -> Result<(), AllocError>
        ensures frames { SameFrames self.old self.new }
        ensures room { KeepsRoom self.old self.new }
        ensures ok { OnOk result (HasRoom additional self.new) }
        ensures succeeds { HasRoom additional self.old → IsOk result }
    {
        let (from_a, from_b) = (self.from_a.room(), self.from_b.room());
        if from_a < additional || from_b < additional {
            self.make_room(from_a.max(additional), from_b.max(additional))?;
        }
        Ok(())
    }

    /// Sends a frame at the time `now`, in ns, and answers when it is due, or `None` where it is lost;
    /// which of the two is drawn from the fate. The link is up.
    ///
    /// Refused where there is no memory for the frame: then it is dropped, nothing is drawn and nothing
    /// changes.
    pub fn send<F: Fate>(
        &mut self,
        direction: Direction,
        octets: Vec<u8>,
        now: u64,
        fate: &mut F,
    ) -> Result<Option<u64>, AllocError>
        requires up { self.old.up ≡ true }
        requires early { IsMoment now }
        ensures sent { IfOk result
            (IsSent F.answers self.old.bounds now fate.old fate.new (queue direction self.old).frames octets.items
            (queue direction self.new).frames) }
        ensures others { ChangesOnly direction self.old self.new }
        ensures refused { OnErr result (SameFrames self.old self.new) }
        ensures undrawn { OnErr result (fate.new ≡ fate.old) }
        ensures room { (queue direction self.old).room ≤ (queue direction self.new).room + 1 }
        ensures kept_room { OnErr result (KeepsRoom self.old self.new) }
        ensures succeeds { 0 < (queue direction self.old).room → IsOk result }
    {
        self.make_room_for_one(direction)?;
        let flights = &mut self.flights;
        match direction {
            Direction::FromA => Ok(self.from_a.send(flights, &self.bounds, octets, now, fate)),
            Direction::FromB => Ok(self.from_b.send(flights, &self.bounds, octets, now, fate)),
        }
    }

    /// Takes the oldest frame of a direction out, whole, where it is due. Otherwise, and where nothing is
    /// in flight, it is `NotDue`, and nothing changes.
    pub fn deliver(&mut self, direction: Direction, now: u64) -> Result<Vec<u8>, NotDue>
        ensures due { IsOk result ↔ FrameIsDue (queue direction self.old).frames now }
        ensures taken { IfOk result
            (λ octets. IsTaken (queue direction self.old).frames octets.items (queue direction self.new).frames) }
        ensures others { ChangesOnly direction self.old self.new }
        ensures kept { OnErr result (self.new ≡ self.old) }
        ensures room { KeepsRoom self.old self.new }
    {
        match direction {
            Direction::FromA => self.from_a.deliver(&mut self.flights, now),
            Direction::FromB => self.from_b.deliver(&mut self.flights, now),
        }
    }

    /// The oldest frame in flight in a direction, due or not.
    pub fn front(&self, direction: Direction) -> Option<&[u8]>
        ensures { option_copied result ≡ option_map (λ f. f.octets) (first_frame (queue direction self.now).frames) }
    {
        match direction {
            Direction::FromA => self.from_a.front(&self.flights),
            Direction::FromB => self.from_b.front(&self.flights),
        }
    }

    /// When the oldest frame in flight in a direction is due, in ns.
    pub fn next_due(&self, direction: Direction) -> Option<u64>
        ensures { result ≡ option_map (λ f. f.due) (first_frame (queue direction self.now).frames) }
    {
        match direction {
            Direction::FromA => self.from_a.next_due(),
            Direction::FromB => self.from_b.next_due(),
        }
    }

    /// Gives the link other bounds. They hold for what is sent from then on.
    pub fn set(&mut self, bounds: Bounds)
        requires { Fit bounds }
        ensures { self.new ≡ record self.old { bounds = bounds } }
    {
        self.bounds = bounds;
    }

    /// Takes the link down. All that is in flight is lost.
    pub fn down(&mut self)
        ensures bounds { self.new.bounds ≡ self.old.bounds }
        ensures down { self.new.up ≡ false }
        ensures from_a { self.new.from_a.frames ≡ [] }
        ensures from_b { self.new.from_b.frames ≡ [] }
        ensures room { KeepsRoom self.old self.new }
    {
        self.up = false;
        self.flights.clear();
        self.from_a = Lane::new(self.from_a.limit);
        self.from_b = Lane::new(self.from_b.limit);
    }

    /// Takes the link up.
    pub fn up(&mut self)
        ensures { self.new ≡ record self.old { up = true } }
    {
        self.up = true;
    }

    /// Whether the link is up.
    pub fn is_up(&self) -> bool
        ensures { result ≡ self.now.up }
    {
        self.up
    }

    /// The bounds of what is sent.
    pub fn bounds(&self) -> Bounds
        ensures bounds { result ≡ self.now.bounds }
        ensures fit { Fit self.now.bounds }
    {
        self.bounds
    }

    /// In each direction no frame is due before one that was sent earlier.
    pub fn due_in_order(&self)
        ensures from_a { AreDueInOrder self.now.from_a.frames }
        ensures from_b { AreDueInOrder self.now.from_b.frames }
    {
        let _ = &self.flights;
    }

    /// Makes room for exactly so many more frames from each end. Where it is refused nothing changes.
    #[cold]
    #[inline(never)]
    fn make_room(&mut self, from_a: usize, from_b: usize) -> Result<(), AllocError>
        ensures frames { SameFrames self.old self.new }
        ensures ok { OnOk result ((self.new.from_a.room ≡ from_a) × (self.new.from_b.room ≡ from_b)) }
        ensures refused { OnErr result (self.new ≡ self.old) }
    {
        let from_a = self.from_a.with_room(from_a)?;
        let from_b = self.from_b.with_room(from_b)?;
        let capacity = capacity_for(&from_a, &from_b)?;
        self.flights.reserve(capacity - self.flights.len())?;
        self.from_a = from_a;
        self.from_b = from_b;
        Ok(())
    }

    /// Makes room for a frame in a direction, where there is none.
    fn make_room_for_one(&mut self, direction: Direction) -> Result<(), AllocError>
        ensures frames { SameFrames self.old self.new }
        ensures others { ChangesOnly direction self.old self.new }
        ensures room { KeepsRoom self.old self.new }
        ensures ok { OnOk result (0 < (queue direction self.new).room) }
        ensures succeeds { 0 < (queue direction self.old).room → IsOk result }
    {
        let (from_a, from_b) = (self.from_a.room(), self.from_b.room());
        match direction {
            Direction::FromA if from_a == 0 => self.make_room(1, from_b),
            Direction::FromB if from_b == 0 => self.make_room(from_a, 1),
            _ => Ok(()),
        }
    }
}

/// How many frames both directions can hold. Refused where they are too many to count.
fn capacity_for(from_a: &Lane, from_b: &Lane) -> Result<usize, AllocError>
    ensures { IfOk result (λ capacity. capacity ≡ from_a.now.limit + from_b.now.limit) }
{
    match from_a.limit.checked_add(from_b.limit) {
        Some(capacity) => Ok(capacity),
        None => Err(AllocError),
    }
}
