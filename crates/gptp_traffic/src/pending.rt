//! What is pending in a world.

ghost use Rattle.std.specs.Prelude.{◌≡◌, ℕ, ◌+◌, ◌*◌, ◌<◌, ◌≤◌, [], ◌∷◌, ◌++◌, drop, length, slice_index_or, slice_set, Option, IsOk, IfOk, OnOk, IfSome, IfNone};
ghost use Rattle.std.specs.List.{AllByRecursion};
ghost use Rattle.gptp_model.specs.Pending.{arrival_place, timer_time, put, set_due, times_of_item, without, without_first_entry, IsKnownItem, IsNext};
ghost use Rattle.gptp_model.specs.declared.item.Item.TheVariants.{Expiry, Arrival};
ghost use Rattle.gptp_links.specs.declared.link.Direction.TheVariants.{FromA, FromB};
ghost use Rattle.std.specs.Option.{option_map};
ghost use Rattle.gptp_links.specs.Queue.{first_frame, frame, newest_due, IsTaken};
ghost use Rattle.gptp_traffic.specs.Pending.{frames_at};
ghost use Rattle.gptp_traffic.specs.PendingIndex.{placed, placed_items, without_placed, MakesFree, PutsBack};

use crate::flight::Flight;
use crate::pending_index::{TIMER_KINDS, TIMER_SPAN, arrival_place, timer_kind, timer_place};
use gptp_chain::Queues;
use gptp_links::Direction;
use gptp_model::{Carried, Item};
use gptp_queue::Queue;
use gptp_system::Timer;
use std::alloc::{AllocError, Global};
use std::marker::Model;

/// Room is made for so many entries at least.
const AT_ONCE: usize = 256;

/// The item at a place where nothing is due.
const NO_ITEM: Item = Item::Arrival {
    link: 0,
    direction: Direction::FromA,
};

/// An item of a kind is due at a place at this time, in ns, in place of what was due there.
fn put_item(
    queue: &mut Queue,
    items: &mut Vec<Item>,
    kind: usize,
    place: usize,
    time: u64,
    item: Item,
)
    requires place { place < queue.old.places }
    requires items { queue.old.places ≤ length items.old.items }
    requires room { 0 < queue.old.room }
    ensures put { placed_items items.new.items queue.new.entries ≡ without_placed place (placed_items items.old.items queue.old.entries) ++ placed time place item ∷ [] }
    ensures places { queue.new.places ≡ queue.old.places }
    ensures items { length items.new.items ≡ length items.old.items }
    ensures room { queue.old.room ≤ queue.new.room + 1 }
{
    items[place] = item;
    queue.put_reserved(kind, place, time);
}

/// Makes one more place for arrivals, at which nothing is due, behind those of so many timers. There is room to keep
/// all places of arrivals then.
fn make_place(
    queue: &mut Queue,
    items: &mut Vec<Item>,
    free: &mut Vec<usize>,
    timers: usize,
) -> Result<(), AllocError>
    requires { queue.old.places ≤ length items.old.items }
    ensures made { MakesFree queue.old queue.new items.old.items items.new.items free.old.items free.new.items }
    ensures ok { OnOk result (length free.new.items ≡ length free.old.items + 1) }
{
    queue.places_differ();
    let place = items.len();
    items.push(NO_ITEM)?;
    queue.make_places(items.len())?;
    free.reserve(items.len().saturating_sub(timers))?;
    free.push(place)?;
    Ok(())
}

/// Makes places for arrivals until nothing is due at so many.
fn make_places(
    queue: &mut Queue,
    items: &mut Vec<Item>,
    free: &mut Vec<usize>,
    timers: usize,
    count: usize,
) -> Result<(), AllocError>
    requires { queue.old.places ≤ length items.old.items }
    ensures made { MakesFree queue.old queue.new items.old.items items.new.items free.old.items free.new.items }
    ensures ok { OnOk result (count ≤ length free.new.items) }
{
    while free.len() < count {
        make_place(queue, items, free, timers)?;
    }
    Ok(())
}

/// Nothing is due at a place for arrivals any more; where there is no memory to keep it, it is never used again.
fn put_back(free: &mut Vec<usize>, place: usize)
    ensures { PutsBack free.old.items free.new.items place }
{
    let _ = free.push(place);
}

/// What is pending in a world: timers of its systems, each at most once, and arrivals over its links, each with the
/// frame that arrives. Systems and links are named by their places, from 0, and ports by their numbers.
///
/// It is seen as how many systems and links there are, the list of what is pending, each with its time in ns, in order
/// of putting, the frames in flight of each direction of each link, oldest first, and how many more entries can be put
/// without being refused.
#[derive(Drop)]
pub(crate) struct Pending {
    systems: usize,
    links: usize,
    // First the places of timers, and then those of arrivals.
    queue: Queue,
    // The item that is due at each place, where one is.
    items: Vec<Item>,
    // The frames in flight, by link and direction.
    flights: Queues<Flight>,
    // The places for arrivals at which nothing is due.
    free: Vec<usize>,
    // There is room for so many more, or for more than that.
    spare: usize,
}

impl Model for Pending {
    ghost use Rattle.gptp_traffic.specs.Pending.{PendingView};

    ghost Value = { PendingView };

    ghost use Rattle.gptp_traffic.specs.Flight.{frames_of, places_of};
    ghost use Rattle.gptp_traffic.specs.PendingIndex.{placed_items, plain_items, HasSpare, PendingIsIndexed};

    ghost view = { λ p. record {
      systems = p.systems;
      links = p.links;
      entries = plain_items (placed_items p.items.items p.queue.entries);
      frames = frames_of p.flights;
      room = p.spare;
    } };

    ghost invariant = { λ p.
        PendingIsIndexed p.systems p.links (places_of p.flights) p.queue.places p.free.items (placed_items p.items.items p.queue.entries)
        × HasSpare p.spare p.queue (places_of p.flights) p.items.items p.free.items };
}

impl Pending {
    /// Nothing pending, in a world of so many systems, up to 512, and links, up to 2,048. Refused where there is no
    /// memory for it.
    pub fn new(alloc: Global, systems: usize, links: usize) -> Result<Self, AllocError>
        requires systems { systems ≤ 512 }
        requires links { links ≤ 2048 }
        ensures systems { IfOk result (λ pending. pending.systems ≡ systems) }
        ensures links { IfOk result (λ pending. pending.links ≡ links) }
        ensures entries { IfOk result (λ pending. pending.entries ≡ []) }
        ensures frames { IfOk result (λ pending. (lane : ℕ) → slice_index_or pending.frames lane [] ≡ []) }
    {
        // Each kind of timers has a run in the queue, and arrivals have none.
        let queue = Queue::new(alloc, systems * TIMER_SPAN, TIMER_KINDS)?;
        let items = vec![in alloc; NO_ITEM; systems * TIMER_SPAN]?;
        let flights = Queues::new(alloc, links * 2)?;
        Ok(Pending {
            systems,
            links,
            queue,
            items,
            flights,
            free: Vec::new(alloc),
            spare: 0,
        })
    }

    /// The same is pending; room for more has to be made. Refused for want of memory alone.
    pub fn copy(&self, alloc: Global) -> Result<Self, AllocError>
        ensures { IfOk result (λ pending. pending ≡ record self.now { room = 0 }) }
    {
        Ok(Pending {
            systems: self.systems,
            links: self.links,
            queue: self.queue.copy(alloc)?,
            items: Vec::from_slice(alloc, &self.items)?,
            flights: self.flights.copy(alloc)?,
            free: Vec::from_slice(alloc, &self.free)?,
            spare: 0,
        })
    }

    /// Makes room for so many more entries: after `Ok` the next so many find it. Refused where there is no memory for
    /// them, or where the numbers below 2^64 - 1 don't suffice. Nothing else changes.
    pub fn reserve(&mut self, additional: usize) -> Result<(), AllocError>
        ensures kept { self.new ≡ record self.old { room = self.new.room } }
        ensures room { self.old.room ≤ self.new.room }
        ensures ok { OnOk result (additional ≤ self.new.room) }
        ensures succeeds { additional ≤ self.old.room → IsOk result }
    {
        if self.spare < additional {
            return self.make_room(additional.max(AT_ONCE));
        }
        Ok(())
    }

    /// Makes room for so many more entries, where there is less.
    #[cold]
    #[inline(never)]
    fn make_room(&mut self, additional: usize) -> Result<(), AllocError>
        requires { self.old.room ≤ additional }
        ensures kept { self.new ≡ record self.old { room = self.new.room } }
        ensures room { self.old.room ≤ self.new.room }
        ensures ok { OnOk result (additional ≤ self.new.room) }
    {
        self.queue.reserve(additional)?;
        self.flights.reserve(additional)?;
        make_places(
            &mut self.queue,
            &mut self.items,
            &mut self.free,
            self.systems * TIMER_SPAN,
            additional,
        )?;
        self.spare = additional;
        Ok(())
    }

    /// When a timer of a system is due, in ns, where it runs.
    pub fn due(&self, place: usize, timer: Timer) -> Option<u64>
        requires { IsKnownItem self.now.systems self.now.links (Expiry place timer) }
        ensures { times_of_item (Expiry place timer) self.now.entries ≡ timer_time result }
    {
        self.queue.places_differ();
        self.queue.time(timer_place(place, timer))
    }

    /// A timer of a system is to run out at this time, in ns, or doesn't run: where it is pending so, its entry stays;
    /// otherwise that is cancelled, and a new one put. Takes no memory.
    pub fn set_due(&mut self, place: usize, timer: Timer, due: Option<u64>)
        requires known { IsKnownItem self.old.systems self.old.links (Expiry place timer) }
        requires room { IfSome due (λ _. 0 < self.old.room) }
        ensures kept { self.new ≡ record self.old { entries = set_due (Expiry place timer) due self.old.entries; room = self.new.room } }
        ensures room { self.old.room ≤ self.new.room + 1 }
    {
        if self.due(place, timer) == due {
            return;
        }
        match due {
            Some(time) => self.start(place, timer, time),
            None => self.queue.cancel(timer_place(place, timer)),
        }
    }

    /// A timer runs out at this time, and no longer when it was to run out before.
    fn start(&mut self, place: usize, timer: Timer, time: u64)
        requires known { IsKnownItem self.old.systems self.old.links (Expiry place timer) }
        requires room { 0 < self.old.room }
        ensures kept { self.new ≡ record self.old { entries = put time (Expiry place timer) (without (Expiry place timer) self.old.entries); room = self.new.room } }
        ensures room { self.old.room ≤ self.new.room + 1 }
    {
        put_item(
            &mut self.queue,
            &mut self.items,
            timer_kind(timer),
            timer_place(place, timer),
            time,
            Item::Expiry {
                place: place as u16,
                timer,
            },
        );
        self.spare -= 1;
    }

    /// Cancels a timer, where it runs.
    pub fn stop(&mut self, place: usize, timer: Timer)
        requires { IsKnownItem self.old.systems self.old.links (Expiry place timer) }
        ensures kept { self.new ≡ record self.old { entries = without_first_entry (Expiry place timer) self.old.entries; room = self.new.room } }
        ensures room { self.old.room ≤ self.new.room }
        ensures once { length (times_of_item (Expiry place timer) self.old.entries) ≤ 1 }
    {
        self.queue.places_differ();
        self.queue.take(timer_place(place, timer));
    }

    /// Puts an arrival over a link in a direction, of what the link carries, due at this time, in ns. Takes no memory.
    pub fn put_arrival(&mut self, link: usize, direction: Direction, due: u64, carried: Carried)
        requires link { link < self.old.links }
        requires room { 0 < self.old.room }
        ensures kept { self.new ≡ record self.old {
          entries = put due (Arrival link direction) self.old.entries;
          frames = slice_set self.old.frames (arrival_place link direction) (frames_at link direction self.old.frames ++ frame due carried.items ∷ []);
          room = self.new.room;
        } }
        ensures room { self.old.room ≤ self.new.room + 1 }
    {
        let place = self.free.pop().unwrap();
        put_item(
            &mut self.queue,
            &mut self.items,
            TIMER_KINDS,
            place,
            due,
            Item::Arrival {
                link: link as u16,
                direction,
            },
        );
        let flight = Flight {
            place,
            due,
            carried,
        };
        self.flights.push(arrival_place(link, direction), flight);
        self.spare -= 1;
    }

    /// Takes the first arrival over a link in a direction out, with its frame, if there is one.
    pub fn take_arrival(&mut self, link: usize, direction: Direction) -> Option<Carried>
        requires { link < self.old.links }
        ensures kept { self.new ≡ record self.old {
          entries = without_first_entry (Arrival link direction) self.old.entries;
          frames = slice_set self.old.frames (arrival_place link direction) (drop 1 (frames_at link direction self.old.frames));
          room = self.new.room;
        } }
        ensures room { self.old.room ≤ self.new.room }
        ensures taken { IfSome result (λ carried. IsTaken (frames_at link direction self.old.frames) carried.items (drop 1 (frames_at link direction self.old.frames))) }
        ensures none { IfNone result (times_of_item (Arrival link direction) self.old.entries ≡ []) }
        ensures no_frame { IfNone result (frames_at link direction self.old.frames ≡ []) }
        ensures one { IfSome result (λ _. length self.new.entries < length self.old.entries) }
    {
        self.queue.places_differ();
        match self.flights.pop(arrival_place(link, direction)) {
            Some(flight) => {
                self.queue.take(flight.place);
                put_back(&mut self.free, flight.place);
                Some(flight.carried)
            }
            None => None,
        }
    }

    /// Cancels all arrivals over a link.
    pub fn cancel_arrivals(&mut self, link: usize)
        requires { link < self.old.links }
        ensures kept { self.new ≡ record self.old {
          entries = without (Arrival link FromB) (without (Arrival link FromA) self.old.entries);
          frames = slice_set (slice_set self.old.frames (arrival_place link FromA) []) (arrival_place link FromB) [];
          room = self.new.room;
        } }
        ensures room { self.old.room ≤ self.new.room }
    {
        self.cancel_direction(link, Direction::FromA);
        self.cancel_direction(link, Direction::FromB);
    }

    /// Cancels all arrivals over a link in a direction.
    fn cancel_direction(&mut self, link: usize, direction: Direction)
        requires { link < self.old.links }
        ensures kept { self.new ≡ record self.old {
          entries = without (Arrival link direction) self.old.entries;
          frames = slice_set self.old.frames (arrival_place link direction) [];
          room = self.new.room;
        } }
        ensures room { self.old.room ≤ self.new.room }
    {
        while self.take_arrival(link, direction).is_some() {}
    }

    /// When the oldest frame in flight in a direction of a link is due, in ns.
    pub fn next_due(&self, link: usize, direction: Direction) -> Option<u64>
        requires { link < self.now.links }
        ensures { result ≡ option_map (λ f. f.due) (first_frame (frames_at link direction self.now.frames)) }
    {
        match self.flights.first(arrival_place(link, direction)) {
            Some(flight) => Some(flight.due),
            None => None,
        }
    }

    /// When the newest frame in flight in a direction of a link is due, in ns, or 0.
    pub fn newest_due(&self, link: usize, direction: Direction) -> u64
        requires { link < self.now.links }
        ensures { result ≡ newest_due (frames_at link direction self.now.frames) }
    {
        match self.flights.last(arrival_place(link, direction)) {
            Some(flight) => flight.due,
            None => 0,
        }
    }

    /// Frames in flight are listed for both directions of each link.
    pub fn lanes_are_listed(&self)
        ensures { length self.now.frames ≡ self.now.links * 2 }
    {
        let _ = &self.flights;
    }

    /// The next that is pending, and its time, in ns: of all entries one of least time, and of those the first that was
    /// put.
    pub fn next(&self) -> Option<(u64, Item)>
        ensures next { IfSome result (λ due. IsNext self.now.entries due.0 due.1) }
        ensures known { IfSome result (λ due. IsKnownItem self.now.systems self.now.links due.1) }
        ensures empty { IfNone result (self.now.entries ≡ []) }
    {
        self.queue.numbers_rise();
        self.queue.places_differ();
        let first = self.queue.next()?;
        Some((first.time, self.items[first.place]))
    }

    /// Each timer is pending at most once.
    pub fn timers_run_once(&self)
        ensures { (place : ℕ) (timer : Timer) → IsKnownItem self.now.systems self.now.links (Expiry place timer) → length (times_of_item (Expiry place timer) self.now.entries) ≤ 1 }
    {
        self.queue.places_differ();
    }

    /// All that is pending is of the systems and links that there are.
    pub fn items_are_known(&self)
        ensures { AllByRecursion (λ e. IsKnownItem self.now.systems self.now.links e.item) self.now.entries }
    {
        let _ = &self.flights;
    }
}
