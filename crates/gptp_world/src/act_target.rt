//! What an act is about, by place.

ghost use Rattle.std.specs.Prelude.{◌≡◌, ◌↔◌, ◌≤◌, IsTrue, Some};

use crate::delivering::narrowed;
use crate::world_parts::WorldParts;
use gptp_links::{Bounds, Direction};
use gptp_model::{Act, Change};
use gptp_setup::MOST_PORTS;
use gptp_system::Timer;
use gptp_traffic::Lane;
use gptp_vector::ClockId;

/// What an act is about: links and systems by place.
#[derive(Clone, Copy)]
pub(crate) enum ActTarget {
    /// The oldest frame of a lane arrives.
    Arrival(Lane),
    /// A timer of a system expires.
    Timer { place: usize, timer: Timer },
    /// A link goes down.
    LinkDown(usize),
    /// A link comes up.
    LinkUp(usize),
    /// A link gets other bounds.
    LinkSet { link: usize, bounds: Bounds },
    /// A system fails.
    Fail(usize),
    /// A system starts again.
    Recover(usize),
    /// A system gets another priority1.
    Priority1 { place: usize, value: u8 },
    /// A frame goes onto a lane, as if the system at its beginning had sent it.
    Inject(Lane),
}

impl WorldParts {
    ghost use Rattle.std.specs.Prelude.{◌≡◌, ◌↔◌, ◌<◌, IfSome, IfNone, IsTrue, length, Some, slice_get};
    ghost use Rattle.gptp_system.specs.Steps.{IsTimerOf};
    ghost use Rattle.gptp_scenario.specs.declared.change.Act.TheVariants.{Deliver, Expire};
    ghost use Rattle.gptp_model.specs.declared.station.Station.{Station};
    ghost use Rattle.gptp_model.specs.World.{Channel};
    ghost use Rattle.gptp_model.specs.Acts.{set_to, AtLink, AnyLink, AtSystem, AnySystem, IsThere, IsThereToChange};
    ghost use Rattle.gptp_world.specs.ActTarget.{IsTargetOf, IsTargetOfChange, IsLaneAt, IsLinkAt, PlaceHasClock};
    ghost use Rattle.gptp_model.specs.World.{port_id};
    ghost use Rattle.gptp_world.specs.WorldParts.{world_of, IsWorldParts};

    /// The lane that begins at a port, if there is a link at it.
    fn lane_at(&self, clock: ClockId, port: u16) -> Option<Lane>
        requires { IsWorldParts self.now }
        ensures some { IfSome result (IsLaneAt (port_id clock port) (world_of self.entry.now)) }
        ensures none { IfNone result (AtLink (port_id clock port) (world_of self.entry.now).net AnyLink → ⊥) }
    {
        self.net.directory.well_formed();
        let number = usize::from(port);
        if MOST_PORTS < number {
            return None;
        }
        match self.net.directory.place_of(clock) {
            Some(place) => match self.net.directory.lane_from(place, narrowed(port)) {
                Some(lane) => Some(lane),
                None => None,
            },
            None => None,
        }
    }

    /// The place of the link at a port, if there is one.
    fn link_at(&self, clock: ClockId, port: u16) -> Option<usize>
        requires { IsWorldParts self.now }
        ensures some { IfSome result (IsLinkAt (port_id clock port) (world_of self.entry.now)) }
        ensures none { IfNone result (AtLink (port_id clock port) (world_of self.entry.now).net AnyLink → ⊥) }
    {
        match self.lane_at(clock, port) {
            Some(lane) => Some(lane.link),
            None => None,
        }
    }

    /// The place of the system with a clock, if there is one.
    fn system_at(&self, clock: ClockId) -> Option<usize>
        requires { IsWorldParts self.now }
        ensures some { IfSome result (PlaceHasClock clock (world_of self.entry.now)) }
        ensures none { IfNone result (AtSystem clock (world_of self.entry.now) AnySystem → ⊥) }
    {
        match self.net.directory.place_of(clock) {
            Some(place) => Some(place),
            None => None,
        }
    }

    /// What a change is about, if that is there.
    fn aim_of_change(&self, change: &Change) -> Option<ActTarget>
        requires { IsWorldParts self.now }
        ensures some { IfSome result (IsTargetOfChange change.now (world_of self.entry.now)) }
        ensures none { IfNone result (IsThereToChange change.now (world_of self.entry.now) → ⊥) }
    {
        match *change {
            Change::LinkDown { clock, port } => match self.link_at(clock, port) {
                Some(link) => Some(ActTarget::LinkDown(link)),
                None => None,
            },
            Change::LinkUp { clock, port } => match self.link_at(clock, port) {
                Some(link) => Some(ActTarget::LinkUp(link)),
                None => None,
            },
            Change::LinkSet {
                clock,
                port,
                min,
                max,
                loss,
            } => match self.link_at(clock, port) {
                Some(link) => Some(ActTarget::LinkSet {
                    link,
                    bounds: self.set_to(link, min, max, loss),
                }),
                None => None,
            },
            Change::Fail { clock } => match self.system_at(clock) {
                Some(place) => Some(ActTarget::Fail(place)),
                None => None,
            },
            Change::Recover { clock } => match self.system_at(clock) {
                Some(place) => Some(ActTarget::Recover(place)),
                None => None,
            },
            Change::Priority1 { clock, value } => match self.system_at(clock) {
                Some(place) => Some(ActTarget::Priority1 { place, value }),
                None => None,
            },
            Change::Inject {
                clock,
                port,
                octets: _,
            } => match self.lane_at(clock, port) {
                Some(lane) => Some(ActTarget::Inject(lane)),
                None => None,
            },
        }
    }

    /// The bounds of a link with other delays and another loss.
    fn set_to(&self, link: usize, min: u64, max: u64, loss: u16) -> Bounds
        requires { link < length self.now.net.traffic.net.channels }
        ensures { (channel : Channel) → slice_get (world_of self.entry.now).net.channels link ≡ Some channel → result ≡ set_to min max loss channel }
    {
        Bounds {
            min,
            max,
            loss,
            ..self.net.traffic.bounds(link)
        }
    }

    /// Whether a timer is one of the system at a place.
    fn has_timer(&self, place: usize, timer: Timer) -> bool
        requires { place < length self.now.stations.items }
        ensures { (station : Station) → slice_get self.entry.now.stations.items place ≡ Some station → IsTrue result ↔ IsTimerOf station.system timer }
    {
        let ports = self.stations[place].system.ports();
        match timer {
            Timer::Pdelay(port) => is_port(port, ports),
            Timer::Respond(port) => is_port(port, ports),
            Timer::Announce(port) => is_port(port, ports),
            Timer::Age(port) => is_port(port, ports),
            Timer::Sync => true,
            Timer::Relay => true,
            Timer::Lapse => true,
        }
    }

    /// What an act is about, if that is there.
    pub(crate) fn target(&self, act: &Act) -> Option<ActTarget>
        requires { IsWorldParts self.now }
        ensures some { IfSome result (IsTargetOf act.now (world_of self.entry.now)) }
        ensures none { IfNone result (IsThere act.now (world_of self.entry.now) → ⊥) }
    {
        match act {
            Act::Deliver { link, direction } => self.arrival(*link, *direction),
            Act::Expire { clock, timer } => self.timer_at(*clock, *timer),
            Act::Change(change) => self.aim_of_change(change),
        }
    }

    /// The lane with that link and direction, if there is such a link.
    fn arrival(&self, link: usize, direction: Direction) -> Option<ActTarget>
        ensures some { IfSome result (IsTargetOf (Deliver link direction) (world_of self.entry.now)) }
        ensures none { IfNone result (IsThere (Deliver link direction) (world_of self.entry.now) → ⊥) }
    {
        if self.net.traffic.links() <= link {
            return None;
        }
        Some(ActTarget::Arrival(Lane { link, direction }))
    }

    /// The timer of the system with a clock, if there is one.
    fn timer_at(&self, clock: ClockId, timer: Timer) -> Option<ActTarget>
        requires { IsWorldParts self.now }
        ensures some { IfSome result (IsTargetOf (Expire clock timer) (world_of self.entry.now)) }
        ensures none { IfNone result (IsThere (Expire clock timer) (world_of self.entry.now) → ⊥) }
    {
        self.net.directory.well_formed();
        match self.net.directory.place_of(clock) {
            Some(place) => match self.has_timer(place, timer) {
                true => Some(ActTarget::Timer { place, timer }),
                false => None,
            },
            None => None,
        }
    }
}

impl WorldParts {
    ghost use Rattle.std.specs.Prelude.{◌≡◌, ◌↔◌, ◌<◌, IsTrue, length, Some, slice_get};
    ghost use Rattle.gptp_system.specs.Steps.{IsTimerOf};
    ghost use Rattle.gptp_model.specs.declared.station.Station.{Station};
    ghost use Rattle.gptp_model.specs.Acts.{IsOldestDue};
    ghost use Rattle.gptp_world.specs.ActTarget.{IsTargetOf};
    ghost use Rattle.gptp_world.specs.WorldParts.{world_of, IsWorldParts};
    ghost use Rattle.gptp_model.specs.World.{station_due, Channel};

    /// Whether the oldest frame of a lane is due at a time.
    pub(crate) fn is_frame_due(&self, lane: Lane, time: u64) -> bool
        requires { lane.link < length self.now.net.traffic.net.channels }
        ensures { (channel : Channel) → slice_get (world_of self.entry.now).net.channels lane.link ≡ Some channel → IsTrue result ↔ IsOldestDue lane.direction time channel }
    {
        is_then(self.net.traffic.next_due(lane), time)
    }

    /// Whether a timer of the system at a place is due at a time.
    pub(crate) fn is_timer_due(&self, place: usize, timer: Timer, time: u64) -> bool
        requires place { place < length self.now.stations.items }
        requires timer { (station : Station) → slice_get self.now.stations.items place ≡ Some station → IsTimerOf station.system timer }
        ensures { (station : Station) → slice_get self.entry.now.stations.items place ≡ Some station → IsTrue result ↔ (station_due timer station ≡ Some time) }
    {
        let station = &self.stations[place];
        match station.live {
            true => is_then(station.system.due(timer), time),
            false => false,
        }
    }
}

/// Whether a number is one of so many ports.
fn is_port(port: u8, ports: u8) -> bool
    ensures { IsTrue result ↔ ((1 ≤ port) × (port ≤ ports)) }
{
    1 <= port && port <= ports
}

/// Whether something is due at a time.
fn is_then(due: Option<u64>, time: u64) -> bool
    ensures { IsTrue result ↔ (due ≡ Some time) }
{
    due == Some(time)
}
