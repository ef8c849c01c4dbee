//! Systems that a test drives by hand: it says which of them gets what, and when. Times are in ns.

ghost use Rattle.std.specs.Prelude.{◌≡◌, ◌≤◌, [], length, pos, true};
ghost use Rattle.std.specs.List.{AllByRecursion};
ghost use Rattle.gptp_setup.specs.Intervals.{IsLogUpTo};
ghost use Rattle.gptp_system.specs.Steps.{HasPortNumber, IsTimerOf};

use crate::same::same_at;
use arrayvec::ArrayVec;
use gptp_messages::{FollowUp, Message, PdelayResp, PdelayRespFollowUp, encode, encode_announce};
use gptp_samples::identity;
use gptp_setup::{LAST_MOMENT, MOST_PORTS};
use gptp_system::{Answer, Body, Outbox, Params, Sending, Setup, System, Timer};
use std::alloc::{AllocError, Global};
use std::process::Abort;
use std::test::Fail;

/// The defaults of a network.
pub const DEFAULTS: Params = Params {
    announce: 0,
    sync: -3,
    pdelay: 0,
    timeout: 3,
    lost: 9,
    threshold: 800,
    turnaround: 1_000,
    residence: 1_000,
    sync_timeout: 0,
    granularity: 0,
    noise: 0,
    window: 1,
};

/// What a system gets.
#[derive(Clone, Copy, Debug, PartialEq, Eq)]
pub enum Step {
    /// The link of a port comes up.
    Up(u8),
    /// The link of a port goes down.
    Down(u8),
    /// A port hears the oldest frame that is under way to it.
    Hear(u8),
    /// A timer expires.
    Expire(Timer),
    /// The priority1 is set.
    Priority(u8),
}

/// The type of a message.
#[derive(Clone, Copy, Debug, PartialEq, Eq)]
pub enum Kind {
    Announce,
    Sync,
    FollowUp,
    Request,
    Response,
    ResponseFollowUp,
}

impl Kind {
    /// The type of a message with this body.
    fn of(body: &Body) -> Kind {
        match body {
            Body::Announce(_) => Kind::Announce,
            Body::Sync => Kind::Sync,
            Body::FollowUp { .. } => Kind::FollowUp,
            Body::PdelayReq => Kind::Request,
            Body::PdelayResp { .. } => Kind::Response,
            Body::PdelayRespFollowUp { .. } => Kind::ResponseFollowUp,
        }
    }
}

/// The default announce interval for each of so many ports.
fn alike(ports: u8) -> ArrayVec<i8, MOST_PORTS>
    requires { ports ≤ MOST_PORTS }
    ensures many { length result.items ≡ ports }
    ensures each { AllByRecursion (IsLogUpTo (pos 0)) result.items }
{
    let mut intervals = ArrayVec::new();
    for _port in 0..ports {
        intervals.push(DEFAULTS.announce);
    }
    intervals
}

/// A system that starts at 0, of a clock with all defaults but these.
pub fn started(alloc: Global, clock: u64, ports: u8, phase: u64, lost: u8) -> Result<System, Fail> {
    if usize::from(ports) > MOST_PORTS || phase > 1_000_000_000 || lost == 0 {
        return Err(Fail::from("no such system"));
    }
    let setup = Setup {
        identity: identity(246, clock),
        ports,
        phase,
        drift: 0,
        continues: false,
        intervals: alike(ports),
        largest: DEFAULTS.announce,
        seed: 1,
        params: Params { lost, ..DEFAULTS },
    };
    Ok(System::new(alloc, setup, 0)?)
}

/// Whether the system has a port of this number.
pub fn has_port(system: &System, port: u8) -> bool
    ensures { result ≡ true → HasPortNumber system.now port }
{
    1 <= port && port <= system.ports()
}

/// Whether the system has this timer.
fn has_timer(system: &System, timer: Timer) -> bool
    ensures { result ≡ true → IsTimerOf system.now timer }
{
    match timer {
        Timer::Announce(port) | Timer::Age(port) | Timer::Pdelay(port) | Timer::Respond(port) => {
            has_port(system, port)
        }
        Timer::Sync | Timer::Relay | Timer::Lapse => true,
    }
}

/// When a timer expires, where it runs.
pub fn due(system: &System, timer: Timer) -> Option<u64> {
    if !has_timer(system, timer) {
        return None;
    }
    system.due(timer)
}

/// A port whose link is up hears a frame.
pub fn hear(
    system: &mut System,
    port: u8,
    frame: &[u8],
    now: u64,
    outbox: &mut Outbox,
) -> Result<Answer, Fail>
    requires { outbox.old.items ≡ [] }
{
    if now > LAST_MOMENT || !has_port(system, port) || system.due(Timer::Pdelay(port)).is_none() {
        return Err(Fail::from("the link isn't up"));
    }
    Ok(system.on_frame(port, frame, now, outbox))
}

/// A timer that is due expires.
pub fn expire(system: &mut System, timer: Timer, now: u64, outbox: &mut Outbox) -> Result<(), Fail>
    requires { outbox.old.items ≡ [] }
{
    if now > LAST_MOMENT || !has_timer(system, timer) {
        return Err(Fail::from("no such timer"));
    }
    match system.due(timer) {
        Some(due) if due <= now => {
            system.on_timer(timer, now, outbox);
            Ok(())
        }
        _ => Err(Fail::from("the timer isn't due")),
    }
}

/// A system gets something, a frame where it is to hear one; what it answers to the frame, and what it sends.
fn give(
    system: &mut System,
    what: Step,
    frame: &[u8],
    now: u64,
) -> Result<(Option<Answer>, Outbox), Fail> {
    let mut outbox = Outbox::new();
    let answer = match what {
        Step::Hear(port) => Some(hear(system, port, frame, now, &mut outbox)?),
        Step::Expire(timer) => {
            expire(system, timer, now, &mut outbox)?;
            None
        }
        Step::Up(port) if now <= LAST_MOMENT && has_port(system, port) => {
            system.port_up(port, now, &mut outbox);
            None
        }
        Step::Down(port) if now <= LAST_MOMENT && has_port(system, port) => {
            system.port_down(port, now, &mut outbox);
            None
        }
        Step::Priority(value) if now <= LAST_MOMENT => {
            system.set_priority(value, now, &mut outbox);
            None
        }
        _ => return Err(Fail::from("no such port")),
    };
    Ok((answer, outbox))
}

/// The octets of what a system sends.
pub fn octets_of(alloc: Global, system: &System, sending: &Sending) -> Result<Vec<u8>, AllocError> {
    let head = sending.head;
    let mut text = Vec::new(alloc);
    match sending.body {
        Body::Announce(body) => encode_announce(&head, &body, &system.trace(), &mut text)?,
        Body::Sync => encode(&Message::Sync { head }, &mut text)?,
        Body::PdelayReq => encode(&Message::PdelayReq { head }, &mut text)?,
        Body::FollowUp { origin, rate } => {
            let follow_up = FollowUp { head, origin, rate };
            encode(&Message::FollowUp(follow_up), &mut text)?;
        }
        Body::PdelayResp { stamp, requester } => {
            let response = PdelayResp {
                head,
                stamp,
                requester,
            };
            encode(&Message::PdelayResp(response), &mut text)?;
        }
        Body::PdelayRespFollowUp { stamp, requester } => {
            let follow_up = PdelayRespFollowUp {
                head,
                stamp,
                requester,
            };
            encode(&Message::PdelayRespFollowUp(follow_up), &mut text)?;
        }
    }
    Ok(text)
}

/// A port of one of the systems: the place of the system, and the number of the port.
pub type End = (usize, u8);

/// The other end of the link at a port: clock 1 is joined to clock 2, and clock 2 to clock 3.
fn across(end: End) -> Result<End, Fail> {
    match end {
        (0, 1) => Ok((1, 1)),
        (1, 1) => Ok((0, 1)),
        (1, 2) => Ok((2, 1)),
        (2, 1) => Ok((1, 2)),
        _ => Err(Fail::from("no such link")),
    }
}

/// A frame that is under way.
#[derive(Debug, Drop)]
struct Flight {
    to: End,
    octets: Vec<u8>,
}

/// Nothing is sent.
pub const NOTHING: &[Kind] = &[];

/// A port asks its neighbour.
pub const ASKS: &[Kind] = &[Kind::Request];

/// A port answers its neighbour.
pub const ANSWERS: &[Kind] = &[Kind::Response, Kind::ResponseFollowUp];

/// A port announces.
pub const ANNOUNCES: &[Kind] = &[Kind::Announce];

/// A port sends time.
pub const TELLS_TIME: &[Kind] = &[Kind::Sync, Kind::FollowUp];

/// Systems in a line, clock 1 first, and the frames that are under way between them.
#[derive(Debug, Drop)]
pub struct Bench {
    systems: Vec<System>,
    flying: Vec<Flight>,
}

impl Bench {
    /// Systems of these clocks, with so many ports, whose local clocks are so far ahead; they lose so many requests.
    pub fn new(alloc: Global, setups: &[(u64, u8, u64)], lost: u8) -> Result<Bench, Fail> {
        let mut systems = Vec::new(alloc);
        for (clock, ports, phase) in setups {
            systems.push(started(alloc, *clock, *ports, *phase, lost)?)?;
        }
        Ok(Bench {
            systems,
            flying: Vec::new(alloc),
        })
    }

    /// The system at a place.
    pub fn at(&self, place: usize) -> Result<&System, Fail> {
        Ok(self.systems.get(place).ok_or("no such system")?)
    }

    /// Takes the oldest frame that is under way to a port.
    fn take(&mut self, end: End) -> Result<Vec<u8>, Fail> {
        let place = self
            .flying
            .iter()
            .position(|flight| flight.to == end)
            .ok_or("nothing is under way")?;
        Ok(self.flying.remove(place).octets)
    }

    /// One of the systems gets something: what it answers to the frame that it hears, and what it sends.
    pub fn act(
        &mut self,
        alloc: Global,
        now: u64,
        place: usize,
        what: Step,
    ) -> Result<(Option<Answer>, Outbox), Fail> {
        let frame = match what {
            Step::Hear(port) => self.take((place, port))?,
            _ => Vec::new(alloc),
        };
        let system = self.systems.get_mut(place).ok_or("no such system")?;
        let (answer, outbox) = give(system, what, &frame, now)?;
        for sending in outbox.as_slice() {
            let octets = octets_of(alloc, system, sending)?;
            let to = across((place, sending.port))?;
            self.flying.push(Flight { to, octets })?;
        }
        Ok((answer, outbox))
    }

    /// The ports ask each other, as they come up or by their timers, over links of 500 ns.
    fn exchange(&mut self, alloc: Global, ends: &[End], begins: u32) -> Result<(), Fail> {
        let begins = u64::from(begins);
        for (place, port) in ends {
            let what = match begins {
                0 => Step::Up(*port),
                _ => Step::Expire(Timer::Pdelay(*port)),
            };
            self.act(alloc, begins, *place, what)?;
        }
        for (place, port) in ends {
            self.act(alloc, begins + 500, *place, Step::Hear(*port))?;
        }
        for (place, port) in ends {
            let what = Step::Expire(Timer::Respond(*port));
            self.act(alloc, begins + 1_500, *place, what)?;
        }
        for (place, port) in ends {
            self.act(alloc, begins + 2_000, *place, Step::Hear(*port))?;
            self.act(alloc, begins + 2_000, *place, Step::Hear(*port))?;
        }
        Ok(())
    }

    /// All frames that are under way are heard, and those that are sent then.
    fn hear_all(&mut self, alloc: Global, now: u64) -> Result<(), Fail> {
        for _ in 0..32 {
            let Some(flight) = self.flying.first() else {
                return Ok(());
            };
            let (place, port) = flight.to;
            self.act(alloc, now, place, Step::Hear(port))?;
        }
        Err(Fail::from("frames are under way on and on"))
    }

    /// The two exchanges that make these ports asCapable, and the first Announces: what is so at 1,000,002,500.
    pub fn settle(&mut self, alloc: Global, ends: &[End]) -> Result<(), Fail> {
        self.exchange(alloc, ends, 0)?;
        self.exchange(alloc, ends, 1_000_000_000)?;
        self.hear_all(alloc, 1_000_002_500)
    }
}

/// When, which system, what it gets, what it answers to a frame, and what it sends.
pub type Row<'a> = (u64, usize, Step, Option<Answer>, &'a [Kind]);

/// Plays rows one after the other.
pub fn play(
    rt: &impl Abort,
    alloc: Global,
    bench: &mut Bench,
    rows: &[Row<'_>],
) -> Result<(), Fail> {
    for (now, place, what, answer, kinds) in rows {
        let (given, outbox) = bench.act(alloc, *now, *place, *what)?;
        same_at(rt, &(what, place, now), given, *answer);
        same_at(rt, &(what, place, now), outbox.len(), kinds.len());
        for (sending, want) in outbox.as_slice().iter().zip(*kinds) {
            same_at(rt, &(what, place, now), Kind::of(&sending.body), *want);
        }
    }
    Ok(())
}
