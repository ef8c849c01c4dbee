//! What systems read of time, and by what.

ghost use Rattle.std.specs.Prelude.{◌≡◌, ◌≤◌, ◌<◌, ◌^◌, ◌+ℤ◌, ◌-ℤ◌, IfSome, Some, false, length, pos, unsigned_abs};
ghost use Rattle.std.specs.List.{list_any};
ghost use Rattle.std.specs.Option.{option_and_then, option_map, option_map_or};
ghost use Rattle.gptp_setup.specs.declared.limits.TheConstants.{MOST_PORTS};
ghost use Rattle.gptp_setup.specs.Intervals.{IsMoment};
ghost use Rattle.gptp_system.specs.Reading.{read_at};
ghost use Rattle.gptp_timeline.specs.NewReading.{can_give_reading};
ghost use Rattle.gptp_timeline.specs.Readings.{base_of, by_expiry, by_receipt, by_takeover, changes_source, clock_time, failed_by, is_master, is_leading, new_reading, own_reading, read_by, reading_among, reading_error, put_reading, reads_own, received_reading, source_named, source_time};
ghost use Rattle.gptp_timeline.specs.Jumps.{IsSmallJump, jump_of};
ghost use Rattle.gptp_timeline.specs.Shown.{live_system};
ghost use Rattle.gptp_timeline.specs.ToldSources.{ReadingsRise};

use crate::leaving::can_take_over;
use crate::ports::{ShownPort, ports_of};
use crate::receipts::received_by;
use gptp_links::Fate;
use gptp_roles::Role;
use gptp_scaled::ScaledNs;
use gptp_scenario::Change;
use gptp_system::{Reading, System, Timer};
use gptp_vector::ClockId;
use gptp_world::{Act, Done, World};

/// A source of time: a clock, and by how much what is told of it is ahead of that, in 2^-16 ns.
#[derive(Clone, Copy, Debug, PartialEq, Eq)]
pub struct TimeSource {
    /// The clock.
    pub clock: ClockId,
    /// The base that its system had when it was read from.
    pub base: ScaledNs,
}

/// What a system reads time by.
#[derive(Clone, Copy, Debug, PartialEq, Eq)]
pub struct KeptReading {
    /// Its source.
    pub source: TimeSource,
    /// What the Follow_Up left that was used; where the system took over, nothing: it reads its own clock and its base.
    pub received: Option<Reading>,
}

/// What is kept of what a system reads.
#[derive(Clone, Copy, Debug)]
pub struct SystemReading {
    /// Its clock.
    pub clock: ClockId,
    /// What it reads time by; nothing where it has no time.
    pub reading: Option<KeptReading>,
}

/// A reading that a system gets.
#[derive(Clone, Copy, Debug)]
pub struct NewReading {
    /// The system.
    pub clock: ClockId,
    /// What it read time by before.
    pub before: Option<KeptReading>,
    /// What it reads time by from then on.
    pub after: KeptReading,
    /// Whether it received time; otherwise it took over.
    pub received: bool,
}

/// What a system reads by the reading that it gets, and by the one before, in units of 2^-16 ns.
#[derive(Clone, Copy, Debug)]
pub struct Jump {
    /// How far it is off by the one before; none where it had no time, or the source of that shows nothing.
    pub before: Option<i128>,
    /// How far it is off by the new one; none where the source of that shows nothing.
    pub after: Option<i128>,
    /// By how much more it reads by the new one; none where it had no time.
    pub step: Option<i128>,
}

/// What is told by a clock that shows this and a base, in units of 2^-16 ns.
pub(crate) fn told_by(shown: ScaledNs, base: ScaledNs) -> i128
    ensures is { result ≡ shown +ℤ base }
    ensures small { unsigned_abs result ≤ 2 ^ 96 }
{
    shown.value() + base.value()
}

/// The base of no system.
fn no_base() -> ScaledNs
    ensures { result ≡ pos 0 }
{
    ScaledNs::default()
}

/// The base of the system with a clock, live or failed; 0 where there is none.
fn base_of<F: Fate + Drop>(world: &World<F>, clock: ClockId) -> ScaledNs
    ensures { result ≡ base_of clock world.now.world_core }
{
    world.well_formed();
    match world.base(clock) {
        Some(base) => base,
        None => no_base(),
    }
}

/// The clock of a system with its base.
fn source_of<F: Fate + Drop>(world: &World<F>, clock: ClockId) -> TimeSource
    ensures { result ≡ source_named clock world.now.world_core }
{
    TimeSource {
        clock,
        base: base_of(world, clock),
    }
}

/// What the clock of a system, live or failed, shows at a time.
pub(crate) fn clock_time<F: Fate + Drop>(
    world: &World<F>,
    clock: ClockId,
    at: u64,
) -> Option<ScaledNs>
    requires { IsMoment at }
    ensures { result ≡ clock_time clock at world.now.world_core }
{
    world.well_formed();
    world.local(clock, at)
}

/// The time of a source, in units of 2^-16 ns: what its clock shows, and its base; none where no system has that clock.
pub(crate) fn source_time<F: Fate + Drop>(
    world: &World<F>,
    at: u64,
    source: &TimeSource,
) -> Option<i128>
    requires { IsMoment at }
    ensures is { result ≡ source_time source.now at world.now.world_core }
    ensures small { IfSome result (λ z. unsigned_abs z < 2 ^ 99) }
{
    match clock_time(world, source.clock, at) {
        Some(shown) => Some(told_by(shown, source.base)),
        None => None,
    }
}

/// What is read by what a Follow_Up left, where the own clock shows this, in units of 2^-16 ns.
fn received_at(reading: &Reading, shown: ScaledNs) -> i128
    ensures is { result ≡ read_at reading.now shown }
    ensures small { unsigned_abs result < 2 ^ 99 }
{
    let received = reading.ingress.value() - reading.offset.value();
    received + reading.rate.scale_between(reading.ingress, shown)
}

/// What is read where the own clock shows this, in units of 2^-16 ns.
pub(crate) fn read_by(kept: &KeptReading, shown: ScaledNs) -> i128
    ensures is { result ≡ read_by kept.now shown }
    ensures small { unsigned_abs result < 2 ^ 99 }
{
    match &kept.received {
        Some(reading) => received_at(reading, shown),
        None => told_by(shown, kept.source.base),
    }
}

/// How far it is off at a time that a system reads, in units of 2^-16 ns; none where its source has no time.
pub(crate) fn reading_error<F: Fate + Drop>(
    world: &World<F>,
    at: u64,
    clock: ClockId,
    kept: &KeptReading,
) -> Option<i128>
    requires { IsMoment at }
    ensures is { result ≡ reading_error at world.now.world_core clock kept.now }
    ensures small { IfSome result (λ e. unsigned_abs e < 2 ^ 100) }
{
    match clock_time(world, clock, at) {
        Some(shown) => match source_time(world, at, &kept.source) {
            Some(time) => Some(read_by(kept, shown) - time),
            None => None,
        },
        None => None,
    }
}

/// What a live system reads time by where a Follow_Up was used.
fn received_reading<F: Fate + Drop>(world: &World<F>, system: &System) -> Option<KeptReading>
    ensures { result ≡ received_reading world.now.world_core system.now }
{
    let (root, _, _) = system.follows();
    match system.held_reading() {
        Some(reading) => Some(KeptReading {
            source: source_of(world, root.clock()),
            received: Some(reading),
        }),
        None => None,
    }
}

/// What a system reads time by that took over.
fn own_reading<F: Fate + Drop>(world: &World<F>, clock: ClockId) -> KeptReading
    ensures { result ≡ own_reading world.now.world_core clock }
{
    KeptReading {
        source: source_of(world, clock),
        received: None,
    }
}

/// Whether a system took over, and received no time since.
fn reads_own(kept: &Option<KeptReading>) -> bool
    ensures { result ≡ reads_own kept.now }
{
    match kept {
        Some(kept) => kept.received.is_none(),
        None => false,
    }
}

/// Whether a port is a Master port.
fn is_master(port: ShownPort) -> bool
    ensures { result ≡ is_master port }
{
    match port.role {
        Role::Master => true,
        _ => false,
    }
}

/// Whether any of several ports is a Master port.
fn has_master(ports: &[ShownPort]) -> bool
    ensures { result ≡ list_any is_master ports.now }
{
    for port in ports {
        if is_master(*port) {
            return true;
        }
    }
    false
}

/// Whether a live system leads: it is its own root, can be a grandmaster, and has a Master port.
fn is_leading(system: &System) -> bool
    requires { length system.now.ports ≤ MOST_PORTS }
    ensures { result ≡ is_leading system.now }
{
    let (root, _, slave) = system.follows();
    slave.is_none() && root.capable() && has_master(ports_of(system).as_slice())
}

/// Whether the system with a clock is live and leads.
fn leads<F: Fate + Drop>(world: &World<F>, clock: ClockId) -> bool
    ensures { result ≡ option_map_or is_leading (live_system clock world.now.world_core) false }
{
    world.well_formed();
    match world.system(clock) {
        Some(system) => is_leading(system),
        None => false,
    }
}

/// What the live system with a clock reads time by where a Follow_Up was used.
fn received_in<F: Fate + Drop>(world: &World<F>, clock: ClockId) -> Option<KeptReading>
    ensures { result ≡ option_and_then (received_reading world.now.world_core)
        (live_system clock world.now.world_core) }
{
    world.well_formed();
    match world.system(clock) {
        Some(system) => received_reading(world, system),
        None => None,
    }
}

/// What the system with a clock reads time by, if it has time.
pub(crate) fn reading_among(systems: &[SystemReading], clock: ClockId) -> Option<KeptReading>
    requires { ReadingsRise systems.now }
    ensures { result ≡ reading_among systems.now clock }
{
    match systems.binary_search_by_key(&clock, |system| system.clock) {
        Ok(place) => systems[place].reading,
        Err(_) => None,
    }
}

/// The system with a clock gets a reading by a receipt.
fn receipt_of<F: Fate + Drop>(
    world: &World<F>,
    systems: &[SystemReading],
    clock: ClockId,
) -> Option<NewReading>
    requires { ReadingsRise systems.now }
    ensures { result ≡ by_receipt world.now.world_core systems.now (Some clock) }
{
    let before = reading_among(systems, clock);
    match received_in(world, clock) {
        Some(after) => Some(NewReading {
            clock,
            before,
            after,
            received: true,
        }),
        None => None,
    }
}

/// The reading that a system gets by a receipt, if there is one.
fn by_receipt<F: Fate + Drop>(
    world: &World<F>,
    systems: &[SystemReading],
    receiver: Option<ClockId>,
) -> Option<NewReading>
    requires { ReadingsRise systems.now }
    ensures { result ≡ by_receipt world.now.world_core systems.now receiver }
{
    match receiver {
        Some(clock) => receipt_of(world, systems, clock),
        None => None,
    }
}

/// The reading that a system gets whose Sync timer expired, if it took over by that.
fn by_takeover<F: Fate + Drop>(
    world: &World<F>,
    systems: &[SystemReading],
    clock: ClockId,
) -> Option<NewReading>
    requires { ReadingsRise systems.now }
    ensures { result ≡ by_takeover world.now.world_core systems.now clock }
{
    if !leads(world, clock) {
        return None;
    }
    let before = reading_among(systems, clock);
    if reads_own(&before) {
        return None;
    }
    Some(NewReading {
        clock,
        before,
        after: own_reading(world, clock),
        received: false,
    })
}

/// The reading that a system gets of which a timer expired, if it took over by that.
fn by_expiry<F: Fate + Drop>(
    world: &World<F>,
    systems: &[SystemReading],
    clock: ClockId,
    timer: Timer,
) -> Option<NewReading>
    requires { ReadingsRise systems.now }
    ensures { result ≡ by_expiry world.now.world_core systems.now clock timer }
{
    match timer {
        Timer::Sync => by_takeover(world, systems, clock),
        _ => None,
    }
}

/// The reading that a system gets by an act, if one does.
pub(crate) fn new_reading<F: Fate + Drop>(
    world: &World<F>,
    systems: &[SystemReading],
    act: &Act,
    done: &Done,
) -> Option<NewReading>
    requires { ReadingsRise systems.now }
    ensures { result ≡ new_reading act.now done.now world.now.world_core systems.now }
{
    match act {
        Act::Deliver { .. } => by_receipt(world, systems, received_by(done)),
        Act::Expire { clock, timer } => by_expiry(world, systems, *clock, *timer),
        Act::Change(_) => None,
    }
}

/// Whether a system can get a reading by an act of which this is told: it received time, or can take over.
pub(crate) fn can_give_reading(act: &Act, done: &Done) -> bool
    ensures { result ≡ can_give_reading act.now done.now }
{
    received_by(done).is_some() || can_take_over(act)
}

/// The system that an act makes fail.
pub(crate) fn failed_by(act: &Act) -> Option<ClockId>
    ensures { result ≡ failed_by act.now }
{
    match act {
        Act::Change(Change::Fail { clock }) => Some(*clock),
        _ => None,
    }
}

/// The system with a clock reads time by this from then on, or has no time.
pub(crate) fn put_reading(
    systems: &mut Vec<SystemReading>,
    clock: ClockId,
    reading: Option<KeptReading>,
)
    requires { ReadingsRise systems.old.items }
    ensures { systems.new.items ≡ put_reading clock reading systems.old.items }
{
    match systems.binary_search_by_key(&clock, |system| system.clock) {
        Ok(place) => {
            systems[place].reading = reading;
        }
        Err(_) => {}
    }
}

/// Whether a system that gets a reading has another source than before, or had no time.
pub(crate) fn changes_source(new: &NewReading) -> bool
    ensures { result ≡ changes_source new.now }
{
    let source = new.after.source;
    match &new.before {
        Some(before) => {
            let other = before.source;
            other != source
        }
        None => true,
    }
}

/// That of the source of one reading, where that of another is this.
fn time_beside<F: Fate + Drop>(
    world: &World<F>,
    at: u64,
    kept: &KeptReading,
    other: &KeptReading,
    shown: Option<i128>,
) -> Option<i128>
    requires moment { IsMoment at }
    requires other { shown ≡ source_time other.now.source at world.now.world_core }
    requires size { IfSome shown (λ z. unsigned_abs z < 2 ^ 99) }
    ensures is { result ≡ source_time kept.now.source at world.now.world_core }
    ensures small { IfSome result (λ z. unsigned_abs z < 2 ^ 99) }
{
    if kept.source == other.source {
        shown
    } else {
        source_time(world, at, &kept.source)
    }
}

/// How far what is read is off what a source shows, in units of 2^-16 ns; none where that shows nothing.
fn off(read: i128, shown: Option<i128>) -> Option<i128>
    requires read { unsigned_abs read < 2 ^ 99 }
    requires shown { IfSome shown (λ z. unsigned_abs z < 2 ^ 99) }
    ensures is { result ≡ option_map (λ time. read -ℤ time) shown }
    ensures small { IfSome result (λ e. unsigned_abs e < 2 ^ 100) }
{
    match shown {
        Some(shown) => Some(read - shown),
        None => None,
    }
}

/// By how much more is read than another time, in units of 2^-16 ns.
fn more_by(read: i128, old: i128) -> i128
    requires read { unsigned_abs read < 2 ^ 99 }
    requires old { unsigned_abs old < 2 ^ 99 }
    ensures { result ≡ read -ℤ old }
{
    read - old
}

/// The jump of a system whose clock shows this.
fn jump_at<F: Fate + Drop>(world: &World<F>, at: u64, new: &NewReading, shown: ScaledNs) -> Jump
    requires moment { IsMoment at }
    requires shows { clock_time new.now.clock at world.now.world_core ≡ Some shown }
    ensures is { result ≡ jump_of at world.now.world_core new.now }
    ensures small { IsSmallJump result }
{
    let read = read_by(&new.after, shown);
    let time = source_time(world, at, &new.after.source);
    let after = off(read, time);
    match &new.before {
        Some(kept) => {
            let old = read_by(kept, shown);
            Jump {
                before: off(old, time_beside(world, at, kept, &new.after, time)),
                after,
                step: Some(more_by(read, old)),
            }
        }
        None => Jump {
            before: None,
            after,
            step: None,
        },
    }
}

/// The jump of a system that gets a reading.
pub(crate) fn jump_of<F: Fate + Drop>(world: &World<F>, at: u64, new: &NewReading) -> Jump
    requires { IsMoment at }
    ensures is { result ≡ jump_of at world.now.world_core new.now }
    ensures small { IsSmallJump result }
{
    match clock_time(world, new.clock, at) {
        Some(shown) => jump_at(world, at, new, shown),
        None => Jump {
            before: None,
            after: None,
            step: None,
        },
    }
}
