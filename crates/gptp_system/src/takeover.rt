//! How a system goes on with the time that it read where it becomes grandmaster.

ghost use Rattle.std.specs.Prelude.{◌≡◌, ◌≤ℤ◌, ◌&&◌, pos, if◌then◌else◌};
ghost use Rattle.std.specs.List.{list_any};
ghost use Rattle.gptp_pdelay.specs.Clock.{IsTime};
ghost use Rattle.gptp_system.specs.State.{is_mine};
ghost use Rattle.gptp_system.specs.Takeover.{base_to, can_go_on, reads_own};

use crate::reading::TimeRead;
use crate::state::State;
use gptp_receipt::Held;
use gptp_scaled::ScaledNs;
use gptp_setup::interval_of;

/// 2^47 s in units of 2^-16 ns: what is told from a time below this on has 48 bits of seconds as long as a simulation
/// lasts.
const TIME_LIMIT: i128 = (1 << 47) * 1_000_000_000 * 65_536;

/// Whether a system took over, and received no time since.
fn reads_own(reads: &Option<TimeRead>) -> bool
    ensures { result ≡ reads_own reads.now }
{
    match reads {
        Some(TimeRead::Own) => true,
        _ => false,
    }
}

/// Whether a port holds what a Master port does.
fn is_mine(held: &Held) -> bool
    ensures { result ≡ is_mine held.now }
{
    match held {
        Held::Mine { .. } => true,
        _ => false,
    }
}

/// Whether any of the ports is a Master port.
fn has_master(held: &[Held]) -> bool
    ensures { result ≡ list_any is_mine held.now }
{
    held.iter().any(|one| is_mine(one))
}

/// Whether a system can go on with this time, in units of 2^-16 ns: it is from 0 on, and below 2^47 s.
fn can_go_on(time: i128) -> bool
    ensures { result ≡ can_go_on time }
{
    0 <= time && time < TIME_LIMIT
}

/// The base by which a clock that shows this goes on with what was read, in units of 2^-16 ns; 0 where nothing was, or
/// it can't.
fn base_to(read: Option<i128>, shown: ScaledNs) -> ScaledNs
    requires { IsTime shown }
    ensures { result ≡ base_to read shown }
{
    match read {
        Some(time) if can_go_on(time) => ScaledNs::new(time - shown.value()).unwrap(),
        _ => ScaledNs::default(),
    }
}

impl State {
    ghost use Rattle.std.specs.Prelude.{◌≡◌, ◌≤◌, ◌<◌, ◌^◌, IfSome, unsigned_abs};
    ghost use Rattle.gptp_scaled.specs.Stamp.{FitsStamp};
    ghost use Rattle.gptp_setup.specs.Intervals.{IsMoment};
    ghost use Rattle.gptp_system.specs.Ready.{IsReady, state_of};
    ghost use Rattle.gptp_system.specs.Syncing.{restarted};
    ghost use Rattle.gptp_system.specs.Takeover.{base_after, leading, reading, reads_after, takes_over, told_stamp, told_time};

    /// What is read at a time, in units of 2^-16 ns.
    pub(crate) fn reading(&self, now: u64) -> Option<i128>
        requires ready { IsReady (state_of self.now) }
        requires moment { IsMoment now }
        ensures is { result ≡ reading (state_of self.now) now }
        ensures small { IfSome result (λ time. unsigned_abs time < 2 ^ 99) }
    {
        match &self.reads {
            Some(read) => Some(read.at(self.base, self.local_time(now))),
            None => None,
        }
    }

    /// Whether the system takes over with the Sync that it sends next, where it leads.
    fn takes_over(&self) -> bool
        ensures { result ≡ takes_over (state_of self.now) }
    {
        !reads_own(&self.reads) && has_master(self.held.as_slice())
    }

    /// The base of a system that leads as its Sync timer expires.
    fn base_after(&self, now: u64) -> ScaledNs
        requires ready { IsReady (state_of self.now) }
        requires moment { IsMoment now }
        ensures { result ≡ base_after now (state_of self.now) }
    {
        if self.takes_over() && self.continues {
            base_to(self.reading(now), self.local_time(now))
        } else {
            self.base
        }
    }

    /// What a system that leads reads time by as its Sync timer has expired.
    fn reads_after(&self) -> Option<TimeRead>
        ensures { result ≡ reads_after (state_of self.now) }
    {
        if self.takes_over() {
            Some(TimeRead::Own)
        } else {
            self.reads
        }
    }

    /// The time stamp of what is told at a time.
    fn told_stamp(&self, now: u64) -> ScaledNs
        requires ready { IsReady (state_of self.now) }
        requires moment { IsMoment now }
        requires low { pos 0 ≤ℤ told_time (state_of self.now) now }
        ensures is { result ≡ told_stamp (state_of self.now) now }
        ensures fits { FitsStamp result }
    {
        let told = self.local_time(now).checked_add(self.base).unwrap();
        self.stamping().time_stamp(now, told).unwrap()
    }

    /// The Sync timer begins anew.
    pub(crate) fn restart(&mut self, now: u64)
        requires ready { IsReady (state_of self.old) }
        requires moment { IsMoment now }
        requires due { (state_of self.old).sync ≤ now }
        ensures state { state_of self.new ≡ restarted now (state_of self.old) }
        ensures ready { IsReady (state_of self.new) }
    {
        self.sync = now + interval_of(self.params.sync);
    }

    /// A system that leads takes over where it didn't yet, as its Sync timer expires: the time stamp of what it tells
    /// then.
    pub(crate) fn lead(&mut self, now: u64) -> ScaledNs
        requires ready { IsReady (state_of self.old) }
        requires moment { IsMoment now }
        requires due { (state_of self.old).sync ≤ now }
        ensures state { state_of self.new ≡ restarted now (leading now (state_of self.old)) }
        ensures from { pos 0 ≤ℤ told_time (leading now (state_of self.old)) now }
        ensures told { result ≡ told_stamp (leading now (state_of self.old)) now }
        ensures fits { FitsStamp result }
        ensures ready { IsReady (state_of self.new) }
    {
        let base = self.base_after(now);
        self.reads = self.reads_after();
        self.base = base;
        self.sync = now + interval_of(self.params.sync);
        self.told_stamp(now)
    }
}
