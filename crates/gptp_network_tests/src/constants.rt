//! What settles by when, tested after each act, with delays that a seed draws. Times are in ns.

ghost use Rattle.gptp_setup.specs.Intervals.{IsMoment};

use crate::ring::{
    FAILS, FOLLOWED, FOLLOWED_BEFORE, Followed, Played, ROLES, ROLES_BEFORE, begun, clock, fail,
    follow, identity, mixed, play,
};
use gptp_links::PcgFate;
use gptp_messages::{AnnounceView, Message, PathView};
use gptp_model::Carried;
use gptp_roles::Role;
use gptp_system::Answer;
use gptp_vector::ClockId;
use gptp_world::{Done, Refused, World};
use std::test::Fail;

/// How many acts a stretch may have.
const ACTS: u32 = 100_000;

/// One second, in ns.
const SECOND: u64 = 1_000_000_000;

/// How long what a system uses has been on its way for each link of it: the threshold and the residence.
const LINK: u64 = 1_800;

/// How wrong an offset is at most, one link from the root and two, in units of 2^-16 ns: worked out by another program,
/// from the sums as docs/PLANNING.md has them.
const BOUNDS_OF_LINKS: [u128; 2] = [26_222_419, 52_444_891];

/// After how many announce intervals ports are capable, where they can be: L + 5, L being 9.
const CAPABLE: u64 = 14;

/// How many clocks at the end of a trace are clean, by after how many announce intervals it arrives; or the trace is
/// clean as a whole. It is one clock from one interval after ports are capable, and one more with each turn of k + 1
/// intervals, k being 3. Where fewer systems live, the trace is clean as a whole.
const CLEAN: [(usize, u64); 5] = [(5, 31), (4, 27), (3, 23), (2, 19), (1, 15)];

/// From when on what holds, in a stretch between two changes, or from the start to one.
struct Times {
    /// The stretch begins.
    begin: u64,
    /// The largest announce interval in the network.
    interval: u64,
    /// The choice and the roles stand. At the start that is two exchanges, an interval since delays vary, and the
    /// greatest delay for each system of a path but one; after the failure the span from any past. And 1 ns more.
    chosen: u64,
    /// Everything has settled, whatever lapses: after (k + 3) n + L + 5 intervals, where n systems live.
    settled: u64,
    /// The stretch ends.
    end: u64,
}

impl Times {
    /// The time so many announce intervals into the stretch.
    fn after(&self, intervals: u64) -> u64 {
        self.interval
            .saturating_mul(intervals)
            .saturating_add(self.begin)
    }
}

/// From the start on, where all ports announce each second.
const ALIKE_BEFORE: Times = Times {
    begin: 0,
    interval: SECOND,
    chosen: 2_000_003_501,
    settled: 38 * SECOND,
    end: FAILS - 1,
};

/// From the failure on.
const ALIKE_AFTER: Times = Times {
    begin: FAILS,
    interval: SECOND,
    chosen: 55_000_001_001,
    settled: 72 * SECOND,
    end: 80 * SECOND,
};

/// From the start on, where some ports announce each two seconds: then all takes twice as long, some longer than there
/// is until the failure.
const MIXED_BEFORE: Times = Times {
    begin: 0,
    interval: 2 * SECOND,
    chosen: 3_000_003_501,
    settled: 76 * SECOND,
    end: FAILS - 1,
};

/// From the failure on.
const MIXED_AFTER: Times = Times {
    begin: FAILS,
    interval: 2 * SECOND,
    chosen: 70_000_001_001,
    settled: 104 * SECOND,
    end: 120 * SECOND,
};

/// What lives in a stretch, and what it settles at.
struct Live<'a> {
    /// Whether clock 1 does.
    first: bool,
    /// The clocks of the live systems that links join.
    joined: &'a [(u8, u8)],
    /// A clock, a port, and whether a live system is at the other end of its link.
    linked: &'a [(u8, u8, bool)],
    followed: &'a [Followed],
    played: &'a [Played],
}

/// All four systems, before the failure.
const BEFORE: Live<'static> = Live {
    first: true,
    joined: &[(1, 2), (2, 3), (2, 4), (3, 4)],
    linked: &[
        (1, 1, true),
        (2, 1, true),
        (2, 2, true),
        (2, 3, true),
        (3, 1, true),
        (3, 2, true),
        (4, 1, true),
        (4, 2, true),
    ],
    followed: &FOLLOWED_BEFORE,
    played: &ROLES_BEFORE,
};

/// The ring that is left.
const AFTER: Live<'static> = Live {
    first: false,
    joined: &[(2, 3), (2, 4), (3, 4)],
    linked: &[
        (2, 1, false),
        (2, 2, true),
        (2, 3, true),
        (3, 1, true),
        (3, 2, true),
        (4, 1, true),
        (4, 2, true),
    ],
    followed: &FOLLOWED,
    played: &ROLES,
};

/// Whether a port of a system is capable.
fn is_capable(world: &World<PcgFate>, number: u8, port: u8) -> Option<bool> {
    let system = world.system(clock(number))?;
    if port == 0 || system.ports() < port {
        return None;
    }
    Some(system.capable(port))
}

/// Whether a port of a system has another role than Disabled.
fn is_enabled(world: &World<PcgFate>, number: u8, port: u8) -> Option<bool> {
    let role = world.role(clock(number), u16::from(port))?;
    Some(role != Role::Disabled)
}

/// Whether the ports beside live systems, and no others, are capable and enabled.
fn are_capable(world: &World<PcgFate>, live: &Live<'_>) -> bool {
    for (number, port, linked) in live.linked {
        if is_capable(world, *number, *port) != Some(*linked) {
            return false;
        }
        if is_enabled(world, *number, *port) != Some(*linked) {
            return false;
        }
    }
    true
}

/// Whether all follow what they should, in their roles, and no other lives.
fn is_settled(world: &World<PcgFate>, live: &Live<'_>) -> bool {
    world.live(clock(1)) == live.first && follow(world, live.followed) && play(world, live.played)
}

/// The clock so many places from the end of a path, the last being 1.
fn from_end(path: &PathView<'_>, places: usize) -> Option<ClockId> {
    path.get(path.len().checked_sub(places)?)
}

/// Whether a link joins the live systems with these clocks.
fn are_joined(live: &Live<'_>, member: ClockId, other: ClockId) -> bool {
    for (one, two) in live.joined {
        let (one, two) = (clock(*one), clock(*two));
        if (member == one && other == two) || (member == two && other == one) {
            return true;
        }
    }
    false
}

/// Whether a clock lives: each live system is joined to one.
fn is_live(live: &Live<'_>, member: ClockId) -> bool {
    for (one, two) in live.joined {
        if member == clock(*one) || member == clock(*two) {
            return true;
        }
    }
    false
}

/// Whether the clock so many places from the end lives, and is joined to the next, if there is one.
fn is_led_on(live: &Live<'_>, path: &PathView<'_>, places: usize) -> bool {
    let member = match from_end(path, places) {
        Some(member) => member,
        None => return false,
    };
    if places <= 1 {
        return is_live(live, member);
    }
    match from_end(path, places - 1) {
        Some(next) => are_joined(live, member, next),
        None => false,
    }
}

/// Whether it doesn't come again after.
fn is_new(path: &PathView<'_>, places: usize) -> bool {
    let member = from_end(path, places);
    for later in 1..places {
        if from_end(path, later) == member {
            return false;
        }
    }
    true
}

/// How many clocks at the end of a path are different live ones, each joined to the next.
fn clean_end(live: &Live<'_>, path: &PathView<'_>) -> usize {
    for (clean, places) in [(0, 1), (1, 2), (2, 3), (3, 4)] {
        if !is_led_on(live, path, places) || !is_new(path, places) {
            return clean;
        }
    }
    4
}

/// Whether an Announce names as root the identity of the system at which its path begins.
fn is_from_root(announce: &AnnounceView<'_>) -> bool {
    match announce.path.get(0) {
        Some(first) => announce.body.root == identity(first),
        None => false,
    }
}

/// Whether the whole path is clean, from the root on, in as many steps.
fn is_whole(live: &Live<'_>, announce: &AnnounceView<'_>) -> bool {
    let count = announce.path.len();
    count == clean_end(live, &announce.path)
        && count == usize::from(announce.body.steps) + 1
        && is_from_root(announce)
}

/// Whether so many clocks at the end of an Announce's path are clean, up to its sender; or the whole path is.
fn is_clean(live: &Live<'_>, announce: &AnnounceView<'_>, clocks: usize) -> bool {
    from_end(&announce.path, 1) == Some(announce.head.source.clock)
        && (clocks <= clean_end(live, &announce.path) || is_whole(live, announce))
}

/// Whether a frame that arrives at a time is as clean as it should be, where it is an Announce.
fn is_frame_clean(live: &Live<'_>, times: &Times, at: u64, frame: &Carried) -> bool {
    let announce = match frame.read() {
        Ok(Message::Announce(announce)) => announce,
        _ => return true,
    };
    for (clocks, intervals) in CLEAN {
        if times.after(intervals) <= at {
            return is_clean(live, &announce, clocks);
        }
    }
    true
}

/// Whether the frame of which an act at a time told is as clean as it should be, where it is an Announce.
fn is_told_clean(live: &Live<'_>, times: &Times, at: u64, done: &Done) -> bool {
    match done {
        Done::Heard { frame, .. } => is_frame_clean(live, times, at, frame),
        Done::Quiet => true,
    }
}

/// How wrong the offset of a system is at a time, in units of 2^-16 ns, where its root is another.
fn error_of(world: &World<PcgFate>, member: ClockId, root: ClockId, at: u64) -> Option<u128>
    requires moment { IsMoment at }
{
    let system = world.system(member)?;
    let leader = world.system(root)?;
    let ahead = system.local(at).checked_sub(leader.local(at)).ok()?;
    let error = system.offset()?.checked_sub(ahead).ok()?;
    Some(error.value().unsigned_abs())
}

/// How wrong it is at most, so many steps away.
fn bound_of(steps: u16) -> Option<u128> {
    let place = usize::from(steps).checked_sub(1)?;
    BOUNDS_OF_LINKS.get(place).copied()
}

/// Whether it is no worse.
fn is_within(world: &World<PcgFate>, member: ClockId, root: ClockId, steps: u16, at: u64) -> bool
    requires moment { IsMoment at }
{
    match (error_of(world, member, root, at), bound_of(steps)) {
        (Some(error), Some(bound)) => error <= bound,
        _ => false,
    }
}

/// Whether a system that used a Follow_Up at a time is as exact as it should be, by what it should follow.
fn is_exact(
    world: &World<PcgFate>,
    live: &Live<'_>,
    times: &Times,
    at: u64,
    member: ClockId,
) -> bool
    requires moment { IsMoment times.now.end }
{
    if at < times.settled || times.end < at {
        return true;
    }
    let since = at - times.settled;
    for (number, root, steps, _) in live.followed {
        if member == clock(*number) {
            return since < u64::from(*steps) * LINK
                || is_within(world, member, clock(*root), *steps, at);
        }
    }
    false
}

/// Whether a frame is a Follow_Up.
fn is_follow_up(frame: &Carried) -> bool {
    match frame.read() {
        Ok(Message::FollowUp(_)) => true,
        _ => false,
    }
}

/// Whether what an act at a time told left an exact offset, where it is a Follow_Up that was used.
fn is_told_exact(
    world: &World<PcgFate>,
    live: &Live<'_>,
    times: &Times,
    at: u64,
    done: &Done,
) -> bool
    requires moment { IsMoment times.now.end }
{
    match done {
        Done::Heard {
            clock: member,
            answer: Some(Answer::Used),
            frame,
            ..
        } => !is_follow_up(frame) || is_exact(world, live, times, at, *member),
        _ => true,
    }
}

/// Whether the choice and the roles are asked about after an act at a time: for two seconds after they stand, and once
/// everything has settled.
fn is_asked(times: &Times, at: u64) -> bool {
    times.settled <= at || times.chosen <= at && at - times.chosen < 2_000_000_000
}

/// Whether all holds that should after an act at a time.
fn holds(world: &World<PcgFate>, live: &Live<'_>, times: &Times, at: u64, done: &Done) -> bool
    requires moment { IsMoment times.now.end }
{
    (at < times.after(CAPABLE) || are_capable(world, live))
        && is_told_clean(live, times, at, done)
        && is_told_exact(world, live, times, at, done)
        && (!is_asked(times, at) || is_settled(world, live))
}

/// The next act, where it comes by a time: when it came, and what it told.
fn next_act(world: &mut World<PcgFate>, end: u64) -> Result<Option<(u64, Done)>, Refused>
    requires moment { IsMoment end }
{
    let timed = match world.next() {
        Some(timed) => timed,
        None => return Ok(None),
    };
    let at = timed.at;
    if end < at {
        return Ok(None);
    }
    let done = world.act(timed)?;
    Ok(Some((at, done)))
}

/// It goes on to the end of a stretch. Answers whether all held after each act.
fn holds_through(
    world: &mut World<PcgFate>,
    live: &Live<'_>,
    times: &Times,
) -> Result<bool, Refused>
    requires moment { IsMoment times.now.end }
{
    for _ in 0..ACTS {
        let (at, done) = match next_act(world, times.end)? {
            Some(told) => told,
            None => return Ok(true),
        };
        if !holds(world, live, times, at, &done) {
            return Ok(false);
        }
    }
    Ok(false)
}

/// It goes on until clock 1 fails. Answers whether all held after each act, and all follow what they should by then.
fn holds_before(world: &mut World<PcgFate>, times: &Times) -> Result<bool, Refused>
    requires moment { IsMoment times.now.end }
{
    Ok(holds_through(world, &BEFORE, times)? && is_settled(world, &BEFORE))
}

/// Clock 1 fails, and it goes on to the end. Answers whether all held after each act, and what should settle had time
/// to.
fn holds_after(world: &mut World<PcgFate>, times: &Times) -> Result<bool, Refused>
    requires moment { IsMoment times.now.end }
{
    fail(world)?;
    Ok(holds_through(world, &AFTER, times)? && times.settled < world.now())
}

/// The bounds of all links.
const BOUNDS: &str = "min = 100\nmax = 500\n";

/// Answers whether a world settles in time, before the failure and after it.
fn settles_in_time(
    mut world: World<PcgFate>,
    before: &Times,
    after: &Times,
) -> Result<bool, Refused>
    requires before { IsMoment before.now.end }
    requires after { IsMoment after.now.end }
{
    Ok(holds_before(&mut world, before)? && holds_after(&mut world, after)?)
}

#[test]
fn constants(rt: HostRuntime) -> Result<(), Fail> {
    for seed in 1..=20 {
        let world = begun(rt.alloc(), BOUNDS, seed)?;
        assert!(rt; settles_in_time(world, &ALIKE_BEFORE, &ALIKE_AFTER)?);
        let world = mixed(rt.alloc(), BOUNDS, seed)?;
        assert!(rt; settles_in_time(world, &MIXED_BEFORE, &MIXED_AFTER)?);
    }
    Ok(())
}
