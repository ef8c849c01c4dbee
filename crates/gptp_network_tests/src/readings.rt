//! What two systems read once they have settled, as functions whose contracts follow from the theorem on time at any
//! moment.

ghost use Rattle.std.specs.Prelude.{◌≡◌, ◌≤◌, ◌+◌, pos, IfOk, IfSome, OnOk};
ghost use Rattle.gptp_pdelay.specs.Clock.{local_clock};
ghost use Rattle.gptp_scaled.specs.Counts.{AreWithin};
ghost use Rattle.gptp_reading.specs.Readings.{LeavesReading};
ghost use Rattle.gptp_network_tests.specs.Pair.{IsPairSince};
ghost use Rattle.gptp_network_tests.specs.Readings.{RunsOfTwoReadExactly, WorldsOfTwoReadExactly};

use crate::drawn::{AWAITS, LAST, pair_at, second_uses};
use gptp_links::Fate;
use gptp_reading::{held_is_read, runs_read_exactly, worlds_read_exactly};
use gptp_vector::ClockId;
use gptp_world::{Done, NetworkFault, World};
use std::alloc::Global;

/// By the theorem the second reads, 100 ms after a Follow_Up that it uses, what an exact clock shows then, within 31
/// units of 2^-16 ns.
pub fn worlds_of_two_read_exactly<F: Fate>()
    ensures { WorldsOfTwoReadExactly F.answers }
{
    worlds_read_exactly::<F>();
}

/// By the theorem the second reads, 100 ms after each act of a run of the document of both by which it uses a
/// Follow_Up, what an exact clock shows then, within 31 units of 2^-16 ns.
pub fn runs_of_two_read_exactly<F: Fate>()
    ensures { RunsOfTwoReadExactly F.answers }
{
    runs_read_exactly::<F>();
}

/// What the second reads 100 ms after an act at this time by which it used a Follow_Up, in units of 2^-16 ns, and when
/// that is, in ns.
#[tactic(auto, using(crate::proofs::ReadingLemmas::left))]
fn second_reads<F: Fate + Drop>(world: &World<F>, at: u64, done: &Done) -> Option<(i128, u64)>
    requires { at ≤ 28000000000 }
    ensures time { IfSome result (λ r. r.1 ≡ at + 100000000) }
    ensures reads { IfSome result (λ r. LeavesReading 2 world.now.world_core done.now (at + 100000000) r.0) }
{
    if !second_uses(done) {
        return None;
    }
    held_is_read();
    let later = at + 100_000_000;
    let system = world.system(ClockId::from(2))?;
    let reading = system.held_reading()?;
    Some((reading.at(system.local(later)), later))
}

/// The next act is done. What the second reads 100 ms later, where it used a Follow_Up by it, and when that is: what a
/// clock shows then that runs exactly, but for rounding and the error of the rate.
#[tactic(auto, using(crate::proofs::ReadingLemmas::second_is_read))]
fn read_next<F: Fate + Drop>(world: &mut World<F>) -> Result<Option<(i128, u64)>, NetworkFault>
    requires { IsPairSince 27000000000 world.old.world_core }
    ensures since { OnOk result (IsPairSince 27000000000 world.new.world_core) }
    ensures exact { IfOk result (λ read. IfSome read (λ r. AreWithin 31 r.0 (local_clock 0 (pos 0) r.1))) }
{
    world.well_formed();
    worlds_of_two_read_exactly::<F>();
    let timed = match world.next() {
        Some(timed) => timed,
        None => return Ok(None),
    };
    let at = timed.at;
    if LAST < at {
        return Ok(None);
    }
    match world.act(timed) {
        Ok(done) => Ok(second_reads(world, at, &done)),
        Err(_) => Err(NetworkFault::OutOfMemory),
    }
}

/// What the second reads 100 ms after the first two acts after 27.125 s, by which it hears a Sync and then the
/// Follow_Up: in units of 2^-16 ns; and when that is, in ns. Refused for want of memory alone.
pub fn read_in_time<F: Fate + Drop>(
    alloc: Global,
    fate: F,
) -> Result<Option<(i128, u64)>, NetworkFault>
    ensures { IfOk result (λ read. IfSome read (λ r. AreWithin 31 r.0 (local_clock 0 (pos 0) r.1))) }
{
    let mut world = pair_at(alloc, fate, AWAITS)?;
    let _by_sync = read_next(&mut world)?;
    read_next(&mut world)
}
