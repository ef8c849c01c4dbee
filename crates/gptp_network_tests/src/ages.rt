//! How old what the second of two systems knows of time is, where its network has a syncReceiptTimeout, as a function
//! whose contract follows from a law. Times are in ns.

ghost use Rattle.std.specs.Prelude.{◌≡◌, ◌≤◌, IfOk, IfSome, OnOk};
ghost use Rattle.gptp_network_tests.specs.Ages.{IsLapsingPair, lapsing_params};
ghost use Rattle.gptp_network_tests.specs.Pair.{HasBegunWith};

use crate::drawn::{PARAMS, begun_with};
use gptp_links::Fate;
use gptp_reading::worlds_are_recent;
use gptp_setup::Timer;
use gptp_vector::ClockId;
use gptp_world::{NetworkFault, Params, World};
use std::alloc::Global;

/// When all has settled.
const SETTLED: u64 = 27_000_000_000;

/// How long a Lapse timer runs: three sync intervals.
const LAPSE_SPAN: u64 = 375_000_000;

/// What both systems have.
fn lapsing() -> Params
    ensures { result ≡ lapsing_params }
{
    Params {
        sync_timeout: 3,
        ..PARAMS
    }
}

/// It goes on from there.
fn go_on<F: Fate + Drop>(world: &mut World<F>) -> Result<(), NetworkFault>
    requires { HasBegunWith lapsing_params F.answers world.old.fate world.old.world_core }
    ensures { OnOk result (IsLapsingPair world.new.world_core) }
{
    match world.advance(SETTLED) {
        Ok(()) => {
            world.well_formed();
            Ok(())
        }
        Err(_) => Err(NetworkFault::OutOfMemory),
    }
}

/// How long ago the Lapse timer of the second was started, where it has a Slave port and the timer runs.
#[tactic(auto, using(crate::proofs::AgeLemmas::age_within))]
fn second_age<F: Fate + Drop>(world: &World<F>) -> Option<u64>
    requires { IsLapsingPair world.now.world_core }
    ensures { IfSome result (λ age. age ≤ 125001500) }
{
    world.well_formed();
    worlds_are_recent();
    let system = world.system(ClockId::from(2))?;
    let _port = system.follows().2?;
    let due = system.due(Timer::Lapse)?;
    Some((SETTLED + LAPSE_SPAN).saturating_sub(due))
}

/// How long ago the Lapse timer of the second was started 27 s after both began, whatever is drawn for frames: no
/// longer than it waits for the next Sync, a sync interval, a residence and the delay of the link. Each Follow_Up that
/// it uses starts the timer. Refused for want of memory alone.
pub fn age_in_time<F: Fate + Drop>(alloc: Global, fate: F) -> Result<Option<u64>, NetworkFault>
    ensures { IfOk result (λ age. IfSome age (λ a. a ≤ 125001500)) }
{
    let mut world = begun_with(alloc, fate, lapsing())?;
    go_on(&mut world)?;
    Ok(second_age(&world))
}
