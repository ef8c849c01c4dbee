//! How soon the world of two systems has settled, as functions whose contracts follow from laws. Times are in ns.

ghost use Rattle.std.specs.Prelude.{◌≡◌, IfOk, OnOk, Some};
ghost use Rattle.gptp_network_tests.specs.Pair.{HasBegun, first_member};
ghost use Rattle.gptp_network_tests.specs.Soon.{IsPairSoon};

use crate::drawn::begun;
use gptp_links::Fate;
use gptp_settling_time::starts_settle_at_once;
use gptp_vector::{ClockId, Identity};
use gptp_world::{NetworkFault, World};
use std::alloc::Global;

/// When all has settled: one interval between requests, one exchange and 1 ns, and the delay of the link after they
/// began. No announce interval has to pass, since the delay doesn't vary.
const SOON: u64 = 1_000_002_501;

/// Their world goes on to that time.
fn go_on<F: Fate + Drop>(world: &mut World<F>) -> Result<(), NetworkFault>
    requires { HasBegun F.answers world.old.fate world.old.world_core }
    ensures { OnOk result (IsPairSoon world.new.world_core) }
{
    starts_settle_at_once::<F>();
    match world.advance(SOON) {
        Ok(()) => {
            world.well_formed();
            Ok(())
        }
        Err(_) => Err(NetworkFault::OutOfMemory),
    }
}

/// What the second system follows then.
fn second_follows<F: Fate + Drop>(world: &World<F>) -> Option<(Identity, u16, Option<u8>)>
    requires { IsPairSoon world.now.world_core }
    ensures { result ≡ Some (first_member, 1, Some 1) }
{
    world.follows(ClockId::from(2))
}

/// What the second system follows 1 s after both began, whatever is drawn for frames: the first, and not only when the
/// settling span has passed. Refused for want of memory alone.
pub fn follow_soon<F: Fate + Drop>(
    alloc: Global,
    fate: F,
) -> Result<Option<(Identity, u16, Option<u8>)>, NetworkFault>
    ensures { IfOk result (λ followed. followed ≡ Some (first_member, 1, Some 1)) }
{
    let mut world = begun(alloc, fate)?;
    go_on(&mut world)?;
    Ok(second_follows(&world))
}
