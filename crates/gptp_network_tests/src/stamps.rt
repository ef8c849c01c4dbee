//! How exact two systems are whose time stamps have a granularity and a noise, as functions whose contracts follow from
//! those of their world's calls. Times are in ns.

ghost use Rattle.std.specs.Prelude.{◌≡◌, pos, IfOk, IfSome, OnOk};
ghost use Rattle.gptp_scaled.specs.Counts.{AreWithin};
ghost use Rattle.gptp_network_tests.specs.Pair.{HasBegunWith, IsPairWithin, stamped_params};

use crate::drawn::{AWAITS, PARAMS, begun_with, receive};
use gptp_links::Fate;
use gptp_scaled::ScaledNs;
use gptp_world::{NetworkFault, Params, World};
use std::alloc::Global;

/// What both systems have: time stamps of 8 ns, off by up to 4 ns besides. Two of a clock are off by 16 ns together.
fn stamped() -> Params
    ensures { result ≡ stamped_params 8 4 }
{
    Params {
        granularity: 8,
        noise: 4,
        ..PARAMS
    }
}

/// Their world goes on until it awaits a Sync.
fn go_on<F: Fate + Drop>(world: &mut World<F>) -> Result<(), NetworkFault>
    requires { HasBegunWith (stamped_params 8 4) F.answers world.old.fate world.old.world_core }
    ensures { OnOk result (IsPairWithin 2097811 27000000000 world.new.world_core) }
{
    match world.advance(AWAITS) {
        Ok(()) => Ok(()),
        Err(_) => Err(NetworkFault::OutOfMemory),
    }
}

/// The offset of the second by the first two acts after 27.125 s: it hears a Sync, and then the Follow_Up. As both
/// clocks show the same, it is no more than what such time stamps make of one link, 32.011 ns. Refused for want of
/// memory alone.
pub fn stamped_in_time<F: Fate + Drop>(
    alloc: Global,
    fate: F,
) -> Result<Option<ScaledNs>, NetworkFault>
    ensures { IfOk result (λ received. IfSome received (λ offset. AreWithin 2097811 offset (pos 0))) }
{
    let mut world = begun_with(alloc, fate, stamped())?;
    go_on(&mut world)?;
    let _by_sync = receive(&mut world)?;
    receive(&mut world)
}
