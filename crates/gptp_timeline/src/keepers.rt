//! Who keeps time, and whose.

ghost use Rattle.std.specs.Prelude.{◌≡◌, IfOk, OnOk};
ghost use Rattle.gptp_timeline.specs.Keepers.{keeper_of, keepers_among, with_keeper};

use crate::counts::goes_without;
use crate::shown::Shown;
use crate::watched::Watched;
use gptp_vector::{ClockId, Identity};
use std::alloc::{AllocError, Global};

/// A live system that has time, and the root that it follows.
#[derive(Clone, Copy, Debug)]
pub struct Keeper {
    /// Its clock.
    pub clock: ClockId,
    /// The root.
    pub root: Identity,
}

/// A system as one that keeps time, if it does.
fn keeper_of(clock: ClockId, shown: &Option<Shown>) -> Option<Keeper>
    ensures { result ≡ keeper_of clock shown.now }
{
    match shown {
        Some(shown) => {
            if goes_without(shown) {
                None
            } else {
                Some(Keeper {
                    clock,
                    root: shown.root,
                })
            }
        }
        None => None,
    }
}

/// Puts a system after others, if it keeps time.
fn push_keeper(keepers: &mut Vec<Keeper>, system: &Watched) -> Result<(), AllocError>
    ensures { OnOk result (keepers.new.items ≡ with_keeper system.now keepers.old.items) }
{
    if let Some(keeper) = keeper_of(system.clock, &system.shown) {
        keepers.push(keeper)?;
    }
    Ok(())
}

/// The systems that keep time, by rising clock.
pub(crate) fn keepers_of(alloc: Global, systems: &[Watched]) -> Result<Vec<Keeper>, AllocError>
    ensures { IfOk result (λ v. v.items ≡ keepers_among systems.now) }
{
    let mut keepers = Vec::new(alloc);
    for system in systems {
        push_keeper(&mut keepers, system)?;
    }
    Ok(keepers)
}
