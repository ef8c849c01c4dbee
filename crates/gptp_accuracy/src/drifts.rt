//! The drifts of clocks.

ghost use Rattle.std.specs.Prelude.{◌≡◌, IfNone, IfSome, Some, slice_get};
ghost use Rattle.gptp_lists.specs.Members.{In};
ghost use Rattle.gptp_roles.specs.Selection.{clock_of};
ghost use Rattle.gptp_scenario.specs.declared.network.SystemSpec.{SystemSpec};
ghost use Rattle.gptp_accuracy.specs.Ways.{HasDrift};

use gptp_scenario::Network;
use gptp_vector::ClockId;

/// The drift of the system at a place, from 0, where that has a clock.
fn drift_if_of(network: &Network, clock: ClockId, place: usize) -> Option<i32>
    ensures some { IfSome result (HasDrift network.now clock) }
    ensures none { IfNone result ((m : SystemSpec) → slice_get network.now.systems place ≡ Some m
        → clock_of m.identity ≡ clock → ⊥) }
{
    network.well_formed();
    let (identity, _, _, drift, _) = network.system_at(place)?;
    if identity.clock() == clock {
        return Some(drift);
    }
    None
}

/// The drift of the system with a clock, in units of 2^-41; 0 where there is none.
pub(crate) fn drift_of(network: &Network, clock: ClockId) -> i32
    ensures { (m : SystemSpec) → In m network.now.systems → clock_of m.identity ≡ clock
        → HasDrift network.now clock result }
{
    for place in 0..network.systems() {
        if let Some(drift) = drift_if_of(network, clock, place) {
            return drift;
        }
    }
    0
}
