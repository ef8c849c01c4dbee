//! The whole way of a Sync.

ghost use Rattle.std.specs.Prelude.{◌≡◌, OkIff};
ghost use Rattle.gptp_correction.specs.Carry.{carry_of, CarryFits};

use crate::correction::{Carried, Hop};
use gptp_scaled::{Interval, OutOfRange, Rate, ScaledNs};

/// When a Sync that left the grandmaster at `origin`, by the grandmaster's clock, came to the last of these
/// systems, by the same clock: every hop but the last is a bridge, which relays it, and the last is a slave,
/// whose egress isn't read. Without a hop it is the origin.
pub fn carry(origin: ScaledNs, hops: &[Hop]) -> Result<ScaledNs, OutOfRange>
    ensures { OkIff result (CarryFits origin hops.now) (carry_of origin hops.now) }
{
    let [bridges @ .., slave] = hops else {
        return Ok(origin);
    };
    let mut carried = Carried {
        correction: Interval::new(0),
        rate: Rate::new(0),
    };
    for bridge in bridges {
        carried = carried.on(bridge)?;
    }
    carried.receipt(origin, slave.delay, slave.neighbour)
}
