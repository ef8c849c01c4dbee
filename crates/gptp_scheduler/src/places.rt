//! In which slot a time stands. The levels follow those of the wheel of the `futures` crate, with eight bits in place
//! of six.

ghost use Rattle.std.specs.Prelude.{◌≤◌};
ghost use Rattle.gptp_scheduler.specs.Places.{IsPlace};

use crate::slots::LEVELS_END;

/// How many bits of a time one level tells apart.
const LEVEL_BITS: usize = 8;

/// How many slots a level has.
pub(crate) const LEVEL_SLOTS: usize = 256;

/// The slot in which a time stands, from the lowest level up.
pub(crate) fn slot_of(base: u64, time: u64) -> usize
    ensures place { IsPlace base time result }
    ensures within { result ≤ LEVELS_END }
{
    if time < base {
        return LEVELS_END;
    }
    if time == base {
        return (time % 256) as usize;
    }
    let height = (base ^ time).ilog2() as usize / LEVEL_BITS;
    let octet = (time >> (height * LEVEL_BITS)) as usize % LEVEL_SLOTS;
    height * LEVEL_SLOTS + octet
}
