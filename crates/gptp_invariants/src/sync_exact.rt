//! The law on how exact offsets are, in words that name systems by their clocks alone.

ghost use Rattle.gptp_invariants.specs.SyncTimedClaimLaws.{ReceiptsAreExact};

use gptp_links::Fate;

/// In every world of a network each Follow_Up that a near system uses leaves an exact offset, once the world has been
/// calm for the settling span and for as long as a Sync takes down the way of the system.
pub fn receipts_are_exact<F: Fate>()
    ensures { ReceiptsAreExact F.answers }
{}
