//! Laws on the time that is carried in a settled world, as the machine of `gptp_sync_machine` follows it, and on
//! offsets.

ghost use Rattle.gptp_invariants.specs.SyncTimedLaws.{ActsCarryTime, ClaimedIsSettledFrom, DoneCarriesTime, MeasuredIsRight};
ghost use Rattle.gptp_invariants.specs.SyncTimedLaws.{OffsetsAreExact, OthersFollow, TimeBegins, TimeCarriesTime};

use gptp_links::Fate;

/// The world of a network of which all is claimed is settled, from a time on, as the other laws ask for, where its
/// links in use are quiet and its systems have settled. Each near live system that isn't the best of its component
/// follows its parent there, over a way as long as its distance; and what was measured of the link to the parent is
/// right where ports have measured the links in use.
pub fn settled_worlds_follow()
    ensures settled { ClaimedIsSettledFrom }
    ensures follow { OthersFollow }
    ensures measured { MeasuredIsRight }
{}

/// As the time comes from which the network is settled, the claim on the time that is carried begins: the invariant of
/// the machine holds of each system that follows. Every act that changes nothing of the network keeps it, where what
/// was measured of the links that are followed is right, and so does time that passes; so it is kept from act to act.
pub fn carried_time_is_kept<F: Fate>()
    ensures begins { TimeBegins }
    ensures acts { ActsCarryTime }
    ensures time { TimeCarriesTime }
    ensures done { DoneCarriesTime F.answers }
{}

/// Where a Follow_Up is used from when on what comes is right, the offset that it leaves is within the time error of
/// the way of the system of its clock less what its root tells.
pub fn offsets_are_exact()
    ensures { OffsetsAreExact }
{}
