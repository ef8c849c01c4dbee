//! Laws on what the systems of a world state of themselves, far ones too.

ghost use Rattle.gptp_invariants.specs.WorldBoundedLaws.{ClaimedBounded, ClaimedBoundedAtOnce, ClaimedBoundedByPaths};

/// Where a world of which the claim holds has been calm for the settling span of its live systems, none of them, near
/// or far, states a root below the identity of its component's best, nor that root over fewer steps than its distance;
/// where the distance is below 255, it states both. So it is where the world has been calm for the settling span of m
/// systems, and no path of its snapshot has more; and for the sharper span where nothing lapses.
pub fn worlds_are_bounded()
    ensures systems { ClaimedBounded }
    ensures by_paths { ClaimedBoundedByPaths }
    ensures at_once { ClaimedBoundedAtOnce }
{}
