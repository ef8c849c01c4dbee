//! Laws on what every world of a network keeps.

ghost use Rattle.gptp_invariants.specs.WorldSettlingInvariantLaws.{ClaimBegins, ClaimIsCapable, ClaimKept, ClaimLater};
ghost use Rattle.gptp_invariants.specs.WorldSettlingInvariantLaws.{ClaimedBegins, ClaimedKept, ClaimedLater};
ghost use Rattle.gptp_invariants.specs.WorldSettlingInvariantLaws.{ClaimedCapable, SettledIsCapable, SettledIsCapableByPaths};
ghost use Rattle.gptp_invariants.specs.WorldSettlingInvariantLaws.{CalmWithoutTimeout, ClaimedSettled, ClaimedSettledByNeighbours};
ghost use Rattle.gptp_invariants.specs.WorldSettlingInvariantLaws.{ClaimedSettledAtOnce, ClaimedSettledByPaths};
ghost use Rattle.gptp_invariants.specs.WorldShownLaws.{RolesAreEnabled, RolesSettle, SystemsAreCapable, SystemsSettle};
ghost use Rattle.gptp_invariants.specs.WorldShownLaws.{RolesSettleByDistance, RolesSettleByPaths};
ghost use Rattle.gptp_invariants.specs.WorldShownLaws.{RolesSettleAtOnce, SystemsSettleAtOnce};
ghost use Rattle.gptp_invariants.specs.WorldShownLaws.{SystemsSettleByDistance, SystemsSettleByPaths};
ghost use Rattle.gptp_invariants.specs.ChoiceTraceLaws.{FramesBecomeClean, HeldBecomesClean, HeldBecomesWholeSooner, TracesBecomeClean};
ghost use Rattle.gptp_invariants.specs.ChoiceTraceLaws.{HeldBecomesWhole, HeldIsNoBetter};
ghost use Rattle.gptp_invariants.specs.WorldTreeLaws.{SettledIsTree};

use gptp_links::Fate;

/// The claim holds of the world of a network as it begins, with its parameters and its largest announce interval.
pub fn claim_begins<F: Fate>()
    ensures { ClaimBegins F.answers }
{}

/// Every act that keeps the limits keeps it, a change included, whatever is drawn for its frames; and so does time that
/// passes. Where the links in use are quiet it says from the start on which ports are disabled.
pub fn claim_is_kept<F: Fate>()
    ensures done { ClaimKept F.answers }
    ensures time { ClaimLater }
    ensures capable { ClaimIsCapable }
{}

/// The claim holds of the world of a network as it begins, with some parameters.
pub fn claimed_begins<F: Fate>()
    ensures { ClaimedBegins F.answers }
{}

/// Every act keeps the claim with some parameters, where it sets a link to no delay above the announce interval of any
/// port. So does time that passes.
pub fn claimed_is_kept<F: Fate>()
    ensures done { ClaimedKept F.answers }
    ensures time { ClaimedLater }
{}

/// Where a world of which it holds has been calm for L + 5 announce intervals, L being how many requests may be lost,
/// each port of a live system is capable exactly where a link of the snapshot is at it, and Disabled exactly where it
/// isn't. It has been for as long where it has been for the settling span of its live systems, or of however many.
pub fn ports_settle()
    ensures ports { ClaimedCapable }
    ensures sooner { SettledIsCapable }
    ensures by_paths { SettledIsCapableByPaths }
{}

/// Where such a world has been calm for the settling span of its live systems, it has settled: each near live system
/// has the identity of its component's best as its root and its distance as its steps, it follows its parent over its
/// slave port, and each of its ports has its settled role. So it has where it has been calm for the settling span of m
/// systems, and no path of its snapshot has more; and so for the number that gptp_graph reads off the links, two and
/// those that have two neighbours.
///
/// The network may have a syncReceiptTimeout: calm asks then that a settled system waits for Sync for less, and the
/// span is longer by what a step of distance takes longer. Without one a world is calm by its links alone, and the span
/// is that of its systems alone; and a sharper one holds too, whose steps of distance each take but the greatest delay.
pub fn worlds_settle()
    ensures systems { ClaimedSettled }
    ensures by_paths { ClaimedSettledByPaths }
    ensures neighbours { ClaimedSettledByNeighbours }
    ensures without_timeout { CalmWithoutTimeout }
    ensures at_once { ClaimedSettledAtOnce }
{}

/// A settled world is a tree: each near system other than its component's best hangs on one that is one step nearer, by
/// its one slave port and a master port there.
pub fn settled_worlds_are_trees()
    ensures { SettledIsTree }
{}

/// What the calls of such a world show is capable and settled in time: by how many systems live, by how many a path has
/// at most, sooner by that where nothing lapses, and of each system by its distance.
pub fn calls_show_it()
    ensures capable { SystemsAreCapable }
    ensures enabled { RolesAreEnabled }
    ensures choice { SystemsSettle }
    ensures roles { RolesSettle }
    ensures choice_by_paths { SystemsSettleByPaths }
    ensures roles_by_paths { RolesSettleByPaths }
    ensures choice_at_once { SystemsSettleAtOnce }
    ensures roles_at_once { RolesSettleAtOnce }
    ensures choice_by_distance { SystemsSettleByDistance }
    ensures roles_by_distance { RolesSettleByDistance }
{}

/// Traces in such a world become clean: those that systems announce, those that their ports hold, and those of frames
/// that reach a port. In the end all that is held is wholly clean; then it names no better root than the best's, and
/// for the best no fewer steps than its sender is away.
pub fn traces_become_clean<F: Fate>()
    ensures traces { TracesBecomeClean }
    ensures held { HeldBecomesClean }
    ensures whole { HeldBecomesWhole }
    ensures sooner { HeldBecomesWholeSooner }
    ensures no_better { HeldIsNoBetter }
    ensures frames { FramesBecomeClean F.answers }
{}
