//! By when two end stations and networks of bridges have settled after events, and offsets are exact, by number: calls
//! for each row by which times are bounded, as functions whose contracts follow from laws. Times are in ns.
//!
//! Each clause has the choice, the roles, and from when on offsets are exact, as they were counted by hand. A frame
//! takes 390 to 410 ns. What a failed system told counts for three announce intervals and a delay, and ports beside it
//! are capable for 11 s at most: a peer delay interval for each of the nine responses that may be lost, and two more.

ghost use Rattle.std.specs.Prelude.{[], ◌∷◌};
ghost use Rattle.gptp_scenario.specs.declared.change.Change.TheVariants.{Fail, LinkDown, LinkSet, LinkUp, Priority1, Recover};
ghost use Rattle.gptp_network_tests.specs.Bounds.{KeepsAfter, KeepsAgain, KeepsAtStart, RunsKeep, ToldIsKept, changed_again, lapsing, line, long_ring, ring, star, triangle, wheel};
ghost use Rattle.gptp_network_tests.specs.Pair.{pair_network};

use gptp_how_soon_laws::{chooses_soon, exact_soon, settled_soon};
use gptp_links::Fate;

/// Each run of a document keeps the bounds that are told of its times.
pub fn told_is_kept<F: Fate>()
    ensures { ToldIsKept F.answers }
{
    chooses_soon::<F>();
    settled_soon::<F>();
    exact_soon::<F>();
}

/// Two end stations, over a link of 500 ns: as they begin, also where the second gets a better priority1 then; where it
/// does later; and where their link goes down, and comes up again.
pub fn pairs_settle_soon<F: Fate>()
    ensures begin { KeepsAtStart F.answers pair_network [] 1000002500 1000002500 1000006100 }
    ensures early { KeepsAtStart F.answers pair_network (Priority1 2 245 ∷ []) 1000002500 1000002500 1000006100 }
    ensures better { KeepsAfter F.answers pair_network (Priority1 2 245 ∷ []) 500 500 4100 }
    ensures down { KeepsAfter F.answers pair_network (LinkDown 1 1 ∷ []) 0 0 3600 }
    ensures up { KeepsAgain F.answers pair_network (LinkDown 1 1) (LinkUp 1 1) 1000002500 1000002500 1000006100 }
{
    told_is_kept::<F>();
}

/// A ring as it begins, also where Sync has to come in time, so that the span stands; where a link comes up again from
/// rest, and 2 s after it went down, which is no rest; where a system recovers, and where one gets a better priority1,
/// also as a link goes down.
pub fn gains_settle_soon<F: Fate>()
    ensures begin { KeepsAtStart F.answers ring [] 1000003050 1000003050 1000010250 }
    ensures in_time { KeepsAtStart F.answers (lapsing ring) [] 38000000000 38000000000 38000007200 }
    ensures up { KeepsAgain F.answers ring (LinkDown 0xb 2) (LinkUp 0xb 2) 1000003050 1000003050 1000010250 }
    ensures up_early { RunsKeep F.answers (changed_again ring (LinkDown 0xb 2) 32000000000 (LinkUp 0xb 2)) 32000000000
        15000002870 15000002870 47000010070 }
    ensures recovered { KeepsAgain F.answers ring (Fail 0xc) (Recover 0xc) 3000003050 3000003050 3000010250 }
    ensures better { KeepsAfter F.answers ring (Priority1 0xc 1 ∷ []) 1230 1230 8430 }
    ensures better_beside { KeepsAfter F.answers ring (LinkDown 0xb 2 ∷ Priority1 0xc 1 ∷ []) 15000002870 15000002870
        15000010070 }
{
    told_is_kept::<F>();
}

/// What stands in a ring stays where a link comes up that is up, where a system gets worse that is nobody's best, and
/// where a link gets wider, which is measured anew then.
pub fn rings_stay_settled<F: Fate>()
    ensures idle { KeepsAfter F.answers ring (LinkUp 0xa 1 ∷ []) 0 0 7200 }
    ensures worse { KeepsAfter F.answers ring (Priority1 0xc 250 ∷ []) 0 0 7200 }
    ensures wider { KeepsAfter F.answers ring (LinkSet 0xa 1 380 500 0 ∷ []) 0 0 2000009200 }
{
    told_is_kept::<F>();
}

/// One link goes down: no system is moved, a far end is cut off, one system turns, a tree falls off or turns, or a
/// triangle is moved, which is no tree. Or the best of a line gets worse than all others, which so falls back.
pub fn lost_links_settle_soon<F: Fate>()
    ensures none_moved { KeepsAfter F.answers ring (LinkDown 0xb 2 ∷ []) 0 0 7200 }
    ensures cut_off { KeepsAfter F.answers star (LinkDown 0xa 1 ∷ []) 1640 1640 7040 }
    ensures turns { KeepsAfter F.answers ring (LinkDown 0xa 1 ∷ []) 2460 2460 9660 }
    ensures falls { KeepsAfter F.answers line (LinkDown 0xa 1 ∷ []) 1640 1640 7040 }
    ensures tree_turns { KeepsAfter F.answers long_ring (LinkDown 0xa 1 ∷ []) 4100 4100 14900 }
    ensures other { KeepsAfter F.answers triangle (LinkDown 0xa 1 ∷ []) 16000003690 16000003690 16000012690 }
    ensures best_worse { KeepsAfter F.answers line (Priority1 0xa 250 ∷ []) 2460 2460 9660 }
{
    told_is_kept::<F>();
}

/// One system hangs: a far end, also where it gets another priority1 then; one that another hears, also where it cuts
/// off an end; one that cuts off a line; the best in the middle of others. One hangs so that another turns and an end is
/// cut off, and one so that a tree with two tops is, alone or beside an end. Or a far end, or the best of a ring, loses
/// its power: both its links go down as it fails.
pub fn lost_systems_settle_soon<F: Fate>()
    ensures far_end { KeepsAfter F.answers ring (Fail 0xc ∷ []) 0 11000000000 5400 }
    ensures far_end_set { KeepsAfter F.answers ring (Fail 0xc ∷ Priority1 0xc 1 ∷ []) 0 11000000000 5400 }
    ensures heard { KeepsAfter F.answers ring (Fail 0xb ∷ []) 3000000410 11000000000 3000005810 }
    ensures heard_and_cuts { KeepsAfter F.answers wheel (Fail 0xb ∷ []) 3000002870 11000000000 3000010070 }
    ensures cuts_off { KeepsAfter F.answers line (Fail 0xb ∷ []) 3000001230 11000000000 3000004830 }
    ensures leaves_alone { KeepsAfter F.answers star (Fail 0xa ∷ []) 3000000410 11000000000 3000004010 }
    ensures turns_and_cuts { KeepsAfter F.answers long_ring (Fail 0xb ∷ []) 3000002870 11000000000 3000010070 }
    ensures two_tops { KeepsAfter F.answers ring (Fail 0xa ∷ []) 3000002050 11000000000 3000007450 }
    ensures two_tops_and_cuts { KeepsAfter F.answers triangle (Fail 0xb ∷ []) 3000001230 11000000000 3000004830 }
    ensures far_end_off { KeepsAfter F.answers ring (Fail 0xc ∷ LinkDown 0xc 1 ∷ LinkDown 0xc 2 ∷ []) 0 0 5400 }
    ensures best_off { KeepsAfter F.answers ring (Fail 0xa ∷ LinkDown 0xa 1 ∷ LinkDown 0xa 2 ∷ []) 1640 1640 7040 }
{
    told_is_kept::<F>();
}

/// Several are lost at once: two links so that no system is moved, two far ends that hang, and two links so that one
/// system is moved.
pub fn several_losses_settle_soon<F: Fate>()
    ensures none_moved { KeepsAfter F.answers wheel (LinkDown 0xb 2 ∷ LinkDown 0xd 2 ∷ []) 0 0 7200 }
    ensures far_ends { KeepsAfter F.answers star (Fail 0xc ∷ Fail 0xd ∷ []) 0 11000000000 3600 }
    ensures one_moved { KeepsAfter F.answers wheel (LinkDown 0xa 2 ∷ LinkDown 0xd 2 ∷ []) 13000002870 13000002870
        13000010070 }
{
    told_is_kept::<F>();
}
