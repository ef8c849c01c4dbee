//! How exact the carried time is. Each function does nothing, and its contract is the law.

ghost use Rattle.gptp_error_laws.specs.HopLaws.{HopKeeps, LinkTimeIsAbove, LinkTimeIsBelow};
ghost use Rattle.gptp_error_laws.specs.HopLaws.{OffsetIsWithin, StayIsAbove, StayIsBelow};
ghost use Rattle.gptp_error_laws.specs.WayLaws.{CarryIsWithin, CutsAreNoMore, OffsetOfWayIsWithin};
ghost use Rattle.gptp_error_laws.specs.WayLaws.{ParentsErrorStays, TimeErrorGoesByHops};

/// The time that a Sync was on a link, at the root's rate, isn't above what the root's clock counts in the greatest
/// delay, but for the error of the rate from above and the rounding.
pub fn link_time_is_below()
    ensures { LinkTimeIsBelow }
{}

/// It isn't below what the root's clock counts in the least delay, but for the same.
pub fn link_time_is_above()
    ensures { LinkTimeIsAbove }
{}

/// The time that a bridge keeps a Sync, at the root's rate, isn't above what the root's clock counts, but for the error
/// of the rate and the rounding.
pub fn stay_is_below()
    ensures { StayIsBelow }
{}

/// It isn't below it, but for the same.
pub fn stay_is_above()
    ensures { StayIsAbove }
{}

/// What a bridge adds to the correctionField is what passes on the root's clock from the neighbour's egress to its own:
/// within the link's part of the time error, and within the errors of the two rates times the delay and the stay.
pub fn hop_keeps()
    ensures { HopKeeps }
{}

/// What a system reads from a Sync and its Follow_Up, with what its own clock counts until the Follow_Up, is the root's
/// time then: within the link's part of the time error, and within the error of the rate from above times the delay.
pub fn offset_is_within()
    ensures { OffsetIsWithin }
{}

/// The time error of a system is that of its parent, what its own link adds, and what the parent's wait adds.
pub fn time_error_goes_by_hops()
    ensures { TimeErrorGoesByHops }
{}

/// The limits of the rates make no time error larger: those of a neighbour rate, which is held at 200 parts in a
/// million, and of a rate that is told, which has 32 bits.
pub fn cuts_are_no_more()
    ensures { CutsAreNoMore }
{}

/// Where a way goes on after its last system, the time errors of the systems on it stay as they are.
pub fn parents_error_stays()
    ensures { ParentsErrorStays }
{}

/// The time that is carried over a whole way, from the root over any number of bridges, is within the time error of the
/// root's clock as the Sync comes to the last system: whatever the phases of the clocks, their drifts within 100 parts
/// in a million, the delays within the bounds of each link, what each reading of a clock is off, and the exchanges by
/// which each port has measured its link. `carry_keeps_time` of gptp_correction is the case without jitter, drift and
/// rounding.
pub fn carry_is_within()
    ensures { CarryIsWithin }
{}

/// The offset that the last system computes at the Follow_Up is within the time error of what its clock shows then less
/// what the root's clock does.
pub fn offset_of_way_is_within()
    ensures { OffsetOfWayIsWithin }
{}
