//! Laws on the acts of a world, seen at a port whose link's other end has failed.

ghost use Rattle.gptp_invariants.specs.FailedUnansweredLaws.{SilentActsAreActs, SilentDeliveriesAreActs, SilentExpiriesAreActs, SilentTimePasses};
ghost use Rattle.gptp_invariants.specs.FailedUnansweredLaws.{SilentAskersHear, SilentRequestTimersAsk};

/// Time that passes in a world passes at the port, and nothing else happens there.
pub fn time_passes()
    ensures { SilentTimePasses }
{}

/// An expiry of any timer of any system is one act: the port asks in vain, or its measuring stays.
pub fn expiries_are_acts()
    ensures { SilentExpiriesAreActs }
{}

/// A delivery on any link is one act: the port hears an old frame, or its measuring stays.
pub fn deliveries_are_acts()
    ensures { SilentDeliveriesAreActs }
{}

/// Every act of a world but a change is one act at the port, and leaves its link as it stands, with the same setting.
/// No frame comes onto the link from the failed end.
pub fn acts_are_acts()
    ensures { SilentActsAreActs }
{}

/// The Pdelay timer of the port is that of the machine: the open request is given up, and the next one sent in vain.
pub fn own_timer_asks()
    ensures { SilentRequestTimersAsk }
{}

/// A frame that is delivered to the port was in flight before: hearing it sends no request, and loses none.
pub fn old_frames_are_heard()
    ensures { SilentAskersHear }
{}
