//! Laws on a port whose link's other end has failed, from the last change on.

ghost use Rattle.gptp_invariants.specs.FailedUnansweredLaws.{PortsBecomeIncapable, SilenceBegins, SilenceGoesOn, SilenceIsKept};
ghost use Rattle.gptp_invariants.specs.FailedUnansweredLaws.{ActsLeaveSilent, AreSilentAtFirst, AreSilentLater};
ghost use Rattle.gptp_invariants.specs.FailedUnansweredLaws.{NoneStandsAnew, SilentPortsBecomeIncapable};

/// Just after a change old frames are gone one announce interval later, and the invariant of the machine holds.
pub fn silence_begins()
    ensures { SilenceBegins }
{}

/// Every act but a change keeps this, and so does time that passes.
pub fn silence_goes_on()
    ensures acts { SilenceIsKept }
    ensures later { SilenceGoesOn }
{}

/// Where ports ask at least as often as they announce, a port whose link's other end has failed isn't capable from L +
/// 5 announce intervals after the last change on. L is the number of requests that may be lost.
pub fn ports_become_incapable()
    ensures { PortsBecomeIncapable }
{}

/// Where such stations stand at a link after an act that is no change, they stood so before it.
pub fn none_stands_anew()
    ensures { NoneStandsAnew }
{}

/// Just after a change this is claimed wherever a live and a failed station stand at a link that is up.
pub fn silent_at_first()
    ensures { AreSilentAtFirst }
{}

/// Every act but a change keeps this claim, and so does time that passes.
pub fn silent_later()
    ensures acts { ActsLeaveSilent }
    ensures later { AreSilentLater }
{}

/// Where ports ask at least as often as they announce, no port at all of a live system whose link's other end has
/// failed is capable from L + 5 announce intervals after the last change on. L is the number of requests that may be
/// lost.
pub fn silent_ports_become_incapable()
    ensures { SilentPortsBecomeIncapable }
{}
