//! Laws on where the machine is seen.

ghost use Rattle.gptp_invariants.specs.FailedUnansweredLaws.{PortsAreSeen, TimersAreKnown};

/// In a sound world whose ports measure, the machine is seen wherever a live station and one that has failed stand at
/// a link that is up.
pub fn ports_are_seen()
    ensures { PortsAreSeen }
{}

/// In a sound and known world the last request isn't in the future, and the next one isn't late.
pub fn timers_are_known()
    ensures { TimersAreKnown }
{}
