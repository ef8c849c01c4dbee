//! Laws on when what is pending at a link is due.

ghost use Rattle.gptp_invariants.specs.DelayLinkLaws.{FactsBegin, LinksAreFresh, NothingIsLate};

/// Nothing at a link is due before anything is that is pending in the world.
pub fn nothing_is_late()
    ensures { NothingIsLate }
{}

/// Where what is in flight on a link is due by some time, the facts of the machine hold, with that time as the one at
/// which old frames are gone.
pub fn facts_begin()
    ensures { FactsBegin }
{}

/// After a change a link is fresh, where the time by which what is in flight there is due isn't past: the last request
/// was sent by now, and what waits is answered within the turnaround.
pub fn links_are_fresh()
    ensures { LinksAreFresh }
{}
