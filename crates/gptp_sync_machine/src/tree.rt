//! Laws on the ways of a settled network.

ghost use Rattle.gptp_sync_machine.specs.TreeLaws.{ParentsAreMeasured, ParentsAreParents, WayEndsAtParent, WayExists};
ghost use Rattle.gptp_sync_machine.specs.TreeLaws.{WayIsOne, WayLeadsTo, WaysAreSettings};

/// Each system with a distance has a way, over its parents, as long as the distance is.
pub fn way_exists()
    ensures { WayExists }
{}

/// It has one way alone.
pub fn way_is_one()
    ensures { WayIsOne }
{}

/// The way to a system leads from the best of its component, by the clocks of both.
pub fn way_leads_to()
    ensures { WayLeadsTo }
{}

/// The last link of the way to a system is that to its parent, whose clock is the one before it.
pub fn way_ends_at_parent()
    ensures { WayEndsAtParent }
{}

/// A system on its way is what the laws of followers ask for.
pub fn ways_are_settings()
    ensures { WaysAreSettings }
{}

/// Parents in the settled choice are parents of followers.
pub fn parents_are_parents()
    ensures { ParentsAreParents }
{}

/// A system that measures its link to its parent measures the last link of its way.
pub fn parents_are_measured()
    ensures { ParentsAreMeasured }
{}
