//! Laws on the rule by which a certificate's writer tells the far systems.

ghost use Rattle.gptp_graph.specs.MarkingLaws.{FarIsDistant, FarStepsAreDistance, LowestRootIsBests};

/// Where what the systems state is bounded as in a settled network, the systems marked far are those 255 or more
/// steps from their best.
pub fn far_is_distant()
    ensures { FarIsDistant }
{}

/// There the steps that a far system is given are its distance.
pub fn far_steps_are_distance()
    ensures { FarStepsAreDistance }
{}

/// There the lowest root stated in a component is the identity of its best.
pub fn lowest_root_is_bests()
    ensures { LowestRootIsBests }
{}
