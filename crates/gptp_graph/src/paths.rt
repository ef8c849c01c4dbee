//! Laws on how many systems a path has at most.

ghost use Rattle.gptp_graph.specs.PathBoundLaws.{SystemsBoundPaths, NeighboursBoundPaths, NeighboursBoundIsLeast};
ghost use Rattle.gptp_graph.specs.PathBoundLaws.{BoundsDistances, JoinedAreAdjacent, TwoNeighboursDiffer};
ghost use Rattle.gptp_graph.specs.Star.{ExamplesAreBounded};

/// No path has more systems than there are, nor more than two and those that have two neighbours or more: all systems
/// of a path but its first and its last have two, the one before and the one after. What bounds the systems of paths
/// is above every distance.
pub fn paths_bounded()
    ensures systems { SystemsBoundPaths }
    ensures neighbours { NeighboursBoundPaths }
    ensures least { NeighboursBoundIsLeast }
    ensures distances { BoundsDistances }
{}

/// The tests by which those systems are counted say what they should: two systems are joined where a link is between
/// them, and a system has two neighbours where it is joined to two different systems.
pub fn neighbours_counted()
    ensures joined { JoinedAreAdjacent }
    ensures two { TwoNeighboursDiffer }
{}

/// No path over a bridge with four end stations has more than three systems, and none in a ring of four more than all
/// four.
pub fn star_is_bounded()
    ensures { ExamplesAreBounded }
{}
