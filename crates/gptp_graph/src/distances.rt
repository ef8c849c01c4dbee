//! Laws on paths and distances.

ghost use Rattle.gptp_graph.specs.DistanceLaws.{DifferentAreBounded, PathsAreBounded, DistancesAreBounded};
ghost use Rattle.gptp_graph.specs.DistanceLaws.{NeighboursDifferByOne, NearerNeighbourExists};
ghost use Rattle.gptp_graph.specs.DistanceLaws.{RoutesAreNoShorter, RoutesFromBestAreNoShorter};

/// In a snapshot of n systems no list of different systems has more than n members, no path is of length n or more,
/// and no distance is n or more.
pub fn distances_bounded()
    ensures members { DifferentAreBounded }
    ensures paths { PathsAreBounded }
    ensures distances { DistancesAreBounded }
{}

/// Over a link the distances differ by one at most.
pub fn neighbours_differ_by_one()
    ensures { NeighboursDifferByOne }
{}

/// A system of distance d + 1 has a neighbour of distance d.
pub fn nearer_neighbour_exists()
    ensures { NearerNeighbourExists }
{}

/// A route from any system to another, as a path trace names it, has at least the length of the shortest path between
/// them, also where it comes to a system again. So a route from the best is no shorter than the distance.
pub fn routes_no_shorter()
    ensures any { RoutesAreNoShorter }
    ensures best { RoutesFromBestAreNoShorter }
{}
