//! Laws on what a snapshot has once.

ghost use Rattle.gptp_graph.specs.ExistenceLaws.{BestExistsOnce, DistanceExistsOnce, ParentExistsOnce};
ghost use Rattle.gptp_graph.specs.ExistenceLaws.{BestHasNoParent, RoleExistsOnce};
ghost use Rattle.gptp_graph.specs.ExistenceLaws.{ChoiceExistsOnce, ChoicesHaveTheSameLines};

/// Every system's component has one best system.
pub fn best_exists()
    ensures { BestExistsOnce }
{}

/// Every system has one distance.
pub fn distance_exists()
    ensures { DistanceExistsOnce }
{}

/// Every system but the best of its component has one parent, and the best has none.
pub fn parent_exists()
    ensures others { ParentExistsOnce }
    ensures best { BestHasNoParent }
{}

/// Every port of a system has one settled role.
pub fn role_exists()
    ensures { RoleExistsOnce }
{}

/// There is one settled choice whose lines stand by rising clock, and every other has the same lines.
pub fn choice_exists()
    ensures by_clock { ChoiceExistsOnce }
    ensures lines { ChoicesHaveTheSameLines }
{}
