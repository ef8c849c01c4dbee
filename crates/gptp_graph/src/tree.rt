//! Laws on the tree that slave ports form.

ghost use Rattle.gptp_graph.specs.TreeLaws.{ParentsLeadToBest, ParentIsMaster};
ghost use Rattle.gptp_graph.specs.TreeLaws.{SlavePortExistsOnce, BestHasNoSlavePort};

/// Following parents leads to the best system in as many steps as the distance says.
pub fn parents_lead_to_best()
    ensures { ParentsLeadToBest }
{}

/// Every system but the best of its component has one slave port, and the best has none.
pub fn one_slave_port()
    ensures others { SlavePortExistsOnce }
    ensures best { BestHasNoSlavePort }
{}

/// The own port of a parent is a slave port, and the port at the other end of its link a master port.
pub fn parent_is_master()
    ensures { ParentIsMaster }
{}
