//! What follows from the definitions alone. Each function does nothing, and its contract is the law.

ghost use Rattle.gptp_correction.specs.CarryLaws.{CarryGoesByHops, CarryKeepsTime};

/// The sum over all hops is what `relay` at each bridge and `receipt_time` at the slave make of it.
#[tactic(auto, using(crate::proofs::CarryLawProofs::carry_goes_by_hops))]
pub fn carry_goes_by_hops()
    ensures { CarryGoesByHops }
{}

/// Where every link's delay and every bridge's residence are right by the grandmaster's clock and no clock
/// is faster than another, the grandmaster's clock at its egress is carried to that clock at the slave's
/// ingress, over any number of bridges, whatever their own clocks show.
pub fn carry_keeps_time()
    ensures { CarryKeepsTime }
{}
