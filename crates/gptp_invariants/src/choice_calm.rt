//! Laws on what stands in a world, and on calm worlds.

ghost use Rattle.gptp_invariants.specs.ChoiceCalmLaws.{ActsKeepNetwork, ActsStayQuiet, TimeKeepsNetwork, TimeStaysQuiet};
ghost use Rattle.gptp_invariants.specs.ChoiceCalmLaws.{HasFacts, HasNetwork, IsCalmState};
ghost use Rattle.gptp_invariants.specs.WorldStandingLaws.{ActsKeepLastChange, ActsKeepSnapshot, StandsWell, TimeKeepsSnapshot};
ghost use Rattle.gptp_invariants.specs.WorldStandingLaws.{ActsStayBetween, TimeStaysBetween};
ghost use Rattle.gptp_invariants.specs.WorldStandingLaws.{NetworksAreBetween, StartsStayBetween};

/// In the world that a network makes each link joins ports of two systems. It stays so as the systems start, with every
/// act, and as time passes.
pub fn links_are_between()
    ensures networks { NetworksAreBetween }
    ensures starts { StartsStayBetween }
    ensures acts { ActsStayBetween }
    ensures time { TimeStaysBetween }
{}

/// The snapshot of a sound and encodable world whose links join ports of two systems is well formed: clocks differ, an
/// identity holds its system's clock, a link ends at ports that exist, a port has one link at most, and no system is
/// linked with itself.
pub fn stands_well()
    ensures { StandsWell }
{}

/// A delivery, an expiry and time that passes leave the snapshot of a world as it is. No delivery or expiry is the last
/// change.
pub fn snapshot_is_kept()
    ensures acts { ActsKeepSnapshot }
    ensures time { TimeKeepsSnapshot }
    ensures last { ActsKeepLastChange }
{}

/// A sound, encodable and known world has a network of the machine: its snapshot is well formed, and a step of distance
/// takes as long as the wait for a Sync and, from an Announce to the arrival of the next over a link, the announce
/// interval and the delay. The facts that the machine has of each of its states hold of the view of every sound and
/// known world, quiet or not.
pub fn worlds_have_networks()
    ensures network { HasNetwork }
    ensures facts { HasFacts }
{}

/// A sound, encodable and known world is a calm state of the machine, where each link that is up between two live
/// systems is quiet, a start is at least one announce interval after the last change, and from that start on the ports
/// of live systems are disabled exactly where no such link is at them.
pub fn worlds_are_calm()
    ensures { IsCalmState }
{}

/// A delivery, an expiry and time that passes leave a world its network, and leave it quiet.
pub fn network_is_kept()
    ensures acts { ActsKeepNetwork }
    ensures time { TimeKeepsNetwork }
    ensures quiet { ActsStayQuiet }
    ensures quiet_later { TimeStaysQuiet }
{}
