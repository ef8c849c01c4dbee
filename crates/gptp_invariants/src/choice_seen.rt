//! Laws on worlds, their views and their acts.

ghost use Rattle.gptp_invariants.specs.WorldEncodableLaws.{ActsStayEncodable, NetworksAreEncodable, OctetsSayWhatFits, StartsStayEncodable, TimeStaysEncodable};
ghost use Rattle.gptp_invariants.specs.ChoiceSeenLaws.{ActsAreSeen, DeliveriesAreSeen, ExpiriesAreSeen, LanesAreSeen, StationsAreSeen, TimeIsSeen};

/// A system stands in the view of a world where it stands in the world.
pub fn stations_are_seen()
    ensures { StationsAreSeen }
{}

/// The two lanes of a link stand in the view of a world at twice the place of the link, and one after.
pub fn lanes_are_seen()
    ensures { LanesAreSeen }
{}

/// Time that passes in a world is a moment that comes, for which the machine waits: nothing else changes.
pub fn time_is_seen()
    ensures { TimeIsSeen }
{}

/// In a sound and encodable world a timer that runs out is something that happens at a live system of the machine. It
/// is no Announce that is heard, and what a port received grows too old only once its span has passed.
pub fn expiries_are_seen()
    ensures { ExpiriesAreSeen }
{}

/// In a sound and encodable world the oldest frame of a lane leaves it when it is delivered. It arrives at the live
/// system at the lane's end, which hears as an Announce exactly what the octets say, or that system has failed.
pub fn deliveries_are_seen()
    ensures { DeliveriesAreSeen }
{}

/// Every act of a sound and encodable world that changes nothing of the network is an act of the machine.
pub fn acts_are_seen()
    ensures { ActsAreSeen }
{}

/// Octets say only Announces with roots of fourteen octets and paths of clocks.
pub fn octets_say_what_fits()
    ensures { OctetsSayWhatFits }
{}

/// The world that a network makes is encodable.
pub fn networks_are_encodable()
    ensures { NetworksAreEncodable }
{}

/// A start of its systems leaves a sound world encodable.
pub fn starts_stay_encodable()
    ensures { StartsStayEncodable }
{}

/// Every act leaves a sound world encodable, also one that changes the network, where a priority1 that it sets is an
/// octet.
pub fn acts_stay_encodable()
    ensures { ActsStayEncodable }
{}

/// Time that passes leaves a world encodable.
pub fn time_stays_encodable()
    ensures { TimeStaysEncodable }
{}
