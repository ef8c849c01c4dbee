//! How soon, sharply, a network that starts has settled.

ghost use Rattle.gptp_settling_time.specs.Starts.{DocumentsStartAtOnce, StartsSettleAtOnce};

use gptp_links::Fate;

/// A network that starts, and in which nothing is changed, is settled one peer delay interval, one exchange and 1 ns,
/// and the greatest delay for each system of a path but one, after time 0. That is so where nothing lapses for want of
/// Sync and the greatest delay of each link is below twice its least: a port is capable before its neighbour first
/// announces, so that no announce interval has to pass. So is the world of a document before its first event.
pub fn starts_settle_at_once<F: Fate>()
    ensures worlds { StartsSettleAtOnce F.answers }
    ensures documents { DocumentsStartAtOnce F.answers }
{}
