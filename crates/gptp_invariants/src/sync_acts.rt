//! Laws on the Syncs and Follow_Ups that systems send and hear.

ghost use Rattle.gptp_invariants.specs.SyncLaws.{ActsTellSyncs, FollowUpsAreUsed, SyncsAreKept, TimersAreSeen};
ghost use Rattle.gptp_invariants.specs.SyncLaws.{KnowsAtStart, KnowsOn, LeadersTell, RelaysTell, TellsInPairs};

/// What a step sends at one port tells no time, or is a Sync and, directly after it, the Follow_Up of the same
/// sequenceId. Each Master port sends both where the Sync timer of a root expires that may be grandmaster; and where
/// the Relay timer expires, in a network that has a syncReceiptTimeout.
pub fn time_is_told_in_pairs()
    ensures pairs { TellsInPairs }
    ensures leaders { LeadersTell }
    ensures relays { RelaysTell }
{}

/// The time that a system knows has a timestamp, and in a network that has a syncReceiptTimeout it knows one while its
/// Relay timer runs; its Lapse timer runs only where its root may be grandmaster. So it is from its start on, by every
/// step.
pub fn known_time_is_kept()
    ensures start { KnowsAtStart }
    ensures steps { KnowsOn }
{}

/// A Sync from the port that a system follows is kept, and the Follow_Up of the one that is kept is used, where the
/// port is capable and the network has a syncReceiptTimeout: the Relay timer runs then, and the Lapse timer begins
/// anew.
pub fn syncs_are_heard()
    ensures kept { SyncsAreKept }
    ensures used { FollowUpsAreUsed }
{}

/// Every act of a world that changes nothing of the network is a step of the machine of `gptp_bmca_machine` by which
/// Syncs are told and heard, in a network that has a syncReceiptTimeout. In each of its states the Sync timer of a live
/// system is due within a sync interval, and its Relay timer within the residence time. Its Lapse timer runs only where
/// its root may be grandmaster.
pub fn acts_tell_syncs()
    ensures acts { ActsTellSyncs }
    ensures timers { TimersAreSeen }
{}
