//! Laws on worlds that settle.

ghost use Rattle.gptp_invariants.specs.ChoiceSettledLaws.{ActsStayWorlds, DoneStaysWorld, TimeStaysWorld};
ghost use Rattle.gptp_invariants.specs.ChoiceSettledLaws.{HoldsAtFirst, HoldsBegins, HoldsChanged};
ghost use Rattle.gptp_invariants.specs.ChoiceSettledLaws.{HoldsDone, HoldsKept, HoldsLater, HoldsSettled, HoldsSettledByPaths};

use gptp_links::Fate;

/// A world is sound, encodable and known, and its links join ports of two systems. It stays so with every act that
/// keeps the limits, and as time passes for as long as it is sound, so from act to act, whatever is drawn for its
/// frames.
pub fn worlds_stay<F: Fate>()
    ensures acts { ActsStayWorlds }
    ensures time { TimeStaysWorld }
    ensures done { DoneStaysWorld F.answers }
{}

/// As long as ports have to become capable after the last change, the claim holds of a world, whatever its systems hold
/// and whatever is in flight. So it does after every change of the network, and as the world of a network begins.
pub fn claim_begins<F: Fate>()
    ensures early { HoldsBegins }
    ensures changes { HoldsChanged }
    ensures network { HoldsAtFirst F.answers }
{}

/// A delivery, an expiry and time that passes keep the claim, where with quiet links, from the start on, the ports of
/// live systems are disabled exactly where no link of the snapshot is at them. So it is kept from act to act, a change
/// included. In a network that has a syncReceiptTimeout nothing lapses then, as Syncs come down in time.
pub fn claim_is_kept<F: Fate>()
    ensures acts { HoldsKept }
    ensures time { HoldsLater }
    ensures done { HoldsDone F.answers }
{}

/// Where the claim holds of a quiet world, and the settling span of its live systems has passed from the last change,
/// the world has settled: each near live system has the identity of its component's best as its root and its distance
/// as its steps, it follows its parent over its slave port, and each of its ports has its settled role. So it has once
/// the span of n systems has passed, where it is quiet by a number m that no path of the snapshot exceeds, and n is no
/// less.
pub fn worlds_settle()
    ensures systems { HoldsSettled }
    ensures by_paths { HoldsSettledByPaths }
{}
