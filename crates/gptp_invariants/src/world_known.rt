//! What is known of a world begins with it, is kept by every act and by time that passes, and says when all is due.

ghost use Rattle.gptp_invariants.specs.WorldKnownLaws.{ActsKnown, BeginsKnown, DoneKnown, LaterKnown};
ghost use Rattle.gptp_invariants.specs.WorldKnownLaws.{FramesFresh, FramesNotLate, FramesOnLinks};
ghost use Rattle.gptp_invariants.specs.WorldKnownLaws.{PortsAtRest, PortsKnown, ReceiptsOutlast, SystemsFollow, UnlinkedDisabled};

use gptp_links::Fate;

/// The world of a network is known when all its systems have started, whatever was drawn for their frames.
pub fn known_at_first<F: Fate>()
    ensures { BeginsKnown F.answers }
{}

/// Time that passes keeps what is known.
pub fn known_later()
    ensures { LaterKnown }
{}

/// Every act of a sound world keeps what is known, whatever was drawn for its frames: a delivery, an expiry, and every
/// change, where it sets no link to a delay above the announce interval of any port, or above the largest. So it is
/// kept from act to act.
pub fn known_after_acts<F: Fate>()
    ensures acts { ActsKnown }
    ensures done { DoneKnown F.answers }
{}

/// In a sound and known world a Master port of a live system announces now or later, and within its announce interval;
/// what a port received came by now, and no longer ago than the announce receipt timeout, by the interval that it
/// named; a port whose Pdelay timer runs asks now or later, and within one pdelay interval; one whose Respond timer
/// runs answers now or later, and within one turnaround. What names the announce interval of a port stays longer than
/// that interval and the greatest delay of any link.
pub fn ports_are_due()
    ensures due { PortsKnown }
    ensures long { ReceiptsOutlast }
{}

/// In a sound and known world a port of a live system at which no link that is up begins is disabled.
pub fn ports_without_link_are_disabled()
    ensures { UnlinkedDisabled }
{}

/// In every sound world no port of a live system is left aged, a Master port holds the root and steps of its system,
/// and one that received something and isn't the Slave has no lower master vector; what it received qualified there,
/// so that it is no loop. A live system is its own root, or follows what its Slave port received.
pub fn systems_are_at_rest()
    ensures ports { PortsAtRest }
    ensures follow { SystemsFollow }
{}

/// In a sound world frames are in flight only on links that are up, and every one is due now or later. Where the world
/// is known too, and the largest announce interval has passed since the last change, every frame arrives within the
/// greatest delay of its link.
pub fn frames_are_due()
    ensures links { FramesOnLinks }
    ensures late { FramesNotLate }
    ensures fresh { FramesFresh }
{}
