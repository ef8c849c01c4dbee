//! Laws on worlds whose good links in use are watched.

ghost use Rattle.gptp_invariants.specs.DelayCapableLaws.{MeasuredAtFirst, MeasuredDone, UsedPortsCapable};
ghost use Rattle.gptp_invariants.specs.DelayCapableLaws.{WatchesAtFirst, WatchesChanged};
ghost use Rattle.gptp_invariants.specs.DelayCapableLaws.{WatchesDone, WatchesKept, WatchesLater};

use gptp_links::Fate;

/// In the world of a network as it begins each port measures and what is in flight fits, and it stays so from act to
/// act, whatever is drawn for its frames.
pub fn worlds_stay_measured<F: Fate>()
    ensures network { MeasuredAtFirst F.answers }
    ensures done { MeasuredDone F.answers }
{}

/// After a change of the network each link in use that loses nothing and is good is watched, whatever is in flight. So
/// it is as the world of a network begins.
pub fn watches_begin<F: Fate>()
    ensures changes { WatchesChanged }
    ensures network { WatchesAtFirst F.answers }
{}

/// A delivery, an expiry and time that passes keep those links watched. So they stay from act to act, a change
/// included.
pub fn watches_are_kept<F: Fate>()
    ensures acts { WatchesKept }
    ensures time { WatchesLater }
    ensures done { WatchesDone F.answers }
{}

/// Where they are watched, all links in use are quiet, and L + 5 announce intervals have passed from the last change,
/// L being how many requests may be lost, each port of a live system at which a link of the snapshot is, is capable,
/// and so it isn't Disabled.
pub fn used_ports_become_capable()
    ensures { UsedPortsCapable }
{}
