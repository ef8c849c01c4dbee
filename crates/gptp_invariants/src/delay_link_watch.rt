//! Laws on a link from the last change on.

ghost use Rattle.gptp_invariants.specs.DelayWatchedLaws.{WatchBegins, WatchGoesOn, WatchIsKept};
ghost use Rattle.gptp_invariants.specs.DelayWatchedLaws.{WatchedPortsBecomeCapable, WatchedPortsMeasure};

/// The facts and the invariant of the machine hold of a link once it is known when what is in flight there is gone.
pub fn watch_begins()
    ensures { WatchBegins }
{}

/// Every act but a change keeps them, and so does time that passes, up to when something is due.
pub fn watch_goes_on()
    ensures acts { WatchIsKept }
    ensures later { WatchGoesOn }
{}

/// On a link that is up, loses nothing and is good, between two live stations, a port is capable from L + 5 announce
/// intervals after the last change on. L is the number of requests that may be lost.
pub fn ports_become_capable()
    ensures { WatchedPortsBecomeCapable }
{}

/// From five announce intervals after the last change on, and an interval between requests more for each exchange of
/// the window but one, what the port measured last is of two exchanges over the link, a window apart. Their messages
/// took between the least and the greatest delay of the link (IEEE 802.1AS-2020, 11.2.19.3).
pub fn ports_measure()
    ensures { WatchedPortsMeasure }
{}
