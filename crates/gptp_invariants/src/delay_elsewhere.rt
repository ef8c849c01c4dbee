//! Laws on links that a change leaves alone.

ghost use Rattle.gptp_invariants.specs.DelayElsewhereLaws.{WatchGoesThrough, WatchSurvives, WatchedPortsStayCapable, WatchedPortsStayMeasured};

/// A change that leaves a link alone leaves it watched, with the times that it had, and so does every act but such a
/// change.
pub fn watch_survives()
    ensures changes { WatchSurvives }
    ensures acts { WatchGoesThrough }
{}

/// The ports of a watched link stay capable, and what they measured stays that of two exchanges over the link, a window
/// apart, whatever is changed elsewhere.
pub fn ports_stay_capable()
    ensures capable { WatchedPortsStayCapable }
    ensures measured { WatchedPortsStayMeasured }
{}
