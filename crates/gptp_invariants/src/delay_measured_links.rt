//! Laws on what ports have measured of the links in use.

ghost use Rattle.gptp_invariants.specs.DelayMeasuredLinkLaws.{ClaimedMeasured, UsedLinksAreMeasured};

/// Where the good links in use are watched, and five announce intervals have passed from the last change, and an
/// interval between requests more for each exchange of the window but one, each port of a live system has measured each
/// link of the snapshot that is at it. What it measured last is of two exchanges over that link, a window apart, whose
/// messages took between the least and the greatest delay of the link (IEEE 802.1AS-2020, 11.2.19.3). Whatever was
/// measured before is forgotten.
pub fn used_links_are_measured()
    ensures { UsedLinksAreMeasured }
{}

/// In every world of a network that has been calm for L + 5 announce intervals, and an interval between requests for
/// each exchange of the window but one, each port of a live system has measured each link of the snapshot that is at
/// it. L is the number of requests that may be lost.
pub fn links_are_measured()
    ensures { ClaimedMeasured }
{}
