//! What the `times` line of a stretch says of each of its moments.

ghost use Rattle.gptp_timeline_laws.specs.Moments.{TimesBoundMoments};

use gptp_links::Fate;

/// At every moment of a stretch of the timeline of a document after the events of the stretch: what a system reads is
/// off by no more than `time` of the stretch and three units, and what two systems read differs by no more than
/// `apart` and seven units. Nothing is said of a system whose source isn't a system of the document.
pub fn times_bound_moments<F: Fate>()
    ensures { TimesBoundMoments F.answers }
{}
