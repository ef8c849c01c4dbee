//! How old what systems read is.

ghost use Rattle.gptp_timeline_laws.specs.Age.{TimelinesAlwaysHaveTime, TimelinesAreAlwaysExact};
ghost use Rattle.gptp_timeline_laws.specs.Age.{TimelinesHearAgainInTime, TimelinesHearInTime};

use gptp_links::Fate;

/// Where a network has a syncReceiptTimeout time keeps coming in a stretch that begins where it is calm, once the span
/// is over: each near system that isn't the best of its component received time no longer ago than it waits for a Sync,
/// where the best can be grandmaster.
pub fn timelines_hear_in_time<F: Fate>()
    ensures { TimelinesHearInTime F.answers }
{}

/// From one receipt of a system with an `accuracy` line to the next it is no longer than the age that is told, from the
/// time on that the line says.
pub fn timelines_hear_again_in_time<F: Fate>()
    ensures { TimelinesHearAgainInTime F.answers }
{}

/// Once that age is over after that time, what the system reads is at every moment within the error for that age.
pub fn timelines_are_always_exact<F: Fate>()
    ensures { TimelinesAreAlwaysExact F.answers }
{}

/// And it reads something at each of these moments.
pub fn timelines_always_have_time<F: Fate>()
    ensures { TimelinesAlwaysHaveTime F.answers }
{}
