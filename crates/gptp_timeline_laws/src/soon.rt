//! How soon the choice and the roles stand in a stretch.

ghost use Rattle.gptp_timeline_laws.specs.Soon.{StretchesFollowSoon, StretchesSettleSoon};

use gptp_links::Fate;

/// In a stretch of the timeline of a document the last change of the choice, and of the roles, comes no later than is
/// told of the stretch, where anything is, and every live system is near where the stretch ends.
pub fn stretches_settle_soon<F: Fate>()
    ensures { StretchesSettleSoon F.answers }
{}

/// Where a stretch lasts longer than is told of its choice, each near system follows the best of its component where
/// the stretch ends.
pub fn stretches_follow_soon<F: Fate>()
    ensures { StretchesFollowSoon F.answers }
{}
