//! From when on what systems receive, and what they read, is exact, as `accuracy` lines say it.

ghost use Rattle.gptp_timeline_laws.specs.ExactSoon.{TimelinesAreExactSoon};
ghost use Rattle.gptp_timeline_laws.specs.ExactSoon.{TimelinesBoundReceiptsSoon, TimelinesReadExactlySoon};

use gptp_links::Fate;

/// In a stretch of the timeline of a document each receipt of a system with an `accuracy` line, at the time that the
/// line says or later, is off by at most the bound of the line, as long as clocks can show the time.
pub fn timelines_are_exact_soon<F: Fate>()
    ensures { TimelinesAreExactSoon F.answers }
{}

/// At each moment of such a stretch at which a system received time last at that time or later, what it reads is off by
/// no more than the error for so long after a receipt.
pub fn timelines_bound_receipts_soon<F: Fate>()
    ensures { TimelinesBoundReceiptsSoon F.answers }
{}

/// What a system reads in such a stretch from its first receipt at that time or later on is off by at most the error
/// for the longest time from one such receipt to the next, or to the end of the stretch.
pub fn timelines_read_exactly_soon<F: Fate>()
    ensures { TimelinesReadExactlySoon F.answers }
{}
