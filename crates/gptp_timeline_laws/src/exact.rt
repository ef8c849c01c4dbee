//! How exact what a system reads is.

ghost use Rattle.gptp_timeline_laws.specs.Exact.{TimelinesBoundReceipts, TimelinesReadExactly};

use gptp_links::Fate;

/// What a system reads in a stretch of the timeline of a document, from its first receipt on at which the network is
/// exact whatever came before, is off by at most the error for the longest time from one such receipt to the next, or
/// to the end of the stretch, as long as clocks can show the time.
pub fn timelines_read_exactly<F: Fate>()
    ensures { TimelinesReadExactly F.answers }
{}

/// At each moment of such a stretch at which a system received time last when its network was so exact, what it reads
/// is off by no more than the error for so long after a receipt.
pub fn timelines_bound_receipts<F: Fate>()
    ensures { TimelinesBoundReceipts F.answers }
{}
