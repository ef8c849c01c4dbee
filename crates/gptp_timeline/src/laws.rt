//! Laws of timelines.

ghost use Rattle.gptp_timeline.specs.Laws.{ChangesAreTold, ErrorsAreWithin, LastLinesTell, RunsAreWithin, StretchesFollow, StretchesSettle, TimelineEndsAsRun, TimelineUnfolds, TimelinesAreRight};

use gptp_links::Fate;

/// The stretches of a timeline together are one run of its document, and where the last ends the world is that of which
/// a run to the same time reports.
pub fn timelines_are_runs<F: Fate>()
    ensures unfolds { TimelineUnfolds F.answers }
    ensures ends { TimelineEndsAsRun F.answers }
{}

/// The last `at` line of a system, and the last of each of its ports, tell what the system shows where the run ends:
/// root, steps, Slave port, whether an offset is known, and of each port role and capable. That is the world of which a
/// run to the same time reports ([`timelines_are_runs`]).
pub fn last_lines_tell<F: Fate>()
    ensures told { ChangesAreTold }
    ensures last { LastLinesTell F.answers }
{}

/// Where the network is calm where a stretch of the timeline of a document begins, and every live system is near where
/// it ends, its choice and its roles stand within the span: no later act leaves any system another, nor any of its
/// ports.
pub fn stretches_settle<F: Fate>()
    ensures { StretchesSettle F.answers }
{}

/// Where the network is calm where a stretch of the timeline of a document begins that lasts as long as the span, each
/// near system follows the best of its component where it ends, and no other root: so the counts of roots there are
/// those of the settled choice.
pub fn stretches_follow<F: Fate>()
    ensures { StretchesFollow F.answers }
{}

/// The error of each receipt of time in a stretch of the timeline of a document is at most the bound that is known of
/// its system, from the time on from which the network is exact whatever came before, and so is the greatest of them.
/// So it is in each run of a document, by what `accuracy` says of the document where the run ends. Nothing is said of
/// the root itself, of systems that are far, and of those whose root can't be a grandmaster; nor that time comes.
pub fn errors_are_within<F: Fate>()
    ensures stretches { ErrorsAreWithin F.answers }
    ensures runs { RunsAreWithin F.answers }
{}

/// Every timeline of a playable document is right up to 10^18 ns: it is one run, its last lines tell what stands where
/// that ends, its stretches settle and follow within their spans, and its errors are within their bounds.
pub fn timelines_are_right<F: Fate>()
    ensures { TimelinesAreRight F.answers }
{}
