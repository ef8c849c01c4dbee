//! From which sources systems read.

ghost use Rattle.gptp_timeline_laws.specs.Sources.{TimelinesKeepSources, TimelinesReadFromBests, TimelinesReadFromRoots};

use gptp_links::Fate;

/// Once all acts of the time are done at which a source changed last in a stretch, each system reads at every moment
/// from the source from which it reads where the stretch ends. At that time itself one system may change its source
/// after another.
pub fn timelines_keep_sources<F: Fate>()
    ensures { TimelinesKeepSources F.answers }
{}

/// At every moment each live system that has a Slave port, and whose offset is known, reads from a source that has the
/// clock of the root that it follows: what it read by before a change of its root or of its Slave port is no offset of
/// it any more.
pub fn timelines_read_from_roots<F: Fate>()
    ensures { TimelinesReadFromRoots F.answers }
{}

/// Where the network is calm where a stretch begins, and the span is over, that is the clock of the best of the
/// component of each near system.
pub fn timelines_read_from_bests<F: Fate>()
    ensures { TimelinesReadFromBests F.answers }
{}
