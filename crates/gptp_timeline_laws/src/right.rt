//! What a timeline says of the time that systems read is right.

ghost use Rattle.gptp_timeline_laws.specs.Right.{TimelinesReadRight};

use gptp_links::Fate;

/// Every timeline of a playable document says what is right of the time that systems read, up to 10^18 ns.
pub fn timelines_read_right<F: Fate>()
    ensures { TimelinesReadRight F.answers }
{}
