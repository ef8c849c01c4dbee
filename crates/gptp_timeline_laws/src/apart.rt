//! How far apart systems do read.

ghost use Rattle.gptp_timeline_laws.specs.Apart.{TimelinesReadApart};

use gptp_links::Fate;

/// Where the sources of systems differ most in a stretch, two systems read at least so far apart, but for twice the
/// greatest error of the stretch and seven units. Nothing need differ by all that `apart` says.
pub fn timelines_read_apart<F: Fate>()
    ensures { TimelinesReadApart F.answers }
{}
