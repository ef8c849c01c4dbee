//! From when on offsets are exact after the events of each time of a document.

ghost use Rattle.gptp_how_soon_laws.specs.Exact.{IsExactSoon};

use gptp_links::Fate;

/// Later than a time of its document, from the time on that is told of it, and before the next event, each Follow_Up
/// that a near system of a run uses leaves an offset that is exact: within the time error of that system's way of its
/// clock less that of its best. The act is one of at most 10^18 ns.
pub fn exact_soon<F: Fate>()
    ensures { IsExactSoon F.answers }
{}
