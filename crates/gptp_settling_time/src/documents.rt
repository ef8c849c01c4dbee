//! How soon, and how exactly, over runs of documents whose events take nothing away.

ghost use Rattle.gptp_settling_time.specs.Documents.{ActsFindSettled, DocumentsSettleSoon, RunsAreExactSoon, RunsBeginSo};

use gptp_links::Fate;

/// Where a document has only gained since it began, or since it had rested, the world that it leads to is settled as
/// soon as its ports have had the time to become capable, an announce interval has passed, and the greatest delay for
/// each system of a path but one, whatever is drawn for its frames. All that it holds is sound. So is the world after
/// each act of a run from then on, counted from the events up to the time of the act.
pub fn documents_settle_soon<F: Fate>()
    ensures documents { DocumentsSettleSoon F.answers }
    ensures acts { ActsFindSettled F.answers }
{}

/// Where a document has only gained since it began, or since it had rested, each act of a run leaves exact offsets,
/// once a Sync has had the time to come down a way since it settled. It settled no sooner than an announce interval
/// after the last event.
pub fn runs_are_exact_soon<F: Fate>()
    ensures { RunsAreExactSoon F.answers }
{}

/// A run up to a time begins with the run up to each earlier time.
pub fn runs_begin_so<F: Fate>()
    ensures { RunsBeginSo F.answers }
{}
