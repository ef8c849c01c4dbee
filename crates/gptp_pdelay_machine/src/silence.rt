//! Laws on a port on a link whose other end has failed.

ghost use Rattle.gptp_pdelay_machine.specs.SilenceLaws.{InvUnansweredIsKept, InvUnansweredHoldsLater, InvUnansweredBegins};
ghost use Rattle.gptp_pdelay_machine.specs.SilenceLaws.{IncapableFromGone, SilenceSettles, RunsInVainEndIncapable};

/// Every act keeps the invariant: after the old frames each request counts as lost.
pub fn silence_kept()
    ensures { InvUnansweredIsKept }
{}

/// The invariant holds as time passes.
pub fn silence_holds_later()
    ensures { InvUnansweredHoldsLater }
{}

/// The invariant holds just after every change, where no more requests are lost than may be.
pub fn silence_begins()
    ensures { InvUnansweredBegins }
{}

/// A port isn't capable from L + 2 intervals between requests on, counted from when the old frames are gone, where L is
/// the number of requests that may be lost.
pub fn incapable_from_gone()
    ensures { IncapableFromGone }
{}

/// A port isn't capable from L + 5 announce intervals after the last change on, where L is the number of requests that
/// may be lost.
pub fn silence_settles()
    ensures { SilenceSettles }
{}

/// In every run that begins at the last change, with no more requests lost than may be, the port isn't capable from
/// L + 5 announce intervals after that change on.
pub fn runs_end_incapable()
    ensures { RunsInVainEndIncapable }
{}
