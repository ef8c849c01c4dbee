//! Laws on what a port has measured, on a link that is up, loses nothing and is good, between two live systems.

ghost use Rattle.gptp_pdelay_machine.specs.MeasuredLaws.{MeterInvIsKept, MeterInvHoldsLater, MeterInvBegins};
ghost use Rattle.gptp_pdelay_machine.specs.MeasuredLaws.{MeasuredFromCalm, MeasuringSettles, MeterInvIsInv, RunsEndMeasured};

use crate::coding::Coding;

/// Every act keeps the invariant of what is measured: as many of the exchanges that are kept as there were requests
/// found nothing old, and with a whole window of them the last measurement is over it.
pub fn meter_kept<C: Coding>()
    ensures { MeterInvIsKept C.asks C.replies }
{}

/// The invariant holds as time passes.
pub fn meter_holds_later<C: Coding>()
    ensures { MeterInvHoldsLater C.asks C.replies }
{}

/// The invariant holds just after every change, whatever was measured before.
pub fn meter_begins<C: Coding>()
    ensures { MeterInvBegins C.asks C.replies }
{}

/// Where it holds the invariant of capability does.
pub fn meter_is_invariant<C: Coding>()
    ensures { MeterInvIsInv C.asks C.replies }
{}

/// Neighbour rate and mean link delay are those of two exchanges, a window apart, from a window and two intervals
/// between requests on, counted from when the old frames are gone and answered.
pub fn measured_from_calm<C: Coding>()
    ensures { MeasuredFromCalm C.asks C.replies }
{}

/// They are so from five announce intervals after the last change on, and an interval between requests more for each
/// exchange of the window but one.
pub fn measuring_settles<C: Coding>()
    ensures { MeasuringSettles C.asks C.replies }
{}

/// In every run that begins just after the last change, whatever was measured before, they are so from then on.
pub fn runs_end_measured<C: Coding>()
    ensures { RunsEndMeasured C.asks C.replies }
{}
