//! Laws on a port on a link that is up, loses nothing and is good, between two live systems.

ghost use Rattle.gptp_pdelay_machine.specs.CapabilityLaws.{PortInvariantIsKept, PortInvariantHoldsLater, PortInvariantBegins};
ghost use Rattle.gptp_pdelay_machine.specs.CapabilityLaws.{NoRequestIsLost, NoExchangeIsBad};
ghost use Rattle.gptp_pdelay_machine.specs.CapabilityLaws.{CapableFromCalm, CapabilitySettles, RunsEndCapable};

use crate::coding::Coding;

/// Every act keeps the invariant: an exchange that begins after the old frames are gone goes through its phases, and
/// with the second of them the port is capable.
pub fn invariant_kept<C: Coding>()
    ensures { PortInvariantIsKept C.asks C.replies }
{}

/// The invariant holds as time passes.
pub fn invariant_holds_later<C: Coding>()
    ensures { PortInvariantHoldsLater C.asks C.replies }
{}

/// The invariant holds just after every change, whatever is open and in flight.
pub fn invariant_begins<C: Coding>()
    ensures { PortInvariantBegins C.asks C.replies }
{}

/// No request that is sent after the old frames are gone is lost: its exchange is complete before the next request.
pub fn no_request_is_lost<C: Coding>()
    ensures { NoRequestIsLost C.asks C.replies }
{}

/// No exchange of such a request gives a delay above the threshold.
pub fn no_exchange_is_bad<C: Coding>()
    ensures { NoExchangeIsBad C.asks C.replies }
{}

/// A port is capable from three intervals between requests on, counted from when the old frames are gone and answered.
pub fn capable_from_calm<C: Coding>()
    ensures { CapableFromCalm C.asks C.replies }
{}

/// A port is capable from L + 5 announce intervals after the last change on, where L is the number of requests that may
/// be lost.
pub fn capability_settles<C: Coding>()
    ensures { CapabilitySettles C.asks C.replies }
{}

/// In every run that begins just after the last change, with whatever is then open and in flight, the port is capable
/// from L + 5 announce intervals after that change on.
pub fn runs_end_capable<C: Coding>()
    ensures { RunsEndCapable C.asks C.replies }
{}
