//! Laws on when the messages of an exchange are due.

ghost use Rattle.gptp_pdelay_machine.specs.BoundLaws.{BoundsAreKept};

use crate::coding::Coding;

/// A request in flight is due within the greatest delay from the last request, a request that waits is answered within
/// the turnaround from then, and a reply in flight is due within the greatest delay from then, or each as late as the
/// frames that were in flight at the last change let it. Every act keeps these bounds.
pub fn bounds_kept<C: Coding>()
    ensures { BoundsAreKept C.asks C.replies }
{}
