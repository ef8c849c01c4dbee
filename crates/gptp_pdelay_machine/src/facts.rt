//! Laws on what is known of each item by itself: when it is due.

ghost use Rattle.gptp_pdelay_machine.specs.FactLaws.{FactsAreKept, FactsHoldLater, TimingIsEnough};

use crate::coding::Coding;

/// Every act whose new frames are due within the greatest delay, or with a frame before them, keeps the facts.
pub fn facts_kept<C: Coding>()
    ensures { FactsAreKept C.asks C.replies }
{}

/// The facts hold as time passes, up to when something is due.
pub fn facts_hold_later()
    ensures { FactsHoldLater }
{}

/// The limits on threshold, turnaround and intervals leave an exchange its time.
pub fn timing_is_enough()
    ensures { TimingIsEnough }
{}
