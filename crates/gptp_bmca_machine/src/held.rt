//! Laws on what systems hold: facts of one item that the steps themselves keep.

ghost use Rattle.gptp_bmca_machine.specs.HeldLaws.{NoLoopIsTaken, SelectionIsKept};

use crate::coding::Coding;

/// No live system holds a trace that names the system itself, or anything that came after now: every step of the
/// machine keeps that, since what would be a loop isn't taken.
pub fn no_loop_is_taken<C: Coding>()
    ensures { NoLoopIsTaken C.says }
{}

/// No port of a live system is aged between steps, and every master port holds its system's root and steps and
/// announces within its interval: every step of the machine keeps that.
pub fn ports_stay_selected<C: Coding>()
    ensures { SelectionIsKept C.says }
{}
