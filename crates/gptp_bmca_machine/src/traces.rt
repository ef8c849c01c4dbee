//! Laws on traces: they become clean.

ghost use Rattle.gptp_bmca_machine.specs.CleanLaws.{CleanIsByLastMembers, CleanBegins, CleanIsKept, MachineHeldBecomesWhole};

use crate::coding::Coding;

/// A trace is clean by m + 1 members exactly where its last m + 1 members are different live systems, each joined by a
/// link to the next.
pub fn clean_is_by_last_members()
    ensures { CleanIsByLastMembers }
{}

/// How clean the trace of an Announce must be follows from when it was sent. Before the start that claims nothing,
/// and every step of the machine keeps it, whatever was held and in flight before.
pub fn traces_stay_clean<C: Coding>()
    ensures begins { CleanBegins C.says }
    ensures kept { CleanIsKept C.says }
{}

/// Where no path of the snapshot has more than m systems, all that live systems hold is wholly clean once m turns have
/// passed from the start, a turn being the longest span for which anything received stays and the largest delay: it
/// came over the port's link, and its trace is a path of the snapshot from the announced root, of the announced length.
pub fn traces_become_clean<C: Coding>()
    ensures { MachineHeldBecomesWhole C.says }
{}
