//! Laws on the order in which a port becomes capable and hears what its neighbour tells.

ghost use Rattle.gptp_pdelay_machine.specs.OrderLaws.{NotBeforeHoldsLater, NotBeforeIsKept, NotCapableBefore};
ghost use Rattle.gptp_pdelay_machine.specs.OrderLaws.{OrderIsKept, ToldIsHeard};

use crate::coding::{Coding, Telling};

/// A port on a good link isn't capable before its second exchange can be complete.
pub fn not_capable_before<C: Coding>()
    ensures kept { NotBeforeIsKept C.asks C.replies }
    ensures later { NotBeforeHoldsLater C.asks C.replies }
    ensures before { NotCapableBefore C.asks C.replies }
{}

/// What the neighbour tells finds the port capable, where it tells nothing before the second request of the port is
/// answered: the follow-up that makes the port capable goes before it in the same lane.
pub fn told_is_heard<C: Coding, T: Telling>()
    ensures kept { OrderIsKept C.asks C.replies T.tells }
    ensures heard { ToldIsHeard C.asks C.replies T.tells }
{}
