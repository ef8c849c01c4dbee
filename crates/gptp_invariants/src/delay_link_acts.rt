//! Laws on the acts of a world, seen at one link.

ghost use Rattle.gptp_invariants.specs.DelayLinkLaws.{ActsAreActs, DeliveriesAreActs, ExpiriesAreActs, TimePasses};
ghost use Rattle.gptp_invariants.specs.DelayLinkLaws.{AnswerTimersAnswer, AnswerersHear, AskersHear, RequestTimersAsk};

/// Time that passes in a world passes at the link, and nothing else happens there.
pub fn time_passes()
    ensures { TimePasses }
{}

/// An expiry of any timer of any system is one act: a request is sent, an answer is sent, or others send.
pub fn expiries_are_acts()
    ensures { ExpiriesAreActs }
{}

/// A delivery on any link is one act: the port that asks hears, the port that answers hears, or others send.
pub fn deliveries_are_acts()
    ensures { DeliveriesAreActs }
{}

/// Every act of a world but a change is one act at the link, and leaves it as it stands, with the same setting.
pub fn acts_are_acts()
    ensures { ActsAreActs }
{}

/// The Pdelay timer of the port that asks is that of the machine, and so is the Respond timer of the port that answers.
pub fn own_timers_act()
    ensures asks { RequestTimersAsk }
    ensures answers { AnswerTimersAnswer }
{}

/// A frame that is delivered on the link is heard by the one port or by the other, by its direction.
pub fn own_deliveries_are_heard()
    ensures answerers { AnswerersHear }
    ensures askers { AskersHear }
{}
