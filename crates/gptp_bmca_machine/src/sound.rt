//! Laws on what is held and in flight: it stays sound.

ghost use Rattle.gptp_bmca_machine.specs.SoundLaws.{AllBecomesWhole, NamingBegins, NamingIsKept, NewsBecomeWhole};
ghost use Rattle.gptp_bmca_machine.specs.SoundLaws.{NewsIsSound, NewsSettle, SettledIsWhole, SoundIsKept};
ghost use Rattle.gptp_bmca_machine.specs.SoundLaws.{RestSettles, StartSettles};
ghost use Rattle.gptp_bmca_machine.specs.RestLaws.{LinksStay, NewsFromRest, RestFollowsNews};
ghost use Rattle.gptp_bmca_machine.specs.ReactionLaws.{ReactionSettles, RestFollowsReaction};

use crate::coding::Coding;

/// An Announce is sound where its root is worse than the best, or its trace is a path of the snapshot from its root of
/// as many links as its steps say. Where all that is held and in flight is so, every step keeps it.
pub fn sound_stays<C: Coding>()
    ensures { SoundIsKept C.says }
{}

/// Where links come up, systems join and priorities get better while all is wholly clean, a run ends settled once the
/// time of settling has passed from when ports are capable: no turn of traces has to pass.
pub fn news_settle<C: Coding>()
    ensures settle { NewsSettle C.says }
    ensures whole { NewsBecomeWhole C.says }
{}

/// Where links are at their stages when news come, or their ports aren't capable yet and what comes is heard, no
/// interval has to pass; so it is at a start.
pub fn rest_settles<C: Coding>()
    ensures rest { RestSettles C.says }
    ensures start { StartSettles C.says }
{}

/// A network that has settled is at rest: over each link that leads farther, what is told is held and stays. News that
/// leave the old links as they are, while all is wholly clean, settle in the time in which new ports become capable and
/// a delay for each further system of a path.
pub fn news_from_rest<C: Coding>()
    ensures stay { LinksStay C.says }
    ensures settle { NewsFromRest C.says }
    ensures rest { RestFollowsNews C.says }
{}

/// Where one system's priority gets better in a network at rest, it reacts at once, and all settle a delay later for
/// each further system of a path.
pub fn reaction_settles<C: Coding>()
    ensures settle { ReactionSettles C.says }
    ensures rest { RestFollowsReaction C.says }
{}

/// What is sent once all has settled names the best, so that a delay later all is wholly clean again, and the next news
/// may come.
pub fn settled_is_whole<C: Coding>()
    ensures begins { NamingBegins C.says }
    ensures kept { NamingIsKept C.says }
    ensures whole { SettledIsWhole C.says }
{}

/// A delay after all that is held has become wholly clean, so is all that is in flight.
pub fn all_becomes_whole<C: Coding>()
    ensures { AllBecomesWhole C.says }
{}

/// Where links come up, systems join and priorities get better, what was wholly clean is sound.
pub fn news_are_sound()
    ensures { NewsIsSound }
{}
