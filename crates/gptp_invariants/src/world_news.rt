//! Laws on worlds since news: a start, a link that comes up, a system that recovers or becomes better.

ghost use Rattle.gptp_invariants.specs.WorldNewsCourse.{BegunSettles, GainSettles, LinkUpSettles, NewsAdvance};
ghost use Rattle.gptp_invariants.specs.WorldNewsCourse.{RestIsSound, RestIsSoundBesideFailed};
ghost use Rattle.gptp_invariants.specs.WorldNewsLaws.{GainIsNews, LinkUpIsNews, PriorityIsNews, StartIsNews};
ghost use Rattle.gptp_invariants.specs.WorldNewsLaws.{NewsAreDone, NewsAreKept, NewsBegin, NewsGoOn};
ghost use Rattle.gptp_invariants.specs.WorldNewsLaws.{NewsWorldsSettle, NewsWorldsSettleInTurn};
ghost use Rattle.gptp_invariants.specs.WorldNewsLaws.{ReadyIsReadyLater, UnansweredIsSilent, WatchedIsReady};

use gptp_links::Fate;

/// What is claimed of a world since news begins where all that is held and in flight is sound and each link in use is
/// watched or has sent its first request; every act that changes nothing keeps it, and so does time that passes.
pub fn news_go_on()
    ensures begins { NewsBegin }
    ensures acts { NewsAreKept }
    ensures later { NewsGoOn }
{}

/// The world is settled once all ports at links in use are capable, an announce interval has passed, and the greatest
/// delay for each further system of a path; where something may lapse for want of Sync, system by system.
pub fn news_worlds_settle()
    ensures at_once { NewsWorldsSettle }
    ensures in_turn { NewsWorldsSettleInTurn }
{}

/// What is claimed of a world since news holds of one in which a link comes up, from when its two ends will be capable
/// too.
pub fn link_up_is_news()
    ensures { LinkUpIsNews }
{}

/// What is claimed of a world since news holds of the world of a network as it begins: a start is news.
pub fn start_is_news<F: Fate>()
    ensures { StartIsNews F.answers }
{}

/// What is claimed of a world since news holds once a system gets a priority1 that isn't worse.
pub fn priority_is_news()
    ensures { PriorityIsNews }
{}

/// Each act that changes nothing, done at its time, keeps what is claimed. What is watched since the last change is
/// ready, and what is ready by a time is so by a later one: so news may follow rest, and news.
pub fn news_follow<F: Fate>()
    ensures done { NewsAreDone F.answers }
    ensures rest { WatchedIsReady }
    ensures silent { UnansweredIsSilent }
    ensures later { ReadyIsReadyLater }
{}

/// A network that starts, and in which nothing is changed, is settled one interval between requests, one exchange and
/// one announce interval later, and the greatest delay for each further system of a path, whatever is drawn for its
/// frames. So is one in which a link comes up after it has been left alone for so long that its ports are capable,
/// where all that it holds is sound; and so it is after every other gain, counted from when ports are capable by what
/// is claimed after every change.
pub fn news_settle_soon<F: Fate>()
    ensures course { NewsAdvance F.answers }
    ensures start { BegunSettles F.answers }
    ensures link_up { LinkUpSettles F.answers }
    ensures gain { GainSettles F.answers }
{}

/// What is claimed of a world since news holds after each change that takes nothing away, from when all ports are
/// capable by what is claimed after every change.
pub fn gains_are_news()
    ensures { GainIsNews }
{}

/// A network that has been left alone for long enough holds and sends what is sound, whatever came before: a greatest
/// delay after all that is held has become wholly clean, where all systems live; beside failed ones an announce
/// interval after that.
pub fn rest_is_sound()
    ensures live { RestIsSound }
    ensures beside_failed { RestIsSoundBesideFailed }
{}
