//! Laws on worlds in which all that is held and in flight is sound.

ghost use Rattle.gptp_invariants.specs.WorldSoundLaws.{SoundActs, SoundBegins, SoundGains, SoundLater};

use gptp_links::Fate;

/// In the world of every network all that is held and in flight is sound as it begins: it names a root worse than the
/// best of the system that said it, or is wholly clean. Every delivery and every expiry leaves it so, time that passes,
/// and every change that takes nothing away: a link that comes up or gets other bounds, a system that recovers, a
/// priority1 that isn't worse.
pub fn stays_sound<F: Fate>()
    ensures begins { SoundBegins F.answers }
    ensures acts { SoundActs }
    ensures later { SoundLater }
    ensures gains { SoundGains }
{}
