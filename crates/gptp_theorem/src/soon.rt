//! How soon a network settles after a start, or after a change that takes nothing away.

ghost use Rattle.gptp_theorem.specs.Soon.{GainsAreSound, RestsAreSound, SoundGoesOn, StartsAreSound};
ghost use Rattle.gptp_theorem.specs.Soon.{GainsSettle, LinksUpSettle, StartsSettle};

use gptp_links::Fate;

/// A network that starts, and in which nothing is changed, is settled one peer delay interval, one exchange and 1 ns,
/// one announce interval, and the greatest delay for each system of a path but one after time 0, whatever is drawn for
/// its frames; or where something may lapse for want of Sync, a step of distance for each but one.
pub fn starts_settle<F: Fate>()
    ensures { StartsSettle F.answers }
{}

/// A network in which a link comes up that leads to no failed system is settled as long after that as one that starts
/// is after time 0. That is so where all that it holds is sound and it has been left alone for L + 5 announce
/// intervals. A network in which all that is held is sound is settled after any other gain too, at any time, counted
/// from when ports are capable by what every world keeps.
pub fn gains_settle<F: Fate>()
    ensures link_up { LinksUpSettle F.answers }
    ensures gain { GainsSettle F.answers }
{}

/// All that a world holds is sound as a network begins, while it goes on by itself, and through every gain; and
/// whatever came before it is so again at rest, where all systems live.
pub fn worlds_stay_sound<F: Fate>()
    ensures start { StartsAreSound F.answers }
    ensures course { SoundGoesOn F.answers }
    ensures gain { GainsAreSound F.answers }
    ensures rest { RestsAreSound }
{}
