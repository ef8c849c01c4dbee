//! Laws on states in which all that is held and in flight on any lane is sound.

ghost use Rattle.gptp_bmca_machine.specs.SoundEverywhereLaws.{CallsAreSound, EverywhereIsKept, LinksAreSound};
ghost use Rattle.gptp_bmca_machine.specs.SoundEverywhereLaws.{NewsKeepSound, SoundIsHeld};
ghost use Rattle.gptp_bmca_machine.specs.SoundEverywhereLaws.{EverywhereBecomesSound};

use crate::coding::Coding;

/// Where all that is held and in flight is sound, it stays so at every step, whatever the time is; and so it does where
/// the network gains systems and links or a system becomes better, and through the calls by which it does.
pub fn sound_is_kept<C: Coding>()
    ensures steps { EverywhereIsKept C.says }
    ensures calls { CallsAreSound C.says }
    ensures more { NewsKeepSound C.says }
    ensures held { SoundIsHeld C.says }
    ensures links { LinksAreSound C.says }
{}

/// An announce interval after what is held has become wholly clean, whatever came before, all is sound.
pub fn all_becomes_sound<C: Coding>()
    ensures { EverywhereBecomesSound C.says }
{}
