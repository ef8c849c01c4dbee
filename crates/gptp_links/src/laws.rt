//! What holds of fates beyond one draw.

ghost use Rattle.std.specs.Prelude.{List, ◌++◌};
ghost use Rattle.gptp_links.specs.Fate.{Draw, Draws};

use crate::fate::Fate;

/// Draws from one state to a second, and from there to a third, are draws from the first to the third.
pub fn draws_join<F: Fate>()
    ensures { (first second third : F) (ds es : List Draw) → Draws F.answers first ds second
        → Draws F.answers second es third → Draws F.answers first (ds ++ es) third }
{}
