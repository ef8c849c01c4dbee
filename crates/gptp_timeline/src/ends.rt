//! How stretches end, and what is kept of them.

ghost use Rattle.std.specs.Prelude.{◌≡◌};
ghost use Rattle.gptp_timeline.specs.LastStretches.{kept_after, none_kept, with_end};

use crate::keepers::Keeper;
use crate::limits::{Limit, Limits, exceeded_after};
use crate::stretch::Stretch;
use gptp_vector::Identity;
use std::marker::Model;

/// How a stretch ended: what became of it, the roots that its live systems follow where it ends, and those of these
/// systems that keep time then, both by rising clock.
#[derive(Drop)]
pub struct StretchEnd {
    stretch: Stretch,
    roots: Vec<Identity>,
    keepers: Vec<Keeper>,
}

impl Model for StretchEnd {
    ghost use Rattle.gptp_timeline.specs.Ends.{EndState};

    ghost Value = { EndState };

    ghost view = { λ e. record { stretch = e.stretch; roots = e.roots.items; keepers = e.keepers.items } };
}

impl StretchEnd {
    ghost use Rattle.std.specs.Prelude.{◌≡◌};

    /// A stretch that ended, those roots, and those systems.
    pub(crate) fn new(stretch: Stretch, roots: Vec<Identity>, keepers: Vec<Keeper>) -> Self
        ensures { result ≡ record { stretch = stretch; roots = roots.items; keepers = keepers.items } }
    {
        StretchEnd {
            stretch,
            roots,
            keepers,
        }
    }

    /// What became of the stretch.
    pub fn stretch(&self) -> &Stretch
        ensures { result.now ≡ self.now.stretch }
    {
        &self.stretch
    }

    /// The roots that its live systems follow where it ends.
    pub fn roots(&self) -> &[Identity]
        ensures { result.now ≡ self.now.roots }
    {
        &self.roots
    }

    /// Its live systems that keep time where it ends.
    pub fn keepers(&self) -> &[Keeper]
        ensures { result.now ≡ self.now.keepers }
    {
        &self.keepers
    }
}

/// What is kept of the stretches that ended so far.
#[derive(Drop)]
pub(crate) struct StretchesSoFar {
    /// The first limit that some of them exceeded.
    pub exceeded: Option<Limit>,
    /// How the last ones ended.
    pub last: LastStretches,
}

/// How the last three stretches ended, as far as there are so many.
#[derive(Drop)]
pub struct LastStretches {
    /// The last but two.
    pub earlier: Option<StretchEnd>,
    /// The last but one.
    pub before: Option<StretchEnd>,
    /// The last.
    pub last: Option<StretchEnd>,
}

/// With one stretch more.
fn shifted(end: StretchEnd, ends: LastStretches) -> LastStretches
    ensures { result ≡ with_end ends end }
{
    let LastStretches {
        earlier: _earlier,
        before,
        last,
    } = ends;
    LastStretches {
        earlier: before,
        before: last,
        last: Some(end),
    }
}

/// Nothing is kept yet.
pub(crate) fn none_kept() -> StretchesSoFar
    ensures { result ≡ none_kept }
{
    StretchesSoFar {
        exceeded: None,
        last: LastStretches {
            earlier: None,
            before: None,
            last: None,
        },
    }
}

/// What is kept with one stretch more.
pub(crate) fn keep(limits: &Limits, end: StretchEnd, kept: StretchesSoFar) -> StretchesSoFar
    ensures { result ≡ kept_after limits.now end kept }
{
    let StretchesSoFar { exceeded, last } = kept;
    StretchesSoFar {
        exceeded: exceeded_after(limits, end.stretch(), exceeded),
        last: shifted(end, last),
    }
}
