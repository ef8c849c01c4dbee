//! Whether a loss leaves each system alone, which was at one link at most.

ghost use Rattle.std.specs.Prelude.{◌≡◌, length};
ghost use Rattle.std.specs.List.{list_all, range_with_len};
ghost use Rattle.gptp_how_soon.specs.Alone.{has_one_at_most, leaves_alone};

use crate::chosen::{Ends, ends_at};
use crate::silent::is_live;
use gptp_topology::System;

/// Whether the system at a place doesn't live, or at most one of these links ends there.
fn has_one_at_most(systems: &[System], links: &[Ends], place: usize) -> bool
    ensures { result ≡ has_one_at_most systems.now links.now place }
{
    !is_live(systems, place) || links.iter().filter(|ends| ends_at(place, ends)).count() <= 1
}

/// Whether it is so of each of these systems.
fn all_have_one_at_most(systems: &[System], links: &[Ends]) -> bool
    ensures { result ≡ list_all (has_one_at_most systems.now links.now) (range_with_len 0 (length systems.now)) }
{
    (0..systems.len()).all(|place| has_one_at_most(systems, links, place))
}

/// Whether no link is left, and each system that lives was at one at most of those of before.
pub(crate) fn leaves_alone(systems: &[System], before: &[Ends], now: &[Ends]) -> bool
    ensures { result ≡ leaves_alone systems.now before.now now.now }
{
    now.is_empty() && all_have_one_at_most(systems, before)
}
