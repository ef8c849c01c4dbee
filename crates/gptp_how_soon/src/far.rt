//! Whether a system is the far end of each of its links, whether one is cut off that was, and whether each link that is
//! up is in use.

ghost use Rattle.std.specs.Prelude.{◌≡◌, slice_get};
ghost use Rattle.gptp_how_soon.specs.Far.{all_cut_far_ends, are_far, cuts_far_end, has_lower_clock, is_cut_at, is_far_end, is_far_named, is_down_or_used, is_far_over, is_nearer_at, up_is_used};

use crate::chosen::{Chosen, Ends, is_joined, place_of};
use crate::kinds::{Told, makes_nothing};
use gptp_topology::{Standing, System, is_used};

/// Whether the system at the one place has the lower clock.
fn has_lower_clock(systems: &[System], near: usize, far: usize) -> bool
    ensures { result ≡ has_lower_clock (slice_get systems.now near) (slice_get systems.now far) }
{
    match systems.get(near) {
        Some(near) => match systems.get(far) {
            Some(far) => near.clock < far.clock,
            None => false,
        },
        None => false,
    }
}

/// Whether the system at the one place has chosen fewer steps, or as many and has the lower clock.
pub(crate) fn is_nearer_at(systems: &[System], chosen: &[Chosen], near: usize, far: usize) -> bool
    ensures { result ≡ is_nearer_at systems.now chosen.now near far }
{
    let lower = has_lower_clock(systems, near, far);
    match chosen.get(near) {
        Some(near) => match chosen.get(far) {
            Some(far) => near.steps < far.steps || (near.steps == far.steps && lower),
            None => false,
        },
        None => false,
    }
}

/// Whether the system at a place is the far end of a link, if it is at one of its ends.
fn is_far_over(systems: &[System], chosen: &[Chosen], place: usize, ends: &Ends) -> bool
    ensures { result ≡ is_far_over systems.now chosen.now place ends.now }
{
    (ends.a != place || is_nearer_at(systems, chosen, ends.b, place))
        && (ends.b != place || is_nearer_at(systems, chosen, ends.a, place))
}

/// Whether the system at a place is the far end of each of these links at which it is.
pub(crate) fn is_far_end(
    systems: &[System],
    chosen: &[Chosen],
    links: &[Ends],
    place: usize,
) -> bool
    ensures { result ≡ is_far_end systems.now chosen.now links.now place }
{
    links
        .iter()
        .all(|ends| is_far_over(systems, chosen, place, ends))
}

/// Whether the system that an event names is, if it makes something of what stands.
fn is_far_named(systems: &[System], chosen: &[Chosen], links: &[Ends], told: &Told) -> bool
    ensures { result ≡ is_far_named systems.now chosen.now links.now told.now }
{
    makes_nothing(told) || is_far_end(systems, chosen, links, place_of(systems, told.clock))
}

/// Whether each system that is named by such of these events is the far end of each of its links, where the systems
/// have chosen so over these links.
pub(crate) fn are_far(systems: &[System], chosen: &[Chosen], links: &[Ends], told: &[Told]) -> bool
    ensures { result ≡ are_far systems.now chosen.now links.now told.now }
{
    told.iter()
        .all(|one| is_far_named(systems, chosen, links, one))
}

/// Whether the system at a place was the far end of each of its links, and none is at it now.
fn is_cut_at(
    systems: &[System],
    before: &[Chosen],
    links_before: &[Ends],
    links: &[Ends],
    place: usize,
) -> bool
    ensures { result ≡ is_cut_at systems.now before.now links_before.now links.now place }
{
    is_far_end(systems, before, links_before, place) && !is_joined(links, place)
}

/// Whether so is a system at an end of a link.
fn cuts_far_end(
    systems: &[System],
    before: &[Chosen],
    links_before: &[Ends],
    links: &[Ends],
    ends: &Ends,
) -> bool
    ensures { result ≡ cuts_far_end systems.now before.now links_before.now links.now ends.now }
{
    is_cut_at(systems, before, links_before, links, ends.a)
        || is_cut_at(systems, before, links_before, links, ends.b)
}

/// Whether so is one at an end of each link that is lost.
pub(crate) fn all_cut_far_ends(
    systems: &[System],
    before: &[Chosen],
    links_before: &[Ends],
    links: &[Ends],
    lost: &[Ends],
) -> bool
    ensures { result ≡ all_cut_far_ends systems.now before.now links_before.now links.now lost.now }
{
    lost.iter().all(|ends| cuts_far_end(systems, before, links_before, links, ends))
}

/// Whether a link is down or in use.
fn is_down_or_used(standing: &Standing) -> bool
    ensures { result ≡ is_down_or_used standing.now }
{
    !standing.cable.up || is_used(standing)
}

/// Whether each link that is up is in use.
pub(crate) fn up_is_used(standings: &[Standing]) -> bool
    ensures { result ≡ up_is_used standings.now }
{
    standings.iter().all(|standing| is_down_or_used(standing))
}
