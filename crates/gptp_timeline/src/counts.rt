//! How many systems go without time, and whom they follow.

ghost use Rattle.std.specs.Prelude.{◌≡◌, ◌==◌, ◌<◌, IfOk, OnOk, get_or, length, nat_lt};
ghost use Rattle.std.specs.List.{count_by};
ghost use Rattle.std.specs.List.Sorted.{IsNonDecreasing, IsPermutation};
ghost use Rattle.gptp_timeline.specs.Roots.{another_next, same_before};
ghost use Rattle.gptp_timeline.specs.Stretch.{counted, counted_roots, distinct, goes_without, is_without, last_of_several, roots_of, shown_of_all, times, with_root};

use crate::shown::Shown;
use crate::watched::Watched;
use gptp_vector::Identity;
use std::alloc::{AllocError, Global};

/// What is counted of all systems at a time.
#[derive(Clone, Copy, Debug, PartialEq, Eq)]
pub struct Counts {
    /// How many live systems have no time.
    pub without: u64,
    /// How many roots are followed by two or more.
    pub roots: u64,
    /// How many systems follow a root that no other does.
    pub alone: u64,
}

/// Whether a live system has no time: its root can't be a grandmaster, or it has a Slave port and no offset.
pub(crate) fn goes_without(shown: &Shown) -> bool
    ensures { result ≡ goes_without shown.now }
{
    !shown.root.capable() || (shown.slave.is_some() && !shown.known)
}

/// Whether a system lives and goes without time.
fn is_without(shown: &Option<Shown>) -> bool
    ensures { result ≡ is_without shown.now }
{
    match shown {
        Some(shown) => goes_without(shown),
        None => false,
    }
}

/// How many live systems have no time.
fn without(systems: &[Watched]) -> usize
    ensures { result ≡ count_by is_without (shown_of_all systems.now) }
{
    systems
        .iter()
        .filter(|system| is_without(&system.shown))
        .count()
}

/// Puts the root of a system after others, if it lives.
fn push_root(roots: &mut Vec<Identity>, shown: &Option<Shown>) -> Result<(), AllocError>
    ensures { OnOk result (roots.new.items ≡ with_root shown.now roots.old.items) }
{
    match shown {
        Some(shown) => {
            roots.push(shown.root)?;
            Ok(())
        }
        None => Ok(()),
    }
}

/// The roots of all live systems.
pub(crate) fn roots_of(alloc: Global, systems: &[Watched]) -> Result<Vec<Identity>, AllocError>
    ensures { IfOk result (λ v. v.items ≡ roots_of (shown_of_all systems.now)) }
{
    let mut roots = Vec::new(alloc);
    for system in systems {
        push_root(&mut roots, &system.shown)?;
    }
    Ok(roots)
}

/// How often a root is there.
pub fn times(roots: &[Identity], root: Identity) -> usize
    ensures { result ≡ times roots.now root }
{
    roots.iter().filter(|other| **other == root).count()
}

/// The roots of all live systems, none of which falls after the one before it.
fn rising_roots_of(alloc: Global, systems: &[Watched]) -> Result<Vec<Identity>, AllocError>
    ensures roots { IfOk result (λ v. IsPermutation (roots_of (shown_of_all systems.now)) v.items) }
    ensures rise { IfOk result (λ v. IsNonDecreasing v.items) }
{
    let mut roots = roots_of(alloc, systems)?;
    roots.sort_unstable();
    Ok(roots)
}

/// Whether another root than that at a place is after it, or none.
fn another_next(roots: &[Identity], place: usize) -> bool
    requires { place < length roots.now }
    ensures { result ≡ another_next roots.now place }
{
    match roots.get(place + 1) {
        Some(next) => *next != roots[place],
        None => true,
    }
}

/// Whether the root before that at a place is the same.
fn same_before(roots: &[Identity], place: usize) -> bool
    requires { place < length roots.now }
    ensures { result ≡ same_before roots.now place }
{
    0 < place && roots[place - 1] == roots[place]
}

/// Whether the root at a place is there twice or more, and for the last time there, where none falls.
fn is_last_of_several(roots: &[Identity], place: usize) -> bool
    requires place { place < length roots.now }
    requires rise { IsNonDecreasing roots.now }
    ensures { result ≡ last_of_several roots.now place }
{
    another_next(roots, place) && same_before(roots, place)
}

/// Whether the root at a place is there once, where none falls.
fn is_alone(roots: &[Identity], place: usize) -> bool
    requires place { place < length roots.now }
    requires rise { IsNonDecreasing roots.now }
    ensures { result ≡ (times roots.now (get_or roots.now place 0) == 1) }
{
    another_next(roots, place) && !same_before(roots, place)
}

/// How many different roots are there twice or more, where none falls.
#[tactic(auto, using(crate::proofs::CountLemmas::several_more, crate::proofs::CountLemmas::several_all))]
fn several(roots: &[Identity]) -> usize
    requires { IsNonDecreasing roots.now }
    ensures { result ≡ count_by (λ root. nat_lt 1 (times roots.now root)) (distinct roots.now) }
{
    let mut count = 0;
    for place in 0..roots.len() {
        count += usize::from(is_last_of_several(roots, place));
    }
    count
}

/// How many roots are there once, where none falls.
#[tactic(auto, using(crate::proofs::RootLemmas::alone_all))]
fn alone(roots: &[Identity]) -> usize
    requires { IsNonDecreasing roots.now }
    ensures { result ≡ count_by (λ root. times roots.now root == 1) roots.now }
{
    let mut count = 0;
    for place in 0..roots.len() {
        count += usize::from(is_alone(roots, place));
    }
    count
}

/// What is counted where so many live systems have no time and these roots are followed, none of which falls.
fn counted_roots(without: usize, roots: &[Identity]) -> Counts
    requires { IsNonDecreasing roots.now }
    ensures { result ≡ counted_roots without roots.now }
{
    Counts {
        without: without as u64,
        roots: several(roots) as u64,
        alone: alone(roots) as u64,
    }
}

/// What is counted of all systems, as they were last looked at.
pub(crate) fn counts_of(alloc: Global, systems: &[Watched]) -> Result<Counts, AllocError>
    ensures { IfOk result (λ c. c ≡ counted (shown_of_all systems.now)) }
{
    let roots = rising_roots_of(alloc, systems)?;
    Ok(counted_roots(without(systems), &roots))
}
