//! The lines of the systems of a component, the best first.

ghost use Rattle.std.specs.Prelude.{◌≡◌, ◌+◌, ◌<◌, ◌∷◌, ◌++◌, [], List, ℕ, IfNone, IfOk, IfSome, None, OnOk, slice_get, string_bytes};
ghost use Rattle.gptp_graph.specs.SettledChoice.{IsBestIdentity, IsSettledChoice};
ghost use Rattle.gptp_graph.specs.Snapshot.{System};
ghost use Rattle.gptp_explain.specs.Ranks.{FollowersAreFound, AreRanked, FollowsRoot, better_words, never_words, rank_line, rank_lines, shown_line};
ghost use Rattle.gptp_roles.specs.Selection.{clock_of};
ghost use Rattle.gptp_words.specs.Lines.{text_of};

use crate::compared::difference;
use gptp_certificate_text::Certificate;
use gptp_checker::line_of;
use gptp_network::Snapshot;
use gptp_vector::{ClockId, Identity};
use gptp_words::IdentityDigits;
use std::alloc::{AllocError, Global};

/// How many ranks are shown in any case.
const SHOWN: usize = 8;

/// The identity of the live system at a place, where it follows a root.
fn follower_at(
    snapshot: &Snapshot,
    choice: &Certificate,
    root: Identity,
    place: usize,
) -> Option<Identity>
    requires { IsSettledChoice snapshot.now choice.now.lines }
    ensures some { IfSome result (λ id. (s : System) × (slice_get snapshot.now.systems place ≡ Some s)
        × FollowsRoot snapshot.now root s × (s.identity ≡ id)) }
    ensures none { IfNone result ((s : System) → slice_get snapshot.now.systems place ≡ Some s
        → FollowsRoot snapshot.now root s → ⊥) }
{
    snapshot.well_formed();
    let (identity, _) = snapshot.system_at(place)?;
    if line_of(snapshot, choice, identity.clock())?.root == root {
        Some(identity)
    } else {
        None
    }
}

/// Puts the identity of the live system at a place after others, where it follows a root.
fn push_follower(
    found: &mut Vec<Identity>,
    snapshot: &Snapshot,
    choice: &Certificate,
    root: Identity,
    place: usize,
) -> Result<(), AllocError>
    requires choice { IsSettledChoice snapshot.now choice.now.lines }
    requires found { FollowersAreFound snapshot.now root place found.old.items }
    ensures { OnOk result (FollowersAreFound snapshot.now root (place + 1) found.new.items) }
{
    snapshot.well_formed();
    if let Some(identity) = follower_at(snapshot, choice, root, place) {
        found.push(identity)?;
    }
    Ok(())
}

/// The identities of the systems that follow the root of one, by rising identity.
fn followers(
    alloc: Global,
    snapshot: &Snapshot,
    choice: &Certificate,
    clock: ClockId,
    root: Identity,
) -> Result<Vec<Identity>, AllocError>
    requires choice { IsSettledChoice snapshot.now choice.now.lines }
    requires root { IsBestIdentity snapshot.now clock root }
    ensures ranked { IfOk result (λ ids. AreRanked snapshot.now clock ids.items) }
{
    snapshot.well_formed();
    let _ = clock;
    let mut found = Vec::new(alloc);
    for place in 0..snapshot.systems() {
        push_follower(&mut found, snapshot, choice, root, place)?;
    }
    found.sort_unstable();
    Ok(found)
}

/// Appends by what a system is better than the next, and whether that can be a grandmaster, with a line feed.
fn write_better(
    text: &mut String,
    before: Option<Identity>,
    identity: Identity,
) -> Result<(), AllocError>
    ensures { OnOk result (string_bytes text.new
        ≡ string_bytes text.old ++ (better_words before identity ++ never_words identity ++ 10 ∷ [])) }
{
    if let Some(before) = before {
        write!(text, " by {}", difference(before, identity))?;
    }
    text.push_str(if identity.capable() { "\n" } else { " never\n" })
}

/// Appends the line of a system of this rank, from 0, after the one before it, if there is one.
fn write_rank(
    text: &mut String,
    rank: usize,
    before: Option<Identity>,
    identity: Identity,
) -> Result<(), AllocError>
    requires { rank < usize.MAX }
    ensures { OnOk result (string_bytes text.new
        ≡ string_bytes text.old ++ (rank_line rank before identity ++ 10 ∷ [])) }
{
    let number = rank + 1;
    write!(text, "rank {number} {}", IdentityDigits(identity))?;
    write_better(text, before, identity)
}

/// Appends the line of a system, where it is one of the first or the own one.
fn write_shown(
    text: &mut String,
    own: Identity,
    rank: usize,
    before: Option<Identity>,
    identity: Identity,
) -> Result<(), AllocError>
    requires { rank < usize.MAX }
    ensures { OnOk result (string_bytes text.new
        ≡ string_bytes text.old ++ text_of (shown_line own rank before identity)) }
{
    if rank >= SHOWN && identity != own {
        return Ok(());
    }
    write_rank(text, rank, before, identity)
}

/// Appends the lines of the first ranks, and of the own one.
fn write_ranked(text: &mut String, own: Identity, ranked: &[Identity]) -> Result<(), AllocError>
    ensures { OnOk result (string_bytes text.new
        ≡ string_bytes text.old ++ text_of (rank_lines own 0 None ranked.now)) }
{
    let mut before = None;
    for (rank, identity) in ranked.iter().enumerate() {
        write_shown(text, own, rank, before, *identity)?;
        before = Some(*identity);
    }
    Ok(())
}

/// Appends the lines of the best systems of the component of one, and its own.
pub(crate) fn write_ranks(
    alloc: Global,
    text: &mut String,
    snapshot: &Snapshot,
    choice: &Certificate,
    own: Identity,
    root: Identity,
) -> Result<(), AllocError>
    requires choice { IsSettledChoice snapshot.now choice.now.lines }
    requires root { IsBestIdentity snapshot.now (clock_of own) root }
    ensures { OnOk result ((ids : List ℕ) × AreRanked snapshot.now (clock_of own) ids
        × (string_bytes text.new ≡ string_bytes text.old ++ text_of (rank_lines own 0 None ids))) }
{
    let ranked = followers(alloc, snapshot, choice, own.clock(), root)?;
    write_ranked(text, own, &ranked)
}
