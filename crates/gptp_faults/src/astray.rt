//! How many systems of the main parts are without the time that most of their part share.

ghost use Rattle.std.specs.Prelude.{◌≡◌, ◌≤◌, IfOk, OnOk, length};
ghost use Rattle.gptp_faults.specs.Astray.{astray_in, astray_of, most_of, most_systems, root_kept, roots_kept, with_root};
ghost use Rattle.gptp_faults.specs.Parts.{AreFew};

use crate::follows::{Follow, follows_of};
use crate::parts::Part;
use gptp_timeline::Keeper;
use gptp_vector::{ClockId, Identity};
use std::alloc::{AllocError, Global};

/// The root that the system with a clock follows, if it keeps time.
fn root_kept(keepers: &[Keeper], clock: ClockId) -> Option<Identity>
    ensures { result ≡ root_kept keepers.now clock }
{
    for keeper in keepers {
        if keeper.clock == clock {
            return Some(keeper.root);
        }
    }
    None
}

/// Puts a root after others, if there is one.
fn push_root(roots: &mut Vec<Identity>, root: Option<Identity>) -> Result<(), AllocError>
    ensures { OnOk result (roots.new.items ≡ with_root root roots.old.items) }
{
    if let Some(root) = root {
        roots.push(root)?;
    }
    Ok(())
}

/// The roots that those of these systems follow that keep time.
fn roots_kept(
    alloc: Global,
    clocks: &[ClockId],
    keepers: &[Keeper],
) -> Result<Vec<Identity>, AllocError>
    ensures is { IfOk result (λ roots. roots.items ≡ roots_kept keepers.now clocks.now) }
    ensures bound { IfOk result (λ roots. length roots.items ≤ length clocks.now) }
{
    let mut roots = Vec::new(alloc);
    for clock in clocks {
        push_root(&mut roots, root_kept(keepers, *clock))?;
    }
    Ok(roots)
}

/// How many follow the root that most do.
fn most_followed(follows: &[Follow]) -> u64
    ensures { result ≡ most_systems follows.now }
{
    let mut most = 0;
    for follow in follows {
        most = follow.systems.max(most);
    }
    most
}

/// How often the root is there that is there most often.
fn most_of(alloc: Global, roots: &[Identity]) -> Result<u64, AllocError>
    ensures { IfOk result (λ most. most ≡ most_of roots.now) }
{
    let follows = follows_of(alloc, roots)?;
    Ok(most_followed(&follows))
}

/// How many systems of a part are without the time that most share.
fn astray_in(alloc: Global, part: &Part, keepers: &[Keeper]) -> Result<u64, AllocError>
    ensures is { IfOk result (λ astray. astray ≡ astray_in keepers.now part.now) }
    ensures bound { IfOk result (λ astray. astray ≤ length part.now) }
{
    let clocks = part.clocks();
    let roots = roots_kept(alloc, clocks, keepers)?;
    let most = most_of(alloc, &roots)?;
    Ok((clocks.len() as u64).saturating_sub(most))
}

/// How many of all parts are.
pub(crate) fn astray_of(
    alloc: Global,
    parts: &[Part],
    keepers: &[Keeper],
) -> Result<u64, AllocError>
    requires { AreFew parts.now }
    ensures { IfOk result (λ astray. astray ≡ astray_of keepers.now parts.now) }
{
    let mut astray = 0;
    for part in parts {
        astray += astray_in(alloc, part, keepers)?;
    }
    Ok(astray)
}
