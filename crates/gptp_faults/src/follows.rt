//! Which roots are followed, by how many systems.

ghost use Rattle.std.specs.Prelude.{◌≡◌, ◌==◌, ◌≤◌, IfOk, length};
ghost use Rattle.std.specs.List.{prefix_len};
ghost use Rattle.std.specs.List.Sorted.{IsNonDecreasing};
ghost use Rattle.gptp_faults.specs.Follows.{AreFollows};

use gptp_vector::Identity;
use std::alloc::{AllocError, Global};

/// How many systems follow a root.
#[derive(Clone, Copy, Debug)]
pub(crate) struct Follow {
    pub root: Identity,
    pub systems: u64,
}

/// How many roots in front are this one.
fn front_of(roots: &[Identity], root: Identity) -> usize
    ensures length { result ≡ prefix_len (λ other. other == root) roots.now }
    ensures bound { result ≤ length roots.now }
{
    roots.iter().take_while(|other| **other == root).count()
}

/// Each of roots that don't fall once, with how often it is there.
fn follows_in_order(alloc: Global, roots: &[Identity]) -> Result<Vec<Follow>, AllocError>
    requires { IsNonDecreasing roots.now }
    ensures { IfOk result (λ v. AreFollows roots.now v.items) }
{
    let mut follows = Vec::new(alloc);
    let mut rest = roots;
    while let Some(root) = rest.first() {
        let systems = front_of(rest, *root);
        let (_, behind) = rest.split_at(systems);
        follows.push(Follow {
            root: *root,
            systems: systems as u64,
        })?;
        rest = behind;
    }
    Ok(follows)
}

/// Each root once, in rising order, with how many systems follow it.
pub(crate) fn follows_of(alloc: Global, roots: &[Identity]) -> Result<Vec<Follow>, AllocError>
    ensures { IfOk result (λ v. AreFollows roots.now v.items) }
{
    let mut rising = Vec::from_slice(alloc, roots)?;
    rising.sort_unstable();
    follows_in_order(alloc, &rising)
}
