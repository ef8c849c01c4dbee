//! Links that aren't good, or lose frames, while they are in use.

ghost use Rattle.std.specs.Prelude.{◌≡◌, ◌++◌, OnOk};
ghost use Rattle.gptp_setup.specs.declared.setup.Params.{Params};
ghost use Rattle.gptp_lint.specs.Trouble.{long_at, long_of, lossy_stretch, stretches};

use gptp_scenario::Params;
use gptp_topology::{Standing, is_long, loss_in_use, needed};
use std::alloc::AllocError;

/// A link that at some time is in use and isn't good.
#[derive(Clone, Copy, Debug)]
pub struct Long {
    /// Its number, from 0.
    pub link: usize,
    /// The first such time, in ns.
    pub at: u64,
    /// Its greatest delay then, in ns.
    pub max: u64,
    /// The least threshold at which it would be good, in ns.
    pub needs: u128,
}

/// A stretch of times at which a link is in use and loses as many of a thousand frames.
#[derive(Clone, Copy, Debug)]
pub struct Lossy {
    /// Its number, from 0.
    pub link: usize,
    /// How many of a thousand frames it loses.
    pub loss: u16,
    /// The first of these times, in ns.
    pub from: u64,
    /// The first time after them, in ns, if there is one.
    pub to: Option<u64>,
}

/// A link that isn't good.
fn long_at(params: &Params, standing: &Standing) -> Long
    ensures { result ≡ long_at params.now standing.now }
{
    Long {
        link: standing.cable.bounds.link,
        at: standing.at,
        max: standing.cable.bounds.max,
        needs: needed(params, standing.cable.bounds.max),
    }
}

/// The first time at which a link is in use and isn't good.
pub(crate) fn long_of(params: &Params, course: &[Standing]) -> Option<Long>
    ensures { result ≡ long_of params.now course.now }
{
    for standing in course {
        if is_long(params, standing) {
            return Some(long_at(params, standing));
        }
    }
    None
}

/// Puts a stretch after others, where its times have a loss.
fn push_stretch(
    lossy: &mut Vec<Lossy>,
    link: usize,
    loss: u16,
    from: u64,
    to: Option<u64>,
) -> Result<(), AllocError>
    ensures { OnOk result (lossy.new.items ≡ lossy.old.items ++ lossy_stretch link loss from to) }
{
    if loss != 0 {
        lossy.push(Lossy {
            link,
            loss,
            from,
            to,
        })?;
    }
    Ok(())
}

/// Puts the stretches of a link after others.
pub(crate) fn push_stretches(
    lossy: &mut Vec<Lossy>,
    link: usize,
    course: &[Standing],
) -> Result<(), AllocError>
    ensures { OnOk result (lossy.new.items ≡ lossy.old.items ++ stretches link 0 course.now) }
{
    let mut loss = 0;
    let mut from = 0;
    for standing in course {
        let now = loss_in_use(standing);
        if now != loss {
            push_stretch(lossy, link, loss, from, Some(standing.at))?;
            loss = now;
            from = standing.at;
        }
    }
    push_stretch(lossy, link, loss, from, None)
}
