//! What is measured of the acts of a stretch.

ghost use Rattle.std.specs.Prelude.{◌≡◌};
ghost use Rattle.gptp_timeline.specs.Measures.{better, better_if, ended_by, last_if, since_after};

use gptp_vector::ClockId;

/// The greatest amount so far, and the system of which it is.
#[derive(Clone, Copy, Debug, PartialEq, Eq)]
pub struct Greatest {
    pub amount: u128,
    pub clock: ClockId,
}

/// What is measured of the acts of a stretch so far.
#[derive(Clone, Copy, Debug)]
pub struct Measures {
    /// When the last act was that left some system another as to whether it lives, root, steps or Slave port, in ns.
    pub choice: Option<u64>,
    /// When the last was that did so, or as to a port.
    pub roles: Option<u64>,
    /// When the last was after which the offset of some system was known that wasn't, or the other way round.
    pub offsets: Option<u64>,
    /// The longest wait that ended, in ns.
    pub holdover: Option<Greatest>,
    /// The greatest absolute error of a receipt, in units of 2^-16 ns.
    pub error: Option<Greatest>,
}

/// Those of a stretch in which nothing happened yet.
pub(crate) const NOTHING: Measures = Measures {
    choice: None,
    roles: None,
    offsets: None,
    holdover: None,
    error: None,
};

/// An amount, where it is greater than the greatest so far.
pub(crate) fn better(best: Option<Greatest>, one: Greatest) -> Option<Greatest>
    ensures { result ≡ better best one }
{
    match best {
        Some(best) if one.amount <= best.amount => Some(best),
        _ => Some(one),
    }
}

/// The greater of the best so far and another, if there is another.
pub fn better_if(best: Option<Greatest>, one: Option<Greatest>) -> Option<Greatest>
    ensures { result ≡ better_if best one }
{
    match one {
        Some(one) => better(best, one),
        None => best,
    }
}

/// When the wait under way of a system began, after an act at a time.
pub(crate) fn since_after(
    at: u64,
    received: bool,
    before: bool,
    after: bool,
    since: Option<u64>,
) -> Option<u64>
    ensures { result ≡ since_after at received before after since }
{
    if !after {
        None
    } else if before && !received {
        since
    } else {
        Some(at)
    }
}

/// How long the wait was that an act ended, if it ended one that counts.
pub(crate) fn ended_by(
    at: u64,
    by_event: bool,
    received: bool,
    after: bool,
    since: Option<u64>,
) -> Option<u64>
    ensures { result ≡ ended_by at by_event received after since }
{
    match since {
        Some(since) if !by_event && (received || !after) => Some(at.saturating_sub(since)),
        _ => None,
    }
}

/// The time of an act, unless it left the same; then that of the last before.
pub(crate) fn last_if(same: bool, at: u64, last: Option<u64>) -> Option<u64>
    ensures { result ≡ last_if same at last }
{
    if same { last } else { Some(at) }
}
