//! Cases in the order in which they are told.

ghost use Rattle.std.specs.Prelude.{◌≡◌, OnOk};
ghost use Rattle.gptp_faults.specs.Ranking.{OutcomesAreRanked, amount_or_0, there, weight, worst_of};

use crate::extremes::joined;
use crate::outcome::Outcome;
use gptp_timeline::amount_of;
use std::alloc::AllocError;
use std::cmp::Reverse;

/// A millisecond, in ns.
const MILLISECOND: u128 = 1_000_000;

/// An amount that is there is above one that isn't.
fn there(amount: Option<u128>) -> u8
    ensures { result ≡ there amount }
{
    match amount {
        Some(_) => 1,
        None => 0,
    }
}

/// An amount, or 0.
pub(crate) fn amount_or_0(amount: Option<u128>) -> u128
    ensures { result ≡ amount_or_0 amount }
{
    match amount {
        Some(amount) => amount,
        None => 0,
    }
}

/// What cases are compared by, the weightiest first: astray, holdover in whole ms, choice and cut, of each the greater
/// of down and back.
fn weight_of(outcome: &Outcome) -> [u128; 6]
    ensures { result ≡ weight (worst_of outcome.now) }
{
    let worst = joined(outcome.down(), outcome.back());
    let holdover = amount_of(worst.holdover);
    [
        u128::from(worst.astray),
        u128::from(there(holdover)),
        amount_or_0(holdover) / MILLISECOND,
        u128::from(there(worst.choice)),
        amount_or_0(worst.choice),
        u128::from(worst.cut),
    ]
}

/// Puts cases in the order in which they are told: the worst first, and equals in theirs. Refused for want of memory
/// alone.
pub(crate) fn rank(outcomes: &mut Vec<Outcome>) -> Result<(), AllocError>
    ensures { OnOk result (OutcomesAreRanked outcomes.old.items outcomes.new.items) }
{
    outcomes.sort_by_key(|outcome| Reverse(weight_of(outcome)))
}
