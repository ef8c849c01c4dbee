//! Whether a link in use is good, and how many frames it loses.

ghost use Rattle.std.specs.Prelude.{◌≡◌};
ghost use Rattle.gptp_topology.specs.Trouble.{is_long, is_troubled, loss_in_use, needed};

use crate::course::{Standing, is_used};
use gptp_scenario::Params;
use gptp_setup::blur_of;

/// The least threshold at which a link of this greatest delay is good by the time stamps of the network, in ns.
pub fn needed(params: &Params, max: u64) -> u128
    ensures { result ≡ needed params.now max }
{
    let measured = u128::from(max) + u128::from(blur_of(params));
    measured + measured.div_ceil(1000) + u128::from(params.turnaround.div_ceil(2000)) + 2
}

/// Whether a link is in use and isn't good.
pub fn is_long(params: &Params, standing: &Standing) -> bool
    ensures { result ≡ is_long params.now standing.now }
{
    is_used(standing) && u128::from(params.threshold) < needed(params, standing.cable.bounds.max)
}

/// How many of a thousand frames a link loses in use; 0 where it isn't.
pub fn loss_in_use(standing: &Standing) -> u16
    ensures { result ≡ loss_in_use standing.now }
{
    if is_used(standing) {
        standing.cable.bounds.loss
    } else {
        0
    }
}

/// Whether a link is in use, and then isn't good or loses frames.
pub(crate) fn is_troubled(params: &Params, standing: &Standing) -> bool
    ensures { result ≡ is_troubled params.now standing.now }
{
    is_long(params, standing) || loss_in_use(standing) != 0
}
