//! How soon what comes up is heard at a time: when its ports are capable, and whether an announce interval passes.

ghost use Rattle.std.specs.Prelude.{◌≡◌, ◌≤◌};
ghost use Rattle.std.specs.List.{list_any};
ghost use Rattle.gptp_how_soon.specs.Gains.{heard_by, is_again, is_hard_to_hear, ready};

use crate::bounds::{announce_interval, asked_again, two_exchanges};
use crate::kinds::{Told, recovers};
use crate::links::varies;
use gptp_scenario::{Network, SyncPaths};
use gptp_topology::Cable;

/// Whether a system at an end of a link recovers by these events.
fn is_again(told: &[Told], cable: &Cable) -> bool
    ensures { result ≡ is_again told.now cable.now }
{
    recovers(told, cable.a.clock) || recovers(told, cable.b.clock)
}

/// Whether it does at one of these links.
fn any_again(told: &[Told], new: &[Cable]) -> bool
    ensures { result ≡ list_any (is_again told.now) new.now }
{
    new.iter().any(|cable| is_again(told, cable))
}

/// From when on ports at new links are capable, in ns after their time.
pub(crate) fn ready(network: &Network, paths: SyncPaths, told: &[Told], new: &[Cable]) -> u64
    requires { paths.delay ≤ 16000000000 }
    ensures is { result ≡ ready network.now.params paths told.now new.now }
    ensures bound { result ≤ 65000000000 }
{
    if new.is_empty() {
        0
    } else if any_again(told, new) {
        asked_again(network, paths)
    } else {
        two_exchanges(network, paths)
    }
}

/// Whether what is told over a link that is new may not be heard at once.
fn is_hard_to_hear(told: &[Told], cable: &Cable) -> bool
    ensures { result ≡ is_hard_to_hear told.now cable.now }
{
    is_again(told, cable) || varies(cable)
}

/// Whether it may not be over one of these links.
fn any_hard_to_hear(told: &[Told], new: &[Cable]) -> bool
    ensures { result ≡ list_any (is_hard_to_hear told.now) new.now }
{
    new.iter().any(|cable| is_hard_to_hear(told, cable))
}

/// How much longer it takes where something may not be heard at once, in ns: an announce interval.
pub(crate) fn heard(network: &Network, told: &[Told], new: &[Cable]) -> u64
    ensures is { result ≡ heard_by network.now told.now new.now }
    ensures bound { result ≤ 16000000000 }
{
    if any_hard_to_hear(told, new) {
        announce_interval(network)
    } else {
        0
    }
}
