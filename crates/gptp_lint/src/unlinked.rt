//! Systems that no link names.

ghost use Rattle.std.specs.Prelude.{◌≡◌, ◌<◌, ◌+◌, ◌++◌, ◌∷◌, [], length, map, take, IfOk, OnOk};
ghost use Rattle.gptp_roles.specs.Selection.{clock_of};
ghost use Rattle.gptp_scenario.specs.declared.network.SystemSpec.{SystemSpec};
ghost use Rattle.gptp_topology.specs.Course.{cable_of};
ghost use Rattle.gptp_lint.specs.Unlinked.{AreUnlinked, is_linked, unlinked_in};

use gptp_scenario::Network;
use gptp_topology::Cable;
use gptp_vector::ClockId;
use std::alloc::{AllocError, Global};

/// Whether one of these links names the system with a clock.
fn is_linked(cables: &[Cable], clock: ClockId) -> bool
    ensures { result ≡ is_linked cables.now clock }
{
    cables
        .iter()
        .any(|cable| clock == cable.a.clock || clock == cable.b.clock)
}

/// Puts a clock after others, where none of these links names its system.
fn push_unlinked(
    unlinked: &mut Vec<ClockId>,
    cables: &[Cable],
    clock: ClockId,
) -> Result<(), AllocError>
    ensures { OnOk result (unlinked.new.items ≡ unlinked.old.items ++ unlinked_in cables.now (clock ∷ [])) }
{
    if !is_linked(cables, clock) {
        unlinked.push(clock)?;
    }
    Ok(())
}

/// Puts the clock of the system at a place after those of the systems before, where none of these links names it.
fn push_unlinked_at(
    unlinked: &mut Vec<ClockId>,
    network: &Network,
    cables: &[Cable],
    place: usize,
) -> Result<(), AllocError>
    requires place { place < length network.now.systems }
    requires before { unlinked.old.items
        ≡ unlinked_in cables.now (map (λ (m : SystemSpec). clock_of m.identity) (take place network.now.systems)) }
    ensures { OnOk result (unlinked.new.items
        ≡ unlinked_in cables.now (map (λ (m : SystemSpec). clock_of m.identity) (take (place + 1) network.now.systems))) }
{
    match network.system_at(place) {
        Some(system) => push_unlinked(unlinked, cables, system.0.clock()),
        None => Ok(()),
    }
}

/// The systems of a network that none of its links names, by rising clock; none where there is one system.
pub(crate) fn unlinked_clocks(
    alloc: Global,
    network: &Network,
    cables: &[Cable],
) -> Result<Vec<ClockId>, AllocError>
    requires { cables.now ≡ map cable_of network.now.links }
    ensures { IfOk result (λ clocks. AreUnlinked network.now clocks.items) }
{
    network.well_formed();
    let mut unlinked = Vec::new(alloc);
    if network.systems() < 2 {
        return Ok(unlinked);
    }
    for place in 0..network.systems() {
        push_unlinked_at(&mut unlinked, network, cables, place)?;
    }
    unlinked.sort_unstable();
    Ok(unlinked)
}
