//! Cases: what fails and comes back.

ghost use Rattle.std.specs.Prelude.{◌≡◌, ◌+◌, ◌++◌, ◌∷◌, [], if◌then◌else◌, IfOk, OnOk, map, filter_map, take};
ghost use Rattle.gptp_scenario.specs.Change.{live_after};
ghost use Rattle.gptp_faults.specs.Cases.{AreCases, has_links, has_power, has_systems, link_case, link_cases, live_clock, live_clocks};

use crate::options::Only;
use gptp_network::{Document, Snapshot};
use gptp_vector::{ClockId, Identity, PortId};
use std::alloc::{AllocError, Global};

/// What fails, and comes back.
#[derive(Clone, Copy, Debug, PartialEq, Eq)]
pub(crate) enum Case {
    /// A link, by its ends in the order of the document.
    Link { a: PortId, b: PortId },
    /// A system that hangs.
    System { clock: ClockId },
    /// A system that loses its power.
    Power { clock: ClockId },
}

impl Case {
    ghost use Rattle.std.specs.Prelude.{◌≡◌};
    ghost use Rattle.gptp_faults.specs.Cases.{failing_system};

    /// The system that fails, if one does.
    pub(crate) fn system(&self) -> Option<ClockId>
        ensures { result ≡ failing_system self.now }
    {
        match *self {
            Case::Link { .. } => None,
            Case::System { clock } | Case::Power { clock } => Some(clock),
        }
    }
}

/// Whether links are cases.
fn has_links(only: Option<Only>) -> bool
    ensures { result ≡ has_links only }
{
    match only {
        None | Some(Only::Links) => true,
        _ => false,
    }
}

/// Whether systems are.
fn has_systems(only: Option<Only>) -> bool
    ensures { result ≡ has_systems only }
{
    match only {
        None | Some(Only::Systems) => true,
        _ => false,
    }
}

/// Whether systems that lose their power are.
fn has_power(only: Option<Only>, power: bool) -> bool
    ensures { result ≡ has_power only power }
{
    match only {
        Some(Only::Power) => true,
        _ => power,
    }
}

/// Puts the link at a place after those of the places before.
fn push_link(cases: &mut Vec<Case>, snapshot: &Snapshot, place: usize) -> Result<(), AllocError>
    requires { cases.old.items ≡ map link_case (take place snapshot.now.links) }
    ensures { OnOk result (cases.new.items ≡ map link_case (take (place + 1) snapshot.now.links)) }
{
    if let Some((a, b)) = snapshot.link_at(place) {
        cases.push(Case::Link { a, b })?;
    }
    Ok(())
}

/// The links in use.
fn used_links(alloc: Global, snapshot: &Snapshot) -> Result<Vec<Case>, AllocError>
    ensures { IfOk result (λ cases. cases.items ≡ map link_case snapshot.now.links) }
{
    let mut cases = Vec::new(alloc);
    for place in 0..snapshot.links() {
        push_link(&mut cases, snapshot, place)?;
    }
    Ok(cases)
}

/// The cases of links, where links are cases.
fn link_cases(
    alloc: Global,
    snapshot: &Snapshot,
    only: Option<Only>,
) -> Result<Vec<Case>, AllocError>
    ensures { IfOk result (λ cases. cases.items ≡ link_cases only snapshot.now) }
{
    match has_links(only) {
        true => used_links(alloc, snapshot),
        false => Ok(Vec::new(alloc)),
    }
}

/// Puts a live system, which has this identity and so many ports, after others.
fn push_live(clocks: &mut Vec<ClockId>, live: (Identity, u8)) -> Result<(), AllocError>
    ensures { OnOk result (clocks.new.items ≡ clocks.old.items ++ live_clock live ∷ []) }
{
    clocks.push(live.0.clock())?;
    Ok(())
}

/// Puts the system at a place after those of the places before, where it lives after all events.
fn push_system(
    clocks: &mut Vec<ClockId>,
    document: &Document,
    place: usize,
) -> Result<(), AllocError>
    requires { clocks.old.items
        ≡ map live_clock (filter_map (live_after document.now.events) (take place document.now.network.systems)) }
    ensures { OnOk result (clocks.new.items
        ≡ map live_clock (filter_map (live_after document.now.events) (take (place + 1) document.now.network.systems))) }
{
    match document.network().live_after(place, document.events()) {
        Some(live) => push_live(clocks, live),
        None => Ok(()),
    }
}

/// The systems that live after all events.
fn live_systems(alloc: Global, document: &Document) -> Result<Vec<ClockId>, AllocError>
    ensures { IfOk result (λ clocks. clocks.items ≡ live_clocks document.now) }
{
    let mut clocks = Vec::new(alloc);
    for place in 0..document.network().systems() {
        push_system(&mut clocks, document, place)?;
    }
    Ok(clocks)
}

/// Puts the cases of systems that hang after others.
fn push_hangs(cases: &mut Vec<Case>, clocks: &[ClockId]) -> Result<(), AllocError>
    ensures { OnOk result (cases.new.items ≡ cases.old.items ++ map Case.System clocks.now) }
{
    for clock in clocks {
        cases.push(Case::System { clock: *clock })?;
    }
    Ok(())
}

/// Puts the cases of systems that lose their power after others.
fn push_powers(cases: &mut Vec<Case>, clocks: &[ClockId]) -> Result<(), AllocError>
    ensures { OnOk result (cases.new.items ≡ cases.old.items ++ map Case.Power clocks.now) }
{
    for clock in clocks {
        cases.push(Case::Power { clock: *clock })?;
    }
    Ok(())
}

/// Puts the cases of systems that hang after others, where they are cases.
fn push_hangs_if(cases: &mut Vec<Case>, clocks: &[ClockId], asked: bool) -> Result<(), AllocError>
    ensures { OnOk result (cases.new.items ≡ cases.old.items ++ (if asked then map Case.System clocks.now else [])) }
{
    match asked {
        true => push_hangs(cases, clocks),
        false => Ok(()),
    }
}

/// Puts the cases of systems that lose their power after others, where they are cases.
fn push_powers_if(cases: &mut Vec<Case>, clocks: &[ClockId], asked: bool) -> Result<(), AllocError>
    ensures { OnOk result (cases.new.items ≡ cases.old.items ++ (if asked then map Case.Power clocks.now else [])) }
{
    match asked {
        true => push_powers(cases, clocks),
        false => Ok(()),
    }
}

/// The links in use after all events; then the systems that live then, where they hang; and the same where they lose
/// their power: each in the order of the document, as far as they are cases.
pub(crate) fn cases_of(
    alloc: Global,
    document: &Document,
    only: Option<Only>,
    power: bool,
) -> Result<Vec<Case>, AllocError>
    ensures { IfOk result (λ cases. AreCases document.now only power cases.items) }
{
    let snapshot = document.snapshot(alloc, document.last_change())?;
    let mut cases = link_cases(alloc, &snapshot, only)?;
    let clocks = live_systems(alloc, document)?;
    push_hangs_if(&mut cases, &clocks, has_systems(only))?;
    push_powers_if(&mut cases, &clocks, has_power(only, power))?;
    Ok(cases)
}
