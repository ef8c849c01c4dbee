//! What is kept of each system while a document runs.

ghost use Rattle.std.specs.Prelude.{◌≡◌, ◌++◌, ◌∷◌, [], IfOk, OnOk};
ghost use Rattle.gptp_timeline.specs.Watch.{error_after, measures_after, since_behind, wait_behind, waits_on};

use crate::compared::Compared;
use crate::measures::{Greatest, Measures, better_if, ended_by, last_if, since_after};
use crate::ports::same_bool;
use crate::shown::{Shown, copy_shown, is_expecting, is_known, same_choice, same_roles};
use gptp_vector::ClockId;
use std::alloc::{AllocError, Global};

/// What is known of an act where a system is looked at.
#[derive(Clone, Copy, Debug)]
pub(crate) struct ActView {
    /// When it was done, in ns.
    pub at: u64,
    /// Whether it was an event.
    pub by_event: bool,
    /// Whether the system received time by it.
    pub received: bool,
    /// What is compared of the system.
    pub compared: Compared,
}

/// What is kept of a system.
#[derive(Debug, Drop)]
pub(crate) struct Watched {
    /// Its clock.
    pub clock: ClockId,
    /// What it showed when it was last looked at; nothing where it had failed or hadn't started.
    pub shown: Option<Shown>,
    /// When its wait under way began, in ns.
    pub since: Option<u64>,
    /// The greatest absolute error of its receipts from the time on from which they are promised to be exact, in units
    /// of 2^-16 ns.
    pub error: Option<u128>,
}

impl Watched {
    ghost use Rattle.std.specs.Prelude.{◌≡◌};

    /// The same is kept. Takes no memory.
    fn copy(&self) -> Self
        ensures { result ≡ self.now }
    {
        Watched {
            clock: self.clock,
            shown: copy_shown(&self.shown),
            since: self.since,
            error: self.error,
        }
    }
}

/// Puts what is kept of a system behind others.
fn push_watched(systems: &mut Vec<Watched>, system: &Watched) -> Result<(), AllocError>
    ensures { OnOk result (systems.new.items ≡ systems.old.items ++ system.now ∷ []) }
{
    systems.push(system.copy())?;
    Ok(())
}

/// The same is kept of all systems. Refused for want of memory alone.
pub(crate) fn copy_systems(alloc: Global, systems: &[Watched]) -> Result<Vec<Watched>, AllocError>
    ensures { IfOk result (λ copies. copies.items ≡ systems.now) }
{
    let mut copies = Vec::with_capacity(alloc, systems.len())?;
    for system in systems {
        push_watched(&mut copies, system)?;
    }
    Ok(copies)
}

/// When the wait under way of a system began, after an act that left it as `after`.
pub(crate) fn since_behind(look: ActView, system: &Watched, after: &Option<Shown>) -> Option<u64>
    ensures { result ≡ since_behind look system.now after.now }
{
    since_after(
        look.at,
        look.received,
        is_expecting(&system.shown),
        is_expecting(after),
        system.since,
    )
}

/// The wait of a system that an act ended which left it as `after`, if it ended one that counts.
pub(crate) fn wait_behind(
    look: ActView,
    system: &Watched,
    after: &Option<Shown>,
) -> Option<Greatest>
    ensures { result ≡ wait_behind look system.now after.now }
{
    match ended_by(
        look.at,
        look.by_event,
        look.received,
        is_expecting(after),
        system.since,
    ) {
        Some(length) => Some(Greatest {
            amount: u128::from(length),
            clock: system.clock,
        }),
        None => None,
    }
}

/// Whether no wait of a system begins or ends by an act that left what is shown of it as it was: none was received, and
/// it goes on to expect time where it waits.
pub(crate) fn waits_on(look: ActView, system: &Watched) -> bool
    ensures { result ≡ waits_on look system.now }
{
    !look.received && (system.since.is_none() || is_expecting(&system.shown))
}

/// What is measured so far, after an act that left a system as `after`.
pub(crate) fn measures_after(
    look: ActView,
    system: &Watched,
    after: &Option<Shown>,
    measures: Measures,
) -> Measures
    ensures { result ≡ measures_after look system.now after.now measures }
{
    let before = &system.shown;
    Measures {
        choice: last_if(same_choice(before, after), look.at, measures.choice),
        roles: last_if(same_roles(before, after), look.at, measures.roles),
        offsets: last_if(
            same_bool(is_known(before), is_known(after)),
            look.at,
            measures.offsets,
        ),
        holdover: better_if(measures.holdover, wait_behind(look, system, after)),
        error: measures.error,
    }
}

/// The greater of two amounts, where the second is there and counts.
pub(crate) fn error_after(counts: bool, most: Option<u128>, amount: Option<u128>) -> Option<u128>
    ensures { result ≡ error_after counts most amount }
{
    match (most, amount) {
        (_, None) => most,
        (None, Some(amount)) if counts => Some(amount),
        (Some(most), Some(amount)) if counts && most < amount => Some(amount),
        _ => most,
    }
}
