//! Systems that are set aside: what they read isn't looked at.

ghost use Rattle.std.specs.Prelude.{◌≡◌};
ghost use Rattle.gptp_timeline.specs.Aside.{is_aside, left_out, received_in, without_clock};

use crate::receipts::received_by;
use gptp_vector::ClockId;
use gptp_world::{Act, Done};
use std::alloc::Global;
use std::marker::Model;

/// Systems that are set aside from the events of a time on, each until it receives time behind those of a later one.
#[derive(Drop)]
pub struct SetAside {
    // Who is, or will be.
    clocks: Vec<ClockId>,
    // From when on, in ns.
    from: u64,
    // From when on a receipt ends it, in ns.
    back: u64,
    // When the stretch began that passes, in ns.
    begun: u64,
}

impl Model for SetAside {
    ghost use Rattle.gptp_timeline.specs.Aside.{AsideState};

    ghost Value = { AsideState };

    ghost view = { λ a. record { clocks = a.clocks.items; from = a.from; back = a.back; begun = a.begun } };
}

impl SetAside {
    ghost use Rattle.std.specs.Prelude.{◌≡◌, ◌==◌};
    ghost use Rattle.gptp_timeline.specs.Aside.{aside_after, aside_begun, is_left_out, nobody_aside};

    /// These systems are set aside from a time on, until they receive time at the other or later.
    pub fn new(clocks: Vec<ClockId>, from: u64, back: u64) -> Self
        ensures { result ≡ record { clocks = clocks.items; from = from; back = back; begun = 0 } }
    {
        SetAside {
            clocks,
            from,
            back,
            begun: 0,
        }
    }

    /// No system is set aside.
    pub(crate) fn nobody(alloc: Global) -> Self
        ensures { result ≡ nobody_aside }
    {
        SetAside::new(Vec::new(alloc), 0, 0)
    }

    /// A stretch begins at a time.
    pub(crate) fn begin(&mut self, at: u64)
        ensures { self.new ≡ aside_begun at self.old }
    {
        self.begun = at;
    }

    /// Whether it is in the stretch that passes that these systems begin to be set aside.
    pub(crate) fn begins(&self) -> bool
        ensures { result ≡ (self.now.begun == self.now.from) }
    {
        self.begun == self.from
    }

    /// Who is set aside.
    pub(crate) fn clocks(&self) -> &[ClockId]
        ensures { result.now ≡ self.now.clocks }
    {
        &self.clocks
    }

    /// Whether what an act does to what systems read isn't looked at: a system that is set aside does it.
    pub(crate) fn leaves_out(&self, act: &Act, done: &Done) -> bool
        ensures { result ≡ is_left_out self.now act.now done.now }
    {
        self.from <= self.begun && is_left_out(&self.clocks, self.back <= self.begun, act, done)
    }

    /// A system that received time by an act isn't set aside any more, where a receipt ends it.
    pub(crate) fn release(&mut self, act: &Act, done: &Done)
        ensures { self.new ≡ aside_after act.now done.now self.old }
    {
        if self.from <= self.begun && self.back <= self.begun {
            drop_clock(&mut self.clocks, received_in(act, done));
        }
    }
}

/// Whether a system is one of those.
fn is_aside(clocks: &[ClockId], clock: Option<ClockId>) -> bool
    ensures { result ≡ is_aside clocks.now clock }
{
    match clock {
        Some(clock) => clocks.contains(&clock),
        None => false,
    }
}

/// Whether one of these systems does an act, but for a receipt where that ends it.
fn is_left_out(clocks: &[ClockId], returned: bool, act: &Act, done: &Done) -> bool
    ensures { result ≡ left_out clocks.now returned act.now done.now }
{
    match act {
        Act::Expire { clock, .. } => is_aside(clocks, Some(*clock)),
        Act::Deliver { .. } => !returned && is_aside(clocks, received_by(done)),
        Act::Change(_) => false,
    }
}

/// The system that received time by an act, if one did.
fn received_in(act: &Act, done: &Done) -> Option<ClockId>
    ensures { result ≡ received_in act.now done.now }
{
    match act {
        Act::Deliver { .. } => received_by(done),
        _ => None,
    }
}

/// A system isn't one of these any more.
fn drop_clock(clocks: &mut Vec<ClockId>, name: Option<ClockId>)
    ensures { clocks.new.items ≡ without_clock name clocks.old.items }
{
    if let Some(name) = name {
        clocks.retain(|clock| *clock != name);
    }
}
