//! Whether an act can be done.

ghost use Rattle.gptp_invariants.specs.WorldEncodableLaws.{SetsAnOctet};

use crate::act_target::ActTarget;
use crate::world_parts::WorldParts;
use gptp_model::{Act, Change, Refused, Timed};

/// A priority1 that a change sets is below 256, and so is each octet that a change injects.
fn change_sets_an_octet(change: &Change)
    ensures { SetsAnOctet (Act.Change change.now) }
{
    match change {
        Change::Priority1 { clock: _, value } => {
            let _value = *value;
        }
        Change::Inject {
            clock: _,
            port: _,
            octets,
        } => octets.well_formed(),
        _ => {}
    }
}

/// A priority1 that an act sets is an octet, and so is each number that it injects.
pub(crate) fn sets_an_octet(act: &Act)
    ensures { SetsAnOctet act.now }
{
    if let Act::Change(change) = act {
        change_sets_an_octet(change);
    }
}

impl WorldParts {
    ghost use Rattle.std.specs.Prelude.{◌≡◌, ◌≢◌, ◌↔◌, IsTrue, IfOk, IfErr, true, false};
    ghost use Rattle.gptp_model.specs.declared.done.Refused.TheVariants.{OutOfMemory};
    ghost use Rattle.gptp_model.specs.Acts.{IsDueThen, IsEarlier, IsReadyAct, Refuses};
    ghost use Rattle.gptp_world.specs.ActTarget.{IsTargetOf};
    ghost use Rattle.gptp_model.specs.Pending.{NothingBefore};
    ghost use Rattle.gptp_world.specs.WorldParts.{world_of, IsWorldParts};

    /// Whether nothing is due before a time.
    fn is_first(&self, time: u64) -> bool
        ensures first { result ≡ true → NothingBefore time (world_of self.entry.now).net.pending }
        ensures earlier { result ≡ false → IsEarlier time (world_of self.entry.now).net.pending }
    {
        match self.net.traffic.next() {
            Some((due, _)) => time <= due,
            None => true,
        }
    }

    /// Whether an act is due at a time.
    fn is_due(&self, act: &Act, target: ActTarget, time: u64) -> bool
        requires parts { IsWorldParts self.now }
        requires target { IsTargetOf act.now (world_of self.now) target }
        ensures { IsTrue result ↔ IsDueThen act.now time (world_of self.entry.now) }
    {
        self.net.directory.well_formed();
        match target {
            ActTarget::Arrival(lane) => self.is_frame_due(lane, time),
            ActTarget::Timer { place, timer } => self.is_timer_due(place, timer, time),
            ActTarget::LinkDown(_) => true,
            ActTarget::LinkUp(_) => true,
            ActTarget::LinkSet { link: _, bounds: _ } => true,
            ActTarget::Fail(_) => true,
            ActTarget::Recover(_) => true,
            ActTarget::Priority1 { place: _, value: _ } => true,
            ActTarget::Inject(_) => true,
        }
    }

    /// What an act is about, where it can be done; otherwise the first test that it fails.
    pub(crate) fn check(&self, timed: &Timed) -> Result<ActTarget, Refused>
        requires { IsWorldParts self.now }
        ensures target { IfOk result (IsTargetOf timed.now.act (world_of self.entry.now)) }
        ensures ready { IfOk result (λ target. IsReadyAct timed.now.act timed.now.at (world_of self.entry.now)) }
        ensures refused { IfErr result (Refuses timed.now.act timed.now.at (world_of self.entry.now)) }
        ensures memory { IfErr result (λ refused. refused ≢ OutOfMemory) }
    {
        if timed.at < self.now {
            return Err(Refused::InThePast);
        }
        if !self.is_first(timed.at) {
            return Err(Refused::Untimely);
        }
        match self.target(&timed.act) {
            Some(target) => match self.is_due(&timed.act, target, timed.at) {
                true => Ok(target),
                false => Err(Refused::NotDue),
            },
            None => Err(Refused::NoSuch),
        }
    }
}
