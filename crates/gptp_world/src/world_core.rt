//! A world without its fate.

ghost use Rattle.std.specs.Prelude.{◌≡◌, ◌<◌, length, OnOk};
ghost use Rattle.gptp_setup.specs.Intervals.{IsMoment};
ghost use Rattle.gptp_world.specs.Starting.{Started};
ghost use Rattle.gptp_world.specs.WorldCore.{IsFounded, SystemsStarted};

use crate::act_target::ActTarget;
use crate::checking::sets_an_octet;
use crate::world_parts::WorldParts;
use gptp_links::Fate;
use gptp_model::{Done, Network, Refused, Timed};
use std::alloc::{AllocError, Global};
use std::marker::Model;

/// A world without its fate: its systems, and what is between them.
#[derive(Drop)]
pub(crate) struct WorldCore {
    pub(crate) parts: WorldParts,
}

impl Model for WorldCore {
    ghost use Rattle.gptp_model.specs.World.{WorldState};

    ghost Value = { WorldState };

    ghost use Rattle.gptp_world.specs.WorldParts.{world_of};
    ghost use Rattle.gptp_world.specs.WorldCore.{IsWorldCore};

    ghost view = { λ s. world_of s.parts };

    ghost invariant = { λ s. IsWorldCore s.parts };
}

/// The system at a place starts, once room is made for it. Refused where there is no memory for that.
fn start_next<F: Fate>(parts: &mut WorldParts, place: usize, fate: &mut F) -> Result<(), AllocError>
    requires world_core { IsFounded parts.old }
    requires place { place < length parts.old.stations.items }
    ensures world_core { OnOk result (IsFounded parts.new) }
    ensures count { OnOk result (length parts.new.stations.items ≡ length parts.old.stations.items) }
    ensures started { OnOk result (Started F.answers place fate.old fate.new parts.old parts.new) }
{
    parts.make_room_to_start(place)?;
    parts.start(place, fate);
    Ok(())
}

/// All systems start, in their order. Refused where there is no memory for that.
fn start_all<F: Fate>(parts: &mut WorldParts, fate: &mut F) -> Result<(), AllocError>
    requires { IsFounded parts.old }
    ensures world_core { OnOk result (IsFounded parts.new) }
    ensures started { OnOk result (SystemsStarted F.answers (length parts.old.stations.items) fate.old fate.new parts.old parts.new) }
{
    for place in 0..parts.stations.len() {
        start_next(parts, place, fate)?;
    }
    Ok(())
}

impl WorldCore {
    ghost use Rattle.std.specs.Prelude.{◌≡◌, ◌≢◌, IfErr, IfOk, IsOk, OnErr};
    ghost use Rattle.gptp_model.specs.declared.done.Refused.TheVariants.{OutOfMemory};
    ghost use Rattle.gptp_scenario.specs.Allowed.{IsFitAct};
    ghost use Rattle.gptp_model.specs.Acts.{IsReadyAct, Refuses};
    ghost use Rattle.gptp_model.specs.Prompt.{DelaysFitIntervals};
    ghost use Rattle.gptp_invariants.specs.WorldEncodableLaws.{SetsAnOctet};
    ghost use Rattle.gptp_invariants.specs.SyncExact.{IsHeardExact};
    ghost use Rattle.gptp_invariants.specs.ChoiceTraces.{IsHeardClean};
    ghost use Rattle.gptp_world.specs.ActTarget.{IsTargetOf};
    ghost use Rattle.gptp_world.specs.Memory.{AsksForNoMemory};
    ghost use Rattle.gptp_model.specs.Course.{Begun, WasDone};
    ghost use Rattle.gptp_scenario.specs.Network.{seeded};

    /// The world of a network at time 0, whose systems have all started, in their order, and draw noise from this seed.
    /// Refused for want of memory alone.
    pub(crate) fn new<F: Fate>(
        alloc: Global,
        network: &Network,
        seed: u64,
        fate: &mut F,
    ) -> Result<Self, AllocError>
        ensures { IfOk result (Begun F.answers (seeded seed network.now) fate.old fate.new) }
    {
        network.well_formed();
        let mut parts = WorldParts::found(alloc, network, seed)?;
        start_all(&mut parts, fate)?;
        Ok(WorldCore { parts })
    }

    /// An act is done at its time, where it can be; otherwise the first test that it fails is answered, and nothing
    /// changes.
    pub(crate) fn act<F: Fate>(&mut self, timed: &Timed, fate: &mut F) -> Result<Done, Refused>
        requires moment { IsMoment timed.now.at }
        requires fit { IsFitAct timed.now.act }
        requires prompt { DelaysFitIntervals self.old timed.now.act }
        ensures done { IfOk result (WasDone F.answers timed.now fate.old fate.new self.old self.new) }
        ensures clean { IfOk result (IsHeardClean self.old timed.now.at) }
        ensures exact { IfOk result (IsHeardExact self.old timed.now.at self.new) }
        ensures refused { IfErr result (Refuses timed.now.act timed.now.at self.old) }
        ensures free { AsksForNoMemory timed.now.act self.old → IfErr result (λ refused. refused ≢ OutOfMemory) }
        ensures kept { OnErr result (self.new ≡ self.old) }
        ensures fate { OnErr result (fate.new ≡ fate.old) }
    {
        sets_an_octet(&timed.act);
        self.well_formed();
        match self.parts.check(timed) {
            Ok(target) => match self.perform(timed, target, fate) {
                Ok(done) => Ok(done),
                Err(_) => Err(Refused::OutOfMemory),
            },
            Err(refused) => Err(refused),
        }
    }

    /// An act that is ready is done at its time. Refused where there is no memory for what it can leave, and then
    /// nothing changes.
    pub(crate) fn perform<F: Fate>(
        &mut self,
        timed: &Timed,
        target: ActTarget,
        fate: &mut F,
    ) -> Result<Done, AllocError>
        requires moment { IsMoment timed.now.at }
        requires fit { IsFitAct timed.now.act }
        requires prompt { DelaysFitIntervals self.old timed.now.act }
        requires octet { SetsAnOctet timed.now.act }
        requires target { IsTargetOf timed.now.act self.old target }
        requires ready { IsReadyAct timed.now.act timed.now.at self.old }
        ensures done { IfOk result (WasDone F.answers timed.now fate.old fate.new self.old self.new) }
        ensures free { AsksForNoMemory timed.now.act self.old → IsOk result }
        ensures kept { OnErr result (self.new ≡ self.old) }
        ensures fate { OnErr result (fate.new ≡ fate.old) }
    {
        self.parts.make_room_for(&timed.act, target)?;
        self.parts.now = timed.at;
        Ok(self.parts.perform(&timed.act, target, fate))
    }
}
