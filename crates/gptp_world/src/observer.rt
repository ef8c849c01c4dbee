//! What is told of acts, as they are done.

ghost use Rattle.std.specs.Prelude.{◌≡◌, ◌≢◌, ℕ, false, List, [], OnOk};
ghost use Rattle.std.specs.Io.KnownBytes.{Appends};
ghost use Rattle.gptp_setup.specs.Intervals.{IsMoment};
ghost use Rattle.gptp_model.specs.Advancing.{Told};
ghost use Rattle.gptp_model.specs.World.{WorldState};
ghost use Rattle.gptp_world.specs.Observing.{told_of, TellsAct};
ghost use Rattle.gptp_sink.specs.Sink.{AppendsSome};

use crate::world::World;
use gptp_links::Fate;
use gptp_model::{Done, Timed};
use gptp_sink::Cut;
use gptp_sink::sink::Sink;
use std::alloc::Global;

/// Sees each act of a world that was done, and writes lines about it.
pub trait Observer {
    // what it tells of an act, after which the world is this, and how the observer stands before and after it
    ghost tells: { Told → WorldState → Self → Self → List (List ℕ) → Type 0 };

    /// Whether it wants to see acts. One that doesn't tells nothing of any, whatever it would see, and stays as it is.
    fn wants(&self) -> bool
        ensures unseen { result ≡ false → (told : Told) (w : WorldState) → tells told w self.now self.now [] };

    /// It sees an act that was done at a time of at most `LAST_MOMENT`, and writes its lines.
    ///
    /// Errors: [`Cut::Write`] exactly where a write failed, and [`Cut::Memory`]. Then a front of the lines stands
    /// written.
    fn observe<F: Fate + Drop, K: Sink>(
        &mut self,
        alloc: Global,
        world: &World<F>,
        timed: &Timed,
        done: &Done,
        sink: &mut K,
    ) -> Result<(), Cut>
        requires moment { IsMoment timed.now.at }
        ensures some { (o_after : Self) × TellsAct tells (told_of timed.now done.now) world.now.world_core self.old o_after
            (AppendsSome (K.written sink.old) (K.written sink.new)) }
        ensures whole { OnOk result (TellsAct tells (told_of timed.now done.now) world.now.world_core self.old self.new
            (Appends (K.written sink.old) (K.written sink.new))) }
        ensures works { result ≢ Err Cut.Write → K.failures sink.new ≡ K.failures sink.old }
        ensures fails { result ≡ Err Cut.Write → K.failures sink.new ≢ K.failures sink.old };
}
