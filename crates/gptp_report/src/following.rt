//! Worlds that go on, act by act, before an observer.

ghost use Rattle.std.specs.Prelude.{◌≡◌, ◌≢◌, IfOk, OnErr, OnOk};
ghost use Rattle.std.specs.Io.KnownBytes.{Appends};
ghost use Rattle.gptp_setup.specs.Intervals.{IsMoment};
ghost use Rattle.gptp_scenario.specs.Allowed.{IsAllowed};
ghost use Rattle.gptp_model.specs.Prompt.{DelaysFitIntervals};
ghost use Rattle.gptp_model.specs.Course.{WasDone};
ghost use Rattle.gptp_report.specs.Following.{BreaksSeen};
ghost use Rattle.gptp_sink.specs.Sink.{AppendsSome};
ghost use Rattle.gptp_world.specs.Following.{PassesSeen};

use gptp_links::Fate;
use gptp_sink::Cut;
use gptp_sink::sink::Sink;
use gptp_world::{Done, Observer, Timed, World};
use std::alloc::{AllocError, Global};

/// An act that is there and due is done.
pub(crate) fn done_of<F: Fate + Drop>(
    world: &mut World<F>,
    timed: &Timed,
) -> Result<Done, AllocError>
    requires allowed { IsAllowed timed.now }
    requires prompt { DelaysFitIntervals world.old.world_core timed.now.act }
    ensures done { IfOk result
        (WasDone F.answers timed.now world.old.fate world.new.fate world.old.world_core world.new.world_core) }
    ensures kept { OnErr result (world.new ≡ world.old) }
{
    match world.carry_out(timed) {
        Ok(done) => Ok(done),
        // it is there and due
        Err(_) => Err(AllocError),
    }
}

/// The world goes on up to a time, at most `LAST_MOMENT`, before an observer.
pub(crate) fn go_on<F: Fate + Drop, O: Observer, K: Sink>(
    alloc: Global,
    world: &mut World<F>,
    until: u64,
    observer: &mut O,
    sink: &mut K,
) -> Result<(), Cut>
    requires moment { IsMoment until }
    ensures gone { OnOk result (PassesSeen F.answers O.tells until world.old.fate world.new.fate world.old.world_core
        world.new.world_core observer.old observer.new (Appends (K.written sink.old) (K.written sink.new))) }
    ensures broken { OnErr result (BreaksSeen F.answers O.tells until world.old.fate world.old.world_core observer.old
        (AppendsSome (K.written sink.old) (K.written sink.new))) }
    ensures works { result ≢ Err Cut.Write → K.failures sink.new ≡ K.failures sink.old }
    ensures fails { result ≡ Err Cut.Write → K.failures sink.new ≢ K.failures sink.old }
{
    if until < world.now() {
        // no time of a run lies before another
        return Err(Cut::Memory);
    }
    world.go_on(alloc, until, observer, sink)
}
