//! Runs of documents.

ghost use Rattle.std.specs.Prelude.{◌≡◌, ◌≢◌, ◌⊎◌, [], true, List, ℕ, IfOk, OnErr, OnOk, nat_le};
ghost use Rattle.std.specs.Io.KnownBytes.{Appends};
ghost use Rattle.gptp_setup.specs.Intervals.{IsMoment};
ghost use Rattle.gptp_model.specs.Course.{Begun};
ghost use Rattle.gptp_scenario.specs.Allowed.{AreAllowed, IsAllowed};
ghost use Rattle.gptp_model.specs.Prompt.{AllDelaysFitIntervals, DelaysFitIntervals};
ghost use Rattle.gptp_report.specs.Following.{BreaksAbout, MakesIf};
ghost use Rattle.gptp_words.specs.Lines.{text_of};
ghost use Rattle.gptp_network.specs.Snapshot.{events_by};
ghost use Rattle.gptp_report.specs.Run.{LeadsSoFar, LeadsTo};
ghost use Rattle.gptp_sink.specs.Sink.{AppendsSome};
ghost use Rattle.gptp_world.specs.Observing.{Observed};
ghost use Rattle.gptp_report.specs.Transitions.{Courses, CoursesSoFar, Makes, ActTrace};

use crate::following::{done_of, go_on};
use crate::frames::Frames;
use gptp_links::Fate;
use gptp_network::Document;
use gptp_sink::Cut;
use gptp_sink::sink::Sink;
use gptp_world::{Observer, Timed, World};
use std::alloc::{AllocError, Global};

/// The world goes on up to the time of an event, which is then made.
fn make<F: Fate + Drop, O: Observer, K: Sink>(
    alloc: Global,
    world: &mut World<F>,
    event: &Timed,
    observer: &mut O,
    sink: &mut K,
) -> Result<(), Cut>
    requires allowed { IsAllowed event.now }
    requires prompt { DelaysFitIntervals world.old.world_core event.now.act }
    ensures made { OnOk result ((ts : List ActTrace)
        × Makes F.answers event.now ts world.old.fate world.new.fate world.old.world_core world.new.world_core
        × Observed O.tells ts observer.old observer.new (Appends (K.written sink.old) (K.written sink.new))) }
    ensures broken { OnErr result ((ts : List ActTrace) × (o_after : O)
        × BreaksAbout F.answers event.now ts world.old.fate world.old.world_core
        × Observed O.tells ts observer.old o_after (AppendsSome (K.written sink.old) (K.written sink.new))) }
    ensures works { result ≢ Err Cut.Write → K.failures sink.new ≡ K.failures sink.old }
    ensures fails { result ≡ Err Cut.Write → K.failures sink.new ≢ K.failures sink.old }
{
    world.well_formed();
    go_on(alloc, world, event.at, observer, sink)?;
    let done = done_of(world, event)?;
    observer.observe(alloc, world, event, &done, sink)
}

/// Makes an event where it is due by the end.
fn make_if_due<F: Fate + Drop, O: Observer, K: Sink>(
    alloc: Global,
    world: &mut World<F>,
    event: &Timed,
    until: u64,
    observer: &mut O,
    sink: &mut K,
) -> Result<(), Cut>
    requires allowed { IsAllowed event.now }
    requires prompt { DelaysFitIntervals world.old.world_core event.now.act }
    ensures made { OnOk result ((ts : List ActTrace) × MakesIf F.answers (nat_le event.now.at until) event.now ts
        world.old.fate world.new.fate world.old.world_core world.new.world_core
        × Observed O.tells ts observer.old observer.new (Appends (K.written sink.old) (K.written sink.new))) }
    ensures due { OnErr result (nat_le event.now.at until ≡ true) }
    ensures broken { OnErr result ((ts : List ActTrace) × (o_after : O)
        × BreaksAbout F.answers event.now ts world.old.fate world.old.world_core
        × Observed O.tells ts observer.old o_after (AppendsSome (K.written sink.old) (K.written sink.new))) }
    ensures works { result ≢ Err Cut.Write → K.failures sink.new ≡ K.failures sink.old }
    ensures fails { result ≡ Err Cut.Write → K.failures sink.new ≢ K.failures sink.old }
{
    match event.at <= until {
        true => make(alloc, world, event, observer, sink),
        false => Ok(()),
    }
}

/// The world goes on up to a time, at most `LAST_MOMENT`, with the events up to then, before an observer, which sees
/// each act as it was done: each that is due by the time of an event before that, the event, and what is due by the end
/// after the last.
///
/// Errors: [`Cut::Write`] exactly where a write failed, after which nothing more happens; [`Cut::Memory`] where the
/// observer says so, where a time lies before that of the world, or where an act was refused, which is meant to be for
/// want of memory alone; that it is so isn't promised. What the observer told until then stands written, or a front of
/// it.
pub fn play<F: Fate + Drop, O: Observer, K: Sink>(
    alloc: Global,
    world: &mut World<F>,
    events: &[Timed],
    until: u64,
    observer: &mut O,
    sink: &mut K,
) -> Result<(), Cut>
    requires events { AreAllowed events.now }
    requires prompt { AllDelaysFitIntervals world.old.world_core events.now }
    requires moment { IsMoment until }
    ensures played { OnOk result ((ts : List ActTrace) × Courses F.answers until (events_by until events.now) ts
        world.old.fate world.new.fate world.old.world_core world.new.world_core
        × Observed O.tells ts observer.old observer.new (Appends (K.written sink.old) (K.written sink.new))) }
    ensures broken { OnErr result ((ts : List ActTrace) × (o_after : O)
        × CoursesSoFar F.answers until (events_by until events.now) ts world.old.fate world.old.world_core
        × Observed O.tells ts observer.old o_after (AppendsSome (K.written sink.old) (K.written sink.new))) }
    ensures works { result ≢ Err Cut.Write → K.failures sink.new ≡ K.failures sink.old }
    ensures fails { result ≡ Err Cut.Write → K.failures sink.new ≢ K.failures sink.old }
{
    for place in 0..events.len() {
        world.well_formed();
        make_if_due(alloc, world, &events[place], until, observer, sink)?;
    }
    go_on(alloc, world, until, observer, sink)
}

/// The world of a document at time 0: all its systems have started, and it can be asked for each event of the document.
/// Refused for want of memory alone.
pub fn begin<F: Fate + Drop>(
    alloc: Global,
    document: &Document,
    fate: F,
) -> Result<World<F>, AllocError>
    ensures begun { IfOk result (λ world. Begun F.answers document.now.network fate world.fate world.world_core) }
    ensures allowed { AreAllowed document.now.events }
    ensures prompt { IfOk result (λ world. AllDelaysFitIntervals world.world_core document.now.events) }
{
    document.well_formed();
    let network = document.network();
    network.well_formed();
    World::new(alloc, network, fate)
}

/// The world of a document as it is at a time, at most `LAST_MOMENT`: it begins at time 0, and goes on with the events
/// of the document up to then. All that is due by the time of an event happens before it. Where frames are asked for, a
/// line is written for each frame that reached a port, as it does.
///
/// Errors: [`Cut::Write`] exactly where a write failed, after which nothing more happens; [`Cut::Memory`] where an act
/// was refused, which is meant to be for want of memory alone; that it is so isn't promised. The lines of the frames
/// until then stand written, or a front of them.
pub fn run_document<F: Fate + Drop, K: Sink>(
    alloc: Global,
    document: &Document,
    fate: F,
    until: u64,
    frames: bool,
    sink: &mut K,
) -> Result<World<F>, Cut>
    requires moment { IsMoment until }
    ensures led { IfOk result (λ world. (lines : List (List ℕ))
        × LeadsTo F.answers document.now until frames fate world.world_core lines
        × Appends (K.written sink.old) (K.written sink.new) (text_of lines)) }
    ensures broken { OnErr result ((lines : List (List ℕ))
        × ((lines ≡ []) ⊎ LeadsSoFar F.answers document.now until frames fate lines)
        × AppendsSome (K.written sink.old) (K.written sink.new) (text_of lines)) }
    ensures works { result ≢ Err Cut.Write → K.failures sink.new ≡ K.failures sink.old }
    ensures fails { result ≡ Err Cut.Write → K.failures sink.new ≢ K.failures sink.old }
{
    document.well_formed();
    let mut world = begin(alloc, document, fate)?;
    let mut observer = Frames { asked: frames };
    play(
        alloc,
        &mut world,
        document.events(),
        until,
        &mut observer,
        sink,
    )?;
    Ok(world)
}
