//! Runs that were let go on up to a time, from which others go on.

ghost use Rattle.std.specs.Prelude.{◌≡◌, ◌≤◌, drop, length};
ghost use Rattle.gptp_timeline.specs.Timeline.{end_before};

use crate::aside::SetAside;
use crate::ends::{LastStretches, StretchEnd, keep, none_kept};
use crate::null_sink::NullSink;
use crate::timeline::{
    StretchBegins, earlier_stretches, end_stretch, plan_of, stretches_from, summary_with,
    watch_before, write_start,
};
use crate::watch::Watch;
use gptp_how_soon::{SettlingTime, settling_times};
use gptp_links::Fate;
use gptp_network::Document;
use gptp_report::{Cut, begin, play};
use gptp_world::{Timed, World};
use std::alloc::Global;

/// When a stretch ends after which these events come, or none up to a time.
fn end_before(events: &[Timed], until: u64) -> u64
    ensures { result ≡ end_before until events.now }
{
    match events.first() {
        Some(event) => event.at,
        None => until,
    }
}

/// The events behind the first so many.
fn events_behind(events: &[Timed], count: usize) -> &[Timed]
    requires { count ≤ length events.now }
    ensures { result.now ≡ drop count events.now }
{
    &events[count..]
}

/// The run of a document up to a time, from which runs go on of documents with the same events and later ones.
#[derive(Drop)]
pub struct RunSoFar<F> {
    world: World<F>,
    watch: Watch,
    // Whether it is asked what systems read.
    times: bool,
    // With how many events it went on.
    events: usize,
    // When the stretch began that passes, in ns, and whether with an event.
    from: u64,
    begins_with_event: bool,
}

impl<F: Fate + Clone + Drop> RunSoFar<F> {
    ghost use Rattle.std.specs.Prelude.{◌≡◌, ◌<◌, List, ℕ, IfErr, IfOk, false};
    ghost use Rattle.gptp_accuracy.specs.Settlings.{AreTimesOf};
    ghost use Rattle.gptp_report.specs.Transitions.{PassesTo};
    ghost use Rattle.gptp_scenario.specs.Calm.{last_change};
    ghost use Rattle.gptp_setup.specs.Intervals.{IsMoment};
    ghost use Rattle.gptp_timeline.specs.LastStretches.{EndsOf, end_of};
    ghost use Rattle.gptp_timeline.specs.RunSoFar.{GoesOnFrom, IsRunSoFar, RunUpTo};
    ghost use Rattle.gptp_timeline.specs.Timeline.{IsTimelinePlan};
    ghost use Rattle.gptp_timeline.specs.Watch.{tells_changes};
    ghost use Rattle.gptp_timeline.specs.declared.timeline.Plan.{Plan};
    ghost use Rattle.gptp_world.specs.Observing.{Tells};
    ghost use Rattle.gptp_world.specs.Transitions.{ActTrace};

    /// Lets the world of a document run up to a time, at most `LAST_MOMENT`, before which all its events are; it is
    /// asked what systems read meanwhile, or isn't. Refused for want of memory alone.
    pub fn new(
        alloc: Global,
        document: &Document,
        fate: F,
        at: u64,
        times: bool,
    ) -> Result<Self, Cut>
        requires moment { IsMoment at }
        requires early { last_change document.now.events < at }
        ensures run { IfOk result (IsRunSoFar F.answers
            (record { document = document.now; fate = fate; at = at; asked = times })) }
        ensures memory { IfErr result (λ e. e ≡ Cut.Memory) }
    {
        let mut sink = NullSink;
        let options = summary_with(times);
        let settling = settling_times(alloc, document)?;
        document.well_formed();
        let mut world = begin(alloc, document, fate)?;
        let mut watch = watch_before(alloc, &world, &options, SetAside::nobody(alloc))?;
        write_start(alloc, &world, &mut watch, &mut sink)?;
        let begins = StretchBegins {
            from: 0,
            left: document.events(),
            kept: none_kept(),
        };
        let last = earlier_stretches(
            alloc,
            document,
            &settling,
            false,
            &mut world,
            at,
            begins,
            &options.limits,
            &mut watch,
            &mut sink,
        )?;
        watch.begin(last.from, None, last.left.len());
        play(alloc, &mut world, last.left, at, &mut watch, &mut sink)?;
        Ok(RunSoFar {
            world,
            watch,
            times,
            events: document.events().len(),
            from: last.from,
            begins_with_event: !last.left.is_empty(),
        })
    }

    /// Lets the stretch that passes go on in a copy of the world and of the observer, and end at a time before which
    /// no event comes, and answers how it did.
    fn end_first(
        &self,
        alloc: Global,
        document: &Document,
        settling: &[SettlingTime],
        world: &mut World<F>,
        watch: &mut Watch,
        to: u64,
    ) -> Result<StretchEnd, Cut>
        requires moment { IsMoment to }
        requires times { AreTimesOf document.now settling.now }
        ensures ended { IfOk result (λ end. (plan : Plan) × (acts : List ActTrace) × (told : List (List ℕ))
            × IsTimelinePlan false document.now self.now.from to self.now.begins_with_event plan
            × PassesTo F.answers to acts world.old.fate world.new.fate world.old.world_core world.new.world_core
            × Tells tells_changes acts watch.old watch.new told
            × (end ≡ end_of plan world.new.world_core watch.new)) }
        ensures memory { IfErr result (λ e. e ≡ Cut.Memory) }
    {
        let mut sink = NullSink;
        let plan = plan_of(
            alloc,
            document,
            settling,
            false,
            self.from,
            to,
            self.begins_with_event,
        )?;
        play(alloc, world, &[], to, watch, &mut sink)?;
        end_stretch(alloc, world, &plan, watch, &mut sink)
    }

    /// Lets the run of a document with the same events and later ones go on from here up to a time, at most
    /// `LAST_MOMENT`, and answers how its last stretches ended, as [`last_stretches`](crate::last_stretches) does from
    /// the start. This run stays as it is; a clone of the fate has to be the same fate. Refused for want of memory
    /// alone.
    pub fn last_stretches(
        &self,
        alloc: Global,
        document: &Document,
        until: u64,
        aside: SetAside,
    ) -> Result<LastStretches, Cut>
        requires moment { IsMoment until }
        requires same { (fate copy : F) → F.is_clone fate copy → copy ≡ fate }
        requires from { (p : RunUpTo F) × GoesOnFrom F.answers p self.now document.now until aside }
        ensures ends { IfOk result (λ last. (p : RunUpTo F) → GoesOnFrom F.answers p self.now document.now until aside
            → EndsOf F.answers p.asked aside document.now until p.fate last) }
        ensures memory { IfErr result (λ e. e ≡ Cut.Memory) }
    {
        let mut sink = NullSink;
        let options = summary_with(self.times);
        let settling = settling_times(alloc, document)?;
        document.well_formed();
        document.network().well_formed();
        let mut world = self.world.copy()?;
        let mut aside = aside;
        aside.begin(self.from);
        let mut watch = self.watch.copy(alloc, aside)?;
        let left = events_behind(document.events(), self.events);
        let to = end_before(left, until);
        let end = self.end_first(alloc, document, &settling, &mut world, &mut watch, to)?;
        let begins = StretchBegins {
            from: to,
            left,
            kept: keep(&options.limits, end, none_kept()),
        };
        let kept = stretches_from(
            alloc,
            document,
            &settling,
            false,
            &mut world,
            until,
            begins,
            &options.limits,
            &mut watch,
            &mut sink,
        )?;
        Ok(kept.last)
    }
}
