//! Worlds that go on by themselves.

ghost use Rattle.std.specs.Prelude.{◌≡◌};
ghost use Rattle.gptp_setup.specs.Intervals.{IsMoment};
ghost use Rattle.gptp_world.specs.ActTarget.{aim_of};

use crate::act_target::ActTarget;
use crate::observer::Observer;
use crate::views::act_of;
use crate::world::World;
use crate::world_core::WorldCore;
use gptp_links::Fate;
use gptp_model::{Done, Item, Timed};
use gptp_sink::Cut;
use gptp_sink::sink::Sink;
use gptp_traffic::Lane;
use std::alloc::{AllocError, Global};

/// What an item is about.
fn aim_of(item: Item) -> ActTarget
    ensures { result ≡ aim_of item }
{
    match item {
        Item::Expiry { place, timer } => ActTarget::Timer {
            place: usize::from(place),
            timer,
        },
        Item::Arrival { link, direction } => ActTarget::Arrival(Lane {
            link: usize::from(link),
            direction,
        }),
    }
}

impl WorldCore {
    ghost use Rattle.std.specs.Prelude.{◌≡◌, ◌+◌, ◌≤◌, IfNone, IfSome, OnErr, OnOk};
    ghost use Rattle.gptp_model.specs.Acts.{at};
    ghost use Rattle.gptp_model.specs.Pending.{IsNext, NothingBefore};
    ghost use Rattle.gptp_model.specs.Views.{IsActOf};
    ghost use Rattle.gptp_world.specs.Following.{HappensUnseen, IsUpcoming};

    /// What is next, and its time.
    fn upcoming(&self) -> Option<(u64, Item)>
        ensures { IsUpcoming result self.now.net.pending }
    {
        self.parts.net.traffic.next()
    }

    /// What is next, which is this, where its time is at most that.
    fn next_by(&self, next: Option<(u64, Item)>, until: u64) -> Option<(u64, Item)>
        requires { IsUpcoming next self.now.net.pending }
        ensures next { IfSome result (λ due. IsNext self.now.net.pending due.0 due.1) }
        ensures early { IfSome result (λ due. due.0 ≤ until) }
        ensures none { IfNone result (NothingBefore (until + 1) self.now.net.pending) }
    {
        match next {
            Some((time, item)) => match time <= until {
                true => Some((time, item)),
                false => None,
            },
            None => None,
        }
    }

    /// The buffer of a frame that arrived, where its octets stand in one, stands ready for another.
    fn recycle(&mut self, done: Done)
        ensures { self.new ≡ self.old }
    {
        match done {
            Done::Heard {
                clock: _,
                port: _,
                answer: _,
                frame,
            } => self.parts.net.buffers.put_back_of(frame),
            Done::Quiet => {}
        }
    }

    /// What is next happens at its time, and nothing is told of it. Refused where there is no memory for what it can
    /// leave, and then nothing changes.
    fn pass<F: Fate>(&mut self, time: u64, item: Item, fate: &mut F) -> Result<(), AllocError>
        requires moment { IsMoment time }
        requires next { IsNext self.old.net.pending time item }
        ensures done { OnOk result (HappensUnseen F.answers time fate.old fate.new self.old self.new) }
        ensures kept { OnErr result (self.new ≡ self.old) }
        ensures fate { OnErr result (fate.new ≡ fate.old) }
    {
        self.parts.make_room_to_pass(item)?;
        self.parts.now = time;
        self.parts.pass(item, fate);
        Ok(())
    }

    /// The act of what is next, at its time.
    fn next_act(&self, time: u64, item: Item) -> Timed
        requires { IsNext self.now.net.pending time item }
        ensures time { result.at ≡ time }
        ensures next { IsNext self.now.net.pending result.at item }
        ensures act { IsActOf item self.now result.act }
    {
        Timed {
            at: time,
            act: act_of(&self.parts, item),
        }
    }

    /// Its time becomes this, up to which nothing is left that is due.
    fn wait(&mut self, until: u64)
        requires moment { IsMoment until }
        requires ahead { self.old.time ≤ until }
        requires first { NothingBefore (until + 1) self.old.net.pending }
        ensures { self.new ≡ at until self.old }
    {
        self.parts.now = until;
    }
}

impl<F: Fate + Drop> World<F> {
    ghost use Rattle.std.specs.Prelude.{◌≡◌, ◌≢◌, ◌+◌, ◌<◌, ◌≤◌, IfOk, OnErr, OnOk};
    ghost use Rattle.std.specs.Io.KnownBytes.{Appends};
    ghost use Rattle.gptp_model.specs.Ahead.{due_by};
    ghost use Rattle.gptp_model.specs.Pending.{IsNext, NothingBefore};
    ghost use Rattle.gptp_sink.specs.Sink.{AppendsSome};
    ghost use Rattle.gptp_world.specs.Following.{Follows, IsUpcoming, PassesSeen};

    /// What is next is done at its time, and seen; then the buffer of a frame that arrived stands ready for another.
    /// [`Cut::Memory`] where there is no memory for what it can leave, and then nothing changes.
    fn do_seen<O: Observer, K: Sink>(
        &mut self,
        alloc: Global,
        time: u64,
        item: Item,
        observer: &mut O,
        sink: &mut K,
    ) -> Result<(), Cut>
        requires next { IsNext self.old.world_core.net.pending time item }
        requires moment { IsMoment time }
        ensures went { (o_after : O) × Follows F.answers O.tells time self.old.fate self.new.fate self.old.world_core
            self.new.world_core observer.old o_after (AppendsSome (K.written sink.old) (K.written sink.new)) }
        ensures followed { OnOk result (Follows F.answers O.tells time self.old.fate self.new.fate self.old.world_core
            self.new.world_core observer.old observer.new (Appends (K.written sink.old) (K.written sink.new))) }
        ensures less { OnOk result
            (due_by time self.new.world_core.net.pending < due_by time self.old.world_core.net.pending) }
        ensures first { OnOk result (NothingBefore time self.new.world_core.net.pending) }
        ensures works { result ≢ Err Cut.Write → K.failures sink.new ≡ K.failures sink.old }
        ensures fails { result ≡ Err Cut.Write → K.failures sink.new ≢ K.failures sink.old }
    {
        self.well_formed();
        let timed = self.world_core.next_act(time, item);
        let done = self
            .world_core
            .perform(&timed, aim_of(item), &mut self.fate)?;
        let seen = observer.observe(alloc, self, &timed, &done, sink);
        self.world_core.recycle(done);
        seen
    }

    /// What is next is done at its time, and seen where the observer wants that. [`Cut::Memory`] where there is no memory
    /// for what it can leave, and then nothing changes.
    fn do_next<O: Observer, K: Sink>(
        &mut self,
        alloc: Global,
        time: u64,
        item: Item,
        observer: &mut O,
        sink: &mut K,
    ) -> Result<(), Cut>
        requires next { IsNext self.old.world_core.net.pending time item }
        requires moment { IsMoment time }
        ensures went { (o_after : O) × Follows F.answers O.tells time self.old.fate self.new.fate self.old.world_core
            self.new.world_core observer.old o_after (AppendsSome (K.written sink.old) (K.written sink.new)) }
        ensures followed { OnOk result (Follows F.answers O.tells time self.old.fate self.new.fate self.old.world_core
            self.new.world_core observer.old observer.new (Appends (K.written sink.old) (K.written sink.new))) }
        ensures less { OnOk result
            (due_by time self.new.world_core.net.pending < due_by time self.old.world_core.net.pending) }
        ensures first { OnOk result (NothingBefore time self.new.world_core.net.pending) }
        ensures works { result ≢ Err Cut.Write → K.failures sink.new ≡ K.failures sink.old }
        ensures fails { result ≡ Err Cut.Write → K.failures sink.new ≢ K.failures sink.old }
    {
        if observer.wants() {
            return self.do_seen(alloc, time, item, observer, sink);
        }
        self.world_core.pass(time, item, &mut self.fate)?;
        Ok(())
    }

    /// All that is due at a time, before which nothing is pending, is done and seen, and what is put for that time
    /// meanwhile. It is told what is next, and tells what is next then.
    fn finish<O: Observer, K: Sink>(
        &mut self,
        alloc: Global,
        time: u64,
        next: Option<(u64, Item)>,
        observer: &mut O,
        sink: &mut K,
    ) -> Result<Option<(u64, Item)>, Cut>
        requires next { IsUpcoming next self.old.world_core.net.pending }
        requires first { NothingBefore time self.old.world_core.net.pending }
        requires moment { IsMoment time }
        ensures went { (o_after : O) × Follows F.answers O.tells time self.old.fate self.new.fate self.old.world_core
            self.new.world_core observer.old o_after (AppendsSome (K.written sink.old) (K.written sink.new)) }
        ensures followed { OnOk result (Follows F.answers O.tells time self.old.fate self.new.fate self.old.world_core
            self.new.world_core observer.old observer.new (Appends (K.written sink.old) (K.written sink.new))) }
        ensures next { IfOk result (λ next. IsUpcoming next self.new.world_core.net.pending) }
        ensures done { OnOk result (NothingBefore (time + 1) self.new.world_core.net.pending) }
        ensures works { result ≢ Err Cut.Write → K.failures sink.new ≡ K.failures sink.old }
        ensures fails { result ≡ Err Cut.Write → K.failures sink.new ≢ K.failures sink.old }
    {
        let mut next = next;
        while let Some((due, item)) = self.world_core.next_by(next, time) {
            self.do_next(alloc, due, item, observer, sink)?;
            next = self.world_core.upcoming();
        }
        Ok(next)
    }

    /// All that is due at the next time, at most this, at which something is pending is done and seen: a time before
    /// which nothing is left, and what is next then.
    fn finish_next<O: Observer, K: Sink>(
        &mut self,
        alloc: Global,
        from: u64,
        next: Option<(u64, Item)>,
        until: u64,
        observer: &mut O,
        sink: &mut K,
    ) -> Result<(u64, Option<(u64, Item)>), Cut>
        requires next { IsUpcoming next self.old.world_core.net.pending }
        requires first { NothingBefore from self.old.world_core.net.pending }
        requires ahead { from ≤ until }
        requires moment { IsMoment until }
        ensures went { (o_after : O) × Follows F.answers O.tells until self.old.fate self.new.fate self.old.world_core
            self.new.world_core observer.old o_after (AppendsSome (K.written sink.old) (K.written sink.new)) }
        ensures followed { OnOk result (Follows F.answers O.tells until self.old.fate self.new.fate self.old.world_core
            self.new.world_core observer.old observer.new (Appends (K.written sink.old) (K.written sink.new))) }
        ensures next { IfOk result (λ left. IsUpcoming left.1 self.new.world_core.net.pending) }
        ensures done { IfOk result (λ left. NothingBefore left.0 self.new.world_core.net.pending) }
        ensures later { IfOk result (λ left. from < left.0) }
        ensures works { result ≢ Err Cut.Write → K.failures sink.new ≡ K.failures sink.old }
        ensures fails { result ≡ Err Cut.Write → K.failures sink.new ≢ K.failures sink.old }
    {
        match self.world_core.next_by(next, until) {
            Some((time, _)) => {
                let further = self.finish(alloc, time, next, observer, sink)?;
                Ok((time + 1, further))
            }
            None => Ok((until + 1, next)),
        }
    }

    /// All that is due by a time is done and seen, and what is put for then meanwhile.
    fn finish_by<O: Observer, K: Sink>(
        &mut self,
        alloc: Global,
        until: u64,
        observer: &mut O,
        sink: &mut K,
    ) -> Result<(), Cut>
        requires moment { IsMoment until }
        ensures went { (o_after : O) × Follows F.answers O.tells until self.old.fate self.new.fate self.old.world_core
            self.new.world_core observer.old o_after (AppendsSome (K.written sink.old) (K.written sink.new)) }
        ensures followed { OnOk result (Follows F.answers O.tells until self.old.fate self.new.fate self.old.world_core
            self.new.world_core observer.old observer.new (Appends (K.written sink.old) (K.written sink.new))) }
        ensures done { OnOk result (NothingBefore (until + 1) self.new.world_core.net.pending) }
        ensures works { result ≢ Err Cut.Write → K.failures sink.new ≡ K.failures sink.old }
        ensures fails { result ≡ Err Cut.Write → K.failures sink.new ≢ K.failures sink.old }
    {
        let mut from = 0;
        let mut next = self.world_core.upcoming();
        while from <= until {
            let (later, further) = self.finish_next(alloc, from, next, until, observer, sink)?;
            from = later;
            next = further;
        }
        Ok(())
    }

    /// It goes on up to a time, at most `LAST_MOMENT`, which hasn't passed, before an observer: what is pending
    /// happens, one act after another, each of them the next that is due then, and the observer sees each as it was
    /// done. The buffer of a frame that it saw arrive stands ready for another then. After `Ok` that is its time, and
    /// nothing that is due by then is left.
    ///
    /// Errors: [`Cut::Write`] exactly where a write failed; [`Cut::Memory`] where the observer says so, or there is no
    /// memory for the next act. Then it has gone on up to there, by whole acts, and what the observer told until then
    /// stands written, or a front of it.
    pub fn go_on<O: Observer, K: Sink>(
        &mut self,
        alloc: Global,
        until: u64,
        observer: &mut O,
        sink: &mut K,
    ) -> Result<(), Cut>
        requires moment { IsMoment until }
        requires ahead { self.old.world_core.time ≤ until }
        ensures gone { OnOk result (PassesSeen F.answers O.tells until self.old.fate self.new.fate self.old.world_core
            self.new.world_core observer.old observer.new (Appends (K.written sink.old) (K.written sink.new))) }
        ensures broken { OnErr result ((o_after : O) × Follows F.answers O.tells until self.old.fate self.new.fate
            self.old.world_core self.new.world_core observer.old o_after (AppendsSome (K.written sink.old) (K.written sink.new))) }
        ensures works { result ≢ Err Cut.Write → K.failures sink.new ≡ K.failures sink.old }
        ensures fails { result ≡ Err Cut.Write → K.failures sink.new ≢ K.failures sink.old }
    {
        self.well_formed();
        self.finish_by(alloc, until, observer, sink)?;
        self.world_core.wait(until);
        Ok(())
    }
}
