//! What all systems read, with the sources that are told.

ghost use Rattle.std.specs.Prelude.{◌≡◌, None, OnOk, Some};
ghost use Rattle.gptp_timeline.specs.Readings.{put_reading, reading_among};
ghost use Rattle.gptp_timeline.specs.ToldSources.{IsAccount, ReadingsRise, without_untold};

use crate::readings::{KeptReading, SystemReading, TimeSource, put_reading, reading_among};
use crate::sources::{add_source, drop_untold};
use gptp_vector::ClockId;
use std::alloc::{AllocError, Global};
use std::marker::Model;

/// What each system reads by. It is seen as that.
#[derive(Drop)]
pub(crate) struct AllReadings {
    // What each system reads by, by rising clock.
    systems: Vec<SystemReading>,
    // The sources that are told: those from which some system reads.
    sources: Vec<TimeSource>,
}

impl Model for AllReadings {
    ghost use Rattle.gptp_timeline.specs.ToldSources.{IsAccount};
    ghost use Rattle.std.specs.Prelude.{List};
    ghost use Rattle.gptp_timeline.specs.declared.readings.SystemReading.{SystemReading};

    ghost Value = { List SystemReading };

    ghost view = { λ r. r.systems.items };

    ghost invariant = { λ r. IsAccount r.systems.items r.sources.items };
}

/// A system reads time by this from then on, whose source is told where it is so.
fn put_told(
    systems: &mut Vec<SystemReading>,
    sources: &mut Vec<TimeSource>,
    clock: ClockId,
    after: KeptReading,
)
    requires { ReadingsRise systems.old.items }
    ensures puts { systems.new.items ≡ put_reading clock (Some after) systems.old.items }
    ensures drops { sources.new.items ≡ without_untold after.source systems.new.items sources.old.items }
{
    let source = after.source;
    put_reading(systems, clock, Some(after));
    drop_untold(sources, systems, source);
}

/// A system that had no time reads time by this from then on.
fn put_first(
    systems: &mut Vec<SystemReading>,
    sources: &mut Vec<TimeSource>,
    clock: ClockId,
    after: KeptReading,
) -> Result<(), AllocError>
    requires account { IsAccount systems.old.items sources.old.items }
    requires none { reading_among systems.old.items clock ≡ None }
    ensures puts { OnOk result (systems.new.items ≡ put_reading clock (Some after) systems.old.items) }
    ensures account { IsAccount systems.new.items sources.new.items }
{
    add_source(sources, after.source)?;
    put_told(systems, sources, clock, after);
    Ok(())
}

/// A system that read time by another reading reads it by this from then on.
fn put_other(
    systems: &mut Vec<SystemReading>,
    sources: &mut Vec<TimeSource>,
    clock: ClockId,
    before: &KeptReading,
    after: KeptReading,
) -> Result<(), AllocError>
    requires account { IsAccount systems.old.items sources.old.items }
    requires before { reading_among systems.old.items clock ≡ Some before.now }
    ensures puts { OnOk result (systems.new.items ≡ put_reading clock (Some after) systems.old.items) }
    ensures account { IsAccount systems.new.items sources.new.items }
{
    add_source(sources, after.source)?;
    put_told(systems, sources, clock, after);
    drop_untold(sources, systems, before.source);
    Ok(())
}

/// A system that read time from the same source reads it by this from then on.
fn put_same(
    systems: &mut Vec<SystemReading>,
    sources: &[TimeSource],
    clock: ClockId,
    before: &KeptReading,
    after: KeptReading,
)
    requires account { IsAccount systems.old.items sources.now }
    requires before { reading_among systems.old.items clock ≡ Some before.now }
    requires same { before.now.source ≡ after.source }
    ensures puts { systems.new.items ≡ put_reading clock (Some after) systems.old.items }
    ensures account { IsAccount systems.new.items sources.now }
{
    put_reading(systems, clock, Some(after));
}

/// A system that read time by this, if it had time, reads it by the other from then on.
fn put(
    systems: &mut Vec<SystemReading>,
    sources: &mut Vec<TimeSource>,
    clock: ClockId,
    before: &Option<KeptReading>,
    after: KeptReading,
) -> Result<(), AllocError>
    requires account { IsAccount systems.old.items sources.old.items }
    requires before { before.now ≡ reading_among systems.old.items clock }
    ensures puts { OnOk result (systems.new.items ≡ put_reading clock (Some after) systems.old.items) }
    ensures account { IsAccount systems.new.items sources.new.items }
{
    match before {
        Some(old) => {
            if old.source == after.source {
                put_same(systems, sources, clock, old, after);
                return Ok(());
            }
            put_other(systems, sources, clock, old, after)
        }
        None => put_first(systems, sources, clock, after),
    }
}

/// A system that read time by this has no time any more.
fn lose_from(
    systems: &mut Vec<SystemReading>,
    sources: &mut Vec<TimeSource>,
    clock: ClockId,
    before: &KeptReading,
)
    requires account { IsAccount systems.old.items sources.old.items }
    requires before { reading_among systems.old.items clock ≡ Some before.now }
    ensures puts { systems.new.items ≡ put_reading clock None systems.old.items }
    ensures account { IsAccount systems.new.items sources.new.items }
{
    put_reading(systems, clock, None);
    drop_untold(sources, systems, before.source);
}

/// A system that had no time has none.
fn lose_none(systems: &mut Vec<SystemReading>, sources: &[TimeSource], clock: ClockId)
    requires account { IsAccount systems.old.items sources.now }
    requires none { reading_among systems.old.items clock ≡ None }
    ensures puts { systems.new.items ≡ put_reading clock None systems.old.items }
    ensures account { IsAccount systems.new.items sources.now }
{
    put_reading(systems, clock, None);
}

impl AllReadings {
    ghost use Rattle.std.specs.Prelude.{◌≡◌, [], None, IfOk, OnOk, Some};
    ghost use Rattle.gptp_timeline.specs.Readings.{put_reading, reading_among};
    ghost use Rattle.gptp_timeline.specs.ToldSources.{AreSources, IsAccount, ReadingsRise};

    /// Those of systems of which none has time.
    pub(crate) fn new(alloc: Global, systems: Vec<SystemReading>) -> Self
        requires { IsAccount systems.items [] }
        ensures { result ≡ systems.items }
    {
        AllReadings {
            systems,
            sources: Vec::new(alloc),
        }
    }

    /// Each system reads by the same. Refused for want of memory alone.
    pub(crate) fn copy(&self, alloc: Global) -> Result<Self, AllocError>
        ensures { IfOk result (λ readings. readings ≡ self.now) }
    {
        Ok(AllReadings {
            systems: Vec::from_slice(alloc, &self.systems)?,
            sources: Vec::from_slice(alloc, &self.sources)?,
        })
    }

    /// What each system reads by, by rising clock.
    pub(crate) fn systems(&self) -> &[SystemReading]
        ensures are { result.now ≡ self.now }
        ensures rise { ReadingsRise result.now }
    {
        &self.systems
    }

    /// The sources that are told.
    pub(crate) fn sources(&self) -> &[TimeSource]
        ensures { AreSources result.now self.now }
    {
        &self.sources
    }

    /// What the system with a clock reads time by, if it has time.
    pub(crate) fn of(&self, clock: ClockId) -> Option<KeptReading>
        ensures { result ≡ reading_among self.now clock }
    {
        reading_among(&self.systems, clock)
    }

    /// A system that read time by the one, if it had time, reads it by the other from then on.
    pub(crate) fn put(
        &mut self,
        clock: ClockId,
        before: &Option<KeptReading>,
        after: KeptReading,
    ) -> Result<(), AllocError>
        requires { before.now ≡ reading_among self.old clock }
        ensures { OnOk result (self.new ≡ put_reading clock (Some after) self.old) }
    {
        put(&mut self.systems, &mut self.sources, clock, before, after)
    }

    /// The system with a clock has no time any more.
    pub(crate) fn lose(&mut self, clock: ClockId)
        ensures { self.new ≡ put_reading clock None self.old }
    {
        match reading_among(&self.systems, clock) {
            Some(old) => lose_from(&mut self.systems, &mut self.sources, clock, &old),
            None => lose_none(&mut self.systems, &self.sources, clock),
        }
    }
}
