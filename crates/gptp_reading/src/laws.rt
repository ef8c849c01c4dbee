//! Laws on what is read: over one link, on a way, and at a system that follows its parent.

ghost use Rattle.gptp_reading.specs.ReadingLaws.{HeldIsRead, ReadingIsExact, ReadingIsRight, ReadingIsWithin};

use gptp_sync_machine::Coding;

/// What is read so long after a Sync came over a link is the root's time, but for the error of the link and what the
/// errors of the rates make of delay and span.
pub fn reading_is_within()
    ensures { ReadingIsWithin }
{}

/// What is read so long after a Sync came over a link of a way is within the time error there, and the error of the
/// rate so far times the span.
pub fn reading_is_right()
    ensures { ReadingIsRight }
{}

/// What is read from each Follow_Up that a system uses which follows its parent is within the time error, and the error
/// of the rate so far times the span. To the span the jitter of the link is added.
pub fn reading_is_exact<C: Coding>()
    ensures { ReadingIsExact C.says }
{}

/// What `System::reading` of gptp_system gives is what the system reads by, at every time.
pub fn held_is_read()
    ensures { HeldIsRead }
{}
