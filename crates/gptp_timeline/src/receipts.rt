//! Receipts of time.

ghost use Rattle.std.specs.Prelude.{◌≡◌, ◌-ℤ◌, ◌++◌, ◌∷◌, [], OnOk, string_bytes};
ghost use Rattle.gptp_setup.specs.Intervals.{IsMoment};
ghost use Rattle.gptp_system.specs.State.{local_time};
ghost use Rattle.gptp_system.specs.Takeover.{told_time};
ghost use Rattle.gptp_timeline.specs.Receipts.{offset_error, is_follow_up, offset_line, received_by, receiver_clock};

use crate::amounts::SignedOrNone;
use crate::readings::told_by;
use gptp_links::Fate;
use gptp_model::{Carried, Done};
use gptp_scaled::ScaledNs;
use gptp_system::{Answer, System};
use gptp_vector::ClockId;
use gptp_words::ClockDigits;
use gptp_world::World;
use std::alloc::AllocError;

/// Whether a frame is a Follow_Up, by its messageType.
pub(crate) fn is_follow_up(frame: &Carried) -> bool
    ensures { result ≡ is_follow_up frame.now.items }
{
    match frame.message_type() {
        Some(number) => number == 8,
        None => false,
    }
}

/// The clock, where a frame that was answered so is a Follow_Up that was used.
fn receiver(clock: ClockId, answer: Option<Answer>, frame: &Carried) -> Option<ClockId>
    ensures { result ≡ receiver_clock clock answer frame.now.items }
{
    match answer {
        Some(Answer::Used) => match is_follow_up(frame) {
            true => Some(clock),
            false => None,
        },
        _ => None,
    }
}

/// The system that receives time by an act of which this is told, if one does.
pub(crate) fn received_by(done: &Done) -> Option<ClockId>
    ensures { result ≡ received_by done.now }
{
    match done {
        Done::Quiet => None,
        Done::Heard {
            clock,
            port: _,
            answer,
            frame,
        } => receiver(*clock, *answer, frame),
    }
}

/// How far a local clock that is `offset` ahead by its own account is off at a time, where another system is the
/// grandmaster: in units of 2^-16 ns.
fn error_against(at: u64, offset: ScaledNs, system: &System, leader: &System) -> i128
    requires { IsMoment at }
    ensures { result ≡ offset -ℤ (local_time system.now at -ℤ told_time leader.now at) }
{
    offset.value() - (system.local(at).value() - told_by(leader.local(at), leader.base()))
}

/// How far the offset of a live system is off at a time, in units of 2^-16 ns: that less what its local time is ahead
/// of what the system tells whose clock its root names; none where that doesn't live, or no offset is known.
pub(crate) fn error_of<F: Fate + Drop>(at: u64, system: &System, world: &World<F>) -> Option<i128>
    requires { IsMoment at }
    ensures { result ≡ offset_error at system.now world.now.world_core }
{
    world.well_formed();
    let (root, _, _) = system.follows();
    match system.offset() {
        Some(offset) => match world.system(root.clock()) {
            Some(leader) => Some(error_against(at, offset, system, leader)),
            None => None,
        },
        None => None,
    }
}

/// A time in units of 2^-16 ns.
fn value_of(time: Option<ScaledNs>) -> Option<i128>
    ensures { result ≡ time }
{
    match time {
        Some(time) => Some(time.value()),
        None => None,
    }
}

/// Appends the line of a receipt. The only error is that memory ran out; what is appended then may be cut.
pub(crate) fn write_offset(
    text: &mut String,
    at: u64,
    clock: ClockId,
    offset: Option<ScaledNs>,
    error: Option<i128>,
) -> Result<(), AllocError>
    ensures { OnOk result (string_bytes text.new
        ≡ string_bytes text.old ++ (offset_line at clock offset error ++ 10 ∷ [])) }
{
    writeln!(
        text,
        "offset {at} {} {} error {}",
        ClockDigits(clock),
        SignedOrNone(value_of(offset)),
        SignedOrNone(error)
    )
}
