//! Which acts leave what is shown of every system as it was.

ghost use Rattle.std.specs.Prelude.{◌≡◌, ℕ, true};
ghost use Rattle.gptp_links.specs.declared.link.Direction.{Direction};
ghost use Rattle.gptp_scenario.specs.declared.change.Act.TheVariants.{Deliver};
ghost use Rattle.gptp_timeline.specs.Leaving.{FrameLeaves, LeavesAll, TimerLeaves, TypeLeaves, can_take_over};

use gptp_model::Carried;
use gptp_setup::Timer;
use gptp_world::{Act, Done};

/// Whether an expiry of a timer leaves what is shown of its system as it was, whatever that is.
fn timer_leaves(timer: Timer) -> bool
    ensures { result ≡ true → TimerLeaves timer }
{
    match timer {
        Timer::Announce(_) | Timer::Respond(_) | Timer::Sync | Timer::Relay => true,
        Timer::Age(_) | Timer::Pdelay(_) | Timer::Lapse => false,
    }
}

/// Whether a frame of a messageType leaves what is shown of the system that hears it as it was, whatever that is, and
/// is no Follow_Up.
fn type_leaves(number: u8) -> bool
    ensures { result ≡ true → TypeLeaves number }
{
    // Sync, Pdelay_Req and Pdelay_Resp.
    number == 0x0 || number == 0x2 || number == 0x3
}

/// Whether a frame does so.
fn frame_leaves(frame: &Carried) -> bool
    ensures { result ≡ true → FrameLeaves frame.now.items }
{
    match frame.message_type() {
        Some(number) => type_leaves(number),
        None => false,
    }
}

/// Whether a delivery of which this is told leaves what is shown of every system as it was, and nobody receives time by
/// it.
fn delivery_leaves(done: &Done) -> bool
    ensures { result ≡ true → (link : ℕ) (direction : Direction) → LeavesAll (Deliver link direction) done.now }
{
    match done {
        Done::Quiet => false,
        Done::Heard { frame, .. } => frame_leaves(frame),
    }
}

/// Whether an act that isn't an event, and of which this is told, leaves what is shown of every system as it was, and
/// nobody receives time by it.
pub(crate) fn leaves_all(act: &Act, done: &Done) -> bool
    ensures { result ≡ true → LeavesAll act.now done.now }
{
    match act {
        Act::Change(_) => false,
        Act::Expire { clock: _, timer } => timer_leaves(*timer),
        Act::Deliver { .. } => delivery_leaves(done),
    }
}

/// Whether a system can take over by an act: its Sync timer expires.
pub(crate) fn can_take_over(act: &Act) -> bool
    ensures { result ≡ can_take_over act.now }
{
    matches!(
        act,
        Act::Expire {
            timer: Timer::Sync,
            ..
        }
    )
}
