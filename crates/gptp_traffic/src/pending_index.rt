//! Where a timer has its place in the queue, and where the places of arrivals are listed.

ghost use Rattle.std.specs.Prelude.{◌≡◌, ◌<◌, ◌≤◌};
ghost use Rattle.gptp_setup.specs.declared.limits.TheConstants.{MOST_PORTS};
ghost use Rattle.gptp_model.specs.Item.{timer_kind, timer_port};
ghost use Rattle.gptp_model.specs.Pending.{arrival_place};
ghost use Rattle.gptp_traffic.specs.PendingIndex.{timer_place};

use gptp_links::Direction;
use gptp_setup::MOST_PORTS;
use gptp_system::Timer;

/// How many kinds of timers there are.
pub(crate) const TIMER_KINDS: usize = 7;

/// How many places belong to the timers of a kind that a system has: one for itself, and one for each port.
const KIND_SPAN: usize = MOST_PORTS + 1;

/// How many places belong to the timers of a system: for each kind one for the system, and one for each port.
pub(crate) const TIMER_SPAN: usize = TIMER_KINDS * KIND_SPAN;

/// The place of a timer.
pub(crate) fn timer_place(place: usize, timer: Timer) -> usize
    requires few { place < 512 }
    requires port { timer_port timer ≤ MOST_PORTS }
    ensures { result ≡ timer_place place timer }
{
    (place * TIMER_KINDS + timer_kind(timer)) * KIND_SPAN + timer_port(timer)
}

/// The kind of a timer.
pub(crate) fn timer_kind(timer: Timer) -> usize
    ensures kind { result ≡ timer_kind timer }
    ensures few { result < 7 }
{
    match timer {
        Timer::Pdelay(_) => 0,
        Timer::Respond(_) => 1,
        Timer::Announce(_) => 2,
        Timer::Age(_) => 3,
        Timer::Sync => 4,
        Timer::Relay => 5,
        Timer::Lapse => 6,
    }
}

/// The number of a timer's port, 0 where it belongs to the system.
fn timer_port(timer: Timer) -> usize
    ensures { result ≡ timer_port timer }
{
    match timer {
        Timer::Pdelay(port) | Timer::Respond(port) | Timer::Announce(port) | Timer::Age(port) =>
            usize::from(port),
        Timer::Sync | Timer::Relay | Timer::Lapse => 0,
    }
}

/// The place of the arrivals of a direction of a link.
pub(crate) fn arrival_place(link: usize, direction: Direction) -> usize
    requires { link < 2048 }
    ensures { result ≡ arrival_place link direction }
{
    match direction {
        Direction::FromA => link * 2,
        Direction::FromB => link * 2 + 1,
    }
}
