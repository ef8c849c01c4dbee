//! The timers that a step of a system sets or stops.

ghost use Rattle.std.specs.Prelude.{◌≡◌};
ghost use Rattle.gptp_system.specs.TimersChanged.{asking_touches, heard_touches, is_used, selected_if, takes_place, timed_if};

use crate::answer::Answer;
use gptp_setup::Timer;

/// The timers of a system that a step can have set or stopped. All others are due when they were.
#[derive(Clone, Copy, Debug, PartialEq, Eq, Hash)]
pub enum TimersChanged {
    /// None.
    Nothing,
    /// This one alone.
    One(Timer),
    /// Those that time which comes over the Slave port changes: the Relay and the Lapse timer.
    Time,
    /// Those that selection can change: the Announce and the Age timer of every port, and the Relay and Lapse timers.
    Selected,
    /// Any.
    All,
}

/// Those that selection can change, where the system may have selected.
pub(crate) fn selected_if(selects: bool) -> TimersChanged
    ensures { result ≡ selected_if selects }
{
    match selects {
        true => TimersChanged::Selected,
        false => TimersChanged::Nothing,
    }
}

/// Those of a port that asks its neighbour, and may have stopped being asCapable before that.
pub(crate) fn asking_touches(stops: bool, port: u8) -> TimersChanged
    ensures { result ≡ asking_touches stops port }
{
    match stops {
        true => TimersChanged::All,
        false => TimersChanged::One(Timer::Pdelay(port)),
    }
}

/// Whether an Announce that is answered so took the place of what the port held.
fn takes_place(answer: Answer) -> bool
    ensures { result ≡ takes_place answer }
{
    match answer {
        Answer::Superior | Answer::Repeated => true,
        _ => false,
    }
}

/// Those of an Announce that is answered so: the Age timer of the port alone where it says again what the port received
/// last.
pub(crate) fn heard_touches(again: bool, answer: Answer, port: u8) -> TimersChanged
    ensures { result ≡ heard_touches again answer port }
{
    match again {
        true => TimersChanged::One(Timer::Age(port)),
        false => selected_if(takes_place(answer)),
    }
}

/// Whether a Follow_Up that is answered so was used.
pub(crate) fn is_used(answer: Answer) -> bool
    ensures { result ≡ is_used answer }
{
    match answer {
        Answer::Used => true,
        _ => false,
    }
}

/// Those that time which comes over the Slave port changes, where it may have come.
pub(crate) fn timed_if(used: bool) -> TimersChanged
    ensures { result ≡ timed_if used }
{
    match used {
        true => TimersChanged::Time,
        false => TimersChanged::Nothing,
    }
}
