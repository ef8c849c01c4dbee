//! What is compared of a system after an act.

ghost use Rattle.std.specs.Prelude.{◌≡◌};
ghost use Rattle.gptp_timeline.specs.Compared.{compared_by_expiry, compared_by_frame, compared_by_type};

use gptp_model::Carried;
use gptp_setup::Timer;

/// What is compared of the system that an act is done to. Where that is as it was shown, so is all that is shown of it.
#[derive(Clone, Copy, Debug)]
pub(crate) enum Compared {
    /// All that is shown.
    All,
    /// Whether its offset is known.
    Known,
    /// The port with this number.
    Port(u16),
    /// Root, steps and Slave port, and the port with this number.
    Choice(u16),
}

/// What is compared of a system of which a timer expired.
pub(crate) fn compared_by_expiry(timer: Timer) -> Compared
    ensures { result ≡ compared_by_expiry timer }
{
    match timer {
        Timer::Pdelay(port) => Compared::Port(u16::from(port)),
        Timer::Age(port) => Compared::Choice(u16::from(port)),
        Timer::Announce(_) | Timer::Respond(_) | Timer::Sync | Timer::Relay | Timer::Lapse => {
            Compared::All
        }
    }
}

/// What is compared of a system that heard a frame of a messageType at a port.
fn compared_by_type(port: u16, number: u8) -> Compared
    ensures { result ≡ compared_by_type port number }
{
    match number {
        // A Follow_Up.
        0x8 => Compared::Known,
        // A Pdelay_Resp_Follow_Up.
        0xA => Compared::Port(port),
        // An Announce.
        0xB => Compared::Choice(port),
        _ => Compared::All,
    }
}

/// What is compared of a system that heard a frame at a port.
pub(crate) fn compared_by_frame(port: u16, frame: &Carried) -> Compared
    ensures { result ≡ compared_by_frame port frame.now.items }
{
    match frame.message_type() {
        Some(number) => compared_by_type(port, number),
        None => Compared::All,
    }
}
