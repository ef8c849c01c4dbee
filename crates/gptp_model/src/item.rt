//! What can be pending.

use gptp_links::Direction;
use gptp_setup::Timer;

/// What is to happen at its time. Systems and links are named by their places, from 0, in the order in which the
/// network took them: below 512 and 2,048, so that two octets hold them and an entry of an agenda is small.
#[derive(Clone, Copy, Debug, PartialEq, Eq)]
pub enum Item {
    /// A timer of a system expires.
    Expiry {
        /// The place of the system.
        place: u16,
        /// Its timer.
        timer: Timer,
    },
    /// The oldest frame in flight in one direction of a link arrives.
    Arrival {
        /// The place of the link.
        link: u16,
        /// The direction in which it goes.
        direction: Direction,
    },
}
