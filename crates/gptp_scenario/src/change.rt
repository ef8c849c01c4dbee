//! What happens in a world.

use crate::octets::Octets;
use gptp_links::Direction;
use gptp_setup::Timer;
use gptp_vector::ClockId;

/// What is done to a network. A link is named by a port at one of its ends, and a system by its clock.
#[derive(Debug, Drop, PartialEq, Eq)]
pub enum Change {
    /// The link at that port goes down, and what is in flight on it is lost.
    LinkDown {
        clock: ClockId,
        port: u16,
    },
    /// The link at that port comes up.
    LinkUp {
        clock: ClockId,
        port: u16,
    },
    /// Frames that are sent on that link from then on have these bounds: the least and the greatest delay, in ns, and
    /// how many of a thousand are lost.
    LinkSet {
        clock: ClockId,
        port: u16,
        min: u64,
        max: u64,
        loss: u16,
    },
    /// The system falls silent.
    Fail {
        clock: ClockId,
    },
    /// The system starts again.
    Recover {
        clock: ClockId,
    },
    /// The system's priority1 becomes that value (IEEE 802.1AS-2020, 8.6.2.1).
    Priority1 {
        clock: ClockId,
        value: u8,
    },
    /// These octets enter the link at that port as a frame, as if its system had sent it. Where the link is down
    /// nothing is sent.
    Inject {
        clock: ClockId,
        port: u16,
        octets: Octets,
    },
}

/// What happens in a world at once.
#[derive(Debug, Drop, PartialEq, Eq)]
pub enum Act {
    /// The oldest frame in flight on the link with that number arrives.
    Deliver { link: usize, direction: Direction },
    /// A timer of a system expires.
    Expire { clock: ClockId, timer: Timer },
    /// The network is changed.
    Change(Change),
}

/// An act, and when it happens, in ns.
#[derive(Debug, Drop, PartialEq, Eq)]
pub struct Timed {
    pub at: u64,
    pub act: Act,
}
