//! Where a certificate is wrong.

use gptp_vector::{ClockId, PortId};

/// The first place at which a certificate fails the test of its fault.
#[derive(Clone, Copy, Debug, PartialEq, Eq)]
pub enum Location {
    /// The system with this clock.
    System(ClockId),
    /// The link from this port to that.
    Link(PortId, PortId),
    /// This port.
    Port(PortId),
}
