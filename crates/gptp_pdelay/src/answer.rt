//! The answer to a neighbour's request.

use gptp_scaled::ScaledNs;
use gptp_vector::PortId;

/// What a port has to answer to a request of its neighbour (IEEE 802.1AS-2020, 11.2.20).
#[derive(Clone, Copy, Debug, PartialEq, Eq, Hash)]
pub struct Answer {
    /// The port that sent the request.
    pub requester: PortId,
    /// The sequenceId of the request.
    pub sequence: u16,
    /// When the request came, on the own clock.
    pub t2: ScaledNs,
}
