//! A link between two ports.

use gptp_links::{Bounds, Direction};
use gptp_vector::PortId;

/// The two ports that a link joins.
#[derive(Clone, Copy, Debug)]
pub struct Join {
    /// The port at its end a.
    pub a: PortId,
    /// The port at its end b.
    pub b: PortId,
}

/// A link without the frames in flight on it.
#[derive(Clone, Copy, Debug)]
pub struct JoinedLink {
    /// The ports that it joins.
    pub join: Join,
    /// The bounds of what is sent.
    pub bounds: Bounds,
    /// Whether it is up.
    pub up: bool,
}

/// One direction of a link, by the place of the link.
#[derive(Clone, Copy, Debug, PartialEq, Eq)]
pub struct Lane {
    /// The place of the link, from 0.
    pub link: usize,
    /// The direction.
    pub direction: Direction,
}
