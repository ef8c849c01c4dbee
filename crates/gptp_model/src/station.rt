//! A system of the world.

use gptp_system::{Setup, System};

/// A system of the world: what it starts with, its state, and whether it is live. The state of a failed system says
/// nothing.
#[derive(Drop)]
pub struct Station {
    /// What it starts with, as it has become: a changed priority1 stays.
    pub setup: Setup,
    /// Its state.
    pub system: System,
    /// Whether it is live.
    pub live: bool,
}
