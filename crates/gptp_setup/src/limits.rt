//! The limits of a simulation.

/// The most ports of a system, which have the numbers from 1 on.
pub const MOST_PORTS: usize = 16;

/// The last time of a simulation, in ns.
pub const LAST_MOMENT: u64 = 1_000_000_000_000_000;
