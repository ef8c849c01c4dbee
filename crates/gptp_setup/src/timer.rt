//! The timers of a system.

/// A timer. Ports are named by their number, from 1.
#[derive(Clone, Copy, Debug, PartialEq, Eq, PartialOrd, Ord, Hash)]
pub enum Timer {
    /// A Master port announces again (IEEE 802.1AS-2020, 10.3.16).
    Announce(u8),
    /// What a port received is too old (IEEE 802.1AS-2020, 10.7.3.2).
    Age(u8),
    /// A port asks again for the times of its neighbour (IEEE 802.1AS-2020, 11.2.19).
    Pdelay(u8),
    /// A port answers its neighbour (IEEE 802.1AS-2020, 11.2.20).
    Respond(u8),
    /// The system sends time of its own (IEEE 802.1AS-2020, 10.2.9).
    Sync,
    /// The system sends on the time that it received (IEEE 802.1AS-2020, 11.2.15).
    Relay,
    /// No time came over the Slave port for too long (syncReceiptTimeout; IEEE 802.1AS-2020, 10.7.3.1).
    Lapse,
}
