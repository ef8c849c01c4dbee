//! What a system says when it is asked.

use crate::bench::{due, has_port};
use gptp_roles::Role;
use gptp_scaled::ScaledNs;
use gptp_system::{System, Timer};
use gptp_vector::Identity;
use std::test::Fail;

/// 500 ns, in units of 2^-16 ns.
const DELAY: i128 = 32_768_000;

/// What a port says: its role, whether it is asCapable, and its meanLinkDelay in units of 2^-16 ns.
pub type Port = (Role, bool, Option<i128>);

/// What a port that takes no part says.
pub const SILENT: Port = (Role::Disabled, false, None);

/// What a port says that measured its link, of 500 ns.
pub fn measured(role: Role) -> Port {
    (role, true, Some(DELAY))
}

/// The number of a time, in units of 2^-16 ns.
pub fn value(time: Option<ScaledNs>) -> Option<i128> {
    time.map(|time| time.value())
}

/// What a port of a system says.
pub fn says(system: &System, port: u8) -> Result<Port, Fail> {
    if !has_port(system, port) {
        return Err(Fail::from("no such port"));
    }
    Ok((
        system.role(port),
        system.capable(port),
        value(system.delay(port)),
    ))
}

/// What a system says of itself and of its port 1.
#[derive(Clone, Copy, Debug, PartialEq, Eq)]
pub struct Said {
    /// The root, the steps to it, and the Slave port.
    pub follows: (Identity, u16, Option<u8>),
    /// The offset, in units of 2^-16 ns.
    pub offset: Option<i128>,
    /// What port 1 says.
    pub port: Port,
    /// When the timers Announce, Age, Pdelay and Respond of port 1 expire, then Sync and Relay.
    pub timers: [Option<u64>; 6],
    /// How many clocks it announces.
    pub trace: usize,
}

/// All that a system says of itself and of its port 1.
pub fn all_of(system: &System) -> Result<Said, Fail> {
    Ok(Said {
        follows: system.follows(),
        offset: value(system.offset()),
        port: says(system, 1)?,
        timers: [
            due(system, Timer::Announce(1)),
            due(system, Timer::Age(1)),
            due(system, Timer::Pdelay(1)),
            due(system, Timer::Respond(1)),
            due(system, Timer::Sync),
            due(system, Timer::Relay),
        ],
        trace: system.trace().len(),
    })
}
