//! One port of a system, apart from what it holds.

use gptp_pdelay::Peer;
use std::alloc::{AllocError, Global};

/// What a port keeps beside what it holds. Times are in ns.
#[derive(Debug, Drop)]
pub struct Port {
    /// The logarithm to base 2 of its announce interval in seconds (currentLogAnnounceInterval).
    pub log_interval: i8,
    /// The measuring of its link.
    pub peer: Peer,
    /// When it asks its neighbour next, where its link is up.
    pub pdelay: Option<u64>,
    /// When it answers its neighbour, if it owes an answer.
    pub respond: Option<u64>,
    /// When it announces next, where it is a Master port.
    pub announce: u64,
    /// The sequence number of its next Announce.
    pub announces: u16,
    /// The sequence number of its next Sync.
    pub syncs: u16,
}

impl Default for Port {
    ghost use Rattle.std.specs.Prelude.{⊤};

    ghost is_default = { λ _. ⊤ };

    /// A port that is none: it fills the places of ports that a system doesn't have.
    fn default() -> Self {
        Port {
            log_interval: 0,
            peer: Peer::default(),
            pdelay: None,
            respond: None,
            announce: 0,
            announces: 0,
            syncs: 0,
        }
    }
}

impl Port {
    ghost use Rattle.std.specs.Prelude.{◌≡◌, IfOk};

    /// The same port. Refused for want of memory alone.
    pub fn copy(&self, alloc: Global) -> Result<Port, AllocError>
        ensures { IfOk result (λ q. q ≡ self.now) }
    {
        Ok(Port {
            log_interval: self.log_interval,
            peer: self.peer.copy(alloc)?,
            pdelay: self.pdelay,
            respond: self.respond,
            announce: self.announce,
            announces: self.announces,
            syncs: self.syncs,
        })
    }
}
