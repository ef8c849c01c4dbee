//! Priority vectors and their order.

use crate::identity::Identity;
use crate::port::{ClockId, PortId};
use std::cmp::Ordering;

/// A priority vector (IEEE 802.1AS-2020, 10.3.4): the root that is announced, how many steps away it
/// is, the port that announces it and the number of the port that hears it.
#[derive(Clone, Copy, Debug, PartialEq, Eq)]
pub struct Vector {
    /// The rootSystemIdentity.
    pub root: Identity,
    /// stepsRemoved: how many links lie between the source and the root.
    pub steps: u16,
    /// The sourcePortIdentity.
    pub source: PortId,
    /// The portNumber of the receiver.
    pub receiver: u16,
}

impl Vector {
    ghost use Rattle.std.specs.Prelude.{◌≡◌, ◌+◌, ◌<◌};
    ghost use Rattle.gptp_vector.specs.Vector.{order, path_of, system_vector, master_of};

    /// Which of two vectors is better: `Less` where this one is, by the first of root, steps, source
    /// clock, source port and receiving port in which they differ; the lower number is the better
    /// (IEEE 802.1AS-2020, 10.3.4).
    pub fn compare(&self, other: &Vector) -> Ordering
        ensures { result ≡ order self.now other.now }
    {
        self.root
            .cmp(&other.root)
            .then(self.steps.cmp(&other.steps))
            .then(self.source.clock.cmp(&other.source.clock))
            .then(self.source.port.cmp(&other.source.port))
            .then(self.receiver.cmp(&other.receiver))
    }

    /// What the vector is worth to its receiver: the same, one step farther from the root. The
    /// gmPathPriorityVector of IEEE 802.1AS-2020, 10.3.5.
    pub fn path(self) -> Self
        requires { self.steps < 65535 }
        ensures { result ≡ path_of self }
    {
        Vector {
            steps: self.steps + 1,
            ..self
        }
    }

    /// The vector of a system that is its own root: the systemPriorityVector of IEEE 802.1AS-2020,
    /// 10.3.5.
    pub fn system(identity: Identity) -> Self
        ensures { result ≡ system_vector identity }
    {
        Vector {
            root: identity,
            steps: 0,
            source: PortId {
                clock: identity.clock(),
                port: 0,
            },
            receiver: 0,
        }
    }

    /// What the system with this clock announces at this port, when it is `steps` away from `root`:
    /// the masterPriorityVector of IEEE 802.1AS-2020, 10.3.5.
    pub fn master(root: Identity, steps: u16, clock: ClockId, port: u16) -> Self
        ensures { result ≡ master_of root steps clock port }
    {
        Vector {
            root,
            steps,
            source: PortId { clock, port },
            receiver: port,
        }
    }
}
