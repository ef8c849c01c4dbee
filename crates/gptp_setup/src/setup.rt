//! What a system is set up with.

ghost use Rattle.std.specs.Prelude.{◌≡◌, ◌≤◌, length};

use crate::limits::MOST_PORTS;
use arrayvec::ArrayVec;
use gptp_vector::Identity;

/// What is the same for all systems of a network. Intervals are given as the logarithm to base 2 of their seconds, as
/// logMessageInterval is (IEEE 802.1AS-2020, 10.7.2 and 11.5.2).
#[derive(Clone, Copy, Debug, PartialEq, Eq)]
pub struct Params {
    /// The announce interval of a port that is given none of its own, -4 to 4.
    pub announce: i8,
    /// The sync interval, -4 to 4.
    pub sync: i8,
    /// The interval of peer delay requests, -4 to 4.
    pub pdelay: i8,
    /// announceReceiptTimeout: after how many announce intervals what was heard is too old, 3 to 10.
    pub timeout: u8,
    /// allowedLostResponses: how many requests in a row may be lost, 1 to 255.
    pub lost: u8,
    /// meanLinkDelayThresh, in ns, 1 to 10^9.
    pub threshold: u64,
    /// How long a port takes to answer a request, in ns, 1 to 10^9.
    pub turnaround: u64,
    /// How long a bridge takes to send time on, in ns, 1 to 10^9.
    pub residence: u64,
    /// syncReceiptTimeout (IEEE 802.1AS-2020, 10.7.3.1): after how many sync intervals without time what the Slave port
    /// holds ages, 0 to 10; 0: never.
    pub sync_timeout: u8,
    /// Of what a time stamp is a multiple, in ns, 0 to 1000; 0: of one unit of 2^-16 ns.
    pub granularity: u16,
    /// By how much a time stamp may be off besides, in ns, 0 to 1000.
    pub noise: u16,
    /// Over how many exchanges a neighborRateRatio is measured, 1 to 16.
    pub window: u8,
}

/// What one system is set up with.
#[derive(Debug, Drop)]
pub struct Setup {
    /// Its system identity.
    pub identity: Identity,
    /// How many ports it has, 0 to [`MOST_PORTS`].
    pub ports: u8,
    /// What its local clock is ahead of true time at time 0, in ns, 0 to 10^18.
    pub phase: u64,
    /// How much faster its local clock runs, in units of 2^-41, -219,902,325 to 219,902,325: 100 parts in a million.
    pub drift: i32,
    /// Whether it goes on with the time that it read where it becomes grandmaster; otherwise it tells its local clock.
    pub continues: bool,
    /// The announce interval of each of its ports, the first of which has the number 1, -4 to `largest`.
    pub intervals: ArrayVec<i8, MOST_PORTS>,
    /// The largest announce interval of any port of the network, -4 to 4.
    pub largest: i8,
    /// From what the noise of its time stamps is drawn, with its clock and the time.
    pub seed: u64,
    /// What is the same for all systems.
    pub params: Params,
}

/// A copy of the intervals.
fn copy_intervals(intervals: &[i8]) -> ArrayVec<i8, MOST_PORTS>
    requires { length intervals.now ≤ MOST_PORTS }
    ensures { result.items ≡ intervals.now }
{
    let mut copies = ArrayVec::new();
    let _ = copies.try_extend_from_slice(intervals);
    copies
}

impl Setup {
    /// A copy of the setup. It takes no memory.
    pub fn copy(&self) -> Setup
        ensures { result ≡ self.now }
    {
        Setup {
            identity: self.identity,
            ports: self.ports,
            phase: self.phase,
            drift: self.drift,
            continues: self.continues,
            intervals: copy_intervals(self.intervals.as_slice()),
            largest: self.largest,
            seed: self.seed,
            params: self.params,
        }
    }
}
