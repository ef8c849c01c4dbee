//! Why a network can't be had.

use std::alloc::AllocFailed;
use std::error::Error;
use std::fmt;

/// Why a network, a system or a link was refused.
#[derive(Clone, Copy, Debug, PartialEq, Eq)]
pub enum NetworkFault {
    /// A value lies outside of its range.
    OutOfRange = 4,
    /// Another system has that clock.
    DuplicateClock = 5,
    /// A link would join a system with itself.
    SelfLink = 6,
    /// Another link is at that port.
    PortTaken = 7,
    /// No system has that port.
    NoSuchPort = 8,
    /// The greatest delay is longer than the announce interval of a port.
    DelayTooLong = 9,
    /// There are as many as a network can have.
    TooMany = 11,
    /// The intervals don't go together.
    Timing = 12,
    /// There is no memory for it.
    OutOfMemory = 13,
}

impl fmt::Display for NetworkFault {
    ghost use Rattle.std.specs.Prelude.{Some};
    ghost use Rattle.gptp_scenario.specs.Faults.{network_fault_text};

    ghost output = { λ fault. Some (network_fault_text fault) };

    fn fmt<W: fmt::Write>(&self, f: &mut fmt::Formatter<W>) -> fmt::Result {
        f.write_str(match self {
            NetworkFault::OutOfRange => "4 OutOfRange",
            NetworkFault::DuplicateClock => "5 DuplicateClock",
            NetworkFault::SelfLink => "6 SelfLink",
            NetworkFault::PortTaken => "7 PortTaken",
            NetworkFault::NoSuchPort => "8 NoSuchPort",
            NetworkFault::DelayTooLong => "9 DelayTooLong",
            NetworkFault::TooMany => "11 TooMany",
            NetworkFault::Timing => "12 Timing",
            NetworkFault::OutOfMemory => "13 OutOfMemory",
        })
    }
}

impl Error for NetworkFault {}

impl<T: Drop> From<AllocFailed<T>> for NetworkFault {
    ghost use Rattle.std.specs.Prelude.{◌≡◌};
    ghost use Rattle.gptp_scenario.specs.declared.fault.NetworkFault.TheVariants.{OutOfMemory};

    ghost from_gives = { λ _ fault. fault ≡ OutOfMemory };

    fn from(_: AllocFailed<T>) -> Self {
        NetworkFault::OutOfMemory
    }
}
