//! Why a document is refused.

use gptp_scenario::NetworkFault;
use std::alloc::AllocFailed;
use std::error::Error;
use std::fmt;

/// The first test that a document fails.
#[derive(Clone, Copy, Debug, PartialEq, Eq)]
pub enum DocumentFault {
    /// The text is no TOML.
    NotToml = 1,
    /// A key is absent that has no default.
    MissingKey = 2,
    /// A value is of another kind.
    WrongKind = 3,
    /// A value lies outside of its range.
    OutOfRange = 4,
    /// Another system has that clock.
    DuplicateClock = 5,
    /// A link would join a system with itself.
    SelfLink = 6,
    /// Another link is at that port.
    PortTaken = 7,
    /// No system has that port.
    NoSuchPort = 8,
    /// The greatest delay is longer than the announce interval of a port.
    DelayTooLong = 9,
    /// An event is earlier than the one before.
    EventOrder = 10,
    /// There are more than a network can have.
    TooMany = 11,
    /// The intervals don't go together.
    Timing = 12,
    /// There is no memory for it.
    OutOfMemory = 13,
}

impl fmt::Display for DocumentFault {
    ghost use Rattle.std.specs.Prelude.{Some};
    ghost use Rattle.gptp_network.specs.Faults.{fault_text};

    ghost output = { λ fault. Some (fault_text fault) };

    fn fmt<W: fmt::Write>(&self, f: &mut fmt::Formatter<W>) -> fmt::Result {
        f.write_str(match self {
            DocumentFault::NotToml => "1 NotToml",
            DocumentFault::MissingKey => "2 MissingKey",
            DocumentFault::WrongKind => "3 WrongKind",
            DocumentFault::OutOfRange => "4 OutOfRange",
            DocumentFault::DuplicateClock => "5 DuplicateClock",
            DocumentFault::SelfLink => "6 SelfLink",
            DocumentFault::PortTaken => "7 PortTaken",
            DocumentFault::NoSuchPort => "8 NoSuchPort",
            DocumentFault::DelayTooLong => "9 DelayTooLong",
            DocumentFault::EventOrder => "10 EventOrder",
            DocumentFault::TooMany => "11 TooMany",
            DocumentFault::Timing => "12 Timing",
            DocumentFault::OutOfMemory => "13 OutOfMemory",
        })
    }
}

impl Error for DocumentFault {}

impl From<NetworkFault> for DocumentFault {
    ghost use Rattle.std.specs.Prelude.{◌≡◌};
    ghost use Rattle.gptp_network.specs.Faults.{document_fault};

    ghost from_gives = { λ network document. document ≡ document_fault network };

    fn from(fault: NetworkFault) -> Self {
        match fault {
            NetworkFault::OutOfRange => DocumentFault::OutOfRange,
            NetworkFault::DuplicateClock => DocumentFault::DuplicateClock,
            NetworkFault::SelfLink => DocumentFault::SelfLink,
            NetworkFault::PortTaken => DocumentFault::PortTaken,
            NetworkFault::NoSuchPort => DocumentFault::NoSuchPort,
            NetworkFault::DelayTooLong => DocumentFault::DelayTooLong,
            NetworkFault::TooMany => DocumentFault::TooMany,
            NetworkFault::Timing => DocumentFault::Timing,
            NetworkFault::OutOfMemory => DocumentFault::OutOfMemory,
        }
    }
}

impl<T: Drop> From<AllocFailed<T>> for DocumentFault {
    ghost use Rattle.std.specs.Prelude.{◌≡◌};
    ghost use Rattle.gptp_network.specs.declared.fault.DocumentFault.TheVariants.{OutOfMemory};

    ghost from_gives = { λ _ fault. fault ≡ OutOfMemory };

    fn from(_: AllocFailed<T>) -> Self {
        DocumentFault::OutOfMemory
    }
}
