//! The names of clocks and ports.

use byteorder::{BigEndian, ByteOrder};
use std::marker::Model;

/// A clockIdentity: eight octets that name one system (IEEE 1588-2019, 7.5.2.2), seen as the number
/// that they spell, most significant octet first. The lower number goes first.
#[derive(Clone, Copy, Debug, PartialEq, Eq, PartialOrd, Ord, Hash, Default)]
pub struct ClockId {
    number: u64,
}

impl Model for ClockId {
    ghost use Rattle.std.specs.Prelude.{ℕ};

    ghost Value = { ℕ };

    ghost view = { λ c. c.number };

    ghost inverse = { λ n. record { number = n } };
}

impl ClockId {
    ghost use Rattle.std.specs.Prelude.{◌≡◌};
    ghost use Rattle.byteorder.specs.Endian.{big_bytes, big_number};

    /// The clock that these octets name.
    pub fn of_octets(octets: [u8; 8]) -> Self
        ensures { result ≡ big_number 8 octets }
    {
        ClockId {
            number: BigEndian::read_u64(&octets),
        }
    }

    /// The octets that name the clock.
    pub fn octets(self) -> [u8; 8]
        ensures { result ≡ big_bytes 8 self }
    {
        let mut octets = [0; 8];
        BigEndian::write_u64(&mut octets, self.number);
        octets
    }
}

impl From<u64> for ClockId {
    ghost use Rattle.std.specs.Prelude.{◌≡◌};

    ghost from_gives = { λ number clock. clock ≡ number };

    fn from(number: u64) -> Self {
        ClockId { number }
    }
}

impl From<ClockId> for u64 {
    ghost use Rattle.std.specs.Prelude.{◌≡◌};

    ghost from_gives = { λ clock number. number ≡ clock };

    fn from(clock: ClockId) -> Self {
        clock.number
    }
}

/// A portIdentity: the system's clock and the number of one of its ports (IEEE 1588-2019, 7.5.2.1).
/// The ports of a system are numbered from 1.
#[derive(Clone, Copy, Debug, PartialEq, Eq, PartialOrd, Ord, Hash, Default)]
pub struct PortId {
    pub clock: ClockId,
    pub port: u16,
}
