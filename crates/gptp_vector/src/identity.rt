//! The identity that a system is ranked by.

use crate::port::ClockId;
use byteorder::{BigEndian, ByteOrder};
use std::cmp::Ordering;
use std::marker::Model;

/// A systemIdentity (IEEE 802.1AS-2020, 10.3.2): fourteen octets, most significant first, of
/// priority1, clockClass, clockAccuracy, offsetScaledLogVariance, priority2 and clockIdentity. It is
/// seen as the number that they spell, below 2^112, and the lower is the better.
#[derive(Clone, Copy, Debug)]
pub struct Identity {
    number: u128,
}

impl Model for Identity {
    ghost use Rattle.std.specs.Prelude.{ℕ, ◌<◌, ◌^◌};

    ghost Value = { ℕ };

    ghost view = { λ i. i.number };

    ghost invariant = { λ i. i.number < 2 ^ 112 };

    ghost inverse = { λ n. record { number = n } };
}

impl Identity {
    ghost use Rattle.std.specs.Prelude.{◌≡◌, ◌+◌, ◌*◌, ◌/◌, ◌%◌, ◌^◌, ◌<◌, ◌↔◌, IsTrue};
    ghost use Rattle.byteorder.specs.Endian.{big_bytes, big_number};

    /// The identity that these octets spell.
    pub fn of_octets(octets: [u8; 14]) -> Self
        ensures { result ≡ big_number 14 octets }
    {
        Identity {
            number: BigEndian::read_uint128(&octets, 14),
        }
    }

    /// The octets that spell the identity.
    pub fn octets(self) -> [u8; 14]
        ensures { result ≡ big_bytes 14 self }
    {
        let mut octets = [0; 14];
        BigEndian::write_uint128(&mut octets, self.number, 14);
        octets
    }

    /// The clock of the system: the low eight octets.
    pub fn clock(self) -> ClockId
        ensures { result ≡ self % 2 ^ 64 }
    {
        ClockId::from((self.number % (1 << 64)) as u64)
    }

    /// Whether the system can be a grandmaster: its priority1 is below 255 (IEEE 802.1AS-2020,
    /// 8.6.2.1).
    pub fn capable(self) -> bool
        ensures { IsTrue result ↔ (self / 2 ^ 104 < 255) }
    {
        self.number >> 104 < 255
    }

    /// This identity with another priority1.
    pub fn with_priority1(self, priority1: u8) -> Self
        ensures { result ≡ priority1 * 2 ^ 104 + self % 2 ^ 104 }
    {
        Identity {
            number: u128::from(priority1) * (1 << 104) + self.number % (1 << 104),
        }
    }
}

impl PartialEq for Identity {
    ghost use Rattle.std.specs.Prelude.{nat_eq};
    ghost use Rattle.std.specs.Cmp.{nat_eq_equiv, partial_equiv_from_equiv};

    ghost eq = { nat_eq };

    ghost laws = { partial_equiv_from_equiv nat_eq_equiv };

    fn eq(&self, other: &Identity) -> bool {
        self.number == other.number
    }
}

impl Eq for Identity {
    ghost use Rattle.std.specs.Cmp.{nat_eq_equiv};

    ghost laws = { nat_eq_equiv };
}

impl PartialOrd for Identity {
    ghost use Rattle.std.proofs.Common.{rules};
    ghost use Rattle.std.specs.Cmp.{partial_order_from_own_ties};
    ghost use Rattle.std.specs.Cmp.Rules.{comparing};
    ghost use Rattle.std.specs.Ordering.{as_partial_cmp, nat_cmp};

    ghost partial_cmp = { as_partial_cmp nat_cmp };

    ghost laws = { partial_order_from_own_ties (Prim.search (comparing, rules)) (Prim.search (comparing, rules)) };

    fn partial_cmp(&self, other: &Identity) -> Option<Ordering> {
        Some(self.cmp(other))
    }
}

impl Ord for Identity {
    ghost use Rattle.std.proofs.Common.{rules};
    ghost use Rattle.std.specs.Cmp.{nat_cmp_total};
    ghost use Rattle.std.specs.Cmp.Rules.{comparing};
    ghost use Rattle.std.specs.Ordering.{nat_cmp};

    ghost cmp = { nat_cmp };

    ghost total = { nat_cmp_total };

    ghost matches_partial_cmp = { Prim.search (comparing, rules) };

    ghost matches_eq = { Prim.search (comparing, rules) };

    fn cmp(&self, other: &Identity) -> Ordering {
        self.number.cmp(&other.number)
    }
}
