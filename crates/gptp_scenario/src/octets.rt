//! The octets of a frame.

ghost use Rattle.std.specs.Prelude.{◌≡◌, ◌<◌, ◌≤◌, ℕ, length, slice_index, IfSome, IfNone};
ghost use Rattle.gptp_lists.specs.Members.{In};

use std::marker::Model;

/// The octets of a frame, at most 2,116: as many as the longest frame of this profile has. They are seen as a list of
/// numbers.
#[derive(Debug, Drop)]
pub struct Octets {
    octets: Vec<u8>,
}

impl Model for Octets {
    ghost use Rattle.std.specs.Prelude.{◌≤◌, ℕ, List, length};

    ghost Value = { List ℕ };

    ghost view = { λ o. o.octets.items };

    ghost invariant = { λ o. length o.octets.items ≤ 2116 };
}

impl Octets {
    /// These octets, or `None` where there are more than 2,116.
    pub fn new(octets: Vec<u8>) -> Option<Self>
        ensures some { IfSome result (λ o. o ≡ octets.items) }
        ensures none { IfNone result (2116 < length octets.items) }
    {
        if octets.len() <= 2116 {
            Some(Octets { octets })
        } else {
            None
        }
    }

    /// The octets.
    pub fn as_slice(&self) -> &[u8]
        ensures is { result.now ≡ self.now }
        ensures few { length self.now ≤ 2116 }
    {
        &self.octets
    }

    /// There are at most 2,116, and each is below 256.
    #[tactic(auto, using(crate::proofs::OctetLemmas::each_below))]
    pub fn well_formed(&self)
        ensures few { length self.now ≤ 2116 }
        ensures octets { (octet : ℕ) → In octet self.now → octet < 256 }
    {
        are_octets(self.as_slice());
    }
}

/// The number at each place of a slice of octets is below 256.
fn are_octets(octets: &[u8])
    ensures { (place : ℕ) → slice_index octets.now place < 256 }
{
    let _ = octets;
}

impl PartialEq for Octets {
    ghost use Rattle.std.specs.Prelude.{bytes_eq};
    ghost use Rattle.std.specs.Cmp.{partial_equiv_from_equiv};
    ghost use Rattle.std.specs.Cmp.Lexicographic.{nat_list_eq_equiv};

    ghost eq = { bytes_eq };

    ghost laws = { partial_equiv_from_equiv nat_list_eq_equiv };

    fn eq(&self, other: &Octets) -> bool {
        self.as_slice() == other.as_slice()
    }
}

impl Eq for Octets {
    ghost use Rattle.std.specs.Cmp.Lexicographic.{nat_list_eq_equiv};

    ghost laws = { nat_list_eq_equiv };
}
