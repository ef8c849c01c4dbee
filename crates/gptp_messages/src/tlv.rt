//! TLVs: typed values of any length after the fixed part of a message (IEEE 1588-2019, 14.1).

ghost use Rattle.std.specs.Prelude.{◌≡◌, IfOk, IfErr, Some, None, if◌then◌else◌};
ghost use Rattle.std.specs.Option.{option_copied};
ghost use Rattle.gptp_messages.specs.Tlv.{is_information, is_of_kind, IsFront, HasFront, FirstTlv, HasTlvs, either};

use crate::frame::{u16_at, u48_at};
use crate::refused::Refused;

/// The tlvType of a path trace (IEEE 1588-2019, 16.2 and table 52).
pub(crate) const PATH_TRACE: u16 = 0x0008;

/// The tlvType of an organization's TLV (IEEE 1588-2019, 14.3.2 and table 52).
pub(crate) const ORGANIZATION_EXTENSION: u16 = 0x0003;

/// organizationId 00-80-C2 and organizationSubType 00-00-01 (IEEE 802.1AS-2020, 11.4.4.3.3 and 11.4.4.3.4).
pub(crate) const INFORMATION: u64 = 0x0080_C200_0001;

/// The TLVs that are looked for. All others are passed over.
#[derive(Clone, Copy, Debug, PartialEq, Eq)]
pub(crate) enum TlvKind {
    /// The clocks that an Announce passed.
    PathTrace,
    /// The Follow_Up information TLV, with the rate.
    Information,
}

impl TlvKind {
    /// Whether a TLV is of the kind.
    fn is_of(self, tlv_type: u16, value: &[u8]) -> bool
        ensures { result ≡ is_of_kind self (record { tlv_type = tlv_type; value = value.now }) }
    {
        match self {
            TlvKind::PathTrace => tlv_type == PATH_TRACE,
            TlvKind::Information => tlv_type == ORGANIZATION_EXTENSION && is_information(value),
        }
    }
}

/// Whether an organization's TLV is the information TLV of a Follow_Up. One of fewer than six octets is none.
fn is_information(value: &[u8]) -> bool
    ensures { result ≡ is_information value.now }
{
    value.len() >= 6 && u48_at(value, 0) == INFORMATION
}

/// The TLV at the front of the octets: its type, its value, and the octets after it.
fn split_tlv(octets: &[u8]) -> Result<(u16, &[u8], &[u8]), Refused>
    ensures front { IfOk result (λ t. IsFront octets.now t.0 t.1.now t.2.now) }
    ensures refused { IfErr result (λ e. (e ≡ Refused.Tlv) × (HasFront octets.now → ⊥)) }
{
    if octets.len() < 4 {
        return Err(Refused::Tlv);
    }
    let length = usize::from(u16_at(octets, 2));
    let (_, behind) = octets.split_at(4);
    if behind.len() < length {
        return Err(Refused::Tlv);
    }
    let (value, rest) = behind.split_at(length);
    Ok((u16_at(octets, 0), value, rest))
}

/// The value of the first TLV of a kind. The octets have to be TLVs and nothing else.
pub(crate) fn first_tlv(octets: &[u8], kind: TlvKind) -> Result<Option<&[u8]>, Refused>
    ensures found { IfOk result (λ value. FirstTlv kind octets.now (option_copied value)) }
    ensures refused { IfErr result (λ e. (e ≡ Refused.Tlv) × (HasTlvs octets.now → ⊥)) }
{
    let mut found = None;
    let mut rest = octets;
    while !rest.is_empty() {
        let (tlv_type, value, behind) = split_tlv(rest)?;
        found = first_of(found, kind.is_of(tlv_type, value), value);
        rest = behind;
    }
    Ok(found)
}

/// What is found already, or else this value where it is wanted.
fn first_of<'a>(found: Option<&'a [u8]>, wanted: bool, value: &'a [u8]) -> Option<&'a [u8]>
    ensures { option_copied result ≡ either (option_copied found.entry) (if wanted then Some value.now else None) }
{
    match found {
        None if wanted => Some(value),
        known => known,
    }
}
