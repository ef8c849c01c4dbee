//! Why octets are no message.

use std::error::Error;
use std::fmt;

/// Why a frame is refused. The tests are made in the order of their numbers, but that a frame which
/// is shorter than its messageLength is found `Short` after `LengthField`. Shown as number and name.
#[derive(Clone, Copy, Debug, PartialEq, Eq, Hash)]
pub enum Refused {
    /// The frame has no whole header, or is shorter than its messageLength.
    Short = 1,
    /// majorSdoId isn't 1 or minorSdoId isn't 0.
    NotGptp = 2,
    /// versionPTP isn't 2.
    Version = 3,
    /// The messageType is none that is read.
    UnknownType = 4,
    /// messageLength is below the least that the message has.
    LengthField = 5,
    /// domainNumber isn't 0.
    Domain = 6,
    /// The TLVs don't fill their place, the first path trace of an Announce isn't a list of
    /// clockIdentities, or a Follow_Up has no information TLV or a first one that hasn't 28 octets.
    Tlv = 7,
    /// A timestamp has a whole second or more of nanoseconds.
    StampRange = 8,
}

impl fmt::Display for Refused {
    ghost use Rattle.std.specs.Prelude.{Some};
    ghost use Rattle.gptp_messages.specs.Refused.{refusal_text};

    ghost output = { λ r. Some (refusal_text r) };

    fn fmt<W: fmt::Write>(&self, f: &mut fmt::Formatter<W>) -> fmt::Result {
        f.write_str(match self {
            Refused::Short => "1 Short",
            Refused::NotGptp => "2 NotGptp",
            Refused::Version => "3 Version",
            Refused::UnknownType => "4 UnknownType",
            Refused::LengthField => "5 LengthField",
            Refused::Domain => "6 Domain",
            Refused::Tlv => "7 Tlv",
            Refused::StampRange => "8 StampRange",
        })
    }
}

impl Error for Refused {}
