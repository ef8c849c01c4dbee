//! The priority vector that a word of hexadecimal announces.

ghost use Rattle.std.specs.Prelude.{◌≡◌, IfOk, IfErr};
ghost use Rattle.gptp_commands.specs.Announced.{vector_of, AnnouncesVector, AnnouncesNothing, SaysVector};

use crate::failure::SimError;
use gptp_messages::{AnnounceView, Message, Refused, decode};
use gptp_vector::Vector;
use hex::FromHexError;
use std::alloc::Global;
use std::fmt;

/// Why a word announces no vector.
#[derive(Clone, Copy, Debug, PartialEq, Eq)]
pub enum WordFault {
    /// It isn't hexadecimal: its length is odd, or it has another character than a digit.
    Hex,
    /// Its octets are no Announce: no message, or one of another type.
    Message(Refused),
}

impl fmt::Display for WordFault {
    ghost use Rattle.std.specs.Prelude.{Some};
    ghost use Rattle.gptp_commands.specs.Announced.{word_fault_text};

    ghost output = { λ fault. Some (word_fault_text fault) };

    fn fmt<W: fmt::Write>(&self, f: &mut fmt::Formatter<W>) -> fmt::Result {
        match self {
            WordFault::Hex => f.write_str("hex"),
            WordFault::Message(refused) => write!(f, "{refused}"),
        }
    }
}

/// The vector of an Announce, as any port would hear it: the receiving port is 0.
fn vector_of(announce: &AnnounceView<'_>) -> Vector
    ensures { result ≡ vector_of announce.now }
{
    Vector {
        root: announce.body.root,
        steps: announce.body.steps,
        source: announce.head.source,
        receiver: 0,
    }
}

/// The vector that octets announce, or why they announce none.
fn announced_by(frame: &[u8]) -> Result<Vector, Refused>
    ensures vector { IfOk result (AnnouncesVector frame.now) }
    ensures nothing { IfErr result (AnnouncesNothing frame.now) }
{
    match decode(frame)? {
        Message::Announce(announce) => Ok(vector_of(&announce)),
        _ => Err(Refused::UnknownType),
    }
}

/// The vector that a word announces, or why it announces none. The only error is
/// [`SimError::Memory`].
pub fn announced(alloc: Global, word: &[u8]) -> Result<Result<Vector, WordFault>, SimError>
    ensures says { IfOk result (SaysVector word.now) }
    ensures memory { IfErr result (λ e. e ≡ SimError.Memory) }
{
    let frame = match hex::decode(alloc, word) {
        Ok(frame) => frame,
        Err(FromHexError::OutOfMemory) => return Err(SimError::Memory),
        Err(_) => return Ok(Err(WordFault::Hex)),
    };
    match announced_by(&frame) {
        Ok(vector) => Ok(Ok(vector)),
        Err(refused) => Ok(Err(WordFault::Message(refused))),
    }
}
