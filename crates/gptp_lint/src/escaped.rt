//! Texts of a document as words of a line.

ghost use Rattle.std.specs.Prelude.{◌≡◌};
ghost use Rattle.gptp_lint.specs.Unread.{is_plain};

use gptp_words::OctetDigits;
use std::fmt;

/// How many octets of a text are shown.
const SHOWN: usize = 64;

/// The front of a text, shown in one word: octets that aren't printed, and `\`, as `\x` and two digits; an empty text
/// as `\`.
#[derive(Clone, Copy)]
pub(crate) struct Escaped<'a>(pub &'a [u8]);

/// Whether an octet is shown as it is.
fn is_plain(octet: u8) -> bool
    ensures { result ≡ is_plain octet }
{
    0x21 <= octet && octet <= 0x7e && octet != b'\\'
}

/// An octet of such a text.
#[derive(Clone, Copy)]
struct EscapedOctet(u8);

impl fmt::Display for EscapedOctet {
    ghost use Rattle.std.specs.Prelude.{Some};
    ghost use Rattle.gptp_lint.specs.Unread.{escaped_octet};

    ghost output = { λ octet. Some (escaped_octet octet.0) };

    fn fmt<W: fmt::Write>(&self, f: &mut fmt::Formatter<W>) -> fmt::Result {
        let EscapedOctet(octet) = *self;
        if is_plain(octet) {
            f.write_char(char::from(octet))
        } else {
            write!(f, "\\x{}", OctetDigits(&[octet]))
        }
    }
}

impl fmt::Display for Escaped<'_> {
    ghost use Rattle.std.specs.Prelude.{Some};
    ghost use Rattle.gptp_lint.specs.Unread.{escaped};

    ghost output = { λ text. Some (escaped text.0.now) };

    fn fmt<W: fmt::Write>(&self, f: &mut fmt::Formatter<W>) -> fmt::Result {
        let Escaped(text) = self;
        if text.is_empty() {
            return f.write_str("\\");
        }
        let (front, _) = text.split_at(SHOWN.min(text.len()));
        for octet in front {
            write!(f, "{}", EscapedOctet(*octet))?;
        }
        Ok(())
    }
}
