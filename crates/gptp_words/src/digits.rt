//! Octets, and what may be absent, as text.

ghost use Rattle.std.specs.Prelude.{◌≡◌, ◌≤◌, length};
ghost use Rattle.hex.specs.Hex.{encode_lower};

use gptp_scaled::ScaledNs;
use gptp_vector::{ClockId, Identity};
use std::fmt;

/// How many octets are written at a time.
const BLOCK: usize = 32;

/// Octets, shown as two hexadecimal digits each, with lower-case letters. It takes no memory.
#[derive(Clone, Copy)]
pub struct OctetDigits<'a>(pub &'a [u8]);

/// The digits of a block of octets, in the buffer.
fn digits_of<'a>(block: &[u8], buffer: &'a mut [u8; 64]) -> &'a str
    requires { length block.now ≤ 32 }
    ensures { result.now ≡ encode_lower block.now }
{
    let digits = &mut buffer[..2 * block.len()];
    hex::encode_to_slice(block, digits).unwrap();
    str::from_utf8(digits).unwrap()
}

impl fmt::Display for OctetDigits<'_> {
    ghost use Rattle.std.specs.Prelude.{Some};
    ghost use Rattle.hex.specs.Hex.{encode_lower};

    ghost output = { λ octets. Some (encode_lower octets.0.now) };

    fn fmt<W: fmt::Write>(&self, f: &mut fmt::Formatter<W>) -> fmt::Result {
        let mut buffer = [0; 64];
        for block in self.0.chunks(BLOCK) {
            f.write_str(digits_of(block, &mut buffer))?;
        }
        Ok(())
    }
}

/// A clock, shown as its eight octets.
#[derive(Clone, Copy)]
pub struct ClockDigits(pub ClockId);

impl fmt::Display for ClockDigits {
    ghost use Rattle.std.specs.Prelude.{Some};
    ghost use Rattle.gptp_words.specs.Digits.{clock_text};

    ghost output = { λ clock. Some (clock_text clock.0) };

    fn fmt<W: fmt::Write>(&self, f: &mut fmt::Formatter<W>) -> fmt::Result {
        let ClockDigits(clock) = self;
        write!(f, "{}", OctetDigits(&clock.octets()))
    }
}

/// A systemIdentity, shown as its fourteen octets.
#[derive(Clone, Copy)]
pub struct IdentityDigits(pub Identity);

impl fmt::Display for IdentityDigits {
    ghost use Rattle.std.specs.Prelude.{Some};
    ghost use Rattle.gptp_words.specs.Digits.{identity_text};

    ghost output = { λ identity. Some (identity_text identity.0) };

    fn fmt<W: fmt::Write>(&self, f: &mut fmt::Formatter<W>) -> fmt::Result {
        let IdentityDigits(identity) = self;
        write!(f, "{}", OctetDigits(&identity.octets()))
    }
}

/// A number that may be absent, shown in decimal or as `none`; a time in units of 2^-16 ns.
#[derive(Clone, Copy)]
pub struct OrNone<T>(pub Option<T>);

impl fmt::Display for OrNone<u8> {
    ghost use Rattle.std.specs.Prelude.{Some};
    ghost use Rattle.std.specs.Fmt.{decimal};
    ghost use Rattle.gptp_words.specs.Digits.{or_none};

    ghost output = { λ number. Some (or_none decimal number.0) };

    fn fmt<W: fmt::Write>(&self, f: &mut fmt::Formatter<W>) -> fmt::Result {
        match self.0 {
            Some(number) => write!(f, "{number}"),
            None => f.write_str("none"),
        }
    }
}

impl fmt::Display for OrNone<ScaledNs> {
    ghost use Rattle.std.specs.Prelude.{Some};
    ghost use Rattle.std.specs.Fmt.{signed_decimal};
    ghost use Rattle.gptp_words.specs.Digits.{or_none};

    ghost output = { λ number. Some (or_none signed_decimal number.0) };

    fn fmt<W: fmt::Write>(&self, f: &mut fmt::Formatter<W>) -> fmt::Result {
        match self.0 {
            Some(number) => write!(f, "{}", number.value()),
            None => f.write_str("none"),
        }
    }
}
