//! Numbers, as words spell them.

ghost use Rattle.std.specs.Prelude.{◌≡◌, ◌≢◌, ◌≤◌, ◌<◌, ◌^◌, ◌↔◌, ℕ, decimal, length, IfSome, IfNone, IsTrue};
ghost use Rattle.hex.specs.Hex.{encode_lower};
ghost use Rattle.gptp_words.specs.Digits.{clock_text, identity_text};
ghost use Rattle.gptp_certificate_text.specs.Entries.{IsPortNumber};

use gptp_vector::{ClockId, Identity};
use hex::FromHex;
use itoa::Buffer;

/// Whether a word is these octets' digits.
fn spells(word: &[u8], octets: &[u8]) -> bool
    requires { length octets.now ≤ 14 }
    ensures { IsTrue result ↔ (word.now ≡ encode_lower octets.now) }
{
    let mut buffer = [0; 28];
    let digits = &mut buffer[..2 * octets.len()];
    hex::encode_to_slice(octets, digits).unwrap();
    word == &*digits
}

/// The clock that a word of sixteen digits names.
pub(crate) fn clock(word: &[u8]) -> Option<ClockId>
    ensures found { IfSome result (λ clock. word.now ≡ clock_text clock) }
    ensures absent { IfNone result ((clock : ℕ) → clock < 2 ^ 64 → word.now ≢ clock_text clock) }
{
    let octets = <[u8; 8] as FromHex>::from_hex(word).ok()?;
    let clock = ClockId::of_octets(octets);
    if spells(word, &clock.octets()) {
        Some(clock)
    } else {
        None
    }
}

/// The identity that a word of twenty-eight digits names.
pub(crate) fn identity(word: &[u8]) -> Option<Identity>
    ensures found { IfSome result (λ identity. word.now ≡ identity_text identity) }
    ensures absent { IfNone result ((identity : ℕ) → identity < 2 ^ 112 → word.now ≢ identity_text identity) }
{
    let octets = <[u8; 14] as FromHex>::from_hex(word).ok()?;
    let identity = Identity::of_octets(octets);
    if spells(word, &identity.octets()) {
        Some(identity)
    } else {
        None
    }
}

/// Whether a word is this number in decimal.
fn is_decimal(word: &[u8], number: u16) -> bool
    ensures { IsTrue result ↔ (word.now ≡ decimal number) }
{
    let mut buffer = Buffer::new();
    word == buffer.format(number).as_bytes()
}

/// The number up to 65535 that a word has in decimal.
pub(crate) fn number(word: &[u8]) -> Option<u16>
    ensures found { IfSome result (λ number. word.now ≡ decimal number) }
    ensures absent { IfNone result ((number : ℕ) → number ≤ 65535 → word.now ≢ decimal number) }
{
    let text = str::from_utf8(word).ok()?;
    let number: u16 = text.parse().ok()?;
    if is_decimal(word, number) {
        Some(number)
    } else {
        None
    }
}

/// The number of a port, from 1, that a word has in decimal.
pub(crate) fn port_number(word: &[u8]) -> Option<u16>
    ensures found { IfSome result (λ number. word.now ≡ decimal number) }
    ensures range { IfSome result (λ number. IsPortNumber number) }
    ensures absent { IfNone result ((number : ℕ) → IsPortNumber number → word.now ≢ decimal number) }
{
    let number = number(word)?;
    if number >= 1 { Some(number) } else { None }
}
