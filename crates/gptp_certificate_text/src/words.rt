//! The words of a line.

ghost use Rattle.std.specs.Prelude.{◌≡◌, ◌≢◌, ◌↔◌, ◌≤◌, ◌==◌, ◌∷◌, ◌++◌, not, List, ℕ, length, IfSome, IfNone, IsTrue};
ghost use Rattle.std.specs.List.{list_all, position_or_len};
ghost use Rattle.gptp_certificate_text.specs.Words.{is_blank, IsWord, Lacks};

/// Whether an octet is a tab, a line feed, a carriage return or a space.
fn is_blank(octet: u8) -> bool
    ensures { result ≡ is_blank octet }
{
    octet == b'\t' || octet == b'\n' || octet == b'\r' || octet == b' '
}

/// Whether a text has none of these.
fn is_plain(text: &[u8]) -> bool
    ensures { result ≡ list_all (λ octet. not (is_blank octet)) text.now }
{
    text.iter().all(|octet| !is_blank(*octet))
}

/// Whether a text is one word.
pub(crate) fn is_word(text: &[u8]) -> bool
    ensures { IsTrue result ↔ IsWord text.now }
{
    !text.is_empty() && is_plain(text)
}

/// How many octets stand before the first octet of this value.
fn length_before(octet: u8, text: &[u8]) -> usize
    ensures value { result ≡ position_or_len (λ other. other == octet) text.now }
    ensures bound { result ≤ length text.now }
{
    text.iter().take_while(|other| **other != octet).count()
}

/// What stands before and after the first octet of this value.
pub(crate) fn cut(octet: u8, text: &[u8]) -> Option<(&[u8], &[u8])>
    ensures found { IfSome result (λ parts. text.now ≡ parts.0.now ++ octet ∷ parts.1.now) }
    ensures first { IfSome result (λ parts. Lacks octet parts.0.now) }
    ensures absent { IfNone result (Lacks octet text.now) }
{
    let (front, back) = text.split_at(length_before(octet, text));
    match back.split_first() {
        None => None,
        Some((_, rest)) => Some((front, rest)),
    }
}

/// What stands after a text that begins with these octets.
pub(crate) fn after<'a>(front: &[u8], text: &'a [u8]) -> Option<&'a [u8]>
    ensures found { IfSome result (λ rest. text.now ≡ front.now ++ rest.now) }
    ensures absent { IfNone result ((rest : List ℕ) → text.now ≢ front.now ++ rest) }
{
    text.strip_prefix(front)
}

/// The word before the first space, and what stands after it.
pub(crate) fn word(text: &[u8]) -> Option<(&[u8], &[u8])>
    ensures found { IfSome result (λ parts. text.now ≡ parts.0.now ++ 32 ∷ parts.1.now) }
    ensures word { IfSome result (λ parts. IsWord parts.0.now) }
    ensures absent { IfNone result ((word rest : List ℕ) → IsWord word → text.now ≢ word ++ 32 ∷ rest) }
{
    let (word, rest) = cut(b' ', text)?;
    if is_word(word) {
        Some((word, rest))
    } else {
        None
    }
}

/// The word between these octets and the next space, and what stands after it.
pub(crate) fn value<'a>(key: &[u8], text: &'a [u8]) -> Option<(&'a [u8], &'a [u8])>
    ensures found { IfSome result (λ parts. text.now ≡ key.now ++ (parts.0.now ++ 32 ∷ parts.1.now)) }
    ensures word { IfSome result (λ parts. IsWord parts.0.now) }
    ensures absent { IfNone result ((word rest : List ℕ) → IsWord word → text.now ≢ key.now ++ (word ++ 32 ∷ rest)) }
{
    word(after(key, text)?)
}
