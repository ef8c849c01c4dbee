//! The words of a line.

ghost use Rattle.std.specs.Prelude.{◌≡◌, ◌≢◌, ◌≤◌, [], ◌∷◌, length, IfSome, IfNone};
ghost use Rattle.std.specs.List.{prefix_len, position_or_len};
ghost use Rattle.gptp_commands.specs.Words.{is_space_or_tab, words};

/// Whether an octet separates words.
fn is_blank(octet: u8) -> bool
    ensures { result ≡ is_space_or_tab octet }
{
    octet == b' ' || octet == b'\t'
}

/// How many blanks a text begins with.
fn blanks_before(text: &[u8]) -> usize
    ensures value { result ≡ prefix_len is_space_or_tab text.now }
    ensures bound { result ≤ length text.now }
{
    text.iter().take_while(|octet| is_blank(**octet)).count()
}

/// How many octets stand before the first blank of a text.
fn word_length(text: &[u8]) -> usize
    ensures value { result ≡ position_or_len is_space_or_tab text.now }
    ensures bound { result ≤ length text.now }
{
    text.iter().take_while(|octet| !is_blank(**octet)).count()
}

/// The first word of a text and what follows it, or nothing where the text has no word.
fn first_word(text: &[u8]) -> Option<(&[u8], &[u8])>
    ensures found { IfSome result (λ split. words text.now ≡ split.0.now ∷ words split.1.now) }
    ensures absent { IfNone result (words text.now ≡ []) }
{
    let (_, rest) = text.split_at(blanks_before(text));
    if rest.is_empty() {
        return None;
    }
    Some(rest.split_at(word_length(rest)))
}

/// The two words of a line, or nothing where it has fewer or more.
pub fn two_words(line: &[u8]) -> Option<(&[u8], &[u8])>
    ensures found { IfSome result (λ pair. words line.now ≡ pair.0.now ∷ pair.1.now ∷ []) }
    ensures absent { IfNone result (length (words line.now) ≢ 2) }
{
    let (first, rest) = first_word(line)?;
    let (second, rest) = first_word(rest)?;
    match first_word(rest) {
        None => Some((first, second)),
        Some(_) => None,
    }
}
