//! The lines of a text.

ghost use Rattle.std.specs.Prelude.{◌≡◌, ◌<◌, ◌≤◌, ◌==◌, ◌∷◌, length};
ghost use Rattle.std.specs.List.{position_or_len};
ghost use Rattle.std.specs.Str.Lines.{lines, strip_carriage_return};

/// How many octets stand before the first line feed of a text.
fn line_length(text: &[u8]) -> usize
    ensures value { result ≡ position_or_len (λ octet. octet == 10) text.now }
    ensures bound { result ≤ length text.now }
{
    text.iter().take_while(|octet| **octet != b'\n').count()
}

/// The octets before a line feed, less a carriage return at their end.
fn without_carriage_return(line: &[u8]) -> &[u8]
    ensures { result.now ≡ strip_carriage_return line.now }
{
    line.strip_suffix(b"\r").unwrap_or(line)
}

/// The first line of a text that isn't empty, and what follows its line feed. A carriage return
/// directly before the line feed isn't part of the line; a last line may lack its line feed.
pub fn first_line(text: &[u8]) -> (&[u8], &[u8])
    requires { 0 < length text.now }
    ensures first { lines text.now ≡ result.0.now ∷ lines result.1.now }
    ensures shorter { length result.1.now < length text.now }
{
    let (line, rest) = text.split_at(line_length(text));
    if rest.is_empty() {
        return (line, rest);
    }
    let (_, rest) = rest.split_at(1);
    (without_carriage_return(line), rest)
}
