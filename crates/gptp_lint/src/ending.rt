//! Where a text ends.

ghost use Rattle.std.specs.Prelude.{◌≡◌, ◌<◌};
ghost use Rattle.gptp_lint.specs.Ending.{begins_character, column_at_end, line_at_end};

/// Whether an octet begins a character.
fn begins_character(octet: u8) -> bool
    ensures { result ≡ begins_character octet }
{
    octet < 128 || 192 <= octet
}

/// The line and the column in which a text ends, both from 1; a column counts characters.
pub(crate) fn end_of(text: &[u8]) -> (usize, usize)
    ensures { result ≡ (line_at_end text.now, column_at_end text.now) }
{
    let mut line: usize = 1;
    let mut column: usize = 1;
    for octet in text {
        if *octet == b'\n' {
            line += 1;
            column = 1;
        } else if begins_character(*octet) {
            column += 1;
        }
    }
    (line, column)
}
