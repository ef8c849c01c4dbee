//! The numbers of lines.

ghost use Rattle.std.specs.Prelude.{◌≡◌, ◌≤◌, ◌==◌, count_by, length};
ghost use Rattle.gptp_outline.specs.Lines.{IsCounted, line_number};

/// A place in a text, from 0, and the number of its line, from 1.
#[derive(Clone, Copy)]
pub(crate) struct LineMark {
    pub place: usize,
    pub line: usize,
}

/// How many lines end in some octets.
fn feeds(octets: &[u8]) -> usize
    ensures { result ≡ count_by (λ octet. octet == 10) octets.now }
{
    octets.iter().filter(|octet| **octet == b'\n').count()
}

/// A mark that isn't after a place: this one, or the begin of the text.
fn mark_before(text: &str, mark: LineMark, place: usize) -> LineMark
    requires counted { IsCounted text.now mark }
    ensures counted { IsCounted text.now result }
    ensures before { result.place ≤ place }
{
    if mark.place <= place {
        mark
    } else {
        LineMark { place: 0, line: 1 }
    }
}

/// The mark of a place at or after another.
fn mark_after(text: &str, mark: LineMark, place: usize) -> LineMark
    requires counted { IsCounted text.now mark }
    requires before { mark.place ≤ place }
    requires within { place ≤ length text.now }
    ensures counted { IsCounted text.now result }
    ensures place { result.place ≡ place }
{
    let more = feeds(&text.as_bytes()[mark.place..place]);
    let line = mark.line + more;
    LineMark { place, line }
}

/// The mark of the place at which this is left of a text, mostly counted from another on.
pub(crate) fn mark_of(text: &str, mark: LineMark, start: &str) -> LineMark
    requires counted { IsCounted text.now mark }
    ensures counted { IsCounted text.now result }
    ensures line { result.line ≡ line_number text.now start.now }
{
    let place = text.len().saturating_sub(start.len());
    let before = mark_before(text, mark, place);
    mark_after(text, before, place)
}
