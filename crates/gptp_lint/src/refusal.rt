//! The line of a document that is refused.

ghost use Rattle.std.specs.Prelude.{◌≡◌, ◌≤◌, ◌++◌, ◌∷◌, [], Err, Some, List, ℕ, IfOk, OnOk, length, map, option_map, string_bytes, take};
ghost use Rattle.toml.specs.View.{table_view};
ghost use Rattle.gptp_words.specs.Lines.{text_of};
ghost use Rattle.gptp_network.specs.Keys.{name_text};
ghost use Rattle.gptp_network.specs.ReadDocument.{read_document};
ghost use Rattle.gptp_outline.specs.Rows.{table_of};
ghost use Rattle.gptp_lint.specs.LintText.{refused_line};
ghost use Rattle.gptp_lint.specs.Outline.{entry_view, outline_state};
ghost use Rattle.gptp_lint.specs.Refusal.{TellsPlace, is_unread_at, meant_at, no_toml_words, refusal_tail, refusal_words, unread_at};

use crate::ending::end_of;
use crate::keys::{is_known, keys_at};
use crate::nearest::{NearWords, nearest};
use crate::outline::{Entry, Outline, outline_of};
use crate::place::{Place, PlaceWords, is_at};
use crate::why::WhyWords;
use gptp_network::{Document, DocumentFault, Name, Refusal, Why};
use std::alloc::{AllocError, Global};
use toml::Table;

/// What follows the fault of a text that stops being TOML after some octets.
fn tell_no_toml(alloc: Global, input: &[u8], count: usize) -> Result<String, AllocError>
    requires { count ≤ length input.now }
    ensures { IfOk result (λ tail. string_bytes tail ≡ no_toml_words (take count input.now)) }
{
    let mut tail = String::new(alloc);
    let (line, column) = end_of(&input[..count]);
    write!(tail, " text line {line} column {column}")?;
    Ok(tail)
}

/// Whether a key of a text is at a place and isn't among those that are read there.
fn is_unread_at(read: &[Name], place: Place, entry: &Entry) -> bool
    ensures { result ≡ is_unread_at (map name_text read.now) place (entry_view entry.now) }
{
    is_at(entry.place, place) && !is_known(read, &entry.key)
}

/// Puts a key of a text after others, if it is at a place and isn't among those that are read there.
fn push_unread_at<'a>(
    unread: &mut Vec<&'a [u8]>,
    read: &[Name],
    place: Place,
    entry: &'a Entry,
) -> Result<(), AllocError>
    ensures { OnOk result (map (λ key. key.now) unread.new.items ≡ map (λ key. key.now) unread.old.items
        ++ unread_at (map name_text read.now) place (entry_view entry.now ∷ [])) }
{
    if is_unread_at(read, place, entry) {
        unread.push(entry.key.as_slice())?;
    }
    Ok(())
}

/// The keys of a text at a place that aren't among those that are read there, in the order of the text.
fn unread_at<'a>(
    alloc: Global,
    read: &[Name],
    place: Place,
    entries: &'a [Entry],
) -> Result<Vec<&'a [u8]>, AllocError>
    ensures { IfOk result (λ unread. map (λ key. key.now) unread.items
        ≡ unread_at (map name_text read.now) place (map entry_view entries.now)) }
{
    let mut unread = Vec::new(alloc);
    for entry in entries {
        push_unread_at(&mut unread, read, place, entry)?;
    }
    Ok(unread)
}

/// The key that was meant at a place where the document is refused, maybe, if that is since one is missing.
fn meant_at<'a>(
    alloc: Global,
    document: &Table,
    outline: &'a Outline,
    place: Place,
    why: &Why,
) -> Result<Option<&'a [u8]>, AllocError>
    ensures { IfOk result (λ near. option_map (λ key. key.now) near
        ≡ meant_at (table_view document.now) (outline_state outline.now) place why.now) }
{
    match why {
        Why::Missing { key } => {
            let unread = unread_at(alloc, keys_at(document, place), place, &outline.entries)?;
            nearest(alloc, key.text().as_bytes(), &unread)
        }
        _ => Ok(None),
    }
}

/// What follows the fault of a table that is refused.
fn write_words(
    alloc: Global,
    refusal: &Refusal,
    line: Option<usize>,
    near: Option<&[u8]>,
) -> Result<String, AllocError>
    ensures { IfOk result (λ tail. string_bytes tail
        ≡ refusal_words refusal.now line (option_map (λ key. key.now) near.entry)) }
{
    let mut tail = String::new(alloc);
    let place = PlaceWords {
        place: Place::of(refusal.place),
        line,
    };
    write!(
        tail,
        " {place} {}{}",
        WhyWords(&refusal.why),
        NearWords(near)
    )?;
    Ok(tail)
}

/// What follows the fault of a text that spells a table, which is refused.
fn tell_refusal(
    alloc: Global,
    input: &[u8],
    document: &Table,
    refusal: &Refusal,
) -> Result<String, AllocError>
    requires { table_of input.now ≡ Some (table_view document.now) }
    ensures { IfOk result (λ tail. string_bytes tail
        ≡ refusal_tail input.now (table_view document.now) (Err refusal.now)) }
{
    let outline = outline_of(alloc, input)?;
    let place = Place::of(refusal.place);
    let near = meant_at(alloc, document, &outline, place, &refusal.why)?;
    let tail = write_words(alloc, refusal, outline.line(place), near)?;
    Ok(tail)
}

/// What follows the fault of a text that spells a table; nothing where that is a document.
fn tell_table(alloc: Global, input: &[u8], document: &Table) -> Result<String, AllocError>
    requires { table_of input.now ≡ Some (table_view document.now) }
    ensures { IfOk result (λ tail. string_bytes tail
        ≡ refusal_tail input.now (table_view document.now) (read_document (table_view document.now))) }
{
    match Document::of_table(alloc, document) {
        Ok(_document) => Ok(String::new(alloc)),
        Err(refusal) => match &refusal.why {
            Why::Memory => Err(AllocError),
            _ => tell_refusal(alloc, input, document, &refusal),
        },
    }
}

/// What follows the fault of a text: where it is refused, and why.
fn tell_place(alloc: Global, input: &[u8]) -> Result<String, AllocError>
    ensures { IfOk result (λ tail. TellsPlace input.now (string_bytes tail)) }
{
    match toml::table_from_slice(alloc, input) {
        Ok(document) => tell_table(alloc, input, &document),
        Err(error) => match error.span() {
            None => Err(AllocError),
            Some(span) => tell_no_toml(alloc, input, span.start),
        },
    }
}

/// Appends the line of a text that is refused as a document: the fault, where it is, and why it is one.
pub fn write_refusal(
    alloc: Global,
    text: &mut String,
    input: &[u8],
    fault: DocumentFault,
) -> Result<(), AllocError>
    ensures { OnOk result ((tail : List ℕ) × TellsPlace input.now tail
        × (string_bytes text.new ≡ string_bytes text.old ++ text_of (refused_line fault tail ∷ []))) }
{
    let tail = tell_place(alloc, input)?;
    write!(text, "refused {fault}")?;
    text.push_str(tail.as_str())?;
    text.push_str("\n")?;
    Ok(())
}
