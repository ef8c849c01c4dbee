//! Keys that aren't read.

ghost use Rattle.std.specs.Prelude.{◌≡◌, [], ◌∷◌, ◌++◌, IfOk, OnOk, Some, if◌then◌else◌, map, option_map, string_bytes};
ghost use Rattle.toml.specs.View.{table_view};
ghost use Rattle.gptp_lint.specs.Outline.{entries_view, entry_view, outline_state};
ghost use Rattle.gptp_lint.specs.UnreadKeys.{AppendsUnread, HaveSeen, by_part, first_unread, found_view, in_part, meant_in, of_part, with_key};

use crate::escaped::Escaped;
use crate::keys::{absent_at, is_known, keys_at};
use crate::nearest::{NearWords, nearest};
use crate::outline::{Entry, Outline};
use crate::place::{PlaceWords, number_of, part_of};
use std::alloc::{AllocError, Global};
use std::collections::BTreeSet;
use toml::Table;

/// Puts a key after others, if it isn't read, and not there yet.
fn push_unread<'a>(
    seen: &mut BTreeSet<((u8, usize), &'a [u8])>,
    unread: &mut Vec<&'a Entry>,
    document: &Table,
    entry: &'a Entry,
) -> Result<(), AllocError>
    requires seen { HaveSeen seen.old (found_view unread.old.items) }
    ensures seen { OnOk result (HaveSeen seen.new (found_view unread.new.items)) }
    ensures pushed { OnOk result (found_view unread.new.items
        ≡ with_key (table_view document.now) (found_view unread.old.items) (entry_view entry.now)) }
{
    if is_known(keys_at(document, entry.place), &entry.key) {
        return Ok(());
    }
    let added = seen.insert((
        (part_of(entry.place), number_of(entry.place)),
        entry.key.as_slice(),
    ))?;
    if !added {
        return Ok(());
    }
    unread.push(entry)?;
    Ok(())
}

/// The keys that aren't read, each where it comes first at its place.
fn first_unread<'a>(
    alloc: Global,
    document: &Table,
    entries: &'a [Entry],
) -> Result<Vec<&'a Entry>, AllocError>
    ensures { IfOk result (λ unread. found_view unread.items
        ≡ first_unread (table_view document.now) (map entry_view entries.now)) }
{
    let mut seen = BTreeSet::new(alloc);
    let mut unread = Vec::new(alloc);
    for entry in entries {
        push_unread(&mut seen, &mut unread, document, entry)?;
    }
    Ok(unread)
}

/// The key that was meant by one that isn't read, if any is near.
fn meant(
    alloc: Global,
    document: &Table,
    entry: &Entry,
) -> Result<Option<&'static [u8]>, AllocError>
    ensures { IfOk result (λ near. option_map (λ key. key.now) near
        ≡ meant_in (Some (table_view document.now)) (entry_view entry.now)) }
{
    let absent = absent_at(alloc, document, entry.place)?;
    nearest(alloc, &entry.key, &absent)
}

/// Appends the line of a key that isn't read.
fn write_unknown(
    alloc: Global,
    text: &mut String,
    document: &Table,
    outline: &Outline,
    entry: &Entry,
) -> Result<(), AllocError>
    ensures { OnOk result (AppendsUnread (Some (table_view document.now)) (outline_state outline.now)
        (entry_view entry.now ∷ []) (string_bytes text.old) (string_bytes text.new)) }
{
    let near = meant(alloc, document, entry)?;
    let place = PlaceWords {
        place: entry.place,
        line: outline.line(entry.place),
    };
    writeln!(
        text,
        "unknown {place} key {}{}",
        Escaped(&entry.key),
        NearWords(near)
    )
}

/// Appends the line of a key, where it is in a part.
fn write_in_part(
    alloc: Global,
    text: &mut String,
    document: &Table,
    outline: &Outline,
    part: u8,
    entry: &Entry,
) -> Result<(), AllocError>
    ensures { OnOk result (AppendsUnread (Some (table_view document.now)) (outline_state outline.now)
        (if in_part part (entry_view entry.now) then entry_view entry.now ∷ [] else [])
        (string_bytes text.old) (string_bytes text.new)) }
{
    if part_of(entry.place) == part {
        write_unknown(alloc, text, document, outline, entry)
    } else {
        Ok(())
    }
}

/// Appends the lines of the keys of a part.
fn write_part(
    alloc: Global,
    text: &mut String,
    document: &Table,
    outline: &Outline,
    part: u8,
    unread: &[&Entry],
) -> Result<(), AllocError>
    ensures { OnOk result (AppendsUnread (Some (table_view document.now)) (outline_state outline.now)
        (of_part part (found_view unread.now)) (string_bytes text.old) (string_bytes text.new)) }
{
    for entry in unread {
        write_in_part(alloc, text, document, outline, part, *entry)?;
    }
    Ok(())
}

/// Appends the lines of the keys at the top and in `[network]`.
fn write_head(
    alloc: Global,
    text: &mut String,
    document: &Table,
    outline: &Outline,
    unread: &[&Entry],
) -> Result<(), AllocError>
    ensures { OnOk result (AppendsUnread (Some (table_view document.now)) (outline_state outline.now)
        (of_part 0 (found_view unread.now) ++ of_part 1 (found_view unread.now))
        (string_bytes text.old) (string_bytes text.new)) }
{
    write_part(alloc, text, document, outline, 0, unread)?;
    write_part(alloc, text, document, outline, 1, unread)
}

/// Appends the lines of the keys of members.
fn write_sections(
    alloc: Global,
    text: &mut String,
    document: &Table,
    outline: &Outline,
    unread: &[&Entry],
) -> Result<(), AllocError>
    ensures { OnOk result (AppendsUnread (Some (table_view document.now)) (outline_state outline.now)
        (of_part 2 (found_view unread.now) ++ (of_part 3 (found_view unread.now) ++ of_part 4 (found_view unread.now)))
        (string_bytes text.old) (string_bytes text.new)) }
{
    write_part(alloc, text, document, outline, 2, unread)?;
    write_part(alloc, text, document, outline, 3, unread)?;
    write_part(alloc, text, document, outline, 4, unread)
}

/// Appends the lines of the keys that aren't read.
pub(crate) fn write_unknown_keys(
    alloc: Global,
    text: &mut String,
    document: &Table,
    outline: &Outline,
) -> Result<(), AllocError>
    ensures { OnOk result (AppendsUnread (Some (table_view document.now)) (outline_state outline.now)
        (by_part (first_unread (table_view document.now) (entries_view outline.now.entries)))
        (string_bytes text.old) (string_bytes text.new)) }
{
    let unread = first_unread(alloc, document, &outline.entries)?;
    write_head(alloc, text, document, outline, &unread)?;
    write_sections(alloc, text, document, outline, &unread)
}
