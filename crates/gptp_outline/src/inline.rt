//! The keys of inline tables.

ghost use Rattle.std.specs.Prelude.{◌≡◌, ◌<◌, ℕ, List, Some, IfOk, length, map};
ghost use Rattle.toml_parser.specs.Reading.{key_view};
ghost use Rattle.toml.specs.Data.{Data, Items, Members, no_items};
ghost use Rattle.toml.specs.Tables.{no_nodes};
ghost use Rattle.toml.specs.Parse as spec;
ghost use Rattle.gptp_outline.specs.Inline.{HasValue, array_keys, item_keys, items_from, keys_from, keys_view, table_keys, value_keys};
ghost use Rattle.gptp_outline.specs.Rows.{shown};
ghost use Rattle.gptp_outline.specs.declared.row.RowKind.TheVariants.{Pair};

use crate::row::Row;
use crate::value::{after_element, key_equals, value_end};
use std::alloc::Global;
use toml_parser::text::{first, skip, skip_blank};
use toml_parser::{ErrorKind, Key, ParseError, RECURSION_LIMIT};

/// The keys of an inline table, after its bracket.
fn keys_after(alloc: Global, s: &str, depth: usize) -> Result<Vec<Key>, ParseError>
    ensures { IfOk result (λ keys. (n : ℕ) (x : Members) (left : List ℕ) → length s.now < n
        → spec.members (spec.val depth) n no_nodes s.now ≡ Some (x, left)
        → keys_from depth n s.now ≡ Some (map key_view keys.items)) }
{
    let mut keys = Vec::new(alloc);
    let mut rest = s;
    'members: loop {
        let start = skip_blank(rest, true);
        if first(start) == b'}' {
            return Ok(keys);
        }
        let (key, at_value) = key_equals(alloc, start)?;
        let after = value_end(alloc, at_value, depth)?;
        keys.push(key)?;
        rest = after_element(after, b'}', ErrorKind::InlineTable)?;
    }
}

/// The keys of a value, if it is an inline table.
fn value_keys(alloc: Global, s: &str, depth: usize) -> Result<Vec<Key>, ParseError>
    ensures { IfOk result (λ keys. (d : Data) (left : List ℕ) → spec.val depth s.now ≡ Some (d, left)
        → map key_view keys.items ≡ value_keys depth s.now) }
{
    if first(s) != b'{' {
        return Ok(Vec::new(alloc));
    }
    keys_after(alloc, skip(s, 1), depth.saturating_sub(1))
}

/// The keys of each item of an array, after its bracket.
fn items_after(alloc: Global, s: &str, depth: usize) -> Result<Vec<Vec<Key>>, ParseError>
    ensures { IfOk result (λ items. (n : ℕ) (x : Items) (left : List ℕ) → length s.now < n
        → spec.items (spec.val depth) n no_items s.now ≡ Some (x, left)
        → items_from depth n s.now ≡ Some (map keys_view items.items)) }
{
    let mut found = Vec::new(alloc);
    let mut rest = s;
    'items: loop {
        let start = skip_blank(rest, true);
        if first(start) == b']' {
            return Ok(found);
        }
        let keys = value_keys(alloc, start, depth)?;
        let after = value_end(alloc, start, depth)?;
        found.push(keys)?;
        rest = after_element(after, b']', ErrorKind::Array)?;
    }
}

/// The keys of each item of a value, if it is an array.
fn item_keys(alloc: Global, s: &str, depth: usize) -> Result<Vec<Vec<Key>>, ParseError>
    ensures { IfOk result (λ items. (d : Data) (left : List ℕ) → spec.val depth s.now ≡ Some (d, left)
        → map keys_view items.items ≡ item_keys depth s.now) }
{
    if first(s) != b'[' {
        return Ok(Vec::new(alloc));
    }
    items_after(alloc, skip(s, 1), depth.saturating_sub(1))
}

/// The keys of the inline table that a pair gives its key, in the order of the text; none where it gives another
/// value. Of a row of a document the only error is that memory ran out.
pub fn table_keys(alloc: Global, row: &Row<'_>) -> Result<Vec<Key>, ParseError>
    ensures { IfOk result (λ keys. HasValue (shown row.now) → row.now.kind ≡ Pair
        → map key_view keys.items ≡ table_keys (shown row.now)) }
{
    let (_, at_value) = key_equals(alloc, row.start)?;
    value_keys(alloc, at_value, RECURSION_LIMIT)
}

/// The keys of each item of the array that a pair gives its key: of an item that is no inline table none. Of a row of a
/// document the only error is that memory ran out.
pub fn array_keys(alloc: Global, row: &Row<'_>) -> Result<Vec<Vec<Key>>, ParseError>
    ensures { IfOk result (λ items. HasValue (shown row.now) → row.now.kind ≡ Pair
        → map keys_view items.items ≡ array_keys (shown row.now)) }
{
    let (_, at_value) = key_equals(alloc, row.start)?;
    item_keys(alloc, at_value, RECURSION_LIMIT)
}
