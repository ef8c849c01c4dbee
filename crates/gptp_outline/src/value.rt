//! What follows keys and values.

ghost use Rattle.std.specs.Prelude.{◌≤◌, ◌<◌, ℕ, IfOk, length};
ghost use Rattle.toml_parser.specs.Reading.{Gives, Reads, Shortens, key_view};
ghost use Rattle.toml.specs.Data.{no_items};
ghost use Rattle.toml.specs.Tables.{no_nodes};
ghost use Rattle.toml.specs.Parse as spec;
ghost use Rattle.gptp_outline.specs.Rows.{Refuses, Skips};

use std::alloc::Global;
use toml_parser::text::{first, skip, skip_blank, skip_ws};
use toml_parser::{ErrorKind, Key, ParseError, dotted_key, quoted, starts_string, unquoted};

/// A key, its `=` and the white space after it.
pub(crate) fn key_equals(alloc: Global, s: &str) -> Result<(Key, &str), ParseError>
    ensures value { Reads key_view result (spec.key_equals s.now) }
    ensures shorter { Shortens s.now result }
{
    let (key, rest) = dotted_key(alloc, s)?;
    if first(rest) != b'=' {
        return Err(ParseError::at(ErrorKind::MissingEquals, rest));
    }
    Ok((key, skip_ws(skip(rest, 1))))
}

/// After the comma that follows an element, or at the closing bracket.
pub(crate) fn after_element(s: &str, closing: u8, missing: ErrorKind) -> Result<&str, ParseError>
    ensures value { Gives (λ rest. rest.now) result (spec.after_element closing s.now) }
    ensures within { IfOk result (λ rest. length rest.now ≤ length s.now) }
{
    let rest = skip_blank(s, true);
    if first(rest) == b',' {
        Ok(skip(rest, 1))
    } else if first(rest) == closing {
        Ok(rest)
    } else {
        Err(ParseError::at(missing, rest))
    }
}

/// After a text or a scalar.
fn atom_end(alloc: Global, s: &str) -> Result<&str, ParseError>
    ensures value { Skips result (spec.atom s.now) }
    ensures refused { Refuses result (spec.atom s.now) }
    ensures shorter { IfOk result (λ rest. length rest.now < length s.now) }
{
    if starts_string(s) {
        let (_, rest) = quoted(alloc, s)?;
        Ok(rest)
    } else {
        let (_, rest) = unquoted(alloc, s)?;
        Ok(rest)
    }
}

/// After a value whose arrays and inline tables are at most `depth` deep.
#[cycle(value)]
pub(crate) fn value_end(alloc: Global, s: &str, depth: usize) -> Result<&str, ParseError>
    ensures value { Skips result (spec.val depth s.now) }
    ensures refused { Refuses result (spec.val depth s.now) }
    ensures shorter { IfOk result (λ rest. length rest.now < length s.now) }
{
    let byte = first(s);
    if byte != b'[' && byte != b'{' {
        return atom_end(alloc, s);
    }
    if depth == 0 {
        return Err(ParseError::at(ErrorKind::Recursion, s));
    }
    if byte == b'[' {
        array_end(alloc, skip(s, 1), depth - 1)
    } else {
        table_end(alloc, skip(s, 1), depth - 1)
    }
}

/// After the rest of an array.
#[cycle(value)]
fn array_end(alloc: Global, s: &str, depth: usize) -> Result<&str, ParseError>
    ensures value { (n : ℕ) → length s.now < n → Skips result (spec.items (spec.val depth) n no_items s.now) }
    ensures refused { (n : ℕ) → length s.now < n → Refuses result (spec.items (spec.val depth) n no_items s.now) }
    ensures shorter { IfOk result (λ rest. length rest.now < length s.now) }
{
    let mut rest = s;
    'items: loop {
        let start = skip_blank(rest, true);
        if first(start) == b']' {
            return Ok(skip(start, 1));
        }
        let after = value_end(alloc, start, depth)?;
        rest = after_element(after, b']', ErrorKind::Array)?;
    }
}

/// After the rest of an inline table.
#[cycle(value)]
fn table_end(alloc: Global, s: &str, depth: usize) -> Result<&str, ParseError>
    ensures value { (n : ℕ) → length s.now < n → Skips result (spec.members (spec.val depth) n no_nodes s.now) }
    ensures refused { (n : ℕ) → length s.now < n → Refuses result (spec.members (spec.val depth) n no_nodes s.now) }
    ensures shorter { IfOk result (λ rest. length rest.now < length s.now) }
{
    let mut rest = s;
    'members: loop {
        let start = skip_blank(rest, true);
        if first(start) == b'}' {
            return Ok(skip(start, 1));
        }
        let (_, at_value) = key_equals(alloc, start)?;
        let after = value_end(alloc, at_value, depth)?;
        rest = after_element(after, b'}', ErrorKind::InlineTable)?;
    }
}
