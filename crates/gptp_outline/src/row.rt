//! One row of a document.

ghost use Rattle.toml_parser.specs.Reading.{Reads, Shortens, key_view};
ghost use Rattle.toml.specs.Parse as spec;
ghost use Rattle.gptp_outline.specs.Rows.{ReadsRow, Refuses};

use crate::value::{key_equals, value_end};
use std::alloc::Global;
use toml_parser::text::{byte_at, first, skip, skip_ws};
use toml_parser::{ErrorKind, Key, ParseError, RECURSION_LIMIT, dotted_key};

/// What a row says of its key.
#[derive(Clone, Copy, Debug, PartialEq, Eq)]
pub enum RowKind {
    /// `key = value`
    Pair,
    /// `[key]`
    Table,
    /// `[[key]]`
    ArrayTable,
}

/// A row: its key, what it says of it, what is left of the text where it begins, and the number of its line, from 1.
#[derive(Drop)]
pub struct Row<'a> {
    pub key: Key,
    pub kind: RowKind,
    pub start: &'a str,
    pub line: usize,
}

/// The key of a header and its first closing bracket.
fn header_key(alloc: Global, s: &str) -> Result<(Key, &str), ParseError>
    ensures value { Reads key_view result (spec.header_key s.now) }
    ensures shorter { Shortens s.now result }
{
    let (key, rest) = dotted_key(alloc, skip_ws(s))?;
    if first(rest) != b']' {
        return Err(ParseError::at(ErrorKind::UnclosedTable, rest));
    }
    Ok((key, skip(rest, 1)))
}

/// The key of a row and what the row says of it, with what is left after its value or header.
pub(crate) fn expression(alloc: Global, s: &str) -> Result<((Key, RowKind), &str), ParseError>
    ensures value { ReadsRow result (spec.expression s.now) }
    ensures refused { Refuses result (spec.expression s.now) }
    ensures shorter { Shortens s.now result }
{
    if first(s) == b'[' && byte_at(s, 1) == b'[' {
        let (key, rest) = header_key(alloc, skip(s, 2))?;
        if first(rest) != b']' {
            return Err(ParseError::at(ErrorKind::UnclosedArrayTable, rest));
        }
        Ok(((key, RowKind::ArrayTable), skip(rest, 1)))
    } else if first(s) == b'[' {
        let (key, rest) = header_key(alloc, skip(s, 1))?;
        Ok(((key, RowKind::Table), rest))
    } else {
        let (key, at_value) = key_equals(alloc, s)?;
        let rest = value_end(alloc, at_value, RECURSION_LIMIT)?;
        Ok(((key, RowKind::Pair), rest))
    }
}
