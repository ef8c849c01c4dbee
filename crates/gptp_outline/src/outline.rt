//! The rows of a document.

ghost use Rattle.std.specs.Prelude.{◌≡◌, ◌≤◌, IfErr, IfOk, length, map};
ghost use Rattle.toml.specs.Parse as spec;
ghost use Rattle.toml_parser.specs.declared.error.ParseError.TheVariants.{OutOfMemory};
ghost use Rattle.gptp_outline.specs.Rows.{IsDocument, rows, shown};

use crate::counter::{LineMark, mark_of};
use crate::row::{Row, expression};
use std::alloc::Global;
use toml_parser::ParseError;
use toml_parser::text::{byte_at, first, skip_blank};

/// After a byte order mark.
fn skip_bom(s: &str) -> &str
    ensures rest { result.now ≡ spec.skip_bom s.now }
    ensures within { length result.now ≤ length s.now }
{
    if first(s) == 0xEF && byte_at(s, 1) == 0xBB && byte_at(s, 2) == 0xBF {
        &s[3..]
    } else {
        s
    }
}

/// The rows of a document: its lines that aren't blank, in the order of the text. Errors: [`ParseError::OutOfMemory`]
/// where memory ran out, else where the text stops being TOML.
pub fn rows<'a>(alloc: Global, text: &'a str) -> Result<Vec<Row<'a>>, ParseError>
    ensures are { IfOk result (λ found. IsDocument text.now → map shown found.items ≡ rows text.now) }
    ensures refused { IfErr result (λ e. (e ≡ OutOfMemory → ⊥) → IsDocument text.now → ⊥) }
{
    let mut rows = Vec::new(alloc);
    let mut rest = skip_bom(text);
    let mut mark = LineMark { place: 0, line: 1 };
    'lines: loop {
        let start = skip_blank(rest, true);
        if start.is_empty() {
            return Ok(rows);
        }
        let ((key, kind), after) = expression(alloc, start)?;
        let here = mark_of(text, mark, start);
        rows.push(Row {
            key,
            kind,
            start,
            line: here.line,
        })?;
        mark = here;
        rest = after;
    }
}
