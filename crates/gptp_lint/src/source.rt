//! A text as it is TOML.

ghost use Rattle.std.specs.Prelude.{◌≡◌, IfOk, option_map};
ghost use Rattle.toml.specs.View.{table_view};
ghost use Rattle.gptp_outline.specs.Rows.{table_of};
ghost use Rattle.gptp_lint.specs.Outline.{outline_of_text, outline_state};

use crate::outline::{Outline, outline_of};
use std::alloc::{AllocError, Global};
use toml::Table;

/// The table that a text is, and its outline; a text that is no TOML has neither keys nor headers.
#[derive(Drop)]
pub(crate) struct Source {
    pub document: Option<Table>,
    pub outline: Outline,
}

impl Source {
    /// Reads a text. Refused for want of memory alone.
    pub(crate) fn read(alloc: Global, input: &[u8]) -> Result<Self, AllocError>
        ensures document { IfOk result (λ source. option_map table_view source.document ≡ table_of input.now) }
        ensures outline { IfOk result (λ source. outline_state source.outline ≡ outline_of_text input.now) }
    {
        match toml::table_from_slice(alloc, input) {
            Ok(document) => {
                let outline = outline_of(alloc, input)?;
                Ok(Source {
                    document: Some(document),
                    outline,
                })
            }
            Err(error) => {
                if error.is_memory() {
                    return Err(AllocError);
                }
                Ok(Source {
                    document: None,
                    outline: Outline::new(alloc),
                })
            }
        }
    }
}
