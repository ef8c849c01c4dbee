//! What a command writes.

ghost use Rattle.std.specs.Prelude.{◌≡◌, string_bytes};

use crate::failure::Status;

/// The lines that a command writes, each with its line feed, and its status.
#[derive(Debug, Drop)]
pub struct Output {
    pub text: Vec<u8>,
    pub status: Status,
}

impl Output {
    /// A text with its status.
    pub fn of(text: String, status: Status) -> Self
        ensures text { result.text.items ≡ string_bytes text }
        ensures status { result.status ≡ status }
    {
        Output {
            text: text.into_bytes(),
            status,
        }
    }
}
