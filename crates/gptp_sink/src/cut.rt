//! Why a text ends before its end.

ghost use Rattle.std.specs.Prelude.{◌≡◌};
ghost use Rattle.gptp_sink.specs.declared.cut.Cut.TheVariants.{Memory, Write};

use crate::sink::WriteFailed;
use std::alloc::AllocError;

/// Why no more of a text is written.
#[derive(Clone, Copy, Debug, PartialEq, Eq)]
pub enum Cut {
    /// Memory ran out.
    Memory,
    /// A write failed.
    Write,
}

impl From<AllocError> for Cut {
    ghost from_gives = { λ _ e. e ≡ Memory };

    fn from(_error: AllocError) -> Cut {
        Cut::Memory
    }
}

impl From<WriteFailed> for Cut {
    ghost from_gives = { λ _ e. e ≡ Write };

    fn from(_error: WriteFailed) -> Cut {
        Cut::Write
    }
}
