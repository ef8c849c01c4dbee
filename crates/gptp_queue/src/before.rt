//! Which of two entries comes first.

ghost use Rattle.std.specs.Prelude.{◌≡◌};
ghost use Rattle.gptp_queue.specs.Order.{is_before};

use crate::entry::Entry;

/// Whether one entry is due before another, or at the same time with a lower number.
pub(crate) fn is_before(one: &Entry, other: &Entry) -> bool
    ensures { result ≡ is_before one.now other.now }
{
    one.time < other.time || (one.time == other.time && one.number < other.number)
}
