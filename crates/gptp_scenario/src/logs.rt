//! The smallest and the largest of announce intervals, as logarithms to base 2 of seconds.

ghost use Rattle.std.specs.Prelude.{◌≡◌, ◌≤◌, length};
ghost use Rattle.std.specs.Int.{int_max, int_min};
ghost use Rattle.std.specs.List.{cons_option, reduce};

use arrayvec::ArrayVec;
use gptp_setup::MOST_PORTS;

/// The smallest of what was found so far, if anything, and of these.
pub(crate) fn smallest_with(found: Option<i8>, intervals: &[i8]) -> Option<i8>
    ensures { result ≡ reduce int_min (cons_option found intervals.now) }
{
    let mut smallest = found;
    for interval in intervals {
        smallest = match smallest {
            Some(least) => Some(least.min(*interval)),
            None => Some(*interval),
        };
    }
    smallest
}

/// The largest of what was found so far, if anything, and of these.
pub(crate) fn largest_with(found: Option<i8>, intervals: &[i8]) -> Option<i8>
    ensures { result ≡ reduce int_max (cons_option found intervals.now) }
{
    let mut largest = found;
    for interval in intervals {
        largest = match largest {
            Some(greatest) => Some(greatest.max(*interval)),
            None => Some(*interval),
        };
    }
    largest
}

/// A copy of the intervals.
pub(crate) fn copy_intervals(intervals: &[i8]) -> ArrayVec<i8, MOST_PORTS>
    requires { length intervals.now ≤ MOST_PORTS }
    ensures { result.items ≡ intervals.now }
{
    let mut copies = ArrayVec::new();
    let _ = copies.try_extend_from_slice(intervals);
    copies
}
