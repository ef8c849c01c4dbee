//! Equality as an assertion that is a call, whose branch is proved once.

use std::fmt::Debug;
use std::process::Abort;

/// Fails the test where the two differ.
pub fn same<T: PartialEq + Debug + Drop>(rt: &impl Abort, found: T, want: T) {
    assert_eq!(rt; found, want);
}

/// Fails it where they differ, and tells at which row.
pub fn same_at<R: Debug, T: PartialEq + Debug + Drop>(rt: &impl Abort, row: &R, found: T, want: T) {
    assert_eq!(rt; found, want, "at {row:?}");
}
