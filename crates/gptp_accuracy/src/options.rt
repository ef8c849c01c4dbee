//! What is asked of time errors.

/// What is told of time errors as text.
#[derive(Clone, Copy, Debug, PartialEq, Eq)]
pub struct AccuracyOptions {
    /// How long after a receipt the error of what a system reads is told, in ns, if it is.
    pub reads: Option<u64>,
    /// Whether the error is told that holds at every moment, as each system receives time again within a known time.
    pub always: bool,
    /// The greatest that the last number of a system's line may be, in ns, if one is asked for.
    pub max_error: Option<u64>,
}
