//! The tests of single lines.

/// A test that every line of a certificate has to pass; it is named for the fault that it finds.
#[derive(Clone, Copy)]
pub(crate) enum LineTest {
    TooFar,
    Root,
    Steps,
    Parent,
    Identity,
    Tie,
    Role,
}
