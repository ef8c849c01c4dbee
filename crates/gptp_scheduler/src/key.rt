//! Keys of entries, and what stands at one.

/// Where an entry stands among the others.
#[derive(Clone, Copy, PartialEq)]
pub(crate) struct Key {
    pub(crate) place: usize,
}

/// The slot of an entry that stands in no chain.
pub(crate) const OUT: usize = 4096;

/// An entry with its slot, and the entries before and after it in the chain of that slot.
#[derive(Drop)]
pub(crate) struct Node<T> {
    pub(crate) number: u64,
    pub(crate) time: u64,
    pub(crate) slot: usize,
    pub(crate) before: Option<Key>,
    pub(crate) after: Option<Key>,
    pub(crate) item: T,
}
