//! What a link does to the frames on it.

/// The bounds of a link: its number, the least and the greatest delay of a frame, in ns, and how many
/// frames of a thousand are lost. They fit where 1 <= min <= max <= 16 * 10^9 and the loss is at most
/// 1000 (profile).
#[derive(Clone, Copy, Debug, PartialEq, Eq)]
pub struct Bounds {
    pub link: usize,
    pub min: u64,
    pub max: u64,
    pub loss: u16,
}
