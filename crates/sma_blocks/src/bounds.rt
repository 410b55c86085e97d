//! The bounds of an allocator.

/// The words that blocks and gaps fill, and what none of them crosses.
#[derive(Clone, Copy, Debug, PartialEq, Eq)]
pub struct Bounds {
    /// The place of the first block or gap.
    pub from: u32,
    /// The end of the last one, which is the number of words.
    pub to: u32,
    /// The number of words of a segment: no block and no gap crosses a multiple of it.
    pub piece: u32,
}
