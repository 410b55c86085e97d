//! The limits of a run.

/// The most workers of one cache. A mask of a journal has a bit for each.
pub const MOST_WORKERS: u32 = 64;

/// The most bytes of an input: 64 MB.
pub const LONGEST_INPUT: u32 = 67_108_864;
