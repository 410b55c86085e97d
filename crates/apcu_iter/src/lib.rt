//! Iterators over the rows of a cache on words: patterns for keys, steps and totals.
#![tactic(auto)]

mod chains;
mod chunks;
mod deleting;
mod summing;

pub use chunks::chunk;
pub use deleting::chunk_delete;
pub use summing::totals;
