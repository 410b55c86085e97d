//! Blocks and gaps in a row of words: the shared memory allocator.
#![tactic(auto)]

mod bounds;
mod laws;
mod sma;
mod stores;

pub use bounds::Bounds;
pub use laws::{block_laws, call_laws, list_laws};
pub use sma::Sma;
