//! Information about a key, the cache and its segments, read from the cache over words. Nothing
//! changes.
#![tactic(auto)]

mod cache;
mod entry;
mod key;
mod rows;
mod segment;

pub use cache::cache_info;
pub use key::key_info;
pub use segment::sma_info;
