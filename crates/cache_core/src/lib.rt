//! The cache over the words of a segment: what it stores, finds, deletes and counts.
//!
//! `Core::format` makes one in any `seg_words::Segment`, which is passed to each later call.
//! Segments are `VecWords` of `seg_words`, words in memory for one thread; `HeldWords`, also there,
//! which adds a window for each of 64 workers, all of which one thread plays; and `Writer` of
//! `pin_table`, the words that workers on threads share, for one event of one of them.
#![tactic(auto)]

mod cache;
mod cache_counts;
mod counting;
mod dropping;
mod finding;
mod integers;
mod looking;
mod lower;
mod placing;
mod reads;
mod scalar;
mod storing;

pub use cache::Core;
pub use finding::find_live_in;
pub use reads::{reads_commute, reads_see_one_cache};
pub use scalar::{Look, Scalar, read_scalar};
