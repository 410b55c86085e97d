//! Laws of pools: the replies of a pool that keeps its keys under `{name}key` in the cache.
#![tactic(auto)]

mod laws;

pub use laws::{calls_are_tied, calls_stand_alone, pools_in_plays, pools_stand_alone};
