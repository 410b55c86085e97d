//! The map of a cache's words: what is at each place, and what would still fit. Nothing changes by
//! it.
#![tactic(auto)]

mod gaps;
mod lines;
mod map;
mod parts;
mod room;

pub use map::map_text;
pub use room::fits;
