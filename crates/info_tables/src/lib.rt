//! The graphs that the information calls return.
#![tactic(auto)]

mod tables;
mod telling;

pub use tables::{tell_cache, tell_counts, tell_gaps, tell_key, tell_words};
