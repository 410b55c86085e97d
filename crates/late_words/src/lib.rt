//! Words in memory that are 0 and not written until one is stored there or after them, so that a
//! large cache with few rows has few pages of memory.
#![tactic(auto)]

mod late_words;

pub use late_words::{LateWords, LentWords};
