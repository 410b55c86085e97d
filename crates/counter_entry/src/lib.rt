//! Counters, compare-and-swap and values of generators, on the cache over words. Counting and
//! setting allocate no memory; a generator's value is copied once.
#![tactic(auto)]

mod answer;
mod counting;
mod generating;
mod looking;
mod swapping;

pub use answer::{Fate, IncAnswer};
pub use counting::{inc, inc_in};
pub use generating::entry;
pub use swapping::{cas, cas_in};
