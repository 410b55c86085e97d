//! All workers of a run: each plays its script on a thread of its own, on one shared cache.
//!
//! `play_scripts` opens the cache, starts a worker for each script, and waits until all have ended.
//! It returns the journal, the cache, and for each worker the lines of its calls. `play_loaded`
//! does the same, but the last worker plays alone before the others start. `play_generated` plays
//! scripts that are made from a number, and returns the counters' final values.
#![tactic(auto)]

mod budgets;
mod cast;
mod crew;
mod generated;
mod order;
mod play;

pub use generated::{Watched, play_generated};
pub use play::{CrewFault, Left, Played, play_loaded, play_scripts};
