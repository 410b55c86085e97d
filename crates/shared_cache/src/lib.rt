//! A cache that many workers share: one lock, one history, one journal.
//!
//! It lives in one process and is for a bounded run: of at most `apcu_model::MOST_WORKERS` workers
//! on threads, in at most 128 MB, and with at most `apcu_model::MOST_EVENTS` events of all workers
//! together, their ends included. How many each may make is fixed when it is opened.
//! `open_cache` takes all the memory, and `Fresh::name` returns the cache under its table's name, a
//! pass for each worker, and room for those that end. Each call of a worker is one event: it takes
//! the worker's pass, waits for the lock, and returns the pass with one event less left. Its result
//! is that of the single-threaded cache at that place of the history. A fetch is `Shared::pin`; a
//! value that it finds is then copied by `Shared::copy_out`, or as its text by `Shared::copy_text`,
//! without the lock. A call that finds no memory for its result is no event, and returns its pass
//! as it was. Once every worker has ended, `Shared::close` returns the journal of all events.
//! journal of all events.
#![tactic(auto)]

mod answering;
mod asking;
mod laws;
mod locked_cache;
mod lower;
mod opening;
mod recording;
mod shared;
mod texts;
mod under_lock;
mod wait_lock;

pub use laws::calls_in_turn;
pub use locked_cache::{Closed, Pinned};
pub use opening::{Fresh, OpenFault, open_cache};
pub use shared::Shared;
