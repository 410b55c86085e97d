//! What the calls of a worker are played with.

use pin_table::TableName;
use shared_cache::Shared;
use std::alloc::Global;

/// What all calls of a worker are played with.
#[derive(Drop)]
pub struct Context<'a, N: TableName, G, R> {
    /// The runtime, with which it waits for the lock.
    pub rt: &'a R,
    /// The allocator for what it fetches and prints.
    pub alloc: Global,
    /// The cache.
    pub shared: &'a Shared<N>,
    /// Called at its calls.
    pub gate: &'a G,
    /// The slots of the cache.
    pub slots: u32,
}

// A call's index in its script, and its moment in seconds.
#[derive(Clone, Copy)]
pub(crate) struct When {
    pub(crate) index: u32,
    pub(crate) t: u64,
}
