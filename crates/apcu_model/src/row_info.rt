//! What the information calls return about a row and the cache.

use php_graph::Bytes;

/// What a cache keeps of a row besides its key and its value, as the information calls return it.
#[derive(Clone, Copy, Debug, PartialEq, Eq)]
pub struct RowInfo {
    /// How many seconds it lives after its creation; 0 is no limit.
    pub ttl: u32,
    /// When it was created, in seconds.
    pub ctime: u64,
    /// When its value was last changed.
    pub mtime: u64,
    /// When it was last used.
    pub atime: u64,
    /// When it was dropped, for a removed row; otherwise 0.
    pub dtime: u64,
    /// How often it was fetched.
    pub hits: u64,
    /// The size of its block in words.
    pub size: u32,
}

/// A row as `apcu_cache_info` lists it.
#[derive(Drop)]
pub struct ListedRow {
    pub key: Bytes,
    pub info: RowInfo,
}

/// The counters of a cache, as `apcu_cache_info` returns them. Each counter stops at its maximum.
#[derive(Clone, Copy, Debug, PartialEq, Eq)]
pub struct Counts {
    /// Fetches that found a row, since the last expunge.
    pub hits: u64,
    /// Fetches that found none, since then.
    pub misses: u64,
    /// Rows that were stored, since then.
    pub inserts: u64,
    /// How often all rows were dropped to make room, since the cache was cleared.
    pub expunges: u64,
    /// The rows, expired ones included.
    pub entries: u64,
}
