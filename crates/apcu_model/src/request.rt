//! Requests, events and replies.

use crate::ask::Ask;
use crate::generator::Gen;
use crate::items::Chunk;
use crate::searching::{Fields, List, Pattern};
use php_graph::{Bytes, Graph};

/// A worker's request to the cache. Each request is one event.
#[derive(Drop)]
pub enum Request {
    /// `apcu_store` of one key, or with `exclusive` `apcu_add`, which leaves a live row as it is.
    Store {
        key: Bytes,
        value: Graph,
        /// In seconds; 0 is no limit.
        ttl: u32,
        exclusive: bool,
    },
    /// `apcu_fetch` of one key.
    Fetch(Bytes),
    /// `apcu_exists` of one key.
    Exists(Bytes),
    /// `apcu_delete` of one key.
    Delete(Bytes),
    /// `apcu_inc`, or with a negated step `apcu_dec`: adds the step to the integer under the key,
    /// as signed 64-bit numbers; the sum wraps. A key without a live row counts from 0.
    Inc {
        key: Bytes,
        step: i64,
        /// In seconds, for a new row; 0 is no limit.
        ttl: u32,
    },
    /// `apcu_cas`: the integer under the key becomes `set` if it is `expect`.
    Cas {
        key: Bytes,
        expect: i64,
        set: i64,
    },
    /// `apcu_entry`, with the generator of the value if no row has the key.
    Entry(Gen),
    /// `apcu_clear_cache`.
    Clear,
    /// `apcu_key_info`.
    KeyInfo(Bytes),
    /// `apcu_cache_info`; limited to its numbers, or with the lists of rows and removed rows.
    CacheInfo(bool),
    /// `apcu_sma_info`; limited to its numbers, or with the list of gaps.
    SmaInfo(bool),
    /// One step of an `APCUIterator`: at least `size` items, from the slot `from` on, if there are
    /// as many, or all removed rows that match.
    Chunk {
        /// Which keys match; each one without a pattern.
        search: Option<Pattern>,
        from: u32,
        size: u32,
        list: List,
        fields: Fields,
    },
    /// One step of `apcu_delete` of an iterator: the rows of a step over the active rows are
    /// dropped.
    ChunkDelete {
        search: Option<Pattern>,
        from: u32,
        size: u32,
    },
    /// `APCUIterator`'s totals: the number of rows, their hits, and their size.
    Totals {
        search: Option<Pattern>,
        list: List,
    },
    /// The worker's last event: it makes no more requests.
    Retire,
}

impl Request {
    ghost use Rattle.std.specs.Prelude.{◌≡◌};
    ghost use Rattle.apcu_model.specs.Asking.{asked};

    /// The request with its key and its value borrowed.
    pub fn lent(&self) -> Ask<'_>
        ensures { asked result ≡ self.now }
    {
        match self {
            Request::Store {
                key,
                value,
                ttl,
                exclusive,
            } => Ask::Store {
                key: key.as_slice(),
                value,
                ttl: *ttl,
                exclusive: *exclusive,
            },
            Request::Fetch(key) => Ask::Fetch(key.as_slice()),
            Request::Exists(key) => Ask::Exists(key.as_slice()),
            Request::Delete(key) => Ask::Delete(key.as_slice()),
            Request::Inc { key, step, ttl } => Ask::Inc {
                key: key.as_slice(),
                step: *step,
                ttl: *ttl,
            },
            Request::Cas { key, expect, set } => Ask::Cas {
                key: key.as_slice(),
                expect: *expect,
                set: *set,
            },
            Request::Entry(generator) => Ask::Entry(generator),
            Request::Clear => Ask::Clear,
            Request::KeyInfo(key) => Ask::KeyInfo(key.as_slice()),
            Request::CacheInfo(limited) => Ask::CacheInfo(*limited),
            Request::SmaInfo(limited) => Ask::SmaInfo(*limited),
            Request::Chunk {
                search,
                from,
                size,
                list,
                fields,
            } => Ask::Chunk {
                search: search.as_ref(),
                from: *from,
                size: *size,
                list: *list,
                fields: *fields,
            },
            Request::ChunkDelete { search, from, size } => Ask::ChunkDelete {
                search: search.as_ref(),
                from: *from,
                size: *size,
            },
            Request::Totals { search, list } => Ask::Totals {
                search: search.as_ref(),
                list: *list,
            },
            Request::Retire => Ask::Retire,
        }
    }
}

/// A worker's request at a moment. The order of events is that in which they took effect.
#[derive(Drop)]
pub struct Event {
    /// The worker's number, from 0.
    pub worker: u32,
    /// In seconds.
    pub t: u64,
    /// The worker's request.
    pub request: Request,
    /// A bit for each worker that was found still copying a value.
    pub mask: u64,
}

/// The cache's reply to a request.
#[derive(Drop)]
pub enum Reply {
    /// Whether it was done.
    Flag(bool),
    /// The value of a live row.
    Found(Graph),
    /// No live row has the key.
    Absent,
    /// The counter's new value.
    Number(i64),
    /// Nothing was counted: the value is no integer, or there is no room for a new row.
    NoNumber,
    /// The value of a generator.
    Gave(Graph),
    /// The result of an information call.
    Info(Graph),
    /// A step of an iterator.
    Chunk(Chunk),
    /// The slot from which an iterator's deletion continues; the number of slots at its end.
    Next(u32),
    /// The number of rows, the sum of their hits, which stops at 2^64 - 1, and the number of bytes
    /// of their blocks.
    Totals { count: u64, hits: u64, size: u64 },
    /// The worker's end.
    Ended,
}

/// The result of storing a value.
#[derive(Clone, Copy, Debug, PartialEq, Eq)]
pub enum StoreAnswer {
    /// The value cannot fit into an empty segment. Nothing changed.
    TooLarge,
    /// An exclusive store found a live row of its key. Nothing changed.
    Exists,
    /// No gap is large enough, not even after room was made.
    NoRoom,
    /// The row is in the cache.
    Stored,
}
