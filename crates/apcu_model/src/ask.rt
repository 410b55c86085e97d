//! A worker's request, borrowed.

use crate::generator::Gen;
use crate::searching::{Fields, List, Pattern};
use php_graph::Graph;

/// A worker's request, borrowed: the requests with their keys and values by reference. Contracts
/// see the request that it represents.
#[derive(Clone, Copy)]
pub enum Ask<'a> {
    Store {
        key: &'a [u8],
        value: &'a Graph,
        /// In seconds; 0 is no limit.
        ttl: u32,
        exclusive: bool,
    },
    Fetch(&'a [u8]),
    Exists(&'a [u8]),
    Delete(&'a [u8]),
    Inc {
        key: &'a [u8],
        step: i64,
        /// In seconds, for a new row; 0 is no limit.
        ttl: u32,
    },
    Cas {
        key: &'a [u8],
        expect: i64,
        set: i64,
    },
    Entry(&'a Gen),
    Clear,
    KeyInfo(&'a [u8]),
    CacheInfo(bool),
    SmaInfo(bool),
    Chunk {
        search: Option<&'a Pattern>,
        from: u32,
        size: u32,
        list: List,
        fields: Fields,
    },
    ChunkDelete {
        search: Option<&'a Pattern>,
        from: u32,
        size: u32,
    },
    Totals {
        search: Option<&'a Pattern>,
        list: List,
    },
    Retire,
}
