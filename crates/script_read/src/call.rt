//! The calls of scripts.

ghost use Rattle.std.specs.Prelude.{◌≡◌, IfOk};
ghost use Rattle.script_read.specs.Calls.{HasRanges, event_bound};
ghost use Rattle.script_read.specs.Patterns.{call_pattern};

use crate::pool_box::PoolBox;
use apcu_model::{Fields, Gen, Keys, List, Pairs, Pattern};
use php_graph::{Bytes, Graph};
use std::alloc::{AllocError, Global};

/// A call of a script, named after the functions of APCu in the PHP manual.
#[derive(Drop)]
pub enum Call {
    /// `apcu_store` of one key, or `apcu_add` if it is exclusive.
    StoreOne {
        key: Bytes,
        value: Graph,
        /// In seconds; 0 is no limit.
        ttl: u32,
        exclusive: bool,
    },
    /// `apcu_store` of an array, or `apcu_add` if it is exclusive.
    StoreMany {
        pairs: Pairs,
        /// In seconds; 0 is no limit.
        ttl: u32,
        exclusive: bool,
    },
    /// `apcu_fetch` of one key.
    FetchOne(Bytes),
    /// `apcu_fetch` of an array of keys.
    FetchMany(Keys),
    /// `apcu_exists` of one key.
    ExistsOne(Bytes),
    /// `apcu_exists` of an array of keys.
    ExistsMany(Keys),
    /// `apcu_delete` of one key.
    DeleteOne(Bytes),
    /// `apcu_delete` of an array of keys.
    DeleteMany(Keys),
    /// `apcu_inc`; or `apcu_dec`, which counts by the negated step.
    Inc {
        key: Bytes,
        step: i64,
        /// In seconds, for a new row; 0 is no limit.
        ttl: u32,
    },
    /// `apcu_cas`: the integer under the key becomes `set` if it is `expect`.
    Cas {
        key: Bytes,
        expect: i64,
        set: i64,
    },
    /// `apcu_entry`: the generator is an entry, and at most eight are nested.
    Entry(Gen),
    /// `apcu_clear_cache`.
    Clear,
    /// `apcu_enabled`, which makes no request to the cache.
    Enabled,
    /// `apcu_key_info`.
    KeyInfo(Bytes),
    /// `apcu_cache_info`; if it is true, without the lists of rows.
    CacheInfo(bool),
    /// `apcu_sma_info`; if it is true, without the list of gaps.
    SmaInfo(bool),
    /// `APCUIterator`, iterated from its first row to its last one.
    Walk {
        /// Which keys match; each one without a pattern.
        search: Option<Pattern>,
        fields: Fields,
        /// The least number of items of a step, as long as there are as many: the constructor's
        /// `chunk_size`, from 1 to 65,536.
        size: u32,
        list: List,
    },
    /// `apcu_delete` of an `APCUIterator` over the active rows.
    WalkDelete {
        /// Which keys match; each one without a pattern.
        search: Option<Pattern>,
        /// As of `Walk`.
        size: u32,
    },
    /// `APCUIterator`'s totals.
    Totals {
        /// Which keys match; each one without a pattern.
        search: Option<Pattern>,
        list: List,
    },
    /// A call on a pool, whose name, keys and time to live have their forms. It is rare and larger
    /// than the others, so a box keeps each step small.
    Pool(PoolBox),
}

impl Call {
    /// The largest number of events of the call, in a cache of `slots` slots.
    pub fn events(&self, slots: u32) -> u64
        ensures { result ≡ event_bound slots self.now }
    {
        match self {
            Call::StoreOne { .. }
            | Call::FetchOne(_)
            | Call::ExistsOne(_)
            | Call::DeleteOne(_)
            | Call::Inc { .. }
            | Call::Cas { .. }
            | Call::Entry(_)
            | Call::Clear
            | Call::KeyInfo(_)
            | Call::CacheInfo(_)
            | Call::SmaInfo(_)
            | Call::Walk {
                list: List::Deleted,
                ..
            }
            | Call::Totals { .. } => 1,
            Call::Walk {
                list: List::Active,
                ..
            }
            | Call::WalkDelete { .. } => u64::from(slots),
            Call::StoreMany { pairs, .. } => u64::from(pairs.len()),
            Call::FetchMany(keys) | Call::ExistsMany(keys) | Call::DeleteMany(keys) => {
                u64::from(keys.len())
            }
            Call::Enabled => 0,
            Call::Pool(boxed) => boxed.call().ask.events(slots),
        }
    }

    /// The pattern that the call's keys are to match, if it has one: a pool's, if it is cleared.
    pub fn pattern(&self, alloc: Global) -> Result<Option<Pattern>, AllocError>
        requires { HasRanges self.now }
        ensures { IfOk result (λ made. made ≡ call_pattern self.now) }
    {
        match self {
            Call::Walk { search, .. }
            | Call::WalkDelete { search, .. }
            | Call::Totals { search, .. } => copied(alloc, search),
            Call::Pool(boxed) => boxed.call().pattern(alloc),
            _ => Ok(None),
        }
    }
}

// The same pattern, if there is one.
fn copied(alloc: Global, search: &Option<Pattern>) -> Result<Option<Pattern>, AllocError>
    ensures { IfOk result (λ copy. copy ≡ search.now) }
{
    match search {
        Some(pattern) => Ok(Some(Pattern {
            text: Bytes::of(alloc, pattern.text.as_slice())?,
            fold: pattern.fold,
        })),
        None => Ok(None),
    }
}
