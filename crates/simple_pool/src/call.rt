//! Calls on pools.

ghost use Rattle.std.specs.Prelude.{◌≡◌, true, IfOk};
ghost use Rattle.simple_pool.specs.Names.{is_good_name};
ghost use Rattle.simple_pool.specs.Requests.{ask_pattern, pool_bound};

use crate::names::pool_pattern;
use apcu_model::{Keys, Pairs, Pattern};
use php_graph::{Bytes, Graph};
use std::alloc::{AllocError, Global};

/// A call on a pool.
#[derive(Drop)]
pub struct PoolCall {
    /// The pool's name.
    pub pool: Bytes,
    pub ask: PoolAsk,
}

/// The request of a call on a pool. Times to live are in seconds.
#[derive(Drop)]
pub enum PoolAsk {
    /// The value of a key, or else the default.
    Get(Bytes, Graph),
    /// A value is set, with a time to live: if that is not positive, the key is deleted.
    Set(Bytes, Graph, i64),
    /// A value is set without a time limit.
    SetPlain(Bytes, Graph),
    Delete(Bytes),
    /// All keys of the pool are deleted.
    Clear,
    /// The values of keys, or the default.
    GetMany(Keys, Graph),
    SetMany(Pairs, i64),
    SetManyPlain(Pairs),
    DeleteMany(Keys),
    /// Whether a key exists.
    Has(Bytes),
}

impl PoolCall {
    /// The pattern of the call's walk: if it clears the pool, that of the pool's keys.
    pub fn pattern(&self, alloc: Global) -> Result<Option<Pattern>, AllocError>
        requires { is_good_name self.now.pool ≡ true }
        ensures { IfOk result (λ pattern. pattern ≡ ask_pattern self.now.pool self.now.ask) }
    {
        match self.ask {
            PoolAsk::Clear => Ok(Some(pool_pattern(alloc, self.pool.as_slice())?)),
            _ => Ok(None),
        }
    }
}

impl PoolAsk {
    /// The largest number of its events, in a cache of this many slots.
    pub fn events(&self, slots: u32) -> u64
        ensures { result ≡ pool_bound slots self.now }
    {
        match self {
            PoolAsk::Get(..)
            | PoolAsk::Set(..)
            | PoolAsk::SetPlain(..)
            | PoolAsk::Delete(_)
            | PoolAsk::Has(_) => 1,
            PoolAsk::Clear => u64::from(slots),
            PoolAsk::GetMany(keys, _) | PoolAsk::DeleteMany(keys) => u64::from(keys.len()),
            PoolAsk::SetMany(pairs, _) | PoolAsk::SetManyPlain(pairs) => u64::from(pairs.len()),
        }
    }
}
