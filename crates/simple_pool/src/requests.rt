//! The requests of a call on a pool to the cache.

ghost use Rattle.std.specs.Prelude.{◌≡◌, ◌<◌, true, Some, IfOk, IsSome, length, slice_get};
ghost use Rattle.std.specs.Prelude.{option_map};
ghost use Rattle.simple_pool.specs.Names.{is_good_key, is_good_name, pool_key};
ghost use Rattle.simple_pool.specs.Requests.{IsGoodCall, are_good_keys, are_good_pairs};
ghost use Rattle.simple_pool.specs.Requests.{is_good_ttl, request_at, set_of, store_of};

use crate::call::{PoolAsk, PoolCall};
use crate::names::{pool_key, pool_pattern};
use apcu_model::{Keys, Pairs, Request};
use php_graph::{Bytes, Graph};
use std::alloc::{AllocError, Global};

/// The request of a call's event `i`. For `Clear` that is the slot from which it continues.
pub fn request(alloc: Global, call: &PoolCall, i: u32) -> Result<Request, AllocError>
    requires good { IsGoodCall call.now }
    requires within { IsSome (request_at call.now i) }
    ensures { IfOk result (λ request. request_at call.now i ≡ Some request) }
{
    let pool = call.pool.as_slice();
    match &call.ask {
        PoolAsk::Get(key, _) => Ok(Request::Fetch(pool_key(alloc, pool, key.as_slice())?)),
        PoolAsk::Set(key, value, ttl) => set(alloc, pool, key, value, *ttl),
        PoolAsk::SetPlain(key, value) => store(alloc, pool, key, value, 0),
        PoolAsk::Delete(key) => Ok(Request::Delete(pool_key(alloc, pool, key.as_slice())?)),
        PoolAsk::Clear => Ok(Request::ChunkDelete {
            search: Some(pool_pattern(alloc, pool)?),
            from: i,
            size: POOL_STEP,
        }),
        PoolAsk::GetMany(keys, _) => { Ok(Request::Fetch(key_at(alloc, pool, keys, i)?)) }
        PoolAsk::SetMany(pairs, ttl) => set_at(alloc, pool, pairs, i, *ttl),
        PoolAsk::SetManyPlain(pairs) => store_at(alloc, pool, pairs, i),
        PoolAsk::DeleteMany(keys) => { Ok(Request::Delete(key_at(alloc, pool, keys, i)?)) }
        PoolAsk::Has(key) => Ok(Request::Exists(pool_key(alloc, pool, key.as_slice())?)),
    }
}

/// The least number of keys of a step of clearing, as long as there are as many.
pub const POOL_STEP: u32 = 100;

// The key of the cache under which a pool keeps the key of this number.
fn key_at(alloc: Global, pool: &[u8], keys: &Keys, i: u32) -> Result<Bytes, AllocError>
    requires name { is_good_name pool.now ≡ true }
    requires keys { are_good_keys keys.now ≡ true }
    requires within { i < length keys.now }
    ensures { IfOk result (λ bytes.
        option_map (pool_key pool.now) (slice_get keys.now i) ≡ Some bytes) }
{
    pool_key(alloc, pool, keys.at(i).as_slice())
}

// A value is kept, without a time limit if the ttl is 0.
fn store(
    alloc: Global,
    pool: &[u8],
    key: &Bytes,
    value: &Graph,
    ttl: u32,
) -> Result<Request, AllocError>
    requires name { is_good_name pool.now ≡ true }
    requires key { is_good_key key.now ≡ true }
    ensures { IfOk result (λ request. request ≡ store_of pool.now (key.now, value.now) ttl) }
{
    let key = pool_key(alloc, pool, key.as_slice())?;
    let value = value.try_copy(alloc)?;
    Ok(Request::Store {
        key,
        value,
        ttl,
        exclusive: false,
    })
}

// A value is kept for a time or, if that is not positive, deleted.
fn set(
    alloc: Global,
    pool: &[u8],
    key: &Bytes,
    value: &Graph,
    ttl: i64,
) -> Result<Request, AllocError>
    requires name { is_good_name pool.now ≡ true }
    requires key { is_good_key key.now ≡ true }
    requires ttl { is_good_ttl ttl ≡ true }
    ensures { IfOk result (λ request. request ≡ set_of pool.now (key.now, value.now) ttl) }
{
    if 0 < ttl {
        store(alloc, pool, key, value, ttl as u32)
    } else {
        Ok(Request::Delete(pool_key(alloc, pool, key.as_slice())?))
    }
}

// The pair of this number is set.
fn set_at(
    alloc: Global,
    pool: &[u8],
    pairs: &Pairs,
    i: u32,
    ttl: i64,
) -> Result<Request, AllocError>
    requires name { is_good_name pool.now ≡ true }
    requires pairs { are_good_pairs pairs.now ≡ true }
    requires ttl { is_good_ttl ttl ≡ true }
    requires within { i < length pairs.now }
    ensures { IfOk result (λ request.
        option_map (λ pair. set_of pool.now pair ttl) (slice_get pairs.now i) ≡ Some request) }
{
    let (key, value) = pairs.at(i);
    set(alloc, pool, key, value, ttl)
}

// The pair of this number is kept without a time limit.
fn store_at(alloc: Global, pool: &[u8], pairs: &Pairs, i: u32) -> Result<Request, AllocError>
    requires name { is_good_name pool.now ≡ true }
    requires pairs { are_good_pairs pairs.now ≡ true }
    requires within { i < length pairs.now }
    ensures { IfOk result (λ request.
        option_map (λ pair. store_of pool.now pair 0) (slice_get pairs.now i) ≡ Some request) }
{
    let (key, value) = pairs.at(i);
    store(alloc, pool, key, value, 0)
}
