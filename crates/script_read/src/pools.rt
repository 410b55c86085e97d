//! Lines of pools.

ghost use Rattle.std.specs.Prelude.{◌≡◌, ℕ, ◌<◌, true, List, length, IfOk, IfSome};
ghost use Rattle.simple_pool.specs.Names.{is_good_key};
ghost use Rattle.simple_pool.specs.Requests.{are_good_pairs, is_good_ask, is_good_ttl};
ghost use Rattle.script_read.specs.Table.{pool_get_form, pool_set_form, pool_delete_form};
ghost use Rattle.script_read.specs.Table.{pool_clear_form, pool_get_multiple_form, pool_has_form};
ghost use Rattle.script_read.specs.Table.{pool_set_multiple_form, pool_delete_multiple_form};
ghost use Rattle.script_read.specs.Table.{set_ask, set_many_ask};
ghost use Rattle.script_read.specs.Reading.{rest_at};
ghost use Rattle.script_read.specs.Gives.{GivesItem, IsInRange};

use crate::arguments::value_argument;
use crate::call::Call;
use crate::effect::Effect;
use crate::fault::Stop;
use crate::lines::bare;
use crate::pool_arguments::{
    default_argument, own_key_argument, own_keys_argument, own_pairs_argument, own_ttl_argument,
    pool_name_argument,
};
use crate::pool_box::PoolBox;
use apcu_model::Pairs;
use php_graph::{Bytes, Graph};
use simple_pool::{PoolAsk, PoolCall};
use std::alloc::Global;

// A value is set with a time to live, or without one and then without limit.
fn set_ask(key: Bytes, value: Graph, ttl: Option<i64>) -> PoolAsk
    requires key { is_good_key key ≡ true }
    requires ttl { IfSome ttl (λ n. is_good_ttl n ≡ true) }
    ensures is { result ≡ set_ask key value ttl }
    ensures good { is_good_ask result ≡ true }
{
    match ttl {
        Some(ttl) => PoolAsk::Set(key, value, ttl),
        None => PoolAsk::SetPlain(key, value),
    }
}

fn set_many_ask(pairs: Pairs, ttl: Option<i64>) -> PoolAsk
    requires pairs { are_good_pairs pairs ≡ true }
    requires ttl { IfSome ttl (λ n. is_good_ttl n ≡ true) }
    ensures is { result ≡ set_many_ask pairs ttl }
    ensures good { is_good_ask result ≡ true }
{
    match ttl {
        Some(ttl) => PoolAsk::SetMany(pairs, ttl),
        None => PoolAsk::SetManyPlain(pairs),
    }
}

// The arguments of `pool_get`.
pub(crate) fn pool_get(alloc: Global, bytes: &[u8]) -> Result<(Effect, &[u8]), Stop>
    ensures read { (last : List ℕ) → GivesItem (λ x. (x.0, x.1.now)) result
        (rest_at pool_get_form last bytes.now) }
    ensures fewer { IfOk result (λ x. length x.1.now < length bytes.now) }
    ensures range { IfOk result (λ x. IsInRange x.0) }
{
    let (pool, rest) = pool_name_argument(alloc, bytes)?;
    let (key, rest) = own_key_argument(alloc, rest)?;
    let (default, rest) = default_argument(alloc, rest)?;
    let ask = PoolAsk::Get(key, default);
    let boxed = PoolBox::new(alloc, PoolCall { pool, ask })?;
    bare(Call::Pool(boxed), rest)
}

// The arguments of `pool_set`.
pub(crate) fn pool_set(alloc: Global, bytes: &[u8]) -> Result<(Effect, &[u8]), Stop>
    ensures read { (last : List ℕ) → GivesItem (λ x. (x.0, x.1.now)) result
        (rest_at pool_set_form last bytes.now) }
    ensures fewer { IfOk result (λ x. length x.1.now < length bytes.now) }
    ensures range { IfOk result (λ x. IsInRange x.0) }
{
    let (pool, rest) = pool_name_argument(alloc, bytes)?;
    let (key, rest) = own_key_argument(alloc, rest)?;
    let (value, rest) = value_argument(alloc, rest)?;
    let (ttl, rest) = own_ttl_argument(alloc, rest)?;
    let ask = set_ask(key, value, ttl);
    let boxed = PoolBox::new(alloc, PoolCall { pool, ask })?;
    bare(Call::Pool(boxed), rest)
}

// The arguments of `pool_delete`.
pub(crate) fn pool_delete(alloc: Global, bytes: &[u8]) -> Result<(Effect, &[u8]), Stop>
    ensures read { (last : List ℕ) → GivesItem (λ x. (x.0, x.1.now)) result
        (rest_at pool_delete_form last bytes.now) }
    ensures fewer { IfOk result (λ x. length x.1.now < length bytes.now) }
    ensures range { IfOk result (λ x. IsInRange x.0) }
{
    let (pool, rest) = pool_name_argument(alloc, bytes)?;
    let (key, rest) = own_key_argument(alloc, rest)?;
    let ask = PoolAsk::Delete(key);
    let boxed = PoolBox::new(alloc, PoolCall { pool, ask })?;
    bare(Call::Pool(boxed), rest)
}

// The arguments of `pool_clear`.
pub(crate) fn pool_clear(alloc: Global, bytes: &[u8]) -> Result<(Effect, &[u8]), Stop>
    ensures read { (last : List ℕ) → GivesItem (λ x. (x.0, x.1.now)) result
        (rest_at pool_clear_form last bytes.now) }
    ensures fewer { IfOk result (λ x. length x.1.now < length bytes.now) }
    ensures range { IfOk result (λ x. IsInRange x.0) }
{
    let (pool, rest) = pool_name_argument(alloc, bytes)?;
    let ask = PoolAsk::Clear;
    let boxed = PoolBox::new(alloc, PoolCall { pool, ask })?;
    bare(Call::Pool(boxed), rest)
}

// The arguments of `pool_get_multiple`.
pub(crate) fn pool_get_multiple(alloc: Global, bytes: &[u8]) -> Result<(Effect, &[u8]), Stop>
    ensures read { (last : List ℕ) → GivesItem (λ x. (x.0, x.1.now)) result
        (rest_at pool_get_multiple_form last bytes.now) }
    ensures fewer { IfOk result (λ x. length x.1.now < length bytes.now) }
    ensures range { IfOk result (λ x. IsInRange x.0) }
{
    let (pool, rest) = pool_name_argument(alloc, bytes)?;
    let (keys, rest) = own_keys_argument(alloc, rest)?;
    let (default, rest) = default_argument(alloc, rest)?;
    let ask = PoolAsk::GetMany(keys, default);
    let boxed = PoolBox::new(alloc, PoolCall { pool, ask })?;
    bare(Call::Pool(boxed), rest)
}

// The arguments of `pool_set_multiple`.
pub(crate) fn pool_set_multiple(alloc: Global, bytes: &[u8]) -> Result<(Effect, &[u8]), Stop>
    ensures read { (last : List ℕ) → GivesItem (λ x. (x.0, x.1.now)) result
        (rest_at pool_set_multiple_form last bytes.now) }
    ensures fewer { IfOk result (λ x. length x.1.now < length bytes.now) }
    ensures range { IfOk result (λ x. IsInRange x.0) }
{
    let (pool, rest) = pool_name_argument(alloc, bytes)?;
    let (pairs, rest) = own_pairs_argument(alloc, rest)?;
    let (ttl, rest) = own_ttl_argument(alloc, rest)?;
    let ask = set_many_ask(pairs, ttl);
    let boxed = PoolBox::new(alloc, PoolCall { pool, ask })?;
    bare(Call::Pool(boxed), rest)
}

// The arguments of `pool_delete_multiple`.
pub(crate) fn pool_delete_multiple(alloc: Global, bytes: &[u8]) -> Result<(Effect, &[u8]), Stop>
    ensures read { (last : List ℕ) → GivesItem (λ x. (x.0, x.1.now)) result
        (rest_at pool_delete_multiple_form last bytes.now) }
    ensures fewer { IfOk result (λ x. length x.1.now < length bytes.now) }
    ensures range { IfOk result (λ x. IsInRange x.0) }
{
    let (pool, rest) = pool_name_argument(alloc, bytes)?;
    let (keys, rest) = own_keys_argument(alloc, rest)?;
    let ask = PoolAsk::DeleteMany(keys);
    let boxed = PoolBox::new(alloc, PoolCall { pool, ask })?;
    bare(Call::Pool(boxed), rest)
}

// The arguments of `pool_has`.
pub(crate) fn pool_has(alloc: Global, bytes: &[u8]) -> Result<(Effect, &[u8]), Stop>
    ensures read { (last : List ℕ) → GivesItem (λ x. (x.0, x.1.now)) result
        (rest_at pool_has_form last bytes.now) }
    ensures fewer { IfOk result (λ x. length x.1.now < length bytes.now) }
    ensures range { IfOk result (λ x. IsInRange x.0) }
{
    let (pool, rest) = pool_name_argument(alloc, bytes)?;
    let (key, rest) = own_key_argument(alloc, rest)?;
    let ask = PoolAsk::Has(key);
    let boxed = PoolBox::new(alloc, PoolCall { pool, ask })?;
    bare(Call::Pool(boxed), rest)
}
