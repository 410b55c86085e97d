//! Lines that store.

ghost use Rattle.std.specs.Prelude.{ℕ, ◌<◌, List, length, IfOk};
ghost use Rattle.script_read.specs.Arguments.{stored};
ghost use Rattle.script_read.specs.Table.{needs, store_one, store_many, store_by};
ghost use Rattle.script_read.specs.Reading.{rest_at};
ghost use Rattle.script_read.specs.Gives.{GivesItem, IsInRange};

use crate::arguments::{null_argument, stored_argument, ttl_argument, value_argument};
use crate::call::Call;
use crate::choices::Stored;
use crate::effect::Effect;
use crate::fault::Stop;
use crate::lines::bare;
use apcu_model::Pairs;
use php_graph::Bytes;
use std::alloc::Global;

// The arguments of `apcu_store` and `apcu_add`.
#[tactic(auto, using(crate::proofs::TableRows::stored_is))]
pub(crate) fn store(alloc: Global, exclusive: bool, bytes: &[u8]) -> Result<(Effect, &[u8]), Stop>
    ensures read { (last : List ℕ) → GivesItem (λ x. (x.0, x.1.now)) result
        (rest_at (needs stored (store_by exclusive)) last bytes.now) }
    ensures fewer { IfOk result (λ x. length x.1.now < length bytes.now) }
    ensures range { IfOk result (λ x. IsInRange x.0) }
{
    let (first, rest) = stored_argument(alloc, bytes)?;
    match first {
        Stored::One(key) => store_one(alloc, exclusive, key, rest),
        Stored::Many(pairs) => store_many(alloc, exclusive, pairs, rest),
    }
}

// The value of a key, and a ttl.
fn store_one(
    alloc: Global,
    exclusive: bool,
    key: Bytes,
    bytes: &[u8],
) -> Result<(Effect, &[u8]), Stop>
    ensures read { (last : List ℕ) → GivesItem (λ x. (x.0, x.1.now)) result
        (rest_at (store_one exclusive key) last bytes.now) }
    ensures fewer { IfOk result (λ x. length x.1.now < length bytes.now) }
    ensures range { IfOk result (λ x. IsInRange x.0) }
{
    let (value, rest) = value_argument(alloc, bytes)?;
    let (ttl, rest) = ttl_argument(alloc, rest)?;
    let call = Call::StoreOne {
        key,
        value,
        ttl,
        exclusive,
    };
    bare(call, rest)
}

// What follows an array of keys with their values: a null, and a ttl.
fn store_many(
    alloc: Global,
    exclusive: bool,
    pairs: Pairs,
    bytes: &[u8],
) -> Result<(Effect, &[u8]), Stop>
    ensures read { (last : List ℕ) → GivesItem (λ x. (x.0, x.1.now)) result
        (rest_at (store_many exclusive pairs) last bytes.now) }
    ensures fewer { IfOk result (λ x. length x.1.now < length bytes.now) }
    ensures range { IfOk result (λ x. IsInRange x.0) }
{
    let rest = null_argument(alloc, bytes)?;
    let (ttl, rest) = ttl_argument(alloc, rest)?;
    let call = Call::StoreMany {
        pairs,
        ttl,
        exclusive,
    };
    bare(call, rest)
}
