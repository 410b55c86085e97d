//! Lines that look up keys, or delete them.

ghost use Rattle.std.specs.Prelude.{ℕ, ◌<◌, List, codes, length, IfOk};
ghost use Rattle.script_read.specs.Arguments.{asked_of};
ghost use Rattle.script_read.specs.Table.{form_of};
ghost use Rattle.script_read.specs.Reading.{last_argument_at, rest_at};
ghost use Rattle.script_read.specs.Gives.{GivesItem, IsInRange};

use crate::arguments::{asked_argument, end};
use crate::call::Call;
use crate::choices::Asked;
use crate::effect::Effect;
use crate::fault::Stop;
use std::alloc::Global;

// The keys of the call, and the end of the line.
fn asked(alloc: Global, bytes: &[u8]) -> Result<(Asked, &[u8]), Stop>
    ensures read { GivesItem (λ x. (x.0, x.1.now)) result (last_argument_at asked_of bytes.now) }
    ensures fewer { IfOk result (λ x. length x.1.now < length bytes.now) }
{
    let (asked, rest) = asked_argument(alloc, bytes)?;
    let rest = end(rest)?;
    Ok((asked, rest))
}

// The argument of `apcu_fetch`.
#[tactic(auto, using(crate::proofs::TableRows::fetch_is))]
pub(crate) fn fetch(alloc: Global, bytes: &[u8]) -> Result<(Effect, &[u8]), Stop>
    ensures read { (last : List ℕ) → GivesItem (λ x. (x.0, x.1.now)) result
        (rest_at (form_of (codes "apcu_fetch")) last bytes.now) }
    ensures fewer { IfOk result (λ x. length x.1.now < length bytes.now) }
    ensures range { IfOk result (λ x. IsInRange x.0) }
{
    let (asked, rest) = asked(alloc, bytes)?;
    let call = match asked {
        Asked::One(key) => Call::FetchOne(key),
        Asked::Many(keys) => Call::FetchMany(keys),
    };
    Ok((Effect::Calls(call), rest))
}

// The argument of `apcu_exists`.
#[tactic(auto, using(crate::proofs::TableRows::exists_is))]
pub(crate) fn exists(alloc: Global, bytes: &[u8]) -> Result<(Effect, &[u8]), Stop>
    ensures read { (last : List ℕ) → GivesItem (λ x. (x.0, x.1.now)) result
        (rest_at (form_of (codes "apcu_exists")) last bytes.now) }
    ensures fewer { IfOk result (λ x. length x.1.now < length bytes.now) }
    ensures range { IfOk result (λ x. IsInRange x.0) }
{
    let (asked, rest) = asked(alloc, bytes)?;
    let call = match asked {
        Asked::One(key) => Call::ExistsOne(key),
        Asked::Many(keys) => Call::ExistsMany(keys),
    };
    Ok((Effect::Calls(call), rest))
}

// The argument of `apcu_delete`.
#[tactic(auto, using(crate::proofs::TableRows::delete_is))]
pub(crate) fn delete(alloc: Global, bytes: &[u8]) -> Result<(Effect, &[u8]), Stop>
    ensures read { (last : List ℕ) → GivesItem (λ x. (x.0, x.1.now)) result
        (rest_at (form_of (codes "apcu_delete")) last bytes.now) }
    ensures fewer { IfOk result (λ x. length x.1.now < length bytes.now) }
    ensures range { IfOk result (λ x. IsInRange x.0) }
{
    let (asked, rest) = asked(alloc, bytes)?;
    let call = match asked {
        Asked::One(key) => Call::DeleteOne(key),
        Asked::Many(keys) => Call::DeleteMany(keys),
    };
    Ok((Effect::Calls(call), rest))
}
