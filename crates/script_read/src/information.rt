//! Lines that request information about the cache.

ghost use Rattle.std.specs.Prelude.{ℕ, ◌<◌, List, length, IfOk};
ghost use Rattle.script_read.specs.declared.call.Call.TheVariants.{CacheInfo, SmaInfo};
ghost use Rattle.script_read.specs.Table.{key_info_form, info_form};
ghost use Rattle.script_read.specs.Reading.{rest_at};
ghost use Rattle.script_read.specs.Gives.{GivesItem, IsInRange};

use crate::arguments::{key_argument, truth_argument};
use crate::call::Call;
use crate::effect::Effect;
use crate::fault::Stop;
use crate::lines::bare;
use std::alloc::Global;

// The argument of `apcu_key_info`.
pub(crate) fn key_info(alloc: Global, bytes: &[u8]) -> Result<(Effect, &[u8]), Stop>
    ensures read { (last : List ℕ) → GivesItem (λ x. (x.0, x.1.now)) result
        (rest_at key_info_form last bytes.now) }
    ensures fewer { IfOk result (λ x. length x.1.now < length bytes.now) }
    ensures range { IfOk result (λ x. IsInRange x.0) }
{
    let (key, rest) = key_argument(alloc, bytes)?;
    bare(Call::KeyInfo(key), rest)
}

// The argument of `apcu_cache_info`.
pub(crate) fn cache_info(alloc: Global, bytes: &[u8]) -> Result<(Effect, &[u8]), Stop>
    ensures read { (last : List ℕ) → GivesItem (λ x. (x.0, x.1.now)) result
        (rest_at (info_form CacheInfo) last bytes.now) }
    ensures fewer { IfOk result (λ x. length x.1.now < length bytes.now) }
    ensures range { IfOk result (λ x. IsInRange x.0) }
{
    let (limited, rest) = truth_argument(alloc, bytes)?;
    bare(Call::CacheInfo(limited), rest)
}

// The argument of `apcu_sma_info`.
pub(crate) fn sma_info(alloc: Global, bytes: &[u8]) -> Result<(Effect, &[u8]), Stop>
    ensures read { (last : List ℕ) → GivesItem (λ x. (x.0, x.1.now)) result
        (rest_at (info_form SmaInfo) last bytes.now) }
    ensures fewer { IfOk result (λ x. length x.1.now < length bytes.now) }
    ensures range { IfOk result (λ x. IsInRange x.0) }
{
    let (limited, rest) = truth_argument(alloc, bytes)?;
    bare(Call::SmaInfo(limited), rest)
}
