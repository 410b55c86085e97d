//! The searches for the patterns that calls are made with.

ghost use Rattle.std.specs.Prelude.{◌≡◌, IfOk, IfErr};
ghost use Rattle.script_read.specs.Calls.{HasRanges};
ghost use Rattle.script_read.specs.Patterns.{call_pattern, MayBeRefused};
ghost use Rattle.worker_play.specs.declared.script.PlayFault.TheVariants as faults;

use crate::script::PlayFault;
use row_search::{Maker, Search, SearchFault};
use script_read::Call;
use std::alloc::Global;

// The search of a call, for each step that it makes. A call without a pattern has one for all keys,
// which takes no memory.
pub(crate) fn search_of<M: Maker>(
    alloc: Global,
    maker: &M,
    call: &Call,
) -> Result<Search, PlayFault>
    requires { HasRanges call.now }
    ensures made { IfOk result (λ search. search ≡ call_pattern call.now) }
    ensures pattern { IfErr result (λ fault. fault ≡ faults.Pattern
        → MayBeRefused (M.may_refuse maker.now) (call_pattern call.now)) }
{
    let pattern = call.pattern(alloc)?;
    match Search::new(alloc, maker, pattern.as_ref()) {
        Ok(search) => Ok(search),
        Err(SearchFault::BadPattern | SearchFault::TooBig) => Err(PlayFault::Pattern),
        Err(SearchFault::Memory) => Err(PlayFault::Memory),
    }
}
