//! Searches for the patterns of calls, and compiling all patterns of scripts before they are played
//! or judged.
#![tactic(auto)]

ghost use Rattle.std.specs.Prelude.{◌≡◌, ◌≢◌, IfOk, IfErr, OnOk};
ghost use Rattle.row_search.specs.declared.maker.SearchFault.TheVariants.{Memory};
ghost use Rattle.script_read.specs.Calls.{HasRanges};
ghost use Rattle.script_read.specs.Patterns.{call_pattern, MayBeRefused, HasRefusable};
ghost use Rattle.script_read.specs.Patterns.{SomeRefusable};
ghost use Rattle.script_search.specs.ReadPatterns.{IsReadable, IsReadableScript, AreReadable};

use row_search::{Maker, Search, SearchFault};
use script_read::{Call, Script, Scripts};
use std::alloc::Global;

/// The search of a call, for each step that it makes. A call without a pattern has one for all
/// keys, which takes no memory.
pub fn search_of<M: Maker>(alloc: Global, maker: &M, call: &Call) -> Result<Search, SearchFault>
    requires { HasRanges call.now }
    ensures made { IfOk result (λ search. search ≡ call_pattern call.now) }
    ensures refused { IfErr result (λ fault. fault ≢ Memory
        → MayBeRefused (M.may_refuse maker.now) (call_pattern call.now)) }
{
    let pattern = call.pattern(alloc)?;
    Search::new(alloc, maker, pattern.as_ref())
}

// Compiles a call's pattern, if it has one, and drops the regex.
fn try_call<M: Maker>(alloc: Global, maker: &M, call: &Call) -> Result<(), SearchFault>
    requires { HasRanges call.now }
    ensures readable { OnOk result (IsReadable (call_pattern call.now)) }
    ensures refused { IfErr result (λ fault. fault ≢ Memory
        → MayBeRefused (M.may_refuse maker.now) (call_pattern call.now)) }
{
    let Some(pattern) = call.pattern(alloc)? else {
        return Ok(());
    };
    let _regex = maker.build(alloc, &pattern)?;
    Ok(())
}

// The same of each call of a script.
fn try_script<M: Maker>(alloc: Global, maker: &M, script: &Script) -> Result<(), SearchFault>
    ensures readable { OnOk result (IsReadableScript script.now) }
    ensures refused { IfErr result (λ fault. fault ≢ Memory
        → HasRefusable (M.may_refuse maker.now) script.now) }
{
    for number in 0..script.len() {
        try_call(alloc, maker, &script.at(number).call)?;
    }
    Ok(())
}

/// Compiles each pattern of all scripts once, and keeps no regex. So an invalid or a refused
/// pattern is found before a script is played, and whatever output is judged.
pub fn try_patterns<M: Maker>(
    alloc: Global,
    maker: &M,
    scripts: &Scripts,
) -> Result<(), SearchFault>
    ensures readable { OnOk result (AreReadable scripts.now) }
    ensures refused { IfErr result (λ fault. fault ≢ Memory
        → SomeRefusable (M.may_refuse maker.now) scripts.now) }
{
    for worker in 0..scripts.len() {
        try_script(alloc, maker, scripts.at(worker))?;
    }
    Ok(())
}
