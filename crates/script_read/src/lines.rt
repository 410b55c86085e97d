//! Lines: what follows each word, to the end of its line.

ghost use Rattle.std.specs.Prelude.{◌≡◌, ℕ, ◌≤◌, ◌<◌, List, length, IfOk, OnOk};
ghost use Rattle.apcu_model.specs.declared.limits.TheConstants.{MOST_WORKERS};
ghost use Rattle.script_read.specs.Calls.{HasRanges};
ghost use Rattle.script_read.specs.Table.{call_form, timing, moment_form};
ghost use Rattle.script_read.specs.Reading.{ends_word, word_len, line_word, behind_word, rest_at};
ghost use Rattle.script_read.specs.Reading.{worker_at, line_at};
ghost use Rattle.script_read.specs.Gives.{GivesItem, form_named, IsInRange};

use crate::arguments::{end, fault, moment_argument};
use crate::call::Call;
use crate::counters::{cas, count, entry};
use crate::effect::Effect;
use crate::fault::Stop;
use crate::information::{cache_info, key_info, sma_info};
use crate::iterators::{totals, walk, walk_delete};
use crate::keyword::Keyword;
use crate::lookups::{delete, exists, fetch};
use crate::pools::{
    pool_clear, pool_delete, pool_delete_multiple, pool_get, pool_get_multiple, pool_has, pool_set,
    pool_set_multiple,
};
use crate::stores::store;
use apcu_model::MOST_WORKERS;
use notation::Reason;
use std::alloc::Global;

// The effect of a line with a moment: it begins a request, or only sets the moment.
fn timing(begins: bool, t: u64) -> Effect
    ensures { result ≡ timing begins t }
{
    if begins {
        Effect::Begins(t)
    } else {
        Effect::Sets(t)
    }
}

// The argument of `time`, or of `request`, which begins one.
fn moment(alloc: Global, begins: bool, bytes: &[u8]) -> Result<(Effect, &[u8]), Stop>
    ensures read { (last : List ℕ) → GivesItem (λ x. (x.0, x.1.now)) result
        (rest_at (moment_form begins) last bytes.now) }
    ensures fewer { IfOk result (λ x. length x.1.now < length bytes.now) }
    ensures range { IfOk result (λ x. IsInRange x.0) }
{
    let (t, rest) = moment_argument(alloc, bytes)?;
    let rest = end(rest)?;
    Ok((timing(begins, t), rest))
}

// A call whose last argument is read, or that has none: its line ends here.
#[inline(always)]
#[tactic(auto, unfolding(crate::specs::Reading::rest_at))]
pub(crate) fn bare(call: Call, bytes: &[u8]) -> Result<(Effect, &[u8]), Stop>
    requires { HasRanges call }
    ensures read { (last : List ℕ) → GivesItem (λ x. (x.0, x.1.now)) result
        (rest_at (call_form call) last bytes.now) }
    ensures fewer { IfOk result (λ x. length x.1.now < length bytes.now) }
    ensures range { IfOk result (λ x. IsInRange x.0) }
{
    let rest = end(bytes)?;
    Ok((Effect::Calls(call), rest))
}

// What follows a word, to the end of the line. The line begins with the word.
#[tactic(auto, unfolding(crate::specs::Reading::rest_at, crate::specs::Table::form_in))]
fn effect<'a>(
    alloc: Global,
    word: Keyword,
    line: &'a [u8],
    rest: &'a [u8],
) -> Result<(Effect, &'a [u8]), Stop>
    ensures read { GivesItem (λ x. (x.0, x.1.now)) result
        (rest_at (form_named word) line.now rest.now) }
    ensures fewer { IfOk result (λ x. length x.1.now < length rest.now) }
    ensures range { IfOk result (λ x. IsInRange x.0) }
{
    match word {
        Keyword::Time => moment(alloc, false, rest),
        Keyword::Request => moment(alloc, true, rest),
        Keyword::Store => store(alloc, false, rest),
        Keyword::Add => store(alloc, true, rest),
        Keyword::Fetch => fetch(alloc, rest),
        Keyword::Exists => exists(alloc, rest),
        Keyword::Delete => delete(alloc, rest),
        Keyword::Inc => count(alloc, false, rest),
        Keyword::Dec => count(alloc, true, rest),
        Keyword::Cas => cas(alloc, rest),
        Keyword::Entry => entry(alloc, rest),
        Keyword::Clear => bare(Call::Clear, rest),
        Keyword::Enabled => bare(Call::Enabled, rest),
        Keyword::KeyInfo => key_info(alloc, rest),
        Keyword::CacheInfo => cache_info(alloc, rest),
        Keyword::SmaInfo => sma_info(alloc, rest),
        Keyword::Iterate => walk(alloc, rest),
        Keyword::IterateDelete => walk_delete(alloc, rest),
        Keyword::IterateTotals => totals(alloc, rest),
        Keyword::PoolGet => pool_get(alloc, rest),
        Keyword::PoolSet => pool_set(alloc, rest),
        Keyword::PoolDelete => pool_delete(alloc, rest),
        Keyword::PoolClear => pool_clear(alloc, rest),
        Keyword::PoolGetMany => pool_get_multiple(alloc, rest),
        Keyword::PoolSetMany => pool_set_multiple(alloc, rest),
        Keyword::PoolDeleteMany => pool_delete_multiple(alloc, rest),
        Keyword::PoolHas => pool_has(alloc, rest),
        Keyword::Unknown => Err(fault(Reason::Line, line)),
    }
}

// How long the longest run of letters and `_` in front is.
pub(crate) fn word_len(bytes: &[u8]) -> usize
    ensures len { result ≡ word_len bytes.now }
    ensures within { result ≤ length bytes.now }
{
    for (i, byte) in bytes.iter().enumerate() {
        if ends_word(*byte) {
            return i;
        }
    }
    bytes.len()
}

// Whether a byte ends a word, by the byte: all except letters and `_` do. Each byte of a word is
// tested, and a table is faster than three ranges.
static ENDS_WORD: [bool; 256] = [
    true, true, true, true, true, true, true, true, true, true, true, true, true, true, true, true,
    true, true, true, true, true, true, true, true, true, true, true, true, true, true, true, true,
    true, true, true, true, true, true, true, true, true, true, true, true, true, true, true, true,
    true, true, true, true, true, true, true, true, true, true, true, true, true, true, true, true,
    true, false, false, false, false, false, false, false, false, false, false, false, false,
    false, false, false, false, false, false, false, false, false, false, false, false, false,
    false, true, true, true, true, false, true, false, false, false, false, false, false, false,
    false, false, false, false, false, false, false, false, false, false, false, false, false,
    false, false, false, false, false, false, true, true, true, true, true, true, true, true, true,
    true, true, true, true, true, true, true, true, true, true, true, true, true, true, true, true,
    true, true, true, true, true, true, true, true, true, true, true, true, true, true, true, true,
    true, true, true, true, true, true, true, true, true, true, true, true, true, true, true, true,
    true, true, true, true, true, true, true, true, true, true, true, true, true, true, true, true,
    true, true, true, true, true, true, true, true, true, true, true, true, true, true, true, true,
    true, true, true, true, true, true, true, true, true, true, true, true, true, true, true, true,
    true, true, true, true, true, true, true, true, true, true, true, true, true, true, true, true,
    true, true, true, true, true, true, true, true, true, true, true, true,
];

fn ends_word(byte: u8) -> bool
    ensures { result ≡ ends_word byte }
{
    ENDS_WORD[byte as usize]
}

// The line `worker`, after `begun` scripts have begun.
pub(crate) fn worker<'a>(begun: u32, line: &'a [u8], behind: &'a [u8]) -> Result<&'a [u8], Stop>
    requires { behind.now ≡ behind_word line.now }
    ensures read { GivesItem (λ rest. rest.now) result (worker_at begun line.now) }
    ensures few { OnOk result (begun < MOST_WORKERS) }
    ensures fewer { IfOk result (λ rest. length rest.now < length behind.now) }
{
    if begun < MOST_WORKERS {
        end(behind)
    } else {
        Err(fault(Reason::Workers, line))
    }
}

// Any other line, after `begun` scripts have begun.
pub(crate) fn line<'a>(
    alloc: Global,
    begun: u32,
    word: &[u8],
    line: &'a [u8],
    behind: &'a [u8],
) -> Result<(Effect, &'a [u8]), Stop>
    requires word { word.now ≡ line_word line.now }
    requires behind { behind.now ≡ behind_word line.now }
    ensures read { GivesItem (λ x. (x.0, x.1.now)) result (line_at begun line.now) }
    ensures some { OnOk result (0 < begun) }
    ensures fewer { IfOk result (λ x. length x.1.now < length behind.now) }
    ensures range { IfOk result (λ x. IsInRange x.0) }
{
    if begun == 0 {
        Err(fault(Reason::Line, line))
    } else {
        effect(alloc, Keyword::of(word), line, behind)
    }
}
