//! Lines that count, and entries.

ghost use Rattle.std.specs.Prelude.{◌≡◌, ℕ, ◌<◌, List, length, IfOk};
ghost use Rattle.script_read.specs.Table.{step_by, count_form, cas_form, entry_form};
ghost use Rattle.script_read.specs.Reading.{rest_at};
ghost use Rattle.script_read.specs.Gives.{GivesItem, IsInRange};

use crate::arguments::{end, integer_argument, key_argument, step_argument, ttl_argument};
use crate::call::Call;
use crate::effect::Effect;
use crate::fault::Stop;
use crate::generators::{entry_round, gen_argument};
use crate::lines::bare;
use std::alloc::Global;

// The arguments of `apcu_inc` and `apcu_dec`.
pub(crate) fn count(alloc: Global, down: bool, bytes: &[u8]) -> Result<(Effect, &[u8]), Stop>
    ensures read { (last : List ℕ) → GivesItem (λ x. (x.0, x.1.now)) result
        (rest_at (count_form down) last bytes.now) }
    ensures fewer { IfOk result (λ x. length x.1.now < length bytes.now) }
    ensures range { IfOk result (λ x. IsInRange x.0) }
{
    let (key, rest) = key_argument(alloc, bytes)?;
    let (step, rest) = step_argument(alloc, rest)?;
    let (ttl, rest) = ttl_argument(alloc, rest)?;
    let step = step_by(down, step);
    bare(Call::Inc { key, step, ttl }, rest)
}

// The step of a call that counts up or down.
fn step_by(down: bool, step: i64) -> i64
    ensures { result ≡ step_by down step }
{
    if down { step.wrapping_neg() } else { step }
}

// The arguments of `apcu_cas`.
pub(crate) fn cas(alloc: Global, bytes: &[u8]) -> Result<(Effect, &[u8]), Stop>
    ensures read { (last : List ℕ) → GivesItem (λ x. (x.0, x.1.now)) result
        (rest_at cas_form last bytes.now) }
    ensures fewer { IfOk result (λ x. length x.1.now < length bytes.now) }
    ensures range { IfOk result (λ x. IsInRange x.0) }
{
    let (key, rest) = key_argument(alloc, bytes)?;
    let (expect, rest) = integer_argument(alloc, rest)?;
    let (set, rest) = integer_argument(alloc, rest)?;
    let rest = end(rest)?;
    Ok((Effect::Calls(Call::Cas { key, expect, set }), rest))
}

// The arguments of `apcu_entry`.
pub(crate) fn entry(alloc: Global, bytes: &[u8]) -> Result<(Effect, &[u8]), Stop>
    ensures read { (last : List ℕ) → GivesItem (λ x. (x.0, x.1.now)) result
        (rest_at entry_form last bytes.now) }
    ensures fewer { IfOk result (λ x. length x.1.now < length bytes.now) }
    ensures range { IfOk result (λ x. IsInRange x.0) }
{
    let (key, rest) = key_argument(alloc, bytes)?;
    let (inner, rest) = gen_argument(alloc, rest)?;
    let (ttl, rest) = ttl_argument(alloc, rest)?;
    let rest = end(rest)?;
    let generator = entry_round(alloc, key, ttl, inner)?;
    Ok((Effect::Calls(Call::Entry(generator)), rest))
}
