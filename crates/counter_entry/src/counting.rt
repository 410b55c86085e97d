//! Incrementing and decrementing, `apcu_inc` and `apcu_dec`.

ghost use Rattle.std.specs.Prelude.{◌≡◌, ◌<◌, ◌^◌, false, length, IfSome};
ghost use Rattle.seg_words.specs.Kept.{KeptBeside};
ghost use Rattle.apcu_model.specs.declared.request.Request.TheVariants.{Inc};
ghost use Rattle.apcu_model.specs.Counters.{begun};
ghost use Rattle.apcu_model.specs.Expiry.{live_row};
ghost use Rattle.apcu_model.specs.SlotOrder.{slot_of};
ghost use Rattle.cache_core.specs.CoreCache.{cache_of};
ghost use Rattle.cache_core.specs.Events.{MayInsert, Does, IsBy, IsStep, IsUnchanged};
ghost use Rattle.cache_core.specs.Integers.{NameNoScalar};
ghost use Rattle.counter_entry.specs.declared.answer.IncAnswer.TheVariants as answers;
ghost use Rattle.counter_entry.specs.Numbers.{begun_answer, inc_answer, new_counter};
ghost use Rattle.counter_entry.specs.Numbers.{number_answered};
ghost use Rattle.counter_entry.specs.Numbers.{reply_of};

use crate::answer::IncAnswer;
use crate::looking::{Found, look_for};
use apcu_model::{StoreAnswer, integer};
use cache_core::Core;
use seg_words::{Segment, WordsIn};
use std::alloc::Global;

/// Adds the step at the moment `t`, in seconds, to the integer of the row that a look-up of the key
/// finds, as signed 64-bit numbers; the sum wraps. The row keeps its time to live, and neither a
/// hit nor a miss is counted. If a look-up finds no row, a new one counts from 0 and lives for
/// `ttl` seconds; 0 is no limit. No memory is allocated: `alloc` is for the empty list of further
/// places that the new value has. Only a new row makes it probe for copies.
///
/// It is the first change of its event, and no window may name a row that holds null, a boolean or
/// an integer.
pub fn inc<S: Segment>(
    alloc: Global,
    core: &mut Core,
    seg: &mut S,
    key: &[u8],
    step: i64,
    ttl: u32,
    t: u64,
) -> IncAnswer
    requires short { length key.now < 2 ^ 32 }
    requires ready { MayInsert S.WordsIn false core.old seg.old }
    requires unnamed { NameNoScalar (S.aside seg.old).windows (cache_of core.old).rows }
    ensures answer { IsBy (S.aside seg.new)
        (λ held. inc_answer held key.now step ttl t (cache_of core.old)) result }
    ensures does { Does S.WordsIn core.old core.new seg.old seg.new t
        (Inc key.now step ttl) (reply_of result) }
    ensures none { result ≡ answers.NotInteger
        → IsUnchanged S.WordsIn core.old core.new seg.old seg.new }
    ensures beside { IfSome (live_row key.now t (cache_of core.old))
        (λ _. KeptBeside S.WordsIn seg.old seg.new) }
{
    let slot = core.slot_of_key(key);
    inc_in(alloc, core, seg, key, slot, step, ttl, t)
}

/// The same; `slot` is that of the key.
pub fn inc_in<S: Segment>(
    alloc: Global,
    core: &mut Core,
    seg: &mut S,
    key: &[u8],
    slot: u32,
    step: i64,
    ttl: u32,
    t: u64,
) -> IncAnswer
    requires short { length key.now < 2 ^ 32 }
    requires slot { slot ≡ slot_of core.old.conf key.now }
    requires ready { MayInsert S.WordsIn false core.old seg.old }
    requires unnamed { NameNoScalar (S.aside seg.old).windows (cache_of core.old).rows }
    ensures answer { IsBy (S.aside seg.new)
        (λ held. inc_answer held key.now step ttl t (cache_of core.old)) result }
    ensures does { Does S.WordsIn core.old core.new seg.old seg.new t
        (Inc key.now step ttl) (reply_of result) }
    ensures none { result ≡ answers.NotInteger
        → IsUnchanged S.WordsIn core.old core.new seg.old seg.new }
    ensures beside { IfSome (live_row key.now t (cache_of core.old))
        (λ _. KeptBeside S.WordsIn seg.old seg.new) }
{
    match look_for(core, seg, key, slot, t) {
        Found::Nothing => begin(alloc, core, seg, key, slot, step, ttl, t),
        Found::Other => IncAnswer::NotInteger,
        Found::Integer(at, n) => {
            let sum = n.wrapping_add(step);
            core.set_int(seg, at, sum, t);
            IncAnswer::Value(sum)
        }
    }
}

// Whether the step of a new counter was stored.
fn answer(step: i64, stored: StoreAnswer) -> IncAnswer
    ensures { result ≡ begun_answer step stored }
{
    if stored == StoreAnswer::Stored {
        IncAnswer::Value(step)
    } else {
        IncAnswer::NoRoom
    }
}

// A new counter, which counts the step from 0; `slot` is that of the key.
fn begin<S: Segment>(
    alloc: Global,
    core: &mut Core,
    seg: &mut S,
    key: &[u8],
    slot: u32,
    step: i64,
    ttl: u32,
    t: u64,
) -> IncAnswer
    requires short { length key.now < 2 ^ 32 }
    requires slot { slot ≡ slot_of core.old.conf key.now }
    requires ready { MayInsert S.WordsIn false core.old seg.old }
    ensures answer { IsBy (S.aside seg.new) (λ held. begun_answer step
        (new_counter held key.now step ttl t (cache_of core.old)).answer) result }
    ensures counted { IsBy (S.aside seg.new)
        (λ held. begun step (new_counter held key.now step ttl t (cache_of core.old)))
        (record { number = number_answered result; cache = cache_of core.new }) }
    ensures step { IsStep S.WordsIn core.old core.new seg.old seg.new }
{
    let value = integer(alloc, step);
    answer(step, core.store_in(seg, key, slot, &value, ttl, false, t))
}
