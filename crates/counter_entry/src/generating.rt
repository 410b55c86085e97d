//! Values of generators: found under one of their keys, or made and stored under those that missed.

ghost use Rattle.std.specs.Prelude.{◌≡◌, ◌<◌, ◌≤◌, ◌^◌, ◌||◌, true, false, List, length, take};
ghost use Rattle.std.specs.Prelude.{IfOk, IfNone};
ghost use Rattle.seg_words.specs.Kept.{Kept, KeptBeside};
ghost use Rattle.apcu_model.specs.declared.request.Request.TheVariants.{Entry};
ghost use Rattle.apcu_model.specs.declared.request.Reply.TheVariants.{Gave};
ghost use Rattle.apcu_model.specs.Change.{inserted};
ghost use Rattle.apcu_model.specs.Generators.{given_by, missed_levels, looked_for, filled};
ghost use Rattle.apcu_model.specs.Generators.{entered};
ghost use Rattle.apcu_model.specs.Levels.{EntryLevel, most_levels};
ghost use Rattle.cache_core.specs.CoreCache.{cache_of, CacheStands};
ghost use Rattle.cache_core.specs.Events.{MayInsert, DoesIf, IsBy, IsStep, makes_room};
ghost use Rattle.counter_entry.specs.Generating.{place_under, fate_of};
ghost use Rattle.counter_entry.specs.declared.answer.Fate.TheVariants.{Found};

use crate::answer::Fate;
use apcu_model::{Gen, GenKind, StoreAnswer};
use cache_core::Core;
use php_graph::Graph;
use seg_words::{Segment, WordsIn};
use std::alloc::{AllocError, Global};

// The result of looking up a generator's keys.
#[derive(Drop)]
struct Origin {
    // a copy of the generator's value
    value: Graph,
    // how many of its keys missed, from the outermost inwards
    missing: u32,
    // the place of the row that was found under the next key
    at: Option<u32>,
}

// The result of storing under a generator's keys.
#[derive(Clone, Copy)]
struct Progress {
    // the last result, if anything was to be stored
    last: Option<StoreAnswer>,
    // whether the removed rows were swept in this event
    swept: bool,
}

/// Returns the value of a generator at the moment `t`, in seconds, as PHP's `apcu_entry` does: its
/// keys are looked up from the outermost inwards, until a row is found. The value is that row's, or
/// else the innermost literal. Each key that missed counts a miss, and the one that was found a
/// hit. Then the value is stored under the keys that missed, the innermost first, each with its own
/// time to live, and never over a live row.
///
/// The value is copied before the first change: if there is no memory for it, nothing changed. It
/// is the first change of its event.
pub fn entry<S: Segment>(
    alloc: Global,
    core: &mut Core,
    seg: &mut S,
    generator: &Gen,
    t: u64,
) -> Result<(Graph, Fate), AllocError>
    requires levels { length generator.now.levels ≤ most_levels }
    requires ready { MayInsert S.WordsIn false core.old seg.old }
    ensures does { DoesIf S.WordsIn core.old core.new seg.old seg.new t
        (Entry generator.now) result (λ r. Gave r.0) }
    ensures fate { IfOk result (λ r. IsBy (S.aside seg.new) (λ held. fate_of
        (entered held generator.now t (cache_of core.old)).outermost) r.1) }
    ensures beside { IfOk result (λ r. r.1 ≡ Found → KeptBeside S.WordsIn seg.old seg.new) }
{
    let origin = look_through(alloc, core, seg, generator, t)?;
    count_lookups(core, seg, origin.missing, origin.at, t);
    let progress = fill(core, seg, generator, origin.missing, &origin.value, t);
    Ok((origin.value, fate(progress.last)))
}

// Looks up the keys of a generator from the outermost inwards, until a row is found, and copies it.
fn look_through<S: Segment>(
    alloc: Global,
    core: &Core,
    seg: &mut S,
    generator: &Gen,
    t: u64,
) -> Result<Origin, AllocError>
    requires levels { length generator.now.levels < 2 ^ 32 }
    requires stand { CacheStands S.WordsIn core.now seg.old }
    ensures value { IfOk result (λ r. r.value ≡ given_by generator.now t (cache_of core.now)) }
    ensures missing { IfOk result (λ r. r.missing
        ≡ length (missed_levels generator.now.levels t (cache_of core.now))) }
    ensures found { IfOk result (λ r. r.at
        ≡ place_under generator.now.levels t (cache_of core.now)) }
    ensures kept { Kept S.WordsIn seg.old seg.new }
{
    match generator.kind() {
        GenKind::Value(literal) => {
            let value = literal.try_copy(alloc)?;
            Ok(Origin {
                value,
                missing: 0,
                at: None,
            })
        }
        GenKind::Entry(key, _, inner) => {
            if let Some((at, value)) = core.copy_live(alloc, seg, key.as_slice(), t)? {
                return Ok(Origin {
                    value,
                    missing: 0,
                    at: Some(at),
                });
            }
            let origin = look_through(alloc, core, seg, inner, t)?;
            Ok(Origin {
                value: origin.value,
                missing: origin.missing + 1,
                at: origin.at,
            })
        }
    }
}

// Counts the look-ups: `missing` misses, and a hit of the row at this place, if there is one.
fn count_lookups<S: Segment>(core: &mut Core, seg: &mut S, missing: u32, at: Option<u32>, t: u64)
    requires stand { CacheStands S.WordsIn core.old seg.old }
    requires there { (levels : List EntryLevel)
        × (at ≡ place_under levels t (cache_of core.old)) }
    ensures cache { (levels : List EntryLevel) → at ≡ place_under levels t (cache_of core.old)
        → missing ≡ length (missed_levels levels t (cache_of core.old))
        → cache_of core.new ≡ looked_for levels t (cache_of core.old) }
    ensures step { IsStep S.WordsIn core.old core.new seg.old seg.new }
    ensures beside { KeptBeside S.WordsIn seg.old seg.new }
{
    core.count_misses(u64::from(missing));
    if let Some(at) = at {
        core.count_hit(seg, at, t);
    }
}

// Stores the value under the first keys of a generator, the innermost of them first.
fn fill<S: Segment>(
    core: &mut Core,
    seg: &mut S,
    generator: &Gen,
    missing: u32,
    value: &Graph,
    t: u64,
) -> Progress
    requires missing { missing ≤ length generator.now.levels }
    requires ready { MayInsert S.WordsIn false core.old seg.old }
    ensures filled { IsBy (S.aside seg.new) (λ held. filled
        held value.now t (take missing generator.now.levels) (cache_of core.old))
        (record { outermost = result.last; cache = cache_of core.new }) }
    ensures step { IsStep S.WordsIn core.old core.new seg.old seg.new }
    ensures next { MayInsert S.WordsIn result.swept core.new seg.new }
    ensures kept { IfNone result.last (Kept S.WordsIn seg.old seg.new) }
{
    if missing == 0 {
        return Progress {
            last: None,
            swept: false,
        };
    }
    match generator.kind() {
        GenKind::Value(_) => Progress {
            last: None,
            swept: false,
        },
        GenKind::Entry(key, ttl, inner) => {
            let before = fill(core, seg, inner, missing - 1, value, t);
            let answer = insert(core, seg, key.as_slice(), value, *ttl, before.swept, t);
            Progress {
                last: Some(answer),
                swept: has_swept(before.swept, answer),
            }
        }
    }
}

// Stores the value under a key if no live row has it.
fn insert<S: Segment>(
    core: &mut Core,
    seg: &mut S,
    key: &[u8],
    value: &Graph,
    ttl: u32,
    swept: bool,
    t: u64,
) -> StoreAnswer
    requires short { length key.now < 2 ^ 32 }
    requires ready { MayInsert S.WordsIn swept core.old seg.old }
    ensures inserted { IsBy (S.aside seg.new)
        (λ held. inserted held key.now value.now ttl true t (cache_of core.old))
        (record { answer = result; cache = cache_of core.new }) }
    ensures step { IsStep S.WordsIn core.old core.new seg.old seg.new }
    ensures next { MayInsert S.WordsIn (swept || makes_room result) core.new seg.new }
{
    if swept {
        core.store_next(seg, key, value, ttl, true, t)
    } else {
        core.store(seg, key, value, ttl, true, t)
    }
}

// Whether the removed rows are swept by now, if a value was stored with this result.
fn has_swept(before: bool, answer: StoreAnswer) -> bool
    ensures { result ≡ (before || makes_room answer) }
{
    before || answer == StoreAnswer::NoRoom || answer == StoreAnswer::Stored
}

// What happened to a value, by the last result of storing it.
fn fate(last: Option<StoreAnswer>) -> Fate
    ensures { result ≡ fate_of last }
{
    match last {
        None => Fate::Found,
        Some(answer) => Fate::Made {
            stored: answer == StoreAnswer::Stored,
        },
    }
}
