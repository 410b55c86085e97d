//! The reply of the cache on words to any request.

ghost use Rattle.std.specs.Prelude.{◌≡◌, ◌<◌, ◌^◌, true, false, length, Some, IfOk};
ghost use Rattle.seg_words.specs.Kept.{Kept, KeptBeside};
ghost use Rattle.apcu_model.specs.Asking.{asked};
ghost use Rattle.apcu_model.specs.Sequential.{info_reply, is_stored};
ghost use Rattle.apcu_model.specs.History.{is_scalar};
ghost use Rattle.apcu_model.specs.declared.request.Request.TheVariants as requests;
ghost use Rattle.apcu_model.specs.declared.request.Reply.TheVariants as replies;
ghost use Rattle.cache_core.specs.CoreCache.{cache_of, CacheStands};
ghost use Rattle.cache_core.specs.Events.{DoesIf, MayInsert};
ghost use Rattle.cache_core.specs.Integers.{NameNoScalar};
ghost use Rattle.counter_entry.specs.Numbers.{reply_of};
ghost use Rattle.mark_play.specs.Asks.{MayBeAsked};
ghost use Rattle.entry_slots.specs.Lists.{has_place};
ghost use Rattle.entry_slots.specs.Entries.{IsListed, listed};
ghost use Rattle.entry_slots.specs.Standing.{Stand, entries};
ghost use Rattle.apcu_model.specs.Cache.{Row};
ghost use Rattle.mark_play.specs.Windows.{window_by, window_on};

use apcu_iter::{chunk, chunk_delete, totals};
use apcu_model::{Ask, Reply, StoreAnswer};
use cache_core::Core;
use cache_info::{cache_info, key_info, sma_info};
use counter_entry::{IncAnswer, cas, entry, inc};
use entry_slots::EntrySlots;
use php_graph::{Bytes, Graph, Kind};
use row_search::Search;
use seg_words::{Segment, WordsIn};
use std::alloc::{AllocError, Global};
use std::marker::Model;

/// What a worker still copies: the row of this number, which its last event found under the key.
#[derive(Drop)]
pub struct Window {
    pub key: Bytes,
    pub number: u64,
}

// Whether a value was stored.
fn was_stored(answer: StoreAnswer) -> Reply
    ensures { result ≡ replies.Flag (is_stored answer) }
{
    match answer {
        StoreAnswer::Stored => Reply::Flag(true),
        StoreAnswer::TooLarge | StoreAnswer::Exists | StoreAnswer::NoRoom => Reply::Flag(false),
    }
}

// The reply of counting.
fn number(answer: IncAnswer) -> Reply
    ensures { result ≡ reply_of answer }
{
    match answer {
        IncAnswer::Value(n) => Reply::Number(n),
        IncAnswer::NotInteger | IncAnswer::NoRoom => Reply::NoNumber,
    }
}

// The reply of `apcu_key_info`, if a row was found.
fn reply_of_info(info: Option<Graph>) -> Reply
    ensures { result ≡ info_reply info }
{
    match info {
        Some(info) => Reply::Info(info),
        None => Reply::Absent,
    }
}

// Whether the value is returned at once, and never copied outside an event.
fn is_scalar(value: &Graph) -> bool
    ensures { result ≡ is_scalar value.now }
{
    if value.places() == 0 {
        return false;
    }
    match value.kind(1) {
        Kind::Null | Kind::Bool(_) | Kind::Int(_) => true,
        Kind::Str(_) | Kind::Array(_) | Kind::Object(..) | Kind::Same(_) => false,
    }
}

// The window opened by a look-up that found the row at a place with this value.
fn window_at<S: Segment>(
    alloc: Global,
    slots: &EntrySlots,
    seg: &mut S,
    key: &[u8],
    at: u32,
    value: &Graph,
) -> Result<Option<Window>, AllocError>
    requires short { length key.now < 2 ^ 32 }
    requires stand { Stand S.WordsIn slots.now seg.old }
    requires there { has_place at (listed (entries slots.now)) ≡ true }
    ensures window { (row : Row) → IsListed (entries slots.now) at row → row.graph ≡ value.now
        → IfOk result (λ w. w ≡ window_on key.now (Some row)) }
    ensures kept { Kept S.WordsIn seg.old seg.new }
{
    if is_scalar(value) {
        return Ok(None);
    }
    let number = slots.head(seg, at).number;
    let key = Bytes::of(alloc, key)?;
    Ok(Some(Window { key, number }))
}

// A fetch of the value of a key, and the window that it opens. Memory is taken before anything
// changes.
fn fetch<S: Segment>(
    alloc: Global,
    core: &mut Core,
    seg: &mut S,
    key: &[u8],
    t: u64,
) -> Result<(Reply, Option<Window>), AllocError>
    requires short { length key.now < 2 ^ 32 }
    requires stand { CacheStands S.WordsIn core.old seg.old }
    ensures does { DoesIf S.WordsIn core.old core.new seg.old seg.new t (requests.Fetch key.now)
        result (λ r. r.0) }
    ensures window { IfOk result (λ r. r.1
        ≡ window_by t (requests.Fetch key.now) (cache_of core.old)) }
    ensures beside { KeptBeside S.WordsIn seg.old seg.new }
{
    let Some((at, value)) = core.copy_live(alloc, seg, key, t)? else {
        core.count_misses(1);
        return Ok((Reply::Absent, None));
    };
    let window = window_at(alloc, core.slots(), seg, key, at, &value)?;
    core.count_hit(seg, at, t);
    Ok((Reply::Found(value), window))
}

// The reply to a request, and the window that it opens. Without memory nothing changed.
pub(crate) fn answer<S: Segment>(
    alloc: Global,
    core: &mut Core,
    seg: &mut S,
    ask: Ask<'_>,
    search: &mut Search,
    t: u64,
) -> Result<(Reply, Option<Window>), AllocError>
    requires may { MayBeAsked (cache_of core.old).conf search.old (asked ask) }
    requires ready { MayInsert S.WordsIn false core.old seg.old }
    requires unnamed { NameNoScalar (S.aside seg.old).windows (cache_of core.old).rows }
    ensures does { DoesIf S.WordsIn core.old core.new seg.old seg.new t (asked ask.entry) result
        (λ r. r.0) }
    ensures window { IfOk result (λ r. r.1
        ≡ window_by t (asked ask.entry) (cache_of core.old)) }
    ensures search { search.new ≡ search.old }
{
    match ask {
        Ask::Store {
            key,
            value,
            ttl,
            exclusive,
        } => {
            let answer = core.store(seg, key, value, ttl, exclusive, t);
            Ok((was_stored(answer), None))
        }
        Ask::Fetch(key) => fetch(alloc, core, seg, key, t),
        Ask::Exists(key) => {
            let found = core.exists(seg, key, t);
            Ok((Reply::Flag(found), None))
        }
        Ask::Delete(key) => {
            let found = core.delete(seg, key, t);
            Ok((Reply::Flag(found), None))
        }
        Ask::Inc { key, step, ttl } => {
            let answer = inc(alloc, core, seg, key, step, ttl, t);
            Ok((number(answer), None))
        }
        Ask::Cas { key, expect, set } => {
            let found = cas(core, seg, key, expect, set, t);
            Ok((Reply::Flag(found), None))
        }
        Ask::Entry(generator) => {
            let (value, _fate) = entry(alloc, core, seg, generator, t)?;
            Ok((Reply::Gave(value), None))
        }
        Ask::Clear => {
            core.clear(seg, t);
            Ok((Reply::Flag(true), None))
        }
        Ask::KeyInfo(key) => {
            let info = key_info(alloc, core, seg, key, t)?;
            Ok((reply_of_info(info), None))
        }
        Ask::CacheInfo(limited) => {
            let info = cache_info(alloc, core, seg, limited)?;
            Ok((Reply::Info(info), None))
        }
        Ask::SmaInfo(limited) => {
            let info = sma_info(alloc, core, seg, limited)?;
            Ok((Reply::Info(info), None))
        }
        Ask::Chunk {
            search: _,
            from,
            size,
            list,
            fields,
        } => {
            let chunk = chunk(alloc, core, seg, search, from, size, list, fields, t)?;
            Ok((Reply::Chunk(chunk), None))
        }
        Ask::ChunkDelete {
            search: _,
            from,
            size,
        } => {
            let next = chunk_delete(alloc, core, seg, search, from, size, t)?;
            Ok((Reply::Next(next), None))
        }
        Ask::Totals { search: _, list } => {
            let (count, hits, size) = totals(core, seg, search, list, t)?;
            Ok((Reply::Totals { count, hits, size }, None))
        }
        Ask::Retire => Ok((Reply::Ended, None)),
    }
}
