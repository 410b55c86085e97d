//! The calls of a script: for each the events that it makes, in order, and what it prints for their
//! replies. If memory runs out, only the first of the events were made.

ghost use Rattle.std.specs.Prelude.{◌≡◌, ◌≤◌, ◌<◌, ◌^◌, ◌++◌, [], length, map, codes, OnOk};
ghost use Rattle.apcu_model.specs.declared.request.Request.TheVariants.{Store, Fetch, Exists};
ghost use Rattle.apcu_model.specs.declared.request.Request.TheVariants.{Delete};
ghost use Rattle.script_read.specs.Calls.{HasRanges, event_bound};
ghost use Rattle.script_read.specs.Patterns.{call_pattern};
ghost use Rattle.script_read.specs.Play.{next_of};
ghost use Rattle.reply_text.specs.Replies.{unstored_text, found_text, there_text, undeleted_text};
ghost use Rattle.reply_text.specs.Lines.{call_text};
ghost use Rattle.shared_cache.specs.Asking.{MayAsk};
ghost use Rattle.worker_play.specs.Goes.{KnowsOwnEvents, Reaches, Tells};
ghost use Rattle.worker_play.specs.Groups.{IsFlagged, IsInforming, MayNeedSearch};
ghost use Rattle.worker_play.specs.Groups.{NeedsNoSearch};
ghost use Rattle.worker_play.specs.Turns.{turns_at, asks_at};

use crate::chunks::totals;
use crate::context::{Context, When};
use crate::events::{
    cache_info, cas, clear, delete, entry, exists, fetch, fetch_text, inc, key_info, sma_info,
    store,
};
use crate::noting::{note_there, note_undone, note_value, write_found};
use crate::pools::play_pool;
use crate::walks::{delete_found, walk_active, walk_deleted};
use apcu_model::List;
use io_edges::Gate;
use notation::ByteOut;
use php_graph::{Bytes, Graph};
use pin_table::{Pass, TableName};
use reply_text::{
    Notes, write_each, write_flag, write_flags, write_gave, write_info, write_number,
    write_numbered, write_totals,
};
use row_search::Search;
use script_read::Call;
use std::alloc::AllocError;
use std::sync::Wait;

// Plays a call that needs no search, and prints its result.
pub(crate) fn play_directly<N: TableName, G: Gate, R: Wait>(
    context: &Context<N, G, R>,
    when: When,
    pass: Pass,
    call: &Call,
    out: &mut ByteOut,
) -> (Pass, Result<(), AllocError>)
    requires table { pass.table ≡ N.table }
    requires whole { KnowsOwnEvents pass }
    requires left { event_bound N.conf.slots call.now < pass.known.left }
    requires ranges { HasRanges call.now }
    requires direct { NeedsNoSearch call.now }
    ensures reaches { Reaches N.conf (length N.budgets) pass result.0
        (turns_at when.t (next_of N.conf call.now)) }
    ensures line { OnOk result.1 (Tells N.conf (length N.budgets) pass result.0
        (turns_at when.t (next_of N.conf call.now))
        (λ replies. out.old ++ call_text call.now replies) out.new) }
{
    match call {
        Call::StoreOne { .. } | Call::ExistsOne(_) | Call::DeleteOne(_) | Call::Cas { .. } => {
            play_flagged(context, pass, call, when.t, out)
        }
        Call::StoreMany {
            pairs,
            ttl,
            exclusive,
        } => store_all(
            context,
            pass,
            pairs.as_slice(),
            *ttl,
            *exclusive,
            when.t,
            out,
        ),
        Call::FetchOne(key) => fetch_text(context, when, pass, key, out),
        Call::FetchMany(keys) => {
            let count = keys.len();
            prove!(count <= u32::MAX);
            fetch_all(context, when, pass, keys.as_slice(), out)
        }
        Call::ExistsMany(keys) => { look_for_all(context, pass, keys.as_slice(), when.t, out) }
        Call::DeleteMany(keys) => delete_all(context, pass, keys.as_slice(), when.t, out),
        Call::Inc { key, step, ttl } => {
            let (pass, number) = inc(context, pass, key, *step, *ttl, when.t);
            (pass, write_number(out, number))
        }
        Call::Entry(generator) => {
            let (pass, value) = entry(context, pass, generator, when.t);
            match value {
                Ok(value) => (pass, write_gave(out, &value)),
                Err(e) => (pass, Err(e)),
            }
        }
        Call::Clear => {
            let pass = clear(context, pass, when.t);
            (pass, write_flag(out, true))
        }
        Call::Enabled => (pass, write_flag(out, true)),
        Call::KeyInfo(_) | Call::CacheInfo(_) | Call::SmaInfo(_) => {
            play_told(context, pass, call, when.t, out)
        }
        _ => unreachable!(),
    }
}

// Plays a call on one key that returns whether it was done, and prints that.
fn play_flagged<N: TableName, G: Gate, R: Wait>(
    context: &Context<N, G, R>,
    pass: Pass,
    call: &Call,
    t: u64,
    out: &mut ByteOut,
) -> (Pass, Result<(), AllocError>)
    requires pass { MayAsk N.table 2 pass }
    requires whole { KnowsOwnEvents pass }
    requires flagged { IsFlagged call.now }
    ensures reaches { Reaches N.conf (length N.budgets) pass result.0
        (turns_at t (next_of N.conf call.now)) }
    ensures line { OnOk result.1 (Tells N.conf (length N.budgets) pass result.0
        (turns_at t (next_of N.conf call.now))
        (λ replies. out.old ++ call_text call.now replies) out.new) }
{
    match call {
        Call::StoreOne {
            key,
            value,
            ttl,
            exclusive,
        } => {
            let (pass, stored) = store(context, pass, key, value, *ttl, *exclusive, t);
            (pass, write_flag(out, stored))
        }
        Call::ExistsOne(key) => {
            let (pass, there) = exists(context, pass, key, t);
            (pass, write_flag(out, there))
        }
        Call::DeleteOne(key) => {
            let (pass, deleted) = delete(context, pass, key, t);
            (pass, write_flag(out, deleted))
        }
        Call::Cas { key, expect, set } => {
            let (pass, was_set) = cas(context, pass, key, *expect, *set, t);
            (pass, write_flag(out, was_set))
        }
        _ => unreachable!(),
    }
}

// Plays a call for information about a key, the cache or its segment, and prints that.
#[inline(never)]
fn play_told<N: TableName, G: Gate, R: Wait>(
    context: &Context<N, G, R>,
    pass: Pass,
    call: &Call,
    t: u64,
    out: &mut ByteOut,
) -> (Pass, Result<(), AllocError>)
    requires pass { MayAsk N.table 2 pass }
    requires whole { KnowsOwnEvents pass }
    requires informs { IsInforming call.now }
    ensures reaches { Reaches N.conf (length N.budgets) pass result.0
        (turns_at t (next_of N.conf call.now)) }
    ensures line { OnOk result.1 (Tells N.conf (length N.budgets) pass result.0
        (turns_at t (next_of N.conf call.now))
        (λ replies. out.old ++ call_text call.now replies) out.new) }
{
    match call {
        Call::KeyInfo(key) => {
            let (pass, info) = key_info(context, pass, key, t);
            match info {
                Ok(info) => (pass, write_info(out, info.as_ref())),
                Err(e) => (pass, Err(e)),
            }
        }
        Call::CacheInfo(limited) => {
            let (pass, info) = cache_info(context, pass, *limited);
            match info {
                Ok(info) => (pass, write_info(out, Some(&info))),
                Err(e) => (pass, Err(e)),
            }
        }
        Call::SmaInfo(limited) => {
            let (pass, info) = sma_info(context, pass, *limited);
            match info {
                Ok(info) => (pass, write_info(out, Some(&info))),
                Err(e) => (pass, Err(e)),
            }
        }
        _ => unreachable!(),
    }
}

// Plays a call of an iterator or on a pool, and prints its result. `search` is the one for its
// pattern.
pub(crate) fn play_searching<N: TableName, G: Gate, R: Wait>(
    context: &Context<N, G, R>,
    when: When,
    pass: Pass,
    call: &Call,
    search: &mut Search,
    out: &mut ByteOut,
) -> (Pass, Result<(), AllocError>)
    requires table { pass.table ≡ N.table }
    requires whole { KnowsOwnEvents pass }
    requires slots { context.now.slots ≡ N.conf.slots }
    requires left { event_bound N.conf.slots call.now < pass.known.left }
    requires ranges { HasRanges call.now }
    requires search { search.old ≡ call_pattern call.now }
    requires searches { MayNeedSearch call.now }
    ensures reaches { Reaches N.conf (length N.budgets) pass result.0
        (turns_at when.t (next_of N.conf call.now)) }
    ensures line { OnOk result.1 (Tells N.conf (length N.budgets) pass result.0
        (turns_at when.t (next_of N.conf call.now))
        (λ replies. out.old ++ call_text call.now replies) out.new) }
{
    match call {
        Call::Walk {
            fields,
            size,
            list,
            ..
        } => match list {
            List::Active => walk_active(context, when, pass, search, *size, *fields, out),
            List::Deleted => walk_deleted(context, when, pass, search, *size, *fields, out),
        },
        Call::WalkDelete { size, .. } => delete_found(context, when, pass, search, *size, out),
        Call::Totals { list, .. } => {
            let (pass, sums) = totals(context, pass, search, *list, when.t);
            match sums {
                Ok((count, hits, size)) => (pass, write_totals(out, count, hits, size)),
                Err(e) => (pass, Err(e)),
            }
        }
        Call::Pool(boxed) => {
            let call = boxed.call();
            play_pool(context, when, pass, call, search, out)
        }
        _ => unreachable!(),
    }
}

// Stores all pairs in order, and prints the keys that were not stored.
#[inline(never)]
fn store_all<N: TableName, G: Gate, R: Wait>(
    context: &Context<N, G, R>,
    pass: Pass,
    pairs: &[(Bytes, Graph)],
    ttl: u32,
    exclusive: bool,
    t: u64,
    out: &mut ByteOut,
) -> (Pass, Result<(), AllocError>)
    requires table { pass.table ≡ N.table }
    requires whole { KnowsOwnEvents pass }
    requires left { length pairs.now < pass.known.left }
    ensures reaches { Reaches N.conf (length N.budgets) pass result.0
        (asks_at t (map (λ pair. Store pair.0 pair.1 ttl exclusive) pairs.now)) }
    ensures line { OnOk result.1 (Tells N.conf (length N.budgets) pass result.0
        (asks_at t (map (λ pair. Store pair.0 pair.1 ttl exclusive) pairs.now))
        (λ replies. out.old ++ unstored_text (map (λ pair. pair.0) pairs.now) replies) out.new) }
{
    let mut held = pass;
    let mut refused = Vec::new(context.alloc);
    for pair in pairs {
        let (next, stored) = store(context, held, &pair.0, &pair.1, ttl, exclusive, t);
        held = next;
        if let Err(e) = note_undone(&mut refused, &pair.0, stored) {
            return (held, Err(e));
        }
    }
    (held, write_each(out, &refused, b"i:-1;"))
}

// Fetches all keys in order, each value before the next key, and prints those that were found.
#[inline(never)]
fn fetch_all<N: TableName, G: Gate, R: Wait>(
    context: &Context<N, G, R>,
    when: When,
    pass: Pass,
    keys: &[Bytes],
    out: &mut ByteOut,
) -> (Pass, Result<(), AllocError>)
    requires table { pass.table ≡ N.table }
    requires whole { KnowsOwnEvents pass }
    requires left { length keys.now < pass.known.left }
    requires few { length keys.now < 2 ^ 32 }
    ensures reaches { Reaches N.conf (length N.budgets) pass result.0
        (asks_at when.t (map Fetch keys.now)) }
    ensures line { OnOk result.1 (Tells N.conf (length N.budgets) pass result.0
        (asks_at when.t (map Fetch keys.now))
        (λ replies. out.old ++ found_text keys.now replies) out.new) }
{
    let mut held = pass;
    let mut values = Notes::new(context.alloc);
    for key in keys {
        let (next, found) = fetch(context, when, held, key);
        held = next;
        if let Err(e) = note_value(&mut values, key, found) {
            return (held, Err(e));
        }
    }
    (held, write_found(out, &values))
}

// Looks up all keys in order, and prints those that exist.
#[inline(never)]
fn look_for_all<N: TableName, G: Gate, R: Wait>(
    context: &Context<N, G, R>,
    pass: Pass,
    keys: &[Bytes],
    t: u64,
    out: &mut ByteOut,
) -> (Pass, Result<(), AllocError>)
    requires table { pass.table ≡ N.table }
    requires whole { KnowsOwnEvents pass }
    requires left { length keys.now < pass.known.left }
    ensures reaches { Reaches N.conf (length N.budgets) pass result.0
        (asks_at t (map Exists keys.now)) }
    ensures line { OnOk result.1 (Tells N.conf (length N.budgets) pass result.0
        (asks_at t (map Exists keys.now))
        (λ replies. out.old ++ there_text keys.now replies) out.new) }
{
    let mut held = pass;
    let mut there = Notes::new(context.alloc);
    for key in keys {
        let (next, found) = exists(context, held, key, t);
        held = next;
        if let Err(e) = note_there(&mut there, key, found) {
            return (held, Err(e));
        }
    }
    (held, write_flags(out, there.as_slice()))
}

// Deletes all keys in order, and prints those that were not deleted.
#[inline(never)]
fn delete_all<N: TableName, G: Gate, R: Wait>(
    context: &Context<N, G, R>,
    pass: Pass,
    keys: &[Bytes],
    t: u64,
    out: &mut ByteOut,
) -> (Pass, Result<(), AllocError>)
    requires table { pass.table ≡ N.table }
    requires whole { KnowsOwnEvents pass }
    requires left { length keys.now < pass.known.left }
    ensures reaches { Reaches N.conf (length N.budgets) pass result.0
        (asks_at t (map Delete keys.now)) }
    ensures line { OnOk result.1 (Tells N.conf (length N.budgets) pass result.0
        (asks_at t (map Delete keys.now))
        (λ replies. out.old ++ undeleted_text keys.now replies) out.new) }
{
    let mut held = pass;
    let mut kept = Vec::new(context.alloc);
    for key in keys {
        let (next, deleted) = delete(context, held, key, t);
        held = next;
        if let Err(e) = note_undone(&mut kept, key, deleted) {
            return (held, Err(e));
        }
    }
    (held, write_numbered(out, &kept))
}
