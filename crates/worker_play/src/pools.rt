//! The calls on pools: for each the events that it makes, and what it prints for their replies.

ghost use Rattle.std.specs.Prelude.{◌≡◌, ◌≤◌, ◌<◌, ◌^◌, ◌++◌, ◌&&◌, true, [], ◌∷◌, Some, None};
ghost use Rattle.std.specs.Prelude.{length, map, IfOk, OnOk};
ghost use Rattle.std.specs.List.{list_all};
ghost use Rattle.apcu_model.specs.declared.request.Request.TheVariants as request;
ghost use Rattle.apcu_model.specs.declared.request.Reply.{Reply};
ghost use Rattle.simple_pool.specs.Names.{is_good_key, is_good_name, pool_key};
ghost use Rattle.simple_pool.specs.Requests.{IsGoodCall, are_good_keys, are_good_pairs};
ghost use Rattle.simple_pool.specs.Requests.{ask_pattern, is_good_ttl, pool_bound};
ghost use Rattle.script_read.specs.declared.call.Call.TheVariants.{Pool};
ghost use Rattle.script_read.specs.Play.{next_of, wish_at};
ghost use Rattle.reply_text.specs.PoolReplies.{got_all_text, pool_text};
ghost use Rattle.reply_text.specs.Replies.{flag_text};
ghost use Rattle.shared_cache.specs.Asking.{MayAsk};
ghost use Rattle.worker_play.specs.Goes.{KnowsOwnEvents, GoesOn, Reaches, Tells};
ghost use Rattle.worker_play.specs.Pools.{key_in_cache, life_of, put_as, put_of, put_done};
ghost use Rattle.worker_play.specs.Turns.{turns_at, asks_at};

use crate::answers::note_answer;
use crate::context::{Context, When};
use crate::events::{delete, exists, fetch, store};
use crate::walks::delete_found;
use io_edges::Gate;
use notation::ByteOut;
use php_graph::{Bytes, Graph};
use pin_table::{Pass, TableName};
use reply_text::{Notes, write_flag, write_gave, write_values};
use row_search::Search;
use simple_pool::{POOL_STEP, PoolAsk, PoolCall, pool_key};
use std::alloc::{AllocError, Global};
use std::sync::Wait;

// Plays a call on a pool, and prints its result. `search` is the one for its pattern.
#[inline(never)]
pub(crate) fn play_pool<N: TableName, G: Gate, R: Wait>(
    context: &Context<N, G, R>,
    when: When,
    pass: Pass,
    call: &PoolCall,
    search: &mut Search,
    out: &mut ByteOut,
) -> (Pass, Result<(), AllocError>)
    requires table { pass.table ≡ N.table }
    requires whole { KnowsOwnEvents pass }
    requires slots { context.now.slots ≡ N.conf.slots }
    requires left { pool_bound N.conf.slots call.now.ask < pass.known.left }
    requires good { IsGoodCall call.now }
    requires search { search.old ≡ ask_pattern call.now.pool call.now.ask }
    ensures reaches { Reaches N.conf (length N.budgets) pass result.0
        (turns_at when.t (next_of N.conf (Pool call.now))) }
    ensures line { OnOk result.1 (Tells N.conf (length N.budgets) pass result.0
        (turns_at when.t (next_of N.conf (Pool call.now)))
        (λ replies. out.old ++ pool_text call.now.ask replies) out.new) }
{
    match key_in_cache(context.alloc, call) {
        Ok(Some(own)) => play_on_key(context, when, pass, call, &own, out),
        Ok(None) => play_on_keys(context, when, pass, call, search, out),
        Err(e) => (pass, Err(e)),
    }
}

// The key of the cache under which the pool keeps the key of a call on one key.
fn key_in_cache(alloc: Global, call: &PoolCall) -> Result<Option<Bytes>, AllocError>
    requires { IsGoodCall call.now }
    ensures { IfOk result (λ own. own ≡ key_in_cache call.now.pool call.now.ask) }
{
    match &call.ask {
        PoolAsk::Get(key, _)
        | PoolAsk::Set(key, _, _)
        | PoolAsk::SetPlain(key, _)
        | PoolAsk::Delete(key)
        | PoolAsk::Has(key) => {
            let own = pool_key(alloc, call.pool.as_slice(), key.as_slice())?;
            Ok(Some(own))
        }
        _ => Ok(None),
    }
}

// Plays a call on one key, which the pool keeps under this key of the cache.
fn play_on_key<N: TableName, G: Gate, R: Wait>(
    context: &Context<N, G, R>,
    when: When,
    pass: Pass,
    call: &PoolCall,
    own: &Bytes,
    out: &mut ByteOut,
) -> (Pass, Result<(), AllocError>)
    requires pass { MayAsk N.table 2 pass }
    requires whole { KnowsOwnEvents pass }
    requires good { IsGoodCall call.now }
    requires own { key_in_cache call.now.pool call.now.ask ≡ Some own.now }
    ensures reaches { Reaches N.conf (length N.budgets) pass result.0
        (turns_at when.t (next_of N.conf (Pool call.now))) }
    ensures line { OnOk result.1 (Tells N.conf (length N.budgets) pass result.0
        (turns_at when.t (next_of N.conf (Pool call.now)))
        (λ replies. out.old ++ pool_text call.now.ask replies) out.new) }
{
    match &call.ask {
        PoolAsk::Get(_, default) => {
            let (pass, found) = fetch(context, when, pass, own);
            match found {
                Ok(found) => (pass, write_gave(out, found.as_ref().unwrap_or(default))),
                Err(e) => (pass, Err(e)),
            }
        }
        PoolAsk::Set(_, value, ttl) => {
            let (pass, done) = put(context, pass, own, value, life_of(*ttl), when.t);
            (pass, write_flag(out, done))
        }
        PoolAsk::SetPlain(_, value) => {
            let (pass, stored) = store(context, pass, own, value, 0, false, when.t);
            (pass, write_flag(out, stored))
        }
        PoolAsk::Delete(_) => {
            let (pass, _there) = delete(context, pass, own, when.t);
            (pass, write_flag(out, true))
        }
        PoolAsk::Has(_) => {
            let (pass, there) = exists(context, pass, own, when.t);
            (pass, write_flag(out, there))
        }
        _ => unreachable!(),
    }
}

// Plays a call on several keys, or on all of the pool. `search` is the one for its pattern.
fn play_on_keys<N: TableName, G: Gate, R: Wait>(
    context: &Context<N, G, R>,
    when: When,
    pass: Pass,
    call: &PoolCall,
    search: &mut Search,
    out: &mut ByteOut,
) -> (Pass, Result<(), AllocError>)
    requires table { pass.table ≡ N.table }
    requires whole { KnowsOwnEvents pass }
    requires slots { context.now.slots ≡ N.conf.slots }
    requires left { pool_bound N.conf.slots call.now.ask < pass.known.left }
    requires good { IsGoodCall call.now }
    requires search { search.old ≡ ask_pattern call.now.pool call.now.ask }
    requires several { key_in_cache call.now.pool call.now.ask ≡ None }
    ensures reaches { Reaches N.conf (length N.budgets) pass result.0
        (turns_at when.t (next_of N.conf (Pool call.now))) }
    ensures line { OnOk result.1 (Tells N.conf (length N.budgets) pass result.0
        (turns_at when.t (next_of N.conf (Pool call.now)))
        (λ replies. out.old ++ pool_text call.now.ask replies) out.new) }
{
    let pool = &call.pool;
    match &call.ask {
        PoolAsk::Clear => delete_found(context, when, pass, search, POOL_STEP, out),
        PoolAsk::GetMany(keys, default) => {
            let count = keys.len();
            prove!(count <= u32::MAX);
            get_all(context, when, pass, pool, keys.as_slice(), default, out)
        }
        PoolAsk::SetMany(pairs, ttl) => {
            let life = life_of(*ttl);
            put_all(context, pass, pool, pairs.as_slice(), life, when.t, out)
        }
        PoolAsk::SetManyPlain(pairs) => {
            put_all(context, pass, pool, pairs.as_slice(), Some(0), when.t, out)
        }
        PoolAsk::DeleteMany(keys) => { drop_all(context, pass, pool, keys.as_slice(), when.t, out) }
        _ => unreachable!(),
    }
}

// The seconds for which a value is kept, 0 for no limit; none if it is not kept.
fn life_of(ttl: i64) -> Option<u32>
    requires { is_good_ttl ttl ≡ true }
    ensures { result ≡ life_of ttl }
{
    if 0 < ttl { Some(ttl as u32) } else { None }
}

// Stores a value under a key of the cache, or deletes the key if it is not kept. Returns whether
// that was done.
fn put<N: TableName, G: Gate, R: Wait>(
    context: &Context<N, G, R>,
    pass: Pass,
    own: &Bytes,
    value: &Graph,
    life: Option<u32>,
    t: u64,
) -> (Pass, bool)
    requires pass { MayAsk N.table 2 pass }
    requires whole { KnowsOwnEvents pass }
    ensures { (y : Reply) × GoesOn N.conf (length N.budgets) pass result.0
        (wish_at t (put_as own.now value.now life) ∷ []) (y ∷ [])
        × (result.1 ≡ put_done life y) }
{
    match life {
        Some(ttl) => store(context, pass, own, value, ttl, false, t),
        None => {
            let (pass, _there) = delete(context, pass, own, t);
            (pass, true)
        }
    }
}

// Fetches all keys of a pool in order, each value before the next key, and prints for each what was
// found or the default.
#[inline(never)]
fn get_all<N: TableName, G: Gate, R: Wait>(
    context: &Context<N, G, R>,
    when: When,
    pass: Pass,
    pool: &Bytes,
    keys: &[Bytes],
    default: &Graph,
    out: &mut ByteOut,
) -> (Pass, Result<(), AllocError>)
    requires table { pass.table ≡ N.table }
    requires whole { KnowsOwnEvents pass }
    requires left { length keys.now < pass.known.left }
    requires few { length keys.now < 2 ^ 32 }
    requires named { is_good_name pool.now ≡ true }
    requires good { are_good_keys keys.now ≡ true }
    ensures reaches { Reaches N.conf (length N.budgets) pass result.0
        (asks_at when.t (map (λ key. request.Fetch (pool_key pool.now key)) keys.now)) }
    ensures line { OnOk result.1 (Tells N.conf (length N.budgets) pass result.0
        (asks_at when.t (map (λ key. request.Fetch (pool_key pool.now key)) keys.now))
        (λ replies. out.old ++ got_all_text default.now keys.now replies) out.new) }
{
    let mut held = pass;
    let mut answers = Notes::new(context.alloc);
    for key in keys {
        let own = match pool_key(context.alloc, pool.as_slice(), key.as_slice()) {
            Ok(own) => own,
            Err(e) => return (held, Err(e)),
        };
        let (next, found) = fetch(context, when, held, &own);
        held = next;
        if let Err(e) = note_answer(&mut answers, key, found, default) {
            return (held, Err(e));
        }
    }
    (held, write_values(out, answers.as_slice()))
}

// Sets all pairs of a pool in order, and prints whether all was done.
#[inline(never)]
fn put_all<N: TableName, G: Gate, R: Wait>(
    context: &Context<N, G, R>,
    pass: Pass,
    pool: &Bytes,
    pairs: &[(Bytes, Graph)],
    life: Option<u32>,
    t: u64,
    out: &mut ByteOut,
) -> (Pass, Result<(), AllocError>)
    requires table { pass.table ≡ N.table }
    requires whole { KnowsOwnEvents pass }
    requires left { length pairs.now < pass.known.left }
    requires named { is_good_name pool.now ≡ true }
    requires good { are_good_pairs pairs.now ≡ true }
    ensures reaches { Reaches N.conf (length N.budgets) pass result.0
        (asks_at t (map (put_of pool.now life) pairs.now)) }
    ensures line { OnOk result.1 (Tells N.conf (length N.budgets) pass result.0
        (asks_at t (map (put_of pool.now life) pairs.now))
        (λ replies. out.old ++ flag_text (list_all (put_done life) replies)) out.new) }
{
    let mut held = pass;
    let mut all = true;
    for pair in pairs {
        let own = match pool_key(context.alloc, pool.as_slice(), pair.0.as_slice()) {
            Ok(own) => own,
            Err(e) => return (held, Err(e)),
        };
        let (next, done) = put(context, held, &own, &pair.1, life, t);
        held = next;
        all = both(all, done);
    }
    (held, write_flag(out, all))
}

fn both(a: bool, b: bool) -> bool
    ensures { result ≡ (a && b) }
{
    a && b
}

// Deletes all these keys of a pool in order, and prints that it was done.
#[inline(never)]
fn drop_all<N: TableName, G: Gate, R: Wait>(
    context: &Context<N, G, R>,
    pass: Pass,
    pool: &Bytes,
    keys: &[Bytes],
    t: u64,
    out: &mut ByteOut,
) -> (Pass, Result<(), AllocError>)
    requires table { pass.table ≡ N.table }
    requires whole { KnowsOwnEvents pass }
    requires left { length keys.now < pass.known.left }
    requires named { is_good_name pool.now ≡ true }
    requires good { are_good_keys keys.now ≡ true }
    ensures reaches { Reaches N.conf (length N.budgets) pass result.0
        (asks_at t (map (λ key. request.Delete (pool_key pool.now key)) keys.now)) }
    ensures line { OnOk result.1 (Tells N.conf (length N.budgets) pass result.0
        (asks_at t (map (λ key. request.Delete (pool_key pool.now key)) keys.now))
        (λ replies. out.old ++ flag_text true) out.new) }
{
    let mut held = pass;
    for key in keys {
        let own = match pool_key(context.alloc, pool.as_slice(), key.as_slice()) {
            Ok(own) => own,
            Err(e) => return (held, Err(e)),
        };
        let (next, _there) = delete(context, held, &own, t);
        held = next;
    }
    (held, write_flag(out, true))
}
