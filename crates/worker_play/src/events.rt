//! The events of a worker, each on one key: the pass advances by one request and its reply.

ghost use Rattle.std.specs.Prelude.{◌≡◌, ◌≤◌, ◌<◌, ◌++◌, true, ℕ, List, [], ◌∷◌, length, IfOk};
ghost use Rattle.std.specs.Prelude.{OnOk, OnErr};
ghost use Rattle.php_graph.specs.declared.kind.Kind.{Kind};
ghost use Rattle.apcu_model.specs.declared.request.Request.TheVariants as request;
ghost use Rattle.apcu_model.specs.declared.request.Reply.{Reply};
ghost use Rattle.apcu_model.specs.declared.request.Reply.TheVariants.{Flag, Found, Gave, Info};
ghost use Rattle.apcu_model.specs.Levels.{most_levels};
ghost use Rattle.apcu_model.specs.Sequential.{info_reply, number_reply};
ghost use Rattle.notation.specs.Notation.{text_of};
ghost use Rattle.reply_text.specs.Replies.{fetched, fetched_one};
ghost use Rattle.shared_cache.specs.Asking.{MayAsk};
ghost use Rattle.worker_play.specs.Goes.{wish, KnowsOwnEvents, GoesOn};

use crate::context::{Context, When};
use crate::scalar::{graph_of_scalar, write_scalar};
use apcu_model::Gen;
use io_edges::{Gate, Point};
use notation::ByteOut;
use php_graph::{Bytes, Graph};
use pin_table::{Pass, TableName};
use play_laws::one_event_own;
use reply_text::{write_fetched, write_flag};
use shared_cache::Pinned;
use std::alloc::AllocError;
use std::sync::Wait;

// Whether a value was stored.
pub(crate) fn store<N: TableName, G: Gate, R: Wait>(
    context: &Context<N, G, R>,
    pass: Pass,
    key: &Bytes,
    value: &Graph,
    ttl: u32,
    exclusive: bool,
    t: u64,
) -> (Pass, bool)
    requires pass { MayAsk N.table 2 pass }
    requires whole { KnowsOwnEvents pass }
    ensures { GoesOn N.conf (length N.budgets) pass result.0
        (wish t (request.Store key.now value.now ttl exclusive) ∷ []) (Flag result.1 ∷ []) }
{
    one_event_own();
    context
        .shared
        .store(context.rt, pass, key.as_slice(), value, ttl, exclusive, t)
}

// Whether a key exists.
pub(crate) fn exists<N: TableName, G: Gate, R: Wait>(
    context: &Context<N, G, R>,
    pass: Pass,
    key: &Bytes,
    t: u64,
) -> (Pass, bool)
    requires pass { MayAsk N.table 2 pass }
    requires whole { KnowsOwnEvents pass }
    ensures { GoesOn N.conf (length N.budgets) pass result.0
        (wish t (request.Exists key.now) ∷ []) (Flag result.1 ∷ []) }
{
    one_event_own();
    context.shared.exists(context.rt, pass, key.as_slice(), t)
}

// Whether a key was deleted.
pub(crate) fn delete<N: TableName, G: Gate, R: Wait>(
    context: &Context<N, G, R>,
    pass: Pass,
    key: &Bytes,
    t: u64,
) -> (Pass, bool)
    requires pass { MayAsk N.table 2 pass }
    requires whole { KnowsOwnEvents pass }
    ensures { GoesOn N.conf (length N.budgets) pass result.0
        (wish t (request.Delete key.now) ∷ []) (Flag result.1 ∷ []) }
{
    one_event_own();
    context.shared.delete(context.rt, pass, key.as_slice(), t)
}

// The counter's new value, if it counts.
pub(crate) fn inc<N: TableName, G: Gate, R: Wait>(
    context: &Context<N, G, R>,
    pass: Pass,
    key: &Bytes,
    step: i64,
    ttl: u32,
    t: u64,
) -> (Pass, Option<i64>)
    requires pass { MayAsk N.table 2 pass }
    requires whole { KnowsOwnEvents pass }
    ensures { GoesOn N.conf (length N.budgets) pass result.0
        (wish t (request.Inc key.now step ttl) ∷ []) (number_reply result.1 ∷ []) }
{
    one_event_own();
    context
        .shared
        .inc(context.rt, pass, key.as_slice(), step, ttl, t)
}

// Whether the expected integer was found, and replaced.
pub(crate) fn cas<N: TableName, G: Gate, R: Wait>(
    context: &Context<N, G, R>,
    pass: Pass,
    key: &Bytes,
    expect: i64,
    set: i64,
    t: u64,
) -> (Pass, bool)
    requires pass { MayAsk N.table 2 pass }
    requires whole { KnowsOwnEvents pass }
    ensures { GoesOn N.conf (length N.budgets) pass result.0
        (wish t (request.Cas key.now expect set) ∷ []) (Flag result.1 ∷ []) }
{
    one_event_own();
    context
        .shared
        .cas(context.rt, pass, key.as_slice(), expect, set, t)
}

// The value of a generator. Without memory there was no event.
pub(crate) fn entry<N: TableName, G: Gate, R: Wait>(
    context: &Context<N, G, R>,
    pass: Pass,
    generator: &Gen,
    t: u64,
) -> (Pass, Result<Graph, AllocError>)
    requires pass { MayAsk N.table 2 pass }
    requires whole { KnowsOwnEvents pass }
    requires entry { 0 < length generator.now.levels }
    requires levels { length generator.now.levels ≤ most_levels }
    ensures given { IfOk result.1 (λ value. GoesOn N.conf (length N.budgets) pass result.0
        (wish t (request.Entry generator.now) ∷ []) (Gave value ∷ [])) }
    ensures same { OnErr result.1 (result.0 ≡ pass) }
{
    one_event_own();
    let (pass, given) = context
        .shared
        .entry(context.rt, context.alloc, pass, generator, t);
    match given {
        Ok((value, _fate)) => (pass, Ok(value)),
        Err(e) => (pass, Err(e)),
    }
}

// Information about a key's row, if a look-up finds one. Without memory there was no event.
pub(crate) fn key_info<N: TableName, G: Gate, R: Wait>(
    context: &Context<N, G, R>,
    pass: Pass,
    key: &Bytes,
    t: u64,
) -> (Pass, Result<Option<Graph>, AllocError>)
    requires pass { MayAsk N.table 2 pass }
    requires whole { KnowsOwnEvents pass }
    ensures event { IfOk result.1 (λ info. GoesOn N.conf (length N.budgets) pass result.0
        (wish t (request.KeyInfo key.now) ∷ []) (info_reply info ∷ [])) }
    ensures same { OnErr result.1 (result.0 ≡ pass) }
{
    one_event_own();
    context
        .shared
        .key_info(context.rt, context.alloc, pass, key.as_slice(), t)
}

// Information about the cache. Without memory there was no event.
pub(crate) fn cache_info<N: TableName, G: Gate, R: Wait>(
    context: &Context<N, G, R>,
    pass: Pass,
    limited: bool,
) -> (Pass, Result<Graph, AllocError>)
    requires pass { MayAsk N.table 2 pass }
    requires whole { KnowsOwnEvents pass }
    ensures event { IfOk result.1 (λ info. GoesOn N.conf (length N.budgets) pass result.0
        (wish 0 (request.CacheInfo limited) ∷ []) (Info info ∷ [])) }
    ensures same { OnErr result.1 (result.0 ≡ pass) }
{
    one_event_own();
    context
        .shared
        .cache_info(context.rt, context.alloc, pass, limited)
}

// Information about the segment's free words. Without memory there was no event.
pub(crate) fn sma_info<N: TableName, G: Gate, R: Wait>(
    context: &Context<N, G, R>,
    pass: Pass,
    limited: bool,
) -> (Pass, Result<Graph, AllocError>)
    requires pass { MayAsk N.table 2 pass }
    requires whole { KnowsOwnEvents pass }
    ensures event { IfOk result.1 (λ info. GoesOn N.conf (length N.budgets) pass result.0
        (wish 0 (request.SmaInfo limited) ∷ []) (Info info ∷ [])) }
    ensures same { OnErr result.1 (result.0 ≡ pass) }
{
    one_event_own();
    context
        .shared
        .sma_info(context.rt, context.alloc, pass, limited)
}

// Drops all rows.
pub(crate) fn clear<N: TableName, G: Gate, R: Wait>(
    context: &Context<N, G, R>,
    pass: Pass,
    t: u64,
) -> Pass
    requires pass { MayAsk N.table 2 pass }
    requires whole { KnowsOwnEvents pass }
    ensures { GoesOn N.conf (length N.budgets) pass result
        (wish t request.Clear ∷ []) (Flag true ∷ []) }
{
    one_event_own();
    context.shared.clear(context.rt, pass, t)
}

// The value of a key, which is copied without the lock. Without memory for the copy, the fetch
// still counts.
pub(crate) fn fetch<N: TableName, G: Gate, R: Wait>(
    context: &Context<N, G, R>,
    when: When,
    pass: Pass,
    key: &Bytes,
) -> (Pass, Result<Option<Graph>, AllocError>)
    requires pass { MayAsk N.table 2 pass }
    requires whole { KnowsOwnEvents pass }
    ensures { (y : Reply) × GoesOn N.conf (length N.budgets) pass result.0
        (wish when.t (request.Fetch key.now) ∷ []) (y ∷ [])
        × IfOk result.1 (λ found. fetched found ≡ y) }
{
    one_event_own();
    let worker = pass.worker();
    match context.shared.pin(context.rt, pass, key.as_slice(), when.t) {
        Pinned::Miss(pass) => (pass, Ok(None)),
        Pinned::Scalar(pass, scalar) => {
            let value = graph_of_scalar(context.alloc, scalar);
            (pass, some_of(value))
        }
        Pinned::Hit(copying) => {
            context.gate.reached(worker, Point::Pinned(when.index));
            let (pass, value) = context.shared.copy_out(context.alloc, copying);
            (pass, some_of(value))
        }
    }
}

// What was found, if a copy has its value.
fn some_of(value: Result<Graph, AllocError>) -> Result<Option<Graph>, AllocError>
    ensures { (g : List Kind) → IfOk value (λ v. v ≡ g)
        → IfOk result (λ found. fetched found ≡ Found g) }
{
    Ok(Some(value?))
}

// The value of a key, printed as it is copied without the lock, and that it was found, or that it
// was not. Without memory for the text, the fetch still counts.
pub(crate) fn fetch_text<N: TableName, G: Gate, R: Wait>(
    context: &Context<N, G, R>,
    when: When,
    pass: Pass,
    key: &Bytes,
    out: &mut ByteOut,
) -> (Pass, Result<(), AllocError>)
    requires pass { MayAsk N.table 2 pass }
    requires whole { KnowsOwnEvents pass }
    ensures { (y : Reply) × GoesOn N.conf (length N.budgets) pass result.0
        (wish when.t (request.Fetch key.now) ∷ []) (y ∷ [])
        × OnOk result.1 (out.new ≡ out.old ++ fetched_one y) }
{
    one_event_own();
    let worker = pass.worker();
    let pinned = context.shared.pin(context.rt, pass, key.as_slice(), when.t);
    match pinned {
        Pinned::Miss(pass) => (pass, write_fetched(out, None)),
        Pinned::Scalar(pass, scalar) => (pass, write_scalar(out, scalar)),
        Pinned::Hit(copying) => {
            context.gate.reached(worker, Point::Pinned(when.index));
            let (pass, copied) = context.shared.copy_text(context.alloc, copying, out);
            (pass, write_there(out, copied))
        }
    }
}

// After a value's text, that it was found.
fn write_there(out: &mut ByteOut, copied: Result<(), AllocError>) -> Result<(), AllocError>
    ensures { (g : List Kind) (before : List ℕ) → OnOk copied (out.old ≡ before ++ text_of g)
        → OnOk result (out.new ≡ before ++ fetched_one (Found g)) }
{
    copied?;
    write_flag(out, true)
}
