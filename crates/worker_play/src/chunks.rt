//! The events of iterators, over rows that a search finds.

ghost use Rattle.std.specs.Prelude.{◌≡◌, ◌≤◌, ◌<◌, [], ◌∷◌, length, IfOk, OnErr};
ghost use Rattle.apcu_model.specs.declared.request.Request.TheVariants as request;
ghost use Rattle.apcu_model.specs.declared.request.Reply.TheVariants as reply;
ghost use Rattle.shared_cache.specs.Asking.{MayAsk};
ghost use Rattle.worker_play.specs.Goes.{wish, KnowsOwnEvents, GoesOn};

use crate::context::{Context, When};
use apcu_model::{Chunk, Fields, List};
use io_edges::{Gate, Point};
use pin_table::{Pass, TableName};
use play_laws::one_event_own;
use row_search::Search;
use std::alloc::AllocError;
use std::sync::Wait;

// One step of an iterator over a list of rows, and then the gate. Without memory there was no
// event.
pub(crate) fn chunk<N: TableName, G: Gate, R: Wait>(
    context: &Context<N, G, R>,
    when: When,
    pass: Pass,
    search: &mut Search,
    from: u32,
    size: u32,
    list: List,
    fields: Fields,
) -> (Pass, Result<Chunk, AllocError>)
    requires pass { MayAsk N.table 2 pass }
    requires whole { KnowsOwnEvents pass }
    requires from { from ≤ N.conf.slots }
    requires size { 0 < size }
    ensures event { IfOk result.1 (λ chunk. GoesOn N.conf (length N.budgets) pass result.0
        (wish when.t (request.Chunk search.old from size list fields) ∷ [])
        (reply.Chunk chunk ∷ [])) }
    ensures same { OnErr result.1 (result.0 ≡ pass) }
    ensures search { search.new ≡ search.old }
{
    one_event_own();
    let (pass, made) = context.shared.chunk(
        context.rt,
        context.alloc,
        pass,
        search,
        from,
        size,
        list,
        fields,
        when.t,
    );
    if made.is_ok() {
        context
            .gate
            .reached(pass.worker(), Point::Chunk(when.index));
    }
    (pass, made)
}

// One step of an iterator's deletion, and then the gate. Returns the slot after the step. Without
// memory there was no event.
pub(crate) fn chunk_delete<N: TableName, G: Gate, R: Wait>(
    context: &Context<N, G, R>,
    when: When,
    pass: Pass,
    search: &mut Search,
    from: u32,
    size: u32,
) -> (Pass, Result<u32, AllocError>)
    requires pass { MayAsk N.table 2 pass }
    requires whole { KnowsOwnEvents pass }
    requires from { from ≤ N.conf.slots }
    requires size { 0 < size }
    ensures deleted { IfOk result.1 (λ next. GoesOn N.conf (length N.budgets) pass result.0
        (wish when.t (request.ChunkDelete search.old from size) ∷ []) (reply.Next next ∷ [])) }
    ensures same { OnErr result.1 (result.0 ≡ pass) }
    ensures search { search.new ≡ search.old }
{
    one_event_own();
    let (pass, deleted) = context.shared.chunk_delete(
        context.rt,
        context.alloc,
        pass,
        search,
        from,
        size,
        when.t,
    );
    if deleted.is_ok() {
        context
            .gate
            .reached(pass.worker(), Point::Chunk(when.index));
    }
    (pass, deleted)
}

// The totals of the rows of a list whose keys the search finds: their number, their hits and their
// bytes. Without memory there was no event.
pub(crate) fn totals<N: TableName, G: Gate, R: Wait>(
    context: &Context<N, G, R>,
    pass: Pass,
    search: &mut Search,
    list: List,
    t: u64,
) -> (Pass, Result<(u64, u64, u64), AllocError>)
    requires pass { MayAsk N.table 2 pass }
    requires whole { KnowsOwnEvents pass }
    ensures event { IfOk result.1 (λ r. GoesOn N.conf (length N.budgets) pass result.0
        (wish t (request.Totals search.old list) ∷ []) (reply.Totals r.0 r.1 r.2 ∷ [])) }
    ensures same { OnErr result.1 (result.0 ≡ pass) }
    ensures search { search.new ≡ search.old }
{
    one_event_own();
    context
        .shared
        .totals(context.rt, context.alloc, pass, search, list, t)
}
