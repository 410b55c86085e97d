//! Iterators, step by step until no slot is left.

ghost use Rattle.std.specs.Prelude.{◌≡◌, ◌≤◌, ◌<◌, ◌++◌, true, [], ◌∷◌, length, Ok, IfOk};
ghost use Rattle.std.specs.Prelude.{OnOk};
ghost use Rattle.apcu_model.specs.declared.items.Chunk.{Chunk};
ghost use Rattle.apcu_model.specs.declared.request.Request.TheVariants as request;
ghost use Rattle.apcu_model.specs.declared.request.Reply.TheVariants as reply;
ghost use Rattle.apcu_model.specs.declared.searching.List.TheVariants.{Active, Deleted};
ghost use Rattle.script_read.specs.Play.{slot_after};
ghost use Rattle.reply_text.specs.Replies.{flag_text};
ghost use Rattle.reply_text.specs.Items.{walk_text};
ghost use Rattle.shared_cache.specs.Asking.{MayAsk};
ghost use Rattle.worker_play.specs.Goes.{KnowsOwnEvents, Reaches, Tells};
ghost use Rattle.worker_play.specs.Turns.{asks_at, steps_at};

use crate::chunks::{chunk, chunk_delete};
use crate::context::{Context, When};
use apcu_model::{Chunk, Fields, List, Reply};
use io_edges::Gate;
use notation::ByteOut;
use pin_table::{Pass, TableName};
use reply_text::{write_flag, write_walk};
use row_search::Search;
use std::alloc::AllocError;
use std::sync::Wait;

// The slot from which an iterator continues after a step that ended at `end`.
fn next_slot(slots: u32, from: u32, end: u32) -> u32
    requires { from < slots }
    ensures is { result ≡ slot_after slots from (reply.Next end) }
    ensures up { from < result }
{
    if from < end { end } else { slots }
}

// Keeps a step's items, and returns the slot at which it ended.
fn keep(steps: &mut Vec<Reply>, made: Result<Chunk, AllocError>) -> Result<u32, AllocError>
    ensures { IfOk result (λ end. (chunk : Chunk) × (made ≡ Ok chunk) × (end ≡ chunk.next)
        × (steps.new.items ≡ steps.old.items ++ reply.Chunk chunk ∷ [])) }
{
    let chunk = made?;
    let end = chunk.next;
    steps.push(Reply::Chunk(chunk))?;
    Ok(end)
}

// Walks over the active rows that the search finds, and prints the items of all steps.
pub(crate) fn walk_active<N: TableName, G: Gate, R: Wait>(
    context: &Context<N, G, R>,
    when: When,
    pass: Pass,
    search: &mut Search,
    size: u32,
    fields: Fields,
    out: &mut ByteOut,
) -> (Pass, Result<(), AllocError>)
    requires table { pass.table ≡ N.table }
    requires whole { KnowsOwnEvents pass }
    requires slots { context.now.slots ≡ N.conf.slots }
    requires left { context.now.slots < pass.known.left }
    requires size { 0 < size }
    ensures reaches { Reaches N.conf (length N.budgets) pass result.0
        (steps_at when.t context.now.slots
        (λ from. request.Chunk search.old from size Active fields) 0) }
    ensures line { OnOk result.1 (Tells N.conf (length N.budgets) pass result.0
        (steps_at when.t context.now.slots
        (λ from. request.Chunk search.old from size Active fields) 0)
        (λ replies. out.old ++ walk_text fields replies) out.new) }
{
    let mut held = pass;
    let mut steps = Vec::new(context.alloc);
    let mut from = 0;
    'walking: while from < context.slots {
        let (next, made) = chunk(
            context,
            when,
            held,
            search,
            from,
            size,
            List::Active,
            fields,
        );
        held = next;
        match keep(&mut steps, made) {
            Ok(end) => from = next_slot(context.slots, from, end),
            Err(e) => return (held, Err(e)),
        }
    }
    (held, write_walk(out, fields, &steps))
}

// Walks over the removed rows that the search finds, all in one step, and prints their items.
pub(crate) fn walk_deleted<N: TableName, G: Gate, R: Wait>(
    context: &Context<N, G, R>,
    when: When,
    pass: Pass,
    search: &mut Search,
    size: u32,
    fields: Fields,
    out: &mut ByteOut,
) -> (Pass, Result<(), AllocError>)
    requires pass { MayAsk N.table 2 pass }
    requires whole { KnowsOwnEvents pass }
    requires size { 0 < size }
    ensures reaches { Reaches N.conf (length N.budgets) pass result.0
        (asks_at when.t (request.Chunk search.old 0 size Deleted fields ∷ [])) }
    ensures line { OnOk result.1 (Tells N.conf (length N.budgets) pass result.0
        (asks_at when.t (request.Chunk search.old 0 size Deleted fields ∷ []))
        (λ replies. out.old ++ walk_text fields replies) out.new) }
{
    let (pass, made) = chunk(context, when, pass, search, 0, size, List::Deleted, fields);
    match made {
        Ok(chunk) => (pass, write_walk(out, fields, &[Reply::Chunk(chunk)])),
        Err(e) => (pass, Err(e)),
    }
}

// Deletes the active rows that the search finds, and prints that it was done.
pub(crate) fn delete_found<N: TableName, G: Gate, R: Wait>(
    context: &Context<N, G, R>,
    when: When,
    pass: Pass,
    search: &mut Search,
    size: u32,
    out: &mut ByteOut,
) -> (Pass, Result<(), AllocError>)
    requires table { pass.table ≡ N.table }
    requires whole { KnowsOwnEvents pass }
    requires slots { context.now.slots ≡ N.conf.slots }
    requires left { context.now.slots < pass.known.left }
    requires size { 0 < size }
    ensures reaches { Reaches N.conf (length N.budgets) pass result.0
        (steps_at when.t context.now.slots
        (λ from. request.ChunkDelete search.old from size) 0) }
    ensures line { OnOk result.1 (Tells N.conf (length N.budgets) pass result.0
        (steps_at when.t context.now.slots
        (λ from. request.ChunkDelete search.old from size) 0)
        (λ replies. out.old ++ flag_text true) out.new) }
{
    let mut held = pass;
    let mut from = 0;
    'deleting: while from < context.slots {
        let (next, deleted) = chunk_delete(context, when, held, search, from, size);
        held = next;
        match deleted {
            Ok(end) => from = next_slot(context.slots, from, end),
            Err(e) => return (held, Err(e)),
        }
    }
    (held, write_flag(out, true))
}
