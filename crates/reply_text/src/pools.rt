//! What calls on pools print for their replies.

ghost use Rattle.std.specs.Prelude.{◌≡◌, ◌<◌, ◌^◌, ◌++◌, [], length, IfOk, OnOk};
ghost use Rattle.std.specs.List.{list_all};
ghost use Rattle.reply_text.specs.Notes.{lent_notes};
ghost use Rattle.reply_text.specs.PoolReplies.{value_or_default, got_in, got_text, got_all_text};
ghost use Rattle.reply_text.specs.PoolReplies.{pool_text};
ghost use Rattle.reply_text.specs.Replies.{all_noted, is_done};

use crate::notes::Notes;
use crate::replies::{write_flag, write_gave, write_values};
use crate::several::{is_done, value_of};
use crate::single::{first, write_done};
use apcu_model::Reply;
use notation::ByteOut;
use php_graph::{Bytes, Graph};
use simple_pool::PoolAsk;
use std::alloc::{AllocError, Global};

// What a call on a pool prints.
pub(crate) fn write_pool(
    out: &mut ByteOut,
    alloc: Global,
    ask: &PoolAsk,
    replies: &[Reply],
) -> Result<(), AllocError>
    ensures { OnOk result (out.new ≡ out.old ++ pool_text ask.now replies.now) }
{
    match ask {
        PoolAsk::Get(_, default) => write_got(out, default, replies),
        PoolAsk::Set(_, _, ttl) => {
            if 0 < *ttl {
                write_done(out, replies)
            } else {
                write_flag(out, true)
            }
        }
        PoolAsk::SetPlain(..) | PoolAsk::Has(_) => write_done(out, replies),
        PoolAsk::Delete(_) | PoolAsk::Clear | PoolAsk::DeleteMany(_) => write_flag(out, true),
        PoolAsk::GetMany(keys, default) => {
            let count = keys.len();
            prove!(count <= u32::MAX);
            write_got_all(out, alloc, keys.as_slice(), default, replies)
        }
        PoolAsk::SetMany(_, ttl) => write_flag(out, *ttl <= 0 || are_done(replies)),
        PoolAsk::SetManyPlain(_) => write_flag(out, are_done(replies)),
    }
}

// Whether all of it was done.
fn are_done(replies: &[Reply]) -> bool
    ensures { result ≡ list_all is_done replies.now }
{
    replies.iter().all(is_done)
}

// The value that was found, or the default.
fn value_or_default<'a>(reply: &'a Reply, default: &'a Graph) -> &'a Graph
    ensures { result.now ≡ value_or_default default.now reply.now }
{
    match value_of(reply) {
        Some(value) => value,
        None => default,
    }
}

fn write_got(out: &mut ByteOut, default: &Graph, replies: &[Reply]) -> Result<(), AllocError>
    ensures { OnOk result (out.new ≡ out.old ++ got_text default.now replies.now) }
{
    match first(replies) {
        Some(reply) => write_gave(out, value_or_default(reply, default)),
        None => Ok(()),
    }
}

// For each key the value that was found, or the default.
fn values_got<'a, 'b>(
    alloc: Global,
    keys: &'a [Bytes],
    default: &'b Graph,
    replies: &'b [Reply],
) -> Result<Notes<'a, &'b Graph>, AllocError>
    ensures { IfOk result (λ notes. lent_notes notes
        ≡ all_noted (got_in default.now) [] keys.now replies.now) }
{
    let mut notes = Notes::new(alloc);
    for i in 0..keys.len().min(replies.len()) {
        notes.note(&keys[i], value_or_default(&replies[i], default))?;
    }
    Ok(notes)
}

fn write_got_all(
    out: &mut ByteOut,
    alloc: Global,
    keys: &[Bytes],
    default: &Graph,
    replies: &[Reply],
) -> Result<(), AllocError>
    requires few { length keys.now < 2 ^ 32 }
    ensures { OnOk result (out.new ≡ out.old ++ got_all_text default.now keys.now replies.now) }
{
    let notes = values_got(alloc, keys, default, replies)?;
    write_values(out, notes.as_slice())
}
