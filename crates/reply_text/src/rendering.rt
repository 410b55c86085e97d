//! What a call of a script prints for its own replies.

ghost use Rattle.std.specs.Prelude.{◌≡◌, ◌++◌, OnOk, OnErr};
ghost use Rattle.reply_text.specs.Lines.{call_text};

use crate::pools::write_pool;
use crate::replies::write_flag;
use crate::reply_list::Replies;
use crate::several::{write_found, write_there, write_undeleted, write_unstored};
use crate::single::{
    write_counted, write_done, write_fetch, write_first_info, write_given, write_sums,
};
use crate::walks::write_walk;
use apcu_model::Reply;
use notation::ByteOut;
use script_read::Call;
use std::alloc::{AllocError, Global};

/// Appends what a call prints for its own replies, without the line feed after it. Without memory
/// all that was appended is removed again; if 2^55 values precede an item of an iterator, it fails
/// as without memory. A reply that no event of such a call gives counts as one that says that
/// nothing was done or found; for an entry and for totals it prints nothing, as if there were no
/// reply.
pub fn render(call: &Call, replies: &Replies, out: &mut ByteOut) -> Result<(), AllocError>
    ensures text { OnOk result (out.new ≡ out.old ++ call_text call.now replies.now) }
    ensures same { OnErr result (out.new ≡ out.old) }
{
    let mut text = ByteOut::new(replies.alloc());
    write_call(&mut text, replies.alloc(), call, replies.as_slice())?;
    out.push(text.as_slice())
}

// Writes what the call prints.
fn write_call(
    out: &mut ByteOut,
    alloc: Global,
    call: &Call,
    replies: &[Reply],
) -> Result<(), AllocError>
    ensures { OnOk result (out.new ≡ out.old ++ call_text call.now replies.now) }
{
    match call {
        Call::StoreOne { .. } | Call::ExistsOne(_) | Call::DeleteOne(_) | Call::Cas { .. } => {
            write_done(out, replies)
        }
        Call::StoreMany { pairs, .. } => write_unstored(out, alloc, pairs.as_slice(), replies),
        Call::FetchOne(_) => write_fetch(out, replies),
        Call::FetchMany(keys) => {
            let count = keys.len();
            prove!(count <= u32::MAX);
            write_found(out, alloc, keys.as_slice(), replies)
        }
        Call::ExistsMany(keys) => write_there(out, alloc, keys.as_slice(), replies),
        Call::DeleteMany(keys) => write_undeleted(out, alloc, keys.as_slice(), replies),
        Call::Inc { .. } => write_counted(out, replies),
        Call::Entry(_) => write_given(out, replies),
        Call::Clear | Call::Enabled | Call::WalkDelete { .. } => write_flag(out, true),
        Call::KeyInfo(_) | Call::CacheInfo(_) | Call::SmaInfo(_) => write_first_info(out, replies),
        Call::Walk { fields, .. } => write_walk(out, *fields, replies),
        Call::Totals { .. } => write_sums(out, replies),
        Call::Pool(boxed) => write_pool(out, alloc, &boxed.call().ask, replies),
    }
}
