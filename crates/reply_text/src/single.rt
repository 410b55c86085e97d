//! What calls with one reply print: nothing before the reply, and then what it determines.

ghost use Rattle.std.specs.Prelude.{◌≡◌, ◌++◌, [], ◌∷◌, drop, IfSome, IfNone, OnOk};
ghost use Rattle.reply_text.specs.Replies.{done_text, fetched_text, number_text, gave_text};
ghost use Rattle.reply_text.specs.Replies.{info_text};
ghost use Rattle.reply_text.specs.Items.{totals_text};

use crate::replies::{
    write_fetched, write_flag, write_gave, write_info, write_number, write_totals,
};
use crate::several::is_done;
use apcu_model::Reply;
use notation::ByteOut;
use std::alloc::AllocError;

// The first reply.
pub(crate) fn first(replies: &[Reply]) -> Option<&Reply>
    ensures some { IfSome result (λ reply. replies.now ≡ reply.now ∷ drop 1 replies.now) }
    ensures none { IfNone result (replies.now ≡ []) }
{
    if replies.is_empty() {
        return None;
    }
    Some(&replies[0])
}

// Whether it was done.
pub(crate) fn write_done(out: &mut ByteOut, replies: &[Reply]) -> Result<(), AllocError>
    ensures { OnOk result (out.new ≡ out.old ++ done_text replies.now) }
{
    match first(replies) {
        Some(reply) => write_flag(out, is_done(reply)),
        None => Ok(()),
    }
}

// The result of a fetch.
pub(crate) fn write_fetch(out: &mut ByteOut, replies: &[Reply]) -> Result<(), AllocError>
    ensures { OnOk result (out.new ≡ out.old ++ fetched_text replies.now) }
{
    match first(replies) {
        Some(Reply::Found(value)) => write_fetched(out, Some(value)),
        Some(_) => write_fetched(out, None),
        None => Ok(()),
    }
}

// The new value of a counter.
pub(crate) fn write_counted(out: &mut ByteOut, replies: &[Reply]) -> Result<(), AllocError>
    ensures { OnOk result (out.new ≡ out.old ++ number_text replies.now) }
{
    match first(replies) {
        Some(Reply::Number(n)) => write_number(out, Some(*n)),
        Some(_) => write_number(out, None),
        None => Ok(()),
    }
}

// The value of an entry.
pub(crate) fn write_given(out: &mut ByteOut, replies: &[Reply]) -> Result<(), AllocError>
    ensures { OnOk result (out.new ≡ out.old ++ gave_text replies.now) }
{
    match first(replies) {
        Some(Reply::Gave(value)) => write_gave(out, value),
        _ => Ok(()),
    }
}

// The information about a key, the cache or its segments in the first reply.
pub(crate) fn write_first_info(out: &mut ByteOut, replies: &[Reply]) -> Result<(), AllocError>
    ensures { OnOk result (out.new ≡ out.old ++ info_text replies.now) }
{
    match first(replies) {
        Some(Reply::Info(info)) => write_info(out, Some(info)),
        Some(_) => write_info(out, None),
        None => Ok(()),
    }
}

// An iterator's totals.
pub(crate) fn write_sums(out: &mut ByteOut, replies: &[Reply]) -> Result<(), AllocError>
    ensures { OnOk result (out.new ≡ out.old ++ totals_text replies.now) }
{
    match first(replies) {
        Some(Reply::Totals { count, hits, size }) => write_totals(out, *count, *hits, *size),
        _ => Ok(()),
    }
}
