//! What calls on several keys print for the replies to each.

ghost use Rattle.std.specs.Prelude.{◌≡◌, ◌<◌, ◌^◌, ◌++◌, [], length, map, IfOk, OnOk};
ghost use Rattle.reply_text.specs.Replies.{undone, all_noted, there_in, value_in, is_done};
ghost use Rattle.std.specs.Option.{option_map};
ghost use Rattle.reply_text.specs.Notes.{lent_notes};
ghost use Rattle.reply_text.specs.Replies.{unstored_text, undeleted_text, there_text, found_text};

use crate::notes::Notes;
use crate::replies::{write_each, write_flag, write_flags, write_numbered, write_values};
use apcu_model::Reply;
use notation::ByteOut;
use php_graph::{Bytes, Graph};
use std::alloc::{AllocError, Global};

// Whether a reply says that it was done.
pub(crate) fn is_done(reply: &Reply) -> bool
    ensures { result ≡ is_done reply.now }
{
    match reply {
        Reply::Flag(done) => *done,
        _ => false,
    }
}

// The value that a reply says was found.
pub(crate) fn value_of(reply: &Reply) -> Option<&Graph>
    ensures { option_map (λ g. g.now) result ≡ value_in reply.now }
{
    match reply {
        Reply::Found(value) => Some(value),
        _ => None,
    }
}

// The keys of these pairs whose reply says that it was not done.
fn undone_pairs<'a>(
    alloc: Global,
    pairs: &'a [(Bytes, Graph)],
    replies: &[Reply],
) -> Result<Vec<&'a Bytes>, AllocError>
    ensures { IfOk result (λ some. map (λ key. key.now) some.items
        ≡ undone (map (λ pair. pair.0) pairs.now) replies.now) }
{
    let mut some = Vec::new(alloc);
    for i in 0..pairs.len().min(replies.len()) {
        if !is_done(&replies[i]) {
            some.push(&pairs[i].0)?;
        }
    }
    Ok(some)
}

// Those of these keys whose reply says that it was not done.
fn undone_keys<'a>(
    alloc: Global,
    keys: &'a [Bytes],
    replies: &[Reply],
) -> Result<Vec<&'a Bytes>, AllocError>
    ensures { IfOk result (λ some. map (λ key. key.now) some.items
        ≡ undone keys.now replies.now) }
{
    let mut some = Vec::new(alloc);
    for i in 0..keys.len().min(replies.len()) {
        if !is_done(&replies[i]) {
            some.push(&keys[i])?;
        }
    }
    Ok(some)
}

// Those of these keys that exist.
fn keys_there<'a>(
    alloc: Global,
    keys: &'a [Bytes],
    replies: &[Reply],
) -> Result<Notes<'a, ()>, AllocError>
    ensures { IfOk result (λ notes. notes ≡ all_noted there_in [] keys.now replies.now) }
{
    let mut notes = Notes::new(alloc);
    for i in 0..keys.len().min(replies.len()) {
        if is_done(&replies[i]) {
            notes.note(&keys[i], ())?;
        }
    }
    Ok(notes)
}

// The values that were found for these keys.
fn values_found<'a, 'b>(
    alloc: Global,
    keys: &'a [Bytes],
    replies: &'b [Reply],
) -> Result<Notes<'a, &'b Graph>, AllocError>
    ensures { IfOk result (λ notes. lent_notes notes
        ≡ all_noted value_in [] keys.now replies.now) }
{
    let mut notes = Notes::new(alloc);
    for i in 0..keys.len().min(replies.len()) {
        if let Some(value) = value_of(&replies[i]) {
            notes.note(&keys[i], value)?;
        }
    }
    Ok(notes)
}

// What a store of several keys prints.
pub(crate) fn write_unstored(
    out: &mut ByteOut,
    alloc: Global,
    pairs: &[(Bytes, Graph)],
    replies: &[Reply],
) -> Result<(), AllocError>
    ensures { OnOk result (out.new
        ≡ out.old ++ unstored_text (map (λ pair. pair.0) pairs.now) replies.now) }
{
    write_each(out, &undone_pairs(alloc, pairs, replies)?, b"i:-1;")
}

// What a deletion of several keys prints.
pub(crate) fn write_undeleted(
    out: &mut ByteOut,
    alloc: Global,
    keys: &[Bytes],
    replies: &[Reply],
) -> Result<(), AllocError>
    ensures { OnOk result (out.new ≡ out.old ++ undeleted_text keys.now replies.now) }
{
    write_numbered(out, &undone_keys(alloc, keys, replies)?)
}

// What a test for several keys prints.
pub(crate) fn write_there(
    out: &mut ByteOut,
    alloc: Global,
    keys: &[Bytes],
    replies: &[Reply],
) -> Result<(), AllocError>
    ensures { OnOk result (out.new ≡ out.old ++ there_text keys.now replies.now) }
{
    let notes = keys_there(alloc, keys, replies)?;
    write_flags(out, notes.as_slice())
}

// What a fetch of several keys prints.
pub(crate) fn write_found(
    out: &mut ByteOut,
    alloc: Global,
    keys: &[Bytes],
    replies: &[Reply],
) -> Result<(), AllocError>
    requires few { length keys.now < 2 ^ 32 }
    ensures { OnOk result (out.new ≡ out.old ++ found_text keys.now replies.now) }
{
    let notes = values_found(alloc, keys, replies)?;
    write_values(out, notes.as_slice())?;
    write_flag(out, true)
}
