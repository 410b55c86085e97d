//! The rows of the plain cache: finding, dropping and putting one.

ghost use Rattle.std.specs.Prelude.{◌≡◌, ◌+◌, ◌<◌, ◌≤◌, ◌&&◌, not, true, false, if◌then◌else◌};
ghost use Rattle.std.specs.Prelude.{length};
ghost use Rattle.std.specs.Prelude.{map, filter, find, vec_len, vec_capacity, None, Some};
ghost use Rattle.std.specs.Prelude.{MatchOption, slice_index_or};
ghost use Rattle.std.specs.List.{list_any};
ghost use Rattle.apcu_model.specs.Cache.{Row, extent_of, has_key};
ghost use Rattle.apcu_model.specs.Change.{with_row};
ghost use Rattle.apcu_model.specs.Counters.{with_integer_at};
ghost use Rattle.apcu_model.specs.Expiry.{is_expired, is_hard_expired};
ghost use Rattle.apcu_model.specs.Rows.{are_apart, touched_at};
ghost use Rattle.apcu_model.specs.SlotOrder.{is_in_slot};

use crate::entry::Entry;
use apcu_model::Conf;
use seg_words::Extent;
use std::alloc::Global;

// The row that a look-up of the key finds.
pub(crate) fn live_in<'a>(rows: &'a [Entry], key: &[u8], t: u64) -> Option<&'a Entry>
    ensures { MatchOption result
        (find (λ row. has_key key.now row && not (is_hard_expired t row)) rows.now ≡ None)
        (λ row. find (λ r. has_key key.now r && not (is_hard_expired t r)) rows.now
        ≡ Some row.now) }
{
    for row in rows {
        if row.has_key(key) && !row.is_hard_expired(t) {
            return Some(row);
        }
    }
    None
}

// The index of the key's row.
fn place_of(rows: &[Entry], key: &[u8]) -> Option<usize>
    ensures { MatchOption result (list_any (has_key key.now) rows.now ≡ false)
        (λ i. (i < length rows.now)
        × ((d : Row) → has_key key.now (slice_index_or rows.now i d) ≡ true)) }
{
    for (i, row) in rows.iter().enumerate() {
        if row.has_key(key) {
            return Some(i);
        }
    }
    None
}

// Counts that the key's row was fetched.
pub(crate) fn touch_in(rows: &mut [Entry], key: &[u8], t: u64)
    ensures { rows.new ≡ map (touched_at key.now t) rows.old }
{
    for row in rows.iter_mut() {
        row.touch(key, t);
    }
}

// The key's row holds this integer, set at the moment t.
pub(crate) fn set_in(rows: &mut [Entry], alloc: Global, key: &[u8], n: i64, t: u64)
    ensures { rows.new ≡ map (with_integer_at key.now n t) rows.old }
{
    for row in rows.iter_mut() {
        row.set_integer(alloc, key, n, t);
    }
}

// The blocks of all rows, replacing what the list held. It has room for them.
pub(crate) fn list_extents(rows: &[Entry], extents: &mut Vec<Extent>)
    requires { length rows.now ≤ vec_capacity extents.old }
    ensures items { extents.new.items ≡ map extent_of rows.now }
    ensures capacity { vec_capacity extents.new ≡ vec_capacity extents.old }
{
    extents.clear();
    for row in rows {
        extents.push_reserved(row.extent());
    }
}

// Drops all expired rows.
pub(crate) fn drop_expired(rows: &mut Vec<Entry>, conf: Conf, t: u64)
    ensures items { rows.new.items ≡ filter (λ row. not (is_expired conf t row)) rows.old.items }
    ensures less { vec_len rows.new ≤ vec_len rows.old }
    ensures capacity { vec_capacity rows.new ≡ vec_capacity rows.old }
{
    rows.retain(|row| !row.is_expired(conf, t));
}

// Drops the key's row.
pub(crate) fn drop_key(rows: &mut Vec<Entry>, key: &[u8])
    ensures { rows.new.items ≡ filter (λ row. not (has_key key.now row)) rows.old.items }
{
    rows.retain(|row| !row.has_key(key));
}

// Drops the expired rows of one hash chain.
pub(crate) fn drop_expired_in(rows: &mut Vec<Entry>, conf: Conf, slot: u64, t: u64)
    requires { 0 < conf.slots }
    ensures items { rows.new.items
        ≡ filter (λ row. not (is_in_slot conf slot row && is_expired conf t row)) rows.old.items }
    ensures less { vec_len rows.new ≤ vec_len rows.old }
    ensures capacity { vec_capacity rows.new ≡ vec_capacity rows.old }
{
    rows.retain(|row| !(row.is_in_slot(conf, slot) && row.is_expired(conf, t)));
}

// The row replaces the row of its key, or is last. There is room for it.
pub(crate) fn put_row(rows: &mut Vec<Entry>, new: Entry)
    requires apart { are_apart rows.old.items ≡ true }
    requires room { vec_len rows.old < vec_capacity rows.old }
    ensures items { rows.new.items ≡ with_row new rows.old.items }
    ensures more { vec_len rows.new ≤ vec_len rows.old + 1 }
    ensures capacity { vec_capacity rows.new ≡ vec_capacity rows.old }
{
    match place_of(rows, new.key.as_slice()) {
        Some(i) => rows[i] = new,
        None => rows.push_reserved(new),
    }
}
