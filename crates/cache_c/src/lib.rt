//! The engine as a library for C: a handle to a cache, and the calls on it. No call checks for
//! null: C calls them through their header, which does.
#![tactic(auto)]

mod asking;
mod cache;
mod copying;
mod counts;
mod header;
mod making;
mod rows;
mod scalars;
mod seat_words;
mod shared;
mod values;

ghost use Rattle.std.specs.Prelude.{◌≡◌, ◌≤◌, ℕ, List};
ghost use denote.Param.{layout};
ghost use prog.Memory.{align, size};
ghost use Rattle.cache_c.specs.contracts.cache.Cache.{the_row};
ghost use types.Logic.{sem};
ghost use Rattle.php_graph.specs.Numbers.{hash_of};
ghost use base.Fml.{fsep};
ghost use Rattle.cache_c.specs.declared.cache.Cache.{Cache};
ghost use Rattle.cache_c.specs.Memory.{room, stands_at, asks_at, bytes_at};
ghost use Rattle.cache_c.specs.Memory.{has_asked, has_copied, has_let_go, is_given};
ghost use Rattle.cache_c.specs.Memory.{has_counted, has_found, has_listed, has_lists, has_gaps};
ghost use Rattle.cache_c.specs.Memory.{rows_at, gaps_at, counts_at, has_used, has_view};
ghost use Rattle.cache_c.specs.Shared.{IsShared, IsFoundFor};
ghost use Rattle.cache_c.specs.declared.counts.Gap.{Gap};
ghost use Rattle.cache_c.specs.declared.rows.ToldRow.{ToldRow};

pub use asking::{Answer, Ask};
pub use cache::Cache;
pub use counts::{Gap, ToldCounts};
pub use header::header_is_right;
pub use making::Shape;
use making::{MADE, made};
use php_graph::hash_of;
pub use rows::{Listing, ToldRow};
use shared::find_shared;
pub use shared::{Found, View};
use std::alloc::Global;

/// The size of a cache in bytes, without its words. Its alignment is at most 16 bytes.
#[unsafe(no_mangle)]
pub extern "C" fn cache_size() -> usize
    ensures size { result ≡ size (layout the_row) }
    ensures align { align (layout the_row) ≤ 16 }
{
    std::mem::size_of::<Cache>()
}

/// Makes an empty cache of this shape in the memory at `at`, and returns `MADE`; or returns the
/// number of the reason why there is none.
#[unsafe(no_mangle)]
pub unsafe extern "C" fn cache_new_unchecked(alloc: Global, shape: &Shape, at: *mut u8) -> u32
    requires* { sem 𝓛 (room at) }
    ensures* { sem 𝓛 (is_given shape.now at result) }
{
    match made(alloc, shape) {
        Ok(cache) => {
            std::ptr::write(at.cast::<Cache>(), cache);
            MADE
        }
        Err(why) => why,
    }
}

/// The hash of a key, as PHP computes it.
#[unsafe(no_mangle)]
pub extern "C" fn cache_hash_unchecked(key: &[u8]) -> u64
    ensures { result ≡ hash_of key.now }
{
    hash_of(key)
}

/// Carries out one event on the cache at `at`. The request contains the hash of its key.
#[unsafe(no_mangle)]
pub unsafe extern "C" fn cache_ask_unchecked(
    at: *mut u8,
    ask: &Ask,
    key: &[u8],
    bytes: &[u8],
) -> Answer
    ghost cache: { Cache }
    requires* { sem 𝓛 (asks_at at cache ask.now key.now) }
    ensures* { sem 𝓛 (has_asked cache at ask.now key.now bytes.now result) }
{
    (&mut *at.cast::<Cache>()).ask(ask, key, bytes)
}

/// Copies `len` bytes from the word at `place` of the cache at `at` to `out`. Returns false, and
/// copies nothing, if they would run past the last word.
#[unsafe(no_mangle)]
pub unsafe extern "C" fn cache_copy_unchecked(
    at: *mut u8,
    place: u32,
    out: *mut u8,
    len: usize,
) -> bool
    ghost old: { Cache × List ℕ }
    requires* { sem 𝓛 (fsep (stands_at at old.0) (bytes_at out len old.1)) }
    ensures* { sem 𝓛 (has_copied old.0 old.1 at place out len result) }
{
    (&mut *at.cast::<Cache>()).copy(place, std::slice::from_raw_parts_mut(out, len))
}

/// Releases a seat of the cache at `at`, which holds nothing from now on. Returns false if there is
/// no seat of this number. It is no event.
#[unsafe(no_mangle)]
pub unsafe extern "C" fn cache_let_go_unchecked(at: *mut u8, seat: u32) -> bool
    ghost cache: { Cache }
    requires* { sem 𝓛 (stands_at at cache) }
    ensures* { sem 𝓛 (has_let_go cache at seat result) }
{
    (&mut *at.cast::<Cache>()).let_go(seat)
}

/// The counters of the cache at `at`, and its numbers of used and free words. Nothing changes.
#[unsafe(no_mangle)]
pub unsafe extern "C" fn cache_get_counts_unchecked(at: *mut u8) -> ToldCounts
    ghost cache: { Cache }
    requires* { sem 𝓛 (stands_at at cache) }
    ensures* { sem 𝓛 (has_counted cache at result) }
{
    (&mut *at.cast::<Cache>()).counts()
}

/// The row that a look-up of the key at the second `t` finds in the cache at `at`. Nothing changes.
#[unsafe(no_mangle)]
pub unsafe extern "C" fn cache_find_row_unchecked(at: *mut u8, key: &[u8], t: u64) -> ToldRow
    ghost cache: { Cache }
    requires* { sem 𝓛 (stands_at at cache) }
    ensures* { sem 𝓛 (has_found cache at key.now t result) }
{
    (&mut *at.cast::<Cache>()).find(key, t)
}

/// Writes rows of a list of the cache at `at`, after the first `skip`, to the `room` places at
/// `out`: those of a slot, or of the list after the slots, which has the removed rows. Returns the
/// number that it wrote. Nothing changes.
#[unsafe(no_mangle)]
pub unsafe extern "C" fn cache_list_rows_unchecked(
    at: *mut u8,
    slot: u32,
    skip: u64,
    out: *mut ToldRow,
    room: usize,
) -> u64
    ghost old: { Cache × List ToldRow }
    requires* { sem 𝓛 (fsep (stands_at at old.0) (rows_at out room old.1)) }
    ensures* { sem 𝓛 (has_listed old.0 old.1 at slot skip out room result) }
{
    (&mut *at.cast::<Cache>()).list_rows(slot, skip, std::slice::from_raw_parts_mut(out, room))
}

/// Writes the rows of the lists from `from` up to `to` of the cache at `at`, list after list, to
/// the `room` places at `out`, until all rows of one do not fit. Returns the first list that it did
/// not write, which is `to` if all fit, and the number of rows of those before it. What the places
/// after these rows contain is arbitrary. Nothing changes.
#[unsafe(no_mangle)]
pub unsafe extern "C" fn cache_list_slots_unchecked(
    at: *mut u8,
    from: u32,
    to: u32,
    out: *mut ToldRow,
    room: usize,
) -> Listing
    ghost old: { Cache × List ToldRow }
    requires* { sem 𝓛 (fsep (stands_at at old.0) (rows_at out room old.1)) }
    ensures* { sem 𝓛 (has_lists old.0 old.1 at from to out room result) }
{
    (&mut *at.cast::<Cache>()).list_slots(from, to, std::slice::from_raw_parts_mut(out, room))
}

/// Writes the gaps of the cache at `at` from a place on, by rising place, to the `room` places at
/// `out`. Returns the number that it wrote. Nothing changes.
#[unsafe(no_mangle)]
pub unsafe extern "C" fn cache_list_gaps_unchecked(
    at: *mut u8,
    from: u32,
    out: *mut Gap,
    room: usize,
) -> u64
    ghost old: { Cache × List Gap }
    requires* { sem 𝓛 (fsep (stands_at at old.0) (gaps_at out room old.1)) }
    ensures* { sem 𝓛 (has_gaps old.0 old.1 at from out room result) }
{
    (&mut *at.cast::<Cache>()).list_gaps(from, std::slice::from_raw_parts_mut(out, room))
}

/// What a shared look-up reads of the cache at `at` in addition to its words. Nothing changes.
#[unsafe(no_mangle)]
pub unsafe extern "C" fn cache_get_view_unchecked(at: *mut u8) -> View
    ghost cache: { Cache }
    requires* { sem 𝓛 (stands_at at cache) }
    ensures* { sem 𝓛 (has_view cache at result) }
{
    (&mut *at.cast::<Cache>()).view()
}

/// Looks up a key that has this hash, at the second `t`, in the words of a cache, of which `words`
/// are the first and the others are 0. It writes nothing, so any number of callers may look up at
/// the same time.
#[unsafe(no_mangle)]
pub extern "C" fn cache_find_shared_unchecked(
    view: &View,
    words: &[u64],
    key: &[u8],
    hash: u64,
    t: u64,
) -> Found
    requires shared { (cache : Cache) × IsShared cache view.now words.now }
    requires hash { hash ≡ hash_of key.now }
    ensures found { (cache : Cache) → IsShared cache view.now words.now
        → IsFoundFor cache key.now t result }
{
    find_shared(view, words, key, hash, t)
}

/// Counts look-ups of the second `t` that `cache_find_shared` answered: those that found the rows
/// at these places, and the number of `misses` that found none. Returns true.
#[unsafe(no_mangle)]
pub unsafe extern "C" fn cache_count_unchecked(
    at: *mut u8,
    places: &[u32],
    misses: u64,
    t: u64,
) -> bool
    ghost cache: { Cache }
    requires* { sem 𝓛 (counts_at at cache places.now) }
    ensures* { sem 𝓛 (has_used cache at places.now misses t result) }
{
    (&mut *at.cast::<Cache>()).count_shared(places, misses, t)
}
