//! Totals over all rows of an iterator.

ghost use Rattle.std.specs.Prelude.{◌≡◌, ◌<◌, [], ◌∷◌, true, filter, IfOk};
ghost use Rattle.std.specs.Prelude.{if◌then◌else◌};
ghost use Rattle.seg_words.specs.Kept.{Kept};
ghost use Rattle.apcu_model.specs.declared.request.Reply.TheVariants as replies;
ghost use Rattle.apcu_model.specs.Cache.{Row};
ghost use Rattle.apcu_model.specs.Chunks.{all_items, totals_of};
ghost use Rattle.entry_slots.specs.Lists.{has_place};
ghost use Rattle.entry_slots.specs.Entries.{IsListed, chain_of, listed};
ghost use Rattle.entry_slots.specs.Standing.{Stand, entries};
ghost use Rattle.cache_core.specs.CoreCache.{cache_of, CacheStands};
ghost use Rattle.cache_core.specs.Events.{IsUnchanged};
ghost use Rattle.apcu_iter.specs.RowSums.{no_sums, with_rows, sums_of_both};
ghost use Rattle.row_search.specs.Choices.{is_chosen, rows_in};

use apcu_model::List;
use cache_core::Core;
use entry_slots::{EntrySlots, Head, standing_laws};
use row_search::{RowTest, Search, head_at};
use seg_words::WordsIn;
use std::alloc::AllocError;

/// Totals over rows. Each number stops at its maximum.
#[derive(Clone, Copy)]
pub(crate) struct Sums {
    // the number of rows
    count: u64,
    // the sum of their hits
    hits: u64,
    // the words of their blocks
    words: u64,
}

impl Sums {
    // The totals of no rows.
    fn new() -> Sums
        ensures { result ≡ no_sums }
    {
        Sums {
            count: 0,
            hits: 0,
            words: 0,
        }
    }

    // With one more row, which has this head.
    fn with(self, head: Head) -> Sums
        ensures { (row : Row) → head.hits ≡ row.hits → head.size ≡ row.size
            → result ≡ with_rows self (row ∷ []) }
    {
        Sums {
            count: self.count.saturating_add(1),
            hits: self.hits.saturating_add(head.hits),
            words: self.words.saturating_add(u64::from(head.size)),
        }
    }

    // The totals of both.
    fn plus(self, more: Sums) -> Sums
        ensures { result ≡ sums_of_both self more }
    {
        Sums {
            count: self.count.saturating_add(more.count),
            hits: self.hits.saturating_add(more.hits),
            words: self.words.saturating_add(more.words),
        }
    }
}

// With the row at a place, if it is chosen.
fn add_row<S: WordsIn>(
    slots: &EntrySlots,
    seg: &mut S,
    test: &mut RowTest<'_>,
    at: u32,
    sums: Sums,
) -> Result<Sums, AllocError>
    requires stand { Stand S.WordsIn slots.now seg.old }
    requires there { has_place at (listed (entries slots.now)) ≡ true }
    ensures sums { (row : Row) → IsListed (entries slots.now) at row → IfOk result
        (λ r. r ≡ (if is_chosen test.old row then with_rows sums (row ∷ []) else sums)) }
    ensures test { test.new ≡ test.old }
    ensures kept { Kept S.WordsIn seg.old seg.new }
{
    match head_at(slots, seg, test, at)? {
        Some(head) => Ok(sums.with(head)),
        None => Ok(sums),
    }
}

// The totals of the rows of a slot.
fn add_slot<S: WordsIn>(
    slots: &EntrySlots,
    seg: &mut S,
    test: &mut RowTest<'_>,
    slot: u32,
) -> Result<Sums, AllocError>
    requires stand { Stand S.WordsIn slots.now seg.old }
    requires slot { slot < (entries slots.now).conf.slots }
    ensures sums { IfOk result (λ r. r
        ≡ with_rows no_sums (filter (is_chosen test.old) (chain_of (entries slots.now) slot))) }
    ensures test { test.new ≡ test.old }
    ensures kept { Kept S.WordsIn seg.old seg.new }
{
    standing_laws();
    let mut sums = Sums::new();
    let mut at = slots.first_in(seg, slot);
    for _passed in 0..slots.rows() {
        if at == 0 {
            return Ok(sums);
        }
        sums = add_row(slots, seg, test, at, sums)?;
        at = slots.after(seg, at);
    }
    Ok(sums)
}

// The totals of the rows of all slots.
fn add_active<S: WordsIn>(
    slots: &EntrySlots,
    seg: &mut S,
    test: &mut RowTest<'_>,
) -> Result<Sums, AllocError>
    requires stand { Stand S.WordsIn slots.now seg.old }
    ensures sums { IfOk result (λ r. r
        ≡ with_rows no_sums (filter (is_chosen test.old) (entries slots.now).rows)) }
    ensures test { test.new ≡ test.old }
    ensures kept { Kept S.WordsIn seg.old seg.new }
{
    let mut sums = Sums::new();
    for slot in 0..slots.slots() {
        let more = add_slot(slots, seg, test, slot)?;
        sums = sums.plus(more);
    }
    Ok(sums)
}

// The totals of the removed rows.
fn add_removed<S: WordsIn>(
    slots: &EntrySlots,
    seg: &mut S,
    test: &mut RowTest<'_>,
) -> Result<Sums, AllocError>
    requires stand { Stand S.WordsIn slots.now seg.old }
    ensures sums { IfOk result (λ r. r
        ≡ with_rows no_sums (filter (is_chosen test.old) (entries slots.now).removed)) }
    ensures test { test.new ≡ test.old }
    ensures kept { Kept S.WordsIn seg.old seg.new }
{
    standing_laws();
    let mut sums = Sums::new();
    let mut at = slots.first_removed();
    for _passed in 0..slots.words() {
        if at == 0 {
            return Ok(sums);
        }
        sums = add_row(slots, seg, test, at, sums)?;
        at = slots.after(seg, at);
    }
    Ok(sums)
}

// The totals of the rows of a list.
fn add_all<S: WordsIn>(
    slots: &EntrySlots,
    seg: &mut S,
    test: &mut RowTest<'_>,
    list: List,
) -> Result<Sums, AllocError>
    requires stand { Stand S.WordsIn slots.now seg.old }
    ensures sums { IfOk result (λ r. r
        ≡ with_rows no_sums (filter (is_chosen test.old) (rows_in list (entries slots.now)))) }
    ensures test { test.new ≡ test.old }
    ensures kept { Kept S.WordsIn seg.old seg.new }
{
    match list {
        List::Active => add_active(slots, seg, test),
        List::Deleted => add_removed(slots, seg, test),
    }
}

/// The totals of all rows of an iterator over the list at the moment `t`, in seconds: their number,
/// the sum of their hits, which stops at 2^64 - 1, and the bytes of their blocks. Nothing changes.
///
/// It takes time in proportion to the slots and rows. Matching takes memory from the search's
/// allocator, and out of memory is the only error.
pub fn totals<S: WordsIn>(
    core: &mut Core,
    seg: &mut S,
    search: &mut Search,
    list: List,
    t: u64,
) -> Result<(u64, u64, u64), AllocError>
    requires stand { CacheStands S.WordsIn core.old seg.old }
    ensures totals { IfOk result (λ r. replies.Totals r.0 r.1 r.2
        ≡ totals_of (all_items search.old list t (cache_of core.old))) }
    ensures search { search.new ≡ search.old }
    ensures same { IsUnchanged S.WordsIn core.old core.new seg.old seg.new }
{
    let mut test = search.test(list, t)?;
    let slots = core.slots();
    let sums = add_all(slots, seg, &mut test, list)?;
    Ok((sums.count, sums.hits, 8 * sums.words))
}
