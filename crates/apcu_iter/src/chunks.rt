//! Steps of iterators.

ghost use Rattle.std.specs.Prelude.{◌≡◌, ◌≤◌, IfOk};
ghost use Rattle.seg_words.specs.Kept.{Kept};
ghost use Rattle.apcu_model.specs.Chunks.{chunk_of};
ghost use Rattle.entry_slots.specs.Standing.{Stand, entries};
ghost use Rattle.cache_core.specs.CoreCache.{cache_of, CacheStands};
ghost use Rattle.cache_core.specs.Events.{IsUnchanged};
ghost use Rattle.row_search.specs.Choices.{uncounted};

use crate::chains::{list_removed, list_slot};
use apcu_model::{Chunk, Fields, Items, List};
use cache_core::Core;
use entry_slots::EntrySlots;
use row_search::{RowTest, Search};
use seg_words::WordsIn;
use std::alloc::{AllocError, Global};

// Walks over the slots from one on until there are enough items, or to the last slot.
fn active_chunk<S: WordsIn>(
    alloc: Global,
    slots: &EntrySlots,
    seg: &mut S,
    test: &mut RowTest<'_>,
    from: u32,
    size: u32,
    fields: Fields,
) -> Result<Chunk, AllocError>
    requires stand { Stand S.WordsIn slots.now seg.old }
    requires list { test.old.list ≡ List.Active }
    requires from { from ≤ (entries slots.now).conf.slots }
    requires size { 1 ≤ size }
    ensures chunk { IfOk result (λ x. x ≡ chunk_of test.old.pattern from size List.Active fields
        test.old.t (uncounted (entries slots.now))) }
    ensures test { test.new ≡ test.old }
    ensures kept { Kept S.WordsIn seg.old seg.new }
{
    let end = slots.slots();
    let mut items = Vec::new(alloc);
    for slot in from..end {
        list_slot(alloc, slots, seg, test, slot, fields, &mut items)?;
        if items.len() >= size as usize {
            return Ok(Chunk {
                next: slot + 1,
                items: Items::from_vec(items),
            });
        }
    }
    Ok(Chunk {
        next: end,
        items: Items::from_vec(items),
    })
}

// Walks over all removed rows.
fn removed_chunk<S: WordsIn>(
    alloc: Global,
    slots: &EntrySlots,
    seg: &mut S,
    test: &mut RowTest<'_>,
    fields: Fields,
) -> Result<Chunk, AllocError>
    requires stand { Stand S.WordsIn slots.now seg.old }
    requires list { test.old.list ≡ List.Deleted }
    ensures chunk { IfOk result (λ x. x ≡ chunk_of test.old.pattern 0 0 List.Deleted fields
        0 (uncounted (entries slots.now))) }
    ensures test { test.new ≡ test.old }
    ensures kept { Kept S.WordsIn seg.old seg.new }
{
    let items = list_removed(alloc, slots, seg, test, fields)?;
    Ok(Chunk {
        next: slots.slots(),
        items: Items::from_vec(items),
    })
}

/// One step of an iterator at the moment `t`, in seconds. Nothing changes.
///
/// Over the active rows it continues at the slot `from` and takes as few slots as hold at least
/// `size` items, or all that are left if they hold fewer. Its items are the rows that have not
/// expired and whose keys match, by slot and place, and `next` is the slot after the last one
/// taken. Over the deleted rows, all that match are one step, in the order in which they were
/// dropped, and `next` is the number of slots.
///
/// It takes time in proportion to the slots and rows that it passes, whatever `size` is. The
/// matcher is made before anything else. A value is copied only if `fields` selects it. Out of
/// memory is the only error.
pub fn chunk<S: WordsIn>(
    alloc: Global,
    core: &mut Core,
    seg: &mut S,
    search: &mut Search,
    from: u32,
    size: u32,
    list: List,
    fields: Fields,
    t: u64,
) -> Result<Chunk, AllocError>
    requires stand { CacheStands S.WordsIn core.old seg.old }
    requires from { from ≤ (cache_of core.old).conf.slots }
    requires size { 1 ≤ size }
    ensures chunk { IfOk result
        (λ x. x ≡ chunk_of search.old from size list fields t (cache_of core.old)) }
    ensures search { search.new ≡ search.old }
    ensures same { IsUnchanged S.WordsIn core.old core.new seg.old seg.new }
{
    let mut test = search.test(list, t)?;
    let slots = core.slots();
    match list {
        List::Active => active_chunk(alloc, slots, seg, &mut test, from, size, fields),
        List::Deleted => removed_chunk(alloc, slots, seg, &mut test, fields),
    }
}
