//! Deleting the rows of an iterator.

ghost use Rattle.std.specs.Prelude.{◌≡◌, ◌<◌, ◌≤◌, ◌++◌, [], ◌∷◌, true, IfOk, OnOk};
ghost use Rattle.seg_words.specs.Kept.{Kept};
ghost use Rattle.apcu_model.specs.declared.request.Request.TheVariants as requests;
ghost use Rattle.apcu_model.specs.declared.request.Reply.TheVariants as replies;
ghost use Rattle.apcu_model.specs.Cache.{Row};
ghost use Rattle.apcu_model.specs.Chunks.{chunk_end, chunk_rows};
ghost use Rattle.entry_slots.specs.Lists.{has_place};
ghost use Rattle.entry_slots.specs.Entries.{IsListed, chain_of, listed};
ghost use Rattle.entry_slots.specs.Standing.{Stand, entries};
ghost use Rattle.ttl_expunge.specs.Lists.{row_places};
ghost use Rattle.cache_core.specs.CoreCache.{cache_of};
ghost use Rattle.cache_core.specs.Events.{MayDrop, DoesIf};
ghost use Rattle.row_search.specs.Choices.{chosen_places, uncounted};

use apcu_model::List;
use cache_core::Core;
use entry_slots::{EntrySlots, standing_laws};
use row_search::{RowTest, Search, head_at};
use seg_words::{Segment, WordsIn};
use std::alloc::{AllocError, Global};
use ttl_expunge::{drop_laws, drop_rows};

// Appends the place of the row at a place, if the row is chosen.
fn collect_row<S: Segment>(
    slots: &EntrySlots,
    seg: &mut S,
    test: &mut RowTest<'_>,
    at: u32,
    places: &mut Vec<u32>,
) -> Result<(), AllocError>
    requires stand { Stand S.WordsIn slots.now seg.old }
    requires there { has_place at (listed (entries slots.now)) ≡ true }
    ensures places { (row : Row) → IsListed (entries slots.now) at row → OnOk result
        (places.new.items ≡ places.old.items ++ chosen_places test.old (row ∷ [])) }
    ensures test { test.new ≡ test.old }
    ensures kept { Kept S.WordsIn seg.old seg.new }
{
    if let Some(_head) = head_at(slots, seg, test, at)? {
        places.push(at)?;
    }
    Ok(())
}

// The same for the rows of a slot, in the order of the chain.
fn collect_slot<S: Segment>(
    slots: &EntrySlots,
    seg: &mut S,
    test: &mut RowTest<'_>,
    slot: u32,
    places: &mut Vec<u32>,
) -> Result<(), AllocError>
    requires stand { Stand S.WordsIn slots.now seg.old }
    requires slot { slot < (entries slots.now).conf.slots }
    ensures places { OnOk result (places.new.items
        ≡ places.old.items ++ chosen_places test.old (chain_of (entries slots.now) slot)) }
    ensures test { test.new ≡ test.old }
    ensures kept { Kept S.WordsIn seg.old seg.new }
{
    standing_laws();
    let mut at = slots.first_in(seg, slot);
    for _passed in 0..slots.rows() {
        if at == 0 {
            return Ok(());
        }
        collect_row(slots, seg, test, at, places)?;
        at = slots.after(seg, at);
    }
    Ok(())
}

// The slot after a step over the active rows, and the places of its rows.
fn collect_chunk<S: Segment>(
    alloc: Global,
    slots: &EntrySlots,
    seg: &mut S,
    test: &mut RowTest<'_>,
    from: u32,
    size: u32,
) -> Result<(u32, Vec<u32>), AllocError>
    requires stand { Stand S.WordsIn slots.now seg.old }
    requires list { test.old.list ≡ List.Active }
    requires from { from ≤ (entries slots.now).conf.slots }
    requires size { 1 ≤ size }
    ensures next { IfOk result (λ r. r.0
        ≡ chunk_end test.old.pattern test.old.t (uncounted (entries slots.now)) from size) }
    ensures places { IfOk result (λ r. r.1.items ≡ row_places
        (chunk_rows test.old.pattern test.old.t (uncounted (entries slots.now)) from size)) }
    ensures test { test.new ≡ test.old }
    ensures kept { Kept S.WordsIn seg.old seg.new }
{
    let end = slots.slots();
    let mut places = Vec::new(alloc);
    for slot in from..end {
        collect_slot(slots, seg, test, slot, &mut places)?;
        if places.len() >= size as usize {
            return Ok((slot + 1, places));
        }
    }
    Ok((end, places))
}

/// Deletes the rows of one step of an iterator over the active rows at the moment `t`, in seconds.
/// It continues at the slot `from` and takes as few slots as hold at least `size` rows that have
/// not expired and whose keys match, or all that are left if they hold fewer. These rows are
/// dropped, by slot and place: a row from which a worker still copies becomes the last removed row.
/// Returns the slot after the last one taken.
///
/// The rows are found before the first one is dropped, and only finding them takes memory. Out of
/// memory is the only error; then nothing changed.
pub fn chunk_delete<S: Segment>(
    alloc: Global,
    core: &mut Core,
    seg: &mut S,
    search: &mut Search,
    from: u32,
    size: u32,
    t: u64,
) -> Result<u32, AllocError>
    requires ready { MayDrop S.WordsIn core.old seg.old }
    requires from { from ≤ (cache_of core.old).conf.slots }
    requires size { 1 ≤ size }
    ensures does { DoesIf S.WordsIn core.old core.new seg.old seg.new t
        (requests.ChunkDelete search.old from size) result (λ next. replies.Next next) }
    ensures search { search.new ≡ search.old }
{
    standing_laws();
    drop_laws();
    let mut test = search.test(List::Active, t)?;
    let slots = core.slots();
    let (next, places) = collect_chunk(alloc, slots, seg, &mut test, from, size)?;
    drop_rows(slots, seg, &places, t);
    Ok(next)
}
