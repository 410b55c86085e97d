//! Walks over the rows of a slot, and over the removed rows, that collect items.

ghost use Rattle.std.specs.Prelude.{◌≡◌, ◌<◌, ◌^◌, ◌++◌, [], ◌∷◌, true, length, IfOk, OnOk};
ghost use Rattle.seg_words.specs.Kept.{Kept};
ghost use Rattle.apcu_model.specs.Cache.{Row};
ghost use Rattle.entry_slots.specs.Lists.{has_place};
ghost use Rattle.entry_slots.specs.Entries.{IsListed, chain_of, listed};
ghost use Rattle.entry_slots.specs.Standing.{Stand, entries};
ghost use Rattle.row_search.specs.Choices.{chosen_items};

use apcu_model::{Fields, ItemRow};
use entry_slots::{EntrySlots, standing_laws};
use row_search::{RowTest, item_at};
use seg_words::WordsIn;
use std::alloc::{AllocError, Global};

// Appends the item of the row at a place, if the row is chosen.
fn add_item<S: WordsIn>(
    alloc: Global,
    slots: &EntrySlots,
    seg: &mut S,
    test: &mut RowTest<'_>,
    at: u32,
    fields: Fields,
    items: &mut Vec<ItemRow>,
) -> Result<(), AllocError>
    requires stand { Stand S.WordsIn slots.now seg.old }
    requires there { has_place at (listed (entries slots.now)) ≡ true }
    ensures items { (row : Row) → IsListed (entries slots.now) at row → OnOk result
        (items.new.items ≡ items.old.items ++ chosen_items test.old fields (row ∷ [])) }
    ensures test { test.new ≡ test.old }
    ensures kept { Kept S.WordsIn seg.old seg.new }
{
    if let Some(item) = item_at(alloc, slots, seg, test, at, fields)? {
        items.push(item)?;
    }
    Ok(())
}

// The same for the rows of a slot, in the order of the chain.
pub(crate) fn list_slot<S: WordsIn>(
    alloc: Global,
    slots: &EntrySlots,
    seg: &mut S,
    test: &mut RowTest<'_>,
    slot: u32,
    fields: Fields,
    items: &mut Vec<ItemRow>,
) -> Result<(), AllocError>
    requires stand { Stand S.WordsIn slots.now seg.old }
    requires slot { slot < (entries slots.now).conf.slots }
    ensures items { OnOk result (items.new.items
        ≡ items.old.items ++ chosen_items test.old fields (chain_of (entries slots.now) slot)) }
    ensures test { test.new ≡ test.old }
    ensures kept { Kept S.WordsIn seg.old seg.new }
{
    standing_laws();
    let mut at = slots.first_in(seg, slot);
    for _passed in 0..slots.rows() {
        if at == 0 {
            return Ok(());
        }
        add_item(alloc, slots, seg, test, at, fields, items)?;
        at = slots.after(seg, at);
    }
    Ok(())
}

// The items of the removed rows, in the order in which they were dropped.
pub(crate) fn list_removed<S: WordsIn>(
    alloc: Global,
    slots: &EntrySlots,
    seg: &mut S,
    test: &mut RowTest<'_>,
    fields: Fields,
) -> Result<Vec<ItemRow>, AllocError>
    requires stand { Stand S.WordsIn slots.now seg.old }
    ensures items { IfOk result
        (λ items. items.items ≡ chosen_items test.old fields (entries slots.now).removed) }
    ensures test { test.new ≡ test.old }
    ensures kept { Kept S.WordsIn seg.old seg.new }
{
    standing_laws();
    let mut items = Vec::new(alloc);
    let mut at = slots.first_removed();
    for _passed in 0..slots.words() {
        if at == 0 {
            return Ok(items);
        }
        add_item(alloc, slots, seg, test, at, fields, &mut items)?;
        at = slots.after(seg, at);
    }
    Ok(items)
}
