//! Reading one entry for an iterator.

ghost use Rattle.std.specs.Prelude.{◌≡◌, ℕ, ◌+◌, ◌<◌, ◌≤◌, ◌^◌, true, false, List, length, Some};
ghost use Rattle.std.specs.Prelude.{None, if◌then◌else◌, IfOk, MatchOption};
ghost use Rattle.seg_words.specs.Blocks.{IsTold};
ghost use Rattle.seg_words.specs.Kept.{Kept};
ghost use Rattle.php_graph.specs.declared.kind.Kind.{Kind};
ghost use Rattle.value_image.specs.Image.{IsImageOf};
ghost use Rattle.apcu_model.specs.Cache.{Row};
ghost use Rattle.apcu_model.specs.Chunks.{item_of, tells_value};
ghost use Rattle.apcu_model.specs.Infos.{word_bytes};
ghost use Rattle.entry_slots.specs.Lists.{has_place};
ghost use Rattle.entry_slots.specs.Entries.{IsListed, listed};
ghost use Rattle.entry_slots.specs.Reading.{HeadIn};
ghost use Rattle.entry_slots.specs.Standing.{Stand, entries};
ghost use Rattle.row_search.specs.Choices.{is_chosen};

use crate::row_test::RowTest;
use apcu_model::{Fields, ItemRow};
use entry_slots::{EntrySlots, Head, standing_laws};
use php_graph::{Bytes, Graph};
use seg_words::WordsIn;
use std::alloc::{AllocError, Global};
use value_image::unpersist;

/// The bit of `Fields` that selects the value.
const VALUE: u16 = 2;

// The value whose image the head names, if it is selected.
fn read_value<W: WordsIn>(
    alloc: Global,
    from: &mut W,
    head: Head,
    fields: Fields,
) -> Result<Option<Graph>, AllocError>
    requires image { (g : List Kind) × IsImageOf (W.words from.old) head.image head.image_len g }
    requires told { (i : ℕ) → head.image ≤ i → i < head.image + head.image_len
        → IsTold (W.aside from.old).windows i }
    ensures value { (g : List Kind) → IsImageOf (W.words from.old) head.image head.image_len g
        → IfOk result (λ value. value ≡ (if tells_value fields then Some g else None)) }
    ensures kept { Kept W.WordsIn from.old from.new }
{
    if fields.0 & VALUE == 0 {
        return Ok(None);
    }
    Ok(Some(unpersist(alloc, from, head.image, head.image_len)?))
}

// The item of a row of which this was read.
fn item(key: Vec<u8>, value: Option<Graph>, head: Head) -> ItemRow
    requires short { length key.items < 2 ^ 32 }
    ensures { result ≡ record {
      key = key.items;
      value = value;
      hits = head.hits;
      mtime = head.mtime;
      ctime = head.ctime;
      dtime = head.dtime;
      atime = head.atime;
      size = word_bytes head.size;
      ttl = head.ttl;
    } }
{
    ItemRow {
        key: Bytes::from_vec(key),
        value,
        hits: head.hits,
        mtime: head.mtime,
        ctime: head.ctime,
        dtime: head.dtime,
        atime: head.atime,
        size: 8 * u64::from(head.size),
        ttl: head.ttl,
    }
}

// The item of the row at a place, if the row is chosen.
pub fn item_at<S: WordsIn>(
    alloc: Global,
    slots: &EntrySlots,
    seg: &mut S,
    test: &mut RowTest<'_>,
    at: u32,
    fields: Fields,
) -> Result<Option<ItemRow>, AllocError>
    requires stand { Stand S.WordsIn slots.now seg.old }
    requires there { has_place at (listed (entries slots.now)) ≡ true }
    ensures item { (row : Row) → IsListed (entries slots.now) at row
        → IfOk result (λ item. item
        ≡ (if is_chosen test.old row then Some (item_of fields row) else None)) }
    ensures test { test.new ≡ test.old }
    ensures kept { Kept S.WordsIn seg.old seg.new }
{
    standing_laws();
    let head = slots.head(seg, at);
    if test.leaves_out(head) {
        return Ok(None);
    }
    let key = slots.copy_key(alloc, seg, at, head.key_len)?;
    if !test.matches(&key) {
        return Ok(None);
    }
    let value = read_value(alloc, seg, head, fields)?;
    Ok(Some(item(key, value, head)))
}

// The first words of the row at a place, if it is chosen. The key is read only if not each key
// matches.
pub fn head_at<S: WordsIn>(
    slots: &EntrySlots,
    seg: &mut S,
    test: &mut RowTest<'_>,
    at: u32,
) -> Result<Option<Head>, AllocError>
    requires stand { Stand S.WordsIn slots.now seg.old }
    requires there { has_place at (listed (entries slots.now)) ≡ true }
    ensures head { (row : Row) → IsListed (entries slots.now) at row → IfOk result (λ found.
        MatchOption found (is_chosen test.old row ≡ false)
        (λ head. (is_chosen test.old row ≡ true) × HeadIn S.WordsIn seg.old head row)) }
    ensures test { test.new ≡ test.old }
    ensures kept { Kept S.WordsIn seg.old seg.new }
{
    standing_laws();
    let head = slots.head(seg, at);
    if test.leaves_out(head) {
        return Ok(None);
    }
    if test.is_picky() {
        let key = slots.copy_key(test.alloc(), seg, at, head.key_len)?;
        if !test.matches(&key) {
            return Ok(None);
        }
    }
    Ok(Some(head))
}
