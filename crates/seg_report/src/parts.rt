//! The lines of all blocks and free runs, by rising place.

ghost use Rattle.std.specs.Prelude.{◌≡◌, ◌<◌, ◌++◌, true, List, length, OnOk, OnErr, IfOk};
ghost use Rattle.std.specs.List.{flat_map};
ghost use Rattle.seg_words.specs.Kept.{Kept};
ghost use Rattle.apcu_model.specs.Cache.{Row};
ghost use Rattle.notation.specs.Appending.{Extends};
ghost use Rattle.entry_slots.specs.Lists.{has_place};
ghost use Rattle.entry_slots.specs.Entries.{IsListed, IsWhole, listed};
ghost use Rattle.entry_slots.specs.Standing.{Stand, entries};
ghost use Rattle.seg_report.specs.Lines.{part_line, row_line};
ghost use Rattle.seg_report.specs.Parts.{parts_in};
ghost use Rattle.seg_report.specs.RemovedPlaces.{ArePlaces};
ghost use Rattle.seg_report.specs.PartWalks.{IsAtPart, WalksOn, size_if_at};

use crate::lines::{put_entry, put_pair};
use entry_slots::{EntrySlots, standing_laws};
use notation::ByteOut;
use seg_words::WordsIn;
use std::alloc::{AllocError, Global};

// The places of the removed rows, by rising place.
fn removed_places<S: WordsIn>(
    alloc: Global,
    slots: &EntrySlots,
    seg: &mut S,
) -> Result<Vec<u32>, AllocError>
    requires stand { Stand S.WordsIn slots.now seg.old }
    ensures places { IfOk result
        (λ places. ArePlaces places.items (entries slots.now).removed) }
    ensures kept { Kept S.WordsIn seg.old seg.new }
{
    standing_laws();
    let mut places = Vec::new(alloc);
    let mut at = slots.first_removed();
    while at != 0 {
        places.push(at)?;
        at = slots.after(seg, at);
    }
    places.sort_unstable();
    Ok(places)
}

// The line of the entry at a place. Returns the number of words of its block.
fn put_row<S: WordsIn>(
    alloc: Global,
    slots: &EntrySlots,
    seg: &mut S,
    removed: &[u32],
    at: u32,
    out: &mut ByteOut,
) -> Result<u32, AllocError>
    requires stand { Stand S.WordsIn slots.now seg.old }
    requires there { has_place at (listed (entries slots.now)) ≡ true }
    requires places { ArePlaces removed.now (entries slots.now).removed }
    ensures line { (row : Row) → IsListed (entries slots.now) at row → IfOk result (λ size.
        (size ≡ row.size) × (out.new ≡ out.old
        ++ row_line (has_place at (entries slots.now).removed) row)) }
    ensures err { OnErr result (Extends out.old out.new) }
    ensures kept { Kept S.WordsIn seg.old seg.new }
{
    let head = slots.head(seg, at);
    let key = slots.copy_key(alloc, seg, at, head.key_len)?;
    put_entry(out, is_place(removed, at), at, head.size, head.number, &key)?;
    Ok(head.size)
}

// Whether a removed row has its block at the place.
fn is_place(removed: &[u32], at: u32) -> bool
    ensures { (rows : List Row) → ArePlaces removed.now rows → result ≡ has_place at rows }
{
    removed.binary_search(&at).is_ok()
}

// The size of the gap if it begins at the place, or 0.
fn size_if_at(gap: Option<(u32, u32)>, at: u32) -> u32
    ensures { result ≡ size_if_at at gap }
{
    match gap {
        Some((place, size)) => if place == at { size } else { 0 },
        None => 0,
    }
}

// The line of the block at a place or of the gap that begins there; `gap` is the next gap. Returns
// the number of its words, and the gap after it.
fn put_part<S: WordsIn>(
    alloc: Global,
    slots: &EntrySlots,
    seg: &mut S,
    removed: &[u32],
    at: u32,
    gap: Option<(u32, u32)>,
    out: &mut ByteOut,
) -> Result<(u32, Option<(u32, u32)>), AllocError>
    requires stand { Stand S.WordsIn slots.now seg.old }
    requires whole { IsWhole (entries slots.now) }
    requires places { ArePlaces removed.now (entries slots.now).removed }
    requires here { IsAtPart (S.words seg.old) (entries slots.now)
        slots.now.sma.bounds.from at gap }
    requires low { at < length (S.words seg.old) }
    ensures ok { IfOk result (λ r. WalksOn (S.words seg.old) (entries slots.now)
        slots.now.sma.bounds.from at out.old out.new r.0 r.1) }
    ensures err { OnErr result (Extends out.old out.new) }
    ensures kept { Kept S.WordsIn seg.old seg.new }
{
    let free = size_if_at(gap, at);
    if free > 0 {
        put_pair(out, b"free ", at, free)?;
        return Ok((free, slots.sma().gap_from(seg, at + free)));
    }
    Ok((put_row(alloc, slots, seg, removed, at, out)?, gap))
}

// The lines of all blocks and gaps, by rising place. Each begins where the one before ends.
fn put_all<S: WordsIn>(
    alloc: Global,
    slots: &EntrySlots,
    seg: &mut S,
    removed: &[u32],
    out: &mut ByteOut,
) -> Result<(), AllocError>
    requires stand { Stand S.WordsIn slots.now seg.old }
    requires whole { IsWhole (entries slots.now) }
    requires places { ArePlaces removed.now (entries slots.now).removed }
    ensures ok { OnOk result (out.new ≡ out.old ++ flat_map part_line (parts_in
        (entries slots.now).conf (entries slots.now).rows (entries slots.now).removed)) }
    ensures err { OnErr result (Extends out.old out.new) }
    ensures kept { Kept S.WordsIn seg.old seg.new }
{
    let end = slots.words();
    let mut at = slots.slots();
    let mut gap = slots.sma().gap_from(seg, at);
    while at < end {
        let (size, next) = put_part(alloc, slots, seg, removed, at, gap, out)?;
        at += size;
        gap = next;
    }
    Ok(())
}

// The lines of all blocks and free runs in the words.
pub(crate) fn put_parts<S: WordsIn>(
    alloc: Global,
    slots: &EntrySlots,
    seg: &mut S,
    out: &mut ByteOut,
) -> Result<(), AllocError>
    requires stand { Stand S.WordsIn slots.now seg.old }
    requires whole { IsWhole (entries slots.now) }
    ensures ok { OnOk result (out.new ≡ out.old ++ flat_map part_line (parts_in
        (entries slots.now).conf (entries slots.now).rows (entries slots.now).removed)) }
    ensures err { OnErr result (Extends out.old out.new) }
    ensures kept { Kept S.WordsIn seg.old seg.new }
{
    let removed = removed_places(alloc, slots, seg)?;
    put_all(alloc, slots, seg, &removed, out)
}
