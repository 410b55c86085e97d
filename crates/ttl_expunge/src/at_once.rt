//! All rows are dropped at once: only those from which a worker still copies are moved one by one.

ghost use Rattle.std.specs.Prelude.{◌≡◌, ℕ, ◌<◌, ◌≤◌, true, false, take, IfSome};
ghost use Rattle.seg_words.specs.Kept.{Kept, KeptBeside};
ghost use Rattle.seg_words.specs.Windows.{is_named};
ghost use Rattle.entry_slots.specs.Lists.{has_place, only_at};
ghost use Rattle.entry_slots.specs.Entries.{IsWhole, chain_of, without_rows};
ghost use Rattle.ttl_expunge.specs.Dropping.{all_rows};
ghost use Rattle.ttl_expunge.specs.Lists.{row_places};
ghost use Rattle.entry_slots.specs.Standing.{Stand, entries};
ghost use Rattle.ttl_expunge.specs.Steps.{MayDropRows, DropsRows, MovesRows};

use crate::chains::expunge_all;
use crate::expunge::is_let_go;
use entry_slots::{EntrySlots, standing_laws};
use seg_words::{Segment, WordsIn};

// Moves the row at `at` to the removed ones, if a worker still copies from its block.
fn move_if_held<S: Segment>(slots: &mut EntrySlots, seg: &mut S, at: u32, t: u64)
    requires ready { MayDropRows S.WordsIn slots.old seg.old }
    requires there { has_place at (entries slots.old).rows ≡ true }
    ensures { MovesRows S.WordsIn slots.old slots.new seg.old seg.new t
        (only_at at (entries slots.old).rows) }
{
    standing_laws();
    let is_free = is_let_go(slots, seg, at);
    if !is_free {
        slots.unlink(seg, at);
        slots.to_removed(seg, at, t);
    }
}

// The same for each row of one slot.
fn move_held_in<S: Segment>(slots: &mut EntrySlots, seg: &mut S, slot: u32, t: u64)
    requires ready { MayDropRows S.WordsIn slots.old seg.old }
    requires slot { slot < (entries slots.old).conf.slots }
    ensures { MovesRows S.WordsIn slots.old slots.new seg.old seg.new t
        (chain_of (entries slots.old) slot) }
{
    standing_laws();
    let mut at = slots.first_in(seg, slot);
    while at != 0 {
        let next = slots.after(seg, at);
        move_if_held(slots, seg, at, t);
        at = next;
    }
}

// The same for each row.
fn move_held<S: Segment>(slots: &mut EntrySlots, seg: &mut S, t: u64)
    requires ready { MayDropRows S.WordsIn slots.old seg.old }
    ensures { MovesRows S.WordsIn slots.old slots.new seg.old seg.new t
        (all_rows (entries slots.old)) }
{
    standing_laws();
    let end = slots.slots();
    for slot in 0..end {
        move_held_in(slots, seg, slot, t);
    }
}

// Collects the places of the removed rows in the array, in the order of the rows. Returns their
// number, or `None` if the array is too short.
fn removed_places<S: Segment>(
    slots: &EntrySlots,
    seg: &mut S,
    places: &mut [u32; 64],
) -> Option<usize>
    requires stand { Stand S.WordsIn slots.now seg.old }
    ensures few { IfSome result (λ n. n ≤ 64) }
    ensures collected { IfSome result (λ n.
        take n places.new ≡ row_places (entries slots.now).removed) }
    ensures kept { Kept S.WordsIn seg.old seg.new }
{
    standing_laws();
    let mut at = slots.first_removed();
    for count in 0..64 {
        if at == 0 {
            return Some(count);
        }
        places[count] = at;
        at = slots.after(seg, at);
    }
    if at == 0 { Some(64) } else { None }
}

// Frees all rows except the removed ones, whose places are given.
fn free_beside<S: Segment>(slots: &mut EntrySlots, seg: &mut S, places: &mut [u32])
    requires stand { Stand S.WordsIn slots.old seg.old }
    requires whole { IsWhole (entries slots.old) }
    requires places { places.old ≡ row_places (entries slots.old).removed }
    requires unnamed { (at : ℕ) → has_place at (entries slots.old).rows ≡ true
        → is_named (S.aside seg.old).windows at ≡ false }
    ensures freed { entries slots.new ≡ without_rows (entries slots.old) }
    ensures stand { Stand S.WordsIn slots.new seg.new }
    ensures beside { KeptBeside S.WordsIn seg.old seg.new }
{
    standing_laws();
    places.sort_unstable();
    slots.free_rows_beside(seg, places);
}

/// Drops all rows, as `expunge_all` does; no block may be loose. Only rows from which a worker
/// still copies are moved one by one; all other words are made gaps in one step. If more than 64
/// rows are removed then, which takes a cache that was never swept, the rows are dropped one by
/// one.
pub fn expunge_at_once<S: Segment>(slots: &mut EntrySlots, seg: &mut S, t: u64)
    requires ready { MayDropRows S.WordsIn slots.old seg.old }
    requires whole { IsWhole (entries slots.old) }
    ensures { DropsRows S.WordsIn slots.old slots.new seg.old seg.new t
        (all_rows (entries slots.old)) }
{
    standing_laws();
    move_held(slots, seg, t);
    let mut places = [0; 64];
    let Some(count) = removed_places(slots, seg, &mut places) else {
        expunge_all(slots, seg, t);
        return;
    };
    free_beside(slots, seg, &mut places[..count]);
}
