//! Blocks that are freed once no worker copies from them.

ghost use Rattle.std.specs.Prelude.{◌≡◌, ℕ, true, false, not};
ghost use Rattle.seg_words.specs.Windows.{has, held_blocks};
ghost use Rattle.entry_slots.specs.Lists.{has_place, only_at};
ghost use Rattle.entry_slots.specs.Entries.{listed};
ghost use Rattle.entry_slots.specs.Spots.{IsSpot};
ghost use Rattle.ttl_expunge.specs.Dropping.{swept_at};
ghost use Rattle.entry_slots.specs.Standing.{Stand, entries};
ghost use Rattle.ttl_expunge.specs.Steps.{MayDropRows, MaySweepRows};
ghost use Rattle.ttl_expunge.specs.Steps.{ProbesBlock, SweepsRows, DropsRows};

use entry_slots::{EntrySlots, Spot, standing_laws, window_laws};
use seg_words::{Segment, probe_laws};

/// Whether the block of the row or removed row at `at` may be freed, because no worker copies from
/// it any more. It probes the block: after `false` the block is held in this event, and no later
/// probe changes either result.
pub fn is_let_go<S: Segment>(slots: &EntrySlots, seg: &mut S, at: u32) -> bool
    requires stand { Stand S.WordsIn slots.now seg.old }
    requires there { has_place at (listed (entries slots.now)) ≡ true }
    requires unrefused { has at (S.aside seg.old).refused ≡ false }
    ensures free { result ≡ not (has at (held_blocks (S.aside seg.new))) }
    ensures probes { ProbesBlock S.WordsIn slots.now seg.old seg.new at }
{
    probe_laws();
    standing_laws();
    window_laws();
    seg.probe(at)
}

// Frees the removed row at `at`, unless a worker still copies from its block.
fn sweep_at<S: Segment>(slots: &mut EntrySlots, seg: &mut S, at: u32)
    requires stand { Stand S.WordsIn slots.old seg.old }
    requires there { has_place at (entries slots.old).removed ≡ true }
    requires unrefused { has at (S.aside seg.old).refused ≡ false }
    ensures swept { entries slots.new
        ≡ swept_at (held_blocks (S.aside seg.new)) at (entries slots.old) }
    ensures probes { ProbesBlock S.WordsIn slots.new seg.old seg.new at }
{
    if is_let_go(slots, seg, at) {
        slots.free(seg, at);
    }
}

/// Frees each removed row from which no worker copies any more. The others keep their order.
pub fn sweep_removed<S: Segment>(slots: &mut EntrySlots, seg: &mut S)
    requires ready { MaySweepRows S.WordsIn slots.old seg.old }
    ensures { SweepsRows S.WordsIn slots.old slots.new seg.old seg.new }
{
    standing_laws();
    let mut at = slots.first_removed();
    while at != 0 {
        let next = slots.after(seg, at);
        sweep_at(slots, seg, at);
        at = next;
    }
}

/// Drops the row at `at`: it becomes the last removed row if a worker still copies from its block,
/// and otherwise it is freed.
pub fn drop_row<S: Segment>(slots: &mut EntrySlots, seg: &mut S, at: u32, t: u64)
    requires ready { MayDropRows S.WordsIn slots.old seg.old }
    requires there { has_place at (entries slots.old).rows ≡ true }
    ensures { DropsRows S.WordsIn slots.old slots.new seg.old seg.new t
        (only_at at (entries slots.old).rows) }
{
    standing_laws();
    let is_free = is_let_go(slots, seg, at);
    slots.unlink(seg, at);
    if is_free {
        slots.free_unlinked(seg, at);
    } else {
        slots.to_removed(seg, at, t);
    }
}

/// Drops the row at the spot, as `drop_row` does, without a walk along the chain.
pub fn drop_row_at<S: Segment>(slots: &mut EntrySlots, seg: &mut S, spot: Spot, t: u64)
    requires ready { MayDropRows S.WordsIn slots.old seg.old }
    requires spot { (now : ℕ) × IsSpot (entries slots.old) now spot }
    requires there { has_place spot.at (entries slots.old).rows ≡ true }
    ensures { DropsRows S.WordsIn slots.old slots.new seg.old seg.new t
        (only_at spot.at (entries slots.old).rows) }
{
    standing_laws();
    let is_free = is_let_go(slots, seg, spot.at);
    slots.unlink_at(seg, spot);
    if is_free {
        slots.free_unlinked(seg, spot.at);
    } else {
        slots.to_removed(seg, spot.at, t);
    }
}
