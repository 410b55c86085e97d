//! Whether all rows are expired.

ghost use Rattle.std.specs.Prelude.{◌≡◌, ◌<◌, true};
ghost use Rattle.seg_words.specs.Kept.{Kept};
ghost use Rattle.entry_slots.specs.Entries.{chain_of};
ghost use Rattle.entry_slots.specs.Standing.{Stand, entries};
ghost use Rattle.ttl_expunge.specs.Dropping.{all_rows, expired_rows, expired_in};

use entry_slots::{EntrySlots, standing_laws};
use seg_words::{Segment, WordsIn};

// Whether all rows of a slot are expired. It ends at the first that is not.
fn is_chain_expired<S: Segment>(
    slots: &EntrySlots,
    seg: &mut S,
    slot: u32,
    ttl: u32,
    t: u64,
) -> bool
    requires stand { Stand S.WordsIn slots.now seg.old }
    requires slot { slot < (entries slots.now).conf.slots }
    requires limit { ttl ≡ (entries slots.now).conf.ttl }
    ensures all { result ≡ true
        → expired_in t slot (entries slots.now) ≡ chain_of (entries slots.now) slot }
    ensures kept { Kept S.WordsIn seg.old seg.new }
{
    standing_laws();
    let mut at = slots.first_in(seg, slot);
    while at != 0 {
        if !slots.is_expired(seg, at, ttl, t) {
            return false;
        }
        at = slots.after(seg, at);
    }
    true
}

// Whether all rows are expired. It ends at the first that is not.
pub(crate) fn are_all_expired<S: Segment>(slots: &EntrySlots, seg: &mut S, ttl: u32, t: u64) -> bool
    requires stand { Stand S.WordsIn slots.now seg.old }
    requires limit { ttl ≡ (entries slots.now).conf.ttl }
    ensures all { result ≡ true
        → expired_rows t (entries slots.now) ≡ all_rows (entries slots.now) }
    ensures kept { Kept S.WordsIn seg.old seg.new }
{
    standing_laws();
    let end = slots.slots();
    for slot in 0..end {
        if !is_chain_expired(slots, seg, slot, ttl, t) {
            return false;
        }
    }
    true
}
