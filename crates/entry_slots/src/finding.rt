//! Looking up a key without the entries, from what is known besides the words.

ghost use Rattle.std.specs.Prelude.{◌≡◌, ◌<◌, ◌%◌, ◌^◌, length};
ghost use Rattle.seg_words.specs.Kept.{Kept};
ghost use Rattle.apcu_model.specs.SlotOrder.{slot_of};
ghost use Rattle.entry_slots.specs.declared.slots.EntrySlots.{EntrySlots};
ghost use Rattle.entry_slots.specs.Entries.{place_of};
ghost use Rattle.entry_slots.specs.Finding.{Finds};
ghost use Rattle.entry_slots.specs.Standing.{entries};

use crate::keys::slot_in;
use crate::reading::{first_of, has_key_at, next_of};
use seg_words::WordsIn;

/// What a look-up needs to know besides the words of a segment. It is valid until a row is added or
/// removed.
#[derive(Clone, Copy, Debug)]
pub struct Finder {
    /// The number of slots.
    pub slots: u32,
    /// The number of rows.
    pub rows: u32,
}

impl Finder {
    /// The slot of a key that has this hash.
    pub fn slot_of_hash(self, hash: u64) -> u32
        requires some { 0 < self.slots }
        ensures slot { result ≡ hash % self.slots }
    {
        slot_in(hash, self.slots)
    }

    /// The block of the row of this key, `None` exactly if no row has it; `slot` is that of the
    /// key.
    pub fn find<S: WordsIn>(self, seg: &mut S, key: &[u8], slot: u32) -> Option<u32>
        requires short { length key.now < 2 ^ 32 }
        requires finds { (e : EntrySlots) × Finds S.WordsIn e self seg.old
            × (slot ≡ slot_of (entries e).conf key.now) }
        ensures row { (e : EntrySlots) → Finds S.WordsIn e self seg.old
            → slot ≡ slot_of (entries e).conf key.now
            → result ≡ place_of key.now (entries e) }
        ensures kept { Kept S.WordsIn seg.old seg.new }
    {
        let mut at = first_of(seg, slot);
        for _passed in 0..self.rows {
            if at == 0 {
                return None;
            }
            if has_key_at(seg, at, key) {
                return Some(at);
            }
            at = next_of(seg, at);
        }
        None
    }
}
