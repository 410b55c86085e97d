//! Copying keys from their entries.

ghost use Rattle.std.specs.Prelude.{◌≡◌, ◌<◌, ◌^◌, true, length, IfOk};
ghost use Rattle.seg_words.specs.Kept.{Kept};
ghost use Rattle.apcu_model.specs.Cache.{Row};
ghost use Rattle.entry_slots.specs.Lists.{has_place};
ghost use Rattle.entry_slots.specs.Entries.{IsListed, listed};
ghost use Rattle.entry_slots.specs.Standing.{Stand, entries};

use crate::lower::lower_laws;
use crate::slots::EntrySlots;
use seg_words::{HEAD_WORDS, WordsIn};
use std::alloc::{AllocError, Global};
use value_image::get_bytes;

impl EntrySlots {
    /// A copy of the key of the entry at a place, which has `len` bytes according to the entry's
    /// head. Out of memory is the only error.
    pub fn copy_key<S: WordsIn>(
        &self,
        alloc: Global,
        seg: &mut S,
        at: u32,
        len: u32,
    ) -> Result<Vec<u8>, AllocError>
        requires stand { Stand S.WordsIn self.now seg.old }
        requires there { has_place at (listed (entries self.now)) ≡ true }
        requires long { (row : Row) → IsListed (entries self.now) at row → len ≡ length row.key }
        ensures key { (row : Row) → IsListed (entries self.now) at row
            → IfOk result (λ key. key.items ≡ row.key) }
        ensures short { IfOk result (λ key. length key.items < 2 ^ 32) }
        ensures kept { Kept S.WordsIn seg.old seg.new }
    {
        lower_laws();
        let mut key = vec![in alloc; 0u8; len as usize]?;
        get_bytes(seg, at + HEAD_WORDS, &mut key);
        Ok(key)
    }
}
