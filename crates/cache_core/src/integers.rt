//! Integers under keys: read without a use, and set in place.

ghost use Rattle.std.specs.Prelude.{◌≡◌, ℕ, ◌<◌, ◌^◌, List, false, length, option_map, Some};
ghost use Rattle.seg_words.specs.Kept.{Kept, KeptBeside};
ghost use Rattle.seg_words.specs.Windows.{is_named};
ghost use Rattle.apcu_model.specs.Cache.{Row};
ghost use Rattle.apcu_model.specs.Counters.{integer_set};
ghost use Rattle.apcu_model.specs.Expiry.{live_row};
ghost use Rattle.apcu_model.specs.SlotOrder.{slot_of};
ghost use Rattle.entry_slots.specs.Entries.{HoldsInt};
ghost use Rattle.entry_slots.specs.Standing.{entries};
ghost use Rattle.cache_core.specs.CoreCache.{cache_of, CacheStands};
ghost use Rattle.cache_core.specs.Events.{IsStep};
ghost use Rattle.cache_core.specs.Looking.{scalar_of};

use crate::cache::Core;
use crate::scalar::Scalar;
use entry_slots::standing_laws;
use seg_words::{Segment, WordsIn};

impl Core {
    /// The place of the row that a look-up of the key at the moment `t`, in seconds, finds, and its
    /// value if that is null, a boolean or an integer. Nothing is counted, and the row is not used.
    /// It is the look-up of `apcu_inc`, `apcu_dec` and `apcu_cas`.
    pub fn peek<S: WordsIn>(&self, seg: &mut S, key: &[u8], t: u64) -> Option<(u32, Option<Scalar>)>
        requires short { length key.now < 2 ^ 32 }
        requires stand { CacheStands S.WordsIn self.now seg.old }
        ensures found { result ≡ option_map (λ (row : Row). (row.place, scalar_of row.graph))
            (live_row key.now t (cache_of self.now)) }
        ensures kept { Kept S.WordsIn seg.old seg.new }
    {
        let slot = self.slot_of_key(key);
        self.peek_in(seg, key, slot, t)
    }

    /// The same; `slot` is that of the key.
    pub fn peek_in<S: WordsIn>(
        &self,
        seg: &mut S,
        key: &[u8],
        slot: u32,
        t: u64,
    ) -> Option<(u32, Option<Scalar>)>
        requires short { length key.now < 2 ^ 32 }
        requires slot { slot ≡ slot_of self.now.conf key.now }
        requires stand { CacheStands S.WordsIn self.now seg.old }
        ensures found { result ≡ option_map (λ (row : Row). (row.place, scalar_of row.graph))
            (live_row key.now t (cache_of self.now)) }
        ensures kept { Kept S.WordsIn seg.old seg.new }
    {
        let Some(at) = self.find_live(seg, key, slot, t) else {
            return None;
        };
        Some((at, self.scalar_at(seg, key, at)))
    }

    /// Makes `n` the value of the row at `at`, which holds an integer, changed at the moment `t`.
    /// This does not count as a use. No window may name its block.
    ///
    /// For each key under which a look-up at some moment finds that row, the cache is the one in
    /// which its integer was set.
    pub fn set_int<S: Segment>(&mut self, seg: &mut S, at: u32, n: i64, t: u64)
        requires stand { CacheStands S.WordsIn self.old seg.old }
        requires int { HoldsInt (entries self.old.slots) at }
        requires unnamed { is_named (S.aside seg.old).windows at ≡ false }
        ensures cache { (key : List ℕ) (seen : ℕ) (row : Row)
            → live_row key seen (cache_of self.old) ≡ Some row → row.place ≡ at
            → cache_of self.new ≡ integer_set key n t (cache_of self.old) }
        ensures step { IsStep S.WordsIn self.old self.new seg.old seg.new }
        ensures beside { KeptBeside S.WordsIn seg.old seg.new }
    {
        standing_laws();
        self.slots.set_int(seg, at, n, t);
    }
}
