//! A look-up in two steps: what it finds is copied without a change, and counted later.

ghost use Rattle.std.specs.Prelude.{◌≡◌, ℕ, ◌<◌, ◌^◌, List, true, length, option_map, Some, IfOk};
ghost use Rattle.std.specs.Prelude.{slice_index};
ghost use Rattle.seg_words.specs.Kept.{Kept, KeptBeside};
ghost use Rattle.apcu_model.specs.Cache.{Row};
ghost use Rattle.apcu_model.specs.Expiry.{live_row};
ghost use Rattle.apcu_model.specs.Sequential.{looked_up};
ghost use Rattle.entry_slots.specs.Lists.{has_place};
ghost use Rattle.cache_core.specs.CoreCache.{cache_of, CacheStands};
ghost use Rattle.cache_core.specs.Events.{IsStep};
ghost use Rattle.cache_core.specs.Counting.{with_misses};
ghost use Rattle.cache_core.specs.Uses.{fetched, used_at, AreFoundAt, AreMissed};

use crate::cache::Core;
use entry_slots::standing_laws;
use php_graph::Graph;
use seg_words::{Segment, WordsIn};
use std::alloc::{AllocError, Global};
use value_image::unpersist;

impl Core {
    /// A copy of the value of the row that a look-up of the key at the moment `t`, in seconds,
    /// finds, and the place of that row. Nothing is counted, and the row is not used: call
    /// `count_hit` and `count_misses` once memory was found.
    pub fn copy_live<S: Segment>(
        &self,
        alloc: Global,
        seg: &mut S,
        key: &[u8],
        t: u64,
    ) -> Result<Option<(u32, Graph)>, AllocError>
        requires short { length key.now < 2 ^ 32 }
        requires stand { CacheStands S.WordsIn self.now seg.old }
        ensures found { IfOk result (λ found. found
            ≡ option_map (λ (row : Row). (row.place, row.graph))
            (live_row key.now t (cache_of self.now))) }
        ensures kept { Kept S.WordsIn seg.old seg.new }
    {
        let slot = self.slot_of_key(key);
        let Some(at) = self.find_live(seg, key, slot, t) else {
            return Ok(None);
        };
        let image = self.slots.image_at(seg, at, key.len() as u32);
        let len = self.slots.image_len(seg, at);
        let value = unpersist(alloc, seg, image, len);
        Ok(Some((at, value?)))
    }

    /// Counts a look-up that found the row at `at`: a hit, and a use of the row at the moment `t`,
    /// in seconds.
    ///
    /// For each key under which a look-up at some moment finds that row, this leaves the same cache
    /// as that look-up does.
    pub fn count_hit<S: Segment>(&mut self, seg: &mut S, at: u32, t: u64)
        requires stand { CacheStands S.WordsIn self.old seg.old }
        requires there { has_place at (cache_of self.old).rows ≡ true }
        ensures cache { (key : List ℕ) (seen : ℕ) (row : Row)
            → live_row key seen (cache_of self.old) ≡ Some row → row.place ≡ at
            → cache_of self.new ≡ looked_up key t (Some row) (cache_of self.old) }
        ensures used { cache_of self.new ≡ used_at at t (cache_of self.old) }
        ensures step { IsStep S.WordsIn self.old self.new seg.old seg.new }
        ensures beside { KeptBeside S.WordsIn seg.old seg.new }
    {
        standing_laws();
        self.slots.touch(seg, at, t);
        self.cache_counts = self.cache_counts.after_hit();
    }

    /// Counts `n` look-ups that found no row. The counter of misses stops at its maximum.
    pub fn count_misses(&mut self, n: u64)
        ensures cache { cache_of self.new ≡ with_misses n (cache_of self.old) }
        ensures slots { self.new.slots ≡ self.old.slots }
    {
        self.cache_counts = self.cache_counts.after_misses(n);
    }

    /// Counts look-ups of the moment `t`, in seconds, that were answered before: for each of these
    /// places a hit and a use of its row, and the given number of misses.
    ///
    /// If look-ups of some keys find the rows at these places, and those of as many others as there
    /// are misses find none, this leaves the same cache as fetches of all these keys, one after the
    /// other.
    pub fn count_uses<S: Segment>(&mut self, seg: &mut S, places: &[u32], misses: u64, t: u64)
        requires stand { CacheStands S.WordsIn self.old seg.old }
        requires there { (i : ℕ) → i < length places.now
            → has_place (slice_index places.now i) (cache_of self.old).rows ≡ true }
        ensures counted { (keys missed : List (List ℕ))
            → AreFoundAt keys t (cache_of self.old) places.now
            → AreMissed missed t (cache_of self.old) → length missed ≡ misses
            → cache_of self.new ≡ fetched missed t (fetched keys t (cache_of self.old)) }
        ensures step { IsStep S.WordsIn self.old self.new seg.old seg.new }
        ensures beside { KeptBeside S.WordsIn seg.old seg.new }
    {
        for i in 0..places.len() {
            self.count_hit(seg, places[i], t);
        }
        self.count_misses(misses);
    }
}
