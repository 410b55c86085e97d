//! Look-ups.

ghost use Rattle.std.specs.Prelude.{◌≡◌, ◌<◌, ◌^◌, true, false, length, None};
ghost use Rattle.std.specs.Prelude.{is_some, IfSome, IfNone};
ghost use Rattle.seg_words.specs.Kept.{Kept, KeptBeside};
ghost use Rattle.apcu_model.specs.Cache.{Row};
ghost use Rattle.apcu_model.specs.Expiry.{live_row};
ghost use Rattle.apcu_model.specs.declared.request.Request.TheVariants.{Fetch};
ghost use Rattle.apcu_model.specs.Sequential.{found_in};
ghost use Rattle.apcu_model.specs.SlotOrder.{slot_of};
ghost use Rattle.entry_slots.specs.Spots.{IsSpot, IsSpotOf};
ghost use Rattle.entry_slots.specs.Standing.{entries};
ghost use Rattle.cache_core.specs.CoreCache.{cache_of, CacheStands};
ghost use Rattle.cache_core.specs.Events.{Does};
ghost use Rattle.cache_core.specs.Looking.{look_at, look_of, scalar_of, IsFound, IsRowOf};

use crate::cache::Core;
use crate::finding::find_live_in;
use crate::scalar::{Look, Scalar, read_scalar};
use entry_slots::{Spot, standing_laws};
use seg_words::{Segment, WordsIn};

// The result of a look-up that found the row at a place with this value.
fn answer(at: u32, scalar: Option<Scalar>) -> Look
    ensures { result ≡ look_at at scalar }
{
    match scalar {
        Some(scalar) => Look::Scalar(scalar),
        None => Look::Hit(at),
    }
}

impl Core {
    // The place of the row that a look-up of the key finds; `slot` is that of the key.
    pub(crate) fn find_live<S: WordsIn>(
        &self,
        seg: &mut S,
        key: &[u8],
        slot: u32,
        t: u64,
    ) -> Option<u32>
        requires short { length key.now < 2 ^ 32 }
        requires slot { slot ≡ slot_of self.now.conf key.now }
        requires stand { CacheStands S.WordsIn self.now seg.old }
        ensures found { IfSome result (λ at. IsFound key.now t (cache_of self.now) at) }
        ensures none { IfNone result (live_row key.now t (cache_of self.now) ≡ None) }
        ensures kept { Kept S.WordsIn seg.old seg.new }
    {
        find_live_in(self.finder(), seg, key, slot, t)
    }

    // The value of the key's row, which is at `at`, if it is null, a boolean or an integer. No
    // other word of the row is read.
    pub(crate) fn scalar_at<S: WordsIn>(&self, seg: &mut S, key: &[u8], at: u32) -> Option<Scalar>
        requires short { length key.now < 2 ^ 32 }
        requires stand { CacheStands S.WordsIn self.now seg.old }
        requires there { (row : Row) × IsRowOf (cache_of self.now) key.now at row }
        ensures scalar { (row : Row) → IsRowOf (cache_of self.now) key.now at row
            → result ≡ scalar_of row.graph }
        ensures kept { Kept S.WordsIn seg.old seg.new }
    {
        let image = self.slots.image_at(seg, at, key.len() as u32);
        read_scalar(seg, image)
    }

    // The spot of the key's row or of a new one, and whether a look-up finds it; `slot` is that of
    // the key.
    fn seek_row<S: WordsIn>(&self, seg: &mut S, key: &[u8], slot: u32, t: u64) -> (Spot, bool)
        requires short { length key.now < 2 ^ 32 }
        requires slot { slot ≡ slot_of self.now.conf key.now }
        requires stand { CacheStands S.WordsIn self.now seg.old }
        ensures spot { IsSpotOf (entries self.now.slots) key.now t result.0 }
        ensures found { result.1 ≡ true
            → IsFound key.now t (cache_of self.now) result.0.at }
        ensures none { result.1 ≡ false → live_row key.now t (cache_of self.now) ≡ None }
        ensures kept { Kept S.WordsIn seg.old seg.new }
    {
        standing_laws();
        let spot = self.slots.seek(seg, key, slot, self.conf.ttl, t);
        if spot.at == 0 {
            return (spot, false);
        }
        if self.slots.is_hard_expired(seg, spot.at, t) {
            return (spot, false);
        }
        (spot, true)
    }

    // The spot of the row that a look-up of the key finds; `slot` is that of the key.
    pub(crate) fn find_spot<S: WordsIn>(
        &self,
        seg: &mut S,
        key: &[u8],
        slot: u32,
        t: u64,
    ) -> Option<Spot>
        requires short { length key.now < 2 ^ 32 }
        requires slot { slot ≡ slot_of self.now.conf key.now }
        requires stand { CacheStands S.WordsIn self.now seg.old }
        ensures found { IfSome result (λ spot.
            IsFound key.now t (cache_of self.now) spot.at) }
        ensures spot { IfSome result (λ spot. IsSpot (entries self.now.slots) t spot) }
        ensures none { IfNone result (live_row key.now t (cache_of self.now) ≡ None) }
        ensures kept { Kept S.WordsIn seg.old seg.new }
    {
        let (spot, is_live) = self.seek_row(seg, key, slot, t);
        if is_live { Some(spot) } else { None }
    }

    // The spot of a new row of the key, unless a look-up finds one; `slot` is that of the key.
    pub(crate) fn new_spot<S: WordsIn>(
        &self,
        seg: &mut S,
        key: &[u8],
        slot: u32,
        t: u64,
    ) -> Option<Spot>
        requires short { length key.now < 2 ^ 32 }
        requires slot { slot ≡ slot_of self.now.conf key.now }
        requires stand { CacheStands S.WordsIn self.now seg.old }
        ensures spot { IfSome result (λ spot.
            IsSpotOf (entries self.now.slots) key.now t spot) }
        ensures some { IfSome result (λ spot. live_row key.now t (cache_of self.now) ≡ None) }
        ensures none { IfNone result (is_some (live_row key.now t (cache_of self.now)) ≡ true) }
        ensures kept { Kept S.WordsIn seg.old seg.new }
    {
        let (spot, is_live) = self.seek_row(seg, key, slot, t);
        if is_live { None } else { Some(spot) }
    }

    /// Whether a look-up of the key at the moment `t`, in seconds, finds a row. Nothing is counted.
    pub fn exists<S: WordsIn>(&self, seg: &mut S, key: &[u8], t: u64) -> bool
        requires short { length key.now < 2 ^ 32 }
        requires stand { CacheStands S.WordsIn self.now seg.old }
        ensures found { result ≡ is_some (live_row key.now t (cache_of self.now)) }
        ensures kept { Kept S.WordsIn seg.old seg.new }
    {
        let slot = self.slot_of_key(key);
        self.exists_in(seg, key, slot, t)
    }

    /// The same; `slot` is that of the key.
    pub fn exists_in<S: WordsIn>(&self, seg: &mut S, key: &[u8], slot: u32, t: u64) -> bool
        requires short { length key.now < 2 ^ 32 }
        requires slot { slot ≡ slot_of self.now.conf key.now }
        requires stand { CacheStands S.WordsIn self.now seg.old }
        ensures found { result ≡ is_some (live_row key.now t (cache_of self.now)) }
        ensures kept { Kept S.WordsIn seg.old seg.new }
    {
        self.find_live(seg, key, slot, t).is_some()
    }

    /// Looks a key up at the moment `t`, in seconds, as `apcu_fetch` does: a row that is found is
    /// used and counts a hit, otherwise a miss is counted. A hard expired row is not found; one
    /// that is only soft expired is found, and is not expired any more.
    pub fn look<S: Segment>(&mut self, seg: &mut S, key: &[u8], t: u64) -> Look
        requires short { length key.now < 2 ^ 32 }
        requires stand { CacheStands S.WordsIn self.old seg.old }
        ensures look { result ≡ look_of (live_row key.now t (cache_of self.old)) }
        ensures does { Does S.WordsIn self.old self.new seg.old seg.new t
            (Fetch key.now) (found_in (live_row key.now t (cache_of self.old))) }
        ensures beside { KeptBeside S.WordsIn seg.old seg.new }
    {
        let slot = self.slot_of_key(key);
        self.look_in(seg, key, slot, t)
    }

    /// The same; `slot` is that of the key.
    pub fn look_in<S: Segment>(&mut self, seg: &mut S, key: &[u8], slot: u32, t: u64) -> Look
        requires short { length key.now < 2 ^ 32 }
        requires slot { slot ≡ slot_of self.old.conf key.now }
        requires stand { CacheStands S.WordsIn self.old seg.old }
        ensures look { result ≡ look_of (live_row key.now t (cache_of self.old)) }
        ensures does { Does S.WordsIn self.old self.new seg.old seg.new t
            (Fetch key.now) (found_in (live_row key.now t (cache_of self.old))) }
        ensures beside { KeptBeside S.WordsIn seg.old seg.new }
    {
        standing_laws();
        let Some(at) = self.find_live(seg, key, slot, t) else {
            self.cache_counts = self.cache_counts.after_miss();
            return Look::Miss;
        };
        let scalar = self.scalar_at(seg, key, at);
        self.slots.touch(seg, at, t);
        self.cache_counts = self.cache_counts.after_hit();
        answer(at, scalar)
    }
}
