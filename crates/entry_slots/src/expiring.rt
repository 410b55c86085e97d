//! The moment up to which no row is expired: until then no chain is walked in search of one.

ghost use Rattle.std.specs.Prelude.{◌≡◌, ℕ, ◌<◌, ◌≤◌, true, false, Contains};
ghost use Rattle.std.specs.List.{list_any};
ghost use Rattle.seg_words.specs.Kept.{Kept};
ghost use Rattle.apcu_model.specs.declared.conf.Conf.{Conf};
ghost use Rattle.apcu_model.specs.Cache.{Row};
ghost use Rattle.apcu_model.specs.Expiry.{is_expired};
ghost use Rattle.entry_slots.specs.Lists.{has_place};
ghost use Rattle.entry_slots.specs.Entries.{IsListed, chain_of, listed};
ghost use Rattle.entry_slots.specs.Standing.{Stand, IsStanding, entries};

use crate::head::{ATIME, CTIME, TTL, passes_after};
use crate::reading::next_of;
use crate::slots::EntrySlots;
use seg_words::WordsIn;

impl EntrySlots {
    // The moment up to which no row is expired, after one with this time to live was stored at the
    // moment `t`.
    pub(crate) fn soonest_with(&self, ttl: u32, t: u64) -> u64
        ensures low { result ≤ self.now.soonest }
        ensures unexpired { (conf : Conf) (row : Row) (now : ℕ) → self.now.limit ≡ conf.ttl
            → row.ttl ≡ ttl → row.ctime ≡ t → row.atime ≡ t
            → now ≤ result → is_expired conf now row ≡ false }
    {
        let limit = if ttl > 0 { ttl } else { self.limit };
        passes_after(self.soonest, u64::from(limit), t)
    }

    /// Whether it is known, without reading a row, that none is expired at the moment `t`.
    pub fn knows_none_expired(&self, t: u64) -> bool
        requires stand { IsStanding self.now }
        ensures none { result ≡ true → (row : Row) → Contains (entries self.now).rows row
            → is_expired (entries self.now).conf t row ≡ false }
    {
        t <= self.soonest
    }

    // Whether the row at a place is expired. It is read only if any row may be.
    pub(crate) fn is_row_expired<S: WordsIn>(
        &self,
        seg: &mut S,
        at: u32,
        limit: u32,
        t: u64,
    ) -> bool
        requires stand { Stand S.WordsIn self.now seg.old }
        requires there { has_place at (entries self.now).rows ≡ true }
        requires limit { limit ≡ (entries self.now).conf.ttl }
        ensures expired { (row : Row) → Contains (entries self.now).rows row → row.place ≡ at
            → result ≡ is_expired (entries self.now).conf t row }
        ensures kept { Kept S.WordsIn seg.old seg.new }
    {
        if t <= self.soonest {
            return false;
        }
        self.is_expired(seg, at, limit, t)
    }

    // The last moment, but none after `soonest`, up to which the entry at a place is not expired.
    fn expires_after<S: WordsIn>(&self, seg: &mut S, at: u32, soonest: u64) -> u64
        requires stand { Stand S.WordsIn self.now seg.old }
        requires there { has_place at (listed (entries self.now)) ≡ true }
        ensures low { result ≤ soonest }
        ensures unexpired { (row : Row) (now : ℕ) → IsListed (entries self.now) at row
            → now ≤ result → is_expired (entries self.now).conf now row ≡ false }
        ensures kept { Kept S.WordsIn seg.old seg.new }
    {
        let own = seg.load(at + TTL);
        if own > 0 {
            let ctime = seg.load(at + CTIME);
            return passes_after(soonest, own, ctime);
        }
        let atime = seg.load(at + ATIME);
        passes_after(soonest, u64::from(self.limit), atime)
    }

    // The last moment, but none after `soonest`, up to which no row of the slot is expired.
    fn soonest_in<S: WordsIn>(&self, seg: &mut S, slot: u32, soonest: u64) -> u64
        requires stand { Stand S.WordsIn self.now seg.old }
        requires slot { slot < (entries self.now).conf.slots }
        ensures low { result ≤ soonest }
        ensures unexpired { (now : ℕ) → now ≤ result → list_any
            (is_expired (entries self.now).conf now) (chain_of (entries self.now) slot) ≡ false }
        ensures kept { Kept S.WordsIn seg.old seg.new }
    {
        let mut last = soonest;
        let mut at = self.first_in(seg, slot);
        for _passed in 0..self.count {
            if at == 0 {
                return last;
            }
            last = self.expires_after(seg, at, last);
            at = next_of(seg, at);
        }
        last
    }

    /// Finds by a walk over all rows up to which moment none of them expires. The removal of rows
    /// alone does not raise that moment, unless no row is left.
    pub fn note_soonest<S: WordsIn>(&mut self, seg: &mut S)
        requires stand { Stand S.WordsIn self.old seg.old }
        ensures same { entries self.new ≡ entries self.old }
        ensures stand { Stand S.WordsIn self.new seg.new }
        ensures kept { Kept S.WordsIn seg.old seg.new }
    {
        let mut soonest = u64::MAX;
        for slot in 0..self.sma.bounds.from {
            soonest = self.soonest_in(seg, slot, soonest);
        }
        self.soonest = soonest;
    }
}
