//! What a look-up reads of an entry: as few of its first words as it needs.

ghost use Rattle.std.specs.Prelude.{◌≡◌, true, length};
ghost use Rattle.seg_words.specs.Kept.{Kept};
ghost use Rattle.php_graph.specs.Size.{image_length};
ghost use Rattle.apcu_model.specs.Cache.{Row};
ghost use Rattle.apcu_model.specs.Expiry.{is_expired, is_hard_expired};
ghost use Rattle.entry_slots.specs.Lists.{has_place};
ghost use Rattle.entry_slots.specs.Entries.{IsListed, listed};
ghost use Rattle.entry_slots.specs.Reading.{ImageIn};
ghost use Rattle.entry_slots.specs.Standing.{Stand, entries};

use crate::head::{ATIME, CTIME, TTL, has_passed};
use crate::reading::hard_expired_at;
use crate::slots::EntrySlots;
use seg_words::{HEAD_WORDS, IMAGE_LENGTH, WordsIn, words_in};

impl EntrySlots {
    /// Whether the own ttl of the entry at a place has expired at the moment `t`, in seconds: a
    /// look-up does not find it. The moment of its creation is read only if it has a ttl.
    pub fn is_hard_expired<S: WordsIn>(&self, seg: &mut S, at: u32, t: u64) -> bool
        requires stand { Stand S.WordsIn self.now seg.old }
        requires there { has_place at (listed (entries self.now)) ≡ true }
        ensures over { (row : Row) → IsListed (entries self.now) at row
            → result ≡ is_hard_expired t row }
        ensures kept { Kept S.WordsIn seg.old seg.new }
    {
        hard_expired_at(seg, at, t)
    }

    /// Whether the own ttl of the entry at a place has expired at the moment `t` or, if it has
    /// none, it was not used for longer than `limit`, the cache's ttl, both in seconds. Only the
    /// moment that decides it is read.
    pub fn is_expired<S: WordsIn>(&self, seg: &mut S, at: u32, limit: u32, t: u64) -> bool
        requires stand { Stand S.WordsIn self.now seg.old }
        requires there { has_place at (listed (entries self.now)) ≡ true }
        requires limit { limit ≡ (entries self.now).conf.ttl }
        ensures expired { (row : Row) → IsListed (entries self.now) at row
            → result ≡ is_expired (entries self.now).conf t row }
        ensures kept { Kept S.WordsIn seg.old seg.new }
    {
        let own = seg.load(at + TTL);
        if own > 0 {
            let ctime = seg.load(at + CTIME);
            return has_passed(own, ctime, t);
        }
        if limit == 0 {
            return false;
        }
        let atime = seg.load(at + ATIME);
        has_passed(u64::from(limit), atime, t)
    }

    /// The place of the image of the entry at a place whose key has `key_len` bytes. No word is
    /// read.
    pub fn image_at<S: WordsIn>(&self, _seg: &S, at: u32, key_len: u32) -> u32
        requires stand { Stand S.WordsIn self.now _seg.now }
        requires there { has_place at (listed (entries self.now)) ≡ true }
        ensures image { (row : Row) → IsListed (entries self.now) at row
            → key_len ≡ length row.key → ImageIn S.WordsIn _seg.now result row }
    {
        at + HEAD_WORDS + words_in(key_len)
    }

    /// The length in words of the image of the entry at a place.
    pub fn image_len<S: WordsIn>(&self, seg: &mut S, at: u32) -> u32
        requires stand { Stand S.WordsIn self.now seg.old }
        requires there { has_place at (listed (entries self.now)) ≡ true }
        ensures len { (row : Row) → IsListed (entries self.now) at row
            → result ≡ image_length row.graph }
        ensures kept { Kept S.WordsIn seg.old seg.new }
    {
        seg.load(at + IMAGE_LENGTH) as u32
    }
}
