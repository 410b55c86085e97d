//! The place of a key's row in its chain. One walk finds it, and the calls that change the chain
//! there do not walk again.

ghost use Rattle.std.specs.Prelude.{◌≡◌, ◌≢◌, ◌⊎◌, ℕ, ◌+◌, ◌<◌, ◌^◌, ◌||◌, true};
ghost use Rattle.std.specs.Prelude.{List, length, slice_index, Contains};
ghost use Rattle.entry_slots.specs.declared.head.TheConstants.{NEXT};
ghost use Rattle.std.specs.List.{list_any};
ghost use Rattle.seg_words.specs.Kept.{Kept, KeptBeside};
ghost use Rattle.php_graph.specs.Numbers.{hash_of};
ghost use Rattle.apcu_model.specs.Expiry.{is_expired};
ghost use Rattle.apcu_model.specs.SlotOrder.{slot_of};
ghost use Rattle.entry_slots.specs.Lists.{has_place};
ghost use Rattle.entry_slots.specs.Entries.{chain_of, block_for};
ghost use Rattle.entry_slots.specs.Entries.{linked, unlinked_at};
ghost use Rattle.entry_slots.specs.Standing.{Stand, IsStanding, entries};
ghost use Rattle.entry_slots.specs.Spots.{IsSpot, IsSpotOf};
ghost use Rattle.php_graph.specs.Graph.{IsGraph};
ghost use Rattle.value_image.specs.Contained.{graph_of};

use crate::head::NEXT;
use crate::keys::slot_in;
use crate::lower::lower_laws;
use crate::reading::{count_after, next_of, soonest_after};
use crate::slots::EntrySlots;
use crate::standing::Change;
use crate::writing::{NewHead, put_entry};
use php_graph::hash_of;
use seg_words::{Segment, WordsIn};
use value_image::Content;

/// The place of a key's row in the chain of its slot, or the end of the chain if no row has the
/// key. It is valid until a row of the chain is added or removed.
#[derive(Clone, Copy, Debug)]
pub struct Spot {
    /// The slot of the key.
    pub slot: u32,
    /// The word that names the row; if no row has the key, the last word of the chain.
    pub link: u32,
    /// The place of the row's block; 0 if no row has the key.
    pub at: u32,
    /// Whether a row before it in the chain was expired at the moment of the walk.
    pub stale: bool,
}

// Whether one of the two is true.
fn either(one: bool, other: bool) -> bool
    ensures { result ≡ (one || other) }
{
    one || other
}

impl EntrySlots {
    /// The slot of a key. It computes the key's hash: call it once, or `slot_of_hash` if the hash
    /// is known.
    pub fn slot_of_key(&self, key: &[u8]) -> u32
        requires stand { IsStanding self.now }
        ensures slot { result ≡ slot_of (entries self.now).conf key.now }
    {
        self.slot_of_hash(hash_of(key))
    }

    /// The slot of a key that has this hash.
    pub fn slot_of_hash(&self, hash: u64) -> u32
        requires stand { IsStanding self.now }
        ensures slot { (key : List ℕ) → hash ≡ hash_of key
            → result ≡ slot_of (entries self.now).conf key }
    {
        slot_in(hash, self.sma.bounds.from)
    }

    /// Finds the row of the key by one walk along the chain of its slot, which ends at that row.
    /// `limit` is the cache's ttl.
    pub fn seek<S: WordsIn>(&self, seg: &mut S, key: &[u8], slot: u32, limit: u32, t: u64) -> Spot
        requires short { length key.now < 2 ^ 32 }
        requires stand { Stand S.WordsIn self.now seg.old }
        requires slot { slot ≡ slot_of (entries self.now).conf key.now }
        requires limit { limit ≡ (entries self.now).conf.ttl }
        ensures spot { IsSpotOf (entries self.now) key.now t result }
        ensures kept { Kept S.WordsIn seg.old seg.new }
    {
        let mut link = slot;
        let mut at = self.first_in(seg, slot);
        let mut stale = false;
        for _passed in 0..self.count {
            if at == 0 {
                return Spot {
                    slot,
                    link,
                    at,
                    stale,
                };
            }
            if self.key_is(seg, at, key) {
                return Spot {
                    slot,
                    link,
                    at,
                    stale,
                };
            }
            let over = self.is_row_expired(seg, at, limit, t);
            stale = either(stale, over);
            link = at + NEXT;
            at = next_of(seg, at);
        }
        Spot {
            slot,
            link,
            at: 0,
            stale,
        }
    }

    /// Whether a row of the chain is expired. It continues the walk that found the spot: the rows
    /// before it are not read again. No row is read if none can be expired yet.
    pub fn has_expired<S: WordsIn>(&self, seg: &mut S, spot: Spot, limit: u32, t: u64) -> bool
        requires stand { Stand S.WordsIn self.now seg.old }
        requires spot { IsSpot (entries self.now) t spot }
        requires limit { limit ≡ (entries self.now).conf.ttl }
        ensures expired { result ≡ list_any (is_expired (entries self.now).conf t)
            (chain_of (entries self.now) spot.slot) }
        ensures kept { Kept S.WordsIn seg.old seg.new }
    {
        if t <= self.soonest {
            return false;
        }
        if spot.stale {
            return true;
        }
        let mut at = spot.at;
        for _passed in 0..self.count {
            if at == 0 {
                return false;
            }
            if self.is_expired(seg, at, limit, t) {
                return true;
            }
            at = next_of(seg, at);
        }
        false
    }

    // The row after the one at the place of a spot; 0 after the place 0.
    fn behind_spot<S: Segment>(&self, seg: &mut S, at: u32) -> u32
        requires stand { Stand S.WordsIn self.now seg.old }
        requires there { (at ≡ 0) ⊎ (has_place at (entries self.now).rows ≡ true) }
        ensures next { at ≢ 0 → result ≡ slice_index (S.words seg.old) (at + NEXT) }
        ensures none { at ≡ 0 → result ≡ 0 }
        ensures kept { Kept S.WordsIn seg.old seg.new }
    {
        if at == 0 {
            return 0;
        }
        next_of(seg, at)
    }

    /// Makes the block at `at`, which was taken for this key and content, a row of the moment `t`,
    /// as `link` does: it replaces the row at the spot, whose block is loose from now on, or is
    /// last if there is none.
    pub fn link_at<S: Segment>(
        &mut self,
        seg: &mut S,
        at: u32,
        key: &[u8],
        content: &Content<'_>,
        ttl: u32,
        t: u64,
        spot: Spot,
    )
        requires short { length key.now < 2 ^ 32 }
        requires graph { IsGraph (graph_of content.now) }
        requires stand { Stand S.WordsIn self.old seg.old }
        requires taken { Contains (entries self.old).taken
            (block_for at key.now (graph_of content.now)) }
        requires spot { IsSpotOf (entries self.old) key.now t spot }
        ensures linked { entries self.new
            ≡ linked at key.now (graph_of content.now) ttl t (entries self.old) }
        ensures stand { Stand S.WordsIn self.new seg.new }
        ensures beside { KeptBeside S.WordsIn seg.old seg.new }
    {
        lower_laws();
        let new_head = NewHead {
            next: self.behind_spot(seg, spot.at),
            ttl,
            now: t,
            number: self.next_number,
        };
        put_entry(seg, at, key, content, new_head);
        seg.store(spot.link, u64::from(at));
        self.next_number = self.next_number.saturating_add(1);
        self.count = count_after(self.count, spot.at);
        self.soonest = self.soonest_with(ttl, t);
        self.standing = self.standing.then(&Change::Link(at, key, content, ttl, t));
    }

    /// Takes the row at the spot out of its chain, as `unlink` does. Its block is loose from now
    /// on.
    pub fn unlink_at<S: Segment>(&mut self, seg: &mut S, spot: Spot)
        requires stand { Stand S.WordsIn self.old seg.old }
        requires spot { (t : ℕ) × IsSpot (entries self.old) t spot }
        requires there { has_place spot.at (entries self.old).rows ≡ true }
        ensures unlinked { entries self.new ≡ unlinked_at spot.at (entries self.old) }
        ensures stand { Stand S.WordsIn self.new seg.new }
        ensures beside { KeptBeside S.WordsIn seg.old seg.new }
    {
        lower_laws();
        let next = self.behind_spot(seg, spot.at);
        seg.store(spot.link, u64::from(next));
        self.count -= 1;
        self.soonest = soonest_after(self.count, self.soonest);
        self.standing = self.standing.then(&Change::Unlink(spot.at));
    }
}
