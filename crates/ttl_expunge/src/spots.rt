//! The spot of a key in its chain, after the expired rows were dropped from it.

ghost use Rattle.std.specs.Prelude.{◌≡◌, ◌<◌, ◌^◌, length};
ghost use Rattle.apcu_model.specs.SlotOrder.{slot_of};
ghost use Rattle.entry_slots.specs.Spots.{IsSpotOf};
ghost use Rattle.entry_slots.specs.Standing.{entries};
ghost use Rattle.ttl_expunge.specs.Dropping.{expired_in};
ghost use Rattle.ttl_expunge.specs.Steps.{MayDropRows, DropsRows};

use crate::chains::sweep_chain;
use entry_slots::{EntrySlots, Spot, standing_laws};
use seg_words::Segment;

/// Drops the expired rows of a key's slot, and finds the key's row or the end of its chain. It
/// takes one walk along the chain, and another one if a row was dropped. `limit` is the cache's
/// `apc.ttl`.
pub fn seek_swept<S: Segment>(
    slots: &mut EntrySlots,
    seg: &mut S,
    key: &[u8],
    slot: u32,
    limit: u32,
    t: u64,
) -> Spot
    requires ready { MayDropRows S.WordsIn slots.old seg.old }
    requires short { length key.now < 2 ^ 32 }
    requires slot { slot ≡ slot_of (entries slots.old).conf key.now }
    requires limit { limit ≡ (entries slots.old).conf.ttl }
    ensures swept { DropsRows S.WordsIn slots.old slots.new seg.old seg.new t
        (expired_in t slot (entries slots.old)) }
    ensures spot { IsSpotOf (entries slots.new) key.now t result }
{
    standing_laws();
    let spot = slots.seek(seg, key, slot, limit, t);
    if !slots.has_expired(seg, spot, limit, t) {
        return spot;
    }
    sweep_chain(slots, seg, slot, limit, t);
    slots.seek(seg, key, slot, limit, t)
}
