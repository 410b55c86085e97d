//! A new row in a block that was taken for it.

ghost use Rattle.std.specs.Prelude.{◌≡◌, ◌<◌, ◌^◌, length, Contains};
ghost use Rattle.php_graph.specs.Graph.{IsGraph};
ghost use Rattle.value_image.specs.Contained.{graph_of};
ghost use Rattle.apcu_model.specs.SlotOrder.{slot_of};
ghost use Rattle.entry_slots.specs.Entries.{block_for};
ghost use Rattle.entry_slots.specs.Spots.{IsSpotOf};
ghost use Rattle.entry_slots.specs.Standing.{Stand, entries};
ghost use Rattle.ttl_expunge.specs.Dropping.{expired_in};
ghost use Rattle.ttl_expunge.specs.Steps.{MayDropRows, DropsRows};
ghost use Rattle.cache_core.specs.Placing.{Replaces, Puts};
ghost use Rattle.cache_core.specs.Spots.{IsSpotIfAny};

use crate::lower::lower_laws;
use entry_slots::{EntrySlots, Spot};
use seg_words::Segment;
use ttl_expunge::{is_let_go, seek_swept};
use value_image::Content;

// A new row in the block at `at` replaces the row of its key, which is dropped. That row, or the
// end of its chain, is at the spot.
fn replace<S: Segment>(
    slots: &mut EntrySlots,
    seg: &mut S,
    at: u32,
    key: &[u8],
    content: &Content<'_>,
    ttl: u32,
    t: u64,
    spot: Spot,
)
    requires ready { MayDropRows S.WordsIn slots.old seg.old }
    requires short { length key.now < 2 ^ 32 }
    requires graph { IsGraph (graph_of content.now) }
    requires taken { Contains (entries slots.old).taken
        (block_for at key.now (graph_of content.now)) }
    requires spot { IsSpotOf (entries slots.old) key.now t spot }
    ensures replaces { Replaces (entries slots.old) (entries slots.new)
        (S.aside seg.old) (S.aside seg.new) at key.now (graph_of content.now) ttl t }
    ensures stand { Stand S.WordsIn slots.new seg.new }
    ensures rest { S.rest seg.new ≡ S.rest seg.old }
{
    lower_laws();
    let old = spot.at;
    if old == 0 {
        slots.link_at(seg, at, key, content, ttl, t, spot);
        return;
    }
    let is_free = is_let_go(slots, seg, old);
    slots.link_at(seg, at, key, content, ttl, t, spot);
    if is_free {
        slots.free_unlinked(seg, old);
    } else {
        slots.to_removed(seg, old, t);
    }
}

// Drops the expired rows of a key's slot, and finds the spot of the key then. `spot` is its spot
// before the call, if that is known.
fn spot_swept<S: Segment>(
    slots: &mut EntrySlots,
    seg: &mut S,
    key: &[u8],
    slot: u32,
    spot: Option<Spot>,
    limit: u32,
    t: u64,
) -> Spot
    requires ready { MayDropRows S.WordsIn slots.old seg.old }
    requires short { length key.now < 2 ^ 32 }
    requires slot { slot ≡ slot_of (entries slots.old).conf key.now }
    requires spot { IsSpotIfAny (entries slots.old) key.now t spot }
    requires limit { limit ≡ (entries slots.old).conf.ttl }
    ensures swept { DropsRows S.WordsIn slots.old slots.new seg.old seg.new t
        (expired_in t slot (entries slots.old)) }
    ensures spot { IsSpotOf (entries slots.new) key.now t result }
{
    let Some(spot) = spot else {
        return seek_swept(slots, seg, key, slot, limit, t);
    };
    if !slots.has_expired(seg, spot, limit, t) {
        return spot;
    }
    seek_swept(slots, seg, key, slot, limit, t)
}

// A new row in the block at `at`, which was taken for it: the expired rows of its slot are dropped,
// and it replaces the row of its key. The spot of the key may have been found before. `limit` is
// the cache's ttl.
pub(crate) fn put_in<S: Segment>(
    slots: &mut EntrySlots,
    seg: &mut S,
    at: u32,
    key: &[u8],
    slot: u32,
    spot: Option<Spot>,
    content: &Content<'_>,
    ttl: u32,
    limit: u32,
    t: u64,
)
    requires ready { MayDropRows S.WordsIn slots.old seg.old }
    requires short { length key.now < 2 ^ 32 }
    requires slot { slot ≡ slot_of (entries slots.old).conf key.now }
    requires spot { IsSpotIfAny (entries slots.old) key.now t spot }
    requires limit { limit ≡ (entries slots.old).conf.ttl }
    requires graph { IsGraph (graph_of content.now) }
    requires taken { Contains (entries slots.old).taken
        (block_for at key.now (graph_of content.now)) }
    ensures puts { Puts (entries slots.old) (entries slots.new)
        (S.aside seg.old) (S.aside seg.new) at key.now (graph_of content.now) ttl t }
    ensures stand { Stand S.WordsIn slots.new seg.new }
    ensures rest { S.rest seg.new ≡ S.rest seg.old }
{
    lower_laws();
    let spot = spot_swept(slots, seg, key, slot, spot, limit, t);
    replace(slots, seg, at, key, content, ttl, t, spot);
}
