//! Rows that are dropped by a rule, chain by chain.

ghost use Rattle.std.specs.Prelude.{◌≡◌, ℕ, ◌+◌, ◌<◌, if◌then◌else◌, true, filter, Contains};
ghost use Rattle.seg_words.specs.Kept.{Kept};
ghost use Rattle.apcu_model.specs.Cache.{Row};
ghost use Rattle.apcu_model.specs.Change.{leaving};
ghost use Rattle.entry_slots.specs.declared.head.TheConstants.{NEXT};
ghost use Rattle.entry_slots.specs.Lists.{has_place, only_at};
ghost use Rattle.entry_slots.specs.Entries.{chain_of};
ghost use Rattle.entry_slots.specs.Spots.{IsSpot};
ghost use Rattle.ttl_expunge.specs.Dropping.{all_rows, expired_rows, expired_in};
ghost use Rattle.ttl_expunge.specs.DropRules.{is_to_drop};
ghost use Rattle.ttl_expunge.specs.declared.chains.DropRule.TheVariants.{Expired};
ghost use Rattle.entry_slots.specs.Standing.{Stand, entries};
ghost use Rattle.ttl_expunge.specs.Steps.{MayDropRows, DropsRows};

use crate::expunge::drop_row_at;
use entry_slots::{EntrySlots, NEXT, Spot, standing_laws};
use seg_words::{Segment, WordsIn};

/// Which rows are dropped.
#[derive(Clone, Copy, Debug)]
pub(crate) enum DropRule {
    /// All.
    All,
    /// The expired ones. The number is how long a row without a ttl of its own may be unused.
    Expired(u32),
}

// Whether the row at `at` is dropped. It reads only what decides that.
fn is_dropped<S: Segment>(slots: &EntrySlots, seg: &mut S, at: u32, rule: DropRule, t: u64) -> bool
    requires stand { Stand S.WordsIn slots.now seg.old }
    requires there { has_place at (entries slots.now).rows ≡ true }
    requires limit { (ttl : ℕ) → rule ≡ Expired ttl → ttl ≡ (entries slots.now).conf.ttl }
    ensures dropped { (row : Row) → Contains (entries slots.now).rows row → row.place ≡ at
        → result ≡ is_to_drop rule t row }
    ensures kept { Kept S.WordsIn seg.old seg.new }
{
    match rule {
        DropRule::All => true,
        DropRule::Expired(limit) => slots.is_expired(seg, at, limit, t),
    }
}

// Drops the row at the spot, if the rule says so, and then returns the word that is the place of
// the next row.
fn drop_if<S: Segment>(
    slots: &mut EntrySlots,
    seg: &mut S,
    spot: Spot,
    rule: DropRule,
    t: u64,
) -> u32
    requires ready { MayDropRows S.WordsIn slots.old seg.old }
    requires spot { (now : ℕ) × IsSpot (entries slots.old) now spot }
    requires there { has_place spot.at (entries slots.old).rows ≡ true }
    requires limit { (ttl : ℕ) → rule ≡ Expired ttl → ttl ≡ (entries slots.old).conf.ttl }
    ensures drops { DropsRows S.WordsIn slots.old slots.new seg.old seg.new t
        (filter (is_to_drop rule t) (only_at spot.at (entries slots.old).rows)) }
    ensures link { (row : Row) → Contains (entries slots.old).rows row → row.place ≡ spot.at
        → result ≡ (if is_to_drop rule t row then spot.link else spot.at + NEXT) }
{
    standing_laws();
    if is_dropped(slots, seg, spot.at, rule, t) {
        drop_row_at(slots, seg, spot, t);
        spot.link
    } else {
        spot.at + NEXT
    }
}

// Drops such rows of one slot, each when the walk along the chain reaches it.
fn drop_chain<S: Segment>(slots: &mut EntrySlots, seg: &mut S, slot: u32, rule: DropRule, t: u64)
    requires ready { MayDropRows S.WordsIn slots.old seg.old }
    requires slot { slot < (entries slots.old).conf.slots }
    requires limit { (ttl : ℕ) → rule ≡ Expired ttl → ttl ≡ (entries slots.old).conf.ttl }
    ensures { DropsRows S.WordsIn slots.old slots.new seg.old seg.new t
        (filter (is_to_drop rule t) (chain_of (entries slots.old) slot)) }
{
    standing_laws();
    let mut link = slot;
    let mut at = slots.first_in(seg, slot);
    while at != 0 {
        let next = slots.after(seg, at);
        let spot = Spot {
            slot,
            link,
            at,
            stale: false,
        };
        link = drop_if(slots, seg, spot, rule, t);
        at = next;
    }
}

// Drops such rows of all slots.
fn drop_all<S: Segment>(slots: &mut EntrySlots, seg: &mut S, rule: DropRule, t: u64)
    requires ready { MayDropRows S.WordsIn slots.old seg.old }
    requires limit { (ttl : ℕ) → rule ≡ Expired ttl → ttl ≡ (entries slots.old).conf.ttl }
    ensures { DropsRows S.WordsIn slots.old slots.new seg.old seg.new t
        (leaving (entries slots.old).conf
        (filter (is_to_drop rule t) (entries slots.old).rows)) }
{
    standing_laws();
    let end = slots.slots();
    for slot in 0..end {
        drop_chain(slots, seg, slot, rule, t);
    }
}

/// Drops the expired rows of one slot; `ttl` is the cache's `apc.ttl`.
pub fn sweep_chain<S: Segment>(slots: &mut EntrySlots, seg: &mut S, slot: u32, ttl: u32, t: u64)
    requires ready { MayDropRows S.WordsIn slots.old seg.old }
    requires slot { slot < (entries slots.old).conf.slots }
    requires limit { ttl ≡ (entries slots.old).conf.ttl }
    ensures { DropsRows S.WordsIn slots.old slots.new seg.old seg.new t
        (expired_in t slot (entries slots.old)) }
{
    drop_chain(slots, seg, slot, DropRule::Expired(ttl), t);
}

/// Drops all expired rows, by slot and in the order of the chain.
pub fn expunge_expired<S: Segment>(slots: &mut EntrySlots, seg: &mut S, ttl: u32, t: u64)
    requires ready { MayDropRows S.WordsIn slots.old seg.old }
    requires limit { ttl ≡ (entries slots.old).conf.ttl }
    ensures { DropsRows S.WordsIn slots.old slots.new seg.old seg.new t
        (expired_rows t (entries slots.old)) }
{
    drop_all(slots, seg, DropRule::Expired(ttl), t);
}

/// Drops all rows, by slot and in the order of the chain.
pub fn expunge_all<S: Segment>(slots: &mut EntrySlots, seg: &mut S, t: u64)
    requires ready { MayDropRows S.WordsIn slots.old seg.old }
    ensures { DropsRows S.WordsIn slots.old slots.new seg.old seg.new t
        (all_rows (entries slots.old)) }
{
    drop_all(slots, seg, DropRule::All, t);
}
