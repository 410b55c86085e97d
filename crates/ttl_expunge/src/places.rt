//! Rows dropped by their places.

ghost use Rattle.std.specs.Prelude.{List};
ghost use Rattle.apcu_model.specs.Cache.{Row};
ghost use Rattle.entry_slots.specs.Standing.{entries};
ghost use Rattle.ttl_expunge.specs.Lists.{AreRowsAt};
ghost use Rattle.ttl_expunge.specs.Steps.{MayDropRows, DropsRows};

use crate::expunge::drop_row;
use entry_slots::{EntrySlots, standing_laws};
use seg_words::Segment;

/// Drops the rows at these places, one after the other, as `drop_row` does.
pub fn drop_rows<S: Segment>(slots: &mut EntrySlots, seg: &mut S, places: &[u32], t: u64)
    requires ready { MayDropRows S.WordsIn slots.old seg.old }
    requires rows { (gone : List Row) × AreRowsAt (entries slots.old).rows places.now gone }
    ensures { (gone : List Row) → AreRowsAt (entries slots.old).rows places.now gone
        → DropsRows S.WordsIn slots.old slots.new seg.old seg.new t gone }
{
    standing_laws();
    for at in places {
        drop_row(slots, seg, *at, t);
    }
}
