//! Deleting and clearing.

ghost use Rattle.std.specs.Prelude.{◌≡◌, ◌<◌, ◌^◌, true, false, length};
ghost use Rattle.apcu_model.specs.declared.request.Request.TheVariants.{Delete, Clear};
ghost use Rattle.apcu_model.specs.declared.request.Reply.TheVariants.{Flag};
ghost use Rattle.apcu_model.specs.SlotOrder.{slot_of};
ghost use Rattle.cache_core.specs.Events.{MayDrop, Does, IsUnchanged};

use crate::cache::Core;
use crate::cache_counts::CacheCounts;
use crate::lower::lower_laws;
use seg_words::Segment;
use ttl_expunge::{drop_row_at, expunge_at_once};

impl Core {
    /// Deletes the row that a look-up of the key at the moment `t`, in seconds, finds, and returns
    /// whether it found one. If there is none, nothing changes: an expired row stays.
    pub fn delete<S: Segment>(&mut self, seg: &mut S, key: &[u8], t: u64) -> bool
        requires short { length key.now < 2 ^ 32 }
        requires ready { MayDrop S.WordsIn self.old seg.old }
        ensures does { Does S.WordsIn self.old self.new seg.old seg.new t
            (Delete key.now) (Flag result) }
        ensures none { result ≡ false → IsUnchanged S.WordsIn self.old self.new seg.old seg.new }
    {
        let slot = self.slot_of_key(key);
        self.delete_in(seg, key, slot, t)
    }

    /// The same; `slot` is that of the key.
    pub fn delete_in<S: Segment>(&mut self, seg: &mut S, key: &[u8], slot: u32, t: u64) -> bool
        requires short { length key.now < 2 ^ 32 }
        requires slot { slot ≡ slot_of self.old.conf key.now }
        requires ready { MayDrop S.WordsIn self.old seg.old }
        ensures does { Does S.WordsIn self.old self.new seg.old seg.new t
            (Delete key.now) (Flag result) }
        ensures none { result ≡ false → IsUnchanged S.WordsIn self.old self.new seg.old seg.new }
    {
        lower_laws();
        let Some(spot) = self.find_spot(seg, key, slot, t) else {
            return false;
        };
        drop_row_at(&mut self.slots, seg, spot, t);
        true
    }

    /// Drops all rows at the moment `t`, and sets all counters to 0.
    pub fn clear<S: Segment>(&mut self, seg: &mut S, t: u64)
        requires { MayDrop S.WordsIn self.old seg.old }
        ensures { Does S.WordsIn self.old self.new seg.old seg.new t Clear (Flag true) }
    {
        lower_laws();
        expunge_at_once(&mut self.slots, seg, t);
        self.cache_counts = CacheCounts::new();
    }
}
