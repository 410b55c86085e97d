//! Replacing an integer that is the expected one, `apcu_cas`.

ghost use Rattle.std.specs.Prelude.{◌≡◌, ◌<◌, ◌^◌, false, length};
ghost use Rattle.seg_words.specs.Kept.{KeptBeside};
ghost use Rattle.apcu_model.specs.declared.request.Request.TheVariants.{Cas};
ghost use Rattle.apcu_model.specs.declared.request.Reply.TheVariants.{Flag};
ghost use Rattle.apcu_model.specs.SlotOrder.{slot_of};
ghost use Rattle.cache_core.specs.CoreCache.{cache_of, CacheStands};
ghost use Rattle.cache_core.specs.Events.{Does, IsUnchanged};
ghost use Rattle.cache_core.specs.Integers.{NameNoScalar};

use crate::looking::{Found, look_for};
use cache_core::Core;
use seg_words::{Segment, WordsIn};

/// Sets the integer under the key at the moment `t`, in seconds, if a look-up finds a row that
/// holds `expect`, and returns whether it did. It never makes a row, and counts neither a hit nor a
/// miss.
///
/// No window may name a row that holds null, a boolean or an integer.
pub fn cas<S: Segment>(
    core: &mut Core,
    seg: &mut S,
    key: &[u8],
    expect: i64,
    set: i64,
    t: u64,
) -> bool
    requires short { length key.now < 2 ^ 32 }
    requires stand { CacheStands S.WordsIn core.old seg.old }
    requires unnamed { NameNoScalar (S.aside seg.old).windows (cache_of core.old).rows }
    ensures does { Does S.WordsIn core.old core.new seg.old seg.new t
        (Cas key.now expect set) (Flag result) }
    ensures none { result ≡ false → IsUnchanged S.WordsIn core.old core.new seg.old seg.new }
    ensures beside { KeptBeside S.WordsIn seg.old seg.new }
{
    let slot = core.slot_of_key(key);
    cas_in(core, seg, key, slot, expect, set, t)
}

/// The same; `slot` is that of the key.
pub fn cas_in<S: Segment>(
    core: &mut Core,
    seg: &mut S,
    key: &[u8],
    slot: u32,
    expect: i64,
    set: i64,
    t: u64,
) -> bool
    requires short { length key.now < 2 ^ 32 }
    requires slot { slot ≡ slot_of core.old.conf key.now }
    requires stand { CacheStands S.WordsIn core.old seg.old }
    requires unnamed { NameNoScalar (S.aside seg.old).windows (cache_of core.old).rows }
    ensures does { Does S.WordsIn core.old core.new seg.old seg.new t
        (Cas key.now expect set) (Flag result) }
    ensures none { result ≡ false → IsUnchanged S.WordsIn core.old core.new seg.old seg.new }
    ensures beside { KeptBeside S.WordsIn seg.old seg.new }
{
    let Found::Integer(at, n) = look_for(core, seg, key, slot, t) else {
        return false;
    };
    if n != expect {
        return false;
    }
    core.set_int(seg, at, set, t);
    true
}
