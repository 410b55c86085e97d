//! The look-up with which counting and swapping begin.

ghost use Rattle.std.specs.Prelude.{◌≡◌, ◌<◌, ◌^◌, length};
ghost use Rattle.seg_words.specs.Kept.{Kept};
ghost use Rattle.apcu_model.specs.Expiry.{live_row};
ghost use Rattle.apcu_model.specs.SlotOrder.{slot_of};
ghost use Rattle.cache_core.specs.CoreCache.{cache_of, CacheStands};
ghost use Rattle.counter_entry.specs.Numbers.{found_at, found_of, integer_of};

use cache_core::{Core, Scalar};
use seg_words::WordsIn;

// What a look-up of a key finds.
#[derive(Clone, Copy)]
pub(crate) enum Found {
    // no row
    Nothing,
    // a row whose value is no integer
    Other,
    // the place of a row, and the integer that it holds
    Integer(u32, i64),
}

// Looks a key up at the moment t, without counting it as a use; `slot` is that of the key.
pub(crate) fn look_for<S: WordsIn>(core: &Core, seg: &mut S, key: &[u8], slot: u32, t: u64) -> Found
    requires short { length key.now < 2 ^ 32 }
    requires slot { slot ≡ slot_of core.now.conf key.now }
    requires stand { CacheStands S.WordsIn core.now seg.old }
    ensures found { result ≡ found_of (live_row key.now t (cache_of core.now)) }
    ensures kept { Kept S.WordsIn seg.old seg.new }
{
    let Some((at, scalar)) = core.peek_in(seg, key, slot, t) else {
        return Found::Nothing;
    };
    found_at(at, scalar)
}

// What was found at a place.
fn found_at(at: u32, scalar: Option<Scalar>) -> Found
    ensures { result ≡ found_at at (integer_of scalar) }
{
    match scalar {
        Some(Scalar::Int(n)) => Found::Integer(at, n),
        _ => Found::Other,
    }
}
