//! Looking up a key without the cache, from what is known besides the words.

ghost use Rattle.std.specs.Prelude.{◌≡◌, ◌<◌, ◌^◌, length, None, IfSome, IfNone};
ghost use Rattle.seg_words.specs.Kept.{Kept};
ghost use Rattle.apcu_model.specs.Expiry.{live_row};
ghost use Rattle.cache_core.specs.declared.cache.Core.{Core};
ghost use Rattle.cache_core.specs.CoreCache.{cache_of};
ghost use Rattle.cache_core.specs.Finding.{FindsLive};
ghost use Rattle.cache_core.specs.Looking.{IsFound};

use entry_slots::{Finder, hard_expired_at, standing_laws};
use seg_words::WordsIn;

/// The place of the row that a look-up of the key at the moment `t`, in seconds, finds; `slot` is
/// that of the key. Nothing is counted, and no word is written.
pub fn find_live_in<S: WordsIn>(
    finder: Finder,
    seg: &mut S,
    key: &[u8],
    slot: u32,
    t: u64,
) -> Option<u32>
    requires short { length key.now < 2 ^ 32 }
    requires finds { (core : Core) × FindsLive S.WordsIn core finder seg.old key.now slot }
    ensures found { (core : Core) → FindsLive S.WordsIn core finder seg.old key.now slot
        → IfSome result (λ at. IsFound key.now t (cache_of core) at) }
    ensures none { (core : Core) → FindsLive S.WordsIn core finder seg.old key.now slot
        → IfNone result (live_row key.now t (cache_of core) ≡ None) }
    ensures kept { Kept S.WordsIn seg.old seg.new }
{
    standing_laws();
    let Some(at) = finder.find(seg, key, slot) else {
        return None;
    };
    if hard_expired_at(seg, at, t) {
        return None;
    }
    Some(at)
}
