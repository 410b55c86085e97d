//! How many blocks of one size would still fit.

ghost use Rattle.std.specs.Prelude.{◌≡◌, ◌%◌, ◌≤◌};
ghost use Rattle.apcu_model.specs.Infos.{gaps_of};
ghost use Rattle.cache_core.specs.CoreCache.{cache_of, CacheStands};
ghost use Rattle.cache_core.specs.Events.{IsUnchanged};
ghost use Rattle.seg_report.specs.Fits.{HasRoomFor, blocks_in};

use crate::gaps::count_gaps;
use cache_core::Core;
use seg_words::{WordsIn, fit_laws};

/// How many blocks of `n` words can be taken one after the other, until none fits any more. Nothing
/// changes.
///
/// Each is taken at the lowest place where it fits inside one segment, so the number is the sum
/// over the free runs, each divided separately. It takes time in proportion to the gaps, and no
/// memory.
pub fn fits<S: WordsIn>(core: &mut Core, seg: &mut S, n: u32) -> u32
    requires size { (n % 2 ≡ 0) × (2 ≤ n) }
    requires stand { CacheStands S.WordsIn core.old seg.old }
    ensures runs { result ≡ blocks_in n (gaps_of (cache_of core.old)) }
    ensures most { HasRoomFor n result (cache_of core.old) }
    ensures same { IsUnchanged S.WordsIn core.old core.new seg.old seg.new }
{
    fit_laws();
    let (blocks, _gaps) = count_gaps(core.slots().sma(), seg, n);
    blocks
}
