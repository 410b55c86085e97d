//! The map of the words.

ghost use Rattle.std.specs.Prelude.{◌≡◌, ℕ, ◌-◌, ◌++◌, false, OnOk, OnErr, sum_by};
ghost use Rattle.seg_words.specs.Windows.{is_named};
ghost use Rattle.notation.specs.Appending.{Extends};
ghost use Rattle.cache_core.specs.CoreCache.{cache_of, CacheStands};
ghost use Rattle.cache_core.specs.Events.{IsUnchanged};
ghost use Rattle.seg_report.specs.Lines.{map_text};
ghost use Rattle.seg_report.specs.Parts.{parts_of, size_of};

use crate::gaps::put_free;
use crate::parts::put_parts;
use cache_core::Core;
use notation::ByteOut;
use seg_words::WordsIn;
use std::alloc::{AllocError, Global};

/// Appends the map of the cache's words: the line `map`, a line for the block of each row and each
/// removed row and for each run of free words by rising place, all in words, and the sums over the
/// free runs. No window may be open. If memory runs out, `out` is unchanged; nothing else changes
/// in either case. Keys are read into memory of `out`'s allocator.
///
/// Each row and removed row is read once, and the places of the removed rows are sorted. The gaps
/// are walked for their lines, for their number, and once more for each power of two from 16 up to
/// the largest.
pub fn map_text<S: WordsIn>(
    core: &mut Core,
    seg: &mut S,
    out: &mut ByteOut,
) -> Result<(), AllocError>
    requires stand { CacheStands S.WordsIn core.old seg.old }
    requires closed { (at : ℕ) → is_named (S.aside seg.old).windows at ≡ false }
    ensures ok { OnOk result (out.new ≡ out.old ++ map_text (cache_of core.old)) }
    ensures err { OnErr result (out.new ≡ out.old) }
    ensures whole { sum_by size_of (parts_of (cache_of core.old))
        ≡ (cache_of core.old).conf.words - (cache_of core.old).conf.slots }
    ensures same { IsUnchanged S.WordsIn core.old core.new seg.old seg.new }
{
    let before = out.as_slice().len();
    match put_map(out.alloc(), core, seg, out) {
        Ok(()) => Ok(()),
        Err(fault) => {
            out.cut(before);
            Err(fault)
        }
    }
}

fn put_map<S: WordsIn>(
    alloc: Global,
    core: &mut Core,
    seg: &mut S,
    out: &mut ByteOut,
) -> Result<(), AllocError>
    requires stand { CacheStands S.WordsIn core.old seg.old }
    ensures ok { OnOk result (out.new ≡ out.old ++ map_text (cache_of core.old)) }
    ensures err { OnErr result (Extends out.old out.new) }
    ensures same { IsUnchanged S.WordsIn core.old core.new seg.old seg.new }
{
    let slots = core.slots();
    out.push(b"map\n")?;
    put_parts(alloc, slots, seg, out)?;
    put_free(slots.sma(), seg, out)
}
