//! Sums over the gaps between blocks.

ghost use Rattle.std.specs.Prelude.{◌≡◌, ◌<◌, ◌≤◌, ◌++◌, length, OnOk, OnErr};
ghost use Rattle.seg_words.specs.Kept.{Kept};
ghost use Rattle.sma_blocks.specs.Live.{free_runs_in};
ghost use Rattle.sma_blocks.specs.Ready.{IsReady};
ghost use Rattle.notation.specs.Appending.{Extends};
ghost use Rattle.seg_report.specs.Fits.{blocks_in};
ghost use Rattle.seg_report.specs.Lines.{fits_text, free_text, power_line};

use crate::lines::{put_count, put_pair};
use notation::ByteOut;
use seg_words::WordsIn;
use sma_blocks::Sma;
use std::alloc::AllocError;

// How many blocks of `n` words the gaps hold, if each is divided separately, and the number of
// gaps.
pub(crate) fn count_gaps<S: WordsIn>(sma: &Sma, seg: &mut S, n: u32) -> (u32, u32)
    requires some { 1 ≤ n }
    requires ready { IsReady sma.now (S.words seg.old) (S.aside seg.old) }
    ensures blocks { result.0 ≡ blocks_in n (free_runs_in sma.now.bounds (S.words seg.old)) }
    ensures gaps { result.1 ≡ length (free_runs_in sma.now.bounds (S.words seg.old)) }
    ensures kept { Kept S.WordsIn seg.old seg.new }
{
    let (_to, _piece) = (sma.bounds.to, sma.bounds.piece);
    let mut blocks = 0;
    let mut gaps = 0;
    let mut at = sma.bounds.from;
    while let Some((place, size)) = sma.gap_from(seg, at) {
        blocks += size / n;
        gaps += 1;
        at = place + size;
    }
    (blocks, gaps)
}

// The sums over the free runs.
pub(crate) fn put_free<S: WordsIn>(
    sma: &Sma,
    seg: &mut S,
    out: &mut ByteOut,
) -> Result<(), AllocError>
    requires ready { IsReady sma.now (S.words seg.old) (S.aside seg.old) }
    ensures ok { OnOk result (out.new ≡ out.old
        ++ free_text (free_runs_in sma.now.bounds (S.words seg.old))) }
    ensures err { OnErr result (Extends out.old out.new) }
    ensures kept { Kept S.WordsIn seg.old seg.new }
{
    let (_blocks, gaps) = count_gaps(sma, seg, 1);
    put_count(out, b"free words ", u64::from(sma.free_words(seg)))?;
    put_count(out, b"largest ", u64::from(sma.largest(seg)))?;
    put_count(out, b"runs ", u64::from(gaps))?;
    put_fits(sma, seg, out)
}

// How many blocks of this power of two of words fit, unless it is above the largest gap.
fn put_power<S: WordsIn>(
    sma: &Sma,
    seg: &mut S,
    bit: u32,
    out: &mut ByteOut,
) -> Result<(), AllocError>
    requires ready { IsReady sma.now (S.words seg.old) (S.aside seg.old) }
    requires bit { bit < 32 }
    ensures ok { OnOk result (out.new ≡ out.old
        ++ power_line (free_runs_in sma.now.bounds (S.words seg.old)) bit) }
    ensures err { OnErr result (Extends out.old out.new) }
    ensures kept { Kept S.WordsIn seg.old seg.new }
{
    let n = 2u32.pow(bit);
    if n > sma.largest(seg) {
        return Ok(());
    }
    let (blocks, _gaps) = count_gaps(sma, seg, n);
    put_pair(out, b"fits ", n, blocks)
}

// How many blocks of each power of two of words fit.
fn put_fits<S: WordsIn>(sma: &Sma, seg: &mut S, out: &mut ByteOut) -> Result<(), AllocError>
    requires ready { IsReady sma.now (S.words seg.old) (S.aside seg.old) }
    ensures ok { OnOk result (out.new ≡ out.old
        ++ fits_text (free_runs_in sma.now.bounds (S.words seg.old))) }
    ensures err { OnErr result (Extends out.old out.new) }
    ensures kept { Kept S.WordsIn seg.old seg.new }
{
    for bit in 4..32 {
        put_power(sma, seg, bit, out)?;
    }
    Ok(())
}
