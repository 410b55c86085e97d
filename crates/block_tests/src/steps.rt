//! Steps over words, and how many have their expected results.

ghost use Rattle.std.specs.Prelude.{◌≡◌, ℕ, ◌+◌, ◌%◌, ◌^◌, ◌<◌, ◌≤◌, true, false, [], OnOk};
ghost use Rattle.seg_words.specs.Windows.{is_named};
ghost use Rattle.sma_blocks.specs.Live.{live_blocks};
ghost use Rattle.sma_blocks.specs.Ready.{IsReady};

use crate::listed::{give_listed, keep_listed, take_listed};
use max_tree::MaxRow;
use seg_words::{Extent, Segment, VecWords, first_fit};
use sma_blocks::Sma;
use std::alloc::{AllocError, Global};

// A call and its expected result, or a word and its expected value.
#[derive(Clone, Copy)]
pub(crate) enum Step {
    // Takes this many words, at this place.
    Take(u32, Option<u32>),
    // Frees the block of this index.
    Give(u32),
    // The blocks kept whose index, modulo 64, is a bit of the number.
    Keep(u64),
    // Takes this many words, at the lowest place of the plain list.
    TakeLeast(u32),
    Free(u32),
    Largest(u32),
    GapFrom(u32, Option<(u32, u32)>),
    FirstGap(u32),
    Word(u32, u64),
}

// Plays a step, and returns whether it had its expected result.
fn play_one<S: Segment>(
    alloc: Global,
    sma: &mut Sma,
    seg: &mut S,
    blocks: &mut Vec<Extent>,
    step: Step,
) -> Result<bool, AllocError>
    requires ready { IsReady sma.old (S.words seg.old) (S.aside seg.old) }
    requires closed { (at : ℕ) → is_named (S.aside seg.old).windows at ≡ false }
    requires listed { blocks.old.items ≡ live_blocks (S.words seg.old) sma.old.bounds.from }
    ensures ready { IsReady sma.new (S.words seg.new) (S.aside seg.new) }
    ensures listed { OnOk result (blocks.new.items
        ≡ live_blocks (S.words seg.new) sma.new.bounds.from) }
    ensures aside { S.aside seg.new ≡ S.aside seg.old }
{
    match step {
        Step::Take(n, want) => {
            if n % 2 == 0 && n > 1 {
                return Ok(take_listed(sma, seg, blocks, n)? == want);
            }
            Ok(false)
        },
        Step::TakeLeast(n) => {
            if n % 2 == 0 && n > 1 {
                let least = first_fit(sma.bounds.from, sma.bounds.to, sma.bounds.piece, n, blocks);
                return Ok(take_listed(sma, seg, blocks, n)? == least);
            }
            Ok(false)
        },
        Step::Give(index) => {
            if (index as usize) < blocks.len() {
                let kept = give_listed(alloc, sma, seg, blocks, index as usize)?;
                *blocks = kept;
            }
            Ok(true)
        },
        Step::Keep(which) => {
            let kept = keep_listed(alloc, sma, seg, blocks, which)?;
            *blocks = kept;
            Ok(true)
        },
        Step::Free(words) => Ok(sma.free_words(seg) == words),
        Step::Largest(words) => Ok(sma.largest(seg) == words),
        Step::GapFrom(at, want) => Ok(sma.gap_from(seg, at) == want),
        Step::FirstGap(place) => Ok(sma.first_gap() == place),
        Step::Word(i, want) => Ok(i < seg.len() && seg.load(i) == want),
    }
}

// Plays steps one after the other; how many had their expected results before one that did not.
fn play<S: Segment>(
    alloc: Global,
    sma: &mut Sma,
    seg: &mut S,
    steps: &[Step],
) -> Result<usize, AllocError>
    requires ready { IsReady sma.old (S.words seg.old) (S.aside seg.old) }
    requires closed { (at : ℕ) → is_named (S.aside seg.old).windows at ≡ false }
    requires empty { live_blocks (S.words seg.old) sma.old.bounds.from ≡ [] }
{
    let mut blocks = Vec::new(alloc);
    for (i, step) in steps.iter().enumerate() {
        if !play_one(alloc, sma, seg, &mut blocks, *step)? {
            return Ok(i);
        }
    }
    Ok(steps.len())
}

// How many words there are, from which on there are blocks, and how many a segment has: 0 if all
// are one segment.
#[derive(Clone, Copy)]
pub(crate) struct Shape {
    pub(crate) len: u32,
    pub(crate) from: u32,
    pub(crate) piece: u32,
}

// Whether blocks can be in words of this shape.
fn is_shape(shape: Shape) -> bool
    ensures even { result ≡ true → (shape.from % 2 ≡ 0) × (shape.len % 2 ≡ 0) }
    ensures piece { result ≡ true → shape.piece % 2 ≡ 0 }
    ensures short { result ≡ true → shape.len < 2 ^ 31 }
    ensures room { result ≡ true → shape.from + 2 ≤ shape.len }
{
    let Shape { len, from, piece } = shape;
    from % 2 == 0 && len % 2 == 0 && piece % 2 == 0 && len < 1 << 31 && from < len
}

// Plays steps over freshly formatted words; how many had their expected results, or 0 if that is no
// shape.
pub(crate) fn play_over(alloc: Global, shape: Shape, steps: &[Step]) -> Result<usize, AllocError> {
    if !is_shape(shape) {
        return Ok(0);
    }
    let Shape { len, from, piece } = shape;
    let gaps = MaxRow::new(alloc, len as usize / 4 + 1)?;
    let mut words = VecWords::new(alloc, len)?;
    let mut sma = Sma::format(&mut words, from, piece, gaps);
    play(alloc, &mut sma, &mut words, steps)
}
