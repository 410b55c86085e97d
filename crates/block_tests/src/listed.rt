//! Calls compared with a plain list of the live blocks.

ghost use Rattle.std.specs.Prelude.{◌≡◌, ℕ, ◌+◌, ◌%◌, ◌<◌, ◌≤◌, true, false, length};
ghost use Rattle.std.specs.Prelude.{slice_index, insert, IfOk, OnOk, All};
ghost use Rattle.seg_words.specs.Windows.{has, is_named};
ghost use Rattle.sma_blocks.specs.Live.{IsLive, live_blocks, with_block};
ghost use Rattle.sma_blocks.specs.Live.{without_block, kept_blocks};
ghost use Rattle.sma_blocks.specs.Ready.{IsReady};

use seg_words::{Extent, Segment};
use sma_blocks::Sma;
use std::alloc::{AllocError, Global};

// The index of the first block past a place.
fn index_past(blocks: &[Extent], place: u32) -> usize
    ensures within { result ≤ length blocks.now }
    ensures there { (size : ℕ) → insert blocks.now result (record { place = place; size = size })
        ≡ with_block (record { place = place; size = size }) blocks.now }
{
    for (i, block) in blocks.iter().enumerate() {
        if place < block.place {
            return i;
        }
    }
    blocks.len()
}

// Takes a block and puts it into the list of live blocks.
pub(crate) fn take_listed<S: Segment>(
    sma: &mut Sma,
    seg: &mut S,
    blocks: &mut Vec<Extent>,
    n: u32,
) -> Result<Option<u32>, AllocError>
    requires size { (n % 2 ≡ 0) × (2 ≤ n) }
    requires ready { IsReady sma.old (S.words seg.old) (S.aside seg.old) }
    requires listed { blocks.old.items ≡ live_blocks (S.words seg.old) sma.old.bounds.from }
    ensures ready { IsReady sma.new (S.words seg.new) (S.aside seg.new) }
    ensures listed { OnOk result (blocks.new.items
        ≡ live_blocks (S.words seg.new) sma.new.bounds.from) }
    ensures aside { S.aside seg.new ≡ S.aside seg.old }
{
    let taken = sma.take(seg, n);
    if let Some(place) = taken {
        let index = index_past(blocks, place);
        blocks.insert(index, Extent { place, size: n })?;
    }
    Ok(taken)
}

// The blocks without the one at a place.
fn without_place(alloc: Global, blocks: &[Extent], at: u32) -> Result<Vec<Extent>, AllocError>
    ensures { IfOk result (λ kept. kept.items ≡ without_block at blocks.now) }
{
    blocks
        .iter()
        .copied()
        .filter(|block| block.place != at)
        .collect(alloc)
}

// Frees the block at an index of the list of live blocks, and returns the list that is left.
pub(crate) fn give_listed<S: Segment>(
    alloc: Global,
    sma: &mut Sma,
    seg: &mut S,
    blocks: &[Extent],
    index: usize,
) -> Result<Vec<Extent>, AllocError>
    requires index { index < length blocks.now }
    requires ready { IsReady sma.old (S.words seg.old) (S.aside seg.old) }
    requires closed { (at : ℕ) → is_named (S.aside seg.old).windows at ≡ false }
    requires listed { blocks.now ≡ live_blocks (S.words seg.old) sma.old.bounds.from }
    ensures ready { IsReady sma.new (S.words seg.new) (S.aside seg.new) }
    ensures listed { IfOk result (λ kept. kept.items
        ≡ live_blocks (S.words seg.new) sma.new.bounds.from) }
    ensures aside { S.aside seg.new ≡ S.aside seg.old }
{
    let at = blocks[index].place;
    sma.give(seg, at);
    without_place(alloc, blocks, at)
}

// The places of the blocks whose index, modulo 64, is a bit of the number.
fn places_of(alloc: Global, blocks: &[Extent], which: u64) -> Result<Vec<u32>, AllocError>
    ensures { IfOk result (λ places. All (IsLive blocks.now) places.items) }
{
    let mut places = Vec::new(alloc);
    for i in 0..blocks.len() {
        let bits = which >> (i % 64);
        if bits % 2 == 1 {
            places.push(blocks[i].place)?;
        }
    }
    Ok(places)
}

// Whether each place except the first is after the one before.
fn are_rising(places: &[u32]) -> bool
    ensures { result ≡ true → (i : ℕ) → i + 1 < length places.now
        → slice_index places.now i < slice_index places.now (i + 1) }
{
    let mut i = 1;
    while i < places.len() {
        if places[i] <= places[i - 1] {
            return false;
        }
        i += 1;
    }
    true
}

// Those places, if they rise.
fn rising_places_of(alloc: Global, blocks: &[Extent], which: u64) -> Result<Vec<u32>, AllocError>
    ensures live { IfOk result (λ places. All (IsLive blocks.now) places.items) }
    ensures rising { IfOk result (λ places. (i : ℕ) → i + 1 < length places.items
        → slice_index places.items i < slice_index places.items (i + 1)) }
{
    let places = places_of(alloc, blocks, which)?;
    if are_rising(places.as_slice()) {
        return Ok(places);
    }
    Ok(Vec::new(alloc))
}

// Whether the place is in the list.
fn stands(places: &[u32], at: u32) -> bool
    ensures { result ≡ has at places.now }
{
    places.contains(&at)
}

// The blocks that are at one of the places.
fn with_places(alloc: Global, blocks: &[Extent], places: &[u32]) -> Result<Vec<Extent>, AllocError>
    ensures { IfOk result (λ kept. kept.items ≡ kept_blocks places.now blocks.now) }
{
    blocks
        .iter()
        .copied()
        .filter(|block| stands(places, block.place))
        .collect(alloc)
}

// Keeps the blocks whose index, modulo 64, is a bit of the number, and returns the list that is
// left.
pub(crate) fn keep_listed<S: Segment>(
    alloc: Global,
    sma: &mut Sma,
    seg: &mut S,
    blocks: &[Extent],
    which: u64,
) -> Result<Vec<Extent>, AllocError>
    requires ready { IsReady sma.old (S.words seg.old) (S.aside seg.old) }
    requires closed { (at : ℕ) → is_named (S.aside seg.old).windows at ≡ false }
    requires listed { blocks.now ≡ live_blocks (S.words seg.old) sma.old.bounds.from }
    ensures ready { IsReady sma.new (S.words seg.new) (S.aside seg.new) }
    ensures listed { IfOk result (λ kept. kept.items
        ≡ live_blocks (S.words seg.new) sma.new.bounds.from) }
    ensures aside { S.aside seg.new ≡ S.aside seg.old }
{
    let places = rising_places_of(alloc, blocks, which)?;
    sma.keep(seg, places.as_slice());
    with_places(alloc, blocks, places.as_slice())
}
