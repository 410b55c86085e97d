//! The words that a block or a gap is made of, and the links of gaps.

ghost use Rattle.std.specs.Prelude.{◌≡◌, ◌≢◌, ℕ, ◌+◌, ◌-◌, ◌*◌, ◌<◌, ◌≤◌, ◌^◌, length, slice_index};
ghost use Rattle.std.specs.Prelude.{slice_set, MatchOption};
ghost use Rattle.seg_words.specs.Kept.{Kept, KeptBeside};
ghost use Rattle.seg_words.specs.Blocks.{IsTold, MayStore};
ghost use Rattle.sma_blocks.specs.Walk.{cut_words, merged_words, relinked_words, relinked_head};
ghost use Rattle.sma_blocks.specs.Walk.{link_before};

use seg_words::{Segment, WordsIn};

// Makes a block of the first `n` words of the gap at `at`, and a gap of what is left of it, with
// its link.
pub fn cut<S: Segment>(seg: &mut S, at: u32, size: u32, n: u32)
    requires inside { at + size ≤ length (S.words seg.old) }
    requires size { (2 ≤ n) × (n ≤ size) × (n < size → n + 2 ≤ size) }
    requires apart { (i : ℕ) → at ≤ i → i < at + size → MayStore (S.words seg.old)
        (S.aside seg.old).windows i }
    ensures words { S.words seg.new ≡ cut_words (S.words seg.old) at size n }
    ensures beside { KeptBeside S.WordsIn seg.old seg.new }
{
    if n < size {
        let next = seg.load(at + 1);
        seg.store(at + n, u64::from(size - n) + 1);
        seg.store(at + n + 1, next);
    }
    seg.store(at, u64::from(n));
}

// Makes a gap of the words from `first` up to `last`, with the link `next`.
pub fn merge<S: Segment>(seg: &mut S, first: u32, last: u32, next: u64)
    requires inside { (first + 2 ≤ last) × (last ≤ length (S.words seg.old)) }
    requires apart { (i : ℕ) → first ≤ i → i < first + 2 → MayStore (S.words seg.old)
        (S.aside seg.old).windows i }
    ensures words { S.words seg.new ≡ merged_words (S.words seg.old) first last next }
    ensures beside { KeptBeside S.WordsIn seg.old seg.new }
{
    seg.store(first, u64::from(last - first) + 1);
    seg.store(first + 1, next);
}

// The link of the gap at the even place of that number, or the head if there is no such gap.
pub fn link_of<S: WordsIn>(seg: &mut S, head: u32, before: Option<usize>) -> u64
    requires inside { MatchOption before (Unit {0}) (λ q. 2 * q + 1 < length (S.words seg.old)) }
    requires told { MatchOption before (Unit {0}) (λ q. IsTold (S.aside seg.old).windows
        (2 * q + 1)) }
    ensures link { result ≡ link_before (S.words seg.old) head before }
    ensures kept { Kept S.WordsIn seg.old seg.new }
{
    match before {
        Some(q) => seg.load(2 * q as u32 + 1),
        None => u64::from(head),
    }
}

// The place of the next gap after `n` words of the gap at `at` were taken: the rest of them, or the
// gap's link.
pub fn rest_of<S: WordsIn>(seg: &mut S, at: u32, size: u32, n: u32) -> u64
    requires inside { at + 1 < length (S.words seg.old) }
    requires told { IsTold (S.aside seg.old).windows (at + 1) }
    requires fits { at + n < 2 ^ 32 }
    ensures cut { n < size → result ≡ at + n }
    ensures whole { size ≤ n → result ≡ slice_index (S.words seg.old) (at + 1) }
    ensures kept { Kept S.WordsIn seg.old seg.new }
{
    if n < size {
        return u64::from(at + n);
    }
    seg.load(at + 1)
}

// The place of the next gap after the words from `first` up to `last` became one gap: the link of
// the last gap among them, or else that of the gap before, or the head.
pub fn next_of<S: WordsIn>(
    seg: &mut S,
    head: u32,
    before: Option<usize>,
    at: u32,
    first: u32,
    end: u32,
    last: u32,
) -> u64
    requires after { end < last → (end + 1 < length (S.words seg.old)) × IsTold
        (S.aside seg.old).windows (end + 1) }
    requires touching { first < at → (first + 1 < length (S.words seg.old)) × IsTold
        (S.aside seg.old).windows (first + 1) }
    requires inside { MatchOption before (Unit {0}) (λ q. 2 * q + 1 < length (S.words seg.old)) }
    requires told { MatchOption before (Unit {0}) (λ q. IsTold (S.aside seg.old).windows
        (2 * q + 1)) }
    ensures after { end < last → result ≡ slice_index (S.words seg.old) (end + 1) }
    ensures touching { last ≤ end → first < at → result ≡ slice_index (S.words seg.old)
        (first + 1) }
    ensures alone { last ≤ end → at ≤ first → result ≡ link_before (S.words seg.old) head before }
    ensures kept { Kept S.WordsIn seg.old seg.new }
{
    if end < last {
        return seg.load(end + 1);
    }
    if first < at {
        return seg.load(first + 1);
    }
    link_of(seg, head, before)
}

// Links a gap that begins at `first`: if no gap before it became part of it, the one before, or the
// head, gets a new link.
pub fn link_new<S: Segment>(seg: &mut S, head: &mut u32, before: Option<usize>, first: u32, at: u32)
    requires inside { MatchOption before (Unit {0}) (λ q. 2 * q + 1 < length (S.words seg.old)) }
    requires apart { MatchOption before (Unit {0}) (λ q. MayStore (S.words seg.old)
        (S.aside seg.old).windows (2 * q + 1)) }
    ensures alone { first ≡ at → (S.words seg.new ≡ relinked_words (S.words seg.old) before at) ×
        (head.new ≡ relinked_head head.old before at) }
    ensures touching { first ≢ at → (S.words seg.new ≡ S.words seg.old) × (head.new ≡ head.old) }
    ensures beside { KeptBeside S.WordsIn seg.old seg.new }
{
    if first == at {
        relink(seg, head, before, u64::from(at));
    }
}

// Makes `next` the link of the gap at the even place of that number, or the head if there is none.
pub fn relink<S: Segment>(seg: &mut S, head: &mut u32, before: Option<usize>, next: u64)
    requires inside { MatchOption before (Unit {0}) (λ q. 2 * q + 1 < length (S.words seg.old)) }
    requires apart { MatchOption before (Unit {0}) (λ q. MayStore (S.words seg.old)
        (S.aside seg.old).windows (2 * q + 1)) }
    requires small { next < 2 ^ 32 }
    ensures words { S.words seg.new ≡ relinked_words (S.words seg.old) before next }
    ensures head { head.new ≡ relinked_head head.old before next }
    ensures beside { KeptBeside S.WordsIn seg.old seg.new }
{
    match before {
        Some(q) => seg.store(2 * q as u32 + 1, next),
        None => *head = next as u32,
    }
}
