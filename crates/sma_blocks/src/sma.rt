//! The shared memory allocator.

ghost use Rattle.std.specs.Prelude.{◌≡◌, ◌≢◌, ℕ, ◌+◌, ◌-◌, ◌*◌, ◌/◌, ◌%◌, ◌^◌, ◌<◌, ◌≤◌, true};
ghost use Rattle.std.specs.Prelude.{false, not, [], ◌∷◌, length, slice_index, slice_set};
ghost use Rattle.std.specs.Prelude.{MatchOption, IfSome, IfNone, option_map, find, sum_by, nat_le};
ghost use Rattle.std.specs.Prelude.{nat_lt, if◌then◌else◌, ◌⊎◌};
ghost use Rattle.seg_words.specs.Kept.{Kept, KeptBeside};
ghost use Rattle.seg_words.specs.Windows.{has, is_named};
ghost use Rattle.seg_words.specs.Blocks.{IsTold, MayStore};
ghost use Rattle.seg_words.specs.Gaps.{first_fit};
ghost use Rattle.sma_blocks.specs.Live.{IsLive, SameBlocks, live_blocks, with_block, without_block};
ghost use Rattle.sma_blocks.specs.Live.{kept_blocks, largest_of, lives, free_runs_in};
ghost use Rattle.sma_blocks.specs.Tiles.{tiles};
ghost use Rattle.sma_blocks.specs.LaidGaps.{IsLaid};
ghost use Rattle.sma_blocks.specs.Chain.{IsChain};
ghost use Rattle.sma_blocks.specs.Ready.{IsReady};
ghost use Rattle.sma_blocks.specs.Walk.{IsEdge, IsFreeBefore, IsFreeAfter, merged_words};
ghost use Rattle.max_tree.specs.Halves.{other_half, MayStand};
ghost use Rattle.sma_blocks.specs.Index.{IsShort, IsJoined};

mod near;

use crate::bounds::Bounds;
use crate::stores::{cut, link_new, link_of, merge, next_of, relink, rest_of};
use max_tree::{MaxRow, PairRow};
use seg_words::{Segment, WordsIn, begins_segment, fit_laws, segment_of};

// What begins at a place: a live block or a gap.
#[derive(Clone, Copy)]
struct Part {
    size: u32,
    is_gap: bool,
}

/// The shared memory allocator: blocks and gaps that fill the words of a segment from a given
/// place.
///
/// All places and sizes are even numbers of words. The second word of a gap is the place of the
/// next one, or 0. A call that needs a gap first tries a few of them and then uses an index in
/// plain memory, so that no call walks the gaps. The index is built in the row that is passed to
/// `format`, and no call allocates memory.
pub struct Sma {
    /// The bounds of these words. No call changes them.
    pub bounds: Bounds,
    // The place of the first gap, or 0.
    head: u32,
    // The number of words in all gaps.
    free: u32,
    // The size of the gap that begins at each even place, or 0.
    sizes: PairRow,
}

impl Drop for Sma {
    fn drop(self) {
        let Sma {
            bounds: _,
            head: _,
            free: _,
            sizes: _,
        } = self;
    }
}

impl Sma {
    /// Makes one gap in each segment of `piece` words, in the first one from `from` on. No window
    /// may be open.
    ///
    /// `gaps` is the memory of the index: zeros, one for every four words.
    pub fn format<S: Segment>(seg: &mut S, from: u32, piece: u32, gaps: MaxRow) -> Sma
        requires even { (from % 2 ≡ 0) × (length (S.words seg.old) % 2 ≡ 0) }
        requires even_piece { piece % 2 ≡ 0 }
        requires short { length (S.words seg.old) < 2 ^ 31 }
        requires room { from + 2 ≤ length (S.words seg.old) }
        requires closed { (at : ℕ) → is_named (S.aside seg.old).windows at ≡ false }
        requires enough { length (S.words seg.old) ≤ 4 * length gaps }
        requires zeros { (i : ℕ) → slice_index gaps i ≡ 0 }
        ensures from { result.bounds.from ≡ from }
        ensures piece { result.bounds.piece ≡ piece }
        ensures ready { IsReady result (S.words seg.new) (S.aside seg.new) }
        ensures empty { live_blocks (S.words seg.new) from ≡ [] }
        ensures chain { IsChain (S.words seg.new) result.head
            (free_runs_in result.bounds (S.words seg.new)) }
        ensures before { SameBlocks (S.words seg.old) (S.words seg.new) from [] }
        ensures beside { KeptBeside S.WordsIn seg.old seg.new }
    {
        let to = seg.len();
        let mut sma = Sma {
            bounds: Bounds { from, to, piece },
            head: 0,
            free: 0,
            sizes: PairRow::new(gaps),
        };
        sma.lay(seg, from, to);
        sma
    }

    /// Makes a live block of `n` words at the lowest place inside one segment that overlaps no live
    /// block. `None` exactly if there is no such place; then nothing changed.
    pub fn take<S: Segment>(&mut self, seg: &mut S, n: u32) -> Option<u32>
        requires size { (n % 2 ≡ 0) × (2 ≤ n) }
        requires ready { IsReady self.old (S.words seg.old) (S.aside seg.old) }
        ensures place { result ≡ first_fit self.old.bounds.from self.old.bounds.to
            self.old.bounds.piece n (live_blocks (S.words seg.old) self.old.bounds.from) }
        ensures taken { IfSome result (λ at. live_blocks (S.words seg.new) self.old.bounds.from
            ≡ with_block (record { place = at; size = n }) (live_blocks
            (S.words seg.old) self.old.bounds.from)) }
        ensures word { IfSome result (λ at. slice_index (S.words seg.new) at ≡ n) }
        ensures others { SameBlocks (S.words seg.old) (S.words seg.new) self.old.bounds.from
            (live_blocks (S.words seg.old) self.old.bounds.from) }
        ensures none { IfNone result (S.words seg.new ≡ S.words seg.old) }
        ensures same { IfNone result (self.new ≡ self.old) }
        ensures bounds { self.new.bounds ≡ self.old.bounds }
        ensures ready { IsReady self.new (S.words seg.new) (S.aside seg.new) }
        ensures chain { IsChain (S.words seg.new) self.new.head
            (free_runs_in self.new.bounds (S.words seg.new)) }
        ensures beside { KeptBeside S.WordsIn seg.old seg.new }
    {
        fit_laws();
        let Some(fit) = self.fit(seg, n) else {
            return None;
        };
        let at = 2 * fit.index as u32;
        let rest = rest_of(seg, at, fit.size, n);
        shorten(&mut self.sizes, fit.index, fit.size, n);
        cut(seg, at, fit.size, n);
        relink(seg, &mut self.head, fit.before, rest);
        self.free -= n;
        Some(at)
    }

    /// Frees the block at `at`: its words and the gaps next to it in its segment become one gap. No
    /// window may name the block.
    pub fn give<S: Segment>(&mut self, seg: &mut S, at: u32)
        requires live { IsLive (live_blocks (S.words seg.old) self.old.bounds.from) at }
        requires unnamed { is_named (S.aside seg.old).windows at ≡ false }
        requires ready { IsReady self.old (S.words seg.old) (S.aside seg.old) }
        ensures given { live_blocks (S.words seg.new) self.old.bounds.from ≡ without_block at
            (live_blocks (S.words seg.old) self.old.bounds.from) }
        ensures others { SameBlocks (S.words seg.old) (S.words seg.new) self.old.bounds.from
            (without_block at (live_blocks (S.words seg.old) self.old.bounds.from)) }
        ensures bounds { self.new.bounds ≡ self.old.bounds }
        ensures ready { IsReady self.new (S.words seg.new) (S.aside seg.new) }
        ensures chain { IsChain (S.words seg.new) self.new.head
            (free_runs_in self.new.bounds (S.words seg.new)) }
        ensures beside { KeptBeside S.WordsIn seg.old seg.new }
    {
        // The words of the block first: they are the farthest from the processor, and are fetched
        // while the index is read.
        let given = self.part_at(seg, at);
        let end = at + given.size;
        let last = self.free_after(seg, end);
        let before = self.sizes.last_nonzero_before(at as usize / 2);
        let first = self.free_before(seg, before, at);
        let next = next_of(seg, self.head, before, at, first, end, last);
        join(&mut self.sizes, first, end, last);
        self.free += given.size;
        merge(seg, first, last, next);
        link_new(seg, &mut self.head, before, first, at);
    }

    /// Keeps the blocks at these places, which rise, and makes gaps of all other words. Every
    /// window names one of these blocks.
    pub fn keep<S: Segment>(&mut self, seg: &mut S, places: &[u32])
        requires live { (i : ℕ) → i < length places.now → IsLive (live_blocks
            (S.words seg.old) self.old.bounds.from) (slice_index places.now i) }
        requires rising { (i : ℕ) → i + 1 < length places.now
            → slice_index places.now i < slice_index places.now (i + 1) }
        requires named { (at : ℕ) → is_named (S.aside seg.old).windows at ≡ true
            → has at places.now ≡ true }
        requires ready { IsReady self.old (S.words seg.old) (S.aside seg.old) }
        ensures left { live_blocks (S.words seg.new) self.old.bounds.from ≡ kept_blocks places.now
            (live_blocks (S.words seg.old) self.old.bounds.from) }
        ensures others { SameBlocks (S.words seg.old) (S.words seg.new) self.old.bounds.from
            (kept_blocks places.now (live_blocks (S.words seg.old) self.old.bounds.from)) }
        ensures bounds { self.new.bounds ≡ self.old.bounds }
        ensures ready { IsReady self.new (S.words seg.new) (S.aside seg.new) }
        ensures chain { IsChain (S.words seg.new) self.new.head
            (free_runs_in self.new.bounds (S.words seg.new)) }
        ensures beside { KeptBeside S.WordsIn seg.old seg.new }
    {
        self.sizes.clear();
        self.free = 0;
        self.head = 0;
        // From the last block backwards, so that the link of each gap is known when it is made.
        let mut end = self.bounds.to;
        let mut i = places.len();
        while i > 0 {
            i -= 1;
            let at = places[i];
            let size = seg.load(at) as u32;
            self.lay(seg, at + size, end);
            end = at;
        }
        self.lay(seg, self.bounds.from, end);
    }

    /// The number of free words, which is that of the words in all gaps.
    pub fn free_words<S: WordsIn>(&self, seg: &mut S) -> u32
        requires { IsReady self.now (S.words seg.old) (S.aside seg.old) }
        ensures value { result ≡ sum_by (λ run. run.size)
            (free_runs_in self.now.bounds (S.words seg.old)) }
        ensures kept { Kept S.WordsIn seg.old seg.new }
    {
        self.free
    }

    /// The size of the largest gap, in words; 0 if there is none.
    pub fn largest<S: WordsIn>(&self, seg: &mut S) -> u32
        requires { IsReady self.now (S.words seg.old) (S.aside seg.old) }
        ensures value { result ≡ largest_of (free_runs_in self.now.bounds (S.words seg.old)) }
        ensures kept { Kept S.WordsIn seg.old seg.new }
    {
        self.sizes.largest()
    }

    /// The place of the first gap; 0 if there is none.
    pub fn first_gap(&self) -> u32
        ensures { result ≡ self.now.head }
    {
        self.head
    }

    /// The first gap at or after `at`, as its place and its size; `None` exactly if there is none.
    pub fn gap_from<S: WordsIn>(&self, seg: &mut S, at: u32) -> Option<(u32, u32)>
        requires { IsReady self.now (S.words seg.old) (S.aside seg.old) }
        ensures value { result ≡ option_map (λ run. (run.place, run.size)) (find
            (λ run. nat_le at run.place) (free_runs_in self.now.bounds (S.words seg.old))) }
        ensures kept { Kept S.WordsIn seg.old seg.new }
    {
        if self.bounds.to <= at || self.bounds.to - at < 2 {
            return None;
        }
        let index = at as usize / 2 + at as usize % 2;
        let before = self.sizes.last_nonzero_before(index);
        let place = link_of(seg, self.head, before) as u32;
        if place < at {
            return None;
        }
        let size = self.sizes.get(place as usize / 2);
        if size == 0 { None } else { Some((place, size)) }
    }

    // Makes gaps of the words from `first` up to `last`, one in each segment, in front of all other
    // gaps. No gap begins at `last`.
    fn lay<S: Segment>(&mut self, seg: &mut S, first: u32, last: u32)
        requires laid { IsLaid self.old.bounds.piece (S.words seg.old) last self.old.sizes
            self.old.head self.old.free true }
        requires even { (first % 2 ≡ 0) × (last % 2 ≡ 0) × (self.old.bounds.piece % 2 ≡ 0) }
        requires apart { (i : ℕ) → first ≤ i → i < last → MayStore (S.words seg.old)
            (S.aside seg.old).windows i }
        requires index { length (S.words seg.old) ≤ length self.old.sizes
            + length self.old.sizes }
        requires short { length (S.words seg.old) < 2 ^ 31 }
        requires order { first ≤ last }
        ensures laid { IsLaid self.old.bounds.piece (S.words seg.new) first self.new.sizes
            self.new.head self.new.free false }
        ensures lives { lives (tiles (S.words seg.new) first)
            ≡ lives (tiles (S.words seg.old) last) }
        ensures same { (i : ℕ) → (i < first) ⊎ (last ≤ i) → slice_index (S.words seg.new) i
            ≡ slice_index (S.words seg.old) i }
        ensures length { length (S.words seg.new) ≡ length (S.words seg.old) }
        ensures count { length self.new.sizes ≡ length self.old.sizes }
        ensures bounds { self.new.bounds ≡ self.old.bounds }
        ensures beside { KeptBeside S.WordsIn seg.old seg.new }
    {
        let mut end = last;
        while first < end {
            let own = segment_of(self.bounds.piece, end - 1);
            let begin = own.max(first);
            self.lay_one(seg, begin, end);
            end = begin;
        }
    }

    // Makes a gap of the words from `first` up to `last` in front of all other gaps.
    fn lay_one<S: Segment>(&mut self, seg: &mut S, first: u32, last: u32)
        requires inside { last ≤ length (S.words seg.old) }
        requires even { (first % 2 ≡ 0) × (last % 2 ≡ 0) }
        requires apart { (i : ℕ) → first ≤ i → i < last → MayStore (S.words seg.old)
            (S.aside seg.old).windows i }
        requires some { first < last }
        requires index { first / 2 < length self.old.sizes }
        requires stand { MayStand (first / 2) (last - first) (slice_index self.old.sizes
            (other_half (first / 2))) }
        requires count { (self.old.free + (last - first) < 2 ^ 32) × (last < 2 ^ 31) }
        ensures words { S.words seg.new ≡ merged_words (S.words seg.old) first last self.old.head }
        ensures sizes { IsJoined self.old.sizes self.new.sizes first last last }
        ensures head { (self.new.head ≡ first) × (self.new.free ≡ self.old.free + (last - first)) }
        ensures bounds { self.new.bounds ≡ self.old.bounds }
        ensures beside { KeptBeside S.WordsIn seg.old seg.new }
    {
        merge(seg, first, last, u64::from(self.head));
        self.sizes.put(first as usize / 2, last - first);
        self.free += last - first;
        self.head = first;
    }

    // The place from which the words right before the live block at `at` are free; `before` is the
    // last gap before it. It reads only the index.
    fn free_before<S: WordsIn>(&self, seg: &S, before: Option<usize>, at: u32) -> u32
        requires ready { IsReady self.now (S.words seg.now) (S.aside seg.now) }
        requires live { IsLive (live_blocks (S.words seg.now) self.now.bounds.from) at }
        requires found { MatchOption before ((k : ℕ) → k < at / 2 → slice_index self.now.sizes k
            ≡ 0) (λ q. (q < at / 2) × (slice_index self.now.sizes q ≢ 0)) }
        requires last { MatchOption before (Unit {0}) (λ q. (k : ℕ) → q < k → k < at / 2
            → slice_index self.now.sizes k ≡ 0) }
        ensures free { IsFreeBefore (S.words seg.now) self.now.bounds.from self.now.bounds.piece
            result at }
        ensures place { MatchOption before (result ≡ at) (λ q. (result ≡ at) ⊎ (result ≡ 2 * q)) }
    {
        let Some(index) = before else {
            return at;
        };
        let first = 2 * index as u32;
        if first + self.sizes.get(index) == at {
            // Finding the border takes a division, so it comes last.
            if begins_segment(self.bounds.piece, at) {
                return at;
            }
            return first;
        }
        at
    }

    // The place up to which the words from the edge `end` on are free. It reads only the index.
    fn free_after<S: WordsIn>(&self, seg: &S, end: u32) -> u32
        requires ready { IsReady self.now (S.words seg.now) (S.aside seg.now) }
        requires edge { IsEdge (S.words seg.now) self.now.bounds.from end }
        requires inside { (0 < end) × (end ≤ self.now.bounds.to) }
        ensures free { IsFreeAfter (S.words seg.now) self.now.bounds.piece end result }
        ensures within { result ≤ self.now.bounds.to }
    {
        if end < self.bounds.to {
            let size = self.sizes.get(end as usize / 2);
            if size == 0 {
                return end;
            }
            if begins_segment(self.bounds.piece, end) {
                return end;
            }
            return end + size;
        }
        end
    }

    // The tile that begins at `at`.
    fn part_at<S: WordsIn>(&self, seg: &mut S, at: u32) -> Part
        requires ready { IsReady self.now (S.words seg.old) (S.aside seg.old) }
        requires edge { IsEdge (S.words seg.old) self.now.bounds.from at }
        requires inside { at < self.now.bounds.to }
        ensures is { tiles (S.words seg.old) at
            ≡ record { place = at; size = result.size; live = not result.is_gap } ∷ tiles
            (S.words seg.old) (at + result.size) }
        ensures edge { IsEdge (S.words seg.old) self.now.bounds.from (at + result.size) }
        ensures size { (2 ≤ result.size) × (result.size % 2 ≡ 0) ×
            (at + result.size ≤ self.now.bounds.to) }
        ensures kept { Kept S.WordsIn seg.old seg.new }
    {
        let word = seg.load(at);
        Part {
            size: (word - word % 2) as u32,
            is_gap: word % 2 == 1,
        }
    }
}

// The gap begins after its first `n` words, or is removed.
fn shorten(sizes: &mut PairRow, index: usize, size: u32, n: u32)
    requires inside { (index < length sizes.old) × (n < size → index + n / 2 < length sizes.old) }
    requires short { index + n / 2 < 2 ^ 32 }
    requires even { (size % 2 ≡ 0) × (n % 2 ≡ 0) × (2 ≤ n) × (size < 2 ^ 31) }
    requires some { slice_index sizes.old index ≢ 0 }
    requires beside { n < size → other_half (index + n / 2) ≢ index → MayStand
        (index + n / 2) (size - n) (slice_index sizes.old (other_half (index + n / 2))) }
    ensures { IsShort sizes.old sizes.new index size n }
{
    if n < size {
        sizes.move_to(index, index + n as usize / 2, size - n);
    } else {
        sizes.clear_at(index);
    }
}

// One gap from `first` up to `last` replaces the gaps among those words; the freed block ended at
// `end`.
fn join(sizes: &mut PairRow, first: u32, end: u32, last: u32)
    requires inside { (first / 2 < length sizes.old) × (end < last → end / 2 < length sizes.old) }
    requires order { (first + 2 ≤ end) × (end ≤ last) }
    requires even { (first % 2 ≡ 0) × (end % 2 ≡ 0) × (last % 2 ≡ 0) × (last < 2 ^ 31) }
    requires some { end < last → slice_index sizes.old (end / 2) ≢ 0 }
    requires beside { (end < last → other_half (first / 2) ≢ end / 2) → MayStand
        (first / 2) (last - first) (slice_index sizes.old (other_half (first / 2))) }
    ensures { IsJoined sizes.old sizes.new first end last }
{
    if end < last {
        sizes.move_to(end as usize / 2, first as usize / 2, last - first);
    } else {
        sizes.put(first as usize / 2, last - first);
    }
}
