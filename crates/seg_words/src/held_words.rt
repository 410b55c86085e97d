//! Words in memory with a window for each worker, for one thread that plays them all.

ghost use Rattle.std.specs.Prelude.{◌≡◌, ℕ, ◌+◌, ◌<◌, ◌≤◌, ◌^◌, true, false, not, [], length, drop};
ghost use Rattle.std.specs.Prelude.{replicate, count_by, slice_set, IfOk};
ghost use Rattle.seg_words.specs.Windows.{has, is_named, Frees, Refuses};
ghost use Rattle.seg_words.specs.Blocks.{MayProbe};
ghost use Rattle.seg_words.specs.EventWindows.{opened_for, event_begun, AreMet};

use crate::segment::{Segment, WordsIn};
use std::alloc::{AllocError, Global};

/// Words in memory with a window for each of 64 workers, for one thread that plays them all.
///
/// What is held for a worker is the place of the block from which it may still copy. It becomes the
/// worker's window when an event begins whose mask has the worker. Only making the words allocates
/// memory.
#[derive(Drop)]
pub struct HeldWords {
    items: Vec<u64>,
    held: [u32; 64],
    windows: [u32; 64],
    mask: u64,
    // The places refused in this event begin at `left`, the last one first.
    left: u32,
    marks: [u32; 64],
    ghost short: { length items.items < 2 ^ 32 },
    ghost met: { AreMet mask windows },
    ghost within: { left ≤ 64 },
    // Each refused place is that of a window, so there is room for all of them.
    ghost room: { 64 ≤ left + count_by (λ window. has window (drop left marks)) windows },
}

impl HeldWords {
    /// `len` words, each 0. Nothing is held, and no event has begun.
    pub fn new(alloc: Global, len: u32) -> Result<HeldWords, AllocError>
        ensures words { IfOk result (λ s. ⟦<HeldWords as WordsIn>⟧.words s ≡ replicate len 0) }
        ensures aside { IfOk result (λ s. ⟦<HeldWords as WordsIn>⟧.aside s
            ≡ record { windows = replicate 64 0; mask = 0; refused = [] }) }
        ensures held { IfOk result (λ s. ⟦<HeldWords as WordsIn>⟧.rest s ≡ replicate 64 0) }
    {
        let items = Vec::from_elem(alloc, 0u64, len as usize)?;
        Ok(HeldWords {
            items,
            held: [0; 64],
            windows: [0; 64],
            mask: 0,
            left: 64,
            marks: [0; 64],
        })
    }

    /// Holds the block at `at` for this worker from the next event on, or nothing for 0.
    pub fn hold(&mut self, worker: u32, at: u32)
        requires { worker < 64 }
        ensures held { ⟦<HeldWords as WordsIn>⟧.rest self.new
            ≡ slice_set (⟦<HeldWords as WordsIn>⟧.rest self.old) worker at }
        ensures words { ⟦<HeldWords as WordsIn>⟧.words self.new
            ≡ ⟦<HeldWords as WordsIn>⟧.words self.old }
        ensures aside { ⟦<HeldWords as WordsIn>⟧.aside self.new
            ≡ ⟦<HeldWords as WordsIn>⟧.aside self.old }
    {
        self.held[worker as usize] = at;
    }

    /// Begins an event with this mask, in which the worker 0 is the lowest bit. The windows of its
    /// workers are what is held for them, all others are closed, and no place is refused.
    pub fn begin(&mut self, mask: u64)
        ensures aside { ⟦<HeldWords as WordsIn>⟧.aside self.new
            ≡ event_begun mask (⟦<HeldWords as WordsIn>⟧.rest self.old) }
        ensures words { ⟦<HeldWords as WordsIn>⟧.words self.new
            ≡ ⟦<HeldWords as WordsIn>⟧.words self.old }
        ensures held { ⟦<HeldWords as WordsIn>⟧.rest self.new
            ≡ ⟦<HeldWords as WordsIn>⟧.rest self.old }
    {
        self.windows = opened_for(&self.held, mask);
        self.mask = mask;
        self.left = 64;
    }
}

// What is held for the workers of the mask, and 0 for all others.
fn opened_for(held: &[u32; 64], mask: u64) -> [u32; 64]
    ensures { result ≡ opened_for mask held.now }
{
    let mut windows = [0; 64];
    let mut left = mask;
    for worker in 0..64 {
        windows[worker] = if left % 2 == 1 { held[worker] } else { 0 };
        left /= 2;
    }
    windows
}

// Whether a window names the block at this place.
fn is_named(windows: &[u32], at: u32) -> bool
    ensures { result ≡ is_named windows.now at }
{
    0 < at && windows.contains(&at)
}

impl WordsIn for HeldWords {
    // What is held for each worker.
    type Rest = [u32; 64];

    ghost words = { λ s. s.items.items };

    ghost aside = { λ s.
        record { windows = s.windows; mask = s.mask; refused = drop s.left s.marks } };

    ghost rest = { λ s. s.held };

    ghost short = { λ s. s.short };

    fn len(&self) -> u32 {
        self.items.len() as u32
    }

    fn load(&mut self, i: u32) -> u64 {
        self.items[i as usize]
    }
}

impl Segment for HeldWords {
    fn store(&mut self, i: u32, w: u64) {
        self.items[i as usize] = w;
    }

    fn mask(&self) -> u64 {
        self.mask
    }

    /// Whether no window names the block. The workers with a window are in the mask already, so the
    /// mask and the windows are unchanged.
    fn probe(&mut self, at: u32) -> bool
        requires block { MayProbe (⟦<HeldWords as WordsIn>⟧.words self.old)
            (⟦<HeldWords as WordsIn>⟧.aside self.old).windows at }
        requires unrefused { has at (⟦<HeldWords as WordsIn>⟧.aside self.old).refused ≡ false }
        ensures words { ⟦<HeldWords as WordsIn>⟧.words self.new
            ≡ ⟦<HeldWords as WordsIn>⟧.words self.old }
        ensures free { result ≡ true → Frees (⟦<HeldWords as WordsIn>⟧.aside self.old)
            (⟦<HeldWords as WordsIn>⟧.aside self.new) at }
        ensures held { result ≡ false → Refuses (⟦<HeldWords as WordsIn>⟧.aside self.old)
            (⟦<HeldWords as WordsIn>⟧.aside self.new) at }
        ensures rest { ⟦<HeldWords as WordsIn>⟧.rest self.new
            ≡ ⟦<HeldWords as WordsIn>⟧.rest self.old }
        ensures answer { result
            ≡ not (is_named (⟦<HeldWords as WordsIn>⟧.aside self.old).windows at) }
        ensures windows { (⟦<HeldWords as WordsIn>⟧.aside self.new).windows
            ≡ (⟦<HeldWords as WordsIn>⟧.aside self.old).windows }
        ensures mask { (⟦<HeldWords as WordsIn>⟧.aside self.new).mask
            ≡ (⟦<HeldWords as WordsIn>⟧.aside self.old).mask }
    {
        if !is_named(&self.windows, at) {
            return true;
        }
        self.left -= 1;
        self.marks[self.left as usize] = at;
        false
    }
}
