//! A row of numbers that finds the first large and the last nonzero one.

ghost use Rattle.std.specs.Prelude.{◌≡◌, ◌≢◌, ℕ, ◌+◌, ◌/◌, ◌^◌, ◌<◌, ◌≤◌, nat_le, length};
ghost use Rattle.std.specs.Prelude.{replicate, slice_index, slice_set, IfOk, MatchOption};
ghost use Rattle.std.specs.List.{position};
ghost use Rattle.max_tree.specs.Pages.{largest};

use crate::bits::{BitTree, WORD};
use crate::tree::MaxTree;
use std::alloc::{AllocError, Global};
use std::marker::Model;

// The number of numbers in a page: two lines of the processor's cache.
pub const PAGE: usize = 32;

/// A row of numbers in pages, with the largest number of each page, and a bit for each number that
/// is not 0.
///
/// It takes memory for one number of 32 bits each, and at most an eighth and 6 more, as `weight`
/// says.
#[derive(Drop)]
pub struct MaxRow {
    numbers: MaxTree,
    // A bit for each number: whether it is not 0.
    some: BitTree,
}

// Clauses see the row.
impl Model for MaxRow {
    ghost use Rattle.std.specs.Prelude.{ℕ, List};
    ghost use Rattle.max_tree.specs.Bits.{IsNoted};

    ghost Value = { List ℕ };

    ghost view = { λ row. row.numbers };

    ghost invariant = { λ row. IsNoted row.numbers row.some };
}

impl MaxRow {
    /// A row of `count` zeros. Only this call allocates memory.
    pub fn new(alloc: Global, count: usize) -> Result<MaxRow, AllocError>
        requires { count < 2 ^ 32 }
        ensures row { IfOk result (λ row. row ≡ replicate count 0) }
        ensures count { IfOk result (λ row. length row ≡ count) }
        ensures zeros { IfOk result (λ row. (i : ℕ) → slice_index row i ≡ 0) }
    {
        let numbers = MaxTree::new(alloc, count)?;
        let some = BitTree::new(alloc, count.div_ceil(WORD))?;
        Ok(MaxRow { numbers, some })
    }

    /// The number of numbers.
    pub fn len(&self) -> usize
        ensures is { result ≡ length self.now }
        ensures short { result < 2 ^ 32 }
    {
        self.numbers.len()
    }

    /// For how many numbers of 32 bits it has memory: one each, the largest of pages and of pages
    /// together, and the bits, which are at least a sixteenth as many and at most an eighth and 6.
    pub fn weight(&self) -> usize
        ensures least { length self.now + length self.now / 16 ≤ result }
        ensures most { result ≤ length self.now + length self.now / 8 + 6 }
    {
        self.numbers.weight() + 2 * self.some.weight()
    }

    /// The number at `p`.
    pub fn get(&self, p: usize) -> u32
        requires { p < length self.now }
        ensures { result ≡ slice_index self.now p }
    {
        self.numbers.get(p)
    }

    /// Makes `value` the number at `p`.
    pub fn set(&mut self, p: usize, value: u32)
        requires { p < length self.old }
        ensures { self.new ≡ slice_set self.old p value }
    {
        let old = self.numbers.get(p);
        self.change(p, old, value);
    }

    // Makes `value` the number at `p`, which is `old`: a caller that has read it need not read it
    // again.
    pub(crate) fn change(&mut self, p: usize, old: u32, value: u32)
        requires inside { p < length self.old }
        requires old { old ≡ slice_index self.old p }
        ensures { self.new ≡ slice_set self.old p value }
    {
        self.numbers.change(p, old, value);
        if value == 0 {
            self.some.unmark(p);
        } else if old == 0 {
            self.some.mark(p);
        }
    }

    /// Makes all numbers 0, in time proportional to the pages and to the numbers that were not 0.
    pub fn clear(&mut self)
        ensures count { length self.new ≡ length self.old }
        ensures zeros { (i : ℕ) → slice_index self.new i ≡ 0 }
    {
        self.numbers.clear();
        self.some.clear();
    }

    /// The lowest place of a number that is `n` or more, if there is one.
    pub fn first_at_least(&self, n: u32) -> Option<usize>
        requires { 1 ≤ n }
        ensures { result ≡ position (λ value. nat_le n value) self.now }
    {
        self.numbers.first_at_least(n)
    }

    /// The last place before `p` of a number that is not 0, if there is one.
    pub fn last_nonzero_before(&self, p: usize) -> Option<usize>
        requires { p < length self.now }
        ensures found { MatchOption result ((k : ℕ) → k < p → slice_index self.now k ≡ 0)
            (λ q. (q < p) × (slice_index self.now q ≢ 0)) }
        ensures last { MatchOption result (Unit {0})
            (λ q. (k : ℕ) → q < k → k < p → slice_index self.now k ≡ 0) }
    {
        self.some.last_before(p)
    }

    /// The largest number, or 0.
    pub fn largest(&self) -> u32
        ensures { result ≡ largest self.now }
    {
        self.numbers.largest()
    }
}
