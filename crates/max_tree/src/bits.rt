//! A row of bits that finds the last one before a place.

ghost use Rattle.std.specs.Prelude.{◌≡◌, ◌≢◌, ℕ, ◌+◌, ◌-◌, ◌*◌, ◌^◌, ◌<◌, ◌≤◌, length};
ghost use Rattle.std.specs.Prelude.{replicate, IfOk, MatchOption};
ghost use Rattle.max_tree.specs.Bits.{bit};

use crate::words;
use std::alloc::{AllocError, Global};
use std::marker::Model;

// The number of bits of a word.
pub const WORD: usize = 64;

// A row of bits in words, with a row that has a bit for each word that is not 0, which has such a
// row again, until one word is enough. All rows are in one list, the lowest one first.
#[derive(Drop)]
pub struct BitTree {
    words: Vec<u64>,
    // The number of words of the lowest row.
    count: usize,
    // The number of rows above it.
    above: usize,
}

// Clauses see the words of the lowest row.
impl Model for BitTree {
    ghost use Rattle.std.specs.Prelude.{ℕ, ◌^◌, ◌<◌, List, take};
    ghost use Rattle.max_tree.specs.Bits.{AreWords};

    ghost Value = { List ℕ };

    ghost view = { λ tree. take tree.count tree.words.items };

    ghost invariant = { λ tree.
        (tree.count < 2 ^ 32) × AreWords tree.above tree.count tree.words.items };
}

impl BitTree {
    // `count` words of bits that are not set.
    pub fn new(alloc: Global, count: usize) -> Result<BitTree, AllocError>
        requires { count < 2 ^ 32 }
        ensures { IfOk result (λ row. row ≡ replicate count 0) }
    {
        let (above, room) = words::shape_for(count);
        let words = Vec::from_elem(alloc, 0u64, room)?;
        Ok(BitTree {
            words,
            count,
            above,
        })
    }

    // The number of words, with those of all rows above.
    pub fn weight(&self) -> usize
        ensures least { length self.now ≤ result }
        ensures most { result ≤ length self.now + length self.now - 1 }
    {
        self.words.len()
    }

    // Sets the bit at `i`.
    pub fn mark(&mut self, i: usize)
        requires { i < WORD * length self.old }
        ensures count { length self.new ≡ length self.old }
        ensures there { bit self.new i ≡ 1 }
        ensures others { (j : ℕ) → j ≢ i → bit self.new j ≡ bit self.old j }
    {
        words::mark(self.words.as_mut_slice(), self.count, self.above, i);
    }

    // Unsets the bit at `i`.
    pub fn unmark(&mut self, i: usize)
        requires { i < WORD * length self.old }
        ensures count { length self.new ≡ length self.old }
        ensures there { bit self.new i ≡ 0 }
        ensures others { (j : ℕ) → j ≢ i → bit self.new j ≡ bit self.old j }
    {
        words::unmark(self.words.as_mut_slice(), self.count, self.above, i);
    }

    // Unsets all bits.
    pub fn clear(&mut self)
        ensures { self.new ≡ replicate (length self.old) 0 }
    {
        words::clear(self.words.as_mut_slice());
    }

    // The last bit before `i` that is set, if there is one.
    pub fn last_before(&self, i: usize) -> Option<usize>
        requires { i < WORD * length self.now }
        ensures found { MatchOption result ((k : ℕ) → k < i → bit self.now k ≡ 0)
            (λ q. (q < i) × (bit self.now q ≡ 1)) }
        ensures last { MatchOption result (Unit {0})
            (λ q. (k : ℕ) → q < k → k < i → bit self.now k ≡ 0) }
    {
        words::last_before(self.words.as_slice(), self.count, self.above, i)
    }
}
