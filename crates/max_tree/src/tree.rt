//! Pages of numbers under rows of tops: the first large number and the largest one.

ghost use Rattle.std.specs.Prelude.{◌≡◌, ℕ, ◌+◌, ◌-◌, ◌/◌, ◌^◌, ◌<◌, ◌≤◌, nat_le, length};
ghost use Rattle.std.specs.Prelude.{replicate, slice_index, slice_set, IfOk};
ghost use Rattle.std.specs.List.{position};
ghost use Rattle.max_tree.specs.Pages.{largest};

use crate::levels;
use crate::row::PAGE;
use std::alloc::{AllocError, Global};
use std::marker::Model;

// A row of numbers in pages, with the row of the largest number of each page, which has such a row
// again, until one page is enough. All rows are in one list, the lowest one first.
#[derive(Drop)]
pub struct MaxTree {
    levels: Vec<u32>,
    // The number of numbers of the lowest row.
    count: usize,
    // The number of rows above it.
    above: usize,
}

// Clauses see the lowest row.
impl Model for MaxTree {
    ghost use Rattle.std.specs.Prelude.{ℕ, ◌^◌, ◌<◌, List, take};
    ghost use Rattle.max_tree.specs.Pages.{AreLevels};

    ghost Value = { List ℕ };

    ghost view = { λ tree. take tree.count tree.levels.items };

    ghost invariant = { λ tree.
        (tree.count < 2 ^ 32) × AreLevels tree.above tree.count tree.levels.items };
}

impl MaxTree {
    // A row of `count` zeros.
    pub fn new(alloc: Global, count: usize) -> Result<MaxTree, AllocError>
        requires { count < 2 ^ 32 }
        ensures { IfOk result (λ row. row ≡ replicate count 0) }
    {
        let (above, room) = levels::shape_for(count);
        let levels = Vec::from_elem(alloc, 0u32, room)?;
        Ok(MaxTree {
            levels,
            count,
            above,
        })
    }

    // The number of numbers.
    pub fn len(&self) -> usize
        ensures is { result ≡ length self.now }
        ensures short { result < 2 ^ 32 }
    {
        self.count
    }

    // The number of numbers, with those of all rows above.
    pub fn weight(&self) -> usize
        ensures least { length self.now ≤ result }
        ensures pages { PAGE < length self.now
            → length self.now + (length self.now + (PAGE - 1)) / PAGE ≤ result }
        ensures most { result ≤ length self.now + length self.now / 16 }
    {
        self.levels.len()
    }

    // The number at `p`.
    pub fn get(&self, p: usize) -> u32
        requires { p < length self.now }
        ensures { result ≡ slice_index self.now p }
    {
        self.levels[p]
    }

    // Makes `value` the number at `p`, which is `old`: a caller that has read it need not read it
    // again.
    pub fn change(&mut self, p: usize, old: u32, value: u32)
        requires inside { p < length self.old }
        requires old { old ≡ slice_index self.old p }
        ensures { self.new ≡ slice_set self.old p value }
    {
        levels::change(
            self.levels.as_mut_slice(),
            self.count,
            self.above,
            p,
            old,
            value,
        );
    }

    // Makes all numbers 0, in time proportional to the pages and to the numbers that were not 0.
    pub fn clear(&mut self)
        ensures { self.new ≡ replicate (length self.old) 0 }
    {
        levels::clear(self.levels.as_mut_slice(), self.count, self.above);
    }

    // The lowest place of a number that is `n` or more, if there is one.
    pub fn first_at_least(&self, n: u32) -> Option<usize>
        requires { 1 ≤ n }
        ensures { result ≡ position (λ value. nat_le n value) self.now }
    {
        levels::first_at_least(self.levels.as_slice(), self.count, self.above, n)
    }

    // The largest number, or 0.
    pub fn largest(&self) -> u32
        ensures { result ≡ largest self.now }
    {
        levels::largest_in(self.levels.as_slice(), self.count, self.above)
    }
}
