//! Rows of the largest numbers, 32 under each of the next row.

ghost use Rattle.std.specs.Prelude.{◌≡◌, ℕ, ◌+◌, ◌*◌, ◌/◌, ◌^◌, ◌<◌, ◌≤◌, nat_le, length, take};
ghost use Rattle.std.specs.Prelude.{replicate, slice_index, slice_set};
ghost use Rattle.std.specs.List.{position};
ghost use Rattle.max_tree.specs.Pages.{largest, pages_of, AreLevels};

use crate::pages;
use crate::row::PAGE;

// The number of pages that this many numbers fill.
pub fn page_count(count: usize) -> usize
    requires { count < 2 ^ 32 }
    ensures { result ≡ pages_of count }
{
    (count + (PAGE - 1)) / PAGE
}

// How many rows of tops this many numbers need, and how many numbers all the rows have.
pub fn shape_for(count: usize) -> (usize, usize)
    requires { count < 2 ^ 32 }
    ensures levels { AreLevels result.0 count (replicate result.1 0) }
    ensures few { result.0 ≤ count }
    ensures most { result.1 ≤ count + count / 16 }
{
    if count <= PAGE {
        return (0, count);
    }
    let (above, room) = shape_for(page_count(count));
    (above + 1, count + room)
}

// Makes `value` the number at `p` of the first row, which is `old`: a caller that has read it need
// not read it again.
pub fn change(levels: &mut [u32], count: usize, above: usize, p: usize, old: u32, value: u32)
    requires levels { AreLevels above count levels.old }
    requires inside { p < count }
    requires old { old ≡ slice_index levels.old p }
    ensures levels { AreLevels above count levels.new }
    ensures row { take count levels.new ≡ slice_set (take count levels.old) p value }
{
    if above == 0 {
        levels[p] = value;
        return;
    }
    let (numbers, tops) = levels.split_at_mut(count);
    numbers[p] = value;
    let top = tops[p / PAGE];
    let new = pages::top_after(numbers, p, old, value, top);
    if new == top {
        return;
    }
    change(tops, page_count(count), above - 1, p / PAGE, top, new);
}

// Makes all numbers 0, in time proportional to the pages and to the numbers that were not 0.
pub fn clear(levels: &mut [u32], count: usize, above: usize)
    requires { AreLevels above count levels.old }
    ensures { levels.new ≡ replicate (length levels.old) 0 }
{
    if above == 0 {
        levels.fill(0);
        return;
    }
    let pages = page_count(count);
    let (numbers, tops) = levels.split_at_mut(count);
    pages::clear_pages(numbers, &tops[..pages]);
    clear(tops, pages, above - 1);
}

// The lowest place of a number of the first row that is `n` or more, if there is one.
pub fn first_at_least(levels: &[u32], count: usize, above: usize, n: u32) -> Option<usize>
    requires levels { AreLevels above count levels.now }
    requires some { 1 ≤ n }
    ensures { result ≡ position (λ value. nat_le n value) (take count levels.now) }
{
    if above == 0 {
        return pages::first_in_page(levels, 0, n);
    }
    let (numbers, tops) = levels.split_at(count);
    let Some(k) = first_at_least(tops, page_count(count), above - 1, n) else {
        return None;
    };
    pages::first_in_page(numbers, k, n)
}

// The largest number of the first row, or 0.
pub fn largest_in(levels: &[u32], count: usize, above: usize) -> u32
    requires { AreLevels above count levels.now }
    ensures { result ≡ largest (take count levels.now) }
{
    if above == 0 {
        return pages::largest_of(levels);
    }
    let (_, tops) = levels.split_at(count);
    largest_in(tops, page_count(count), above - 1)
}
