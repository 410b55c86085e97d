//! Pages of 32 numbers: the largest of each, and the first that is large enough.

ghost use Rattle.std.specs.Prelude.{◌≡◌, ◌≢◌, ℕ, ◌+◌, ◌*◌, ◌/◌, ◌<◌, ◌≤◌, length, slice_index};
ghost use Rattle.std.specs.Prelude.{slice_set, MatchOption, min};
ghost use Rattle.max_tree.specs.Pages.{largest, page, IsPaged};

use crate::marks::{highest, marks_from};
use crate::row::PAGE;

// The largest of the numbers, or 0.
pub fn largest_of(numbers: &[u32]) -> u32
    ensures { result ≡ largest numbers.now }
{
    let mut top = 0;
    for number in numbers {
        top = top.max(*number);
    }
    top
}

// The largest number of the page, or 0.
pub fn top_of(numbers: &[u32], k: usize) -> u32
    requires { PAGE * k < length numbers.now }
    ensures { result ≡ largest (page numbers.now k) }
{
    let start = PAGE * k;
    if numbers.len() - start >= PAGE {
        return largest_of(&numbers[start..start + PAGE]);
    }
    // The last page may have fewer numbers.
    largest_of(&numbers[start..])
}

// The largest number of the page of `p`, if `top` was it before `value` replaced `old` at `p`. It
// reads the page only if `old` was the top.
pub fn top_after(numbers: &[u32], p: usize, old: u32, value: u32, top: u32) -> u32
    requires inside { p < length numbers.now }
    requires value { value ≡ slice_index numbers.now p }
    requires before { top ≡ largest (page (slice_set numbers.now p old) (p / PAGE)) }
    ensures { result ≡ largest (page numbers.now (p / PAGE)) }
{
    if value >= top {
        value
    } else if old < top {
        top
    } else {
        top_of(numbers, p / PAGE)
    }
}

// The first number of the page that is `n` or more.
pub fn first_in_page(numbers: &[u32], k: usize, n: u32) -> Option<usize>
    requires { PAGE * k ≤ length numbers.now }
    ensures none { MatchOption result ((i : ℕ) → PAGE * k ≤ i → i < PAGE * k + PAGE
        → i < length numbers.now → slice_index numbers.now i < n)
        (λ at. (i : ℕ) → PAGE * k ≤ i → i < at → slice_index numbers.now i < n) }
    ensures found { MatchOption result (Unit {0}) (λ at. (PAGE * k ≤ at)
        × (at < PAGE * k + PAGE) × (at < length numbers.now) × (n ≤ slice_index numbers.now at)) }
{
    let start = PAGE * k;
    if numbers.len() - start >= PAGE {
        let marks = marks_from(numbers, start, n);
        if marks == 0 {
            return None;
        }
        return Some(start + (PAGE - 1 - highest(marks)));
    }
    // The last page may have fewer numbers.
    for i in start..numbers.len() {
        if numbers[i] >= n {
            return Some(i);
        }
    }
    None
}

// Makes the numbers from `start` up to `end` 0.
fn clear_span(numbers: &mut [u32], start: usize, end: usize)
    requires { (start ≤ end) × (end ≤ length numbers.old) }
    ensures count { length numbers.new ≡ length numbers.old }
    ensures zeros { (i : ℕ) → start ≤ i → i < end → slice_index numbers.new i ≡ 0 }
    ensures before { (i : ℕ) → i < start → slice_index numbers.new i ≡ slice_index numbers.old i }
    ensures after { (i : ℕ) → end ≤ i → slice_index numbers.new i ≡ slice_index numbers.old i }
{
    for i in start..end {
        numbers[i] = 0;
    }
}

// Makes the numbers of the page 0.
fn clear_page(numbers: &mut [u32], k: usize)
    requires { PAGE * k ≤ length numbers.old }
    ensures count { length numbers.new ≡ length numbers.old }
    ensures zeros { (i : ℕ) → PAGE * k ≤ i → i < PAGE * k + PAGE → slice_index numbers.new i ≡ 0 }
    ensures before { (i : ℕ) → i < PAGE * k
        → slice_index numbers.new i ≡ slice_index numbers.old i }
    ensures after { (i : ℕ) → PAGE * k + PAGE ≤ i
        → slice_index numbers.new i ≡ slice_index numbers.old i }
{
    let start = PAGE * k;
    let end = numbers.len();
    if end - start >= PAGE {
        clear_span(numbers, start, start + PAGE);
    } else {
        // The last page may have fewer numbers.
        clear_span(numbers, start, end);
    }
}

// Makes all numbers 0: those of each page whose top is not 0.
pub fn clear_pages(numbers: &mut [u32], tops: &[u32])
    requires { IsPaged numbers.old tops.now }
    ensures count { length numbers.new ≡ length numbers.old }
    ensures zeros { (i : ℕ) → slice_index numbers.new i ≡ 0 }
{
    for k in 0..tops.len() {
        if tops[k] > 0 {
            clear_page(numbers, k);
        }
    }
}
