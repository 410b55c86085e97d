//! A row of pairs of which one number is 0, or the first one is 2.

ghost use Rattle.std.specs.Prelude.{◌≡◌, ◌≢◌, ℕ, ◌+◌, ◌-◌, ◌/◌, ◌%◌, ◌^◌, ◌<◌, ◌≤◌, ◌==◌, nat_le};
ghost use Rattle.std.specs.Prelude.{length, min, if◌then◌else◌};
ghost use Rattle.std.specs.Prelude.{slice_index, MatchOption};
ghost use Rattle.std.specs.List.{position};
ghost use Rattle.max_tree.specs.Pages.{largest};
ghost use Rattle.max_tree.specs.Halves.{half, other_half, MayStand, IsPair};

use crate::row::MaxRow;
use std::marker::Model;

/// A row of even numbers below 2 ^ 31, of which one of each pair is 0, or the first one is 2. A
/// pair takes the memory of one number.
#[derive(Drop)]
pub struct PairRow {
    row: MaxRow,
}

// Clauses see the numbers.
impl Model for PairRow {
    ghost use Rattle.std.specs.Prelude.{◌≡◌, ◌≢◌, ℕ, ◌<◌, ◌^◌, List, length, slice_index};
    ghost use Rattle.max_tree.specs.Halves.{halves_of, IsPair};

    ghost Value = { List ℕ };

    ghost view = { λ pairs. halves_of pairs.row };

    ghost invariant = { λ pairs.
        (length pairs.row < 2 ^ 32) × ((i : ℕ) → IsPair (slice_index pairs.row i)) };
}

impl PairRow {
    /// Two zeros for each number of the row, which is all zeros.
    pub fn new(row: MaxRow) -> PairRow
        requires { (i : ℕ) → slice_index row i ≡ 0 }
        ensures count { length result ≡ length row + length row }
        ensures zeros { (i : ℕ) → slice_index result i ≡ 0 }
    {
        let _count = row.len();
        PairRow { row }
    }

    /// The number at `p`.
    pub fn get(&self, p: usize) -> u32
        requires { p < length self.now }
        ensures { result ≡ slice_index self.now p }
    {
        half_of(self.row.get(p / 2), (p % 2) as u32)
    }

    /// Makes `size` the number at `p`, if the other number of the pair is 0, or the first is 2.
    pub fn put(&mut self, p: usize, size: u32)
        requires inside { p < length self.old }
        requires size { (size % 2 ≡ 0) × (2 ≤ size) × (size < 2 ^ 31) }
        requires beside { MayStand p size (slice_index self.old (other_half p)) }
        ensures count { length self.new ≡ length self.old }
        ensures there { slice_index self.new p ≡ size }
        ensures others { (i : ℕ) → i ≢ p → slice_index self.new i ≡ slice_index self.old i }
    {
        let own = self.row.get(p / 2);
        let pair = pair_with(own, (p % 2) as u32, size);
        self.row.change(p / 2, own, pair);
    }

    /// Makes the number at `p` 0.
    pub fn clear_at(&mut self, p: usize)
        requires inside { p < length self.old }
        ensures count { length self.new ≡ length self.old }
        ensures gone { slice_index self.new p ≡ 0 }
        ensures others { (i : ℕ) → i ≢ p → slice_index self.new i ≡ slice_index self.old i }
    {
        let own = self.row.get(p / 2);
        let pair = pair_with(own, (p % 2) as u32, 0);
        self.row.change(p / 2, own, pair);
    }

    /// Makes the number at `gone` 0, and `size` the number at `p`.
    pub fn move_to(&mut self, gone: usize, p: usize, size: u32)
        requires inside { (gone < length self.old) × (p < length self.old) }
        requires apart { gone ≢ p }
        requires size { (size % 2 ≡ 0) × (2 ≤ size) × (size < 2 ^ 31) }
        requires beside { other_half p ≢ gone
            → MayStand p size (slice_index self.old (other_half p)) }
        ensures count { length self.new ≡ length self.old }
        ensures there { slice_index self.new p ≡ size }
        ensures gone { slice_index self.new gone ≡ 0 }
        ensures others { (i : ℕ) → i ≢ gone → i ≢ p
            → slice_index self.new i ≡ slice_index self.old i }
    {
        if gone / 2 == p / 2 {
            self.row.set(p / 2, alone((p % 2) as u32, size));
            return;
        }
        // The larger number first: the other one's way up then ends where the ways join.
        self.put(p, size);
        self.clear_at(gone);
    }

    /// Makes all numbers 0.
    pub fn clear(&mut self)
        ensures count { length self.new ≡ length self.old }
        ensures zeros { (i : ℕ) → slice_index self.new i ≡ 0 }
    {
        self.row.clear();
    }

    /// The lowest place of a number that is `n` or more, if there is one.
    pub fn first_at_least(&self, n: u32) -> Option<usize>
        requires { (n % 2 ≡ 0) × (2 ≤ n) }
        ensures { result ≡ position (λ value. nat_le n value) self.now }
    {
        // Twice such an `n` would not fit, and no number is as large.
        if n >= 1 << 31 {
            let _largest = self.largest();
            return None;
        }
        let Some(k) = self.row.first_at_least(2 * n) else {
            return None;
        };
        let pair = self.row.get(k);
        // If both are nonzero the first one is 2.
        if pair % 4 == 2 && n == 2 {
            return Some(2 * k);
        }
        Some(2 * k + second_or_first(pair))
    }

    /// The last place before `p` of a number that is not 0, if there is one.
    pub fn last_nonzero_before(&self, p: usize) -> Option<usize>
        requires { p < length self.now }
        ensures found { MatchOption result ((k : ℕ) → k < p → slice_index self.now k ≡ 0)
            (λ q. (q < p) × (slice_index self.now q ≢ 0)) }
        ensures last { MatchOption result (Unit {0})
            (λ q. (k : ℕ) → q < k → k < p → slice_index self.now k ≡ 0) }
    {
        if p % 2 == 1 && half_of(self.row.get(p / 2), 0) > 0 {
            return Some(p - 1);
        }
        let Some(k) = self.row.last_nonzero_before(p / 2) else {
            return None;
        };
        Some(2 * k + second_or_first(self.row.get(k)))
    }

    /// The largest number, or 0.
    pub fn largest(&self) -> u32
        ensures is { result ≡ largest self.now }
        ensures small { result < 2 ^ 31 }
    {
        self.row.largest() / 4 * 2
    }
}

// The last number of a pair that is not 0: 0 if only the first one is nonzero, and 1 for the second
// one. The processor need not guess which it is.
fn second_or_first(pair: u32) -> usize
    ensures { result ≡ min (pair % 4) 1 }
{
    (pair % 4).min(1) as usize
}

// The first or the second number of a pair.
fn half_of(pair: u32, which: u32) -> u32
    requires { which < 2 }
    ensures { result ≡ half pair which }
{
    let larger = pair / 4 * 2;
    if pair % 4 == which {
        return larger;
    }
    if pair % 4 != 2 {
        return 0;
    }
    if which == 0 { 2 } else { larger }
}

// The pair of these two numbers.
fn pair_of(first: u32, second: u32) -> u32
    requires even { (first % 2 ≡ 0) × (second % 2 ≡ 0) }
    requires small { (first < 2 ^ 31) × (second < 2 ^ 31) }
    requires beside { first ≢ 0 → second ≢ 0 → first ≡ 2 }
    ensures first { half result 0 ≡ first }
    ensures second { half result 1 ≡ second }
    ensures pair { IsPair result }
{
    if second == 0 {
        return 2 * first;
    }
    if first == 0 {
        2 * second + 1
    } else {
        2 * second + 2
    }
}

// The pair of this number, as the first or the second one, and of 0.
fn alone(which: u32, size: u32) -> u32
    requires which { which < 2 }
    requires size { (size % 2 ≡ 0) × (size < 2 ^ 31) }
    ensures there { half result which ≡ size }
    ensures other { half result (1 - which) ≡ 0 }
    ensures pair { IsPair result }
{
    if size == 0 { 0 } else { 2 * size + which }
}

// The pair with this number as the first or the second one.
fn pair_with(pair: u32, which: u32, size: u32) -> u32
    requires which { which < 2 }
    requires size { (size % 2 ≡ 0) × (size < 2 ^ 31) }
    requires beside { size ≢ 0 → MayStand which size (half pair (1 - which)) }
    ensures there { half result which ≡ size }
    ensures other { half result (1 - which) ≡ half pair (1 - which) }
    ensures pair { IsPair result }
{
    // The other number is seldom nonzero, so the processor guesses this right.
    if (pair == 0) | (pair % 4 == which) {
        return alone(which, size);
    }
    if which == 0 {
        pair_of(size, half_of(pair, 1))
    } else {
        pair_of(half_of(pair, 0), size)
    }
}
