//! Rows of numbers that know their largest one, and rows of pairs, step by step.

ghost use Rattle.std.specs.Prelude.{◌≡◌, ℕ, ◌+◌, ◌%◌, ◌<◌, ◌≤◌, ◌^◌, true, length, slice_index};
ghost use Rattle.max_tree.specs.Halves.{other_half, MayStand};

use max_tree::{MaxRow, PairRow};
use std::alloc::{AllocError, Global};
use std::test::Fail;

// A call and its expected result.
#[derive(Clone, Copy)]
enum Step {
    // The number made the one at the place.
    Put(usize, u32),
    // Of a row of pairs: the number at the one place made 0, and this number put at the other.
    Move(usize, usize, u32),
    // The number at the place made 0.
    Zero(usize),
    Clear,
    Get(usize, u32),
    First(u32, Option<usize>),
    LastBefore(usize, Option<usize>),
    Largest(u32),
}

// Plays a step on a row, and returns whether it had the expected result.
fn play_row(row: &mut MaxRow, step: Step) -> bool
    ensures { length row.new ≡ length row.old }
{
    match step {
        Step::Put(p, value) => {
            if p < row.len() {
                row.set(p, value);
            }
            true
        },
        Step::Move(_, _, _) => false,
        Step::Zero(p) => {
            if p < row.len() {
                row.set(p, 0);
            }
            true
        },
        Step::Clear => {
            row.clear();
            true
        },
        Step::Get(p, want) => p < row.len() && row.get(p) == want,
        Step::First(n, want) => n > 0 && row.first_at_least(n) == want,
        Step::LastBefore(p, want) => p < row.len() && row.last_nonzero_before(p) == want,
        Step::Largest(want) => row.largest() == want,
    }
}

// Plays a step on a row of pairs of that many numbers, and returns whether it had the expected
// result.
fn play_pair(pairs: &mut PairRow, count: usize, step: Step) -> bool
    requires { length pairs.old ≡ count }
    ensures { length pairs.new ≡ count }
{
    match step {
        Step::Put(p, size) => put(pairs, count, p, size),
        Step::Move(gone, p, size) => move_to(pairs, count, gone, p, size),
        Step::Zero(p) => {
            if p < count && pairs.get(p) > 0 {
                pairs.clear_at(p);
                return true;
            }
            false
        },
        Step::Clear => {
            pairs.clear();
            true
        },
        Step::Get(p, want) => p < count && pairs.get(p) == want,
        Step::First(n, want) => n % 2 == 0 && n > 1 && pairs.first_at_least(n) == want,
        Step::LastBefore(p, want) => p < count && pairs.last_nonzero_before(p) == want,
        Step::Largest(want) => pairs.largest() == want,
    }
}

// The other place of a pair.
fn other(p: usize) -> usize
    ensures { result ≡ other_half p }
{
    if p % 2 == 0 { p + 1 } else { p - 1 }
}

// Whether a number may be at a place next to the other one of its pair.
fn may_stand(p: usize, size: u32, other: u32) -> bool
    ensures { result ≡ true → MayStand p size other }
{
    if other == 0 {
        return true;
    }
    if p % 2 == 0 { size == 2 } else { other == 2 }
}

// Whether it is a number that a row of pairs may have.
fn is_size(size: u32) -> bool
    ensures { result ≡ true → (size % 2 ≡ 0) × (2 ≤ size) × (size < 2 ^ 31) }
{
    size % 2 == 0 && size > 1 && size < 1 << 31
}

// Makes an even number the one at a place, if the other one of the pair allows it, and returns
// whether it could.
fn put(pairs: &mut PairRow, count: usize, p: usize, size: u32) -> bool
    requires { length pairs.old ≡ count }
    ensures { length pairs.new ≡ count }
{
    let beside = other(p);
    if p >= count || beside >= count || !is_size(size) {
        return false;
    }
    if may_stand(p, size, pairs.get(beside)) {
        pairs.put(p, size);
        return true;
    }
    false
}

// Makes one number 0 and an even number the one at another place, and returns whether it could.
fn move_to(pairs: &mut PairRow, count: usize, gone: usize, p: usize, size: u32) -> bool
    requires { length pairs.old ≡ count }
    ensures { length pairs.new ≡ count }
{
    let beside = other(p);
    if gone >= count || p >= count || beside >= count || gone == p || !is_size(size) {
        return false;
    }
    if beside == gone || may_stand(p, size, pairs.get(beside)) {
        pairs.move_to(gone, p, size);
        return true;
    }
    false
}

// Plays steps on a row of this many zeros, and returns how many had their expected results before
// one that did not.
fn play_on_row(alloc: Global, count: usize, steps: &[Step]) -> Result<usize, AllocError>
    requires { count < 2 ^ 32 }
{
    let mut row = MaxRow::new(alloc, count)?;
    for (i, step) in steps.iter().enumerate() {
        if !play_row(&mut row, *step) {
            return Ok(i);
        }
    }
    Ok(steps.len())
}

// The same on a row of twice as many numbers, in pairs.
fn play_on_pairs(alloc: Global, count: usize, steps: &[Step]) -> Result<usize, AllocError>
    requires { count < 2 ^ 32 }
{
    let mut pairs = PairRow::new(MaxRow::new(alloc, count)?);
    for (i, step) in steps.iter().enumerate() {
        if !play_pair(&mut pairs, 2 * count, *step) {
            return Ok(i);
        }
    }
    Ok(steps.len())
}

#[test]
fn finds_numbers_of_a_row(rt: HostRuntime) -> Result<(), Fail> {
    let steps = [
        Step::Get(0, 0),
        Step::First(1, None),
        Step::LastBefore(99, None),
        Step::Largest(0),
        Step::Put(98, 7),
        Step::Put(40, 9),
        Step::Put(3, 5),
        Step::Put(2, 4),
        Step::Get(98, 7),
        Step::First(1, Some(2)),
        Step::First(5, Some(3)),
        Step::First(6, Some(40)),
        Step::First(10, None),
        Step::LastBefore(2, None),
        Step::LastBefore(3, Some(2)),
        Step::LastBefore(40, Some(3)),
        Step::LastBefore(98, Some(40)),
        Step::LastBefore(99, Some(98)),
        Step::Largest(9),
        Step::Zero(40),
        Step::First(6, Some(98)),
        Step::LastBefore(98, Some(3)),
        Step::Largest(7),
        Step::Put(98, 1),
        Step::Largest(5),
        Step::Put(0, u32::MAX),
        Step::First(u32::MAX, Some(0)),
        Step::Clear,
        Step::Get(98, 0),
        Step::First(1, None),
        Step::Largest(0),
        Step::Put(33, 2),
        Step::First(2, Some(33)),
    ];
    assert_eq!(rt; play_on_row(rt.alloc(), 100, &steps)?, 33);
    let none = [Step::First(1, None), Step::Largest(0), Step::Clear];
    assert_eq!(rt; play_on_row(rt.alloc(), 0, &none)?, 3);
    Ok(())
}

// Pages have 32 numbers, and the last one of these has 4.
#[test]
fn finds_numbers_at_the_ends_of_pages(rt: HostRuntime) -> Result<(), Fail> {
    let steps = [
        Step::Put(0, 3),
        Step::Put(31, 5),
        Step::Put(32, 4),
        Step::Put(63, 6),
        Step::Put(95, 1),
        Step::Put(96, 8),
        Step::Put(99, 8),
        Step::First(1, Some(0)),
        Step::First(4, Some(31)),
        Step::First(6, Some(63)),
        Step::First(7, Some(96)),
        Step::First(9, None),
        Step::LastBefore(0, None),
        Step::LastBefore(31, Some(0)),
        Step::LastBefore(32, Some(31)),
        Step::LastBefore(33, Some(32)),
        Step::LastBefore(63, Some(32)),
        Step::LastBefore(64, Some(63)),
        Step::LastBefore(95, Some(63)),
        Step::LastBefore(96, Some(95)),
        Step::LastBefore(97, Some(96)),
        Step::LastBefore(99, Some(96)),
    ];
    assert_eq!(rt; play_on_row(rt.alloc(), 100, &steps)?, 22);
    Ok(())
}

#[test]
fn finds_numbers_of_pairs(rt: HostRuntime) -> Result<(), Fail> {
    let steps = [
        Step::First(2, None),
        Step::LastBefore(199, None),
        Step::Largest(0),
        Step::Put(5, 6),
        Step::Get(5, 6),
        Step::Get(4, 0),
        Step::Put(196, 10),
        Step::Put(81, 8),
        Step::First(2, Some(5)),
        Step::First(8, Some(81)),
        Step::First(10, Some(196)),
        Step::First(12, None),
        Step::LastBefore(5, None),
        Step::LastBefore(6, Some(5)),
        Step::LastBefore(81, Some(5)),
        Step::LastBefore(82, Some(81)),
        Step::LastBefore(197, Some(196)),
        Step::Largest(10),
        Step::Move(5, 4, 12),
        Step::Get(5, 0),
        Step::Get(4, 12),
        Step::LastBefore(5, Some(4)),
        Step::Largest(12),
        Step::Move(81, 60, 2),
        Step::LastBefore(196, Some(60)),
        Step::First(2, Some(4)),
        Step::Zero(4),
        Step::First(2, Some(60)),
        Step::Largest(10),
        Step::Clear,
        Step::Get(196, 0),
        Step::Largest(0),
        Step::Put(0, 2147483646),
        Step::First(2147483646, Some(0)),
        Step::First(2147483648, None),
        Step::First(4294967294, None),
        Step::Largest(2147483646),
    ];
    assert_eq!(rt; play_on_pairs(rt.alloc(), 100, &steps)?, 37);
    Ok(())
}

// Both numbers of a pair, of which the first is 2.
#[test]
fn finds_twins_in_pairs(rt: HostRuntime) -> Result<(), Fail> {
    let steps = [
        Step::Put(8, 2),
        Step::Put(9, 30),
        Step::Get(8, 2),
        Step::Get(9, 30),
        Step::First(2, Some(8)),
        Step::First(4, Some(9)),
        Step::First(32, None),
        Step::Largest(30),
        Step::LastBefore(8, None),
        Step::LastBefore(9, Some(8)),
        Step::LastBefore(10, Some(9)),
        Step::Put(9, 2),
        Step::Get(8, 2),
        Step::Get(9, 2),
        Step::First(2, Some(8)),
        Step::First(4, None),
        Step::Zero(8),
        Step::Get(9, 2),
        Step::First(2, Some(9)),
        Step::LastBefore(9, None),
        Step::Put(9, 6),
        Step::Put(8, 2),
        Step::Get(9, 6),
        Step::Zero(9),
        Step::Get(8, 2),
        Step::LastBefore(10, Some(8)),
        Step::Put(3, 12),
        Step::Move(3, 9, 14),
        Step::Get(8, 2),
        Step::Get(9, 14),
        Step::First(4, Some(9)),
        Step::Move(8, 2, 4),
        Step::Get(8, 0),
        Step::First(6, Some(9)),
        Step::Move(2, 8, 2),
        Step::Get(9, 14),
        Step::Move(9, 8, 8),
        Step::Get(9, 0),
        Step::Get(8, 8),
        Step::Largest(8),
        Step::Put(198, 2),
        Step::Put(199, 2147483646),
        Step::Get(198, 2),
        Step::Get(199, 2147483646),
        Step::First(10, Some(199)),
        Step::Largest(2147483646),
    ];
    assert_eq!(rt; play_on_pairs(rt.alloc(), 100, &steps)?, 46);
    Ok(())
}

// A count of numbers, and for how many a row of them has memory: each number, one for each page of
// 32 and for each page of those, and two for each 64 numbers and for each 64 of those.
const WEIGHTS: [(usize, usize); 7] = [
    (0, 0),
    (1, 3),
    (32, 34),
    (33, 37),
    (1024, 1090),
    (1025, 1096),
    (2048, 2180),
];

#[test]
fn counts_numbers(rt: HostRuntime) -> Result<(), Fail> {
    for (count, weight) in WEIGHTS {
        let row = MaxRow::new(rt.alloc(), count)?;
        assert_eq!(rt; row.len(), count);
        assert_eq!(rt; row.weight(), weight);
    }
    Ok(())
}
