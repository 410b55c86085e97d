//! Which numbers of 32 are large enough, as bits.

ghost use Rattle.std.specs.Prelude.{◌≡◌, ◌+◌, ◌-◌, ◌^◌, ◌<◌, ◌≤◌, nat_le, length};
ghost use Rattle.std.specs.Prelude.{slice_index};
ghost use Rattle.max_tree.specs.Marks.{IsMarked};

use crate::row::PAGE;

// The numbers of a whole page as bits: those that are `n` or more. The highest bit is the first
// one.
pub fn marks_from(numbers: &[u32], start: usize, n: u32) -> u32
    requires { start + PAGE ≤ length numbers.now }
    ensures { IsMarked (λ j. nat_le n (slice_index numbers.now (start + (PAGE - 1 - j)))) PAGE
        result }
{
    let mut marks = 0;
    for j in 0..PAGE {
        if numbers[start + (PAGE - 1 - j)] >= n {
            marks += 1u32 << j;
        }
    }
    marks
}

// The place of the highest bit.
pub fn highest(marks: u32) -> usize
    requires { 1 ≤ marks }
    ensures low { 2 ^ result ≤ marks }
    ensures high { marks < 2 ^ (result + 1) }
{
    31 - marks.leading_zeros() as usize
}
