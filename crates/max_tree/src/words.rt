//! Rows of bits in words, 64 under each bit of the next row.

ghost use Rattle.std.specs.Prelude.{◌≡◌, ◌≢◌, ℕ, ◌+◌, ◌*◌, ◌%◌, ◌^◌, ◌<◌, ◌≤◌, length, take};
ghost use Rattle.std.specs.Prelude.{replicate, slice_index, MatchOption};
ghost use Rattle.std.specs.Int.{bit_at};
ghost use Rattle.max_tree.specs.Bits.{bit, words_of, AreWords};

use crate::bits::WORD;

// The bit of a word at this place.
fn bit_of(i: usize) -> u64
    ensures { result ≡ 2 ^ (i % WORD) }
{
    1u64 << (i % WORD)
}

// The place of the highest bit.
fn highest(word: u64) -> usize
    requires { word ≢ 0 }
    ensures inside { result < WORD }
    ensures set_is { bit_at word result ≡ 1 }
    ensures last { (j : ℕ) → result < j → bit_at word j ≡ 0 }
{
    63 - word.leading_zeros() as usize
}

// The number of words that this many bits fill.
pub fn word_count(count: usize) -> usize
    requires { count < 2 ^ 32 }
    ensures { result ≡ words_of count }
{
    (count + (WORD - 1)) / WORD
}

// How many rows this many words need above them, and how many words all the rows have.
pub fn shape_for(count: usize) -> (usize, usize)
    requires { count < 2 ^ 32 }
    ensures levels { AreWords result.0 count (replicate result.1 0) }
    ensures few { result.0 ≤ count }
    ensures most { result.1 ≤ count + count }
{
    if count <= 1 {
        return (0, count);
    }
    let (above, room) = shape_for(word_count(count));
    (above + 1, count + room)
}

// Sets the bit at `i` of the first row.
pub fn mark(words: &mut [u64], count: usize, above: usize, i: usize)
    requires levels { AreWords above count words.old }
    requires inside { i < WORD * count }
    ensures levels { AreWords above count words.new }
    ensures there { bit (take count words.new) i ≡ 1 }
    ensures others { (j : ℕ) → j ≢ i
        → bit (take count words.new) j ≡ bit (take count words.old) j }
{
    let word = words[i / WORD];
    words[i / WORD] = word | bit_of(i);
    if word > 0 || above == 0 {
        return;
    }
    let (_, some) = words.split_at_mut(count);
    mark(some, word_count(count), above - 1, i / WORD);
}

// Unsets the bit at `i` of the first row.
pub fn unmark(words: &mut [u64], count: usize, above: usize, i: usize)
    requires levels { AreWords above count words.old }
    requires inside { i < WORD * count }
    ensures levels { AreWords above count words.new }
    ensures there { bit (take count words.new) i ≡ 0 }
    ensures others { (j : ℕ) → j ≢ i
        → bit (take count words.new) j ≡ bit (take count words.old) j }
{
    let word = words[i / WORD] & !bit_of(i);
    words[i / WORD] = word;
    if word > 0 || above == 0 {
        return;
    }
    let (_, some) = words.split_at_mut(count);
    unmark(some, word_count(count), above - 1, i / WORD);
}

// Unsets all bits.
pub fn clear(words: &mut [u64])
    ensures { words.new ≡ replicate (length words.old) 0 }
{
    words.fill(0);
}

// The last bit before `i` of the first row that is set, if there is one.
pub fn last_before(words: &[u64], count: usize, above: usize, i: usize) -> Option<usize>
    requires levels { AreWords above count words.now }
    requires inside { i < WORD * count }
    ensures found { MatchOption result ((k : ℕ) → k < i → bit (take count words.now) k ≡ 0)
        (λ q. (q < i) × (bit (take count words.now) q ≡ 1)) }
    ensures last { MatchOption result (Unit {0})
        (λ q. (k : ℕ) → q < k → k < i → bit (take count words.now) k ≡ 0) }
{
    let below = words[i / WORD] & (bit_of(i) - 1);
    if below > 0 {
        return Some(i / WORD * WORD + highest(below));
    }
    if above == 0 {
        return None;
    }
    let (own, some) = words.split_at(count);
    let Some(k) = last_before(some, word_count(count), above - 1, i / WORD) else {
        return None;
    };
    Some(k * WORD + highest(own[k]))
}
