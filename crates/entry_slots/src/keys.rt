//! The hash of a key, and its slot.

ghost use Rattle.std.specs.Prelude.{◌≡◌, ℕ, ◌+◌, ◌/◌, ◌%◌, ◌<◌, ◌≤◌, List, length, slice_index};
ghost use Rattle.seg_words.specs.Kept.{Kept};
ghost use Rattle.seg_words.specs.Blocks.{IsTold};
ghost use Rattle.php_graph.specs.Numbers.{hash_of};
ghost use Rattle.entry_slots.specs.EntryWords.{IsEntryKey};
ghost use Rattle.seg_words.specs.Layout.{words_in};

use crate::lower::lower_laws;
use php_graph::{HASH_START, TOP_BIT, hash_step};
use seg_words::WordsIn;

// The word that has byte `i` of those from a place on. Unless that byte is the first of a word, it
// is the word of the byte before, and is not loaded again.
fn word_of_byte<S: WordsIn>(seg: &mut S, at: u32, i: u32, word: u64) -> u64
    requires inside { at + i / 8 < length (S.words seg.old) }
    requires told { IsTold (S.aside seg.old).windows (at + i / 8) }
    requires held { 0 < i % 8 → word ≡ slice_index (S.words seg.old) (at + i / 8) }
    ensures word { result ≡ slice_index (S.words seg.old) (at + i / 8) }
    ensures kept { Kept S.WordsIn seg.old seg.new }
{
    if i % 8 == 0 {
        seg.load(at + i / 8)
    } else {
        word
    }
}

// PHP's string hash of the key of `len` bytes that begins at a place.
pub(crate) fn hash_at<S: WordsIn>(seg: &mut S, at: u32, len: u32) -> u64
    requires inside { at + words_in len ≤ length (S.words seg.old) }
    requires told { (i : ℕ) → at ≤ i → i < at + words_in len → IsTold (S.aside seg.old).windows i }
    ensures hash { (key : List ℕ) → IsEntryKey (S.words seg.old) at len key → result ≡ hash_of key }
    ensures kept { Kept S.WordsIn seg.old seg.new }
{
    lower_laws();
    let mut hash = HASH_START;
    let mut word = 0;
    for i in 0..len {
        word = word_of_byte(seg, at, i, word);
        hash = hash_step(hash, ((word >> (8 * (i % 8))) % 256) as u8);
    }
    hash | TOP_BIT
}

// The slot of a hash, if there are this many slots. A division is a large part of a look-up's time:
// for the usual number of slots the compiler turns it into a mask.
pub(crate) fn slot_in(hash: u64, slots: u32) -> u32
    requires some { 0 < slots }
    ensures slot { result ≡ hash % slots }
    ensures low { result < slots }
{
    if slots == 4096 {
        return (hash % 4096) as u32;
    }
    (hash % u64::from(slots)) as u32
}
