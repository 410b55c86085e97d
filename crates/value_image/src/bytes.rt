//! Byte strings as words.

ghost use Rattle.std.specs.Prelude.{◌≡◌, ◌+◌, ◌/◌, ◌%◌, ◌^◌, ℕ, ◌≤◌, ◌<◌, ◌++◌, length, take, drop};
ghost use Rattle.std.specs.Prelude.{vec_len, vec_capacity, IfOk};
ghost use Rattle.byteorder.specs.Endian.{little_bytes, little_number};
ghost use Rattle.seg_words.specs.Kept.{Kept, KeptBeside};
ghost use Rattle.seg_words.specs.Layout.{words_in};
ghost use Rattle.seg_words.specs.Blocks.{IsTold};
ghost use Rattle.value_image.specs.PackedBytes.{words_of, bytes_of, word_at};
ghost use Rattle.value_image.specs.Rows.{written, MayWrite};

use byteorder::{ByteOrder, LittleEndian};
use seg_words::{Segment, WordsIn};
use std::alloc::{AllocError, Global};

/// Writes the bytes from place `at` on, eight a word, the last word filled with zeros. It takes no
/// memory. While there are eight words, eight are stored at once.
pub fn put_bytes<S: Segment>(seg: &mut S, at: u32, bytes: &[u8])
    requires { MayWrite (S.words seg.old) (S.aside seg.old).windows at
        (words_in (length bytes.now)) }
    ensures words { S.words seg.new ≡ written (S.words seg.old) at (words_of bytes.now) }
    ensures beside { KeptBeside S.WordsIn seg.old seg.new }
{
    let full = bytes.len() / 8;
    'eights: for i in 0..full / 8 {
        let mut eight = [0; 8];
        LittleEndian::read_u64_into(&bytes[64 * i..64 * i + 64], &mut eight);
        seg.store_eight(at + 8 * i as u32, &eight);
    }
    'words: for i in full / 8 * 8..full {
        seg.store(at + i as u32, LittleEndian::read_u64(&bytes[8 * i..]));
    }
    if bytes.len() % 8 != 0 {
        let last = byte_word(bytes, full as u32);
        seg.store(at + full as u32, last);
    }
}

// The number of up to three bytes, the first lowest.
fn few_bytes(bytes: &[u8]) -> u64
    requires { length bytes.now < 4 }
    ensures number { result ≡ little_number 4 bytes.now }
    ensures small { result < 2 ^ 24 }
{
    if bytes.is_empty() {
        return 0;
    }
    if bytes.len() == 1 {
        return u64::from(bytes[0]);
    }
    let low = u64::from(LittleEndian::read_u16(bytes));
    if bytes.len() == 2 {
        return low;
    }
    low + u64::from(bytes[2]) * 0x1_0000
}

// The word of fewer than eight bytes. Gathering them into eight bytes first takes longer than
// reading four of them, two and one.
fn short_word(bytes: &[u8]) -> u64
    requires { length bytes.now < 8 }
    ensures { result ≡ little_number 8 bytes.now }
{
    if bytes.len() < 4 {
        return few_bytes(bytes);
    }
    let low = u64::from(LittleEndian::read_u32(bytes));
    low + few_bytes(&bytes[4..]) * 0x1_0000_0000
}

/// The word of the eight bytes from byte `8 * i` on, the first byte lowest; past the end they are
/// 0. If fewer are left, the last eight of all bytes are read at once, and those before are shifted
/// out.
pub fn byte_word(bytes: &[u8], i: u32) -> u64
    requires { i < words_in (length bytes.now) }
    ensures { result ≡ word_at bytes.now i }
{
    let rest = &bytes[8 * i as usize..];
    if rest.len() >= 8 {
        return LittleEndian::read_u64(rest);
    }
    if bytes.len() < 8 {
        return short_word(rest);
    }
    LittleEndian::read_u64(&bytes[bytes.len() - 8..]) >> (64 - 8 * rest.len())
}

/// Fills the buffer with the bytes of the words from place `at` on. It takes no memory. Each word
/// is loaded once, eight at a time while there are eight, so that the place of the words is not
/// read again between the writes.
pub fn get_bytes<W: WordsIn>(from: &mut W, at: u32, out: &mut [u8])
    requires inside { at + words_in (length out.old) ≤ length (W.words from.old) }
    requires told { (i : ℕ) → at ≤ i → i < at + words_in (length out.old)
        → IsTold (W.aside from.old).windows i }
    ensures bytes { out.new ≡ take (length out.old) (bytes_of (drop at (W.words from.old))) }
    ensures kept { Kept W.WordsIn from.old from.new }
{
    let full = out.len() / 8;
    'eights: for i in 0..full / 8 {
        let words = from.load_eight(at + 8 * i as u32);
        LittleEndian::write_u64_into(&words, &mut out[64 * i..64 * i + 64]);
    }
    'words: for i in full / 8 * 8..full {
        let word = from.load(at + i as u32);
        LittleEndian::write_u64(&mut out[8 * i..], word);
    }
    let left = out.len() % 8;
    if left != 0 {
        let word = from.load(at + full as u32);
        out[8 * full..].copy_from_slice(&word.to_le_bytes()[..left]);
    }
}

// Adds the first bytes of a word, the lowest first. There is room for them.
#[inline(always)]
fn push_part(out: &mut Vec<u8>, word: u64, count: u32)
    requires part { count ≤ 8 }
    requires room { vec_len out.old + count ≤ vec_capacity out.old }
    ensures bytes { out.new.items ≡ out.old.items ++ take count (little_bytes 8 word) }
    ensures len { vec_len out.new ≡ vec_len out.old + count }
    ensures capacity { vec_capacity out.new ≡ vec_capacity out.old }
{
    let bytes = word.to_le_bytes();
    'bytes: for k in 0..count {
        out.push_reserved(bytes[k as usize]);
    }
}

// Adds the bytes of a word, the lowest first. There is room for them. Written out, it becomes a
// single store.
#[inline(always)]
fn push_word(out: &mut Vec<u8>, word: u64)
    requires { vec_len out.old + 8 ≤ vec_capacity out.old }
    ensures bytes { out.new.items ≡ out.old.items ++ little_bytes 8 word }
    ensures len { vec_len out.new ≡ vec_len out.old + 8 }
    ensures capacity { vec_capacity out.new ≡ vec_capacity out.old }
{
    let bytes = word.to_le_bytes();
    out.push_reserved(bytes[0]);
    out.push_reserved(bytes[1]);
    out.push_reserved(bytes[2]);
    out.push_reserved(bytes[3]);
    out.push_reserved(bytes[4]);
    out.push_reserved(bytes[5]);
    out.push_reserved(bytes[6]);
    out.push_reserved(bytes[7]);
}

// Adds the bytes of eight words. There is room for them.
#[inline(always)]
fn push_eight(out: &mut Vec<u8>, words: &[u64; 8])
    requires { vec_len out.old + 64 ≤ vec_capacity out.old }
    ensures bytes { out.new.items ≡ out.old.items ++ bytes_of words.now }
    ensures len { vec_len out.new ≡ vec_len out.old + 64 }
    ensures capacity { vec_capacity out.new ≡ vec_capacity out.old }
{
    'words: for k in 0..8 {
        push_word(out, words[k]);
    }
}

// Appends `len` bytes of the words from place `at` on. There is room for them. Each word is
// loaded once, eight at a time while there are eight, and stored directly into the memory that is
// returned. The memory is passed by value: if nothing else refers to its length, the bytes of a
// word become a single store.
#[inline(always)]
pub(crate) fn push_bytes<W: WordsIn>(out: Vec<u8>, from: &mut W, at: u32, len: u32) -> Vec<u8>
    requires room { vec_len out + len ≤ vec_capacity out }
    requires inside { at + words_in len ≤ length (W.words from.old) }
    requires told { (i : ℕ) → at ≤ i → i < at + words_in len → IsTold (W.aside from.old).windows i }
    ensures bytes { result.items ≡ out.items ++ take len (bytes_of (drop at (W.words from.old))) }
    ensures kept { Kept W.WordsIn from.old from.new }
{
    let mut bytes = out;
    let full = len / 8;
    'eights: for i in 0..full / 8 {
        let words = from.load_eight(at + 8 * i);
        push_eight(&mut bytes, &words);
    }
    'words: for i in full / 8 * 8..full {
        let word = from.load(at + i);
        push_word(&mut bytes, word);
    }
    let left = len % 8;
    if left != 0 {
        let word = from.load(at + full);
        push_part(&mut bytes, word, left);
    }
    bytes
}

// The first `len` bytes of the words from place `at` on.
pub(crate) fn bytes_at<W: WordsIn>(
    alloc: Global,
    from: &mut W,
    at: u32,
    len: u32,
) -> Result<Vec<u8>, AllocError>
    requires inside { at + words_in len ≤ length (W.words from.old) }
    requires told { (i : ℕ) → at ≤ i → i < at + words_in len → IsTold (W.aside from.old).windows i }
    ensures bytes { IfOk result (λ bytes.
        bytes.items ≡ take len (bytes_of (drop at (W.words from.old)))) }
    ensures kept { Kept W.WordsIn from.old from.new }
{
    let bytes = Vec::with_capacity(alloc, len as usize)?;
    Ok(push_bytes(bytes, from, at, len))
}
