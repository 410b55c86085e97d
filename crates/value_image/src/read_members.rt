//! What containers hold, read from words.

ghost use Rattle.std.specs.Prelude.{◌≡◌, ℕ, ◌+◌, ◌*◌, ◌<◌, ◌^◌, ◌≤◌, List, length, take, drop};
ghost use Rattle.std.specs.Prelude.{sum_by, IfOk};
ghost use Rattle.seg_words.specs.Kept.{Kept};
ghost use Rattle.php_graph.specs.declared.key.Key.{Key};
ghost use Rattle.php_graph.specs.declared.child.Child.{Child};
ghost use Rattle.seg_words.specs.Layout.{words_in};
ghost use Rattle.php_graph.specs.Size.{key_cells};
ghost use Rattle.seg_words.specs.Blocks.{IsTold};
ghost use Rattle.value_image.specs.PackedBytes.{bytes_of};
ghost use Rattle.value_image.specs.Image.{child_word};
ghost use Rattle.value_image.specs.Reading.{itself, IsStringAt, IsKeyAt, IsMemberAt, IsPropertyAt};
ghost use Rattle.value_image.specs.Reading.{AreMembersAt, ArePropertiesAt};

use crate::bytes::{bytes_at, get_bytes};
use crate::write_members::INT;
use php_graph::{Bytes, Child, Key, Members, Props};
use seg_words::{WordsIn, words_in};
use std::alloc::{AllocError, Global};

// The most bytes that a string holds without a block of memory.
const SHORT: usize = 14;

// `len` bytes of the words from place `at` on. No block is allocated for a string that needs none.
fn read_bytes<W: WordsIn>(
    alloc: Global,
    from: &mut W,
    at: u32,
    len: u32,
) -> Result<Bytes, AllocError>
    requires inside { at + words_in len ≤ length (W.words from.old) }
    requires told { (i : ℕ) → at ≤ i → i < at + words_in len → IsTold (W.aside from.old).windows i }
    ensures bytes { IfOk result (λ bytes.
        bytes ≡ take len (bytes_of (drop at (W.words from.old)))) }
    ensures kept { Kept W.WordsIn from.old from.new }
{
    let count = len as usize;
    if count <= SHORT {
        let mut bytes = [0; SHORT];
        get_bytes(from, at, &mut bytes[..count]);
        return Bytes::of(alloc, &bytes[..count]);
    }
    let bytes = bytes_at(alloc, from, at, len)?;
    Ok(Bytes::from_vec(bytes))
}

// The byte string at place `at`, whose tag was read, and the place after it.
pub(crate) fn read_text<W: WordsIn>(
    alloc: Global,
    from: &mut W,
    at: u32,
    tag: u64,
) -> Result<(Bytes, u32), AllocError>
    requires { (bytes : List ℕ) × IsStringAt (W.words from.old) (W.aside from.old).windows at bytes
        × (tag ≡ 3 + 8 * length bytes) }
    ensures string { (bytes : List ℕ)
        → IsStringAt (W.words from.old) (W.aside from.old).windows at bytes
        → tag ≡ 3 + 8 * length bytes
        → IfOk result (λ r. (r.0 ≡ bytes) × (r.1 ≡ at + (1 + words_in (length bytes)))) }
    ensures kept { Kept W.WordsIn from.old from.new }
{
    let len = (tag / 8) as u32;
    let bytes = read_bytes(alloc, from, at + 1, len)?;
    Ok((bytes, at + 1 + words_in(len)))
}

// The byte string at place `at`, and the place after it.
pub(crate) fn read_string<W: WordsIn>(
    alloc: Global,
    from: &mut W,
    at: u32,
) -> Result<(Bytes, u32), AllocError>
    requires { (bytes : List ℕ)
        × IsStringAt (W.words from.old) (W.aside from.old).windows at bytes }
    ensures string { (bytes : List ℕ)
        → IsStringAt (W.words from.old) (W.aside from.old).windows at bytes
        → IfOk result (λ r. (r.0 ≡ bytes) × (r.1 ≡ at + (1 + words_in (length bytes)))) }
    ensures kept { Kept W.WordsIn from.old from.new }
{
    let tag = from.load(at);
    read_text(alloc, from, at, tag)
}

// The key at place `at`, and the place after it.
pub(crate) fn read_key<W: WordsIn>(
    alloc: Global,
    from: &mut W,
    at: u32,
) -> Result<(Key, u32), AllocError>
    requires { (key : Key) × IsKeyAt (W.words from.old) (W.aside from.old).windows at key }
    ensures key { (key : Key) → IsKeyAt (W.words from.old) (W.aside from.old).windows at key
        → IfOk result (λ r. (r.0 ≡ key) × (r.1 ≡ at + key_cells key)) }
    ensures kept { Kept W.WordsIn from.old from.new }
{
    let tag = from.load(at);
    if tag == INT {
        let number = from.load(at + 1);
        return Ok((Key::Int(number.cast_signed()), at + 2));
    }
    let (bytes, next) = read_text(alloc, from, at, tag)?;
    Ok((Key::Str(bytes), next))
}

// The member of a word, with an offset instead of the number.
fn child_in(word: u64) -> Child
    requires { word < 2 ^ 33 }
    ensures { (child : Child) → word ≡ child_word itself child → result ≡ child }
{
    let offset = (word / 2) as u32;
    if word % 2 == 0 {
        Child::Own(offset)
    } else {
        Child::Back(offset)
    }
}

// The member at place `at`, and the place after it.
fn read_member<W: WordsIn>(
    alloc: Global,
    from: &mut W,
    at: u32,
) -> Result<(Key, Child, u32), AllocError>
    requires { (m : Key × Child) × IsMemberAt (W.words from.old) (W.aside from.old).windows at m }
    ensures member { (m : Key × Child)
        → IsMemberAt (W.words from.old) (W.aside from.old).windows at m
        → IfOk result (λ r. ((r.0, r.1) ≡ m) × (r.2 ≡ at + (1 + key_cells m.0))) }
    ensures kept { Kept W.WordsIn from.old from.new }
{
    let child = child_in(from.load(at));
    let (key, next) = read_key(alloc, from, at + 1)?;
    Ok((key, child, next))
}

// This many members from place `at` on, and the place after them.
pub(crate) fn read_members<W: WordsIn>(
    alloc: Global,
    from: &mut W,
    at: u32,
    count: u32,
) -> Result<(Members, u32), AllocError>
    requires { (ms : List (Key × Child))
        × AreMembersAt (W.words from.old) (W.aside from.old).windows at count ms }
    ensures members { (ms : List (Key × Child))
        → AreMembersAt (W.words from.old) (W.aside from.old).windows at count ms
        → IfOk result (λ r. (r.0 ≡ ms) × (r.1 ≡ at + sum_by (λ m. 1 + key_cells m.0) ms)) }
    ensures kept { Kept W.WordsIn from.old from.new }
{
    let mut items = Vec::with_capacity(alloc, count as usize)?;
    let mut next = at;
    for _i in 0..count {
        let (key, child, behind) = read_member(alloc, from, next)?;
        items.push((key, child))?;
        next = behind;
    }
    Ok((Members::from_vec(items), next))
}

// The property at place `at`, and the place after it.
fn read_property<W: WordsIn>(
    alloc: Global,
    from: &mut W,
    at: u32,
) -> Result<(Bytes, Child, u32), AllocError>
    requires { (p : List ℕ × Child)
        × IsPropertyAt (W.words from.old) (W.aside from.old).windows at p }
    ensures property { (p : List ℕ × Child)
        → IsPropertyAt (W.words from.old) (W.aside from.old).windows at p
        → IfOk result (λ r. ((r.0, r.1) ≡ p) × (r.2 ≡ at + (2 + words_in (length p.0)))) }
    ensures kept { Kept W.WordsIn from.old from.new }
{
    let child = child_in(from.load(at));
    let (name, next) = read_string(alloc, from, at + 1)?;
    Ok((name, child, next))
}

// This many properties from place `at` on, and the place after them.
pub(crate) fn read_properties<W: WordsIn>(
    alloc: Global,
    from: &mut W,
    at: u32,
    count: u32,
) -> Result<(Props, u32), AllocError>
    requires { (ps : List (List ℕ × Child))
        × ArePropertiesAt (W.words from.old) (W.aside from.old).windows at count ps }
    ensures properties { (ps : List (List ℕ × Child))
        → ArePropertiesAt (W.words from.old) (W.aside from.old).windows at count ps
        → IfOk result (λ r. (r.0 ≡ ps) × (r.1 ≡ at + sum_by (λ p. 2 + words_in (length p.0)) ps)) }
    ensures kept { Kept W.WordsIn from.old from.new }
{
    let mut items = Vec::with_capacity(alloc, count as usize)?;
    let mut next = at;
    for _i in 0..count {
        let (name, child, behind) = read_property(alloc, from, next)?;
        items.push((name, child))?;
        next = behind;
    }
    Ok((Props::from_vec(alloc, items)?, next))
}
