//! What containers hold, as words.

ghost use Rattle.std.specs.Prelude.{◌≡◌, ◌+◌, ◌*◌, ◌<◌, ◌^◌, ◌≤◌, [], ◌∷◌, length, sum_by};
ghost use Rattle.seg_words.specs.Kept.{KeptBeside};
ghost use Rattle.std.specs.List.{flat_map};
ghost use Rattle.seg_words.specs.Layout.{words_in};
ghost use Rattle.php_graph.specs.Size.{key_cells, image_length, offset_of};
ghost use Rattle.value_image.specs.Rows.{written, MayWrite};
ghost use Rattle.value_image.specs.Places.{number_of, IsPlaceOf, AllNamePlaces};
ghost use Rattle.value_image.specs.Image.{string_words, key_words, child_word, member_words};
ghost use Rattle.value_image.specs.Image.{property_words};

use crate::bytes::put_bytes;
use php_graph::{Bytes, Child, Graph, Key, Members, Props};
use seg_words::{Segment, words_in};

/// The tag of an integer, whose two's complement is in the word after it.
pub const INT: u64 = 2;
// The tag of an empty byte string.
pub(crate) const STR: u64 = 3;

// Writes a word, and returns the place after it.
pub(crate) fn put_one<S: Segment>(seg: &mut S, at: u32, word: u64) -> u32
    requires { MayWrite (S.words seg.old) (S.aside seg.old).windows at 1 }
    ensures words { S.words seg.new ≡ written (S.words seg.old) at (word ∷ []) }
    ensures end { result ≡ at + 1 }
    ensures beside { KeptBeside S.WordsIn seg.old seg.new }
{
    seg.store(at, word);
    at + 1
}

// Writes two words, and returns the place after them.
pub(crate) fn put_two<S: Segment>(seg: &mut S, at: u32, first: u64, second: u64) -> u32
    requires { MayWrite (S.words seg.old) (S.aside seg.old).windows at 2 }
    ensures words { S.words seg.new ≡ written (S.words seg.old) at (first ∷ second ∷ []) }
    ensures end { result ≡ at + 2 }
    ensures beside { KeptBeside S.WordsIn seg.old seg.new }
{
    let next = put_one(seg, at, first);
    put_one(seg, next, second)
}

// Writes a byte string, and returns the place after it.
pub(crate) fn put_text<S: Segment>(seg: &mut S, at: u32, bytes: &[u8]) -> u32
    requires short { length bytes.now < 2 ^ 32 }
    requires apart { MayWrite (S.words seg.old) (S.aside seg.old).windows at
        (1 + words_in (length bytes.now)) }
    ensures words { S.words seg.new ≡ written (S.words seg.old) at (string_words bytes.now) }
    ensures end { result ≡ at + (1 + words_in (length bytes.now)) }
    ensures beside { KeptBeside S.WordsIn seg.old seg.new }
{
    let next = put_one(seg, at, STR + 8 * bytes.len() as u64);
    put_bytes(seg, next, bytes);
    next + words_in(bytes.len() as u32)
}

// Writes a byte string of a graph, and returns the place after it.
pub(crate) fn put_string<S: Segment>(seg: &mut S, at: u32, bytes: &Bytes) -> u32
    requires { MayWrite (S.words seg.old) (S.aside seg.old).windows at
        (1 + words_in (length bytes.now)) }
    ensures words { S.words seg.new ≡ written (S.words seg.old) at (string_words bytes.now) }
    ensures end { result ≡ at + (1 + words_in (length bytes.now)) }
    ensures beside { KeptBeside S.WordsIn seg.old seg.new }
{
    put_text(seg, at, bytes.as_slice())
}

// Writes a key of an array, and returns the place after it.
pub(crate) fn put_key<S: Segment>(seg: &mut S, at: u32, key: &Key) -> u32
    requires { MayWrite (S.words seg.old) (S.aside seg.old).windows at (key_cells key.now) }
    ensures words { S.words seg.new ≡ written (S.words seg.old) at (key_words key.now) }
    ensures end { result ≡ at + key_cells key.now }
    ensures beside { KeptBeside S.WordsIn seg.old seg.new }
{
    match key {
        Key::Int(number) => put_two(seg, at, INT, number.cast_unsigned()),
        Key::Str(bytes) => put_string(seg, at, bytes),
    }
}

// The word of what a member holds.
fn child_word(g: &Graph, child: Child) -> u64
    requires place { IsPlaceOf (length g.now) (number_of child) }
    requires short { image_length g.now < 2 ^ 32 }
    ensures { result ≡ child_word (offset_of g.now) child }
{
    match child {
        Child::Own(place) => 2 * g.at(place),
        Child::Back(place) => 2 * g.at(place) + 1,
    }
}

// Writes a member of an array, and returns the place after it.
fn put_member<S: Segment>(seg: &mut S, at: u32, g: &Graph, key: &Key, child: Child) -> u32
    requires place { IsPlaceOf (length g.now) (number_of child) }
    requires short { image_length g.now < 2 ^ 32 }
    requires apart { MayWrite (S.words seg.old) (S.aside seg.old).windows at
        (1 + key_cells key.now) }
    ensures words { S.words seg.new
        ≡ written (S.words seg.old) at (member_words (offset_of g.now) (key.now, child)) }
    ensures end { result ≡ at + (1 + key_cells key.now) }
    ensures beside { KeptBeside S.WordsIn seg.old seg.new }
{
    let next = put_one(seg, at, child_word(g, child));
    put_key(seg, next, key)
}

// Writes the members of an array, and returns the place after them.
pub(crate) fn put_members<S: Segment>(seg: &mut S, at: u32, g: &Graph, members: &Members) -> u32
    requires places { AllNamePlaces (length g.now) members.now }
    requires short { image_length g.now < 2 ^ 32 }
    requires apart { MayWrite (S.words seg.old) (S.aside seg.old).windows at
        (sum_by (λ m. 1 + key_cells m.0) members.now) }
    ensures words { S.words seg.new
        ≡ written (S.words seg.old) at (flat_map (member_words (offset_of g.now)) members.now) }
    ensures end { result ≡ at + sum_by (λ m. 1 + key_cells m.0) members.now }
    ensures beside { KeptBeside S.WordsIn seg.old seg.new }
{
    let mut next = at;
    for i in 0..members.len() {
        let (key, child) = members.at(i);
        next = put_member(seg, next, g, key, child);
    }
    next
}

// Writes a property of an object, and returns the place after it.
fn put_property<S: Segment>(seg: &mut S, at: u32, g: &Graph, name: &Bytes, child: Child) -> u32
    requires place { IsPlaceOf (length g.now) (number_of child) }
    requires short { image_length g.now < 2 ^ 32 }
    requires apart { MayWrite (S.words seg.old) (S.aside seg.old).windows at
        (2 + words_in (length name.now)) }
    ensures words { S.words seg.new
        ≡ written (S.words seg.old) at (property_words (offset_of g.now) (name.now, child)) }
    ensures end { result ≡ at + (2 + words_in (length name.now)) }
    ensures beside { KeptBeside S.WordsIn seg.old seg.new }
{
    let next = put_one(seg, at, child_word(g, child));
    put_string(seg, next, name)
}

// Writes the properties of an object, and returns the place after them.
pub(crate) fn put_properties<S: Segment>(seg: &mut S, at: u32, g: &Graph, props: &Props) -> u32
    requires places { AllNamePlaces (length g.now) props.now }
    requires short { image_length g.now < 2 ^ 32 }
    requires apart { MayWrite (S.words seg.old) (S.aside seg.old).windows at
        (sum_by (λ p. 2 + words_in (length p.0)) props.now) }
    ensures words { S.words seg.new
        ≡ written (S.words seg.old) at (flat_map (property_words (offset_of g.now)) props.now) }
    ensures end { result ≡ at + sum_by (λ p. 2 + words_in (length p.0)) props.now }
    ensures beside { KeptBeside S.WordsIn seg.old seg.new }
{
    let mut next = at;
    for i in 0..props.len() {
        let (name, child) = props.at(i);
        next = put_property(seg, next, g, name, child);
    }
    next
}
