//! The bytes of a string, read from its image without its graph.

ghost use Rattle.std.specs.Prelude.{◌≡◌, ◌+◌, ◌≤◌, ◌++◌, ℕ, List, Some, length};
ghost use Rattle.std.specs.Prelude.{vec_len, vec_capacity};
ghost use Rattle.std.specs.Option.{option_map};
ghost use Rattle.php_graph.specs.declared.kind.Kind.{Kind};
ghost use Rattle.seg_words.specs.Kept.{Kept};
ghost use Rattle.value_image.specs.Texts.{IsToldImage, string_of};

use crate::bytes::push_bytes;
use crate::write_members::STR;
use seg_words::WordsIn;

/// The number of bytes of the value whose image is at place `at`, if it is a string.
pub fn string_len<W: WordsIn>(from: &mut W, at: u32) -> Option<u32>
    requires image { (g : List Kind)
        × IsToldImage (W.words from.old) (W.aside from.old).windows at g }
    ensures len { (g : List Kind)
        → IsToldImage (W.words from.old) (W.aside from.old).windows at g
        → result ≡ option_map (λ bytes. length bytes) (string_of g) }
    ensures kept { Kept W.WordsIn from.old from.new }
{
    let tag = from.load(at);
    if tag % 8 == STR {
        Some((tag / 8) as u32)
    } else {
        None
    }
}

/// Appends the bytes of the string whose image is at place `at`, and which has `len` of them. There
/// is room for them.
pub fn push_string<W: WordsIn>(out: Vec<u8>, from: &mut W, at: u32, len: u32) -> Vec<u8>
    requires room { vec_len out + len ≤ vec_capacity out }
    requires string { (g : List Kind) × (bytes : List ℕ)
        × IsToldImage (W.words from.old) (W.aside from.old).windows at g
        × (string_of g ≡ Some bytes) × (len ≡ length bytes) }
    ensures bytes { (g : List Kind) (bytes : List ℕ)
        → IsToldImage (W.words from.old) (W.aside from.old).windows at g
        → string_of g ≡ Some bytes → result.items ≡ out.items ++ bytes }
    ensures kept { Kept W.WordsIn from.old from.new }
{
    push_bytes(out, from, at + 1, len)
}
