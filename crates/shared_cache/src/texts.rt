//! The text of a string, written from its image.

ghost use Rattle.std.specs.Prelude.{◌≡◌, ◌++◌, ℕ, List, Some, None, length, OnOk, OnErr};
ghost use Rattle.std.specs.Prelude.{IfSome, IfNone, IfOk};
ghost use Rattle.php_graph.specs.declared.kind.Kind.{Kind};
ghost use Rattle.notation.specs.Appending.{Extends};
ghost use Rattle.notation.specs.Notation.{string_text, text_of};
ghost use Rattle.seg_words.specs.Kept.{Kept};
ghost use Rattle.value_image.specs.Texts.{IsToldImage, string_of};

use notation::{ByteOut, write_string_head, write_value};
use php_graph::Graph;
use seg_words::WordsIn;
use std::alloc::AllocError;
use value_image::{push_string, string_len};

// How many bytes there should be room for after those of the string: they end its text and mostly
// the line.
const BEHIND: usize = 16;

// Appends the string's head, its bytes, directly from their words, and its end.
fn put_string<W: WordsIn>(
    from: &mut W,
    at: u32,
    len: u32,
    out: &mut ByteOut,
) -> Result<(), AllocError>
    requires string { (g : List Kind) × (bytes : List ℕ)
        × IsToldImage (W.words from.old) (W.aside from.old).windows at g
        × (string_of g ≡ Some bytes) × (len ≡ length bytes) }
    ensures ok { (g : List Kind) (bytes : List ℕ)
        → IsToldImage (W.words from.old) (W.aside from.old).windows at g
        → string_of g ≡ Some bytes → len ≡ length bytes
        → OnOk result (out.new ≡ out.old ++ string_text bytes) }
    ensures err { OnErr result (Extends out.old out.new) }
    ensures kept { Kept W.WordsIn from.old from.new }
{
    write_string_head(len as usize, out)?;
    let mut bytes = out.take();
    if let Err(e) = bytes.reserve(len as usize + BEHIND) {
        *out = ByteOut::from_vec(bytes);
        return Err(e);
    }
    *out = ByteOut::from_vec(push_string(bytes, from, at, len));
    out.push(b"\";")
}

// Appends the text of the value whose image is at place `at`, if it is a string. `out` is unchanged
// without memory, and also if the value is another one.
pub(crate) fn write_string<W: WordsIn>(
    from: &mut W,
    at: u32,
    out: &mut ByteOut,
) -> Option<Result<(), AllocError>>
    requires image { (g : List Kind)
        × IsToldImage (W.words from.old) (W.aside from.old).windows at g }
    ensures text { (g : List Kind)
        → IsToldImage (W.words from.old) (W.aside from.old).windows at g
        → IfSome result (λ written. OnOk written (out.new ≡ out.old ++ text_of g)) }
    ensures same { IfSome result (λ written. OnErr written (out.new ≡ out.old)) }
    ensures other { IfNone result (out.new ≡ out.old) }
    ensures why { (g : List Kind)
        → IsToldImage (W.words from.old) (W.aside from.old).windows at g
        → IfNone result (string_of g ≡ None) }
    ensures kept { Kept W.WordsIn from.old from.new }
{
    let len = string_len(from, at)?;
    let before = out.as_slice().len();
    let written = put_string(from, at, len, out);
    if written.is_err() {
        out.cut(before);
    }
    Some(written)
}

// Appends the text of a value that was copied.
pub(crate) fn write_copy(
    value: Result<Graph, AllocError>,
    out: &mut ByteOut,
) -> Result<(), AllocError>
    ensures text { (g : List Kind) → IfOk value (λ v. v ≡ g)
        → OnOk result (out.new ≡ out.old ++ text_of g) }
    ensures same { OnErr result (out.new ≡ out.old) }
{
    write_value(&value?, 0, out)
}
