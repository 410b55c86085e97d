//! Values that are returned at once, and what a look-up finds.

ghost use Rattle.std.specs.Prelude.{◌≡◌, ℕ, List};
ghost use Rattle.php_graph.specs.declared.kind.Kind.{Kind};
ghost use Rattle.seg_words.specs.Kept.{Kept};
ghost use Rattle.value_image.specs.Image.{IsImageOf};
ghost use Rattle.cache_core.specs.Looking.{scalar_of, HasImage};

use seg_words::WordsIn;
use value_image::{BOOL, INT, NULL, images_are_runs, runs_stand};

/// A value of one word or two, which is returned at once and never copied outside an event.
#[derive(Clone, Copy, Debug, PartialEq, Eq)]
pub enum Scalar {
    Null,
    Bool(bool),
    Int(i64),
}

/// What a look-up finds.
#[derive(Clone, Copy, Debug, PartialEq, Eq)]
pub enum Look {
    /// No live row has the key.
    Miss,
    /// A live row's value, if it is null, a boolean or an integer.
    Scalar(Scalar),
    /// The place of a live row's block, if the value is any other. `Core::copy_live` looks the key
    /// up and copies such a value.
    Hit(u32),
}

/// The value whose image begins at place `at`, if its first place is null, a boolean or an integer;
/// else nothing. The first word says which, so the image's length is not needed.
pub fn read_scalar<W: WordsIn>(from: &mut W, at: u32) -> Option<Scalar>
    requires image { HasImage (W.words from.old) (W.aside from.old).windows at }
    ensures scalar { (g : List Kind) (len : ℕ) → IsImageOf (W.words from.old) at len g
        → result ≡ scalar_of g }
    ensures kept { Kept W.WordsIn from.old from.new }
{
    images_are_runs();
    runs_stand();
    let tag = from.load(at);
    let code = tag % 8;
    if code == NULL {
        return Some(Scalar::Null);
    }
    if code == BOOL {
        return Some(Scalar::Bool(tag != BOOL));
    }
    if code != INT {
        return None;
    }
    let number = from.load(at + 1);
    Some(Scalar::Int(number.cast_signed()))
}
