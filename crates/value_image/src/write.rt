//! The image of a graph.

ghost use Rattle.std.specs.Prelude.{◌≡◌, ◌+◌, ◌*◌, ◌<◌, ◌^◌, ◌∷◌, ◌++◌, length, sum_by};
ghost use Rattle.seg_words.specs.Kept.{KeptBeside};
ghost use Rattle.std.specs.List.{flat_map};
ghost use Rattle.seg_words.specs.Layout.{words_in};
ghost use Rattle.php_graph.specs.Size.{key_cells, cells_of, image_length, offset_of};
ghost use Rattle.value_image.specs.Rows.{written, MayWrite};
ghost use Rattle.value_image.specs.Places.{AllNamePlaces, NamesPlaces};
ghost use Rattle.value_image.specs.Image.{IsImageOf, image_of, place_words, string_words};
ghost use Rattle.value_image.specs.Image.{member_words, property_words};

use crate::write_members::{INT, put_members, put_one, put_properties, put_string, put_two};
use php_graph::{Bytes, Graph, Kind, Members, Props};
use seg_words::Segment;

/// The tag of null. A tag is the first word of a place.
pub const NULL: u64 = 0;
/// The tag of `false`; that of `true` is 8 more.
pub const BOOL: u64 = 1;
// The tag of an array without members.
pub(crate) const ARRAY: u64 = 4;
// The tag of an object without properties.
pub(crate) const OBJECT: u64 = 5;
// The tag of a place that names an object.
const SAME: u64 = 6;

// Writes an array, and returns the place after it.
fn put_array<S: Segment>(seg: &mut S, at: u32, g: &Graph, members: &Members) -> u32
    requires places { AllNamePlaces (length g.now) members.now }
    requires short { image_length g.now < 2 ^ 32 }
    requires apart { MayWrite (S.words seg.old) (S.aside seg.old).windows at
        (1 + sum_by (λ m. 1 + key_cells m.0) members.now) }
    ensures words { S.words seg.new ≡ written (S.words seg.old) at
        ((4 + 8 * length members.now) ∷ flat_map (member_words (offset_of g.now)) members.now) }
    ensures end { result ≡ at + (1 + sum_by (λ m. 1 + key_cells m.0) members.now) }
    ensures beside { KeptBeside S.WordsIn seg.old seg.new }
{
    let next = put_one(seg, at, ARRAY + 8 * u64::from(members.len()));
    put_members(seg, next, g, members)
}

// Writes an object, and returns the place after it.
fn put_object<S: Segment>(seg: &mut S, at: u32, g: &Graph, class: &Bytes, props: &Props) -> u32
    requires places { AllNamePlaces (length g.now) props.now }
    requires short { image_length g.now < 2 ^ 32 }
    requires apart { MayWrite (S.words seg.old) (S.aside seg.old).windows at
        (2 + words_in (length class.now) + sum_by (λ p. 2 + words_in (length p.0)) props.now) }
    ensures words { S.words seg.new ≡ written (S.words seg.old) at
        ((5 + 8 * length props.now) ∷ string_words class.now
        ++ flat_map (property_words (offset_of g.now)) props.now) }
    ensures end { result ≡ at + (2 + words_in (length class.now)
        + sum_by (λ p. 2 + words_in (length p.0)) props.now) }
    ensures beside { KeptBeside S.WordsIn seg.old seg.new }
{
    let first = put_one(seg, at, OBJECT + 8 * u64::from(props.len()));
    let second = put_string(seg, first, class);
    put_properties(seg, second, g, props)
}

// Writes what is at a place of the graph, and returns the place after it.
fn put_place<S: Segment>(seg: &mut S, at: u32, g: &Graph, kind: &Kind) -> u32
    requires places { NamesPlaces (length g.now) kind.now }
    requires short { image_length g.now < 2 ^ 32 }
    requires apart { MayWrite (S.words seg.old) (S.aside seg.old).windows at (cells_of kind.now) }
    ensures words { S.words seg.new
        ≡ written (S.words seg.old) at (place_words g.now kind.now) }
    ensures end { result ≡ at + cells_of kind.now }
    ensures beside { KeptBeside S.WordsIn seg.old seg.new }
{
    match kind {
        Kind::Null => put_one(seg, at, NULL),
        Kind::Bool(truth) => put_one(seg, at, BOOL + 8 * u64::from(*truth)),
        Kind::Int(number) => put_two(seg, at, INT, number.cast_unsigned()),
        Kind::Str(bytes) => put_string(seg, at, bytes),
        Kind::Array(members) => put_array(seg, at, g, members),
        Kind::Object(class, props) => put_object(seg, at, g, class, props),
        Kind::Same(place) => put_two(seg, at, SAME, g.at(*place)),
    }
}

/// Writes the image of the graph from place `at` on. It takes no memory.
pub fn persist<S: Segment>(seg: &mut S, at: u32, g: &Graph)
    requires { MayWrite (S.words seg.old) (S.aside seg.old).windows at (image_length g.now) }
    ensures words { S.words seg.new ≡ written (S.words seg.old) at (image_of g.now) }
    ensures image { IsImageOf (S.words seg.new) at (image_length g.now) g.now }
    ensures beside { KeptBeside S.WordsIn seg.old seg.new }
{
    let mut next = at;
    for i in 0..g.places() {
        next = put_place(seg, next, g, g.kind(i + 1));
    }
}
