//! The graph of an image.

ghost use Rattle.std.specs.Prelude.{◌≡◌, ◌+◌, ℕ, ◌≤◌, ◌<◌, ◌∷◌, List, IfOk, length, sum_by};
ghost use Rattle.std.specs.Prelude.{slice_index};
ghost use Rattle.seg_words.specs.Kept.{Kept};
ghost use Rattle.php_graph.specs.declared.child.Child.{Child};
ghost use Rattle.php_graph.specs.declared.kind.Kind.{Kind};
ghost use Rattle.php_graph.specs.PlaceOffsets.{kinds_at, offsets_at};
ghost use Rattle.seg_words.specs.Layout.{words_in};
ghost use Rattle.php_graph.specs.Size.{cells_of};
ghost use Rattle.seg_words.specs.Blocks.{IsTold};
ghost use Rattle.value_image.specs.Image.{IsImageOf};
ghost use Rattle.value_image.specs.Reading.{IsKindAt, IsObjectAt, IsReadOf, scalar_at};

use crate::numbers::number;
use crate::read_members::{read_members, read_properties, read_string, read_text};
use crate::write::{ARRAY, BOOL, NULL, OBJECT};
use crate::write_members::{INT, STR};
use php_graph::{Bytes, Graph, Kind, Place, Props};
use seg_words::WordsIn;
use std::alloc::{AllocError, Global};

// The class and the properties of an object from place `at` on, and the place after them.
fn read_object<W: WordsIn>(
    alloc: Global,
    from: &mut W,
    at: u32,
    count: u32,
) -> Result<(Bytes, Props, u32), AllocError>
    requires { (class : List ℕ) × (ps : List (List ℕ × Child))
        × IsObjectAt (W.words from.old) (W.aside from.old).windows at count class ps }
    ensures object { (class : List ℕ) (ps : List (List ℕ × Child))
        → IsObjectAt (W.words from.old) (W.aside from.old).windows at count class ps
        → IfOk result (λ r. (r.0 ≡ class) × (r.1 ≡ ps)
        × (r.2 ≡ at + (1 + words_in (length class)
        + sum_by (λ p. 2 + words_in (length p.0)) ps))) }
    ensures kept { Kept W.WordsIn from.old from.new }
{
    let (class, behind) = read_string(alloc, from, at)?;
    let (props, next) = read_properties(alloc, from, behind, count)?;
    Ok((class, props, next))
}

// Null, a boolean or an integer at place `at`, whose tag was read, and the place after it.
#[inline(always)]
fn read_scalar<W: WordsIn>(from: &mut W, at: u32, tag: u64) -> Option<(Kind, u32)>
    requires { (kind : Kind) × IsKindAt (W.words from.old) (W.aside from.old).windows at kind
        × (tag ≡ slice_index (W.words from.old) at) }
    ensures scalar { (kind : Kind) → IsKindAt (W.words from.old) (W.aside from.old).windows at kind
        → result ≡ scalar_at at kind }
    ensures kept { Kept W.WordsIn from.old from.new }
{
    match tag % 8 {
        NULL => Some((Kind::Null, at + 1)),
        BOOL => Some((Kind::Bool(tag != BOOL), at + 1)),
        INT => {
            let number = from.load(at + 1);
            Some((Kind::Int(number.cast_signed()), at + 2))
        }
        _ => None,
    }
}

// What is at place `at`, with offsets instead of numbers, and the place after it.
fn read_place<W: WordsIn>(alloc: Global, from: &mut W, at: u32) -> Result<(Kind, u32), AllocError>
    requires { (kind : Kind) × IsKindAt (W.words from.old) (W.aside from.old).windows at kind }
    ensures place { (kind : Kind) → IsKindAt (W.words from.old) (W.aside from.old).windows at kind
        → IfOk result (λ r. (r.0 ≡ kind) × (r.1 ≡ at + cells_of kind)) }
    ensures kept { Kept W.WordsIn from.old from.new }
{
    let tag = from.load(at);
    if let Some(scalar) = read_scalar(from, at, tag) {
        return Ok(scalar);
    }
    match tag % 8 {
        STR => {
            let (bytes, next) = read_text(alloc, from, at, tag)?;
            Ok((Kind::Str(bytes), next))
        }
        ARRAY => {
            let (members, next) = read_members(alloc, from, at + 1, (tag / 8) as u32)?;
            Ok((Kind::Array(members), next))
        }
        OBJECT => {
            let (class, props, next) = read_object(alloc, from, at + 1, (tag / 8) as u32)?;
            Ok((Kind::Object(class, props), next))
        }
        _ => {
            let offset = from.load(at + 1);
            Ok((Kind::Same(offset as u32), at + 2))
        }
    }
}

// The first place and the others of the image that the `len` words from place `at` on are, with
// offsets instead of numbers, and the offset of each.
fn read_places<W: WordsIn>(
    alloc: Global,
    from: &mut W,
    at: u32,
    len: u32,
) -> Result<(Kind, Vec<Place>), AllocError>
    requires image { (g : List Kind) × IsImageOf (W.words from.old) at len g }
    requires told { (i : ℕ) → at ≤ i → i < at + len → IsTold (W.aside from.old).windows i }
    ensures places { (g : List Kind) → IsImageOf (W.words from.old) at len g
        → IfOk result (λ r. IsReadOf (r.0 ∷ kinds_at r.1.items)
        (0 ∷ offsets_at r.1.items) len g) }
    ensures kept { Kept W.WordsIn from.old from.new }
{
    let (first, next) = read_place(alloc, from, at)?;
    let mut others = Vec::new(alloc);
    let mut offset = next - at;
    while offset < len {
        let (kind, next) = read_place(alloc, from, at + offset)?;
        others.push(Place {
            kind,
            at: u64::from(offset),
        })?;
        offset = next - at;
    }
    Ok((first, others))
}

/// The graph whose image the `len` words from place `at` on are. Out of memory is the only error. A
/// value of one place, such as a string, is returned at once.
pub fn unpersist<W: WordsIn>(
    alloc: Global,
    from: &mut W,
    at: u32,
    len: u32,
) -> Result<Graph, AllocError>
    requires image { (g : List Kind) × IsImageOf (W.words from.old) at len g }
    requires told { (i : ℕ) → at ≤ i → i < at + len → IsTold (W.aside from.old).windows i }
    ensures graph { (g : List Kind) → IsImageOf (W.words from.old) at len g
        → IfOk result (λ answer. answer ≡ g) }
    ensures kept { Kept W.WordsIn from.old from.new }
{
    let tag = from.load(at);
    if let Some((scalar, _)) = read_scalar(from, at, tag) {
        let none = Vec::new(alloc);
        return Ok(Graph::from_places(scalar, none, u64::from(len)));
    }
    if tag % 8 == STR {
        let (bytes, _) = read_text(alloc, from, at, tag)?;
        let none = Vec::new(alloc);
        return Ok(Graph::from_places(Kind::Str(bytes), none, u64::from(len)));
    }
    let (mut first, mut others) = read_places(alloc, from, at, len)?;
    number(alloc, &mut first, &mut others, len)?;
    Ok(Graph::from_places(first, others, u64::from(len)))
}
