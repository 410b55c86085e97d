//! Values as arguments of an iterator.

ghost use Rattle.std.specs.Prelude.{◌≡◌, ◌≤◌, ◌<◌, length, option_map, IfOk, IfSome};
ghost use Rattle.script_read.specs.Calls.{most_items};
ghost use Rattle.script_read.specs.Arguments.{IsThere, slashed, pattern, search_for};
ghost use Rattle.script_read.specs.Arguments.{bit_named, fields, chunk_size};
ghost use Rattle.script_read.specs.Arguments.{list_named, which_list};

use crate::choices::{integer_of, member_string};
use crate::fields::field_bit;
use crate::keyword::is_word;
use apcu_model::{Fields, List, Pattern};
use php_graph::{Bytes, Child, Graph, Kind};
use std::alloc::{AllocError, Global};

// The text between the first `/` and the last one, and whether letters match in either case.
fn slashed(text: &[u8]) -> Option<(&[u8], bool)>
    ensures is { option_map (λ p. record { text = p.0.now; fold = p.1 }) result
        ≡ slashed text.now }
    ensures few { IfSome result (λ p. length p.0.now ≤ length text.now) }
{
    let behind = text.strip_prefix(b"/")?;
    match behind.strip_suffix(b"/") {
        Some(inside) => Some((inside, false)),
        None => Some((behind.strip_suffix(b"/i")?, true)),
    }
}

// The pattern that a string spells.
fn pattern_of(alloc: Global, text: &Bytes) -> Result<Option<Pattern>, AllocError>
    ensures { IfOk result (λ made. made ≡ pattern text.now) }
{
    let text = text.as_slice();
    let Ok(_) = str::from_utf8(text) else {
        return Ok(None);
    };
    let Some((inside, fold)) = slashed(text) else {
        return Ok(None);
    };
    Ok(Some(Pattern {
        text: Bytes::of(alloc, inside)?,
        fold,
    }))
}

// The search that a value is.
pub(crate) fn search_of(alloc: Global, graph: &Graph) -> Result<Option<Option<Pattern>>, AllocError>
    ensures { IfOk result (λ made. made ≡ search_for graph.now) }
{
    if graph.places() != 1 {
        return Ok(None);
    }
    match graph.kind(1) {
        Kind::Null => Ok(Some(None)),
        Kind::Str(text) => match pattern_of(alloc, text)? {
            Some(pattern) => Ok(Some(Some(pattern))),
            None => Ok(None),
        },
        _ => Ok(None),
    }
}

// The bit of the field that is written there.
fn bit_named(graph: &Graph, child: Child) -> Option<u16>
    requires { IsThere graph.now child }
    ensures { result ≡ bit_named graph.now child }
{
    field_bit(member_string(graph, child)?.as_slice())
}

// The fields that a value names.
pub(crate) fn fields_of(graph: &Graph) -> Option<Fields>
    ensures { result ≡ fields graph.now }
{
    let _places = graph.places();
    let Kind::Array(members) = graph.kind(1) else {
        return None;
    };
    let mut bits = 0;
    for i in 0..members.len() {
        let (_, child) = members.at(i);
        bits |= bit_named(graph, child)?;
    }
    Some(Fields(bits))
}

// The number of items that a value is.
pub(crate) fn chunk_size_of(graph: &Graph) -> Option<u32>
    ensures is { result ≡ chunk_size graph.now }
    ensures some { IfSome result (λ size. 0 < size) }
    ensures few { IfSome result (λ size. size ≤ most_items) }
{
    match integer_of(graph) {
        Some(n) if 1 <= n && n <= 65536 => Some(n as u32),
        _ => None,
    }
}

// The list that a name says.
fn list_named(name: &[u8]) -> Option<List>
    ensures { result ≡ list_named name.now }
{
    if is_word(name, b"active") {
        Some(List::Active)
    } else if is_word(name, b"deleted") {
        Some(List::Deleted)
    } else {
        None
    }
}

// The list that a value names.
pub(crate) fn list_of(graph: &Graph) -> Option<List>
    ensures { result ≡ which_list graph.now }
{
    if graph.places() != 1 {
        return None;
    }
    match graph.kind(1) {
        Kind::Str(name) => list_named(name.as_slice()),
        _ => None,
    }
}
