//! Values as arguments.

ghost use Rattle.std.specs.Prelude.{◌≡◌, ◌≤◌, true, ◌↔◌, List, [], ◌∷◌, ◌++◌, length, take, Option};
ghost use Rattle.std.specs.Prelude.{Some, None, IfOk, IfSome, IsSome};
ghost use Rattle.std.specs.Option.{is_some, option_map, option_and_then};
ghost use Rattle.php_graph.specs.Graph.{IsGraph, kind_at};
ghost use Rattle.script_read.specs.Calls.{last_moment};
ghost use Rattle.script_read.specs.Arguments.{key, integer, truth, null, from_to, keys, pairs};
ghost use Rattle.script_read.specs.Arguments.{member_string, member_value, key_bytes, asked_of};
ghost use Rattle.script_read.specs.Arguments.{stored, IsThere};

use apcu_model::{Keys, Pairs};
use itoa::Buffer;
use php_graph::{Bytes, Child, Graph, Key, Kind};
use std::alloc::{AllocError, Global};

/// The keys of a call: one key, or an array of keys.
#[derive(Drop)]
pub(crate) enum Asked {
    One(Bytes),
    Many(Keys),
}

/// What is stored: the value of one key, or an array of keys with their values.
#[derive(Drop)]
pub(crate) enum Stored {
    One(Bytes),
    Many(Pairs),
}

// The integer that a value is.
pub(crate) fn integer_of(graph: &Graph) -> Option<i64>
    ensures { result ≡ integer graph.now }
{
    if graph.places() != 1 {
        return None;
    }
    match graph.kind(1) {
        Kind::Int(n) => Some(*n),
        _ => None,
    }
}

// The ttl that an integer is.
pub(crate) fn ttl_of(number: Option<i64>) -> Option<u32>
    ensures { result ≡ option_and_then (from_to 0 4294967295) number }
{
    match number {
        Some(n) if 0 <= n && n <= 4294967295 => Some(n as u32),
        _ => None,
    }
}

// The moment that an integer is.
pub(crate) fn moment_of(number: Option<i64>) -> Option<u64>
    ensures is { result ≡ option_and_then (from_to 0 last_moment) number }
    ensures soon { IfSome result (λ t. t ≤ last_moment) }
{
    match number {
        Some(n) if 0 <= n && n <= 999999999999 => Some(n as u64),
        _ => None,
    }
}

// The boolean that a value is.
pub(crate) fn truth_of(graph: &Graph) -> Option<bool>
    ensures { result ≡ truth graph.now }
{
    if graph.places() != 1 {
        return None;
    }
    match graph.kind(1) {
        Kind::Bool(truth) => Some(*truth),
        _ => None,
    }
}

// Whether a value is the null.
pub(crate) fn is_null(graph: &Graph) -> bool
    ensures { result ≡ is_some (null graph.now) }
{
    if graph.places() != 1 {
        return false;
    }
    match graph.kind(1) {
        Kind::Null => true,
        _ => false,
    }
}

// One key, or an array of keys.
#[tactic(auto, using(crate::proofs::Members::asked_many))]
pub(crate) fn asked_of(alloc: Global, graph: Graph) -> Result<Option<Asked>, AllocError>
    ensures { IfOk result (λ made. made ≡ asked_of graph) }
{
    match graph.into_string() {
        Ok(key) => Ok(Some(Asked::One(key))),
        Err(graph) => match keys_of(alloc, &graph)? {
            Some(keys) => Ok(Some(Asked::Many(keys))),
            None => Ok(None),
        },
    }
}

// One key, or an array of keys with their values.
#[tactic(auto, using(crate::proofs::Members::stored_many))]
pub(crate) fn stored_of(alloc: Global, graph: Graph) -> Result<Option<Stored>, AllocError>
    ensures { IfOk result (λ made. made ≡ stored graph) }
{
    match graph.into_string() {
        Ok(key) => Ok(Some(Stored::One(key))),
        Err(graph) => match pairs_of(alloc, &graph)? {
            Some(pairs) => Ok(Some(Stored::Many(pairs))),
            None => Ok(None),
        },
    }
}

// The keys of an array of strings.
pub(crate) fn keys_of(alloc: Global, graph: &Graph) -> Result<Option<Keys>, AllocError>
    ensures { IfOk result (λ made. made ≡ keys graph.now) }
{
    let _places = graph.places();
    let Kind::Array(members) = graph.kind(1) else {
        return Ok(None);
    };
    let mut keys = Keys::new(alloc);
    for i in 0..members.len() {
        let (_, child) = members.at(i);
        match member_string(graph, child) {
            Some(text) => keys.push(Bytes::of(alloc, text.as_slice())?)?,
            None => return Ok(None),
        }
    }
    Ok(Some(keys))
}

// The string that is written there.
pub(crate) fn member_string(graph: &Graph, child: Child) -> Option<&Bytes>
    requires { IsThere graph.now child }
    ensures { option_map (λ text. text.now) result ≡ member_string graph.now child }
{
    match child {
        Child::Back(_) => None,
        Child::Own(place) => match graph.kind(place) {
            Kind::Str(text) => Some(text),
            _ => None,
        },
    }
}

// An array's keys with their values.
pub(crate) fn pairs_of(alloc: Global, graph: &Graph) -> Result<Option<Pairs>, AllocError>
    ensures { IfOk result (λ made. made ≡ pairs graph.now) }
{
    let _places = graph.places();
    let Kind::Array(members) = graph.kind(1) else {
        return Ok(None);
    };
    let mut pairs = Pairs::new(alloc);
    for i in 0..members.len() {
        let (key, child) = members.at(i);
        match member_value(alloc, graph, child)? {
            Some(value) => pairs.push(bytes_of(alloc, key)?, value)?,
            None => return Ok(None),
        }
    }
    Ok(Some(pairs))
}

// The value that is written there, and shares no place with others.
fn member_value(alloc: Global, graph: &Graph, child: Child) -> Result<Option<Graph>, AllocError>
    requires { IsThere graph.now child }
    ensures { IfOk result (λ value. value ≡ member_value graph.now child) }
{
    match child {
        Child::Back(_) => Ok(None),
        Child::Own(place) => match graph.kind(place) {
            Kind::Same(_) => Ok(None),
            _ => graph.part(alloc, place),
        },
    }
}

// A key's bytes; of an integer its decimal.
fn bytes_of(alloc: Global, key: &Key) -> Result<Bytes, AllocError>
    ensures { IfOk result (λ bytes. bytes ≡ key_bytes key.now) }
{
    match key {
        Key::Int(n) => {
            let mut buffer = Buffer::new();
            Bytes::of(alloc, buffer.format(*n).as_bytes())
        }
        Key::Str(bytes) => Bytes::of(alloc, bytes.as_slice()),
    }
}
