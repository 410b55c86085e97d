//! Reading values.

ghost use Rattle.std.specs.Prelude.{◌≡◌, ℕ, ◌+◌, ◌<◌, ◌≤◌, ◌++◌, ◌∷◌, List, length, reverse};
ghost use Rattle.std.specs.Prelude.{Option, Some, None, MatchResult, IfOk, OnOk, OnErr};
ghost use Rattle.php_graph.specs.declared.kind.Kind.{Kind};
ghost use Rattle.php_graph.specs.Graph.{IsGraph};
ghost use Rattle.php_graph.specs.Building.{nothing_drafted};
ghost use Rattle.notation.specs.Notation.{text_of};
ghost use Rattle.notation.specs.Place.{left};
ghost use Rattle.notation.specs.Marks.{Gives};
ghost use Rattle.notation.specs.Reading.{reading_of, value_at};
ghost use Rattle.notation.specs.Answer.{IsReading, IsPassedOver};
ghost use Rattle.notation.specs.Outer.{outer_stack};

use crate::cursor::Cursor;
use crate::fault::{ReadFault, Stop};
use crate::items::{begun, close, key};
use crate::plain::{integer_graph, read_integer, read_string, string_graph};
use php_graph::{Builder, Graph, Wants, graphs_are_written, integer_texts};
use std::alloc::{AllocError, Global};

/// Reads the value whose text starts at the cursor, and advances to what follows it. The notation
/// is that of PHP's `serialize` and `unserialize`: `R:k;` takes no number, and shares the value
/// that took the number k; `r:k;` takes a number of its own, and names the object that took the
/// number k. If no text of a value starts there, the error is the first fault from the left, with
/// the place of its byte. Memory is allocated only for bytes that are there. After a fault the
/// cursor has not moved.
///
///     let mut from = Cursor::new(b"s:5:\"hello\";");
///     let value = read_value(alloc, &mut from)?;
pub fn read_value(alloc: Global, from: &mut Cursor) -> Result<Graph, ReadFault>
    // It is what reading from left to right gives: the value, or the first fault.
    ensures read { IsReading from.old from.new result }
    // What is read is spelled there, and the cursor is after it.
    ensures found { IfOk result (λ g. IsPassedOver from.old from.new g) }
    ensures place { IfOk result (λ g. from.new.place ≡ from.old.place + length (text_of g)) }
    // What is spelled there is read, unless memory runs out.
    ensures only { (g : List Kind) (rest : List ℕ) → IsGraph g → left from.old ≡ text_of g ++ rest
        → MatchResult result (λ h. (h ≡ g) × (left from.new ≡ rest)) (λ e. e ≡ ReadFault.Memory) }
    ensures bytes { from.new.bytes ≡ from.old.bytes }
    ensures fault { OnErr result (from.new ≡ from.old) }
{
    integer_texts();
    graphs_are_written();
    let bytes = from.rest();
    match whole(alloc, bytes) {
        Ok((graph, rest)) => {
            from.leave(rest.len());
            Ok(graph)
        }
        Err(Stop::Memory) => Err(ReadFault::Memory),
        Err(Stop::Fault(fault)) => Err(ReadFault::Bad {
            place: from.place_before(fault.left),
            reason: fault.reason,
        }),
    }
}

// A whole value. A string or an integer needs nothing besides its graph.
fn whole(alloc: Global, bytes: &[u8]) -> Result<(Graph, &[u8]), Stop>
    ensures read { Gives (λ x. (x.0, x.1.now)) result (reading_of bytes.now) }
    ensures sealed { IfOk result (λ x. IsGraph x.0) }
{
    if let Some((text, rest)) = read_string(bytes)? {
        return Ok((string_graph(alloc, text)?, rest));
    }
    if let Some((number, rest)) = read_integer(bytes)? {
        return Ok((integer_graph(alloc, number), rest));
    }
    built(alloc, bytes)
}

// A whole value, place by place. The open containers are kept here, each with the number of members
// that are to come in the one around it; those of the innermost are in `members`.
#[tactic(auto, unfolding(crate::specs::Reading::reading_of))]
fn built(alloc: Global, bytes: &[u8]) -> Result<(Graph, &[u8]), Stop>
    ensures read { Gives (λ x. (x.0, x.1.now)) result (reading_of bytes.now) }
    ensures sealed { IfOk result (λ x. IsGraph x.0) }
{
    let mut builder = Builder::new(alloc);
    let mut outer: Vec<u32> = Vec::new(alloc);
    let (count, mut rest) = begun(alloc, &mut builder, bytes)?;
    let mut members = enter(&mut outer, 0, count)?;
    'reading: loop {
        match builder.wants() {
            Wants::Done => return Ok((builder.seal(), rest)),
            Wants::Value => {
                let (count, after) = begun(alloc, &mut builder, rest)?;
                rest = after;
                members = enter(&mut outer, members, count)?;
            }
            _ => {
                if members == 0 {
                    rest = close(&mut builder, rest)?;
                    members = outer.pop().unwrap_or(0);
                } else {
                    rest = key(alloc, &mut builder, rest)?;
                    members -= 1;
                }
            }
        }
    }
}

// Opens a container if there is one, and returns how many members the innermost still has.
fn enter(outer: &mut Vec<u32>, members: u32, count: Option<u32>) -> Result<u32, AllocError>
    ensures { IfOk result (λ n. outer_stack count members (reverse outer.old.items) n
        (reverse outer.new.items)) }
{
    match count {
        Some(n) => {
            outer.push(members)?;
            Ok(n)
        }
        None => Ok(members),
    }
}
