//! The generators of entries: how they are spelled, and how deep they may be nested.

ghost use Rattle.std.specs.Prelude.{◌≡◌, ℕ, ◌≤◌, ◌<◌, length, IfOk};
ghost use Rattle.script_read.specs.GenParts.{entry_round};
ghost use Rattle.script_read.specs.Grammar.{inner_levels};
ghost use Rattle.script_read.specs.Reading.{separator_at, limit_at, literal_at, generator_at};
ghost use Rattle.script_read.specs.Reading.{gen_argument_at};
ghost use Rattle.script_read.specs.Gives.{GivesItem};

use crate::arguments::{fault, key_choice, space, ttl_choice, value};
use crate::fault::Stop;
use apcu_model::Gen;
use notation::Reason;
use php_graph::Bytes;
use std::alloc::{AllocError, Global};

// How many entries may be nested inside the line's own.
const INNER_LEVELS: u32 = 7;

// The expected byte inside a generator.
#[tactic(auto, unfolding(crate::specs::Reading::separator_at))]
fn separator(separator: u8, bytes: &[u8]) -> Result<&[u8], Stop>
    ensures read { GivesItem (λ rest. rest.now) result (separator_at separator bytes.now) }
    ensures fewer { IfOk result (λ rest. length rest.now < length bytes.now) }
{
    match bytes {
        [] => Err(fault(Reason::End, bytes)),
        [b, rest @ ..] if *b == separator => Ok(rest),
        [_, ..] => Err(fault(Reason::Separator, bytes)),
    }
}

// The end of an entry, with its ttl before it if it has one.
#[tactic(auto, unfolding(crate::specs::Reading::limit_at))]
fn limit(alloc: Global, bytes: &[u8]) -> Result<(u32, &[u8]), Stop>
    ensures read { GivesItem (λ x. (x.0, x.1.now)) result (limit_at bytes.now) }
    ensures fewer { IfOk result (λ x. length x.1.now < length bytes.now) }
{
    match bytes {
        [] => Err(fault(Reason::End, bytes)),
        [b')', rest @ ..] => Ok((0, rest)),
        [b' ', argument @ ..] => {
            let (ttl, rest) = ttl_choice(alloc, argument)?;
            let rest = separator(b')', rest)?;
            Ok((ttl, rest))
        }
        [_, ..] => Err(fault(Reason::Separator, bytes)),
    }
}

// A value in parentheses.
#[tactic(auto, unfolding(crate::specs::Reading::literal_at))]
fn literal(alloc: Global, bytes: &[u8]) -> Result<(Gen, &[u8]), Stop>
    ensures read { GivesItem (λ x. (x.0, x.1.now)) result (literal_at bytes.now) }
    ensures fewer { IfOk result (λ x. length x.1.now < length bytes.now) }
    ensures none { IfOk result (λ x. length x.0.levels ≡ 0) }
{
    match bytes {
        [] => Err(fault(Reason::End, bytes)),
        [b'(', inside @ ..] => {
            let (graph, rest) = value(alloc, inside)?;
            let rest = separator(b')', rest)?;
            Ok((Gen::value(graph), rest))
        }
        [_, ..] => Err(fault(Reason::Argument, bytes)),
    }
}

// An entry of this key and ttl around a generator.
#[tactic(auto, using(crate::proofs::GenSteps::round_is))]
pub(crate) fn entry_round(
    alloc: Global,
    key: Bytes,
    ttl: u32,
    inner: Gen,
) -> Result<Gen, AllocError>
    ensures { IfOk result (λ made. made ≡ entry_round key ttl inner) }
{
    Ok(Gen::entry(key, ttl, Box::new(alloc, inner)?))
}

// A generator in which `levels` entries may be nested. Each call inside it has a level less, so
// there are no more calls than levels.
fn generator(alloc: Global, levels: u32, bytes: &[u8]) -> Result<(Gen, &[u8]), Stop>
    ensures read { GivesItem (λ x. (x.0, x.1.now)) result (generator_at levels bytes.now) }
    ensures fewer { IfOk result (λ x. length x.1.now < length bytes.now) }
    ensures levels { IfOk result (λ x. length x.0.levels ≤ levels) }
{
    let Some(inside) = bytes.strip_prefix(b"(apcu_entry ") else {
        return literal(alloc, bytes);
    };
    if levels == 0 {
        return Err(fault(Reason::Generator, bytes));
    }
    let (key, rest) = key_choice(alloc, inside)?;
    let argument = separator(b' ', rest)?;
    let (inner, rest) = generator(alloc, levels - 1, argument)?;
    let (ttl, rest) = limit(alloc, rest)?;
    let made = entry_round(alloc, key, ttl, inner)?;
    Ok((made, rest))
}

// A generator that is expected in a line.
pub(crate) fn gen_argument(alloc: Global, bytes: &[u8]) -> Result<(Gen, &[u8]), Stop>
    ensures read { GivesItem (λ x. (x.0, x.1.now)) result (gen_argument_at bytes.now) }
    ensures fewer { IfOk result (λ x. length x.1.now < length bytes.now) }
    ensures levels { IfOk result (λ x. length x.0.levels ≤ inner_levels) }
{
    let argument = space(bytes)?;
    generator(alloc, INNER_LEVELS, argument)
}
