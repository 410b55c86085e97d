//! Keys, values and generators.

ghost use Rattle.std.specs.Prelude.{◌+◌, ◌≤◌, length, IfOk};
ghost use Rattle.apcu_model.specs.Levels.{most_levels};

use apcu_model::Gen;
use php_graph::{Builder, Bytes, Graph, Item, Kind, Wants};
use std::alloc::Global;
use std::process::Abort;
use std::test::Fail;

// The key of this number.
pub(crate) const fn key(name: u8) -> [u8; 3] {
    [b'k', b'0' + name / 10 % 10, b'0' + name % 10]
}

// The number, or a string of this many bytes.
#[derive(Clone, Copy)]
pub(crate) enum Value {
    Int(i64),
    Text(usize),
}

pub(crate) fn value_of(rt: &impl Abort, alloc: Global, value: Value) -> Result<Graph, Fail> {
    let item = match value {
        Value::Int(n) => Item::Int(n),
        Value::Text(len) => {
            assert!(rt; len < 1 << 20);
            Item::Str(Bytes::of(alloc, &vec![in alloc; b'z'; len]?)?)
        }
    };
    let mut builder = Builder::new(alloc);
    assert!(rt; builder.wants().permits(&item));
    builder.push(item)?;
    assert!(rt; builder.wants() == Wants::Done);
    Ok(builder.seal())
}

// The number that a value is; -1 for any other value.
pub(crate) fn number_of(value: &Graph) -> i64 {
    if value.places() == 0 {
        return -1;
    }
    match value.kind(1) {
        Kind::Int(n) => *n,
        _ => -1,
    }
}

// The number that a value is, or below 0 the length of its text.
pub(crate) fn told(value: &Graph) -> i64 {
    if value.places() == 0 {
        return 0;
    }
    match value.kind(1) {
        Kind::Int(n) => *n,
        Kind::Str(text) => -(text.as_slice().len() as i64),
        _ => 0,
    }
}

// The numbers of the keys of two nested entries, if there are any, and the ttl of each.
#[derive(Clone, Copy)]
pub(crate) struct Inner {
    pub(crate) second: Option<u8>,
    pub(crate) third: Option<u8>,
    pub(crate) ttl: u32,
}

// An entry of the key of this number around a generator, if there is a number.
fn round_if(alloc: Global, name: Option<u8>, ttl: u32, generator: Gen) -> Result<Gen, Fail>
    ensures { IfOk result (λ g. length g.levels ≤ length generator.levels + 1) }
{
    let Some(name) = name else {
        return Ok(generator);
    };
    let name = Bytes::of(alloc, &key(name))?;
    let inner = Box::new(alloc, generator)?;
    Ok(Gen::entry(name, ttl, inner))
}

// The generator of an entry of this key.
pub(crate) fn generator_of(
    rt: &impl Abort,
    alloc: Global,
    name: Bytes,
    inner: Inner,
    value: Value,
) -> Result<Gen, Fail>
    ensures { IfOk result (λ g. length g.levels ≤ most_levels) }
{
    let literal = Gen::value(value_of(rt, alloc, value)?);
    let third = round_if(alloc, inner.third, inner.ttl, literal)?;
    let second = round_if(alloc, inner.second, inner.ttl, third)?;
    let boxed = Box::new(alloc, second)?;
    Ok(Gen::entry(name, inner.ttl, boxed))
}
