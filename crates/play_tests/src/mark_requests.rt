//! The requests of events of marks.

ghost use Rattle.std.specs.Prelude.{◌≡◌, ◌≤◌, false, length, IfOk};
ghost use Rattle.apcu_model.specs.Levels.{most_levels};
ghost use Rattle.apcu_model.specs.Sequential.{is_iteration};

use apcu_model::{Gen, Request, integer};
use php_graph::{Builder, Bytes, Graph, Item, Wants};
use std::alloc::Global;
use std::boxed::Box;
use std::process::Abort;
use std::test::Fail;

// A request under a key.
#[derive(Clone, Copy)]
pub(crate) enum Act {
    // stores a number, with a ttl
    Put(i64, u32),
    // stores a string of this many bytes, with a ttl
    Text(usize, u32),
    // stores a number if no live row has the key
    Add(i64),
    Fetch,
    Exists,
    Delete,
    // counts by a step, with a ttl
    Inc(i64, u32),
    // from an integer to another
    Cas(i64, i64),
    // the number, if no row is found
    Entry(i64, u32),
    Clear,
    KeyInfo,
    CacheInfo(bool),
    SmaInfo(bool),
    Retire,
}

// The key of this number.
const fn key(name: u8) -> [u8; 3] {
    [b'k', b'0' + name / 10 % 10, b'0' + name % 10]
}

// A string of this many bytes `z`.
fn letters(rt: &impl Abort, alloc: Global, count: usize) -> Result<Graph, Fail> {
    assert!(rt; count < 1 << 20);
    let item = Item::Str(Bytes::from_vec(vec![in alloc; b'z'; count]?));
    let mut builder = Builder::new(alloc);
    assert!(rt; builder.wants().permits(&item));
    builder.push(item)?;
    assert!(rt; builder.wants() == Wants::Done);
    Ok(builder.seal())
}

fn store(key: Bytes, value: Graph, ttl: u32, exclusive: bool) -> Request
    ensures { is_iteration result ≡ false }
{
    Request::Store {
        key,
        value,
        ttl,
        exclusive,
    }
}

// The request, if it is none of an iterator.
pub(crate) fn request_of(
    rt: &impl Abort,
    alloc: Global,
    name: u8,
    act: Act,
) -> Result<Request, Fail>
    ensures { IfOk result (λ request. is_iteration request ≡ false) }
{
    let key = Bytes::of(alloc, &key(name))?;
    match act {
        Act::Put(n, ttl) => Ok(store(key, integer(alloc, n), ttl, false)),
        Act::Text(len, ttl) => Ok(store(key, letters(rt, alloc, len)?, ttl, false)),
        Act::Add(n) => Ok(store(key, integer(alloc, n), 0, true)),
        Act::Fetch => Ok(Request::Fetch(key)),
        Act::Exists => Ok(Request::Exists(key)),
        Act::Delete => Ok(Request::Delete(key)),
        Act::Inc(step, ttl) => Ok(Request::Inc { key, step, ttl }),
        Act::Cas(expect, set) => Ok(Request::Cas { key, expect, set }),
        Act::Entry(n, ttl) => {
            let inner = Box::new(alloc, Gen::value(integer(alloc, n)))?;
            Ok(Request::Entry(Gen::entry(key, ttl, inner)))
        }
        Act::Clear => Ok(Request::Clear),
        Act::KeyInfo => Ok(Request::KeyInfo(key)),
        Act::CacheInfo(limited) => Ok(Request::CacheInfo(limited)),
        Act::SmaInfo(limited) => Ok(Request::SmaInfo(limited)),
        Act::Retire => Ok(Request::Retire),
    }
}
