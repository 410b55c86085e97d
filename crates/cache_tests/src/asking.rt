//! Requests, and the reply of each cache to them, as a number.

ghost use Rattle.std.specs.Prelude.{◌≡◌, ℕ, false, IfOk};
ghost use Rattle.apcu_model.specs.Sequential.{is_iteration};
ghost use Rattle.seg_words.specs.Windows.{has};
ghost use Rattle.cache_core.specs.CoreCache.{CacheStands};

use apcu_model::{Conf, Reply, Request, StoreAnswer, integer};
use cache_core::{Core, Look, Scalar};
use php_graph::{Builder, Bytes, Graph, Item, Kind, Wants};
use seg_words::{Segment, WordsIn};
use std::alloc::Global;
use std::process::Abort;
use std::test::Fail;

// One segment of `words` words, and 32 slots.
pub(crate) const fn shape(words: u32, ttl: u32) -> Conf {
    Conf {
        words,
        slots: 32,
        ttl,
        segments: 1,
    }
}

// A cache of `words` words, `slots` slots and `segments` segments.
pub(crate) const fn segments(words: u32, slots: u32, segments: u32) -> Conf {
    Conf {
        words,
        slots,
        ttl: 0,
        segments,
    }
}

// A request under a key.
#[derive(Clone, Copy)]
pub(crate) enum Act {
    // stores a number, with a ttl
    Put(i64, u32),
    // stores a string of this many bytes, with a ttl
    Text(usize, u32),
    // stores a number if no live row has the key
    Add(i64),
    Fetch,
    Exists,
    Delete,
    Clear,
    // counts by a step, with a ttl
    Inc(i64, u32),
    // from an integer to another
    Cas(i64, i64),
}

fn string(rt: &impl Abort, alloc: Global, len: usize) -> Result<Graph, Fail> {
    assert!(rt; len < 1 << 20);
    let item = Item::Str(Bytes::from_vec(vec![in alloc; b'z'; len]?));
    let mut builder = Builder::new(alloc);
    assert!(rt; builder.wants().permits(&item));
    builder.push(item)?;
    assert!(rt; builder.wants() == Wants::Done);
    Ok(builder.seal())
}

fn store(key: Bytes, value: Graph, ttl: u32, exclusive: bool) -> Request
    ensures { is_iteration result ≡ false }
{
    Request::Store {
        key,
        value,
        ttl,
        exclusive,
    }
}

pub(crate) fn request_of(
    rt: &impl Abort,
    alloc: Global,
    key: Bytes,
    act: Act,
) -> Result<Request, Fail>
    ensures { IfOk result (λ request. is_iteration request ≡ false) }
{
    match act {
        Act::Put(n, ttl) => Ok(store(key, integer(alloc, n), ttl, false)),
        Act::Text(len, ttl) => Ok(store(key, string(rt, alloc, len)?, ttl, false)),
        Act::Add(n) => Ok(store(key, integer(alloc, n), 0, true)),
        Act::Fetch => Ok(Request::Fetch(key)),
        Act::Exists => Ok(Request::Exists(key)),
        Act::Delete => Ok(Request::Delete(key)),
        Act::Clear => Ok(Request::Clear),
        Act::Inc(step, ttl) => Ok(Request::Inc { key, step, ttl }),
        Act::Cas(expect, set) => Ok(Request::Cas { key, expect, set }),
    }
}

pub(crate) const YES: Option<i64> = Some(1);

pub(crate) const NO: Option<i64> = Some(0);

pub(crate) const NONE: Option<i64> = None;

pub(crate) fn flag(flag: bool) -> Option<i64> {
    Some(i64::from(flag))
}

// The number that a value is; -1 for any other value.
fn number_of(value: &Graph) -> i64 {
    if value.places() == 0 {
        return -1;
    }
    match value.kind(1) {
        Kind::Int(n) => *n,
        _ => -1,
    }
}

fn found_by(look: Look) -> Option<i64> {
    match look {
        Look::Miss => None,
        Look::Scalar(Scalar::Int(n)) => Some(n),
        _ => Some(-1),
    }
}

// The reply of the plain cache.
pub(crate) fn number_in(reply: &Reply) -> Option<i64> {
    match reply {
        Reply::Flag(is_done) => flag(*is_done),
        Reply::Found(value) => Some(number_of(value)),
        Reply::Number(n) => Some(*n),
        _ => None,
    }
}

// The reply of the cache over words, except of counters.
pub(crate) fn answer_of<S: Segment>(
    core: &mut Core,
    words: &mut S,
    request: &Request,
    t: u64,
) -> Option<i64>
    requires stand { CacheStands S.WordsIn core.old words.old }
    requires unrefused { (b : ℕ) → has b (S.aside words.old).refused ≡ false }
    ensures stand { CacheStands S.WordsIn core.new words.new }
    ensures rest { S.rest words.new ≡ S.rest words.old }
{
    match request {
        Request::Store {
            key,
            value,
            ttl,
            exclusive,
        } => {
            let answer = core.store(words, key.as_slice(), value, *ttl, *exclusive, t);
            flag(answer == StoreAnswer::Stored)
        }
        Request::Fetch(key) => found_by(core.look(words, key.as_slice(), t)),
        Request::Exists(key) => flag(core.exists(words, key.as_slice(), t)),
        Request::Delete(key) => flag(core.delete(words, key.as_slice(), t)),
        Request::Clear => {
            core.clear(words, t);
            YES
        }
        _ => None,
    }
}
