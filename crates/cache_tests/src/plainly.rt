//! The calls of the plain cache.

use crate::calls::{Act, Answer, Call};
use crate::values::{generator_of, number_of, told, value_of};
use apcu_model::{Gen, Reply, Request};
use counter_entry::Fate;
use php_graph::Bytes;
use plain_cache::Plain;
use std::alloc::Global;
use std::process::Abort;
use std::test::Fail;

// The value of a generator in which no key occurs twice.
fn given(
    rt: &impl Abort,
    plain: &mut Plain,
    name: &[u8],
    generator: Gen,
    t: u64,
) -> Result<Answer, Fail> {
    let was_there = plain.exists(name, t);
    let reply = plain.ask(&Request::Entry(generator), t)?;
    let fate = if was_there {
        Fate::Found
    } else {
        Fate::Made {
            stored: plain.exists(name, t),
        }
    };
    match reply {
        Reply::Gave(value) => Ok(Answer::Gave(told(&value), fate)),
        _ => panic!(rt; "an entry is answered by a value"),
    }
}

pub(crate) fn act_plainly(
    rt: &impl Abort,
    alloc: Global,
    plain: &mut Plain,
    key: Bytes,
    act: Act,
    t: u64,
) -> Result<Answer, Fail> {
    match act {
        Act::Store(value, ttl, exclusive) => {
            let value = value_of(rt, alloc, value)?;
            Ok(Answer::Flag(plain.store(key, value, ttl, exclusive, t)?))
        }
        Act::Fetch => {
            let found = plain.live_value(key.as_slice(), t).map(number_of);
            plain.count_fetch(key.as_slice(), t);
            Ok(Answer::Number(found))
        }
        Act::Exists => Ok(Answer::Flag(plain.exists(key.as_slice(), t))),
        Act::Delete => Ok(Answer::Flag(plain.delete(key.as_slice(), t))),
        Act::Clear => {
            plain.clear();
            Ok(Answer::Flag(true))
        }
    }
}

pub(crate) fn call_plainly(
    rt: &impl Abort,
    alloc: Global,
    plain: &mut Plain,
    key: Bytes,
    call: Call,
    t: u64,
) -> Result<Answer, Fail> {
    match call {
        Call::Core(act) => act_plainly(rt, alloc, plain, key, act, t),
        Call::Inc(step, ttl) => Ok(Answer::Number(plain.inc(key.as_slice(), step, ttl, t)?)),
        Call::Cas(expect, set) => Ok(Answer::Flag(plain.cas(key.as_slice(), expect, set, t))),
        Call::Entry(inner, value) => {
            let name = Bytes::of(alloc, key.as_slice())?;
            let generator = generator_of(rt, alloc, name, inner, value)?;
            given(rt, plain, key.as_slice(), generator, t)
        }
        Call::Counts => Ok(Answer::Counts(plain.counts())),
    }
}
