//! Plays of the plain cache, by `ask` and by the calls that take ownership.

ghost use Rattle.std.specs.Prelude.{◌≡◌, false, IfOk};
ghost use Rattle.apcu_model.specs.Conf.{IsUsable};
ghost use Rattle.apcu_model.specs.Sequential.{is_iteration};

use apcu_model::*;
use php_graph::{Builder, Bytes, Graph, Item, Kind, Wants};
use plain_cache::Plain;
use std::alloc::Global;
use std::process::Abort;
use std::test::Fail;

fn graph(rt: &impl Abort, alloc: Global, item: Item) -> Result<Graph, Fail> {
    let mut builder = Builder::new(alloc);
    assert!(rt; builder.wants().permits(&item));
    builder.push(item)?;
    assert!(rt; builder.wants() == Wants::Done);
    Ok(builder.seal())
}

// The number, or a string of this many bytes.
#[derive(Clone, Copy)]
pub(crate) enum Value {
    Int(i64),
    Text(usize),
}

pub(crate) fn value_of(rt: &impl Abort, alloc: Global, value: Value) -> Result<Graph, Fail> {
    match value {
        Value::Int(n) => graph(rt, alloc, Item::Int(n)),
        Value::Text(len) => {
            assert!(rt; len < 1 << 20);
            let bytes = Bytes::from_vec(vec![in alloc; b'z'; len]?);
            graph(rt, alloc, Item::Str(bytes))
        }
    }
}

// A cache that is called by `ask`, and one by the calls that own and lend: both reply the same.
#[derive(Drop)]
struct Pair {
    alloc: Global,
    asked: Plain,
    lending: Plain,
}

impl Pair {
    fn new(alloc: Global, conf: &Conf) -> Pair
        requires { IsUsable conf.now }
    {
        Pair {
            alloc,
            asked: Plain::new(alloc, conf),
            lending: Plain::new(alloc, conf),
        }
    }
}

// The key of this number.
pub(crate) fn key(alloc: Global, name: u8) -> Result<Bytes, Fail> {
    Ok(Bytes::of(alloc, &[b'k', b'0' + name / 10, b'0' + name % 10])?)
}

fn flag(rt: &impl Abort, reply: Reply) -> bool {
    match reply {
        Reply::Flag(done) => done,
        _ => panic!(rt; "it is answered by a flag"),
    }
}

// The reply. The request is dropped here, in one place.
fn ask(plain: &mut Plain, request: Request, t: u64) -> Result<Reply, Fail>
    requires { is_iteration request ≡ false }
{
    Ok(plain.ask(&request, t)?)
}

// The cache that is called by `ask` replies so.
fn expect_flag(
    rt: &impl Abort,
    pair: &mut Pair,
    request: Request,
    t: u64,
    expected: bool,
) -> Result<(), Fail>
    requires { is_iteration request ≡ false }
{
    let told = ask(&mut pair.asked, request, t)?;
    assert_eq!(rt; flag(rt, told), expected);
    Ok(())
}

// How long a row lives, whether it is stored only if no live one exists, and when.
type How = (u32, bool, u64);

// A store of copies.
fn store_copies(
    alloc: Global,
    key: &Bytes,
    value: &Graph,
    ttl: u32,
    exclusive: bool,
) -> Result<Request, Fail>
    ensures { IfOk result (λ made. is_iteration made ≡ false) }
{
    let key = Bytes::of(alloc, key.as_slice())?;
    let value = value.try_copy(alloc)?;
    Ok(Request::Store {
        key,
        value,
        ttl,
        exclusive,
    })
}

fn store(
    rt: &impl Abort,
    pair: &mut Pair,
    key: Bytes,
    value: Graph,
    how: How,
    expected: bool,
) -> Result<(), Fail> {
    let (ttl, exclusive, t) = how;
    let request = store_copies(pair.alloc, &key, &value, ttl, exclusive)?;
    expect_flag(rt, pair, request, t, expected)?;
    let stored = pair.lending.store(key, value, ttl, exclusive, t)?;
    assert_eq!(rt; stored, expected);
    Ok(())
}

fn number_of(value: &Graph) -> i64 {
    if value.places() == 0 {
        return -1;
    }
    match value.kind(1) {
        Kind::Int(n) => *n,
        _ => -1,
    }
}

fn lent(plain: &mut Plain, key: &Bytes, t: u64) -> Option<i64> {
    let number = match plain.live_value(key.as_slice(), t) {
        Some(value) => Some(number_of(value)),
        None => None,
    };
    plain.count_fetch(key.as_slice(), t);
    number
}

fn number_in(rt: &impl Abort, reply: Reply) -> Option<i64> {
    match reply {
        Reply::Found(value) => Some(number_of(&value)),
        Reply::Absent => None,
        _ => panic!(rt; "a fetch is answered by a value or its absence"),
    }
}

// The number under the key; `None` if it is absent, and -1 for any other value.
fn found(
    rt: &impl Abort,
    pair: &mut Pair,
    key: Bytes,
    t: u64,
    expected: Option<i64>,
) -> Result<(), Fail> {
    assert_eq!(rt; lent(&mut pair.lending, &key, t), expected);
    let told = ask(&mut pair.asked, Request::Fetch(key), t)?;
    assert_eq!(rt; number_in(rt, told), expected);
    Ok(())
}

fn exists(
    rt: &impl Abort,
    pair: &mut Pair,
    key: Bytes,
    t: u64,
    expected: bool,
) -> Result<(), Fail> {
    assert_eq!(rt; pair.lending.exists(key.as_slice(), t), expected);
    expect_flag(rt, pair, Request::Exists(key), t, expected)
}

fn delete(
    rt: &impl Abort,
    pair: &mut Pair,
    key: Bytes,
    t: u64,
    expected: bool,
) -> Result<(), Fail> {
    assert_eq!(rt; pair.lending.delete(key.as_slice(), t), expected);
    expect_flag(rt, pair, Request::Delete(key), t, expected)
}

fn counted(rt: &impl Abort, reply: Reply) -> Option<i64> {
    match reply {
        Reply::Number(n) => Some(n),
        Reply::NoNumber => None,
        _ => panic!(rt; "counting is answered by a number or none"),
    }
}

fn inc(
    rt: &impl Abort,
    pair: &mut Pair,
    key: Bytes,
    how: (i64, u32, u64),
    expected: Option<i64>,
) -> Result<(), Fail> {
    let (step, ttl, t) = how;
    let number = pair.lending.inc(key.as_slice(), step, ttl, t)?;
    assert_eq!(rt; number, expected);
    let told = ask(&mut pair.asked, Request::Inc { key, step, ttl }, t)?;
    assert_eq!(rt; counted(rt, told), expected);
    Ok(())
}

fn cas(
    rt: &impl Abort,
    pair: &mut Pair,
    key: Bytes,
    how: (i64, i64, u64),
    expected: bool,
) -> Result<(), Fail> {
    let (expect, set, t) = how;
    assert_eq!(rt; pair.lending.cas(key.as_slice(), expect, set, t), expected);
    expect_flag(rt, pair, Request::Cas { key, expect, set }, t, expected)
}

fn clear(rt: &impl Abort, pair: &mut Pair, t: u64) -> Result<(), Fail> {
    pair.lending.clear();
    expect_flag(rt, pair, Request::Clear, t, true)
}

// A call under the key of that number, and its reply.
#[derive(Clone, Copy)]
pub(crate) enum Call {
    // with this ttl
    Store(u8, Value, u32, bool),
    Add(u8, Value, bool),
    Fetch(u8, Option<i64>),
    Exists(u8, bool),
    Delete(u8, bool),
    // by a step, with a ttl
    Inc(u8, i64, u32, Option<i64>),
    // from an integer to another
    Cas(u8, i64, i64, bool),
    // by keys with times to live, from the outermost inwards, and the value inside; the result
    Entry([(u8, u32); 3], Value, i64),
    Clear,
    // the number 1 under the keys 1 to 30: they fill 480 words; the first has this ttl
    Fill(u32),
    // hits, misses, inserts, expunges and entries
    Counts(u64, u64, u64, u64, u64),
}

fn put(
    rt: &impl Abort,
    pair: &mut Pair,
    name: u8,
    value: Value,
    how: How,
    expected: bool,
) -> Result<(), Fail> {
    let value = value_of(rt, pair.alloc, value)?;
    let key = key(pair.alloc, name)?;
    store(rt, pair, key, value, how, expected)
}

// No key, if there are fewer than three.
pub(crate) const NONE: (u8, u32) = (0, 0);

// The generator with these keys from the outermost inwards, and their times to live.
pub(crate) fn generator(alloc: Global, keys: &[(u8, u32)], value: Graph) -> Result<Gen, Fail> {
    let mut generator = Gen::value(value);
    for (name, ttl) in keys.iter().rev() {
        if *name > 0 {
            let inner = Box::new(alloc, generator)?;
            generator = Gen::entry(key(alloc, *name)?, *ttl, inner);
        }
    }
    Ok(generator)
}

fn given(rt: &impl Abort, reply: Reply) -> i64 {
    match reply {
        Reply::Gave(value) => number_of(&value),
        _ => panic!(rt; "an entry is answered by a value"),
    }
}

// The reply of both.
fn ask_both(pair: &mut Pair, request: Request, t: u64) -> Result<(Reply, Reply), Fail>
    requires { is_iteration request ≡ false }
{
    let told = pair.asked.ask(&request, t)?;
    let again = pair.lending.ask(&request, t)?;
    Ok((told, again))
}

fn enter(
    rt: &impl Abort,
    pair: &mut Pair,
    keys: &[(u8, u32)],
    value: Value,
    t: u64,
    expected: i64,
) -> Result<(), Fail> {
    let value = value_of(rt, pair.alloc, value)?;
    let request = Request::Entry(generator(pair.alloc, keys, value)?);
    let (told, again) = ask_both(pair, request, t)?;
    assert_eq!(rt; given(rt, told), expected);
    assert_eq!(rt; given(rt, again), expected);
    Ok(())
}

fn fill(rt: &impl Abort, pair: &mut Pair, first: u32, t: u64) -> Result<(), Fail> {
    for name in 1..31u8 {
        let ttl = if name == 1 { first } else { 0 };
        put(rt, pair, name, Value::Int(1), (ttl, false, t), true)?;
    }
    Ok(())
}

fn answer(rt: &impl Abort, pair: &mut Pair, name: u8, call: Call, t: u64) -> Result<(), Fail> {
    let key = key(pair.alloc, name)?;
    match call {
        Call::Fetch(_, expected) => found(rt, pair, key, t, expected),
        Call::Exists(_, expected) => exists(rt, pair, key, t, expected),
        Call::Delete(_, expected) => delete(rt, pair, key, t, expected),
        Call::Inc(_, step, ttl, expected) => inc(rt, pair, key, (step, ttl, t), expected),
        Call::Cas(_, expect, set, expected) => cas(rt, pair, key, (expect, set, t), expected),
        _ => Ok(()),
    }
}

fn count(rt: &impl Abort, pair: &Pair, counts: Counts) {
    assert_eq!(rt; pair.asked.counts(), counts);
    assert_eq!(rt; pair.lending.counts(), counts);
}

fn do_call(rt: &impl Abort, pair: &mut Pair, call: Call, t: u64) -> Result<(), Fail> {
    match call {
        Call::Store(name, v, ttl, expected) => put(rt, pair, name, v, (ttl, false, t), expected),
        Call::Add(name, v, expected) => put(rt, pair, name, v, (0, true, t), expected),
        Call::Fetch(name, _)
        | Call::Exists(name, _)
        | Call::Delete(name, _)
        | Call::Inc(name, _, _, _)
        | Call::Cas(name, _, _, _) => answer(rt, pair, name, call, t),
        Call::Entry(keys, value, expected) => enter(rt, pair, &keys, value, t, expected),
        Call::Clear => clear(rt, pair, t),
        Call::Fill(ttl) => fill(rt, pair, ttl, t),
        Call::Counts(hits, misses, inserts, expunges, entries) => {
            count(
                rt,
                pair,
                Counts {
                    hits,
                    misses,
                    inserts,
                    expunges,
                    entries,
                },
            );
            Ok(())
        }
    }
}

pub(crate) fn small(ttl: u32) -> Conf
    ensures { IsUsable result }
{
    Conf {
        words: 512,
        slots: 32,
        ttl,
        segments: 1,
    }
}

// The calls in turn at their times, in a new cache with this ttl.
pub(crate) fn play(
    rt: &impl Abort,
    alloc: Global,
    limit: u32,
    rows: &[(u64, Call)],
) -> Result<(), Fail> {
    let mut pair = Pair::new(alloc, &small(limit));
    for (t, row) in rows {
        do_call(rt, &mut pair, *row, *t)?;
    }
    Ok(())
}
