//! What a worker does with the cache, and the replies to it.

ghost use Rattle.std.specs.Prelude.{◌≡◌, ◌+◌, ◌<◌, ◌≤◌, ◌^◌, length, IfOk};

use crate::steps::{Found, count, fetch, look, put, remove, swap};
use apcu_model::{Gen, integer};
use counter_entry::Fate;
use php_graph::{Bytes, Graph, Kind};
use pin_table::{Pass, TableName};
use shared_cache::Shared;
use std::alloc::{AllocError, Global};
use std::sync::Wait;

// What a worker is to do, in at most four events.
#[derive(Clone, Copy)]
pub(crate) enum Work {
    // stores the value under a key of this byte, again if there is none, counts it, and fetches it
    Store(u8),
    // looks for the key of this byte, deletes it, and fetches what is there
    Take(u8),
    // counts three times
    Count,
    // sets the counter if it is 6, twice, and counts once more
    Swap,
    // stores this integer by a generator, and fetches what is under its inner key
    Ask(i64),
}

// The replies to it.
#[derive(Clone, Copy, Debug, PartialEq, Eq)]
pub(crate) enum Did {
    Stored {
        stored: bool,
        again: bool,
        counted: Option<i64>,
        found: Found,
    },
    Taken {
        there: bool,
        gone: bool,
        found: Found,
    },
    Counted([Option<i64>; 3]),
    Swapped {
        taken: bool,
        again: bool,
        on: Option<i64>,
    },
    Given {
        number: Option<i64>,
        fate: Fate,
        inner: Found,
    },
    NoMemory,
}

fn stores<N: TableName, R: Wait>(
    rt: &R,
    alloc: Global,
    shared: &Shared<N>,
    pass: Pass,
    key: &[u8],
    value: &Graph,
) -> (Pass, Did)
    requires table { pass.table ≡ N.table }
    requires left { 5 ≤ pass.known.left }
    requires short { length key.now < 2 ^ 32 }
    ensures table { result.0.table ≡ N.table }
    ensures worker { result.0.known.worker ≡ pass.known.worker }
    ensures left { result.0.known.left + 4 ≡ pass.known.left }
{
    let (pass, stored) = put(rt, shared, pass, key, value, false);
    let (pass, again) = put(rt, shared, pass, key, value, true);
    let (pass, counted) = count(rt, shared, pass, key);
    let (pass, found) = fetch(rt, alloc, shared, pass, key);
    let did = Did::Stored {
        stored,
        again,
        counted,
        found,
    };
    (pass, did)
}

fn takes<N: TableName, R: Wait>(
    rt: &R,
    alloc: Global,
    shared: &Shared<N>,
    pass: Pass,
    key: &[u8],
) -> (Pass, Did)
    requires table { pass.table ≡ N.table }
    requires left { 4 ≤ pass.known.left }
    requires short { length key.now < 2 ^ 32 }
    ensures table { result.0.table ≡ N.table }
    ensures worker { result.0.known.worker ≡ pass.known.worker }
    ensures left { result.0.known.left + 3 ≡ pass.known.left }
{
    let (pass, there) = look(rt, shared, pass, key);
    let (pass, gone) = remove(rt, shared, pass, key);
    let (pass, found) = fetch(rt, alloc, shared, pass, key);
    let did = Did::Taken { there, gone, found };
    (pass, did)
}

fn counts<N: TableName, R: Wait>(rt: &R, shared: &Shared<N>, pass: Pass) -> (Pass, Did)
    requires table { pass.table ≡ N.table }
    requires left { 4 ≤ pass.known.left }
    ensures table { result.0.table ≡ N.table }
    ensures worker { result.0.known.worker ≡ pass.known.worker }
    ensures left { result.0.known.left + 3 ≡ pass.known.left }
{
    let (pass, first) = count(rt, shared, pass, b"n");
    let (pass, second) = count(rt, shared, pass, b"n");
    let (pass, third) = count(rt, shared, pass, b"n");
    (pass, Did::Counted([first, second, third]))
}

fn swaps<N: TableName, R: Wait>(rt: &R, shared: &Shared<N>, pass: Pass) -> (Pass, Did)
    requires table { pass.table ≡ N.table }
    requires left { 4 ≤ pass.known.left }
    ensures table { result.0.table ≡ N.table }
    ensures worker { result.0.known.worker ≡ pass.known.worker }
    ensures left { result.0.known.left + 3 ≡ pass.known.left }
{
    let (pass, taken) = swap(rt, shared, pass, b"n", 6, -9);
    let (pass, again) = swap(rt, shared, pass, b"n", 6, 5);
    let (pass, on) = count(rt, shared, pass, b"n");
    (pass, Did::Swapped { taken, again, on })
}

// An entry of `k1` around an entry of `k2` around an integer.
fn nested(alloc: Global, n: i64) -> Result<Gen, AllocError>
    ensures { IfOk result (λ g. length g.levels ≡ 2) }
{
    let inner = Gen::entry(
        Bytes::of(alloc, b"k2")?,
        0,
        Box::new(alloc, Gen::value(integer(alloc, n)))?,
    );
    Ok(Gen::entry(Bytes::of(alloc, b"k1")?, 0, Box::new(alloc, inner)?))
}

// The integer that a value is.
fn integer_of(value: &Graph) -> Option<i64> {
    if value.places() == 0 {
        return None;
    }
    match value.kind(1) {
        Kind::Int(n) => Some(*n),
        _ => None,
    }
}

// The integer of a generator, and how it was found.
fn give<N: TableName, R: Wait>(
    rt: &R,
    alloc: Global,
    shared: &Shared<N>,
    pass: Pass,
    generator: &Gen,
) -> (Pass, Option<(Option<i64>, Fate)>)
    requires table { pass.table ≡ N.table }
    requires left { 2 ≤ pass.known.left }
    requires two { length generator.now.levels ≡ 2 }
    ensures table { result.0.table ≡ N.table }
    ensures worker { result.0.known.worker ≡ pass.known.worker }
    ensures left { pass.known.left ≤ result.0.known.left + 1 }
{
    let (pass, answer) = shared.entry(rt, alloc, pass, generator, 5);
    match answer {
        Ok((value, fate)) => {
            let number = integer_of(&value);
            (pass, Some((number, fate)))
        }
        Err(_) => (pass, None),
    }
}

fn asks<N: TableName, R: Wait>(
    rt: &R,
    alloc: Global,
    shared: &Shared<N>,
    pass: Pass,
    generator: &Gen,
) -> (Pass, Did)
    requires table { pass.table ≡ N.table }
    requires left { 3 ≤ pass.known.left }
    requires two { length generator.now.levels ≡ 2 }
    ensures table { result.0.table ≡ N.table }
    ensures worker { result.0.known.worker ≡ pass.known.worker }
    ensures left { pass.known.left ≤ result.0.known.left + 2 }
{
    let (pass, given) = give(rt, alloc, shared, pass, generator);
    let (pass, inner) = fetch(rt, alloc, shared, pass, b"k2");
    let did = match given {
        Some((number, fate)) => Did::Given {
            number,
            fate,
            inner,
        },
        None => Did::NoMemory,
    };
    (pass, did)
}

pub(crate) fn works<N: TableName, R: Wait>(
    rt: &R,
    alloc: Global,
    shared: &Shared<N>,
    pass: Pass,
    work: Work,
    value: &Graph,
) -> (Pass, Did)
    requires table { pass.table ≡ N.table }
    requires left { 5 ≤ pass.known.left }
    ensures table { result.0.table ≡ N.table }
    ensures worker { result.0.known.worker ≡ pass.known.worker }
    ensures left { pass.known.left ≤ result.0.known.left + 4 }
{
    match work {
        Work::Store(name) => stores(rt, alloc, shared, pass, &[name], value),
        Work::Take(name) => takes(rt, alloc, shared, pass, &[name]),
        Work::Count => counts(rt, shared, pass),
        Work::Swap => swaps(rt, shared, pass),
        Work::Ask(number) => match nested(alloc, number) {
            Ok(generator) => asks(rt, alloc, shared, pass, &generator),
            Err(_) => (pass, Did::NoMemory),
        },
    }
}
