//! Single calls of a worker.

ghost use Rattle.std.specs.Prelude.{◌≡◌, ◌+◌, ◌<◌, ◌≤◌, ◌^◌, length};

use cache_core::Scalar;
use php_graph::Graph;
use pin_table::{Ended, Pass, TableName};
use shared_cache::{Pinned, Shared};
use std::alloc::Global;
use std::sync::Wait;

pub(crate) fn put<N: TableName, R: Wait>(
    rt: &R,
    shared: &Shared<N>,
    pass: Pass,
    key: &[u8],
    value: &Graph,
    exclusive: bool,
) -> (Pass, bool)
    requires table { pass.table ≡ N.table }
    requires left { 2 ≤ pass.known.left }
    requires short { length key.now < 2 ^ 32 }
    ensures table { result.0.table ≡ N.table }
    ensures worker { result.0.known.worker ≡ pass.known.worker }
    ensures left { result.0.known.left + 1 ≡ pass.known.left }
{
    shared.store(rt, pass, key, value, 0, exclusive, 5)
}

pub(crate) fn look<N: TableName, R: Wait>(
    rt: &R,
    shared: &Shared<N>,
    pass: Pass,
    key: &[u8],
) -> (Pass, bool)
    requires table { pass.table ≡ N.table }
    requires left { 2 ≤ pass.known.left }
    requires short { length key.now < 2 ^ 32 }
    ensures table { result.0.table ≡ N.table }
    ensures worker { result.0.known.worker ≡ pass.known.worker }
    ensures left { result.0.known.left + 1 ≡ pass.known.left }
{
    shared.exists(rt, pass, key, 6)
}

pub(crate) fn remove<N: TableName, R: Wait>(
    rt: &R,
    shared: &Shared<N>,
    pass: Pass,
    key: &[u8],
) -> (Pass, bool)
    requires table { pass.table ≡ N.table }
    requires left { 2 ≤ pass.known.left }
    requires short { length key.now < 2 ^ 32 }
    ensures table { result.0.table ≡ N.table }
    ensures worker { result.0.known.worker ≡ pass.known.worker }
    ensures left { result.0.known.left + 1 ≡ pass.known.left }
{
    shared.delete(rt, pass, key, 8)
}

// What a fetch found, as a number.
#[derive(Clone, Copy, Debug, PartialEq, Eq)]
pub(crate) enum Found {
    Nothing,
    // how many places the value has that was copied
    Places(u32),
    Int(i64),
    Other,
    NoMemory,
}

fn found_in(scalar: Scalar) -> Found {
    match scalar {
        Scalar::Int(n) => Found::Int(n),
        Scalar::Null | Scalar::Bool(_) => Found::Other,
    }
}

pub(crate) fn fetch<N: TableName, R: Wait>(
    rt: &R,
    alloc: Global,
    shared: &Shared<N>,
    pass: Pass,
    key: &[u8],
) -> (Pass, Found)
    requires table { pass.table ≡ N.table }
    requires left { 2 ≤ pass.known.left }
    requires short { length key.now < 2 ^ 32 }
    ensures table { result.0.table ≡ N.table }
    ensures worker { result.0.known.worker ≡ pass.known.worker }
    ensures left { result.0.known.left + 1 ≡ pass.known.left }
{
    match shared.pin(rt, pass, key, 7) {
        Pinned::Hit(copying) => {
            let (pass, value) = shared.copy_out(alloc, copying);
            let found = match value {
                Ok(value) => Found::Places(value.places()),
                Err(_) => Found::NoMemory,
            };
            (pass, found)
        }
        Pinned::Scalar(pass, scalar) => (pass, found_in(scalar)),
        Pinned::Miss(pass) => (pass, Found::Nothing),
    }
}

// One more under a key.
pub(crate) fn count<N: TableName, R: Wait>(
    rt: &R,
    shared: &Shared<N>,
    pass: Pass,
    key: &[u8],
) -> (Pass, Option<i64>)
    requires table { pass.table ≡ N.table }
    requires left { 2 ≤ pass.known.left }
    requires short { length key.now < 2 ^ 32 }
    ensures table { result.0.table ≡ N.table }
    ensures worker { result.0.known.worker ≡ pass.known.worker }
    ensures left { result.0.known.left + 1 ≡ pass.known.left }
{
    shared.inc(rt, pass, key, 1, 0, 5)
}

// A counter is set if it has the expected value.
pub(crate) fn swap<N: TableName, R: Wait>(
    rt: &R,
    shared: &Shared<N>,
    pass: Pass,
    key: &[u8],
    expect: i64,
    set: i64,
) -> (Pass, bool)
    requires table { pass.table ≡ N.table }
    requires left { 2 ≤ pass.known.left }
    requires short { length key.now < 2 ^ 32 }
    ensures table { result.0.table ≡ N.table }
    ensures worker { result.0.known.worker ≡ pass.known.worker }
    ensures left { result.0.known.left + 1 ≡ pass.known.left }
{
    shared.cas(rt, pass, key, expect, set, 6)
}

// The second pass sees the first one's end, and both end.
pub(crate) fn learns<N: TableName, R: Wait>(
    rt: &R,
    shared: &Shared<N>,
    first: Pass,
    second: Pass,
) -> (Ended, Ended)
    requires first { first.table ≡ N.table }
    requires second { second.table ≡ N.table }
    requires left { 1 ≤ first.known.left }
    requires left_other { 2 ≤ second.known.left }
    ensures first { result.0.table ≡ N.table }
    ensures second { result.1.table ≡ N.table }
    ensures worker { result.0.known.worker ≡ first.known.worker }
    ensures other { result.1.known.worker ≡ second.known.worker }
{
    let end = shared.retire(rt, first);
    let (second, end) = shared.learn(rt, second, end);
    let second = shared.clear(rt, second, 9);
    (end, shared.retire(rt, second))
}
