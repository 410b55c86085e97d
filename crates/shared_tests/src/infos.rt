//! Information about a cache that two workers share.

ghost use Rattle.std.specs.Prelude.{◌≡◌, ◌+◌, ◌<◌, ◌≤◌, ◌^◌, [], ◌∷◌, length};

use crate::meeting::{CONF, two_passes};
use apcu_model::integer;
use notation::{ByteOut, write_value};
use php_graph::Graph;
use pin_table::{Pass, TableName};
use shared_cache::{Fresh, Pinned, Shared, open_cache};
use std::alloc::{AllocError, Global};
use std::marker::Brand;
use std::sync::Wait;
use std::test::Fail;

// What PHP prints of the row, of the cache and of its memory.
const ROW: &[u8] = b"a:6:{s:4:\"hits\";i:1;s:11:\"access_time\";i:105;s:5:\"mtime\";i:100;\
    s:13:\"creation_time\";i:100;s:13:\"deletion_time\";i:0;s:3:\"ttl\";i:10;}";

const CACHE: &[u8] = b"a:8:{s:9:\"num_slots\";i:32;s:3:\"ttl\";i:0;s:8:\"num_hits\";i:1;\
    s:10:\"num_misses\";i:0;s:11:\"num_inserts\";i:1;s:11:\"num_entries\";i:1;\
    s:8:\"expunges\";i:0;s:8:\"mem_size\";i:128;}";

const MEMORY: &[u8] = b"a:4:{s:7:\"num_seg\";i:1;s:8:\"seg_size\";i:4096;s:9:\"avail_mem\";i:3712;\
    s:11:\"block_lists\";a:1:{i:0;a:1:{i:0;a:2:{s:4:\"size\";i:3712;s:6:\"offset\";i:384;}}}}";

// Whether the text was the expected one.
#[derive(Clone, Copy, Debug, PartialEq, Eq)]
enum Told {
    Nothing,
    Expected,
    Other,
    NoMemory,
}

fn is_written(alloc: Global, value: &Graph, text: &[u8]) -> Result<bool, AllocError> {
    let mut out = ByteOut::new(alloc);
    write_value(value, 0, &mut out)?;
    Ok(out.as_slice() == text)
}

fn told_as(alloc: Global, value: &Graph, text: &[u8]) -> Told {
    match is_written(alloc, value, text) {
        Ok(true) => Told::Expected,
        Ok(false) => Told::Other,
        Err(_) => Told::NoMemory,
    }
}

// Information about a key, the cache and its memory; the pass has at most one event less.
fn tells_key<N: TableName, R: Wait>(
    rt: &R,
    alloc: Global,
    shared: &Shared<N>,
    pass: Pass,
    key: &[u8],
) -> (Pass, Told)
    requires table { pass.table ≡ N.table }
    requires left { 2 ≤ pass.known.left }
    requires short { length key.now < 2 ^ 32 }
    ensures table { result.0.table ≡ N.table }
    ensures left { pass.known.left ≤ result.0.known.left + 1 }
{
    let (pass, told) = shared.key_info(rt, alloc, pass, key, 105);
    match told {
        Ok(Some(row)) => (pass, told_as(alloc, &row, ROW)),
        Ok(None) => (pass, Told::Nothing),
        Err(_) => (pass, Told::NoMemory),
    }
}

fn tells_cache<N: TableName, R: Wait>(
    rt: &R,
    alloc: Global,
    shared: &Shared<N>,
    pass: Pass,
) -> (Pass, Told)
    requires table { pass.table ≡ N.table }
    requires left { 2 ≤ pass.known.left }
    ensures table { result.0.table ≡ N.table }
    ensures left { pass.known.left ≤ result.0.known.left + 1 }
{
    let (pass, told) = shared.cache_info(rt, alloc, pass, true);
    match told {
        Ok(info) => (pass, told_as(alloc, &info, CACHE)),
        Err(_) => (pass, Told::NoMemory),
    }
}

fn tells_memory<N: TableName, R: Wait>(
    rt: &R,
    alloc: Global,
    shared: &Shared<N>,
    pass: Pass,
) -> (Pass, Told)
    requires table { pass.table ≡ N.table }
    requires left { 2 ≤ pass.known.left }
    ensures table { result.0.table ≡ N.table }
    ensures left { pass.known.left ≤ result.0.known.left + 1 }
{
    let (pass, told) = shared.sma_info(rt, alloc, pass, false);
    match told {
        Ok(info) => (pass, told_as(alloc, &info, MEMORY)),
        Err(_) => (pass, Told::NoMemory),
    }
}

// The first worker stores an integer for ten seconds, and the second one fetches it. The first one
// then requests its row and another key's, and the second one all.
fn tells<N: TableName, R: Wait>(
    rt: &R,
    alloc: Global,
    fresh: Fresh,
    value: &Graph,
) -> Option<[Told; 4]>
    requires table { N.table ≡ fresh.table }
    requires conf { N.conf ≡ fresh.conf }
    requires budgets { N.budgets ≡ fresh.budgets }
    requires two { fresh.budgets ≡ 4 ∷ 4 ∷ [] }
{
    let (shared, mut passes, _) = fresh.name::<N>();
    let (first, second) = two_passes::<N>(&mut passes)?;
    let (first, _) = shared.store(rt, first, b"a", value, 10, false, 100);
    let Pinned::Scalar(second, _) = shared.pin(rt, second, b"a", 105) else {
        return None;
    };
    let (first, row) = tells_key(rt, alloc, &shared, first, b"a");
    let (_, nothing) = tells_key(rt, alloc, &shared, first, b"x");
    let (second, cache) = tells_cache(rt, alloc, &shared, second);
    let (_, memory) = tells_memory(rt, alloc, &shared, second);
    Some([row, nothing, cache, memory])
}

#[test]
fn two_workers_ask_what_is_there(rt: HostRuntime) -> Result<(), Fail> {
    let value = integer(rt.alloc(), 1);
    let Ok(fresh) = open_cache(&rt, rt.alloc(), &CONF, &[4, 4]) else {
        return Err(Fail::new("open_cache"));
    };
    let Some(told) = tells::<Brand, _>(&rt, rt.alloc(), fresh, &value) else {
        return Err(Fail::new("two passes, and an integer"));
    };
    let all = [
        Told::Expected,
        Told::Nothing,
        Told::Expected,
        Told::Expected,
    ];
    assert_eq!(rt; told, all);
    Ok(())
}
