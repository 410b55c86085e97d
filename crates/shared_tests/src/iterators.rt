//! Iterators of two workers, and copies that are in progress meanwhile.

ghost use Rattle.std.specs.Prelude.{◌≡◌, ◌+◌, ◌≤◌, [], ◌∷◌};

use crate::copies::{CONF, array, begin_copy, end_copy, opened};
use crate::steps::put;
use apcu_model::{Chunk, Fields, List, integer};
use php_graph::Graph;
use pin_table::{Pass, TableName};
use row_search::{RefuseAll, Search};
use shared_cache::{Fresh, Shared, open_cache};
use std::alloc::Global;
use std::marker::Brand;
use std::sync::Wait;
use std::test::Fail;

// All of an item, and its key and its deletion moment alone.
const ALL: Fields = Fields(511);

const KEY_AND_DELETION: Fields = Fields(33);

// The result of a step, and of its first item whether its key is `a`, whether it has its value,
// when it was dropped, and its bytes.
#[derive(Clone, Copy, Debug, PartialEq, Eq)]
struct Step {
    next: u32,
    items: u32,
    is_a: bool,
    has_value: bool,
    dtime: u64,
    size: u64,
}

fn step_of(chunk: &Chunk) -> Option<Step> {
    let first = chunk.items.as_slice().first()?;
    Some(Step {
        next: chunk.next,
        items: chunk.items.len(),
        is_a: first.key.as_slice() == b"a".as_slice(),
        has_value: first.value.is_some(),
        dtime: first.dtime,
        size: first.size,
    })
}

// One step over a list, from the first slot on; the pass has at most one event less.
fn one_step<N: TableName, R: Wait>(
    rt: &R,
    alloc: Global,
    shared: &Shared<N>,
    pass: Pass,
    search: &mut Search,
    list: List,
    fields: Fields,
) -> (Pass, Option<Step>)
    requires table { pass.table ≡ N.table }
    requires left { 2 ≤ pass.known.left }
    ensures table { result.0.table ≡ N.table }
    ensures left { pass.known.left ≤ result.0.known.left + 1 }
{
    let (pass, chunk) = shared.chunk(rt, alloc, pass, search, 0, 100, list, fields, 0);
    match chunk {
        Ok(chunk) => (pass, step_of(&chunk)),
        Err(_) => (pass, None),
    }
}

// The number of rows, the sum of their hits, and their bytes.
fn sums<N: TableName, R: Wait>(
    rt: &R,
    alloc: Global,
    shared: &Shared<N>,
    pass: Pass,
    search: &mut Search,
) -> (Pass, Option<(u64, u64, u64)>)
    requires table { pass.table ≡ N.table }
    requires left { 2 ≤ pass.known.left }
    ensures table { result.0.table ≡ N.table }
    ensures left { pass.known.left ≤ result.0.known.left + 1 }
{
    let (pass, totals) = shared.totals(rt, alloc, pass, search, List::Active, 0);
    (pass, totals.ok())
}

// The results of a step and of totals.
#[derive(Clone, Copy, Debug, PartialEq, Eq)]
struct Told {
    step: Option<Step>,
    sum: Option<(u64, u64, u64)>,
}

// The first worker stores an integer. The second one iterates, and the first one computes the
// totals.
fn iterate<N: TableName, R: Wait>(
    rt: &R,
    alloc: Global,
    fresh: Fresh,
    value: &Graph,
    search: &mut Search,
) -> Option<Told>
    requires table { N.table ≡ fresh.table }
    requires conf { N.conf ≡ fresh.conf }
    requires budgets { N.budgets ≡ fresh.budgets }
    requires two { fresh.budgets ≡ 3 ∷ 5 ∷ [] }
{
    let (shared, first, second) = opened::<N>(fresh)?;
    let (first, _) = put(rt, &shared, first, b"a", value, false);
    let (_, step) = one_step(rt, alloc, &shared, second, search, List::Active, ALL);
    let (_, sum) = sums(rt, alloc, &shared, first, search);
    Some(Told { step, sum })
}

#[test]
fn two_workers_iterate(rt: HostRuntime) -> Result<(), Fail> {
    let value = integer(rt.alloc(), 1);
    let mut search = Search::new(rt.alloc(), &RefuseAll, None)?;
    let Ok(fresh) = open_cache(&rt, rt.alloc(), &CONF, &[3, 5]) else {
        return Err(Fail::new("open_cache"));
    };
    let Some(told) = iterate::<Brand, _>(&rt, rt.alloc(), fresh, &value, &mut search) else {
        return Err(Fail::new("two passes"));
    };
    let step = Step {
        next: 32,
        items: 1,
        is_a: true,
        has_value: true,
        dtime: 0,
        size: 128,
    };
    let all = Told {
        step: Some(step),
        sum: Some((1, 0, 128)),
    };
    assert_eq!(rt; told, all);
    Ok(())
}

// What was found while a copy was in progress: where the step that deleted its row ended, the item
// of the deleted row, and whether there was room for a value.
#[derive(Clone, Copy, Debug, PartialEq, Eq)]
struct Meanwhile {
    next: Option<u32>,
    deleted: Option<Step>,
    stored: bool,
}

// And whether the copy was whole, and there was room for a value after it.
#[derive(Clone, Copy, Debug, PartialEq, Eq)]
struct Waited {
    meanwhile: Meanwhile,
    whole: bool,
    again: bool,
}

// Deletes the rows of one step, from the first slot on; the pass has at most one event less.
fn delete_step<N: TableName, R: Wait>(
    rt: &R,
    alloc: Global,
    shared: &Shared<N>,
    pass: Pass,
    search: &mut Search,
) -> (Pass, Option<u32>)
    requires table { pass.table ≡ N.table }
    requires left { 2 ≤ pass.known.left }
    ensures table { result.0.table ≡ N.table }
    ensures left { pass.known.left ≤ result.0.known.left + 1 }
{
    let (pass, next) = shared.chunk_delete(rt, alloc, pass, search, 0, 1, 0);
    (pass, next.ok())
}

// The second worker deletes the row, lists the deleted rows, and stores a value for which there is
// no room besides the row's block.
fn act_meanwhile<N: TableName, R: Wait>(
    rt: &R,
    alloc: Global,
    shared: &Shared<N>,
    pass: Pass,
    search: &mut Search,
    value: &Graph,
) -> (Pass, Meanwhile)
    requires table { pass.table ≡ N.table }
    requires left { 4 ≤ pass.known.left }
    ensures table { result.0.table ≡ N.table }
    ensures left { pass.known.left ≤ result.0.known.left + 3 }
{
    let (pass, next) = delete_step(rt, alloc, shared, pass, search);
    let list = List::Deleted;
    let (pass, deleted) = one_step(rt, alloc, shared, pass, search, list, KEY_AND_DELETION);
    let (pass, stored) = put(rt, shared, pass, b"b", value, false);
    let met = Meanwhile {
        next,
        deleted,
        stored,
    };
    (pass, met)
}

// The first worker begins a copy, and ends it once the second one did all that.
fn wait<N: TableName, R: Wait>(
    rt: &R,
    alloc: Global,
    fresh: Fresh,
    value: &Graph,
    search: &mut Search,
) -> Option<Waited>
    requires table { N.table ≡ fresh.table }
    requires conf { N.conf ≡ fresh.conf }
    requires budgets { N.budgets ≡ fresh.budgets }
    requires two { fresh.budgets ≡ 3 ∷ 5 ∷ [] }
{
    let (shared, first, second) = opened::<N>(fresh)?;
    let copying = begin_copy(rt, &shared, first, value)?;
    let (second, met) = act_meanwhile(rt, alloc, &shared, second, search, value);
    let whole = end_copy(alloc, &shared, copying, value);
    let (_, again) = put(rt, &shared, second, b"b", value, false);
    Some(Waited {
        meanwhile: met,
        whole,
        again,
    })
}

#[test]
fn a_copy_waits_while_its_row_is_deleted(rt: HostRuntime) -> Result<(), Fail> {
    let Some(value) = array(rt.alloc()) else {
        return Err(Fail::new("a value"));
    };
    let mut search = Search::new(rt.alloc(), &RefuseAll, None)?;
    let Ok(fresh) = open_cache(&rt, rt.alloc(), &CONF, &[3, 5]) else {
        return Err(Fail::new("open_cache"));
    };
    let waited = wait::<Brand, _>(&rt, rt.alloc(), fresh, &value, &mut search);
    let deleted = Step {
        next: 32,
        items: 1,
        is_a: true,
        has_value: false,
        dtime: 0,
        size: 160,
    };
    let all = Waited {
        meanwhile: Meanwhile {
            next: Some(7),
            deleted: Some(deleted),
            stored: false,
        },
        whole: true,
        again: true,
    };
    assert_eq!(rt; waited, Some(all));
    Ok(())
}
