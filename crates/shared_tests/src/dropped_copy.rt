//! A copy that is dropped keeps its block for good.

ghost use Rattle.std.specs.Prelude.{◌≡◌, ◌+◌, ◌≤◌, [], ◌∷◌};

use crate::meeting::{CONF, letters, two_passes};
use crate::steps::{put, remove};
use php_graph::Graph;
use pin_table::{Pass, TableName};
use shared_cache::{Fresh, Pinned, Shared, open_cache};
use std::alloc::Global;
use std::marker::Brand;
use std::sync::Wait;
use std::test::Fail;

// What is done with a copy that a fetch has begun.
#[derive(Clone, Copy)]
enum Copy {
    Made,
    Dropped,
}

// The first worker stores a value and fetches it, and does nothing more. Returns whether it was
// copied or left in its block.
fn leaves<N: TableName, R: Wait>(
    rt: &R,
    alloc: Global,
    shared: &Shared<N>,
    pass: Pass,
    value: &Graph,
    copy: Copy,
) -> bool
    requires table { pass.table ≡ N.table }
    requires left { 3 ≤ pass.known.left }
{
    let (pass, _) = put(rt, shared, pass, b"a", value, false);
    match shared.pin(rt, pass, b"a", 6) {
        Pinned::Hit(copying) => match copy {
            Copy::Made => {
                let (_, copied) = shared.copy_out(alloc, copying);
                copied.is_ok()
            }
            Copy::Dropped => true,
        },
        Pinned::Scalar(_, _) | Pinned::Miss(_) => false,
    }
}

// The replies to the second worker.
#[derive(Clone, Copy, Debug, PartialEq, Eq)]
struct Met {
    left: bool,
    deleted: bool,
    stored: bool,
    again: bool,
}

// The second worker deletes that value, and twice stores one that fills all blocks.
fn fills<N: TableName, R: Wait>(
    rt: &R,
    alloc: Global,
    fresh: Fresh,
    value: &Graph,
    larger: &Graph,
    copy: Copy,
) -> Option<Met>
    requires table { N.table ≡ fresh.table }
    requires conf { N.conf ≡ fresh.conf }
    requires budgets { N.budgets ≡ fresh.budgets }
    requires two { fresh.budgets ≡ 3 ∷ 4 ∷ [] }
{
    let (shared, mut passes, _) = fresh.name::<N>();
    let (first, second) = two_passes::<N>(&mut passes)?;
    let left = leaves(rt, alloc, &shared, first, value, copy);
    let (second, deleted) = remove(rt, &shared, second, b"a");
    let (second, stored) = put(rt, &shared, second, b"b", larger, false);
    let (_, again) = put(rt, &shared, second, b"b", larger, false);
    Some(Met {
        left,
        deleted,
        stored,
        again,
    })
}

#[test]
fn a_dropped_copy(rt: HostRuntime) -> Result<(), Fail> {
    let value = letters(&rt, rt.alloc(), 2_000)?;
    let larger = letters(&rt, rt.alloc(), 3_728)?;
    for (copy, room) in [(Copy::Dropped, false), (Copy::Made, true)] {
        let Ok(fresh) = open_cache(&rt, rt.alloc(), &CONF, &[3, 4]) else {
            return Err(Fail::new("open_cache"));
        };
        let Some(met) = fills::<Brand, _>(&rt, rt.alloc(), fresh, &value, &larger, copy) else {
            return Err(Fail::new("two passes"));
        };
        let all = Met {
            left: true,
            deleted: true,
            stored: room,
            again: room,
        };
        assert_eq!(rt; met, all);
    }
    Ok(())
}
