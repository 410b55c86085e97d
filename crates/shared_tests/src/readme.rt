//! What examples/RUST.md shows: two workers share a cache, each on a thread of its own.

ghost use Rattle.std.specs.Prelude.{◌≡◌, ◌+◌, ◌<◌, ◌≤◌, ◌^◌, [], ◌∷◌, length};
ghost use Rattle.std.specs.Thread.{IsSync};

use apcu_model::Conf;
use notation::{Cursor, read_value};
use php_graph::Graph;
use pin_table::{Ended, Pass, TableName};
use shared_cache::{Closed, Fresh, Pinned, Shared, open_cache};
use std::alloc::Global;
use std::marker::Brand;
use std::sync::Wait;
use std::test::Fail;
use std::thread::{Threads, join};

// Whether a fetch at second 101 finds this value under the key. The copy is made without the lock.
fn reads<N: TableName, R: Wait>(
    rt: &R,
    alloc: Global,
    shared: &Shared<N>,
    pass: Pass,
    key: &[u8],
    value: &Graph,
) -> (Pass, bool)
    requires table { pass.table ≡ N.table }
    requires left { 2 ≤ pass.known.left }
    requires short { length key.now < 2 ^ 32 }
    ensures table { result.0.table ≡ N.table }
    ensures worker { result.0.known.worker ≡ pass.known.worker }
    ensures left { result.0.known.left + 1 ≡ pass.known.left }
{
    match shared.pin(rt, pass, key, 101) {
        Pinned::Hit(copying) => {
            let (pass, copied) = shared.copy_out(alloc, copying);
            let is_found = match copied {
                Ok(found) => found.same(value),
                Err(_) => false,
            };
            (pass, is_found)
        }
        Pinned::Scalar(pass, _) | Pinned::Miss(pass) => (pass, false),
    }
}

// A worker stores the value at second 100 for a minute, fetches it, and ends: three events.
fn works<N: TableName, R: Wait>(
    rt: &R,
    alloc: Global,
    shared: &Shared<N>,
    pass: Pass,
    value: &Graph,
) -> (Ended, bool)
    requires table { pass.table ≡ N.table }
    requires left { 3 ≤ pass.known.left }
    ensures table { result.0.table ≡ N.table }
    ensures worker { result.0.known.worker ≡ pass.known.worker }
{
    let (pass, _) = shared.store(rt, pass, b"greeting", value, 60, false, 100);
    let (pass, is_found) = reads(rt, alloc, shared, pass, b"greeting", value);
    (shared.retire(rt, pass), is_found)
}

// Both workers at once, and what is left when they have ended.
fn both_work<N: TableName + Send + Sync, R: Threads + Wait + Sync>(
    rt: &R,
    alloc: Global,
    fresh: Fresh,
    value: &Graph,
) -> Option<(Closed, bool, bool)>
    requires sync { IsSync R.row }
    requires table { N.table ≡ fresh.table }
    requires conf { N.conf ≡ fresh.conf }
    requires budgets { N.budgets ≡ fresh.budgets }
    requires two { fresh.budgets ≡ 3 ∷ 3 ∷ [] }
{
    let (shared, mut passes, mut ended) = fresh.name::<N>();
    let second = passes.pop()?;
    let first = passes.pop()?;
    let (a, b) = join(
        rt,
        || -> (Ended, bool)
            requires { (first.table ≡ N.table) × (3 ≤ first.known.left) }
            ensures { (result.0.table ≡ N.table)
                × (result.0.known.worker ≡ first.known.worker) }
        { works(rt, alloc, &shared, first, value) },
        || -> (Ended, bool)
            requires { (second.table ≡ N.table) × (3 ≤ second.known.left) }
            ensures { (result.0.table ≡ N.table)
                × (result.0.known.worker ≡ second.known.worker) }
        { works(rt, alloc, &shared, second, value) },
    );
    ended.push(a.0);
    ended.push(b.0);
    Some((shared.close(rt, ended), a.1, b.1))
}

#[test]
fn two_threads_share_a_cache(rt: HostRuntime) -> Result<(), Fail> {
    let mut text = Cursor::new(b"s:5:\"hello\";");
    let value = read_value(rt.alloc(), &mut text)?;
    let Ok(fresh) = open_cache(&rt, rt.alloc(), &Conf::usual(), &[3, 3]) else {
        return Err(Fail::new("open_cache"));
    };
    let Some((closed, first, second)) = both_work::<Brand, _>(&rt, rt.alloc(), fresh, &value) else {
        return Err(Fail::new("two passes"));
    };
    assert_eq!(rt; (first, second), (true, true));
    assert_eq!(rt; closed.journal.len(), 6);
    Ok(())
}
