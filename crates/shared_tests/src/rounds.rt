//! Two workers call at once, meet, and call at once again.

ghost use Rattle.std.specs.Prelude.{◌≡◌, ◌+◌, ◌≤◌, [], ◌∷◌};
ghost use Rattle.std.specs.Thread.{IsSync};

use crate::meeting::{CONF, letters, two_passes};
use crate::steps::{look, put};
use php_graph::Graph;
use pin_table::{Pass, TableName};
use shared_cache::{Closed, Fresh, open_cache};
use std::marker::Brand;
use std::sync::Wait;
use std::test::Fail;
use std::thread::{Threads, join};

// Each worker stores a key of its own. They meet, and then each tests whether the other one's key
// exists. The second of the result is whether both stored, and both found it.
fn two_rounds<N: TableName + Send + Sync, R: Threads + Wait + Sync>(
    rt: &R,
    fresh: Fresh,
    value: &Graph,
) -> Option<(Closed, bool)>
    requires sync { IsSync R.row }
    requires table { N.table ≡ fresh.table }
    requires conf { N.conf ≡ fresh.conf }
    requires budgets { N.budgets ≡ fresh.budgets }
    requires two { fresh.budgets ≡ 3 ∷ 3 ∷ [] }
{
    let (shared, mut passes, mut ended) = fresh.name::<N>();
    let (first, second) = two_passes::<N>(&mut passes)?;
    let (a, b) = join(
        rt,
        || -> (Pass, bool)
            requires { (first.table ≡ N.table) × (2 ≤ first.known.left) }
            ensures { (result.0.table ≡ N.table)
                × (result.0.known.worker ≡ first.known.worker)
                × (result.0.known.left + 1 ≡ first.known.left) }
        { put(rt, &shared, first, b"a", value, false) },
        || -> (Pass, bool)
            requires { (second.table ≡ N.table) × (2 ≤ second.known.left) }
            ensures { (result.0.table ≡ N.table)
                × (result.0.known.worker ≡ second.known.worker)
                × (result.0.known.left + 1 ≡ second.known.left) }
        { put(rt, &shared, second, b"b", value, false) },
    );
    let (third, fourth) = shared.meet(rt, a.0, b.0);
    let (c, d) = join(
        rt,
        || -> (Pass, bool)
            requires { (third.table ≡ N.table) × (2 ≤ third.known.left) }
            ensures { (result.0.table ≡ N.table)
                × (result.0.known.worker ≡ third.known.worker)
                × (result.0.known.left + 1 ≡ third.known.left) }
        { look(rt, &shared, third, b"b") },
        || -> (Pass, bool)
            requires { (fourth.table ≡ N.table) × (2 ≤ fourth.known.left) }
            ensures { (result.0.table ≡ N.table)
                × (result.0.known.worker ≡ fourth.known.worker)
                × (result.0.known.left + 1 ≡ fourth.known.left) }
        { look(rt, &shared, fourth, b"a") },
    );
    ended.push(shared.retire(rt, c.0));
    ended.push(shared.retire(rt, d.0));
    Some((shared.close(rt, ended), a.1 && b.1 && c.1 && d.1))
}

#[test]
fn calls_after_a_meeting_see_those_before_it(rt: HostRuntime) -> Result<(), Fail> {
    let alloc = rt.alloc();
    let value = letters(&rt, alloc, 9)?;
    let Ok(fresh) = open_cache(&rt, alloc, &CONF, &[3, 3]) else {
        return Err(Fail::new("open_cache"));
    };
    let Some((closed, done)) = two_rounds::<Brand, _>(&rt, fresh, &value) else {
        return Err(Fail::new("two passes"));
    };
    assert!(rt; done);
    // a meeting is no event
    assert_eq!(rt; closed.journal.len(), 6);
    assert_eq!(rt; closed.counts.inserts, 2);
    Ok(())
}
