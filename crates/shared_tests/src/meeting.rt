//! Two workers on threads of their own.

ghost use Rattle.std.specs.Prelude.{◌≡◌, ◌+◌, ◌≤◌, [], ◌∷◌, length, IfSome};
ghost use Rattle.std.specs.Thread.{IsSync};
ghost use Rattle.pin_table.specs.Lists.{first_passes, first_pass};

use crate::steps::{Found, learns};
use crate::works::{Did, Work, works};
use apcu_model::{Conf, Counts};
use counter_entry::Fate;
use php_graph::{Builder, Bytes, Graph, Item, Wants};
use pin_table::{Pass, Passes, TableName};
use shared_cache::{Closed, Fresh, OpenFault, open_cache};
use std::alloc::Global;
use std::marker::Brand;
use std::process::Abort;
use std::sync::Wait;
use std::test::Fail;
use std::thread::{Threads, join};

// 480 words for blocks.
pub(crate) const CONF: Conf = Conf {
    words: 512,
    slots: 32,
    ttl: 0,
    segments: 1,
};

// A string of this many bytes `z`.
pub(crate) fn letters(rt: &impl Abort, alloc: Global, count: usize) -> Result<Graph, Fail> {
    assert!(rt; count < 1 << 20);
    let item = Item::Str(Bytes::from_vec(vec![in alloc; b'z'; count]?));
    let mut builder = Builder::new(alloc);
    assert!(rt; builder.wants().permits(&item));
    builder.push(item)?;
    assert!(rt; builder.wants() == Wants::Done);
    Ok(builder.seal())
}

// The error of `open_cache`.
fn fault(rt: &impl Wait, alloc: Global, conf: &Conf, budgets: &[u32]) -> Option<OpenFault> {
    match open_cache(rt, alloc, conf, budgets) {
        Ok(_) => None,
        Err(fault) => Some(fault),
    }
}

#[test]
fn opens_or_not(rt: HostRuntime) -> Result<(), Fail> {
    let odd = Conf {
        words: 511,
        slots: 8,
        ..Conf::usual()
    };
    let bad = Some(OpenFault::BadConf);
    assert_eq!(rt; fault(&rt, rt.alloc(), &odd, &[1]), bad);
    assert_eq!(rt; fault(&rt, rt.alloc(), &CONF, &[1, 0]), bad);
    assert_eq!(rt; fault(&rt, rt.alloc(), &CONF, &[1; 65]), bad);
    assert_eq!(rt; fault(&rt, rt.alloc(), &CONF, &[4_194_304, 1]), bad);
    assert_eq!(rt; fault(&rt, rt.alloc(), &CONF, &[1; 64]), None);
    Ok(())
}

pub(crate) fn two_passes<N: TableName>(passes: &mut Passes) -> Option<(Pass, Pass)>
    requires two { length N.budgets ≡ 2 }
    requires passes { passes.old ≡ first_passes N.table N.budgets 2 }
    ensures first { IfSome result (λ p. p.0 ≡ first_pass N.table N.budgets 0) }
    ensures second { IfSome result (λ p. p.1 ≡ first_pass N.table N.budgets 1) }
{
    let second = passes.pop()?;
    let first = passes.pop()?;
    Some((first, second))
}

// Two workers do their work at once. The second one then does further work, learns of the first
// one's end, and clears the cache.
fn two_at_once<N: TableName + Send + Sync, R: Threads + Wait + Sync>(
    rt: &R,
    alloc: Global,
    fresh: Fresh,
    value: &Graph,
    one: Work,
    other: Work,
    later: Work,
) -> Option<(Closed, [Did; 3])>
    requires sync { IsSync R.row }
    requires table { N.table ≡ fresh.table }
    requires conf { N.conf ≡ fresh.conf }
    requires budgets { N.budgets ≡ fresh.budgets }
    requires two { fresh.budgets ≡ 5 ∷ 10 ∷ [] }
{
    let (shared, mut passes, mut ended) = fresh.name::<N>();
    let (first, second) = two_passes::<N>(&mut passes)?;
    let (a, b) = join(
        rt,
        || -> (Pass, Did)
            requires { (first.table ≡ N.table) × (5 ≤ first.known.left) }
            ensures { (result.0.table ≡ N.table)
                × (result.0.known.worker ≡ first.known.worker)
                × (first.known.left ≤ result.0.known.left + 4) }
        { works(rt, alloc, &shared, first, one, value) },
        || -> (Pass, Did)
            requires { (second.table ≡ N.table) × (5 ≤ second.known.left) }
            ensures { (result.0.table ≡ N.table)
                × (result.0.known.worker ≡ second.known.worker)
                × (second.known.left ≤ result.0.known.left + 4) }
        { works(rt, alloc, &shared, second, other, value) },
    );
    let (second, did) = works(rt, alloc, &shared, b.0, later, value);
    let (first, second) = learns(rt, &shared, a.0, second);
    ended.push(first);
    ended.push(second);
    Some((shared.close(rt, ended), [a.1, b.1, did]))
}

// The same in a new cache, with a string where a value is stored.
fn meet<R: Threads + Wait + Sync + Abort>(
    rt: &R,
    alloc: Global,
    one: Work,
    other: Work,
    later: Work,
) -> Result<(Closed, [Did; 3]), Fail>
    requires sync { IsSync R.row }
{
    let value = letters(rt, alloc, 9)?;
    let Ok(fresh) = open_cache(rt, alloc, &CONF, &[5, 10]) else {
        return Err(Fail::new("open_cache"));
    };
    match two_at_once::<Brand, _>(rt, alloc, fresh, &value, one, other, later) {
        Some(met) => Ok(met),
        None => Err(Fail::new("two passes")),
    }
}

#[test]
fn two_workers(rt: HostRuntime) -> Result<(), Fail> {
    let (one, other, later) = (Work::Store(b'a'), Work::Store(b'b'), Work::Take(b'a'));
    let (closed, met) = meet(&rt, rt.alloc(), one, other, later)?;
    let stored = Did::Stored {
        stored: true,
        again: false,
        counted: None,
        found: Found::Places(1),
    };
    let taken = Did::Taken {
        there: true,
        gone: true,
        found: Found::Nothing,
    };
    assert_eq!(rt; met, [stored, stored, taken]);
    let end = Counts {
        hits: 0,
        misses: 0,
        inserts: 0,
        expunges: 0,
        entries: 0,
    };
    assert_eq!(rt; closed.counts, end);
    assert_eq!(rt; closed.journal.len(), 14);
    Ok(())
}

fn once(counted: Option<i64>, number: i64) -> u32 {
    u32::from(counted == Some(number))
}

// How often counting returned a number.
fn times(did: Did, number: i64) -> u32 {
    match did {
        Did::Counted(met) => once(met[0], number)
            .saturating_add(once(met[1], number))
            .saturating_add(once(met[2], number)),
        _ => 0,
    }
}

// Both count under one key; the second one then swaps.
#[test]
fn two_workers_count(rt: HostRuntime) -> Result<(), Fail> {
    let (closed, met) = meet(&rt, rt.alloc(), Work::Count, Work::Count, Work::Swap)?;
    for number in 1..=6 {
        let all = times(met[0], number).saturating_add(times(met[1], number));
        assert_eq!(rt; all, 1);
    }
    let end = Did::Swapped {
        taken: true,
        again: false,
        on: Some(-8),
    };
    assert_eq!(rt; met[2], end);
    assert_eq!(rt; closed.journal.len(), 12);
    Ok(())
}

fn given(number: i64, fate: Fate) -> Did {
    Did::Given {
        number: Some(number),
        fate,
        inner: Found::Int(number),
    }
}

// The replies if the value is this integer, and how each found it.
fn all_given(number: i64, first: Fate, second: Fate) -> [Did; 3] {
    [
        given(number, first),
        given(number, second),
        given(number, Fate::Found),
    ]
}

// One of them makes the value and stores it under both keys, and the other finds it.
#[test]
fn two_workers_generate(rt: HostRuntime) -> Result<(), Fail> {
    let (closed, met) = meet(&rt, rt.alloc(), Work::Ask(7), Work::Ask(8), Work::Ask(8))?;
    let made = Fate::Made { stored: true };
    let by_first = met == all_given(7, made, Fate::Found);
    let by_second = met == all_given(8, Fate::Found, made);
    assert!(rt; by_first || by_second);
    assert_eq!(rt; closed.journal.len(), 9);
    Ok(())
}
