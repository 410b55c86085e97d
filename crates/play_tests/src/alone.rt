//! One worker, with ample memory.

ghost use Rattle.std.specs.Prelude.{◌≡◌, ◌∷◌, [], IfSome};
ghost use Rattle.pin_table.specs.Lists.{first_passes, first_pass};

use crate::playing::{CONF, plays, script_of};
use apcu_model::Clock;
use io_edges::NoGate;
use notation::ByteOut;
use pin_table::{Pass, Passes, TableName};
use row_search::{Maker, RefuseAll, RegexMaker};
use script_read::Script;
use shared_cache::{Closed, Fresh, open_cache};
use std::alloc::Global;
use std::marker::Brand;
use std::process::Abort;
use std::sync::Wait;
use std::test::Fail;
use worker_play::PlayFault;

fn one_pass<N: TableName>(passes: &mut Passes) -> Option<Pass>
    requires passes { passes.old ≡ first_passes N.table N.budgets 1 }
    ensures { IfSome result (λ p. p ≡ first_pass N.table N.budgets 0) }
{
    passes.pop()
}

// The only worker plays its script and ends.
fn plays_alone<N: TableName, M: Maker + Sync, R: Wait>(
    rt: &R,
    alloc: Global,
    fresh: Fresh,
    budget: u32,
    script: &Script,
    maker: &M,
    clock: Clock,
) -> Option<(Closed, Result<ByteOut, PlayFault>)>
    requires table { N.table ≡ fresh.table }
    requires conf { N.conf ≡ fresh.conf }
    requires shape { fresh.conf ≡ CONF }
    requires budgets { N.budgets ≡ fresh.budgets }
    requires one { fresh.budgets ≡ budget ∷ [] }
{
    let (shared, mut passes, mut ended) = fresh.name::<N>();
    let pass = one_pass::<N>(&mut passes)?;
    let (pass, printed) = plays(
        rt, alloc, &CONF, &shared, pass, script, maker, &NoGate, clock,
    )?;
    ended.push(shared.retire(rt, pass));
    Some((shared.close(rt, ended), printed))
}

// A script alone, under a clock: what it prints, if none of its patterns is refused; the largest
// number of events it may make, and the number it makes, its end included in both.
#[derive(Clone, Copy)]
struct Alone {
    script: &'static [u8],
    clock: Clock,
    printed: Option<&'static [u8]>,
    budget: u32,
    events: u32,
}

// The script of the case, played alone.
fn played_alone<M: Maker + Sync, R: Wait>(
    rt: &R,
    alloc: Global,
    case: Alone,
    maker: &M,
) -> Result<(Closed, Result<ByteOut, PlayFault>), Fail> {
    let script = script_of(alloc, case.script)?;
    let Ok(fresh) = open_cache(rt, alloc, &CONF, &[case.budget]) else {
        return Err(Fail::new("open_cache"));
    };
    match plays_alone::<Brand, _, _>(rt, alloc, fresh, case.budget, &script, maker, case.clock) {
        Some(played) => Ok(played),
        None => Err(Fail::new("too few events")),
    }
}

// Without memory the play ends with the fault, and only the first of the events were made.
fn expect<M: Maker + Sync, R: Wait + Abort>(
    rt: &R,
    alloc: Global,
    case: Alone,
    maker: &M,
) -> Result<(), Fail> {
    let (closed, printed) = played_alone(rt, alloc, case, maker)?;
    let events = closed.journal.len();
    match (printed, case.printed) {
        (Ok(printed), Some(wanted)) => {
            assert_eq!(rt; printed.as_slice(), wanted);
            assert_eq!(rt; events, case.events);
        }
        (Err(PlayFault::Pattern), None) => assert_eq!(rt; events, case.events),
        (Err(PlayFault::Memory), _) => assert!(rt; 1 <= events && events <= case.events),
        _ => return Err(Fail::new("a pattern is refused, or none")),
    }
    Ok(())
}

const EVERY_CALL: Alone = Alone {
    script: b"worker\n\
        time i:100;\n\
        apcu_enabled\n\
        apcu_store s:1:\"a\"; i:5; i:10;\n\
        apcu_add s:1:\"a\"; i:6;\n\
        apcu_store a:2:{s:1:\"b\";a:2:{i:0;a:1:{i:0;i:1;}i:1;R:3;}i:7;s:3:\"abc\";} N;\n\
        apcu_fetch s:1:\"b\";\n\
        apcu_fetch a:3:{i:0;s:1:\"7\";i:1;s:1:\"b\";i:2;s:1:\"c\";}\n\
        apcu_exists s:1:\"a\";\n\
        apcu_exists a:2:{i:0;s:1:\"a\";i:1;s:1:\"c\";}\n\
        time i:111;\n\
        apcu_fetch s:1:\"a\";\n\
        apcu_inc s:1:\"n\"; i:3; i:60;\n\
        apcu_inc s:1:\"n\";\n\
        apcu_dec s:1:\"n\"; i:6;\n\
        apcu_inc s:1:\"7\";\n\
        apcu_cas s:1:\"n\"; i:-2; i:9;\n\
        apcu_cas s:1:\"n\"; i:-2; i:9;\n\
        apcu_fetch s:1:\"n\";\n\
        apcu_delete s:1:\"b\";\n\
        apcu_delete a:2:{i:0;s:1:\"b\";i:1;s:1:\"7\";}\n\
        apcu_clear_cache\n\
        apcu_exists s:1:\"7\";\n",
    clock: Clock::Line,
    printed: Some(
        b"b:1;\n\
        b:1;\n\
        b:0;\n\
        a:0:{}\n\
        a:2:{i:0;a:1:{i:0;i:1;}i:1;R:2;}b:1;\n\
        a:2:{i:7;s:3:\"abc\";s:1:\"b\";a:2:{i:0;a:1:{i:0;i:1;}i:1;R:4;}}b:1;\n\
        b:1;\n\
        a:1:{s:1:\"a\";b:1;}\n\
        b:0;b:0;\n\
        i:3;b:1;\n\
        i:4;b:1;\n\
        i:-2;b:1;\n\
        b:0;b:0;\n\
        b:1;\n\
        b:0;\n\
        i:9;b:1;\n\
        b:1;\n\
        a:1:{i:0;s:1:\"b\";}\n\
        b:1;\n\
        b:0;\n",
    ),
    budget: 25,
    events: 25,
};

// Three rows in the slots 6, 6 and 7 of 32, walked over one by one, that is in three steps; then
// those whose keys the pattern finds are deleted.
const ITERATORS: Alone = Alone {
    script: b"worker\n\
        apcu_store a:3:{s:1:\"a\";i:1;s:1:\"A\";i:1;s:1:\"b\";i:1;}\n\
        APCUIterator N; a:1:{i:0;s:3:\"key\";} i:1;\n\
        APCUIterator_totals N;\n\
        APCUIterator_delete s:6:\"/^a$/i\";\n\
        apcu_exists a:3:{i:0;s:1:\"a\";i:1;s:1:\"A\";i:2;s:1:\"b\";}\n\
        apcu_delete a:2:{i:0;s:1:\"a\";i:1;s:1:\"b\";}\n\
        APCUIterator N; a:1:{i:0;s:3:\"key\";} i:1; s:7:\"deleted\";\n",
    clock: Clock::Line,
    printed: Some(
        b"a:0:{}\n\
        a:3:{i:0;a:1:{s:3:\"key\";s:1:\"a\";}i:1;a:1:{s:3:\"key\";s:1:\"A\";}\
        i:2;a:1:{s:3:\"key\";s:1:\"b\";}}\n\
        a:3:{s:5:\"count\";i:3;s:4:\"hits\";i:0;s:4:\"size\";i:384;}\n\
        b:1;\n\
        a:1:{s:1:\"b\";b:1;}\n\
        a:1:{i:0;s:1:\"a\";}\n\
        a:0:{}\n",
    ),
    budget: 75,
    events: 15,
};

// A row that is stored for ten seconds is looked for after a line `time`, and in a request that
// begins eleven seconds after the first one.
const TWO_REQUESTS: Alone = Alone {
    script: b"worker\n\
        request i:100;\n\
        apcu_store s:1:\"a\"; i:1; i:10;\n\
        time i:200;\n\
        apcu_fetch s:1:\"a\";\n\
        request i:111;\n\
        apcu_fetch s:1:\"a\";\n",
    clock: Clock::Request,
    printed: Some(b"b:1;\ni:1;b:1;\nb:0;b:0;\n"),
    budget: 4,
    events: 4,
};

// Two pools on one cache. A repeated key keeps its place; a default is numbered where it occurs; a
// time to live that is not positive deletes; clearing one pool leaves the other one as it is.
const POOLS: Alone = Alone {
    script: b"worker\n\
        pool_set s:1:\"p\"; s:1:\"a\"; i:5;\n\
        pool_set s:1:\"q\"; s:1:\"a\"; i:7; i:60;\n\
        pool_get s:1:\"p\"; s:1:\"a\";\n\
        pool_get s:1:\"q\"; s:1:\"b\"; i:9;\n\
        pool_get s:1:\"q\"; s:1:\"b\";\n\
        apcu_fetch s:4:\"{p}a\";\n\
        pool_get_multiple s:1:\"p\"; a:3:{i:0;s:1:\"a\";i:1;s:1:\"5\";i:2;s:1:\"a\";} b:0;\n\
        pool_set_multiple s:1:\"p\"; a:2:{s:1:\"b\";b:0;i:5;i:2;}\n\
        pool_get_multiple s:1:\"p\"; a:3:{i:0;s:1:\"b\";i:1;s:1:\"c\";i:2;s:1:\"5\";} \
        a:2:{i:0;a:1:{i:0;i:1;}i:1;R:2;}\n\
        pool_has s:1:\"p\"; s:1:\"b\";\n\
        pool_set s:1:\"p\"; s:1:\"b\"; i:1; i:0;\n\
        pool_has s:1:\"p\"; s:1:\"b\";\n\
        pool_delete s:1:\"p\"; s:1:\"b\";\n\
        pool_delete_multiple s:1:\"p\"; a:2:{i:0;s:1:\"5\";i:1;s:1:\"x\";}\n\
        pool_clear s:1:\"p\";\n\
        pool_has s:1:\"p\"; s:1:\"a\";\n\
        pool_has s:1:\"q\"; s:1:\"a\";\n\
        pool_set_multiple s:1:\"q\"; a:2:{s:1:\"a\";i:1;s:1:\"b\";i:2;} i:-1;\n\
        pool_has s:1:\"q\"; s:1:\"a\";\n",
    clock: Clock::Line,
    printed: Some(
        b"b:1;\n\
        b:1;\n\
        i:5;\n\
        i:9;\n\
        N;\n\
        i:5;b:1;\n\
        a:2:{s:1:\"a\";i:5;i:5;b:0;}\n\
        b:1;\n\
        a:3:{s:1:\"b\";b:0;s:1:\"c\";a:2:{i:0;a:1:{i:0;i:1;}i:1;R:4;}i:5;i:2;}\n\
        b:1;\n\
        b:1;\n\
        b:0;\n\
        b:1;\n\
        b:1;\n\
        b:1;\n\
        b:0;\n\
        b:1;\n\
        b:1;\n\
        b:0;\n",
    ),
    budget: 58,
    events: 27,
};

// A script without calls, and one whose only call makes no event, with those of all calls.
#[test]
fn plays_alone_with_every_call(rt: HostRuntime) -> Result<(), Fail> {
    for case in [
        EVERY_CALL,
        ITERATORS,
        POOLS,
        Alone {
            script: b"worker\n",
            clock: Clock::Line,
            printed: Some(b""),
            budget: 1,
            events: 1,
        },
        Alone {
            script: b"worker\napcu_enabled\n",
            clock: Clock::Line,
            printed: Some(b"b:1;\n"),
            budget: 1,
            events: 1,
        },
    ] {
        expect(&rt, rt.alloc(), case, &RegexMaker)?;
    }
    Ok(())
}

// If each pattern is refused, the worker stops at the first one, after the store, the walk and the
// totals.
#[test]
fn stops_at_a_refused_pattern(rt: HostRuntime) -> Result<(), Fail> {
    let refused = Alone {
        printed: None,
        events: 8,
        ..ITERATORS
    };
    expect(&rt, rt.alloc(), refused, &RefuseAll)
}

// By the line's moment the row is too old after the line `time`.
#[test]
fn plays_by_its_clock(rt: HostRuntime) -> Result<(), Fail> {
    let by_line = Alone {
        clock: Clock::Line,
        printed: Some(b"b:1;\nb:0;b:0;\nb:0;b:0;\n"),
        ..TWO_REQUESTS
    };
    expect(&rt, rt.alloc(), TWO_REQUESTS, &RegexMaker)?;
    expect(&rt, rt.alloc(), by_line, &RegexMaker)
}
