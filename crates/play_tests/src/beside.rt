//! Two workers on threads of their own.

ghost use Rattle.std.specs.Prelude.{◌≡◌, ◌≤◌, [], ◌∷◌, length, IfSome};
ghost use Rattle.std.specs.Thread.{IsSync};
ghost use Rattle.pin_table.specs.Lists.{first_passes, first_pass, known_list};
ghost use Rattle.pin_table.specs.Views.{has_worker};
ghost use Rattle.worker_play.specs.Goes.{KnowsOwnEvents};

use crate::gates::Noting;
use crate::playing::{CONF, plays, script_of};
use apcu_model::{Clock, Journal};
use io_edges::{Gate, Point};
use notation::ByteOut;
use pin_table::{Pass, Passes, TableName};
use row_search::RegexMaker;
use script_read::{Script, scripts_cross};
use shared_cache::{Closed, Fresh, open_cache};
use std::alloc::Global;
use std::marker::Brand;
use std::process::Abort;
use std::sync::Wait;
use std::test::Fail;
use std::thread::{Threads, join};
use worker_play::PlayFault;

fn two_passes<N: TableName>(passes: &mut Passes) -> Option<(Pass, Pass)>
    requires two { length N.budgets ≡ 2 }
    requires passes { passes.old ≡ first_passes N.table N.budgets 2 }
    ensures first { IfSome result (λ p. p.0 ≡ first_pass N.table N.budgets 0) }
    ensures second { IfSome result (λ p. p.1 ≡ first_pass N.table N.budgets 1) }
    ensures tables { IfSome result (λ p. (p.0.table ≡ N.table) × (p.1.table ≡ N.table)) }
    ensures no_event { IfSome result (λ p. (p.0.known.own ≡ []) × (p.1.known.own ≡ [])) }
    ensures whole { IfSome result (λ p. KnowsOwnEvents p.0 × KnowsOwnEvents p.1) }
{
    let second = passes.pop()?;
    let first = passes.pop()?;
    Some((first, second))
}

// Both play their scripts, then the first one ends, and the second one.
fn plays_both<N: TableName + Send + Sync, G: Gate + Sync, R: Threads + Wait + Sync>(
    rt: &R,
    alloc: Global,
    fresh: Fresh,
    scripts: &(Script, Script),
    gate: &G,
) -> Option<
    (
        Closed,
        Result<ByteOut, PlayFault>,
        Result<ByteOut, PlayFault>,
    ),
>
    requires sync { IsSync R.row }
    requires table { N.table ≡ fresh.table }
    requires conf { N.conf ≡ fresh.conf }
    requires shape { fresh.conf ≡ CONF }
    requires budgets { N.budgets ≡ fresh.budgets }
    requires two { length fresh.budgets ≡ 2 }
{
    scripts_cross();
    let (shared, mut passes, mut ended) = fresh.name::<N>();
    let (first, second) = two_passes::<N>(&mut passes)?;
    let (a, b) = join(
        rt,
        || -> Option<(Pass, Result<ByteOut, PlayFault>)>
            requires { (CONF ≡ N.conf) × (first.table ≡ N.table) × (first.known.own ≡ [])
                × KnowsOwnEvents first }
            ensures { IfSome result (λ r. (r.0.table ≡ N.table)
                × (r.0.known.worker ≡ first.known.worker) × (1 ≤ r.0.known.left)) }
        {
            plays(
                rt,
                alloc,
                &CONF,
                &shared,
                first,
                &scripts.0,
                &RegexMaker,
                gate,
                Clock::Line,
            )
        },
        || -> Option<(Pass, Result<ByteOut, PlayFault>)>
            requires { (CONF ≡ N.conf) × (second.table ≡ N.table) × (second.known.own ≡ [])
                × KnowsOwnEvents second }
            ensures { IfSome result (λ r. (r.0.table ≡ N.table)
                × (r.0.known.worker ≡ second.known.worker) × (1 ≤ r.0.known.left)) }
        {
            plays(
                rt,
                alloc,
                &CONF,
                &shared,
                second,
                &scripts.1,
                &RegexMaker,
                gate,
                Clock::Line,
            )
        },
    );
    let (first, printed) = a?;
    let (second, other) = b?;
    ended.push(shared.retire(rt, first));
    ended.push(shared.retire(rt, second));
    Some((shared.close(rt, ended), printed, other))
}

// The points of one worker, and for each mark its worker and its mask.
fn points_of(alloc: Global, points: &[(u32, Point)], worker: u32) -> Result<Vec<Point>, Fail> {
    let mut own = Vec::new(alloc);
    for (whose, point) in points {
        if *whose == worker {
            own.push(*point)?;
        }
    }
    Ok(own)
}

fn marks_of(alloc: Global, journal: &Journal) -> Result<Vec<(u32, u64)>, Fail> {
    let mut marks = Vec::new(alloc);
    for i in 0..journal.len() {
        let mark = journal.at(i);
        marks.push((mark.worker, mark.mask))?;
    }
    Ok(marks)
}

// The first worker stores a value and fetches it; the second one deletes the key and stores
// another value under it.
fn scripts_of_both(alloc: Global) -> Result<(Script, Script), Fail> {
    let first = script_of(
        alloc,
        b"worker\n\
        apcu_store s:1:\"a\"; s:3:\"old\";\n\
        apcu_fetch s:1:\"a\";\n\
        apcu_exists a:2:{i:0;s:1:\"a\";i:1;s:1:\"b\";}\n\
        apcu_fetch s:1:\"b\";\n",
    )?;
    let second = script_of(
        alloc,
        b"worker\n\
        apcu_delete s:1:\"a\";\n\
        apcu_store a:2:{s:1:\"a\";s:3:\"new\";s:1:\"b\";i:7;} N;\n",
    )?;
    Ok((first, second))
}

// The masks of the three events of the second worker have the first one.
fn expect_marks(rt: &impl Abort, alloc: Global, journal: &Journal) -> Result<(), Fail> {
    let marks = marks_of(alloc, journal)?;
    let met_first = 1;
    assert_eq!(rt;
        marks.as_slice(),
        [
            (0, 0),
            (0, 0),
            (1, met_first),
            (1, met_first),
            (1, met_first),
            (0, 0),
            (0, 0),
            (0, 0),
            (0, 0),
            (1, 0),
        ]
        .as_slice()
    );
    Ok(())
}

// The points of the first worker, and those of the second one.
fn expect_points(rt: &impl Abort, alloc: Global, points: &[(u32, Point)]) -> Result<(), Fail> {
    use Point::{After, Before, Pinned};
    for (worker, own) in [
        (
            0,
            [
                Before(0),
                After(0),
                Before(1),
                Pinned(1),
                After(1),
                Before(2),
                After(2),
                Before(3),
                After(3),
            ]
            .as_slice(),
        ),
        (1, &[Before(0), After(0), Before(1), After(1)]),
    ] {
        let noted = points_of(alloc, points, worker)?;
        assert_eq!(rt; noted.as_slice(), own);
    }
    Ok(())
}

// The results of both scripts: the closed cache, what each worker printed, and the points that the
// gate noted.
#[derive(Drop)]
struct Met {
    closed: Closed,
    first: Result<ByteOut, PlayFault>,
    second: Result<ByteOut, PlayFault>,
    points: Vec<(u32, Point)>,
}

fn meet<R: Threads + Wait + Sync>(rt: &R, alloc: Global) -> Result<Met, Fail>
    requires sync { IsSync R.row }
{
    let scripts = scripts_of_both(alloc)?;
    let gate = Noting::new(rt, alloc, 64)?;
    let Ok(fresh) = open_cache(rt, alloc, &CONF, &[6, 4]) else {
        return Err(Fail::new("open_cache"));
    };
    let played = plays_both::<Brand, _, _>(rt, alloc, fresh, &scripts, &gate);
    let Some((closed, first, second)) = played else {
        return Err(Fail::new("too few events"));
    };
    Ok(Met {
        closed,
        first,
        second,
        points: gate.into_points(),
    })
}

// While the first worker has the block of its value pinned, the second one deletes the key and
// stores another value under it. The first one still copies what it found, and finds the other
// value later.
#[test]
fn copies_what_is_deleted_meanwhile(rt: HostRuntime) -> Result<(), Fail> {
    let alloc = rt.alloc();
    let met = meet(&rt, alloc)?;
    let wanted = b"b:1;\ns:3:\"old\";b:1;\na:2:{s:1:\"a\";b:1;s:1:\"b\";b:1;}\ni:7;b:1;\n";
    expect_printed(&rt, &met.first, wanted)?;
    expect_printed(&rt, &met.second, b"b:1;\na:0:{}\n")?;
    expect_marks(&rt, alloc, &met.closed.journal)?;
    expect_points(&rt, alloc, &met.points)
}

fn expect_printed<R: Abort>(
    rt: &R,
    printed: &Result<ByteOut, PlayFault>,
    wanted: &[u8],
) -> Result<(), Fail> {
    match printed {
        Ok(printed) => assert_eq!(rt; printed.as_slice(), wanted),
        Err(_) => return Err(Fail::new("memory")),
    }
    Ok(())
}
