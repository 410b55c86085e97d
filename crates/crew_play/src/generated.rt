//! Generated scripts on one cache, and their summary.

ghost use Rattle.std.specs.Prelude.{◌≡◌, ◌≢◌, ℕ, List, ◌+◌, ◌*◌, ◌<◌, ◌≤◌, [], Some, length};
ghost use Rattle.std.specs.Prelude.{slice_get, slice_index, is_ok, ◌&&◌};
ghost use Rattle.std.specs.Prelude.{IfOk, IfErr, IsTrue, IsFalse};
ghost use Rattle.std.specs.Result.{result_ok};
ghost use Rattle.std.specs.Thread.{IsSync};
ghost use Rattle.apcu_model.specs.declared.conf.Clock.TheVariants.{Line};
ghost use Rattle.apcu_model.specs.declared.limits.TheConstants.{MOST_WORKERS};
ghost use Rattle.script_read.specs.declared.script.Step.{Step};
ghost use Rattle.script_read.specs.Budgets.{most_events};
ghost use Rattle.script_read.specs.Clock.{timed, all_timed};
ghost use Rattle.script_read.specs.GeneratedScripts.{generated};
ghost use Rattle.pin_table.specs.Lists.{first_passes};
ghost use Rattle.play_laws.specs.Summary.{IsLarge};
ghost use Rattle.worker_play.specs.Ends.{Ends};
ghost use Rattle.worker_play.specs.Goes.{KnowsOwnEvents};
ghost use Rattle.worker_play.specs.declared.script.Lines.TheVariants.{Dropped};
ghost use Rattle.crew_play.specs.GeneratedRuns.{summary_in, watched_budgets, IsRun, IsWatched};
ghost use Rattle.crew_play.specs.GeneratedRuns.{HaveEnough, HaveMade};
ghost use Rattle.crew_play.specs.declared.play.CrewFault.TheVariants.{Memory, TooMany, Pattern};

use crate::crew::last_pass;
use crate::play::CrewFault;
use apcu_model::{Clock, Conf, MOST_EVENTS};
use io_edges::Gate;
use notation::ByteOut;
use pin_table::{Ended, EndedList, Pass, Passes, TableName};
use play_laws::{
    generated_wishes, histories_are_plays, looks_come_last, one_event_own, summaries_agree,
};
use row_search::Maker;
use script_read::DrawnSteps;
use shared_cache::{Closed, Fresh, Shared, open_cache};
use std::alloc::{AllocError, Global};
use std::marker::Brand;
use std::sync::Wait;
use std::thread::{Threads, join};
use worker_play::{Context, Lines, PlayFault, observe, play_lines, play_steps_out};

/// The summary of a generated run.
#[derive(Clone, Copy, Debug, PartialEq, Eq)]
pub struct Watched {
    /// How many rows the cache counted as inserted.
    pub inserts: u64,
    /// The value of each counter that worker 0 found in the end.
    pub counters: [i64; 8],
}

// Worker 0 makes its looks and its end in addition to its calls, the others their end.
fn budgets(alloc: Global, workers: u32, calls: u32) -> Result<Vec<u32>, AllocError>
    requires some { 1 ≤ workers }
    requires calls { calls ≤ 1000000 }
    ensures { IfOk result (λ all. all.items ≡ watched_budgets workers calls) }
{
    let mut all = Vec::from_elem(alloc, calls + 1, workers as usize)?;
    all[0] = calls + 9;
    Ok(all)
}

// Whether others have made all their calls, and so has the worker with this result.
fn and_made(others: bool, played: Result<ByteOut, PlayFault>) -> bool
    ensures { result ≡ (others && is_ok played) }
{
    others && played.is_ok()
}

// What all workers of a generated run are played with.
#[derive(Drop)]
struct Draws<'a, M, G> {
    alloc: Global,
    conf: &'a Conf,
    seed: u64,
    workers: u32,
    calls: u32,
    maker: &'a M,
    gate: &'a G,
}

// Plays the generated scripts of the first `count` workers, each on a thread of its own. All except
// worker 0 end in their order, and worker 0 learns of their ends. Returns its pass, their ends, and
// whether each has made all its calls.
fn play_drawn<
    N: TableName + Send + Sync,
    M: Maker + Sync,
    G: Gate + Sync,
    R: Threads + Wait + Sync,
>(
    rt: &R,
    draws: &Draws<M, G>,
    shared: &Shared<N>,
    mut passes: Passes,
    ended: EndedList,
    count: u32,
) -> (Pass, EndedList, bool)
    requires conf { draws.now.conf.now ≡ N.conf }
    requires enough { HaveEnough N.conf.slots N.budgets
        (generated draws.now.seed draws.now.workers draws.now.calls) }
    requires some { 1 ≤ count }
    requires few { count ≤ draws.now.workers }
    requires passes { passes ≡ first_passes N.table N.budgets count }
    requires none_ended { ended.ended ≡ [] }
    requires seats { count ≤ ended.room }
    ensures made { HaveMade N.table N.conf
        (all_timed Line (generated draws.now.seed draws.now.workers draws.now.calls)) count
        result.0 result.1.ended result.2 }
    ensures seats { result.1.room + count ≡ ended.room + 1 }
{
    one_event_own();
    let alloc = draws.alloc;
    let conf = draws.conf;
    let seed = draws.seed;
    let workers = draws.workers;
    let calls = draws.calls;
    let maker = draws.maker;
    let gate = draws.gate;
    let before = count - 1;
    let pass = last_pass::<N>(&mut passes, count);
    if before == 0 {
        let context = Context {
            rt,
            alloc,
            shared,
            gate,
            slots: conf.slots,
        };
        let steps = DrawnSteps::of(alloc, seed, workers, calls, 0);
        let (pass, played) = play_lines(&context, maker, pass, steps, Clock::Line, Lines::Dropped);
        return (pass, ended, and_made(true, played));
    }
    let (front, last) = join(
        rt,
        || -> (Pass, EndedList, bool)
            requires { IsSync R.row × IsSync M.row × IsSync G.row
                × (conf.now ≡ N.conf)
                × HaveEnough N.conf.slots N.budgets (generated seed workers calls)
                × (1 ≤ before) × (before ≤ workers)
                × (passes ≡ first_passes N.table N.budgets before)
                × (ended.ended ≡ []) × (before ≤ ended.room) }
            ensures { HaveMade N.table N.conf (all_timed Line (generated seed workers calls)) before
                result.0 result.1.ended result.2
                × (result.1.room + before ≡ ended.room + 1) }
        {
            let draws = Draws {
                alloc,
                conf,
                seed,
                workers,
                calls,
                maker,
                gate,
            };
            play_drawn(rt, &draws, shared, passes, ended, before)
        },
        || -> (Ended, Result<ByteOut, PlayFault>)
            requires { (conf.now ≡ N.conf) × (pass.table ≡ N.table) × (before < workers)
                × (pass.known.own ≡ []) × KnowsOwnEvents pass
                × HaveEnough N.conf.slots N.budgets (generated seed workers calls)
                × (pass.known.left ≡ slice_index N.budgets before) }
            ensures { (script : List Step)
                → slice_get (generated seed workers calls) before ≡ Some script
                → Ends N.table N.conf pass.known.worker Dropped (timed Line script)
                result.0 (result_ok result.1) }
        {
            let context = Context {
                rt,
                alloc,
                shared,
                gate,
                slots: conf.slots,
            };
            let steps = DrawnSteps::of(alloc, seed, workers, calls, before);
            play_steps_out(&context, maker, pass, steps, Clock::Line, Lines::Dropped)
        },
    );
    let (first, mut ended, all) = front;
    let (end, played) = last;
    let (first, end) = shared.learn(rt, first, end);
    ended.push(end);
    (first, ended, and_made(all, played))
}

// Plays generated scripts on a cache under a name of its table.
fn play_watched<
    N: TableName + Send + Sync,
    M: Maker + Sync,
    G: Gate + Sync,
    R: Threads + Wait + Sync,
>(rt: &R, draws: &Draws<M, G>, fresh: Fresh) -> Result<Watched, CrewFault>
    requires table { N.table ≡ fresh.table }
    requires conf { N.conf ≡ fresh.conf }
    requires budgets { N.budgets ≡ fresh.budgets }
    requires shape { fresh.conf ≡ draws.now.conf.now }
    requires run { IsRun draws.now.conf.now draws.now.workers draws.now.calls }
    requires workers { length fresh.budgets ≡ draws.now.workers }
    requires enough { HaveEnough draws.now.conf.now.slots fresh.budgets
        (generated draws.now.seed draws.now.workers draws.now.calls) }
    ensures watched { IfOk result (λ w. IsWatched draws.now.conf.now
        draws.now.seed draws.now.workers draws.now.calls (summary_in w)) }
    ensures memory { IfErr result (λ e. e ≡ Memory) }
{
    one_event_own();
    histories_are_plays();
    generated_wishes();
    summaries_agree();
    looks_come_last();
    let (shared, passes, ended) = fresh.name::<N>();
    let (first, mut ended, all) = play_drawn(rt, draws, &shared, passes, ended, draws.workers);
    let (end, counters) = observe(rt, draws.alloc, &shared, first);
    ended.push(end);
    let Closed { journal: _, counts } = shared.close(rt, ended);
    if !all {
        return Err(CrewFault::Memory);
    }
    Ok(Watched {
        inserts: counts.inserts,
        counters,
    })
}

// Whether the events of all workers, the looks and one more are too many.
fn are_too_many(workers: u32, calls: u32) -> bool
    ensures yes { IsTrue result → most_events < workers * (calls + 1) + 9 }
    ensures no { IsFalse result → workers * (calls + 1) + 9 ≤ most_events }
{
    u64::from(workers) * (u64::from(calls) + 1) + 9 > MOST_EVENTS
}

/// Plays the scripts that `generate` makes of these numbers on a cache of this shape, each worker
/// on a thread of its own, and returns what the cache counted and the counters' final values. The
/// gate is called at the same points as in `play_scripts`.
///
/// After all workers have made their calls and all except worker 0 have ended, worker 0 learns of
/// their ends, reads the counters `c0` to `c7` in order, and ends.
///
/// Each call is made when its worker reaches it. No reply and no line is kept, and the journal is
/// dropped. The summary is that of a play of the scripts in which the looks come last, and it is
/// the same for every such play: the number of stores and of different counters, and the sum of
/// each counter's steps.
///
/// If the calls and the ends of all workers, and nine more events, are above 4,194,304, nothing is
/// generated and nothing is played: the result is `TooMany`. A worker that runs out of memory ends,
/// the others play on, and the result is `Memory`. No call has a pattern, so `Pattern` is not
/// returned.
pub fn play_generated<M: Maker + Sync, G: Gate + Sync, R: Threads + Wait + Sync>(
    rt: &R,
    alloc: Global,
    conf: &Conf,
    seed: u64,
    workers: u32,
    calls: u32,
    maker: &M,
    gate: &G,
) -> Result<Watched, CrewFault>
    requires large { IsLarge conf.now }
    requires some { 1 ≤ workers }
    requires most { workers ≤ MOST_WORKERS }
    requires calls { calls ≤ 1000000 }
    ensures watched { IfOk result (λ w. IsWatched conf.now seed workers calls (summary_in w)) }
    ensures few { IfOk result (λ _. workers * (calls + 1) + 9 ≤ most_events) }
    ensures many { IfErr result (λ e. e ≡ TooMany
        → most_events < workers * (calls + 1) + 9) }
    ensures patterns { IfErr result (λ e. e ≢ Pattern) }
{
    if are_too_many(workers, calls) {
        return Err(CrewFault::TooMany);
    }
    let budgets = budgets(alloc, workers, calls)?;
    let draws = Draws {
        alloc,
        conf,
        seed,
        workers,
        calls,
        maker,
        gate,
    };
    match open_cache(rt, alloc, conf, &budgets) {
        Ok(fresh) => play_watched::<Brand, M, G, R>(rt, &draws, fresh),
        Err(_) => Err(CrewFault::Memory),
    }
}
