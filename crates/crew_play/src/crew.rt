//! Workers on threads of their own, all at once or after the last one.

ghost use Rattle.std.specs.Prelude.{◌≡◌, ℕ, List, ◌+◌, ◌-◌, ◌<◌, ◌≤◌, [], length, slice_get};
ghost use Rattle.std.specs.Prelude.{slice_index, vec_capacity, Some, Err, Contains};
ghost use Rattle.std.specs.Prelude.{IfErr, IfSome};
ghost use Rattle.std.specs.Thread.{IsSync};
ghost use Rattle.std.specs.Result.{result_ok};
ghost use Rattle.script_read.specs.declared.script.Step.{Step};
ghost use Rattle.script_read.specs.Budgets.{events_in, budgets_of};
ghost use Rattle.script_read.specs.Clock.{timed, all_timed};
ghost use Rattle.script_read.specs.Patterns.{HasRefusable, SomeRefusable};
ghost use Rattle.pin_table.specs.Lists.{first_passes};
ghost use Rattle.pin_table.specs.Events.{events_of};
ghost use Rattle.crew_play.specs.Crew.{AllEnd, EndsBefore};
ghost use Rattle.worker_play.specs.Ends.{Ends};
ghost use Rattle.worker_play.specs.Goes.{KnowsOwnEvents};
ghost use Rattle.worker_play.specs.declared.script.Lines.TheVariants.{Kept};
ghost use Rattle.worker_play.specs.declared.script.PlayFault.TheVariants as faults;

use crate::cast::Cast;
use io_edges::Gate;
use notation::ByteOut;
use pin_table::{Ended, EndedList, Pass, Passes, TableName};
use row_search::Maker;
use script_read::{Script, Scripts, scripts_cross};
use shared_cache::Shared;
use std::sync::Wait;
use std::thread::{Threads, join};
use worker_play::{Context, PlayFault, play_out};

// The pass of the last of the first `count` workers.
pub(crate) fn last_pass<N: TableName>(passes: &mut Passes, count: u32) -> Pass
    requires some { 0 < count }
    requires passes { passes.old ≡ first_passes N.table N.budgets count }
    ensures rest { passes.new ≡ first_passes N.table N.budgets (count - 1) }
    ensures table { result.table ≡ N.table }
    ensures worker { result.known.worker ≡ count - 1 }
    ensures no_event { result.known.own ≡ [] }
    ensures whole { KnowsOwnEvents result }
    ensures left { result.known.left ≡ slice_index N.budgets (count - 1) }
{
    let Some(pass) = passes.pop() else {
        unreachable!()
    };
    pass
}

// The last of the first `count` workers: its pass and its script.
pub(crate) fn last_worker<'a, N: TableName>(
    passes: &mut Passes,
    scripts: &'a Scripts,
    count: u32,
) -> (Pass, &'a Script)
    requires some { 0 < count }
    requires scripts { count ≤ length scripts.now }
    requires passes { passes.old ≡ first_passes N.table N.budgets count }
    requires enough { (w : ℕ) (script : List Step) → slice_get scripts.now w ≡ Some script
        → events_in N.conf.slots script < slice_index N.budgets w }
    ensures rest { passes.new ≡ first_passes N.table N.budgets (count - 1) }
    ensures script { slice_get scripts.now (count - 1) ≡ Some result.1.now }
    ensures table { result.0.table ≡ N.table }
    ensures worker { result.0.known.worker ≡ count - 1 }
    ensures no_event { result.0.known.own ≡ [] }
    ensures whole { KnowsOwnEvents result.0 }
    ensures enough { events_in N.conf.slots result.1.now < result.0.known.left }
{
    (last_pass::<N>(passes, count), scripts.at(count - 1))
}

// Has a worker that has not begun learn of the end of the one that came first, if one did.
fn behind<N: TableName, R: Wait>(
    rt: &R,
    shared: &Shared<N>,
    pass: Pass,
    first: Option<Ended>,
) -> (Pass, Option<Ended>)
    requires table { pass.table ≡ N.table }
    requires no_event { pass.known.own ≡ [] }
    requires whole { KnowsOwnEvents pass }
    requires left { 1 ≤ pass.known.left }
    requires ended { IfSome first (λ e. e.table ≡ N.table) }
    ensures table { result.0.table ≡ N.table }
    ensures worker { result.0.known.worker ≡ pass.known.worker }
    ensures no_event { result.0.known.own ≡ [] }
    ensures whole { KnowsOwnEvents result.0 }
    ensures left { result.0.known.left ≡ pass.known.left }
    ensures same { result.1 ≡ first }
    ensures first { IfSome first (λ e. events_of pass.known.worker e.known.seen ≡ []) }
{
    match first {
        None => (pass, None),
        Some(ended) => {
            let (pass, ended) = shared.learn(rt, pass, ended);
            (pass, Some(ended))
        }
    }
}

// Plays the scripts of the first `count` workers, each on a thread of its own. They end in their
// order, and one that runs out of memory, or whose pattern is refused, does not hold up the others.
// If one came first, each learns of its end before it starts.
pub(crate) fn play_crew<
    N: TableName + Send + Sync,
    M: Maker + Sync,
    G: Gate + Sync,
    R: Threads + Wait + Sync,
>(
    rt: &R,
    cast: &Cast<M, G>,
    shared: &Shared<N>,
    mut passes: Passes,
    mut ended: EndedList,
    mut texts: Vec<Result<ByteOut, PlayFault>>,
    first: Option<Ended>,
    count: u32,
) -> (Option<Ended>, EndedList, Vec<Result<ByteOut, PlayFault>>)
    requires conf { cast.now.conf.now ≡ N.conf }
    requires budgets { N.budgets ≡ budgets_of N.conf.slots cast.now.scripts.now }
    requires some { count ≤ length cast.now.scripts.now }
    requires passes { passes ≡ first_passes N.table N.budgets count }
    requires none_ended { ended.ended ≡ [] }
    requires seats { count ≤ ended.room }
    requires no_text { texts.items ≡ [] }
    requires places { count ≤ vec_capacity texts }
    requires first { IfSome first (λ e. e.table ≡ N.table) }
    ensures all { AllEnd N.table N.conf (all_timed cast.now.clock cast.now.scripts.now) count
        result.1.ended result.2.items }
    ensures pattern { Contains result.2.items (Err faults.Pattern)
        → SomeRefusable (M.may_refuse cast.now.maker.now) cast.now.scripts.now }
    ensures seats { result.1.room + count ≡ ended.room }
    ensures places { vec_capacity result.2 ≡ vec_capacity texts }
    ensures same { result.0 ≡ first }
    ensures first { IfSome first (λ e. EndsBefore count e) }
{
    if count == 0 {
        return (first, ended, texts);
    }
    scripts_cross();
    let alloc = cast.alloc;
    let conf = cast.conf;
    let scripts = cast.scripts;
    let maker = cast.maker;
    let gate = cast.gate;
    let clock = cast.clock;
    let before = count - 1;
    let (pass, script) = last_worker::<N>(&mut passes, scripts, count);
    let (pass, first) = behind(rt, shared, pass, first);
    let (front, last) = join(
        rt,
        || -> (Option<Ended>, EndedList, Vec<Result<ByteOut, PlayFault>>)
            requires { IsSync R.row × IsSync M.row × IsSync G.row
                × (conf.now ≡ N.conf)
                × (N.budgets ≡ budgets_of N.conf.slots scripts.now)
                × (before ≤ length scripts.now)
                × (passes ≡ first_passes N.table N.budgets before)
                × (ended.ended ≡ []) × (before ≤ ended.room)
                × (texts.items ≡ []) × (before ≤ vec_capacity texts)
                × IfSome first (λ e. e.table ≡ N.table) }
            ensures { AllEnd N.table N.conf (all_timed clock scripts.entry.now) before
                result.1.ended result.2.items
                × (Contains result.2.items (Err faults.Pattern)
                → SomeRefusable (M.may_refuse maker.entry.now) scripts.entry.now)
                × (result.1.room + before ≡ ended.room)
                × (vec_capacity result.2 ≡ vec_capacity texts)
                × (result.0 ≡ first)
                × IfSome first (λ e. EndsBefore before e) }
        {
            let cast = Cast {
                alloc,
                conf,
                scripts,
                maker,
                gate,
                clock,
            };
            play_crew(rt, &cast, shared, passes, ended, texts, first, before)
        },
        || -> (Ended, Result<ByteOut, PlayFault>)
            requires { (conf.now ≡ N.conf) × (pass.table ≡ N.table)
                × (pass.known.own ≡ []) × KnowsOwnEvents pass
                × (events_in N.conf.slots script.now < pass.known.left) }
            ensures { Ends N.table N.conf pass.known.worker Kept (timed clock script.entry.now)
                result.0 (result_ok result.1)
                × IfErr result.1 (λ e. e ≡ faults.Pattern
                → HasRefusable (M.may_refuse maker.entry.now) script.entry.now) }
        {
            let context = Context {
                rt,
                alloc,
                shared,
                gate,
                slots: conf.slots,
            };
            play_out(&context, conf, maker, pass, script, clock)
        },
    );
    let (first, mut ended, mut texts) = front;
    let (end, text) = last;
    ended.push(end);
    texts.push_reserved(text);
    (first, ended, texts)
}
