//! Which workers play at the same time.

ghost use Rattle.std.specs.Prelude.{◌≡◌, ◌-◌, ◌≤◌, [], length, vec_capacity, Err, Contains};
ghost use Rattle.script_read.specs.Budgets.{budgets_of};
ghost use Rattle.script_read.specs.Clock.{all_timed};
ghost use Rattle.script_read.specs.Patterns.{SomeRefusable};
ghost use Rattle.pin_table.specs.Lists.{first_passes};
ghost use Rattle.crew_play.specs.Crew.{AllEnd, LastEndsFirst};
ghost use Rattle.crew_play.specs.declared.order.Order.TheVariants.{LastFirst};
ghost use Rattle.worker_play.specs.declared.script.PlayFault.TheVariants as faults;

use crate::cast::Cast;
use crate::crew::{last_worker, play_crew};
use io_edges::Gate;
use notation::ByteOut;
use pin_table::{EndedList, Passes, TableName};
use row_search::Maker;
use shared_cache::Shared;
use std::sync::Wait;
use std::thread::Threads;
use worker_play::{Context, PlayFault, play_out};

// When workers start.
#[derive(Clone, Copy)]
pub(crate) enum Order {
    // All at once.
    Together,
    // The last one alone. The others learn of its end and start then.
    LastFirst,
}

// Plays all scripts in this order. Whether a worker reaches its script's end or not, all others
// play theirs.
pub(crate) fn play_all<
    N: TableName + Send + Sync,
    M: Maker + Sync,
    G: Gate + Sync,
    R: Threads + Wait + Sync,
>(
    rt: &R,
    cast: &Cast<M, G>,
    shared: &Shared<N>,
    mut passes: Passes,
    ended: EndedList,
    texts: Vec<Result<ByteOut, PlayFault>>,
    order: Order,
) -> (EndedList, Vec<Result<ByteOut, PlayFault>>)
    requires conf { cast.now.conf.now ≡ N.conf }
    requires budgets { N.budgets ≡ budgets_of N.conf.slots cast.now.scripts.now }
    requires some { order ≡ LastFirst → 1 ≤ length cast.now.scripts.now }
    requires passes { passes ≡ first_passes N.table N.budgets (length cast.now.scripts.now) }
    requires none_ended { ended.ended ≡ [] }
    requires seats { length cast.now.scripts.now ≤ ended.room }
    requires no_text { texts.items ≡ [] }
    requires places { length cast.now.scripts.now ≤ vec_capacity texts }
    ensures all { AllEnd N.table N.conf (all_timed cast.now.clock cast.now.scripts.now)
        (length cast.now.scripts.now) result.0.ended result.1.items }
    ensures pattern { Contains result.1.items (Err faults.Pattern)
        → SomeRefusable (M.may_refuse cast.now.maker.now) cast.now.scripts.now }
    ensures first { order ≡ LastFirst → LastEndsFirst (length cast.now.scripts.now) result.0.ended }
{
    let count = cast.scripts.len();
    match order {
        Order::Together => {
            let (_, ended, texts) = play_crew(rt, cast, shared, passes, ended, texts, None, count);
            (ended, texts)
        }
        Order::LastFirst => {
            let before = count - 1;
            let (pass, script) = last_worker::<N>(&mut passes, cast.scripts, count);
            let context = Context {
                rt,
                alloc: cast.alloc,
                shared,
                gate: cast.gate,
                slots: cast.conf.slots,
            };
            let (end, text) = play_out(&context, cast.conf, cast.maker, pass, script, cast.clock);
            let first = Some(end);
            let (first, mut ended, mut texts) = play_crew(
                rt, cast, shared, passes, ended, texts, first, before,
            );
            let Some(end) = first else { unreachable!() };
            ended.push(end);
            texts.push_reserved(text);
            (ended, texts)
        }
    }
}
