//! A worker's script and its end.

ghost use Rattle.std.specs.Prelude.{◌≡◌, ◌<◌, [], IfErr};
ghost use Rattle.std.specs.Result.{result_ok};
ghost use Rattle.script_read.specs.Budgets.{events_in};
ghost use Rattle.script_read.specs.Clock.{timed};
ghost use Rattle.script_read.specs.Patterns.{HasRefusable};
ghost use Rattle.worker_play.specs.Ends.{Ends};
ghost use Rattle.worker_play.specs.Goes.{KnowsOwnEvents};
ghost use Rattle.worker_play.specs.declared.script.Lines.TheVariants.{Kept};
ghost use Rattle.worker_play.specs.declared.script.PlayFault.TheVariants.{Pattern};

use crate::context::Context;
use crate::script::{Lines, PlayFault, play_lines, play_script};
use apcu_model::{Clock, Conf};
use io_edges::Gate;
use notation::ByteOut;
use pin_table::{Ended, Pass, TableName};
use play_laws::one_event_own;
use row_search::Maker;
use script_read::{Script, Steps};
use std::sync::Wait;

/// Plays a worker's script by `play_script`, and ends the worker, whether or not it reached
/// the script's end.
///
/// The pass has made no event, whatever it has seen, and may make one more than all calls may.
pub fn play_out<N: TableName, M: Maker + Sync, G: Gate, R: Wait>(
    context: &Context<N, G, R>,
    conf: &Conf,
    maker: &M,
    pass: Pass,
    script: &Script,
    clock: Clock,
) -> (Ended, Result<ByteOut, PlayFault>)
    requires conf { conf.now ≡ N.conf }
    requires table { pass.table ≡ N.table }
    requires no_event { pass.known.own ≡ [] }
    requires whole { KnowsOwnEvents pass }
    requires left { events_in N.conf.slots script.now < pass.known.left }
    ensures ends { Ends N.table N.conf pass.known.worker Kept
        (timed clock script.now) result.0 (result_ok result.1) }
    ensures pattern { IfErr result.1 (λ fault. fault ≡ Pattern
        → HasRefusable (M.may_refuse maker.now) script.now) }
{
    one_event_own();
    let (pass, played) = play_script(
        context.rt,
        context.alloc,
        conf,
        context.shared,
        pass,
        script,
        maker,
        context.gate,
        clock,
    );
    let ended = context.shared.retire(context.rt, pass);
    (ended, played)
}

/// Plays a worker's steps by `play_lines`, and ends the worker, whether or not it reached their
/// end. If it did, returns what is left of its lines.
///
/// The pass has made no event, whatever it has seen, and may make one more than all calls may.
pub fn play_steps_out<N: TableName, M: Maker + Sync, G: Gate, R: Wait, S: Steps + Drop>(
    context: &Context<N, G, R>,
    maker: &M,
    pass: Pass,
    steps: S,
    clock: Clock,
    lines: Lines,
) -> (Ended, Result<ByteOut, PlayFault>)
    requires slots { context.now.slots ≡ N.conf.slots }
    requires table { pass.table ≡ N.table }
    requires no_event { pass.known.own ≡ [] }
    requires whole { KnowsOwnEvents pass }
    requires left { events_in N.conf.slots (S.to_come steps) < pass.known.left }
    ensures ends { Ends N.table N.conf pass.known.worker lines
        (timed clock (S.to_come steps)) result.0 (result_ok result.1) }
    ensures pattern { IfErr result.1 (λ fault. fault ≡ Pattern
        → HasRefusable (M.may_refuse maker.now) (S.to_come steps)) }
{
    one_event_own();
    let (pass, played) = play_lines(context, maker, pass, steps, clock, lines);
    let ended = context.shared.retire(context.rt, pass);
    (ended, played)
}
