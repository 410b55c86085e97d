//! A worker's script.

ghost use Rattle.std.specs.Prelude.{◌≡◌, ℕ, ◌+◌, ◌<◌, ◌≤◌, ◌++◌, List, [], length};
ghost use Rattle.std.specs.Prelude.{IfOk, IfErr, OnOk};
ghost use Rattle.script_read.specs.Budgets.{events_in};
ghost use Rattle.script_read.specs.Calls.{HasRanges, event_bound};
ghost use Rattle.script_read.specs.Clock.{timed};
ghost use Rattle.script_read.specs.Grammar.{ends_line};
ghost use Rattle.script_read.specs.Patterns.{call_pattern, MayBeRefused, HasRefusable};
ghost use Rattle.script_read.specs.Play.{next_of};
ghost use Rattle.reply_text.specs.Lines.{call_text, script_lines};
ghost use Rattle.worker_play.specs.Ends.{HasMade};
ghost use Rattle.worker_play.specs.Goes.{KnowsOwnEvents, Reaches, Tells, left_of};
ghost use Rattle.worker_play.specs.Turns.{turns_at, turns_of};
ghost use Rattle.worker_play.specs.declared.script.PlayFault.TheVariants.{Memory, Pattern};

use crate::context::{Context, When};
use crate::searching::play_call;
use apcu_model::{Clock, Conf};
use io_edges::{Gate, Point};
use notation::ByteOut;
use pin_table::{Pass, TableName};
use play_laws::one_event_own;
use row_search::Maker;
use script_read::{AsStep, Call, Script, ScriptSteps, Steps};
use shared_cache::Shared;
use std::alloc::{AllocError, Global};
use std::sync::Wait;

/// Why a worker's script was not played to its end.
#[derive(Clone, Copy, Debug, PartialEq, Eq)]
pub enum PlayFault {
    /// There was not enough memory.
    Memory,
    /// The pattern of a search is invalid, or its maker refused it.
    Pattern,
}

impl From<AllocError> for PlayFault {
    ghost from_gives = { λ _ e. e ≡ Memory };

    fn from(_e: AllocError) -> PlayFault {
        PlayFault::Memory
    }
}

/// Whether the lines of a worker's calls are kept.
#[derive(Clone, Copy, Debug, PartialEq, Eq)]
pub enum Lines {
    /// They are kept, one after the other.
    Kept,
    /// Each is dropped before the next call.
    Dropped,
}

// A call at its moment, and its line. The gate is called before the call, and after it if it was
// played.
pub(crate) fn play_step<N: TableName, M: Maker, G: Gate, R: Wait>(
    context: &Context<N, G, R>,
    maker: &M,
    when: When,
    pass: Pass,
    call: &Call,
    out: &mut ByteOut,
) -> (Pass, Result<(), PlayFault>)
    requires table { pass.table ≡ N.table }
    requires whole { KnowsOwnEvents pass }
    requires slots { context.now.slots ≡ N.conf.slots }
    requires left { event_bound N.conf.slots call.now < pass.known.left }
    requires ranges { HasRanges call.now }
    ensures reaches { Reaches N.conf (length N.budgets) pass result.0
        (turns_at when.t (next_of N.conf call.now)) }
    ensures line { OnOk result.1 (Tells N.conf (length N.budgets) pass result.0
        (turns_at when.t (next_of N.conf call.now))
        (λ replies. out.old ++ (call_text call.now replies ++ ends_line)) out.new) }
    ensures pattern { IfErr result.1 (λ fault. fault ≡ Pattern
        → MayBeRefused (M.may_refuse maker.now) (call_pattern call.now)) }
{
    context
        .gate
        .reached(pass.worker(), Point::Before(when.index));
    let (pass, played) = play_call(context, maker, when, pass, call, out);
    match played {
        Ok(()) => {
            let ended = end_line(out);
            context
                .gate
                .reached(pass.worker(), Point::After(when.index));
            (pass, ended)
        }
        Err(fault) => (pass, Err(fault)),
    }
}

// The end of a line.
fn end_line(out: &mut ByteOut) -> Result<(), PlayFault>
    ensures ok { OnOk result (out.new ≡ out.old ++ ends_line) }
    ensures err { IfErr result (λ fault. fault ≡ Memory) }
{
    out.push(b"\n")?;
    Ok(())
}

// What is left of a line.
fn leave(out: &mut ByteOut, lines: Lines)
    ensures { out.new ≡ left_of lines out.old }
{
    match lines {
        Lines::Kept => {}
        Lines::Dropped => out.cut(0),
    }
}

/// Plays these steps as `play_script` does those of a script, and returns what is left of the
/// lines. If they are dropped, memory does not grow with the replies, which no clause says. The
/// gate is called at the same points.
///
/// If it returns `Ok`, its worker has made the steps' requests in turn, and only its end is left.
pub fn play_lines<N: TableName, M: Maker + Sync, G: Gate, R: Wait, S: Steps + Drop>(
    context: &Context<N, G, R>,
    maker: &M,
    pass: Pass,
    mut steps: S,
    clock: Clock,
    lines: Lines,
) -> (Pass, Result<ByteOut, PlayFault>)
    requires slots { context.now.slots ≡ N.conf.slots }
    requires table { pass.table ≡ N.table }
    requires no_event { pass.known.own ≡ [] }
    requires whole { KnowsOwnEvents pass }
    requires left { events_in N.conf.slots (S.to_come steps) < pass.known.left }
    ensures reaches { Reaches N.conf (length N.budgets) pass result.0
        (turns_of N.conf (timed clock (S.to_come steps))) }
    ensures lines { IfOk result.1 (λ out. Tells N.conf (length N.budgets) pass result.0
        (turns_of N.conf (timed clock (S.to_come steps)))
        (λ replies.
        left_of lines (script_lines N.conf (timed clock (S.to_come steps)) replies)) out) }
    ensures made { OnOk result.1 (HasMade N.conf (timed clock (S.to_come steps)) result.0) }
    ensures left { pass.known.left
        ≤ result.0.known.left + events_in N.conf.slots (S.to_come steps) }
    ensures pattern { IfErr result.1 (λ fault. fault ≡ Pattern
        → HasRefusable (M.may_refuse maker.now) (S.to_come steps)) }
{
    one_event_own();
    let mut out = ByteOut::new(context.alloc);
    let mut held = pass;
    for index in 0..steps.len() {
        let Ok(taken) = steps.next(context.alloc) else {
            return (held, Err(PlayFault::Memory));
        };
        let step = taken.as_step();
        let t = step.moment(clock);
        let when = When { index, t };
        let (next, played) = play_step(context, maker, when, held, &step.call, &mut out);
        held = next;
        if let Err(fault) = played {
            return (held, Err(fault));
        }
        leave(&mut out, lines);
    }
    (held, Ok(out))
}

/// Plays a worker's script on the shared cache, and returns what its calls print: a line for each,
/// for the worker's own replies. The gate is called before and after each call, between the fetch
/// and the copy of each value that is copied, and after each step of an iterator.
///
/// `maker` makes the search for a call's pattern once, before the call makes a request.
///
/// `clock` decides what a call's moment is, as PHP's `apc.use_request_time` does: the second at
/// which it is made, or that at which its request began.
///
/// The pass has made no event, and may make one more than all calls of the script may. It is
/// returned with the events that are left: at most as many were used as all calls may make. Its
/// worker has made in turn the requests that the calls make after its replies, and those are the
/// ones of the single-threaded cache at the events' places in what the pass has seen.
///
/// The worker stops if memory runs out, and also if a pattern of its script is invalid or is
/// refused: then only the first of the events were made, and they count.
pub fn play_script<N: TableName, M: Maker + Sync, G: Gate, R: Wait>(
    rt: &R,
    alloc: Global,
    conf: &Conf,
    shared: &Shared<N>,
    pass: Pass,
    script: &Script,
    maker: &M,
    gate: &G,
    clock: Clock,
) -> (Pass, Result<ByteOut, PlayFault>)
    requires conf { conf.now ≡ N.conf }
    requires table { pass.table ≡ N.table }
    requires no_event { pass.known.own ≡ [] }
    requires whole { KnowsOwnEvents pass }
    requires left { events_in conf.now.slots script.now < pass.known.left }
    ensures reaches { Reaches N.conf (length N.budgets) pass result.0
        (turns_of N.conf (timed clock script.now)) }
    ensures lines { IfOk result.1 (λ out. Tells N.conf (length N.budgets) pass result.0
        (turns_of N.conf (timed clock script.now))
        (script_lines conf.now (timed clock script.now)) out) }
    ensures left { pass.known.left
        ≤ result.0.known.left + events_in conf.now.slots script.now }
    ensures pattern { IfErr result.1 (λ fault. fault ≡ Pattern
        → HasRefusable (M.may_refuse maker.now) script.now) }
{
    let context = Context {
        rt,
        alloc,
        shared,
        gate,
        slots: conf.slots,
    };
    let steps = ScriptSteps::of(script);
    play_lines(&context, maker, pass, steps, clock, Lines::Kept)
}
