//! A call, with the search that it may need.

ghost use Rattle.std.specs.Prelude.{◌≡◌, ◌<◌, ◌++◌, length, IfErr, OnOk};
ghost use Rattle.script_read.specs.Calls.{HasRanges, event_bound};
ghost use Rattle.script_read.specs.Patterns.{call_pattern, MayBeRefused};
ghost use Rattle.script_read.specs.Play.{next_of};
ghost use Rattle.reply_text.specs.Lines.{call_text};
ghost use Rattle.worker_play.specs.Goes.{KnowsOwnEvents, Reaches, Tells};
ghost use Rattle.worker_play.specs.Groups.{MayNeedSearch};
ghost use Rattle.worker_play.specs.Turns.{turns_at};
ghost use Rattle.worker_play.specs.declared.script.PlayFault.TheVariants.{Pattern};

use crate::calls::{play_directly, play_searching};
use crate::context::{Context, When};
use crate::patterns::search_of;
use crate::script::PlayFault;
use io_edges::Gate;
use notation::ByteOut;
use pin_table::{Pass, TableName};
use row_search::Maker;
use script_read::Call;
use std::sync::Wait;

// Plays a call, and prints its result.
pub(crate) fn play_call<N: TableName, M: Maker, G: Gate, R: Wait>(
    context: &Context<N, G, R>,
    maker: &M,
    when: When,
    pass: Pass,
    call: &Call,
    out: &mut ByteOut,
) -> (Pass, Result<(), PlayFault>)
    requires table { pass.table ≡ N.table }
    requires whole { KnowsOwnEvents pass }
    requires slots { context.now.slots ≡ N.conf.slots }
    requires left { event_bound N.conf.slots call.now < pass.known.left }
    requires ranges { HasRanges call.now }
    ensures reaches { Reaches N.conf (length N.budgets) pass result.0
        (turns_at when.t (next_of N.conf call.now)) }
    ensures line { OnOk result.1 (Tells N.conf (length N.budgets) pass result.0
        (turns_at when.t (next_of N.conf call.now))
        (λ replies. out.old ++ call_text call.now replies) out.new) }
    ensures pattern { IfErr result.1 (λ fault. fault ≡ Pattern
        → MayBeRefused (M.may_refuse maker.now) (call_pattern call.now)) }
{
    match call {
        Call::Walk { .. } | Call::WalkDelete { .. } | Call::Totals { .. } | Call::Pool(_) => {
            play_by_search(context, maker, when, pass, call, out)
        }
        _ => {
            let (pass, played) = play_directly(context, when, pass, call, out);
            match played {
                Ok(()) => (pass, Ok(())),
                Err(_) => (pass, Err(PlayFault::Memory)),
            }
        }
    }
}

// Plays a call that may need a search. It is made once, and kept for all requests of the call. What
// it is made with is large, and stays out of the caller's frame.
#[inline(never)]
fn play_by_search<N: TableName, M: Maker, G: Gate, R: Wait>(
    context: &Context<N, G, R>,
    maker: &M,
    when: When,
    pass: Pass,
    call: &Call,
    out: &mut ByteOut,
) -> (Pass, Result<(), PlayFault>)
    requires table { pass.table ≡ N.table }
    requires whole { KnowsOwnEvents pass }
    requires slots { context.now.slots ≡ N.conf.slots }
    requires left { event_bound N.conf.slots call.now < pass.known.left }
    requires ranges { HasRanges call.now }
    requires searches { MayNeedSearch call.now }
    ensures reaches { Reaches N.conf (length N.budgets) pass result.0
        (turns_at when.t (next_of N.conf call.now)) }
    ensures line { OnOk result.1 (Tells N.conf (length N.budgets) pass result.0
        (turns_at when.t (next_of N.conf call.now))
        (λ replies. out.old ++ call_text call.now replies) out.new) }
    ensures pattern { IfErr result.1 (λ fault. fault ≡ Pattern
        → MayBeRefused (M.may_refuse maker.now) (call_pattern call.now)) }
{
    let mut search = match search_of(context.alloc, maker, call) {
        Ok(search) => search,
        Err(fault) => return (pass, Err(fault)),
    };
    let (pass, played) = play_searching(context, when, pass, call, &mut search, out);
    match played {
        Ok(()) => (pass, Ok(())),
        Err(_) => (pass, Err(PlayFault::Memory)),
    }
}
