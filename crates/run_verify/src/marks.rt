//! One mark of a journal.

ghost use Rattle.std.specs.Prelude.{◌≡◌, ◌+◌, ◌<◌, List, option_map, IfOk, IfErr, IfSome};
ghost use Rattle.apcu_model.specs.declared.request.Reply.{Reply};
ghost use Rattle.apcu_model.specs.declared.limits.TheConstants.{MOST_WORKERS};
ghost use Rattle.ghost_log.specs.declared.log.Log.{Log};
ghost use Rattle.script_read.specs.Clock.{timed, all_timed};
ghost use Rattle.script_read.specs.Patterns.{HasRefusable, SomeRefusable};
ghost use Rattle.script_read.specs.Play.{marked};
ghost use Rattle.run_verify.specs.Games.{Game, IsGame};
ghost use Rattle.run_verify.specs.Marks.{IsMadeIfWanted};
ghost use Rattle.run_verify.specs.Seats.{IsAnySeat, IsSeat};
ghost use Rattle.run_verify.specs.declared.fault.VerifyFault.TheVariants.{Pattern};

use crate::fault::VerifyFault;
use crate::game_so_far::GameSoFar;
use crate::patterns::search_for;
use crate::seat::{Seat, keep, settle, wish_of};
use apcu_model::{Clock, Conf, Mark};
use mark_play::Replay;
use row_search::Maker;
use script_read::{Script, Scripts};
use std::alloc::Global;
use std::marker::Model;

// Makes the event that the worker of a seat wants, with the mask of the mark; whether it wants one.
fn play_wish<M: Maker>(
    alloc: Global,
    maker: &M,
    conf: &Conf,
    clock: Clock,
    script: &Script,
    seat: &mut Seat,
    replay: &mut Replay,
    mark: Mark,
) -> Result<bool, VerifyFault>
    requires seat { IsAnySeat conf.now (timed clock script.now) seat.old }
    requires worker { mark.worker < MOST_WORKERS }
    requires left { 0 < replay.old.left }
    requires shape { replay.old.stage.cache.conf ≡ conf.now }
    ensures marked { IfOk result (λ wants. (replies : List Reply)
        → IsSeat conf.now (timed clock script.now) replies seat.old
        → IsMadeIfWanted conf.now (timed clock script.now) replies replay.old replay.new
        seat.new mark wants) }
    ensures pattern { IfErr result (λ fault. fault ≡ Pattern
        → HasRefusable (M.may_refuse maker.now) script.now) }
{
    settle(conf, script, seat)?;
    let Some((query, t)) = wish_of(alloc, script, conf, clock, seat)? else {
        return Ok(false);
    };
    search_for(alloc, maker, script, seat)?;
    let search = &mut seat.search;
    let reply = replay.play(alloc, mark.worker, mark.mask, query.ask(), search, t)?;
    keep(conf, seat, reply)?;
    Ok(true)
}

/// Plays a mark, if it can be played: its mask is legal, and its worker wants something. If it
/// cannot, the replay is unchanged.
///
/// Returns `Pattern` only if a call of the scripts has a pattern that may be refused.
pub(crate) fn play_mark<M: Maker>(
    alloc: Global,
    maker: &M,
    conf: &Conf,
    clock: Clock,
    scripts: &Scripts,
    replay: &mut Replay,
    seats: &mut [Seat],
    played: &GameSoFar,
    mark: Mark,
) -> Result<Option<GameSoFar>, VerifyFault>
    requires worker { mark.worker < MOST_WORKERS }
    requires game { IsGame conf.now (all_timed clock scripts.now) replay.old seats.old
        played.now.state }
    requires left { 0 < replay.old.left }
    ensures marked { IfOk result (λ q. option_map (λ (p : Log Game). p.state.play) q
        ≡ marked conf.now (all_timed clock scripts.now) played.now.state.play mark) }
    ensures game { IfOk result (λ q. IfSome q (λ p.
        IsGame conf.now (all_timed clock scripts.now) replay.new seats.new p.state)) }
    ensures left { IfOk result (λ q. IfSome q (λ p. replay.new.left + 1 ≡ replay.old.left)) }
    ensures pattern { IfErr result (λ fault. fault ≡ Pattern
        → SomeRefusable (M.may_refuse maker.now) scripts.now) }
{
    let count = scripts.len();
    if mark.worker >= count || !replay.is_legal(count, mark.worker, mark.mask) {
        return Ok(None);
    }
    let script = scripts.at(mark.worker);
    let seat = &mut seats[mark.worker as usize];
    let wants = play_wish(alloc, maker, conf, clock, script, seat, replay, mark)?;
    if !wants {
        return Ok(None);
    }
    Ok(Some(played.then(&mark)))
}
