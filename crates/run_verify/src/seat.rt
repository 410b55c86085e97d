//! How far a worker is in its script.

ghost use Rattle.std.specs.Prelude.{◌≡◌, ◌+◌, ◌++◌, ◌<◌, ◌^◌, List, option_map, IfOk, IfSome, OnOk};
ghost use Rattle.apcu_model.specs.Asking.{asked};
ghost use Rattle.reply_text.specs.Lines.{call_text};
ghost use Rattle.script_read.specs.Clock.{timed};
ghost use Rattle.script_read.specs.Grammar.{ends_line};
ghost use Rattle.script_read.specs.Play.{moment_for, wanted};
ghost use Rattle.run_verify.specs.Seats.{IsAsking, IsFirst, IsNextCall, IsSeat, KnowsDone};
ghost use Rattle.run_verify.specs.Seats.{queried_wish};
ghost use Rattle.run_verify.specs.Seats.{HasReplyMore, IsAskable, queried};

use crate::asking::{Query, asks, query_of, slot_after};
use apcu_model::{Ask, Clock, Conf, Reply};
use notation::ByteOut;
use reply_text::{Replies, render};
use row_search::{RefuseAll, Search};
use script_read::{Call, Script};
use std::alloc::{AllocError, Global};
use std::marker::Model;

/// How far a worker's script was played, and what its calls so far print.
pub(crate) struct Seat {
    /// The call that it is at, from 0; the number of calls at the end.
    pub(crate) step: u32,
    /// The replies of that call; at the end, of the worker's end.
    pub(crate) replies: Replies,
    /// The slot from which that call continues, if it is a walk.
    pub(crate) from: u32,
    /// The search for that call's pattern, once it has made a request.
    pub(crate) search: Search,
    /// What the calls before it print.
    pub(crate) text: ByteOut,
}

impl Drop for Seat {
    fn drop(self) {
        let Seat {
            step: _,
            replies: _,
            from: _,
            search: _,
            text: _,
        } = self;
    }
}

impl Seat {
    /// Before the first call.
    pub(crate) fn first(alloc: Global) -> Result<Seat, AllocError>
        ensures { IfOk result IsFirst }
    {
        let Ok(search) = Search::new(alloc, &RefuseAll, None) else {
            return Err(AllocError);
        };
        Ok(Seat {
            step: 0,
            replies: Replies::new(alloc),
            from: 0,
            search,
            text: ByteOut::new(alloc),
        })
    }

    /// Whether its worker wants nothing more: it has ended.
    pub(crate) fn is_done(&self, script: &Script) -> bool
        ensures { KnowsDone script.now self.now result }
    {
        self.step >= script.len() && !self.replies.is_empty()
    }

    /// What the calls before the current one print.
    pub(crate) fn into_text(self) -> ByteOut
        ensures { result ≡ self.text }
    {
        let Seat {
            step: _,
            replies: _,
            from: _,
            search: _,
            text,
        } = self;
        text
    }
}

// Writes the line of the call that the seat is at, and moves to the next one.
fn next_call(call: &Call, seat: &mut Seat) -> Result<(), AllocError>
    requires { seat.old.step + 1 < 2 ^ 32 }
    ensures { OnOk result (IsNextCall (call_text call.now seat.old.replies ++ ends_line)
        seat.old seat.new) }
{
    render(call, &seat.replies, &mut seat.text)?;
    seat.text.push(b"\n")?;
    seat.step += 1;
    seat.replies.clear();
    seat.from = 0;
    Ok(())
}

// Skips the calls that are done, and writes their lines.
pub(crate) fn settle(conf: &Conf, script: &Script, seat: &mut Seat) -> Result<(), AllocError>
    ensures seat { OnOk result ((clock : Clock) (replies : List _)
        → IsSeat conf.now (timed clock script.now) replies seat.old
        → IsSeat conf.now (timed clock script.now) replies seat.new) }
    ensures asking { OnOk result (IsAsking conf.now script.now seat.new) }
{
    while seat.step < script.len() {
        let step = script.at(seat.step);
        if asks(&step.call, conf, seat.replies.len(), seat.from) {
            return Ok(());
        }
        next_call(&step.call, seat)?;
    }
    Ok(())
}

// The moment of a request of a call at moment t.
fn moment_of(t: u64, ask: &Ask<'_>) -> u64
    ensures { result ≡ moment_for t (asked ask.now) }
{
    match ask {
        Ask::CacheInfo(_) | Ask::SmaInfo(_) | Ask::Retire => 0,
        Ask::Store { .. }
        | Ask::Fetch(_)
        | Ask::Exists(_)
        | Ask::Delete(_)
        | Ask::Inc { .. }
        | Ask::Cas { .. }
        | Ask::Entry(_)
        | Ask::Clear
        | Ask::KeyInfo(_)
        | Ask::Chunk { .. }
        | Ask::ChunkDelete { .. }
        | Ask::Totals { .. } => t,
    }
}

// What the worker of a seat requests now, and when; after its last call its end, and then nothing.
pub(crate) fn wish_of<'a>(
    alloc: Global,
    script: &'a Script,
    conf: &Conf,
    clock: Clock,
    seat: &Seat,
) -> Result<Option<(Query<'a>, u64)>, AllocError>
    requires { IsAsking conf.now script.now seat.now }
    ensures wish { IfOk result (λ wish. (replies : List _)
        → IsSeat conf.now (timed clock script.now) replies seat.now
        → wanted conf.now (timed clock script.now) replies ≡ option_map queried_wish wish) }
    ensures may { IfOk result (λ wish. IfSome wish (λ w.
        IsAskable conf.now script.now seat.now (queried w.0))) }
{
    if seat.step >= script.len() {
        return if seat.replies.is_empty() {
            Ok(Some((Query::Lent(Ask::Retire), 0)))
        } else {
            Ok(None)
        };
    }
    let step = script.at(seat.step);
    match query_of(alloc, &step.call, conf, seat.replies.len(), seat.from)? {
        Some(query) => {
            let t = moment_of(step.moment(clock), &query.ask());
            Ok(Some((query, t)))
        }
        None => Ok(None),
    }
}

// Keeps a reply of the call that the seat is at.
pub(crate) fn keep(conf: &Conf, seat: &mut Seat, reply: Reply) -> Result<(), AllocError>
    ensures { OnOk result (HasReplyMore conf.now reply seat.old seat.new) }
{
    seat.from = slot_after(conf.slots, seat.from, &reply);
    seat.replies.push(reply)?;
    Ok(())
}
