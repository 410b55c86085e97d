//! A worker's event under the lock: its begin and its end.

ghost use Rattle.std.specs.Prelude.{◌≡◌, true, length, None, IfOk, OnErr};
ghost use Rattle.apcu_model.specs.declared.request.Reply.{Reply};
ghost use Rattle.apcu_model.specs.Asking.{asked};
ghost use Rattle.apcu_model.specs.History.{is_shallow};
ghost use Rattle.apcu_model.specs.Journal.{Marks};
ghost use Rattle.cache_core.specs.declared.cache.Core.{Core};
ghost use Rattle.cache_core.specs.Events.{Does, DoesIf};
ghost use Rattle.pin_table.specs.declared.writer.Writer.{Writer};
ghost use Rattle.shared_cache.specs.Asking.{MayAsk};
ghost use Rattle.shared_cache.specs.Follows.{Follows};
ghost use Rattle.shared_cache.specs.LockInvariant.{Settled};
ghost use Rattle.shared_cache.specs.UnderLock.{Taken, AtWork, FollowsAt};

use crate::lower::lower_laws;
use crate::recording::record_event;
use apcu_model::{Ask, Journal};
use pin_table::{Pass, PinTable, TableName, Writer, WriterSeat};
use seg_words::WordsIn;
use std::alloc::AllocError;

// Takes the pass, and begins its worker's event. The invariant of the lock is expressed for the
// cores and journals as they are now.
pub(crate) fn begin<'a, N: TableName>(
    table: &'a PinTable,
    seat: &'a mut WriterSeat,
    pass: Pass,
) -> Writer<'a>
    requires table { table.now ≡ N.table }
    requires seat { seat.old.table ≡ N.table }
    requires hand { seat.old.state.log.hand ≡ None }
    requires pass { MayAsk N.table 1 pass }
    ensures same_reference { result.seat.ghost_name ≡ seat.entry.ghost_name }
    ensures taken { (core : Core) (journal : Marks)
        → Settled N.table N.conf N.budgets seat.old core journal
        → Taken N.table N.conf N.budgets seat.old core journal pass result }
{
    lower_laws();
    table.writer(seat, pass)
}

// Records the event and ends it. It is the one that a call left in the writer's state.
pub(crate) fn end<'a, N: TableName>(
    journal: &mut Journal,
    w: Writer<'a>,
    ask: Ask<'_>,
    t: u64,
) -> Pass
    requires work { AtWork N.table N.conf N.budgets journal.old w }
    requires shallow { is_shallow (asked ask) ≡ true }
    ensures table { w.exit.1.0.now.table ≡ w.entry.seat.now.table }
    ensures words { w.exit.1.0.now.state.words ≡ w.entry.seat.now.state.words }
    ensures settled { (work : AtWork N.table N.conf N.budgets journal.old w.entry) (core : Core)
        (left : Writer) (y : Reply) → left.seat.now.state ≡ w.entry.seat.now.state
        → Does ⟦<Writer<'a> as WordsIn>⟧ work.core core work.first left t (asked ask.entry) y
        → Settled N.table N.conf N.budgets w.exit.1.0.now core journal.new }
    ensures follows { (work : AtWork N.table N.conf N.budgets journal.old w.entry) (core : Core)
        (left : Writer) (y : Reply) → left.seat.now.state ≡ w.entry.seat.now.state
        → Does ⟦<Writer<'a> as WordsIn>⟧ work.core core work.first left t (asked ask.entry) y
        → FollowsAt N.conf (length N.budgets) work.pass result t (asked ask.entry) y
        work.seat.state.log.history w.entry.seat.now.state.mask
        w.entry.seat.now.state.windows }
{
    lower_laws();
    record_event(journal, &w);
    w.give_pass(ask, t)
}

// Ends a call under the lock that takes memory. If it has a result, the event is recorded; if there
// was no memory for one, there was no event, and the pass is returned as it was. The caller states
// which reply each result corresponds to.
pub(crate) fn end_or_give_back<'a, N: TableName, A>(
    journal: &mut Journal,
    w: Writer<'a>,
    ask: Ask<'_>,
    t: u64,
    answer: Result<A, AllocError>,
) -> (Pass, Result<A, AllocError>)
    requires work { AtWork N.table N.conf N.budgets journal.old w }
    requires shallow { is_shallow (asked ask) ≡ true }
    ensures settled { (work : AtWork N.table N.conf N.budgets journal.old w.entry) (core : Core)
        (reply : _ → Reply) → DoesIf ⟦<Writer<'a> as WordsIn>⟧ work.core core work.first w.entry t
        (asked ask.entry) answer reply
        → Settled N.table N.conf N.budgets w.exit.1.0.now core journal.new }
    ensures event { (work : AtWork N.table N.conf N.budgets journal.old w.entry) (core : Core)
        (reply : _ → Reply) → DoesIf ⟦<Writer<'a> as WordsIn>⟧ work.core core work.first w.entry t
        (asked ask.entry) answer reply
        → IfOk result.1 (λ a. Follows N.conf (length N.budgets) work.pass result.0 t
        (asked ask.entry) (reply a)) }
    ensures place { (work : AtWork N.table N.conf N.budgets journal.old w.entry) (core : Core)
        (reply : _ → Reply) → DoesIf ⟦<Writer<'a> as WordsIn>⟧ work.core core work.first w.entry t
        (asked ask.entry) answer reply
        → IfOk answer (λ a. FollowsAt N.conf (length N.budgets) work.pass result.0 t
        (asked ask.entry) (reply a) work.seat.state.log.history w.entry.seat.now.state.mask
        w.entry.seat.now.state.windows) }
    ensures answer { result.1 ≡ answer }
    ensures same { (work : AtWork N.table N.conf N.budgets journal.old w.entry)
        → OnErr result.1 (result.0 ≡ work.pass) }
{
    let Writer {
        table,
        seat,
        worker,
        left,
    } = w;
    let w = Writer {
        table,
        seat,
        worker,
        left,
    };
    match answer {
        Ok(answer) => (end::<N>(journal, w, ask, t), Ok(answer)),
        Err(e) => (w.give_back(), Err(e)),
    }
}
