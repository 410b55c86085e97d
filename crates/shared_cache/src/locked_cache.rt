//! What the lock guards.

ghost use Rattle.std.specs.Prelude.{◌≡◌, ℕ, ◌<◌, ◌^◌, true, length};
ghost use Rattle.apcu_model.specs.declared.request.Request.TheVariants as request;
ghost use Rattle.apcu_model.specs.declared.request.Reply.TheVariants as reply;
ghost use Rattle.apcu_model.specs.Sequential.{is_stored};
ghost use Rattle.counter_entry.specs.Numbers.{reply_of};
ghost use Rattle.shared_cache.specs.Asking.{MayAsk};
ghost use Rattle.shared_cache.specs.LockInvariant.{Settled};
ghost use Rattle.shared_cache.specs.Follows.{Follows};
ghost use Rattle.shared_cache.specs.PinnedFetches.{IsFetched};
ghost use Rattle.shared_cache.specs.LearnedEnds.{Learns};
ghost use Rattle.shared_cache.specs.Meeting.{Sees, Meets};
ghost use Rattle.pin_table.specs.Lists.{AllOf, known_list};
ghost use Rattle.pin_table.specs.Views.{has_worker};
ghost use Rattle.shared_cache.specs.ClosedCaches.{IsClosed, IsClosedWhole};

use crate::lower::lower_laws;
use crate::recording::record_event;
use crate::under_lock::{begin, end};
use apcu_model::{Ask, Counts, Journal, StoreAnswer};
use cache_core::{Core, Look, Scalar};
use counter_entry::{IncAnswer, cas, inc};
use php_graph::Graph;
use pin_table::{Copying, Ended, EndedList, Pass, PinTable, TableName, WriterSeat};
use seg_words::VecWords;
use std::alloc::Global;
use std::marker::{Model, PhantomData};
use value_image::images_are_runs;

/// What a fetch finds.
#[derive(Drop)]
pub enum Pinned {
    /// A value that `Shared::copy_out` or `Shared::copy_text` copies without the lock. Its block is
    /// pinned until then.
    Hit(Copying),
    /// Null, a boolean or an integer, which is returned at once.
    Scalar(Pass, Scalar),
    /// No live row has the key.
    Miss(Pass),
}

/// What is left of a cache after all its workers have ended.
#[derive(Drop)]
pub struct Closed {
    /// The marks of all events, in the order in which they took effect.
    pub journal: Journal,
    /// The counters.
    pub counts: Counts,
}

// The right to write, the journal, and what the cache keeps outside the words. Contracts see the
// history.
pub(crate) struct LockedCache<N: TableName> {
    pub(crate) seat: WriterSeat,
    pub(crate) journal: Journal,
    pub(crate) core: Core,
    of: PhantomData<N>,
}

impl<N: TableName> Drop for LockedCache<N> {
    fn drop(self) {
        let LockedCache {
            seat: _,
            journal: _,
            core: _,
            of: _,
        } = self;
    }
}

impl<N: TableName> Model for LockedCache<N> {
    ghost use Rattle.std.specs.Prelude.{List};
    ghost use Rattle.apcu_model.specs.declared.request.Event.{Event};
    ghost use Rattle.shared_cache.specs.LockInvariant.{Settled};

    ghost Value = { List Event };

    ghost view = { λ c. c.seat.state.log.history };

    ghost invariant = { λ c. Settled N.table N.conf N.budgets c.seat c.core c.journal };
}

impl<N: TableName> LockedCache<N> {
    pub(crate) fn new(seat: WriterSeat, journal: Journal, core: Core) -> LockedCache<N>
        requires { Settled N.table N.conf N.budgets seat core journal }
    {
        LockedCache {
            seat,
            journal,
            core,
            of: PhantomData,
        }
    }

    // Whether a look-up finds a row of the key. Nothing is counted.
    pub(crate) fn exists(
        &mut self,
        table: &PinTable,
        pass: Pass,
        key: &[u8],
        t: u64,
    ) -> (Pass, bool)
        requires table { table.now ≡ N.table }
        requires pass { MayAsk N.table 1 pass }
        requires short { length key.now < 2 ^ 32 }
        ensures { Follows N.conf (length N.budgets) pass result.0 t
            (request.Exists key.now) (reply.Flag result.1) }
    {
        let mut w = begin::<N>(table, &mut self.seat, pass);
        let found = self.core.exists(&mut w, key, t);
        (end::<N>(&mut self.journal, w, Ask::Exists(key), t), found)
    }

    // Deletes the row that a look-up of the key finds, and returns whether it found one.
    pub(crate) fn delete(
        &mut self,
        table: &PinTable,
        pass: Pass,
        key: &[u8],
        t: u64,
    ) -> (Pass, bool)
        requires table { table.now ≡ N.table }
        requires pass { MayAsk N.table 1 pass }
        requires short { length key.now < 2 ^ 32 }
        ensures { Follows N.conf (length N.budgets) pass result.0 t
            (request.Delete key.now) (reply.Flag result.1) }
    {
        let mut w = begin::<N>(table, &mut self.seat, pass);
        let found = self.core.delete(&mut w, key, t);
        (end::<N>(&mut self.journal, w, Ask::Delete(key), t), found)
    }

    // Drops all rows, and sets all counters to 0.
    pub(crate) fn clear(&mut self, table: &PinTable, pass: Pass, t: u64) -> Pass
        requires table { table.now ≡ N.table }
        requires pass { MayAsk N.table 1 pass }
        ensures { Follows N.conf (length N.budgets) pass result t request.Clear (reply.Flag true) }
    {
        let mut w = begin::<N>(table, &mut self.seat, pass);
        self.core.clear(&mut w, t);
        end::<N>(&mut self.journal, w, Ask::Clear, t)
    }

    // Stores a value under a key, or with `exclusive` only if no live row has it, and returns
    // whether it was stored.
    pub(crate) fn store(
        &mut self,
        table: &PinTable,
        pass: Pass,
        key: &[u8],
        value: &Graph,
        ttl: u32,
        exclusive: bool,
        t: u64,
    ) -> (Pass, bool)
        requires table { table.now ≡ N.table }
        requires pass { MayAsk N.table 1 pass }
        requires short { length key.now < 2 ^ 32 }
        ensures { Follows N.conf (length N.budgets) pass result.0 t
            (request.Store key.now value.now ttl exclusive) (reply.Flag result.1) }
    {
        let mut w = begin::<N>(table, &mut self.seat, pass);
        let answer = self.core.store(&mut w, key, value, ttl, exclusive, t);
        let ask = Ask::Store {
            key,
            value,
            ttl,
            exclusive,
        };
        (end::<N>(&mut self.journal, w, ask, t), was_stored(answer))
    }

    // Counts by the step: from the integer of the row that a look-up of the key finds, or from 0 if
    // it finds none.
    pub(crate) fn inc(
        &mut self,
        table: &PinTable,
        alloc: Global,
        pass: Pass,
        key: &[u8],
        step: i64,
        ttl: u32,
        t: u64,
    ) -> (Pass, IncAnswer)
        requires table { table.now ≡ N.table }
        requires pass { MayAsk N.table 1 pass }
        requires short { length key.now < 2 ^ 32 }
        ensures { Follows N.conf (length N.budgets) pass result.0 t
            (request.Inc key.now step ttl) (reply_of result.1) }
    {
        let mut w = begin::<N>(table, &mut self.seat, pass);
        let answer = inc(alloc, &mut self.core, &mut w, key, step, ttl, t);
        let ask = Ask::Inc { key, step, ttl };
        (end::<N>(&mut self.journal, w, ask, t), answer)
    }

    // Sets the integer of the row that a look-up of the key finds, if it is the expected one, and
    // returns whether it is.
    pub(crate) fn cas(
        &mut self,
        table: &PinTable,
        pass: Pass,
        key: &[u8],
        expect: i64,
        set: i64,
        t: u64,
    ) -> (Pass, bool)
        requires table { table.now ≡ N.table }
        requires pass { MayAsk N.table 1 pass }
        requires short { length key.now < 2 ^ 32 }
        ensures { Follows N.conf (length N.budgets) pass result.0 t
            (request.Cas key.now expect set) (reply.Flag result.1) }
    {
        let mut w = begin::<N>(table, &mut self.seat, pass);
        let found = cas(&mut self.core, &mut w, key, expect, set, t);
        let ask = Ask::Cas { key, expect, set };
        (end::<N>(&mut self.journal, w, ask, t), found)
    }

    // A worker's last event.
    pub(crate) fn retire(&mut self, table: &PinTable, pass: Pass) -> Ended
        requires table { table.now ≡ N.table }
        requires pass { MayAsk N.table 1 pass }
        ensures { Follows N.conf (length N.budgets) pass result 0 request.Retire reply.Ended }
    {
        let w = begin::<N>(table, &mut self.seat, pass);
        record_event(&mut self.journal, &w);
        w.give_ended()
    }

    // Fetches the value of a key, and pins its block if it is copied outside the lock.
    pub(crate) fn pin(&mut self, table: &PinTable, pass: Pass, key: &[u8], t: u64) -> Pinned
        requires table { table.now ≡ N.table }
        requires pass { MayAsk N.table 1 pass }
        requires short { length key.now < 2 ^ 32 }
        ensures { IsFetched N.conf (length N.budgets) pass t key.now result }
    {
        images_are_runs();
        let mut w = begin::<N>(table, &mut self.seat, pass);
        let look = self.core.look(&mut w, key, t);
        let ask = Ask::Fetch(key);
        match look {
            Look::Miss => Pinned::Miss(end::<N>(&mut self.journal, w, ask, t)),
            Look::Scalar(scalar) => {
                Pinned::Scalar(end::<N>(&mut self.journal, w, ask, t), scalar)
            }
            Look::Hit(at) => {
                record_event(&mut self.journal, &w);
                Pinned::Hit(w.give_copying(ask, t, at))
            }
        }
    }

    // The pass sees all events so far, those of the ended worker included.
    pub(crate) fn learn(&mut self, table: &PinTable, pass: Pass, ended: Ended) -> (Pass, Ended)
        requires table { table.now ≡ N.table }
        requires pass { MayAsk N.table 1 pass }
        requires other { ended.table ≡ N.table }
        ensures learns { Learns N.conf (length N.budgets) pass result.0 ended }
        ensures same { result.1 ≡ ended }
    {
        lower_laws();
        let ended = table.learn(&mut self.seat, ended);
        let w = table.writer(&mut self.seat, pass);
        (w.give_seen(), ended)
    }

    // The pass sees all events so far.
    pub(crate) fn see(&mut self, table: &PinTable, pass: Pass) -> Pass
        requires table { table.now ≡ N.table }
        requires pass { MayAsk N.table 1 pass }
        ensures sees { Sees N.conf (length N.budgets) pass result self.old }
        ensures same { self.new ≡ self.old }
    {
        lower_laws();
        let w = table.writer(&mut self.seat, pass);
        w.give_seen()
    }

    // Both passes see all events so far, which include those that the other one has seen.
    pub(crate) fn meet(&mut self, table: &PinTable, pass: Pass, other: Pass) -> (Pass, Pass)
        requires table { table.now ≡ N.table }
        requires pass { MayAsk N.table 1 pass }
        requires other { MayAsk N.table 1 other }
        ensures { Meets N.conf (length N.budgets) pass other result.0 result.1 }
    {
        let pass = self.see(table, pass);
        let other = self.see(table, other);
        (pass, other)
    }

    // The journal and the counters, after every worker has ended. No word is copied.
    pub(crate) fn close(self, table: PinTable, ended: EndedList) -> Closed
        requires table { table ≡ N.table }
        requires ended { AllOf N.table ended.ended }
        requires every { (w : ℕ) → w < length N.budgets
            → has_worker w (known_list ended.ended) ≡ true }
        ensures { IsClosed N.conf (length N.budgets) ended.ended result }
    {
        let LockedCache {
            seat,
            journal,
            core,
            of: _,
        } = self;
        let counts = core.counts();
        table.end(seat, ended);
        Closed { journal, counts }
    }

    // The journal and the counters, after every worker has ended, and the cache with its words.
    pub(crate) fn close_all(self, table: PinTable, ended: EndedList) -> (Closed, Core, VecWords)
        requires table { table ≡ N.table }
        requires ended { AllOf N.table ended.ended }
        requires every { (w : ℕ) → w < length N.budgets
            → has_worker w (known_list ended.ended) ≡ true }
        ensures { IsClosedWhole N.conf (length N.budgets) ended.ended result.0 result.1 result.2 }
    {
        lower_laws();
        let LockedCache {
            seat,
            journal,
            core,
            of: _,
        } = self;
        let counts = core.counts();
        let words = table.close(seat, ended);
        (Closed { journal, counts }, core, words)
    }
}

// Whether a value was stored.
fn was_stored(answer: StoreAnswer) -> bool
    ensures { result ≡ is_stored answer }
{
    match answer {
        StoreAnswer::Stored => true,
        StoreAnswer::TooLarge | StoreAnswer::Exists | StoreAnswer::NoRoom => false,
    }
}
