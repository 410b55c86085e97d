//! The cache that workers share, and how it is opened.

ghost use Rattle.std.specs.Prelude.{◌≡◌, ℕ, ◌<◌, ◌^◌, ◌++◌, true, List, length, IfOk, OnOk};
ghost use Rattle.std.specs.Prelude.{OnErr, IfSome, IfNone};
ghost use Rattle.php_graph.specs.declared.kind.Kind.{Kind};
ghost use Rattle.notation.specs.Notation.{text_of};
ghost use Rattle.value_image.specs.Image.{IsImageOf};
ghost use Rattle.apcu_model.specs.declared.request.Request.TheVariants as request;
ghost use Rattle.apcu_model.specs.declared.request.Reply.TheVariants as reply;
ghost use Rattle.apcu_model.specs.Sequential.{number_reply};
ghost use Rattle.counter_entry.specs.Numbers.{reply_of};
ghost use Rattle.shared_cache.specs.Asking.{MayAsk};
ghost use Rattle.shared_cache.specs.Follows.{Follows};
ghost use Rattle.shared_cache.specs.PinnedFetches.{IsFetched};
ghost use Rattle.shared_cache.specs.LearnedEnds.{Learns};
ghost use Rattle.shared_cache.specs.Meeting.{Meets};
ghost use Rattle.pin_table.specs.Lists.{AllOf, known_list};
ghost use Rattle.pin_table.specs.Views.{has_worker};
ghost use Rattle.shared_cache.specs.ClosedCaches.{IsClosed, IsClosedWhole};

use crate::locked_cache::{Closed, LockedCache, Pinned};
use crate::texts::{write_copy, write_string};
use crate::wait_lock::{WaitLock, locked};
use cache_core::Core;
use counter_entry::IncAnswer;
use notation::ByteOut;
use php_graph::Graph;
use pin_table::{Copying, Ended, EndedList, Image, Pass, PinTable, TableName};
use seg_words::VecWords;
use std::alloc::{AllocError, Global};
use std::marker::Model;
use std::sync::Wait;
use value_image::unpersist;

/// A cache that many workers share. Its table, its shape and its budgets are those of its name.
///
/// Each call of a worker takes the worker's pass, waits for the lock, is one event, and returns the
/// pass with one event less left. Its result is that of the single-threaded cache at the end of the
/// history that the pass has then seen. Each call except `retire` leaves the worker at least one
/// event for its end, so it requires two: `Pass::left` is their number. A key has fewer than 2^32
/// bytes. A moment may be any second, also one before that of an earlier call.
pub struct Shared<N: TableName> {
    // for the empty list of further places that a new counter's value has
    pub(crate) alloc: Global,
    pub(crate) table: PinTable,
    pub(crate) lock: WaitLock<LockedCache<N>>,
}

impl<N: TableName> Drop for Shared<N> {
    fn drop(self) {
        let Shared {
            alloc: _,
            table: _,
            lock: _,
        } = self;
    }
}

impl<N: TableName> Model for Shared<N> {
    ghost use Rattle.std.specs.Prelude.{◌≡◌};
    ghost use Rattle.atomic_table.specs.Seated.{TableId, table_id_coded};

    ghost Value = { TableId };

    ghost coded = { table_id_coded };

    ghost view = { λ s. s.table };

    ghost invariant = { λ s. s.table ≡ N.table };
}

// The counter's new value, if it counted.
fn number_of(answer: IncAnswer) -> Option<i64>
    ensures { number_reply result ≡ reply_of answer }
{
    match answer {
        IncAnswer::Value(n) => Some(n),
        IncAnswer::NotInteger | IncAnswer::NoRoom => None,
    }
}

impl<N: TableName> Shared<N> {
    pub(crate) fn new(alloc: Global, table: PinTable, locked_cache: LockedCache<N>) -> Shared<N>
        requires { table ≡ N.table }
    {
        Shared {
            alloc,
            table,
            lock: WaitLock::new(locked_cache),
        }
    }

    /// Stores a value under a key at the moment `t`, in seconds, or with `exclusive` only if no
    /// live row has the key, and returns whether it was stored. `ttl` is in seconds, 0 is no limit.
    pub fn store<R: Wait>(
        &self,
        rt: &R,
        pass: Pass,
        key: &[u8],
        value: &Graph,
        ttl: u32,
        exclusive: bool,
        t: u64,
    ) -> (Pass, bool)
        requires pass { MayAsk N.table 2 pass }
        requires short { length key.now < 2 ^ 32 }
        ensures { Follows N.conf (length N.budgets) pass result.0 t
            (request.Store key.now value.now ttl exclusive) (reply.Flag result.1) }
    {
        locked(&self.lock, rt).store(&self.table, pass, key, value, ttl, exclusive, t)
    }

    /// Whether a look-up of the key finds a row at the moment `t`, in seconds. Nothing is counted.
    pub fn exists<R: Wait>(&self, rt: &R, pass: Pass, key: &[u8], t: u64) -> (Pass, bool)
        requires pass { MayAsk N.table 2 pass }
        requires short { length key.now < 2 ^ 32 }
        ensures { Follows N.conf (length N.budgets) pass result.0 t
            (request.Exists key.now) (reply.Flag result.1) }
    {
        locked(&self.lock, rt).exists(&self.table, pass, key, t)
    }

    /// Deletes the row that a look-up of the key finds at the moment `t`, in seconds, and returns
    /// whether it found one.
    pub fn delete<R: Wait>(&self, rt: &R, pass: Pass, key: &[u8], t: u64) -> (Pass, bool)
        requires pass { MayAsk N.table 2 pass }
        requires short { length key.now < 2 ^ 32 }
        ensures { Follows N.conf (length N.budgets) pass result.0 t
            (request.Delete key.now) (reply.Flag result.1) }
    {
        locked(&self.lock, rt).delete(&self.table, pass, key, t)
    }

    /// Drops all rows at the moment `t`, in seconds, and sets all counters to 0.
    pub fn clear<R: Wait>(&self, rt: &R, pass: Pass, t: u64) -> Pass
        requires pass { MayAsk N.table 2 pass }
        ensures { Follows N.conf (length N.budgets) pass result t request.Clear (reply.Flag true) }
    {
        locked(&self.lock, rt).clear(&self.table, pass, t)
    }

    /// Adds the step at the moment `t`, in seconds, to the integer of the row that a look-up of the
    /// key finds, as signed 64-bit numbers; the sum wraps. If it finds no row, a new one counts
    /// from 0 and lives for `ttl` seconds; 0 is no limit. Returns the counter's new value, or None
    /// if the value is no integer or there is no room for a new row. It takes no memory.
    pub fn inc<R: Wait>(
        &self,
        rt: &R,
        pass: Pass,
        key: &[u8],
        step: i64,
        ttl: u32,
        t: u64,
    ) -> (Pass, Option<i64>)
        requires pass { MayAsk N.table 2 pass }
        requires short { length key.now < 2 ^ 32 }
        ensures { Follows N.conf (length N.budgets) pass result.0 t
            (request.Inc key.now step ttl) (number_reply result.1) }
    {
        let (pass, answer) = locked(&self.lock, rt).inc(
            &self.table,
            self.alloc,
            pass,
            key,
            step,
            ttl,
            t,
        );
        (pass, number_of(answer))
    }

    /// Sets the integer under a key at the moment `t`, in seconds, if a look-up finds a row that
    /// holds `expect`, and returns whether it did. It makes no row.
    pub fn cas<R: Wait>(
        &self,
        rt: &R,
        pass: Pass,
        key: &[u8],
        expect: i64,
        set: i64,
        t: u64,
    ) -> (Pass, bool)
        requires pass { MayAsk N.table 2 pass }
        requires short { length key.now < 2 ^ 32 }
        ensures { Follows N.conf (length N.budgets) pass result.0 t
            (request.Cas key.now expect set) (reply.Flag result.1) }
    {
        locked(&self.lock, rt).cas(&self.table, pass, key, expect, set, t)
    }

    /// Fetches the value of a key at the moment `t`, in seconds. Null, a boolean or an integer is
    /// returned at once; any other value is pinned in its block until `copy_out` or `copy_text` has
    /// copied it. It takes no memory.
    pub fn pin<R: Wait>(&self, rt: &R, pass: Pass, key: &[u8], t: u64) -> Pinned
        requires pass { MayAsk N.table 2 pass }
        requires short { length key.now < 2 ^ 32 }
        ensures { IsFetched N.conf (length N.budgets) pass t key.now result }
    {
        locked(&self.lock, rt).pin(&self.table, pass, key, t)
    }

    /// Copies the value that a fetch found, and unpins its block. It does not wait, and is no
    /// event. Without memory for the value the fetch still counts, and the block is unpinned.
    pub fn copy_out(&self, alloc: Global, copying: Copying) -> (Pass, Result<Graph, AllocError>)
        requires table { copying.table ≡ N.table }
        requires image { (g : List Kind)
            × IsImageOf copying.copy.content 0 (length copying.copy.content) g }
        ensures table { result.0.table ≡ copying.table }
        ensures known { result.0.known ≡ copying.copy.known }
        ensures graph { (g : List Kind)
            → IsImageOf copying.copy.content 0 (length copying.copy.content) g
            → IfOk result.1 (λ v. v ≡ g) }
    {
        let mut copying = copying;
        let (_, len) = copying.range();
        let mut image = copying.image(&self.table);
        let value = unpersist(alloc, &mut image, 0, len);
        let Image {
            table: _,
            copying: _,
            first: _,
        } = image;
        (copying.release(&self.table), value)
    }

    /// Appends the text of the value that a fetch found, and unpins its block. It does not wait,
    /// and is no event. A string is written from its words into `out` without a copy between them.
    /// Without memory the fetch still counts, the block is unpinned, and `out` is unchanged.
    pub fn copy_text(
        &self,
        alloc: Global,
        copying: Copying,
        out: &mut ByteOut,
    ) -> (Pass, Result<(), AllocError>)
        requires table { copying.table ≡ N.table }
        requires image { (g : List Kind)
            × IsImageOf copying.copy.content 0 (length copying.copy.content) g }
        ensures table { result.0.table ≡ copying.table }
        ensures known { result.0.known ≡ copying.copy.known }
        ensures text { (g : List Kind)
            → IsImageOf copying.copy.content 0 (length copying.copy.content) g
            → OnOk result.1 (out.new ≡ out.old ++ text_of g) }
        ensures same { OnErr result.1 (out.new ≡ out.old) }
    {
        let mut copying = copying;
        if let Some(written) = self.copy_string(&mut copying, out) {
            return (copying.release(&self.table), written);
        }
        let (pass, value) = self.copy_out(alloc, copying);
        (pass, write_copy(value, out))
    }

    // Appends the text of the value that is copied, if it is a string.
    fn copy_string(
        &self,
        copying: &mut Copying,
        out: &mut ByteOut,
    ) -> Option<Result<(), AllocError>>
        requires table { copying.old.table ≡ N.table }
        requires image { (g : List Kind)
            × IsImageOf copying.old.copy.content 0 (length copying.old.copy.content) g }
        ensures text { (g : List Kind)
            → IsImageOf copying.old.copy.content 0 (length copying.old.copy.content) g
            → IfSome result (λ written. OnOk written (out.new ≡ out.old ++ text_of g)) }
        ensures same { IfSome result (λ written. OnErr written (out.new ≡ out.old)) }
        ensures other { IfNone result (out.new ≡ out.old) }
        ensures kept { copying.new ≡ copying.old }
    {
        let mut image = copying.image(&self.table);
        let written = write_string(&mut image, 0, out);
        let Image {
            table: _,
            copying: _,
            first: _,
        } = image;
        written
    }

    /// Ends a worker: its last event, at the moment 0. Each worker has to end before the cache can
    /// be closed.
    pub fn retire<R: Wait>(&self, rt: &R, pass: Pass) -> Ended
        requires pass { MayAsk N.table 1 pass }
        ensures { Follows N.conf (length N.budgets) pass result 0 request.Retire reply.Ended }
    {
        locked(&self.lock, rt).retire(&self.table, pass)
    }

    /// Has a worker see all events so far, those of a worker that has ended included. It is no
    /// event, and returns the ended one as it was. It changes only what contracts say of the pass:
    /// it is for proofs that what this worker does next comes after all of these.
    pub fn learn<R: Wait>(&self, rt: &R, pass: Pass, ended: Ended) -> (Pass, Ended)
        requires pass { MayAsk N.table 1 pass }
        requires other { ended.table ≡ N.table }
        ensures learns { Learns N.conf (length N.budgets) pass result.0 ended }
        ensures same { result.1 ≡ ended }
    {
        locked(&self.lock, rt).learn(&self.table, pass, ended)
    }

    /// Has two workers see all events so far, which include those that the other one has seen. It
    /// is no event. It changes only what contracts say of the passes: it is for proofs that what
    /// either does next comes after all that both have done.
    pub fn meet<R: Wait>(&self, rt: &R, pass: Pass, other: Pass) -> (Pass, Pass)
        requires pass { MayAsk N.table 1 pass }
        requires other { MayAsk N.table 1 other }
        ensures { Meets N.conf (length N.budgets) pass other result.0 result.1 }
    {
        locked(&self.lock, rt).meet(&self.table, pass, other)
    }

    /// Returns the journal and the counters, after every worker has ended: `ended` has the end of
    /// each, in any order, which a caller has to prove. It does not wait, takes no memory, and
    /// copies no word of the cache.
    pub fn close<R: Wait>(self, rt: &R, ended: EndedList) -> Closed
        requires table { AllOf N.table ended.ended }
        requires every { (w : ℕ) → w < length N.budgets
            → has_worker w (known_list ended.ended) ≡ true }
        ensures { IsClosed N.conf (length N.budgets) ended.ended result }
    {
        let _ = rt;
        let Shared {
            alloc: _,
            table,
            lock,
        } = self;
        lock.into_inner().close(table, ended)
    }

    /// Returns the journal and the counters, after every worker has ended, and also the cache and
    /// its words, which represent it: the single-threaded cache after the journal. It does not wait
    /// and takes no memory.
    pub fn close_all<R: Wait>(self, rt: &R, ended: EndedList) -> (Closed, Core, VecWords)
        requires table { AllOf N.table ended.ended }
        requires every { (w : ℕ) → w < length N.budgets
            → has_worker w (known_list ended.ended) ≡ true }
        ensures { IsClosedWhole N.conf (length N.budgets) ended.ended result.0 result.1 result.2 }
    {
        let _ = rt;
        let Shared {
            alloc: _,
            table,
            lock,
        } = self;
        lock.into_inner().close_all(table, ended)
    }
}
