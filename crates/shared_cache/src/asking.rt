//! Calls of workers on the shared cache whose results take memory.

ghost use Rattle.std.specs.Prelude.{◌≡◌, ◌<◌, ◌≤◌, ◌^◌, length, IfOk, OnErr};
ghost use Rattle.apcu_model.specs.declared.request.Request.TheVariants as request;
ghost use Rattle.apcu_model.specs.declared.request.Reply.TheVariants as reply;
ghost use Rattle.apcu_model.specs.Levels.{most_levels};
ghost use Rattle.apcu_model.specs.Sequential.{info_reply};
ghost use Rattle.shared_cache.specs.Asking.{MayAsk};
ghost use Rattle.shared_cache.specs.Follows.{Follows, FollowsEntry};

use crate::shared::Shared;
use crate::wait_lock::locked;
use apcu_model::{Chunk, Fields, Gen, List};
use counter_entry::Fate;
use php_graph::Graph;
use pin_table::{Pass, TableName};
use row_search::Search;
use std::alloc::{AllocError, Global};
use std::marker::Model;
use std::sync::Wait;

impl<N: TableName> Shared<N> {
    /// Returns the value of a generator at the moment `t`, in seconds: that of the first key, from
    /// the outermost inwards, under which a look-up finds a row, or else the innermost literal.
    /// Each key that missed counts a miss, and the value is then stored under it unless it has a
    /// live row by now, the innermost first, each with its own time to live; the key that was found
    /// counts a hit. All of this is one event. The fate is whether the outermost key was found, or
    /// stored.
    ///
    /// Without memory for the value there was no event, and the pass is returned as it was. See
    /// `apcu_entry` in the PHP manual.
    pub fn entry<R: Wait>(
        &self,
        rt: &R,
        alloc: Global,
        pass: Pass,
        generator: &Gen,
        t: u64,
    ) -> (Pass, Result<(Graph, Fate), AllocError>)
        requires pass { MayAsk N.table 2 pass }
        requires levels { length generator.now.levels ≤ most_levels }
        ensures given { IfOk result.1 (λ v. FollowsEntry N.conf (length N.budgets) pass result.0 t
            generator.now v.0 v.1) }
        ensures same { OnErr result.1 (result.0 ≡ pass) }
    {
        locked(&self.lock, rt).entry(&self.table, alloc, pass, generator, t)
    }

    /// Information about the row that a look-up of the key finds at the moment `t`, in seconds: its
    /// hits, its moments and its time to live; None if it finds none. Nothing is counted.
    ///
    /// Without memory for the result there was no event, and the pass is returned as it was. See
    /// `apcu_key_info` in the PHP manual.
    pub fn key_info<R: Wait>(
        &self,
        rt: &R,
        alloc: Global,
        pass: Pass,
        key: &[u8],
        t: u64,
    ) -> (Pass, Result<Option<Graph>, AllocError>)
        requires pass { MayAsk N.table 2 pass }
        requires short { length key.now < 2 ^ 32 }
        ensures event { IfOk result.1 (λ info. Follows N.conf (length N.budgets) pass result.0 t
            (request.KeyInfo key.now) (info_reply info)) }
        ensures same { OnErr result.1 (result.0 ≡ pass) }
    {
        locked(&self.lock, rt).key_info(&self.table, alloc, pass, key, t)
    }

    /// Information about the cache: its slots, its ttl, its counters, the number of rows and of
    /// their bytes and, unless it is `limited`, each row and each removed row. Its event has the
    /// moment 0.
    ///
    /// Without memory for the result there was no event, and the pass is returned as it was. See
    /// `apcu_cache_info` in the PHP manual.
    pub fn cache_info<R: Wait>(
        &self,
        rt: &R,
        alloc: Global,
        pass: Pass,
        limited: bool,
    ) -> (Pass, Result<Graph, AllocError>)
        requires pass { MayAsk N.table 2 pass }
        ensures event { IfOk result.1 (λ info. Follows N.conf (length N.budgets) pass result.0 0
            (request.CacheInfo limited) (reply.Info info)) }
        ensures same { OnErr result.1 (result.0 ≡ pass) }
    {
        locked(&self.lock, rt).cache_info(&self.table, alloc, pass, limited)
    }

    /// Information about the memory that the rows share: its size in bytes, the number of free
    /// bytes and, unless it is `limited`, the free blocks. Its event has the moment 0.
    ///
    /// Without memory for the result there was no event, and the pass is returned as it was. See
    /// `apcu_sma_info` in the PHP manual.
    pub fn sma_info<R: Wait>(
        &self,
        rt: &R,
        alloc: Global,
        pass: Pass,
        limited: bool,
    ) -> (Pass, Result<Graph, AllocError>)
        requires pass { MayAsk N.table 2 pass }
        ensures event { IfOk result.1 (λ info. Follows N.conf (length N.budgets) pass result.0 0
            (request.SmaInfo limited) (reply.Info info)) }
        ensures same { OnErr result.1 (result.0 ≡ pass) }
    {
        locked(&self.lock, rt).sma_info(&self.table, alloc, pass, limited)
    }

    /// One step of an iterator at the moment `t`, in seconds: the rows of a list whose keys the
    /// search finds, with the parts that `fields` selects. Over the active rows it takes the fewest
    /// slots, from the slot `from` on, that have at least `size` items, or all that are left; the
    /// chunk has the slot after them. All deleted rows are one step. Nothing is counted.
    ///
    /// Without memory for the result there was no event, and the pass is returned as it was. See
    /// `APCUIterator` in the PHP manual.
    pub fn chunk<R: Wait>(
        &self,
        rt: &R,
        alloc: Global,
        pass: Pass,
        search: &mut Search,
        from: u32,
        size: u32,
        list: List,
        fields: Fields,
        t: u64,
    ) -> (Pass, Result<Chunk, AllocError>)
        requires pass { MayAsk N.table 2 pass }
        requires from { from ≤ N.conf.slots }
        requires size { 1 ≤ size }
        ensures event { IfOk result.1 (λ chunk. Follows N.conf (length N.budgets) pass result.0 t
            (request.Chunk search.old from size list fields) (reply.Chunk chunk)) }
        ensures same { OnErr result.1 (result.0 ≡ pass) }
        ensures search { search.new ≡ search.old }
    {
        locked(&self.lock, rt).chunk(
            &self.table,
            alloc,
            pass,
            search,
            from,
            size,
            list,
            fields,
            t,
        )
    }

    /// Deletes the rows of one step of an iterator over the active rows at the moment `t`, in
    /// seconds, as one event: those whose keys the search finds in the fewest slots, from the slot
    /// `from` on, that hold at least `size` of them, or in all that are left. A row from which a
    /// worker still copies becomes a removed row. Returns the slot after the last one taken.
    ///
    /// Without memory for the search there was no event, and the pass is returned as it was. See
    /// `apcu_delete` of an iterator in the PHP manual.
    pub fn chunk_delete<R: Wait>(
        &self,
        rt: &R,
        alloc: Global,
        pass: Pass,
        search: &mut Search,
        from: u32,
        size: u32,
        t: u64,
    ) -> (Pass, Result<u32, AllocError>)
        requires pass { MayAsk N.table 2 pass }
        requires from { from ≤ N.conf.slots }
        requires size { 1 ≤ size }
        ensures deleted { IfOk result.1 (λ next. Follows N.conf (length N.budgets) pass result.0 t
            (request.ChunkDelete search.old from size) (reply.Next next)) }
        ensures same { OnErr result.1 (result.0 ≡ pass) }
        ensures search { search.new ≡ search.old }
    {
        locked(&self.lock, rt).chunk_delete(&self.table, alloc, pass, search, from, size, t)
    }

    /// The totals of the rows of a list whose keys the search finds at the moment `t`, in seconds:
    /// their number, the sum of their hits, which stops at 2^64 - 1, and the bytes of their blocks.
    ///
    /// Without memory for the search there was no event, and the pass is returned as it was. See
    /// `APCUIterator::getTotalCount` and its relatives in the PHP manual.
    pub fn totals<R: Wait>(
        &self,
        rt: &R,
        alloc: Global,
        pass: Pass,
        search: &mut Search,
        list: List,
        t: u64,
    ) -> (Pass, Result<(u64, u64, u64), AllocError>)
        requires pass { MayAsk N.table 2 pass }
        ensures event { IfOk result.1 (λ r. Follows N.conf (length N.budgets) pass result.0 t
            (request.Totals search.old list) (reply.Totals r.0 r.1 r.2)) }
        ensures same { OnErr result.1 (result.0 ≡ pass) }
        ensures search { search.new ≡ search.old }
    {
        let _ = alloc;
        locked(&self.lock, rt).totals(&self.table, pass, search, list, t)
    }
}
