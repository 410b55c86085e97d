//! Requests whose replies take memory, under the lock. If there is no memory for the reply, there
//! was no event, and the pass is returned as it was.

ghost use Rattle.std.specs.Prelude.{◌≡◌, ◌<◌, ◌≤◌, ◌^◌, length, IfOk, OnErr};
ghost use Rattle.apcu_model.specs.declared.request.Request.TheVariants as request;
ghost use Rattle.apcu_model.specs.declared.request.Reply.TheVariants as reply;
ghost use Rattle.apcu_model.specs.Levels.{most_levels};
ghost use Rattle.apcu_model.specs.Sequential.{info_reply};
ghost use Rattle.shared_cache.specs.Asking.{MayAsk};
ghost use Rattle.shared_cache.specs.Follows.{Follows, FollowsEntry};

use crate::locked_cache::LockedCache;
use crate::under_lock::{begin, end_or_give_back};
use apcu_iter::{chunk, chunk_delete, totals};
use apcu_model::{Ask, Chunk, Fields, Gen, List};
use cache_info::{cache_info, key_info, sma_info};
use counter_entry::{Fate, entry};
use php_graph::Graph;
use pin_table::{Pass, PinTable, TableName};
use row_search::Search;
use std::alloc::{AllocError, Global};
use std::marker::Model;

impl<N: TableName> LockedCache<N> {
    // The value of a generator, which is stored under the keys that missed.
    pub(crate) fn entry(
        &mut self,
        table: &PinTable,
        alloc: Global,
        pass: Pass,
        generator: &Gen,
        t: u64,
    ) -> (Pass, Result<(Graph, Fate), AllocError>)
        requires table { table.now ≡ N.table }
        requires pass { MayAsk N.table 1 pass }
        requires levels { length generator.now.levels ≤ most_levels }
        ensures given { IfOk result.1 (λ v. FollowsEntry N.conf (length N.budgets) pass result.0 t
            generator.now v.0 v.1) }
        ensures same { OnErr result.1 (result.0 ≡ pass) }
    {
        let mut w = begin::<N>(table, &mut self.seat, pass);
        let answer = entry(alloc, &mut self.core, &mut w, generator, t);
        end_or_give_back::<N, _>(&mut self.journal, w, Ask::Entry(generator), t, answer)
    }

    // Information about the row that a look-up of the key finds.
    pub(crate) fn key_info(
        &mut self,
        table: &PinTable,
        alloc: Global,
        pass: Pass,
        key: &[u8],
        t: u64,
    ) -> (Pass, Result<Option<Graph>, AllocError>)
        requires table { table.now ≡ N.table }
        requires pass { MayAsk N.table 1 pass }
        requires short { length key.now < 2 ^ 32 }
        ensures event { IfOk result.1 (λ info. Follows N.conf (length N.budgets) pass result.0 t
            (request.KeyInfo key.now) (info_reply info)) }
        ensures same { OnErr result.1 (result.0 ≡ pass) }
    {
        let mut w = begin::<N>(table, &mut self.seat, pass);
        let answer = key_info(alloc, &mut self.core, &mut w, key, t);
        end_or_give_back::<N, _>(&mut self.journal, w, Ask::KeyInfo(key), t, answer)
    }

    // Information about the cache.
    pub(crate) fn cache_info(
        &mut self,
        table: &PinTable,
        alloc: Global,
        pass: Pass,
        limited: bool,
    ) -> (Pass, Result<Graph, AllocError>)
        requires table { table.now ≡ N.table }
        requires pass { MayAsk N.table 1 pass }
        ensures event { IfOk result.1 (λ info. Follows N.conf (length N.budgets) pass result.0 0
            (request.CacheInfo limited) (reply.Info info)) }
        ensures same { OnErr result.1 (result.0 ≡ pass) }
    {
        let mut w = begin::<N>(table, &mut self.seat, pass);
        let answer = cache_info(alloc, &mut self.core, &mut w, limited);
        end_or_give_back::<N, _>(&mut self.journal, w, Ask::CacheInfo(limited), 0, answer)
    }

    // Information about the words: the free ones.
    pub(crate) fn sma_info(
        &mut self,
        table: &PinTable,
        alloc: Global,
        pass: Pass,
        limited: bool,
    ) -> (Pass, Result<Graph, AllocError>)
        requires table { table.now ≡ N.table }
        requires pass { MayAsk N.table 1 pass }
        ensures event { IfOk result.1 (λ info. Follows N.conf (length N.budgets) pass result.0 0
            (request.SmaInfo limited) (reply.Info info)) }
        ensures same { OnErr result.1 (result.0 ≡ pass) }
    {
        let mut w = begin::<N>(table, &mut self.seat, pass);
        let answer = sma_info(alloc, &mut self.core, &mut w, limited);
        end_or_give_back::<N, _>(&mut self.journal, w, Ask::SmaInfo(limited), 0, answer)
    }

    // One step of an iterator over a list.
    pub(crate) fn chunk(
        &mut self,
        table: &PinTable,
        alloc: Global,
        pass: Pass,
        search: &mut Search,
        from: u32,
        size: u32,
        list: List,
        fields: Fields,
        t: u64,
    ) -> (Pass, Result<Chunk, AllocError>)
        requires table { table.now ≡ N.table }
        requires pass { MayAsk N.table 1 pass }
        requires from { from ≤ N.conf.slots }
        requires size { 1 ≤ size }
        ensures event { IfOk result.1 (λ chunk. Follows N.conf (length N.budgets) pass result.0 t
            (request.Chunk search.old from size list fields) (reply.Chunk chunk)) }
        ensures same { OnErr result.1 (result.0 ≡ pass) }
        ensures search { search.new ≡ search.old }
    {
        let mut w = begin::<N>(table, &mut self.seat, pass);
        let core = &mut self.core;
        let answer = chunk(alloc, core, &mut w, search, from, size, list, fields, t);
        let ask = Ask::Chunk {
            search: search.pattern(),
            from,
            size,
            list,
            fields,
        };
        end_or_give_back::<N, _>(&mut self.journal, w, ask, t, answer)
    }

    // Deletes the rows of one step of an iterator over the active rows.
    pub(crate) fn chunk_delete(
        &mut self,
        table: &PinTable,
        alloc: Global,
        pass: Pass,
        search: &mut Search,
        from: u32,
        size: u32,
        t: u64,
    ) -> (Pass, Result<u32, AllocError>)
        requires table { table.now ≡ N.table }
        requires pass { MayAsk N.table 1 pass }
        requires from { from ≤ N.conf.slots }
        requires size { 1 ≤ size }
        ensures deleted { IfOk result.1 (λ next. Follows N.conf (length N.budgets) pass result.0 t
            (request.ChunkDelete search.old from size) (reply.Next next)) }
        ensures same { OnErr result.1 (result.0 ≡ pass) }
        ensures search { search.new ≡ search.old }
    {
        let mut w = begin::<N>(table, &mut self.seat, pass);
        let answer = chunk_delete(alloc, &mut self.core, &mut w, search, from, size, t);
        let search = search.pattern();
        let delete = Ask::ChunkDelete { search, from, size };
        end_or_give_back::<N, _>(&mut self.journal, w, delete, t, answer)
    }

    // The totals of an iterator: its rows, their hits and their bytes.
    pub(crate) fn totals(
        &mut self,
        table: &PinTable,
        pass: Pass,
        search: &mut Search,
        list: List,
        t: u64,
    ) -> (Pass, Result<(u64, u64, u64), AllocError>)
        requires table { table.now ≡ N.table }
        requires pass { MayAsk N.table 1 pass }
        ensures event { IfOk result.1 (λ r. Follows N.conf (length N.budgets) pass result.0 t
            (request.Totals search.old list) (reply.Totals r.0 r.1 r.2)) }
        ensures same { OnErr result.1 (result.0 ≡ pass) }
        ensures search { search.new ≡ search.old }
    {
        let mut w = begin::<N>(table, &mut self.seat, pass);
        let answer = totals(&mut self.core, &mut w, search, list, t);
        let search = search.pattern();
        end_or_give_back::<N, _>(
            &mut self.journal,
            w,
            Ask::Totals { search, list },
            t,
            answer,
        )
    }
}
