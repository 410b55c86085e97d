//! The rows and counters of the plain cache, and how a row is added.

ghost use Rattle.std.specs.Prelude.{◌≡◌, ℕ, ◌+◌, ◌<◌, ◌≤◌, ⊤, true, false, [], is_some};
ghost use Rattle.std.specs.Prelude.{vec_len, vec_capacity, MatchOption, IfOk, OnOk, OnErr};
ghost use Rattle.apcu_model.specs.declared.request.Reply.TheVariants.{Absent, Found};
ghost use Rattle.apcu_model.specs.Cache.{counts_of, gap_of};
ghost use Rattle.apcu_model.specs.Change.{cleared, deleted, expired_dropped, expunged, inserted};
ghost use Rattle.apcu_model.specs.Change.{placed, put_in, with_room};
ghost use Rattle.apcu_model.specs.Expiry.{live_row};
ghost use Rattle.plain_cache.specs.States.{IsValid, cache_in};
ghost use Rattle.apcu_model.specs.Conf.{IsUsable};
ghost use Rattle.apcu_model.specs.Lookups.{looked_up};
ghost use Rattle.apcu_model.specs.Sequential.{found_in, is_stored};

use crate::entry::Entry;
use crate::rows::{
    drop_expired, drop_expired_in, drop_key, list_extents, live_in, put_row, touch_in,
};
use apcu_model::{Conf, Counts};
use php_graph::{Bytes, Graph, block_words, hash_of};
use seg_words::{Extent, first_fit};
use std::alloc::{AllocError, Global};

// What the plain cache keeps.
#[derive(Drop)]
pub(crate) struct State {
    pub(crate) alloc: Global,
    pub(crate) conf: Conf,
    pub(crate) rows: Vec<Entry>,
    pub(crate) next_number: u64,
    pub(crate) hits: u64,
    pub(crate) misses: u64,
    pub(crate) inserts: u64,
    pub(crate) expunges: u64,
}

// What is to be stored: owned already, so that no memory is needed later.
#[derive(Drop)]
struct Draft {
    key: Bytes,
    graph: Graph,
    ttl: u32,
    size: u32,
}

impl State {
    // The lowest place where a block of this many words fits. The list has room for all blocks.
    fn gap(&self, n: u32, extents: &mut Vec<Extent>) -> Option<u32>
        requires room { vec_len self.now.rows ≤ vec_capacity extents.old }
        requires usable { IsUsable self.now.conf }
        ensures place { result ≡ gap_of (cache_in self.now) n }
        ensures capacity { vec_capacity extents.new ≡ vec_capacity extents.old }
    {
        list_extents(&self.rows, extents);
        first_fit(
            self.conf.slots,
            self.conf.words,
            self.conf.piece(),
            n,
            extents,
        )
    }

    // Drops expired rows, if the cache has a ttl.
    fn expire(&mut self, t: u64)
        requires { IsValid self.old }
        ensures cache { cache_in self.new ≡ expired_dropped [] t (cache_in self.old) }
        ensures valid { IsValid self.new }
        ensures less { vec_len self.new.rows ≤ vec_len self.old.rows }
        ensures capacity { vec_capacity self.new.rows ≡ vec_capacity self.old.rows }
    {
        if self.conf.ttl > 0 {
            drop_expired(&mut self.rows, self.conf, t);
        }
    }

    // Drops all rows, and sets the counters of hits, misses and inserts to 0.
    fn expunge(&mut self)
        requires { IsValid self.old }
        ensures cache { (t : ℕ) → cache_in self.new ≡ expunged [] t (cache_in self.old) }
        ensures valid { IsValid self.new }
        ensures less { vec_len self.new.rows ≤ vec_len self.old.rows }
        ensures capacity { vec_capacity self.new.rows ≡ vec_capacity self.old.rows }
    {
        self.rows.clear();
        self.hits = 0;
        self.misses = 0;
        self.inserts = 0;
        self.expunges = self.expunges.saturating_add(1);
    }

    // Makes room for a block, and returns the lowest place where it then fits.
    fn make_room(&mut self, n: u32, t: u64, extents: &mut Vec<Extent>) -> Option<u32>
        requires valid { IsValid self.old }
        requires listed { vec_len self.old.rows ≤ vec_capacity extents.old }
        ensures cache { cache_in self.new ≡ with_room [] n t (cache_in self.old) }
        ensures place { result ≡ gap_of (cache_in self.new) n }
        ensures valid { IsValid self.new }
        ensures less { vec_len self.new.rows ≤ vec_len self.old.rows }
        ensures capacity { vec_capacity self.new.rows ≡ vec_capacity self.old.rows }
        ensures extents { vec_capacity extents.new ≡ vec_capacity extents.old }
    {
        let place = self.gap(n, extents);
        if place.is_some() {
            return place;
        }
        self.expire(t);
        let place = self.gap(n, extents);
        if place.is_some() {
            return place;
        }
        self.expunge();
        self.gap(n, extents)
    }

    // Adds the row at a place where it fits.
    fn put(&mut self, draft: Draft, place: u32, t: u64)
        requires valid { IsValid self.old }
        requires room { vec_len self.old.rows < vec_capacity self.old.rows }
        ensures cache { cache_in self.new
            ≡ placed [] draft.key draft.graph draft.ttl t draft.size (cache_in self.old) place }
        ensures valid { IsValid self.new }
        ensures more { vec_len self.new.rows ≤ vec_len self.old.rows + 1 }
        ensures capacity { vec_capacity self.new.rows ≡ vec_capacity self.old.rows }
    {
        let slot = hash_of(draft.key.as_slice()) % u64::from(self.conf.slots);
        drop_expired_in(&mut self.rows, self.conf, slot, t);
        let new = Entry {
            key: draft.key,
            graph: draft.graph,
            ttl: draft.ttl,
            ctime: t,
            mtime: t,
            atime: t,
            hits: 0,
            place,
            size: draft.size,
            number: self.next_number,
        };
        put_row(&mut self.rows, new);
        self.next_number = self.next_number.saturating_add(1);
        self.inserts = self.inserts.saturating_add(1);
    }

    // Makes room and puts the row there, if memory for it was allocated. Returns whether it fitted.
    fn insert_reserved(&mut self, draft: Draft, t: u64, extents: &mut Vec<Extent>) -> bool
        requires valid { IsValid self.old }
        requires listed { vec_len self.old.rows ≤ vec_capacity extents.old }
        requires room { vec_len self.old.rows < vec_capacity self.old.rows }
        ensures reply { let d = draft in let room = with_room [] d.size t (cache_in self.old) in
            result
            ≡ is_stored (put_in [] d.key d.graph d.ttl t d.size room (gap_of room d.size)).answer }
        ensures after { let d = draft in let room = with_room [] d.size t (cache_in self.old) in
            cache_in self.new
            ≡ (put_in [] d.key d.graph d.ttl t d.size room (gap_of room d.size)).cache }
        ensures valid { IsValid self.new }
        ensures more { vec_len self.new.rows ≤ vec_len self.old.rows + 1 }
        ensures capacity { vec_capacity self.new.rows ≡ vec_capacity self.old.rows }
        ensures extents { vec_capacity extents.new ≡ vec_capacity extents.old }
    {
        match self.make_room(draft.size, t, extents) {
            Some(place) => {
                self.put(draft, place, t);
                true
            }
            None => false,
        }
    }

    // Memory is allocated before anything changes.
    fn insert(&mut self, draft: Draft, t: u64) -> Result<bool, AllocError>
        requires { IsValid self.old }
        ensures reply { let d = draft in let room = with_room [] d.size t (cache_in self.old) in
            IfOk result (λ done. done
            ≡ is_stored (put_in [] d.key d.graph d.ttl t d.size room (gap_of room d.size)).answer) }
        ensures after { let d = draft in let room = with_room [] d.size t (cache_in self.old) in
            OnOk result (cache_in self.new
            ≡ (put_in [] d.key d.graph d.ttl t d.size room (gap_of room d.size)).cache) }
        ensures err { OnErr result (cache_in self.new ≡ cache_in self.old) }
        ensures valid { IsValid self.new }
    {
        let mut extents = Vec::with_capacity(self.alloc, self.rows.len())?;
        self.rows.reserve(1)?;
        Ok(self.insert_reserved(draft, t, &mut extents))
    }

    // The counters, and the number of rows.
    pub(crate) fn counts(&self) -> Counts
        ensures { result ≡ counts_of (cache_in self.now) }
    {
        Counts {
            hits: self.hits,
            misses: self.misses,
            inserts: self.inserts,
            expunges: self.expunges,
            entries: self.rows.len() as u64,
        }
    }

    // Whether a look-up finds the key.
    pub(crate) fn is_live(&self, key: &[u8], t: u64) -> bool
        ensures { result ≡ is_some (live_row key.now t (cache_in self.now)) }
    {
        live_in(&self.rows, key, t).is_some()
    }

    // What is to be inserted: nothing if the empty segments could not take it, or if it is
    // exclusive and a live row has the key.
    fn draft(&self, key: Bytes, value: Graph, ttl: u32, exclusive: bool, t: u64) -> Option<Draft>
        requires { IsValid self.now }
        ensures refused { let i = inserted [] key value ttl exclusive t (cache_in self.now) in
            MatchOption result
            ((is_stored i.answer ≡ false) × (i.cache ≡ cache_in self.now)) (λ d. ⊤) }
        ensures taken { let i = inserted [] key value ttl exclusive t (cache_in self.now) in
            MatchOption result ⊤ (λ d. let room = with_room [] d.size t (cache_in self.now) in
            i ≡ put_in [] d.key d.graph d.ttl t d.size room (gap_of room d.size)) }
    {
        let size = block_words(key.as_slice().len() as u64, &value);
        if u64::from(self.conf.most()) < size {
            return None;
        }
        if exclusive && self.is_live(key.as_slice(), t) {
            return None;
        }
        Some(Draft {
            key,
            graph: value,
            ttl,
            size: size as u32,
        })
    }

    // Stores a value, and returns whether it is in the cache.
    pub(crate) fn store(
        &mut self,
        key: Bytes,
        value: Graph,
        ttl: u32,
        exclusive: bool,
        t: u64,
    ) -> Result<bool, AllocError>
        requires { IsValid self.old }
        ensures reply { IfOk result (λ done. done
            ≡ is_stored (inserted [] key value ttl exclusive t (cache_in self.old)).answer) }
        ensures after { OnOk result (cache_in self.new
            ≡ (inserted [] key value ttl exclusive t (cache_in self.old)).cache) }
        ensures err { OnErr result (cache_in self.new ≡ cache_in self.old) }
        ensures valid { IsValid self.new }
    {
        match self.draft(key, value, ttl, exclusive, t) {
            Some(draft) => self.insert(draft, t),
            None => Ok(false),
        }
    }

    // Stores a value if no live row has the key, with memory that was allocated.
    pub(crate) fn add_reserved(
        &mut self,
        key: Bytes,
        value: Graph,
        ttl: u32,
        t: u64,
        extents: &mut Vec<Extent>,
    )
        requires valid { IsValid self.old }
        requires listed { vec_len self.old.rows ≤ vec_capacity extents.old }
        requires room { vec_len self.old.rows < vec_capacity self.old.rows }
        ensures after { cache_in self.new
            ≡ (inserted [] key value ttl true t (cache_in self.old)).cache }
        ensures valid { IsValid self.new }
        ensures more { vec_len self.new.rows ≤ vec_len self.old.rows + 1 }
        ensures capacity { vec_capacity self.new.rows ≡ vec_capacity self.old.rows }
        ensures extents { vec_capacity extents.new ≡ vec_capacity extents.old }
    {
        if let Some(draft) = self.draft(key, value, ttl, true, t) {
            self.insert_reserved(draft, t, extents);
        }
    }

    // The value that a look-up of the key finds.
    pub(crate) fn live_value(&self, key: &[u8], t: u64) -> Option<&Graph>
        ensures { MatchOption result
            (found_in (live_row key.now t (cache_in self.now)) ≡ Absent)
            (λ g. found_in (live_row key.now t (cache_in self.now)) ≡ Found g.now) }
    {
        match live_in(&self.rows, key, t) {
            Some(row) => Some(&row.graph),
            None => None,
        }
    }

    // Counts a look-up: a hit and the row's use, or a miss.
    pub(crate) fn count_fetch(&mut self, key: &[u8], t: u64)
        requires { IsValid self.old }
        ensures cache { cache_in self.new
            ≡ looked_up key.now t (live_row key.now t (cache_in self.old)) (cache_in self.old) }
        ensures valid { IsValid self.new }
        ensures len { vec_len self.new.rows ≡ vec_len self.old.rows }
        ensures capacity { vec_capacity self.new.rows ≡ vec_capacity self.old.rows }
    {
        if self.is_live(key, t) {
            touch_in(&mut self.rows, key, t);
            self.hits = self.hits.saturating_add(1);
        } else {
            self.misses = self.misses.saturating_add(1);
        }
    }

    // Drops the row that a look-up of the key finds, and returns whether there is one.
    pub(crate) fn delete(&mut self, key: &[u8], t: u64) -> bool
        requires { IsValid self.old }
        ensures reply { result ≡ is_some (live_row key.now t (cache_in self.old)) }
        ensures cache { cache_in self.new ≡ deleted [] key.now t (cache_in self.old) }
        ensures valid { IsValid self.new }
    {
        if !self.is_live(key, t) {
            return false;
        }
        drop_key(&mut self.rows, key);
        true
    }

    // Drops all rows, and sets all counters to 0.
    pub(crate) fn clear(&mut self)
        requires { IsValid self.old }
        ensures cache { (t : ℕ) → cache_in self.new ≡ cleared [] t (cache_in self.old) }
        ensures valid { IsValid self.new }
    {
        self.rows.clear();
        self.hits = 0;
        self.misses = 0;
        self.inserts = 0;
        self.expunges = 0;
    }
}
