//! The plain single-threaded cache: the program that computes the definition.

ghost use Rattle.std.specs.Prelude.{◌≡◌, ℕ, ◌<◌, ◌^◌, false, [], length, MatchOption};
ghost use Rattle.std.specs.Prelude.{IfOk, OnOk, OnErr};
ghost use Rattle.apcu_model.specs.Cache.{counts_of, empty_cache};
ghost use Rattle.apcu_model.specs.Conf.{IsUsable};
ghost use Rattle.apcu_model.specs.Sequential.{cache_after, is_iteration, reply_to};
ghost use Rattle.apcu_model.specs.declared.request.Request.TheVariants.{Store, Fetch, Exists};
ghost use Rattle.apcu_model.specs.declared.request.Request.TheVariants.{Delete, Inc, Cas, Clear};
ghost use Rattle.apcu_model.specs.declared.request.Reply.TheVariants.{Flag, Found, Absent};
ghost use Rattle.apcu_model.specs.Sequential.{number_reply};

use crate::state::State;
use apcu_model::{Conf, Counts, Reply, Request};
use php_graph::{Bytes, Graph};
use std::alloc::{AllocError, Global};
use std::marker::Model;

/// A single-threaded cache that keeps its rows in a list and reads each of them: it shows what the
/// cache in the shared segment has to do. Contracts see its rows and counters.
pub struct Plain {
    state: State,
}

impl Drop for Plain {
    fn drop(self) {
        let Plain { state: _ } = self;
    }
}

impl Model for Plain {
    ghost use Rattle.apcu_model.specs.Cache.{Cache};
    ghost use Rattle.plain_cache.specs.States.{IsValid, cache_in};

    ghost Value = { Cache };

    ghost view = { λ p. cache_in p.state };

    ghost invariant = { λ p. IsValid p.state };
}

impl Plain {
    /// An empty cache of this shape. Its memory is allocated from `alloc` as rows are added.
    pub fn new(alloc: Global, conf: &Conf) -> Plain
        requires { IsUsable conf.now }
        ensures { result ≡ empty_cache conf.now }
    {
        Plain {
            state: State {
                alloc,
                conf: *conf,
                rows: Vec::new(alloc),
                next_number: 1,
                hits: 0,
                misses: 0,
                inserts: 0,
                expunges: 0,
            },
        }
    }

    /// Its counters.
    pub fn counts(&self) -> Counts
        ensures { result ≡ counts_of self.now }
    {
        self.state.counts()
    }

    /// Replies to a request at the time `t`, in seconds. If there is no memory, nothing changed.
    ///
    /// It copies the key and the value that it stores, and the value that it returns. The calls
    /// below copy none. It compiles no patterns, so requests of iterators are not allowed.
    pub fn ask(&mut self, request: &Request, t: u64) -> Result<Reply, AllocError>
        requires plain { is_iteration request.now ≡ false }
        ensures reply { IfOk result (λ r. r ≡ reply_to [] t request.now self.old) }
        ensures after { OnOk result (self.new ≡ cache_after [] t request.now self.old) }
        ensures err { OnErr result (self.new ≡ self.old) }
    {
        match request {
            Request::Store {
                key,
                value,
                ttl,
                exclusive,
            } => self.store_copies(key, value, *ttl, *exclusive, t),
            Request::Fetch(key) => self.fetch_copy(key.as_slice(), t),
            Request::Exists(key) => Ok(Reply::Flag(self.exists(key.as_slice(), t))),
            Request::Delete(key) => Ok(Reply::Flag(self.delete(key.as_slice(), t))),
            Request::Inc { key, step, ttl } => match self.inc(key.as_slice(), *step, *ttl, t)? {
                Some(n) => Ok(Reply::Number(n)),
                None => Ok(Reply::NoNumber),
            },
            Request::Cas { key, expect, set } => {
                Ok(Reply::Flag(self.cas(key.as_slice(), *expect, *set, t)))
            }
            Request::Clear => {
                self.clear();
                Ok(Reply::Flag(true))
            }
            Request::Entry(generator) => Ok(Reply::Gave(self.state.enter(generator, t)?)),
            Request::KeyInfo(key) => match self.state.key_info(key.as_slice(), t)? {
                Some(info) => Ok(Reply::Info(info)),
                None => Ok(Reply::Absent),
            },
            Request::CacheInfo(limited) => Ok(Reply::Info(self.state.cache_info(*limited)?)),
            Request::SmaInfo(limited) => Ok(Reply::Info(self.state.sma_info(*limited)?)),
            Request::Chunk { .. } | Request::ChunkDelete { .. } | Request::Totals { .. } => {
                unreachable!()
            }
            Request::Retire => Ok(Reply::Ended),
        }
    }

    // Stores copies of the key and the value.
    fn store_copies(
        &mut self,
        key: &Bytes,
        value: &Graph,
        ttl: u32,
        exclusive: bool,
        t: u64,
    ) -> Result<Reply, AllocError>
        ensures reply { IfOk result (λ r. r
            ≡ reply_to [] t (Store key.now value.now ttl exclusive) self.old) }
        ensures after { OnOk result (self.new
            ≡ cache_after [] t (Store key.now value.now ttl exclusive) self.old) }
        ensures err { OnErr result (self.new ≡ self.old) }
    {
        let key = Bytes::of(self.state.alloc, key.as_slice())?;
        let value = value.try_copy(self.state.alloc)?;
        Ok(Reply::Flag(self.store(key, value, ttl, exclusive, t)?))
    }

    // Returns a copy of the value that it finds, and counts the fetch.
    fn fetch_copy(&mut self, key: &[u8], t: u64) -> Result<Reply, AllocError>
        ensures reply { IfOk result (λ r. r ≡ reply_to [] t (Fetch key.now) self.old) }
        ensures after { OnOk result (self.new ≡ cache_after [] t (Fetch key.now) self.old) }
        ensures err { OnErr result (self.new ≡ self.old) }
    {
        let reply = match self.live_value(key, t) {
            Some(value) => Reply::Found(value.try_copy(self.state.alloc)?),
            None => Reply::Absent,
        };
        self.count_fetch(key, t);
        Ok(reply)
    }

    /// Stores a value at the time `t`, and returns whether it is then in the cache. `ttl` is in
    /// seconds, 0 is no limit; an `exclusive` store leaves a live row as it is. If there is no
    /// memory, nothing changed.
    ///
    /// It takes ownership of key and value instead of copying them. No worker copies a value
    /// meanwhile, so the blocks of rows that are dropped are free at once.
    pub fn store(
        &mut self,
        key: Bytes,
        value: Graph,
        ttl: u32,
        exclusive: bool,
        t: u64,
    ) -> Result<bool, AllocError>
        ensures reply { IfOk result (λ done. Flag done
            ≡ reply_to [] t (Store key value ttl exclusive) self.old) }
        ensures after { OnOk result (self.new
            ≡ cache_after [] t (Store key value ttl exclusive) self.old) }
        ensures err { OnErr result (self.new ≡ self.old) }
    {
        self.state.store(key, value, ttl, exclusive, t)
    }

    /// The value that a fetch of the key at the time `t` finds, borrowed and not copied; `None` if
    /// it finds none. It allocates no memory and counts nothing: `count_fetch` does.
    pub fn live_value(&self, key: &[u8], t: u64) -> Option<&Graph>
        ensures { MatchOption result (reply_to [] t (Fetch key.now) self.now ≡ Absent)
            (λ g. reply_to [] t (Fetch key.now) self.now ≡ Found g.now) }
    {
        self.state.live_value(key, t)
    }

    /// Counts a fetch of the key at the time `t`: a hit and the row's use, or a miss. It allocates
    /// no memory.
    pub fn count_fetch(&mut self, key: &[u8], t: u64)
        ensures { self.new ≡ cache_after [] t (Fetch key.now) self.old }
    {
        self.state.count_fetch(key, t);
    }

    /// Whether a look-up of the key at the time `t` finds a row. It changes and counts nothing.
    pub fn exists(&self, key: &[u8], t: u64) -> bool
        ensures { Flag result ≡ reply_to [] t (Exists key.now) self.now }
    {
        self.state.is_live(key, t)
    }

    /// Drops the row that a look-up of the key at the time `t` finds, and returns whether there is
    /// one. An expired row is not found, and stays. It allocates no memory.
    pub fn delete(&mut self, key: &[u8], t: u64) -> bool
        ensures reply { Flag result ≡ reply_to [] t (Delete key.now) self.old }
        ensures after { self.new ≡ cache_after [] t (Delete key.now) self.old }
    {
        self.state.delete(key, t)
    }

    /// Counts by the step at the time `t`, and returns the counter's new value: the old integer and
    /// the step as signed 64-bit numbers; the sum wraps. Without a live row it counts from 0, in a
    /// new row that lives for `ttl` seconds; 0 is no limit. `None` if the value is no integer, or
    /// there is no room for the new row. If there is no memory, nothing changed.
    pub fn inc(
        &mut self,
        key: &[u8],
        step: i64,
        ttl: u32,
        t: u64,
    ) -> Result<Option<i64>, AllocError>
        requires short { length key.now < 2 ^ 32 }
        ensures reply { IfOk result (λ number. number_reply number
            ≡ reply_to [] t (Inc key.now step ttl) self.old) }
        ensures after { OnOk result (self.new ≡ cache_after [] t (Inc key.now step ttl) self.old) }
        ensures err { OnErr result (self.new ≡ self.old) }
    {
        self.state.count(key, step, ttl, t)
    }

    /// Sets the integer under the key at the time `t`, if it is `expect`, and returns whether it
    /// is. It never makes a row. It allocates no memory.
    pub fn cas(&mut self, key: &[u8], expect: i64, set: i64, t: u64) -> bool
        ensures reply { Flag result ≡ reply_to [] t (Cas key.now expect set) self.old }
        ensures after { self.new ≡ cache_after [] t (Cas key.now expect set) self.old }
    {
        self.state.swap(key, expect, set, t)
    }

    /// Drops all rows, and sets hits, misses, inserts and expunges to 0. It allocates no memory.
    pub fn clear(&mut self)
        ensures { (t : ℕ) → self.new ≡ cache_after [] t Clear self.old }
    {
        self.state.clear();
    }
}
