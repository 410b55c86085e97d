//! A row of the plain cache.

ghost use Rattle.std.specs.Prelude.{◌≡◌, ◌+◌, ◌<◌, nat_lt};
ghost use Rattle.apcu_model.specs.Cache.{extent_of, has_key};
ghost use Rattle.apcu_model.specs.Counters.{with_integer_at};
ghost use Rattle.apcu_model.specs.Expiry.{is_expired, is_hard_expired};
ghost use Rattle.apcu_model.specs.Rows.{touched_at};
ghost use Rattle.apcu_model.specs.SlotOrder.{is_in_slot};

use apcu_model::{Conf, integer};
use php_graph::{Bytes, Graph, hash_of};
use seg_words::Extent;
use std::alloc::Global;
use std::marker::Model;

// A key with its value, and all that the cache keeps of it. Contracts see the row.
#[derive(Drop)]
pub(crate) struct Entry {
    pub(crate) key: Bytes,
    pub(crate) graph: Graph,
    pub(crate) ttl: u32,
    pub(crate) ctime: u64,
    pub(crate) mtime: u64,
    pub(crate) atime: u64,
    pub(crate) hits: u64,
    pub(crate) place: u32,
    pub(crate) size: u32,
    pub(crate) number: u64,
}

impl Model for Entry {
    ghost use Rattle.apcu_model.specs.Cache.{Row};

    ghost Value = { Row };

    ghost view = { λ e. record {
      key = e.key;
      graph = e.graph;
      ttl = e.ttl;
      ctime = e.ctime;
      mtime = e.mtime;
      atime = e.atime;
      dtime = 0;
      hits = e.hits;
      place = e.place;
      size = e.size;
      number = e.number;
    } };
}

impl Entry {
    // Whether this is the key's row.
    pub(crate) fn has_key(&self, key: &[u8]) -> bool
        ensures { result ≡ has_key key.now self.now }
    {
        self.key.as_slice() == key
    }

    // Whether its own ttl has expired. A sum past 64 bits lies after every time.
    pub(crate) fn is_hard_expired(&self, t: u64) -> bool
        ensures { result ≡ is_hard_expired t self.now }
    {
        self.ttl > 0 && has_elapsed(self.ctime, self.ttl, t)
    }

    // Whether its own ttl, or if it has none the cache's, has expired.
    pub(crate) fn is_expired(&self, conf: Conf, t: u64) -> bool
        ensures { result ≡ is_expired conf t self.now }
    {
        self.is_hard_expired(t)
            || (self.ttl == 0 && conf.ttl > 0 && has_elapsed(self.atime, conf.ttl, t))
    }

    // Whether its key's hash chain is this one.
    pub(crate) fn is_in_slot(&self, conf: Conf, slot: u64) -> bool
        requires { 0 < conf.slots }
        ensures { result ≡ is_in_slot conf slot self.now }
    {
        hash_of(self.key.as_slice()) % u64::from(conf.slots) == slot
    }

    // The words of its block.
    pub(crate) fn extent(&self) -> Extent
        ensures { result ≡ extent_of self.now }
    {
        Extent {
            place: self.place,
            size: self.size,
        }
    }

    // Counts that it was fetched, if this is the key's row.
    pub(crate) fn touch(&mut self, key: &[u8], t: u64)
        ensures { self.new ≡ touched_at key.now t self.old }
    {
        if self.has_key(key) {
            self.hits = self.hits.saturating_add(1);
            self.atime = t;
        }
    }
}

impl Entry {
    // The row of the key holds this integer, set at the moment t. It allocates no memory.
    pub(crate) fn set_integer(&mut self, alloc: Global, key: &[u8], n: i64, t: u64)
        ensures { self.new ≡ with_integer_at key.now n t self.old }
    {
        if self.has_key(key) {
            self.graph = integer(alloc, n);
            self.mtime = t;
        }
    }
}

// Whether more than `ttl` seconds passed from `since` to `t`.
fn has_elapsed(since: u64, ttl: u32, t: u64) -> bool
    ensures { result ≡ nat_lt (since + ttl) t }
{
    since.saturating_add(u64::from(ttl)) < t
}
