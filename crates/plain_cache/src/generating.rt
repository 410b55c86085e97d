//! Values of generators.

ghost use Rattle.std.specs.Prelude.{◌≡◌, ◌+◌, ◌≤◌, [], vec_len, vec_capacity, IfOk, OnOk, OnErr};
ghost use Rattle.apcu_model.specs.Generators.{given_by, missed_levels, looked_for, filled, entered};
ghost use Rattle.plain_cache.specs.States.{IsValid, cache_in};

use crate::rows::live_in;
use crate::state::State;
use apcu_model::{Gen, GenKind};
use php_graph::{Bytes, Graph};
use seg_words::Extent;
use std::alloc::AllocError;

impl State {
    // The value of a generator, borrowed.
    fn given_by<'a>(&'a self, generator: &'a Gen, t: u64) -> &'a Graph
        ensures { result.now ≡ given_by generator.now t (cache_in self.now) }
    {
        match generator.kind() {
            GenKind::Value(value) => value,
            GenKind::Entry(key, _, inner) => match live_in(&self.rows, key.as_slice(), t) {
                Some(row) => &row.graph,
                None => self.given_by(inner, t),
            },
        }
    }

    // Counts the look-ups of a generator's keys, until one has a live row.
    fn count_levels(&mut self, generator: &Gen, t: u64)
        requires { IsValid self.old }
        ensures cache { cache_in self.new
            ≡ looked_for generator.now.levels t (cache_in self.old) }
        ensures valid { IsValid self.new }
        ensures len { vec_len self.new.rows ≡ vec_len self.old.rows }
        ensures capacity { vec_capacity self.new.rows ≡ vec_capacity self.old.rows }
    {
        match generator.kind() {
            GenKind::Value(_) => {}
            GenKind::Entry(key, _, inner) => {
                let found = self.is_live(key.as_slice(), t);
                self.count_fetch(key.as_slice(), t);
                if !found {
                    self.count_levels(inner, t);
                }
            }
        }
    }

    // Allocates memory for this many new rows, and then counts the look-ups of the generator's
    // keys. The list has room for the blocks of all rows.
    fn count_reserved(
        &mut self,
        generator: &Gen,
        more: usize,
        t: u64,
    ) -> Result<Vec<Extent>, AllocError>
        requires { IsValid self.old }
        ensures cache { OnOk result (cache_in self.new
            ≡ looked_for generator.now.levels t (cache_in self.old)) }
        ensures rows { OnOk result (vec_len self.new.rows + more ≤ vec_capacity self.new.rows) }
        ensures extents { IfOk result (λ extents.
            vec_len self.new.rows + more ≤ vec_capacity extents) }
        ensures err { OnErr result (cache_in self.new ≡ cache_in self.old) }
        ensures valid { IsValid self.new }
    {
        let rows = self.rows.len().checked_add(more).ok_or(AllocError)?;
        let extents = Vec::with_capacity(self.alloc, rows)?;
        self.rows.reserve(more)?;
        self.count_levels(generator, t);
        Ok(extents)
    }

    // Stores copies of the value under the missed keys of a generator, inner first, after the
    // look-ups of the whole generator were counted. Memory, also for this many further rows, is
    // allocated before anything changes.
    fn fill(
        &mut self,
        generator: &Gen,
        value: &Graph,
        whole: &Gen,
        further: usize,
        t: u64,
    ) -> Result<Vec<Extent>, AllocError>
        requires { IsValid self.old }
        ensures cache { let missed = missed_levels generator.now.levels t (cache_in self.old) in
            let counted = looked_for whole.now.levels t (cache_in self.old) in
            OnOk result (cache_in self.new ≡ (filled [] value.now t missed counted).cache) }
        ensures rows { OnOk result (vec_len self.new.rows + further ≤ vec_capacity self.new.rows) }
        ensures extents { IfOk result (λ extents.
            vec_len self.new.rows + further ≤ vec_capacity extents) }
        ensures err { OnErr result (cache_in self.new ≡ cache_in self.old) }
        ensures valid { IsValid self.new }
    {
        match generator.kind() {
            GenKind::Value(_) => self.count_reserved(whole, further, t),
            GenKind::Entry(key, ttl, inner) => {
                if self.is_live(key.as_slice(), t) {
                    return self.count_reserved(whole, further, t);
                }
                let own = Bytes::of(self.alloc, key.as_slice())?;
                let copy = value.try_copy(self.alloc)?;
                let more = further.checked_add(1).ok_or(AllocError)?;
                let mut extents = self.fill(inner, value, whole, more, t)?;
                self.add_reserved(own, copy, *ttl, t, &mut extents);
                Ok(extents)
            }
        }
    }

    // The value of a generator, which is then stored under the keys that were missed, if it can be.
    // Memory is allocated before anything changes.
    pub(crate) fn enter(&mut self, generator: &Gen, t: u64) -> Result<Graph, AllocError>
        requires { IsValid self.old }
        ensures value { IfOk result (λ value. value
            ≡ given_by generator.now t (cache_in self.old)) }
        ensures cache { OnOk result (cache_in self.new
            ≡ (entered [] generator.now t (cache_in self.old)).cache) }
        ensures err { OnErr result (cache_in self.new ≡ cache_in self.old) }
        ensures valid { IsValid self.new }
    {
        let value = self.given_by(generator, t).try_copy(self.alloc)?;
        self.fill(generator, &value, generator, 0, t)?;
        Ok(value)
    }
}
