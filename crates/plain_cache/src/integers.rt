//! Integers under keys: counted, and replaced if they are the expected one.

ghost use Rattle.std.specs.Prelude.{◌≡◌, ◌<◌, ◌^◌, [], ◌∷◌, length, option_map, IfOk, OnOk};
ghost use Rattle.std.specs.Prelude.{OnErr};
ghost use Rattle.php_graph.specs.declared.kind.Kind.TheVariants.{Int};
ghost use Rattle.apcu_model.specs.Cache.{Row};
ghost use Rattle.apcu_model.specs.Counters.{counted, integer_in, integer_set, is_expected, swapped};
ghost use Rattle.apcu_model.specs.Expiry.{live_row};
ghost use Rattle.plain_cache.specs.States.{IsValid, cache_in};

use crate::rows::{live_in, set_in};
use crate::state::State;
use apcu_model::integer;
use php_graph::{Bytes, Graph, Kind};
use std::alloc::{AllocError, Global};

// The integer that a value is, if its first place is one.
fn integer_of(value: &Graph) -> Option<i64>
    ensures { result ≡ integer_in value.now }
{
    if value.places() == 0 {
        return None;
    }
    match value.kind(1) {
        Kind::Int(n) => Some(*n),
        _ => None,
    }
}

impl State {
    // Of the row that a look-up of the key finds, the integer that it holds, if it holds one.
    fn integer_at(&self, key: &[u8], t: u64) -> Option<Option<i64>>
        ensures { result ≡ option_map (λ (row : Row). integer_in row.graph)
            (live_row key.now t (cache_in self.now)) }
    {
        match live_in(&self.rows, key, t) {
            Some(row) => Some(integer_of(&row.graph)),
            None => None,
        }
    }

    // The row of the key holds this integer.
    fn set_integer(&mut self, key: &[u8], n: i64, t: u64)
        requires { IsValid self.old }
        ensures cache { cache_in self.new ≡ integer_set key.now n t (cache_in self.old) }
        ensures valid { IsValid self.new }
    {
        set_in(&mut self.rows, self.alloc, key, n, t);
    }

    // The counter under the key counts by the step; its new value.
    pub(crate) fn count(
        &mut self,
        key: &[u8],
        step: i64,
        ttl: u32,
        t: u64,
    ) -> Result<Option<i64>, AllocError>
        requires short { length key.now < 2 ^ 32 }
        requires valid { IsValid self.old }
        ensures reply { IfOk result (λ number. number
            ≡ (counted [] key.now step ttl t (cache_in self.old)).number) }
        ensures after { OnOk result (cache_in self.new
            ≡ (counted [] key.now step ttl t (cache_in self.old)).cache) }
        ensures err { OnErr result (cache_in self.new ≡ cache_in self.old) }
        ensures valid { IsValid self.new }
    {
        let Some(found) = self.integer_at(key, t) else {
            let key = Bytes::of(self.alloc, key)?;
            let stored = self.store(key, integer(self.alloc, step), ttl, false, t)?;
            return Ok(if stored { Some(step) } else { None });
        };
        let Some(n) = found else {
            return Ok(None);
        };
        let sum = n.wrapping_add(step);
        self.set_integer(key, sum, t);
        Ok(Some(sum))
    }

    // Replaces the integer under the key if it is the expected one, and returns whether it is.
    pub(crate) fn swap(&mut self, key: &[u8], expect: i64, set: i64, t: u64) -> bool
        requires { IsValid self.old }
        ensures reply { result ≡ is_expected expect (live_row key.now t (cache_in self.old)) }
        ensures cache { cache_in self.new ≡ swapped key.now expect set t (cache_in self.old) }
        ensures valid { IsValid self.new }
    {
        let Some(Some(n)) = self.integer_at(key, t) else {
            return false;
        };
        if n != expect {
            return false;
        }
        self.set_integer(key, set, t);
        true
    }
}
