//! Laws of pools' keys.

ghost use Rattle.std.specs.Prelude.{◌≡◌, ℕ, true, List};
ghost use Rattle.simple_pool.specs.Names.{is_good_name, pool_key};

/// A key of the cache is kept by at most one pool, under one key of its own.
pub fn keys_tell_pools_apart()
    ensures { (pool other key own : List ℕ) → is_good_name pool ≡ true
        → is_good_name other ≡ true → pool_key pool key ≡ pool_key other own
        → (pool ≡ other) × (key ≡ own) }
{}
