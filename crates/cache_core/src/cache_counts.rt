//! The counters of a cache.

ghost use Rattle.std.specs.Prelude.{◌≡◌, if◌then◌else◌};
ghost use Rattle.apcu_model.specs.Cache.{risen};
ghost use Rattle.cache_core.specs.Counting.{risen_by};

/// The counters of a cache. Each stops at its maximum.
#[derive(Clone, Copy, Debug, PartialEq, Eq)]
pub(crate) struct CacheCounts {
    pub(crate) hits: u64,
    pub(crate) misses: u64,
    pub(crate) inserts: u64,
    pub(crate) expunges: u64,
}

impl CacheCounts {
    // Nothing was counted.
    pub(crate) fn new() -> CacheCounts
        ensures { result ≡ record { hits = 0; misses = 0; inserts = 0; expunges = 0 } }
    {
        CacheCounts {
            hits: 0,
            misses: 0,
            inserts: 0,
            expunges: 0,
        }
    }

    // Room was made. If all rows were dropped for it, the counters begin at 0 again.
    pub(crate) fn after_room(self, full: bool) -> CacheCounts
        ensures hits { result.hits ≡ (if full then 0 else self.hits) }
        ensures misses { result.misses ≡ (if full then 0 else self.misses) }
        ensures inserts { result.inserts ≡ (if full then 0 else self.inserts) }
        ensures expunges { result.expunges ≡ (if full then risen self.expunges else self.expunges) }
    {
        if full {
            CacheCounts {
                hits: 0,
                misses: 0,
                inserts: 0,
                expunges: self.expunges.saturating_add(1),
            }
        } else {
            self
        }
    }

    // A row was stored.
    pub(crate) fn after_insert(self) -> CacheCounts
        ensures { result ≡ record self { inserts = risen self.inserts } }
    {
        CacheCounts {
            inserts: self.inserts.saturating_add(1),
            ..self
        }
    }

    // A look-up found a row.
    pub(crate) fn after_hit(self) -> CacheCounts
        ensures { result ≡ record self { hits = risen self.hits } }
    {
        CacheCounts {
            hits: self.hits.saturating_add(1),
            ..self
        }
    }

    // A look-up found none.
    pub(crate) fn after_miss(self) -> CacheCounts
        ensures { result ≡ record self { misses = risen self.misses } }
    {
        CacheCounts {
            misses: self.misses.saturating_add(1),
            ..self
        }
    }

    // This number of look-ups found none.
    pub(crate) fn after_misses(self, n: u64) -> CacheCounts
        ensures { result ≡ record self { misses = risen_by n self.misses } }
    {
        CacheCounts {
            misses: risen(self.misses, n),
            ..self
        }
    }
}

// The counter, increased by n.
fn risen(count: u64, n: u64) -> u64
    ensures { result ≡ risen_by n count }
{
    count.saturating_add(n)
}
