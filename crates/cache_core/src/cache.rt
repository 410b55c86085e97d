//! The cache over the words of a segment.

ghost use Rattle.std.specs.Prelude.{◌≡◌, ℕ, ◌*◌, ◌≤◌, false, List, length, slice_index};
ghost use Rattle.seg_words.specs.Kept.{KeptBeside};
ghost use Rattle.seg_words.specs.Windows.{is_named};
ghost use Rattle.std.specs.Borrow.{sem};
ghost use Rattle.php_graph.specs.Numbers.{hash_of};
ghost use Rattle.apcu_model.specs.Cache.{empty_cache, counts_of};
ghost use Rattle.apcu_model.specs.SlotOrder.{slot_of};
ghost use Rattle.entry_slots.specs.Standing.{IsStanding};
ghost use Rattle.apcu_model.specs.Conf.{IsUsable};

use crate::cache_counts::CacheCounts;
use apcu_model::{Conf, Counts};
use entry_slots::{EntrySlots, Finder};
use max_tree::MaxRow;
use php_graph::hash_of;
use seg_words::{Segment, WordsIn};

/// The cache over the words of a segment. It keeps what the words do not: the entries, the shape
/// and the counters. No call allocates memory.
///
/// Each call is passed the segment in which the cache was formatted. Contracts see the
/// single-threaded cache (`cache_of`), by the blocks that are held when the call leaves the
/// segment's windows and mask. A `VecWords` has no windows, so no block is ever held there.
pub struct Core {
    pub(crate) slots: EntrySlots,
    pub(crate) conf: Conf,
    pub(crate) cache_counts: CacheCounts,
}

impl Drop for Core {
    fn drop(self) {
        let Core {
            slots: _,
            conf: _,
            cache_counts: _,
        } = self;
    }
}

impl Core {
    ghost use Rattle.cache_core.specs.CoreCache.{cache_of, CacheStands, IsStandingCore};
    ghost use Rattle.cache_core.specs.LentEntries.{LendsSlots};

    /// Makes a cache of this shape without rows. No window may be open.
    ///
    /// `gaps` is the memory of the index of gaps: zeros, one for every four words.
    pub fn format<S: Segment>(seg: &mut S, conf: &Conf, gaps: MaxRow) -> Core
        requires usable { IsUsable conf.now }
        requires all { length (S.words seg.old) ≡ conf.now.words }
        requires closed { (at : ℕ) → is_named (S.aside seg.old).windows at ≡ false }
        requires enough { length (S.words seg.old) ≤ 4 * length gaps }
        requires zeros { (i : ℕ) → slice_index gaps i ≡ 0 }
        ensures made { cache_of result ≡ empty_cache conf.now }
        ensures stand { CacheStands S.WordsIn result seg.new }
        ensures beside { KeptBeside S.WordsIn seg.old seg.new }
    {
        Core {
            slots: EntrySlots::format(seg, conf, gaps),
            conf: *conf,
            cache_counts: CacheCounts::new(),
        }
    }

    /// The counters, and the number of rows. Each counter stops at its maximum.
    pub fn counts(&self) -> Counts
        requires stand { IsStanding self.now.slots }
        ensures { result ≡ counts_of (cache_of self.now) }
    {
        Counts {
            hits: self.cache_counts.hits,
            misses: self.cache_counts.misses,
            inserts: self.cache_counts.inserts,
            expunges: self.cache_counts.expunges,
            entries: u64::from(self.slots.rows()),
        }
    }

    /// The slot of a key. It computes the key's hash: call it once, or `slot_of_hash` if the hash
    /// is known.
    pub fn slot_of_key(&self, key: &[u8]) -> u32
        requires stand { IsStandingCore self.now }
        ensures slot { result ≡ slot_of self.now.conf key.now }
    {
        self.slot_of_hash(hash_of(key))
    }

    /// The slot of a key that has this hash.
    pub fn slot_of_hash(&self, hash: u64) -> u32
        requires stand { IsStandingCore self.now }
        ensures slot { (key : List ℕ) → hash ≡ hash_of key → result ≡ slot_of self.now.conf key }
    {
        self.slots.slot_of_hash(hash)
    }

    /// What a look-up needs to know besides the words. It is valid until a row is added or removed.
    pub fn finder(&self) -> Finder
        requires stand { IsStandingCore self.now }
        ensures slots { result.slots ≡ self.now.conf.slots }
        ensures rows { result.rows ≡ length (cache_of self.now).rows }
    {
        self.slots.finder()
    }

    /// Lends the entries, for walks over chains and rows, as those of `cache_info` and `apcu_iter`.
    /// The cache continues with the entries that the borrower leaves.
    pub fn slots(&mut self) -> &mut EntrySlots
        ensures* lends { sem 𝓛 (LendsSlots self.entry result) }
        ensures value { result.now ≡ self.old.slots }
    {
        &mut self.slots
    }

    /// The cache's shape.
    pub fn conf(&self) -> &Conf
        ensures { result.now ≡ (cache_of self.now).conf }
    {
        &self.conf
    }
}
