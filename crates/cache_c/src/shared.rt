//! Look-ups by any number of callers at the same time, which are counted later.

ghost use Rattle.std.specs.Prelude.{◌≡◌, ◌<◌, ◌^◌, length};
ghost use Rattle.php_graph.specs.Numbers.{hash_of};
ghost use Rattle.cache_c.specs.declared.cache.Cache.{Cache};
ghost use Rattle.cache_c.specs.Standing.{StandsForCache, StandsUnchanged, LeavesHeld};
ghost use Rattle.cache_c.specs.Shared.{view_of, IsShared, IsFoundFor, MayCount, IsCounted};
ghost use Rattle.cache_c.specs.Shared.{found_by};

use crate::asking::{ABSENT, Answer, TOO_LONG, plain};
use crate::cache::Cache;
use crate::rows::value_at;
use cache_core::find_live_in;
use entry_slots::Finder;
use late_words::LentWords;
use seg_words::{HEAD_WORDS, WordsIn, words_in};

/// What a shared look-up reads in addition to the words. It is valid until the next call that may
/// change the cache.
#[repr(C)]
#[derive(Clone, Copy)]
pub struct View {
    /// The number of slots.
    pub slots: u32,
    /// The number of rows.
    pub rows: u32,
    /// The number of words.
    pub len: u32,
}

/// What a shared look-up returns.
#[repr(C)]
#[derive(Clone, Copy)]
pub struct Found {
    /// The kind of answer. This field and the next three are those of an `Answer`.
    pub kind: u32,
    /// The place of a string's bytes.
    pub place: u32,
    /// The number of an integer; 0 or 1 of a boolean.
    pub number: i64,
    /// How many bytes a string has.
    pub len: u64,
    /// The place of the row that was found; 0 if there is none.
    pub row: u32,
}

// The answer, and the place of the row.
fn with_row(answer: Answer, row: u32) -> Found
    ensures { result ≡ found_by answer row }
{
    Found {
        kind: answer.kind,
        place: answer.place,
        number: answer.number,
        len: answer.len,
        row,
    }
}

/// Looks up a key that has this hash, at the second `t`, in the words of a cache. Nothing is
/// counted.
pub(crate) fn find_shared(view: &View, words: &[u64], key: &[u8], hash: u64, t: u64) -> Found
    requires shared { (cache : Cache) × IsShared cache view.now words.now }
    requires hash { hash ≡ hash_of key.now }
    ensures found { (cache : Cache) → IsShared cache view.now words.now
        → IsFoundFor cache key.now t result }
{
    if key.len() >= 4_294_967_296 {
        return with_row(plain(TOO_LONG), 0);
    }
    let finder = Finder {
        slots: view.slots,
        rows: view.rows,
    };
    let slot = finder.slot_of_hash(hash);
    let mut lent = LentWords::of(words, view.len);
    let Some(at) = find_live_in(finder, &mut lent, key, slot, t) else {
        return with_row(plain(ABSENT), 0);
    };
    let image = at + HEAD_WORDS + words_in(key.len() as u32);
    with_row(value_at(&mut lent, image), at)
}

impl Cache {
    /// What a shared look-up reads in addition to the words.
    pub(crate) fn view(&mut self) -> View
        requires stand { StandsForCache self.old }
        ensures same { StandsUnchanged self.old self.new }
        ensures view { result ≡ view_of self.old }
    {
        let finder = self.core.finder();
        View {
            slots: finder.slots,
            rows: finder.rows,
            len: self.words.len(),
        }
    }

    /// Counts shared look-ups of the second `t`: those that found the rows at these places, and the
    /// number of `misses` that found none. Returns true.
    pub(crate) fn count_shared(&mut self, places: &[u32], misses: u64, t: u64) -> bool
        requires may { MayCount self.old places.now }
        ensures left { LeavesHeld self.old self.new }
        ensures counted { IsCounted self.old self.new places.now misses t result }
    {
        self.core.count_uses(&mut self.words, places, misses, t);
        true
    }
}
