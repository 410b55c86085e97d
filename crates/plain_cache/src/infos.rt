//! Information about the plain cache.

ghost use Rattle.std.specs.Prelude.{◌≡◌, ◌+◌, ◌<◌, ◌^◌, ◌++◌, [], ◌∷◌, map, filter, reverse};
ghost use Rattle.std.specs.Prelude.{if◌then◌else◌, ◌≤◌, sum_by, IfOk, OnOk};
ghost use Rattle.seg_words.specs.Gaps.{free_runs, is_free, meets, with_word};
ghost use Rattle.apcu_model.specs.Conf.{piece_of};
ghost use Rattle.apcu_model.specs.Cache.{Row};
ghost use Rattle.apcu_model.specs.Infos.{cache_info_of, gap_words_of, gaps_of, key_info_of};
ghost use Rattle.apcu_model.specs.Infos.{listed_of, info_of_row};
ghost use Rattle.apcu_model.specs.Infos.{number_kind, sma_info_of, word_bytes};
ghost use Rattle.plain_cache.specs.States.{IsValid, cache_in};
ghost use Rattle.apcu_model.specs.SlotOrder.{in_slot_order, is_in_slot};

use crate::entry::Entry;
use crate::rows::{list_extents, live_in};
use crate::state::State;
use apcu_model::{Conf, ListedRow, RowInfo};
use info_tables::{tell_cache, tell_counts, tell_gaps, tell_key, tell_words};
use php_graph::{Bytes, Graph};
use seg_words::{Extent, begins_segment};
use std::alloc::{AllocError, Global};

impl Entry {
    // Information about it besides its key and its value.
    fn info(&self) -> RowInfo
        ensures { result ≡ info_of_row self.now }
    {
        RowInfo {
            ttl: self.ttl,
            ctime: self.ctime,
            mtime: self.mtime,
            atime: self.atime,
            dtime: 0,
            hits: self.hits,
            size: self.size,
        }
    }

    // And a copy of its key.
    fn listed(&self, alloc: Global) -> Result<ListedRow, AllocError>
        ensures { IfOk result (λ row. row ≡ listed_of self.now) }
    {
        Ok(ListedRow {
            key: Bytes::of(alloc, self.key.as_slice())?,
            info: self.info(),
        })
    }
}

// Appends the rows of a hash chain to the list.
fn list_slot(
    rows: &[Entry],
    alloc: Global,
    conf: Conf,
    slot: u64,
    list: &mut Vec<ListedRow>,
) -> Result<(), AllocError>
    requires { 0 < conf.slots }
    ensures { OnOk result (list.new.items
        ≡ list.old.items ++ map listed_of (filter (is_in_slot conf slot) rows.now)) }
{
    for row in rows {
        if row.is_in_slot(conf, slot) {
            list.push(row.listed(alloc)?)?;
        }
    }
    Ok(())
}

// The rows by slot and place.
fn list_rows(rows: &[Entry], alloc: Global, conf: Conf) -> Result<Vec<ListedRow>, AllocError>
    requires { 0 < conf.slots }
    ensures { IfOk result
        (λ list. list.items ≡ map listed_of (in_slot_order conf rows.now)) }
{
    let mut list = Vec::new(alloc);
    for slot in 0..conf.slots {
        list_slot(rows, alloc, conf, u64::from(slot), &mut list)?;
    }
    Ok(list)
}

// The words of all blocks, as many as are reported.
fn words_of(rows: &[Entry]) -> u64
    ensures { number_kind (word_bytes result)
        ≡ number_kind (word_bytes (sum_by (λ (row : Row). row.size) rows.now)) }
{
    let mut words: u64 = 0;
    for row in rows {
        words = words.saturating_add(u64::from(row.size));
    }
    words
}

// A word comes before the gaps, which are listed by falling place.
fn put_word(gaps: &mut Vec<Extent>, word: u32, piece: u32) -> Result<(), AllocError>
    requires { word + sum_by (λ (gap : Extent). gap.size) gaps.old.items + 1 < 2 ^ 32 }
    ensures gaps { OnOk result
        (reverse gaps.new.items ≡ with_word piece word (reverse gaps.old.items)) }
    ensures words { OnOk result (sum_by (λ (gap : Extent). gap.size) gaps.new.items
        ≡ sum_by (λ (gap : Extent). gap.size) gaps.old.items + 1) }
{
    let Some(gap) = gaps.pop() else {
        return put(gaps, word, 1);
    };
    if gap.place == word + 1 && !begins_segment(piece, gap.place) {
        return put(gaps, word, gap.size + 1);
    }
    gaps.push(gap)?;
    put(gaps, word, 1)
}

// One more gap, at the end.
fn put(gaps: &mut Vec<Extent>, place: u32, size: u32) -> Result<(), AllocError>
    ensures { OnOk result
        (gaps.new.items ≡ gaps.old.items ++ record { place = place; size = size } ∷ []) }
{
    gaps.push(Extent { place, size })?;
    Ok(())
}

// Whether the block has the word.
fn has_word(extent: &Extent, word: u32) -> bool
    ensures { result ≡ meets word 1 extent.now }
{
    let from = u64::from(word.max(extent.place));
    let to = (u64::from(word) + 1).min(u64::from(extent.place) + u64::from(extent.size));
    from < to
}

// Whether no block has the word.
fn is_free_word(extents: &[Extent], word: u32) -> bool
    ensures { result ≡ is_free word 1 extents.now }
{
    for extent in extents {
        if has_word(extent, word) {
            return false;
        }
    }
    true
}

// One more word below those that were read: it comes before the gaps, if it is free. Returns the
// number of words of the gaps then.
fn look_at_word(
    extents: &[Extent],
    word: u32,
    piece: u32,
    gaps: &mut Vec<Extent>,
    free: u32,
) -> Result<u32, AllocError>
    requires room { word + free + 1 < 2 ^ 32 }
    requires free { free ≡ sum_by (λ (gap : Extent). gap.size) gaps.old.items }
    ensures gaps { OnOk result (reverse gaps.new.items
        ≡ (if is_free word 1 extents.now then with_word piece word (reverse gaps.old.items)
        else reverse gaps.old.items)) }
    ensures free { IfOk result (λ n. n ≡ sum_by (λ (gap : Extent). gap.size) gaps.new.items) }
    ensures few { IfOk result (λ n. n ≤ free + 1) }
{
    if !is_free_word(extents, word) {
        return Ok(free);
    }
    put_word(gaps, word, piece)?;
    Ok(free + 1)
}

// The gaps between some blocks, and the number of their words.
fn gaps_beside(
    alloc: Global,
    conf: Conf,
    extents: &[Extent],
) -> Result<(Vec<Extent>, u32), AllocError>
    ensures gaps { IfOk result
        (λ r. r.0.items ≡ free_runs conf.slots conf.words (piece_of conf) extents.now) }
    ensures words { IfOk result
        (λ r. r.1 ≡ sum_by (λ (gap : Extent). gap.size) r.0.items) }
{
    let mut gaps = Vec::new(alloc);
    let mut free = 0;
    let piece = conf.piece();
    for i in 0..conf.words.saturating_sub(conf.slots) {
        free = look_at_word(extents, conf.words - (i + 1), piece, &mut gaps, free)?;
    }
    gaps.reverse();
    Ok((gaps, free))
}

impl State {
    // Information about the row that a look-up of the key finds.
    pub(crate) fn key_info(&self, key: &[u8], t: u64) -> Result<Option<Graph>, AllocError>
        ensures { IfOk result (λ g. g ≡ key_info_of key.now t (cache_in self.now)) }
    {
        match live_in(&self.rows, key, t) {
            Some(row) => Ok(Some(tell_key(self.alloc, row.info())?)),
            None => Ok(None),
        }
    }

    // Information about the cache.
    pub(crate) fn cache_info(&self, limited: bool) -> Result<Graph, AllocError>
        requires { IsValid self.now }
        ensures { IfOk result (λ g. g ≡ cache_info_of limited (cache_in self.now)) }
    {
        let words = words_of(&self.rows);
        if limited {
            return tell_counts(self.alloc, self.conf, self.counts(), words);
        }
        let rows = list_rows(&self.rows, self.alloc, self.conf)?;
        let removed = Vec::new(self.alloc);
        tell_cache(self.alloc, self.conf, self.counts(), words, rows, removed)
    }

    // The gaps, and the number of their words.
    fn gaps(&self) -> Result<(Vec<Extent>, u32), AllocError>
        ensures gaps { IfOk result (λ r. r.0.items ≡ gaps_of (cache_in self.now)) }
        ensures words { IfOk result (λ r. r.1 ≡ gap_words_of (cache_in self.now)) }
    {
        let mut extents = Vec::with_capacity(self.alloc, self.rows.len())?;
        list_extents(&self.rows, &mut extents);
        let (gaps, free) = gaps_beside(self.alloc, self.conf, &extents)?;
        Ok((gaps, free))
    }

    // Information about the segment.
    pub(crate) fn sma_info(&self, limited: bool) -> Result<Graph, AllocError>
        requires { IsValid self.now }
        ensures { IfOk result (λ g. g ≡ sma_info_of limited (cache_in self.now)) }
    {
        let (gaps, free) = self.gaps()?;
        if limited {
            return tell_words(self.alloc, self.conf, free);
        }
        tell_gaps(self.alloc, self.conf, free, &gaps)
    }
}
