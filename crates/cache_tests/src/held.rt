//! The cache over words of which blocks are held for workers, as by copies in progress.

ghost use Rattle.std.specs.Prelude.{◌≡◌, ◌⊎◌, ℕ, ◌%◌, ◌<◌, ◌≤◌, ◌^◌, true, false, length};
ghost use Rattle.apcu_model.specs.Conf.{IsUsable};
ghost use Rattle.seg_words.specs.Kept.{Kept};
ghost use Rattle.seg_words.specs.Windows.{has};
ghost use Rattle.entry_slots.specs.Lists.{has_place};
ghost use Rattle.entry_slots.specs.Entries.{listed};
ghost use Rattle.entry_slots.specs.Standing.{Stand, entries};
ghost use Rattle.cache_core.specs.CoreCache.{CacheStands};
ghost use Rattle.cache_tests.specs.TwoHolders.{IsRowsPlace, HoldsTwo};

use crate::asking::answer_of;
use apcu_model::{Conf, Counts, Request};
use cache_core::Core;
use entry_slots::{EntrySlots, place_laws, window_laws};
use max_tree::MaxRow;
use php_graph::Bytes;
use seg_words::{HeldWords, Segment, WordsIn};
use std::alloc::{AllocError, Global};
use std::marker::Model;

// Whether the row of the key, or a removed row, is at a place.
fn stands_at<S: Segment>(slots: &EntrySlots, words: &mut S, key: &[u8], at: u32) -> bool
    requires short { length key.now < 2 ^ 32 }
    requires stand { Stand S.WordsIn slots.now words.old }
    ensures there { result ≡ true → has_place at (listed (entries slots.now)) ≡ true }
    ensures kept { Kept S.WordsIn words.old words.new }
{
    place_laws();
    if slots.find(words, key) == Some(at) {
        return true;
    }
    let mut next = slots.first_removed();
    for _passed in 0..slots.words() {
        if next == 0 {
            return false;
        }
        if next == at {
            return true;
        }
        next = slots.after(words, next);
    }
    false
}

// The place, if the row of the key or a removed row is there, and otherwise 0.
fn there(core: &mut Core, words: &mut HeldWords, key: &[u8], at: u32) -> u32
    requires short { length key.now < 2 ^ 32 }
    requires two { HoldsTwo ⟦<HeldWords as WordsIn>⟧ core.old words.old }
    ensures there { IsRowsPlace core.new.slots result }
    ensures same { core.new ≡ core.old }
    ensures two { HoldsTwo ⟦<HeldWords as WordsIn>⟧ core.new words.new }
{
    if stands_at(core.slots(), words, key, at) {
        at
    } else {
        0
    }
}

// Begins an event with this mask. For the workers 0 and 1 the blocks at these places are held, or
// nothing for 0.
fn begin_with(core: &Core, words: &mut HeldWords, mask: u64, first: u32, second: u32)
    requires two { HoldsTwo ⟦<HeldWords as WordsIn>⟧ core.now words.old }
    requires first { IsRowsPlace core.now.slots first }
    requires second { IsRowsPlace core.now.slots second }
    ensures two { HoldsTwo ⟦<HeldWords as WordsIn>⟧ core.now words.new }
    ensures unrefused { (b : ℕ)
        → has b (⟦<HeldWords as WordsIn>⟧.aside words.new).refused ≡ false }
{
    window_laws();
    words.hold(0, first);
    words.hold(1, second);
    words.begin(mask);
}

// The row that a worker may copy: its key and its place. At 0 nothing is held.
#[derive(Drop)]
pub(crate) struct Copy {
    pub(crate) key: Bytes,
    pub(crate) at: u32,
}

// Those of the workers 0 and 1.
#[derive(Drop)]
pub(crate) struct Copies {
    pub(crate) first: Copy,
    pub(crate) second: Copy,
}

// A cache over words of which two workers may copy blocks. Contracts see the cache.
#[derive(Drop)]
pub(crate) struct Held {
    words: HeldWords,
    core: Core,
}

impl Model for Held {
    ghost use Rattle.apcu_model.specs.Cache.{Cache};
    ghost use Rattle.cache_core.specs.CoreCache.{cache_of};
    ghost use Rattle.cache_tests.specs.TwoHolders.{HoldsTwo};

    ghost Value = { Cache };

    ghost view = { λ s. cache_of s.core };

    ghost invariant = { λ s. HoldsTwo ⟦<HeldWords as WordsIn>⟧ s.core s.words };
}

impl Held {
    pub(crate) fn new(alloc: Global, conf: &Conf) -> Result<Held, AllocError>
        requires { IsUsable conf.now }
    {
        let mut words = HeldWords::new(alloc, conf.words)?;
        let gaps = MaxRow::new(alloc, conf.words as usize / 4 + 1)?;
        let core = Core::format(&mut words, conf, gaps);
        Ok(Held { words, core })
    }

    pub(crate) fn counts(&self) -> Counts {
        self.core.counts()
    }

    // The place of the row of a key, or 0.
    pub(crate) fn place_of(&mut self, key: &Bytes) -> u32 {
        self.core
            .slots()
            .find(&mut self.words, key.as_slice())
            .unwrap_or(0)
    }

    // The place of the first removed row, or 0.
    pub(crate) fn first_removed(&mut self) -> u32 {
        self.core.slots().first_removed()
    }

    // The reply in an event with this mask.
    pub(crate) fn event(
        &mut self,
        copies: &Copies,
        mask: u64,
        request: &Request,
        t: u64,
    ) -> Option<i64> {
        let (core, words) = (&mut self.core, &mut self.words);
        let first = there(core, words, copies.first.key.as_slice(), copies.first.at);
        let second = there(core, words, copies.second.key.as_slice(), copies.second.at);
        begin_with(core, words, mask, first, second);
        answer_of(core, words, request, t)
    }
}
