//! The shape of the slots, the number of rows and of the words that they take, and caches without
//! rows.

ghost use Rattle.std.specs.Prelude.{◌≡◌, ℕ, ◌<◌, ◌≤◌, ◌*◌, false, length, slice_index};
ghost use Rattle.std.specs.Prelude.{sum_by};
ghost use Rattle.seg_words.specs.Kept.{Kept, KeptBeside};
ghost use Rattle.seg_words.specs.Windows.{is_named};
ghost use Rattle.sma_blocks.specs.Ready.{ChangesBefore};
ghost use Rattle.apcu_model.specs.Conf.{IsUsable};
ghost use Rattle.apcu_model.specs.Cache.{Row};
ghost use Rattle.entry_slots.specs.Entries.{IsWhole, no_entries};
ghost use Rattle.entry_slots.specs.Standing.{Stand, IsStanding, entries};

use crate::slots::EntrySlots;
use crate::standing::Standing;
use apcu_model::Conf;
use max_tree::MaxRow;
use seg_words::{Segment, WordsIn};
use sma_blocks::Sma;

impl EntrySlots {
    /// Makes a cache of this shape without rows. No window may be open.
    ///
    /// `gaps` is the memory of the index of gaps: zeros, one for every four words.
    pub fn format<S: Segment>(seg: &mut S, conf: &Conf, gaps: MaxRow) -> EntrySlots
        requires usable { IsUsable conf.now }
        requires all { length (S.words seg.old) ≡ conf.now.words }
        requires closed { (at : ℕ) → is_named (S.aside seg.old).windows at ≡ false }
        requires enough { length (S.words seg.old) ≤ 4 * length gaps }
        requires zeros { (i : ℕ) → slice_index gaps i ≡ 0 }
        ensures made { entries result ≡ no_entries conf.now }
        ensures stand { Stand S.WordsIn result seg.new }
        ensures beside { KeptBeside S.WordsIn seg.old seg.new }
    {
        end_chains(seg, conf.slots);
        EntrySlots {
            sma: Sma::format(seg, conf.slots, conf.piece(), gaps),
            removed: 0,
            next_number: 1,
            count: 0,
            limit: conf.ttl,
            soonest: u64::MAX,
            standing: Standing::start(conf),
        }
    }

    /// The number of slots.
    pub fn slots(&self) -> u32
        requires stand { IsStanding self.now }
        ensures slots { result ≡ (entries self.now).conf.slots }
    {
        self.sma.bounds.from
    }

    /// The number of words of the segment.
    pub fn words(&self) -> u32
        requires stand { IsStanding self.now }
        ensures words { result ≡ (entries self.now).conf.words }
    {
        self.sma.bounds.to
    }

    /// The allocator, for information about the gaps.
    pub fn sma(&self) -> &Sma
        ensures { result.now ≡ self.now.sma }
    {
        &self.sma
    }

    /// The number of rows.
    pub fn rows(&self) -> u32
        requires stand { IsStanding self.now }
        ensures rows { result ≡ length (entries self.now).rows }
    {
        self.count
    }

    /// The number of words in the blocks of all rows. No block may be loose.
    ///
    /// Blocks and gaps fill the words after the slots, so these are the words that are in no gap
    /// and no removed row: it takes time in proportion to the removed rows, however many rows there
    /// are.
    pub fn row_words<S: WordsIn>(&self, seg: &mut S) -> u32
        requires stand { Stand S.WordsIn self.now seg.old }
        requires whole { IsWhole (entries self.now) }
        ensures words { result ≡ sum_by (λ (row : Row). row.size) (entries self.now).rows }
        ensures kept { Kept S.WordsIn seg.old seg.new }
    {
        let free = self.sma.free_words(seg);
        let mut words = self.sma.bounds.to - self.sma.bounds.from - free;
        let mut at = self.removed;
        while at != 0 {
            words -= seg.load(at) as u32;
            at = self.after(seg, at);
        }
        words
    }
}

// Ends the chain of each slot at the slot's word.
fn end_chains<S: Segment>(seg: &mut S, slots: u32)
    requires inside { slots ≤ length (S.words seg.old) }
    requires closed { (at : ℕ) → is_named (S.aside seg.old).windows at ≡ false }
    ensures others { ChangesBefore (S.words seg.old) (S.words seg.new) slots }
    ensures ended { (slot : ℕ) → slot < slots → slice_index (S.words seg.new) slot ≡ 0 }
    ensures beside { KeptBeside S.WordsIn seg.old seg.new }
{
    for slot in 0..slots {
        seg.store(slot, 0);
    }
}
