//! Reading the words of slots and blocks.

ghost use Rattle.std.specs.Prelude.{◌≡◌, ◌≢◌, ℕ, ◌+◌, ◌<◌, ◌≤◌, ◌^◌, ◌==◌, if◌then◌else◌};
ghost use Rattle.std.specs.Prelude.{length, slice_index};
ghost use Rattle.seg_words.specs.Kept.{Kept};
ghost use Rattle.seg_words.specs.declared.layout.TheConstants.{HEAD_WORDS, PIN_COUNT};
ghost use Rattle.seg_words.specs.Blocks.{IsTold};
ghost use Rattle.apcu_model.specs.Cache.{Row, has_key};
ghost use Rattle.apcu_model.specs.Expiry.{is_hard_expired};
ghost use Rattle.entry_slots.specs.declared.head.TheConstants.{NEXT};
ghost use Rattle.entry_slots.specs.declared.slots.EntrySlots.{EntrySlots};
ghost use Rattle.entry_slots.specs.Lists.{first_place};
ghost use Rattle.entry_slots.specs.Entries.{chain_of, IsListed};
ghost use Rattle.entry_slots.specs.Finding.{HasEntry, HasSlot};
ghost use Rattle.entry_slots.specs.Standing.{entries};

use crate::head::{CTIME, NEXT, TTL, has_passed};
use crate::lower::lower_laws;
use seg_words::{HEAD_WORDS, KEY_LENGTH, PIN_COUNT, WordsIn, words_in};
use value_image::byte_word;

// The words of a block before its pin count.
pub(crate) fn first_words<S: WordsIn>(seg: &mut S, at: u32) -> [u64; 11]
    requires inside { at + HEAD_WORDS ≤ length (S.words seg.old) }
    requires told { (k : ℕ) → k < PIN_COUNT
        → IsTold (S.aside seg.old).windows (at + k) }
    ensures each { (k : ℕ) → k < PIN_COUNT
        → slice_index result k ≡ slice_index (S.words seg.old) (at + k) }
    ensures kept { Kept S.WordsIn seg.old seg.new }
{
    let mut words = [0; 11];
    for k in 0..PIN_COUNT {
        words[k as usize] = seg.load(at + k);
    }
    words
}

// The place of the next block in the list of this one.
pub(crate) fn next_of<S: WordsIn>(seg: &mut S, at: u32) -> u32
    requires inside { at + HEAD_WORDS ≤ length (S.words seg.old) }
    requires told { IsTold (S.aside seg.old).windows (at + NEXT) }
    requires place { slice_index (S.words seg.old) (at + NEXT) < 2 ^ 32 }
    ensures next { result ≡ slice_index (S.words seg.old) (at + NEXT) }
    ensures kept { Kept S.WordsIn seg.old seg.new }
{
    seg.load(at + NEXT) as u32
}

// The first entry of a slot's chain, or 0 if the chain is empty.
pub(crate) fn first_of<S: WordsIn>(seg: &mut S, slot: u32) -> u32
    requires low { (e : EntrySlots) × HasSlot S.WordsIn e seg.old slot }
    ensures first { (e : EntrySlots) → HasSlot S.WordsIn e seg.old slot
        → result ≡ first_place (chain_of (entries e) slot) }
    ensures kept { Kept S.WordsIn seg.old seg.new }
{
    seg.load(slot) as u32
}

// Whether the entry at a place has this key.
pub(crate) fn has_key_at<S: WordsIn>(seg: &mut S, at: u32, key: &[u8]) -> bool
    requires there { (e : EntrySlots) × HasEntry S.WordsIn e seg.old at }
    requires short { length key.now < 2 ^ 32 }
    ensures is { (e : EntrySlots) (row : Row) → HasEntry S.WordsIn e seg.old at
        → IsListed (entries e) at row → result ≡ has_key key.now row }
    ensures kept { Kept S.WordsIn seg.old seg.new }
{
    lower_laws();
    if seg.load(at + KEY_LENGTH) != key.len() as u64 {
        return false;
    }
    for i in 0..words_in(key.len() as u32) {
        if seg.load(at + HEAD_WORDS + i) != byte_word(key, i) {
            return false;
        }
    }
    true
}

/// Whether the own ttl of the entry at a place has expired at the moment `t`, in seconds: a look-up
/// does not find it. The moment of its creation is read only if it has a ttl.
pub fn hard_expired_at<S: WordsIn>(seg: &mut S, at: u32, t: u64) -> bool
    requires there { (e : EntrySlots) × HasEntry S.WordsIn e seg.old at }
    ensures over { (e : EntrySlots) (row : Row) → HasEntry S.WordsIn e seg.old at
        → IsListed (entries e) at row → result ≡ is_hard_expired t row }
    ensures kept { Kept S.WordsIn seg.old seg.new }
{
    let own = seg.load(at + TTL);
    if own == 0 {
        return false;
    }
    let ctime = seg.load(at + CTIME);
    has_passed(own, ctime, t)
}

// The number of rows after a new one has replaced the one at `replaced`, or was added last.
pub(crate) fn count_after(count: u32, replaced: u32) -> u32
    requires { count + 1 < 2 ^ 32 }
    ensures { result ≡ (if replaced == 0 then count + 1 else count) }
{
    if replaced == 0 { count + 1 } else { count }
}

// The moment up to which no row is expired, after one of the rows left and `count` are left.
pub(crate) fn soonest_after(count: u32, soonest: u64) -> u64
    ensures some { count ≢ 0 → result ≡ soonest }
    ensures none { count ≡ 0 → result + 1 ≡ 2 ^ 64 }
{
    if count == 0 { u64::MAX } else { soonest }
}
