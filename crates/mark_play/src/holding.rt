//! The blocks that the workers of a mask may still copy from.

ghost use Rattle.std.specs.Prelude.{◌≡◌, ℕ, ◌<◌, ◌≤◌, ◌++◌, true, length, slice_index, None};
ghost use Rattle.std.specs.Prelude.{slice_index_or, Contains};
ghost use Rattle.std.specs.Int.{bit_at};
ghost use Rattle.seg_words.specs.Kept.{Kept};
ghost use Rattle.apcu_model.specs.declared.limits.TheConstants.{MOST_WORKERS};
ghost use Rattle.apcu_model.specs.Cache.{Row};
ghost use Rattle.entry_slots.specs.Entries.{listed};
ghost use Rattle.entry_slots.specs.Standing.{Stand, entries};
ghost use Rattle.apcu_model.specs.History.{Stage};
ghost use Rattle.mark_play.specs.HeldPlaces.{HasKeyIn, IsHeldFor, IsRowPlace};
ghost use Rattle.mark_play.specs.EventStarts.{HasReached, Begins};
ghost use Rattle.mark_play.specs.ReplayStages.{IsReached};

use crate::answering::Window;
use crate::lower::lower_laws;
use apcu_model::MOST_WORKERS;
use cache_core::Core;
use entry_slots::EntrySlots;
use seg_words::{HeldWords, Segment, WordsIn};
use std::marker::Model;

// The place of the row of the window's key, if it has the window's number; otherwise 0.
fn row_of<S: Segment>(slots: &EntrySlots, seg: &mut S, window: &Window) -> u32
    requires stand { Stand S.WordsIn slots.now seg.old }
    requires key { HasKeyIn (listed (entries slots.now)) window.now }
    ensures place { IsRowPlace (entries slots.now).rows window.now.number result }
    ensures kept { Kept S.WordsIn seg.old seg.new }
{
    lower_laws();
    let Some(at) = slots.find(seg, window.key.as_slice()) else {
        return 0;
    };
    if slots.head(seg, at).number != window.number {
        return 0;
    }
    at
}

// The place of the removed row of a number; otherwise 0.
fn removed_of<S: Segment>(slots: &EntrySlots, seg: &mut S, number: u64) -> u32
    requires stand { Stand S.WordsIn slots.now seg.old }
    ensures place { IsRowPlace (entries slots.now).removed number result }
    ensures kept { Kept S.WordsIn seg.old seg.new }
{
    lower_laws();
    let mut at = slots.first_removed();
    while at != 0 {
        if slots.head(seg, at).number == number {
            return at;
        }
        at = slots.after(seg, at);
    }
    at
}

// The place of the row or removed row that a window is of; 0 if it was freed.
fn place_of<S: Segment>(slots: &EntrySlots, seg: &mut S, window: &Window) -> u32
    requires stand { Stand S.WordsIn slots.now seg.old }
    requires key { HasKeyIn (listed (entries slots.now)) window.now }
    ensures place { IsRowPlace (listed (entries slots.now)) window.now.number result }
    ensures kept { Kept S.WordsIn seg.old seg.new }
{
    let at = row_of(slots, seg, window);
    if at != 0 {
        return at;
    }
    removed_of(slots, seg, window.number)
}

// The place to hold for a worker.
fn place_for<S: Segment>(slots: &EntrySlots, seg: &mut S, window: &Option<Window>) -> u32
    requires stand { Stand S.WordsIn slots.now seg.old }
    requires key { (w : _) → window.now ≡ Some w → HasKeyIn (listed (entries slots.now)) w }
    ensures place { IsHeldFor (listed (entries slots.now)) window.now result }
    ensures kept { Kept S.WordsIn seg.old seg.new }
{
    match window {
        None => 0,
        Some(window) => place_of(slots, seg, window),
    }
}

// Holds for each worker of the mask the block that its window is of, if that still exists.
fn hold_all(slots: &EntrySlots, words: &mut HeldWords, windows: &[Option<Window>], mask: u64)
    requires stand { Stand ⟦<HeldWords as WordsIn>⟧ slots.now words.old }
    requires full { length windows.now ≡ MOST_WORKERS }
    requires seats { length (⟦<HeldWords as WordsIn>⟧.rest words.old) ≡ MOST_WORKERS }
    requires keys { (v : ℕ) (w : _) → slice_index_or windows.now v None ≡ Some w
        → HasKeyIn (listed (entries slots.now)) w }
    ensures held { (v : ℕ) → v < MOST_WORKERS → bit_at mask v ≡ 1
        → IsHeldFor (listed (entries slots.now)) (slice_index_or windows.now v None)
        (slice_index (⟦<HeldWords as WordsIn>⟧.rest words.new) v) }
    ensures seats { length (⟦<HeldWords as WordsIn>⟧.rest words.new) ≡ MOST_WORKERS }
    ensures words { ⟦<HeldWords as WordsIn>⟧.words words.new
        ≡ ⟦<HeldWords as WordsIn>⟧.words words.old }
    ensures aside { ⟦<HeldWords as WordsIn>⟧.aside words.new
        ≡ ⟦<HeldWords as WordsIn>⟧.aside words.old }
{
    // The mask of most events is empty.
    if mask == 0 {
        return;
    }
    for worker in 0..MOST_WORKERS {
        if mask >> worker & 1 == 1 {
            let at = place_for(slots, words, &windows[worker as usize]);
            words.hold(worker, at);
        }
    }
}

// Begins an event with this mask.
pub(crate) fn begin_event(
    core: &mut Core,
    words: &mut HeldWords,
    windows: &[Option<Window>],
    mask: u64,
)
    requires { HasReached ⟦<HeldWords as WordsIn>⟧ core.old words.old windows.now }
    ensures { (m : Stage) (left : ℕ)
        → IsReached ⟦<HeldWords as WordsIn>⟧ core.old words.old windows.now m left
        → Begins ⟦<HeldWords as WordsIn>⟧ core.new words.old words.new windows.now m left mask }
{
    lower_laws();
    hold_all(core.slots(), words, windows, mask);
    words.begin(mask);
}
