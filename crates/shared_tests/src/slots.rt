//! Steps of a cache without values of its own, and their results.

ghost use Rattle.std.specs.Prelude.{◌≡◌, ℕ, ◌<◌, ◌^◌, false, length, IfSome};
ghost use Rattle.seg_words.specs.Kept.{KeptBeside};
ghost use Rattle.seg_words.specs.Windows.{is_named};
ghost use Rattle.php_graph.specs.Size.{block_size};
ghost use Rattle.apcu_model.specs.Conf.{IsUsable};
ghost use Rattle.entry_slots.specs.Entries.{with_taken, linked, old_place};
ghost use Rattle.entry_slots.specs.Standing.{Stand, entries};

use apcu_model::Conf;
use entry_slots::{EntrySlots, place_laws};
use max_tree::MaxRow;
use php_graph::{Builder, Graph, Item, block_words};
use seg_words::{Segment, VecWords, WordsIn};
use std::alloc::Global;
use std::process::Abort;
use std::test::Fail;

pub(crate) fn number(alloc: Global, n: i64) -> Result<Graph, Fail> {
    let mut builder = Builder::new(alloc);
    builder.push(Item::Int(n))?;
    Ok(builder.seal())
}

pub(crate) fn small() -> Conf
    ensures usable { IsUsable result }
    ensures words { result.words ≡ 512 }
{
    Conf {
        words: 512,
        slots: 32,
        ttl: 0,
        segments: 1,
    }
}

// A row for a key and value, which replaces the key's row at `replaced`; its place.
pub(crate) fn insert<S: Segment>(
    slots: &mut EntrySlots,
    seg: &mut S,
    key: &[u8],
    g: &Graph,
    t: u64,
    replaced: u32,
) -> Option<u32>
    requires short { length key.now < 2 ^ 32 }
    requires small { block_size (length key.now) g.now < 2 ^ 32 }
    requires stand { Stand S.WordsIn slots.old seg.old }
    requires replaces { replaced ≡ old_place key.now (entries slots.old) }
    ensures linked { IfSome result (λ at.
        let size = block_size (length key.now) g.now in
        entries slots.new ≡ linked at key.now g.now 0 t (with_taken at size (entries slots.old))) }
    ensures stand { Stand S.WordsIn slots.new seg.new }
    ensures beside { KeptBeside S.WordsIn seg.old seg.new }
{
    let n = block_words(key.len() as u64, g) as u32;
    let Some(at) = slots.take(seg, n) else {
        return None;
    };
    slots.link(seg, at, key, g, 0, t, replaced);
    Some(at)
}

// A step of a test. All keys are one byte long.
#[derive(Clone, Copy, Debug)]
pub(crate) enum Step {
    // The key's row is put, and replaces an existing row of it.
    Put(u8),
    // The key's row becomes a removed one.
    Remove(u8),
    // The key's row is freed.
    Delete(u8),
    // The first of the removed rows is freed.
    Sweep,
}

// Puts the row of a key; its place.
fn put<S: Segment>(slots: &mut EntrySlots, seg: &mut S, key: u8, g: &Graph, t: u64) -> u32
    requires stand { Stand S.WordsIn slots.old seg.old }
    ensures stand { Stand S.WordsIn slots.new seg.new }
    ensures beside { KeptBeside S.WordsIn seg.old seg.new }
{
    if block_words(1, g) > u64::from(u32::MAX) {
        return 0;
    }
    let replaced = slots.find(seg, &[key]).unwrap_or(0);
    insert(slots, seg, &[key], g, t, replaced).unwrap_or(0)
}

// The row of a key is taken out of its chain, and is removed or freed; the place it had, or 0.
fn leave<S: Segment>(slots: &mut EntrySlots, seg: &mut S, key: u8, removed: bool, t: u64) -> u32
    requires stand { Stand S.WordsIn slots.old seg.old }
    requires closed { (at : ℕ) → is_named (S.aside seg.old).windows at ≡ false }
    ensures stand { Stand S.WordsIn slots.new seg.new }
    ensures beside { KeptBeside S.WordsIn seg.old seg.new }
{
    let Some(at) = slots.find(seg, &[key]) else {
        return 0;
    };
    place_laws();
    slots.unlink(seg, at);
    if removed {
        slots.to_removed(seg, at, t);
    } else {
        slots.free_unlinked(seg, at);
    }
    at
}

// Frees the first of the removed rows; the place it had, or 0.
fn sweep<S: Segment>(slots: &mut EntrySlots, seg: &mut S) -> u32
    requires stand { Stand S.WordsIn slots.old seg.old }
    requires closed { (at : ℕ) → is_named (S.aside seg.old).windows at ≡ false }
    ensures stand { Stand S.WordsIn slots.new seg.new }
    ensures beside { KeptBeside S.WordsIn seg.old seg.new }
{
    let at = slots.first_removed();
    if at == 0 {
        return 0;
    }
    place_laws();
    slots.free(seg, at);
    at
}

// One step; its result.
fn take_step<S: Segment>(slots: &mut EntrySlots, seg: &mut S, step: Step, g: &Graph, t: u64) -> u32
    requires stand { Stand S.WordsIn slots.old seg.old }
    requires closed { (at : ℕ) → is_named (S.aside seg.old).windows at ≡ false }
    ensures stand { Stand S.WordsIn slots.new seg.new }
    ensures beside { KeptBeside S.WordsIn seg.old seg.new }
{
    match step {
        Step::Put(key) => put(slots, seg, key, g, t),
        Step::Remove(key) => leave(slots, seg, key, true, t),
        Step::Delete(key) => leave(slots, seg, key, false, t),
        Step::Sweep => sweep(slots, seg),
    }
}

// Takes the steps, each at the moment of its number, until one does not have its expected result;
// its number.
pub(crate) fn play<S: Segment>(
    slots: &mut EntrySlots,
    seg: &mut S,
    g: &Graph,
    steps: &[(Step, u32)],
) -> usize
    requires stand { Stand S.WordsIn slots.old seg.old }
    requires closed { (at : ℕ) → is_named (S.aside seg.old).windows at ≡ false }
    ensures stand { Stand S.WordsIn slots.new seg.new }
    ensures beside { KeptBeside S.WordsIn seg.old seg.new }
{
    for i in 0..steps.len() {
        let (step, answer) = steps[i];
        if take_step(slots, seg, step, g, i as u64) != answer {
            return i;
        }
    }
    steps.len()
}

// In a cache of 512 words and 32 slots: steps with their results, the rows that are left, the first
// removed one, and words.
pub(crate) fn plays(
    rt: &impl Abort,
    alloc: Global,
    steps: &[(Step, u32)],
    rows: u32,
    first_removed: u32,
    wanted: &[(usize, u64)],
) -> Result<(), Fail> {
    let one = number(alloc, 1)?;
    let mut words = VecWords::new(alloc, 512)?;
    let gaps = MaxRow::new(alloc, 128)?;
    let mut slots = EntrySlots::format(&mut words, &small(), gaps);
    assert_eq!(rt; play(&mut slots, &mut words, &one, steps), steps.len());
    let left = [slots.rows(), slots.first_removed()];
    assert_eq!(rt; left, [rows, first_removed]);
    expect_words(rt, words.into_words().as_slice(), wanted);
    Ok(())
}

// These words are at these places.
fn expect_words(rt: &impl Abort, words: &[u64], wanted: &[(usize, u64)]) {
    for (place, word) in wanted.iter() {
        assert_eq!(rt; words.get(*place), Some(word), "at {place}");
    }
}

// Three keys of one slot, the one in the middle replaced.
pub(crate) const FILL: [(Step, u32); 4] = [
    (Step::Put(b'!'), 32),
    (Step::Put(b'A'), 48),
    (Step::Put(b'a'), 64),
    (Step::Put(b'A'), 80),
];
