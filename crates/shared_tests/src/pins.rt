//! Blocks that workers pin in a table of words, and what the writer's probes then find.

ghost use Rattle.std.specs.Prelude.{◌≡◌, ℕ, ◌+◌, ◌<◌, ◌≤◌, length, slice_index, slice_set};
ghost use Rattle.std.specs.Prelude.{Some, None, IfOk, IfSome};
ghost use Rattle.pin_table.specs.Pins.{MayPin, content_of};
ghost use Rattle.pin_table.specs.Lists.{first_passes, first_pass};
ghost use Rattle.shared_tests.specs.Pinned.{one_block};

use apcu_model::Ask;
use pin_table::{Copying, Ended, Pass, Passes, PinTable, WriterSeat, rule_laws};
use seg_words::{Segment, VecWords, WordsIn};
use std::alloc::{AllocError, Global};
use std::test::Fail;

fn one_block(alloc: Global) -> Result<VecWords, AllocError>
    ensures { IfOk result (λ w. ⟦<VecWords as WordsIn>⟧.words w ≡ one_block) }
{
    let mut items = Vec::from_elem(alloc, 0u64, 32)?;
    items[4] = 3;
    items[5] = 9;
    items[15] = 9;
    items[18] = 12;
    items[23] = 6;
    Ok(VecWords::from_words(items))
}

fn two_passes(table: &PinTable, budgets: &[u32], passes: &mut Passes) -> Option<(Pass, Pass)>
    requires { passes.old ≡ first_passes table.now budgets.now 2 }
    ensures first { IfSome result (λ p. p.0 ≡ first_pass table.now budgets.now 0) }
    ensures second { IfSome result (λ p. p.1 ≡ first_pass table.now budgets.now 1) }
{
    let second = passes.pop()?;
    let first = passes.pop()?;
    Some((first, second))
}

// A pass that copies goes to another thread, and the table is shared by all.
fn crosses<C: Send, T: Sync>(copying: C, _table: &T) -> C
    ensures { result ≡ copying }
{
    copying
}

// Stores `w` at the word 1 twice, and loads it. No block has this word.
fn writes(table: &PinTable, seat: &mut WriterSeat, pass: Pass, w: u64) -> (Pass, u64)
    requires table { seat.old.table ≡ table.now }
    requires pass { pass.table ≡ table.now }
    requires hand { seat.old.state.log.hand ≡ None }
    requires left { 1 ≤ pass.known.left }
    requires place { 1 < length seat.old.state.words }
    ensures table { seat.new.table ≡ seat.old.table }
    ensures hand { seat.new.state.log.hand ≡ None }
    ensures made { seat.new.state.log.made ≡ seat.old.state.log.made }
    ensures words { seat.new.state.words ≡ slice_set seat.old.state.words 1 w }
    ensures windows { seat.new.state.windows
        ≡ slice_set seat.old.state.windows pass.known.worker 0 }
    ensures pass { result.0.table ≡ pass.table }
    ensures worker { result.0.known.worker ≡ pass.known.worker }
    ensures left { result.0.known.left + 1 ≡ pass.known.left }
{
    let mut writer = table.writer(seat, pass);
    writer.store(1, w);
    writer.store(1, w);
    let found = writer.load(1);
    (writer.give_pass(Ask::Clear, 4), found)
}

// Fetches, and pins the block at 2.
fn pins(table: &PinTable, seat: &mut WriterSeat, pass: Pass) -> Copying
    requires table { seat.old.table ≡ table.now }
    requires pass { pass.table ≡ table.now }
    requires hand { seat.old.state.log.hand ≡ None }
    requires left { 1 ≤ pass.known.left }
    requires block { MayPin seat.old.state.words
        (slice_set seat.old.state.windows pass.known.worker 0) 2 }
    ensures table { seat.new.table ≡ seat.old.table }
    ensures hand { seat.new.state.log.hand ≡ None }
    ensures made { seat.new.state.log.made ≡ seat.old.state.log.made }
    ensures words { seat.new.state.words ≡ seat.old.state.words }
    ensures copying { result.table ≡ pass.table }
    ensures content { result.copy.content ≡ content_of seat.old.state.words 2 }
    ensures worker { result.copy.known.worker ≡ pass.known.worker }
    ensures left { result.copy.known.left + 1 ≡ pass.known.left }
{
    let writer = table.writer(seat, pass);
    writer.give_copying(Ask::Fetch(b"key"), 5, 2)
}

// Probes the block at 2: the result, and the workers found.
fn probes(table: &PinTable, seat: &mut WriterSeat, pass: Pass) -> (Pass, bool, u64)
    requires table { seat.old.table ≡ table.now }
    requires pass { pass.table ≡ table.now }
    requires hand { seat.old.state.log.hand ≡ None }
    requires left { 1 ≤ pass.known.left }
    requires inside { 14 ≤ length seat.old.state.words }
    requires count { slice_index seat.old.state.words 13 ≡ 0 }
    ensures table { seat.new.table ≡ seat.old.table }
    ensures hand { seat.new.state.log.hand ≡ None }
    ensures made { seat.new.state.log.made ≡ seat.old.state.log.made }
    ensures words { seat.new.state.words ≡ seat.old.state.words }
    ensures pass { result.0.table ≡ pass.table }
    ensures worker { result.0.known.worker ≡ pass.known.worker }
    ensures left { result.0.known.left + 1 ≡ pass.known.left }
{
    let mut writer = table.writer(seat, pass);
    let free = writer.probe(2);
    let mask = writer.mask();
    (writer.give_pass(Ask::Delete(b"key"), 6), free, mask)
}

// Ends a worker, and returns what it has seen.
fn ends(table: &PinTable, seat: &mut WriterSeat, pass: Pass) -> Ended
    requires table { seat.old.table ≡ table.now }
    requires pass { pass.table ≡ table.now }
    requires hand { seat.old.state.log.hand ≡ None }
    requires left { 1 ≤ pass.known.left }
    ensures table { seat.new.table ≡ seat.old.table }
    ensures hand { seat.new.state.log.hand ≡ None }
    ensures made { seat.new.state.log.made ≡ seat.old.state.log.made }
    ensures words { seat.new.state.words ≡ seat.old.state.words }
    ensures pass { result.table ≡ pass.table }
    ensures worker { result.known.worker ≡ pass.known.worker }
{
    let back = table.writer(seat, pass).give_back();
    let seen = table.writer(seat, back).give_seen();
    let ended = table.writer(seat, seen).give_ended();
    table.learn(seat, ended)
}

// Words of the image, one by one and eight at a time, and the number of words in the image.
fn copied(table: &PinTable, copying: &mut Copying) -> (u64, u64, [u64; 8], u32)
    requires table { copying.old.table ≡ table.now }
    requires length { length copying.old.copy.content ≡ 9 }
    ensures { copying.new ≡ copying.old }
{
    let first = copying.word(table, 0);
    let mut image = copying.image(table);
    let fourth = image.load(3);
    let eight = image.load_eight(1);
    let count = image.len();
    let pin_table::Image {
        table: _,
        copying: _,
        first: _,
    } = image;
    (first, fourth, eight, count)
}

// What is seen on the way: the passes' numbers and events, the word that was stored, the results of
// the two probes and whom they found, the place of the image and what was copied of it, the events
// that are left after the second probe, and the words that are returned.
#[derive(Clone, Copy)]
struct Seen {
    passes: [u32; 4],
    found: u64,
    held: (bool, u64),
    range: (u32, u32),
    image: (u64, u64, [u64; 8], u32),
    free: (bool, u64),
    left: [u32; 2],
    words: (u32, u64, u64, u64),
}

// The first pass pins the block while the second one stores and probes; then it unpins the block,
// and the second one probes again.
fn pin_probe_and_release(alloc: Global) -> Result<Seen, Fail> {
    let words = one_block(alloc)?;
    let budgets = [4u32, 4u32];
    let (table, mut seat, mut passes, mut ended) = PinTable::new(alloc, words, &budgets)?;
    let Some((first, second)) = two_passes(&table, &budgets, &mut passes) else {
        return Err(Fail::new("two passes"));
    };
    let passes = [first.worker(), first.left(), second.worker(), second.left()];
    let (second, found) = writes(&table, &mut seat, second, 77);
    let mut copying = crosses(pins(&table, &mut seat, first), &table);
    let (second, held, met) = probes(&table, &mut seat, second);
    let range = copying.range();
    let image = copied(&table, &mut copying);
    let first = copying.release(&table);
    let (second, free, nobody) = probes(&table, &mut seat, second);
    let left = [first.left(), second.left()];
    ended.push(ends(&table, &mut seat, first));
    ended.push(ends(&table, &mut seat, second));
    let mut back = table.close(seat, ended);
    Ok(Seen {
        passes,
        found,
        held: (held, met),
        range,
        image,
        free: (free, nobody),
        left,
        words: (back.len(), back.load(1), back.load(4), back.load(13)),
    })
}

#[test]
fn pins_probes_and_releases(rt: HostRuntime) -> Result<(), Fail> {
    let seen = pin_probe_and_release(rt.alloc())?;
    assert_eq!(rt; seen.passes, [0, 4, 1, 4]);
    assert_eq!(rt; seen.found, 77);
    assert_eq!(rt; seen.held, (false, 1));
    assert_eq!(rt; seen.range, (15, 9));
    assert_eq!(rt; seen.image, (9, 12, [0, 0, 12, 0, 0, 0, 0, 6], 9));
    assert_eq!(rt; seen.free, (true, 0));
    assert_eq!(rt; seen.left, [3, 1]);
    assert_eq!(rt; seen.words, (32, 77, 3, 0));
    Ok(())
}

#[test]
fn pin_table_states_its_laws() {
    rule_laws();
}
