//! Calls on an existing row, on a slot and on all rows.

ghost use Rattle.std.specs.Prelude.{◌≡◌, ℕ, ◌*◌, ◌<◌, ◌≤◌, ◌^◌, true, false, [], length};
ghost use Rattle.std.specs.Prelude.{slice_index};
ghost use Rattle.seg_words.specs.Kept.{Kept, KeptBeside};
ghost use Rattle.seg_words.specs.Windows.{is_named};
ghost use Rattle.php_graph.specs.Size.{block_size};
ghost use Rattle.apcu_model.specs.Conf.{IsUsable};
ghost use Rattle.entry_slots.specs.Lists.{has_place};
ghost use Rattle.entry_slots.specs.Entries.{no_entries, chain_of, listed};
ghost use Rattle.entry_slots.specs.Standing.{Stand, entries};

use crate::slots::{FILL, insert, number, play, small};
use apcu_model::Conf;
use entry_slots::{EntrySlots, Head, leaving_laws, place_laws, standing_laws};
use max_tree::MaxRow;
use php_graph::{Graph, Kind, block_words};
use seg_words::{Segment, VecWords, WordsIn};
use std::test::Fail;

#[test]
fn sets_and_uses(rt: HostRuntime) -> Result<(), Fail> {
    let mut words = VecWords::new(rt.alloc(), 512)?;
    let five = number(rt.alloc(), 5)?;
    let gaps = MaxRow::new(rt.alloc(), 128)?;
    let Some(read) = set_and_use(&mut words, &small(), gaps, b"ab", &five, -1, 9) else {
        panic!(rt; "there is room");
    };
    assert_eq!(rt; numbers_of(&read), [2, 45, 2, 16, 0, 9, 9, 0, 1, 0, 1]);
    assert!(rt; read.has_key && read.next == 0);
    assert_eq!(rt; read.image, (45, 2));
    assert!(rt; !read.is_expired);
    assert_eq!(rt; words.into_words().get(46), Some(&u64::MAX));
    Ok(())
}

// What is read of an entry.
#[derive(Clone, Copy)]
struct Read {
    head: Head,
    has_key: bool,
    next: u32,
    // The place of the image and its length.
    image: (u32, u32),
    is_expired: bool,
}

// The key's length, the image's place and length, and the block's size; when it was created,
// changed, used and dropped; its hits, its ttl and its number.
fn numbers_of(read: &Read) -> [u64; 11] {
    let head = read.head;
    [
        u64::from(head.key_len),
        u64::from(head.image),
        u64::from(head.image_len),
        u64::from(head.size),
        head.ctime,
        head.mtime,
        head.atime,
        head.dtime,
        head.hits,
        u64::from(head.ttl),
        head.number,
    ]
}

// In a new cache: stores a number under a key, sets it to n at the moment t, and uses it; what is
// read of it then.
fn set_and_use<S: Segment>(
    seg: &mut S,
    conf: &Conf,
    gaps: MaxRow,
    key: &[u8],
    g: &Graph,
    n: i64,
    t: u64,
) -> Option<Read>
    requires short { length key.now < 2 ^ 32 }
    requires usable { IsUsable conf.now }
    requires all { length (S.words seg.old) ≡ conf.now.words }
    requires closed { (at : ℕ) → is_named (S.aside seg.old).windows at ≡ false }
    requires enough { length (S.words seg.old) ≤ 4 * length gaps }
    requires zeros { (i : ℕ) → slice_index gaps i ≡ 0 }
{
    let mut slots = EntrySlots::format(seg, conf, gaps);
    if !is_empty_in(&slots, seg, 0) {
        return None;
    }
    if block_words(key.len() as u64, g) > u64::from(u32::MAX) || g.places() == 0 {
        return None;
    }
    update(&mut slots, seg, conf, key, g, n, t)
}

// The same after the cache was made.
fn update<S: Segment>(
    slots: &mut EntrySlots,
    seg: &mut S,
    conf: &Conf,
    key: &[u8],
    g: &Graph,
    n: i64,
    t: u64,
) -> Option<Read>
    requires short { length key.now < 2 ^ 32 }
    requires small { block_size (length key.now) g.now < 2 ^ 32 }
    requires stand { Stand S.WordsIn slots.old seg.old }
    requires empty { entries slots.old ≡ no_entries conf.now }
    requires closed { (at : ℕ) → is_named (S.aside seg.old).windows at ≡ false }
    requires ints { 1 ≤ length g.now }
{
    let Kind::Int(_) = g.kind(1) else {
        return None;
    };
    let at = insert(slots, seg, key, g, 0, 0)?;
    slots.set_int(seg, at, n, t);
    slots.touch(seg, at, t);
    Some(read_at(slots, seg, at, key))
}

fn read_at<S: Segment>(slots: &EntrySlots, seg: &mut S, at: u32, key: &[u8]) -> Read
    requires short { length key.now < 2 ^ 32 }
    requires stand { Stand S.WordsIn slots.now seg.old }
    requires there { has_place at (listed (entries slots.now)) ≡ true }
{
    let head = slots.head(seg, at);
    let has_key = slots.key_is(seg, at, key);
    let next = slots.after(seg, at);
    let place = slots.image_at(seg, at, key.len() as u32);
    let len = slots.image_len(seg, at);
    let is_expired = slots.is_hard_expired(seg, at, 9);
    Read {
        head,
        has_key,
        next,
        image: (place, len),
        is_expired,
    }
}

// Whether the chain of the slot is empty.
fn is_empty_in<S: Segment>(slots: &EntrySlots, seg: &mut S, slot: u32) -> bool
    requires stand { Stand S.WordsIn slots.now seg.old }
    requires slot { slot < (entries slots.now).conf.slots }
    ensures kept { Kept S.WordsIn seg.old seg.new }
{
    slots.first_in(seg, slot) == 0
}

// All rows of a slot become removed ones.
fn drop_slot<S: Segment>(slots: &mut EntrySlots, seg: &mut S, slot: u32, t: u64)
    requires stand { Stand S.WordsIn slots.old seg.old }
    requires slot { slot < (entries slots.old).conf.slots }
    ensures empty { chain_of (entries slots.new) slot ≡ [] }
    ensures stand { Stand S.WordsIn slots.new seg.new }
    ensures beside { KeptBeside S.WordsIn seg.old seg.new }
{
    leaving_laws();
    place_laws();
    standing_laws();
    let mut at = slots.first_in(seg, slot);
    while at != 0 {
        slots.unlink(seg, at);
        slots.to_removed(seg, at, t);
        at = slots.first_in(seg, slot);
    }
}

#[test]
fn drops_a_slot(rt: HostRuntime) -> Result<(), Fail> {
    let one = number(rt.alloc(), 1)?;
    let mut words = VecWords::new(rt.alloc(), 512)?;
    let gaps = MaxRow::new(rt.alloc(), 128)?;
    let mut slots = EntrySlots::format(&mut words, &small(), gaps);
    assert_eq!(rt; play(&mut slots, &mut words, &one, &FILL), 4);
    assert_eq!(rt; slots.words(), 512);
    assert!(rt; slots.slots() > 6);
    drop_slot(&mut slots, &mut words, 6, 7);
    let left = [slots.rows(), slots.first_removed()];
    assert_eq!(rt; left, [0, 32]);
    Ok(())
}

// In a new cache: puts a row, and frees all rows at once; the place of the row, how many were left,
// and the place of the next one.
fn clear<S: Segment>(
    seg: &mut S,
    conf: &Conf,
    gaps: MaxRow,
    key: &[u8],
    g: &Graph,
) -> Option<(u32, u32, Option<u32>)>
    requires short { length key.now < 2 ^ 32 }
    requires usable { IsUsable conf.now }
    requires all { length (S.words seg.old) ≡ conf.now.words }
    requires closed { (at : ℕ) → is_named (S.aside seg.old).windows at ≡ false }
    requires enough { length (S.words seg.old) ≤ 4 * length gaps }
    requires zeros { (i : ℕ) → slice_index gaps i ≡ 0 }
{
    let mut slots = EntrySlots::format(seg, conf, gaps);
    if block_words(key.len() as u64, g) > u64::from(u32::MAX) {
        return None;
    }
    let at = insert(&mut slots, seg, key, g, 0, 0)?;
    slots.free_rows_beside(seg, &[]);
    Some((at, slots.rows(), slots.take(seg, 400)))
}

#[test]
fn frees_all_rows(rt: HostRuntime) -> Result<(), Fail> {
    let mut words = VecWords::new(rt.alloc(), 512)?;
    let five = number(rt.alloc(), 5)?;
    let gaps = MaxRow::new(rt.alloc(), 128)?;
    assert_eq!(rt;
        clear(&mut words, &small(), gaps, b"ab", &five),
        Some((32, 0, Some(32)))
    );
    assert_eq!(rt; words.into_words().get(7), Some(&0));
    Ok(())
}
