//! The map while it has removed rows: their blocks are held, as by a copy in progress, when the
//! rows are dropped, and stay until a store sweeps them.

ghost use Rattle.std.specs.Prelude.{◌≡◌, ℕ, ◌<◌, ◌^◌, true, false, length, replicate, slice_set};
ghost use Rattle.apcu_model.specs.Conf.{IsUsable};
ghost use Rattle.seg_words.specs.Windows.{has};
ghost use Rattle.entry_slots.specs.Lists.{has_place};
ghost use Rattle.entry_slots.specs.Entries.{listed};
ghost use Rattle.entry_slots.specs.Standing.{entries};
ghost use Rattle.cache_core.specs.CoreCache.{CacheStands};
ghost use Rattle.shared_tests.specs.UnheldCaches.{Rests};

use crate::meeting::{CONF, letters};
use apcu_model::{Conf, StoreAnswer};
use cache_core::Core;
use entry_slots::{place_laws, window_laws};
use max_tree::MaxRow;
use notation::ByteOut;
use php_graph::Graph;
use seg_report::{fits, map_text};
use seg_words::{HeldWords, WordsIn};
use std::alloc::{AllocError, Global};
use std::marker::Model;
use std::process::Abort;
use std::test::Fail;

// Begins an event whose mask is worker 0, which may still copy from the block at this place.
fn begin_held(core: &Core, words: &mut HeldWords, at: u32)
    requires rests { Rests ⟦<HeldWords as WordsIn>⟧ core.now words.old }
    requires there { has_place at (listed (entries core.now.slots)) ≡ true }
    ensures stand { CacheStands ⟦<HeldWords as WordsIn>⟧ core.now words.new }
    ensures unrefused { (b : ℕ)
        → has b (⟦<HeldWords as WordsIn>⟧.aside words.new).refused ≡ false }
    ensures held { ⟦<HeldWords as WordsIn>⟧.rest words.new ≡ slice_set (replicate 64 0) 0 at }
{
    window_laws();
    words.hold(0, at);
    words.begin(1);
}

// Begins an event with an empty mask. Before it the block at this place was held, or none for 0.
fn begin_free(core: &Core, words: &mut HeldWords, at: u32)
    requires stand { CacheStands ⟦<HeldWords as WordsIn>⟧ core.now words.old }
    requires held { ⟦<HeldWords as WordsIn>⟧.rest words.old ≡ slice_set (replicate 64 0) 0 at }
    ensures rests { Rests ⟦<HeldWords as WordsIn>⟧ core.now words.new }
    ensures unrefused { (b : ℕ)
        → has b (⟦<HeldWords as WordsIn>⟧.aside words.new).refused ≡ false }
{
    window_laws();
    let _ = at;
    words.hold(0, 0);
    words.begin(0);
}

// A cache over words of which a worker may copy blocks. Contracts see the cache.
#[derive(Drop)]
struct Held {
    words: HeldWords,
    core: Core,
}

impl Model for Held {
    ghost use Rattle.apcu_model.specs.Cache.{Cache};
    ghost use Rattle.cache_core.specs.CoreCache.{cache_of};
    ghost use Rattle.shared_tests.specs.UnheldCaches.{Rests};

    ghost Value = { Cache };

    ghost view = { λ s. cache_of s.core };

    ghost invariant = { λ s. Rests ⟦<HeldWords as WordsIn>⟧ s.core s.words };
}

impl Held {
    fn new(alloc: Global, conf: &Conf) -> Result<Held, AllocError>
        requires { IsUsable conf.now }
    {
        let mut words = HeldWords::new(alloc, conf.words)?;
        let gaps = MaxRow::new(alloc, conf.words as usize / 4 + 1)?;
        let core = Core::format(&mut words, conf, gaps);
        Ok(Held { words, core })
    }

    fn store(&mut self, key: u8, value: &Graph) -> bool {
        begin_free(&self.core, &mut self.words, 0);
        let answer = self.core.store(&mut self.words, &[key], value, 0, false, 0);
        answer == StoreAnswer::Stored
    }

    fn delete(&mut self, key: u8) -> bool {
        begin_free(&self.core, &mut self.words, 0);
        self.core.delete(&mut self.words, &[key], 0)
    }

    // Deletes the row of a key while it is copied.
    fn delete_held(&mut self, key: u8) -> bool {
        place_laws();
        let Some(at) = self.core.slots().find(&mut self.words, &[key]) else {
            return false;
        };
        begin_held(&self.core, &mut self.words, at);
        let found = self.core.delete(&mut self.words, &[key], 0);
        begin_free(&self.core, &mut self.words, at);
        found
    }

    // Stores a value while the row that the key has is copied.
    fn replace_held(&mut self, key: u8, value: &Graph) -> bool {
        place_laws();
        let Some(at) = self.core.slots().find(&mut self.words, &[key]) else {
            return false;
        };
        begin_held(&self.core, &mut self.words, at);
        let answer = self.core.store(&mut self.words, &[key], value, 0, false, 0);
        begin_free(&self.core, &mut self.words, at);
        answer == StoreAnswer::Stored
    }

    fn map(&mut self, out: &mut ByteOut) -> Result<(), AllocError> {
        map_text(&mut self.core, &mut self.words, out)
    }

    fn fits_of_16(&mut self) -> u32 {
        fits(&mut self.core, &mut self.words, 16)
    }
}

// An action under a key of one letter.
#[derive(Clone, Copy)]
enum Act {
    // stores a string of this many bytes
    Put(u8, usize),
    // the same, while the row that the key has is copied
    ReplaceHeld(u8, usize),
    Delete(u8),
    // deletes a row that is copied
    DeleteHeld(u8),
}

fn is_done(rt: &impl Abort, alloc: Global, held: &mut Held, act: Act) -> Result<bool, Fail> {
    match act {
        Act::Put(key, len) => {
            let value = letters(rt, alloc, len)?;
            Ok(held.store(key, &value))
        }
        Act::ReplaceHeld(key, len) => {
            let value = letters(rt, alloc, len)?;
            Ok(held.replace_held(key, &value))
        }
        Act::Delete(key) => Ok(held.delete(key)),
        Act::DeleteHeld(key) => Ok(held.delete_held(key)),
    }
}

// The map after these actions, and how many blocks of 16 words fit.
fn tells(rt: &impl Abort, alloc: Global, acts: &[Act], map: &str, fits: u32) -> Result<(), Fail> {
    assert!(rt; CONF.usable());
    let mut held = Held::new(alloc, &CONF)?;
    for act in acts {
        assert!(rt; is_done(rt, alloc, &mut held, *act)?);
    }
    let mut out = ByteOut::new(alloc);
    held.map(&mut out)?;
    assert!(rt; out.as_slice() == map.as_bytes());
    assert_eq!(rt; held.fits_of_16(), fits);
    Ok(())
}

// A row that was replaced, and two that were deleted, the higher one first. The map has them by
// rising place, and none of their words is free.
const DROPPED: &[Act] = &[
    Act::Put(b'a', 1168),
    Act::Put(b'b', 1),
    Act::Put(b'c', 1168),
    Act::ReplaceHeld(b'a', 1),
    Act::DeleteHeld(b'c'),
    Act::DeleteHeld(b'b'),
];

#[test]
fn removed_rows_by_rising_place(rt: HostRuntime) -> Result<(), Fail> {
    let map = "map\nremoved 32 160 1 s:1:\"a\";\nremoved 192 16 2 s:1:\"b\";\n\
        removed 208 160 3 s:1:\"c\";\nrow 368 16 4 s:1:\"a\";\nfree 384 128\nfree words 128\n\
        largest 128\nruns 1\nfits 16 8\nfits 32 4\nfits 64 2\nfits 128 1\n";
    tells(&rt, rt.alloc(), DROPPED, map, 8)
}

// What was not held is free at once, so the removed row is between two gaps.
#[test]
fn a_removed_row_between_gaps(rt: HostRuntime) -> Result<(), Fail> {
    const ACTS: &[Act] = &[
        Act::Put(b'a', 1168),
        Act::Put(b'7', 1),
        Act::Put(b'c', 1168),
        Act::Delete(b'a'),
        Act::DeleteHeld(b'7'),
        Act::Delete(b'c'),
    ];
    let map = "map\nfree 32 160\nremoved 192 16 2 i:7;\nfree 208 304\nfree words 464\n\
        largest 304\nruns 2\nfits 16 29\nfits 32 14\nfits 64 6\nfits 128 3\nfits 256 1\n";
    tells(&rt, rt.alloc(), ACTS, map, 29)
}

// The next store sweeps the removed rows, and takes the lowest place.
#[test]
fn swept_rows_are_free(rt: HostRuntime) -> Result<(), Fail> {
    let alloc = rt.alloc();
    let mut acts = Vec::with_capacity(alloc, DROPPED.len() + 1)?;
    for act in DROPPED {
        acts.push(*act)?;
    }
    acts.push(Act::Put(b'd', 1))?;
    let map = "map\nrow 32 16 5 s:1:\"d\";\nfree 48 320\nrow 368 16 4 s:1:\"a\";\nfree 384 128\n\
        free words 448\nlargest 320\nruns 2\nfits 16 28\nfits 32 14\nfits 64 7\nfits 128 3\n\
        fits 256 1\n";
    tells(&rt, alloc, &acts, map, 28)
}
